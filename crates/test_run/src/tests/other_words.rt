//! Words that are no command.
use super::said_unread;
use std::test::Fail;

const OTHERS: &[&[&str]] = &[
    &[],
    &["cores"],
    &["Nucleolus"],
    &["check", "check"],
    &["propose", "x"],
    // A kind has no game of these sizes.
    &["gen", "table", "0", "1"],
    &["gen", "table", "17", "1"],
    &["gen", "tree", "0", "1"],
    &["gen", "tree", "17", "1"],
    &["gen", "airport", "0", "1"],
    &["gen", "bankruptcy", "0", "1"],
    &["gen", "bankruptcy", "65", "1"],
    &["gen", "assignment", "1", "1"],
    &["gen", "assignment", "17", "1"],
    // Sizes, seeds and kinds that are none.
    &["gen", "airport", "65", "7"],
    &["gen", "table", "02", "1"],
    &["gen", "table", "2", "01"],
    &["gen", "table", "2", "00"],
    &["gen", "table", "+2", "1"],
    &["gen", "table", "-2", "1"],
    &["gen", "table", "2", "-0"],
    &["gen", "table", "2", "+1"],
    &["gen", "table", "2", "1/2"],
    &["gen", "table", "2", "2/1"],
    &["gen", "table", "2", " 1"],
    &["gen", "table", "", "1"],
    &["gen", "table", "2", ""],
    &["gen", "table", "2", "2147483648"],
    &["gen", "table", "2", "4294967296"],
    &["gen", "table", "2", "4294967297"],
    &["gen", "table", "18446744073709551618", "1"],
    &[
        "gen",
        "table",
        "2",
        "1000000000000000000000000000000000000000000",
    ],
    &["gen", "cost-table", "2", "1"],
    &["gen", "Table", "2", "1"],
    &["gen", "", "2", "1"],
    // Three words more are needed.
    &["gen"],
    &["gen", "table"],
    &["gen", "table", "2"],
    &["gen", "table", "2", "1", "1"],
];

// A read would fail, and end the run with another status.
#[test]
fn other_words_read_nothing(rt: HostRuntime) -> Result<(), Fail> {
    for &words in OTHERS {
        let found = said_unread(rt.alloc(), words)?;
        assert_eq!(rt; found.as_str(), r#"Usage {"usage":"words"}"#, "{words:?}");
    }
    Ok(())
}
