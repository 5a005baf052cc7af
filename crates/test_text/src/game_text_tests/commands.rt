//! What commands look at in a document.
use super::expect_each;
use game_text::{Command, Refusal};
use std::test::Fail;

/// What `check` can't do without: the answer, the certificate, the shares, the game.
const PARTS_MISSING: &str = r#"
    {"certificate":{"levels":[],"mode":"span"},"game":{"class":"airport","costs":[2]},"shares":[1]}
    {"answer":"nucleolus","game":{"class":"airport","costs":[2]},"shares":[1]}
    {"answer":"nucleolus","certificate":{"levels":[],"mode":"span"},"game":{"class":"airport","costs":[2]}}
    {"answer":"nucleolus","certificate":{"levels":[],"mode":"span"},"shares":[1]}
"#;

const ALL_PARTS: &str = concat!(
    r#"{"answer":"nucleolus","certificate":{"levels":[],"mode":"span"},"#,
    r#""game":{"class":"airport","costs":[2]},"shares":[1]}"#,
);

/// Commands, why they refuse documents, if they do, and these.
const ROWS: [(Command, Option<Refusal>, &str); 9] = [
    (
        Command::Nucleolus,
        None,
        r#"{"answer":1,"certificate":[],"game":{"class":"airport","costs":[2,4,6]},"shares":null}"#,
    ),
    (
        Command::Nucleolus,
        Some(Refusal::Shape),
        r#"
        {"game":{"class":"airport","costs":[2,4,6]},"share":null}
        {"shares":[1,1,1]}
        "#,
    ),
    (
        Command::Prenucleolus,
        None,
        r#"{"game":{"class":"airport","costs":[2,4,6]}}"#,
    ),
    (
        Command::Prenucleolus,
        Some(Refusal::Number),
        r#"{"game":{"class":"airport","costs":[-1]},"shares":[1.5]}"#,
    ),
    (
        Command::Propose,
        None,
        r#"{"answer":1,"certificate":[],"game":{"class":"airport","costs":[2,4,6]},"shares":[1,1,1]}"#,
    ),
    (
        Command::Core,
        None,
        r#"{"answer":1,"game":{"class":"airport","costs":[2,4,6]},"shares":[]}"#,
    ),
    (Command::Check, Some(Refusal::Shape), PARTS_MISSING),
    (Command::Check, None, ALL_PARTS),
    (
        Command::Shapley,
        None,
        r#"{"answer":1,"certificate":[],"game":{"class":"airport","costs":[2,4,6]},"shares":[]}"#,
    ),
];

// What a command doesn't need isn't looked at; but each key is known. A newline may stand at the end.
#[test]
fn commands_look_at_what_they_need(rt: HostRuntime) -> Result<(), Fail> {
    for &(command, refusal, lines) in &ROWS {
        let row = &[(refusal, lines)];
        expect_each(&rt, rt.alloc(), command, ("", "\n"), row)?;
    }
    Ok(())
}
