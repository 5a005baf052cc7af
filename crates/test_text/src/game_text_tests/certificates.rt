//! Certificates in documents, line by line of their form. Of a key that comes twice the last counts, so a row changes
//! what stands in front of it.
use super::expect_each;
use game_text::{Command, Refusal};
use std::test::Fail;

/// A document of three players with its certificate.
const CERTIFICATE: (&str, &str) = (
    r#"{"answer":"nucleolus","game":{"class":"airport","costs":[2,4,6]},"shares":[1,1,1],"certificate":"#,
    "}",
);

/// Its levels.
const LEVELS: (&str, &str) = (
    concat!(
        r#"{"answer":"nucleolus","game":{"class":"airport","costs":[2,4,6]},"shares":[1,1,1],"#,
        r#""certificate":{"mode":"players","levels":["#,
    ),
    "]}}",
);

/// One level with its five values, and then another value.
const LEVEL: (&str, &str) = (
    concat!(
        r#"{"answer":"nucleolus","game":{"class":"airport","costs":[2,4,6]},"shares":[1,1,1],"#,
        r#""certificate":{"mode":"players","levels":[{"bounds":[],"coalitions":[[[1],1],[[2,3],1]],"#,
        r#""earlier":[],"excess":"-1","total":1,"#,
    ),
    "}]}}",
);

/// That level, and the earlier coalitions of a second one.
const EARLIER: (&str, &str) = (
    concat!(
        r#"{"answer":"nucleolus","game":{"class":"airport","costs":[2,4,6]},"shares":[1,1,1],"#,
        r#""certificate":{"mode":"players","levels":[{"bounds":[],"coalitions":[[[1],1],[[2,3],1]],"#,
        r#""earlier":[],"excess":"-1","total":1},{"bounds":[],"coalitions":[[[1,2],1]],"excess":"-2","#,
        r#""total":1,"earlier":"#,
    ),
    "}]}}",
);

const RIGHT_VALUES: &str = r#"
    "excess":"170141183460469231731687303715884105727"
    "bounds":[[1,1],[3,0]]
    "total":9223372036854775807
    "coalitions":[[[1],9223372036854775807],[[2,3],1]]
    "bounds":[[1,9223372036854775807]]
    "total":-9223372036854775807
    "coalitions":[[[1],-9223372036854775807],[[2,3],1]]
    "bounds":[[1,-9223372036854775807]]
"#;

const WRONG_VALUES: &str = r#"
    "excess":"2/4"
    "excess":"170141183460469231731687303715884105728"
    "coalitions":[[[],1]]
    "coalitions":[[[0],1]]
    "coalitions":[[[4],1]]
    "coalitions":[[[-1],1]]
    "coalitions":[[[1.5],1]]
    "coalitions":[[[1,1],1]]
    "coalitions":[[[2,1],1]]
    "coalitions":[[[1,2,3],1]]
    "coalitions":[]
    "coalitions":[[[2,3],1],[[1],1]]
    "coalitions":[[[1],1],[[1],1]]
    "earlier":[[[1],1]]
    "bounds":[[3,1],[1,1]]
    "bounds":[[1,1],[1,1]]
    "bounds":[[0,1]]
    "bounds":[[4,1]]
    "bounds":[[1.5,1]]
    "total":9223372036854775808
    "coalitions":[[[1],9223372036854775808],[[2,3],1]]
    "bounds":[[1,9223372036854775808]]
    "total":-9223372036854775808
    "coalitions":[[[1],-9223372036854775808],[[2,3],1]]
    "bounds":[[1,-9223372036854775808]]
    "total":1.5
    "coalitions":[[[1],1.5],[[2,3],1]]
    "bounds":[[1,1.5]]
    "total":1e2
    "coalitions":[[[1],1e2],[[2,3],1]]
    "bounds":[[1,1e2]]
"#;

// Weights and totals are integers below 2^63 in size.
#[test]
fn each_line_of_the_form_of_a_level_is_tested(rt: HostRuntime) -> Result<(), Fail> {
    let rows = &[
        (None, RIGHT_VALUES),
        (Some(Refusal::Certificate), WRONG_VALUES),
    ];
    expect_each(&rt, rt.alloc(), Command::Check, LEVEL, rows)
}

#[test]
fn earlier_coalitions_stand_in_earlier_levels(rt: HostRuntime) -> Result<(), Fail> {
    let rows = &[
        (
            None,
            r#"
            []
            [[[1],1],[[2,3],-1]]
            [[[1],9223372036854775807]]
            [[[1],-9223372036854775807]]
            "#,
        ),
        (
            Some(Refusal::Certificate),
            r#"
            [[[1],9223372036854775808]]
            [[[1],-9223372036854775808]]
            [[[1],1.5]]
            [[[1],1e2]]
            [[[2,3],1],[[1],-1]]
            [[[3,2],1]]
            [[[1,2],1]]
            [[[1],1],[[1],1]]
            "#,
        ),
    ];
    expect_each(&rt, rt.alloc(), Command::Check, EARLIER, rows)
}

// Two levels and three.
#[test]
fn there_are_fewer_levels_than_players(rt: HostRuntime) -> Result<(), Fail> {
    let rows = &[
        (
            None,
            concat!(
                r#"{"bounds":[],"coalitions":[[[1],1]],"earlier":[],"excess":"-1","total":1},"#,
                r#"{"bounds":[],"coalitions":[[[1],1]],"earlier":[],"excess":"-1","total":1}"#,
            ),
        ),
        (
            Some(Refusal::Certificate),
            concat!(
                r#"{"bounds":[],"coalitions":[[[1],1]],"earlier":[],"excess":"-1","total":1},"#,
                r#"{"bounds":[],"coalitions":[[[1],1]],"earlier":[],"excess":"-1","total":1},"#,
                r#"{"bounds":[],"coalitions":[[[1],1]],"earlier":[],"excess":"-1","total":1}"#,
            ),
        ),
    ];
    expect_each(&rt, rt.alloc(), Command::Check, LEVELS, rows)
}

const OTHER_CERTIFICATES: &str = r#"
    []
    {"levels":[]}
    {"mode":"players"}
    {"levels":[],"mode":"players","total":0}
    {"levels":[],"mode":"Span"}
    {"levels":[],"mode":1}
    {"levels":{},"mode":"span"}
    {"levels":[[]],"mode":"players"}
    {"levels":[{"bounds":[],"coalitions":[[[1],1]],"earlier":[],"excess":"-1"}],"mode":"players"}
    {"levels":[],"mode":"players"},"answer":"core"
    {"levels":[],"mode":"players"},"answer":1
"#;

const OTHER_VALUES: &str = r#"
    "mode":"span"
    "excess":-1
    "total":"1"
    "coalitions":[[[1],1,1]]
    "coalitions":[[[1]]]
    "coalitions":[[1,1]]
    "coalitions":[[["a"],1]]
    "earlier":[[[1],"1"]]
    "bounds":[[[1],1]]
    "bounds":[[1,1,1]]
"#;

#[test]
fn other_kinds_keys_and_words_of_certificates_are_refused(rt: HostRuntime) -> Result<(), Fail> {
    let certificates = &[(Some(Refusal::Shape), OTHER_CERTIFICATES)];
    expect_each(&rt, rt.alloc(), Command::Check, CERTIFICATE, certificates)?;
    let values = &[(Some(Refusal::Shape), OTHER_VALUES)];
    expect_each(&rt, rt.alloc(), Command::Check, LEVEL, values)
}
