//! Documents that two refusals apply to, one behind the other in their order.
use super::expect_each;
use game_text::{Command, Refusal};
use std::test::Fail;

// The comment names the other refusal that applies.
const ROWS: [(Option<Refusal>, &str); 9] = [
    // Shape
    (Some(Refusal::NotJson), r#"{"game":{"clas":"#),
    // Players
    (
        Some(Refusal::Shape),
        r#"{"game":{"class":"airport","cost":[],"costs":[]},"shares":[1]}"#,
    ),
    // Number
    (
        Some(Refusal::Players),
        r#"{"game":{"class":"airport","costs":[]},"shares":["2/4"]}"#,
    ),
    // Names
    (
        Some(Refusal::Number),
        r#"{"game":{"class":"airport","costs":[-1],"names":[]},"shares":[1]}"#,
    ),
    // Coalition
    (
        Some(Refusal::Names),
        r#"{"game":{"class":"table","names":["a"],"players":3,"sparse":[[[],1]]},"shares":[1]}"#,
    ),
    // Estate
    (
        Some(Refusal::Names),
        r#"{"game":{"claims":[1],"class":"bankruptcy","estate":2,"names":[""]},"shares":[1]}"#,
    ),
    // Proposal
    (
        Some(Refusal::Coalition),
        r#"{"game":{"class":"cost-table","players":3,"sparse":[[[],6]]},"shares":[1,2,3,4]}"#,
    ),
    // Proposal
    (
        Some(Refusal::Estate),
        r#"{"game":{"class":"bankruptcy","claims":[1,2,3],"estate":7},"shares":[1,2]}"#,
    ),
    // TooFine
    (
        Some(Refusal::Proposal),
        r#"{"game":{"class":"airport","costs":[2,4,6]},"shares":["1/9223372036854775809",0]}"#,
    ),
];

/// A certificate whose level has no coalition.
const WRONG_CERTIFICATE: (&str, &str) = (
    concat!(
        r#"{"answer":"nucleolus","certificate":{"levels":[{"bounds":[],"coalitions":[],"earlier":[],"#,
        r#""excess":"-1","total":1}],"mode":"players"},"game":"#,
    ),
    "}",
);

#[test]
fn of_two_refusals_the_first_is_given(rt: HostRuntime) -> Result<(), Fail> {
    expect_each(&rt, rt.alloc(), Command::Propose, ("", ""), &ROWS)
}

#[test]
fn certificates_are_tested_last(rt: HostRuntime) -> Result<(), Fail> {
    let rows = &[
        // A kind in the certificate is one of the shape, in front of the players.
        (
            Some(Refusal::Shape),
            r#"{"class":"airport","costs":[]},"shares":[1],"certificate":{"levels":[[]],"mode":"players"}"#,
        ),
        (
            Some(Refusal::Players),
            r#"{"class":"airport","costs":[]},"shares":[1.5]"#,
        ),
        (
            Some(Refusal::Number),
            r#"{"class":"airport","costs":[2,4,6]},"shares":[1.5]"#,
        ),
        (
            Some(Refusal::Names),
            r#"{"class":"airport","costs":[2,4,6],"names":[]},"shares":[1,1,1]"#,
        ),
        (
            Some(Refusal::Proposal),
            r#"{"class":"airport","costs":[2,4,6]},"shares":[1,1]"#,
        ),
        (
            Some(Refusal::TooFine),
            r#"{"class":"airport","costs":[2,4,6]},"shares":["1/9223372036854775809",0,0]"#,
        ),
        (
            Some(Refusal::Certificate),
            r#"{"class":"airport","costs":[2,4,6]},"shares":[1,1,1]"#,
        ),
    ];
    expect_each(&rt, rt.alloc(), Command::Check, WRONG_CERTIFICATE, rows)
}
