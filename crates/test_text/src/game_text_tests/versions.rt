//! Games of version 2, whose numbers may be fraction texts.
use super::{GAME, expect_each};
use game_text::{Command, Refusal};
use std::test::Fail;

#[test]
fn versions_are_1_and_2_and_texts_are_fractions(rt: HostRuntime) -> Result<(), Fail> {
    let rows = &[
        (
            None,
            r#"{"class":"airport","costs":["1099511627775/2"],"version":2}"#,
        ),
        (
            Some(Refusal::Shape),
            r#"
            {"class":"airport","costs":["1/2"]}
            {"class":"airport","costs":["1/2"],"version":1}
            {"class":"airport","costs":[1],"version":3}
            {"class":"airport","costs":[1],"version":"2"}
            {"class":"airport","costs":[1],"version":2.0}
            {"class":"voting","quota":"1","version":2,"weights":[1]}
            {"class":"voting","quota":1,"version":2,"weights":["1"]}
            "#,
        ),
        (
            Some(Refusal::Number),
            r#"
            {"class":"airport","costs":["2/4"],"version":2}
            {"class":"airport","costs":["-1/2"],"version":2}
            {"class":"airport","costs":[0.5],"version":2}
            {"class":"airport","costs":["1/65537"],"version":2}
            {"class":"airport","costs":["1099511627777/2"],"version":2}
            {"class":"airport","costs":["1/256","1/257"],"version":2}
            {"class":"airport","costs":[549755813888,"1/2"],"version":2}
            "#,
        ),
    ];
    expect_each(&rt, rt.alloc(), Command::Nucleolus, GAME, rows)
}

/// The share of a player that costs a half.
const SHARE_OF_A_HALF: (&str, &str) = (
    r#"{"game":{"class":"airport","costs":["1/2"],"version":2},"shares":["#,
    "]}",
);

// 1 over 2^64; 2^109; and 2^126, which leaves 128 bits times the scale. If the scale is 1, the first is too fine and
// the second isn't, as the limits of shares show.
#[test]
fn shares_keep_their_limits_times_the_scale(rt: HostRuntime) -> Result<(), Fail> {
    let rows = &[
        (None, r#""1/18446744073709551616""#),
        (
            Some(Refusal::TooFine),
            r#"
            "649037107316853453566312041152512"
            "85070591730234615865843651857942052864"
            "#,
        ),
    ];
    expect_each(&rt, rt.alloc(), Command::Propose, SHARE_OF_A_HALF, rows)
}
