//! Voting games and their refusals.
use super::expect_each;
use game_text::{Command, Refusal};
use std::test::Fail;

/// A voting game with five shares, from its quota on.
const QUOTA_AND_WEIGHTS: (&str, &str) = (
    r#"{"game":{"class":"voting","quota":"#,
    r#"},"shares":[1,2,3,4,5]}"#,
);

/// Quotas and weights, and why they are refused.
const ROWS: [(Option<Refusal>, &str); 6] = [
    (
        Some(Refusal::Shape),
        r#"
        "1","weights":[1]
        1,"weights":[1],"players":1
        "#,
    ),
    (
        Some(Refusal::Players),
        r#"
        1,"weights":[]
        17,"weights":[1,1,1,1,1,1,1,1,1,1,1,1,1,1,1,1,1,1,1,1,1,1,1,1,1,1,1,1,1,1,1,1,1]
        "#,
    ),
    (
        Some(Refusal::Number),
        r#"
        0,"weights":[-1]
        0.5,"weights":[1]
        1,"weights":[1099511627776]
        "#,
    ),
    (Some(Refusal::Names), r#"0,"weights":[1],"names":[]"#),
    (
        Some(Refusal::Quota),
        r#"
        0,"weights":[1]
        2,"weights":[1]
        1,"weights":[500,501]
        "#,
    ),
    (
        Some(Refusal::Proposal),
        r#"
        17,"weights":[1,1,1,1,1,1,1,1,1,1,1,1,1,1,1,1,1,1,1,1,1,1,1,1,1,1,1,1,1,1,1,1]
        1,"weights":[500,500]
        1,"weights":[1]
        "#,
    ),
];

// Each has five shares, so a game within its limits is a Proposal.
#[test]
fn votes_are_refused_by_the_first_test(rt: HostRuntime) -> Result<(), Fail> {
    expect_each(&rt, rt.alloc(), Command::Propose, QUOTA_AND_WEIGHTS, &ROWS)
}
