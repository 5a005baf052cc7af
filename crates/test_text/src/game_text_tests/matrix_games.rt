//! Games by their matrix: how many players they have, and their refusals.
use super::{GAME, GAME_OF_FIVE, expect_each};
use game_text::{Command, Refusal};
use std::test::Fail;

const SEVENTEEN_ZEROS: &str = "[0,0,0,0,0,0,0,0,0,0,0,0,0,0,0,0,0]";

const EIGHTEEN_ZEROS: &str = "[0,0,0,0,0,0,0,0,0,0,0,0,0,0,0,0,0,0]";

// A class, a row, how many rows, all alike, and why they aren't a game.
#[test]
fn matrices_keep_the_numbers_of_players(rt: HostRuntime) -> Result<(), Fail> {
    for &(class, row, count, refusal) in &[
        ("tree", "[0]", 1, Some(Refusal::Players)),
        ("tree", "[0,0]", 2, None),
        ("tree", SEVENTEEN_ZEROS, 17, None),
        ("tree", EIGHTEEN_ZEROS, 18, Some(Refusal::Players)),
        ("assignment", "[]", 0, Some(Refusal::Players)),
        ("assignment", "[]", 1, Some(Refusal::Players)),
        ("assignment", "[0]", 15, None),
        ("assignment", "[0]", 16, Some(Refusal::Players)),
        ("assignment", "[0,0,0,0,0,0,0,0]", 8, None),
        ("assignment", "[0,0,0,0,0,0,0,0]", 9, Some(Refusal::Players)),
        ("market", "[]", 0, Some(Refusal::Players)),
        ("market", "[]", 1, Some(Refusal::Players)),
        ("market", "[0]", 15, None),
    ] {
        let mut game = format!(in rt.alloc(); r#"{{"class":"{class}","matrix":["#)?;
        for i in 0..count {
            game.push_str(if i == 0 { "" } else { "," })?;
            game.push_str(row)?;
        }
        game.push_str("]}")?;
        let rows = &[(refusal, game.as_str())];
        expect_each(&rt, rt.alloc(), Command::Nucleolus, GAME, rows)?;
    }
    Ok(())
}

/// Games that are refused, and why.
const REFUSED: [(Option<Refusal>, &str); 4] = [
    (
        Some(Refusal::Number),
        r#"
        {"class":"tree","matrix":[[0,1],[2,-1]]}
        {"class":"tree","matrix":[[0,1],[2,0,1099511627776]]}
        {"class":"assignment","matrix":[[1,2],[0.5]]}
        {"class":"market","matrix":[[1,2],[-3]]}
        "#,
    ),
    (
        Some(Refusal::Names),
        r#"
        {"class":"tree","matrix":[[0,1],[2,0]],"names":[]}
        {"class":"market","matrix":[[1,2],[3]],"names":[]}
        "#,
    ),
    (
        Some(Refusal::Matrix),
        r#"
        {"class":"tree","matrix":[[0,1],[2,0]]}
        {"class":"tree","matrix":[[0,1],[1,1]]}
        {"class":"tree","matrix":[[0,1],[1]]}
        {"class":"tree","matrix":[[0,1],[1,0,0]]}
        {"class":"tree","matrix":[[0,1,2],[1,0,3],[2,4,0]]}
        {"class":"assignment","matrix":[[1,2],[3]]}
        {"class":"assignment","matrix":[[1,2],[]]}
        {"class":"market","matrix":[[1,2],[3]]}
        "#,
    ),
    (
        Some(Refusal::Proposal),
        r#"
        {"class":"tree","matrix":[[0,1],[1,0]]}
        {"class":"assignment","matrix":[[1,2],[3,4]]}
        "#,
    ),
];

// Each has five shares, so a game within its limits is a Proposal.
#[test]
fn matrices_are_refused_by_the_first_test(rt: HostRuntime) -> Result<(), Fail> {
    expect_each(&rt, rt.alloc(), Command::Propose, GAME_OF_FIVE, &REFUSED)
}
