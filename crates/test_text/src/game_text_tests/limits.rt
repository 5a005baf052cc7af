//! Games, shares, names and coalitions at their limits and past them.
use super::{GAME, expect_each};
use game_text::{Command, Refusal};
use std::test::Fail;

/// Games, and why they are refused, if they are.
const GAMES: [(Option<Refusal>, &str); 4] = [
    (
        None,
        r#"
        {"class":"table","players":16,"sparse":[]}
        {"class":"table","players":2,"worths":[1,2,3]}
        {"class":"table","players":1,"worths":[1099511627775]}
        {"class":"table","players":1,"worths":[-1099511627775]}
        {"class":"airport","costs":[0]}
        {"claims":[1,2],"class":"bankruptcy","estate":3}
        "#,
    ),
    (
        Some(Refusal::Players),
        r#"
        {"class":"table","players":0,"sparse":[]}
        {"class":"table","players":17,"sparse":[]}
        {"class":"table","players":1.0,"sparse":[]}
        {"class":"table","players":2,"worths":[1,2]}
        {"class":"table","players":2,"worths":[1,2,3,4]}
        {"claims":[],"class":"bankruptcy","estate":0}
        "#,
    ),
    // 65 landings
    (
        Some(Refusal::Players),
        concat!(
            r#"{"class":"airport","costs":[1,1,1,1,1,1,1,1,1,1,1,1,1,1,1,1,1,1,1,1,1,1,1,1,1,1,1,1,1,1,1,1,1,"#,
            "1,1,1,1,1,1,1,1,1,1,1,1,1,1,1,1,1,1,1,1,1,1,1,1,1,1,1,1,1,1,1,1]}",
        ),
    ),
    (
        Some(Refusal::Number),
        r#"
        {"class":"table","players":1,"worths":[1099511627776]}
        {"class":"table","players":1,"worths":[-1099511627776]}
        {"class":"table","default":1099511627776,"players":1,"sparse":[]}
        {"class":"table","players":1,"worths":[1e2]}
        {"class":"airport","costs":[-1]}
        {"class":"airport","costs":[1099511627776]}
        {"claims":[0],"class":"bankruptcy","estate":-1}
        {"claims":[1099511627776],"class":"bankruptcy","estate":0}
        "#,
    ),
];

#[test]
fn games_keep_their_limits(rt: HostRuntime) -> Result<(), Fail> {
    expect_each(&rt, rt.alloc(), Command::Nucleolus, GAME, &GAMES)
}

/// The share of one player.
const SHARE: (&str, &str) = (
    r#"{"game":{"class":"airport","costs":[1]},"shares":["#,
    "]}",
);

/// Shares, and why they are refused, if they are.
const SHARES: [(Option<Refusal>, &str); 3] = [
    (
        None,
        r#"
        "1/9223372036854775808"
        "649037107316853453566312041152512"
        "1298074214633706907132624082305023"
        "#,
    ),
    (
        Some(Refusal::Number),
        r#"
        1.5
        "2/4"
        "+1"
        "-0"
        "01"
        "1/1"
        "0/5"
        " 1"
        "1/"
        ""
        -0
        9223372036854775808
        "170141183460469231731687303715884105728"
        "-170141183460469231731687303715884105729"
        "1/170141183460469231731687303715884105728"
        "#,
    ),
    (
        Some(Refusal::TooFine),
        r#"
        "170141183460469231731687303715884105727"
        "-170141183460469231731687303715884105728"
        "1/170141183460469231731687303715884105727"
        "1/18446744073709551616"
        "1/9223372036854775809"
        "1298074214633706907132624082305024"
        "-1298074214633706907132624082305024"
        "#,
    ),
];

#[test]
fn shares_are_texts_of_fractions_within_their_limits(rt: HostRuntime) -> Result<(), Fail> {
    expect_each(&rt, rt.alloc(), Command::Propose, SHARE, &SHARES)
}

/// The names of one player.
const NAMES: (&str, &str) = (r#"{"game":{"class":"airport","costs":[1],"names":"#, "}}");

#[test]
fn names_have_1_to_64_bytes(rt: HostRuntime) -> Result<(), Fail> {
    let rows = &[
        (
            None,
            r#"
            ["xxxxxxxxxxxxxxxxxxxxxxxxxxxxxxxxxxxxxxxxxxxxxxxxxxxxxxxxxxxxxxxx"]
            ["éééééééééééééééééééééééééééééééé"]
            "#,
        ),
        (
            Some(Refusal::Names),
            r#"
            ["xxxxxxxxxxxxxxxxxxxxxxxxxxxxxxxxxxxxxxxxxxxxxxxxxxxxxxxxxxxxxxxxx"]
            ["ééééééééééééééééééééééééééééééééé"]
            [""]
            []
            ["a","b"]
            "#,
        ),
    ];
    expect_each(&rt, rt.alloc(), Command::Nucleolus, NAMES, rows)
}

/// Coalitions of three players with names, each with its cost.
const COALITIONS: (&str, &str) = (
    r#"{"game":{"class":"cost-table","names":["Ann","Bob","Élodie"],"players":3,"sparse":["#,
    "]}}",
);

#[test]
fn sparse_coalitions_are_sets_of_players(rt: HostRuntime) -> Result<(), Fail> {
    let rows = &[
        (None, r#"[["Ann"],1],[[2,"Élodie"],2],[["Bob","Ann"],3]"#),
        (
            Some(Refusal::Names),
            r#"
            [["ann"],1]
            [["Elodie"],1]
            "#,
        ),
        (
            Some(Refusal::Coalition),
            r#"
            [[],1]
            [[0],1]
            [[4],1]
            [[1.5],1]
            [[-1],1]
            [[1,2,1],1]
            [["Ann",1],1]
            [["Ann","Bob"],1],[[2,1],1]
            [[1,2],1],[[1,2],1]
            "#,
        ),
    ];
    expect_each(&rt, rt.alloc(), Command::Nucleolus, COALITIONS, rows)
}
