//! Games made from a number.
use super::{said_on, said_unread};
use std::alloc::Global;
use std::test::Fail;

const MADE: &[([&str; 4], &str)] = &[
    (
        ["gen", "table", "2", "1"],
        concat!(
            r#"Done {"class":"table","common":"2","first":"538831/2","greatest":"-538831/2","last":"538831/2","#,
            r#""players":2,"seed":1,"verdict":"yes"}"#
        ),
    ),
    (
        ["gen", "airport", "2", "1"],
        concat!(
            r#"Done {"class":"airport","common":"1","first":"446692","greatest":"-92139","last":"92139","#,
            r#""players":2,"seed":1,"verdict":"yes"}"#
        ),
    ),
    (
        ["gen", "bankruptcy", "2", "1"],
        concat!(
            r#"Done {"class":"bankruptcy","common":"1","first":"269415","greatest":"-92139","last":"92139","#,
            r#""players":2,"seed":1,"verdict":"yes"}"#
        ),
    ),
    (
        ["gen", "tree", "1", "1"],
        concat!(
            r#"Done {"class":"tree","common":"1","first":"33676","greatest":"none","last":"33676","players":1,"#,
            r#""seed":1,"verdict":"yes"}"#
        ),
    ),
    (
        ["gen", "assignment", "2", "1"],
        concat!(
            r#"Done {"class":"assignment","common":"1","first":"16838","greatest":"-16838","last":"16838","#,
            r#""players":2,"seed":1,"verdict":"yes"}"#
        ),
    ),
];

#[test]
fn prints_what_it_found_of_a_generated_game(rt: HostRuntime) -> Result<(), Fail> {
    for &(words, line) in MADE {
        let found = said_unread(rt.alloc(), &words)?;
        assert_eq!(rt; found.as_str(), line, "{words:?}");
    }
    Ok(())
}

#[test]
fn the_greatest_games_of_each_kind_are_answered_alike_twice(rt: HostRuntime) -> Result<(), Fail> {
    for &words in &[
        ["gen", "airport", "64", "7"],
        ["gen", "table", "12", "1"],
        ["gen", "bankruptcy", "64", "2147483647"],
        ["gen", "assignment", "16", "0"],
        ["gen", "tree", "12", "1"],
    ] {
        let found = said_unread(rt.alloc(), &words)?;
        let again = said_unread(rt.alloc(), &words)?;
        let is_yes = found.starts_with("Done ") && found.ends_with(r#""verdict":"yes"}"#);
        assert!(rt; is_yes && found == again, "{words:?}");
    }
    Ok(())
}

// The document of a generated table of so many players and masks, by a program of its own.
fn table_document(alloc: Global, players: u32, masks: u32) -> Result<String, Fail> {
    let mut text = format!(in alloc;
        r#"{{"game":{{"class":"table","players":{players},"worths":["#
    )?;
    let mut state: u32 = 1;
    for s in 1..masks {
        if s > 1 {
            text.push(',')?;
        }
        if s.is_power_of_two() {
            text.push('0')?;
        } else {
            state = ((u64::from(state) * 1103515245 + 12345) % 2147483648) as u32;
            text.push_str(format!(in alloc; "{}", state / 2048)?.as_str())?;
        }
    }
    text.push_str("]}}")?;
    Ok(text)
}

// The first and the last share and the greatest excess in the line of a nucleolus, as `gen` prints them.
fn summary_in(alloc: Global, line: &str) -> Result<String, Fail> {
    // The first level has the greatest excess of all.
    let (_, levels) = line.split_once(r#""excess":"#).ok_or("no level")?;
    let (greatest, _) = levels.split_once(",").ok_or("no excess")?;
    let (_, shares) = line.split_once(r#""shares":["#).ok_or("no shares")?;
    let (first, _) = shares.split_once(",").ok_or("one share")?;
    let (_, last) = shares.rsplit_once(",").ok_or("one share")?;
    let last = last.strip_suffix("]}").ok_or("no end")?;
    Ok(format!(in alloc; r#""first":{first},"greatest":{greatest},"last":{last},"#)?)
}

#[test]
fn a_generated_table_has_the_nucleolus_of_its_document(rt: HostRuntime) -> Result<(), Fail> {
    let alloc = rt.alloc();
    for &(players, masks, words) in &[
        (3, 8, ["gen", "table", "3", "1"]),
        (12, 4096, ["gen", "table", "12", "1"]),
    ] {
        let line = said_unread(alloc, &words)?;
        let document = table_document(alloc, players, masks)?;
        let found = said_on(alloc, "nucleolus", document.as_bytes())?;
        let middle = summary_in(alloc, found.as_str())?;
        assert!(rt; line.contains(middle.as_str()), "{line}");
    }
    Ok(())
}
