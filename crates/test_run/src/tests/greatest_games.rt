//! Games of the greatest size with the most levels, and the longest documents of a certificate. Want of memory is left
//! open by every clause, so a body that gives up on many levels, on long lines or on long documents is seen here alone.
use super::{checked, said_on};
use std::alloc::Global;
use std::test::Fail;

// The document of the game of 16 players in which a coalition is worth the square of its mask.
fn squares(alloc: Global) -> Result<String, Fail> {
    let mut text = String::from_str(
        alloc,
        r#"{"game":{"class":"table","players":16,"worths":[1"#,
    )?;
    for mask in 2..65536u64 {
        text.push_str(format!(in alloc; ",{}", mask * mask)?.as_str())?;
    }
    text.push_str("]}}")?;
    Ok(text)
}

// The last stage of 15 has a row for each player and each level, which is as many as a program may have.
#[test]
fn sixteen_players_with_fifteen_levels_are_answered(rt: HostRuntime) -> Result<(), Fail> {
    let document = squares(rt.alloc())?;
    for &(command, length) in &[("nucleolus", 676_790), ("prenucleolus", 676_793)] {
        let line = checked(&rt, rt.alloc(), command, document.as_bytes())?;
        // A piece more than levels.
        let pieces: Vec<&str> = line.split(r#""earlier":"#).collect(rt.alloc())?;
        assert_eq!(rt; (line.len(), pieces.len()), (length, 16), "{command}");
    }
    Ok(())
}

// The members of a coalition, as a document has them.
fn push_members(text: &mut String, alloc: Global, mask: u64) -> Result<(), Fail> {
    let mut comma = "";
    for player in 0..17u32 {
        if mask >> player & 1 == 1 {
            text.push_str(comma)?;
            text.push_str(format!(in alloc; "{}", player + 1)?.as_str())?;
            comma = ",";
        }
    }
    Ok(())
}

// A level of all coalitions whose mask is below this one, each with weight 1, and this total.
fn level_below(alloc: Global, end: u64, total: &str) -> Result<String, Fail> {
    let mut text = String::from_str(alloc, r#"{"bounds":[],"coalitions":["#)?;
    for mask in 1..end {
        text.push_str(if mask > 1 { ",[[" } else { "[[" })?;
        push_members(&mut text, alloc, mask)?;
        text.push_str("],1]")?;
    }
    text.push_str(r#"],"earlier":[],"excess":"0","total":"#)?;
    text.push_str(total)?;
    text.push_str("}")?;
    Ok(text)
}

// A document of 16 landings that cost nothing, for which nobody pays: its certificate has a level of all coalitions but
// the empty one and that of all five times, since levels may say again what is fixed already. Behind it are blanks, up
// to so many bytes in all.
fn five_levels_of_all(alloc: Global, length: usize) -> Result<Vec<u8>, Fail> {
    let level = level_below(alloc, 65_535, "32767")?;
    let mut text = String::from_str(alloc, r#"{"answer":"nucleolus","certificate":{"levels":["#)?;
    for k in 0..5u32 {
        text.push_str(if k > 0 { "," } else { "" })?;
        text.push_str(level.as_str())?;
    }
    text.push_str(concat!(
        r#"],"mode":"span"},"game":{"class":"airport","costs":[0,0,0,0,0,0,0,0,0,0,0,0,0,0,0,0]},"#,
        r#""shares":["0","0","0","0","0","0","0","0","0","0","0","0","0","0","0","0"]}"#,
    ))?;
    let mut bytes = text.into_bytes();
    for _ in bytes.len()..length {
        bytes.push(b' ')?;
    }
    Ok(bytes)
}

#[test]
fn the_longest_certificate_is_checked(rt: HostRuntime) -> Result<(), Fail> {
    let mut document = five_levels_of_all(rt.alloc(), 8_388_608)?;
    assert_eq!(rt; document.len(), 8_388_608);
    let found = said_on(rt.alloc(), "check", &document)?;
    document.push(b' ')?;
    let refused = said_on(rt.alloc(), "check", &document)?;
    assert_eq!(rt;
        (found.as_str(), refused.as_str()),
        (
            r#"Done {"answer":"yes"}"#,
            r#"Refused {"number":1,"refused":"TooLong"}"#
        )
    );
    Ok(())
}

// What is behind the certificate of 17 landings that cost nothing.
const SEVENTEEN: &str = concat!(
    r#"{"class":"airport","costs":[0,0,0,0,0,0,0,0,0,0,0,0,0,0,0,0,0]},"#,
    r#""shares":[0,0,0,0,0,0,0,0,0,0,0,0,0,0,0,0,0]}"#,
);

#[test]
fn a_level_of_65537_coalitions_is_no_level(rt: HostRuntime) -> Result<(), Fail> {
    let level = level_below(rt.alloc(), 65_538, "1")?;
    let document = format!(in rt.alloc();
        r#"{{"answer":"nucleolus","certificate":{{"levels":[{level}],"mode":"players"}},"game":{SEVENTEEN}"#
    )?;
    let found = said_on(rt.alloc(), "check", document.as_bytes())?;
    assert_eq!(rt;
        found.as_str(),
        r#"Refused {"number":12,"refused":"Certificate"}"#
    );
    Ok(())
}
