//! The form of certificates, case by case.

use crate::levels::{Row, certificate_of};
use definitions::Mode;
use std::alloc::Global;
use std::test::Fail;

/// Whether a certificate of one level is formed.
fn is_formed(
    alloc: Global,
    players: u32,
    mode: Mode,
    coalitions: (u64, u64),
    bound: u32,
    weight: i128,
    total: i128,
) -> Result<bool, Fail> {
    let pairs = [(coalitions.0, weight), (coalitions.1, 1)];
    let rows: [Row<'_>; 1] = [((1, 1), &pairs, &[], &[(bound, weight)], total)];
    Ok(certificate_of(alloc, players, mode, &rows)?.is_some())
}

#[test]
fn certificates_of_one_level(rt: HostRuntime) -> Result<(), Fail> {
    const LIMIT: i128 = 1 << 63;
    for &(players, mode, first, second, bound, weight, total, formed) in &[
        (3, Mode::Players, 1, 6, 0, 1, 1, true),
        (3, Mode::Span, 1, 6, 2, 1, 1, true),
        (
            64,
            Mode::Players,
            1,
            1 << 63,
            63,
            1 - LIMIT,
            LIMIT - 1,
            true,
        ),
        (16, Mode::Span, 1, 65534, 15, 0, 0, true),
        (17, Mode::Span, 1, 6, 0, 1, 1, false),
        (1, Mode::Players, 1, 2, 0, 1, 1, false),
        (3, Mode::Players, 0, 6, 0, 1, 1, false),
        (3, Mode::Players, 1, 7, 0, 1, 1, false),
        (3, Mode::Players, 6, 1, 0, 1, 1, false),
        (3, Mode::Players, 6, 6, 0, 1, 1, false),
        (3, Mode::Players, 1, 6, 3, 1, 1, false),
        (3, Mode::Players, 1, 6, 0, LIMIT, 1, false),
        (3, Mode::Players, 1, 6, 0, 1, -LIMIT, false),
    ] {
        let coalitions = (first, second);
        let found = is_formed(rt.alloc(), players, mode, coalitions, bound, weight, total)?;
        assert_eq!(rt; found, formed, "{first} and {second} of {players}");
    }
    Ok(())
}

/// The players, the mode and the number of levels of a certificate with this earlier coalition, if it is formed.
fn with_earlier(alloc: Global, earlier: u64) -> Result<Option<(u32, Mode, usize)>, Fail> {
    let earlier = [(earlier, -1)];
    let rows: [Row<'_>; 2] = [
        ((1, 1), &[(1, 1), (6, 1)], &[], &[], 1),
        ((1, 1), &[(3, 1)], &earlier, &[], 0),
    ];
    match certificate_of(alloc, 3, Mode::Players, &rows)? {
        Some(made) => Ok(Some((made.players(), made.mode(), made.levels().len()))),
        None => Ok(None),
    }
}

#[test]
fn earlier_coalitions_stand_in_front(rt: HostRuntime) -> Result<(), Fail> {
    for &(earlier, wanted) in &[(6, Some((3, Mode::Players, 2))), (3, None)] {
        let found = with_earlier(rt.alloc(), earlier)?;
        assert_eq!(rt; found, wanted, "with {earlier}");
    }
    Ok(())
}
