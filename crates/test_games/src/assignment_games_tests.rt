//! Matrices that make games and matrices that don't, and two markets of the literature.
use crate::asked::{blocker_of, worths_are};
use crate::rows::matrix_of;
use crate::shares::shares_of;
use assignment_games::{AssignmentFault, AssignmentGame};
use coalitions::Coalition;
use std::test::Fail;
use worth_core::Worth;

const LIMIT: i64 = 1 << 40;

const ONE: &[i64] = &[0];

const EIGHT: &[i64] = &[0; 8];

const NINE: &[i64] = &[0; 9];

/// Rows, and why they make no game.
const FAULTS: [(&[&[i64]], Option<AssignmentFault>); 15] = [
    (&[&[5]], None),
    (&[&[LIMIT - 1, 0], &[0, 3]], None),
    (&[&[0; 15]], None),
    (&[EIGHT; 8], None),
    (&[ONE; 15], None),
    (&[], Some(AssignmentFault::Players)),
    (&[&[], &[-1]], Some(AssignmentFault::Players)),
    (&[&[0; 16]], Some(AssignmentFault::Players)),
    (&[NINE; 8], Some(AssignmentFault::Players)),
    (&[ONE; 16], Some(AssignmentFault::Players)),
    (&[&[LIMIT]], Some(AssignmentFault::Number)),
    (&[&[5, 6], &[-1]], Some(AssignmentFault::Number)),
    (&[&[5], &[6, -1]], Some(AssignmentFault::Number)),
    (&[&[5, 6], &[1]], Some(AssignmentFault::Matrix)),
    (&[&[5], &[6, 1]], Some(AssignmentFault::Matrix)),
];

#[test]
fn matrices_are_refused_by_the_first_cause(rt: HostRuntime) -> Result<(), Fail> {
    for &(rows, fault) in &FAULTS {
        let matrix = matrix_of(rt.alloc(), rows)?;
        let made = AssignmentGame::new(rt.alloc(), matrix).err();
        assert_eq!(rt; made, fault, "{rows:?}");
    }
    Ok(())
}

#[test]
fn each_coalition_of_two_buyers_and_two_sellers(rt: HostRuntime) -> Result<(), Fail> {
    let matrix = matrix_of(rt.alloc(), &[&[5, 8], &[7, 6]])?;
    let game = AssignmentGame::new(rt.alloc(), matrix)
        .ok()
        .ok_or("no game")?;
    assert_eq!(rt; (game.buyers(), game.sellers()), (2, 2));
    worths_are(
        &rt,
        &game,
        &[0, 0, 0, 0, 0, 5, 7, 7, 0, 8, 6, 8, 0, 8, 7, 15],
    );
    Ok(())
}

/// The three houses of Shapley and Shubik 1971. Whoever takes the best pair first, 9, is left with 5 and 0.
#[test]
fn three_houses_change_hands(rt: HostRuntime) -> Result<(), Fail> {
    let matrix = matrix_of(rt.alloc(), &[&[5, 8, 2], &[7, 9, 6], &[2, 3, 0]])?;
    let game = AssignmentGame::new(rt.alloc(), matrix)
        .ok()
        .ok_or("no game")?;
    assert!(rt; game.buyers() == 3 && game.sellers() == 3 && game.players() == 6);
    assert_eq!(rt;
        (
            game.worth(Coalition(63)),
            game.worth(Coalition(27)),
            game.worth(Coalition(7))
        ),
        (16, 15, 0)
    );
    for &(num, den, blocker) in &[
        ([17, 23, 1, 7, 15, 1], 4, None),
        ([3, 5, 0, 1, 6, 1], 1, Some(Coalition(9))),
    ] {
        let x = shares_of(rt.alloc(), &num, den)?;
        assert_eq!(rt; blocker_of(&rt, &game, &x), blocker, "{num:?} over {den}");
    }
    Ok(())
}
