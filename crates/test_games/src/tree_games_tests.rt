//! Matrices that make games and matrices that don't, and plans worked by hand.
use crate::asked::{blocker_of, worths_are};
use crate::rows::matrix_of;
use crate::shares::are_numbers;
use std::test::Fail;
use tree_games::{TreeFault, TreeGame};

const LIMIT: i64 = 1 << 40;

const SEVENTEEN: &[i64] = &[0; 17];

const EIGHTEEN: &[i64] = &[0; 18];

/// Rows, and why they make no game.
const FAULTS: [(&[&[i64]], Option<TreeFault>); 12] = [
    (&[&[0, 5], &[5, 0]], None),
    (&[&[0, LIMIT - 1], &[LIMIT - 1, 0]], None),
    (&[SEVENTEEN; 17], None),
    (&[], Some(TreeFault::Players)),
    (&[&[-1]], Some(TreeFault::Players)),
    (&[EIGHTEEN; 18], Some(TreeFault::Players)),
    (&[&[0, LIMIT], &[LIMIT, 0]], Some(TreeFault::Number)),
    (&[&[0, -1], &[5]], Some(TreeFault::Number)),
    (&[&[0, 5], &[5]], Some(TreeFault::Matrix)),
    (&[&[0, 5], &[5, 0], &[0, 0]], Some(TreeFault::Matrix)),
    (&[&[0, 5], &[6, 0]], Some(TreeFault::Matrix)),
    (&[&[0, 5], &[5, 1]], Some(TreeFault::Matrix)),
];

#[test]
fn matrices_are_refused_by_the_first_cause(rt: HostRuntime) -> Result<(), Fail> {
    for &(rows, fault) in &FAULTS {
        let matrix = matrix_of(rt.alloc(), rows)?;
        let made = TreeGame::new(rt.alloc(), matrix).err();
        assert_eq!(rt; made, fault, "{rows:?}");
    }
    Ok(())
}

/// Rows, what player 1's link to the source costs, the worths in mask order, the links of the plan, and what each
/// player gets, who pays for its link.
const PLANS: [(&[&[i64]], u64, &[i64], &[(u32, u32, i64)], &[i128]); 4] = [
    // The farther of two neighbours pays for the short link.
    (
        &[&[0, 10, 10], &[10, 0, 1], &[10, 1, 0]],
        10,
        &[0, -10, -10, -11],
        &[(0, 1, 10), (1, 2, 1)],
        &[-10, -1],
    ),
    // Player 3 stands between the source and the others: without it each of these costs 9, and with it the shortcut.
    (
        &[&[0, 9, 9, 1], &[9, 0, 8, 2], &[9, 8, 0, 2], &[1, 2, 2, 0]],
        9,
        &[0, -9, -9, -17, -1, -3, -3, -5],
        &[(0, 3, 1), (3, 1, 2), (3, 2, 2)],
        &[-2, -2, -1],
    ),
    // Each link costs 4. Of the links to new players the least end comes first, so all lead from the source.
    (
        &[&[0, 4, 4, 4], &[4, 0, 4, 4], &[4, 4, 0, 4], &[4, 4, 4, 0]],
        4,
        &[0, -4, -4, -8, -4, -8, -8, -12],
        &[(0, 1, 4), (0, 2, 4), (0, 3, 4)],
        &[-4, -4, -4],
    ),
    // Of links with equal costs and ends, that to the least player comes first.
    (
        &[&[0, 5, 2, 2], &[5, 0, 2, 1], &[2, 2, 0, 2], &[2, 1, 2, 0]],
        5,
        &[0, -5, -2, -4, -2, -3, -4, -5],
        &[(0, 2, 2), (0, 3, 2), (3, 1, 1)],
        &[-1, -2, -2],
    ),
];

#[test]
fn plans_take_the_cheapest_link_and_each_player_pays_for_its_own(
    rt: HostRuntime,
) -> Result<(), Fail> {
    for &(rows, cost, worths, links, payments) in &PLANS {
        let matrix = matrix_of(rt.alloc(), rows)?;
        let game = TreeGame::new(rt.alloc(), matrix).ok().ok_or("no game")?;
        assert_eq!(rt; game.points() as usize, rows.len());
        assert_eq!(rt; game.cost(1, 0), cost);
        worths_are(&rt, &game, worths);
        let (shares, tree) = game.bird(rt.alloc())?;
        assert_eq!(rt; tree.edges.as_slice(), links, "{rows:?}");
        assert!(rt; are_numbers(&shares, payments), "{rows:?}");
        assert_eq!(rt; (shares.den(), blocker_of(&rt, &game, &shares)), (1, None));
    }
    Ok(())
}
