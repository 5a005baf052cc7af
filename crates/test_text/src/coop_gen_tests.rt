//! Generated games against numbers that were worked out elsewhere, and the greatest sizes.
use crate::game_text_tests::contents::worths_of;
use coop_gen::{Kind, generate, has_size};
use std::test::Fail;
use worth_core::Worth;

const GREATEST_SEED: u32 = 2147483647;

// The first three states from seed 1 are 1103527590, 377401575 and 662824084, so the first numbers below 2^20 are
// 538831, 184278 and 323644, and the first below 2^16 are 33676, 11517 and 20227. Of five players the worths are those
// of the last alone, of the first and the last, and of all.
#[test]
fn games_of_two_and_of_five_players_have_their_worths(rt: HostRuntime) -> Result<(), Fail> {
    for &(kind, players, seed, [a, b, c]) in &[
        (Kind::Table, 2, 1, [0, 0, 538831]),
        (Kind::Airport, 2, 1, [-538831, -184278, -538831]),
        (Kind::Bankruptcy, 2, 1, [177276, 0, 361554]),
        (Kind::Tree, 2, 1, [-33676, -11517, -31744]),
        (Kind::Assignment, 2, 1, [0, 0, 33676]),
        (Kind::Table, 5, GREATEST_SEED, [0, 274226, 776825]),
        (Kind::Airport, 5, GREATEST_SEED, [-278825, -509756, -854995]),
        (Kind::Bankruptcy, 5, GREATEST_SEED, [0, 0, 1050138]),
        (Kind::Tree, 5, GREATEST_SEED, [-17426, -33491, -61404]),
        (Kind::Assignment, 5, GREATEST_SEED, [0, 19724, 88312]),
    ] {
        assert!(rt; has_size(kind, players) && seed <= GREATEST_SEED);
        let game = generate(rt.alloc(), kind, players, seed)?;
        let found = worths_of(&rt, rt.alloc(), &game)?;
        let [first, second, third] = if players == 2 {
            [1, 2, 3]
        } else {
            [16, 17, 31]
        };
        assert_eq!(rt;
            (
                game.players(),
                found.get(first),
                found.get(second),
                found.get(third)
            ),
            (players, Some(&a), Some(&b), Some(&c)),
            "{kind:?} of {players}"
        );
    }
    Ok(())
}

#[test]
fn each_kind_has_its_least_and_greatest_size(rt: HostRuntime) -> Result<(), Fail> {
    for &(kind, least, greatest) in &[
        (Kind::Table, 1, 16),
        (Kind::Airport, 1, 64),
        (Kind::Bankruptcy, 1, 64),
        (Kind::Tree, 1, 16),
        (Kind::Assignment, 2, 16),
    ] {
        for size in [least, greatest] {
            assert!(rt; has_size(kind, size), "{kind:?} of {size}");
            let game = generate(rt.alloc(), kind, size, 0)?;
            assert_eq!(rt; game.players(), size, "{kind:?}");
        }
        let beyond = (has_size(kind, least - 1), has_size(kind, greatest + 1));
        assert_eq!(rt; beyond, (false, false), "{kind:?}");
    }
    Ok(())
}
