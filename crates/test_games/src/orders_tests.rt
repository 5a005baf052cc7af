//! Lists of numbers, their orders and their sums, and the numbers that are refused.

use coalitions::Coalition;
use orders::{Ordered, are_numbers, is_number, naturals, sorted_players, sum_of, total};
use std::test::Fail;

#[test]
fn of_equal_numbers_the_lesser_player_comes_first(rt: HostRuntime) -> Result<(), Fail> {
    let order = sorted_players(rt.alloc(), &[7, 2, 9, 2, 0])?;
    assert_eq!(rt; order.as_slice(), [4, 1, 3, 0, 2].as_slice());
    let numbers = naturals(rt.alloc(), &[4, 2, 6, 2])?;
    let ordered = Ordered::new(rt.alloc(), numbers)?;
    assert_eq!(rt; ordered.len(), 4);
    assert_eq!(rt;
        (
            ordered.place(0),
            ordered.place(1),
            ordered.place(2),
            ordered.place(3),
            ordered.number(2)
        ),
        (1, 3, 0, 2, 6)
    );
    Ok(())
}

#[test]
fn numbers_are_from_0_to_below_2_to_40(rt: HostRuntime) -> Result<(), Fail> {
    const LIMIT: i64 = 1 << 40;
    for &(number, is) in &[(-1, false), (0, true), (LIMIT - 1, true), (LIMIT, false)] {
        let found = (is_number(number), are_numbers(&[0, number]));
        assert_eq!(rt; found, (is, is), "{number}");
    }
    Ok(())
}

#[test]
fn the_numbers_of_a_coalition_are_those_of_its_members(rt: HostRuntime) -> Result<(), Fail> {
    let numbers = naturals(rt.alloc(), &[4, 1, 6, 2])?;
    for &(members, sum) in &[(0b0000, 0), (0b0001, 4), (0b1010, 3), (0b1111, 13)] {
        assert_eq!(rt; sum_of(&numbers, Coalition(members)), sum, "{members}");
    }
    assert_eq!(rt; (total(&[4, 0, 6, 2]), total(&[])), (12, 0));
    Ok(())
}
