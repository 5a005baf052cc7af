//! The plain slow programs at small games worked by hand.

use definitions::Measure;
use plain_programs::blockers::{blockers, chosen_blocker};
use plain_programs::excesses::{beats, excess_list};
use plain_programs::order::{comes_before, sorted};
use plain_programs::table::{Point, Table, excess};
use std::test::Fail;

// Costs 2, 4, 6: each coalition is worth minus its greatest cost. The payments 1, 3/2, 7/2 beat 1, 2, 3, which have the
// lesser numbers if each counts once: -1, -2, -3 there, and -1, -3/2, -5/2 here.
#[test]
fn fair_airport_payments_come_first(rt: HostRuntime) -> Result<(), Fail> {
    let heap = rt.alloc();
    let airport = Table::new(3, &[-2, -4, -4, -6, -6, -6, -6]);
    let fair = Point::new(&[-2, -3, -7], 2);
    let other = Point::new(&[-1, -2, -3], 1);
    let list = excess_list(heap, Measure::Plain, &airport, &fair, 1)?;
    assert_eq!(rt; list.as_slice(), [-2, -5, -3, -5, -3, -2].as_slice());
    let found = (
        beats(heap, Measure::Plain, &airport, &fair, &other)?,
        beats(heap, Measure::Plain, &airport, &other, &fair)?,
    );
    assert_eq!(rt; found, (true, false));
    Ok(())
}

#[test]
fn a_number_counts_as_often_as_it_stands(rt: HostRuntime) -> Result<(), Fail> {
    let list = sorted(rt.alloc(), &[-2, 3, -2, 0, 3])?;
    assert_eq!(rt; list.as_slice(), [3, 3, 0, -2, -2].as_slice());
    assert_eq!(rt;
        (
            comes_before(&[4, 1, 9], &[4, 2, 0]),
            comes_before(&[4, 2, 0], &[4, 1, 9]),
            comes_before(&[4, 1], &[4, 1]),
            comes_before(&[1], &[2, 0])
        ),
        (true, false, false, false)
    );
    Ok(())
}

#[test]
fn of_three_that_block_alike_the_least_mask_is_chosen(rt: HostRuntime) -> Result<(), Fail> {
    let majority = Table::new(3, &[0, 0, 1, 0, 1, 1, 1]);
    let thirds = Point::new(&[1, 1, 1], 3);
    let masks = blockers(rt.alloc(), &majority, &thirds)?;
    assert_eq!(rt; masks.as_slice(), [0b011, 0b101, 0b110].as_slice());
    assert_eq!(rt;
        (
            chosen_blocker(&majority, &thirds),
            excess(&majority, &thirds, 0b110)
        ),
        (Some(0b011), 1)
    );
    Ok(())
}
