//! Tables that make games and tables that don't, and games of costs.

use crate::asked::{blocker_of, worths_are};
use crate::shares::shares_of;
use crate::tables::table_of;
use coalitions::Coalition;
use std::test::Fail;
use worth_tables::{CostGame, TableFault, TableGame};

#[test]
fn tables_are_refused_by_the_first_cause(rt: HostRuntime) -> Result<(), Fail> {
    const LIMIT: i64 = 1 << 40;
    for &(n, count, worth, fault) in &[
        (0, 0, 0, Some(TableFault::Players)),
        (1, 1, LIMIT - 1, None),
        (1, 1, 1 - LIMIT, None),
        (1, 1, LIMIT, Some(TableFault::Number)),
        (1, 1, -LIMIT, Some(TableFault::Number)),
        (2, 2, 0, Some(TableFault::Players)),
        (2, 4, LIMIT, Some(TableFault::Players)),
        (16, 65535, 3, None),
        (17, 131071, 3, Some(TableFault::Players)),
    ] {
        let worths = vec![in rt.alloc(); worth; count]?;
        let made = TableGame::new(rt.alloc(), n, worths).err();
        assert_eq!(rt; made, fault, "{count} worths of {worth} for {n} players");
    }
    Ok(())
}

#[test]
fn who_pays_more_than_its_cost_blocks(rt: HostRuntime) -> Result<(), Fail> {
    let game = CostGame::new(table_of(rt.alloc(), 2, &[4, 5, 7])?);
    worths_are(&rt, &game, &[0, -4, -5, -7]);
    let x = shares_of(rt.alloc(), &[-1, -6], 1)?;
    assert_eq!(rt; blocker_of(&rt, &game, &x), Some(Coalition(2)));
    Ok(())
}
