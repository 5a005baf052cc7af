//! Programs of one row.

ghost use Rattle.test_solvers.specs.OneRow.{one_column, one_column_lawful, two_ways, two_ways_lawful};

use simplex::{Columns, LpFault, Multipliers, Optimal, Workspace, solve};

/// A row with right side 1, and one column: with entry -1 and cost 0 if `opposite`, or else with entry 1 and cost
/// -3.
#[derive(Drop)]
struct OneColumn {
    opposite: bool,
}

impl Columns for OneColumn {
    ghost program = { λ s. one_column s.opposite };

    ghost players = { λ s. 1 };

    ghost lawful = { λ s. one_column_lawful s.opposite };

    fn rows(&self) -> u32 {
        1
    }

    fn right(&self, _row: u32) -> i32 {
        1
    }

    fn has(&self, id: u64) -> bool {
        id == 0
    }

    fn entry(&self, _id: u64, _row: u32) -> i32 {
        if self.opposite { -1 } else { 1 }
    }

    fn cost(&self, _id: u64) -> i64 {
        if self.opposite { 0 } else { -3 }
    }

    fn entering(&mut self, m: &Multipliers, with_costs: bool) -> Option<u64> {
        let value = m.num[0];
        if self.opposite {
            return if value > 0 { Some(0) } else { None };
        }
        let cost = if with_costs { -3 * m.den } else { 0 };
        if value < cost { Some(0) } else { None }
    }
}

#[derive(Drop)]
struct TwoWays;

impl Columns for TwoWays {
    ghost program = { λ s. two_ways };

    ghost players = { λ s. 1 };

    ghost lawful = { λ s. two_ways_lawful };

    fn rows(&self) -> u32 {
        1
    }

    fn right(&self, _row: u32) -> i32 {
        0
    }

    fn has(&self, id: u64) -> bool {
        id < 2
    }

    fn entry(&self, id: u64, _row: u32) -> i32 {
        if id == 0 { 1 } else { -1 }
    }

    fn cost(&self, id: u64) -> i64 {
        if id == 0 { 1 } else { 0 }
    }

    fn entering(&mut self, m: &Multipliers, with_costs: bool) -> Option<u64> {
        let value = m.num[0];
        let cost = if with_costs { m.den } else { 0 };
        if value < cost {
            return Some(0);
        }
        if value > 0 { Some(1) } else { None }
    }
}

/// The weight, its denominator, the multiplier and its denominator; none if there is not one weight and one
/// multiplier.
fn numbers(best: &Optimal) -> Option<(i128, i128, i128, i128)> {
    let weights = best.weights.as_slice();
    let multipliers = best.multipliers.num.as_slice();
    if weights.len() != 1 || multipliers.len() != 1 {
        return None;
    }
    Some((
        weights[0].1,
        best.weight_den,
        multipliers[0],
        best.multipliers.den,
    ))
}

#[test]
fn one_weight(rt: HostRuntime) {
    let mut program = OneColumn { opposite: false };
    let Ok(mut work) = Workspace::new(rt.alloc(), 1) else {
        panic!(&rt; "no memory");
    };
    let Ok(best) = solve(&mut work, &mut program) else {
        panic!(&rt; "no answer");
    };
    assert_eq!(&rt; numbers(&best), Some((1, 1, -3, 1)));
}

#[test]
fn no_solution(rt: HostRuntime) {
    let mut program = OneColumn { opposite: true };
    let Ok(mut work) = Workspace::new(rt.alloc(), 1) else {
        panic!(&rt; "no memory");
    };
    let Err(fault) = solve(&mut work, &mut program) else {
        panic!(&rt; "an answer");
    };
    assert_eq!(&rt; fault, LpFault::NoSolution);
}

#[test]
fn unbounded(rt: HostRuntime) {
    let mut program = TwoWays;
    let Ok(mut work) = Workspace::new(rt.alloc(), 1) else {
        panic!(&rt; "no memory");
    };
    let Err(fault) = solve(&mut work, &mut program) else {
        panic!(&rt; "an answer");
    };
    assert_eq!(&rt; fault, LpFault::Unbounded);
}
