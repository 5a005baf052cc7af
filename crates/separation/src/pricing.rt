//! Pricing: which column improves, its cost being above its value by the multipliers.
//!
//! By first improvement, which `entering` answers, the search goes over the numbers, and ends at the first such column.
//!
//! By partial pricing, which `improving` answers, a column is picked so that the simplex takes few steps. Of the first
//! block of 256 coalitions in which one improves, it is that whose cost is most above its value. The search goes round,
//! from the block of the last coalition on.
//!
//! Where it looks first is free, and was chosen by counting steps: the columns in front, then the blocks from that of
//! the last coalition on, which stays where it was when a column in front enters. To begin with the first block again,
//! there and at each part's start, took 14 % more steps over 48 runs.

ghost use Rattle.std.specs.Prelude.{◌≡◌, ◌+◌, ◌^◌, ◌<◌, length, unsigned_abs, ℕ, ◌*◌, MatchOption, ◌-◌};
ghost use Rattle.std.specs.Prelude.{◌/◌, ◌%◌, ◌≤◌, ◌*ℤ◌, ◌-ℤ◌, ◌<ℤ◌, ◌≤ℤ◌, None, IfSome};
ghost use Rattle.definitions.specs.declared.Measure.{Measure};
ghost use Rattle.separation.specs.Scanned.{ImprovesAt, IsFirstAt, ColumnImproves, IsFirstColumn, NoneBelow};
ghost use Rattle.separation.specs.Scanned.{NoneImproves, IsFirstImproving, NoneBetween, IsSomeImproving, IsMostIn};
ghost use Rattle.separation.specs.Scanned.{worth_in};
ghost use Rattle.separation.specs.Values.{AreNarrow};

use crate::block_bounds::best_of_block_narrow;
use crate::front::first_in_front;
use crate::lazy::Lazy;
use crate::scan::Scan;
use crate::sums::{narrow, wide};
use crate::tables::{NarrowSums, Sums};
use coalitions::Coalition;
use definitions::Measure;
use simplex::{ColumnId, Multipliers};
use spans::fill_sums;
use worth_core::Worth;

/// The first coalition of the 256 from 256 * `block` on that has a column whose cost is above its value with plain
/// excess. No coalition before the 256 has one.
fn first_of_block<W: Worth>(scan: &Scan<'_, W>, block: u64) -> Option<Coalition>
    requires block { block < 256 }
    requires plain { scan.now.program.now.measure ≡ Measure.Plain }
    requires before { NoneBelow scan.now (256 * block) }
    ensures { MatchOption result (NoneBelow scan.now (256 * (block + 1))) (IsFirstImproving scan.now) }
{
    let base = scan.base(block);
    let end = (256 * block + 256).min(1 << scan.program.players);
    for mask in 256 * block..end {
        let s = Coalition(mask);
        let value = scan.sums.behind(base, s);
        if scan.marked_improves(value, s) {
            return Some(s);
        }
    }
    None
}

/// The first coalition that has a column whose cost is above its value with plain excess.
fn first_by_blocks<W: Worth>(scan: &Scan<'_, W>) -> Option<Coalition>
    requires plain { scan.now.program.now.measure ≡ Measure.Plain }
    ensures { MatchOption result (NoneImproves scan.now) (IsFirstImproving scan.now) }
{
    for block in 0..256 {
        if let Some(s) = first_of_block(scan, block) {
            return Some(s);
        }
    }
    None
}

/// The first coalition that has a column whose cost is above its value, each value found by itself.
pub(crate) fn first_one_by_one<W: Worth>(scan: &Scan<'_, W>) -> Option<Coalition>
    ensures { MatchOption result (NoneImproves scan.now) (IsFirstImproving scan.now) }
{
    for mask in 0..1u64 << scan.program.players {
        let s = Coalition(mask);
        let column = scan.program.marked_column(s);
        if scan.improves(column) {
            return Some(s);
        }
    }
    None
}

/// The first coalition that has a column whose cost is above its value. With plain excess the coalitions of a block
/// have the multiplier of their level row in common; per head there are at most 8 players, and each coalition has its
/// own entry there.
fn first_marked<W: Worth>(scan: &Scan<'_, W>) -> Option<Coalition>
    ensures { MatchOption result (NoneImproves scan.now) (IsFirstImproving scan.now) }
{
    match scan.program.measure {
        Measure::Plain => first_by_blocks(scan),
        Measure::PerHead => first_one_by_one(scan),
    }
}

/// The number of the first column whose cost is above its value, by the sums of the multipliers.
fn first_by_sums<W: Worth>(scan: &Scan<'_, W>) -> Option<ColumnId>
    ensures { MatchOption result ((id : ℕ) → ¬ ColumnImproves scan.now id) (IsFirstColumn scan.now) }
{
    if let Some(id) = first_in_front(scan) {
        return Some(id);
    }
    let s = first_marked(scan)?;
    Some(scan.program.first + s.0)
}

/// The number of the first column whose cost is above its value, without costs as if each were 0.
pub(crate) fn first_found<'a, W: Worth>(
    program: &'a Lazy<'a, W>,
    m: &'a Multipliers,
    with_costs: bool,
) -> Option<ColumnId>
    requires rows { length m.now.num.items ≡ program.now.players + program.now.levels }
    ensures { MatchOption result ((id : ℕ) → ¬ ImprovesAt program.now m.now with_costs id)
        (IsFirstAt program.now m.now with_costs) }
{
    let tables = wide(m, program.players);
    let sums = Sums::Wide(&tables);
    first_by_sums(&Scan {
        program,
        m,
        sums,
        with_costs,
    })
}

/// By how much the cost of a coalition's column is above a value.
fn gap<W: Worth>(scan: &Scan<'_, W>, value: i128, s: Coalition) -> i128
    requires within { s < 2 ^ scan.now.program.now.players }
    requires small { unsigned_abs value ≤ 2 ^ 115 }
    ensures { result ≡ (scan.now.m.now.den *ℤ worth_in scan.now s) -ℤ value }
{
    let worth = scan.worth(s);
    scan.bar(worth) - value
}

/// The better so far, or a coalition with a greater gap.
fn greater(best: Option<(Coalition, i128)>, s: Coalition, gap: i128) -> (Coalition, i128)
    ensures { MatchOption best (result ≡ (s, gap))
        (λ b. (b.1 <ℤ gap → result ≡ (s, gap)) × (gap ≤ℤ b.1 → result ≡ b)) }
{
    match best {
        Some((t, most)) => { if most < gap { (s, gap) } else { (t, most) } }
        None => (s, gap),
    }
}

/// What `best_of_block` finds, in 128 bits.
fn best_of_block_wide<W: Worth>(scan: &Scan<'_, W>, block: u64) -> Option<Coalition>
    requires block { block < 256 }
    requires plain { scan.now.program.now.measure ≡ Measure.Plain }
    ensures { MatchOption result (NoneBetween scan.now (256 * block) (256 * (block + 1)))
        (IsMostIn scan.now (256 * block) (256 * (block + 1))) }
{
    let base = scan.base(block);
    let end = (256 * block + 256).min(1 << scan.program.players);
    let mut best: Option<(Coalition, i128)> = None;
    for mask in 256 * block..end {
        let s = Coalition(mask);
        let value = scan.sums.behind(base, s);
        if scan.marked_improves(value, s) {
            let here = gap(scan, value, s);
            best = Some(greater(best, s, here));
        }
    }
    best.map(|(s, _)| s)
}

/// Of the 256 coalitions from 256 * `block` on one that has a column whose cost is above its value with plain excess:
/// that whose cost is most above its value. The search is in 64 bits if the block's numbers have room there.
fn best_of_block<W: Worth>(scan: &Scan<'_, W>, block: u64) -> Option<Coalition>
    requires block { block < 256 }
    requires plain { scan.now.program.now.measure ≡ Measure.Plain }
    ensures { MatchOption result (NoneBetween scan.now (256 * block) (256 * (block + 1)))
        (IsMostIn scan.now (256 * block) (256 * (block + 1))) }
{
    let base = scan.base(block);
    match &scan.sums {
        Sums::Narrow(narrow) if scan.m.den < 1 << 16 && base.unsigned_abs() <= 1 << 61 => {
            best_of_block_narrow(scan, narrow, base as i64, block)
        }
        _ => best_of_block_wide(scan, block),
    }
}

/// Of the blocks from one on up to another, what is found in the first that has any.
fn best_from<W: Worth>(scan: &Scan<'_, W>, from: u64, to: u64) -> Option<Coalition>
    requires to { to ≤ 256 }
    requires plain { scan.now.program.now.measure ≡ Measure.Plain }
    ensures { MatchOption result (NoneBetween scan.now (256 * from) (256 * to)) (IsSomeImproving scan.now) }
{
    for block in from..to {
        if let Some(s) = best_of_block(scan, block) {
            return Some(s);
        }
    }
    None
}

/// A coalition that has a column whose cost is above its value with plain excess, sought from the last place on.
fn best_around<W: Worth>(scan: &Scan<'_, W>) -> Option<Coalition>
    requires plain { scan.now.program.now.measure ≡ Measure.Plain }
    ensures { MatchOption result (NoneImproves scan.now) (IsSomeImproving scan.now) }
{
    let at = u64::from(scan.program.at);
    if let Some(s) = best_from(scan, at, 256) {
        return Some(s);
    }
    best_from(scan, 0, at)
}

/// A coalition that has a column whose cost is above its value.
///
/// Per head there are at most 256 coalitions, so only with plain excess does the search have to be quick.
fn some_marked<W: Worth>(scan: &Scan<'_, W>) -> Option<Coalition>
    ensures { MatchOption result (NoneImproves scan.now) (IsSomeImproving scan.now) }
{
    match scan.program.measure {
        Measure::Plain => best_around(scan),
        Measure::PerHead => first_one_by_one(scan),
    }
}

/// The number of a column whose cost is above its value, by the sums of the multipliers.
fn some_by_sums<W: Worth>(scan: &Scan<'_, W>) -> Option<ColumnId>
    ensures { MatchOption result ((id : ℕ) → ¬ ColumnImproves scan.now id) (ColumnImproves scan.now) }
{
    if let Some(id) = first_in_front(scan) {
        return Some(id);
    }
    let s = some_marked(scan)?;
    Some(scan.program.first + s.0)
}

/// The number of such a column, by tables in 64 bits of the players' multipliers there.
fn some_by_narrow_sums<'a, W: Worth>(
    program: &'a Lazy<'a, W>,
    m: &'a Multipliers,
    numbers: &[i64; 16],
    with_costs: bool,
) -> Option<ColumnId>
    requires rows { length m.now.num.items ≡ program.now.players + program.now.levels }
    requires numbers { AreNarrow m.now.num.items program.now.players numbers.now }
    ensures { MatchOption result ((id : ℕ) → ¬ ImprovesAt program.now m.now with_costs id)
        (ImprovesAt program.now m.now with_costs) }
{
    let mut low = [0; 256];
    let mut high = [0; 256];
    fill_sums(&mut low, numbers, 0);
    fill_sums(&mut high, numbers, 8);
    let tables = NarrowSums::new(&low, &high);
    let sums = Sums::Narrow(tables);
    some_by_sums(&Scan {
        program,
        m,
        sums,
        with_costs,
    })
}

/// The number of such a column, by tables in 128 bits. It is a function of its own, since its tables are large and
/// seldom made.
#[inline(never)]
fn some_by_wide_sums<'a, W: Worth>(
    program: &'a Lazy<'a, W>,
    m: &'a Multipliers,
    with_costs: bool,
) -> Option<ColumnId>
    requires rows { length m.now.num.items ≡ program.now.players + program.now.levels }
    ensures { MatchOption result ((id : ℕ) → ¬ ImprovesAt program.now m.now with_costs id)
        (ImprovesAt program.now m.now with_costs) }
{
    let tables = wide(m, program.players);
    let sums = Sums::Wide(&tables);
    some_by_sums(&Scan {
        program,
        m,
        sums,
        with_costs,
    })
}

/// The number of a column whose cost is above its value, without costs as if each were 0.
pub(crate) fn some_found<'a, W: Worth>(
    program: &'a Lazy<'a, W>,
    m: &'a Multipliers,
    with_costs: bool,
) -> Option<ColumnId>
    requires rows { length m.now.num.items ≡ program.now.players + program.now.levels }
    ensures { MatchOption result ((id : ℕ) → ¬ ImprovesAt program.now m.now with_costs id)
        (ImprovesAt program.now m.now with_costs) }
{
    match narrow(m, program.players) {
        Some(numbers) => some_by_narrow_sums(program, m, &numbers, with_costs),
        None => some_by_wide_sums(program, m, with_costs),
    }
}

/// The block of the coalition whose column was found. The columns of the coalitions have the numbers from `first` on.
/// The block `before` if another column was found, or none.
pub(crate) fn block_of(found: Option<ColumnId>, first: ColumnId, before: u8) -> u8
    ensures coalition { IfSome found (λ id. first ≤ id → result ≡ (id - first) / 256 % 256) }
    ensures front { IfSome found (λ id. id < first → result ≡ before) }
    ensures none { found ≡ None → result ≡ before }
{
    match found {
        Some(id) if first <= id => ((id - first) / 256 % 256) as u8,
        _ => before,
    }
}
