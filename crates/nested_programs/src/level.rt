//! The level that optimal weights of a stage are. The number of a column is the numerator of its weight.
ghost use Rattle.std.specs.Prelude.{◌≡◌, ℕ, ◌+◌, ◌^◌, ◌<◌, ◌≤◌, ◌-ℤ◌, ◌≤ℤ◌, pos, unsigned_abs, length, take};
ghost use Rattle.std.specs.Prelude.{IfOk, OnOk, OnErr};
ghost use Rattle.std.specs.List.{AllByRecursion};
ghost use Rattle.arrayvec.specs.ArrayVec.{array_vec_len};
ghost use Rattle.definitions.specs.Certificates.{number_at};
ghost use Rattle.separation.specs.Stage.{earlier_of};
ghost use Rattle.kohlberg.specs.Solved.{IsLowest};
ghost use Rattle.nested_programs.specs.Numbers.{AreNumbers, outer_pairs, earlier_pairs};
ghost use Rattle.nested_programs.specs.Numbers.{level_pairs, bound_pairs, IsLevelOf};
ghost use Rattle.kohlberg.specs.Pairs.{placed, placed_behind};

use coalitions::Coalition;
use kohlberg::{Level, put_pair};
use separation::coalition_count;
use simplex::{ColumnId, Optimal};
use std::alloc::{AllocError, Global};
use worth_core::ratio;

/// The number of a column, and 0 for a column without one.
fn number_of(weights: &[(ColumnId, i128)], id: ColumnId) -> i128
    requires { AreNumbers weights.now }
    ensures value { result ≡ number_at weights.now id }
    ensures nonnegative { pos 0 ≤ℤ result }
    ensures small { unsigned_abs result < 2 ^ 62 }
{
    for (other, weight) in weights {
        if *other == id {
            return *weight;
        }
    }
    0
}

/// The number of a column less that of the same column negated.
fn net_of(weights: &[(ColumnId, i128)], id: ColumnId, negated: ColumnId) -> i128
    requires { AreNumbers weights.now }
    ensures value { result ≡ number_at weights.now id -ℤ number_at weights.now negated }
    ensures small { unsigned_abs result < 2 ^ 62 }
{
    number_of(weights, id) - number_of(weights, negated)
}

/// The coalitions outside that have a number, in mask order, where `first` is the number of the column of the empty
/// one.
fn outer_numbers(
    alloc: Global,
    weights: &[(ColumnId, i128)],
    first: ColumnId,
) -> Result<Vec<(Coalition, i128)>, AllocError>
    ensures { IfOk result (λ v. v.items ≡ placed (outer_pairs first weights.now)) }
{
    let mut coalitions = Vec::new(alloc);
    for (id, weight) in weights {
        if first <= *id {
            put_pair(&mut coalitions, Coalition(*id - first), *weight)?;
        }
    }
    Ok(coalitions)
}

/// Puts the coalitions of a level in front whose net number isn't 0 in mask order, where `first` is the number of the
/// column of its first.
///
/// Fails only if memory runs out; then those of the first coalitions are put.
fn put_level(
    earlier: &mut Vec<(Coalition, i128)>,
    weights: &[(ColumnId, i128)],
    first: ColumnId,
    pairs: &[(Coalition, i128)],
) -> Result<(), AllocError>
    requires weights { AreNumbers weights.now }
    requires small { first ≤ 2 ^ 32 }
    requires few { length pairs.now ≤ 65536 }
    ensures ok { OnOk result
        (earlier.new.items ≡ placed_behind earlier.old.items (level_pairs weights.now first pairs.now)) }
    ensures err { OnErr result ((k : ℕ) × (earlier.new.items
        ≡ placed_behind earlier.old.items (level_pairs weights.now first (take k pairs.now)))) }
{
    for k in 0..pairs.len() {
        let id = first + 2 * k as u64;
        let number = net_of(weights, id, id + 1);
        if number != 0 {
            put_pair(earlier, pairs[k].0, number)?;
        }
    }
    Ok(())
}

/// The coalitions of the levels in front whose net number isn't 0, in mask order.
fn earlier_numbers(
    alloc: Global,
    weights: &[(ColumnId, i128)],
    front: &[Level],
) -> Result<Vec<(Coalition, i128)>, AllocError>
    requires weights { AreNumbers weights.now }
    requires few { length front.now ≤ 14 }
    requires small { AllByRecursion (λ l. length l.coalitions ≤ 65536) front.now }
    ensures { IfOk result (λ v. v.items ≡ placed (earlier_pairs weights.now 2 (earlier_of 0 front.now))) }
{
    let mut earlier = Vec::new(alloc);
    let mut id: ColumnId = 2;
    for level in front {
        put_level(&mut earlier, weights, id, &level.coalitions)?;
        id += 2 * level.coalitions.len() as u64;
    }
    Ok(earlier)
}

/// The players whose bound has a net number that isn't 0, where `first` is the number of the column of the first alone.
fn bound_numbers(
    alloc: Global,
    weights: &[(ColumnId, i128)],
    first: ColumnId,
    n: u32,
) -> Result<Vec<(u32, i128)>, AllocError>
    requires weights { AreNumbers weights.now }
    requires small { first ≤ 2 ^ 32 }
    requires few { n ≤ 16 }
    ensures { IfOk result (λ v. v.items ≡ bound_pairs weights.now first n n) }
{
    let mut bounds = Vec::new(alloc);
    for i in 0..n {
        let id = first + u64::from(i);
        let number = net_of(weights, id, id + u64::from(n));
        if number != 0 {
            bounds.push((i, number))?;
        }
    }
    Ok(bounds)
}

/// The level of the optimum of a stage behind these levels: the coalitions, earlier coalitions and bounds with a
/// number, and the optimum as excess.
///
/// The multipliers of all later stages have the same excess at this level, so it is read here, and no level is written
/// twice.
pub(crate) fn level_of(
    alloc: Global,
    n: u32,
    front: &[Level],
    best: &Optimal,
) -> Result<Level, AllocError>
    requires few { n ≤ 16 }
    requires levels { length front.now + 2 ≤ n }
    requires small { AllByRecursion (λ l. length l.coalitions ≤ 65536) front.now }
    requires weights { AreNumbers best.now.weights.items }
    requires multipliers { array_vec_len best.now.multipliers.num ≡ n + (length front.now + 1) }
    ensures lowest { IfOk result IsLowest }
    ensures level { IfOk result (IsLevelOf n front.now best.now) }
{
    let weights = best.weights.as_slice();
    let first = 2 + 2 * coalition_count(front);
    let optimum = best.multipliers.num[n as usize + front.len()];
    Ok(Level {
        excess: ratio(optimum, best.multipliers.den),
        coalitions: outer_numbers(alloc, weights, first + 2 * u64::from(n))?,
        earlier: earlier_numbers(alloc, weights, front)?,
        bounds: bound_numbers(alloc, weights, first, n)?,
        total: net_of(weights, 1, 0),
    })
}
