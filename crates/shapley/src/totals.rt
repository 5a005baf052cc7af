//! Shapley totals by the worths of all coalitions.
ghost use Rattle.std.specs.Prelude.{◌≡◌, IfOk, IsErrOf, ◌↔◌, if◌then◌else◌};
ghost use Rattle.std.specs.Prelude.{ℕ, ◌-◌, ◌^◌, ◌<◌, ◌≤◌, unsigned_abs, pos, neg_ℤ, ◌+ℤ◌, ◌*ℤ◌};
ghost use Rattle.std.specs.Prelude.{length, slice_index_or, All};
ghost use Rattle.definitions.specs.Shapley.{factorial, shapley_total, IsShapley};
ghost use Rattle.shapley.specs.Subsets.{orders_with, credit};

use crate::ShapleyFault;
use coalitions::Coalition;
use std::alloc::{AllocError, Global};
use worth_core::{Shares, Worth};

/// The number of orders of `n` players.
fn factorial(n: u32) -> u64
    requires { n ≤ 16 }
    ensures value { result ≡ factorial n }
    ensures small { result ≤ 20922789888000 }
{
    let mut product: u64 = 1;
    for i in 0..n {
        product *= i as u64 + 1;
    }
    product
}

/// The orders of `n` players in which `k` given ones stand in front of another given one, and all others behind it.
fn orders_with(n: u32, k: u32) -> u64
    requires few { n ≤ 16 }
    requires behind { k < n }
    ensures value { result ≡ orders_with n k }
    ensures small { result ≤ 1307674368000 }
{
    factorial(k) * factorial(n - 1 - k)
}

/// A worth, as often as there are orders of `n` players in which `k` given ones stand in front of another given one.
fn weighted(n: u32, k: u32, worth: i64) -> i128
    requires few { n ≤ 16 }
    requires behind { k < n }
    requires small { unsigned_abs worth < 2 ^ 46 }
    ensures value { result ≡ pos (orders_with n k) *ℤ worth }
    ensures small { unsigned_abs result < 2 ^ 87 }
{
    orders_with(n, k) as i128 * worth as i128
}

/// What the worth of a coalition with so many members counts for each of them: as often as the other members stand in
/// front of it, and all other players behind. 0 for nobody.
fn gain(n: u32, members: u32, worth: i64) -> i128
    requires few { n ≤ 16 }
    requires members { members ≤ n }
    requires small { unsigned_abs worth < 2 ^ 46 }
    ensures value { 1 ≤ members → result ≡ pos (orders_with n (members - 1)) *ℤ worth }
    ensures small { unsigned_abs result < 2 ^ 87 }
{
    if members == 0 {
        0
    } else {
        weighted(n, members - 1, worth)
    }
}

/// What it counts against each other player: as often as the members stand in front of it. 0 if there is no other
/// player.
fn loss(n: u32, members: u32, worth: i64) -> i128
    requires few { n ≤ 16 }
    requires members { members ≤ n }
    requires small { unsigned_abs worth < 2 ^ 46 }
    ensures value { members < n → result ≡ pos (orders_with n members) *ℤ worth }
    ensures small { unsigned_abs result < 2 ^ 87 }
{
    if members == n {
        0
    } else {
        weighted(n, members, worth)
    }
}

/// The total with the gain of a member, or less the loss of another player.
fn changed(total: i128, is_member: bool, gain: i128, loss: i128) -> i128
    requires total { unsigned_abs total < 2 ^ 109 }
    requires gain { unsigned_abs gain < 2 ^ 87 }
    requires loss { unsigned_abs loss < 2 ^ 87 }
    ensures value { result ≡ total +ℤ (if is_member then gain else neg_ℤ loss) }
    ensures small { unsigned_abs result < 2 ^ 110 }
{
    if is_member {
        total + gain
    } else {
        total - loss
    }
}

/// Adds what the worth of a coalition counts for each member and against each other player.
fn add_worth(totals: &mut [i128], n: u32, s: Coalition, worth: i64)
    requires count { length totals.old ≡ n }
    requires few { n ≤ 16 }
    requires within { s < 2 ^ n }
    requires small { unsigned_abs worth < 2 ^ 46 }
    requires room { All (λ z. unsigned_abs z < 2 ^ 109) totals.old }
    ensures { (k : ℕ) → k < n
        → slice_index_or totals.new k (pos 0) ≡ slice_index_or totals.old k (pos 0) +ℤ credit n s worth k }
{
    let members = s.len();
    let gain = gain(n, members, worth);
    let loss = loss(n, members, worth);
    for i in 0..totals.len() {
        totals[i] = changed(totals[i], s.contains(i as u32), gain, loss);
    }
}

/// For each player the sum, over all orders, of what it adds. Each coalition's worth is asked for once.
fn all_totals<W: Worth>(alloc: Global, game: &W) -> Result<Vec<i128>, AllocError>
    requires { (W.game game.now).players ≤ 16 }
    ensures long { IfOk result (λ totals. length totals.items ≡ (W.game game.now).players) }
    ensures value { IfOk result (λ totals. (k : ℕ) → k < (W.game game.now).players
        → slice_index_or totals.items k (pos 0) ≡ shapley_total (W.game game.now) k) }
    ensures small { IfOk result (λ totals. All (λ z. unsigned_abs z < 2 ^ 109) totals.items) }
{
    let n = game.players();
    let mut totals = vec![in alloc; 0i128; n as usize]?;
    for mask in 0..1u64 << n {
        let s = Coalition(mask);
        add_worth(&mut totals, n, s, game.worth(s));
    }
    Ok(totals)
}

/// The Shapley shares of a game of at most 16 players, over the number of orders.
fn mean_shares<W: Worth>(alloc: Global, game: &W) -> Result<Shares, AllocError>
    requires { (W.game game.now).players ≤ 16 }
    ensures value { IfOk result (IsShapley (W.game game.now)) }
    ensures den { IfOk result (λ x. x.den ≡ pos (factorial (W.game game.now).players)) }
{
    let totals = all_totals(alloc, game)?;
    Ok(Shares::new(totals, factorial(game.players()) as i128).unwrap())
}

/// Returns the Shapley shares of a game of at most 16 players, as worths over the number of orders: for each player the
/// mean, over all orders, of what it adds to the worth of those before it (Shapley 1953).
///
/// # Errors
///
/// `TooMany` exactly if there are more than 16 players; `Memory` if memory for the shares runs out.
pub fn shapley<W: Worth>(alloc: Global, game: &W) -> Result<Shares, ShapleyFault>
    ensures value { IfOk result (IsShapley (W.game game.now)) }
    ensures den { IfOk result (λ x. x.den ≡ pos (factorial (W.game game.now).players)) }
    ensures too_many { IsErrOf result ShapleyFault.TooMany ↔ (16 < (W.game game.now).players) }
{
    if game.players() > 16 {
        return Err(ShapleyFault::TooMany);
    }
    mean_shares(alloc, game).map_err(|_| ShapleyFault::Memory)
}
