//! What the players of the next block pay.
ghost use Rattle.std.specs.Prelude.{◌≡◌, length};
ghost use Rattle.std.specs.Prelude.{◌^◌, ◌<◌, ◌≤◌, pos, ◌-ℤ◌, ◌*ℤ◌, ◌≤ℤ◌, ◌<ℤ◌, int_lt, unsigned_abs};
ghost use Rattle.airport_scheme.specs.Scheme.{cost_at, IsTerm, IsLeastTerm};

use airport::AirportGame;

/// A payment over `size` times the denominator, of each place up to `last`.
#[derive(Clone, Copy)]
pub(crate) struct Rate {
    pub(crate) last: u32,
    pub(crate) size: i128,
    pub(crate) value: i128,
}

/// A number times a small one.
pub(crate) fn times(a: i128, b: i128) -> i128
    requires left { unsigned_abs a < 2 ^ 112 }
    requires right { unsigned_abs b < 2 ^ 7 }
    ensures value { result ≡ a *ℤ b }
    ensures small { unsigned_abs result < 2 ^ 119 }
{
    a * b
}

/// What is left of a cost after `paid`, over the denominator.
fn rest(den: i128, cost: i64, paid: i128) -> i128
    requires positive { pos 1 ≤ℤ den }
    requires common { den ≤ℤ pos (2 ^ 63) }
    requires cost_low { pos 0 ≤ℤ cost }
    requires cost_high { cost <ℤ pos (2 ^ 40) }
    requires paid { unsigned_abs paid < 2 ^ 104 }
    ensures value { result ≡ den *ℤ cost -ℤ paid }
    ensures small { unsigned_abs result < 2 ^ 105 }
{
    den * cost as i128 - paid
}

/// What each pays if the block ends at place `l`: they share what is left of its cost, with one payment more if
/// other players follow.
fn term(game: &AirportGame, done: u32, l: u32, den: i128, paid: i128) -> Rate
    requires from { done ≤ l }
    requires within { l < length game.now.costs }
    requires positive { pos 1 ≤ℤ den }
    requires common { den ≤ℤ pos (2 ^ 63) }
    requires paid { unsigned_abs paid < 2 ^ 104 }
    ensures term { IsTerm (length game.now.costs) (cost_at game.now) den paid done l result.size result.value }
    ensures last { result.last ≡ l }
    ensures size { unsigned_abs result.size < 2 ^ 7 }
    ensures rate { unsigned_abs result.value < 2 ^ 105 }
{
    let n = game.len();
    let size = if l + 1 < n {
        l + 2 - done
    } else {
        l + 1 - done
    };
    let value = rest(den, game.cost(game.place(l)), paid);
    Rate {
        last: l,
        size: size as i128,
        value,
    }
}

/// Whether the first rate is less than the second.
fn less(a: Rate, b: Rate) -> bool
    requires a_size { unsigned_abs a.size < 2 ^ 7 }
    requires a_rate { unsigned_abs a.value < 2 ^ 105 }
    requires b_size { unsigned_abs b.size < 2 ^ 7 }
    requires b_rate { unsigned_abs b.value < 2 ^ 105 }
    ensures { result ≡ int_lt (a.value *ℤ b.size) (b.value *ℤ a.size) }
{
    times(a.value, b.size) < times(b.value, a.size)
}

/// The least rate of a block that begins at place `done`.
pub(crate) fn next(game: &AirportGame, done: u32, den: i128, paid: i128) -> Rate
    requires within { done < length game.now.costs }
    requires positive { pos 1 ≤ℤ den }
    requires common { den ≤ℤ pos (2 ^ 63) }
    requires paid { unsigned_abs paid < 2 ^ 104 }
    ensures least { IsLeastTerm (length game.now.costs) (cost_at game.now) den paid done result.last result.size
        result.value }
    ensures size { unsigned_abs result.size < 2 ^ 7 }
    ensures rate { unsigned_abs result.value < 2 ^ 105 }
{
    let n = game.len();
    let mut best = term(game, done, n - 1, den, paid);
    for l in done..n {
        let here = term(game, done, l, den, paid);
        if less(here, best) {
            best = here;
        }
    }
    best
}
