//! The greatest sums over the sets of some players that split others, found player by player.
ghost use Rattle.std.specs.Prelude.{◌≡◌, ◌&&◌, ◌||◌, None, IfSome};
ghost use Rattle.std.specs.Prelude.{ℕ, ℤ, ◌+◌, ◌^◌, ◌<◌, ◌≤◌, unsigned_abs};
ghost use Rattle.worth_core.specs.SplitKinds.{AreSplitSums, IsGreatestSum, IsOneMore};
ghost use Rattle.worth_core.specs.SplitKinds.{IsSmallSum, greater_sum, longer_sum};

use std::marker::Model;

/// The greatest sums of the members' numbers over the sets of the players seen so far: a sum for each answer to
/// whether a set holds, and whether it lacks, some seen player of a coalition `F`.
///
/// At most 64 players may be seen.
#[derive(Clone, Copy, Debug)]
pub struct SplitSums {
    neither: Option<i128>,
    holding: Option<i128>,
    lacking: Option<i128>,
    both: Option<i128>,
    count: u32,
}

impl Model for SplitSums {
    ghost use Rattle.worth_core.specs.SplitKinds.{Sums, AreSmallSums};

    ghost Value = { Sums };

    ghost view = { λ s. record
        { neither = s.neither; holding = s.holding; lacking = s.lacking; both = s.both; count = s.count } };

    ghost invariant = { λ s. AreSmallSums
        (record { neither = s.neither; holding = s.holding; lacking = s.lacking; both = s.both; count = s.count }) };

    ghost inverse = { λ s. record
        { neither = s.neither; holding = s.holding; lacking = s.lacking; both = s.both; count = s.count } };
}

impl SplitSums {
    /// Makes the sums when nobody is seen: the empty set alone, whose sum is 0.
    pub fn new() -> SplitSums
        ensures count { result.count ≡ 0 }
        ensures sums { (n : ℕ) (a : ℕ → ℤ) (f : ℕ) → AreSplitSums n a f 0 result }
    {
        SplitSums {
            neither: Some(0),
            holding: None,
            lacking: None,
            both: None,
            count: 0,
        }
    }

    /// Adds one more player, with that number, in `F` or not: each set comes without it and with it.
    pub fn add(&mut self, is_free: bool, weight: i128)
        requires room { self.old.count < 64 }
        requires small { unsigned_abs weight < 2 ^ 112 }
        ensures count { self.new.count ≡ self.old.count + 1 }
        ensures sums { IsOneMore self.old is_free weight self.new }
    {
        *self = if is_free {
            self.with_free(weight)
        } else {
            self.with_other(weight)
        };
    }

    /// Returns the greatest sum over the sets that hold some of `F` and lack some of it; `others_free` says whether
    /// some player of `F` isn't seen yet. Returns none exactly if there is no such set.
    pub fn best(&self, others_free: bool) -> Option<i128>
        ensures sum { (n : ℕ) (a : ℕ → ℤ) (f seen : ℕ) → AreSplitSums n a f seen self.now
            → IsGreatestSum n a f seen (λ holds lacks. holds && (lacks || others_free)) result }
        ensures small { IfSome result (λ m. unsigned_abs m ≤ 2 ^ 118) }
    {
        if others_free {
            greater(self.holding, self.both)
        } else {
            self.both
        }
    }

    /// The sums with a player of `F`: each set without it lacks a player of `F`, and each set with it holds one.
    fn with_free(&self, weight: i128) -> SplitSums
        requires room { self.now.count < 64 }
        requires small { unsigned_abs weight < 2 ^ 112 }
        ensures count { result.count ≡ self.now.count + 1 }
        ensures neither { result.neither ≡ None }
        ensures holding { result.holding ≡ longer_sum (greater_sum self.now.neither self.now.holding) weight }
        ensures lacking { result.lacking ≡ greater_sum self.now.neither self.now.lacking }
        ensures both { result.both
            ≡ greater_sum (greater_sum self.now.holding self.now.both)
            (longer_sum (greater_sum self.now.lacking self.now.both) weight) }
    {
        SplitSums {
            neither: None,
            holding: longer(greater(self.neither, self.holding), weight),
            lacking: greater(self.neither, self.lacking),
            both: greater(
                greater(self.holding, self.both),
                longer(greater(self.lacking, self.both), weight),
            ),
            count: self.count + 1,
        }
    }

    /// The sums with a player outside `F`, who joins a set if that makes its sum greater.
    fn with_other(&self, weight: i128) -> SplitSums
        requires room { self.now.count < 64 }
        requires small { unsigned_abs weight < 2 ^ 112 }
        ensures count { result.count ≡ self.now.count + 1 }
        ensures neither { result.neither ≡ greater_sum self.now.neither (longer_sum self.now.neither weight) }
        ensures holding { result.holding ≡ greater_sum self.now.holding (longer_sum self.now.holding weight) }
        ensures lacking { result.lacking ≡ greater_sum self.now.lacking (longer_sum self.now.lacking weight) }
        ensures both { result.both ≡ greater_sum self.now.both (longer_sum self.now.both weight) }
    {
        SplitSums {
            neither: greater(self.neither, longer(self.neither, weight)),
            holding: greater(self.holding, longer(self.holding, weight)),
            lacking: greater(self.lacking, longer(self.lacking, weight)),
            both: greater(self.both, longer(self.both, weight)),
            count: self.count + 1,
        }
    }
}

/// The greater of two sums, if there are any.
fn greater(m: Option<i128>, k: Option<i128>) -> Option<i128>
    ensures { result ≡ greater_sum m k }
{
    match (m, k) {
        (Some(m), Some(k)) => Some(m.max(k)),
        (None, k) => k,
        (m, None) => m,
    }
}

/// A sum and one more number.
fn longer(sum: Option<i128>, weight: i128) -> Option<i128>
    requires room { IsSmallSum 63 sum }
    requires small { unsigned_abs weight < 2 ^ 112 }
    ensures { result ≡ longer_sum sum weight }
{
    match sum {
        None => None,
        Some(m) => Some(m + weight),
    }
}
