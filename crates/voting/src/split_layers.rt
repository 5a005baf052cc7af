//! The best sets of each weight, by whether they have to hold some player of a coalition, and to lack some.
ghost use Rattle.std.specs.Prelude.{◌^◌, ◌<◌, ◌+◌, ℕ, true, false, unsigned_abs};
ghost use Rattle.voting.specs.SetKinds.{Numbers, AreSplitLayers, AddsPlayer, AreSmallLayers};

use crate::layer::Layer;

/// A layer for all sets of the players seen so far, for those that hold some player of a coalition, for those that lack
/// some seen player of it, and for those that do both.
#[derive(Clone, Copy)]
pub(crate) struct SplitLayers {
    any: Layer,
    holding: Layer,
    lacking: Layer,
    pub(crate) both: Layer,
}

impl SplitLayers {
    /// Nobody is seen.
    pub(crate) fn of_nobody() -> SplitLayers
        ensures layers { (m : Numbers) (f : ℕ) → AreSplitLayers m f 0 result }
        ensures small { AreSmallLayers 0 result }
    {
        SplitLayers {
            any: Layer::of_nobody(),
            holding: Layer::none(),
            lacking: Layer::none(),
            both: Layer::none(),
        }
    }

    /// One more player is seen, of this weight and number, and in the coalition or not.
    pub(crate) fn add_player(&mut self, is_free: bool, i: u32, weight: usize, number: i128)
        requires player { i < 32 }
        requires number { unsigned_abs number < 2 ^ 110 }
        requires small { AreSmallLayers i self.old }
        ensures layers { AddsPlayer self.old is_free i weight number self.new }
        ensures small { AreSmallLayers (i + 1) self.new }
    {
        if is_free {
            self.add_free(i, weight, number);
        } else {
            self.add_other(i, weight, number);
        }
    }

    /// A player of the coalition: the sets with it hold some, and those without it lack some.
    fn add_free(&mut self, i: u32, weight: usize, number: i128)
        requires player { i < 32 }
        requires number { unsigned_abs number < 2 ^ 110 }
        requires small { AreSmallLayers i self.old }
        ensures layers { AddsPlayer self.old true i weight number self.new }
        ensures small { AreSmallLayers (i + 1) self.new }
    {
        self.both.join(Some(&self.holding), Some(&self.lacking), i, weight, number);
        self.lacking.join(Some(&self.any), None, i, weight, number);
        self.holding.join(None, Some(&self.any), i, weight, number);
        self.any.add_player(i, weight, number);
    }

    /// A player outside the coalition.
    fn add_other(&mut self, i: u32, weight: usize, number: i128)
        requires player { i < 32 }
        requires number { unsigned_abs number < 2 ^ 110 }
        requires small { AreSmallLayers i self.old }
        ensures layers { AddsPlayer self.old false i weight number self.new }
        ensures small { AreSmallLayers (i + 1) self.new }
    {
        self.any.add_player(i, weight, number);
        self.holding.add_player(i, weight, number);
        self.lacking.add_player(i, weight, number);
        self.both.add_player(i, weight, number);
    }
}
