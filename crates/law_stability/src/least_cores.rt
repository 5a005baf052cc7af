//! The least core (Maschler, Peleg and Shapley 1979), by plain excess of any number of players, and per head of at most
//! 16.

ghost use Rattle.law_stability.specs.LeastCore.{PrenucleolusIsInLeastCore, LeastCoreIsntEmpty, LeastCoreIsInCore};

/// The prenucleolus lies in the least core, plain and per head.
pub fn prenucleolus_is_in_least_core()
    ensures { PrenucleolusIsInLeastCore }
{}

/// Every game with a player has shares in the least core.
pub fn least_core_isnt_empty()
    ensures { LeastCoreIsntEmpty }
{}

/// If the core isn't empty, the least core lies in it, plain and per head.
pub fn least_core_is_in_core()
    ensures { LeastCoreIsInCore }
{}
