//! Shares by which nobody subsidizes anybody (Faulhaber 1975). Of any number of players.

ghost use Rattle.law_stability.specs.Subsidies.{CoreIsSubsidyFree, DummiesInTheCore};

/// The core points are exactly the efficient shares by which no coalition gets more than it adds to the worth of the
/// others: of costs, each group pays at least what they rise by on its account, exactly if no group pays more than it
/// would by itself (Faulhaber 1975).
pub fn core_is_subsidy_free()
    ensures { CoreIsSubsidyFree }
{}

/// At each core point a player that adds its worth alone to each coalition without it gets exactly that.
pub fn dummies_in_the_core()
    ensures { DummiesInTheCore }
{}
