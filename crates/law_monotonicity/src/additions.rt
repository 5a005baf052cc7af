//! What a player gets when it adds more than before (Young 1985).

ghost use Rattle.law_monotonicity.specs.Additions.{WhoAddsMoreGetsNoLess, MonotonicRulesAreShapley};

/// Strong monotonicity of the Shapley value: a player that adds to each coalition at least what it added before gets at
/// least what it got before, whatever else changes (Young 1985).
pub fn who_adds_more_gets_no_less()
    ensures { WhoAddsMoreGetsNoLess }
{}

/// The theorem of Young (1985), both ways: a rule that gives shares to all games of that many players is efficient,
/// gives the same to players that the game doesn't tell apart, and no less to a player that adds more, exactly if it
/// gives each game the Shapley value.
pub fn monotonic_rules_are_shapley()
    ensures { MonotonicRulesAreShapley }
{}
