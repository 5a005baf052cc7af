//! What the Shapley value promises to the players, of any number (Shapley 1953). The laws speak of all shares that are
//! the means over all orders (`IsShapley`).

ghost use Rattle.law_answers.specs.ShapleyValue.{ShapleyValuesExist, SharesAddToAll, TotalsAdd, SharesScale};
ghost use Rattle.law_answers.specs.ShapleyValue.{WhoAddsNoLessGetsNoLess, AlikePlayersGetAlike, NullPlayersGetNothing};
ghost use Rattle.law_answers.specs.ShapleyValue.{DummiesGetTheirWorth};
ghost use Rattle.law_answers.specs.FairRules.{FairRulesAreShapley};

/// Each game has shares that are its Shapley value.
pub fn shapley_values_exist()
    ensures { ShapleyValuesExist }
{}

/// Efficiency: if the empty coalition is worth nothing, the shares add to the worth of all.
pub fn shares_add_to_all()
    ensures { SharesAddToAll }
{}

/// Additivity: a player's total in the sum of two games is the sum of its totals.
pub fn totals_add()
    ensures { TotalsAdd }
{}

/// If all worths are multiplied by one number, the shares are multiplied by that number.
pub fn shares_scale()
    ensures { SharesScale }
{}

/// A player that adds no less than another to each coalition without both gets no less.
pub fn who_adds_no_less_gets_no_less()
    ensures { WhoAddsNoLessGetsNoLess }
{}

/// Symmetry: players that the game doesn't tell apart get the same.
pub fn alike_players_get_alike()
    ensures { AlikePlayersGetAlike }
{}

/// A player that adds nothing to each coalition without it gets nothing.
pub fn null_players_get_nothing()
    ensures { NullPlayersGetNothing }
{}

/// A player that adds its worth alone to each coalition without it gets exactly that.
pub fn dummies_get_their_worth()
    ensures { DummiesGetTheirWorth }
{}

/// The theorem of Shapley (1953), both ways, on the games of that many players whose worths are whole numbers, and for
/// rules whose shares are fractions: a rule that gives shares to all these games is efficient, gives the same to those
/// whom the game doesn't tell apart and nothing to those who add nothing, and adds up over sums of games, exactly if it
/// gives each game the Shapley value.
pub fn fair_rules_are_shapley()
    ensures { FairRulesAreShapley }
{}
