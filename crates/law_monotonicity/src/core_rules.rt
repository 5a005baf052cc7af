//! What a player gets if only coalitions with that player grow: by rules that give core points, and by the Shapley
//! value (Young 1985).

ghost use Rattle.law_monotonicity.specs.CoreRules.{SomebodyLosesInTheCore, NoCoreRuleIsMonotonic};
ghost use Rattle.law_monotonicity.specs.CoreRules.{WhoIsInAllThatGrowsGetsNoLess};

/// For any number of players from five on there is a game in which only coalitions with one player come to be worth
/// more, and this player gets less at every core point (Young 1985). (The proof's two games are his, for five players.)
pub fn somebody_loses_in_the_core()
    ensures { SomebodyLosesInTheCore }
{}

/// No rule for four players or more gives a core point whenever there is one, and no member less if one coalition is
/// worth more: not even if that is asked only of games with core points (for five and more Young 1985, for four Housman
/// and Clark 1998).
pub fn no_core_rule_is_monotonic()
    ensures { NoCoreRuleIsMonotonic }
{}

/// The Shapley value gives a player no less if no coalition with this player is worth less, and each other coalition is
/// worth what it was: for any number of players.
pub fn who_is_in_all_that_grows_gets_no_less()
    ensures { WhoIsInAllThatGrowsGetsNoLess }
{}
