//! Who can block a vote, and the core of simple games. Each function's contract is a theorem, and it does nothing when
//! it runs.

ghost use Rattle.law_classes.specs.Vetoes.{VotesAreSimple, CoreIsAmongVetoes, ACoreNeedsAVeto, WhoHasAVetoGetsNoLess};
ghost use Rattle.law_classes.specs.Vetoes.{TwoOfThreeVetoes};

/// A vote by weights and a quota is a simple game (Shapley 1962).
pub fn votes_are_simple()
    ensures { VotesAreSimple }
{}

/// The core points of a simple game are exactly the divisions among the players with a veto.
pub fn core_is_among_vetoes()
    ensures { CoreIsAmongVetoes }
{}

/// A simple game in which all together win has a core point exactly when some player has a veto.
pub fn a_core_needs_a_veto()
    ensures { ACoreNeedsAVeto }
{}

/// By the nucleolus and the prenucleolus, plain and per head, a player with a veto gets no less than any other.
pub fn who_has_a_veto_gets_no_less()
    ensures { WhoHasAVetoGetsNoLess }
{}

/// If three voters have 3, 4 and 1 votes and 7 are needed, the first two have a veto and the third has none.
pub fn two_of_three_vetoes()
    ensures { TwoOfThreeVetoes }
{}
