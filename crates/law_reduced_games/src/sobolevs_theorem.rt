//! Which rule has these properties: the prenucleolus alone. Each function's contract is a theorem, and it does nothing
//! when it runs.

ghost use Rattle.law_reduced_games.specs.SobolevsTheorem.{SobolevsTheorem, SomeRuleMeetsThem, ShapleyLacksReducedGames};
ghost use Rattle.law_reduced_games.specs.SobolevsTheorem.{InTheirOrder};

/// Sobolev's theorem (Sobolev 1975), both ways, over games whose worths are whole numbers and rules whose shares are
/// fractions: a rule that gives one allocation to each game, of any number of players, is covariant under strategic
/// equivalence, anonymous and has the reduced game property exactly if it gives each game its prenucleolus.
pub fn sobolevs_theorem()
    ensures { SobolevsTheorem }
{}

/// Some rule meets the axioms of Sobolev's theorem.
pub fn some_rule_meets_them()
    ensures { SomeRuleMeetsThem }
{}

/// The Shapley value meets three of the four axioms, and lacks the reduced game property: if one player has a left
/// glove and two have a right one, and one of the two goes with its share, the Shapley value of what is left gives the
/// others other shares.
pub fn shapley_lacks_reduced_games()
    ensures { ShapleyLacksReducedGames }
{}

/// Examples of what the axioms speak of: a vote is playable and a game of nobody isn't, and two of three keep their
/// order, but not exchanged.
pub fn in_their_order()
    ensures { InTheirOrder }
{}
