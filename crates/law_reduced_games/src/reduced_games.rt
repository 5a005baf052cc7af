//! The reduced game of those who stay (Davis and Maschler 1965), of any number of players, and what solutions give them
//! in it. Each function's contract is a theorem, and it does nothing when it runs.

ghost use Rattle.law_reduced_games.specs.ReducedGames.{ReducedGamesExist, ReducedGameIsOne, ReducedGameProperty};
ghost use Rattle.law_reduced_games.specs.ReducedGames.{PrekernelReduces, CoreReduces, PrekernelByPairs, CoreByPairs};
ghost use Rattle.law_reduced_games.specs.ReducedGames.{NucleolusReduces, EachTwoAreStandard, TwoOfThreeVoters};

/// There is a reduced game for any players who stay.
pub fn reduced_games_exist()
    ensures { ReducedGamesExist }
{}

/// Any two reduced games for the same players have the same worths.
pub fn reduced_game_is_one()
    ensures { ReducedGameIsOne }
{}

/// The reduced game property of the prenucleolus (Sobolev 1975): if some players go with their shares, the prenucleolus
/// of the game that is left gives each of the others what it got before.
pub fn reduced_game_property()
    ensures { ReducedGameProperty }
{}

/// The reduced game property of the nucleolus, when the core isn't empty: if some players go with their shares, the
/// nucleolus of the game that is left gives each of the others what it got before.
pub fn nucleolus_reduces()
    ensures { NucleolusReduces }
{}

/// The reduced game property of the prekernel (Peleg 1986).
pub fn prekernel_reduces()
    ensures { PrekernelReduces }
{}

/// The reduced game property of the core (Peleg 1986).
pub fn core_reduces()
    ensures { CoreReduces }
{}

/// An efficient allocation lies in the prekernel exactly if each two players have the standard solution of their
/// reduced game: for pairs, the converse of the reduced game property.
pub fn prekernel_by_pairs()
    ensures { PrekernelByPairs }
{}

/// At the prenucleolus each two players have the standard solution of their reduced game.
pub fn each_two_are_standard()
    ensures { EachTwoAreStandard }
{}

/// An efficient allocation lies in the core exactly if the shares of each two players lie in the core of their reduced
/// game.
pub fn core_by_pairs()
    ensures { CoreByPairs }
{}

/// Examples of a reduced game: if three who vote by majority get a third each and one goes, what is the game of the
/// others, and what isn't.
pub fn two_of_three_voters()
    ensures { TwoOfThreeVoters }
{}
