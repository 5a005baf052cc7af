//! What is proved of generated games. Each function's contract is the theorem, and its body is empty.
ghost use Rattle.coop_gen.specs.Theorems.{GeneratedHaveImputations, GeneratedAreOfClass};

/// In a generated game the players are worth no more alone than all together, so it has an imputation.
pub fn generated_games_have_imputations()
    ensures { GeneratedHaveImputations }
{}

/// A generated game has the players that were asked for, and the worths of its class: those of a tree game over all
/// attachment plans, and those of an assignment game over all matchings.
pub fn generated_games_are_of_their_class()
    ensures { GeneratedAreOfClass }
{}
