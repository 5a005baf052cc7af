//! That solutions exist, without any program that finds them. Each function's contract is a theorem, and it does
//! nothing when it runs.

ghost use Rattle.law_duality.specs.Existence.{NucleoliExist, PrenucleoliExist, ImputationsExist};

/// If there is an imputation, or a preimputation, one of them is the nucleolus, in fractions: for any number of
/// players, and for excess per head for at most 16 (Schmeidler 1969; Grotte 1970).
pub fn nucleoli_exist()
    ensures { NucleoliExist }
{}

/// Every game with a player has a prenucleolus, in fractions.
pub fn prenucleoli_exist()
    ensures { PrenucleoliExist }
{}

/// A game with a player has an imputation exactly if the worths of the players alone add to at most the worth of all.
pub fn imputations_exist()
    ensures { ImputationsExist }
{}
