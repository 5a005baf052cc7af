//! What is proved of matchings. The function's contract is the theorem, and its body is empty.
ghost use Rattle.assignment_games.specs.Theorems.{WorthsAreOptimal};

/// The worths of an assignment game are the values of optimal matchings (Shapley and Shubik 1971).
pub fn worths_are_optimal()
    ensures { WorthsAreOptimal }
{}
