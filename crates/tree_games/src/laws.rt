//! What is proved of attachment plans.
ghost use Rattle.tree_games.specs.Theorems.{PrimIsLeast, BirdIsCore, TreesAreGames};

/// A plan whose pairs each have a least entry costs no more than any other (Prim 1957).
pub fn prim_is_least()
    ensures { PrimIsLeast }
{}

/// The Bird shares lie in the core, for every symmetric matrix (Bird 1976).
pub fn bird_is_core()
    ensures { BirdIsCore }
{}

/// The worths of a tree game are minus the least costs of attachment plans.
pub fn trees_are_games()
    ensures { TreesAreGames }
{}
