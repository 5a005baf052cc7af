//! Which games are convex. The function's contract is a theorem, and it does nothing when it runs.

ghost use Rattle.law_classes.specs.ConvexGames.{OnlyConvexGamesDo};

/// A game is convex exactly when the marginal shares of each order lie in its core (Shapley 1971, Ichiishi 1981).
pub fn only_convex_games_do()
    ensures { OnlyConvexGamesDo }
{}
