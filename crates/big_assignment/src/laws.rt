//! What is proved of markets. Each function's contract is the theorem, and its body is empty.
ghost use Rattle.big_assignment.specs.Theorems.{ShapleyShubik, SidesAreOpposed};

/// Shares support a matching of all players exactly if it is optimal and they lie in the core, over all coalitions
/// (Shapley and Shubik 1971). So the core of a market is the same for each optimal matching: all prices at which its
/// pairs are content.
pub fn shapley_shubik()
    ensures { ShapleyShubik }
{}

/// A core point is best for every buyer exactly if no core point gives a seller less, and best for every seller exactly
/// if no core point gives a buyer less (Shapley and Shubik 1971): the least prices are the buyers' best, the greatest
/// the sellers'.
pub fn sides_are_opposed()
    ensures { SidesAreOpposed }
{}
