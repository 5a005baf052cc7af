//! Markets of buyers and sellers. Each function's contract is a theorem, and it does nothing when it runs.

ghost use Rattle.law_classes.specs.Markets.{NucleolusIsBetween, CoreIsALattice};

/// The nucleolus of a market, and the prenucleolus, plain and per head, gives each player no less than the core point
/// that is best for the other side, and no more than the one that is best for its own (Shapley and Shubik 1971).
pub fn nucleolus_is_between()
    ensures { NucleolusIsBetween }
{}

/// The greater share for each buyer and the lesser for each seller, of two core points of a market, make a core point,
/// and so do the lesser for each buyer and the greater for each seller (Shapley and Shubik 1971).
pub fn core_is_a_lattice()
    ensures { CoreIsALattice }
{}
