//! Whether there is a core point doesn't depend on whether shares are real numbers or fractions. The function's
//! contract is a theorem, and it does nothing when it runs.

ghost use Rattle.law_duality.specs.RealCores.{RealCorePointsExist};

/// A game in which the empty coalition is worth nothing, of any number of players, has a core point in real shares
/// exactly if it has one in fractions (by the theorem of Bondareva 1963 and Shapley 1967, over both).
pub fn real_core_points_exist()
    ensures { RealCorePointsExist }
{}
