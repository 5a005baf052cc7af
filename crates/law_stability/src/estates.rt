//! The core of the game of an estate and claims (Aumann and Maschler 1985). Of any number of claims.

ghost use Rattle.law_stability.specs.EstateCores.{TalmudIsInCore};

/// The Talmud's shares lie in the core: no group of claimants could do better by taking what the claims of the others
/// leave.
pub fn talmud_is_in_core()
    ensures { TalmudIsInCore }
{}
