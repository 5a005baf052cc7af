//! Constant-sum games and votes. Each function's contract is a theorem, and it does nothing when it runs.

ghost use Rattle.law_classes.specs.ConstantSums.{ConstantSumCores, NucleolusRepresents, MajorityIsConstantSum};
ghost use Rattle.law_classes.specs.ConstantSums.{EssentialSumsHaveNoCore};

/// At a core point of a constant-sum game each coalition gets exactly its worth.
pub fn constant_sum_cores()
    ensures { ConstantSumCores }
{}

/// A constant-sum game in which the players alone are worth less than all together has no core point (von Neumann and
/// Morgenstern 1944).
pub fn essential_sums_have_no_core()
    ensures { EssentialSumsHaveNoCore }
{}

/// In a constant-sum vote the nucleolus, by plain excess, gives nobody less than nothing, and a coalition wins exactly
/// if it gets more than half (Peleg 1968).
pub fn nucleolus_represents()
    ensures { NucleolusRepresents }
{}

/// A majority of three is constant-sum, and an agreement of two isn't.
pub fn majority_is_constant_sum()
    ensures { MajorityIsConstantSum }
{}
