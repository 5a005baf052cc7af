//! Games in which it harms no coalition that a player joins it: by plain excess, of any number of players (Maschler,
//! Peleg and Shapley 1972).

ghost use Rattle.law_stability.specs.ZeroMonotonic.{ConvexIsZeroMonotonic, KernelIsPrekernel, PrenucleolusIsNucleolus};
ghost use Rattle.law_stability.specs.Superadditive.{ConvexIsSuperadditive, SuperadditiveIsZeroMonotonic};

/// In a convex game each player adds to each coalition at least its worth alone.
pub fn convex_is_zero_monotonic()
    ensures { ConvexIsZeroMonotonic }
{}

/// If each player adds to each coalition at least its worth alone, the kernel is the prekernel (Maschler, Peleg and
/// Shapley 1972).
pub fn kernel_is_prekernel()
    ensures { KernelIsPrekernel }
{}

/// If each player adds to each coalition at least its worth alone, the prenucleolus gives nobody less than its worth
/// alone, so it is the nucleolus.
pub fn prenucleolus_is_nucleolus()
    ensures { PrenucleolusIsNucleolus }
{}

/// In a convex game two coalitions without a common member are worth no more than all their members together (Shapley
/// 1971).
pub fn convex_is_superadditive()
    ensures { ConvexIsSuperadditive }
{}

/// If two coalitions without a common member are never worth more than all their members together, each player adds to
/// each coalition at least its worth alone.
pub fn superadditive_is_zero_monotonic()
    ensures { SuperadditiveIsZeroMonotonic }
{}
