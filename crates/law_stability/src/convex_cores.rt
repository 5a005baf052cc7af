//! Convex games of any number of players: what lies in the core, and that the kernel is one point (Shapley 1971;
//! Maschler, Peleg and Shapley 1972).

ghost use Rattle.law_stability.specs.ConvexCores.{MarginalsAreInCore, ShapleyIsInCore, ConvexBargainingSetIsCore};
ghost use Rattle.law_stability.specs.ConvexCores.{ConvexKernelIsOnePoint, ConvexKernelIsNucleolus};
ghost use Rattle.law_stability.specs.ConvexCores.{ConvexPrekernelIsPrenucleolus};

/// The marginal shares of each order of the players of a convex game lie in its core.
pub fn marginals_are_in_core()
    ensures { MarginalsAreInCore }
{}

/// The Shapley value of a convex game lies in its core.
pub fn shapley_is_in_core()
    ensures { ShapleyIsInCore }
{}

/// The bargaining set of a convex game is its core (Maschler, Peleg and Shapley 1972).
pub fn convex_bargaining_set_is_core()
    ensures { ConvexBargainingSetIsCore }
{}

/// The kernel of a convex game is one point: any two of its points have the same shares (Maschler, Peleg and Shapley
/// 1972).
pub fn convex_kernel_is_one_point()
    ensures { ConvexKernelIsOnePoint }
{}

/// The one point of the kernel of a convex game is its nucleolus (Maschler, Peleg and Shapley 1972).
pub fn convex_kernel_is_nucleolus()
    ensures { ConvexKernelIsNucleolus }
{}

/// Shares of a convex game lie in the prekernel exactly if they are the prenucleolus: equal surpluses of any two
/// players show it.
pub fn convex_prekernel_is_prenucleolus()
    ensures { ConvexPrekernelIsPrenucleolus }
{}
