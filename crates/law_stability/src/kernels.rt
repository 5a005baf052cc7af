//! The kernel (Davis and Maschler 1965): by plain excess, of any number of players.

ghost use Rattle.law_stability.specs.Kernel.{NucleolusIsInKernel, KernelIsntEmpty, AtACorePoint};
ghost use Rattle.law_stability.specs.Kernel.{WhoAddsNoLessGetsNoLess};

/// The nucleolus lies in the kernel (Schmeidler 1969).
pub fn nucleolus_is_in_kernel()
    ensures { NucleolusIsInKernel }
{}

/// If there is an imputation, some shares lie in the kernel.
pub fn kernel_isnt_empty()
    ensures { KernelIsntEmpty }
{}

/// A core point lies in the kernel exactly if it lies in the prekernel (Maschler, Peleg and Shapley 1979).
pub fn at_a_core_point()
    ensures { AtACorePoint }
{}

/// At each point of the prekernel or of the kernel, a player that adds no less than another to each coalition without
/// both gets no less (Maschler and Peleg 1966).
pub fn who_adds_no_less_gets_no_less()
    ensures { WhoAddsNoLessGetsNoLess }
{}
