//! The bargaining set of Davis and Maschler (1967): whoever objects to another's share can be countered. Of any number
//! of players.

ghost use Rattle.law_stability.specs.BargainingSet.{KernelIsInBargainingSet, NucleolusIsInBargainingSet};
ghost use Rattle.law_stability.specs.BargainingSet.{BargainingSetIsntEmpty, CoreIsInBargainingSet};
ghost use Rattle.law_stability.specs.BargainingSet.{PrekernelCounters, PrenucleolusCounters};

/// The kernel lies in the bargaining set (Davis and Maschler 1967).
pub fn kernel_is_in_bargaining_set()
    ensures { KernelIsInBargainingSet }
{}

/// The nucleolus lies in the bargaining set: at the nucleolus each objection of a player against another can be
/// countered.
pub fn nucleolus_is_in_bargaining_set()
    ensures { NucleolusIsInBargainingSet }
{}

/// If there is an imputation, some shares lie in the bargaining set.
pub fn bargaining_set_isnt_empty()
    ensures { BargainingSetIsntEmpty }
{}

/// The core lies in the bargaining set: at a core point nobody has an objection.
pub fn core_is_in_bargaining_set()
    ensures { CoreIsInBargainingSet }
{}

/// At each point of the prekernel each objection of a player against another can be countered, also where somebody gets
/// less than its worth alone (Davis and Maschler 1967).
pub fn prekernel_counters()
    ensures { PrekernelCounters }
{}

/// At the prenucleolus each objection of a player against another can be countered, whether or not it is an imputation.
pub fn prenucleolus_counters()
    ensures { PrenucleolusCounters }
{}
