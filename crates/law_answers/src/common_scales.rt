//! A game of fractions stands over a common scale, which is no part of what is asked: another scale gives the same
//! answers.

ghost use Rattle.law_answers.specs.CommonScales.{ScaleDoesNotMatter, TableTimes, CostTableTimes, AirportTimes};
ghost use Rattle.law_answers.specs.CommonScales.{EstateTimes};
ghost use Rattle.law_answers.specs.CommonScales.{TreeTimes, AssignmentTimes, ScalesKeepBalance};

/// Two games that have the same fractions as worths, each over a scale of its own, have the same imputations and
/// preimputations, comparisons, nucleoli and core.
pub fn scale_does_not_matter()
    ensures { ScaleDoesNotMatter }
{}

/// A game over a scale and the game of its whole worths agree on surpluses, the prekernel and both ends of a market,
/// for shares in fractions.
pub fn scales_keep_balance()
    ensures { ScalesKeepBalance }
{}

/// A table of k times the worths is of k times the worths.
pub fn table_times()
    ensures { TableTimes }
{}

/// A game of k times the costs is of k times the worths.
pub fn cost_table_times()
    ensures { CostTableTimes }
{}

/// An airport of k times the costs is of k times the worths.
pub fn airport_times()
    ensures { AirportTimes }
{}

/// An estate and claims times k are of k times the worths.
pub fn estate_times()
    ensures { EstateTimes }
{}

/// A tree game of k times the lengths is of k times the worths.
pub fn tree_times()
    ensures { TreeTimes }
{}

/// An assignment game of k times the gains is of k times the worths.
pub fn assignment_times()
    ensures { AssignmentTimes }
{}
