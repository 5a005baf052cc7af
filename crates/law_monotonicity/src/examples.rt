//! Examples that meet the definitions of this crate, and others that don't.

ghost use Rattle.law_monotonicity.specs.SmallGrowth.{ContractsCompared};
ghost use Rattle.law_monotonicity.specs.TwoRules.{TwoRulesDiffer};

/// Examples of each notion, with two contracts and the game that all four players' worth makes greater: what grows in
/// it, around whom, who adds no less, and who gets an equal part; and what doesn't.
pub fn contracts_compared()
    ensures { ContractsCompared }
{}

/// From four players on the Shapley value is monotonic in both senses, and isn't always a core point if there is one;
/// the prenucleolus is, and is monotonic in neither sense.
pub fn two_rules_differ()
    ensures { TwoRulesDiffer }
{}
