//! Two nucleoli by name, which show that what the laws speak of is met.

ghost use Rattle.law_answers.specs.SmallNucleoli.{MajorityGetsThirds, ThreeAirlinesPay};

/// Three who vote by majority get a third each, by the nucleolus and the prenucleolus, plain and per head.
pub fn majority_gets_thirds()
    ensures { MajorityGetsThirds }
{}

/// Three airlines that need 2, 4 and 6 of a runway pay 1, 3/2 and 7/2 by the nucleolus (Littlechild 1974).
pub fn three_airlines_pay()
    ensures { ThreeAirlinesPay }
{}
