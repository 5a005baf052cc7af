//! What rules promise to those who pay for a runway. Littlechild's payments are all shares that give each player minus
//! the payment of its place (`IsPaid`), as `airport_scheme::solve` gives them.

ghost use Rattle.law_answers.specs.Airports.{WhoNeedsMorePaysNoLess, WhoNeedsMoreSavesNoLess};
ghost use Rattle.law_answers.specs.Airports.{WhoNeedsMorePaysNoLessByShapley};
ghost use Rattle.law_answers.specs.Airports.{PaymentsRiseWithNeeds, NobodyPaysMoreThanAlone};
ghost use Rattle.law_answers.specs.Airports.{NoGroupPaysMoreThanItsCost};
ghost use Rattle.law_answers.specs.Airports.{AllPayTheGreatestCost};

/// By the nucleolus and the prenucleolus, plain and per head, nobody pays more than one who needs more of the runway
/// (Littlechild 1974).
pub fn who_needs_more_pays_no_less()
    ensures { WhoNeedsMorePaysNoLess }
{}

/// By the nucleolus and the prenucleolus, plain and per head, nobody saves more of the cost alone than one who needs
/// more of the runway.
pub fn who_needs_more_saves_no_less()
    ensures { WhoNeedsMoreSavesNoLess }
{}

/// By the Shapley value nobody pays more than one who needs more of the runway (Littlechild and Owen 1973).
pub fn who_needs_more_pays_no_less_by_shapley()
    ensures { WhoNeedsMorePaysNoLessByShapley }
{}

/// By Littlechild's payments a player who needs no less pays no less.
pub fn payments_rise_with_needs()
    ensures { PaymentsRiseWithNeeds }
{}

/// By Littlechild's payments nobody pays more than the cost alone, nor less than nothing.
pub fn nobody_pays_more_than_alone()
    ensures { NobodyPaysMoreThanAlone }
{}

/// By Littlechild's payments no group pays more together than its greatest cost.
pub fn no_group_pays_more_than_its_cost()
    ensures { NoGroupPaysMoreThanItsCost }
{}

/// By Littlechild's payments all together pay exactly the greatest cost.
pub fn all_pay_the_greatest_cost()
    ensures { AllPayTheGreatestCost }
{}
