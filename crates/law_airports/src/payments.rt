//! Littlechild's payments are the nucleolus of an airport game, for any number of players (Littlechild 1974). The
//! payments are all shares that give each player minus the payment of its place (`IsPaid`), over any denominator.

ghost use Rattle.law_airports.specs.Payments.{OrdersExist, PaymentsExist, PaymentsAreTheNucleolus, PaymentsAreOne};
ghost use Rattle.law_airports.specs.Payments.{EveryNucleolusIsPaid, NobodyPaysMoreThanAloneByNucleolus};
ghost use Rattle.law_airports.specs.Payments.{NoGroupPaysMoreThanItsCostByNucleolus, AllPayTheGreatestCostByNucleolus};
ghost use Rattle.law_airports.specs.Payments.{NewcomersMakeNobodyPayMore};

/// Any players have an order by their costs.
pub fn orders_exist()
    ensures { OrdersExist }
{}

/// In each order of the players by their costs there are payments.
pub fn payments_exist()
    ensures { PaymentsExist }
{}

/// Shares that are payments are the nucleolus by plain excess, and the prenucleolus.
pub fn payments_are_the_nucleolus()
    ensures { PaymentsAreTheNucleolus }
{}

/// Payments in any two orders are the same shares, up to a common factor of shares and denominator.
pub fn payments_are_one()
    ensures { PaymentsAreOne }
{}

/// Every nucleolus by plain excess, and every prenucleolus, is payments, in each order of the players by their costs.
pub fn every_nucleolus_is_paid()
    ensures { EveryNucleolusIsPaid }
{}

/// By the nucleolus and the prenucleolus nobody pays more than the cost alone, nor less than nothing.
pub fn nobody_pays_more_than_alone_by_nucleolus()
    ensures { NobodyPaysMoreThanAloneByNucleolus }
{}

/// By the nucleolus and the prenucleolus no group pays more together than its greatest cost.
pub fn no_group_pays_more_than_its_cost_by_nucleolus()
    ensures { NoGroupPaysMoreThanItsCostByNucleolus }
{}

/// By the nucleolus and the prenucleolus all together pay exactly the greatest cost.
pub fn all_pay_the_greatest_cost_by_nucleolus()
    ensures { AllPayTheGreatestCostByNucleolus }
{}

/// By the nucleolus and the prenucleolus newcomers make nobody pay more, whatever they need.
pub fn newcomers_make_nobody_pay_more()
    ensures { NewcomersMakeNobodyPayMore }
{}
