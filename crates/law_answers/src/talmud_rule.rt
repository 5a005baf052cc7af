//! What the Talmud rule promises to those who claim an estate (Aumann and Maschler 1985). The laws speak of every
//! estate, every list of claims and all shares of the rule (`IsTalmud`), as `talmud::solve` gives them.

ghost use Rattle.law_answers.specs.TalmudRule.{EachTwoAreAGarment, NoOtherIsConsistent, BalanceIsTheGarment};
ghost use Rattle.law_answers.specs.TalmudRule.{EveryNucleolus};
ghost use Rattle.law_answers.specs.TalmudRule.{TalmudSharesExist, LossesAreAlike, MoreEstate, NobodyGetsMore};
ghost use Rattle.law_answers.specs.TalmudRule.{WhoClaimsMore};

/// Each two claimants divide what they get together as the contested garment: each first gets what the other doesn't
/// claim of it, and the rest is halved.
pub fn each_two_are_a_garment()
    ensures { EachTwoAreAGarment }
{}

/// No other shares of the estate divide what each two claimants get together as the contested garment.
pub fn no_other_is_consistent()
    ensures { NoOtherIsConsistent }
{}

/// Each estate of at most the claims has shares of the rule, for any number of claimants.
pub fn talmud_shares_exist()
    ensures { TalmudSharesExist }
{}

/// In the game of an estate and claims, an allocation of the core that balances every two players, as the nucleolus
/// does, divides what each two claimants get together as the contested garment.
pub fn balance_is_the_garment()
    ensures { BalanceIsTheGarment }
{}

/// Every nucleolus of the game of an estate and claims has the shares of the rule, and so has the prenucleolus.
pub fn every_nucleolus()
    ensures { EveryNucleolus }
{}

/// Self-duality: what is missing of the claims is divided as an estate is, and what each loses is what it would get of
/// that.
pub fn losses_are_alike()
    ensures { LossesAreAlike }
{}

/// If the estate is greater, with the same claims, nobody gets less.
pub fn more_estate()
    ensures { MoreEstate }
{}

/// Nobody gets more than the claim, nor less than nothing.
pub fn nobody_gets_more()
    ensures { NobodyGetsMore }
{}

/// A player who claims no less gets no less, and loses no less.
pub fn who_claims_more()
    ensures { WhoClaimsMore }
{}
