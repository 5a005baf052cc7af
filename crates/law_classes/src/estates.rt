//! What the Talmud rule promises if somebody else claims as well, or claims more. Each function's contract is a
//! theorem, and it does nothing when it runs.

ghost use Rattle.law_classes.specs.Estates.{FurtherClaimantsGiveNobodyMore, ARisenClaim, AGreaterWhole};
ghost use Rattle.law_classes.specs.Estates.{AllOfThreeAreWorthMore};

/// If others claim the same estate as well, nobody gets more.
pub fn further_claimants_give_nobody_more()
    ensures { FurtherClaimantsGiveNobodyMore }
{}

/// If one claim rises, its claimant gets no less, and nobody else gets more.
pub fn a_risen_claim()
    ensures { ARisenClaim }
{}

/// If all claimants together are worth more, and each other coalition what it was, nobody gets less.
pub fn a_greater_whole()
    ensures { AGreaterWhole }
{}

/// Of 10 claims of 6, 7 and 8 get 3, 7/2 and 7/2, and of 11 claims of 7, 8 and 9 get 7/2, 15/4 and 15/4. Each coalition
/// but that of all is worth the same in both.
pub fn all_of_three_are_worth_more()
    ensures { AllOfThreeAreWorthMore }
{}
