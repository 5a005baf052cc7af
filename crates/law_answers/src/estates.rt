//! What the nucleolus and the Shapley value promise to those who claim an estate that doesn't cover all claims
//! (O'Neill 1982).

ghost use Rattle.law_answers.specs.Estates.{WhoClaimsMoreGetsNoLess, WhoClaimsMoreLosesNoLess};
ghost use Rattle.law_answers.specs.Estates.{WhoClaimsMoreGetsNoLessByShapley};

/// By the nucleolus and the prenucleolus, plain and per head, nobody gets more than one who claims more.
pub fn who_claims_more_gets_no_less()
    ensures { WhoClaimsMoreGetsNoLess }
{}

/// By the nucleolus and the prenucleolus, plain and per head, nobody loses more of the claim than one who claims more.
pub fn who_claims_more_loses_no_less()
    ensures { WhoClaimsMoreLosesNoLess }
{}

/// By the Shapley value nobody gets more than one who claims more.
pub fn who_claims_more_gets_no_less_by_shapley()
    ensures { WhoClaimsMoreGetsNoLessByShapley }
{}
