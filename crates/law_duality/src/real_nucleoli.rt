//! That the nucleolus in fractions is the nucleolus among real shares. Each function's contract is a theorem, and it
//! does nothing when it runs.

ghost use Rattle.law_duality.specs.RealNucleoli.{NucleoliAreReal, NucleoliOverGroups};
ghost use Rattle.law_duality.specs.RealNucleoli.{RealNucleoliExist, RealNucleoliAreFractions};

/// Every nucleolus in fractions, written as real numbers, is the nucleolus among real shares.
pub fn nucleoli_are_real()
    ensures { NucleoliAreReal }
{}

/// Every nucleolus in fractions is the nucleolus over every linearly ordered abelian group with a unit above zero.
pub fn nucleoli_over_groups()
    ensures { NucleoliOverGroups }
{}

/// If there are imputations, or preimputations, in real shares, one of them is the nucleolus (Schmeidler 1969).
pub fn real_nucleoli_exist()
    ensures { RealNucleoliExist }
{}

/// Real shares that are the nucleolus are fractions, and the nucleolus in fractions.
pub fn real_nucleoli_are_fractions()
    ensures { RealNucleoliAreFractions }
{}
