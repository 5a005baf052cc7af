//! What is left of an estate when some claimants take their shares and go. Each function's contract is a theorem, and
//! it does nothing when it runs.

ghost use Rattle.law_reduced_games.specs.EstatesLeft.{EstatesAreLeft, ReducedEstate, EstateByNucleolus};
ghost use Rattle.law_reduced_games.specs.EstatesLeft.{TalmudIsConsistent};
ghost use Rattle.law_reduced_games.specs.EstatesLeft.{HeirsLeft};

/// If nobody got more than the claim, nor less than nothing, an estate and claims are left.
pub fn estates_are_left()
    ensures { EstatesAreLeft }
{}

/// The reduced game of an estate is the game of the estate and the claims that are left.
pub fn reduced_estate()
    ensures { ReducedEstate }
{}

/// The nucleolus and the prenucleolus of the estate that is left give each player who stays what it had.
pub fn estate_by_nucleolus()
    ensures { EstateByNucleolus }
{}

/// The Talmud rule is consistent: of the estate that is left, it gives each player who stays what it had.
pub fn talmud_is_consistent()
    ensures { TalmudIsConsistent }
{}

/// The claims of 100, 200 and 300 get 50, 75 and 75 of 200; if the first goes, 150 are left for the others.
pub fn heirs_left()
    ensures { HeirsLeft }
{}
