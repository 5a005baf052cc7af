//! What the definitions imply. Each function's contract is a theorem, and its body is empty.
#![tactic(auto)]

pub mod verdicts;

ghost use Rattle.definitions.specs.Scales.{ScalesChangeNothing};
ghost use Rattle.theorems.specs.Theorems.{MeasuresDivide, CertificatesAreSound, CollectionsBlock, PrenucleolusBalances};

/// A measured excess of a coalition over its denominator is the excess over the denominator times
/// the divisor: 1, or the number of members, who are at most 16.
pub fn measures_divide()
    ensures { MeasuresDivide }
{}

/// A certificate that meets its form and its conditions certifies the nucleolus, for both families (Kohlberg 1971): for
/// any number of players in mode players, and for at most 16 in mode span, as the form asks, and for excess per head.
/// For more players in mode span, see `kohlberg` of `law_duality`.
pub fn certificates_are_sound()
    ensures { CertificatesAreSound }
{}

/// No core point stands beside a balanced collection of excess worth (Bondareva 1963, Shapley 1967).
pub fn collections_block()
    ensures { CollectionsBlock }
{}

/// The prenucleolus balances every two players: it lies in the prekernel (Schmeidler 1969; Maschler, Peleg and
/// Shapley 1979).
pub fn prenucleolus_balances()
    ensures { PrenucleolusBalances }
{}

/// Multiplying all worths and all shares by one positive number changes no comparison. A game whose worths are
/// fractions over a scale, and the game of its whole numbers, have the same imputations, excesses, nucleolus, core,
/// blockers and certificates, if the shares and the excesses of levels are times the scale.
pub fn scales_change_nothing()
    ensures { ScalesChangeNothing }
{}
