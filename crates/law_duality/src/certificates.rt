//! That the nucleolus is what has a certificate, without any program that finds one. Each function's contract is a
//! theorem, and it does nothing when it runs.

ghost use Rattle.law_duality.specs.Kohlberg.{KohlbergTheorem, SmallShapesAreForms};

/// Kohlberg's theorem (Kohlberg 1971; for the prenucleolus Sobolev 1975): shares in a game of any number of players (at
/// most 16 for excess per head) are its nucleolus, or its prenucleolus, exactly if there is a certificate in mode span
/// that meets all conditions, of fewer levels than players, with weights of any size.
pub fn kohlberg()
    ensures { KohlbergTheorem }
{}

/// Levels of the shape in `kohlberg` have the form of a certificate, for 1 to 16 players, if weights and totals are
/// below 2 ^ 63 in size.
pub fn small_shapes_are_forms()
    ensures { SmallShapesAreForms }
{}
