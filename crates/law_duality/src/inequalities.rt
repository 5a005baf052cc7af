//! What stands without any program: linear inequalities have a solution in fractions or contradict one another, a
//! linear program attains its least value, and a game has a core point or a balanced collection of excess worth. Each
//! function's contract is a theorem, and it does nothing when it runs.

ghost use Rattle.law_duality.specs.Farkas.{Farkas};
ghost use Rattle.law_duality.specs.Optima.{OptimaExist};
ghost use Rattle.law_duality.specs.BondarevaShapley.{BondarevaShapley};

/// Farkas's lemma (Farkas 1902): of any number of linear inequalities with integer coefficients, in any number of
/// unknowns, either fractions meet all, or factors of at least 0 make of them one that says that 0 is positive, and
/// never both.
pub fn farkas()
    ensures { Farkas }
{}

/// A linear program that has a solution and a bound attains its least value, in fractions.
pub fn optima_exist()
    ensures { OptimaExist }
{}

/// The theorem of Bondareva and Shapley (Bondareva 1963, Shapley 1967): every game in which the empty coalition is
/// worth nothing, of any number of players, has a core point in fractions or a balanced collection of excess worth, and
/// never both.
///
/// It rests on Farkas's lemma. `balanced::core_of` finds the one or the other for at most 16 players.
pub fn bondareva_shapley()
    ensures { BondarevaShapley }
{}
