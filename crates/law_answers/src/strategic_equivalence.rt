//! A change of the unit, and of what players have beside the game, changes no comparison (covariance under strategic
//! equivalence: Peleg and Sudhölter).

ghost use Rattle.law_answers.specs.StrategicEquivalence.{ShiftsChangeNothing, EquivalentGamesAgree};

/// Adding a number of each player to its share, and to the worth of each coalition that holds it, changes no
/// comparison: the two games have the same families, excesses, nucleoli, blockers and core, if the shares differ by
/// these numbers.
pub fn shifts_change_nothing()
    ensures { ShiftsChangeNothing }
{}

/// If all worths are multiplied by one positive number, and then a number of each player is added as in
/// `shifts_change_nothing`, the families, the nucleolus and the core change by the same.
pub fn equivalent_games_agree()
    ensures { EquivalentGamesAgree }
{}
