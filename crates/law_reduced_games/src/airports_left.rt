//! What is left of an airport when one player pays and goes. Each function's contract is a theorem, and it does nothing
//! when it runs.

ghost use Rattle.law_reduced_games.specs.AirportsLeft.{AirportsAreLeft, ReducedAirport, AirportByNucleolus};
ghost use Rattle.law_reduced_games.specs.AirportsLeft.{AirlinesLeft};

/// If the payments are in the core, an airport is left for those who stay.
pub fn airports_are_left()
    ensures { AirportsAreLeft }
{}

/// The reduced game of an airport is the game of the airport that is left.
pub fn reduced_airport()
    ensures { ReducedAirport }
{}

/// In the airport that is left, the nucleolus and the prenucleolus let each player who stays pay what it paid.
pub fn airport_by_nucleolus()
    ensures { AirportByNucleolus }
{}

/// Airlines that need 2, 4 and 6 pay 1, 3/2 and 7/2; if the last has paid, the others need 2 and 5/2.
pub fn airlines_left()
    ensures { AirlinesLeft }
{}
