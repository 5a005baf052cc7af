//! The Shapley value of an airport game by the steps of its costs, for any number of players (Littlechild and Owen
//! 1973), and that the game is convex.

ghost use Rattle.law_airports.specs.Steps.{ThreeAirlinesByStep, ShapleyIsByStep, ShapleyIsInCore, AirportsAreConvex};

/// Three airlines that need 2, 4 and 6 bear each step equally if they pay 2/3, 5/3 and 11/3, but not if they pay 1, 3/2
/// and 7/2.
pub fn three_airlines_by_step()
    ensures { ThreeAirlinesByStep }
{}

/// The Shapley value is exactly the shares by which each step of the costs is borne equally by all who need it.
pub fn shapley_is_by_step()
    ensures { ShapleyIsByStep }
{}

/// By the Shapley value no group pays more together than its greatest cost, and all together pay exactly that.
pub fn shapley_is_in_core()
    ensures { ShapleyIsInCore }
{}

/// The game of an airport is convex: a player adds no more cost to a coalition if another player joined it before.
pub fn airports_are_convex()
    ensures { AirportsAreConvex }
{}
