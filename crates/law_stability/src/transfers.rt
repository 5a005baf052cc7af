//! What a player could still take from another at a core point (Maschler, Peleg and Shapley 1979), by plain excess. Of
//! any number of players.

ghost use Rattle.law_stability.specs.CoreTransfers.{PrekernelIsInTheMiddle, TakenHalves};

/// At a core point, what any two could still take from each other, while no coalition would leave, is the same exactly
/// if the point lies in the prekernel (Maschler, Peleg and Shapley 1979).
pub fn prekernel_is_in_the_middle()
    ensures { PrekernelIsInTheMiddle }
{}

/// Examples with two voters who both have to agree: by halves each can take the other's half, which is the most; and so
/// halves lie in the middle. That the first gets all is a core point too, and not in the middle.
pub fn taken_halves()
    ensures { TakenHalves }
{}
