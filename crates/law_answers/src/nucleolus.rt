//! What the nucleolus promises to the players. Plain excess is of any number of players, and excess per head of at
//! most 16.

ghost use Rattle.law_answers.specs.Nucleolus.{NucleolusIsUnique, NucleolusIsInCore, WithACoreBothAreOne};
ghost use Rattle.law_answers.specs.Nucleolus.{DummiesGetTheirWorth, DummiesMayGetLess, WhoAddsNoLessGetsNoLess};
ghost use Rattle.law_answers.specs.Nucleolus.{AlikePlayersGetAlike};

/// Two nucleoli of one game, family and measure have the same shares (Schmeidler 1969).
pub fn nucleolus_is_unique()
    ensures { NucleolusIsUnique }
{}

/// If the core isn't empty, the nucleolus and the prenucleolus lie in it, plain and per head (Schmeidler 1969).
pub fn nucleolus_is_in_core()
    ensures { NucleolusIsInCore }
{}

/// If the core isn't empty, the prenucleolus and the nucleolus are one, plain and per head.
pub fn with_a_core_both_are_one()
    ensures { WithACoreBothAreOne }
{}

/// By the nucleolus, plain and per head, and the plain prenucleolus, a player that adds its worth alone to each
/// coalition without it gets exactly that.
pub fn dummies_get_their_worth()
    ensures { DummiesGetTheirWorth }
{}

/// The prenucleolus per head may give less to a player that adds its worth alone to each coalition without it: there is
/// a game in which it does. (The proof's is a vote by majority of three beside a fourth player, who adds nothing and
/// gets minus an eighth.)
pub fn dummies_may_get_less()
    ensures { DummiesMayGetLess }
{}

/// By the nucleolus and the prenucleolus, plain and per head, a player that adds no less than another to each coalition
/// without both gets no less (of the kernel: Maschler and Peleg 1966).
pub fn who_adds_no_less_gets_no_less()
    ensures { WhoAddsNoLessGetsNoLess }
{}

/// By the nucleolus and the prenucleolus, plain and per head, players that a game doesn't tell apart get the same.
pub fn alike_players_get_alike()
    ensures { AlikePlayersGetAlike }
{}
