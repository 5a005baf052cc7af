//! Verdicts on certificates. They are beside certificates and not in `checker`, which hands them on: `report` prints
//! them, and needn't wait for the checker to be proved.
ghost use Rattle.std.specs.Prelude.{◌≡◌};
ghost use Rattle.kohlberg.specs.Reasons.{reason_number};

use coalitions::Coalition;
use fractions::Frac;

/// Whether a certificate shows that shares are the nucleolus or the prenucleolus, or the first condition that fails.
#[derive(Clone, Copy, Debug, PartialEq, Eq)]
pub enum Verdict {
    Yes,
    No(Reason),
}

/// What a weight is on: a coalition, or the bound of a player, who counts from 0.
#[derive(Clone, Copy, Debug, PartialEq, Eq)]
pub enum Place {
    Coalition(Coalition),
    Player(u32),
}

/// The first condition that fails. Levels count from 1, players from 0, and conditions stand in the order in which they
/// are tested.
#[derive(Clone, Copy, Debug, PartialEq, Eq)]
pub enum Reason {
    /// The shares do not add to the worth of all.
    NotEfficient,
    /// The least player whose share is below its worth alone; only of imputations.
    NotIndividual { player: u32 },
    /// The first coalition of a level that does not have its excess.
    WrongExcess { level: u32, coalition: Coalition },
    /// The first weight of a level that is below 1: of its coalitions, or of its bounds, unless an earlier level
    /// gave the player a weight of at least 1.
    WeightSign { level: u32, place: Place },
    /// The least player at which the weights of a level do not add to its total.
    Unbalanced { level: u32, player: u32 },
    /// The first player in the bounds of a level whose share is not its worth alone; of preimputations, which have no
    /// bounds, the first player there.
    BoundNotTight { level: u32, player: u32 },
    /// The greatest measured excess, as worth, of a coalition that the levels in front do not fix; it is above the
    /// level's.
    OutsideAbove { level: u32, excess: Frac },
    /// The least player that is not fixed, if the levels do not fix everything.
    NotAll { player: u32 },
}

impl Reason {
    /// Returns the number of the reason, 1 to 8, in the order in which conditions are tested.
    pub fn number(&self) -> u32
        ensures { result ≡ reason_number self.now }
    {
        match self {
            Reason::NotEfficient => 1,
            Reason::NotIndividual { .. } => 2,
            Reason::WrongExcess { .. } => 3,
            Reason::WeightSign { .. } => 4,
            Reason::Unbalanced { .. } => 5,
            Reason::BoundNotTight { .. } => 6,
            Reason::OutsideAbove { .. } => 7,
            Reason::NotAll { .. } => 8,
        }
    }
}
