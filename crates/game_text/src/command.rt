//! What is asked of a document.
ghost use Rattle.std.specs.Prelude.{◌≡◌};
ghost use Rattle.game_text.specs.Needs.{needs};

/// A command that reads a document.
#[derive(Clone, Copy, Debug, PartialEq, Eq)]
pub enum Command {
    /// To find the nucleolus, with a certificate.
    Nucleolus,
    /// To find the prenucleolus, with a certificate.
    Prenucleolus,
    /// To judge the proposed shares.
    Propose,
    /// To find a point of the core, or to show that it is empty.
    Core,
    /// To check a certificate that the shares are the nucleolus or the prenucleolus.
    Check,
    /// To find the Shapley shares.
    Shapley,
    /// To find Bird's shares and plan of a tree game.
    Bird,
    /// To find whether the game is convex, with its Shapley and marginal shares.
    Convex,
    /// To find whether the proposed shares are in the prekernel.
    Kernel,
    /// To match the buyers and the sellers of a market, with the core points that are best for either side.
    Matching,
}

/// What a command needs of a document beside the game.
#[derive(Clone, Copy, Debug, PartialEq, Eq)]
pub struct Inputs {
    /// The most bytes that the document may have.
    pub limit: usize,
    /// Whether shares are needed.
    pub shares: bool,
    /// Whether the answer that names the family is needed.
    pub answer: bool,
    /// Whether a certificate is needed.
    pub certificate: bool,
}

/// The most bytes of a document without a certificate.
const SHORT: usize = 2_097_152;

/// The most bytes of a document with a certificate.
const LONG: usize = 8_388_608;

impl Inputs {
    /// The game alone.
    const GAME_ALONE: Inputs = Inputs {
        limit: SHORT,
        shares: false,
        answer: false,
        certificate: false,
    };

    /// The game and shares.
    const WITH_SHARES: Inputs = Inputs {
        limit: SHORT,
        shares: true,
        answer: false,
        certificate: false,
    };

    /// The game, shares, the answer that names the family, and a certificate.
    const WITH_CERTIFICATE: Inputs = Inputs {
        limit: LONG,
        shares: true,
        answer: true,
        certificate: true,
    };
}

impl Command {
    /// Returns what the command needs.
    pub fn needs(self) -> Inputs
        ensures { result ≡ needs self }
    {
        match self {
            Command::Nucleolus | Command::Prenucleolus => Inputs::GAME_ALONE,
            Command::Propose => Inputs::WITH_SHARES,
            Command::Core => Inputs::GAME_ALONE,
            Command::Check => Inputs::WITH_CERTIFICATE,
            Command::Shapley | Command::Bird => Inputs::GAME_ALONE,
            Command::Convex => Inputs::GAME_ALONE,
            Command::Kernel => Inputs::WITH_SHARES,
            Command::Matching => Inputs::GAME_ALONE,
        }
    }
}
