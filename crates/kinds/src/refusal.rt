//! Why a document is refused.
ghost use Rattle.std.specs.Prelude.{◌≡◌};
ghost use Rattle.kinds.specs.Numbers.{refusal_number};

/// Why a document is refused. The refusals stand in the order in which they are tested, but for `Quota`, which is
/// tested behind `Estate`; the first that applies is given.
#[derive(Clone, Copy, Debug, PartialEq, Eq)]
pub enum Refusal {
    /// It has more bytes than a document may have.
    TooLong,
    /// It is no JSON, or is nested too deep.
    NotJson,
    /// A value has another kind, a key or a word is unknown, or one is missing.
    Shape,
    /// There are too few or too many players, or numbers for them.
    Players,
    /// A number of the game is neither an integer nor, in a document of version 2, a fraction text; it isn't within
    /// its limits, or the common denominator of such numbers isn't; or a share is neither an integer nor a fraction
    /// text.
    Number,
    /// There isn't one good name for each player, or a coalition uses an unknown one.
    Names,
    /// A coalition is empty, names a player twice or one that isn't there, or is listed twice.
    Coalition,
    /// The estate is above the sum of the claims.
    Estate,
    /// A matrix has the wrong size, or isn't what its class asks for.
    Matrix,
    /// There isn't one share for each player.
    Proposal,
    /// The shares have too large a common denominator, or too large numerators over it.
    TooFine,
    /// The certificate hasn't its form.
    Certificate,
    /// The quota is 0 or above the sum of the weights, or that sum is above 1,000.
    Quota,
}

impl Refusal {
    /// Returns the number of the refusal, 1 to 13.
    pub fn number(self) -> u32
        ensures { result ≡ refusal_number self }
    {
        self as u32 + 1
    }
}
