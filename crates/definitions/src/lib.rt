//! The definitions of cooperative games that the contracts of the other crates cite (`specs/`), and what all proofs on
//! integers, sums and coalitions use (`proofs/`).
#![tactic(auto)]

// These enums are here since definitions split on them. `worth_core` hands on `Family` and `Measure`, and `kohlberg`
// hands on `Family` and `Mode`.

/// The allocations that a nucleolus is compared with (Schmeidler 1969; for preimputations Sobolev 1975).
#[derive(Clone, Copy, Debug, PartialEq, Eq)]
pub enum Family {
    /// Efficient allocations that give each player at least its worth alone: the nucleolus.
    Imputations,
    /// All efficient allocations: the prenucleolus.
    Preimputations,
}

/// How excess is measured where coalitions are compared by it.
#[derive(Clone, Copy, Debug, PartialEq, Eq)]
pub enum Measure {
    /// As it is: the worth of a coalition less what its members get.
    Plain,
    /// Over the number of members: what each could have more if they shared the excess alike
    /// (Grotte 1970).
    PerHead,
}

/// How a certificate says what its levels have fixed.
#[derive(Clone, Copy, Debug, PartialEq, Eq)]
pub enum Mode {
    /// By players: a coalition is fixed if it holds all or none of the players that aren't.
    Players,
    /// By vectors: a coalition is fixed if its vector lies in the rational span of those that the
    /// levels fix.
    Span,
}
