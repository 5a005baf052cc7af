//! Games between two games: a certificate of both, but for its excesses, is one of each game between. Of any number of
//! players, and per head of at most 16.

ghost use Rattle.law_answers.specs.Mixtures.{CertificatesCarry, AllBetweenAreNucleoli, MixedPairs};

/// Levels that certify shares of one game, and but for their excesses shares of another, certify the shares between for
/// each game between.
pub fn certificates_carry()
    ensures { CertificatesCarry }
{}

/// So two answers with one certificate, but for its excesses, give the nucleolus of every game between: along that way
/// each share changes evenly.
pub fn all_between_are_nucleoli()
    ensures { AllBetweenAreNucleoli }
{}

/// An example: two who both have to agree, and two who need a runway of 2.
pub fn mixed_pairs()
    ensures { MixedPairs }
{}
