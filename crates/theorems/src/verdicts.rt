//! What a certificate's verdict rests on: each function's contract is a theorem, and it does
//! nothing when it runs.

ghost use Rattle.theorems.specs.Verdicts.{NoReasonBesideACertificate, OneFirstFailure};

/// A certificate that meets its conditions fails for no reason.
pub fn no_reason_beside_a_certificate()
    ensures { NoReasonBesideACertificate }
{}

/// A certificate has at most one first failure.
pub fn one_first_failure()
    ensures { OneFirstFailure }
{}
