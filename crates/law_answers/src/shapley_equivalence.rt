//! The Shapley value of a renumbered game, and under strategic equivalence. Each function's contract is a theorem, and
//! it does nothing when it runs.

ghost use Rattle.law_answers.specs.ShapleyEquivalence.{ShapleyIsAnonymous, ShapleyIsCovariant};

/// Anonymity: a player who is renumbered keeps its share.
pub fn shapley_is_anonymous()
    ensures { ShapleyIsAnonymous }
{}

/// Covariance under strategic equivalence: the shares change by the same unit as the worths, and by what each player
/// brings of its own.
pub fn shapley_is_covariant()
    ensures { ShapleyIsCovariant }
{}
