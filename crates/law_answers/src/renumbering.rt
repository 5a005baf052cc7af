//! That the nucleolus doesn't depend on how the players are numbered. Each function's contract is a theorem, and it
//! does nothing when it runs.

ghost use Rattle.law_answers.specs.Renumbering.{RenumberingChangesNothing, ExchangeChangesNothing};

/// Renumbering the players of a game renumbers the shares of its nucleolus, and changes nothing else: for any
/// renumbering, both families and both measures.
pub fn renumbering_changes_nothing()
    ensures { RenumberingChangesNothing }
{}

/// Two players that exchange their numbers exchange their shares of the nucleolus, and all others keep theirs.
pub fn exchange_changes_nothing()
    ensures { ExchangeChangesNothing }
{}
