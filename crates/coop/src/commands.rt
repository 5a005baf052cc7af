//! The list of commands, each in a file of its name, and what they share. The names end in `_command`, since a module
//! can't be called `core` or `shapley`, as libraries are, nor `gen`, a word of the language.
ghost use Rattle.std.specs.Prelude.{◌≡◌, ◌<◌, ◌^◌, true, unsigned_abs, IfOk};
ghost use Rattle.definitions.specs.Games.{IsShares};
ghost use Rattle.kohlberg.specs.Certificate.{IsCertificate};
ghost use Rattle.game_text.specs.Classes.{description_in};
ghost use Rattle.game_text.specs.Readings.{contents_in};
ghost use Rattle.report.specs.Limits.{IsPrintable};
ghost use Rattle.coop.specs.Classes.{serves_class};
ghost use Rattle.coop.specs.Headline.{IsRightAnswer};
ghost use Rattle.coop.specs.Judgement.{IsAmount, printed};
ghost use Rattle.coop.specs.Needs.{HasNeeded};
ghost use Rattle.coop.specs.ReadBack.{CanBeRead};

mod bird_command;
mod check_command;
mod convex_command;
mod core_command;
pub(crate) mod gen_command;
mod kernel_command;
mod matching_command;
mod nucleolus_command;
mod propose_command;
mod shapley_command;

use bird_command::bird_document;
use check_command::check_document;
use convex_command::convex_document;
use core_command::core_document;
use definitions::Family;
use fractions::OutOfMemory;
use game_text::{Command, Document};
use kernel_command::kernel_document;
use kohlberg::Certificate;
use matching_command::matching_document;
use nucleolus_command::nucleolus_document;
use propose_command::propose_document;
use report::Answer;
use shapley_command::shapley_document;
use std::alloc::Global;
use worth_core::Shares;

/// The answer to the command on its document, whose class it serves. A nucleolus takes the document's tree over.
///
/// Each other command is a call that isn't inlined, so that a run takes the stack of its own command alone.
#[tactic(auto, using(crate::proofs::ReadLines::readable_anyway, crate::proofs::ReadLines::readable_where_ok))]
pub(crate) fn answer_where_served(
    alloc: Global,
    command: Command,
    document: &mut Document,
) -> Result<Answer, OutOfMemory>
    requires needed { HasNeeded command (contents_in document.old) }
    requires class { serves_class command (description_in document.old.game) ≡ true }
    ensures says { IfOk result (IsRightAnswer command (contents_in document.old)) }
    ensures printable { IfOk result IsPrintable }
    ensures readable { IfOk result (CanBeRead document.old.scale) }
{
    match command {
        Command::Nucleolus => nucleolus_document(alloc, document, Family::Imputations),
        Command::Prenucleolus => nucleolus_document(alloc, document, Family::Preimputations),
        Command::Propose => Ok(propose_document(document)),
        Command::Core => core_document(alloc, document),
        Command::Check => check_document(alloc, document),
        Command::Shapley => shapley_document(alloc, document),
        Command::Bird => bird_document(alloc, document),
        Command::Convex => convex_document(alloc, document),
        Command::Kernel => Ok(kernel_document(document)),
        Command::Matching => matching_document(alloc, document),
    }
}

/// A sum of worths as it is printed.
pub(crate) fn printed_amount(amount: i128, are_costs: bool) -> i128
    requires { IsAmount amount }
    ensures value { result ≡ printed are_costs amount }
    ensures small { IsAmount result }
{
    if are_costs { -amount } else { amount }
}

/// A worth as it is printed.
pub(crate) fn printed_worth(worth: i64, are_costs: bool) -> i64
    requires { unsigned_abs worth < 2 ^ 63 }
    ensures value { result ≡ printed are_costs worth }
    ensures small { unsigned_abs result < 2 ^ 63 }
{
    if are_costs { -worth } else { worth }
}

/// Does nothing at run time. It calls the accessors whose contracts state the limits of shares and certificates, since
/// the proofs of the printers need them.
pub(crate) fn recall_limits(shares: &Shares, certificate: &Certificate)
    ensures shares { IsShares shares.now }
    ensures certificate { IsCertificate certificate.now }
{
    shares.players();
    certificate.players();
    certificate.levels();
}
