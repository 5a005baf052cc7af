//! From the bytes of a document to what it says, or to its refusal.
ghost use Rattle.std.specs.Prelude.{◌≡◌, Some, None, MatchResult, IfOk, IfSome, if◌then◌else◌};
ghost use Rattle.std.specs.Prelude.{◌^◌, ◌<◌, ◌≤◌, pos, ◌≤ℤ◌};
ghost use Rattle.std.specs.Prelude.{codes, length, option_map, true};
ghost use Rattle.serde_json.specs.View.{view};
ghost use Rattle.serde_json.specs.Find.{get};
ghost use Rattle.json_trees.specs.Trees.{passes};
ghost use Rattle.certificate_texts.specs.Certificates.{has_form, certificate_of};
ghost use Rattle.game_text.specs.Documents.{certificate_tree, family_for, fractions_for};
ghost use Rattle.game_text.specs.Classes.{description_of, game_of, is_cost, description_in, players, own_numbers};
ghost use Rattle.game_text.specs.Shape.{is_shaped};
ghost use Rattle.game_text.specs.Kept.{IsKept};
ghost use Rattle.document_parts.specs.Scales.{scale_of, IsScaleOf};
ghost use Rattle.document_parts.specs.Names.{names_of};
ghost use Rattle.game_text.specs.Names.{has_names};
ghost use Rattle.document_parts.specs.Shares.{written_shares};
ghost use Rattle.game_text.specs.Text.{document_limit};
ghost use Rattle.json_texts.specs.Newlines.{without_newline};
ghost use Rattle.game_text.specs.Readings.{IsReading, IsFault, IsTreeReading};
ghost use Rattle.game_text.specs.Readings.{IsTreeFault, IsLateReading, IsLateFault};
ghost use Rattle.game_text.specs.Readings.{AreNeededFractions, IsFractionFault};
ghost use Rattle.game_text.specs.Readings.{IsGameReading, IsGameFault, IsProposal, IsProposalFault};
ghost use Rattle.game_text.specs.Readings.{IsShareReading, IsShareFault, IsCertificateReading, IsCertificateFault};

use crate::classes::{Game, game_of};
use crate::command::Command;
use crate::document::{Document, TextFault};
use crate::shape::{SizedGame, shaped_game, sized_game};
use certificate_texts::{certificate_of, family_of};
use definitions::{Family, Measure};
use document_parts::{Names, know_sparse, measure_of, names_of, shares_as_worth, written_shares};
use fractions::{Frac, OutOfMemory};
use kinds::Refusal;
use kohlberg::Certificate;
use serde_json::Value;
use std::alloc::Global;
use worth_core::Shares;

/// Returns the document that the bytes write, or the first refusal that applies to them. If the command needs shares,
/// there is one for each player of the game; if it needs a certificate, it is one for the players of the game. The
/// game, the shares and the certificate are over the scale, the least common denominator of the numbers of the game,
/// from 1 to 65,536; it is 1 if they are all integers.
///
/// The kept tree of the game holds no float, is nested at most 8 deep, and is written in no more bytes than were read.
///
/// It is a call of its own, so that its stack is given back before its callers go on.
#[inline(never)]
pub fn read_document(alloc: Global, bytes: &[u8], command: Command) -> Result<Document, TextFault>
    ensures reading { MatchResult result (IsReading command bytes.now) (IsFault command bytes.now) }
    ensures count { IfOk result
        (λ d. IfSome d.shares (λ x. length x.shares ≡ (game_of (description_in d.game)).players)) }
    ensures kept { IfOk result (λ d. IsKept bytes.now (view d.tree)) }
    ensures scale { IfOk result (λ d. (d.scale ≤ℤ pos 65536) × IsScaleOf (view d.tree) d.scale) }
    ensures players { IfOk result
        (λ d. IfSome d.certificate (λ c. c.players ≡ (game_of (description_in d.game)).players)) }
{
    if bytes.len() > document_limit(command) {
        return Err(TextFault::Refused(Refusal::TooLong));
    }
    let tree = match Value::from_slice(alloc, without_newline(bytes)) {
        Ok(tree) => tree,
        Err(e) if e.is_memory() => return Err(TextFault::Memory),
        Err(_) => return Err(TextFault::Refused(Refusal::NotJson)),
    };
    document_of(alloc, command, tree)
}

/// Returns the most bytes that a document for the command may have.
pub fn document_limit(command: Command) -> usize
    ensures value { result ≡ document_limit command }
    ensures small { result < 2 ^ 40 }
{
    command.needs().limit
}

fn without_newline(bytes: &[u8]) -> &[u8]
    ensures { result.now ≡ without_newline bytes.now }
{
    if bytes.is_empty() || bytes[bytes.len() - 1] != b'\n' {
        return bytes;
    }
    &bytes[..bytes.len() - 1]
}

/// The document of a JSON tree.
fn document_of(alloc: Global, command: Command, tree: Value) -> Result<Document, TextFault>
    ensures { MatchResult result (IsTreeReading command (view tree)) (IsTreeFault command (view tree)) }
{
    let Some(shaped) = shaped_game(command, &tree) else {
        return Err(TextFault::Refused(Refusal::Shape));
    };
    let (game, numbers) = sized_game(alloc, &shaped)?;
    let written = needed_fractions(alloc, command, &tree)?;
    let scale = i64::from(game.scale());
    let said = Reading {
        alloc,
        command,
        tree: &tree,
        game,
        written,
    }
    .said(numbers)?;
    let Some(tree) = game_out_of(tree) else {
        return Err(TextFault::Refused(Refusal::Shape));
    };
    Ok(Document {
        game: said.game,
        tree,
        measure: said.measure,
        scale,
        family: said.family,
        shares: said.shares,
        certificate: said.certificate,
    })
}

/// The fractions that the shares write, if the command needs shares; else none are read. They are refused if a
/// share is neither an integer nor a fraction text.
fn needed_fractions(
    alloc: Global,
    command: Command,
    tree: &Value,
) -> Result<Option<Vec<Frac>>, TextFault>
    ensures { MatchResult result
        (λ o. AreNeededFractions command (view tree.now) (option_map (λ v. v.items) o))
        (IsFractionFault command (view tree.now)) }
{
    if !command.needs().shares {
        return Ok(None);
    }
    let Some(written) = written_shares(alloc, tree)? else {
        return Err(TextFault::Refused(Refusal::Number));
    };
    Ok(Some(written))
}

/// The tree of the game, taken out of the tree of a document, so that none of it is copied.
fn game_out_of(tree: Value) -> Option<Value>
    ensures { option_map view result ≡ get (codes "game") (view tree) }
{
    match tree {
        Value::Object(mut members) => members.remove("game"),
        _ => None,
    }
}

/// The game, if its names are right and it passes the test of its class.
fn right_game(alloc: Global, game: &SizedGame, numbers: Vec<i64>) -> Result<Game, TextFault>
    requires { numbers.items ≡ own_numbers (view game.now.tree.now) }
    ensures { MatchResult result (IsGameReading (view game.now.tree.now)) (IsGameFault (view game.now.tree.now)) }
{
    match right_names(alloc, game.tree, game.players()) {
        Ok(Some(names)) => game_of(alloc, game, &names, numbers),
        Ok(None) => Err(TextFault::Refused(Refusal::Names)),
        Err(OutOfMemory) => Err(TextFault::Memory),
    }
}

/// The names of the players, if they are right and a sparse table uses no other.
fn right_names<'a>(
    alloc: Global,
    game: &'a Value,
    count: usize,
) -> Result<Option<Names<'a>>, OutOfMemory>
    requires { count ≡ players (view game.now) }
    ensures few { IfOk result (λ o. IfSome o (λ names. length names ≤ players (view game.now))) }
    ensures names { IfOk result
        (λ o. o ≡ (if has_names (view game.now) then Some (names_of (view game.now)) else None)) }
{
    match names_of(alloc, game, count)? {
        Some(names) if know_sparse(&names, game) => Ok(Some(names)),
        _ => Ok(None),
    }
}

/// The family that the command needs, which a document of its shape names.
fn needed_family(command: Command, tree: &Value) -> Option<Family>
    requires { is_shaped command (view tree.now) ≡ true }
    ensures { result ≡ family_for command (view tree.now) }
{
    if command.needs().answer {
        family_of(tree)
    } else {
        None
    }
}

/// What a document says, but for the tree of its game.
#[derive(Debug, Drop)]
struct Said {
    game: Game,
    measure: Measure,
    family: Option<Family>,
    shares: Option<Shares>,
    certificate: Option<Certificate>,
}

/// A document behind the tests of its shape, its players and its numbers.
#[derive(Drop)]
struct Reading<'a> {
    alloc: Global,
    command: Command,
    /// The tree of the document.
    tree: &'a Value,
    /// Its game.
    game: SizedGame<'a>,
    /// The fractions that its shares write, if the command needs shares.
    written: Option<Vec<Frac>>,
    ghost shaped: { is_shaped command (view tree.now) ≡ true },
    ghost fractions: { option_map (λ v. v.items) written ≡ fractions_for command (view tree.now) },
}

impl Reading<'_> {
    /// What the document says. The numbers are those of its game.
    fn said(&self, numbers: Vec<i64>) -> Result<Said, TextFault>
        requires { numbers.items ≡ own_numbers (view self.now.game.tree.now) }
        ensures { MatchResult result
            (IsLateReading self.now.command (view self.now.game.tree.now) (view self.now.tree.now))
            (IsLateFault self.now.command (view self.now.game.tree.now) (view self.now.tree.now)) }
    {
        let described = right_game(self.alloc, &self.game, numbers)?;
        self.said_of(described)
    }

    /// What the document says. Its game is right; what else the command needs is tested here.
    fn said_of(&self, described: Game) -> Result<Said, TextFault>
        requires { IsGameReading (view self.now.game.tree.now) described }
        ensures { MatchResult result
            (IsLateReading self.now.command (view self.now.game.tree.now) (view self.now.tree.now))
            (IsLateFault self.now.command (view self.now.game.tree.now) (view self.now.tree.now)) }
    {
        let shares = self.needed_shares(described.is_cost())?;
        let certificate = self.needed_certificate()?;
        Ok(Said {
            game: described,
            measure: measure_of(self.game.tree),
            family: needed_family(self.command, self.tree),
            shares,
            certificate,
        })
    }

    /// The shares that these fractions propose, if there is one for each player and their denominator isn't too
    /// large.
    fn right_shares(&self, written: &[Frac], are_payments: bool) -> Result<Shares, TextFault>
        requires written { written.now ≡ written_shares (view self.now.tree.now) }
        requires payments { are_payments ≡ is_cost (description_of (view self.now.game.tree.now)) }
        ensures { MatchResult result (IsProposal (view self.now.game.tree.now) (view self.now.tree.now))
            (IsProposalFault (view self.now.game.tree.now) (view self.now.tree.now)) }
    {
        if written.len() != self.game.players() {
            return Err(TextFault::Refused(Refusal::Proposal));
        }
        let scale = self.game.scale();
        let Some(shares) = shares_as_worth(self.alloc, written, scale, are_payments)? else {
            return Err(TextFault::Refused(Refusal::TooFine));
        };
        Ok(shares)
    }

    /// The shares that the command needs.
    fn needed_shares(&self, are_payments: bool) -> Result<Option<Shares>, TextFault>
        requires { are_payments ≡ is_cost (description_of (view self.now.game.tree.now)) }
        ensures { MatchResult result
            (IsShareReading self.now.command (view self.now.game.tree.now) (view self.now.tree.now))
            (IsShareFault self.now.command (view self.now.game.tree.now) (view self.now.tree.now)) }
    {
        let Some(written) = &self.written else {
            return Ok(None);
        };
        let shares = self.right_shares(written, are_payments)?;
        Ok(Some(shares))
    }

    /// The certificate for the players of the game, if it has its form.
    fn right_certificate(&self) -> Result<Option<Certificate>, OutOfMemory>
        ensures { IfOk result (λ o. let game = view self.now.game.tree.now in o
            ≡ (if passes (has_form (scale_of game) (players game)) (get (codes "certificate") (view self.now.tree.now))
            then Some (certificate_of (scale_of game) (players game) (certificate_tree (view self.now.tree.now)))
            else None)) }
    {
        match self.tree.get("certificate") {
            Some(tree) => {
                let players = self.game.players() as u32;
                certificate_of(self.alloc, players, tree, self.game.scale())
            }
            None => Ok(None),
        }
    }

    /// The certificate that the command needs, if it has its form.
    fn needed_certificate(&self) -> Result<Option<Certificate>, TextFault>
        ensures { MatchResult result
            (IsCertificateReading self.now.command (view self.now.game.tree.now) (view self.now.tree.now))
            (IsCertificateFault self.now.command (view self.now.game.tree.now) (view self.now.tree.now)) }
    {
        if !self.command.needs().certificate {
            return Ok(None);
        }
        let Some(certificate) = self.right_certificate()? else {
            return Err(TextFault::Refused(Refusal::Certificate));
        };
        Ok(Some(certificate))
    }
}
