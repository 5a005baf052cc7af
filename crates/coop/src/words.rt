//! The words of a command line.
ghost use Rattle.std.specs.Prelude.{◌≡◌, ◌≢◌, IfSome, MatchOption};
ghost use Rattle.std.specs.Prelude.{◌^◌, ◌<◌, ℕ, pos};
ghost use Rattle.std.specs.Prelude.{[], ◌∷◌, codes, map, string_bytes};
ghost use Rattle.report.specs.Lines.{line};
ghost use Rattle.report.specs.Words.{kind_word};
ghost use Rattle.coop.specs.Words.{IsRequest, Names, number_text, word_of};
ghost use Rattle.game_text.specs.declared.command.Command.{Command as Commands};
ghost use Rattle.kinds.specs.declared.kind.Kind.{Kind as Kinds};

use coop_gen::has_size;
use fractions::Frac;
use game_text::{Command, Kind};
use report::{Answer, UsageKind};

/// What the words of a command line ask for.
#[derive(Clone, Copy)]
pub enum Request {
    /// To answer a command on the document of the input.
    Read(Command),
    /// To make a game from a number, and to say what its nucleolus is.
    Generate { kind: Kind, players: u32, seed: u32 },
}

/// What the words ask for: a command that reads a document is one word, and `gen` has three more: kind, players, seed.
pub(crate) fn request_of(words: &[String]) -> Option<Request>
    ensures { Names (map string_bytes words.now) result }
{
    match words {
        [word] => Some(Request::Read(command_named(word.as_str())?)),
        [first, kind, players, seed] => generation(
            first.as_str(),
            kind.as_str(),
            players.as_str(),
            seed.as_str(),
        ),
        _ => None,
    }
}

/// The command that a word names.
fn command_named(word: &str) -> Option<Command>
    ensures { MatchOption result ((command : Commands) → word_of command ≢ word.now)
        (λ command. word.now ≡ word_of command) }
{
    match word {
        "nucleolus" => Some(Command::Nucleolus),
        "prenucleolus" => Some(Command::Prenucleolus),
        "propose" => Some(Command::Propose),
        "core" => Some(Command::Core),
        "check" => Some(Command::Check),
        "shapley" => Some(Command::Shapley),
        "bird" => Some(Command::Bird),
        "convex" => Some(Command::Convex),
        "kernel" => Some(Command::Kernel),
        "matching" => Some(Command::Matching),
        _ => None,
    }
}

/// The kind that a word names.
fn kind_named(word: &str) -> Option<Kind>
    ensures { MatchOption result ((kind : Kinds) → kind_word kind ≢ word.now) (λ kind. word.now ≡ kind_word kind) }
{
    match word {
        "table" => Some(Kind::Table),
        "airport" => Some(Kind::Airport),
        "bankruptcy" => Some(Kind::Bankruptcy),
        "tree" => Some(Kind::Tree),
        "assignment" => Some(Kind::Assignment),
        _ => None,
    }
}

/// The number below 2^32 whose decimal digits a word has.
fn number_in(word: &str) -> Option<u32>
    ensures value { MatchOption result ((n : ℕ) → n < 2 ^ 32 → number_text n ≢ word.now)
        (λ n. word.now ≡ number_text n) }
    ensures small { IfSome result (λ n. n < 2 ^ 32) }
{
    let Some(number) = Frac::parse(word.as_bytes()) else {
        return None;
    };
    if number.den() != 1 {
        return None;
    }
    match u32::try_from(number.num()) {
        Ok(value) => Some(value),
        Err(_) => None,
    }
}

/// What these four words ask for.
fn generation(first: &str, kind: &str, players: &str, seed: &str) -> Option<Request>
    ensures { Names (first.now ∷ kind.now ∷ players.now ∷ seed.now ∷ []) result }
{
    if first != "gen" {
        return None;
    }
    let kind = kind_named(kind)?;
    let players = number_in(players)?;
    let seed = number_in(seed)?;
    if has_size(kind, players) && seed < 1 << 31 {
        Some(Request::Generate {
            kind,
            players,
            seed,
        })
    } else {
        None
    }
}

/// The line for other words, which takes no memory.
pub(crate) fn usage_line() -> &'static [u8]
    ensures { result.now ≡ line (pos 1) (Answer.Usage UsageKind.Words) }
{
    b"{\"usage\":\"words\"}\n"
}
