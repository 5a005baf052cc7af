//! Certificates of the nucleolus, and their form.

ghost use Rattle.std.specs.Prelude.{◌≡◌, ◌↔◌, ◌≤◌, [], IsTrue, MatchResult};
ghost use Rattle.definitions.specs.Certificates.{HasForm, LevelsForm};
ghost use Rattle.kohlberg.specs.Certificate.{IsCertificate, CertificateData};

use crate::levels::Level;
use definitions::Mode;
use std::marker::Model;

/// The most players of a certificate in mode span.
const MOST_IN_SPAN: u32 = 16;

/// The levels don't have the form of a certificate.
#[derive(Clone, Copy, Debug, PartialEq, Eq)]
pub struct Malformed;

/// A certificate that shares are the nucleolus or the prenucleolus of a game: levels of coalitions of equal excess
/// (Kohlberg 1971), and the mode, which says what levels fix.
#[derive(Debug, Drop)]
pub struct Certificate {
    players: u32,
    mode: Mode,
    levels: Vec<Level>,
}

impl Model for Certificate {
    ghost use Rattle.kohlberg.specs.Certificate.{IsCertificate, CertificateData};

    ghost Value = { CertificateData };

    ghost view = { λ c. record { players = c.players; mode = c.mode; levels = c.levels.items } };

    ghost invariant = { λ c. IsCertificate (record { players = c.players; mode = c.mode; levels = c.levels.items }) };
}

impl Certificate {
    /// Makes the certificate of these levels for 1 to 64 players. It takes no memory.
    ///
    /// Fails with `Malformed` exactly if the levels don't have this form: fewer levels than players; in mode span at
    /// most 16 players; in each level 1 to 65536 coalitions, neither empty nor all, at most 65536 earlier ones, each of
    /// them a coalition of an earlier level, and bounds of players of the game; all three lists in ascending order,
    /// without repeats; weights and total below 2^63 in size.
    pub fn new(players: u32, mode: Mode, levels: Vec<Level>) -> Result<Certificate, Malformed>
        requires some { 1 ≤ players }
        requires few { players ≤ 64 }
        ensures { MatchResult result
            (λ c. (c ≡ record { players = players; mode = mode; levels = levels.items })
            × HasForm mode players levels.items)
            (λ _. ¬ HasForm mode players levels.items) }
    {
        if has_form(players, mode, &levels) {
            Ok(Certificate {
                players,
                mode,
                levels,
            })
        } else {
            Err(Malformed)
        }
    }

    /// Returns the number of players, 1 to 64.
    pub fn players(&self) -> u32
        ensures value { result ≡ self.now.players }
        ensures some { 1 ≤ result }
        ensures few { result ≤ 64 }
    {
        self.players
    }

    /// Returns what the levels fix: players, or vectors in a span.
    pub fn mode(&self) -> Mode
        ensures { result ≡ self.now.mode }
    {
        self.mode
    }

    /// Returns the levels, from the first.
    pub fn levels(&self) -> &[Level]
        ensures value { result.now ≡ self.now.levels }
        ensures form { HasForm self.now.mode self.now.players result.now }
    {
        &self.levels
    }
}

/// Whether levels have the form of a certificate for `n` players.
fn has_form(n: u32, mode: Mode, levels: &[Level]) -> bool
    requires { n ≤ 64 }
    ensures { IsTrue result ↔ HasForm mode n levels.now }
{
    if mode == Mode::Span && n > MOST_IN_SPAN {
        return false;
    }
    levels.len() < n as usize && levels_have_form(n, levels)
}

/// Whether each level has its form behind those in front of it.
fn levels_have_form(n: u32, levels: &[Level]) -> bool
    requires { n ≤ 64 }
    ensures { IsTrue result ↔ LevelsForm n [] levels.now }
{
    for i in 0..levels.len() {
        if !levels[i].has_form(n, &levels[..i]) {
            return false;
        }
    }
    true
}
