//! The first coalition and players at which a game isn't convex.
ghost use Rattle.std.specs.Prelude.{◌≡◌, ℕ, ◌^◌, ◌<◌, ◌≤◌, unsigned_abs, ◌+ℤ◌, ◌-ℤ◌, MatchOption, false};
ghost use Rattle.definitions.specs.Coalitions.{has_player};
ghost use Rattle.definitions.specs.Convexity.{AreOutside, apart, together};
ghost use Rattle.convexity.specs.Search.{HoldsAt, IsFirstPartner, IsFirstPair};
ghost use Rattle.convexity.specs.Answers.{IsTested};

use coalitions::Coalition;
use worth_core::Worth;

/// Whether a game is convex.
#[derive(Clone, Copy, Debug, PartialEq, Eq)]
pub enum Convexity {
    /// It is.
    Convex,
    /// It isn't: of all coalitions `s` and players `i < j` outside, in the order of (mask, i, j), these are the first
    /// of which `s` with each of the two is worth more, by `deficit`, than `s` with both and `s` itself.
    Not {
        s: Coalition,
        i: u32,
        j: u32,
        deficit: i64,
    },
}

/// Two players outside a coalition, and by how much they fail.
#[derive(Clone, Copy)]
struct Pair {
    i: u32,
    j: u32,
    deficit: i64,
}

/// The worths of two coalitions, added.
fn worths_of<W: Worth>(game: &W, s: Coalition, t: Coalition) -> i64
    requires first { s < 2 ^ (W.game game.now).players }
    requires second { t < 2 ^ (W.game game.now).players }
    ensures value { result ≡ (W.game game.now).worth s +ℤ (W.game game.now).worth t }
    ensures small { unsigned_abs result < 2 ^ 47 }
{
    game.players();
    game.worth(s) + game.worth(t)
}

/// The worths of a coalition with each of two players, less those of it with both and of itself.
fn deficit<W: Worth>(game: &W, s: Coalition, i: u32, j: u32) -> i64
    requires few { (W.game game.now).players ≤ 16 }
    requires outside { AreOutside (W.game game.now).players s i j }
    ensures value { result ≡ apart (W.game game.now) s i j -ℤ together (W.game game.now) s i j }
    ensures small { unsigned_abs result < 2 ^ 48 }
{
    let with_i = s.with(i);
    worths_of(game, with_i, s.with(j)) - worths_of(game, with_i.with(j), s)
}

/// The first player after `i` that fails with it.
fn first_partner<W: Worth>(game: &W, s: Coalition, i: u32) -> Option<Pair>
    requires few { (W.game game.now).players ≤ 16 }
    requires within { s < 2 ^ (W.game game.now).players }
    requires player { i < (W.game game.now).players }
    requires outside { has_player s i ≡ false }
    ensures { MatchOption result
        ((l : ℕ) → i < l → HoldsAt (W.game game.now) s i l)
        (λ p. (p.i ≡ i) × IsFirstPartner (W.game game.now) s i p.j p.deficit) }
{
    for j in i + 1..game.players() {
        if !s.contains(j) {
            let deficit = deficit(game, s, i, j);
            if 0 < deficit {
                return Some(Pair { i, j, deficit });
            }
        }
    }
    None
}

/// The first two players that fail.
fn first_pair<W: Worth>(game: &W, s: Coalition) -> Option<Pair>
    requires few { (W.game game.now).players ≤ 16 }
    requires within { s < 2 ^ (W.game game.now).players }
    ensures { MatchOption result
        ((k l : ℕ) → k < l → HoldsAt (W.game game.now) s k l)
        (λ p. IsFirstPair (W.game game.now) s p.i p.j p.deficit) }
{
    for i in 0..game.players() {
        if !s.contains(i) {
            let pair = first_partner(game, s, i);
            if pair.is_some() {
                return pair;
            }
        }
    }
    None
}

/// Returns `Convex` exactly if a game of at most 16 players is convex, and otherwise the first coalition and players at
/// which it isn't (Shapley 1971).
///
/// It takes no memory and always answers.
pub fn test<W: Worth>(game: &W) -> Convexity
    requires { (W.game game.now).players ≤ 16 }
    ensures { IsTested (W.game game.now) result }
{
    for mask in 0..1u64 << game.players() {
        let s = Coalition(mask);
        if let Some(pair) = first_pair(game, s) {
            return Convexity::Not {
                s,
                i: pair.i,
                j: pair.j,
                deficit: pair.deficit,
            };
        }
    }
    Convexity::Convex
}
