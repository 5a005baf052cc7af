//! The coalitions outside of a span, found all at once. A coalition's weight at a place is the sum of two numbers from
//! tables, one for the members among the first eight players and one for those among the rest.
//!
//! So the coalitions are cleared place by place, 256 at a time, and the span isn't asked for each mask.

ghost use Rattle.std.specs.Prelude.{◌≡◌, ◌↔◌, ◌&&◌, ◌||◌, not, false, IsTrue, slice_index_or};
ghost use Rattle.std.specs.Prelude.{ℕ, ◌*◌, ◌/◌, ◌%◌, ◌+◌, ◌^◌, ◌<◌, ◌≤◌, nat_eq};
ghost use Rattle.std.specs.Prelude.{pos, ◌+ℤ◌, ◌-ℤ◌, unsigned_abs};
ghost use Rattle.definitions.specs.Coalitions.{grand_coalition, has_player};
ghost use Rattle.definitions.specs.Certificates.{InSpan};
ghost use Rattle.determinants.specs.Basis.{dot};
ghost use Rattle.determinants.specs.Matrix.{entry_at};
ghost use Rattle.spans.specs.Span.{IsKept, vector};
ghost use Rattle.spans.specs.Outside.{is_marked, IsProperWord, HasNoWeight};
ghost use Rattle.spans.specs.Sums.{number_at, two_sums};

use crate::player_sums::PlayerSums;
use crate::silent_places::SilentPlaces;
use crate::{Span, entry};
use coalitions::Coalition;
use std::marker::Model;

/// Some coalitions of at most 16 players, a bit for each: coalition s has bit s % 64 of word s / 64.
#[derive(Drop)]
pub struct Outside {
    words: [u64; 1024],
}

impl Model for Outside {
    ghost use Rattle.std.specs.Prelude.{ℕ, List};

    ghost Value = { List ℕ };

    ghost view = { λ o. o.words };
}

/// The coalitions of one word, of all of `n` players but the empty one and that of all.
fn proper_word(n: u32, place: usize) -> u64
    requires few { n ≤ 16 }
    requires place { place < 1024 }
    ensures { IsProperWord n place result }
{
    let below = (1u64 << n) - 1;
    let count = below.saturating_sub(64 * place as u64).min(64);
    let word = Coalition::all(count as u32);
    if place == 0 {
        word.without(0).0
    } else {
        word.0
    }
}

/// Whether some of the 256 coalitions of a block, which are those of four words, are there.
fn has_some(words: &[u64; 1024], block: usize) -> bool
    requires { block < 256 }
    ensures { result ≡ false → (s : ℕ) → s / 256 ≡ block → is_marked words.now s ≡ false }
{
    let first = 4 * block;
    words[first] != 0 || words[first + 1] != 0 || words[first + 2] != 0 || words[first + 3] != 0
}

/// Takes out the coalitions of a block whose place in it isn't among some.
fn keep_in_block(words: &mut [u64; 1024], block: usize, places: &[u64; 4])
    requires { block < 256 }
    ensures { (s : ℕ) → is_marked words.new s
        ≡ (is_marked words.old s && (not (nat_eq (s / 256) block) || is_marked places.now (s % 256))) }
{
    for i in 0..4 {
        words[4 * block + i] &= places[i];
    }
}

/// Takes out the coalitions whose two sums don't add to 0. Those of a block have the sum from the second table in
/// common, so they are found where the first table holds minus that.
fn keep_silent(words: &mut [u64; 1024], sums: &PlayerSums)
    requires { (a : ℕ) → a < 256 → unsigned_abs (slice_index_or sums.now.high a (pos 0)) ≤ 2 ^ 61 }
    ensures { (s : ℕ) → s < 2 ^ 16
        → (IsTrue (is_marked words.new s)
        ↔ (IsTrue (is_marked words.old s) × (two_sums sums.now.low sums.now.high s ≡ pos 0))) }
{
    let mut places = SilentPlaces::of(sums);
    for block in 0..256 {
        if has_some(words, block) {
            keep_in_block(words, block, &places.of_block(sums, block));
        }
    }
}

/// The bits of a word that another doesn't have.
fn without_all(word: u64, other: u64) -> u64
    ensures { (j : ℕ) → j < 64 → has_player result j ≡ (has_player word j && not (has_player other j)) }
{
    word & !other
}

/// Takes out what stands in other words.
fn take_out(words: &mut [u64; 1024], others: &[u64; 1024])
    ensures { (s : ℕ) → s < 2 ^ 16 → is_marked words.new s ≡ (is_marked words.old s && not (is_marked others.now s)) }
{
    for place in 0..1024 {
        words[place] = without_all(words[place], others[place]);
    }
}

impl Outside {
    /// Makes the set of every coalition of `n` players except the empty one and that of all.
    pub fn all(n: u32) -> Outside
        requires { n ≤ 16 }
        ensures { (s : ℕ) → (IsTrue (is_marked result s) ↔ ((0 < s) × (s < grand_coalition n))) }
    {
        let mut words = [0; 1024];
        for place in 0..1024 {
            words[place] = proper_word(n, place);
        }
        Outside { words }
    }

    /// Returns whether the coalition is still there.
    pub fn contains(&self, s: Coalition) -> bool
        requires { s < 2 ^ 16 }
        ensures { result ≡ is_marked self.now s }
    {
        Coalition(self.words[(s.0 / 64) as usize]).contains((s.0 % 64) as u32)
    }

    /// Returns which of the 64 coalitions from 64 * `place` on are still there, a bit for each.
    pub fn word(&self, place: usize) -> u64
        requires { place < 1024 }
        ensures { (j : ℕ) → j < 64 → has_player result j ≡ is_marked self.now (64 * place + j) }
    {
        self.words[place]
    }

    /// Takes out the coalitions that a span holds.
    pub fn clear(&mut self, span: &Span)
        requires { (s : ℕ) → IsTrue (is_marked self.old s) → s < 2 ^ span.now.players }
        ensures { (s : ℕ)
            → (IsTrue (is_marked self.new s)
            ↔ (IsTrue (is_marked self.old s) × ¬ InSpan span.now.players (IsKept span.now.kept) s)) }
    {
        let held = span.held_among(self.words);
        take_out(&mut self.words, &held);
    }
}

/// Adds the entries of a place to numbers of the players.
fn add_row(numbers: &mut [i64; 16], entries: &[i128; 256], n: u32, k: usize)
    requires few { n ≤ 16 }
    requires place { k < n }
    requires small { (i : ℕ) → i < n → unsigned_abs (entry_at 16 entries.now k i) ≤ 2 ^ 45 }
    requires numbers { (i : ℕ) → unsigned_abs (number_at numbers.old i) ≤ 2 ^ 50 }
    ensures sum { (i : ℕ) → i < n → number_at numbers.new i ≡ number_at numbers.old i +ℤ entry_at 16 entries.now k i }
    ensures rest { (i : ℕ) → n ≤ i → number_at numbers.new i ≡ number_at numbers.old i }
{
    for i in 0..n as usize {
        numbers[i] += entry(entries, k, i) as i64;
    }
}

/// The sums of the entries of a place over coalitions, which are their weights there.
fn weight_sums(entries: &[i128; 256], n: u32, k: usize) -> PlayerSums
    requires few { n ≤ 16 }
    requires place { k < n }
    requires small { (i : ℕ) → i < n → unsigned_abs (entry_at 16 entries.now k i) ≤ 2 ^ 45 }
    ensures value { (s : ℕ) → s < 2 ^ 16
        → two_sums result.low result.high s ≡ dot n (entry_at 16 entries.now k) (vector s) }
    ensures small { (a : ℕ) → a < 256 → unsigned_abs (slice_index_or result.high a (pos 0)) ≤ 2 ^ 61 }
{
    let mut numbers = [0; 16];
    add_row(&mut numbers, entries, n, k);
    PlayerSums::of(&numbers)
}

/// The sums of the entries of all places that aren't fixed, added. These are 0 at each coalition without a weight
/// there, and at few others: so one pass leaves little for the passes of the places.
fn all_weight_sums(entries: &[i128; 256], fixed: &[bool; 16], n: u32) -> PlayerSums
    requires few { n ≤ 16 }
    requires small { (k i : ℕ) → k < n → i < n → unsigned_abs (entry_at 16 entries.now k i) ≤ 2 ^ 45 }
    ensures none { (s : ℕ) → s < 2 ^ 16
        → HasNoWeight n fixed.now entries.now n s → two_sums result.low result.high s ≡ pos 0 }
    ensures small { (a : ℕ) → a < 256 → unsigned_abs (slice_index_or result.high a (pos 0)) ≤ 2 ^ 61 }
{
    let mut numbers = [0; 16];
    for k in 0..n as usize {
        if !fixed[k] {
            add_row(&mut numbers, entries, n, k);
        }
    }
    PlayerSums::of(&numbers)
}

/// Of some coalitions, those without a weight at a place that isn't fixed.
fn without_weights(
    words: [u64; 1024],
    entries: &[i128; 256],
    fixed: &[bool; 16],
    n: u32,
) -> [u64; 1024]
    requires few { n ≤ 16 }
    requires small { (k i : ℕ) → k < n → i < n → unsigned_abs (entry_at 16 entries.now k i) ≤ 2 ^ 45 }
    ensures { (s : ℕ) → s < 2 ^ 16
        → (IsTrue (is_marked result s)
        ↔ (IsTrue (is_marked words s) × HasNoWeight n fixed.now entries.now n s)) }
{
    let mut held = words;
    keep_silent(&mut held, &all_weight_sums(entries, fixed, n));
    for k in 0..n as usize {
        if !fixed[k] {
            keep_silent(&mut held, &weight_sums(entries, n, k));
        }
    }
    held
}

impl Span {
    /// Of some coalitions, those that the span holds.
    fn held_among(&self, words: [u64; 1024]) -> [u64; 1024]
        ensures { (s : ℕ) → s < 2 ^ self.now.players
            → (IsTrue (is_marked result s)
            ↔ (IsTrue (is_marked words s) × InSpan self.now.players (IsKept self.now.kept) s)) }
    {
        without_weights(words, &self.entries, &self.fixed, self.players)
    }
}
