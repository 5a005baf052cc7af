//! The surpluses of all players against each other, from one scan of the coalitions.
ghost use Rattle.std.specs.Prelude.{◌≡◌, ◌≢◌, not, ◌&&◌, true, None, Some, IsSome, MatchOption, length};
ghost use Rattle.std.specs.Prelude.{ℕ, ◌<◌, ◌≤◌, nat_eq};
ghost use Rattle.definitions.specs.Coalitions.{has_player};
ghost use Rattle.definitions.specs.Prekernel.{IsEarlierPair, holds_without};
ghost use Rattle.kernel_test.specs.Tables.{number_at, floor_of, raised_where, is_less_so_far};
ghost use Rattle.kernel_test.specs.Tables.{lesser_where, AreFloors, AreThere, AreSurpluses};

use coalitions::Coalition;
use worth_core::{Shares, Worth, raised};

/// For each two of at most 16 players, the greatest excess so far over the coalitions that hold the one and lack the
/// other, in row order and over the denominator of the shares; none before there is such a coalition.
#[derive(Drop)]
pub(crate) struct Surpluses {
    greatest: [Option<i128>; 256],
    /// For each player a number that none of its surpluses so far is below, so that few coalitions need its row; none
    /// before all are there.
    least: [Option<i128>; 16],
}

impl Surpluses {
    /// The surpluses of each player against each other.
    pub(crate) fn of<W: Worth>(game: &W, x: &Shares) -> Surpluses
        requires few { (W.game game.now).players ≤ 16 }
        requires shares { length x.now.shares ≡ (W.game game.now).players }
        ensures surpluses { AreSurpluses (W.game game.now) x.now result.greatest }
        ensures there { AreThere (W.game game.now).players result.greatest }
    {
        let mut surpluses = Surpluses::none();
        let mut paid = 0;
        for s in Coalition::subsets(game.players()) {
            paid = x.sum_after(paid, s);
            surpluses.raise(s, x.excess_from(game.worth(s), paid));
        }
        surpluses
    }

    /// No coalition is seen.
    fn none() -> Surpluses
        ensures empty { (i j : ℕ) → i < 16 → j < 16 → number_at result.greatest i j ≡ None }
        ensures floors { AreFloors result.greatest result.least }
    {
        Surpluses {
            greatest: [None; 256],
            least: [None; 16],
        }
    }

    /// One more coalition is seen, of that excess.
    fn raise(&mut self, s: Coalition, excess: i128)
        requires { AreFloors self.old.greatest self.old.least }
        ensures raised { (i j : ℕ) → i < 16 → j < 16
            → number_at self.new.greatest i j
            ≡ raised_where (holds_without i j s) (number_at self.old.greatest i j) excess }
        ensures floors { AreFloors self.new.greatest self.new.least }
    {
        for i in 0..16 {
            if s.contains(i) {
                self.raise_row(i, s, excess);
            }
        }
    }

    /// One more coalition is seen, of that excess, which holds `i`.
    fn raise_row(&mut self, i: u32, s: Coalition, excess: i128)
        requires player { i < 16 }
        requires member { has_player s i ≡ true }
        requires floors { AreFloors self.old.greatest self.old.least }
        ensures raised { (a j : ℕ) → a < 16 → j < 16
            → number_at self.new.greatest a j
            ≡ raised_where (nat_eq a i && not (has_player s j)) (number_at self.old.greatest a j) excess }
        ensures floors { AreFloors self.new.greatest self.new.least }
    {
        if self.can_rise(i, excess) {
            self.write_row(i, s, excess);
        }
    }

    /// Whether a number of row `i` may be below the excess.
    fn can_rise(&self, i: u32, excess: i128) -> bool
        requires { i < 16 }
        ensures { result ≡ is_less_so_far (floor_of self.now.least i) excess }
    {
        match self.least[i as usize] {
            None => true,
            Some(least) => least < excess,
        }
    }

    /// The numbers of row `i` at the players outside of a coalition, and the least number of the row.
    fn write_row(&mut self, i: u32, s: Coalition, excess: i128)
        requires player { i < 16 }
        requires floors { AreFloors self.old.greatest self.old.least }
        ensures raised { (a j : ℕ) → a < 16 → j < 16
            → number_at self.new.greatest a j
            ≡ raised_where (nat_eq a i && not (has_player s j)) (number_at self.old.greatest a j) excess }
        ensures floors { AreFloors self.new.greatest self.new.least }
    {
        let mut least = Some(i128::MAX);
        for j in 0..16 {
            let place = (16 * i + j) as usize;
            self.greatest[place] = raised_where(!s.contains(j), self.greatest[place], excess);
            least = lesser_where(j != i, least, self.greatest[place]);
        }
        self.least[i as usize] = least;
    }

    /// The surplus of one player against another.
    pub(crate) fn against(&self, i: u32, j: u32) -> i128
        requires row { i < 16 }
        requires column { j < 16 }
        requires found { IsSome (number_at self.now.greatest i j) }
        ensures { number_at self.now.greatest i j ≡ Some result }
    {
        self.greatest[(16 * i + j) as usize].unwrap()
    }

    /// The first two of `n` players, by the first of them and then by the second, whose surpluses differ.
    pub(crate) fn first_unbalanced(&self, n: u32) -> Option<(u32, u32)>
        requires few { n ≤ 16 }
        requires there { AreThere n self.now.greatest }
        ensures { MatchOption result
            ((i j : ℕ) → i < j → j < n → number_at self.now.greatest i j ≡ number_at self.now.greatest j i)
            (λ p. (p.0 < p.1) × (p.1 < n) × (number_at self.now.greatest p.0 p.1 ≢ number_at self.now.greatest p.1 p.0)
            × ((i j : ℕ) → i < j → j < n → IsEarlierPair i j p.0 p.1
            → number_at self.now.greatest i j ≡ number_at self.now.greatest j i)) }
    {
        for i in 0..n {
            if let Some(j) = self.first_against(i, n) {
                return Some((i, j));
            }
        }
        None
    }

    /// The first player behind `i` against whom its surplus differs from that player's.
    fn first_against(&self, i: u32, n: u32) -> Option<u32>
        requires player { i < n }
        requires few { n ≤ 16 }
        requires there { AreThere n self.now.greatest }
        ensures { MatchOption result
            ((j : ℕ) → i < j → j < n → number_at self.now.greatest i j ≡ number_at self.now.greatest j i)
            (λ j. (i < j) × (j < n) × (number_at self.now.greatest i j ≢ number_at self.now.greatest j i)
            × ((k : ℕ) → i < k → k < j → number_at self.now.greatest i k ≡ number_at self.now.greatest k i)) }
    {
        for j in i + 1..n {
            if self.against(i, j) != self.against(j, i) {
                return Some(j);
            }
        }
        None
    }
}

/// The greater of a number and the greatest so far, if a test passes; otherwise the greatest so far.
fn raised_where(test: bool, most: Option<i128>, excess: i128) -> Option<i128>
    ensures { result ≡ raised_where test most excess }
{
    if test { raised(most, excess) } else { most }
}

/// The lesser of two numbers if a test passes, and none if one of them isn't there; otherwise `least`.
fn lesser_where(test: bool, least: Option<i128>, number: Option<i128>) -> Option<i128>
    ensures { result ≡ lesser_where test least number }
{
    match (test, least, number) {
        (false, least, _) => least,
        (true, Some(least), Some(number)) => Some(if number < least { number } else { least }),
        _ => None,
    }
}
