//! The game of a market.
ghost use Rattle.std.specs.Prelude.{◌≡◌, ℕ, ◌+◌, ◌<◌, ◌≤◌, ◌^◌, length, map, MatchResult};
ghost use Rattle.definitions.specs.Classes.{IsAssignmentGame};
ghost use Rattle.big_assignment.specs.Deals.{offers, AreDealOffers, IsFair, IsDealOfAll};
ghost use Rattle.big_assignment.specs.Markets.{IsMarket, IsRefused, everybody, offered};
ghost use Rattle.assignment_games.specs.Assignments.{seller_count, assignment_game};
ghost use Rattle.matrices.specs.Rows.{entries_of};

use crate::deal::{Deal, OFFERS, PLACES, SIDE};
use crate::payoffs::total;
use crate::search::add_row;
use coalitions::Coalition;
use matrices::{entry, have_entries, have_length};
use std::alloc::Global;
use std::marker::Model;
use worth_core::Worth;

/// Why rows make no market. If several causes apply, the first of them is returned.
#[derive(Clone, Copy, Debug, PartialEq, Eq)]
pub enum MarketFault {
    /// There aren't 1 to 32 rows, or there aren't 1 to 32 entries in the first.
    Players,
    /// An entry is negative, or 2^40 or more.
    Number,
    /// The rows differ in length.
    Matrix,
    /// There was no memory.
    /// `MarketGame::new` takes none and never gives this: it is part of a promised signature.
    Memory,
}

/// What each buyer and each seller are worth together. A coalition is worth what its members make in an optimal
/// matching. Row `i` is buyer `i`, which is player `i`; the sellers are the players behind the buyers.
#[derive(Debug, Drop)]
pub struct MarketGame {
    matrix: Vec<Vec<i64>>,
}

impl Model for MarketGame {
    ghost use Rattle.std.specs.Prelude.{List, ℤ, map};
    ghost use Rattle.big_assignment.specs.Markets.{IsMarket};

    ghost Value = { List (List ℤ) };

    ghost view = { λ a. map (λ row. row.items) a.matrix.items };

    ghost invariant = { λ a. IsMarket (map (λ row. row.items) a.matrix.items) };
}

impl MarketGame {
    /// Makes the market of these rows: one for each buyer, with an entry for each seller, from 0 to below 2^40 as
    /// worth, and at most 32 buyers and 32 sellers. Otherwise returns the first cause in the order of `MarketFault`. It
    /// takes no memory.
    pub fn new(_alloc: Global, matrix: Vec<Vec<i64>>) -> Result<MarketGame, MarketFault>
        ensures { let rows = map (λ row. row.items) matrix.items in MatchResult result
            (λ game. (game ≡ rows) × IsMarket rows
            × IsAssignmentGame (entries_of rows) (length rows) (assignment_game rows))
            (IsRefused rows) }
    {
        let buyers = matrix.len();
        if buyers < 1 || buyers > SIDE {
            return Err(MarketFault::Players);
        }
        let sellers = matrix[0].len();
        if sellers < 1 || sellers > SIDE {
            return Err(MarketFault::Players);
        }
        if !have_entries(&matrix) {
            return Err(MarketFault::Number);
        }
        if !have_length(&matrix, sellers) {
            return Err(MarketFault::Matrix);
        }
        Ok(MarketGame { matrix })
    }

    /// Returns the number of buyers.
    pub fn buyers(&self) -> u32
        ensures count { result ≡ length self.now }
        ensures few { result ≤ 32 }
        ensures laws { IsMarket self.now }
        ensures optimal { IsAssignmentGame (entries_of self.now) (length self.now) (assignment_game self.now) }
    {
        self.matrix.len() as u32
    }

    /// Returns the number of sellers.
    pub fn sellers(&self) -> u32
        ensures count { result ≡ seller_count self.now }
        ensures few { result ≤ 32 }
    {
        self.matrix[0].len() as u32
    }

    /// What buyer `i` and seller `j` are worth together if both are members; otherwise 0, as outside of the market.
    pub(crate) fn offer_within(&self, s: Coalition, i: usize, j: usize) -> u64
        requires row { i < 32 }
        requires column { j ≤ 32 }
        ensures value { result ≡ offered (entries_of self.now) (length self.now) s i j }
        ensures small { result < 2 ^ 40 }
    {
        let buyers = self.buyers();
        let (row, column) = (i as u32, j as u32);
        if row < buyers
            && column < self.sellers()
            && s.contains(row)
            && s.contains(buyers + column)
        {
            entry(&self.matrix, i, j)
        } else {
            0
        }
    }

    /// What the members offer each other, for each row and each place.
    pub(crate) fn table(&self, s: Coalition) -> [u64; OFFERS]
        ensures offers { (i j : ℕ) → i < 32 → j ≤ 32
            → offers result i j ≡ offered (entries_of self.now) (length self.now) s i j }
        ensures small { (i j : ℕ) → i < 32 → j ≤ 32 → offers result i j < 2 ^ 40 }
    {
        let mut table = [0; OFFERS];
        for place in 0..OFFERS {
            table[place] = self.offer_within(s, place / PLACES, place % PLACES);
        }
        table
    }

    /// An optimal matching of the members, with prices.
    pub(crate) fn deal(&self, s: Coalition) -> Deal
        ensures table { (i j : ℕ) → i < 32 → j ≤ 32
            → offers result.table i j ≡ offered (entries_of self.now) (length self.now) s i j }
        ensures offers { AreDealOffers result }
        ensures fair { IsFair result (length self.now) }
    {
        let mut deal = Deal::new(self.table(s));
        for n in 0..self.buyers() as usize {
            add_row(&mut deal, n);
        }
        deal
    }
}

impl MarketGame {
    /// The coalition of all players.
    pub(crate) fn everybody(&self) -> Coalition
        ensures { result ≡ everybody self.now }
    {
        Coalition::all(self.players())
    }

    /// An optimal matching of all players, with prices.
    pub(crate) fn deal_of_all(&self) -> Deal
        ensures { IsDealOfAll self.now result }
    {
        self.deal(self.everybody())
    }
}

impl Worth for MarketGame {
    ghost use Rattle.assignment_games.specs.Assignments.{assignment_game};

    ghost game = { assignment_game };

    fn players(&self) -> u32 {
        self.buyers() + self.sellers()
    }

    /// Found by an optimal matching of the members with prices, over fixed arrays: the value is what all gain and cost.
    fn worth(&self, s: Coalition) -> i64 {
        let deal = self.deal(s);
        total(self.buyers(), self.players(), &deal.gains, &deal.prices) as i64
    }
}
