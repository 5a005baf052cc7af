//! A small game as a table of worths, and a point of shares: what the plain programs take.

ghost use Rattle.std.specs.Prelude.{◌≡◌, ◌^◌, ◌<◌, ◌≤◌, length, pos, ◌*ℤ◌, ◌≤ℤ◌, unsigned_abs};
ghost use Rattle.definitions.specs.Coalitions.{has_player};
ghost use Rattle.definitions.specs.Games.{share, amount, excess};
ghost use Rattle.plain_programs.specs.Plain.{game_of, IsSmallerPoint};

use std::marker::Model;

/// A game of 1 to 16 players, by the worth of each coalition in mask order from mask 1.
#[derive(Drop)]
pub struct Table<'a> {
    players: u32,
    worths: &'a [i64],
}

impl<'a> Model for Table<'a> {
    ghost use Rattle.plain_programs.specs.Plain.{WorthTable, IsSmallTable};

    ghost Value = { WorthTable };

    ghost view = { λ t. record { players = t.players; worths = t.worths.now } };

    ghost invariant = { λ t. IsSmallTable (record { players = t.players; worths = t.worths.now }) };
}

impl<'a> Table<'a> {
    ghost use Rattle.plain_programs.specs.Plain.{IsSmallTable};

    /// Makes the game of the listed worths.
    pub fn new(players: u32, worths: &'a [i64]) -> Table<'a>
        requires { IsSmallTable (record { players = players; worths = worths.now }) }
        ensures { result ≡ record { players = players; worths = worths.now } }
    {
        Table { players, worths }
    }

    /// How many coalitions there are, the empty one and that of all players among them.
    pub(crate) fn coalitions(&self) -> u64
        ensures count { result ≡ 2 ^ self.now.players }
        ensures some { 2 ≤ result }
        ensures few { result ≤ 2 ^ 16 }
    {
        1 << self.players
    }

    pub(crate) fn worth(&self, coalition: u64) -> i64
        requires { coalition < 2 ^ self.now.players }
        ensures value { result ≡ (game_of self.now).worth coalition }
        ensures small { unsigned_abs result < 2 ^ 46 }
    {
        let worths = self.worths;
        if coalition == 0 {
            0
        } else {
            worths[coalition as usize - 1]
        }
    }
}

/// A share of each player over a common denominator.
#[derive(Drop)]
pub struct Point<'a> {
    shares: &'a [i128],
    den: i128,
}

impl<'a> Model for Point<'a> {
    ghost use Rattle.definitions.specs.Games.{Allocation};
    ghost use Rattle.plain_programs.specs.Plain.{IsSmallPoint};

    ghost Value = { Allocation };

    ghost view = { λ x. record { shares = x.shares.now; den = x.den } };

    ghost invariant = { λ x. IsSmallPoint (record { shares = x.shares.now; den = x.den }) };
}

impl<'a> Point<'a> {
    ghost use Rattle.plain_programs.specs.Plain.{IsSmallPoint};

    /// Makes the point of shares over a denominator.
    pub fn new(shares: &'a [i128], den: i128) -> Point<'a>
        requires { IsSmallPoint (record { shares = shares.now; den = den }) }
        ensures { result ≡ record { shares = shares.now; den = den } }
    {
        Point { shares, den }
    }

    pub(crate) fn den(&self) -> i128
        ensures value { result ≡ self.now.den }
        ensures positive { pos 1 ≤ℤ result }
        ensures common { result ≤ℤ pos (2 ^ 38) }
    {
        self.den
    }

    fn players(&self) -> u32
        ensures count { result ≡ length self.now.shares }
        ensures few { result ≤ 16 }
    {
        self.shares.len() as u32
    }

    fn share(&self, player: u32) -> i128
        requires { player < length self.now.shares }
        ensures value { result ≡ share self.now player }
        ensures small { unsigned_abs result < 2 ^ 84 }
    {
        self.shares[player as usize]
    }

    /// What the members get together, over the denominator.
    pub(crate) fn amount(&self, coalition: u64) -> i128
        ensures value { result ≡ amount self.now coalition }
        ensures small { unsigned_abs result ≤ 2 ^ 88 }
        ensures few { length self.now.shares ≤ 16 }
    {
        let mut sum: i128 = 0;
        for player in 0..self.players() {
            if has_player(coalition, player) {
                sum += self.share(player);
            }
        }
        sum
    }
}

pub(crate) fn has_player(coalition: u64, player: u32) -> bool
    requires { player < 64 }
    ensures { result ≡ has_player coalition player }
{
    coalition >> player & 1 == 1
}

fn product(den: i128, worth: i64) -> i128
    requires positive { pos 1 ≤ℤ den }
    requires common { den ≤ℤ pos (2 ^ 38) }
    requires small { unsigned_abs worth < 2 ^ 46 }
    ensures value { result ≡ den *ℤ worth }
    ensures small { unsigned_abs result < 2 ^ 84 }
{
    den * worth as i128
}

/// Returns what a coalition could do better by itself, over the denominator: positive if it blocks.
pub fn excess(table: &Table, point: &Point, coalition: u64) -> i128
    requires { coalition < 2 ^ table.now.players }
    ensures value { result ≡ excess (game_of table.now) point.now coalition }
    ensures small { unsigned_abs result < 2 ^ 89 }
    ensures smaller { IsSmallerPoint point.now → unsigned_abs result < 2 ^ 79 }
{
    product(point.den(), table.worth(coalition)) - point.amount(coalition)
}
