//! The game of a source, players, and the cost of each link.
ghost use Rattle.std.specs.Prelude.{◌≡◌, ◌-◌, ◌^◌, ◌<◌, ◌≤◌, length, map, MatchResult};
ghost use Rattle.definitions.specs.Classes.{IsTreeGame};
ghost use Rattle.matrices.specs.Rows.{entries_of};
ghost use Rattle.tree_games.specs.Trees.{IsTree, IsRefused, tree_game};

use crate::links::are_links;
use coalitions::Coalition;
use matrices::{entry, have_entries};
use std::alloc::Global;
use std::marker::Model;
use worth_core::Worth;

/// The most points: 16 players and the source.
pub(crate) const POINTS: usize = 17;

/// Why a matrix makes no tree game. If several causes apply, the first of them is returned.
#[derive(Clone, Copy, Debug, PartialEq, Eq)]
pub enum TreeFault {
    /// There aren't 2 to 17 rows: the source and 1 to 16 players.
    Players,
    /// An entry is negative, or 2^40 or more.
    Number,
    /// A row's length isn't the number of rows, an entry differs from that in the other direction, or an entry from
    /// a point to itself isn't 0.
    Matrix,
    /// There was no memory.
    /// `TreeGame::new` takes none and never gives this: it is part of a promised signature.
    Memory,
}

/// A source and players, with the cost of the link between each two. Row and column 0 are the source, and row and
/// column `i + 1` are player `i`.
#[derive(Debug, Drop)]
pub struct TreeGame {
    matrix: Vec<Vec<i64>>,
}

impl Model for TreeGame {
    ghost use Rattle.std.specs.Prelude.{List, ℤ, map};
    ghost use Rattle.tree_games.specs.Trees.{IsTree};

    ghost Value = { List (List ℤ) };

    ghost view = { λ t. map (λ row. row.items) t.matrix.items };

    ghost invariant = { λ t. IsTree (map (λ row. row.items) t.matrix.items) };
}

impl TreeGame {
    /// Makes the game of a source and 1 to 16 players from the costs of their links, each from 0 to below 2^40. The
    /// matrix is square, the same in both directions, and 0 from a point to itself. Otherwise returns the first cause
    /// in the order of `TreeFault`. It takes no memory.
    pub fn new(_alloc: Global, matrix: Vec<Vec<i64>>) -> Result<TreeGame, TreeFault>
        ensures { let rows = map (λ row. row.items) matrix.items in MatchResult result
            (λ game. (game ≡ rows) × IsTree rows × IsTreeGame (entries_of rows) (tree_game rows))
            (IsRefused rows) }
    {
        if matrix.len() < 2 || matrix.len() > POINTS {
            return Err(TreeFault::Players);
        }
        if !have_entries(&matrix) {
            return Err(TreeFault::Number);
        }
        if !are_links(&matrix) {
            return Err(TreeFault::Matrix);
        }
        Ok(TreeGame { matrix })
    }

    /// Returns the number of points: the players and the source.
    pub fn points(&self) -> u32
        ensures count { result ≡ length self.now }
        ensures some { 2 ≤ result }
        ensures few { result ≤ 17 }
        ensures laws { IsTree self.now }
        ensures class { IsTreeGame (entries_of self.now) (tree_game self.now) }
    {
        self.matrix.len() as u32
    }

    /// Returns the cost of the link between points `i` and `j`. Point 0 is the source, and point `i + 1` is player `i`.
    pub fn cost(&self, i: u32, j: u32) -> u64
        requires row { i < length self.now }
        requires column { j < length self.now }
        ensures value { result ≡ entries_of self.now i j }
        ensures small { result < 2 ^ 40 }
    {
        entry(&self.matrix, i as usize, j as usize)
    }
}

impl Worth for TreeGame {
    ghost use Rattle.tree_games.specs.Trees.{tree_game};

    ghost game = { tree_game };

    fn players(&self) -> u32 {
        self.points() - 1
    }

    /// Found by Prim's steps over fixed arrays.
    fn worth(&self, s: Coalition) -> i64 {
        -(self.least_cost(s) as i64)
    }
}
