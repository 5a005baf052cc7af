//! The game of what each buyer and each seller are worth together.
ghost use Rattle.std.specs.Prelude.{◌≡◌, ◌^◌, ◌<◌, ◌≤◌, ◌+◌, length, map, MatchResult};
ghost use Rattle.definitions.specs.Classes.{IsAssignmentGame};
ghost use Rattle.matrices.specs.Rows.{entries_of};
ghost use Rattle.assignment_games.specs.Assignments.{IsAssignment, IsRefused, seller_count, assignment_game};

use crate::values::all_values;
use coalitions::Coalition;
use matrices::{have_entries, have_length};
use std::alloc::Global;
use std::marker::Model;
use worth_core::Worth;

/// Why a matrix makes no assignment game. If several causes apply, the first of them is returned.
#[derive(Clone, Copy, Debug, PartialEq, Eq)]
pub enum AssignmentFault {
    /// There is no row, the first row is empty, or its length and the number of rows sum to more than 16.
    Players,
    /// An entry is negative, or 2^40 or more.
    Number,
    /// The rows differ in length.
    Matrix,
    /// There was no memory.
    Memory,
}

/// What each buyer and each seller are worth together, and the worth of each coalition: that of an optimal matching of
/// its members. Row `i` is buyer `i`, which is player `i`; the sellers are the players behind the buyers.
#[derive(Debug, Drop)]
pub struct AssignmentGame {
    matrix: Vec<Vec<i64>>,
    values: Vec<u64>,
}

impl Model for AssignmentGame {
    ghost use Rattle.std.specs.Prelude.{List, ℤ, ◌+◌, ◌^◌, length, map};
    ghost use Rattle.matrices.specs.Rows.{entries_of};
    ghost use Rattle.assignment_games.specs.Assignments.{IsAssignment, IsFilled, seller_count};

    ghost Value = { List (List ℤ) };

    ghost view = { λ a. map (λ row. row.items) a.matrix.items };

    ghost invariant = { λ a. let rows = map (λ row. row.items) a.matrix.items in
        IsAssignment rows
        × IsFilled (entries_of rows) (length rows) a.values.items (2 ^ (length rows + seller_count rows)) };
}

impl AssignmentGame {
    /// Makes the game of these rows: one for each buyer, with an entry for each seller, from 0 to below 2^40 as worth,
    /// and at most 16 players. Otherwise returns the first cause in the order of `AssignmentFault`. The worths of all
    /// coalitions are found here.
    pub fn new(alloc: Global, matrix: Vec<Vec<i64>>) -> Result<AssignmentGame, AssignmentFault>
        ensures { let rows = map (λ row. row.items) matrix.items in MatchResult result
            (λ game. (game ≡ rows) × IsAssignment rows
            × IsAssignmentGame (entries_of rows) (length rows) (assignment_game rows))
            (IsRefused rows) }
    {
        let buyers = matrix.len();
        if buyers < 1 || buyers > 15 {
            return Err(AssignmentFault::Players);
        }
        let sellers = matrix[0].len();
        if sellers < 1 || sellers > 16 - buyers {
            return Err(AssignmentFault::Players);
        }
        if !have_entries(&matrix) {
            return Err(AssignmentFault::Number);
        }
        if !have_length(&matrix, sellers) {
            return Err(AssignmentFault::Matrix);
        }
        let Ok(values) = all_values(alloc, &matrix, buyers as u32, sellers as u32) else {
            return Err(AssignmentFault::Memory);
        };
        Ok(AssignmentGame { matrix, values })
    }

    /// Returns the number of buyers.
    pub fn buyers(&self) -> u32
        ensures count { result ≡ length self.now }
        ensures few { result ≤ 15 }
        ensures laws { IsAssignment self.now }
        ensures optimal { IsAssignmentGame (entries_of self.now) (length self.now) (assignment_game self.now) }
    {
        self.matrix.len() as u32
    }

    /// Returns the number of sellers.
    pub fn sellers(&self) -> u32
        ensures count { result ≡ seller_count self.now }
        ensures few { result ≤ 15 }
    {
        self.matrix[0].len() as u32
    }
}

impl Worth for AssignmentGame {
    ghost use Rattle.assignment_games.specs.Assignments.{assignment_game};

    ghost game = { assignment_game };

    fn players(&self) -> u32 {
        self.buyers() + self.sellers()
    }

    fn worth(&self, s: Coalition) -> i64 {
        self.values[s.0 as usize] as i64
    }
}
