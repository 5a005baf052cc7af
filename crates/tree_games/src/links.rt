//! Whether a matrix is one of links: square, the same in both directions, and 0 from a point to itself.
ghost use Rattle.std.specs.Prelude.{◌≡◌, ◌↔◌, ℕ, ◌<◌, length, map, IsTrue};
ghost use Rattle.definitions.specs.Classes.{IsSymmetric};
ghost use Rattle.matrices.specs.Rows.{HaveEntries, HaveLength, entries_of};
ghost use Rattle.tree_games.specs.Trees.{AreLinks};

use matrices::{entry, have_length};

/// Whether the entries are those of links.
pub(crate) fn are_links(matrix: &[Vec<i64>]) -> bool
    requires { HaveEntries (map (λ row. row.items) matrix.now) }
    ensures { IsTrue result ↔ AreLinks (map (λ row. row.items) matrix.now) }
{
    have_length(matrix, matrix.len()) && is_symmetric(matrix) && is_loopless(matrix)
}

/// Whether each entry is the same in both directions.
fn is_symmetric(matrix: &[Vec<i64>]) -> bool
    requires entries { HaveEntries (map (λ row. row.items) matrix.now) }
    requires square { HaveLength (length matrix.now) (map (λ row. row.items) matrix.now) }
    ensures { IsTrue result ↔ IsSymmetric (entries_of (map (λ row. row.items) matrix.now)) }
{
    for i in 0..matrix.len() {
        if !is_turned(matrix, i) {
            return false;
        }
    }
    true
}

/// Whether row `i` and column `i` are the same.
fn is_turned(matrix: &[Vec<i64>], i: usize) -> bool
    requires entries { HaveEntries (map (λ row. row.items) matrix.now) }
    requires square { HaveLength (length matrix.now) (map (λ row. row.items) matrix.now) }
    requires row { i < length matrix.now }
    ensures { IsTrue result ↔ ((j : ℕ) → j < length matrix.now
        → entries_of (map (λ row. row.items) matrix.now) i j ≡ entries_of (map (λ row. row.items) matrix.now) j i) }
{
    for j in 0..matrix.len() {
        if entry(matrix, i, j) != entry(matrix, j, i) {
            return false;
        }
    }
    true
}

/// Whether each entry from a point to itself is 0.
fn is_loopless(matrix: &[Vec<i64>]) -> bool
    requires entries { HaveEntries (map (λ row. row.items) matrix.now) }
    requires square { HaveLength (length matrix.now) (map (λ row. row.items) matrix.now) }
    ensures { IsTrue result ↔ ((i : ℕ) → entries_of (map (λ row. row.items) matrix.now) i i ≡ 0) }
{
    for i in 0..matrix.len() {
        if entry(matrix, i, i) != 0 {
            return false;
        }
    }
    true
}
