//! The kinds of games that can be made from a number.

/// A kind of games.
#[derive(Clone, Copy, Debug, PartialEq, Eq)]
pub enum Kind {
    /// A worth for each coalition.
    Table,
    /// A cost for each player.
    Airport,
    /// An estate and a claim for each player.
    Bankruptcy,
    /// A cost for the link between each two of the source and the players.
    Tree,
    /// What each buyer and each seller are worth together.
    Assignment,
}
