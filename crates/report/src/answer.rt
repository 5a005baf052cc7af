//! What is answered to the words of a command line and the bytes of its input.
use crate::summary::Summary;
use balanced_collections::Collection;
use big_assignment::Solution;
use coalitions::Coalition;
use convexity::ConvexAnswer;
use definitions::Family;
use fractions::Frac;
use kinds::Refusal;
use kohlberg::{Certificate, Verdict};
use serde_json::Value;
use tree_games::Tree;
use worth_core::Shares;

/// Why a command has no other answer: for its words, or for the class and the players of its document.
#[derive(Clone, Copy, PartialEq, Eq)]
pub enum UsageKind {
    /// They name no command; or, behind `gen`, no kind with a number of players that it has and a seed.
    Words,
    /// The command doesn't serve the class of the document.
    Class,
    /// The command doesn't serve so many players of that class.
    Players,
}

/// What is answered.
///
/// Surpluses and deficits are worth for every class, as excesses are: only shares and sums turn their sign for costs.
#[derive(Drop)]
pub enum Answer {
    // The tree is that of the game as it was read: `read_document` gives that it can be printed, and `write_report`
    // asks it.
    /// The nucleolus or prenucleolus of the game with this JSON tree: the shares as worth, printed as payments if
    /// `is_cost`, and their certificate.
    Nucleolus {
        family: Family,
        tree: Value,
        is_cost: bool,
        shares: Shares,
        certificate: Certificate,
    },
    /// There is no imputation: the players alone are worth `singles` together, more than the `total` of all. If the
    /// numbers are costs, the players alone pay `singles` together, less than the `total` of all.
    NoImputation {
        singles: i64,
        total: i64,
    },
    /// The shares are in the core.
    InCore,
    /// The shares add to `sum`, and all players together are worth, or pay, `total`.
    NotEfficient {
        sum: Frac,
        total: i64,
    },
    /// The coalition could do better by itself, by this excess of worth.
    Blocked {
        coalition: Coalition,
        excess: Frac,
    },
    /// A point of the core: the shares as worth, printed as payments if `is_cost`.
    CorePoint {
        is_cost: bool,
        shares: Shares,
    },
    /// The core is empty: by the weights of this collection its coalitions are worth, or pay, `value` together, and all
    /// players times its `k` are worth, or pay, `against`.
    EmptyCore {
        collection: Collection,
        value: i128,
        against: i128,
    },
    /// The Shapley shares as worth, printed as payments if `is_cost`.
    Shapley {
        is_cost: bool,
        shares: Shares,
    },
    /// Bird's shares as worth, printed as payments, and the edges of his plan.
    Bird {
        shares: Shares,
        tree: Tree,
    },
    /// The Shapley and the marginal shares of a convex game as worth, printed as payments if `is_cost`; or where the
    /// game isn't convex, and how much worth is missing there.
    Convex {
        is_cost: bool,
        answer: ConvexAnswer,
    },
    /// The shares are in the prekernel.
    Prekernel,
    /// They aren't: `i` and `j` are the first players of different surpluses, `ij` of `i` against `j` and `ji` of `j`
    /// against `i`, both as worth.
    NotPrekernel {
        i: u32,
        j: u32,
        ij: Frac,
        ji: Frac,
    },
    /// The pairs of a market with their value, and the core points that are best for every buyer and for every seller.
    Matching(Solution),
    /// Whether a certificate shows that shares are the nucleolus, or why not.
    Verdict(Verdict),
    /// What is wrong with the words of the command line, or why the command doesn't take the document.
    Usage(UsageKind),
    /// The input is no document.
    Refused(Refusal),
    /// What is said of a generated game.
    Summary(Summary),
}
