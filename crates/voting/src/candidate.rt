//! Sets of greatest sum, and of those with the same the one with the least mask.
ghost use Rattle.std.specs.Prelude.{◌≡◌, ◌^◌, ◌<◌, ◌+◌, ◌*◌, ◌≤◌, IfSome, IsSome, unsigned_abs};
ghost use Rattle.voting.specs.Candidates.{better, joined, raised, chosen_of, IsSmallCandidate};

use coalitions::Coalition;

/// A set of players, and a sum over its members.
#[derive(Clone, Copy, Debug)]
pub(crate) struct Candidate {
    pub(crate) sum: i128,
    pub(crate) coalition: Coalition,
}

/// The candidate of greater sum, and of two with the same the one with the lesser mask, if there are any.
pub(crate) fn better_of(c: Option<Candidate>, d: Option<Candidate>) -> Option<Candidate>
    ensures { result ≡ better c d }
{
    match (c, d) {
        (Some(c), Some(d)) => Some(if c.is_behind(&d) { d } else { c }),
        (None, d) => d,
        (c, None) => c,
    }
}

/// The candidate with one player more, whose mask is above its own.
pub(crate) fn with_player(c: Option<Candidate>, i: u32, number: i128) -> Option<Candidate>
    requires player { i < 32 }
    requires number { unsigned_abs number < 2 ^ 110 }
    requires small { IfSome c (IsSmallCandidate i) }
    ensures value { result ≡ joined c i number }
    ensures small { IfSome result (IsSmallCandidate (i + 1)) }
{
    let c = c?;
    Some(Candidate {
        sum: c.sum + number,
        coalition: c.coalition.with(i),
    })
}

/// The candidate with a number added to its sum.
pub(crate) fn plus(c: Option<Candidate>, number: i128) -> Option<Candidate>
    requires number { unsigned_abs number < 2 ^ 110 }
    requires small { IfSome c (IsSmallCandidate 32) }
    ensures value { result ≡ raised c number }
{
    let c = c?;
    Some(Candidate {
        sum: c.sum + number,
        coalition: c.coalition,
    })
}

/// The coalition of a candidate whose sum is positive.
pub(crate) fn chosen(c: Option<Candidate>) -> Option<Coalition>
    ensures { result ≡ chosen_of c }
{
    match c {
        Some(c) if c.sum > 0 => Some(c.coalition),
        _ => None,
    }
}

/// The sum of a candidate that is there.
pub(crate) fn sum_of(c: Option<Candidate>) -> i128
    requires { IsSome c }
    ensures { IfSome c (λ c. result ≡ c.sum) }
{
    c.unwrap().sum
}

impl Candidate {
    ghost use Rattle.voting.specs.Candidates.{is_behind};

    /// Whether the other has a greater sum, or the same and a lesser mask.
    fn is_behind(&self, other: &Candidate) -> bool
        ensures { result ≡ is_behind self.now other.now }
    {
        self.sum < other.sum || (self.sum == other.sum && other.coalition < self.coalition)
    }
}
