//! Reasonable shares (Milnor 1952), by plain excess. Of any number of players.

ghost use Rattle.law_stability.specs.Reasonable.{BalancedIsReasonable, NucleolusIsReasonable, ReasonableShares};

/// At each point of the prekernel and of the kernel nobody gets more than the most that it adds to any coalition, nor
/// less than the least.
pub fn balanced_is_reasonable()
    ensures { BalancedIsReasonable }
{}

/// So by the nucleolus and by the prenucleolus nobody does.
pub fn nucleolus_is_reasonable()
    ensures { NucleolusIsReasonable }
{}

/// Examples with three who vote by majority: what one adds at most and at least, shares that are reasonable, and shares
/// that aren't.
pub fn reasonable_shares()
    ensures { ReasonableShares }
{}
