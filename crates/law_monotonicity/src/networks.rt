//! Networks whose links all cost more by one factor (Bird 1976).

ghost use Rattle.law_monotonicity.specs.BirdShares.{BirdTimes};

/// If each link costs k times as much, the Bird plan is the same, and each player pays k times as much (Bird 1976).
pub fn bird_times()
    ensures { BirdTimes }
{}
