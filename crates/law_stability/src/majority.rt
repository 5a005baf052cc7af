//! Small votes as examples: shares that lie in the sets of this crate, and shares that don't.

ghost use Rattle.law_stability.specs.Majority.{MajorityShares, MajorityObjections};
ghost use Rattle.law_stability.specs.TwoVoters.{TwoVoters};

/// If three vote by majority, a third each lies in the kernel, in the bargaining set and in the least core. If the
/// first is to have all, the shares lie in none of the three.
pub fn majority_shares()
    ensures { MajorityShares }
{}

/// Examples with three who vote by majority: who outweighs whom, an objection that can't be countered, one that can,
/// and the greatest excess; and a case of each that doesn't hold.
pub fn majority_objections()
    ensures { MajorityObjections }
{}

/// Examples with two voters: a game in which joining does no harm, and one in which it does; shares that are free of
/// subsidies, and shares that aren't.
pub fn two_voters()
    ensures { TwoVoters }
{}
