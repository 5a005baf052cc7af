//! What rules promise to those who vote by weights and a quota.

ghost use Rattle.law_answers.specs.Votes.{WhoHasMoreVotesGetsNoLess, WhoHasMoreVotesGetsNoLessByShapley};

/// By the nucleolus and the prenucleolus, plain and per head, nobody gets more than one who has more votes.
pub fn who_has_more_votes_gets_no_less()
    ensures { WhoHasMoreVotesGetsNoLess }
{}

/// By the Shapley value a player with no fewer votes has no less power (Shapley and Shubik 1954).
pub fn who_has_more_votes_gets_no_less_by_shapley()
    ensures { WhoHasMoreVotesGetsNoLessByShapley }
{}
