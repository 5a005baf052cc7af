//! Reasonable shares (Milnor 1952). Of any number of players.

ghost use Rattle.law_answers.specs.Reasonable.{ShapleyIsReasonable, PerHeadMayGiveLess};

/// By Shapley shares nobody gets more than the most that it adds to any coalition, nor less than the least.
pub fn shapley_is_reasonable()
    ensures { ShapleyIsReasonable }
{}

/// In some game the prenucleolus per head gives a player less than the least that it adds to any coalition.
pub fn per_head_may_give_less()
    ensures { PerHeadMayGiveLess }
{}
