//! Shapley shares if others join the players of a game. Each function's contract is a theorem, and its body is empty.

ghost use Rattle.law_answers.specs.Newcomers.{NewcomersGiveNobodyLess, WhoAddNothingCanGo, ContributionsAreBalanced};
ghost use Rattle.law_answers.specs.Newcomers.{BalancedSharesAreShapley, BalancedSharesExist, TwoWhoAgree};

/// If a game is convex, Shapley shares give none of the first players less than in the game of these players alone:
/// newcomers make nobody pay more (Sprumont 1990).
pub fn newcomers_give_nobody_less()
    ensures { NewcomersGiveNobodyLess }
{}

/// If all but the first players of a game add nothing, Shapley shares give each of the first what they give in the game
/// of these players alone.
pub fn who_add_nothing_can_go()
    ensures { WhoAddNothingCanGo }
{}

/// What a Shapley share falls by if another player never came is what the other's falls by if the first never came
/// (Myerson 1980).
pub fn contributions_are_balanced()
    ensures { ContributionsAreBalanced }
{}

/// If shares for each coalition of a game give its members together what it is worth, and any two members of it lose
/// alike if the other leaves, then all players get their Shapley shares (Myerson 1980).
pub fn balanced_shares_are_shapley()
    ensures { BalancedSharesAreShapley }
{}

/// Each game in which the empty coalition is worth nothing has such shares.
pub fn balanced_shares_exist()
    ensures { BalancedSharesExist }
{}

/// Two who have to agree lose alike with halves, and not if one takes all.
pub fn two_who_agree()
    ensures { TwoWhoAgree }
{}
