//! Games whose worths are real numbers, and shares that are: laws of the textbook to the letter (Schmeidler 1969; Peleg
//! and Sudhölter, Introduction to the Theory of Cooperative Games), by plain excess. Each function's contract is a
//! theorem, and its body is empty. The lemmas are of numbers of any linearly ordered abelian group. No crate of the
//! program needs them.
#![tactic(auto)]

ghost use Rattle.law_real_worths.specs.RealWorths.{NucleolusIsUnique, UnbeatenIsNucleolus, NucleolusIsInCore};
ghost use Rattle.law_real_worths.specs.RealWorths.{WithACoreBothAreOne, WhoAddsNoLessGetsNoLess, AlikePlayersGetAlike};
ghost use Rattle.law_real_worths.specs.RealWorths.{DummiesGetTheirWorth, RealsCanHalve, EquivalentGamesAgree};
ghost use Rattle.law_real_worths.specs.RealWorths.{FactorsAreChanges, ChangesAreOne};
ghost use Rattle.law_real_worths.specs.WholeWorths.{WholeWorthsAgree};
ghost use Rattle.law_real_worths.specs.Existence.{NucleoliExist, PrenucleoliExist, ImputationsExist};
ghost use Rattle.law_real_worths.specs.KohlbergTheorem.{KohlbergTheorem};
ghost use Rattle.law_real_worths.specs.Examples.{TwoShare, DoublingIsAChange, IntegersCantHalve, SomeAddNoLess};
ghost use Rattle.law_real_worths.specs.Examples.{SinglesBalance};

/// If the worths are whole numbers, times the unit, the families, the nucleolus and the core are those among real
/// shares that other laws speak of. A player who adds no less, is interchangeable or is a dummy stays so.
pub fn whole_worths_agree()
    ensures { WholeWorthsAgree }
{}

/// Two nucleoli of one game and family have the same shares.
pub fn nucleolus_is_unique()
    ensures { NucleolusIsUnique }
{}

/// A member of the family that no other member comes before is the nucleolus, and the nucleolus is such a member: so
/// the least list of excesses belongs to one member alone (Schmeidler 1969).
pub fn unbeaten_is_nucleolus()
    ensures { UnbeatenIsNucleolus }
{}

/// If there is an imputation, one is the nucleolus, and if there is a preimputation, one is the prenucleolus
/// (Schmeidler 1969).
pub fn nucleoli_exist()
    ensures { NucleoliExist }
{}

/// Each game with a player has a prenucleolus.
pub fn prenucleoli_exist()
    ensures { PrenucleoliExist }
{}

/// There is an imputation exactly if the players alone aren't worth more than all together.
pub fn imputations_exist()
    ensures { ImputationsExist }
{}

/// If the core isn't empty, the nucleolus and the prenucleolus lie in it.
pub fn nucleolus_is_in_core()
    ensures { NucleolusIsInCore }
{}

/// If the core isn't empty, the prenucleolus and the nucleolus are one.
pub fn with_a_core_both_are_one()
    ensures { WithACoreBothAreOne }
{}

/// By the nucleolus and the prenucleolus a player that adds no less than another to each coalition without both gets no
/// less.
pub fn who_adds_no_less_gets_no_less()
    ensures { WhoAddsNoLessGetsNoLess }
{}

/// Players that a game doesn't tell apart get the same.
pub fn alike_players_get_alike()
    ensures { AlikePlayersGetAlike }
{}

/// A player that adds its worth alone to each coalition without it gets exactly that.
pub fn dummies_get_their_worth()
    ensures { DummiesGetTheirWorth }
{}

/// Each real number is twice a real number: so shares can be made equal.
pub fn reals_can_halve()
    ensures { RealsCanHalve }
{}

/// A change of the unit, and of what each player brings of its own, changes the nucleolus by the same.
pub fn equivalent_games_agree()
    ensures { EquivalentGamesAgree }
{}

/// Each real factor that isn't below some 1 / k, as each above zero is, is a change of the unit: what a unit becomes is
/// the factor.
pub fn factors_are_changes()
    ensures { FactorsAreChanges }
{}

/// Two changes of the unit that make the unit the same number change each number alike: a change is determined by its
/// factor.
pub fn changes_are_one()
    ensures { ChangesAreOne }
{}

/// Kohlberg's theorem (Kohlberg 1971; for the prenucleolus Sobolev 1975): shares that add to the worth of all are the
/// prenucleolus exactly if, for each coalition, those of at least its excess are balanced.
pub fn kohlberg()
    ensures { KohlbergTheorem }
{}

/// Two players who are worth a real number above zero together, and nothing alone, get half each; all for the first is
/// no nucleolus, and twice all for the first no core point.
pub fn two_share()
    ensures { TwoShare }
{}

/// Twice each number is a change of the unit, and zero for each isn't.
pub fn doubling_is_a_change()
    ensures { DoublingIsAChange }
{}

/// The integer 1 isn't twice an integer.
pub fn integers_cant_halve()
    ensures { IntegersCantHalve }
{}

/// If only the second of two players is worth something alone, it adds no less than the first, which adds less, so they
/// aren't interchangeable. If nobody is worth anything, the first is a dummy.
pub fn some_add_no_less()
    ensures { SomeAddNoLess }
{}

/// The players alone are balanced, and one of two isn't.
pub fn singles_balance()
    ensures { SinglesBalance }
{}
