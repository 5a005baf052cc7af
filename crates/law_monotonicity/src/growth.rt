//! What players get if all together, or one coalition, are worth more, or less, and every other coalition is worth what
//! it was: of a joint cost, who pays for an overrun (Megiddo 1974; Young, Okada and Hashimoto 1982; of one coalition
//! Zhou 1991).

ghost use Rattle.law_monotonicity.specs.Growth.{PerHeadEachGetsAnEqualPart, ShapleyEachGetsAnEqualPart};
ghost use Rattle.law_monotonicity.specs.Growth.{WithCoresTheNucleolusDoes};
ghost use Rattle.law_monotonicity.specs.Growth.{WhoGetsLessOfMore, WhoGrowGetNoLess, EachWhoGrowsGetsNoLess};

/// The prenucleolus per head gives each of n players, at most 16, exactly d/n more if all together are worth d more. So
/// an overrun is shared equally, and nobody gains from it (Young, Okada and Hashimoto 1982).
pub fn per_head_each_gets_an_equal_part()
    ensures { PerHeadEachGetsAnEqualPart }
{}

/// If both games have core points, the nucleolus per head gives each of n players, at most 16, exactly d/n more if all
/// together are worth d more.
pub fn with_cores_the_nucleolus_does()
    ensures { WithCoresTheNucleolusDoes }
{}

/// The Shapley value gives each of n players, of any number, exactly d/n more if all together are worth d more.
pub fn shapley_each_gets_an_equal_part()
    ensures { ShapleyEachGetsAnEqualPart }
{}

/// By the plain nucleolus somebody may get less if all together are worth more, though the game is convex and stays so.
/// (Megiddo 1974, with nine players; for convex games Hokari 2000. In this one 1 and 2 are worth 1, and 1, 3 and 4 are
/// worth 2. Of 3 player 1 gets 7/6, and of 4 it gets 1.)
pub fn who_gets_less_of_more()
    ensures { WhoGetsLessOfMore }
{}

/// If one coalition is worth more, and nothing else changes, its members together get no less, by the nucleolus and the
/// prenucleolus, plain and per head (Zhou 1991).
pub fn who_grow_get_no_less()
    ensures { WhoGrowGetNoLess }
{}

/// If one coalition is worth more, and nothing else changes, the Shapley value gives each of its members no less, and
/// each other player no more (Young 1985).
pub fn each_who_grows_gets_no_less()
    ensures { EachWhoGrowsGetsNoLess }
{}
