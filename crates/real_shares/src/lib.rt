//! The nucleolus, the core and the prekernel when shares are real numbers, or numbers of any linearly ordered abelian
//! group. Each function's contract is a theorem, and its body is empty.
#![tactic(auto)]

ghost use Rattle.real_shares.specs.Theorems.{SoundOverGroups, SoundForReals, RealsAreOrdered, RealsAreThere};
ghost use Rattle.real_shares.specs.Theorems.{FractionsAreOrdered, FractionsAreShares, PairsAreOrdered};
ghost use Rattle.real_shares.specs.Theorems.{CollectionsBlockOverGroups, CollectionsBlockForReals};
ghost use Rattle.real_shares.specs.Theorems.{CorePointsForReals, PrekernelForReals, OneAmongReals, UnbeatenIsSame};

/// A certificate that meets its form and its conditions certifies the nucleolus over every linearly ordered abelian
/// group with a unit above zero, for both families (Schmeidler 1969, Kohlberg 1971): of any number of players in mode
/// players, and of at most 16 in mode span, as the form asks, and for excess per head.
pub fn certificates_are_sound_over_groups()
    ensures { SoundOverGroups }
{}

/// The shares of a certificate that meets its form and its conditions, written as real numbers, are the nucleolus among
/// real shares.
pub fn certificates_are_sound_for_reals()
    ensures { SoundForReals }
{}

/// The real numbers are a linearly ordered abelian group with a unit above zero.
pub fn reals_are_ordered()
    ensures { RealsAreOrdered }
{}

/// If excluded middle holds of the order of each two real numbers, there are such numbers.
pub fn reals_are_there()
    ensures { RealsAreThere }
{}

/// The fractions over a common denominator are a linearly ordered abelian group with a unit above zero.
pub fn fractions_are_ordered()
    ensures { FractionsAreOrdered }
{}

/// The nucleolus among fractions is the nucleolus over the groups of fractions over a common denominator: one theorem
/// on groups covers both.
pub fn fractions_are_shares()
    ensures { FractionsAreShares }
{}

/// Pairs of integers, by the first and then by the second, are a linearly ordered abelian group with a unit above zero,
/// and not one of fractions.
pub fn pairs_are_ordered()
    ensures { PairsAreOrdered }
{}

/// No core point stands beside a balanced collection of excess worth, over every linearly ordered abelian group with a
/// unit above zero (Bondareva 1963, Shapley 1967).
pub fn collections_block_over_groups()
    ensures { CollectionsBlockOverGroups }
{}

/// No core point in real shares stands beside a balanced collection of excess worth.
pub fn collections_block_for_reals()
    ensures { CollectionsBlockForReals }
{}

/// A core point in fractions, written as real numbers, is a core point in real shares.
pub fn core_points_for_reals()
    ensures { CorePointsForReals }
{}

/// Shares in fractions that lie in the prekernel lie there among real shares.
pub fn prekernel_for_reals()
    ensures { PrekernelForReals }
{}

/// A game has at most one nucleolus in a family among real shares.
pub fn nucleolus_is_unique_for_reals()
    ensures { OneAmongReals }
{}

/// A member of the family over a group that the nucleolus does not beat has the shares of the nucleolus.
pub fn unbeaten_is_same()
    ensures { UnbeatenIsSame }
{}
