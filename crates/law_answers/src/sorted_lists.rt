//! What the lists mean that the nucleolus compares.

ghost use Rattle.law_answers.specs.SortedLists.{SortedIsTheSorting, LeavingOutChangesNothing, NucleolusAmongAll};

/// The sorted list holds the same numbers, each as often, and falls; and no other list does both.
pub fn sorted_is_the_sorting()
    ensures { SortedIsTheSorting }
{}

/// Of two efficient allocations the one beats the other over the proper coalitions exactly if it does over all
/// coalitions: leaving out the empty coalition and that of all changes no comparison.
pub fn leaving_out_changes_nothing()
    ensures { LeavingOutChangesNothing }
{}

/// The nucleolus over the proper coalitions is the nucleolus over all coalitions (Schmeidler 1969).
pub fn nucleolus_among_all()
    ensures { NucleolusAmongAll }
{}
