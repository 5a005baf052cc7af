//! What is kept when a JSON tree is written and read. Each function's contract is a theorem, and its body is empty.
#![tactic(auto)]

ghost use Rattle.json_texts.specs.Exact.{WrittenIsReadBack, ReadIsOrdered, OrderedIsExact};
ghost use Rattle.json_texts.specs.Exact.{WrittenIsNoLonger, MembersKeep};

/// What is written for a tree without floats is read as that tree.
pub fn written_is_read_back()
    ensures { WrittenIsReadBack }
{}

/// A tree that was read is ordered, and nested no deeper than is read.
pub fn read_is_ordered()
    ensures { ReadIsOrdered }
{}

/// An ordered tree without a float is exact.
pub fn ordered_is_exact()
    ensures { OrderedIsExact }
{}

/// Writing a tree that was read takes at most the bytes of its text.
pub fn written_is_no_longer()
    ensures { WrittenIsNoLonger }
{}

/// A member of an ordered object is ordered, nested less deep, and written in fewer bytes.
pub fn members_keep()
    ensures { MembersKeep }
{}
