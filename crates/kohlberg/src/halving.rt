//! Looking for a coalition by halving, which finds it wherever the masks ascend.
ghost use Rattle.std.specs.Prelude.{IsTrue, nat_eq};
ghost use Rattle.std.specs.List.{list_any};
ghost use Rattle.definitions.specs.Certificates.{is_listed};

use crate::levels::Level;
use coalitions::Coalition;

/// Whether halving finds the coalition in the pairs.
///
/// If their masks ascend, it finds each coalition that is in them; otherwise it may miss some.
fn is_found(pairs: &[(Coalition, i128)], s: Coalition) -> bool
    ensures { IsTrue result → IsTrue (list_any (λ c. nat_eq c.0 s) pairs.now) }
{
    pairs.binary_search_by_key(&s.0, |(t, _)| t.0).is_ok()
}

/// Whether halving finds the coalition in some level.
pub(crate) fn is_found_in(levels: &[Level], s: Coalition) -> bool
    ensures { IsTrue result → IsTrue (is_listed levels.now s) }
{
    for l in levels {
        if is_found(&l.coalitions, s) {
            return true;
        }
    }
    false
}
