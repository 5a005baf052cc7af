//! Pairs of a coalition and its weight, in mask order.
ghost use Rattle.std.specs.Prelude.{◌≡◌, is_ok, if◌then◌else◌};
ghost use Rattle.kohlberg.specs.Pairs.{with_pair};

use coalitions::Coalition;
use std::alloc::AllocError;

/// Puts a coalition and its weight before the first pair with a greater mask.
///
/// Fails only if memory runs out, and then leaves the pairs as they were.
pub fn put_pair(
    pairs: &mut Vec<(Coalition, i128)>,
    s: Coalition,
    weight: i128,
) -> Result<(), AllocError>
    ensures { pairs.new.items ≡ (if is_ok result then with_pair s weight pairs.old.items else pairs.old.items) }
{
    let mut at = 0;
    while at < pairs.len() && pairs[at].0 <= s {
        at += 1;
    }
    pairs.insert(at, (s, weight))?;
    Ok(())
}
