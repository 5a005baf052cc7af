//! The greatest cost.
ghost use Rattle.std.specs.Prelude.{◌≡◌, ◌^◌, ◌<◌, length, slice_index};
ghost use Rattle.definitions.specs.Classes.{greatest_cost};

use coalitions::Coalition;
use orders::Ordered;

/// The greatest cost among the members, 0 for nobody.
pub(crate) fn greatest(costs: &Ordered, s: Coalition) -> u64
    ensures value { result ≡ greatest_cost (length costs.now.numbers) (slice_index costs.now.numbers) s }
    ensures small { result < 2 ^ 40 }
{
    let mut most: u64 = 0;
    for i in 0..costs.len() {
        let cost = costs.number(i);
        if s.contains(i) && most < cost {
            most = cost;
        }
    }
    most
}
