//! Sums of players' numbers.
ghost use Rattle.std.specs.Prelude.{◌≡◌};
ghost use Rattle.std.specs.Prelude.{◌^◌, ◌<◌, ◌≤◌, pos, unsigned_abs};
ghost use Rattle.std.specs.Prelude.{length, slice_index, All};
ghost use Rattle.std.specs.List.{sum_by};
ghost use Rattle.definitions.specs.Coalitions.{sum_over};
ghost use Rattle.orders.specs.Numbers.{IsNumber};

use coalitions::Coalition;

/// Returns the sum of all numbers, as a document has them.
pub fn total(numbers: &[i64]) -> u64
    requires few { length numbers.now ≤ 64 }
    requires small { All IsNumber numbers.now }
    ensures { result ≡ sum_by unsigned_abs numbers.now }
{
    let mut total: u64 = 0;
    for z in numbers {
        total += z.unsigned_abs();
    }
    total
}

/// Returns the sum of the members' numbers.
pub fn sum_of(numbers: &[u64], s: Coalition) -> u64
    requires few { length numbers.now ≤ 64 }
    requires small { All (λ c. c < 2 ^ 40) numbers.now }
    ensures value { pos result ≡ sum_over (length numbers.now) (λ i. pos (slice_index numbers.now i)) s }
    ensures small { result < 2 ^ 46 }
{
    let mut sum: u64 = 0;
    for i in 0..numbers.len() {
        if s.contains(i as u32) {
            sum += numbers[i];
        }
    }
    sum
}
