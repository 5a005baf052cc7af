//! Where a number stands in a table of 256. The places whose numbers have the same lowest bits are chained, so that few
//! places are looked at.

ghost use Rattle.std.specs.Prelude.{◌≡◌, ◌↔◌, ◌&&◌, ◌||◌, IsTrue, nat_eq, ℕ, ◌<◌};
ghost use Rattle.spans.specs.Outside.{is_marked};
ghost use Rattle.spans.specs.Places.{slot_of, ArePlaces};
ghost use Rattle.spans.specs.Sums.{number_at};

use coalitions::Coalition;

/// The places of a table's numbers in chains, one for each slot of numbers: the last place of each slot, and before
/// each place the last one of its slot. A place counts from 1 here, and 0 ends a chain.
#[derive(Drop)]
pub(crate) struct NumberPlaces {
    pub(crate) last: [u16; 1024],
    pub(crate) before: [u16; 256],
}

/// The slot of a number, which is the same for equal numbers.
pub(crate) fn slot(number: i64) -> usize
    ensures within { result < 1024 }
    ensures value { result ≡ slot_of number }
{
    (number.cast_unsigned() % 1024) as usize
}

/// The slot of the number at a place.
fn slot_at(numbers: &[i64; 256], place: usize) -> usize
    requires { place < 256 }
    ensures within { result < 1024 }
    ensures value { result ≡ slot_of (number_at numbers.now place) }
{
    slot(numbers[place])
}

/// Whether a number stands at a place.
pub(crate) fn stands_at(numbers: &[i64; 256], place: usize, number: i64) -> bool
    requires { place < 256 }
    ensures { IsTrue result ↔ (number_at numbers.now place ≡ number) }
{
    numbers[place] == number
}

/// Sets the bit of a place if the test holds.
fn mark_if(found: &mut [u64; 4], place: usize, holds: bool)
    requires { place < 256 }
    ensures { (i : ℕ) → i < 256 → is_marked found.new i ≡ ((nat_eq i place && holds) || is_marked found.old i) }
{
    if holds {
        found[place / 64] = Coalition(found[place / 64]).with((place % 64) as u32).0;
    }
}

impl NumberPlaces {
    /// The places of a table's numbers.
    pub(crate) fn of(numbers: &[i64; 256]) -> NumberPlaces
        ensures { ArePlaces numbers.now result.last result.before }
    {
        let mut last = [0; 1024];
        let mut before = [0; 256];
        for place in 0..256usize {
            let slot = slot_at(numbers, place);
            before[place] = last[slot];
            last[slot] = place as u16 + 1;
        }
        NumberPlaces { last, before }
    }

    /// The places where a number stands in the table, from 0 on, a bit for each.
    pub(crate) fn find(&self, numbers: &[i64; 256], wanted: i64) -> [u64; 4]
        requires { ArePlaces numbers.now self.now.last self.now.before }
        ensures { (i : ℕ) → i < 256 → (IsTrue (is_marked result i) ↔ (number_at numbers.now i ≡ wanted)) }
    {
        let mut found = [0; 4];
        let mut after = self.last[slot(wanted)] as usize;
        while after > 0 {
            let place = after - 1;
            mark_if(&mut found, place, stands_at(numbers, place, wanted));
            after = self.before[place] as usize;
        }
        found
    }
}
