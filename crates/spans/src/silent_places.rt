//! The coalitions of a block whose two sums add to 0. Blocks that have the same number in the second table have them at
//! the same places, so they are looked for once.

ghost use Rattle.std.specs.Prelude.{◌≡◌, ◌↔◌, IsTrue, ℕ, ◌^◌, ◌<◌, ◌≤◌, pos, ◌-ℤ◌, unsigned_abs, slice_index_or};
ghost use Rattle.spans.specs.Outside.{is_marked};
ghost use Rattle.spans.specs.Places.{ArePlaces, AreKnown};
ghost use Rattle.spans.specs.Sums.{number_at};

use crate::number_places::{NumberPlaces, slot, stands_at};
use crate::player_sums::PlayerSums;

/// The places of the first table, and those that were found for blocks: in each of 64 slots the latest block, from 1
/// on, and its places.
#[derive(Drop)]
pub(crate) struct SilentPlaces {
    places: NumberPlaces,
    latest: [u16; 64],
    found: [[u64; 4]; 64],
}

impl SilentPlaces {
    /// The places of sums, of which none is found for a block yet.
    pub(crate) fn of(sums: &PlayerSums) -> SilentPlaces
        ensures places { ArePlaces sums.now.low result.places.last result.places.before }
        ensures known { AreKnown sums.now.low sums.now.high result.latest result.found }
    {
        SilentPlaces {
            places: NumberPlaces::of(&sums.low),
            latest: [0; 64],
            found: [[0; 4]; 64],
        }
    }

    /// The places in a block of the coalitions whose two sums add to 0, a bit for each.
    pub(crate) fn of_block(&mut self, sums: &PlayerSums, block: usize) -> [u64; 4]
        requires block { block < 256 }
        requires small { (a : ℕ) → a < 256 → unsigned_abs (slice_index_or sums.now.high a (pos 0)) ≤ 2 ^ 61 }
        requires places { ArePlaces sums.now.low self.old.places.last self.old.places.before }
        requires known { AreKnown sums.now.low sums.now.high self.old.latest self.old.found }
        ensures places { ArePlaces sums.now.low self.new.places.last self.new.places.before }
        ensures known { AreKnown sums.now.low sums.now.high self.new.latest self.new.found }
        ensures found { (i : ℕ) → i < 256 → (IsTrue (is_marked result i)
            ↔ (number_at sums.now.low i ≡ pos 0 -ℤ slice_index_or sums.now.high block (pos 0))) }
    {
        let wanted = -sums.high[block];
        let slot = slot(wanted) % 64;
        let latest = self.latest[slot] as usize;
        if latest > 0 && stands_at(&sums.high, block, sums.high[latest - 1]) {
            return self.found[slot];
        }
        let found = self.places.find(&sums.low, wanted);
        self.latest[slot] = block as u16 + 1;
        self.found[slot] = found;
        found
    }
}
