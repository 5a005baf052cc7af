//! The coalition of greatest excess among those that a scan has seen.
ghost use Rattle.std.specs.Prelude.{◌≡◌, Some, None, pos, ◌<ℤ◌, ◌≤ℤ◌};

use coalitions::Coalition;

/// The first coalition with the greatest positive excess so far, and that excess; none and 0 before there is one.
#[derive(Clone, Copy, Debug)]
pub struct Best {
    pub coalition: Option<Coalition>,
    pub excess: i128,
}

impl Best {
    /// Returns no coalition, as before the first one is seen.
    pub fn none() -> Best
        ensures coalition { result.coalition ≡ None }
        ensures excess { result.excess ≡ pos 0 }
    {
        Best {
            coalition: None,
            excess: 0,
        }
    }

    /// Returns the coalition with that excess if its excess is greater, and otherwise what was best before.
    pub fn or(self, s: Coalition, excess: i128) -> Best
        ensures more { self.excess <ℤ excess → (result.coalition ≡ Some s) × (result.excess ≡ excess) }
        ensures no_more { excess ≤ℤ self.excess → (result.coalition ≡ self.coalition) × (result.excess ≡ self.excess) }
    {
        if excess > self.excess {
            Best {
                coalition: Some(s),
                excess,
            }
        } else {
            self
        }
    }
}
