//! What levels fix, carried from level to level.

ghost use Rattle.std.specs.Prelude.{◌≡◌, ◌⊎◌, ◌&&◌, not};
ghost use Rattle.std.specs.Prelude.{ℕ, ◌<◌, ◌≤◌, nat_lt};
ghost use Rattle.std.specs.Prelude.{◌++◌, [], List};
ghost use Rattle.std.specs.List.{AllByRecursion};
ghost use Rattle.definitions.specs.Coalitions.{has_player};
ghost use Rattle.definitions.specs.Certificates.{Level as LevelData, is_fixed};
ghost use Rattle.kohlberg.specs.Extends.{IsOf};
ghost use Rattle.checker.specs.Fixed.{mode_of, IsOver, Fixes};

use coalitions::Coalition;
use definitions::Mode;
use kohlberg::{Level, add_levels};
use spans::{Outside, Span};

/// What levels fix, by the mode of the certificate.
#[derive(Drop)]
pub(crate) enum Fixed {
    /// Of the players, those that no level fixes.
    FreePlayers(Coalition),
    /// Of the vectors, the span of those that levels fix; and the coalitions outside of it.
    Vectors(Span, Outside),
}

impl Fixed {
    /// What no level at all fixes.
    #[inline(never)] // So that no caller holds a span of its own beside it.
    pub(crate) fn nothing_fixed(mode: Mode, n: u32) -> Fixed
        requires some { 1 ≤ n }
        requires small { n ≤ 64 }
        requires few { (mode ≡ Mode.Players) ⊎ (n ≤ 16) }
        ensures mode { mode_of result ≡ mode }
        ensures fixes { Fixes n [] result }
    {
        match mode {
            Mode::Players => Fixed::FreePlayers(Coalition::all(n)),
            Mode::Span => {
                let span = Span::new(n);
                let mut proper = Outside::all(n);
                proper.clear(&span);
                Fixed::Vectors(span, proper)
            }
        }
    }

    /// What these levels fix too.
    #[inline(never)]
    pub(crate) fn fix(&mut self, n: u32, levels: &[Level])
        requires small { n ≤ 64 }
        requires over { IsOver n self.old }
        requires within { AllByRecursion (IsOf n) levels.now }
        ensures mode { mode_of self.new ≡ mode_of self.old }
        ensures fixes { (front : List LevelData) → Fixes n front self.old → Fixes n (front ++ levels.now) self.new }
    {
        match self {
            Fixed::FreePlayers(free) => *free = still_free(*free, n, levels),
            Fixed::Vectors(span, outside) => {
                add_levels(span, levels);
                outside.clear(span);
            }
        }
    }
}

/// Whether levels fix a player: it alone, all but it, or its bound.
fn is_fixed(n: u32, levels: &[Level], i: u32) -> bool
    requires few { n ≤ 64 }
    requires player { i < n }
    ensures { result ≡ is_fixed n levels.now i }
{
    let singleton = Coalition::single(i);
    Level::is_listed(levels, singleton)
        || Level::is_listed(levels, singleton.complement(n))
        || Level::has_bound(levels, i)
}

/// The players of a coalition that levels don't fix.
fn still_free(free: Coalition, n: u32, levels: &[Level]) -> Coalition
    requires { n ≤ 64 }
    ensures { (i : ℕ) → has_player result i ≡ (has_player free i && not (nat_lt i n && is_fixed n levels.now i)) }
{
    let mut still = free;
    for i in 0..n {
        if is_fixed(n, levels, i) {
            still = still.without(i);
        }
    }
    still
}
