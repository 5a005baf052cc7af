ghost use Rattle.std.specs.Prelude.{◌≡◌, ℕ, List, Option, Bool, is_err};
ghost use Rattle.std.specs.Io.{ReadsAtMost};
ghost use Rattle.std.specs.Io.KnownBytes.{ReadConsumes};
ghost use Rattle.ports.specs.Causes.{HasCause};

use crate::Failed;

/// Where bytes come from.
pub trait Source {
    // The bytes that weren't read yet, if the source tells them.
    ghost left: { Self → Option (List ℕ) };
    // How often a read failed, one a failure, up to 2^64 - 1, where it stays.
    ghost faults: { Self → ℕ };
    // Whether the last read failed.
    ghost failed: { Self → Bool };

    /// Reads bytes into the front of `buf`, and returns their number.
    ///
    /// Returning 0 for a buffer that isn't empty says that the input has ended. Fails only if the count of faults rises
    /// by one or is at its last value, and then keeps the bytes that are left.
    fn read(&mut self, buf: &mut [u8]) -> Result<usize, Failed>
        ensures bound { ReadsAtMost result buf.new }
        ensures bytes { ReadConsumes (left self.old) (left self.new) result buf.new }
        ensures cause { HasCause (faults self.old) (faults self.new) result }
        ensures last { failed self.new ≡ is_err result };
}
