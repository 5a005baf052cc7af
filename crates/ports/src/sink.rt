ghost use Rattle.std.specs.Prelude.{◌≡◌, ℕ, List, Option, Bool};
ghost use Rattle.ports.specs.Writes.{IsWrite};

use crate::Failed;

/// Where bytes go to.
pub trait Sink {
    // The bytes taken so far, if the sink tells them.
    ghost taken: { Self → Option (List ℕ) };
    // How often a write failed, one a failure, up to 2^64 - 1, where it stays.
    ghost faults: { Self → ℕ };
    // Whether the last write failed.
    ghost failed: { Self → Bool };
    // A number by which its owner knows the sink again, if it holds memory of its owner: no write changes it.
    // Without it a contract over every sink says only what was taken, not that it is in the memory lent to the sink.
    ghost mark: { Self → ℕ } = { λ _. 0 };

    /// Takes bytes from the front of `piece`, at least one if there is one, and returns their number.
    ///
    /// Fails only if the count of faults rises by one or is at its last value, and then keeps what was taken.
    fn write(&mut self, piece: &[u8]) -> Result<usize, Failed>
        ensures write { IsWrite (taken self.old) (taken self.new) (faults self.old) (faults self.new) (failed self.new)
            result piece.now }
        ensures same_sink { mark self.new ≡ mark self.old };
}
