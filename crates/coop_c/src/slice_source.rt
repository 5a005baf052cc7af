//! The bytes of a document, where they stand.
use ports::{Failed, Source};

/// Bytes of the host, seen as those that are left. A read never fails.
#[derive(Drop)]
pub(crate) struct SliceSource<'a> {
    left: &'a [u8],
}

impl<'a> SliceSource<'a> {
    ghost use Rattle.std.specs.Prelude.{◌≡◌};

    /// A source that gives these bytes and then ends.
    pub(crate) fn new(bytes: &'a [u8]) -> SliceSource<'a>
        ensures { result.left.now ≡ bytes.now }
    {
        SliceSource { left: bytes }
    }
}

impl Source for SliceSource<'_> {
    ghost use Rattle.std.specs.Prelude.{Some, false};

    ghost left = { λ s. Some s.left.now };

    ghost faults = { λ _. 0 };

    ghost failed = { λ _. false };

    fn read(&mut self, buf: &mut [u8]) -> Result<usize, Failed> {
        let count = self.left.len().min(buf.len());
        buf[..count].copy_from_slice(&self.left[..count]);
        self.left = &self.left[count..];
        Ok(count)
    }
}
