//! A decoder over a slice, whose bytes a caller may see before they are read.

ghost use Rattle.std.specs.Prelude.{◌≡◌, ◌+◌, ◌<◌, ◌≤◌, ◌^◌, List, ℕ, IfSome, None, Some, length, take};
ghost use Rattle.ciborium_ll_decoder.specs.Decoding.{MovesOn, ReadsPast, offset_of, reader_of, view, waiting_of};

use crate::dec::Decoder;
use ciborium_ll_io::io::{Read, SliceReader};

impl<'a> Decoder<SliceReader<'a>> {
    /// Returns the bytes that are left. A header that waits is not among them.
    pub fn left(&self) -> &[u8]
        ensures view { waiting_of self.now ≡ None → view ⟦<SliceReader<'a> as Read>⟧ self.now ≡ Some result.now }
        ensures reader { ⟦<SliceReader<'a> as Read>⟧.ahead (reader_of self.now) ≡ Some result.now }
    {
        self.reader.left()
    }

    /// Gives up the first `len` bytes that are left, as if a caller had read them. No header may wait.
    pub fn consume(&mut self, len: usize)
        requires none_waits { waiting_of self.old ≡ None }
        requires within { IfSome (view ⟦<SliceReader<'a> as Read>⟧ self.old) (λ left. len ≤ length left) }
        requires fits { offset_of self.old + len < 2 ^ 64 }
        ensures passed { (left : List ℕ) → view ⟦<SliceReader<'a> as Read>⟧ self.old ≡ Some left
            → ReadsPast ⟦<SliceReader<'a> as Read>⟧ self.old (take len left) self.new }
        ensures moves_on { MovesOn ⟦<SliceReader<'a> as Read>⟧ self.old self.new }
    {
        self.reader.consume(len);
        self.offset += len;
    }
}
