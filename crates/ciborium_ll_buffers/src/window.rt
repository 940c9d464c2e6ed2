//! Bytes that wait in a part of a slice.

ghost use Rattle.std.specs.Prelude.{◌≡◌, ◌+◌, ◌≤◌, ◌<◌, ◌++◌, ℕ, List, [], IfOk, OnErr, length, take};
ghost use Rattle.std.specs.Prelude.{◌%◌, ◌∷◌, IfNone, IfSome, slice_index};
ghost use Rattle.std.specs.Io.KnownBytes.{Consumes, IsAtEnd, Keeps};
ghost use Rattle.ciborium_ll_io.specs.declared.io.TheConstants.{AT_HAND};

use ciborium_ll_io::io::{AT_HAND, copy_chunk};
use std::io;

/// Holds bytes that were read ahead, or are not yet written, in a slice that the caller lends.
#[derive(Drop)]
pub(super) struct Window<'a> {
    space: &'a mut [u8],
    start: usize,
    end: usize,
    ghost ordered: { start ≤ end },
    ghost within: { end ≤ length space.now },
}

impl<'a> Window<'a> {
    ghost use Rattle.ciborium_ll_buffers.specs.Buffers.{held, window_capacity, window_room};

    /// Returns a window that holds nothing.
    pub(super) fn new(space: &'a mut [u8]) -> Window<'a>
        ensures held { held result ≡ [] }
        ensures room { window_room result ≡ length space.old }
        ensures capacity { window_capacity result ≡ length space.old }
    {
        Window {
            space,
            start: 0,
            end: 0,
        }
    }

    /// Returns the bytes that it holds.
    #[inline(always)]
    pub(super) fn held(&self) -> &[u8]
        ensures { result.now ≡ held self.now }
    {
        &self.space[self.start..self.end]
    }

    /// Returns the bytes that it holds, and gives up the window.
    pub(super) fn into_held(self) -> &'a [u8]
        ensures { result.now ≡ held self.entry }
    {
        let space = self.space;
        &space[self.start..self.end]
    }

    /// Returns the number of bytes that it holds.
    #[inline(always)]
    pub(super) fn len(&self) -> usize
        ensures { result ≡ length (held self.now) }
    {
        self.end - self.start
    }

    /// Returns the number of bytes of the space.
    pub(super) fn capacity(&self) -> usize
        ensures { result ≡ window_capacity self.now }
    {
        self.space.len()
    }

    /// Returns the number of bytes that fit after the bytes that it holds.
    #[inline(always)]
    pub(super) fn room(&self) -> usize
        ensures { result ≡ window_room self.now }
    {
        self.space.len() - self.end
    }

    /// Moves bytes from the front to `data`.
    #[inline(always)]
    pub(super) fn take(&mut self, data: &mut [u8])
        requires { length «data».old ≤ length (held self.old) }
        ensures held { held self.old ≡ «data».new ++ held self.new }
        ensures capacity { window_capacity self.new ≡ window_capacity self.old }
    {
        copy_chunk(data, &self.held()[..data.len()]);
        self.skip(data.len());
    }

    /// Returns the first byte and the eight bytes after it, exactly if it holds at least [`AT_HAND`] bytes. It gives up
    /// as many of them as `lens` has for the lower five bits of the first.
    #[inline(always)]
    pub(super) fn take_at_hand(&mut self, lens: &[u8; 32]) -> Option<(u8, [u8; 8])>
        requires { (minor : ℕ) → minor < 32 → slice_index lens.now minor ≤ AT_HAND }
        ensures few { IfNone result (length (held self.old) < AT_HAND) }
        ensures found { IfSome result (λ found. take AT_HAND (held self.old) ≡ found.0 ∷ found.1) }
        ensures held { IfSome result (λ found. held self.old
            ≡ take (slice_index lens.now (found.0 % 32)) (found.0 ∷ found.1) ++ held self.new) }
        ensures none { IfNone result (self.new ≡ self.old) }
        ensures capacity { window_capacity self.new ≡ window_capacity self.old }
    {
        let (&first, rest) = self.held().first_chunk::<AT_HAND>()?.split_first()?;
        let affix = *rest.first_chunk::<8>()?;
        self.skip(usize::from(lens[usize::from(first % 32)]));
        Some((first, affix))
    }

    /// Gives up `count` bytes at the front. The room stays the same.
    #[inline(always)]
    pub(super) fn skip(&mut self, count: usize)
        requires { count ≤ length (held self.old) }
        ensures held { held self.old ≡ take count (held self.old) ++ held self.new }
        ensures room { window_room self.new ≡ window_room self.old }
        ensures capacity { window_capacity self.new ≡ window_capacity self.old }
    {
        self.start += count;
    }

    /// Puts bytes after the bytes that it holds.
    #[inline(always)]
    pub(super) fn put(&mut self, data: &[u8])
        requires { length «data».now ≤ window_room self.old }
        ensures held { held self.new ≡ held self.old ++ «data».now }
        ensures room { window_room self.old ≡ window_room self.new + length «data».now }
        ensures capacity { window_capacity self.new ≡ window_capacity self.old }
    {
        let end = self.end + data.len();
        copy_chunk(&mut self.space[self.end..end], data);
        self.end = end;
    }

    /// Moves the bytes that it holds to the front of the slice, so that all room is after them.
    pub(super) fn restart(&mut self)
        ensures held { held self.new ≡ held self.old }
        ensures room { length (held self.old) + window_room self.new ≡ window_capacity self.new }
        ensures capacity { window_capacity self.new ≡ window_capacity self.old }
    {
        self.space.copy_within(self.start..self.end, 0);
        self.end -= self.start;
        self.start = 0;
    }

    /// Reads once, to the bytes that it holds, and returns the number of bytes read. `Ok(0)` means that the reader has
    /// ended, or that the window holds as many bytes as the slice has.
    ///
    /// # Errors
    ///
    /// - The reader's error: the read failed.
    pub(super) fn fill<R: io::Read>(&mut self, from: &mut R) -> io::Result<usize>
        ensures bytes { IfOk result (λ n. (bytes : List ℕ) × (held self.new ≡ held self.old ++ bytes)
            × (length bytes ≡ n) × Consumes (R.remaining from.old) (R.remaining from.new) bytes) }
        ensures end { IfOk result (λ n. n ≡ 0 → length (held self.old) < window_capacity self.old
            → IsAtEnd (R.remaining from.new)) }
        ensures err { OnErr result (held self.new ≡ held self.old) }
        ensures keeps { OnErr result (Keeps (R.remaining from.old) (R.remaining from.new)) }
        ensures same { window_capacity self.new ≡ window_capacity self.old }
    {
        self.restart();
        let count = from.read(&mut self.space[self.end..])?;
        self.end += count;
        Ok(count)
    }
}
