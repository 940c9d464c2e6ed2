//! A reader and a writer over slices.

ghost use Rattle.std.specs.Prelude.{true, ◌≡◌, ◌≤◌, ◌+◌, ◌++◌, ◌∷◌, ℕ, List, [], IfSome, Some, drop, length, refl};
ghost use Rattle.ciborium_ll_io.specs.declared.io.TheConstants.{AT_HAND};

use super::failures::Failures;
use super::taken::Taken;
use super::{AT_HAND, Read, Write};

/// Fewer bytes are left than a read wants. Nothing was consumed.
#[derive(Debug, Drop)]
pub struct EndOfFile;

/// Reads from a slice. It is steady.
#[derive(Drop)]
pub struct SliceReader<'a> {
    left: &'a [u8],
    failures: Failures,
}

impl<'a> SliceReader<'a> {
    /// Returns a reader of the whole slice.
    pub fn new(bytes: &'a [u8]) -> SliceReader<'a>
        ensures ahead { ⟦<SliceReader<'a> as Read>⟧.ahead result ≡ Some bytes.now }
        ensures failures { ⟦<SliceReader<'a> as Read>⟧.failures result ≡ 0 }
    {
        SliceReader {
            left: bytes,
            failures: Failures::new(),
        }
    }

    /// Returns the bytes that are left.
    pub fn left(&self) -> &[u8]
        ensures { ⟦<SliceReader<'a> as Read>⟧.ahead self.now ≡ Some result.now }
    {
        self.left
    }

    /// Gives up the first `len` bytes that are left, as if a caller had read them.
    pub fn consume(&mut self, len: usize)
        requires { IfSome (⟦<SliceReader<'a> as Read>⟧.ahead self.old) (λ left. len ≤ length left) }
        ensures ahead { (left : List ℕ) → ⟦<SliceReader<'a> as Read>⟧.ahead self.old ≡ Some left
            → ⟦<SliceReader<'a> as Read>⟧.ahead self.new ≡ Some (drop len left) }
        ensures failures { ⟦<SliceReader<'a> as Read>⟧.failures self.new
            ≡ ⟦<SliceReader<'a> as Read>⟧.failures self.old }
    {
        self.left = &self.left[len..];
    }
}

impl<'a> Read for SliceReader<'a> {
    ghost use Rattle.std.specs.Prelude.{◌<◌, ◌%◌, IfNone, slice_index, take};
    ghost use Rattle.std.specs.Io.KnownBytes.{Consumes};

    type Error = EndOfFile;

    ghost ahead = { λ r. Some r.left.now };

    ghost steady = { λ _. true };

    ghost failures = { λ r. r.failures.count };

    ghost steady_is_told = { λ _ _. refl };

    fn read_exact(&mut self, data: &mut [u8]) -> Result<(), EndOfFile> {
        if self.left.len() < data.len() {
            self.failures.raise();
            return Err(EndOfFile);
        }
        let (front, rest) = self.left.split_at(data.len());
        copy(data, front);
        self.left = rest;
        Ok(())
    }

    /// Returns the next byte and the eight bytes after it, exactly if at least [`AT_HAND`] bytes are left.
    #[inline(always)]
    fn read_at_hand(&mut self, lens: &[u8; 32]) -> Option<(u8, [u8; 8])>
        // The trait's.
        requires { (minor : ℕ) → minor < 32 → slice_index lens.now minor ≤ AT_HAND }
        ensures bytes { IfSome result (λ found. Consumes (Some self.old.left.now) (Some self.new.left.now)
            (take (slice_index lens.now (found.0 % 32)) (found.0 ∷ found.1))) }
        ensures failures { self.new.failures.count ≡ self.old.failures.count }
        ensures none { IfNone result (self.new ≡ self.old) }

        // The slice's own.
        ensures few { IfNone result (length self.old.left.now < AT_HAND) }
        ensures found { IfSome result (λ found. take AT_HAND self.old.left.now ≡ found.0 ∷ found.1) }
    {
        let (&first, rest) = self.left.first_chunk::<AT_HAND>()?.split_first()?;
        let affix = *rest.first_chunk::<8>()?;
        self.left = &self.left[usize::from(lens[usize::from(first % 32)])..];
        Some((first, affix))
    }
}

/// Copies all bytes.
///
/// Each length of a title's parts has a case. If the compiler knows the length, one move remains, without a test for
/// overlaps.
#[inline(always)]
fn copy(to: &mut [u8], from: &[u8])
    requires len { length to.old ≡ length from.now }
    ensures copied { to.new ≡ from.now }
{
    match to.len() {
        0 => {}
        1 => copy_array::<1>(to, from),
        2 => copy_array::<2>(to, from),
        4 => copy_array::<4>(to, from),
        8 => copy_array::<8>(to, from),
        _ => copy_chunk(to, from),
    }
}

/// Copies all bytes. A chunk of 64 bytes, the usual buffer of a copy, takes one move.
#[inline(always)]
pub fn copy_chunk(to: &mut [u8], from: &[u8])
    requires len { length to.old ≡ length from.now }
    ensures copied { to.new ≡ from.now }
{
    if to.len() == 64 {
        copy_array::<64>(to, from);
    } else {
        to.copy_from_slice(from);
    }
}

/// Copies `N` bytes.
#[inline(always)]
fn copy_array<const N: usize>(to: &mut [u8], from: &[u8])
    requires to { length to.old ≡ N }
    requires from { length from.now ≡ N }
    ensures copied { to.new ≡ from.now }
{
    if let Some(target) = to.as_mut_array::<N>()
        && let Some(source) = from.as_array::<N>()
    {
        *target = *source;
    }
}

/// Copies a byte, and then all bytes of `rest`.
#[inline(always)]
fn copy_pair(to: &mut [u8], first: u8, rest: &[u8])
    requires len { length to.old ≡ 1 + length rest.now }
    ensures copied { to.new ≡ first ∷ rest.now }
{
    if let Some((front, behind)) = to.split_first_mut() {
        *front = first;
        copy(behind, rest);
    }
}

/// The room is smaller than the bytes of a write. Nothing was written.
#[derive(Debug, Drop)]
pub struct OutOfSpace;

/// Writes into a slice, from its front on, and leaves the rest as it was. It tells its slice.
#[derive(Drop)]
pub struct SliceWriter<'a> {
    buffer: &'a mut [u8],
    filled: usize,
    failures: Failures,
    before: Taken,
    ghost within: { filled ≤ length buffer.now },
    ghost behind: { drop filled buffer.now ≡ drop filled before.bytes },
}

impl<'a> SliceWriter<'a> {
    ghost use Rattle.ciborium_ll_io.specs.Slices.{slice_before};

    /// Returns a writer whose room is the whole slice.
    pub fn new(buffer: &'a mut [u8]) -> SliceWriter<'a>
        ensures written { ⟦<SliceWriter<'a> as Write>⟧.written result ≡ Some [] }
        ensures room { ⟦<SliceWriter<'a> as Write>⟧.room result ≡ Some (length buffer.old) }
        ensures failures { ⟦<SliceWriter<'a> as Write>⟧.failures result ≡ 0 }
        ensures same_reference { result.buffer.ghost_name ≡ buffer.entry.ghost_name }
        ensures before { slice_before result ≡ buffer.old }
    {
        let mut before = Taken::new();
        before.append(buffer);
        SliceWriter {
            buffer,
            filled: 0,
            failures: Failures::new(),
            before,
        }
    }

    /// Returns the bytes written so far.
    pub fn written(&self) -> &[u8]
        ensures written { ⟦<SliceWriter<'a> as Write>⟧.written self.now ≡ Some result.now }
        ensures slice { self.now.buffer.now ≡ result.now ++ drop (length result.now) (slice_before self.now) }
    {
        &self.buffer[..self.filled]
    }

    /// Returns the number of further bytes that fit.
    pub fn room(&self) -> usize
        ensures { ⟦<SliceWriter<'a> as Write>⟧.room self.now ≡ Some result }
    {
        self.buffer.len() - self.filled
    }
}

impl<'a> Write for SliceWriter<'a> {
    ghost use Rattle.std.specs.Prelude.{◌≡◌, ◌+◌, ◌<◌, IsSome, IfSome, OnOk, OnErr, IsOk, length};
    ghost use Rattle.std.specs.Io.KnownBytes.{Appends};
    ghost use Rattle.ciborium_ll_io.specs.Transfer.{Shrinks, AppendsFront};
    ghost use Rattle.ciborium_ll_io.specs.Slices.{slice_written, slice_room, slice_failures, slice_target};

    type Error = OutOfSpace;

    ghost written = { λ w. slice_written w };

    ghost room = { λ w. slice_room w };

    ghost failures = { λ w. slice_failures w };

    ghost flushed = { λ old new. slice_written new ≡ slice_written old };

    ghost target = { λ w. Some (slice_target w) };

    /// Appends the whole of `data`.
    ///
    /// # Errors
    ///
    /// - `OutOfSpace`: `data` is longer than the room.
    #[tactic(auto, using(crate::proofs::SliceLaws::behind_grown))]
    fn write_all(&mut self, data: &[u8]) -> Result<(), OutOfSpace>
        // The trait's.
        ensures bytes { OnOk result (Appends (slice_written self.old) (slice_written self.new) «data».now) }
        ensures fills { OnOk result (Shrinks (slice_room self.old) (slice_room self.new) (length «data».now)) }
        ensures ok { OnOk result (slice_failures self.new ≡ slice_failures self.old) }
        ensures front { OnErr result (AppendsFront (slice_written self.old) (slice_written self.new)
            (slice_room self.old) (slice_room self.new) «data».now) }
        ensures full { OnErr result (IfSome (slice_room self.old) (λ n. n < length «data».now)) }
        ensures err { OnErr result (slice_failures self.new ≡ slice_failures self.old + 1) }
        ensures target { Some (slice_target self.new) ≡ Some (slice_target self.old) }

        // The slice's own.
        ensures nothing { OnErr result (slice_written self.new ≡ slice_written self.old) }
        ensures untouched { OnErr result (self.new.buffer.now ≡ self.old.buffer.now) }
        ensures same_reference { self.new.buffer.ghost_name ≡ self.old.buffer.ghost_name }
    {
        if self.room() < data.len() {
            self.failures.raise();
            return Err(OutOfSpace);
        }
        let end = self.filled + data.len();
        copy_chunk(&mut self.buffer[self.filled..end], data);
        self.filled = end;
        Ok(())
    }

    /// Appends a byte and then the whole of `rest`.
    ///
    /// # Errors
    ///
    /// - `OutOfSpace`: these bytes are more than the room. Exactly the first byte is written, or nothing if there is no
    ///   room.
    #[inline(always)]
    fn write_pair(&mut self, first: u8, rest: &[u8]) -> Result<(), OutOfSpace>
        // The trait's.
        ensures bytes { OnOk result (Appends (slice_written self.old) (slice_written self.new) (first ∷ «rest».now)) }
        ensures fills { OnOk result (Shrinks (slice_room self.old) (slice_room self.new) (1 + length «rest».now)) }
        ensures ok { OnOk result (slice_failures self.new ≡ slice_failures self.old) }
        ensures front { OnErr result (AppendsFront (slice_written self.old) (slice_written self.new)
            (slice_room self.old) (slice_room self.new) (first ∷ «rest».now)) }
        ensures full { OnErr result (IfSome (slice_room self.old) (λ n. n < 1 + length «rest».now)) }
        ensures err { OnErr result (slice_failures self.new ≡ slice_failures self.old + 1) }
        ensures target { Some (slice_target self.new) ≡ Some (slice_target self.old) }

        // The slice's own.
        ensures nothing { OnErr result (slice_room self.old ≡ Some 0 → slice_written self.new ≡ slice_written self.old) }
        ensures one { OnErr result (IfSome (slice_room self.old) (λ n. 0 < n)
            → Appends (slice_written self.old) (slice_written self.new) (first ∷ [])) }
        ensures same_reference { self.new.buffer.ghost_name ≡ self.old.buffer.ghost_name }
    {
        if self.room() <= rest.len() {
            // The first write may fit. The second does not.
            self.write_all(&[first])?;
            self.failures.raise();
            return Err(OutOfSpace);
        }
        let end = self.filled + 1 + rest.len();
        copy_pair(&mut self.buffer[self.filled..end], first, rest);
        self.filled = end;
        Ok(())
    }

    /// Does nothing, and never fails.
    fn flush(&mut self) -> Result<(), OutOfSpace>
        // The trait's.
        ensures bytes { IsSome (slice_room self.old) → slice_written self.new ≡ slice_written self.old }
        ensures room { IsSome (slice_room self.old) → slice_room self.new ≡ slice_room self.old }
        ensures flushed { OnOk result (slice_written self.new ≡ slice_written self.old) }
        ensures ok { OnOk result (slice_failures self.new ≡ slice_failures self.old) }
        ensures err { OnErr result (slice_failures self.new ≡ slice_failures self.old + 1) }
        ensures target { Some (slice_target self.new) ≡ Some (slice_target self.old) }

        // The slice's own.
        ensures done { IsOk result }
        ensures same_reference { self.new.buffer.ghost_name ≡ self.old.buffer.ghost_name }
    {
        // Nothing was kept back.
        Ok(())
    }
}
