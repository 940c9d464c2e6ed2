//! Elements that are copied in runs, or otherwise one by one, and counted.

ghost use Rattle.std.specs.Prelude.{◌≡◌, ◌+◌, ◌<◌, ◌≤◌, ℕ, [], None, Some, MatchResult, length};
ghost use Rattle.ciborium_ll.specs.Decoding.{IsSteady, offset_limit, offset_of, reader_of, waiting_of};
ghost use Rattle.ciborium_ll.specs.Recoding.{CopiesElements, CopiesOne, CopiesRun, IsBehind, StopsCopy};
ghost use Rattle.ciborium_ll.specs.Sides.{Sides, sides};
ghost use Rattle.capi.specs.Counting.{CountsCopy};
ghost use Rattle.ciborium_ll_grammar.specs.declared.limits.TheConstants.{LEAST_BUFFER};

use cbor_copier::shortest_run;
use ciborium_ll::io::{Discard, Read, SliceWriter, Write};
use ciborium_ll::{Decoder, Encoder, RecodeError};
use ciborium_ll_recode::recode::copy_element;
use std::mem;

/// How many elements a copy did.
#[derive(Clone, Copy)]
pub(crate) struct Tally {
    /// How many elements were copied whole.
    pub(crate) elements: usize,
    /// The offset after the last of them.
    pub(crate) whole: usize,
    /// How many bytes of them were written.
    pub(crate) spelled: usize,
}

/// A writer that knows how many more bytes fit.
pub(crate) trait Bounded: Write {
    /// Makes a writer into which nothing fits.
    fn full() -> Self;

    /// Returns how many more bytes fit.
    fn bytes_left(&self) -> usize
        ensures { Self.room self.now ≡ Some result };
}

impl<'a> Bounded for SliceWriter<'a> {
    #[inline(always)]
    fn full() -> SliceWriter<'a> {
        SliceWriter::new(&mut [])
    }

    #[inline(always)]
    fn bytes_left(&self) -> usize {
        self.room()
    }
}

impl Bounded for Discard {
    #[inline(always)]
    fn full() -> Discard {
        Discard::new(0)
    }

    #[inline(always)]
    fn bytes_left(&self) -> usize {
        self.room()
    }
}

/// Copies one element to a writer. An encoder has the writer for this call alone.
#[inline(always)]
fn copy_one<R: Read, W: Bounded + Drop>(
    decoder: &mut Decoder<R>,
    writer: &mut W,
    buffer: &mut [u8],
) -> Result<(), RecodeError<R::Error, W::Error>>
    requires room { LEAST_BUFFER ≤ length buffer.old }
    ensures { CopiesOne R.Read W.Write (length buffer.old) (sides decoder.old writer.old) result
        (sides decoder.new writer.new) }
{
    let mut encoder = Encoder::from(mem::replace(writer, W::full()));
    let copied = copy_element(decoder, &mut encoder, buffer);
    *writer = encoder.into_inner();
    copied
}

/// Copies elements that stand in their shortest spelling, as many as a run has and as fit into the buffer and the room.
/// `ahead` has the bytes that the decoder gives. Returns how many elements were copied. It never fails, since the
/// decoder has their bytes and the writer has room for them.
#[inline(always)]
fn copy_run<R: Read, W: Bounded + Drop>(
    decoder: &mut Decoder<R>,
    writer: &mut W,
    ahead: &[u8],
    most: usize,
    buffer: &mut [u8],
) -> Result<usize, RecodeError<R::Error, W::Error>>
    requires steady { IsSteady R.Read decoder.old }
    requires ahead { R.Read.ahead (reader_of decoder.old) ≡ Some ahead.now }
    requires none_waits { waiting_of decoder.old ≡ None }
    requires fits { offset_of decoder.old + length ahead.now < offset_limit }
    ensures run { MatchResult result (λ copied. (copied ≤ most)
        × CopiesRun R.Read W.Write copied (sides decoder.old writer.old) (sides decoder.new writer.new)) (λ error. ⊥) }
    ensures target { W.target writer.new ≡ W.target writer.old }
{
    let len = ahead.len().min(buffer.len()).min(writer.bytes_left());
    let run = shortest_run(&ahead[..len], most);
    if run.elements == 0 {
        return Ok(0);
    }
    decoder.read_exact(&mut buffer[..run.len])?;
    if let Err(fault) = writer.write_all(&buffer[..run.len]) {
        return Err(RecodeError::Write(fault));
    }
    Ok(run.elements)
}

/// Copies a run of elements, or otherwise one element. Returns how many were copied.
#[inline(always)]
fn copy_next<R: Read, W: Bounded + Drop>(
    decoder: &mut Decoder<R>,
    writer: &mut W,
    ahead: &[u8],
    most: usize,
    buffer: &mut [u8],
) -> Result<usize, RecodeError<R::Error, W::Error>>
    requires room { LEAST_BUFFER ≤ length buffer.old }
    requires some { 0 < most }
    requires steady { IsSteady R.Read decoder.old }
    requires ahead { R.Read.ahead (reader_of decoder.old) ≡ Some ahead.now }
    requires none_waits { waiting_of decoder.old ≡ None }
    requires fits { offset_of decoder.old + length ahead.now < offset_limit }
    ensures copied { MatchResult result (λ copied. (0 < copied) × (copied ≤ most)
        × CopiesRun R.Read W.Write copied (sides decoder.old writer.old) (sides decoder.new writer.new))
        (λ error. (count before : ℕ) (first : Sides R W)
        → IsBehind R.Read W.Write count before [] first (sides decoder.old writer.old)
        → StopsCopy R.Read W.Write count (length buffer.old) first error (sides decoder.new writer.new)) }
    ensures target { W.target writer.new ≡ W.target writer.old }
{
    let copied = copy_run(decoder, writer, ahead, most, buffer)?;
    if copied > 0 {
        return Ok(copied);
    }
    if let Err(error) = copy_one(decoder, writer, buffer) {
        return Err(error);
    }
    Ok(1)
}

/// Copies `count` elements, as `recode` does. It counts the elements that were copied whole, and the bytes that were
/// written of them. `bytes` are those that the decoder gives from the offset 0 on.
#[inline(always)]
pub(crate) fn copy_counted<R: Read, W: Bounded + Drop>(
    decoder: &mut Decoder<R>,
    writer: &mut W,
    bytes: &[u8],
    count: usize,
    buffer: &mut [u8],
    tally: &mut Tally,
) -> Result<(), RecodeError<R::Error, W::Error>>
    requires room { LEAST_BUFFER ≤ length buffer.old }
    requires steady { IsSteady R.Read decoder.old }
    requires ahead { R.Read.ahead (reader_of decoder.old) ≡ Some bytes.now }
    requires none_waits { waiting_of decoder.old ≡ None }
    requires start { offset_of decoder.old ≡ 0 }
    ensures copied { CopiesElements R.Read W.Write count (length buffer.old)
        (sides decoder.old writer.old) result (sides decoder.new writer.new) }
    ensures counted { CountsCopy R.Read W.Write count (length buffer.old) (sides decoder.old writer.old) result
        (sides decoder.new writer.new) tally.new.elements tally.new.whole tally.new.spelled }
    ensures target { W.target writer.new ≡ W.target writer.old }
{
    let room = writer.bytes_left();
    tally.elements = 0;
    tally.whole = 0;
    tally.spelled = 0;
    'elements: while tally.elements < count {
        let left = count - tally.elements;
        match copy_next(decoder, writer, &bytes[tally.whole..], left, buffer) {
            Ok(copied) => {
                tally.elements += copied;
                tally.whole = decoder.offset();
                tally.spelled = room - writer.bytes_left();
            }
            Err(error) => return Err(error),
        }
    }
    Ok(())
}
