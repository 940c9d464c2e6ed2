//! The word `recode` without a count.

ghost use Rattle.std.specs.Prelude.{◌≡◌, ◌+◌, ◌≤◌, ◌++◌, ℕ, List, Option as AnyOption, [], false, Some, IfNone, IsTrue};
ghost use Rattle.std.specs.Prelude.{OnErr, OnOk, length, take};
ghost use Rattle.ciborium_ll.specs.Limits.{MOST_LEVELS};
ghost use Rattle.ciborium_ll_grammar.specs.declared.spelling.Spelling.TheVariants.{Any};
ghost use Rattle.ciborium_ll_grammar.specs.Items.{AreItems};
ghost use Rattle.ciborium_ll_streams.specs.Streams.{stream_sink};
ghost use Rattle.tool_files.specs.declared.recode.TheConstants.{AROUND};
ghost use Rattle.tool_files.specs.Recodes.{AnswersItems, CopiesItems, TellsAll, TellsSome, end_said, fault_place};
ghost use Rattle.tool_files.specs.Recodes.{CopiesPart, IsLeft, fault_said, part_said};

use crate::check::ROOM;
use crate::options::Options;
use cbor_checker::Fault;
use cbor_dump::counted::skip_items;
use cbor_item_copier::{ItemCopier, Progress};
use ciborium_ll::Decoder;
use ciborium_ll::io::{KeepingReader, StdWriter, Write, WriteFault};
use ciborium_ll::limits::LONGEST_AFFIX;
use std::io;
use std::io::{Chain, Read as _};
use tool_verdicts::check::{BUFFER_SIZE, fault_of, prefer_failure};
use tool_verdicts::verdict::Verdict;

/// How many bytes there is room for beside a piece: those of a title that an earlier piece began, and as many that a
/// copier wants to be free.
const AROUND: usize = 2 * LONGEST_AFFIX;

/// How many bytes there is room for.
const MOST_OUT: usize = ROOM + AROUND;

/// Returns the verdict that names the fault of an item from this offset on.
fn fault_verdict(start: usize, fault: Fault) -> Verdict
    requires { fault_place fault + start ≤ usize.MAX }
    ensures { result ≡ fault_said start fault }
{
    match fault {
        Fault::Syntax(place) => Verdict::Syntax(start + place),
        Fault::Break(place) => Verdict::Break(start + place),
        Fault::Deep(place) => Verdict::Deep(start + place),
    }
}

/// Counts an item that has ended, and returns whether more items are to be copied.
fn goes_on(left: &mut Option<usize>) -> bool
    ensures more { IsTrue result → (most : AnyOption ℕ) (count : ℕ) → IsLeft most left.old count
        → IsLeft most left.new (count + 1) }
    ensures last { result ≡ false → (most : AnyOption ℕ) (count : ℕ) → IsLeft most left.old count
        → most ≡ Some (count + 1) }
{
    match *left {
        None => true,
        Some(more) if more > 1 => {
            *left = Some(more - 1);
            true
        }
        Some(_) => false,
    }
}

/// A copy of items, between two pieces of their bytes.
#[derive(Drop)]
struct ItemsCopy {
    copier: ItemCopier,
    /// The offset of the item that the copier copies.
    start: usize,
    /// How many items are still to be copied, if not all are.
    left: Option<usize>,
    depth: usize,
    ghost shallow: { depth ≤ MOST_LEVELS },
}

impl ItemsCopy {
    ghost use Rattle.tool_files.specs.Recodes.{Feeds, IsAfter, Stands};

    /// Makes a copy of at most `most` items before their first byte.
    fn new(depth: usize, most: Option<usize>) -> ItemsCopy
        requires shallow { depth ≤ MOST_LEVELS }
        requires some { most ≡ Some 0 → ⊥ }
        ensures depth { result.depth ≡ depth }
        ensures stands { Stands depth most result.left 0 [] [] result.copier }
        ensures start { result.start ≡ 0 }
    {
        ItemsCopy {
            copier: ItemCopier::new(depth),
            start: 0,
            left: most,
            depth,
        }
    }

    /// Takes a piece of the bytes, which begins at the offset `read`, and writes what it puts out to the start of
    /// `out`. Returns how many bytes that is, and the answer of the copy, if it ends in the piece.
    fn feed(
        &mut self,
        read: usize,
        piece: &[u8],
        out: &mut [u8],
    ) -> (usize, Option<Result<(), Verdict>>)
        requires counted { read + length piece.now ≤ usize.MAX }
        requires room { length piece.now + AROUND ≤ length out.old }
        requires after { IsAfter self.old.depth self.old.left self.old.start read self.old.copier }
        ensures written { result.0 ≤ length out.new }
        ensures depth { self.new.depth ≡ self.old.depth }
        ensures after { IfNone result.1
            (IsAfter self.new.depth self.new.left self.new.start (read + length piece.now) self.new.copier) }
        ensures feeds { (most : AnyOption ℕ) (fed given : List ℕ)
            → Stands self.old.depth most self.old.left self.old.start fed given self.old.copier → length fed ≡ read
            → Feeds self.old.depth most self.new.left (fed ++ piece.now) (given ++ take result.0 out.new) result.1
            self.new.start self.new.copier }
    {
        let mut at = 0;
        let mut written = 0;
        'items: while at < piece.len() {
            let copied = self.copier.feed(&piece[at..], &mut out[written..]);
            at += copied.taken;
            written += copied.written;
            match copied.progress {
                Progress::More(_) => {}
                Progress::Ended(_) => {
                    if !goes_on(&mut self.left) {
                        return (written, Some(Ok(())));
                    }
                    self.copier = ItemCopier::new(self.depth);
                    self.start = read + at;
                }
                Progress::Fault(fault) => {
                    return (written, Some(Err(fault_verdict(self.start, fault))));
                }
                Progress::Room | Progress::TooLong => {
                    return (written, Some(Err(Verdict::TooLong)));
                }
            }
        }
        (written, None)
    }
}

/// Writes bytes, and flushes them. For no bytes it makes no call.
///
/// # Errors
///
/// The error of the write or of the flush. The writer then got a beginning of the bytes, or all of them.
fn send<W: io::Write>(writer: &mut StdWriter<W>, bytes: &[u8]) -> Result<(), io::Error>
    ensures all { (written : List ℕ) → W.contents (stream_sink writer.old) ≡ Some written
        → OnOk result (TellsAll W.contents written bytes.now (stream_sink writer.new)) }
    ensures some { (written : List ℕ) → W.contents (stream_sink writer.old) ≡ Some written
        → OnErr result (TellsSome W.contents written bytes.now (stream_sink writer.new)) }
{
    if bytes.is_empty() {
        return Ok(());
    }
    writer.write_all(bytes).map_err(output_error)?;
    writer.flush().map_err(output_error)
}

/// Returns the error of a writer that failed, or that took no byte.
fn output_error(fault: WriteFault) -> io::Error {
    match fault {
        WriteFault::Failed(error) => error,
        WriteFault::Zero => io::Error::from(io::ErrorKind::WriteZero),
    }
}

/// Copies at most `most` items in pieces.
fn copy_pieces<R: io::Read, W: io::Write>(
    reader: &mut R,
    writer: &mut StdWriter<W>,
    depth: usize,
    most: Option<usize>,
) -> Result<(), Verdict>
    requires shallow { depth ≤ MOST_LEVELS }
    requires some { most ≡ Some 0 → ⊥ }
    ensures { (due written : List ℕ) → R.remaining reader.old ≡ Some due
        → W.contents (stream_sink writer.old) ≡ Some written
        → CopiesItems R.remaining W.contents depth most due written result reader.new
        (stream_sink writer.new) }
{
    let mut copy = ItemsCopy::new(depth, most);
    let mut piece = [0; ROOM];
    let mut out = [0; MOST_OUT];
    let mut read = 0;
    'pieces: loop {
        let count = reader.read(&mut piece).map_err(Verdict::Failed)?;
        if count == 0 {
            return answer_end(copy.start, read);
        }
        if count > usize::MAX - read {
            return Err(Verdict::TooLong);
        }
        let (written, stop) = copy.feed(read, &piece[..count], &mut out);
        send(writer, &out[..written]).map_err(Verdict::Output)?;
        if let Some(answer) = stop {
            return answer;
        }
        read += count;
    }
}

/// Copies at most `most` items. For none it reads and writes nothing.
fn copy_most<R: io::Read, W: io::Write>(
    reader: &mut R,
    writer: &mut StdWriter<W>,
    depth: usize,
    most: Option<usize>,
) -> Result<(), Verdict>
    requires { depth ≤ MOST_LEVELS }
    ensures { (due written : List ℕ) → R.remaining reader.old ≡ Some due
        → W.contents (stream_sink writer.old) ≡ Some written
        → CopiesItems R.remaining W.contents depth most due written result reader.new (stream_sink writer.new) }
{
    match most {
        Some(0) => Ok(()),
        _ => copy_pieces(reader, writer, depth, most),
    }
}

/// Returns the answer at the end of an input of this length, if the item that would be next begins at `start`.
fn answer_end(start: usize, len: usize) -> Result<(), Verdict>
    ensures { result ≡ end_said start len }
{
    if start == len {
        Ok(())
    } else {
        Err(Verdict::Short(len))
    }
}

/// Copies a part of the items of a reader's bytes, as `copy_items` does: those after the items that the options pass over.
/// It reads the first items as `skip_items` does, and writes nothing of them. Places are those of the whole input.
///
/// # Errors
///
/// - The verdict on a fault among the first items, or on their end.
/// - Those of `copy_items`. `TooLong` also comes for a place that is greater than `usize::MAX`.
pub fn copy_part<R: io::Read + Drop, W: io::Write>(
    reader: R,
    writer: W,
    options: Options,
) -> (W, Result<(), Verdict>)
    ensures { (due written : List ℕ) → R.remaining reader ≡ Some due → W.contents writer ≡ Some written
        → CopiesPart ⟦<Chain<&'static [u8], R> as io::Read>⟧.remaining W.contents options.skip options.depth
        options.items due written result.1 result.0 }
{
    let mut ahead = [0; ROOM];
    let mut decoder = Decoder::from(KeepingReader::new(reader, &mut ahead));
    let mut buffer = [0; BUFFER_SIZE];
    if let Err(error) = skip_items(&mut decoder, options.skip, options.depth, &mut buffer) {
        let verdict = fault_of(error, decoder.offset());
        let (_, _, fault) = decoder.into_inner().into_parts();
        return (writer, Err(prefer_failure(fault, verdict)));
    }
    let start = decoder.offset();
    let (source, held, _) = decoder.into_inner().into_parts();
    let (_, writer, copied) = copy_items(held.chain(source), writer, options);
    (writer, moved(copied, start))
}

/// Returns the answer of a copy that began at this offset of the input.
fn moved(copied: Result<(), Verdict>, start: usize) -> Result<(), Verdict>
    ensures { result ≡ part_said start copied }
{
    match copied {
        Ok(()) => Ok(()),
        Err(verdict) => Err(verdict.shift(start)),
    }
}

/// Copies the items of a reader's bytes, up to their end, each in its shortest spelling (RFC 7049, 3.9). Any number of
/// items may stand there (RFC 8742). Tags, arrays and maps nest at most as deep as the options say. It returns the
/// reader and the writer.
///
/// With `--items` it copies at most that many items. It may then have read bytes after the last one, and doesn't look at
/// them.
///
/// The copy reads at most [`ROOM`] bytes at once, and writes and flushes all that they put out before it reads on. It
/// holds no more of the input in memory.
///
/// If both tell their bytes, `Ok` says that the input was whole items. The writer then got exactly their shortest
/// spellings.
///
/// # Errors
///
/// - `Syntax`, `Break` and `Deep`: whatever follows, no item begins there. The place is that of `check`. The output of
///   all bytes before the first byte that shows it is written.
/// - `Short`: the input ends within an item, at this offset. All that can be written of its bytes is written.
/// - `Failed`: a read failed. All that can be written of the bytes that came is written.
/// - `TooLong`: the input is longer than a `usize` counts.
/// - `Output`: a write or a flush failed. The writer got a beginning of the output.
pub fn copy_items<R: io::Read, W: io::Write>(
    mut reader: R,
    writer: W,
    options: Options,
) -> (R, W, Result<(), Verdict>)
    ensures copies { (due written : List ℕ) → R.remaining reader ≡ Some due → W.contents writer ≡ Some written
        → CopiesItems R.remaining W.contents options.depth options.items due written result.2 result.0 result.1 }
    ensures items { (due written : List ℕ) → R.remaining reader ≡ Some due → W.contents writer ≡ Some written
        → (count : ℕ) → AreItems Any options.depth count due → AnswersItems result.2 }
{
    let mut writer = StdWriter::new(writer);
    let copied = copy_most(&mut reader, &mut writer, options.depth, options.items);
    (reader, writer.into_inner(), copied)
}
