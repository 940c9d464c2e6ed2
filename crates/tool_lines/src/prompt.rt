//! A copy that writes what it can of each piece of its input before it reads the next.

ghost use Rattle.std.specs.Prelude.{◌≡◌, ◌<◌, ◌≤◌, ◌++◌, ℕ, List, Some, IsErrOf, IfOk, OnErr, OnOk, length, take};
ghost use Rattle.std.specs.Io.KnownBytes.{Consumes, IsAtEnd, Keeps};
ghost use Rattle.ciborium_ll_streams.specs.Streams.{stream_sink};
ghost use Rattle.tool_lines.specs.declared.raw.TheConstants.{ROOM};
ghost use Rattle.tool_lines.specs.Prompt.{CopiesPrompt, TellsAll, TellsSome};

use crate::raw::ROOM;
use cbor_copier::{Copier, Progress};
use ciborium_ll_decoder::dec::Error;
use ciborium_ll_grammar::limits::LONGEST_AFFIX;
use ciborium_ll_io::io::Write;
use ciborium_ll_recode::recode::RecodeError;
use ciborium_ll_streams::{ReadFault, StdWriter, WriteFault};
use std::io;

/// The most bytes that a piece puts out: those that it has, and before them the first bytes of a title that it ends.
const MOST_OUT: usize = ROOM + LONGEST_AFFIX;

/// Reads the next piece by one call, and returns the number of bytes that came.
///
/// # Errors
///
/// - `End`: no byte came.
/// - `Failed`: the call failed.
fn read_piece<R: io::Read>(reader: &mut R, piece: &mut [u8; ROOM]) -> Result<usize, ReadFault>
    ensures some { IfOk result (λ count. (0 < count) × (count ≤ ROOM)) }
    ensures bytes { IfOk result (λ count. Consumes (R.remaining reader.old) (R.remaining reader.new)
        (take count piece.new)) }
    ensures keeps { OnErr result (Keeps (R.remaining reader.old) (R.remaining reader.new)) }
    ensures end { IsErrOf result ReadFault.End → IsAtEnd (R.remaining reader.new) }
{
    match reader.read(piece) {
        Ok(0) => Err(ReadFault::End),
        Ok(count) => Ok(count),
        Err(error) => Err(ReadFault::Failed(error)),
    }
}

/// Writes bytes, and flushes them. For no bytes it makes no call.
///
/// # Errors
///
/// The error is that of the write or of the flush. The writer then got a beginning of the bytes, or all of them.
fn send<W: io::Write>(writer: &mut StdWriter<W>, bytes: &[u8]) -> Result<(), WriteFault>
    ensures all { (written : List ℕ) → W.contents (stream_sink writer.old) ≡ Some written
        → OnOk result (TellsAll W.contents written bytes.now (stream_sink writer.new)) }
    ensures some { (written : List ℕ) → W.contents (stream_sink writer.old) ≡ Some written
        → OnErr result (TellsSome W.contents written bytes.now (stream_sink writer.new)) }
{
    if bytes.is_empty() {
        return Ok(());
    }
    writer.write_all(bytes)?;
    writer.flush()
}

/// Copies `count` elements in pieces.
fn copy_pieces<R: io::Read, W: io::Write>(
    reader: &mut R,
    writer: &mut StdWriter<W>,
    count: usize,
) -> Result<(), RecodeError<ReadFault, WriteFault>>
    ensures { (due written : List ℕ) → R.remaining reader.old ≡ Some due
        → W.contents (stream_sink writer.old) ≡ Some written
        → CopiesPrompt R.remaining W.contents ROOM count due written result reader.new (stream_sink writer.new) }
{
    let mut copier = Copier::new(count);
    let mut piece = [0; ROOM];
    let mut out = [0; MOST_OUT];
    let mut given = 0;
    let mut pieces = 0;
    'pieces: while pieces < usize::MAX {
        let copied = copier.feed(&piece[..given], &mut out);
        send(writer, &out[..copied.written]).map_err(RecodeError::Write)?;
        match copied.progress {
            Progress::Ended => return Ok(()),
            Progress::Syntax(place) => return Err(RecodeError::Read(Error::Syntax(place))),
            Progress::TooLong => break 'pieces,
            Progress::More | Progress::Room => {}
        }
        given = read_piece(reader, &mut piece).map_err(|fault| RecodeError::Read(Error::Io(
            fault,
        )))?;
        pieces += 1;
    }
    Err(RecodeError::Read(Error::TooLong))
}

/// Copies `count` elements as raw bytes, each in its shortest spelling, in pieces of at most [`ROOM`] bytes. It returns
/// the reader and the writer.
///
/// The copy writes and flushes all that a piece puts out before it reads the next piece. So a caller sees the output of
/// all bytes that came, while more of the input is due. The bytes of a piece after the last element are given up.
///
/// If both tell their bytes, `Ok` says that the bytes that the copy took are `count` elements. The writer then got
/// exactly their shortest spelling.
///
/// # Errors
///
/// - `Read` with `Syntax`: no list of that many elements begins so. The place is that of [`Copier::feed`], and its
///   output is written.
/// - `Read` with `Io`: a read failed, or the input ended within the elements. The output of all bytes that came is
///   written.
/// - `Read` with `TooLong`: the input is longer than a `usize` counts.
/// - `Write`: a write or a flush failed. The writer got a beginning of the output.
pub fn raw_prompt<R: io::Read, W: io::Write>(
    mut reader: R,
    writer: W,
    count: usize,
) -> (R, W, Result<(), RecodeError<ReadFault, WriteFault>>)
    ensures { (due written : List ℕ) → R.remaining reader ≡ Some due → W.contents writer ≡ Some written
        → CopiesPrompt R.remaining W.contents ROOM count due written result.2 result.0 result.1 }
{
    let mut writer = StdWriter::new(writer);
    let copied = copy_pieces(&mut reader, &mut writer, count);
    (reader, writer.into_inner(), copied)
}
