//! Elements copied from one stream of bytes to another.

ghost use Rattle.std.specs.Prelude.{◌≡◌, ℕ, List, Some};
ghost use Rattle.tool_lines.specs.Raw.{CopiesFlushed, CopiesRaw, Tells, TellsBehind, TellsFlushed};
ghost use Rattle.tool_lines.specs.Raw.{flushed_outcome};
ghost use Rattle.tool_lines.specs.Restoring.{Restores, RestoresCopy, RestoresFlush};

use crate::ahead::ReadAhead;
use ciborium_ll_buffers::{BufferedWriter, FaultKept};
use ciborium_ll_decoder::dec::{Decoder, Error};
use ciborium_ll_encoder::enc::Encoder;
use ciborium_ll_io::io::{Read, Write};
use ciborium_ll_recode::recode::{RecodeError, recode};
use ciborium_ll_streams::{ReadFault, StdReader, StdWriter, WriteFault};
use std::io;

/// How many bytes a buffered copy reads ahead, and how many it keeps back, at most.
pub const ROOM: usize = 8192;

/// How many bytes of a string are copied at a time, at most.
const BUFFER_SIZE: usize = 64;

/// Copies `count` elements through a buffer of `BUFFER_SIZE` bytes. It returns the reader and the writer, and flushes
/// nothing.
fn copy_elements<R: Read, W: Write>(
    reader: R,
    writer: W,
    count: usize,
) -> (R, W, Result<(), RecodeError<R::Error, W::Error>>)
    ensures { (due written : List ℕ) → R.ahead reader ≡ Some due → W.written writer ≡ Some written
        → CopiesRaw (Tells R.ahead) (Tells W.written) count due written result.2 result.0 result.1 }
{
    let mut buffer = [0; BUFFER_SIZE];
    let mut decoder = Decoder::from(reader);
    let mut encoder = Encoder::from(writer);
    let copied = recode(&mut decoder, &mut encoder, count, &mut buffer);
    let reader = decoder.into_inner();
    let writer = encoder.into_inner();
    (reader, writer, copied)
}

/// Copies `count` elements as raw bytes, each in its shortest spelling, through 64 bytes. Then it flushes the writer,
/// after a failure too. It returns the reader and the writer.
///
/// It makes single calls of the reader and the writer, and reads nothing ahead.
///
/// If both tell their bytes, `Ok` says that `count` elements came next. The writer then got their shortest spelling,
/// and the reader has the bytes that follow them.
///
/// # Errors
///
/// The error is that of the copy, or that of the flush after a copy that succeeded.
///
/// - `Read` with `Syntax`: the place of the first fault, as `recode` names it. The writer got the bytes that the copy
///   wrote before the fault.
/// - `Read` with `Io`: the reader failed, or it ended within the elements. The writer got the spelling of a part of
///   them.
/// - `Read` with `TooLong`: the offset would pass `usize::MAX`. The writer got the spelling of a part of the elements.
/// - `Write`: the writer failed. It got a beginning of the spelling, or all of it if the flush failed.
///
/// After `Syntax` and `Write` the reader has the bytes that were not read. After `Io` and `TooLong` nothing is said of
/// it.
pub fn raw<R: io::Read, W: io::Write>(
    reader: R,
    writer: W,
    count: usize,
) -> (R, W, Result<(), RecodeError<ReadFault, WriteFault>>)
    ensures { (due written : List ℕ) → R.remaining reader ≡ Some due → W.contents writer ≡ Some written
        → CopiesFlushed (Tells R.remaining) (Tells W.contents) count due written result.2 result.0 result.1 }
{
    let (reader, mut writer, copied) = copy_elements(
        StdReader::new(reader),
        StdWriter::new(writer),
        count,
    );
    let flushed = writer.flush();
    let outcome = outcome_of(copied, flushed);
    (reader.into_inner(), writer.into_inner(), outcome)
}

/// Returns the outcome of a copy and the flush after it: its own error, otherwise that of the flush.
fn outcome_of(
    copied: Result<(), RecodeError<ReadFault, WriteFault>>,
    flushed: Result<(), WriteFault>,
) -> Result<(), RecodeError<ReadFault, WriteFault>>
    ensures { result ≡ flushed_outcome copied flushed }
{
    match copied {
        Ok(()) => flushed.map_err(RecodeError::Write),
        Err(error) => Err(error),
    }
}

/// How a buffered copy ended.
#[derive(Drop)]
pub struct BufferedCopy<R, W> {
    /// The reader. It has lost the bytes that were read ahead after the last element, at most `ROOM`.
    pub reader: R,
    /// The writer. It has all that was written, but may lack bytes at the end if the flush failed.
    pub writer: W,
    /// The answer of the copy.
    pub copied: Result<(), RecodeError<ReadFault, WriteFault>>,
    /// The answer of the flush after the copy.
    pub flushed: Result<(), WriteFault>,
}

/// Copies as [`raw`] does, but reads ahead and keeps back up to `ROOM` bytes.
///
/// A failed write is told by the call that passes the bytes on. That call may come after a read that failed, or be the
/// flush.
///
/// If both tell their bytes, each answer means the same as for [`raw`], except for two things. The reader may have lost
/// at most `ROOM` bytes that were read ahead after the copied ones. If the flush failed, the writer may lack bytes at
/// the end.
pub fn raw_buffered<R: io::Read, W: io::Write>(
    reader: R,
    writer: W,
    count: usize,
) -> BufferedCopy<R, W>
    ensures { (due written : List ℕ) → R.remaining reader ≡ Some due → W.contents writer ≡ Some written
        → CopiesRaw (TellsBehind R.remaining ROOM) (TellsFlushed W.contents result.flushed) count due written
        result.copied result.reader result.writer }
{
    let mut read_ahead = [0; ROOM];
    let mut kept_back = [0; ROOM];
    let mut buffer = [0; BUFFER_SIZE];
    let mut decoder = Decoder::from(ReadAhead::new(reader, &mut read_ahead));
    let mut encoder = Encoder::from(BufferedWriter::new(writer, &mut kept_back));
    let copied = recode(&mut decoder, &mut encoder, count, &mut buffer);
    let ReadAhead { reader } = decoder.into_inner();
    let (reader, _, read_fault) = reader.into_parts();
    let mut writer = encoder.into_inner();
    let write_fault = writer.take_fault();
    let flushed = writer.flush();
    let (writer, _, flush_fault) = writer.into_parts();
    BufferedCopy {
        reader,
        writer,
        copied: restore_copy(copied, read_fault, write_fault),
        flushed: restore_flush(flushed, flush_fault),
    }
}

/// Returns the outcome of a copy, with the fault that was kept aside.
pub(crate) fn restore_copy(
    copied: Result<(), RecodeError<FaultKept, FaultKept>>,
    read_fault: Option<ReadFault>,
    write_fault: Option<WriteFault>,
) -> Result<(), RecodeError<ReadFault, WriteFault>>
    ensures { RestoresCopy read_fault write_fault copied result }
{
    match copied {
        Ok(()) => Ok(()),
        Err(error) => Err(restore_error(error, read_fault, write_fault)),
    }
}

/// Returns the outcome of a flush, with the fault that was kept aside.
pub(crate) fn restore_flush(
    flushed: Result<(), FaultKept>,
    fault: Option<WriteFault>,
) -> Result<(), WriteFault>
    ensures { RestoresFlush fault flushed result }
{
    match flushed {
        Ok(()) => Ok(()),
        Err(FaultKept) => Err(fault.unwrap_or(WriteFault::Zero)),
    }
}

/// Returns the error of a copy, with the fault that was kept aside. Each call that fails keeps one.
fn restore_error(
    error: RecodeError<FaultKept, FaultKept>,
    read_fault: Option<ReadFault>,
    write_fault: Option<WriteFault>,
) -> RecodeError<ReadFault, WriteFault>
    ensures { Restores read_fault write_fault error result }
{
    match error {
        RecodeError::Read(Error::Io(FaultKept)) => {
            RecodeError::Read(Error::Io(read_fault.unwrap_or(ReadFault::End)))
        }
        RecodeError::Read(Error::Syntax(place)) => RecodeError::Read(Error::Syntax(place)),
        RecodeError::Read(Error::TooLong) => RecodeError::Read(Error::TooLong),
        RecodeError::Read(Error::Waiting) => RecodeError::Read(Error::Waiting),
        RecodeError::Write(FaultKept) => RecodeError::Write(write_fault.unwrap_or(
            WriteFault::Zero,
        )),
    }
}
