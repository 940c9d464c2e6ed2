//! Strings that are read chunk by chunk.

ghost use Rattle.std.specs.Prelude.{◌≡◌};
ghost use Rattle.ciborium_ll_decoder.specs.Chunks.{segment_reference};
ghost use Rattle.ciborium_ll_decoder.specs.Segments.{string_reference};

use ciborium_ll_decoder::dec::{Decoder, Error};
use ciborium_ll_decoder::seg::{Bytes, Chunked, Segment, Segments, Text};
use ciborium_ll_grammar::hdr::Header;
use ciborium_ll_io::io::{EndOfFile, SliceReader};
use std::alloc::{AllocError, Global};
use tool_requests::answer::{Last, chunk_line, last_line, segment_line};
use tool_requests::request::Numbered;

/// Why the read of a string stopped before its end.
#[derive(Drop)]
enum Stop {
    /// The item is no string.
    Other,
    /// The bytes at this offset are no part of the string.
    Syntax(usize),
    /// Bytes are missing.
    Short,
    /// The buffer is too small for the next character.
    Stuck,
    /// The offset has no room. No line is long enough for it.
    Room,
    /// There is no memory for a line.
    Unwritten,
}

impl From<Error<EndOfFile>> for Stop {
    fn from(error: Error<EndOfFile>) -> Stop {
        match error {
            Error::Io(_) => Stop::Short,
            Error::Syntax(place) => Stop::Syntax(place),
            Error::TooLong | Error::Waiting => Stop::Room,
        }
    }
}

impl From<AllocError> for Stop {
    fn from(_refused: AllocError) -> Stop {
        Stop::Unwritten
    }
}

/// Answers `chunks`: a line for each segment, chunk and end of a segment, and a line for the end of the string.
pub fn chunks(alloc: Global, asked: &Numbered, sink: &mut String) -> Result<(), AllocError> {
    let mut buffer = vec![in alloc; 0u8; asked.number]?;
    chunks_within(alloc, asked.bytes.as_slice(), buffer.as_mut_slice(), sink)
}

/// Answers the same through this buffer.
fn chunks_within(
    alloc: Global,
    bytes: &[u8],
    buffer: &mut [u8],
    sink: &mut String,
) -> Result<(), AllocError> {
    let mut decoder = Decoder::from(SliceReader::new(bytes));
    let outcome = string(alloc, &mut decoder, bytes.len(), buffer, sink);
    outcome_line(outcome, decoder.offset(), sink)
}

/// Writes the last line of an answer for the end of a string at this offset, or for a stop there.
fn outcome_line(
    outcome: Result<(), Stop>,
    offset: usize,
    sink: &mut String,
) -> Result<(), AllocError> {
    let last = match outcome {
        Ok(()) => Last::End(offset),
        Err(Stop::Other) => Last::Other,
        Err(Stop::Syntax(place)) => Last::Syntax(place),
        Err(Stop::Short) => Last::Short(offset),
        Err(Stop::Stuck) => Last::Stuck,
        Err(Stop::Room) => Last::Room,
        Err(Stop::Unwritten) => return Err(AllocError),
    };
    last_line(last, sink)
}

/// Reads a string of at most `most` bytes.
fn string(
    alloc: Global,
    decoder: &mut Decoder<SliceReader<'_>>,
    most: usize,
    buffer: &mut [u8],
    sink: &mut String,
) -> Result<(), Stop> {
    match decoder.pull()? {
        Header::Bytes(length) => {
            segment_lines::<Bytes>(alloc, &mut decoder.bytes(length), most, buffer, sink)
        }
        Header::Text(length) => {
            segment_lines::<Text>(alloc, &mut decoder.text(length), most, buffer, sink)
        }
        _ => Err(Stop::Other),
    }
}

/// Reads the segments of a string, each to its end. Each segment takes a byte, and the call after the last one ends
/// them.
fn segment_lines<P: Chunked>(
    alloc: Global,
    segments: &mut Segments<'_, SliceReader<'_>, P>,
    most: usize,
    buffer: &mut [u8],
    sink: &mut String,
) -> Result<(), Stop>
    ensures { string_reference segments.new ≡ string_reference segments.old }
{
    'segments: for _ in 0..=most {
        let Some(body) = segments.advance()? else {
            return Ok(());
        };
        segment_line(body.length, sink)?;
        chunk_lines(alloc, &mut segments.segment(body), buffer, sink)?;
    }
    Err(Stop::Room)
}

/// Reads a segment to its end. Of two empty chunks in a row the second one is a stop.
fn chunk_lines<P: Chunked>(
    alloc: Global,
    segment: &mut Segment<'_, SliceReader<'_>, P>,
    buffer: &mut [u8],
    sink: &mut String,
) -> Result<(), Stop>
    ensures { segment_reference segment.new ≡ segment_reference segment.old }
{
    let mut was_empty = false;
    'chunks: while let Some(chunk) = P::chunk(segment, buffer)? {
        if was_empty && chunk.is_empty() {
            return Err(Stop::Stuck);
        }
        was_empty = chunk.is_empty();
        chunk_line(alloc, chunk, sink)?;
    }
    Ok(sink.push_str("stop\n")?)
}
