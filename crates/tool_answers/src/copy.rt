//! Elements that are copied.

use ciborium_ll_decoder::dec::{Decoder, Error};
use ciborium_ll_encoder::enc::Encoder;
use ciborium_ll_io::io::{EndOfFile, OutOfSpace, SliceReader, SliceWriter};
use ciborium_ll_recode::recode::{RecodeError, recode};
use std::alloc::{AllocError, Global};
use tool_requests::answer::{Last, copy_line};
use tool_requests::request::Numbered;

/// How many bytes of a string are copied at a time, at most.
pub const BUFFER_SIZE: usize = 64;

/// Answers `recode`: the bytes that a copy of the elements wrote, and then those that are left, or why the copy
/// stopped.
pub fn elements(alloc: Global, asked: &Numbered, sink: &mut String) -> Result<(), AllocError> {
    let decoder = Decoder::from(SliceReader::new(asked.bytes.as_slice()));
    copy(alloc, decoder, asked, sink)
}

/// Answers `strict`: the same by a strict decoder.
pub fn strict_elements(
    alloc: Global,
    asked: &Numbered,
    sink: &mut String,
) -> Result<(), AllocError> {
    let decoder = Decoder::strict(SliceReader::new(asked.bytes.as_slice()));
    copy(alloc, decoder, asked, sink)
}

/// Copies elements of this decoder, and writes the same answer.
fn copy(
    alloc: Global,
    mut decoder: Decoder<SliceReader<'_>>,
    asked: &Numbered,
    sink: &mut String,
) -> Result<(), AllocError> {
    // No element has a longer spelling than the one that it is read from.
    let mut space = vec![in alloc; 0u8; asked.bytes.len()]?;
    let mut encoder = Encoder::from(SliceWriter::new(space.as_mut_slice()));
    let last = copy_elements(&mut decoder, &mut encoder, asked.number);
    let writer = encoder.into_inner();
    let reader = decoder.into_inner();
    copy_line(alloc, last, writer.written(), reader.left(), sink)
}

/// Copies `count` elements, and returns why the copy stopped early, if it did. The contract says nothing of the copy,
/// so that the proofs of its callers stay small. `describe_stop` is apart for the same reason.
fn copy_elements(
    decoder: &mut Decoder<SliceReader<'_>>,
    encoder: &mut Encoder<SliceWriter<'_>>,
    count: usize,
) -> Option<Last> {
    let mut buffer = [0; BUFFER_SIZE];
    match recode(decoder, encoder, count, &mut buffer) {
        Ok(()) => None,
        Err(error) => Some(describe_stop(error, decoder.offset())),
    }
}

/// Returns why a copy stopped that ended at this offset.
fn describe_stop(error: RecodeError<EndOfFile, OutOfSpace>, offset: usize) -> Last {
    match error {
        RecodeError::Read(Error::Syntax(place)) => Last::Syntax(place),
        RecodeError::Read(Error::Io(_)) => Last::Short(offset),
        _ => Last::Room,
    }
}
