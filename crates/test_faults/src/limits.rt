use crate::calls::{self, all_hold, bytes_in, decoder_from, holds, next_segment, recodes};
use crate::copies::{copies_slice, is_fault};
use ciborium_ll::io::{Read, SliceReader};
use ciborium_ll::{Bytes, Decoder, Error, RecodeError, Segment, Segments, Spelling};
use std::alloc::AllocError;
use std::process::Abort;
use test_support::devices::EndlessReader;
use test_support::plain::Fault;

// Returns whether a decoder has read bytes up to this offset, and no further.
fn has_read(mut decoder: Decoder<SliceReader<'_>>, bytes: &[u8], offset: usize) -> bool {
    let rest = bytes.get(offset..).unwrap_or(&[]);
    decoder.offset() == offset && decoder.into_inner().left() == rest
}

// Copies an element through this buffer. The copy has to end with this fault, if there is one, at this offset, and with
// these bytes written, at most two.
fn copies(
    rt: &impl Abort,
    bytes: &[u8],
    buffer: &mut [u8],
    want: Option<Fault>,
    offset: usize,
    output: &[u8],
) {
    let mut space = [0; 2];
    let mut decoder = calls::decoder(Spelling::Any, bytes);
    let mut encoder = calls::encoder(&mut space);
    let is_answer = is_fault(copies_slice(rt, &mut decoder, &mut encoder, buffer), want);
    let is_written = encoder.into_inner().written() == output;
    let is_read = has_read(decoder, bytes, offset);
    all_hold(rt, offset, &[is_answer, is_written, is_read]);
}

// Opens within opens take no memory: the decoder counts them.
#[test]
fn a_hundred_thousand_opens(rt: HostRuntime) -> Result<(), AllocError> {
    let mut bytes = vec![in rt.alloc(); 0x5f; 100_000]?;
    bytes.resize(200_000, 0xff)?;
    copies(
        &rt,
        bytes.as_slice(),
        &mut [0; 64],
        None,
        200_000,
        &[0x5f, 0xff],
    );
    Ok(())
}

// If a damaged body is cut, a small buffer finds the damage, and a large one the end.
#[test]
fn a_damaged_body_that_is_cut(rt: HostRuntime) {
    let bytes = b"\x66\xffabc";
    copies(&rt, bytes, &mut [0; 64], Some(Fault::Short), 1, &[0x66]);
    copies(&rt, bytes, &mut [0; 4], Some(Fault::Syntax(0)), 5, &[0x66]);
}

// Returns whether a pull of a chunk passes the greatest offset, and leaves the only byte of a body.
fn chunk_is_too_long(segment: &mut Segment<'_, SliceReader<'_>, Bytes>) -> bool {
    matches!(segment.pull(&mut [0; 1]), Err(Error::TooLong)) && segment.left() == 1
}

// Returns whether a pull of a chunk by an empty buffer gives no byte, and leaves that byte.
fn chunk_is_empty(segment: &mut Segment<'_, SliceReader<'_>, Bytes>) -> bool {
    matches!(segment.pull(&mut []), Ok(Some([]))) && segment.left() == 1
}

#[test]
fn a_body_that_passes_the_greatest_offset(rt: HostRuntime) {
    let bytes = [0x41, 1];
    let mut decoder = decoder_from(SliceReader::new(&bytes), usize::MAX - 1);
    let mut segments = bytes_in(&rt, &mut decoder, Some(1), &bytes);
    let mut segment = next_segment(&rt, &mut segments);
    let first = chunk_is_too_long(&mut segment);
    let second = chunk_is_too_long(&mut segment);
    let third = chunk_is_empty(&mut segment);
    let is_left = decoder.into_inner().left() == [1].as_slice();
    all_hold(&rt, 1, &[first, second, third, is_left]);
}

// Returns whether a copy of elements into a space passes the greatest offset after it wrote these bytes.
fn copy_is_too_long<R: Read>(
    rt: &impl Abort,
    decoder: &mut Decoder<R>,
    count: usize,
    space: &mut [u8],
    output: &[u8],
) -> bool
where
    R::Error: Drop,
{
    let mut encoder = calls::encoder(space);
    let outcome = recodes(rt, decoder, &mut encoder, count, &mut [0; 64]);
    let is_too_long = matches!(outcome, Err(RecodeError::Read(Error::TooLong)));
    is_too_long && encoder.into_inner().written() == output
}

#[test]
fn a_copy_that_passes_the_greatest_offset(rt: HostRuntime) {
    let bytes = [0x43];
    let mut decoder = decoder_from(SliceReader::new(&bytes), usize::MAX - 1);
    let is_too_long = copy_is_too_long(&rt, &mut decoder, 1, &mut [0; 4], &bytes);
    holds(
        &rt,
        is_too_long && decoder.offset() == usize::MAX,
        1,
        &bytes,
    );
}

// Returns whether a pull of a segment passes the greatest offset.
fn segment_is_too_long(segments: &mut Segments<'_, EndlessReader, Bytes>) -> bool {
    matches!(segments.pull(), Err(Error::TooLong))
}

// Returns whether a decoder has come to the greatest offset, from 1000 bytes before it.
fn has_come_to_an_end(mut decoder: Decoder<EndlessReader>) -> bool {
    decoder.offset() == usize::MAX && decoder.into_inner().given() == 1000
}

#[test]
fn opens_without_an_end(rt: HostRuntime) {
    let mut decoder = decoder_from(EndlessReader::new(0x5f), usize::MAX - 1000);
    let mut segments = bytes_in(&rt, &mut decoder, None, &[0x5f]);
    let first = segment_is_too_long(&mut segments);
    let second = segment_is_too_long(&mut segments);
    all_hold(&rt, 1000, &[first, second, has_come_to_an_end(decoder)]);
}

#[test]
fn numbers_without_an_end(rt: HostRuntime) {
    let mut decoder = decoder_from(EndlessReader::new(0), usize::MAX - 1000);
    let is_too_long = copy_is_too_long(&rt, &mut decoder, usize::MAX, &mut [1; 2000], &[0; 1000]);
    all_hold(&rt, 1000, &[is_too_long, has_come_to_an_end(decoder)]);
}
