ghost use Rattle.std.specs.Prelude.{◌≡◌, ◌≤◌, None};
ghost use Rattle.ciborium_ll.specs.Chunks.{segment_decoder};
ghost use Rattle.ciborium_ll.specs.Decoding.{IsSteady, offset_of, refusals_of, waiting_of};
ghost use Rattle.ciborium_ll.specs.Segments.{string_decoder, string_reference};
ghost use Rattle.ciborium_ll.specs.Title.{title_len};

use crate::calls::{begins_text, decoder_at, pulls};
use crate::checks::{Stop, holds, holds_at, read_end};
use crate::drains::next_segment;
use ciborium_ll::io::{Read, SliceReader};
use ciborium_ll::skip::{skip_bytes, skip_text};
use ciborium_ll::{Bytes, Decoder, Error, Header, Segment, Segments, Text};
use std::process::Abort;

// Pulls the header of a string, and reads it to its end.
fn skips(rt: &impl Abort, decoder: &mut Decoder<SliceReader>, header: Header) -> Stop {
    pulls(rt, decoder, header, 1);
    match header {
        Header::Bytes(length) => read_end(&skip_bytes(decoder, length, &mut [0; 4])),
        Header::Text(length) => read_end(&skip_text(decoder, length, &mut [0; 4])),
        _ => panic!(rt; "no string"),
    }
}

// A string, its header, how a read of it ends, the offset after the read, and how many bytes are left.
type Row = (&'static [u8], Header, Stop, usize, usize);

static ROWS: [Row; 8] = [
    (
        b"\x43\x01\x02\x03\x00",
        Header::Bytes(Some(3)),
        Stop::Never,
        4,
        1,
    ),
    (
        b"\x5f\x5f\x41\x01\xff\x41\x02\xff\x00",
        Header::Bytes(None),
        Stop::Never,
        8,
        1,
    ),
    // broken ones
    (b"\x5f\x01", Header::Bytes(None), Stop::Syntax(1), 2, 0),
    (b"\x5f\x61a\xff", Header::Bytes(None), Stop::Syntax(1), 2, 2),
    (b"\x5f\x42\x01", Header::Bytes(None), Stop::Short, 2, 1),
    (b"\x43\x01", Header::Bytes(Some(3)), Stop::Short, 1, 1),
    // texts, the second with a character that is cut
    (
        b"\x7f\x62\xc3\xa9\x64\xf0\x9f\x98\x80\xff",
        Header::Text(None),
        Stop::Never,
        10,
        0,
    ),
    (
        b"\x7f\x61\xc3\x61\xa9\xff",
        Header::Text(None),
        Stop::Syntax(1),
        3,
        3,
    ),
];

// Reads each string to its end, and compares how it ends, the offset after it, and how many bytes are left.
#[test]
fn whole_strings(rt: HostRuntime) {
    for row in &ROWS {
        let (bytes, header, want, offset, left) = row;
        let mut decoder = decoder_at(bytes, 0);
        let is_right = skips(&rt, &mut decoder, *header) == *want && !decoder.is_waiting();
        let is_read = decoder.offset() == *offset && decoder.into_inner().left().len() == *left;
        holds_at(&rt, is_right && is_read, bytes);
    }
}

// Reads the first segment of a text, partly by hand, and the rest by `finish`. It compares how the read ends, and the
// offset.
fn finish_row(rt: &impl Abort, bytes: &[u8], want: Stop, offset: usize) {
    let mut decoder = decoder_at(bytes, 0);
    let mut segments = begins_text(rt, &mut decoder, None, 1);
    let mut segment = next_segment(rt, &mut segments);
    let is_given = matches!(segment.pull(&mut [0; 3]), Ok(Some(_)));
    let is_right = read_end(&segment.finish(&mut [0; 8])) == want;
    holds_at(
        rt,
        is_given && is_right && decoder.offset() == offset,
        bytes,
    );
}

#[test]
fn the_rest_of_a_segment(rt: HostRuntime) {
    finish_row(&rt, b"\x7f\x65ab\xc3\xa9c\xff", Stop::Never, 7);
    finish_row(&rt, b"\x7f\x65ab\xc3cd\xff", Stop::Syntax(1), 7);
}

// Reads the next segment of a text to its end. Proofs in this crate, outside the library, see what it does to the
// decoder.
fn finishes_next<R: Read>(
    segments: &mut Segments<'_, R, Text>,
    buffer: &mut [u8; 4],
) -> Result<(), Error<R::Error>>
    ensures same_reference { string_reference segments.new ≡ string_reference segments.old }
    ensures refusals { refusals_of (string_decoder segments.new) ≡ refusals_of (string_decoder segments.old) }
{
    match segments.advance()? {
        Some(body) => segments.finish(body, buffer),
        None => Ok(()),
    }
}

// Reads a segment of a steady reader to its end.
fn steady_segment<R: Read>(
    segment: Segment<'_, R, Bytes>,
    buffer: &mut [u8; 4],
) -> Result<(), Error<R::Error>>
    requires { IsSteady R.Read (segment_decoder segment) }
{
    segment.finish(buffer)
}

// Pulls a segment, and reads it to its end. Proofs in this crate, outside the library, see that its reader stays
// steady.
fn next_steady_segment<R: Read>(
    segments: &mut Segments<'_, R, Bytes>,
    buffer: &mut [u8; 4],
) -> Result<(), Error<R::Error>>
    requires { IsSteady R.Read (string_decoder segments.old) }
{
    match segments.pull()? {
        Some(segment) => steady_segment(segment, buffer),
        None => Ok(()),
    }
}

// Reads the first segment of a byte string.
fn reads_first<R: Read>(decoder: &mut Decoder<R>) -> Result<(), Error<R::Error>>
    requires none_waits { waiting_of decoder.old ≡ None }
    requires covered { title_len (Header.Bytes None) ≤ offset_of decoder.old }
    requires steady { IsSteady R.Read decoder.old }
{
    let mut segments = decoder.bytes(None);
    next_steady_segment(&mut segments, &mut [0; 4])
}

#[test]
fn a_segment_of_a_steady_reader(rt: HostRuntime) {
    let mut decoder = Decoder::from(SliceReader::new(b"\x5f\x42\x01\x02\xff"));
    pulls(&rt, &mut decoder, Header::Bytes(None), 1);
    let is_read = reads_first(&mut decoder).is_ok();
    holds(&rt, is_read && decoder.offset() == 4, "the segment is read");
}

#[test]
fn the_next_segment(rt: HostRuntime) {
    let mut decoder = decoder_at(b"\x7f\x61a\x62bc\xff", 0);
    let mut segments = begins_text(&rt, &mut decoder, None, 1);
    let is_read = finishes_next(&mut segments, &mut [0; 4]).is_ok();
    holds(&rt, is_read && decoder.offset() == 3, "the segment is read");
}
