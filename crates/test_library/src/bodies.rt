use crate::calls::{begins_bytes, begins_text, decoder_at, has_written, writer_into};
use crate::checks::{Stop, holds_at, stop_of};
use ciborium_ll::io::{SliceReader, SliceWriter};
use ciborium_ll::{Chunked, Decoder, Header, Segments};
use std::process::Abort;

// Copies the next body of a string to a writer, through four bytes. Proofs of its callers do not see its effect.
fn copies_next<P: Chunked>(
    segments: &mut Segments<'_, SliceReader, P>,
    writer: &mut SliceWriter,
) -> Option<Stop> {
    match segments.advance() {
        Ok(Some(body)) => Some(stop_of(&segments.copy(body, writer, &mut [0; 4]))),
        _ => None,
    }
}

// Copies each body of a string, up to its end or up to a body that stops, and returns how the last body ended.
fn copies_all<P: Chunked>(
    segments: &mut Segments<'_, SliceReader, P>,
    writer: &mut SliceWriter,
) -> Option<Stop> {
    let mut last = None;
    for _ in 0..=8 {
        match copies_next(segments, writer) {
            Some(Stop::Never) => last = Some(Stop::Never),
            Some(stop) => return Some(stop),
            None => return last,
        }
    }
    last
}

// A string, its header, the room of the writer, how the last body ended, the bytes that are then written, and the
// offset of the decoder.
type Row = (
    &'static [u8],
    Header,
    usize,
    Option<Stop>,
    &'static [u8],
    usize,
);

static ROWS: [Row; 13] = [
    // one body, larger than the buffer
    (
        b"\x46\x01\x02\x03\x04\x05\x06\x00",
        Header::Bytes(Some(6)),
        8,
        Some(Stop::Never),
        &[1, 2, 3, 4, 5, 6],
        7,
    ),
    (
        b"\x65hello\x00",
        Header::Text(Some(5)),
        8,
        Some(Stop::Never),
        b"hello",
        6,
    ),
    (
        b"\x40\x00",
        Header::Bytes(Some(0)),
        0,
        Some(Stop::Never),
        b"",
        1,
    ),
    // segments, joined, and the break after them
    (
        b"\x5f\x42\x01\x02\x40\x41\x03\xff\x00",
        Header::Bytes(None),
        8,
        Some(Stop::Never),
        &[1, 2, 3],
        8,
    ),
    (
        b"\x7f\x62ab\x7f\x61c\xff\xff\x00",
        Header::Text(None),
        8,
        Some(Stop::Never),
        b"abc",
        9,
    ),
    // no body
    (b"\x7f\xff\x00", Header::Text(None), 8, None, b"", 2),
    // a character of two bytes on the edge of the buffer
    (
        b"\x66abc\xc3\xa9d",
        Header::Text(Some(6)),
        8,
        Some(Stop::Never),
        b"abc\xc3\xa9d",
        7,
    ),
    // no text, in the second body: the first body is written, and the beginning of the second
    (
        b"\x7f\x61a\x62b\xff\xff",
        Header::Text(None),
        8,
        Some(Stop::Syntax(3)),
        b"ab",
        6,
    ),
    (
        b"\x7f\x61a\x64\xff\xff\xff\xff\xff",
        Header::Text(None),
        8,
        Some(Stop::Syntax(3)),
        b"a",
        8,
    ),
    // bytes are missing: the whole chunks are written
    (
        b"\x46\x01\x02\x03\x04\x05",
        Header::Bytes(Some(6)),
        8,
        Some(Stop::Short),
        &[1, 2, 3, 4],
        5,
    ),
    // no room for the second chunk, which is consumed, nor for the first
    (
        b"\x46\x01\x02\x03\x04\x05\x06",
        Header::Bytes(Some(6)),
        5,
        Some(Stop::Full),
        &[1, 2, 3, 4],
        7,
    ),
    (
        b"\x65hello",
        Header::Text(Some(5)),
        3,
        Some(Stop::Full),
        b"",
        5,
    ),
    // no room for the second body
    (
        b"\x7f\x62ab\x61c\xff",
        Header::Text(None),
        2,
        Some(Stop::Full),
        b"ab",
        6,
    ),
];

// Copies the bodies of the string that the bytes begin with.
fn copied(
    rt: &impl Abort,
    decoder: &mut Decoder<SliceReader>,
    header: Header,
    writer: &mut SliceWriter,
) -> Option<Stop> {
    match header {
        Header::Bytes(length) => copies_all(&mut begins_bytes(rt, decoder, length, 1), writer),
        Header::Text(length) => copies_all(&mut begins_text(rt, decoder, length, 1), writer),
        _ => panic!(rt; "no string"),
    }
}

// Copies the bodies of each string, and compares how the copy ended, the written bytes, and the offset.
#[test]
fn bodies(rt: HostRuntime) {
    for (bytes, header, room, end, written, offset) in &ROWS {
        let mut space = [0; 8];
        let mut writer = writer_into(&mut space, *room);
        let mut decoder = decoder_at(bytes, 0);
        let is_ended = copied(&rt, &mut decoder, *header, &mut writer) == *end;
        let is_right = has_written(&writer, written) && decoder.offset() == *offset;
        holds_at(&rt, is_ended && is_right, bytes);
    }
}
