//! Tests of each function, on bytes worked by hand and over failing readers and writers. It also has short callers that
//! the documents show.

ghost use Rattle.std.specs.Prelude.{◌≡◌, IfOk, Some};
ghost use Rattle.ciborium_ll.specs.Decoding.{waiting_of};

use crate::checks::{End, ends_so, holds_at};
use ciborium_ll::io::{EndOfFile, OutOfSpace, Read, SliceReader, SliceWriter};
use ciborium_ll::{Decoder, Encoder, Error, Header, RecodeError, Segment, Text};
use std::alloc::Global;
use uses::{
    Entry, SumError, TextError, normalise, read_string, shortest_item_len, sum_numbers,
    write_strings,
};

// Returns how a sum ends and at which offset, and the sum.
fn sum_of(bytes: &[u8]) -> (End, usize, i64) {
    let mut decoder = Decoder::from(SliceReader::new(bytes));
    let outcome = sum_numbers(&mut decoder);
    let offset = decoder.offset();
    match outcome {
        Ok(total) => (End::Done, offset, total),
        Err(SumError::NoArray(place)) => (End::NoArray, place, 0),
        Err(SumError::NoNumber(place)) => (End::NoNumber, place, 0),
        Err(SumError::OutOfRange(place)) => (End::OutOfRange, place, 0),
        Err(SumError::Read(Error::Syntax(place))) => (End::Syntax, place, 0),
        Err(SumError::Read(Error::Io(EndOfFile))) => (End::Short, offset, 0),
        Err(SumError::Read(_)) => (End::Other, offset, 0),
    }
}

// Returns whether a sum ends with this end and at this offset, and is this.
fn is_sum(bytes: &[u8], want: End, place: usize, total: i64) -> bool {
    let (end, at, sum) = sum_of(bytes);
    end == want && at == place && sum == total
}

// Bytes, how a sum of them ends, at which offset, and the sum.
static SUMS: [(&[u8], End, usize, i64); 16] = [
    // 1, -1 and 255, and more bytes after them
    (&[0x83, 0x01, 0x20, 0x18, 0xff, 0x00], End::Done, 5, 255),
    // no numbers
    (&[0x80], End::Done, 1, 0),
    (&[0x9f, 0xff], End::Done, 2, 0),
    // of indefinite length, with titles that are longer than necessary
    (
        &[0x9f, 0x19, 0x00, 0x07, 0x38, 0x64, 0xff, 0xff],
        End::Done,
        7,
        -94,
    ),
    // the greatest and the least sum, and one more
    (
        &[0x81, 0x1b, 0x7f, 0xff, 0xff, 0xff, 0xff, 0xff, 0xff, 0xff],
        End::Done,
        10,
        i64::MAX,
    ),
    (
        &[
            0x82, 0x1b, 0x7f, 0xff, 0xff, 0xff, 0xff, 0xff, 0xff, 0xff, 0x01,
        ],
        End::OutOfRange,
        10,
        0,
    ),
    (
        &[0x81, 0x3b, 0x7f, 0xff, 0xff, 0xff, 0xff, 0xff, 0xff, 0xff],
        End::Done,
        10,
        i64::MIN,
    ),
    (
        &[0x81, 0x3b, 0x80, 0, 0, 0, 0, 0, 0, 0],
        End::OutOfRange,
        1,
        0,
    ),
    // -1 and then 2^63, which alone would be out of range
    (
        &[0x82, 0x20, 0x1b, 0x80, 0, 0, 0, 0, 0, 0, 0],
        End::Done,
        11,
        i64::MAX,
    ),
    // a text, a break in place of a counted number, an array within, a float
    (&[0x82, 0x01, 0x61, 0x31], End::NoNumber, 2, 0),
    (&[0x82, 0x01, 0xff], End::NoNumber, 2, 0),
    (&[0x9f, 0x80, 0xff], End::NoNumber, 1, 0),
    (&[0x9f, 0xf9, 0x3c, 0x00, 0xff], End::NoNumber, 1, 0),
    // no array, no title, and bytes that end too early
    (&[0xa0], End::NoArray, 0, 0),
    (&[0x81, 0x1c], End::Syntax, 1, 0),
    (&[0x82, 0x01], End::Short, 2, 0),
];

#[test]
fn sums(rt: HostRuntime) {
    for &(bytes, end, place, total) in &SUMS {
        holds_at(&rt, is_sum(bytes, end, place, total), bytes);
    }
}

const ENTRIES: &[Entry] = &[
    Entry {
        key: "a",
        value: "Grüße",
    },
    Entry {
        key: "",
        value: "The quick brown fox jumps",
    },
];

const MAP: &[u8] = b"\xa2\x61a\x67Gr\xc3\xbc\xc3\x9fe\x60\x78\x19The quick brown fox jumps";

// Returns whether a write of a map into some space succeeds or not, as expected, and writes these bytes.
fn is_map(space: &mut [u8], entries: &[Entry], is_ok: bool, want: &[u8]) -> bool {
    let mut encoder = Encoder::from(SliceWriter::new(space));
    write_strings(&mut encoder, entries).is_ok() == is_ok && encoder.into_inner().written() == want
}

const KEY: &[Entry] = &[Entry {
    key: "k",
    value: "v",
}];

#[test]
fn maps_of_strings(rt: HostRuntime) {
    let mut space = [0; 64];
    holds_at(&rt, is_map(&mut space, ENTRIES, true, MAP), MAP);
    holds_at(&rt, is_map(&mut [], &[], false, &[]), &[]);
    // The title and the key fit, and the value's title.
    let want = b"\xa1\x61k\x61";
    holds_at(&rt, is_map(&mut space[..4], KEY, false, want), want);
}

fn end_of_stream(outcome: &Result<(), RecodeError<EndOfFile, OutOfSpace>>) -> (End, usize) {
    match outcome {
        Ok(()) => (End::Done, 0),
        Err(RecodeError::Read(Error::Syntax(place))) => (End::Syntax, *place),
        Err(RecodeError::Read(_)) => (End::Other, 0),
        Err(RecodeError::Write(OutOfSpace)) => (End::Full, 0),
    }
}

// Bytes, how many elements are copied, into how much space, how the copy ends and where a fault is, the written bytes,
// and the bytes that are left.
type Stream = (
    &'static [u8],
    usize,
    usize,
    End,
    usize,
    &'static [u8],
    &'static [u8],
);

static STREAMS: [Stream; 4] = [
    // an array of 1 in nine bytes, and a text of two pieces with a further open inside
    (
        b"\x98\x01\x1b\x00\x00\x00\x00\x00\x00\x00\x01\x7f\x7f\x78\x01a\xff\x61b\xff\x05",
        3,
        32,
        End::Done,
        0,
        b"\x81\x01\x7f\x61a\x61b\xff",
        b"\x05",
    ),
    (&[0x18, 1, 0x1f, 2], 2, 32, End::Syntax, 2, &[1], &[2]),
    (&[0x18, 0x18], 1, 1, End::Full, 0, &[0x18], &[]),
    // the room need not exceed the spelling, whatever bytes are due
    (&[0x18, 1, 0x18, 2], 1, 1, End::Done, 0, &[1], &[0x18, 2]),
];

// Returns whether a copy of `count` elements into some space ends with this end, and these bytes are written, and these
// left.
fn is_stream(
    bytes: &[u8],
    count: usize,
    space: &mut [u8],
    end: End,
    place: usize,
    written: &[u8],
    left: &[u8],
) -> bool {
    let (reader, writer, outcome) = normalise(
        SliceReader::new(bytes),
        SliceWriter::new(space),
        count,
    );
    let is_moved = writer.written() == written && reader.left() == left;
    is_moved && ends_so(end_of_stream(&outcome), end, place)
}

#[test]
fn streams(rt: HostRuntime) {
    for &(bytes, count, room, end, place, written, left) in &STREAMS {
        let mut space = [0; 32];
        let space = &mut space[..room.min(32)];
        let is_right = is_stream(bytes, count, space, end, place, written, left);
        holds_at(&rt, is_right, bytes);
    }
}

// Bytes, and how long the first item is if it stands in its shortest spelling.
static SHORTEST: [(&[u8], Option<usize>); 18] = [
    (&[0x00], Some(1)),
    (&[0x00, 0xff, 0xff], Some(1)),
    (&[0x18, 0x18], Some(2)),
    // a title that is longer than necessary, at the start and within
    (&[0x18, 0x17], None),
    (&[0x82, 0x01, 0x19, 0x00, 0xff], None),
    (&[0x98, 0x01, 0x01], None),
    // a map of a text to an array of indefinite length
    (&[0xa1, 0x61, b'a', 0x9f, 0x01, 0x02, 0xff, 0x00], Some(7)),
    // a text of indefinite length, and one with a further open inside
    (&[0x7f, 0x61, b'a', 0x60, 0xff, 0x60], Some(5)),
    (&[0x7f, 0x7f, 0x61, b'a', 0xff, 0xff], None),
    // a body that is no text, and bytes that are no title
    (&[0x61, 0xff], None),
    (&[0x41, 0xff], Some(2)),
    // simple values: 31 in two bytes has no meaning
    (&[0xf8, 0x20], Some(2)),
    (&[0xf8, 0x1f], None),
    // no whole item: nothing, a break, a pair without its value, a tag alone
    (&[], None),
    (&[0xff], None),
    (&[0xbf, 0x01, 0xff], None),
    (&[0xc1], None),
    (&[0xc1, 0xf9, 0x00, 0x00], Some(4)),
];

#[test]
fn shortest_items(rt: HostRuntime) {
    for &(bytes, want) in &SHORTEST {
        holds_at(&rt, shortest_item_len(bytes) == want, bytes);
    }
}

#[test]
fn nested_items(rt: HostRuntime) {
    // Arrays of one item each. The innermost array has none.
    let mut bytes = [0x81; 65];
    bytes[63] = 0x80;
    holds_at(&rt, shortest_item_len(&bytes) == Some(64), &bytes);
    // One level more than the call takes.
    bytes[63] = 0x81;
    bytes[64] = 0x80;
    holds_at(&rt, shortest_item_len(&bytes).is_none(), &bytes);
}

// Returns whether a text of at most `limit` bytes is read, and is this text, and ends at this offset.
fn is_text(alloc: Global, bytes: &[u8], limit: usize, want: &[u8], offset: usize) -> bool {
    let mut decoder = Decoder::from(SliceReader::new(bytes));
    match read_string(alloc, &mut decoder, limit) {
        Ok(text) => text.as_bytes() == want && decoder.offset() == offset,
        Err(_) => false,
    }
}

// Bytes, a limit, the text, and the offset after it.
static TEXTS: [(&[u8], usize, &[u8], usize); 7] = [
    (b"\x65hello!", 5, b"hello", 6),
    (b"\x60", 0, b"", 1),
    // segments, an empty one, and a text within the text
    (b"\x7f\x62ab\x60\x61c\xff", 3, b"abc", 8),
    (b"\x7f\x7f\x61a\xff\x61b\xff", 2, b"ab", 8),
    (b"\x7f\xff", 0, b"", 2),
    // as many empty segments as the call takes
    (b"\x7f\x60\x60\xff", 1, b"", 4),
    // a character of two bytes
    (b"\x62\xc3\xa9", 2, b"\xc3\xa9", 3),
];

#[test]
fn texts(rt: HostRuntime) {
    for &(bytes, limit, want, offset) in &TEXTS {
        let is_right = is_text(rt.alloc(), bytes, limit, want, offset);
        holds_at(&rt, is_right, bytes);
    }
}

// Returns how a read of a text of at most `limit` bytes ends, and at which offset.
fn end_of_text(alloc: Global, bytes: &[u8], limit: usize) -> (End, usize) {
    match read_string(alloc, &mut Decoder::from(SliceReader::new(bytes)), limit) {
        Ok(_) => (End::Done, 0),
        Err(TextError::NoText(place)) => (End::NoText, place),
        Err(TextError::TooLong) => (End::TooLong, 0),
        Err(TextError::Read(Error::Syntax(place))) => (End::Syntax, place),
        Err(TextError::Read(Error::Io(EndOfFile))) => (End::Short, 0),
        Err(TextError::Read(_) | TextError::Memory) => (End::Other, 0),
    }
}

// Bytes, a limit, why no text is read, and at which offset if the error has one.
static NO_TEXTS: [(&[u8], usize, End, usize); 8] = [
    (b"\x65hello", 4, End::TooLong, 0),
    (b"\x7f\x62ab\x60\x61c\xff", 2, End::TooLong, 0),
    // one empty segment more than the call takes
    (b"\x7f\x60\x60\x60\xff", 1, End::TooLong, 0),
    // a character that is cut between two segments, and a byte that begins no character
    (b"\x7f\x61\xc3\x61\xa9\xff", 9, End::Syntax, 1),
    (b"\x61\xff", 9, End::Syntax, 0),
    // bytes in place of a text, alone and within
    (b"\x43abc", 9, End::NoText, 0),
    (b"\x7f\x41a\xff", 9, End::Syntax, 1),
    (b"\x62a", 9, End::Short, 0),
];

#[test]
fn no_texts(rt: HostRuntime) {
    for &(bytes, limit, want, place) in &NO_TEXTS {
        let end = end_of_text(rt.alloc(), bytes, limit);
        holds_at(&rt, ends_so(end, want, place), bytes);
    }
}

#[test]
fn a_text_longer_than_the_buffer(rt: HostRuntime) {
    // The first read ends within the character of two bytes.
    let mut bytes = [b'x'; 68];
    bytes[0] = 0x78;
    bytes[1] = 66;
    bytes[65] = 0xc3;
    bytes[66] = 0xa9;
    let is_right = is_text(rt.alloc(), &bytes, 66, &bytes[2..], 68);
    holds_at(&rt, is_right, &bytes);
}

// The next header, which stays the next one.
fn peek<R: Read>(decoder: &mut Decoder<R>) -> Result<Header, Error<R::Error>>
    ensures { IfOk result (λ header. waiting_of decoder.new ≡ Some header) }
{
    let header = decoder.pull()?;
    decoder.push(header);
    Ok(header)
}

// Returns whether the next header is this header, and stays the next.
fn peeks(decoder: &mut Decoder<SliceReader>, want: Header) -> bool {
    matches!(peek(decoder), Ok(header) if header == want)
}

// Whether the bytes have ended.
fn has_ended(decoder: &mut Decoder<SliceReader>) -> bool {
    matches!(peek(decoder), Err(Error::Io(EndOfFile)))
}

fn pulls(decoder: &mut Decoder<SliceReader>, want: Header) -> bool {
    matches!(decoder.pull(), Ok(header) if header == want)
}

// A number whose title is longer than necessary, and waits as the shortest one, and an empty array after it.
#[test]
fn a_header_ahead(rt: HostRuntime) {
    let mut decoder = Decoder::from(SliceReader::new(&[0x18, 5, 0x80]));
    let five = Header::Positive(5);
    let empty = Header::Array(Some(0));
    let steps = [
        peeks(&mut decoder, five),
        decoder.offset() == 1,
        peeks(&mut decoder, five),
        decoder.offset() == 1,
        pulls(&mut decoder, five),
        decoder.offset() == 2,
        peeks(&mut decoder, empty),
        pulls(&mut decoder, empty),
        has_ended(&mut decoder),
        decoder.offset() == 3,
    ];
    assert!(rt; !steps.contains(&false), "of the steps {steps:?}");
}

// The first chunk of a text.
fn first_chunk<'a, R: Read>(
    decoder: &mut Decoder<R>,
    buffer: &'a mut [u8],
) -> Result<Option<&'a str>, Error<R::Error>> {
    let Header::Text(len) = decoder.pull()? else {
        return Ok(None);
    };
    let mut segments = decoder.text(len);
    match segments.pull()? {
        Some(mut segment) => segment.pull(buffer),
        None => Ok(None),
    }
}

// How many characters the rest of a segment has.
fn count_characters<R: Read>(segment: &mut Segment<'_, R, Text>) -> Result<usize, Error<R::Error>> {
    let mut buffer = [0; 64];
    let mut count = 0usize;
    for _ in 0..=segment.left() {
        let Some(chunk) = segment.pull(&mut buffer)? else {
            break;
        };
        count = count.saturating_add(chunk.chars().count());
    }
    Ok(count)
}

// How many characters the first segment of a text has.
fn first_count<R: Read>(decoder: &mut Decoder<R>) -> Result<usize, Error<R::Error>> {
    let Header::Text(len) = decoder.pull()? else {
        return Ok(0);
    };
    let mut segments = decoder.text(len);
    match segments.pull()? {
        Some(mut segment) => count_characters(&mut segment),
        None => Ok(0),
    }
}

// Returns whether the first segment of a text has this many characters.
fn has_characters(bytes: &[u8], want: usize) -> bool {
    let mut decoder = Decoder::from(SliceReader::new(bytes));
    matches!(first_count(&mut decoder), Ok(count) if count == want)
}

// Bytes, and how many characters the first segment of the text has.
static CHARACTERS: [(&[u8], usize); 4] = [
    (b"\x65hello", 5),
    (b"\x65abc\xc3\xa9", 4),
    (b"\x7f\x62ab\x60\xff", 2),
    (b"\x60", 0),
];

#[test]
fn characters(rt: HostRuntime) {
    for &(bytes, want) in &CHARACTERS {
        holds_at(&rt, has_characters(bytes, want), bytes);
    }
}

// Returns whether the first chunk of at most four bytes is this.
fn is_first_chunk(bytes: &[u8], want: Option<&str>) -> bool {
    let mut decoder = Decoder::from(SliceReader::new(bytes));
    let mut buffer = [0; 4];
    matches!(first_chunk(&mut decoder, &mut buffer), Ok(chunk) if chunk == want)
}

// Bytes, and their first chunk of at most four bytes.
static FIRST_CHUNKS: [(&[u8], Option<&str>); 5] = [
    (b"\x65hello", Some("hell")),
    (b"\x7f\x62ab\x60\xff", Some("ab")),
    // the second character is cut, and waits
    (b"\x65abc\xc3\xa9", Some("abc")),
    (b"\x7f\xff", None),
    (b"\x41a", None),
];

#[test]
fn first_chunks(rt: HostRuntime) {
    for &(bytes, want) in &FIRST_CHUNKS {
        holds_at(&rt, is_first_chunk(bytes, want), bytes);
    }
}
