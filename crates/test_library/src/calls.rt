ghost use Rattle.std.specs.Prelude.{◌≡◌, ◌≤◌, IsTrue, None, length, take};
ghost use Rattle.ciborium_ll.specs.Decoding.{IsSteady, offset_of, waiting_of};
ghost use Rattle.ciborium_ll.specs.Title.{title_len};

use crate::checks::{Stop, holds, next_header, read_stop};
use ciborium_ll::io::{
    BufferedReader, Discard, Failures, KeepingReader, Read, SliceReader, SliceWriter, Write,
};
use ciborium_ll::{Bytes, Decoder, Encoder, Error, Header, Segments, Spelling, Text};
use ciborium_ll_grammar::hdr::table::title_lens;
use std::process::Abort;
use test_support::streams::PartReader;

// Pulls the expected header.
pub fn pulls<'a>(
    rt: &impl Abort,
    decoder: &mut Decoder<SliceReader<'a>>,
    want: Header,
    offset: usize,
)
    ensures none_waits { waiting_of decoder.new ≡ None }
    ensures covered { title_len want ≤ offset_of decoder.new }
    ensures steady { IsSteady ⟦<SliceReader<'a> as Read>⟧ decoder.old → IsSteady ⟦<SliceReader<'a> as Read>⟧ decoder.new }
{
    let Ok(header) = decoder.pull() else {
        panic!(rt; "no header");
    };
    let is_right = header == want && decoder.offset() == offset;
    assert!(rt; is_right, "another header, or another offset behind it");
}

// Pulls the title of a byte string, and begins to read it. The proof here shows that the pull is enough for the read.
pub fn begins_bytes<'a, 'b>(
    rt: &impl Abort,
    decoder: &'a mut Decoder<SliceReader<'b>>,
    length: Option<usize>,
    title: usize,
) -> Segments<'a, SliceReader<'b>, Bytes> {
    pulls(rt, decoder, Header::Bytes(length), title);
    decoder.bytes(length)
}

// Pulls the title of a text, and begins to read it.
pub fn begins_text<'a, 'b>(
    rt: &impl Abort,
    decoder: &'a mut Decoder<SliceReader<'b>>,
    length: Option<usize>,
    title: usize,
) -> Segments<'a, SliceReader<'b>, Text> {
    pulls(rt, decoder, Header::Text(length), title);
    decoder.text(length)
}

// Reads the bytes that come next. It ensures nothing, as other functions below: after several calls with large
// contracts the proof of a caller takes long.
pub fn reads<R: Read>(reader: &mut R, data: &mut [u8]) -> Result<(), R::Error> {
    reader.read_exact(data)
}

// Writes bytes, and passes them on. It returns whether both succeed.
pub fn writes<W: Write>(writer: &mut W, data: &[u8]) -> bool
where
    W::Error: Drop,
{
    writer.write_all(data).is_ok() && writer.flush().is_ok()
}

// Writes the title of a header.
pub fn pushes<W: Write>(encoder: &mut Encoder<W>, header: Header) -> bool
where
    W::Error: Drop,
{
    encoder.push(header).is_ok()
}

// Writes bytes to the start of a slice, and returns whether that succeeds. The slice then has them after the writer has
// ended.
fn fills(space: &mut [u8], bytes: &[u8]) -> bool
    ensures { IsTrue result → take (length bytes.now) space.new ≡ bytes.now }
{
    let mut writer = SliceWriter::new(space);
    let is_written = writer.write_all(bytes).is_ok();
    writer.flush().is_ok() && is_written
}

// Reads from a slice of three bytes, twice two.
#[test]
fn a_reader_of_a_slice(rt: HostRuntime) {
    let mut reader = SliceReader::new(&[1, 2, 3]);
    let mut two = [0; 2];
    let is_read = reads(&mut reader, &mut two).is_ok();
    holds(&rt, is_read && two == [1, 2], "two bytes are read");
    let is_refused = reads(&mut reader, &mut two).is_err();
    let is_right = is_refused && reader.left() == [3].as_slice();
    holds(&rt, is_right, "the third is left");
}

// A slice has a title of three bytes at hand if nine bytes are left, and none after it.
#[test]
fn a_title_at_hand(rt: HostRuntime) {
    let mut reader = SliceReader::new(&[0x19, 1, 0, 3, 4, 5, 6, 7, 8]);
    let found = reader.read_at_hand(title_lens());
    let is_found = found == Some((0x19, [1, 0, 3, 4, 5, 6, 7, 8]));
    holds(&rt, is_found, "nine bytes are found");
    let is_right = reader.left() == [3, 4, 5, 6, 7, 8].as_slice();
    holds(&rt, is_right, "three are consumed");
    let is_none = reader.read_at_hand(title_lens()).is_none();
    let is_right = is_none && reader.left().len() == 6;
    holds(&rt, is_right, "six are too few");
}

// Reads a byte, and then takes the title of three bytes that is at hand. None is at hand before that read, and none
// after the title.
fn takes_title_at_hand<R: Read>(reader: &mut R) -> bool
where
    R::Error: Drop,
{
    let is_none_before = reader.read_at_hand(title_lens()).is_none();
    let is_read = reader.read_exact(&mut [0]).is_ok();
    let found = reader.read_at_hand(title_lens());
    let is_none_after = reader.read_at_hand(title_lens()).is_none();
    is_none_before && is_read && found == Some((0x19, [1, 0, 3, 4, 5, 6, 7, 8])) && is_none_after
}

// Nine bytes that were read ahead are at hand.
#[test]
fn a_title_read_ahead(rt: HostRuntime) {
    let bytes = [0, 0x19, 1, 0, 3, 4, 5, 6, 7, 8];
    let mut lent = [0; 16];
    let mut reader = BufferedReader::new(PartReader::new(&bytes, 10), &mut lent);
    let is_taken = takes_title_at_hand(&mut reader);
    let is_right = is_taken && reader.buffer() == [3, 4, 5, 6, 7, 8].as_slice();
    holds(&rt, is_right, "the title is consumed");
    let mut lent = [0; 16];
    let mut reader = KeepingReader::new(PartReader::new(&bytes, 10), &mut lent);
    let is_taken = takes_title_at_hand(&mut reader);
    let is_right = is_taken && reader.buffer() == [3, 4, 5, 6, 7, 8].as_slice();
    holds(&rt, is_right, "the title is consumed, and the rest is kept");
}

// Writes a byte and the bytes after it.
fn pairs<W: Write>(writer: &mut W, first: u8, rest: &[u8]) -> bool
where
    W::Error: Drop,
{
    writer.write_pair(first, rest).is_ok()
}

#[test]
fn a_pair_to_a_slice(rt: HostRuntime) {
    let mut space = [0; 4];
    let mut writer = writer_into(&mut space, 3);
    holds(&rt, pairs(&mut writer, 0x18, &[24]), "two bytes fit");
    holds(&rt, !pairs(&mut writer, 0x19, &[1, 0]), "three do not fit");
    let is_right = writer.room() == 0 && has_written(&writer, &[0x18, 24, 0x19]);
    holds(&rt, is_right, "the first of them is written");
    holds(&rt, !pairs(&mut writer, 0xf6, &[]), "no byte fits");
}

// Writes to a slice of three bytes, twice two.
#[test]
fn a_writer_to_a_slice(rt: HostRuntime) {
    let mut space = [0; 3];
    let mut writer = SliceWriter::new(&mut space);
    holds(&rt, writes(&mut writer, &[7, 8]), "two bytes fit");
    holds(&rt, !writes(&mut writer, &[9, 9]), "there is room for one");
    let is_right = writer.room() == 1 && has_written(&writer, &[7, 8]);
    holds(&rt, is_right, "two bytes are written");
}

#[test]
fn a_writer_that_keeps_nothing(rt: HostRuntime) {
    let mut writer = Discard::new(3);
    holds(&rt, writes(&mut writer, &[7, 8]), "two bytes fit");
    holds(&rt, !writes(&mut writer, &[9, 9]), "there is room for one");
    let is_right = writer.room() == 1 && writes(&mut writer, &[]);
    holds(&rt, is_right, "a write of none succeeds before it");
    let mut encoder = Encoder::from(writer);
    let is_written = pushes(&mut encoder, Header::Positive(24));
    let is_right = !is_written && encoder.into_inner().room() == 0;
    holds(&rt, is_right, "of a title of two bytes the first fits");
}

// The writer takes no memory, so its room may exceed all memory that there is.
#[test]
fn a_writer_that_keeps_nothing_of_much(rt: HostRuntime) {
    let mut writer = Discard::new(usize::MAX);
    for _ in 0..1000 {
        holds(&rt, writes(&mut writer, &[0; 1000]), "each write fits");
    }
    let taken = usize::MAX - writer.room();
    holds(&rt, taken == 1_000_000, "a million bytes are taken");
}

#[test]
fn a_slice_behind_its_writer(rt: HostRuntime) {
    let mut space = [0; 3];
    let is_filled = fills(&mut space, &[7, 8]);
    let is_right = is_filled && space == [7, 8, 0];
    holds(&rt, is_right, "two bytes are written");
    let is_filled = fills(&mut space, &[9; 4]);
    holds(&rt, !is_filled && space == [7, 8, 0], "four do not fit");
}

#[test]
fn failures(_rt: HostRuntime) {
    let mut failures = Failures::new();
    failures.raise();
}

// A decoder of bytes that begin at an offset.
pub fn decoder_at(bytes: &[u8], start: usize) -> Decoder<SliceReader<'_>> {
    Decoder::with_offset(SliceReader::new(bytes), start)
}

// A decoder of this spelling of bytes that begin at an offset.
pub fn spelled_decoder(bytes: &[u8], spelling: Spelling, start: usize) -> Decoder<SliceReader<'_>> {
    Decoder::with_spelling(SliceReader::new(bytes), spelling, start)
}

// A strict decoder of bytes.
pub fn strict_decoder(bytes: &[u8]) -> Decoder<SliceReader<'_>> {
    Decoder::strict(SliceReader::new(bytes))
}

// Makes a writer into the first `room` bytes of a space.
pub fn writer_into(space: &mut [u8], room: usize) -> SliceWriter<'_> {
    let room = room.min(space.len());
    SliceWriter::new(&mut space[..room])
}

// Makes an encoder into the first `room` bytes of a space.
pub fn encoder_into(space: &mut [u8], room: usize) -> Encoder<SliceWriter<'_>> {
    Encoder::from(writer_into(space, room))
}

// Whether a writer wrote these bytes.
pub fn has_written(writer: &SliceWriter, bytes: &[u8]) -> bool {
    writer.written() == bytes
}

// Returns whether a decoder has come to this offset, and these bytes are left after it.
pub fn has_read(mut decoder: Decoder<SliceReader>, offset: usize, left: Option<&[u8]>) -> bool {
    match left {
        Some(left) => decoder.offset() == offset && has_left(decoder, left),
        None => false,
    }
}

// Returns whether these bytes are left after a decoder.
pub fn has_left(decoder: Decoder<SliceReader>, left: &[u8]) -> bool {
    decoder.into_inner().left() == left
}

// Gives a header back, if the decoder allows that.
pub fn takes_back(decoder: &mut Decoder<SliceReader>, header: Header) -> bool {
    if decoder.is_waiting() || header.title_len() > decoder.offset() {
        return false;
    }
    decoder.push(header);
    decoder.is_waiting()
}

// Returns the next header by a decoder over a decoder, or why the inner decoder stopped.
fn next_within(outer: &mut Decoder<Decoder<SliceReader>>) -> Result<Header, Stop> {
    match outer.pull() {
        Ok(header) => Ok(header),
        Err(Error::Io(error)) => Err(read_stop(&error)),
        Err(_) => Err(Stop::Never),
    }
}

// A decoder over this one.
fn decoder_over(inner: Decoder<SliceReader<'_>>) -> Decoder<Decoder<SliceReader<'_>>> {
    Decoder::from(inner)
}

// Returns whether a decoder over this one gives the number 1 and then finds the end, and gives this one back.
fn gives_the_last(inner: Decoder<SliceReader<'_>>) -> (bool, Decoder<SliceReader<'_>>) {
    let mut outer = decoder_over(inner);
    let is_given = next_within(&mut outer) == Ok(Header::Positive(1)) && outer.offset() == 1;
    let has_ended = next_within(&mut outer) == Err(Stop::Short);
    (is_given && has_ended, outer.into_inner())
}

// A decoder takes a header back, and a decoder over it has no bytes then.
fn waits_within(mut inner: Decoder<SliceReader>) -> bool {
    let is_back = takes_back(&mut inner, Header::Positive(1)) && inner.offset() == 2;
    is_back && next_within(&mut decoder_over(inner)) == Err(Stop::Waiting)
}

#[test]
fn a_decoder_over_a_decoder(rt: HostRuntime) {
    let mut inner = decoder_at(&[0x18, 24, 1], 0);
    let is_given = next_header(&mut inner) == Ok(Header::Positive(24));
    let is_first = is_given && inner.offset() == 2;
    holds(&rt, is_first, "the one within gives a header");
    let (is_last, mut inner) = gives_the_last(inner);
    holds(&rt, is_last, "the other one gives the next, the last");
    holds(&rt, inner.offset() == 3, "the one within has read all");
    let is_waiting = waits_within(inner);
    holds(&rt, is_waiting, "no bytes while a header waits");
}

#[test]
fn an_encoder_over_an_encoder(rt: HostRuntime) {
    let mut space = [0; 4];
    let mut encoder: Encoder<Encoder<SliceWriter>> = Encoder::from(encoder_into(&mut space, 4));
    let is_pushed = pushes(&mut encoder, Header::Bytes(Some(3)));
    let is_written = is_pushed && writes(&mut encoder, &[1, 2, 3]);
    holds(&rt, is_written, "all is written");
    let writer = encoder.into_inner().into_inner();
    let is_right = has_written(&writer, &[0x43, 1, 2, 3]);
    holds(&rt, is_right, "these bytes");
}
