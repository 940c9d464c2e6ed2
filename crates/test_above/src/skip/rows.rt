ghost use Rattle.std.specs.Prelude.{◌≤◌};

use crate::shared::{holds, holds_at};
use crate::skip::answers::{Answer, NESTED, item_row, skipped};
use cbor_ahead::skip_slice;
use ciborium_ll::io::{SliceReader, StdReader};
use ciborium_ll::{Decoder, Header};
use std::process::Abort;

// How many levels are allowed, bytes, and how a skip of the item that they begin with ends.
static ROWS: [(usize, &[u8], Answer); 28] = [
    (0, &[0x17], Answer::Item(1)),
    (0, &[0x39, 1, 0, 0], Answer::Item(3)),
    (0, &[0xf9, 0, 0], Answer::Item(3)),
    (0, &[0xf8, 0xff], Answer::Item(2)),
    (0, &[0x5f, 0x41, 1, 0xff], Answer::Item(4)),
    (1, &[0x80], Answer::Item(1)),
    (1, &[0xc0, 1], Answer::Item(2)),
    (1, &[0xbf, 0xff], Answer::Item(2)),
    (1, &[0x9f, 1, 2, 3, 0, 0xff], Answer::Item(6)),
    (2, &[0xa1, 0x61, 0x61, 0x82, 1, 2], Answer::Item(6)),
    (1, &[0xbf, 1, 2, 3, 4, 0xff, 0], Answer::Item(6)),
    (0, &[0x80], Answer::Deep(0)),
    (0, &[0xc0], Answer::Deep(0)),
    (0, &[0xb8, 0], Answer::Deep(0)),
    (1, &[0xa1, 0x61, 0x61, 0x82, 1, 2], Answer::Deep(3)),
    (1, &[0xc1, 0xc1, 1], Answer::Deep(1)),
    (0, &[0xff], Answer::Break(0)),
    (1, &[0x81, 0xff], Answer::Break(1)),
    (1, &[0xc1, 0xff], Answer::Break(1)),
    (1, &[0xa1, 1, 0xff], Answer::Break(2)),
    (1, &[0xbf, 1, 0xff], Answer::Break(2)),
    (1, &[0xbf, 1, 2, 3, 0xff], Answer::Break(4)),
    (3, &[0x62, 0xc3, 0x28], Answer::Syntax(0)),
    (1, &[0x81, 0x1f], Answer::Syntax(1)),
    (1, &[0x81, 0x7f, 0x41, 0, 0xff], Answer::Syntax(2)),
    (1, &[0x81, 0x7f, 0x61, 0xc3, 0xff], Answer::Syntax(2)),
    (1, &[0x82, 1], Answer::Short(2)),
    (0, &[], Answer::Short(0)),
];

#[test]
fn items_and_faults(rt: HostRuntime) {
    for &(depth, bytes, want) in &ROWS {
        item_row(&rt, depth, bytes, want);
    }
}

// A map announces more pairs than half of all numbers.
#[test]
fn counts_that_no_input_has(rt: HostRuntime) {
    let map = [0xbb, 0x80, 0, 0, 0, 0, 0, 0, 1, 0, 0];
    item_row(&rt, 1, &map, Answer::Short(11));
    item_row(&rt, 1, map.get(..9).unwrap_or(&[]), Answer::Short(9));
    let array = [0x9b, 0xff, 0xff, 0xff, 0xff, 0xff, 0xff, 0xff, 0xff, 0, 0];
    item_row(&rt, 1, &array, Answer::Short(11));
}

#[test]
fn each_beginning_of_an_item(rt: HostRuntime) {
    for end in 0..NESTED.len() {
        let front = NESTED.get(..end).unwrap_or(&[]);
        item_row(&rt, 3, front, Answer::Short(end));
    }
    item_row(&rt, 3, &NESTED, Answer::Item(25));
    item_row(&rt, 2, &NESTED, Answer::Deep(12));
    item_row(&rt, 1, &NESTED, Answer::Deep(3));
}

// Returns whether this many bytes are left after a skip.
fn are_left(depth: usize, bytes: &[u8], left: usize) -> bool
    requires { depth ≤ 256 }
{
    let mut decoder = Decoder::from(SliceReader::new(bytes));
    let _ = skipped(&mut decoder, depth);
    !decoder.is_waiting() && decoder.into_inner().left().len() == left
}

// Skips an item, and compares how many bytes are left.
fn left_row(rt: &impl Abort, depth: usize, bytes: &[u8], left: usize) {
    holds_at(rt, depth <= 256 && are_left(depth, bytes, left), bytes);
}

// The bytes that are left after an item, and after a break and a nest that stop the read.
#[test]
fn what_is_left(rt: HostRuntime) {
    left_row(&rt, 1, &[0xc1, 5, 7, 8], 2);
    left_row(&rt, 0, &[0xff, 7, 8, 9], 3);
    left_row(&rt, 0, &[0xd8, 1, 7, 8], 2);
    left_row(&rt, 1, &[0x81, 0xff, 7, 8], 2);
}

// Skips an item of eleven bytes and another one as those of a slice, and compares the bytes that are left.
#[test]
fn items_of_a_slice(rt: HostRuntime) {
    let bytes = [0x82, 1, 0x68, 97, 98, 99, 100, 101, 102, 103, 104, 2, 7];
    let mut decoder = Decoder::from(SliceReader::new(&bytes));
    let is_skipped = skip_slice(&mut decoder, 1, &mut [0; 4]).is_ok();
    let is_right = is_skipped && decoder.offset() == 11 && decoder.left() == [2, 7].as_slice();
    holds(&rt, is_right, "the first item");
    let is_skipped = skip_slice(&mut decoder, 1, &mut [0; 4]).is_ok();
    let is_right = is_skipped && decoder.offset() == 12 && decoder.left() == [7].as_slice();
    holds(&rt, is_right, "the second item");
}

// Gives up two of three bytes that are left, by a decoder and by its reader.
#[test]
fn bytes_of_a_slice(rt: HostRuntime) {
    let mut decoder = Decoder::from(SliceReader::new(&[1, 2, 3]));
    decoder.consume(2);
    let is_right = decoder.offset() == 2 && decoder.left() == [3].as_slice();
    holds(&rt, is_right, "a decoder");
    let mut reader = SliceReader::new(&[1, 2, 3]);
    reader.consume(2);
    holds(&rt, reader.left() == [3].as_slice(), "a reader");
}

// Pulls a header, and gives it back.
fn waits(decoder: &mut Decoder<SliceReader<'_>>) -> bool {
    match decoder.pull() {
        Ok(header) => {
            let is_read = !decoder.is_waiting() && header.title_len() <= decoder.offset();
            decoder.push(header);
            is_read
        }
        Err(_) => false,
    }
}

// Returns whether the next header is the expected one.
fn has_next(decoder: &mut Decoder<SliceReader<'_>>, want: Header) -> bool {
    matches!(decoder.pull(), Ok(header) if header == want)
}

// Skips an item whose header waits after a title of two bytes. It compares the answer, the offset, and the next header.
fn is_behind(depth: usize, want: Answer, offset: usize, next: Header) -> bool
    requires { depth ≤ 256 }
{
    let mut decoder = Decoder::from(SliceReader::new(&[0x98, 2, 1, 2, 5]));
    waits(&mut decoder)
        && decoder.offset() == 1
        && skipped(&mut decoder, depth) == want
        && decoder.offset() == offset
        && has_next(&mut decoder, next)
}

// The header that waits counts as its shortest title.
#[test]
fn behind_a_header_that_waits(rt: HostRuntime) {
    let is_right = is_behind(1, Answer::Item(4), 4, Header::Positive(5));
    holds(&rt, is_right, "an item");
    let is_right = is_behind(0, Answer::Deep(1), 2, Header::Positive(1));
    holds(&rt, is_right, "no level");
}

// Skips an item by a strict decoder, and compares the answer.
fn strict_row(rt: &impl Abort, bytes: &[u8], want: Answer) {
    let mut decoder = Decoder::strict(SliceReader::new(bytes));
    holds_at(rt, skipped(&mut decoder, 1) == want, bytes);
}

// A strict decoder refuses each spelling that is not the shortest.
#[test]
fn by_a_strict_decoder(rt: HostRuntime) {
    strict_row(&rt, &[0x9f, 5, 0xff], Answer::Item(3));
    strict_row(&rt, &[0x9f, 0x18, 5, 0xff], Answer::Syntax(1));
    strict_row(&rt, &[0x81, 0x5f, 0x5f, 0xff, 0xff], Answer::Syntax(2));
}

// Compares the answer for an item over a slice and over a reader of std.
fn deep_row(rt: &impl Abort, bytes: &[u8], want: Answer) {
    item_row(rt, 256, bytes, want);
    let mut decoder = Decoder::from(StdReader::new(bytes));
    holds_at(rt, skipped(&mut decoder, 256) == want, bytes);
}

// An item in 256 arrays, and one in 257.
#[test]
fn the_deepest_item(rt: HostRuntime) {
    let mut bytes = [0x81; 258];
    bytes[256] = 0;
    deep_row(&rt, &bytes, Answer::Item(257));
    bytes[256] = 0x81;
    bytes[257] = 0;
    deep_row(&rt, &bytes, Answer::Deep(256));
}
