ghost use Rattle.std.specs.Prelude.{◌≤◌};

use crate::shared::holds_at;
use cbor_ahead::skip_slice;
use cbor_skip::{SkipError, skip_after, skip_item};
use ciborium_ll::io::{Read, SliceReader};
use ciborium_ll::{Decoder, Error};
use std::process::Abort;

// How a skip ends: after an item, or why not. The numbers are offsets. Those of `Item` and `Short` are the decoder's.
#[derive(Clone, Copy, PartialEq, Eq)]
pub enum Answer {
    Item(usize),
    Break(usize),
    Deep(usize),
    Syntax(usize),
    Short(usize),
    Other,
}

// Returns the answer of a decoder's error. The decoder is at this offset then.
fn read_answer<E>(error: &Error<E>, offset: usize) -> Answer {
    match error {
        Error::Syntax(place) => Answer::Syntax(*place),
        Error::Io(_) => Answer::Short(offset),
        _ => Answer::Other,
    }
}

// Returns the answer of a skip's outcome. The decoder is at this offset then.
pub fn answer_of<E>(outcome: &Result<(), SkipError<E>>, offset: usize) -> Answer {
    match outcome {
        Ok(()) => Answer::Item(offset),
        Err(SkipError::Break(place)) => Answer::Break(*place),
        Err(SkipError::Deep(place)) => Answer::Deep(*place),
        Err(SkipError::Read(error)) => read_answer(error, offset),
    }
}

// Skips one item.
pub fn skipped<R: Read>(decoder: &mut Decoder<R>, depth: usize) -> Answer
where
    R::Error: Drop,
    requires { depth ≤ 256 }
{
    let outcome = skip_item(decoder, depth, &mut [0; 4]);
    answer_of(&outcome, decoder.offset())
}

// Skips the item that the bytes begin with.
pub fn answer_for(depth: usize, bytes: &[u8]) -> Answer
    requires { depth ≤ 256 }
{
    let mut decoder = Decoder::from(SliceReader::new(bytes));
    skipped(&mut decoder, depth)
}

// Pulls the header of the item that the bytes begin with, and skips the rest of the item.
fn answer_after_header(depth: usize, bytes: &[u8]) -> Answer
    requires { depth ≤ 256 }
{
    let mut decoder = Decoder::from(SliceReader::new(bytes));
    let header = match decoder.pull() {
        Ok(header) => header,
        Err(error) => return read_answer(&error, decoder.offset()),
    };
    let outcome = skip_after(&mut decoder, header, 0, depth, &mut [0; 4]);
    answer_of(&outcome, decoder.offset())
}

// Skips the item that the bytes begin with as one of a slice.
fn answer_of_slice(depth: usize, bytes: &[u8]) -> Answer
    requires { depth ≤ 256 }
{
    let mut decoder = Decoder::from(SliceReader::new(bytes));
    let outcome = skip_slice(&mut decoder, depth, &mut [0; 4]);
    answer_of(&outcome, decoder.offset())
}

// Compares the answers for the item that the bytes begin with: that of a skip, that of a skip after the header, and
// that of a skip of a slice.
pub fn item_row(rt: &impl Abort, depth: usize, bytes: &[u8], want: Answer) {
    let is_right = depth <= 256
        && answer_for(depth, bytes) == want
        && answer_after_header(depth, bytes) == want
        && answer_of_slice(depth, bytes) == want;
    holds_at(rt, is_right, bytes);
}

// A map of indefinite length with two pairs. Each title has one byte, except the title at 4, which has two, and each
// body has one. So a reader moves one byte in each call that moves any. From 12 on a third level is needed.
pub static NESTED: [u8; 25] = [
    0xbf, // the map
    0x61, 0x6b, // "k"
    0x83, // an array of three
    0x18, 0x20, // 32
    0x5f, 0x41, 2, 0x41, 3, 0xff, // bytes in two segments
    0xc1, 0x7f, 0x61, 0x61, 0xff, // a tagged text in one segment
    0x41, 0, // bytes
    0x9f, 0xa0, 0x80, 0xf6, 0xff, // an array of an empty map, an empty array and null
    0xff, // the map's end
];
