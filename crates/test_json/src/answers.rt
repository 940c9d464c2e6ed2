// How a write of an item ends, and checks of rows.

use cbor_json::{JsonError, Mode, write_json};
use cbor_skip::{SkipError, skip_item};
use ciborium_ll::io::{EndOfFile, OutOfSpace, SliceReader, SliceWriter};
use ciborium_ll::{Decoder, Error};
use std::process::Abort;

// How many bytes a row has at most, and how many its text.
pub const MOST: usize = 64;

pub const MOST_TEXT: usize = 256;

// How a write ends: after an item, or why not. The numbers are offsets. Those of `Item` and `Short` are the decoder's.
#[derive(Clone, Copy, PartialEq, Eq)]
pub enum Answer {
    Item(usize),
    NoJson(usize),
    Break(usize),
    Deep(usize),
    Syntax(usize),
    Short(usize),
    Full,
    Other,
}

// A write of an item. It has how the write ends, the offset after it, and how many bytes of text are written.
#[derive(Clone, Copy)]
pub struct Ended {
    pub answer: Answer,
    pub offset: usize,
    pub len: usize,
}

// Returns the answer to a read that stopped. The decoder is at this offset then.
fn read_answer(error: SkipError<EndOfFile>, offset: usize) -> Answer {
    match error {
        SkipError::Break(place) => Answer::Break(place),
        SkipError::Deep(place) => Answer::Deep(place),
        SkipError::Read(Error::Syntax(place)) => Answer::Syntax(place),
        SkipError::Read(Error::Io(_)) => Answer::Short(offset),
        SkipError::Read(_) => Answer::Other,
    }
}

// Returns the answer to the outcome of a write. The decoder is at this offset then.
fn answer_of(outcome: Result<(), JsonError<EndOfFile, OutOfSpace>>, offset: usize) -> Answer {
    match outcome {
        Ok(()) => Answer::Item(offset),
        Err(JsonError::NoJson(place)) => Answer::NoJson(place),
        Err(JsonError::Read(error)) => read_answer(error, offset),
        Err(JsonError::Write(_)) => Answer::Full,
    }
}

// Writes the item that the bytes begin with. The text goes to the start of the space.
pub fn written(bytes: &[u8], depth: usize, mode: Mode, space: &mut [u8]) -> Ended {
    let mut decoder = Decoder::from(SliceReader::new(bytes));
    let mut writer = SliceWriter::new(space);
    let outcome = write_json(&mut decoder, &mut writer, depth.min(256), mode);
    let offset = decoder.offset();
    Ended {
        answer: answer_of(outcome, offset),
        offset,
        len: writer.written().len(),
    }
}

// Returns how a skip of the item that the bytes begin with ends.
pub fn skipped(bytes: &[u8], depth: usize) -> Answer {
    let mut decoder = Decoder::from(SliceReader::new(bytes));
    let outcome = skip_item(&mut decoder, depth.min(256), &mut [0; 64]);
    let offset = decoder.offset();
    match outcome {
        Ok(()) => Answer::Item(offset),
        Err(error) => read_answer(error, offset),
    }
}

// Requires that a fact holds. The message says which fact.
pub fn holds(rt: &impl Abort, is_right: bool, what: &str) {
    assert!(rt; is_right, "{what}");
}

// Returns the bytes that the digits spell.
pub fn decoded<'a>(rt: &impl Abort, digits: &str, space: &'a mut [u8; MOST]) -> &'a [u8] {
    let length = (digits.len() / 2).min(MOST);
    let bytes = &mut space[..length];
    holds(rt, hex::decode_to_slice(digits, bytes).is_ok(), digits);
    bytes
}
