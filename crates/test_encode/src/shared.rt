// Helpers of several modules: the bytes of rows, and the answer of a call.

use cbor_diag::{Style, diagnose};
use cbor_encode::{MAX_DEPTH, NotationError, encode};
use ciborium_ll::Decoder;
use ciborium_ll::io::{SliceReader, SliceWriter};
use std::alloc::Global;
use std::process::Abort;

// How many bytes a row has at most.
pub const MOST: usize = 64;

// Requires that a fact holds. The message says which fact.
pub fn holds(rt: &impl Abort, is_right: bool, what: &str) {
    assert!(rt; is_right, "{what}");
}

// Returns the bytes that the digits spell.
pub fn decoded<'a>(rt: &impl Abort, digits: &str, space: &'a mut [u8; MOST]) -> &'a [u8] {
    let length = (digits.len() / 2).min(MOST);
    let bytes = &mut space[..length];
    holds(rt, hex::decode_to_slice(digits, bytes).is_ok(), digits);
    bytes
}

// Returns whether the answer of a call is these bytes.
pub fn gives(answer: Result<Vec<u8>, NotationError>, want: &[u8]) -> bool {
    match answer {
        Ok(bytes) => bytes.as_slice() == want,
        Err(_error) => false,
    }
}

// Returns whether the text is encoded as these bytes.
pub fn is_encoded(alloc: Global, text: &[u8], want: &[u8]) -> bool {
    gives(encode(alloc, text, MAX_DEPTH), want)
}

// Requires that the notation of a row, which follows its digits and a space, is encoded as the bytes of the digits.
pub fn row_is_encoded(rt: &impl Abort, alloc: Global, row: &str) {
    let (digits, notation) = row.split_once(' ').unwrap_or((row, ""));
    let mut space = [0; MOST];
    let bytes = decoded(rt, digits, &mut space);
    holds(rt, is_encoded(alloc, notation.as_bytes(), bytes), row);
}

// Requires that the notation of each row is encoded as its bytes.
pub fn are_encoded(rt: &impl Abort, alloc: Global, rows: &str) {
    for row in rows.lines() {
        row_is_encoded(rt, alloc, row);
    }
}

// Writes the notation of bytes that are one item to the start of the space. Returns how many bytes it has.
pub fn notation_len(bytes: &[u8], style: Style, space: &mut [u8]) -> Option<usize> {
    let mut decoder = Decoder::from(SliceReader::new(bytes));
    let mut writer = SliceWriter::new(space);
    match diagnose(&mut decoder, &mut writer, 16, style) {
        Ok(()) if decoder.offset() == bytes.len() => Some(writer.written().len()),
        _ => None,
    }
}
