// Helpers of several modules: the bytes of rows, and the answer of a call.

use cbor_deterministic::{MAX_DEPTH, Order, Refusal, Why, deterministic_len};
use std::process::Abort;

// How many bytes a row has at most.
pub const MOST: usize = 64;

// The length of an item, or why and where it is refused.
pub type Answer = Result<usize, (Why, usize)>;

// Returns the answer of the call, at the greatest depth.
pub fn answer(bytes: &[u8], order: Order) -> Answer {
    match deterministic_len(bytes, MAX_DEPTH, order) {
        Ok(len) => Ok(len),
        Err(Refusal { why, place }) => Err((why, place)),
    }
}

// Requires that a fact holds. The message says which fact.
pub fn holds(rt: &impl Abort, is_right: bool, what: &str) {
    assert!(rt; is_right, "{what}");
}

// Returns the bytes that the digits spell.
pub fn decoded<'a>(rt: &impl Abort, digits: &str, space: &'a mut [u8; MOST]) -> &'a [u8] {
    let length = (digits.len() / 2).min(MOST);
    let bytes = &mut space[..length];
    holds(rt, hex::decode_to_slice(digits, bytes).is_ok(), digits);
    bytes
}

// Reads the bytes that the digits spell in this order of keys, and compares the answer.
pub fn answer_row(rt: &impl Abort, digits: &str, order: Order, want: Answer) {
    let mut space = [0; MOST];
    let bytes = decoded(rt, digits, &mut space);
    holds(rt, answer(bytes, order) == want, digits);
}
