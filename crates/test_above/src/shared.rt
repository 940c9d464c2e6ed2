// Helpers of several modules: the bytes of rows and samples, and the check that all steps hold.

use std::process::Abort;

// How many bytes a row or a sample has at most, and how many a test writes at most.
pub const MOST: usize = 64;

// Requires that a fact holds. The message says which fact.
pub fn holds(rt: &impl Abort, is_right: bool, what: &str) {
    assert!(rt; is_right, "{what}");
}

// Requires that a fact of a row holds. The bytes name the row.
pub fn holds_at(rt: &impl Abort, is_right: bool, bytes: &[u8]) {
    assert!(rt; is_right, "at {bytes:?}");
}

// Returns the bytes that the digits spell.
pub fn decoded<'a>(rt: &impl Abort, digits: &str, space: &'a mut [u8; MOST]) -> &'a [u8] {
    let length = (digits.len() / 2).min(MOST);
    let bytes = &mut space[..length];
    holds(rt, hex::decode_to_slice(digits, bytes).is_ok(), digits);
    bytes
}

// Requires that all steps of a test hold. The message says which steps do.
pub fn all_hold(rt: &impl Abort, steps: &[bool]) {
    assert!(rt; !steps.contains(&false), "of the steps {steps:?}");
}

// Requires that a field of a saved state, after some bytes, may be this number.
pub fn holds_damaged(rt: &impl Abort, is_right: bool, bytes: &[u8], field: u32, number: u64) {
    assert!(rt; is_right, "at {bytes:?}, field {field}, number {number}");
}
