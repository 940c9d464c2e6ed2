// Runs of the program's lines over bytes in memory, and faults as it prints them.

use std::alloc::{AllocError, Global};
use std::process::Abort;
use tool_lines::fault::Fault;
use tool_lines::service::run;

// Requires that a fact holds. The message says which fact, since a call does not know the line of its caller.
pub fn holds(rt: &impl Abort, is_right: bool, what: &str) {
    assert!(rt; is_right, "{what}");
}

// Requires that a fact of a row holds. The bytes name the row.
pub fn holds_at(rt: &impl Abort, is_right: bool, bytes: &[u8]) {
    assert!(rt; is_right, "at {bytes:?}");
}

// Requires that a fact of a call in a row holds. The number names the call.
pub fn holds_call(rt: &impl Abort, is_right: bool, call: usize, bytes: &[u8]) {
    assert!(rt; is_right, "at {call} of {bytes:?}");
}

// How many bytes a sample has at most.
pub const MOST: usize = 64;

// Returns the bytes that the digits spell.
pub fn decoded<'a>(rt: &impl Abort, digits: &str, space: &'a mut [u8; MOST]) -> &'a [u8] {
    let length = (digits.len() / 2).min(MOST);
    let bytes = &mut space[..length];
    holds(rt, hex::decode_to_slice(digits, bytes).is_ok(), digits);
    bytes
}

// Runs lines, appends the answers to the output, and returns whether the run came to its end.
pub fn runs(alloc: Global, input: &[u8], output: &mut Vec<u8>) -> bool {
    run(alloc, input, output).is_ok()
}

// Runs lines, and compares the answers.
pub fn is_answered(alloc: Global, input: &[u8], want: &[u8]) -> bool {
    let mut output = Vec::new(alloc);
    runs(alloc, input, &mut output) && output.as_slice() == want
}

// Returns whether a fault is printed as this text.
pub fn is_printed_as(alloc: Global, fault: &Fault, want: &str) -> bool {
    match fault.to_string(alloc) {
        Ok(printed) => printed.as_str() == want,
        Err(_) => false,
    }
}

// Adds a line with digits that are repeated this many times.
pub fn add_line_of(
    line: &mut Vec<u8>,
    front: &[u8],
    digits: &[u8],
    times: usize,
    end: &[u8],
) -> Result<(), AllocError> {
    line.extend_from_slice(front)?;
    for _ in 0..times {
        line.extend_from_slice(digits)?;
    }
    line.extend_from_slice(end)
}
