use crate::calls::{MOST, decoded, front_of, holds};
use crate::copies::{Kind, Task, agrees};
use crate::segments::each_call_fails_under_strings;
use crate::titles::{each_read_fails_under_pull, reads_titles};
use ciborium_ll::Spelling;
use std::alloc::{AllocError, Global};
use std::process::Abort;
use test_support::samples;

// Reads bytes as titles and as elements, and compares all answers with a plain reading.
fn reads(rt: &impl Abort, alloc: Global, count: usize, bytes: &[u8]) {
    let never = usize::MAX;
    let has_failed = reads_titles(rt, Spelling::Any, bytes, never)
        || reads_titles(rt, Spelling::Shortest, bytes, never);
    holds(rt, !has_failed, count, bytes);
    for kind in [Kind::Headers, Kind::Elements, Kind::StrictElements] {
        let _ = agrees(rt, alloc, Task { kind, count, bytes });
    }
}

// Reads each beginning of bytes.
fn reads_each_front(rt: &impl Abort, alloc: Global, count: usize, bytes: &[u8]) {
    for end in 0..=bytes.len() {
        reads(rt, alloc, count, front_of(bytes, end));
    }
}

// Reads each beginning of a sample.
fn reads_sample(rt: &impl Abort, alloc: Global, count: usize, hex: &str) {
    let mut space = [0; MOST];
    reads_each_front(rt, alloc, count, decoded(rt, hex, &mut space));
}

// Each sample is cut at each place. Each call fails in turn under pulls of its titles and under its strings.
#[test]
fn each_sample_is_cut_and_each_call_fails(rt: HostRuntime) -> Result<(), AllocError> {
    let all = samples::all(rt.alloc())?;
    for &(count, hex) in &all {
        reads_sample(&rt, rt.alloc(), 1, hex);
        reads_sample(&rt, rt.alloc(), count, hex);
        each_read_fails_under_pull(&rt, Spelling::Any, hex);
        each_read_fails_under_pull(&rt, Spelling::Shortest, hex);
        each_call_fails_under_strings(&rt, rt.alloc(), hex);
    }
    Ok(())
}

#[test]
fn each_first_byte_and_each_cut_of_what_follows(rt: HostRuntime) {
    for first in 0..=u8::MAX {
        for &next in b"\x00\x01\x61\x80\xff" {
            let bytes = [first, next, next, next, next, next, next, next, next];
            reads_each_front(&rt, rt.alloc(), 1, &bytes);
        }
    }
}

// Titles of lengths that no memory can hold: of strings, of other items, and within a string. Some bytes follow them.
static LONG: [&str; 12] = [
    "5b800000000000000030313233343536373839",
    "7b800000000000000030313233343536373839",
    "9b800000000000000030313233343536373839",
    "bb800000000000000030313233343536373839",
    "5f5b800000000000000030313233343536373839",
    "7f7b800000000000000030313233343536373839",
    "5bffffffffffffffff30313233343536373839",
    "7bffffffffffffffff30313233343536373839",
    "9bffffffffffffffff30313233343536373839",
    "bbffffffffffffffff30313233343536373839",
    "5f5bffffffffffffffff30313233343536373839",
    "7f7bffffffffffffffff30313233343536373839",
];

// A length that no memory can hold stands in a title like any other. The body is then cut.
#[test]
fn lengths_that_no_input_has(rt: HostRuntime) {
    for hex in &LONG {
        reads_sample(&rt, rt.alloc(), 1, hex);
    }
}
