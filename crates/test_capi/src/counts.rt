// How many elements the calls count, and where these and their spelling end.

use crate::told::nothing;
use capi::{cll_recode, cll_strict};
use std::process::Abort;

// Bytes, how many elements, the room, and the counts: how many elements, up to which offset, and in how many written
// bytes.
type Counted = (&'static [u8], u64, usize, [u64; 3]);

// Copies into the first of 16 bytes, and returns the counts.
fn counted(bytes: &[u8], count: u64, room: usize) -> [u64; 3] {
    let mut out = [0xee; 16];
    let mut report = nothing();
    let _code = cll_recode(bytes, count, &mut out[..room.min(16)], &mut report);
    [report.elements, report.whole, report.spelled]
}

// Returns the counts of a strict read.
fn counted_strictly(bytes: &[u8], count: u64) -> [u64; 3] {
    let mut report = nothing();
    let _code = cll_strict(bytes, count, &mut report);
    [report.elements, report.whole, report.spelled]
}

fn count_row(rt: &impl Abort, row: &Counted) {
    let is_right = counted(row.0, row.1, row.2) == row.3;
    assert!(rt; is_right, "at {:?}", row.0);
}

// 5, "a" and a cut string: the first two in longer spellings.
const CUT: &[u8] = &[0x18, 0x05, 0x58, 0x01, 0x61, 0x43];

static COUNTS: [Counted; 7] = [
    (CUT, 2, 16, [2, 5, 3]),
    (CUT, 3, 16, [2, 5, 3]),
    (CUT, 3, 3, [2, 5, 3]),
    // an element that does not fit is not counted
    (CUT, 3, 2, [1, 2, 1]),
    (CUT, 2, 0, [0, 0, 0]),
    (CUT, 0, 16, [0, 0, 0]),
    // bytes that are no title
    (&[0x18, 0x05, 0x1c], 2, 16, [1, 2, 1]),
];

#[test]
fn elements_are_counted(rt: HostRuntime) {
    for row in &COUNTS {
        count_row(&rt, row);
    }
}

// A strict read writes nothing.
#[test]
fn strict_elements_are_counted(rt: HostRuntime) {
    let is_right = counted_strictly(&[0x05, 0x41, 0x61, 0x18, 0x05], 3) == [2, 3, 0];
    assert!(rt; is_right);
}
