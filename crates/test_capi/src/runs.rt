// Copies and strict reads of elements that go in runs, with a fault, a cut or an end of the room at each place.

use crate::told::{in_front, is_told, nothing, told};
use capi::{CllAnswer, cll_recode, cll_strict};
use std::process::Abort;

// Bytes, how many elements, the room, the answer, how many bytes were consumed, the place, the counts of `counts.rt`,
// and what was written.
type Run = (
    &'static [u8],
    u64,
    usize,
    CllAnswer,
    u64,
    u64,
    [u64; 3],
    &'static [u8],
);

// Compares a copy into the first of 16 bytes. The bytes after those that are written are as they were.
fn run_row(rt: &impl Abort, row: &Run) {
    let mut out = [0xee; 16];
    let mut report = nothing();
    let code = cll_recode(row.0, row.1, &mut out[..row.2.min(16)], &mut report);
    let is_answer = is_told(
        &told(code, &report),
        row.3,
        [row.4, row.7.len() as u64, row.5],
    );
    let counts = [report.elements, report.whole, report.spelled];
    let is_right = is_answer && counts == row.6 && out == in_front(row.7);
    assert!(rt; is_right, "at {:?} in {}", row.0, row.2);
}

// [1, "a", 24], and then a string of four bytes.
const ALL: &[u8] = &[0x83, 0x01, 0x61, 0x61, 0x18, 0x18, 0x44, 1, 2, 3, 4];

static RUNS: [Run; 19] = [
    (
        ALL,
        4,
        6,
        CllAnswer::Ok,
        6,
        0,
        [4, 6, 6],
        &[0x83, 0x01, 0x61, 0x61, 0x18, 0x18],
    ),
    // an element after the last one does not matter
    (ALL, 2, 2, CllAnswer::Ok, 2, 0, [2, 2, 2], &[0x83, 0x01]),
    (
        &[0x01, 0x02, 0x1c],
        2,
        16,
        CllAnswer::Ok,
        2,
        0,
        [2, 2, 2],
        &[0x01, 0x02],
    ),
    (
        &[0x01, 0x62, 0xc3],
        1,
        16,
        CllAnswer::Ok,
        1,
        0,
        [1, 1, 1],
        &[0x01],
    ),
    (ALL, 0, 16, CllAnswer::Ok, 0, 0, [0, 0, 0], &[]),
    (&[0x1c], 0, 16, CllAnswer::Ok, 0, 0, [0, 0, 0], &[]),
    // the room is one byte short: of a title, of a title of two bytes, of a body
    (ALL, 2, 1, CllAnswer::Room, 2, 0, [1, 1, 1], &[0x83]),
    (
        ALL,
        4,
        5,
        CllAnswer::Room,
        6,
        0,
        [3, 4, 4],
        &[0x83, 0x01, 0x61, 0x61, 0x18],
    ),
    (
        ALL,
        3,
        3,
        CllAnswer::Room,
        4,
        0,
        [2, 2, 2],
        &[0x83, 0x01, 0x61],
    ),
    (
        ALL,
        5,
        10,
        CllAnswer::Room,
        11,
        0,
        [4, 6, 6],
        &[0x83, 0x01, 0x61, 0x61, 0x18, 0x18, 0x44],
    ),
    // there are fewer elements than asked for
    (
        &[0x83, 0x01],
        9,
        16,
        CllAnswer::Short,
        2,
        1,
        [2, 2, 2],
        &[0x83, 0x01],
    ),
    (
        &[0x83, 0x01],
        u64::MAX,
        2,
        CllAnswer::Short,
        2,
        1,
        [2, 2, 2],
        &[0x83, 0x01],
    ),
    (
        &[0x01, 0x44, 1, 2],
        2,
        16,
        CllAnswer::Short,
        2,
        2,
        [1, 1, 1],
        &[0x01, 0x44],
    ),
    // the last element is at fault
    (
        &[0x83, 0x01, 0x1c],
        3,
        16,
        CllAnswer::Syntax,
        3,
        2,
        [2, 2, 2],
        &[0x83, 0x01],
    ),
    (
        &[0x01, 0xff, 0x1c],
        3,
        16,
        CllAnswer::Syntax,
        3,
        2,
        [2, 2, 2],
        &[0x01, 0xff],
    ),
    (
        &[0x01, 0x62, 0xc3, 0x28],
        2,
        16,
        CllAnswer::Syntax,
        4,
        1,
        [1, 1, 1],
        &[0x01, 0x62],
    ),
    // other elements stand between runs
    (
        &[0x01, 0x18, 0x05, 0x02],
        3,
        3,
        CllAnswer::Ok,
        4,
        0,
        [3, 4, 3],
        &[0x01, 0x05, 0x02],
    ),
    (
        &[0x01, 0x5f, 0x58, 0x01, 0x07, 0xff, 0x02],
        3,
        16,
        CllAnswer::Ok,
        7,
        0,
        [3, 7, 6],
        &[0x01, 0x5f, 0x41, 0x07, 0xff, 0x02],
    ),
    // a simple value from 24 to 31, which only a strict read refuses
    (
        &[0x01, 0xf8, 0x18, 0x02],
        3,
        16,
        CllAnswer::Ok,
        4,
        0,
        [3, 4, 4],
        &[0x01, 0xf8, 0x18, 0x02],
    ),
];

#[test]
fn runs_are_copied(rt: HostRuntime) {
    for row in &RUNS {
        run_row(&rt, row);
    }
}

// Bytes, how many elements, the answer, how many bytes were consumed, the place, how many elements were read, and the
// offset after them.
type Strict = (&'static [u8], u64, CllAnswer, u64, u64, [u64; 2]);

fn strict_row(rt: &impl Abort, row: &Strict) {
    let mut report = nothing();
    let code = cll_strict(row.0, row.1, &mut report);
    let is_answer = is_told(&told(code, &report), row.2, [row.3, 0, row.4]);
    let is_right = is_answer && [report.elements, report.whole] == row.5;
    assert!(rt; is_right, "at {:?}", row.0);
}

static STRICT: [Strict; 7] = [
    (ALL, 5, CllAnswer::Ok, 11, 0, [5, 11]),
    (ALL, 4, CllAnswer::Ok, 6, 0, [4, 6]),
    (ALL, 6, CllAnswer::Short, 11, 1, [5, 11]),
    (
        &[0x01, 0xf8, 0x18, 0x02],
        3,
        CllAnswer::Syntax,
        3,
        1,
        [1, 1],
    ),
    (
        &[0x01, 0x18, 0x05, 0x02],
        3,
        CllAnswer::Syntax,
        3,
        1,
        [1, 1],
    ),
    (&[0x83, 0x01, 0x1c], 3, CllAnswer::Syntax, 3, 2, [2, 2]),
    (&[0x01, 0x02, 0x1c], 2, CllAnswer::Ok, 2, 0, [2, 2]),
];

#[test]
fn strict_runs(rt: HostRuntime) {
    for row in &STRICT {
        strict_row(&rt, row);
    }
}

// More elements than the buffer of a copy has bytes.
static MANY: [u8; 2100] = [0x01; 2100];

#[test]
fn many_elements_are_copied(rt: HostRuntime) {
    let mut out = [0xee; 2100];
    let mut report = nothing();
    let code = cll_recode(&MANY, 2100, &mut out, &mut report);
    let is_answer = is_told(&told(code, &report), CllAnswer::Ok, [2100, 2100, 0]);
    assert!(rt; is_answer && report.elements == 2100 && report.spelled == 2100);
    assert!(rt; out == MANY);
}

#[test]
fn many_elements_lack_room(rt: HostRuntime) {
    let mut out = [0xee; 2099];
    let mut report = nothing();
    let code = cll_recode(&MANY, 2100, &mut out, &mut report);
    let is_answer = is_told(&told(code, &report), CllAnswer::Room, [2100, 2099, 0]);
    assert!(rt; is_answer && report.elements == 2099 && report.whole == 2099);
}
