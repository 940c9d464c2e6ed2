// The check of the deterministic encoding once for each answer, by bytes of RFC 8949, sections 3, 4.2 and 5.6.

use crate::told::{Told, is_told, nothing, told};
use capi::{CllAnswer, cll_deterministic};
use std::process::Abort;

// Bytes, the depth, the order, the answer, how many bytes were consumed, and the place.
type Row = (&'static [u8], u32, u32, CllAnswer, u64, u64);

// Returns the results of the check.
fn checked(bytes: &[u8], depth: u32, order: u32) -> Told {
    let mut report = nothing();
    let code = cll_deterministic(bytes, depth, order, &mut report);
    told(code, &report)
}

fn check_row(rt: &impl Abort, row: &Row) {
    let is_right = is_told(&checked(row.0, row.1, row.2), row.3, [row.4, 0, row.5]);
    assert!(rt; is_right, "at {:?} in order {}", row.0, row.2);
}

// The keys of RFC 8949, 4.2.1: 10, 100, -1, "z", "aa", [100], [-1] and false, each with 0 as its value.
const BYTEWISE: &[u8] = &[
    0xa8, 0x0a, 0x00, 0x18, 0x64, 0x00, 0x20, 0x00, 0x61, 0x7a, 0x00, 0x62, 0x61, 0x61, 0x00, 0x81,
    0x18, 0x64, 0x00, 0x81, 0x20, 0x00, 0xf4, 0x00,
];

// The keys of RFC 8949, 4.2.3: 10, -1, false, 100, "z", [-1], "aa" and [100].
const LENGTH_FIRST: &[u8] = &[
    0xa8, 0x0a, 0x00, 0x20, 0x00, 0xf4, 0x00, 0x18, 0x64, 0x00, 0x61, 0x7a, 0x00, 0x81, 0x20, 0x00,
    0x62, 0x61, 0x61, 0x00, 0x81, 0x18, 0x64, 0x00,
];

static ROWS: [Row; 31] = [
    (BYTEWISE, 2, 0, CllAnswer::Ok, 24, 0),
    (BYTEWISE, 2, 1, CllAnswer::KeyOrder, 6, 6),
    (LENGTH_FIRST, 2, 1, CllAnswer::Ok, 24, 0),
    (LENGTH_FIRST, 2, 0, CllAnswer::KeyOrder, 7, 7),
    (LENGTH_FIRST, 256, 1, CllAnswer::Ok, 24, 0),
    // The key [-1] is a level deeper than the map.
    (LENGTH_FIRST, 1, 1, CllAnswer::TooDeep, 13, 13),
    (&[0x05, 0x1c], 0, 0, CllAnswer::Ok, 1, 0),
    (&[0xf9, 0x3e, 0x00], 0, 0, CllAnswer::Ok, 3, 0),
    (
        &[0xa2, 0x01, 0x00, 0x01, 0x00],
        1,
        0,
        CllAnswer::DuplicateKey,
        3,
        3,
    ),
    (
        &[0xa2, 0x01, 0x00, 0x01, 0x00],
        1,
        1,
        CllAnswer::DuplicateKey,
        3,
        3,
    ),
    (&[0x18, 0x05], 0, 0, CllAnswer::NotShortest, 0, 0),
    (&[0x81, 0x78, 0x00], 1, 1, CllAnswer::NotShortest, 1, 1),
    (&[0xf8, 0x10], 0, 0, CllAnswer::NotShortest, 0, 0),
    // 1.5 as a double.
    (
        &[0x81, 0xfb, 0x3f, 0xf8, 0x00, 0x00, 0x00, 0x00, 0x00, 0x00],
        1,
        0,
        CllAnswer::NotShortest,
        1,
        1,
    ),
    (&[0x9f, 0xff], 1, 0, CllAnswer::Indefinite, 0, 0),
    (&[0x82, 0x05, 0xff], 1, 0, CllAnswer::Indefinite, 2, 2),
    (&[0x1c], 0, 0, CllAnswer::Syntax, 0, 0),
    (&[0x81, 0xf8, 0x18], 1, 0, CllAnswer::Syntax, 1, 1),
    (&[0x81, 0x61, 0xff], 1, 0, CllAnswer::Syntax, 1, 1),
    (&[0x80], 0, 0, CllAnswer::TooDeep, 0, 0),
    (&[0x81, 0xc1, 0x00], 1, 0, CllAnswer::TooDeep, 1, 1),
    // Cut before a title, within one, and within a body.
    (&[], 0, 0, CllAnswer::Short, 0, 0),
    (&[0x82, 0x01], 1, 0, CllAnswer::Short, 2, 0),
    (&[0x82, 0x01, 0x19, 0x03], 1, 0, CllAnswer::Short, 2, 0),
    (&[0x81, 0x43, 0x01], 1, 0, CllAnswer::Short, 3, 0),
    (&[0xa1, 0x62, 0x61], 1, 1, CllAnswer::Short, 3, 0),
    (&[0x00], 257, 0, CllAnswer::Argument, 0, 0),
    (&[0x00], 257, 1, CllAnswer::Argument, 0, 0),
    (&[0x00], 0, 2, CllAnswer::Argument, 0, 0),
    (&[0x00], 0, u32::MAX, CllAnswer::Argument, 0, 0),
    (&[0x00], u32::MAX, 0, CllAnswer::Argument, 0, 0),
];

#[test]
fn checks(rt: HostRuntime) {
    for row in &ROWS {
        check_row(&rt, row);
    }
}

// Each answer has a number that does not change.
#[test]
fn numbers_are_those_of_the_header(rt: HostRuntime) {
    assert!(rt; CllAnswer::NotShortest.code() == 8);
    assert!(rt; CllAnswer::Indefinite.code() == 9);
    assert!(rt; CllAnswer::KeyOrder.code() == 10);
    assert!(rt; CllAnswer::DuplicateKey.code() == 11);
}
