// Many titles by one call, with each answer and each edge, by bytes of RFC 7049, 2.1 to 2.3.

use crate::told::{Told, is_told, nothing, told};
use capi::{CllAnswer, CllTitle, cll_headers};
use std::process::Abort;

// How many titles the output has.
const PLACES: usize = 6;

// The kind, the form and the value of a title, and where it starts and ends.
type Entry = (u8, u8, u64, u64, u64);

// What stands in the output before the call.
const UNTOUCHED: Entry = (98, 97, 99, 96, 95);

// Bytes, the room of the output, the answer, how many bytes were consumed, the place, and the titles.
type Row = (&'static [u8], usize, CllAnswer, u64, u64, &'static [Entry]);

// Makes an output in which no title stands.
fn untouched() -> [CllTitle; PLACES] {
    let title = CllTitle {
        value: UNTOUCHED.2,
        start: UNTOUCHED.3,
        end: UNTOUCHED.4,
        kind: UNTOUCHED.0,
        indefinite: UNTOUCHED.1,
    };
    [title; PLACES]
}

// Reads titles into the first places of an output, and returns the results and the whole output.
fn listed(bytes: &[u8], room: usize) -> (Told, [CllTitle; PLACES]) {
    let mut titles = untouched();
    let mut report = nothing();
    let code = cll_headers(bytes, &mut titles[..room.min(PLACES)], &mut report);
    (told(code, &report), titles)
}

// Returns whether the output has these titles, and is unchanged after them.
fn has_entries(titles: &[CllTitle], entries: &[Entry]) -> bool {
    let mut is_same = true;
    for (at, title) in titles.iter().enumerate() {
        let want = entries.get(at).unwrap_or(&UNTOUCHED);
        let is_header = title.kind == want.0 && title.indefinite == want.1 && title.value == want.2;
        is_same = is_same && is_header && title.start == want.3 && title.end == want.4;
    }
    is_same
}

fn list_row(rt: &impl Abort, row: &Row) {
    let (result, titles) = listed(row.0, row.1);
    let is_right = is_told(&result, row.2, [row.3, row.5.len() as u64, row.4]);
    assert!(rt; is_right, "at {:?} into {}", row.0, row.1);
    assert!(rt;
        has_entries(&titles, row.5),
        "at {:?} into {}",
        row.0,
        row.1
    );
}

static WHOLE: [Row; 12] = [
    // No bytes, or no room.
    (&[], 4, CllAnswer::Ok, 0, 0, &[]),
    (&[], 0, CllAnswer::Ok, 0, 0, &[]),
    (&[0x1c], 0, CllAnswer::Ok, 0, 0, &[]),
    (
        &[0x82, 0x01, 0x19, 0x03, 0xe8],
        6,
        CllAnswer::Ok,
        5,
        0,
        &[(4, 0, 2, 0, 1), (0, 0, 1, 1, 2), (0, 0, 1000, 2, 5)],
    ),
    // The output is full, and nothing after the last title is read.
    (
        &[0x82, 0x01, 0x19, 0x03],
        2,
        CllAnswer::Ok,
        2,
        0,
        &[(4, 0, 2, 0, 1), (0, 0, 1, 1, 2)],
    ),
    (
        &[0x42, 0xff, 0x1c, 0x1c],
        1,
        CllAnswer::Ok,
        3,
        0,
        &[(2, 0, 2, 0, 1)],
    ),
    // Bodies: bytes that are no titles, a text of two bytes, and titles that are longer than need be.
    (
        &[0x42, 0xff, 0x1c, 0x62, 0xc3, 0xa9, 0xf6],
        6,
        CllAnswer::Ok,
        7,
        0,
        &[(2, 0, 2, 0, 1), (3, 0, 2, 3, 4), (7, 0, 22, 6, 7)],
    ),
    (
        &[0x58, 0x01, 0x07, 0x79, 0x00, 0x01, 0x61],
        6,
        CllAnswer::Ok,
        7,
        0,
        &[(2, 0, 1, 0, 2), (3, 0, 1, 3, 6)],
    ),
    (
        &[0x40, 0x60],
        6,
        CllAnswer::Ok,
        2,
        0,
        &[(2, 0, 0, 0, 1), (3, 0, 0, 1, 2)],
    ),
    // The indefinite forms, and breaks wherever they stand.
    (
        &[0x5f, 0x41, 0x01, 0xff, 0x9f, 0xbf, 0x7f, 0xff],
        6,
        CllAnswer::Ok,
        7,
        0,
        &[
            (2, 1, 0, 0, 1),
            (2, 0, 1, 1, 2),
            (11, 0, 0, 3, 4),
            (4, 1, 0, 4, 5),
            (5, 1, 0, 5, 6),
            (3, 1, 0, 6, 7),
        ],
    ),
    (
        &[0xff, 0xff],
        6,
        CllAnswer::Ok,
        2,
        0,
        &[(11, 0, 0, 0, 1), (11, 0, 0, 1, 2)],
    ),
    (
        &[0xf8, 0x10, 0xf9, 0x7e, 0x00, 0xc1],
        6,
        CllAnswer::Ok,
        6,
        0,
        &[(7, 0, 16, 0, 2), (8, 0, 0x7e00, 2, 5), (6, 0, 1, 5, 6)],
    ),
];

static FAULTS: [Row; 15] = [
    // Titles that are cut: the place is how many bytes are due.
    (
        &[0x01, 0x19, 0x03],
        6,
        CllAnswer::Short,
        1,
        1,
        &[(0, 0, 1, 0, 1)],
    ),
    (&[0x9b, 0x00], 6, CllAnswer::Short, 0, 7, &[]),
    (&[0xc1, 0xd9], 2, CllAnswer::Short, 1, 2, &[(6, 0, 1, 0, 1)]),
    // Bodies that are cut, one of them inside a character.
    (
        &[0x01, 0x43, 0x61],
        6,
        CllAnswer::Short,
        1,
        2,
        &[(0, 0, 1, 0, 1)],
    ),
    (&[0x41], 6, CllAnswer::Short, 0, 1, &[]),
    (
        &[0x5a, 0x00, 0x01, 0x00, 0x00, 0x61],
        6,
        CllAnswer::Short,
        0,
        65535,
        &[],
    ),
    (&[0x63, 0x61], 6, CllAnswer::Short, 0, 2, &[]),
    (&[0x63, 0xe6, 0xb0], 6, CllAnswer::Short, 0, 1, &[]),
    // Bytes with which no title begins.
    (
        &[0x01, 0x1c, 0x02],
        6,
        CllAnswer::Syntax,
        1,
        1,
        &[(0, 0, 1, 0, 1)],
    ),
    (&[0xdf], 6, CllAnswer::Syntax, 0, 0, &[]),
    (
        &[0x41, 0xff, 0x1f],
        2,
        CllAnswer::Syntax,
        2,
        2,
        &[(2, 0, 1, 0, 1)],
    ),
    // Texts that are not UTF-8: the place is the end of the title less the length of the shortest title.
    (
        &[0x00, 0x61, 0xff, 0x00],
        6,
        CllAnswer::Syntax,
        1,
        1,
        &[(0, 0, 0, 0, 1)],
    ),
    (
        &[0x00, 0x79, 0x00, 0x01, 0xff],
        6,
        CllAnswer::Syntax,
        1,
        3,
        &[(0, 0, 0, 0, 1)],
    ),
    (&[0x62, 0xc3, 0x28], 6, CllAnswer::Syntax, 0, 0, &[]),
    (&[0x61, 0xc3, 0xa9], 6, CllAnswer::Syntax, 0, 0, &[]),
];

#[test]
fn lists_titles(rt: HostRuntime) {
    for row in &WHOLE {
        list_row(&rt, row);
    }
}

#[test]
fn lists_titles_before_a_fault(rt: HostRuntime) {
    for row in &FAULTS {
        list_row(&rt, row);
    }
}
