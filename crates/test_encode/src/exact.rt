// Exact notation: it gives exactly the bytes that it shows.

use crate::rows::{ACTED_ON, LONG, OTHER_VECTORS, VECTORS};
use crate::shared::{MOST, decoded, holds, is_encoded, notation_len};
use cbor_diag::{Layout, Style};
use std::alloc::Global;
use std::process::Abort;

// Rows of an item's bytes and its exact notation, by the marks of RFC 8949, 8.1: titles of each width, simple values of
// two bytes, strings of indefinite length, and floats.
static ROWS: &str = "\
17 23
1817 23_0
1818 24
190017 23_1
1a00000017 23_2
1b0000000000000017 23_3
1bffffffffffffffff 18446744073709551615
3800 -1_0
390000 -1_1
3a00000000 -1_2
3b0000000000000000 -1_3
5800 h''_0
580161 h'61'_0
59000161 h'61'_1
5a0000000161 h'61'_2
5b000000000000000161 h'61'_3
780161 \"a\"_0
79000161 \"a\"_1
7a0000000161 \"a\"_2
7b000000000000000161 \"a\"_3
9800 [_0 ]
980101 [_0 1]
9900020102 [_1 1, 2]
9a0000000101 [_2 1]
9b000000000000000101 [_3 1]
b800 {_0 }
b8010102 {_0 1: 2}
b900010102 {_1 1: 2}
ba000000010102 {_2 1: 2}
bb00000000000000010102 {_3 1: 2}
d80102 1_0(2)
d9000102 1_1(2)
da0000000102 1_2(2)
db000000000000000102 1_3(2)
81980101 [[_0 1]]
f4 false
f800 simple(0_0)
f814 simple(20_0)
f817 simple(23_0)
f818 simple(24_0)
f81f simple(31_0)
f820 simple(32)
5fff ''_
7fff \"\"_
5f40ff (_ h'')
5f58016140ff (_ h'61'_0, h'')
5f5fffff (_ ''_)
5f5fff5fffff (_ ''_, ''_)
5f5f4101ffff (_ (_ h'01'))
5f41015f4102ff4103ff (_ h'01', (_ h'02'), h'03')
5f5f5f4101ff4102ffff (_ (_ (_ h'01'), h'02'))
7f7f6161ff6162ff (_ (_ \"a\"), \"b\")
7f7fff790002c3bcff (_ \"\"_, \"ü\"_1)
f98000 -0.0
fa80000000 -0.0_2
fb8000000000000000 -0.0_3
fa3fc00000 1.5_2
fb3ff8000000000000 1.5_3
f90001 5.960464477539063e-8
f97e00 NaN
fa7fc00000 NaN_2
fb7ff8000000000000 NaN_3
f97e01 float'7e01'
f97c01 float'7c01'
f9fe00 float'fe00'
fa7fc00001 float'7fc00001'
fa7f800001 float'7f800001'
faffc00000 float'ffc00000'
fb7ff8000000000001 float'7ff8000000000001'
fb7ff0000000000001 float'7ff0000000000001'
fbfff8000000000000 float'fff8000000000000'";

// Exact notation in this layout.
pub fn exact(layout: Layout) -> Style {
    Style {
        layout,
        is_exact: true,
    }
}

// Returns whether exact notation of the bytes is encoded as these bytes. It is also if the bytes are no item.
fn comes_back(alloc: Global, bytes: &[u8], layout: Layout) -> bool {
    let mut shown = [0; 512];
    let Some(len) = notation_len(bytes, exact(layout), &mut shown) else {
        return true;
    };
    match shown.get(..len) {
        Some(notation) => is_encoded(alloc, notation, bytes),
        None => false,
    }
}

// Requires that the bytes that the digits spell are one item, and come back in both layouts.
fn row_comes_back(rt: &impl Abort, alloc: Global, digits: &str) {
    let mut space = [0; MOST];
    let bytes = decoded(rt, digits, &mut space);
    let is_right = notation_len(bytes, exact(Layout::OneLine), &mut [0; 512]).is_some()
        && comes_back(alloc, bytes, Layout::OneLine)
        && comes_back(alloc, bytes, Layout::Indented);
    holds(rt, is_right, digits);
}

// Requires that the bytes of each row come back.
fn rows_come_back(rt: &impl Abort, alloc: Global, rows: &str) {
    for row in rows.lines() {
        let (digits, _notation) = row.split_once(' ').unwrap_or((row, ""));
        row_comes_back(rt, alloc, digits);
    }
}

// Requires that the bytes of a row have the notation after them.
fn row_is_shown(rt: &impl Abort, row: &str) {
    let (digits, notation) = row.split_once(' ').unwrap_or((row, ""));
    let mut space = [0; MOST];
    let bytes = decoded(rt, digits, &mut space);
    let mut shown = [0; 512];
    let is_right = match notation_len(bytes, exact(Layout::OneLine), &mut shown) {
        Some(len) => shown.get(..len) == Some(notation.as_bytes()),
        None => false,
    };
    holds(rt, is_right, row);
}

#[test]
fn exact_notation(rt: HostRuntime) {
    for row in ROWS.lines() {
        row_is_shown(&rt, row);
    }
}

#[test]
fn exact_bytes_come_back(rt: HostRuntime) {
    rows_come_back(&rt, rt.alloc(), ROWS);
    rows_come_back(&rt, rt.alloc(), VECTORS);
    rows_come_back(&rt, rt.alloc(), OTHER_VECTORS);
    rows_come_back(&rt, rt.alloc(), ACTED_ON);
    for digits in &LONG {
        row_comes_back(&rt, rt.alloc(), digits);
    }
}

#[test]
fn items_of_two_bytes_come_back(rt: HostRuntime) {
    for first in 0..=255u8 {
        holds(
            &rt,
            comes_back(rt.alloc(), &[first], Layout::OneLine),
            "one byte",
        );
        for second in 0..=255u8 {
            let is_right = comes_back(rt.alloc(), &[first, second], Layout::OneLine);
            holds(&rt, is_right, "two bytes");
        }
    }
}
