// The rows of RFC 8949, appendix A: the notation gives the bytes, and the bytes give a notation that gives them again.

use crate::shared::{MOST, are_encoded, decoded, holds, is_encoded, notation_len};
use cbor_diag::{Layout, Style};
use ciborium_ll::io::{SliceReader, SliceWriter};
use ciborium_ll::recode::recode;
use ciborium_ll::{Decoder, Encoder};
use std::alloc::Global;
use std::process::Abort;

// Rows of an item's bytes and its notation: RFC 8949, appendix A, except the rows of the next table.
pub static VECTORS: &str = "\
00 0
01 1
0a 10
17 23
1818 24
1819 25
1864 100
1903e8 1000
1a000f4240 1000000
1b000000e8d4a51000 1000000000000
1bffffffffffffffff 18446744073709551615
3bffffffffffffffff -18446744073709551616
20 -1
29 -10
3863 -100
3903e7 -1000
f90000 0.0
f98000 -0.0
f93c00 1.0
fb3ff199999999999a 1.1
f93e00 1.5
f97bff 65504.0
fa47c35000 100000.0
fa7f7fffff 3.4028234663852886e+38
fb7e37e43c8800759c 1.0e+300
f90001 5.960464477539063e-8
f90400 0.00006103515625
f9c400 -4.0
fbc010666666666666 -4.1
f97c00 Infinity
f97e00 NaN
f9fc00 -Infinity
f4 false
f5 true
f6 null
f7 undefined
f0 simple(16)
f8ff simple(255)
c074323031332d30332d32315432303a30343a30305a 0(\"2013-03-21T20:04:00Z\")
c11a514b67b0 1(1363896240)
c1fb41d452d9ec200000 1(1363896240.5)
d74401020304 23(h'01020304')
d818456449455446 24(h'6449455446')
d82076687474703a2f2f7777772e6578616d706c652e636f6d 32(\"http://www.example.com\")
40 h''
4401020304 h'01020304'
60 \"\"
6161 \"a\"
6449455446 \"IETF\"
62225c \"\\\"\\\\\"
62c3bc \"ü\"
63e6b0b4 \"水\"
64f0908591 \"𐅑\"
80 []
83010203 [1, 2, 3]
8301820203820405 [1, [2, 3], [4, 5]]
98190102030405060708090a0b0c0d0e0f101112131415161718181819 [1, 2, 3, 4, 5, 6, 7, 8, 9, 10, 11, 12, 13, 14, 15, 16, 17, 18, 19, 20, 21, 22, 23, 24, 25]
a0 {}
a201020304 {1: 2, 3: 4}
a26161016162820203 {\"a\": 1, \"b\": [2, 3]}
826161a161626163 [\"a\", {\"b\": \"c\"}]
a56161614161626142616361436164614461656145 {\"a\": \"A\", \"b\": \"B\", \"c\": \"C\", \"d\": \"D\", \"e\": \"E\"}
5f42010243030405ff (_ h'0102', h'030405')
7f657374726561646d696e67ff (_ \"strea\", \"ming\")
9fff [_ ]
9f018202039f0405ffff [_ 1, [2, 3], [_ 4, 5]]
9f01820203820405ff [_ 1, [2, 3], [4, 5]]
83018202039f0405ff [1, [2, 3], [_ 4, 5]]
83019f0203ff820405 [1, [_ 2, 3], [4, 5]]
9f0102030405060708090a0b0c0d0e0f101112131415161718181819ff [_ 1, 2, 3, 4, 5, 6, 7, 8, 9, 10, 11, 12, 13, 14, 15, 16, 17, 18, 19, 20, 21, 22, 23, 24, 25]
bf61610161629f0203ffff {_ \"a\": 1, \"b\": [_ 2, 3]}
826161bf61626163ff [\"a\", {_ \"b\": \"c\"}]
bf6346756ef563416d7421ff {_ \"Fun\": true, \"Amt\": -2}";

// The other rows of that appendix, which writes bignums as numbers, and wide infinities and NaN without a mark.
pub static OTHER_VECTORS: &str = "\
fa7f800000 Infinity_2
fa7fc00000 NaN_2
faff800000 -Infinity_2
fb7ff0000000000000 Infinity_3
fb7ff8000000000000 NaN_3
fbfff0000000000000 -Infinity_3
c249010000000000000000 2(h'010000000000000000')
c349010000000000000000 3(h'010000000000000000')";

// The notation of some rows as the appendix has it, and of rows whose spelling differs.
static SPELLED: &str = "\
fa7f7fffff 3.4028234663852886e+38
fb7e37e43c8800759c 1.0e+300
f90400 0.00006103515625
f90400 6.103515625e-5
62c3bc \"\\u00fc\"
63e6b0b4 \"\\u6c34\"
64f0908591 \"\\ud800\\udd51\"";

// Items in longer spellings, and items whose floats have a longer width (RFC 8949, 3 and 4.1).
pub static LONG: [&str; 12] = [
    "1800",
    "1900ff",
    "3b0000000000000000",
    "580161",
    "79000161",
    "980101",
    "b90001000b",
    "d9000100",
    "fa3fc00000",
    "fb3ff8000000000000",
    "9f1800ff",
    "5f5801005900025858ff",
];

// Texts with characters that a terminal acts on: U+007F, U+0080, U+009F, U+061C, U+200E, U+200F, U+202A, U+202E, U+2066
// and U+2069.
pub static ACTED_ON: &str = "\
677fc280c29fd89c \"\\u007f\\u0080\\u009f\\u061c\"
72e2808ee2808fe280aae280aee281a6e281a9 \"\\u200e\\u200f\\u202a\\u202e\\u2066\\u2069\"";

// Copies all elements of the bytes to the space, in their shortest spelling. Returns how many bytes they have.
fn shortest_len(bytes: &[u8], space: &mut [u8]) -> Option<usize> {
    let mut decoder = Decoder::from(SliceReader::new(bytes));
    let mut encoder = Encoder::from(SliceWriter::new(space));
    for _element in 0..bytes.len() {
        if decoder.offset() < bytes.len()
            && recode(&mut decoder, &mut encoder, 1, &mut [0; 64]).is_err()
        {
            return None;
        }
    }
    Some(encoder.into_inner().written().len())
}

// Returns whether the notation of the bytes, in this layout, is encoded as their copy.
fn comes_back(alloc: Global, bytes: &[u8], layout: Layout) -> bool {
    let mut shown = [0; 512];
    let style = Style {
        layout,
        is_exact: false,
    };
    let Some(shown_len) = notation_len(bytes, style, &mut shown) else {
        return false;
    };
    let mut copied = [0; MOST];
    let Some(copied_len) = shortest_len(bytes, &mut copied) else {
        return false;
    };
    match (shown.get(..shown_len), copied.get(..copied_len)) {
        (Some(notation), Some(copy)) => is_encoded(alloc, notation, copy),
        _ => false,
    }
}

// Requires that the bytes that the digits spell come back in both layouts.
fn row_comes_back(rt: &impl Abort, alloc: Global, digits: &str) {
    let mut space = [0; MOST];
    let bytes = decoded(rt, digits, &mut space);
    let is_right = comes_back(alloc, bytes, Layout::OneLine)
        && comes_back(alloc, bytes, Layout::Indented);
    holds(rt, is_right, digits);
}

// Requires that the bytes of each row come back.
fn rows_come_back(rt: &impl Abort, alloc: Global, rows: &str) {
    for row in rows.lines() {
        let (digits, _notation) = row.split_once(' ').unwrap_or((row, ""));
        row_comes_back(rt, alloc, digits);
    }
}

#[test]
fn notation_is_encoded(rt: HostRuntime) {
    are_encoded(&rt, rt.alloc(), VECTORS);
    are_encoded(&rt, rt.alloc(), OTHER_VECTORS);
    are_encoded(&rt, rt.alloc(), SPELLED);
    are_encoded(&rt, rt.alloc(), ACTED_ON);
}

#[test]
fn bytes_come_back(rt: HostRuntime) {
    rows_come_back(&rt, rt.alloc(), VECTORS);
    rows_come_back(&rt, rt.alloc(), OTHER_VECTORS);
    rows_come_back(&rt, rt.alloc(), ACTED_ON);
}

#[test]
fn longer_spellings_come_back_in_the_shortest(rt: HostRuntime) {
    for digits in &LONG {
        row_comes_back(&rt, rt.alloc(), digits);
    }
}
