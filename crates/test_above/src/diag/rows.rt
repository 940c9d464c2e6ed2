// The notation of items: the rows of RFC 8949, and items that were worked by hand.

use crate::shared::{MOST, decoded, holds, holds_at};
use crate::skip::answers::{Answer, answer_of};
use cbor_diag::{DiagError, Layout, Style, diagnose};
use ciborium_ll::Decoder;
use ciborium_ll::io::{EndOfFile, OutOfSpace, SliceReader, SliceWriter};
use std::process::Abort;

// Rows of an item's bytes and its notation: RFC 8949, appendix A, except the rows of the next table.
static VECTORS: &str = "\
00 0
01 1
0a 10
17 23
1818 24
1819 25
1864 100
1903e8 1000
1a000f4240 1000000
1b000000e8d4a51000 1000000000000
1bffffffffffffffff 18446744073709551615
3bffffffffffffffff -18446744073709551616
20 -1
29 -10
3863 -100
3903e7 -1000
f90000 0.0
f98000 -0.0
f93c00 1.0
fb3ff199999999999a 1.1
f93e00 1.5
f97bff 65504.0
fa47c35000 100000.0
fa7f7fffff 3.4028234663852886e+38
fb7e37e43c8800759c 1.0e+300
f90001 5.960464477539063e-8
f90400 0.00006103515625
f9c400 -4.0
fbc010666666666666 -4.1
f97c00 Infinity
f97e00 NaN
f9fc00 -Infinity
f4 false
f5 true
f6 null
f7 undefined
f0 simple(16)
f8ff simple(255)
c074323031332d30332d32315432303a30343a30305a 0(\"2013-03-21T20:04:00Z\")
c11a514b67b0 1(1363896240)
c1fb41d452d9ec200000 1(1363896240.5)
d74401020304 23(h'01020304')
d818456449455446 24(h'6449455446')
d82076687474703a2f2f7777772e6578616d706c652e636f6d 32(\"http://www.example.com\")
40 h''
4401020304 h'01020304'
60 \"\"
6161 \"a\"
6449455446 \"IETF\"
62225c \"\\\"\\\\\"
62c3bc \"ü\"
63e6b0b4 \"水\"
64f0908591 \"𐅑\"
80 []
83010203 [1, 2, 3]
8301820203820405 [1, [2, 3], [4, 5]]
98190102030405060708090a0b0c0d0e0f101112131415161718181819 [1, 2, 3, 4, 5, 6, 7, 8, 9, 10, 11, 12, 13, 14, 15, 16, 17, 18, 19, 20, 21, 22, 23, 24, 25]
a0 {}
a201020304 {1: 2, 3: 4}
a26161016162820203 {\"a\": 1, \"b\": [2, 3]}
826161a161626163 [\"a\", {\"b\": \"c\"}]
a56161614161626142616361436164614461656145 {\"a\": \"A\", \"b\": \"B\", \"c\": \"C\", \"d\": \"D\", \"e\": \"E\"}
5f42010243030405ff (_ h'0102', h'030405')
7f657374726561646d696e67ff (_ \"strea\", \"ming\")
9fff [_ ]
9f018202039f0405ffff [_ 1, [2, 3], [_ 4, 5]]
9f01820203820405ff [_ 1, [2, 3], [4, 5]]
83018202039f0405ff [1, [2, 3], [_ 4, 5]]
83019f0203ff820405 [1, [_ 2, 3], [4, 5]]
9f0102030405060708090a0b0c0d0e0f101112131415161718181819ff [_ 1, 2, 3, 4, 5, 6, 7, 8, 9, 10, 11, 12, 13, 14, 15, 16, 17, 18, 19, 20, 21, 22, 23, 24, 25]
bf61610161629f0203ffff {_ \"a\": 1, \"b\": [_ 2, 3]}
826161bf61626163ff [\"a\", {_ \"b\": \"c\"}]
bf6346756ef563416d7421ff {_ \"Fun\": true, \"Amt\": -2}";

// The other rows of that appendix, which has no marks of widths, and gives bignums as numbers.
static OTHER_VECTORS: &str = "\
fa7f800000 Infinity_2
fa7fc00000 NaN_2
faff800000 -Infinity_2
fb7ff0000000000000 Infinity_3
fb7ff8000000000000 NaN_3
fbfff0000000000000 -Infinity_3
c249010000000000000000 2(h'010000000000000000')
c349010000000000000000 3(h'010000000000000000')";

// Floats whose value a shorter width holds, or almost holds (RFC 8949, 8.1).
static MARKS: &str = "\
fa3fc00000 1.5_2
fb3ff8000000000000 1.5_3
fb40f86a0000000000 100000.0_3
fa33800000 5.960464477539063e-8_2
fa33000000 2.9802322387695312e-8
fa38800000 0.00006103515625_2
fa38801000 0.0000610649585723877
fa477fe000 65504.0_2
fa47800000 65536.0
fa80000000 -0.0_2";

// Strings and maps of the indefinite form without bodies, and with empty ones; nested opens; escapes (RFC 8259, 7).
// Control characters and bidirectional controls are escaped (Unicode, PropList.txt), and their neighbours are not.
static STRINGS: &str = "\
5fff ''_
7fff \"\"_
5f40ff (_ h'')
7f60ff (_ \"\")
7f7f6161ff6162ff (_ \"a\", \"b\")
bfff {_ }
6908090a0c0d001f7f2f \"\\b\\t\\n\\f\\r\\u0000\\u001f\\u007f/\"
781a7e7fc280c29fc2a0d89bd89cd89de2808de2808ee2808fe28090 \"~\\u007f\\u0080\\u009f\u{a0}\u{61b}\\u061c\u{61d}\u{200d}\\u200e\\u200f\u{2010}\"
781ce280a9e280aae280aee280afe281a5e281a6e281a9e281aaf0908880 \"\u{2029}\\u202a\\u202e\u{202f}\u{2065}\\u2066\\u2069\u{206a}\u{10200}\"";

// Plain notation on one line, and in lines.
const PLAIN: Style = Style {
    layout: Layout::OneLine,
    is_exact: false,
};

const IN_LINES: Style = Style {
    layout: Layout::Indented,
    is_exact: false,
};

// Exact notation on one line.
const EXACT: Style = Style {
    layout: Layout::OneLine,
    is_exact: true,
};

// A show of an item. It has how the show ends, as a skip of the item does, or `None` if there is no room for its text.
// It also has the offset after the show, and how many bytes of text are written.
#[derive(Drop)]
struct Shown {
    answer: Option<Answer>,
    offset: usize,
    written: usize,
}

// Returns how a show ends that leaves the decoder at this offset.
fn answer_to(
    outcome: Result<(), DiagError<EndOfFile, OutOfSpace>>,
    offset: usize,
) -> Option<Answer> {
    match outcome {
        Ok(()) => Some(Answer::Item(offset)),
        Err(DiagError::Read(error)) => Some(answer_of(&Err(error), offset)),
        Err(DiagError::Write(_)) => None,
    }
}

// The text goes to the start of the space.
fn show(bytes: &[u8], depth: usize, style: Style, space: &mut [u8]) -> Shown {
    let mut decoder = Decoder::from(SliceReader::new(bytes));
    let mut writer = SliceWriter::new(space);
    let outcome = diagnose(&mut decoder, &mut writer, depth.min(256), style);
    let offset = decoder.offset();
    Shown {
        answer: answer_to(outcome, offset),
        offset,
        written: writer.written().len(),
    }
}

// Returns whether a show ends with this answer, at this offset.
fn ends_so(shown: &Shown, want: Answer, offset: usize) -> bool {
    match shown.answer {
        Some(answer) => answer == want && shown.offset == offset,
        None => false,
    }
}

// Returns whether the bytes are one item with this notation.
fn is_shown(bytes: &[u8], style: Style, notation: &str) -> bool {
    let mut space = [0; 256];
    let shown = show(bytes, 8, style, &mut space);
    ends_so(&shown, Answer::Item(bytes.len()), bytes.len())
        && space.get(..shown.written) == Some(notation.as_bytes())
}

// Returns whether each beginning of the bytes is cut, and none is an item.
fn is_cut(bytes: &[u8], style: Style) -> bool {
    let mut space = [0; 256];
    for len in 0..bytes.len() {
        match show(&bytes[..len], 8, style, &mut space).answer {
            Some(Answer::Short(_)) => {}
            _ => return false,
        }
    }
    true
}

// Requires that the bytes of a row are one item with the notation after them, and that no beginning of them is an item.
fn row_is_shown(rt: &impl Abort, row: &str) {
    let (digits, notation) = row.split_once(' ').unwrap_or((row, ""));
    let mut space = [0; MOST];
    let bytes = decoded(rt, digits, &mut space);
    let is_right = is_shown(bytes, PLAIN, notation) && is_cut(bytes, PLAIN) && is_cut(bytes, EXACT);
    holds(rt, is_right, row);
}

// Requires that each row is shown as its notation.
fn are_shown(rt: &impl Abort, rows: &str) {
    for row in rows.lines() {
        row_is_shown(rt, row);
    }
}

#[test]
fn vectors(rt: HostRuntime) {
    are_shown(&rt, VECTORS);
    are_shown(&rt, OTHER_VECTORS);
}

#[test]
fn marks_of_widths(rt: HostRuntime) {
    are_shown(&rt, MARKS);
}

#[test]
fn strings_and_escapes(rt: HostRuntime) {
    are_shown(&rt, STRINGS);
}

// Returns whether a show of bytes, within this many levels, ends with this answer at this offset in both notations.
fn is_refused(bytes: &[u8], depth: usize, want: Answer, offset: usize) -> bool {
    let plain = show(bytes, depth, PLAIN, &mut [0; 256]);
    let exact = show(bytes, depth, EXACT, &mut [0; 256]);
    ends_so(&plain, want, offset) && ends_so(&exact, want, offset)
}

// Bytes, how many levels are allowed, how a show of them ends, and the offset after it.
static REFUSED: [(&[u8], usize, Answer, usize); 12] = [
    (b"\xff", 8, Answer::Break(0), 1),
    (b"\x82\x01\xff", 8, Answer::Break(2), 3),
    (b"\xbf\x01\xff", 8, Answer::Break(2), 3),
    (b"\x81\x81\x00", 1, Answer::Deep(1), 2),
    (b"\xc1\x00", 0, Answer::Deep(0), 1),
    (b"\x81\x1c", 8, Answer::Syntax(1), 2),
    (b"\x5f\x01\xff", 8, Answer::Syntax(1), 2),
    (b"\x7f\x61\xff\xff", 8, Answer::Syntax(1), 3),
    (b"\x5f\x5f\xff\x61\x61", 8, Answer::Syntax(3), 4),
    (b"\x5f\x5f\x1c", 8, Answer::Syntax(2), 3),
    (b"\x7f\x7f\x78\x01\xff", 8, Answer::Syntax(2), 5),
    (b"\x81\x00\xff", 1, Answer::Item(2), 2),
];

#[test]
fn what_is_refused(rt: HostRuntime) {
    for &(bytes, depth, want, offset) in &REFUSED {
        holds_at(&rt, is_refused(bytes, depth, want, offset), bytes);
    }
}

#[test]
fn lines(rt: HostRuntime) {
    let bytes = b"\xa2\x61a\x82\x01\xa0\x61b\xc1\x9f\xf5\xff";
    let notation = "{\n  \"a\": [\n    1,\n    {}\n  ],\n  \"b\": 1([_\n    true\n  ])\n}";
    holds(&rt, is_shown(bytes, IN_LINES, notation), "a map");
    let is_right = is_shown(b"\x9f\xff", IN_LINES, "[_ ]") && is_shown(b"\x01", IN_LINES, "1");
    holds(&rt, is_right, "an item of one line");
}

#[test]
fn no_room(rt: HostRuntime) {
    let mut space = [0; 5];
    let shown = show(b"\x83\x01\x02\x03", 8, PLAIN, &mut space);
    let is_written = space.get(..shown.written) == Some(b"[1, 2".as_slice());
    let is_right = shown.answer.is_none() && is_written;
    holds(&rt, is_right, "an array of three numbers in five bytes");
}
