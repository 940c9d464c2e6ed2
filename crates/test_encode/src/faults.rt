// Faults, by what was expected, and by their offset, line and column.

use crate::shared::holds;
use cbor_encode::{Expected, MAX_DEPTH, NotationError, encode, encode_shortest};

// A text, what is expected, and the offset, the line and the column of the place.
type Row = (&'static str, Expected, usize, usize, usize);

static ROWS: [Row; 50] = [
    ("", Expected::Item, 0, 1, 1),
    ("  # c\n", Expected::Item, 6, 2, 1),
    ("1 2", Expected::End, 2, 1, 3),
    ("[1 2]", Expected::Comma, 3, 1, 4),
    ("[1,\n 2", Expected::Comma, 6, 2, 3),
    ("[1,,2]", Expected::Item, 3, 1, 4),
    ("{1 2}", Expected::Colon, 3, 1, 4),
    ("{1: }", Expected::Item, 4, 1, 5),
    ("{1}", Expected::Colon, 2, 1, 3),
    ("1(2", Expected::Parenthesis, 3, 1, 4),
    ("0x", Expected::Digit, 2, 1, 3),
    ("-", Expected::Digit, 1, 1, 2),
    ("1.", Expected::Digit, 2, 1, 3),
    ("1e+", Expected::Digit, 3, 1, 4),
    ("h'0'", Expected::HexDigits, 3, 1, 4),
    ("h'0g'", Expected::HexDigits, 3, 1, 4),
    ("b64'A'", Expected::Base64, 5, 1, 6),
    ("b64'EjRWeB'", Expected::Base64, 10, 1, 11),
    ("b64u'/'", Expected::Base64, 5, 1, 6),
    ("\"\\q\"", Expected::Escape, 1, 1, 2),
    ("\"\\ud800\"", Expected::Escape, 1, 1, 2),
    ("\"\\udc00\"", Expected::Escape, 1, 1, 2),
    ("\"a\n\"", Expected::Escape, 2, 1, 3),
    ("\"ab", Expected::Quote, 3, 1, 4),
    ("1 / c", Expected::Comment, 2, 1, 3),
    ("(_ \"a\", h'00')", Expected::Chunk, 8, 1, 9),
    ("(_ )", Expected::Chunk, 3, 1, 4),
    ("(_ 1)", Expected::Chunk, 3, 1, 4),
    ("(_ (_ ))", Expected::Chunk, 6, 1, 7),
    ("(_ h'', (_ ))", Expected::Chunk, 11, 1, 12),
    ("(_ (_ \"a\") \"b\")", Expected::Comma, 11, 1, 12),
    ("(1)", Expected::Item, 0, 1, 1),
    ("18446744073709551616", Expected::Integer, 0, 1, 1),
    ("-18446744073709551617", Expected::Integer, 0, 1, 1),
    ("[1e999]", Expected::Float, 1, 1, 2),
    ("simple(24)", Expected::Simple, 7, 1, 8),
    ("simple(256)", Expected::Simple, 7, 1, 8),
    ("simple(24_)", Expected::Simple, 7, 1, 8),
    ("simple(24_1)", Expected::Mark, 0, 1, 1),
    ("float'7e0'", Expected::Bits, 6, 1, 7),
    ("float'7e01", Expected::Bits, 10, 1, 11),
    ("24_i", Expected::Mark, 0, 1, 1),
    ("256_0", Expected::Mark, 0, 1, 1),
    ("1_", Expected::Mark, 0, 1, 1),
    ("1.1_1", Expected::Mark, 0, 1, 1),
    ("1.5_0", Expected::Mark, 0, 1, 1),
    ("[0, \"a\"_]", Expected::Mark, 4, 1, 5),
    ("tru", Expected::Item, 0, 1, 1),
    ("[\"ü\", x]", Expected::Item, 7, 1, 7),
    ("\n\n  \"水\" x", Expected::End, 10, 3, 7),
];

// Returns whether the answer of a call is this error.
fn fails(
    answer: Result<Vec<u8>, NotationError>,
    (_text, expected, place, line, column): Row,
) -> bool {
    match answer {
        Ok(_bytes) => false,
        Err(error) => {
            error
                == NotationError {
                    expected,
                    place,
                    line,
                    column,
                }
        }
    }
}

#[test]
fn places(rt: HostRuntime) {
    for &row in &ROWS {
        holds(
            &rt,
            fails(encode(rt.alloc(), row.0.as_bytes(), MAX_DEPTH), row),
            row.0,
        );
    }
}

#[test]
fn no_text(rt: HostRuntime) {
    let row = ("a byte ff", Expected::Text, 1, 1, 2);
    holds(&rt, fails(encode(rt.alloc(), b"\"\xff\"", 0), row), row.0);
    let row = ("a cut character", Expected::Text, 6, 2, 3);
    holds(
        &rt,
        fails(encode(rt.alloc(), b"1 #\n# \xc3", 0), row),
        row.0,
    );
}

// Texts that need one level more than the second number says.
static DEEP: [(Row, usize); 6] = [
    (("[1]", Expected::Level, 0, 1, 1), 0),
    (("{}", Expected::Level, 0, 1, 1), 0),
    (("1(2)", Expected::Level, 0, 1, 1), 0),
    (("<<1>>", Expected::Level, 0, 1, 1), 0),
    (("[[1]]", Expected::Level, 1, 1, 2), 1),
    (("{1: 2(3)}", Expected::Level, 4, 1, 5), 1),
];

#[test]
fn levels(rt: HostRuntime) {
    for &(row, depth) in &DEEP {
        let depth = depth.min(8);
        let text = row.0.as_bytes();
        holds(&rt, fails(encode(rt.alloc(), text, depth), row), row.0);
        holds(&rt, encode(rt.alloc(), text, depth + 1).is_ok(), row.0);
    }
}

// Marks that only `encode` takes.
static MARKED: [Row; 4] = [
    ("1_0", Expected::NoMark, 0, 1, 1),
    ("[1, \"a\"_1]", Expected::NoMark, 4, 1, 5),
    ("[_i 1]", Expected::NoMark, 0, 1, 1),
    ("(_ 'a'_0)", Expected::NoMark, 3, 1, 4),
];

#[test]
fn marks_are_refused(rt: HostRuntime) {
    for &row in &MARKED {
        let text = row.0.as_bytes();
        holds(&rt, fails(encode_shortest(rt.alloc(), text, 1), row), row.0);
        holds(&rt, encode(rt.alloc(), text, 1).is_ok(), row.0);
    }
}
