// The texts of errors for a person.

use crate::shared::holds;
use cbor_encode::{Expected, NotationError};
use std::alloc::Global;

static TEXTS: [(Expected, &str); 22] = [
    (Expected::Item, "line 3, column 14: expected an item"),
    (
        Expected::End,
        "line 3, column 14: expected the end of the text",
    ),
    (
        Expected::Space,
        "line 3, column 14: expected a comma or white space",
    ),
    (
        Expected::Comma,
        "line 3, column 14: expected a comma or a closing bracket",
    ),
    (
        Expected::Colon,
        "line 3, column 14: expected a colon and a value",
    ),
    (
        Expected::Parenthesis,
        "line 3, column 14: expected a closing parenthesis",
    ),
    (Expected::Digit, "line 3, column 14: expected a digit"),
    (
        Expected::HexDigits,
        "line 3, column 14: expected two hexadecimal digits or a quote",
    ),
    (
        Expected::Base64,
        "line 3, column 14: expected digits of base 64 and a quote",
    ),
    (
        Expected::Escape,
        "line 3, column 14: expected a character or an escape of JSON",
    ),
    (
        Expected::Quote,
        "line 3, column 14: expected a closing quote",
    ),
    (
        Expected::Comment,
        "line 3, column 14: expected a slash that closes this comment",
    ),
    (
        Expected::Chunk,
        "line 3, column 14: expected a string of the same kind",
    ),
    (
        Expected::Integer,
        "line 3, column 14: expected an integer from -2^64 to 2^64 - 1",
    ),
    (
        Expected::Float,
        "line 3, column 14: expected a finite float",
    ),
    (
        Expected::Bits,
        "line 3, column 14: expected 4, 8 or 16 hexadecimal digits and a quote",
    ),
    (
        Expected::Simple,
        "line 3, column 14: expected a simple value from 0 to 23 or from 32 to 255",
    ),
    (
        Expected::Mark,
        "line 3, column 14: expected a mark whose width is enough",
    ),
    (Expected::NoMark, "line 3, column 14: expected no mark"),
    (Expected::Text, "line 3, column 14: expected UTF-8"),
    (Expected::Level, "line 3, column 14: expected fewer levels"),
    (Expected::Memory, "line 3, column 14: expected more memory"),
];

// Returns whether an error has this text.
fn is_told(alloc: Global, error: NotationError, want: &str) -> bool {
    match format!(in alloc; "{error}") {
        Ok(text) => text.as_str() == want,
        Err(_error) => false,
    }
}

#[test]
fn messages(rt: HostRuntime) {
    for &(expected, want) in &TEXTS {
        let error = NotationError {
            expected,
            place: 40,
            line: 3,
            column: 14,
        };
        holds(&rt, is_told(rt.alloc(), error, want), want);
    }
}
