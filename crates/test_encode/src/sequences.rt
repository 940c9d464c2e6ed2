// Sequences of items (RFC 8742).

use crate::shared::{gives, holds};
use cbor_encode::{Expected, NotationError, encode_all};

// Texts and their items.
static SEQUENCES: [(&str, &[u8]); 8] = [
    ("", &[]),
    (" # nothing\n", &[]),
    ("1", &[1]),
    ("1, 2", &[1, 2]),
    ("1\n2\n3\n", &[1, 2, 3]),
    ("1 2,3,", &[1, 2, 3]),
    ("1/a/2 # b\n[3]", &[1, 2, 0x81, 3]),
    ("'' ,true", &[0x40, 0xf5]),
];

#[test]
fn sequences(rt: HostRuntime) {
    for &(text, want) in &SEQUENCES {
        holds(
            &rt,
            gives(encode_all(rt.alloc(), text.as_bytes(), 1), want),
            text,
        );
    }
}

// Returns whether the text fails with this error.
fn fails(answer: Result<Vec<u8>, NotationError>, want: NotationError) -> bool {
    match answer {
        Ok(_bytes) => false,
        Err(error) => error == want,
    }
}

#[test]
fn faults(rt: HostRuntime) {
    let want = NotationError {
        expected: Expected::Space,
        place: 5,
        line: 2,
        column: 4,
    };
    holds(
        &rt,
        fails(encode_all(rt.alloc(), b"1\n[2][3]", 1), want),
        "no space",
    );
    let want = NotationError {
        expected: Expected::Item,
        place: 2,
        line: 1,
        column: 3,
    };
    holds(
        &rt,
        fails(encode_all(rt.alloc(), b"1,,2", 1), want),
        "two commas",
    );
}
