//! Attestation objects of Web Authentication, worked by hand.

use crate::checks::holds_at;
use cbor_view::Fault;
use uses::{Attestation, AttestationError, Span, read_attestation};

// An object with the format "none" (W3C Web Authentication, 8.7). The authenticator data are the hash of "example.com",
// the flags and the counter (6.1), 37 bytes.
static NONE_OBJECT: &[u8] = b"\xa3\x63fmt\x64none\x67attStmt\xa0\x68authData\x58\x25\
    \xa3\x79\xa6\xf6\xee\xaf\xb9\xa5\x5e\x37\x8c\x11\x80\x34\xe2\x75\
    \x1e\x68\x2f\xab\x9f\x2d\x30\xab\x13\xd2\x12\x55\x86\xce\x19\x47\x01\x00\x00\x00\x00";

static NONE_PARTS: Attestation = Attestation {
    format: Span { start: 6, end: 10 },
    statement: Span { start: 18, end: 19 },
    auth_data: Span { start: 30, end: 67 },
};

// Objects, and their parts.
static OBJECTS: [(&[u8], Attestation); 3] = [
    // another order, another key, and a byte after the object
    (
        b"\xa4\x68authData\x43abc\x61x\x82\x01\x02\x67attStmt\xa0\x63fmt\x64none\x00",
        Attestation {
            format: Span { start: 33, end: 37 },
            statement: Span { start: 27, end: 28 },
            auth_data: Span { start: 11, end: 14 },
        },
    ),
    // the first value of a key counts
    (
        b"\xa4\x63fmt\x61a\x63fmt\x61b\x67attStmt\xa0\x68authData\x40",
        Attestation {
            format: Span { start: 6, end: 7 },
            statement: Span { start: 21, end: 22 },
            auth_data: Span { start: 32, end: 32 },
        },
    ),
    // a map of indefinite length, longer titles, and a statement with a pair
    (
        b"\xbf\x78\x03fmt\x78\x01a\x67attStmt\xb8\x01\x61x\x01\x68authData\x58\x01\x07\xff",
        Attestation {
            format: Span { start: 8, end: 9 },
            statement: Span { start: 17, end: 22 },
            auth_data: Span { start: 33, end: 34 },
        },
    ),
];

// Returns whether the bytes begin with an object of these parts.
fn is_object(bytes: &[u8], want: Attestation) -> bool {
    matches!(read_attestation(bytes), Ok(parts) if parts == want)
}

#[test]
fn an_object_with_the_format_none(rt: HostRuntime) {
    let is_right = NONE_OBJECT.len() == 67 && is_object(NONE_OBJECT, NONE_PARTS);
    holds_at(&rt, is_right, NONE_OBJECT);
}

#[test]
fn objects(rt: HostRuntime) {
    for &(bytes, parts) in &OBJECTS {
        holds_at(&rt, is_object(bytes, parts), bytes);
    }
}

// Bytes that begin with no object, and why.
static REFUSED: [(&[u8], AttestationError); 14] = [
    // no item
    (b"", AttestationError::Item(Fault::Short)),
    (b"\xa1\x63fmt", AttestationError::Item(Fault::Short)),
    (b"\xa1\x1c\x00", AttestationError::Item(Fault::Syntax(1))),
    (b"\xff", AttestationError::Item(Fault::Break(0))),
    (
        b"\xa1\x01\x81\x81\x81\x81\x81\x81\x81\x81\x81\x81\x81\x81\x81\x81\x81\x81\x01",
        AttestationError::Item(Fault::Deep(17)),
    ),
    // no map, no pair, a format in a byte string and in pieces, and a key in pieces
    (b"\x80", AttestationError::NoFormat),
    (b"\xa0", AttestationError::NoFormat),
    (b"\xa1\x63fmt\x44none", AttestationError::NoFormat),
    (b"\xa1\x63fmt\x7f\x64none\xff", AttestationError::NoFormat),
    (b"\xa1\x7f\x63fmt\xff\x64none", AttestationError::NoFormat),
    // no statement, and an array in its place
    (b"\xa1\x63fmt\x64none", AttestationError::NoStatement),
    (
        b"\xa2\x63fmt\x64none\x67attStmt\x80",
        AttestationError::NoStatement,
    ),
    // no authenticator data, and a text in their place
    (
        b"\xa2\x63fmt\x64none\x67attStmt\xa0",
        AttestationError::NoAuthData,
    ),
    (
        b"\xa3\x63fmt\x64none\x67attStmt\xa0\x68authData\x60",
        AttestationError::NoAuthData,
    ),
];

#[test]
fn what_is_refused(rt: HostRuntime) {
    for &(bytes, want) in &REFUSED {
        let is_right = matches!(read_attestation(bytes), Err(error) if error == want);
        holds_at(&rt, is_right, bytes);
    }
}

#[test]
fn an_object_that_is_cut(rt: HostRuntime) {
    for len in 0..NONE_OBJECT.len() {
        let front = &NONE_OBJECT[..len];
        let error = read_attestation(front);
        let is_short = matches!(error, Err(AttestationError::Item(Fault::Short)));
        holds_at(&rt, is_short, front);
    }
}
