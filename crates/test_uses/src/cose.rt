//! Signed messages: an example of RFC 9052, and messages that were worked by hand.

use crate::checks::{End, ends_so, holds_at};
use cbor_skip::SkipError;
use ciborium_ll::Error;
use ciborium_ll::io::EndOfFile;
use uses::{CoseError, Sign1, Span, read_sign1};

// RFC 9052, appendix C.2.1: the protected parameters {1: -7}, the unprotected ones {4: '11'}, the payload "This is the
// content." and a signature of 64 bytes.
pub static SINGLE_SIGNATURE: &[u8] =
    b"\xd2\x84\x43\xa1\x01\x26\xa1\x04\x42\x31\x31\x54This is the content.\x58\x40\
    \x8e\xb3\x3e\x4c\xa3\x1d\x1c\x46\x5a\xb0\x5a\xac\x34\xcc\x6b\x23\xd5\x8f\xef\x5c\x08\x31\x06\xc4\
    \xd2\x5a\x91\xae\xf0\xb0\x11\x7e\x2a\xf9\xa2\x91\xaa\x32\xe1\x4a\xb8\x34\xdc\x56\xed\x2a\x22\x34\
    \x44\x54\x7e\x01\xf1\x1d\x3b\x09\x16\xe5\xa4\xc3\x45\xca\xcb\x36";

// Returns how a read ends and at which offset. An error in the map of the unprotected parameters is marked as one of
// the map.
fn end_of(bytes: &[u8]) -> (End, usize) {
    match read_sign1(bytes) {
        Ok(_) => (End::Done, 0),
        Err(CoseError::Unexpected(place)) => (End::Unexpected, place),
        Err(CoseError::Read(Error::Syntax(place))) => (End::Syntax, place),
        Err(CoseError::Read(Error::Io(EndOfFile))) => (End::Short, 0),
        Err(CoseError::Read(_)) => (End::Other, 0),
        Err(CoseError::Skip(error)) => end_of_map(error),
    }
}

fn end_of_map(error: SkipError<EndOfFile>) -> (End, usize) {
    match error {
        SkipError::Break(place) => (End::MapBreak, place),
        SkipError::Deep(place) => (End::MapDeep, place),
        SkipError::Read(Error::Syntax(place)) => (End::MapSyntax, place),
        SkipError::Read(Error::Io(EndOfFile)) => (End::MapShort, 0),
        SkipError::Read(_) => (End::Other, 0),
    }
}

// Returns whether bytes are a message of these parts.
fn is_message(bytes: &[u8], want: Sign1) -> bool {
    matches!(read_sign1(bytes), Ok(parts) if parts == want)
}

#[test]
fn an_example_of_the_standard(rt: HostRuntime) {
    let want = Sign1 {
        protected: Span { start: 3, end: 6 },
        unprotected: Span { start: 6, end: 11 },
        payload: Some(Span { start: 12, end: 32 }),
        signature: Span { start: 34, end: 98 },
    };
    let is_right = SINGLE_SIGNATURE.len() == 98 && is_message(SINGLE_SIGNATURE, want);
    holds_at(&rt, is_right, SINGLE_SIGNATURE);
}

// Messages, and their parts.
static MESSAGES: [(&[u8], Sign1); 3] = [
    // empty strings and an empty map, and a byte after the message
    (
        b"\xd2\x84\x40\xa0\x40\x40\xff",
        Sign1 {
            protected: Span { start: 3, end: 3 },
            unprotected: Span { start: 3, end: 4 },
            payload: Some(Span { start: 5, end: 5 }),
            signature: Span { start: 6, end: 6 },
        },
    ),
    // a detached payload
    (
        b"\xd2\x84\x40\xa0\xf6\x41s",
        Sign1 {
            protected: Span { start: 3, end: 3 },
            unprotected: Span { start: 3, end: 4 },
            payload: None,
            signature: Span { start: 6, end: 7 },
        },
    ),
    // a map of indefinite length, which holds an array
    (
        b"\xd2\x84\x41\xa0\xbf\x01\x81\x02\xff\xf6\x42ok",
        Sign1 {
            protected: Span { start: 3, end: 4 },
            unprotected: Span { start: 4, end: 9 },
            payload: None,
            signature: Span { start: 11, end: 13 },
        },
    ),
];

#[test]
fn messages(rt: HostRuntime) {
    for &(bytes, parts) in &MESSAGES {
        holds_at(&rt, is_message(bytes, parts), bytes);
    }
}

// Bytes that are no message, why, and at which offset if the error has one.
static REFUSED: [(&[u8], End, usize); 19] = [
    // another tag, no tag, and an array of three and of any number
    (b"\xd1\x84\x40\xa0\xf6\x41s", End::Unexpected, 0),
    (b"\x84\x40\xa0\xf6\x41s", End::Unexpected, 0),
    (b"\xd2\x83\x40\xa0\xf6", End::Unexpected, 1),
    (b"\xd2\x9f\x40\xa0\xf6\x41s\xff", End::Unexpected, 1),
    // another item in place of each part, and a byte string of indefinite length
    (b"\xd2\x84\xf6\xa0\xf6\x41s", End::Unexpected, 2),
    (b"\xd2\x84\x5f\xff\xa0\xf6\x41s", End::Unexpected, 2),
    (b"\xd2\x84\x40\x80\xf6\x41s", End::Unexpected, 3),
    (b"\xd2\x84\x40\xa0\xf7\x41s", End::Unexpected, 4),
    (b"\xd2\x84\x40\xa0\xf6\xf6", End::Unexpected, 5),
    // titles that are not the shortest, and bytes that are no title
    (b"\xd2\x84\x58\x00\xa0\xf6\x41s", End::Syntax, 2),
    (b"\xd8\x12\x84\x40\xa0\xf6\x41s", End::Syntax, 0),
    (b"\xd2\x84\x40\xa0\x5c", End::Syntax, 4),
    // bytes that end within a body, and before a title
    (b"\xd2\x84\x40\xa0\xf6\x42s", End::Short, 0),
    (b"", End::Short, 0),
    // a map with a key alone, with bytes that are no title, with a longer title, nested too deep, and ending too early
    (b"\xd2\x84\x40\xbf\x01\xff\xf6\x41s", End::MapBreak, 5),
    (b"\xd2\x84\x40\xa1\x1c\x01", End::MapSyntax, 4),
    (b"\xd2\x84\x40\xa1\x18\x01\x02\xf6\x41s", End::MapSyntax, 4),
    (
        b"\xd2\x84\x40\xa1\x81\x81\x81\x81\x81\x81\x81\x81\x81\x81\x81\x81\x81\x81\x81\x81\x01\x02",
        End::MapDeep,
        19,
    ),
    (b"\xd2\x84\x40\xa1\x01", End::MapShort, 0),
];

#[test]
fn what_is_refused(rt: HostRuntime) {
    for &(bytes, want, place) in &REFUSED {
        holds_at(&rt, ends_so(end_of(bytes), want, place), bytes);
    }
}

#[test]
fn a_message_that_is_cut(rt: HostRuntime) {
    for len in 0..SINGLE_SIGNATURE.len() {
        let front = &SINGLE_SIGNATURE[..len];
        let is_short = matches!(end_of(front).0, End::Short | End::MapShort);
        holds_at(&rt, is_short, front);
    }
}
