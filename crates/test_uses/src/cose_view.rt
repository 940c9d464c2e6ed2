//! Signed messages that are seen as trees: an example of RFC 9052, and messages that were worked by hand.

use crate::checks::holds_at;
use crate::cose::SINGLE_SIGNATURE;
use cbor_view::Fault;
use uses::{MessageError, view_sign1};

// Returns whether the bytes begin with a message of these parts.
fn is_message(
    bytes: &[u8],
    protected: &[u8],
    unprotected: &[u8],
    payload: Option<&[u8]>,
    signature: &[u8],
) -> bool {
    match view_sign1(bytes) {
        Ok(message) => {
            message.protected == protected
                && message.unprotected.bytes() == unprotected
                && message.payload == payload
                && message.signature == signature
        }
        Err(_) => false,
    }
}

#[test]
fn an_example_of_the_standard(rt: HostRuntime) {
    let is_right = is_message(
        SINGLE_SIGNATURE,
        b"\xa1\x01\x26",
        b"\xa1\x04\x42\x31\x31",
        Some(b"This is the content."),
        &SINGLE_SIGNATURE[34..],
    );
    holds_at(&rt, is_right, SINGLE_SIGNATURE);
}

#[test]
fn messages(rt: HostRuntime) {
    // empty parts, and a byte after the message
    let empty = b"\xd2\x84\x40\xa0\x40\x40\xff";
    holds_at(&rt, is_message(empty, b"", b"\xa0", Some(b""), b""), empty);
    // a detached payload
    let detached = b"\xd2\x84\x40\xa0\xf6\x41s";
    holds_at(
        &rt,
        is_message(detached, b"", b"\xa0", None, b"s"),
        detached,
    );
    // longer titles, and a map of indefinite length
    let longer = b"\xd8\x12\x98\x04\x58\x01\xa0\xbf\x01\x81\x02\xff\xf6\x42ok";
    let is_right = is_message(longer, b"\xa0", b"\xbf\x01\x81\x02\xff", None, b"ok");
    holds_at(&rt, is_right, longer);
}

// Bytes that begin with no message, and why.
static REFUSED: [(&[u8], MessageError); 12] = [
    // another tag, no tag, and an array of three and of any number
    (b"\xd1\x84\x40\xa0\xf6\x41s", MessageError::NoSign1),
    (b"\x84\x40\xa0\xf6\x41s", MessageError::NoSign1),
    (b"\xd2\x83\x40\xa0\xf6", MessageError::NoSign1),
    (b"\xd2\x9f\x40\xa0\xf6\x41s\xff", MessageError::NoSign1),
    // another item in place of each part, and a byte string of indefinite length
    (b"\xd2\x84\xf6\xa0\xf6\x41s", MessageError::NoSign1),
    (b"\xd2\x84\x5f\xff\xa0\xf6\x41s", MessageError::NoSign1),
    (b"\xd2\x84\x40\x80\xf6\x41s", MessageError::NoSign1),
    (b"\xd2\x84\x40\xa0\xf7\x41s", MessageError::NoSign1),
    (b"\xd2\x84\x40\xa0\xf6\xf6", MessageError::NoSign1),
    // no item
    (
        b"\xd2\x84\x40\xa0\xf6\x42s",
        MessageError::Item(Fault::Short),
    ),
    (
        b"\xd2\x84\x40\xa0\x5c",
        MessageError::Item(Fault::Syntax(4)),
    ),
    (
        b"\xd2\x84\x40\xbf\x01\xff\xf6\x41s",
        MessageError::Item(Fault::Break(5)),
    ),
];

#[test]
fn what_is_refused(rt: HostRuntime) {
    for &(bytes, want) in &REFUSED {
        let is_right = matches!(view_sign1(bytes), Err(error) if error == want);
        holds_at(&rt, is_right, bytes);
    }
}
