// What tests of several modules need: the items of rows.

use cbor_view::Item;
use std::process::Abort;

// As many bytes as a row has at most.
pub const MOST: usize = 64;

// What was looked at holds. The message says what that is.
pub fn holds(rt: &impl Abort, is_right: bool, what: &str) {
    assert!(rt; is_right, "{what}");
}

// The bytes that digits say.
pub fn decoded<'a>(rt: &impl Abort, digits: &str, space: &'a mut [u8; MOST]) -> &'a [u8] {
    let length = (digits.len() / 2).min(MOST);
    let bytes = &mut space[..length];
    holds(rt, hex::decode_to_slice(digits, bytes).is_ok(), digits);
    bytes
}

// The item that digits say, nested at most 4 levels deep. It is all of the bytes.
pub fn parsed<'a>(rt: &impl Abort, digits: &str, space: &'a mut [u8; MOST]) -> Option<Item<'a>> {
    let bytes = decoded(rt, digits, space);
    match Item::parse_prefix(bytes, 4) {
        Ok((item, rest)) => {
            holds(rt, rest.is_empty() && item.bytes() == bytes, digits);
            Some(item)
        }
        Err(_) => None,
    }
}

// Whether there is an item, and it has these bytes.
pub fn is_at(item: Option<Item<'_>>, bytes: &[u8]) -> bool {
    match item {
        Some(item) => item.bytes() == bytes,
        None => false,
    }
}

// Whether there is a pair, and its key and its value have these bytes.
pub fn is_pair(pair: Option<(Item<'_>, Item<'_>)>, key: &[u8], value: &[u8]) -> bool {
    match pair {
        Some((other, item)) => other.bytes() == key && item.bytes() == value,
        None => false,
    }
}
