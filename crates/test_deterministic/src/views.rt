// The view of an item.

use crate::shared::{MOST, decoded, holds};
use cbor_deterministic::view::Item;
use cbor_deterministic::{Order, Refusal, Why};
use ciborium_ll_grammar::hdr::{Float, Header};
use std::process::Abort;

// {1: h'00ff', -1: [1.5, "b", false], "a": 1(7)}
static CLAIMS: &str = "a3014200ff2083f93e006162f46161c107";

// Returns the item that the digits spell.
fn parsed<'a>(rt: &impl Abort, digits: &str, space: &'a mut [u8; MOST]) -> Option<Item<'a>> {
    let bytes = decoded(rt, digits, space);
    match Item::parse(bytes, 4, Order::Bytewise) {
        Ok((item, _rest)) => Some(item),
        Err(_) => None,
    }
}

// Returns whether the item has these bytes.
fn are_bytes(item: Item<'_>, bytes: &[u8]) -> bool {
    item.bytes() == bytes
}

// Returns whether there is an item, and it has these bytes.
fn is_at(item: Option<Item<'_>>, bytes: &[u8]) -> bool {
    matches!(item, Some(item) if are_bytes(item, bytes))
}

#[test]
fn values_of_keys(rt: HostRuntime) {
    let mut space = [0; MOST];
    let Some(item) = parsed(&rt, CLAIMS, &mut space) else {
        return holds(&rt, false, CLAIMS);
    };
    holds(&rt, item.header() == Header::Map(Some(3)), "a header");
    holds(&rt, is_at(item.get_positive(1), &[0x42, 0, 0xff]), "1");
    holds(
        &rt,
        is_at(
            item.get_negative(0),
            &[0x83, 0xf9, 0x3e, 0, 0x61, 0x62, 0xf4],
        ),
        "-1",
    );
    holds(&rt, is_at(item.get_text("a"), &[0xc1, 7]), "a");
    holds(
        &rt,
        is_at(item.get(&[0x20]), &[0x83, 0xf9, 0x3e, 0, 0x61, 0x62, 0xf4]),
        "-1, by its bytes",
    );
}

#[test]
fn keys_that_are_not_there(rt: HostRuntime) {
    let mut space = [0; MOST];
    let Some(item) = parsed(&rt, CLAIMS, &mut space) else {
        return holds(&rt, false, CLAIMS);
    };
    holds(&rt, item.get_positive(0).is_none(), "0");
    holds(&rt, item.get_positive(2).is_none(), "2");
    holds(&rt, item.get_negative(1).is_none(), "-2");
    holds(&rt, item.get_text("b").is_none(), "b");
    holds(&rt, item.get_text("").is_none(), "an empty text");
    holds(&rt, item.get(&[]).is_none(), "no bytes");
    holds(&rt, item.get(&[0xff]).is_none(), "a greater key");
}

#[test]
fn numbers_and_strings(rt: HostRuntime) {
    let mut space = [0; MOST];
    holds(
        &rt,
        matches!(parsed(&rt, "1903e8", &mut space), Some(item) if item.positive() == Some(1000)),
        "1000",
    );
    holds(
        &rt,
        matches!(parsed(&rt, "3903e7", &mut space), Some(item) if item.negative() == Some(999)),
        "-1000",
    );
    holds(
        &rt,
        matches!(parsed(&rt, "f4", &mut space), Some(item) if item.simple() == Some(20)),
        "false",
    );
    let is_half =
        matches!(parsed(&rt, "f93e00", &mut space), Some(item) if item.float() == Some(Float::Half(0x3e00)));
    holds(&rt, is_half, "1.5");
    holds(
        &rt,
        matches!(parsed(&rt, "62c3bc", &mut space), Some(item) if item.text() == Some("\u{fc}")),
        "a text",
    );
    let is_body =
        matches!(parsed(&rt, "4200ff", &mut space), Some(item) if item.byte_string() == Some(&[0, 0xff]));
    holds(&rt, is_body, "bytes");
}

// An array has none of the other views: number, string, tag or map.
#[test]
fn other_items(rt: HostRuntime) {
    let mut space = [0; MOST];
    let Some(item) = parsed(&rt, "8100", &mut space) else {
        return holds(&rt, false, "an array");
    };
    let is_other = item.positive().is_none()
        && item.negative().is_none()
        && item.simple().is_none()
        && item.float().is_none()
        && item.text().is_none()
        && item.byte_string().is_none()
        && item.tag().is_none()
        && item.entries().is_none()
        && item.get(&[0]).is_none()
        && item.get_positive(0).is_none();
    holds(&rt, is_other, "an array");
    holds(
        &rt,
        matches!(item.open(), (Header::Array(Some(1)), &[0])),
        "its parts",
    );
}

#[test]
fn items_of_an_array(rt: HostRuntime) {
    let mut space = [0; MOST];
    let elements = match parsed(&rt, "8301820203820405", &mut space) {
        Some(item) => item.elements(),
        None => None,
    };
    let Some(mut elements) = elements else {
        return holds(&rt, false, "an array");
    };
    holds(&rt, elements.left() == 3, "three items");
    holds(&rt, is_at(elements.next(), &[1]), "the first one");
    holds(&rt, is_at(elements.next(), &[0x82, 2, 3]), "the second one");
    holds(&rt, is_at(elements.next(), &[0x82, 4, 5]), "the third one");
    holds(
        &rt,
        elements.left() == 0 && elements.next().is_none(),
        "the end",
    );
}

#[test]
fn pairs_of_a_map(rt: HostRuntime) {
    let mut space = [0; MOST];
    let entries = match parsed(&rt, "a201020304", &mut space) {
        Some(item) => item.entries(),
        None => None,
    };
    let Some(mut entries) = entries else {
        return holds(&rt, false, "a map");
    };
    holds(&rt, entries.left() == 2, "two pairs");
    let is_first =
        matches!(entries.next(), Some((key, value)) if are_bytes(key, &[1]) && are_bytes(value, &[2]));
    holds(&rt, is_first, "the first one");
    let is_second =
        matches!(entries.next(), Some((key, value)) if are_bytes(key, &[3]) && are_bytes(value, &[4]));
    holds(&rt, is_second, "the second one");
    holds(
        &rt,
        entries.left() == 0 && entries.next().is_none(),
        "the end",
    );
}

#[test]
fn a_tag(rt: HostRuntime) {
    let mut space = [0; MOST];
    let found = match parsed(&rt, "d8184161", &mut space) {
        Some(item) => item.tag(),
        None => None,
    };
    holds(
        &rt,
        matches!(found, Some((24, item)) if item.byte_string() == Some(&[0x61])),
        "a tag",
    );
}

// Returns whether the bytes begin with an item that has the expected bytes.
fn is_parsed(bytes: &[u8], want: &[u8]) -> bool {
    match Item::parse(bytes, 1, Order::LengthFirst) {
        Ok((item, rest)) => item.bytes() == want && bytes.ends_with(rest),
        Err(_) => false,
    }
}

// Returns whether the bytes are refused with this refusal.
fn is_refused(bytes: &[u8], want: Refusal) -> bool {
    match Item::parse(bytes, 1, Order::LengthFirst) {
        Ok(_) => false,
        Err(refusal) => refusal == want,
    }
}

// The rest after an item, and a refusal.
#[test]
fn what_parse_gives(rt: HostRuntime) {
    holds(&rt, is_parsed(&[0x81, 0, 0xff], &[0x81, 0]), "an array");
    let refusal = Refusal {
        why: Why::NotShortest,
        place: 1,
    };
    holds(
        &rt,
        is_refused(&[0x81, 0x18, 0], refusal),
        "a longer number",
    );
}
