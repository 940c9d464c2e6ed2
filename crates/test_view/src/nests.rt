// What tags, arrays and maps contain.

use crate::shared::{MOST, holds, is_at, is_pair, parsed};
use cbor_view::{Elements, Entries};
use std::process::Abort;

// The items of the array that digits say.
fn elements<'a>(rt: &impl Abort, digits: &str, space: &'a mut [u8; MOST]) -> Option<Elements<'a>> {
    match parsed(rt, digits, space) {
        Some(item) => item.elements(),
        None => None,
    }
}

// The pairs of the map that digits say.
fn entries<'a>(rt: &impl Abort, digits: &str, space: &'a mut [u8; MOST]) -> Option<Entries<'a>> {
    match parsed(rt, digits, space) {
        Some(item) => item.entries(),
        None => None,
    }
}

// [1, [2, 3], [4, 5]], in four of the spellings of appendix A.
#[test]
fn items_of_arrays(rt: HostRuntime) {
    let rows: [(&str, &[u8], &[u8]); 4] = [
        ("8301820203820405", &[0x82, 2, 3], &[0x82, 4, 5]),
        ("9f018202039f0405ffff", &[0x82, 2, 3], &[0x9f, 4, 5, 0xff]),
        ("83018202039f0405ff", &[0x82, 2, 3], &[0x9f, 4, 5, 0xff]),
        ("83019f0203ff820405", &[0x9f, 2, 3, 0xff], &[0x82, 4, 5]),
    ];
    for &(digits, second, third) in &rows {
        let mut space = [0; MOST];
        let Some(mut items) = elements(&rt, digits, &mut space) else {
            return holds(&rt, false, digits);
        };
        holds(&rt, is_at(items.next(), &[1]), digits);
        holds(&rt, is_at(items.next(), second), digits);
        holds(&rt, is_at(items.next(), third), digits);
        holds(
            &rt,
            items.next().is_none() && items.next().is_none(),
            digits,
        );
    }
}

#[test]
fn how_many_are_left(rt: HostRuntime) {
    let mut space = [0; MOST];
    let Some(mut items) = elements(&rt, "83010203", &mut space) else {
        return holds(&rt, false, "an array");
    };
    holds(&rt, items.left() == Some(3), "three items");
    holds(&rt, is_at(items.next(), &[1]), "the first one");
    holds(&rt, items.left() == Some(2), "two items");
    let mut space = [0; MOST];
    let Some(items) = elements(&rt, "9f01ff", &mut space) else {
        return holds(&rt, false, "an array of indefinite length");
    };
    holds(&rt, items.left().is_none(), "an array that tells no count");
    let mut space = [0; MOST];
    let Some(mut pairs) = entries(&rt, "a201020304", &mut space) else {
        return holds(&rt, false, "a map");
    };
    holds(&rt, pairs.left() == Some(2), "two pairs");
    holds(&rt, is_pair(pairs.next(), &[1], &[2]), "the first one");
    holds(&rt, pairs.left() == Some(1), "one pair");
    let mut space = [0; MOST];
    let Some(pairs) = entries(&rt, "bfff", &mut space) else {
        return holds(&rt, false, "a map of indefinite length");
    };
    holds(&rt, pairs.left().is_none(), "a map that tells no count");
}

// The 25 items of appendix A, in both forms, with a `for`.
#[test]
fn items_in_a_loop(rt: HostRuntime) {
    let rows = [
        "98190102030405060708090a0b0c0d0e0f101112131415161718181819",
        "9f0102030405060708090a0b0c0d0e0f101112131415161718181819ff",
    ];
    for &digits in &rows {
        let mut space = [0; MOST];
        let Some(items) = elements(&rt, digits, &mut space) else {
            return holds(&rt, false, digits);
        };
        let mut count: u64 = 0;
        for item in items {
            count = count.saturating_add(1);
            holds(&rt, item.positive() == Some(count), digits);
        }
        holds(&rt, count == 25, digits);
    }
}

// {"a": 1, "b": [2, 3]}, in both forms.
#[test]
fn pairs_of_maps(rt: HostRuntime) {
    let rows: [(&str, &[u8]); 2] = [
        ("a26161016162820203", &[0x82, 2, 3]),
        ("bf61610161629f0203ffff", &[0x9f, 2, 3, 0xff]),
    ];
    for &(digits, value) in &rows {
        let mut space = [0; MOST];
        let Some(mut pairs) = entries(&rt, digits, &mut space) else {
            return holds(&rt, false, digits);
        };
        holds(&rt, is_pair(pairs.next(), &[0x61, 0x61], &[1]), digits);
        holds(&rt, is_pair(pairs.next(), &[0x61, 0x62], value), digits);
        holds(
            &rt,
            pairs.next().is_none() && pairs.next().is_none(),
            digits,
        );
    }
}

// Whether an array has no items.
fn has_no_items(items: Option<Elements<'_>>) -> bool {
    match items {
        Some(mut items) => items.next().is_none(),
        None => false,
    }
}

// Whether a map has no pairs.
fn has_no_pairs(pairs: Option<Entries<'_>>) -> bool {
    match pairs {
        Some(mut pairs) => pairs.next().is_none(),
        None => false,
    }
}

#[test]
fn empty_nests(rt: HostRuntime) {
    for &digits in &["80", "9fff"] {
        let mut space = [0; MOST];
        holds(&rt, has_no_items(elements(&rt, digits, &mut space)), digits);
    }
    for &digits in &["a0", "bfff"] {
        let mut space = [0; MOST];
        holds(&rt, has_no_pairs(entries(&rt, digits, &mut space)), digits);
    }
}

#[test]
fn a_tag(rt: HostRuntime) {
    let mut space = [0; MOST];
    let found = match parsed(&rt, "d818456449455446", &mut space) {
        Some(item) => item.tag(),
        None => None,
    };
    holds(
        &rt,
        matches!(found, Some((24, item)) if item.byte_string() == Some(&[0x64, 0x49, 0x45, 0x54, 0x46])),
        "a tag",
    );
}
