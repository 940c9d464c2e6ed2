// What parse refuses, and what it leaves.

ghost use Rattle.std.specs.Prelude.{◌≤◌};

use crate::shared::holds;
use cbor_view::{Fault, Item, MAX_DEPTH};
use std::alloc::Global;

// Whether the item that begins the bytes has this length.
fn is_parsed(bytes: &[u8], depth: usize, len: usize) -> bool
    requires { depth ≤ MAX_DEPTH }
{
    let is_item = match Item::parse(bytes, depth) {
        Ok(item) => item.bytes().len() == len && bytes.starts_with(item.bytes()),
        Err(_) => false,
    };
    let is_split = match Item::parse_prefix(bytes, depth) {
        Ok((item, rest)) => item.bytes().len() == len && bytes.ends_with(rest),
        Err(_) => false,
    };
    is_item && is_split
}

// Whether the bytes are refused so.
fn is_refused(bytes: &[u8], depth: usize, want: Fault) -> bool
    requires { depth ≤ MAX_DEPTH }
{
    let is_fault = match Item::parse(bytes, depth) {
        Ok(_) => false,
        Err(fault) => fault == want,
    };
    let is_same = match Item::parse_prefix(bytes, depth) {
        Ok(_) => false,
        Err(fault) => fault == want,
    };
    is_fault && is_same
}

#[test]
fn items_and_their_rest(rt: HostRuntime) {
    holds(
        &rt,
        is_parsed(&[0x81, 0, 0xff], 1, 2),
        "an array, and a break",
    );
    holds(
        &rt,
        is_parsed(&[0x9f, 0, 0xff, 0xff], 1, 3),
        "an array of indefinite length",
    );
    holds(
        &rt,
        is_parsed(&[0x18, 5, 0x18], 0, 2),
        "a number that could be shorter",
    );
    holds(
        &rt,
        is_parsed(&[0x5f, 0x5f, 0xff, 0xff], 0, 4),
        "a string takes no level",
    );
}

#[test]
fn faults(rt: HostRuntime) {
    holds(&rt, is_refused(&[], 4, Fault::Short), "no bytes");
    holds(
        &rt,
        is_refused(&[0x82, 1], 4, Fault::Short),
        "an array that is cut",
    );
    holds(
        &rt,
        is_refused(&[0x9f, 1], 4, Fault::Short),
        "an array without its break",
    );
    holds(
        &rt,
        is_refused(&[0x42, 1], 4, Fault::Short),
        "a body that is cut",
    );
    holds(
        &rt,
        is_refused(&[0x81, 0x1c], 4, Fault::Syntax(1)),
        "a reserved minor",
    );
    holds(
        &rt,
        is_refused(&[0x81, 0x61, 0xff], 4, Fault::Syntax(1)),
        "no text",
    );
    holds(
        &rt,
        is_refused(&[0x5f, 0x61, 0x61, 0xff], 4, Fault::Syntax(1)),
        "a text in a byte string",
    );
    holds(
        &rt,
        is_refused(&[0x81, 0xff], 4, Fault::Break(1)),
        "a break for an item",
    );
    holds(
        &rt,
        is_refused(&[0xbf, 1, 0xff], 4, Fault::Break(2)),
        "a break for a value",
    );
    holds(
        &rt,
        is_refused(&[0x81, 0x81, 0x80], 2, Fault::Deep(2)),
        "three levels",
    );
    holds(&rt, is_refused(&[0xc0, 0], 0, Fault::Deep(0)), "a tag");
}

// Whether a fault is told so.
fn is_told(alloc: Global, fault: Fault, want: &str) -> bool {
    match format!(in alloc; "{fault}") {
        Ok(text) => text.as_str() == want,
        Err(_error) => false,
    }
}

#[test]
fn messages(rt: HostRuntime) {
    let texts = [
        (Fault::Short, "the bytes end too early"),
        (Fault::Syntax(7), "no CBOR that may stand at offset 7"),
        (Fault::Break(7), "a break that ends nothing at offset 7"),
        (Fault::Deep(7), "too deep a nesting at offset 7"),
    ];
    for &(fault, want) in &texts {
        holds(&rt, is_told(rt.alloc(), fault, want), want);
    }
}
