// The examples in the comments of the crate.

use crate::shared::holds;
use cbor_deterministic::view::Item;
use cbor_deterministic::{Order, Refusal, Why, deterministic_len};
use ciborium_ll_grammar::hdr::Header;

// Returns the length of the item that the bytes begin with.
fn item_len(bytes: &[u8]) -> Result<usize, Refusal> {
    let len = deterministic_len(bytes, 16, Order::Bytewise)?;
    Ok(len)
}

// Returns the header of that item, and how many bytes follow it.
fn first_header(bytes: &[u8]) -> Result<(Header, usize), Refusal> {
    let (item, rest) = Item::parse(bytes, 16, Order::Bytewise)?;
    Ok((item.header(), rest.len()))
}

#[test]
fn examples_of_comments(rt: HostRuntime) {
    let bytes = [0x82, 0x01, 0x61, 0x61, 0x00];
    let cut = Refusal {
        why: Why::Cut,
        place: 3,
    };
    holds(&rt, item_len(&bytes) == Ok(4), "a length");
    holds(
        &rt,
        first_header(&bytes) == Ok((Header::Array(Some(2)), 1)),
        "a header",
    );
    holds(&rt, item_len(&bytes[..3]) == Err(cut), "a cut item");
}
