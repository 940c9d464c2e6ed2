// Memory that is refused: `rt try --test --fail-alloc N` refuses the Nth request.

use crate::shared::holds;
use cbor_encode::{Expected, MAX_DEPTH, encode};

// A text with an item of each kind, and its bytes.
static TEXT: &str = "[1, {2: 3}, 4(5), <<6>>, (_ \"a\"), '', h'07', b64'CA', \"\\u0009\"]";

static BYTES: &[u8] =
    b"\x89\x01\xa1\x02\x03\xc4\x05\x41\x06\x7f\x61a\xff\x40\x41\x07\x41\x08\x61\x09";

#[test]
fn no_memory(rt: HostRuntime) {
    let is_right = match encode(rt.alloc(), TEXT.as_bytes(), MAX_DEPTH) {
        Ok(bytes) => bytes.as_slice() == BYTES,
        Err(error) => error.expected == Expected::Memory,
    };
    holds(&rt, is_right, TEXT);
}
