//! Items that are in the deterministic encoding already.

ghost use Rattle.std.specs.Prelude.{◌≡◌, ◌<◌, ◌≤◌, ℕ, IfNone, IfSome, MatchOption, length, take};
ghost use Rattle.cbor_deterministic.specs.Deterministic.{HasDeterministic};

use cbor_deterministic::{MAX_DEPTH, Order, deterministic_len};

/// Returns the length of the item at the beginning, if it is in the deterministic encoding and takes no level.
#[inline(never)]
pub(crate) fn flat_len(bytes: &[u8], order: Order) -> Option<usize>
    ensures { IfSome result (HasDeterministic order 0 bytes.now) }
{
    match bytes.first() {
        // A tag, an array and a map take a level.
        Some(first) if *first >= 0x80 && *first < 0xe0 => None,
        _ => match deterministic_len(bytes, 0, order) {
            Ok(len) => Some(len),
            Err(_) => None,
        },
    }
}

/// Copies the item at the beginning to the start of `out`, if it is in the deterministic encoding and `out` is long
/// enough. Returns its length.
pub(crate) fn copy_item(bytes: &[u8], depth: usize, order: Order, out: &mut [u8]) -> Option<usize>
    requires shallow { depth ≤ MAX_DEPTH }
    ensures copied { MatchOption result (length out.new ≡ length out.old)
        (λ len. HasDeterministic order depth bytes.now len × (len ≤ length out.new)
        × (take len out.new ≡ take len bytes.now)) }
    ensures none { IfNone result ((len : ℕ) → HasDeterministic order depth bytes.now len → length out.old < len) }
{
    match deterministic_len(bytes, depth, order) {
        Ok(len) if len <= out.len() => {
            out[..len].copy_from_slice(&bytes[..len]);
            Some(len)
        }
        _ => None,
    }
}
