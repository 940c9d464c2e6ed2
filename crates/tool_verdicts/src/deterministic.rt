//! The verdict on bytes that are to be in the deterministic encoding.

ghost use Rattle.std.specs.Prelude.{◌≤◌, ◌≡◌, ◌↔◌};
ghost use Rattle.ciborium_ll.specs.Limits.{MOST_LEVELS};
ghost use Rattle.tool_verdicts.specs.Deterministic.{FindsEncodings, FindsEncoding, FindsDeterministic};
ghost use Rattle.tool_verdicts.specs.declared.verdict.Verdict.{Verdict as AnyVerdict};

use crate::verdict::Verdict;
use cbor_deterministic::{Order, Refusal, deterministic_len};

/// Checks that the bytes are in the deterministic encoding (RFC 8949, 4.2), with the keys of maps in this order: one
/// item, or a sequence of items (RFC 8742), as `one` says.
///
/// Tags, arrays and maps nest at most `depth` levels deep, and `depth` is at most 256.
///
/// The verdict is `Well` with the number of items and of bytes. Otherwise it is `Refused`, with the reason and the
/// offset of the first fault after the whole items. If bytes follow the one item that is wanted, it is `More`, with the
/// offset from which they follow.
///
/// The call reads the bytes once, as `deterministic_len` does, and takes no memory.
pub fn check_bytes(bytes: &[u8], one: bool, depth: usize, order: Order) -> Verdict
    requires { depth ≤ MOST_LEVELS }
    ensures exactly { (verdict : AnyVerdict)
        → (result ≡ verdict ↔ FindsDeterministic one order depth bytes.now verdict) }
{
    if one {
        check_one(bytes, depth, order)
    } else {
        check_all(bytes, depth, order)
    }
}

/// Checks that the bytes are one item.
fn check_one(bytes: &[u8], depth: usize, order: Order) -> Verdict
    requires { depth ≤ MOST_LEVELS }
    ensures exactly { (verdict : AnyVerdict) → (result ≡ verdict ↔ FindsEncoding order depth bytes.now verdict) }
{
    match deterministic_len(bytes, depth, order) {
        Ok(len) => {
            if len < bytes.len() {
                Verdict::More(len)
            } else {
                Verdict::Well {
                    items: 1,
                    bytes: len,
                }
            }
        }
        Err(refusal) => Verdict::Refused(refusal),
    }
}

/// Checks that the bytes are a sequence of items.
fn check_all(bytes: &[u8], depth: usize, order: Order) -> Verdict
    requires { depth ≤ MOST_LEVELS }
    ensures exactly { (verdict : AnyVerdict) → (result ≡ verdict ↔ FindsEncodings order depth bytes.now verdict) }
{
    let mut items = 0;
    let mut start = 0;
    'items: while start < bytes.len() {
        match deterministic_len(&bytes[start..], depth, order) {
            Ok(len) => {
                items += 1;
                start += len;
            }
            Err(refusal) => {
                return Verdict::Refused(Refusal {
                    why: refusal.why,
                    place: start + refusal.place,
                });
            }
        }
    }
    Verdict::Well {
        items,
        bytes: start,
    }
}
