//! A test for an item in its shortest spelling.

ghost use Rattle.std.specs.Prelude.{ℕ, MatchOption};
ghost use Rattle.uses.specs.Shortest.{ShortestInFront};

use cbor_skip::skip_item;
use ciborium_ll::Decoder;
use ciborium_ll::io::SliceReader;
use ciborium_ll::recode::strict_len;

/// The greatest depth of nested tags, arrays and maps.
pub const DEPTH: usize = 64;

/// Returns the number of bytes of the item in its shortest spelling with which the bytes begin (RFC 7049, 3.9).
///
/// `None` comes exactly if there is no such item, nested at most 64 levels deep. A check of a message that was signed
/// as bytes may rely on this.
pub fn shortest_item_len(bytes: &[u8]) -> Option<usize>
    ensures { MatchOption result ((len : ℕ) → ShortestInFront DEPTH bytes.now len → ⊥)
        (λ len. ShortestInFront DEPTH bytes.now len) }
{
    let mut decoder = Decoder::from(SliceReader::new(bytes));
    skip_item(&mut decoder, DEPTH, &mut [0; 64]).ok()?;
    let len = decoder.offset();
    // Each element of the item must have the one spelling that a strict decoder takes.
    let mut rest = &bytes[..len];
    'elements: while !rest.is_empty() {
        let element = strict_len(rest, 1)?;
        rest = &rest[element..];
    }
    Some(len)
}
