// SPDX-License-Identifier: Apache-2.0
//! Items of CBOR whose bytes stand in a byte string (RFC 8949, 3.4.5.1). No call takes memory.
#![tactic(auto)]

ghost use Rattle.std.specs.Prelude.{◌↔◌, ◌≤◌, IsTrue};
ghost use Rattle.ciborium_ll_grammar.specs.Items.{IsItem};
ghost use Rattle.ciborium_ll_grammar.specs.declared.limits.TheConstants.{MOST_LEVELS};

use cbor_skip::skip_item;
use ciborium_ll_decoder::dec::Decoder;
use ciborium_ll_grammar::spelling::Spelling;
use ciborium_ll_io::io::SliceReader;

/// The tag of a byte string that is an item (RFC 8949, 3.4.5.1). `d8 18 41 00` is the item `00` in a string.
pub const ENCODED_ITEM: u64 = 24;

/// The length in bytes of the buffer through which the check reads a string.
const BUFFER_SIZE: usize = 64;

/// Which byte strings of a definite length are shown as the item that they contain.
#[derive(Clone, Copy, Debug, PartialEq, Eq)]
pub enum Embedded {
    /// None.
    Nowhere,
    /// The content of the tag 24, if it is one item.
    Tagged,
    /// Each that is one item.
    Everywhere,
}

/// Returns whether bytes are one whole item, with tags, arrays and maps nested at most `depth` levels deep (RFC 7049,
/// 2.1 to 2.4).
///
/// `82 01 02` is one item if `depth` is 1 or more. `01 02` are two items, and `82 01` is none. `depth` is at most 256.
/// Each text is UTF-8. With `Shortest` the item is in its shortest spelling (3.9): `01` is, and `18 01` is not.
pub fn is_one_item(body: &[u8], depth: usize, spelling: Spelling) -> bool
    requires shallow { depth ≤ MOST_LEVELS }
    ensures { IsTrue result ↔ IsItem spelling depth body.now }
{
    let reader = SliceReader::new(body);
    let mut decoder = Decoder::with_spelling(reader, spelling, 0);
    match skip_item(&mut decoder, depth, &mut [0; BUFFER_SIZE]) {
        Ok(()) => decoder.offset() == body.len(),
        Err(_) => false,
    }
}
