//! A walk over the pairs of a map, to the place of a key.

ghost use Rattle.std.specs.Prelude.{◌≡◌, ◌*◌, ◌≤◌, ◌++◌, List, ℕ, false, length, MatchOption};
ghost use Rattle.ciborium_ll_grammar.specs.declared.spelling.Spelling.TheVariants.{Any};
ghost use Rattle.ciborium_ll_grammar.specs.Items.{AreItems, IsItem};
ghost use Rattle.cbor_deterministic.specs.Fronts.{InFront};
ghost use Rattle.cbor_deterministic.specs.declared.TheConstants.{MAX_DEPTH};
ghost use Rattle.cbor_skip.specs.ItemFaults.{BeginsWithItem};

use cbor_deterministic::MAX_DEPTH;
use cbor_skip::skip_item;
use ciborium_ll_decoder::dec::Decoder;
use ciborium_ll_io::io::SliceReader;

/// The most bytes of a string that the walk reads at a time.
const BUFFER_SIZE: usize = 256;

/// Returns the bytes after the item at the beginning, if there is one to the depth.
fn after_item(bytes: &[u8], depth: usize) -> Option<&[u8]>
    requires shallow { depth ≤ MAX_DEPTH }
    ensures { MatchOption result (BeginsWithItem Any depth bytes.now → ⊥)
        (λ rest. InFront (IsItem Any depth) bytes.now rest.now) }
{
    let mut buffer = [0; BUFFER_SIZE];
    let mut decoder = Decoder::from(SliceReader::new(bytes));
    let skipped = skip_item(&mut decoder, depth, &mut buffer);
    let len = decoder.offset().min(bytes.len());
    match skipped {
        Ok(()) => Some(&bytes[len..]),
        Err(_) => None,
    }
}

/// Returns how many bytes are left after this many pairs of items.
pub(crate) fn left_after(bytes: &[u8], depth: usize, pairs: usize) -> usize
    ensures { (front rest : List ℕ) → depth ≤ MAX_DEPTH → AreItems Any depth (2 * pairs) front
        → bytes.now ≡ front ++ rest → result ≡ length rest }
{
    let levels = depth.min(MAX_DEPTH);
    let mut rest = bytes;
    let mut due = pairs;
    'pairs: while due > 0 {
        let Some(value) = after_item(rest, levels) else {
            return 0;
        };
        let Some(next) = after_item(value, levels) else {
            return 0;
        };
        rest = next;
        due -= 1;
    }
    rest.len()
}
