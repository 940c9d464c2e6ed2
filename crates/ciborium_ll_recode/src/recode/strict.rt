//! Whether bytes are elements in the one spelling that a strict decoder takes.

ghost use Rattle.std.specs.Prelude.{◌≤◌, true, List, length, take, IfSome, IfNone};
ghost use Rattle.ciborium_ll_grammar.specs.declared.spelling.Spelling.TheVariants.{Shortest};
ghost use Rattle.ciborium_ll_grammar.specs.Elements.{IsStrictRun, Mark};
ghost use Rattle.ciborium_ll_grammar.specs.Faults.{BeginsWithElements};

use super::recode;
use ciborium_ll_decoder::dec::Decoder;
use ciborium_ll_encoder::enc::Encoder;
use ciborium_ll_io::io::{Discard, SliceReader};

/// Returns how many bytes at the beginning are `count` elements in the spelling that [`Decoder::strict`] takes.
///
/// No other length holds `count` elements. A caller can check a message that was signed as bytes.
///
/// # Examples
///
/// ```rust
/// let element = strict_len(rest, 1)?;
/// rest = &rest[element..];
/// ```
pub fn strict_len(bytes: &[u8], count: usize) -> Option<usize>
    ensures within { IfSome result (λ len. len ≤ length bytes.now) }
    ensures some { IfSome result (λ len. (marks : List Mark) × IsStrictRun count (take len bytes.now) marks) }
    ensures none { IfNone result (BeginsWithElements Shortest count bytes.now → ⊥) }
{
    let mut decoder = Decoder::strict(SliceReader::new(bytes));
    // A strict copy writes the bytes that it consumes, so that many bytes are room enough.
    let mut encoder = Encoder::from(Discard::new(bytes.len()));
    match recode(&mut decoder, &mut encoder, count, &mut [0; 64]) {
        Ok(()) => Some(decoder.offset()),
        Err(_) => None,
    }
}
