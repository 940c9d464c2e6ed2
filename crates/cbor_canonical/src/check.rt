//! The check that an item begins some bytes, before it is rewritten.

ghost use Rattle.std.specs.Prelude.{◌≡◌, ◌++◌, ◌≤◌, MatchResult, false, length};
ghost use Rattle.ciborium_ll_grammar.specs.declared.spelling.Spelling.TheVariants.{Any};
ghost use Rattle.ciborium_ll_grammar.specs.Items.{IsItem};
ghost use Rattle.cbor_skip.specs.ItemFaults.{BeginsWithItem};
ghost use Rattle.cbor_canonical.specs.Refusals.{HasRefusal, IsRefusalOf};

use crate::{Refusal, Why};
use cbor_deterministic::MAX_DEPTH;
use cbor_skip::{SkipError, skip_item};
use ciborium_ll_decoder::dec::{Decoder, Error};
use ciborium_ll_io::io::{EndOfFile, SliceReader};

/// The most bytes of a string that the check reads at a time.
const BUFFER_SIZE: usize = 256;

/// Returns the item to the depth that begins the bytes, and the rest of them.
pub(crate) fn split_item(bytes: &[u8], depth: usize) -> Result<(&[u8], &[u8]), Refusal>
    requires shallow { depth ≤ MAX_DEPTH }
    ensures { MatchResult result
        (λ found. IsItem Any depth found.0.now × (bytes.now ≡ found.0.now ++ found.1.now))
        (λ refusal. HasRefusal depth bytes.now refusal.why refusal.place) }
{
    let len = check_item(bytes, depth)?;
    Ok(bytes.split_at(len))
}

/// Checks that an item to the depth begins the bytes, and returns its length.
fn check_item(bytes: &[u8], depth: usize) -> Result<usize, Refusal>
    requires shallow { depth ≤ MAX_DEPTH }
    ensures { MatchResult result (λ len. (front : BeginsWithItem Any depth bytes.now) × (len ≡ length front.item))
        (λ refusal. HasRefusal depth bytes.now refusal.why refusal.place) }
{
    let mut buffer = [0; BUFFER_SIZE];
    let mut decoder = Decoder::from(SliceReader::new(bytes));
    let skipped = skip_item(&mut decoder, depth, &mut buffer);
    refusal_of(skipped, bytes.len(), decoder.offset())
}

/// Returns the refusal for an error of a skip over `len` bytes, or how many bytes it skipped.
fn refusal_of(
    skipped: Result<(), SkipError<EndOfFile>>,
    len: usize,
    offset: usize,
) -> Result<usize, Refusal>
    ensures { IsRefusalOf len offset skipped result }
{
    match skipped {
        Ok(()) => Ok(offset),
        Err(SkipError::Break(place)) => Err(Refusal {
            why: Why::Break,
            place,
        }),
        Err(SkipError::Deep(place)) => Err(Refusal {
            why: Why::Deep,
            place,
        }),
        Err(SkipError::Read(Error::Syntax(place))) => Err(Refusal {
            why: Why::Malformed,
            place,
        }),
        Err(SkipError::Read(_)) => Err(Refusal {
            why: Why::Cut,
            place: len,
        }),
    }
}
