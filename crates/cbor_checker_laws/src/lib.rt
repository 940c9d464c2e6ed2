// SPDX-License-Identifier: Apache-2.0
//! The faults that `feed` of `cbor_checker` names are those of `skip_item` of `cbor_skip`, at the same places.
#![tactic(auto)]

ghost use Rattle.std.specs.Prelude.{◌≡◌, ◌↔◌, ◌+◌, ◌≤◌, length, IsOk};
ghost use Rattle.cbor_skip.specs.ItemFaults.{BeginsWithItem};
ghost use Rattle.cbor_checker.specs.declared.phase.Fault.{Fault};
ghost use Rattle.cbor_checker.specs.declared.progress.Progress.TheVariants as r;
ghost use Rattle.cbor_checker.specs.Reading.{IsEnd, IsFault};
ghost use Rattle.cbor_checker_laws.specs.SameFaults.{AnswersFault, BeginsNoItem, FeedTells, SkipTells};
ghost use Rattle.ciborium_ll_grammar.specs.declared.limits.TheConstants.{MOST_LEVELS};

pub mod laws;

use cbor_checker::{Checker, Progress};
use cbor_skip::{SkipError, skip_item};
use ciborium_ll_decoder::dec::Decoder;
use ciborium_ll_grammar::spelling::Spelling;
use ciborium_ll_io::io::{EndOfFile, SliceReader};

/// How many bytes of a string are skipped at once.
const BUFFER_SIZE: usize = 64;

/// Returns the answers of [`Checker::feed`] and of [`skip_item`] to the same bytes.
///
/// Both read an item nested at most `depth` levels deep, in the spelling that is given. The checker takes
/// a beginning of the bytes, and all of them if more are due.
///
/// If the checker names a fault, the skip answers the same fault at the same place, or that the bytes end too early. A
/// nest too deep whose title isn't the shortest is two faults at one place. The checker then names the nest, and the
/// skip the title.
pub fn feed_and_skip(
    bytes: &[u8],
    spelling: Spelling,
    depth: usize,
) -> (Progress, Result<(), SkipError<EndOfFile>>)
    requires shallow { depth ≤ MOST_LEVELS }
    requires room { length bytes.now + BUFFER_SIZE ≤ usize.MAX }
    ensures feed_told { FeedTells spelling depth bytes.now result.0 }
    ensures skip_told { SkipTells spelling depth bytes.now result.1 }
    ensures ended { IsEnd result.0 ↔ BeginsWithItem spelling depth bytes.now }
    ensures skipped { IsOk result.1 ↔ BeginsWithItem spelling depth bytes.now }
    ensures faulted { IsFault result.0 ↔ BeginsNoItem spelling depth bytes.now }
    ensures same { (fault : Fault) → result.0 ≡ r.Fault fault → AnswersFault spelling depth bytes.now fault 0 result.1 }
{
    let mut checker = Checker::with_spelling(depth, spelling);
    let fed = checker.feed(bytes);
    let mut decoder = Decoder::with_spelling(SliceReader::new(bytes), spelling, 0);
    let skipped = skip_item(&mut decoder, depth, &mut [0; BUFFER_SIZE]);
    (fed.progress, skipped)
}
