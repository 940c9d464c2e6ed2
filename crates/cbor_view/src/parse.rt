//! The check that bytes begin with an item.

ghost use Rattle.std.specs.Prelude.{◌≡◌, ◌↔◌, ◌++◌, ◌≤◌, ℕ, List, false, IfErr, IfOk, IsOk};
ghost use Rattle.ciborium_ll_grammar.specs.declared.spelling.Spelling.TheVariants.{Any};
ghost use Rattle.ciborium_ll_grammar.specs.Items.{IsItem};
ghost use Rattle.cbor_skip.specs.ItemFaults.{BeginsWithItem};
ghost use Rattle.cbor_view.specs.Faults.{HasFault, IsOfBytes, NamesFault};

use crate::MAX_DEPTH;
use cbor_skip::{SkipError, skip_item};
use ciborium_ll_decoder::dec::{Decoder, Error};
use ciborium_ll_io::io::{EndOfFile, SliceReader};

/// Why no item begins the bytes. An offset counts from the first byte.
#[derive(Clone, Copy, Debug, PartialEq, Eq, Drop)]
pub enum Fault {
    /// The bytes end too early.
    Short,
    /// At this offset stands no title, or a title that its string may not contain, or the title of a text that is not
    /// UTF-8. If the title of that text is longer than its shortest one, the offset is that of the byte from which the
    /// shortest title would reach the body.
    Syntax(usize),
    /// At this offset a break stands in place of an item, and ends nothing.
    Break(usize),
    /// At this offset stands the title of a tag, an array or a map for which no level is left.
    Deep(usize),
}

/// Splits the bytes after the item that begins them.
pub(crate) fn split_item(bytes: &[u8], depth: usize) -> Result<(&[u8], &[u8]), Fault>
    requires shallow { depth ≤ MAX_DEPTH }
    ensures whole { IfOk result (λ found. bytes.now ≡ found.0.now ++ found.1.now) }
    ensures item { IfOk result (λ found. IsItem Any depth found.0.now) }
    ensures exactly { IsOk result ↔ BeginsWithItem Any depth bytes.now }
    ensures fault { IfErr result (HasFault depth bytes.now) }
{
    let mut decoder = Decoder::from(SliceReader::new(bytes));
    match skip_item(&mut decoder, depth, &mut [0; 64]) {
        Ok(()) => Ok(bytes.split_at(decoder.offset())),
        Err(error) => Err(fault_of(error)),
    }
}

/// Returns the fault of the bytes that an error of a skip names.
fn fault_of(error: SkipError<EndOfFile>) -> Fault
    requires { IsOfBytes error }
    ensures { NamesFault error result }
{
    match error {
        SkipError::Read(Error::Io(_)) => Fault::Short,
        SkipError::Read(Error::Syntax(place)) => Fault::Syntax(place),
        SkipError::Break(place) => Fault::Break(place),
        SkipError::Deep(place) => Fault::Deep(place),
        SkipError::Read(Error::TooLong | Error::Waiting) => unreachable!(),
    }
}
