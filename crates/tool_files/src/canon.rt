//! The word `canon`.

ghost use Rattle.std.specs.Prelude.{◌≡◌, ◌≤◌, MatchResult};
ghost use Rattle.ciborium_ll.specs.Limits.{MOST_LEVELS};
ghost use Rattle.tool_files.specs.Canon.{AreRewritten, AreUnwritten, IsErrorAt, WritesCanon, refusal_said};
ghost use Rattle.tool_files.specs.Orders.{chosen_order};

use crate::options::Options;
use crate::send::send_all;
use cbor_canonical::{CanonicalError, Refusal, Why, canonical};
use cbor_deterministic::{Order, Refusal as NotDeterministic, Why as Reason};
use std::alloc::Global;
use std::io;
use tool_verdicts::verdict::Verdict;

/// Why nothing is written of an input, or not all.
#[derive(Drop)]
pub enum CanonFault {
    /// An item is refused, or no memory is left. The place is an offset in the input.
    Unwritten(CanonicalError),
    /// It can't be read.
    Input(io::Error),
    /// The output can't be written.
    Output(io::Error),
}

impl CanonFault {
    ghost use Rattle.tool_files.specs.Canon.{SaysFault};

    /// Returns the verdict that says the fault, in the words of `check`.
    pub fn verdict(self) -> Verdict
        ensures { SaysFault self result }
    {
        match self {
            CanonFault::Unwritten(CanonicalError::Refused(refusal)) => {
                refusal_verdict(refusal.why, refusal.place)
            }
            CanonFault::Unwritten(CanonicalError::Memory) => {
                Verdict::Failed(io::Error::from(io::ErrorKind::OutOfMemory))
            }
            CanonFault::Input(error) => Verdict::Failed(error),
            CanonFault::Output(error) => Verdict::Output(error),
        }
    }
}

/// Returns the verdict for a refusal at this place.
fn refusal_verdict(why: Why, place: usize) -> Verdict
    ensures { result ≡ refusal_said why place }
{
    match why {
        Why::Cut => Verdict::Short(place),
        Why::Malformed => Verdict::Syntax(place),
        Why::Break => Verdict::Break(place),
        Why::Deep => Verdict::Deep(place),
        Why::NoSimple => Verdict::Refused(NotDeterministic {
            why: Reason::NoSimple,
            place,
        }),
        Why::DuplicateKey => Verdict::Refused(NotDeterministic {
            why: Reason::DuplicateKey,
            place,
        }),
    }
}

/// Reads bytes to their end, and writes the deterministic encoding of each of their items (RFC 8949, 4.2). Any number
/// of items may stand there (RFC 8742). The options have the order of keys. Tags, arrays and maps nest at most as deep
/// as the options say.
///
/// If the writer tells its bytes, `Ok` says that it got these encodings, all of them. The input is held in memory, and
/// so are the encodings.
///
/// # Errors
///
/// - `Unwritten`: `canonical` refuses an item, at this offset in the input, or no memory is left. Nothing is written.
/// - `Input`: the reader failed, or there is no memory for the bytes. Nothing is written. A read that was interrupted is
///   made again.
/// - `Output`: the writer failed. It got a beginning of the encodings of all items, or all of it.
pub fn canon_input<R: io::Read + Drop, W: io::Write>(
    alloc: Global,
    mut reader: R,
    writer: &mut W,
    options: Options,
) -> Result<(), CanonFault>
    ensures { WritesCanon W.contents (chosen_order options.order) options.depth (R.remaining reader) writer.old result
        writer.new }
{
    let mut bytes = Vec::new(alloc);
    reader.read_to_end(&mut bytes).map_err(CanonFault::Input)?;
    let order = options.key_order();
    let encodings = canonicalize_items(alloc, bytes.as_slice(), options.depth, order).map_err(
        CanonFault::Unwritten,
    )?;
    send_all(writer, encodings.as_slice()).map_err(CanonFault::Output)
}

/// Writes the deterministic encodings of the items of a sequence (RFC 8742), one after the other.
///
/// # Errors
///
/// Those of `canonical` for the first item that it refuses, with the offset in all the bytes.
pub fn canonicalize_items(
    alloc: Global,
    bytes: &[u8],
    depth: usize,
    order: Order,
) -> Result<Vec<u8>, CanonicalError>
    requires shallow { depth ≤ MOST_LEVELS }
    ensures { MatchResult result (λ encodings. AreRewritten order depth bytes.now encodings.items)
        (AreUnwritten order depth bytes.now) }
{
    let mut encodings = Vec::new(alloc);
    let mut rest = bytes;
    'items: while !rest.is_empty() {
        let (encoding, behind) = match canonical(alloc, rest, depth, order) {
            Ok(found) => found,
            Err(error) => return Err(error_at(bytes.len() - rest.len(), error)),
        };
        if encodings.extend_from_slice(encoding.as_slice()).is_err() {
            return Err(CanonicalError::Memory);
        }
        rest = behind;
    }
    Ok(encodings)
}

/// Returns the error of an item that begins at this offset.
fn error_at(start: usize, error: CanonicalError) -> CanonicalError
    ensures { IsErrorAt start error result }
{
    match error {
        CanonicalError::Refused(refusal) => CanonicalError::Refused(Refusal {
            why: refusal.why,
            place: start.saturating_add(refusal.place),
        }),
        CanonicalError::Memory => CanonicalError::Memory,
    }
}
