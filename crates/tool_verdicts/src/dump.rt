//! The verdict after the rows of a dump.

ghost use Rattle.std.specs.Prelude.{◌≡◌};
ghost use Rattle.cbor_dump.specs.Dumps.{AreRowsTaken, ShowsLeft};
ghost use Rattle.tool_verdicts.specs.Checking.{IsCutShort, dump_said};

use crate::check::{end_verdict, fault_of, prefer_failure};
use crate::verdict::Verdict;
use cbor_dump::dump::DumpError;
use cbor_dump::left::dump_left;
use cbor_dump::rows::Rows;
use cbor_skip::SkipError;
use ciborium_ll::io::{Read, ReadFault};
use ciborium_ll::{Decoder, Error};
use std::io;

/// Shows the bytes that are left of a title or of a body after the rows, at this level, if the reader failed within it.
///
/// The dump's answer stays, unless that row is refused: then it is `Rows`.
pub fn show_left<R: Read, S: Rows>(
    decoder: &mut Decoder<R>,
    outcome: Result<R::Error, DumpError<R::Error, S::Error>>,
    level: usize,
    rows: &mut S,
) -> Result<R::Error, DumpError<R::Error, S::Error>>
where
    R::Error: Drop,
    S::Error: Drop,
    ensures stays { AreRowsTaken result → result ≡ outcome }
    ensures shows { IsCutShort outcome → AreRowsTaken result
        → ShowsLeft R.Read level (S.drawn rows.old) (S.drawn rows.new) decoder.old decoder.new }
    ensures keeps { (IsCutShort outcome → ⊥) → (decoder.new ≡ decoder.old) × (rows.new ≡ rows.old) }
{
    if let Err(DumpError::Item(SkipError::Read(Error::Io(_)))) = &outcome {
        if let Err(error) = dump_left(decoder, level, rows) {
            return Err(DumpError::Rows(error));
        }
    }
    outcome
}

/// Returns the verdict after a dump. A read that failed stopped at this offset, with this fault. If it failed for
/// another reason than the end, it takes precedence.
///
/// # Errors
///
/// The verdict, unless the dump came to the end after whole items.
pub fn dump_verdict<E: Drop>(
    outcome: Result<E, DumpError<E, io::Error>>,
    fault: Option<ReadFault>,
    offset: usize,
) -> Result<(), Verdict>
    ensures { result ≡ dump_said outcome fault offset }
{
    match outcome {
        Ok(_) => end_verdict(fault),
        Err(DumpError::Rows(error)) => Err(Verdict::Output(error)),
        Err(DumpError::Item(error)) => Err(prefer_failure(fault, fault_of(error, offset))),
    }
}
