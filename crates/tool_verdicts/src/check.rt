//! The verdict of a check on an input.

ghost use Rattle.std.specs.Prelude.{◌≡◌, ◌≤◌, ◌↔◌, ℕ, List};
ghost use Rattle.ciborium_ll.specs.Decoding.{offset_of, spelling_of};
ghost use Rattle.ciborium_ll.specs.Items.{IsItem};
ghost use Rattle.ciborium_ll.specs.Premises.{CanRead};
ghost use Rattle.cbor_dump.specs.Sequences.{IsSequence};
ghost use Rattle.tool_verdicts.specs.Checking.{Finds, FindsAll, FindsOne, IsWanted, FoundWell, SaysVerdict, SaysItems, SaysOne};
ghost use Rattle.tool_verdicts.specs.Checking.{end_said, fault_said, sequence_said, single_said, unless_failed};
ghost use Rattle.ciborium_ll.specs.Limits.{MOST_LEVELS};
ghost use Rattle.tool_verdicts.specs.declared.check.TheConstants.{BUFFER_SIZE};

use crate::verdict::Verdict;
use cbor_dump::sequence::{Sequence, Stopped, check};
use cbor_dump::single::{NotOne, check_one};
use cbor_skip::SkipError;
use ciborium_ll::io::{Read, ReadFault};
use ciborium_ll::{Decoder, Error};

/// How many bytes of a string are read at once.
pub const BUFFER_SIZE: usize = 512;

/// Returns the verdict, or the error of a read that failed for another reason than the end.
pub fn prefer_failure(fault: Option<ReadFault>, verdict: Verdict) -> Verdict
    ensures { result ≡ unless_failed fault verdict }
{
    match fault {
        Some(ReadFault::Failed(error)) => Verdict::Failed(error),
        Some(ReadFault::End) | None => verdict,
    }
}

/// Returns nothing at the end of whole items, or the error of a read that failed for another reason than the end.
pub fn end_verdict(fault: Option<ReadFault>) -> Result<(), Verdict>
    ensures { result ≡ end_said fault }
{
    match fault {
        Some(ReadFault::Failed(error)) => Err(Verdict::Failed(error)),
        Some(ReadFault::End) | None => Ok(()),
    }
}

/// Checks one item or a sequence of items, as `one` says, and returns the verdict.
///
/// Tags, arrays and maps nest at most `depth` levels deep, and `depth` is at most 256.
///
/// If a steady reader tells its bytes, the offset fits and no header waits on a strict decoder, the verdict is `Well`
/// exactly if the bytes are as wanted. Otherwise it names the first fault after the whole items. If bytes follow the
/// one item that is wanted, it names the offset from which they follow.
pub fn judge<R: Read>(decoder: &mut Decoder<R>, one: bool, depth: usize) -> Verdict
where
    R::Error: Drop,
    requires { depth ≤ MOST_LEVELS }
    ensures exactly { (due : List ℕ) → CanRead R.Read BUFFER_SIZE decoder.old due
        → (FoundWell result ↔ IsWanted one (spelling_of decoder.old) depth due) }
    ensures told { (due : List ℕ) → CanRead R.Read BUFFER_SIZE decoder.old due
        → Finds one (spelling_of decoder.old) depth due (offset_of decoder.old) result }
    ensures says { SaysVerdict R.Read one depth BUFFER_SIZE decoder.old result decoder.new }
{
    if one {
        judge_one(decoder, depth)
    } else {
        judge_all(decoder, depth)
    }
}

/// Checks a sequence of items.
fn judge_all<R: Read>(decoder: &mut Decoder<R>, depth: usize) -> Verdict
where
    R::Error: Drop,
    requires { depth ≤ MOST_LEVELS }
    ensures says { SaysItems R.Read depth BUFFER_SIZE decoder.old result decoder.new }
    ensures exactly { (due : List ℕ) → CanRead R.Read BUFFER_SIZE decoder.old due
        → (FoundWell result ↔ IsSequence (spelling_of decoder.old) depth due) }
    ensures told { (due : List ℕ) → CanRead R.Read BUFFER_SIZE decoder.old due
        → FindsAll (spelling_of decoder.old) depth due (offset_of decoder.old) result }
{
    let mut buffer = [0; BUFFER_SIZE];
    let answer = check(decoder, depth, &mut buffer);
    sequence_verdict(answer, decoder.offset())
}

/// Returns the verdict on a sequence. A read that failed stopped at this offset.
fn sequence_verdict<E: Drop>(answer: Result<Sequence<E>, Stopped<E>>, offset: usize) -> Verdict
    ensures { result ≡ sequence_said answer offset }
{
    match answer {
        Ok(sequence) => Verdict::Well {
            items: sequence.items,
            bytes: sequence.bytes,
        },
        Err(stopped) => fault_of(stopped.error, offset),
    }
}

/// Checks one item, and that nothing follows it.
fn judge_one<R: Read>(decoder: &mut Decoder<R>, depth: usize) -> Verdict
where
    R::Error: Drop,
    requires { depth ≤ MOST_LEVELS }
    ensures says { SaysOne R.Read depth BUFFER_SIZE decoder.old result decoder.new }
    ensures exactly { (due : List ℕ) → CanRead R.Read BUFFER_SIZE decoder.old due
        → (FoundWell result ↔ IsItem (spelling_of decoder.old) depth due) }
    ensures told { (due : List ℕ) → CanRead R.Read BUFFER_SIZE decoder.old due
        → FindsOne (spelling_of decoder.old) depth due (offset_of decoder.old) result }
{
    let mut buffer = [0; BUFFER_SIZE];
    let answer = check_one(decoder, depth, &mut buffer);
    single_verdict(answer, decoder.offset())
}

/// Returns the verdict on one item. A read that failed stopped at this offset.
pub(crate) fn single_verdict<E: Drop>(
    answer: Result<Sequence<E>, NotOne<E>>,
    offset: usize,
) -> Verdict
    ensures { result ≡ single_said answer offset }
{
    match answer {
        Ok(sequence) => Verdict::Well {
            items: sequence.items,
            bytes: sequence.bytes,
        },
        Err(NotOne::Item(error)) => fault_of(error, offset),
        Err(NotOne::More(place, _)) => Verdict::More(place),
    }
}

/// Returns the verdict for an error that stopped the read of an item at this offset.
pub fn fault_of<E: Drop>(error: SkipError<E>, offset: usize) -> Verdict
    ensures { result ≡ fault_said error offset }
{
    match error {
        SkipError::Break(place) => Verdict::Break(place),
        SkipError::Deep(place) => Verdict::Deep(place),
        SkipError::Read(Error::Syntax(place)) => Verdict::Syntax(place),
        SkipError::Read(Error::Io(_)) => Verdict::Short(offset),
        SkipError::Read(Error::TooLong | Error::Waiting) => Verdict::TooLong,
    }
}
