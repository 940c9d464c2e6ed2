//! Pairs that are put in the order of their places by way of the output after them.

ghost use Rattle.std.specs.Prelude.{◌≡◌, ◌+◌, ◌-◌, ◌<◌, ◌≤◌, IfErr, MatchResult, length, take, drop};
ghost use Rattle.std.specs.List.{AllByRecursion};
ghost use Rattle.cbor_canonical.specs.declared.Stop.TheVariants.{Room as NoRoom};
ghost use Rattle.cbor_canonical.specs.Runs.{joined_pairs};
ghost use Rattle.cbor_canonical.specs.Places.{entries_at, IsWithin, MovesPairs};
ghost use Rattle.cbor_canonical.specs.Writing.{Adds};

use crate::Stop;
use crate::pairs::{Span, part};
use crate::title::put_bytes;

/// Copies the bytes from an offset to another to this offset after them, and returns the offset after the copy.
fn copy_up(out: &mut [u8], from: usize, to: usize, at: usize) -> Result<usize, Stop>
    requires { at ≤ length out.old }
    ensures copied { MatchResult result
        (λ end. Adds (take (to - from) (drop from (take at out.old))) at end out.old out.new)
        (λ stop. stop ≡ NoRoom) }
    ensures room { IfErr result (λ stop. length out.old < at + (to - from)) }
{
    let (front, free) = out.split_at_mut(at);
    let len = put_bytes(part(front, from, to), free, 0)?;
    Ok(at + len)
}

/// Copies the bytes from an offset to another to this offset before them, and returns the offset after the copy.
fn copy_down(out: &mut [u8], from: usize, to: usize, at: usize) -> Result<usize, Stop>
    requires start { at ≤ from }
    requires end { from ≤ length out.old }
    ensures copied { MatchResult result
        (λ end. Adds (take (to - from) (drop from out.old)) at end out.old out.new)
        (λ stop. stop ≡ NoRoom) }
    ensures room { IfErr result (λ stop. from < at + (to - from)) }
{
    let (front, behind) = out.split_at_mut(from);
    put_bytes(part(behind, 0, to.saturating_sub(from)), front, at)
}

/// Writes the pairs that stand from `at` to `end` of the output anew from `at` on, in the order of their places, by way
/// of the output after them. Returns the offset after the pairs.
pub(crate) fn move_aside(
    out: &mut [u8],
    at: usize,
    end: usize,
    spans: &[Span],
    done: usize,
) -> Result<usize, Stop>
    requires start { at ≤ end }
    requires end { end ≤ length out.old }
    requires held { done ≤ length spans.now }
    ensures moved { MatchResult result (λ after. MovesPairs at end after (take done spans.now) out.old out.new)
        (λ stop. stop ≡ NoRoom) }
    ensures room { IfErr result (λ stop. AllByRecursion (IsWithin at end) (take done spans.now)
        → at + length (joined_pairs (entries_at out.old (take done spans.now))) ≤ end
        → length out.old < end + (end - at)) }
{
    let mut place = end;
    let mut next = 0;
    'pairs: while next < done {
        let span = spans[next];
        place = copy_up(out, span.start, span.end, place)?;
        next += 1;
    }
    copy_down(out, end, place, at)
}
