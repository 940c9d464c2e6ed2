//! The verdict of a check on an input that is read ahead.

ghost use Rattle.std.specs.Prelude.{◌≤◌};
ghost use Rattle.ciborium_ll.specs.Limits.{MOST_LEVELS};
ghost use Rattle.tool_verdicts.specs.Checking.{SaysOne};
ghost use Rattle.tool_verdicts.specs.Parts.{SaysPart, SaysSome};
ghost use Rattle.tool_verdicts.specs.declared.check.TheConstants.{BUFFER_SIZE};

use crate::check::{BUFFER_SIZE, fault_of, single_verdict};
use crate::part::{is_enough, verdict_at};
use crate::verdict::Verdict;
use cbor_ahead::{NESTS, pass_items, skip_items, skip_one};
use cbor_dump::single::answer_end;
use ciborium_ll::Decoder;
use ciborium_ll::io::{BufferedReader, Read};
use std::io;

/// Checks a part of a sequence of items as [`judge_part`](crate::part::judge_part) does, and takes the items that the
/// buffer of the reader holds by a checker. It returns the decoder and the verdict.
pub fn judge_ahead<'a, T: io::Read>(
    decoder: Decoder<BufferedReader<'a, T>>,
    skip: usize,
    most: Option<usize>,
    one: bool,
    depth: usize,
) -> (Decoder<BufferedReader<'a, T>>, Verdict)
    requires { depth ≤ MOST_LEVELS }
    ensures { SaysPart ⟦<BufferedReader<'a, T> as Read>⟧ skip most one depth BUFFER_SIZE decoder.entry result.1
        result.0 }
{
    let mut buffer = [0; BUFFER_SIZE];
    let (behind, outcome) = skip_items(decoder, skip, NESTS, depth, &mut buffer);
    if let Err(error) = outcome {
        let mut stopped = behind;
        let verdict = fault_of(error, stopped.offset());
        return (stopped, verdict);
    }
    match most {
        Some(_) => judge_some_ahead(behind, most, depth),
        None if one => judge_one_ahead(behind, depth),
        None => judge_some_ahead(behind, None, depth),
    }
}

/// Checks one item, and that nothing follows it.
fn judge_one_ahead<'a, T: io::Read>(
    decoder: Decoder<BufferedReader<'a, T>>,
    depth: usize,
) -> (Decoder<BufferedReader<'a, T>>, Verdict)
    requires { depth ≤ MOST_LEVELS }
    ensures { SaysOne ⟦<BufferedReader<'a, T> as Read>⟧ depth BUFFER_SIZE decoder.entry result.1 result.0 }
{
    let mut buffer = [0; BUFFER_SIZE];
    let mut decoder = decoder;
    let start = decoder.offset();
    let (mut behind, outcome) = skip_items(decoder, 1, NESTS, depth, &mut buffer);
    let place = behind.offset();
    if let Err(error) = outcome {
        return (behind, fault_of(error, place));
    }
    let pulled = behind.pull();
    let stop = behind.offset();
    let answer = answer_end(pulled, start, place, stop);
    (behind, single_verdict(answer, stop))
}

/// Checks at most `most` items, or all.
fn judge_some_ahead<'a, T: io::Read>(
    decoder: Decoder<BufferedReader<'a, T>>,
    most: Option<usize>,
    depth: usize,
) -> (Decoder<BufferedReader<'a, T>>, Verdict)
    requires { depth ≤ MOST_LEVELS }
    ensures { SaysSome ⟦<BufferedReader<'a, T> as Read>⟧ depth BUFFER_SIZE most decoder.entry result.1 result.0 }
{
    let mut buffer = [0; BUFFER_SIZE];
    let mut decoder = decoder;
    let start = decoder.offset();
    let mut items = 0;
    // The loop ends: each item takes a byte, and no offset is greater than `usize::MAX`.
    'items: loop {
        let left = most.unwrap_or(usize::MAX) - items;
        let (mut passed, count) = pass_items(decoder, left, depth);
        items += count;
        let place = passed.offset();
        if is_enough(most, items) {
            return (
                passed,
                Verdict::Well {
                    items,
                    bytes: place - start,
                },
            );
        }
        let (mut next, outcome) = skip_one(passed, NESTS, depth, &mut buffer);
        if let Err(error) = outcome {
            let stop = next.offset();
            let verdict = verdict_at(error, items, place - start, place, stop);
            return (next, verdict);
        }
        items += 1;
        decoder = next;
    }
}
