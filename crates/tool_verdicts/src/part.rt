//! The verdict on a part of a sequence: on the items after the first ones, and on at most a number of them.

ghost use Rattle.std.specs.Prelude.{◌≡◌, ◌≤◌, ◌↔◌, ℕ, List, Option as AnyOption, [], ◌∷◌, IsTrue, Some, OnErr, OnOk};
ghost use Rattle.ciborium_ll.specs.Decoding.{offset_of, spelling_of};
ghost use Rattle.ciborium_ll.specs.Limits.{MOST_LEVELS};
ghost use Rattle.ciborium_ll.specs.Premises.{CanRead};
ghost use Rattle.tool_verdicts.specs.Parts.{AddsSpans, EndsAt, FindsPart, FindsSome, IndexesItems, IndexesPart, SaysPart};
ghost use Rattle.tool_verdicts.specs.Parts.{SaysSome};
ghost use Rattle.tool_verdicts.specs.declared.check.TheConstants.{BUFFER_SIZE};
ghost use Rattle.tool_verdicts.specs.declared.part.Span.{Span as AnySpan};

use crate::check::{BUFFER_SIZE, fault_of, judge};
use crate::verdict::Verdict;
use cbor_dump::counted::skip_items;
use cbor_skip::{SkipError, skip_item};
use ciborium_ll::io::Read;
use ciborium_ll::{Decoder, Error};
use std::convert::Infallible;

/// The place of an item.
#[derive(Debug, Clone, Copy)]
pub struct Span {
    /// The offset of its first byte.
    pub offset: usize,
    /// How many bytes it has.
    pub len: usize,
}

/// Takes the places of items, one by one.
pub trait Spans {
    /// Why a place was refused.
    type Error;

    /// All places so far, if the value exposes them.
    ghost taken: { Self → AnyOption (List AnySpan) };

    /// Takes the place of the next item.
    ///
    /// # Errors
    ///
    /// Any error refuses the place.
    fn span(&mut self, span: Span) -> Result<(), Self::Error>
        ensures adds { OnOk result (AddsSpans (taken self.old) (taken self.new) (span ∷ [])) }
        ensures refused { OnErr result (taken self.new ≡ taken self.old) };
}

/// Takes places, and keeps none.
#[derive(Drop)]
struct Unseen;

impl Spans for Unseen {
    ghost use Rattle.std.specs.Prelude.{None};

    type Error = Infallible;

    ghost taken = { λ _. None };

    fn span(&mut self, _span: Span) -> Result<(), Infallible> {
        Ok(())
    }
}

/// Checks a part of a sequence of items: those after the first `skip` items, and at most `most` of them. Without
/// `most` it checks one item or all, as `one` says.
///
/// Tags, arrays and maps nest at most `depth` levels deep, and `depth` is at most 256.
///
/// The verdict `Well` has the numbers of the part. Fewer items than `skip` are `Short`, and a fault among them is named
/// as any other. After `most` items the call reads no more.
pub fn judge_part<R: Read>(
    decoder: &mut Decoder<R>,
    skip: usize,
    most: Option<usize>,
    one: bool,
    depth: usize,
) -> Verdict
where
    R::Error: Drop,
    requires { depth ≤ MOST_LEVELS }
    ensures told { (due : List ℕ) → CanRead R.Read BUFFER_SIZE decoder.old due
        → FindsPart skip most one (spelling_of decoder.old) depth due (offset_of decoder.old) result }
    ensures says { SaysPart R.Read skip most one depth BUFFER_SIZE decoder.old result decoder.new }
{
    let mut buffer = [0; BUFFER_SIZE];
    if let Err(error) = skip_items(decoder, skip, depth, &mut buffer) {
        return fault_of(error, decoder.offset());
    }
    match most {
        Some(_) => judge_some(decoder, most, depth),
        None => judge(decoder, one, depth),
    }
}

/// Checks at most `most` items.
fn judge_some<R: Read>(decoder: &mut Decoder<R>, most: Option<usize>, depth: usize) -> Verdict
where
    R::Error: Drop,
    requires { depth ≤ MOST_LEVELS }
    ensures told { (due : List ℕ) → CanRead R.Read BUFFER_SIZE decoder.old due
        → FindsSome (spelling_of decoder.old) depth most due (offset_of decoder.old) result }
    ensures says { SaysSome R.Read depth BUFFER_SIZE most decoder.old result decoder.new }
{
    match index(decoder, most, depth, &mut Unseen) {
        Ok(verdict) => verdict,
        Err(never) => match never {},
    }
}

/// Checks a part of a sequence of items as `judge_part` does, and hands out the place of each item of the part after
/// its last byte.
///
/// # Errors
///
/// The error of the refused place. The call then reads no more.
pub fn index_part<R: Read, S: Spans>(
    decoder: &mut Decoder<R>,
    skip: usize,
    most: Option<usize>,
    depth: usize,
    spans: &mut S,
) -> Result<Verdict, S::Error>
where
    R::Error: Drop,
    requires { depth ≤ MOST_LEVELS }
    ensures { IndexesPart R.Read skip most depth BUFFER_SIZE (S.taken spans.old) (S.taken spans.new) decoder.old result
        decoder.new }
{
    let mut buffer = [0; BUFFER_SIZE];
    if let Err(error) = skip_items(decoder, skip, depth, &mut buffer) {
        return Ok(fault_of(error, decoder.offset()));
    }
    index(decoder, most, depth, spans)
}

/// Checks at most `most` items, and hands out the place of each.
fn index<R: Read, S: Spans>(
    decoder: &mut Decoder<R>,
    most: Option<usize>,
    depth: usize,
    spans: &mut S,
) -> Result<Verdict, S::Error>
where
    R::Error: Drop,
    requires { depth ≤ MOST_LEVELS }
    ensures { IndexesItems R.Read most depth BUFFER_SIZE (S.taken spans.old) (S.taken spans.new) decoder.old result
        decoder.new }
{
    let mut buffer = [0; BUFFER_SIZE];
    let start = decoder.offset();
    let mut items = 0;
    // The loop ends: each item takes a byte, and no offset is greater than `usize::MAX`.
    'items: while !is_enough(most, items) {
        let place = decoder.offset();
        if let Err(error) = skip_item(decoder, depth, &mut buffer) {
            let stop = decoder.offset();
            return Ok(verdict_at(error, items, place - start, place, stop));
        }
        let len = decoder.offset() - place;
        let span = Span { offset: place, len };
        if let Err(error) = spans.span(span) {
            return Err(error);
        }
        items += 1;
    }
    let end = decoder.offset();
    Ok(Verdict::Well {
        items,
        bytes: end - start,
    })
}

/// Returns whether no more items are wanted.
pub(crate) fn is_enough(most: Option<usize>, items: usize) -> bool
    ensures { IsTrue result ↔ (most ≡ Some items) }
{
    match most {
        Some(most) => most == items,
        None => false,
    }
}

/// Returns the verdict after whole items of this many bytes. The read of a further item, which would begin at `place`,
/// failed and stopped at the offset `stop`.
pub(crate) fn verdict_at<E: Drop>(
    error: SkipError<E>,
    items: usize,
    bytes: usize,
    place: usize,
    stop: usize,
) -> Verdict
    ensures { EndsAt error items bytes place stop result }
{
    match error {
        SkipError::Read(Error::Io(_)) if stop == place => Verdict::Well { items, bytes },
        error => fault_of(error, stop),
    }
}
