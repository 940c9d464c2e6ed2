//! The pairs of a map, put in the order of their keys within the output.

ghost use Rattle.std.specs.Prelude.{◌≡◌, ◌+◌, ◌-◌, ◌*◌, ◌<◌, ◌≤◌, ◌++◌, List, ℕ, false, length, take, drop};
ghost use Rattle.std.specs.Prelude.{IfErr, IfOk, MatchOption, MatchResult, map, slice_index, slice_index_or};
ghost use Rattle.std.specs.List.{AllByRecursion};
ghost use Rattle.std.specs.List.{sum_by};
ghost use Rattle.std.specs.List.Sorted.{IsPermutation};
ghost use Rattle.cbor_canonical.specs.declared.Stop.TheVariants.{Room as NoRoom};
ghost use Rattle.cbor_canonical.specs.Runs.{AreSorted, DoAscend, Entry, joined_pairs};
ghost use Rattle.cbor_canonical.specs.Places.{entries_at, key_at, bounds, IsSaved, HasDisorder, OrdersPairs};
ghost use Rattle.cbor_canonical.specs.Places.{ArePlaced, IsWithin, MovesPairs, PutsSpan};
ghost use Rattle.cbor_canonical.specs.Places.{later_start, nowhere, starts_before};
ghost use Rattle.cbor_canonical.specs.Writing.{Adds};
ghost use Rattle.cbor_deterministic.specs.declared.TheConstants.{MAX_DEPTH};
ghost use Rattle.ciborium_ll_grammar.specs.declared.spelling.Spelling.TheVariants.{Any};
ghost use Rattle.ciborium_ll_grammar.specs.Items.{AreItems};

use crate::Stop;
use crate::aside::move_aside;
use crate::walk::left_after;
use cbor_deterministic::{Order, compare_keys};
use std::cmp::Ordering;

/// The place of a pair in the output, in bytes.
#[derive(Clone, Copy, Debug, PartialEq, Eq, Drop)]
#[repr(C)]
pub struct Span {
    /// The offset of the key.
    pub start: usize,
    /// The offset after the key, at which the value begins.
    pub key_end: usize,
    /// The offset after the value.
    pub end: usize,
}

/// Writes down the place of a pair after those of `done` pairs.
pub(crate) fn put_span(spans: &mut [Span], done: usize, span: Span) -> Result<(), Stop>
    ensures put { MatchResult result (λ put. PutsSpan done span spans.old spans.new) (λ stop. stop ≡ NoRoom) }
    ensures room { IfErr result (λ stop. length spans.old ≤ done) }
{
    if done >= spans.len() {
        return Err(Stop::Room);
    }
    spans[done] = span;
    Ok(())
}

/// Returns the bytes of the output from an offset to another. Both are taken as the end if they are beyond it.
pub(crate) fn part(out: &[u8], start: usize, end: usize) -> &[u8]
    ensures { result.now ≡ take (end - start) (drop start out.now) }
{
    let rest = &out[start.min(out.len())..];
    let len = end.saturating_sub(start);
    &rest[..len.min(rest.len())]
}

/// Returns the key at this place of the output.
fn key_of(out: &[u8], span: Span) -> &[u8]
    ensures { result.now ≡ key_at out.now span }
{
    part(out, span.start, span.key_end)
}

/// Returns the index of the first pair whose key does not come after that of the pair before it.
fn disorder(spans: &[Span], out: &[u8], order: Order) -> Option<usize>
    ensures { MatchOption result (DoAscend order (entries_at out.now spans.now))
        (λ at. HasDisorder order at (entries_at out.now spans.now)) }
{
    let mut at = 1;
    'spans: while at < spans.len() {
        match compare_keys(order, key_of(out, spans[at - 1]), key_of(out, spans[at])) {
            Ordering::Less => {}
            Ordering::Equal | Ordering::Greater => return Some(at),
        }
        at += 1;
    }
    None
}

/// Puts the places of pairs in the order of the keys.
fn sort_spans(spans: &mut [Span], out: &[u8], order: Order)
    ensures permutation { IsPermutation spans.old spans.new }
    ensures sorted { AreSorted order (entries_at out.now spans.new) }
{
    spans.sort_unstable_by(|one, other| compare_keys(
        order,
        key_of(out, *one),
        key_of(out, *other),
    ));
}

/// Returns the byte of this index, or 0 without one.
fn byte_or_zero(bytes: &[u8], at: usize) -> u8
    ensures { result ≡ slice_index bytes.now at }
{
    match bytes.get(at) {
        Some(byte) => *byte,
        None => 0,
    }
}

/// Saves the bytes in the ends of keys, two in each.
fn save_bytes(bytes: &[u8], spans: &mut [Span]) -> Result<(), Stop>
    ensures saved { MatchResult result
        (λ done. IsSaved bytes.now spans.new × (map bounds spans.new ≡ map bounds spans.old))
        (λ stop. stop ≡ NoRoom) }
    ensures room { IfErr result (λ stop. 2 * length spans.old < length bytes.now) }
{
    let cells = bytes.len() / 2 + bytes.len() % 2;
    if spans.len() < cells {
        return Err(Stop::Room);
    }
    let mut at = 0;
    'cells: while at < cells {
        let low = byte_or_zero(bytes, 2 * at) as usize;
        let high = byte_or_zero(bytes, 2 * at + 1) as usize;
        spans[at].key_end = low + 0x100 * high;
        at += 1;
    }
    Ok(())
}

/// Returns the saved byte of this index.
fn saved_byte(spans: &[Span], at: usize) -> u8
    ensures { (bytes : List ℕ) → IsSaved bytes spans.now → at < length bytes → result ≡ slice_index bytes at }
{
    match spans.get(at / 2) {
        Some(span) if at % 2 == 0 => (span.key_end % 0x100) as u8,
        Some(span) => (span.key_end / 0x100 % 0x100) as u8,
        None => 0,
    }
}

/// Writes the saved bytes from an index to another at this offset of the output, and returns the offset after them.
fn put_saved(
    spans: &[Span],
    from: usize,
    to: usize,
    out: &mut [u8],
    at: usize,
) -> Result<usize, Stop>
    requires { at ≤ length out.old }
    ensures put { MatchResult result
        (λ end. (bytes : List ℕ) → IsSaved bytes spans.now → to ≤ length bytes
        → Adds (take (to - from) (drop from bytes)) at end out.old out.new)
        (λ stop. stop ≡ NoRoom) }
    ensures within { IfOk result (λ end. (at ≤ end) × (end ≤ length out.new)) }
    ensures room { IfErr result (λ stop. length out.old < at + (to - from)) }
{
    let mut next = from;
    let mut end = at;
    'bytes: while next < to {
        if end >= out.len() {
            return Err(Stop::Room);
        }
        out[end] = saved_byte(spans, next);
        next += 1;
        end += 1;
    }
    Ok(end)
}

/// Writes the pairs that stand from `at` to `end` of the output anew from `at` on, in the order of their places. Returns
/// the offset after them. The ends of keys are lost.
fn move_pairs(
    out: &mut [u8],
    at: usize,
    end: usize,
    spans: &mut [Span],
    done: usize,
) -> Result<usize, Stop>
    requires start { at ≤ end }
    requires end { end ≤ length out.old }
    requires held { done ≤ length spans.old }
    ensures moved { MatchResult result (λ after. MovesPairs at end after (take done spans.old) out.old out.new)
        (λ stop. stop ≡ NoRoom) }
    ensures room { IfErr result (λ stop. AllByRecursion (IsWithin at end) (take done spans.old)
        → at + length (joined_pairs (entries_at out.old (take done spans.old))) ≤ end
        → 2 * length spans.old < end - at) }
{
    if end - at <= out.len() - end {
        return move_aside(out, at, end, spans, done);
    }
    save_bytes(&out[at..end], spans)?;
    let mut place = at;
    let mut next = 0;
    'pairs: while next < done {
        let span = spans[next];
        let from = span.start.saturating_sub(at);
        let to = span.end.saturating_sub(at);
        place = put_saved(spans, from, to, out, place)?;
        next += 1;
    }
    Ok(place)
}

/// Returns the offset of the key of the pair with this index, or 0 without such a pair.
fn start_of(spans: &[Span], index: usize) -> usize
    ensures { result ≡ (slice_index_or spans.now index nowhere).start }
{
    match spans.get(index) {
        Some(span) => span.start,
        None => 0,
    }
}

/// Returns how many pairs begin before this offset.
fn count_before(spans: &[Span], offset: usize) -> usize
    ensures { result ≡ sum_by (starts_before offset) spans.now }
{
    let mut pairs = 0;
    for span in spans {
        if span.start < offset {
            pairs += 1;
        }
    }
    pairs
}

/// Returns how many bytes are left from the later of two keys on, which are neighbours in the order of keys.
fn later_left(bytes: &[u8], depth: usize, spans: &[Span], index: usize) -> usize
    ensures { (front rest : List ℕ) → depth ≤ MAX_DEPTH
        → AreItems Any depth (2 * sum_by (starts_before (later_start index spans.now)) spans.now) front
        → bytes.now ≡ front ++ rest → result ≡ length rest }
{
    let later = start_of(spans, index.saturating_sub(1)).max(start_of(spans, index));
    left_after(bytes, depth, count_before(spans, later))
}

/// Puts the pairs that stand from `at` to `end` of the output in the order of their keys. Their places are the first
/// `done` ones, and `bytes` is the content of the map. Returns the offset after the pairs. It stays a function of its own,
/// so that the calls for nests need less of the stack.
#[inline(never)]
pub(crate) fn order_pairs(
    bytes: &[u8],
    depth: usize,
    order: Order,
    out: &mut [u8],
    at: usize,
    end: usize,
    spans: &mut [Span],
    done: usize,
) -> Result<usize, Stop>
    requires start { at ≤ end }
    requires end { end ≤ length out.old }
    requires held { done ≤ length spans.old }
    ensures ordered { OrdersPairs order depth bytes.now at end (take done spans.old) out.old result out.new }
    ensures room { IfErr result (λ stop. stop ≡ NoRoom → (entries : List Entry)
        → ArePlaced at end (take done spans.old) out.old entries → 2 * length spans.old < end - at) }
{
    let Some(_) = disorder(&spans[..done], out, order) else {
        return Ok(end);
    };
    sort_spans(&mut spans[..done], out, order);
    match disorder(&spans[..done], out, order) {
        Some(index) => {
            let left = later_left(bytes, depth, &spans[..done], index);
            Err(Stop::Duplicate(left))
        }
        None => move_pairs(out, at, end, spans, done),
    }
}
