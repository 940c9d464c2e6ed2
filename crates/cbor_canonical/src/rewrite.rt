//! Items of any spelling, rewritten to the deterministic encoding of their values in memory that a caller lends.

ghost use Rattle.std.specs.Prelude.{◌≡◌, ◌∷◌, ◌+◌, ◌*◌, ◌≤◌, List, ℕ, suc, length, None, MatchOption, MatchResult};
ghost use Rattle.cbor_canonical.specs.Canonical.{IsRewritten};
ghost use Rattle.cbor_canonical.specs.Runs.{Turns, IsCompleted, TurnsItems, FailsItem, FailsAfter};
ghost use Rattle.cbor_canonical.specs.Runs.{FailsRest, FailsItems, FailsPairs, FailsPair};
ghost use Rattle.cbor_canonical.specs.Places.{WritesPair, WritesPairs, WritesMap};
ghost use Rattle.cbor_canonical.specs.Room.{Grows, LacksRoom, end_len};
ghost use Rattle.cbor_canonical.specs.Writing.{Extends};
ghost use Rattle.ciborium_ll_grammar.specs.Title.{IsTitle};
ghost use Rattle.ciborium_ll_grammar.specs.declared.hdr.Header.TheVariants.{Array as ArrayOf, Map as MapOf};

use crate::Stop;
use crate::kept::flat_len;
use crate::narrow::narrowest;
use crate::pairs::{Span, order_pairs, put_span};
use crate::strings::{StringKind, rewrite_string};
use crate::title::{insert_title, put_bytes, put_title};
use cbor_deterministic::Order;
use ciborium_ll_grammar::hdr::Header;
use ciborium_ll_grammar::titles::next_title;

/// Returns the rest after the break, if there is no count and a break begins the bytes.
fn past_end(count: Option<usize>, bytes: &[u8]) -> Option<&[u8]>
    ensures { MatchOption result ((rest : List ℕ) → count ≡ None → bytes.now ≡ 0xff ∷ rest → ⊥)
        (λ rest. (count ≡ None) × (bytes.now ≡ 0xff ∷ rest.now)) }
{
    if count.is_some() {
        return None;
    }
    match bytes.split_first() {
        Some((first, rest)) if *first == 0xff => Some(rest),
        _ => None,
    }
}

/// Returns the most items or pairs that the bytes may hold.
fn limit_of(count: Option<usize>, bytes: &[u8]) -> usize
    ensures told { (told : ℕ) → count ≡ Some told → result ≡ told }
    ensures open_count { count ≡ None → result ≡ length bytes.now }
{
    match count {
        Some(told) => told,
        None => bytes.len(),
    }
}

/// Rewrites the item at the beginning of the bytes to this offset of the output. Returns the rest, and the offset after
/// what it wrote.
#[cycle(rewrites)]
#[inline(always)]
pub(crate) fn rewrite_item<'a>(
    bytes: &'a [u8],
    depth: usize,
    order: Order,
    out: &mut [u8],
    at: usize,
    spans: &mut [Span],
) -> Result<(&'a [u8], usize), Stop>
    requires { at ≤ length out.old }
    ensures written { MatchResult result
        (λ found. Extends (Turns (IsRewritten order depth) bytes.now found.0.now) at found.1 out.old out.new)
        (FailsItem depth bytes.now) }
    ensures room { MatchResult result (λ found. Grows 1 (length bytes.now) (length found.0.now) at found.1)
        (LacksRoom (length bytes.now) at (length out.old) (length bytes.now) (length spans.old)) }
{
    if let Some(len) = flat_len(bytes, order) {
        let end = put_bytes(&bytes[..len], out, at)?;
        return Ok((&bytes[len..], end));
    }
    rewrite_titled(bytes, depth, order, out, at, spans)
}

/// Does what [`rewrite_item`] does, by the title at the beginning.
#[cycle(rewrites)]
fn rewrite_titled<'a>(
    bytes: &'a [u8],
    depth: usize,
    order: Order,
    out: &mut [u8],
    at: usize,
    spans: &mut [Span],
) -> Result<(&'a [u8], usize), Stop>
    requires { at ≤ length out.old }
    ensures written { MatchResult result
        (λ found. Extends (Turns (IsRewritten order depth) bytes.now found.0.now) at found.1 out.old out.new)
        (FailsItem depth bytes.now) }
    ensures room { MatchResult result (λ found. Grows 1 (length bytes.now) (length found.0.now) at found.1)
        (LacksRoom (length bytes.now) at (length out.old) (length bytes.now) (length spans.old)) }
{
    match next_title(bytes) {
        Some((header, rest)) => {
            rewrite_rest(header, rest, depth, order, bytes.len(), out, at, spans)
        }
        None => Err(Stop::Malformed),
    }
}

/// Rewrites the content that follows a title of this header. The title begins `left` bytes before the end. Returns the
/// rest, and the offset after what it wrote.
#[cycle(rewrites)]
fn rewrite_rest<'a>(
    header: Header,
    bytes: &'a [u8],
    depth: usize,
    order: Order,
    left: usize,
    out: &mut [u8],
    at: usize,
    spans: &mut [Span],
) -> Result<(&'a [u8], usize), Stop>
    requires { at ≤ length out.old }
    ensures written { MatchResult result
        (λ found. Extends (Turns (IsCompleted order depth header) bytes.now found.0.now) at found.1 out.old out.new)
        (FailsAfter depth header bytes.now left) }
    ensures room { (title : List ℕ) → IsTitle title header → MatchResult result
        (λ found. Grows 1 (length title + length bytes.now) (length found.0.now) at found.1)
        (LacksRoom (length title + length bytes.now) at (length out.old) (length title + length bytes.now)
        (length spans.old)) }
{
    match header {
        Header::Positive(_) | Header::Negative(_) => {
            let end = put_title(header, out, at)?;
            Ok((bytes, end))
        }
        Header::Simple(number) => {
            if number >= 24 && number < 32 {
                return Err(Stop::NoSimple(left));
            }
            let end = put_title(header, out, at)?;
            Ok((bytes, end))
        }
        Header::Float(float) => {
            let end = put_title(Header::Float(narrowest(float)), out, at)?;
            Ok((bytes, end))
        }
        Header::Bytes(len) => rewrite_string(StringKind::Bytes, len, bytes, out, at),
        Header::Text(len) => rewrite_string(StringKind::Text, len, bytes, out, at),
        Header::Tag(number) if depth > 0 => {
            let end = put_title(Header::Tag(number), out, at)?;
            rewrite_item(bytes, depth - 1, order, out, end, spans)
        }
        Header::Array(count) if depth > 0 => {
            rewrite_array(count, bytes, depth - 1, order, out, at, spans)
        }
        Header::Map(count) if depth > 0 => {
            rewrite_map(count, bytes, depth - 1, order, out, at, spans)
        }
        Header::Tag(_) | Header::Array(_) | Header::Map(_) => Err(Stop::Malformed),
        Header::Break => Err(Stop::Malformed),
    }
}

/// Rewrites the rest of an array after its title. Returns the bytes after it, and the offset after what it wrote.
#[cycle(rewrites)]
fn rewrite_array<'a>(
    count: Option<usize>,
    bytes: &'a [u8],
    depth: usize,
    order: Order,
    out: &mut [u8],
    at: usize,
    spans: &mut [Span],
) -> Result<(&'a [u8], usize), Stop>
    requires { at ≤ length out.old }
    ensures written { MatchResult result (λ found. Extends
        (Turns (IsCompleted order (suc depth) (ArrayOf count)) bytes.now found.0.now) at found.1 out.old out.new)
        (FailsRest (suc depth) (ArrayOf count) bytes.now) }
    ensures room { (title : List ℕ) → IsTitle title (ArrayOf count) → MatchResult result
        (λ found. Grows 1 (length title + length bytes.now) (length found.0.now) at found.1)
        (LacksRoom (length title + length bytes.now) at (length out.old) (length title + length bytes.now)
        (length spans.old)) }
{
    match count {
        Some(told) => {
            let start = put_title(Header::Array(Some(told)), out, at)?;
            let (_, rest, end) = rewrite_items(count, bytes, depth, order, out, start, spans)?;
            Ok((rest, end))
        }
        None => {
            let (done, rest, end) = rewrite_items(count, bytes, depth, order, out, at, spans)?;
            let after = insert_title(Header::Array(Some(done)), out, at, end)?;
            Ok((rest, after))
        }
    }
}

/// Rewrites the items of an array. Returns their number, the rest, and the offset after what it wrote.
#[cycle(rewrites)]
fn rewrite_items<'a>(
    count: Option<usize>,
    bytes: &'a [u8],
    depth: usize,
    order: Order,
    out: &mut [u8],
    at: usize,
    spans: &mut [Span],
) -> Result<(usize, &'a [u8], usize), Stop>
    requires { at ≤ length out.old }
    ensures written { MatchResult result (λ found. Extends
        (TurnsItems order depth count found.0 bytes.now found.1.now) at found.2 out.old out.new)
        (FailsItems depth count bytes.now) }
    ensures room { MatchResult result
        (λ found. Grows found.0 (length bytes.now) (length found.1.now + end_len count) at found.2)
        (LacksRoom (length bytes.now) at (length out.old) (length bytes.now) (length spans.old)) }
{
    let limit = limit_of(count, bytes);
    let mut rest = bytes;
    let mut end = at;
    let mut done = 0;
    'items: while done < limit {
        if let Some(after) = past_end(count, rest) {
            return Ok((done, after, end));
        }
        (rest, end) = rewrite_item(rest, depth, order, out, end, spans)?;
        done += 1;
    }
    match count {
        Some(_) => Ok((done, rest, end)),
        None => Err(Stop::Malformed),
    }
}

/// Rewrites the rest of a map after its title. Returns the bytes after it, and the offset after what it wrote.
#[cycle(rewrites)]
fn rewrite_map<'a>(
    count: Option<usize>,
    bytes: &'a [u8],
    depth: usize,
    order: Order,
    out: &mut [u8],
    at: usize,
    spans: &mut [Span],
) -> Result<(&'a [u8], usize), Stop>
    requires { at ≤ length out.old }
    ensures written { MatchResult result (λ found. Extends
        (Turns (IsCompleted order (suc depth) (MapOf count)) bytes.now found.0.now) at found.1 out.old out.new)
        (FailsRest (suc depth) (MapOf count) bytes.now) }
    ensures room { (title : List ℕ) → IsTitle title (MapOf count) → MatchResult result
        (λ found. Grows 1 (length title + length bytes.now) (length found.0.now) at found.1)
        (LacksRoom (length title + length bytes.now) at (length out.old) (length title + length bytes.now)
        (length spans.old)) }
{
    match count {
        Some(told) => {
            let start = put_title(Header::Map(Some(told)), out, at)?;
            let (_, rest, end) = rewrite_sorted(count, bytes, depth, order, out, start, spans)?;
            Ok((rest, end))
        }
        None => {
            let (done, rest, end) = rewrite_sorted(count, bytes, depth, order, out, at, spans)?;
            let after = insert_title(Header::Map(Some(done)), out, at, end)?;
            Ok((rest, after))
        }
    }
}

/// Rewrites the pairs of a map, in the order of their keys. Returns their number, the rest, and the offset after what
/// it wrote.
#[cycle(rewrites)]
fn rewrite_sorted<'a>(
    count: Option<usize>,
    bytes: &'a [u8],
    depth: usize,
    order: Order,
    out: &mut [u8],
    at: usize,
    spans: &mut [Span],
) -> Result<(usize, &'a [u8], usize), Stop>
    requires { at ≤ length out.old }
    ensures written { MatchResult result (λ found. Extends
        (WritesMap order depth count found.0 bytes.now found.1.now) at found.2 out.old out.new)
        (FailsRest (suc depth) (MapOf count) bytes.now) }
    ensures room { MatchResult result
        (λ found. Grows (2 * found.0) (length bytes.now) (length found.1.now + end_len count) at found.2)
        (LacksRoom (length bytes.now) at (length out.old) (1 + length bytes.now) (length spans.old)) }
{
    let (done, rest, end) = rewrite_pairs(count, bytes, depth, order, out, at, spans)?;
    let after = order_pairs(bytes, depth, order, out, at, end, spans, done)?;
    Ok((done, rest, after))
}

/// Rewrites the pairs of a map as they come, and writes down their places. Returns their number, the rest, and the
/// offset after what it wrote.
#[cycle(rewrites)]
fn rewrite_pairs<'a>(
    count: Option<usize>,
    bytes: &'a [u8],
    depth: usize,
    order: Order,
    out: &mut [u8],
    at: usize,
    spans: &mut [Span],
) -> Result<(usize, &'a [u8], usize), Stop>
    requires { at ≤ length out.old }
    ensures written { MatchResult result
        (λ found. WritesPairs order depth count found.0 bytes.now found.1.now at found.2 out.old out.new spans.new)
        (FailsPairs depth count bytes.now) }
    ensures room { MatchResult result
        (λ found. Grows (2 * found.0) (length bytes.now) (length found.1.now + end_len count) at found.2)
        (LacksRoom (length bytes.now) at (length out.old) (1 + length bytes.now) (length spans.old)) }
{
    let limit = limit_of(count, bytes);
    let mut rest = bytes;
    let mut end = at;
    let mut done = 0;
    'pairs: while done < limit {
        if let Some(after) = past_end(count, rest) {
            return Ok((done, after, end));
        }
        (rest, end) = rewrite_pair(rest, depth, order, out, end, spans, done)?;
        done += 1;
    }
    match count {
        Some(_) => Ok((done, rest, end)),
        None => Err(Stop::Malformed),
    }
}

/// Rewrites a key and its value, and writes down their places after those of `done` pairs. Returns the rest, and the
/// offset after what it wrote.
#[cycle(rewrites)]
fn rewrite_pair<'a>(
    bytes: &'a [u8],
    depth: usize,
    order: Order,
    out: &mut [u8],
    at: usize,
    spans: &mut [Span],
    done: usize,
) -> Result<(&'a [u8], usize), Stop>
    requires start { at ≤ length out.old }
    requires held { done ≤ length spans.old }
    ensures written { MatchResult result
        (λ found. WritesPair order depth bytes.now found.0.now at found.1 out.old out.new done spans.old spans.new)
        (FailsPair depth bytes.now) }
    ensures room { MatchResult result (λ found. Grows 2 (length bytes.now) (length found.0.now) at found.1)
        (LacksRoom (length bytes.now) at (length out.old) (1 + 2 * done + length bytes.now) (length spans.old)) }
{
    let (after, key_end) = rewrite_item(bytes, depth, order, out, at, &mut spans[done..])?;
    let (rest, end) = rewrite_item(after, depth, order, out, key_end, &mut spans[done..])?;
    let start = at;
    put_span(
        spans,
        done,
        Span {
            start,
            key_end,
            end,
        },
    )?;
    Ok((rest, end))
}
