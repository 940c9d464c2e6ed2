//! The walk over one item in the deterministic encoding (RFC 8949, 4.2.1).

ghost use Rattle.std.specs.Prelude.{◌≡◌, ◌↔◌, ℕ, [], IsTrue, MatchResult, MatchOption, Some};
ghost use Rattle.std.specs.Ordering.{MatchOrdering};
ghost use Rattle.ciborium_ll_text.specs.Text.{IsCharacters};
ghost use Rattle.cbor_deterministic.specs.Orders.{Precedes};
ghost use Rattle.cbor_deterministic.specs.Deterministic.{Completes, IsDeterministic, AreDeterministic, AreSortedPairs};
ghost use Rattle.cbor_deterministic.specs.declared.Order.{Order as AnyOrder};
ghost use Rattle.cbor_deterministic.specs.Preferred.{IsIndefinite};
ghost use Rattle.cbor_deterministic.specs.Refusals.{FailsItem, FailsWithin, FailsItems, FailsPairs, FailsOrder};
ghost use Rattle.cbor_deterministic.specs.Fronts.{InFront, IsOfLength, IsTextOfLength};

use crate::flat::{flat_len, flat_run};
use crate::title::next_preferred;
use crate::{Order, Stop, Why};
use ciborium_ll_grammar::hdr::Header;
use ciborium_ll_text::state::is_text;
use std::cmp::Ordering;

/// Returns the rest after a body of `len` bytes.
fn skip_body(bytes: &[u8], len: usize) -> Result<&[u8], Stop>
    ensures { MatchResult result (λ rest. InFront (IsOfLength len) bytes.now rest.now)
        (λ stop. (order : AnyOrder) (depth at : ℕ)
        → FailsWithin order depth (Header.Bytes (Some len)) at bytes.now stop.why stop.left) }
{
    match bytes.split_at_checked(len) {
        Some((_, rest)) => Ok(rest),
        None => Err(Stop {
            why: Why::Cut,
            left: 0,
        }),
    }
}

/// Returns the rest after a text of `len` bytes. Its title begins `left` bytes before the end.
fn skip_text(bytes: &[u8], len: usize, left: usize) -> Result<&[u8], Stop>
    ensures { MatchResult result (λ rest. InFront (IsTextOfLength len) bytes.now rest.now)
        (λ stop. (order : AnyOrder) (depth : ℕ)
        → FailsWithin order depth (Header.Text (Some len)) left bytes.now stop.why stop.left) }
{
    match bytes.split_at_checked(len) {
        Some((body, rest)) => {
            if is_text(body) {
                Ok(rest)
            } else {
                Err(Stop {
                    why: Why::NoText,
                    left,
                })
            }
        }
        None => Err(Stop {
            why: Why::Cut,
            left: 0,
        }),
    }
}

/// Compares the encodings of two keys in this order.
pub fn compare_keys(order: Order, key: &[u8], other: &[u8]) -> Ordering
    ensures { MatchOrdering result (Precedes order key.now other.now) (key.now ≡ other.now)
        (Precedes order other.now key.now) }
{
    match order {
        Order::Bytewise => key.cmp(other),
        Order::LengthFirst => {
            if key.len() < other.len() {
                Ordering::Less
            } else if key.len() > other.len() {
                Ordering::Greater
            } else {
                key.cmp(other)
            }
        }
    }
}

/// Returns why a key may not follow the key `above`, if it may not.
fn check_order(order: Order, above: &[u8], key: &[u8]) -> Option<Why>
    ensures { MatchOption result (Precedes order above.now key.now) (λ why. FailsOrder order above.now key.now why) }
{
    match compare_keys(order, above, key) {
        Ordering::Less => None,
        Ordering::Equal => Some(Why::DuplicateKey),
        Ordering::Greater => Some(Why::KeyOrder),
    }
}

/// Returns the rest after one item, with tags, arrays and maps nested at most `depth` levels deep.
#[cycle(nests)]
#[inline(always)]
pub(crate) fn skip_item(bytes: &[u8], depth: usize, order: Order) -> Result<&[u8], Stop>
    ensures { MatchResult result (λ rest. InFront (IsDeterministic order depth) bytes.now rest.now)
        (λ stop. FailsItem order depth bytes.now stop.why stop.left) }
{
    let len = flat_len(bytes);
    if len > 0 {
        return Ok(&bytes[len..]);
    }
    skip_titled(bytes, depth, order)
}

/// Does what [`skip_item`] does, by the title at the start.
#[cycle(nests)]
fn skip_titled(bytes: &[u8], depth: usize, order: Order) -> Result<&[u8], Stop>
    ensures { MatchResult result (λ rest. InFront (IsDeterministic order depth) bytes.now rest.now)
        (λ stop. FailsItem order depth bytes.now stop.why stop.left) }
{
    match next_preferred(bytes) {
        Ok((header, rest)) => skip_rest(header, rest, depth, order, bytes.len()),
        Err(why) => Err(Stop {
            why,
            left: bytes.len(),
        }),
    }
}

/// Returns the rest after the contents of an item with this header. Its title begins `left` bytes before the end.
#[cycle(nests)]
fn skip_rest(
    header: Header,
    bytes: &[u8],
    depth: usize,
    order: Order,
    left: usize,
) -> Result<&[u8], Stop>
    requires { IsIndefinite header → ⊥ }
    ensures { MatchResult result (λ rest. InFront (Completes order depth header) bytes.now rest.now)
        (λ stop. FailsWithin order depth header left bytes.now stop.why stop.left) }
{
    match header {
        Header::Positive(_) | Header::Negative(_) | Header::Simple(_) | Header::Float(_) => {
            Ok(bytes)
        }
        Header::Bytes(Some(len)) => skip_body(bytes, len),
        Header::Text(Some(len)) => skip_text(bytes, len, left),
        Header::Tag(_) if depth > 0 => skip_item(bytes, depth - 1, order),
        Header::Array(Some(count)) if depth > 0 => skip_items(bytes, count, depth - 1, order),
        Header::Map(Some(count)) if depth > 0 => skip_pairs(bytes, count, depth - 1, order),
        Header::Tag(_) | Header::Array(Some(_)) | Header::Map(Some(_)) => Err(Stop {
            why: Why::Deep,
            left,
        }),
        Header::Break
        | Header::Bytes(None)
        | Header::Text(None)
        | Header::Array(None)
        | Header::Map(None) => unreachable!(),
    }
}

/// Returns the rest after `count` items.
#[cycle(nests)]
fn skip_items(bytes: &[u8], count: usize, depth: usize, order: Order) -> Result<&[u8], Stop>
    ensures { MatchResult result (λ rest. InFront (AreDeterministic order depth count) bytes.now rest.now)
        (λ stop. FailsItems order depth count bytes.now stop.why stop.left) }
{
    let mut rest = bytes;
    let mut due = count;
    'items: while due > 0 {
        let run = flat_run(rest, due);
        if run.left == 0 {
            return Ok(&rest[run.len..]);
        }
        rest = skip_titled(&rest[run.len..], depth, order)?;
        due = run.left - 1;
    }
    Ok(rest)
}

/// Returns the rest after `count` pairs, whose keys ascend.
#[cycle(nests)]
fn skip_pairs(bytes: &[u8], count: usize, depth: usize, order: Order) -> Result<&[u8], Stop>
    ensures { MatchResult result (λ rest. InFront (AreSortedPairs order depth count []) bytes.now rest.now)
        (λ stop. FailsPairs order depth count [] bytes.now stop.why stop.left) }
{
    let mut rest = bytes;
    let mut above = &bytes[..0];
    let mut due = count;
    'pairs: while due > 0 {
        let after = skip_item(rest, depth, order)?;
        let key = &rest[..rest.len() - after.len()];
        if let Some(why) = check_order(order, above, key) {
            return Err(Stop {
                why,
                left: rest.len(),
            });
        }
        rest = skip_item(after, depth, order)?;
        above = key;
        due -= 1;
    }
    Ok(rest)
}
