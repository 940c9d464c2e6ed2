//! The items in an item, one after the other.

ghost use Rattle.std.specs.Prelude.{◌≡◌, List, ℕ, MatchOption};
ghost use Rattle.cbor_view.specs.Views.{closed};
ghost use Rattle.capi.specs.Viewing.{AreNested, AreStrings, AreWithin, HasWithin, ListsItems, StepsOn};

use crate::answer::CllAnswer;
use crate::item::CllItem;
use cbor_view::{Item, next_title};
use ciborium_ll::Header;
use ciborium_ll_grammar::limits::MOST_LEVELS;

/// The byte of a break.
const BREAK: u8 = 0xff;

/// The items in an item that are left, joined, without the break of an indefinite form.
#[derive(Clone, Copy)]
#[repr(C)]
pub struct CllItems<'a> {
    /// The bytes of the items.
    pub bytes: &'a [u8],
    /// How many levels each of them may take.
    pub depth: u32,
}

/// Returns the contents of an array or a map without the break that ends an indefinite form, or `None` if no break ends
/// them.
fn unclosed(count: Option<usize>, contents: &[u8]) -> Option<&[u8]>
    ensures { MatchOption result ((items : List ℕ) → contents.now ≡ closed count items → ⊥)
        (λ items. contents.now ≡ closed count items.now) }
{
    if count.is_some() {
        return Some(contents);
    }
    let Some((last, items)) = contents.split_last() else {
        return None;
    };
    if *last == BREAK { Some(items) } else { None }
}

/// Returns the items in the contents of an array, a map or a tag, and their levels.
fn nested(count: Option<usize>, contents: &[u8], depth: u32) -> Option<(&[u8], u32)>
    ensures { MatchOption result
        ((items : List ℕ) (levels : ℕ) → AreNested count depth contents.now items levels → ⊥)
        (λ found. AreNested count depth contents.now found.0.now found.1) }
{
    let Some(levels) = depth.checked_sub(1) else {
        return None;
    };
    match unclosed(count, contents) {
        Some(items) => Some((items, levels)),
        None => None,
    }
}

/// Returns the strings in the contents of a string, if it is of indefinite length.
fn strings(len: Option<usize>, contents: &[u8], depth: u32) -> Option<(&[u8], u32)>
    ensures { MatchOption result
        ((items : List ℕ) (levels : ℕ) → AreStrings len depth contents.now items levels → ⊥)
        (λ found. AreStrings len depth contents.now found.0.now found.1) }
{
    if len.is_some() {
        return None;
    }
    match unclosed(None, contents) {
        Some(items) => Some((items, depth)),
        None => None,
    }
}

/// Returns the items in the contents after a title of this header, and their levels.
fn within(header: Header, contents: &[u8], depth: u32) -> Option<(&[u8], u32)>
    ensures { MatchOption result ((items : List ℕ) (levels : ℕ) → AreWithin header depth contents.now items levels → ⊥)
        (λ found. AreWithin header depth contents.now found.0.now found.1) }
{
    match header {
        Header::Array(count) => nested(count, contents, depth),
        Header::Map(count) => nested(count, contents, depth),
        Header::Tag(_) => nested(Some(1), contents, depth),
        Header::Bytes(len) => strings(len, contents, depth),
        Header::Text(len) => strings(len, contents, depth),
        _ => None,
    }
}

/// Returns the items in the item that the bytes are, and their levels.
fn items_of(bytes: &[u8], depth: u32) -> Option<(&[u8], u32)>
    ensures { MatchOption result ((items : List ℕ) (levels : ℕ) → HasWithin depth bytes.now items levels → ⊥)
        (λ found. HasWithin depth bytes.now found.0.now found.1) }
{
    let Some((header, contents)) = next_title(bytes) else {
        return None;
    };
    within(header, contents, depth)
}

/// Lists the items in an item.
pub(crate) fn list<'a>(item: &CllItem<'a>, items: &mut CllItems<'a>) -> CllAnswer
    ensures { ListsItems item.now result items.old items.new }
{
    match items_of(item.bytes, item.depth) {
        Some((bytes, depth)) => {
            items.bytes = bytes;
            items.depth = depth;
            CllAnswer::Ok
        }
        None => CllAnswer::Absent,
    }
}

/// Takes the first item that is left.
pub(crate) fn next<'a>(items: &mut CllItems<'a>, item: &mut CllItem<'a>) -> CllAnswer
    ensures { StepsOn result items.old item.old items.new item.new }
{
    if items.bytes.is_empty() {
        return CllAnswer::Absent;
    }
    if items.depth as usize > MOST_LEVELS {
        return CllAnswer::Argument;
    }
    match Item::parse_prefix(items.bytes, items.depth as usize) {
        Ok((first, rest)) => {
            item.bytes = first.bytes();
            item.depth = items.depth;
            items.bytes = rest;
            CllAnswer::Ok
        }
        Err(_) => CllAnswer::Argument,
    }
}
