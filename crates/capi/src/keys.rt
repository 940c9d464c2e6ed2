//! The value of a key of a map.

ghost use Rattle.std.specs.Prelude.{◌≡◌, ◌+◌, IfSome, MatchOption};
ghost use Rattle.ciborium_ll_text.specs.Text.{IsCharacters};
ghost use Rattle.cbor_view.specs.Held.{item_bytes, item_depth};
ghost use Rattle.cbor_view.specs.Pairs.{HasFirst, HasNone};
ghost use Rattle.cbor_view.specs.Segments.{SpellsText};
ghost use Rattle.capi.specs.declared.answer.CllAnswer.TheVariants as a;
ghost use Rattle.capi.specs.Viewing.{Finds, IsInteger, integer_of};

use crate::answer::CllAnswer;
use crate::item::{CllItem, whole};
use cbor_view::Item;
use ciborium_ll_text::state::text_of;

/// Hands out the value that was found in an item of this depth.
fn hand_out<'a>(found: Option<Item<'a>>, depth: u32, value: &mut CllItem<'a>) -> CllAnswer
    requires { IfSome found (λ item. depth ≡ item_depth item + 1) }
    ensures { MatchOption found.entry ((result ≡ a.Absent) × (value.new ≡ value.old))
        (λ item. (result ≡ a.Ok) × (value.new.bytes.now ≡ item_bytes item) × (depth ≡ value.new.depth + 1)) }
{
    match found {
        Some(item) => {
            value.bytes = item.bytes();
            value.depth = depth - 1;
            CllAnswer::Ok
        }
        None => CllAnswer::Absent,
    }
}

/// Gives the value of the first key with these bytes.
pub(crate) fn by_bytes<'a>(item: &CllItem<'a>, key: &[u8], value: &mut CllItem<'a>) -> CllAnswer
    ensures { Finds (λ other. other ≡ key.now) item.now result value.old value.new }
{
    match whole(item) {
        Some(view) => hand_out(view.get(key), item.depth, value),
        None => CllAnswer::Argument,
    }
}

/// Gives the value of the first key that is this text.
pub(crate) fn by_text<'a>(item: &CllItem<'a>, key: &str, value: &mut CllItem<'a>) -> CllAnswer
    ensures { Finds (λ other. ∥ SpellsText other key.now ∥₁) item.now result value.old value.new }
{
    match whole(item) {
        Some(view) => hand_out(view.get_text(key), item.depth, value),
        None => CllAnswer::Argument,
    }
}

/// Returns whether an integer is negative, and the number of its title.
pub(crate) fn parts_of(key: i64) -> (bool, u64)
    ensures { key ≡ integer_of result.0 result.1 }
{
    let size = key.unsigned_abs();
    if key < 0 {
        (true, size - 1)
    } else {
        (false, size)
    }
}

/// Returns the value of the first key that is this integer.
fn value_of_integer<'a>(view: &Item<'a>, is_negative: bool, number: u64) -> Option<Item<'a>>
    ensures found { MatchOption result
        (HasNone (IsInteger (integer_of is_negative number)) (item_depth view.now) (item_bytes view.now))
        (λ item. HasFirst (IsInteger (integer_of is_negative number)) (item_depth view.now) (item_bytes view.now)
        (item_bytes item)) }
    ensures depth { IfSome result (λ item. item_depth view.now ≡ item_depth item + 1) }
{
    if is_negative {
        view.get_negative(number)
    } else {
        view.get_positive(number)
    }
}

/// Gives the value of the first key that is this integer.
pub(crate) fn by_integer<'a>(
    item: &CllItem<'a>,
    is_negative: bool,
    number: u64,
    value: &mut CllItem<'a>,
) -> CllAnswer
    ensures { Finds (IsInteger (integer_of is_negative number)) item.now result value.old value.new }
{
    match whole(item) {
        Some(view) => {
            let found = value_of_integer(&view, is_negative, number);
            hand_out(found, item.depth, value)
        }
        None => CllAnswer::Argument,
    }
}
