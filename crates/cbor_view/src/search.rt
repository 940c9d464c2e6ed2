//! The value of a key of a map.

ghost use Rattle.std.specs.Prelude.{◌≡◌, ◌↔◌, ◌++◌, ℕ, List, IfSome, IsTrue, MatchOption};
ghost use Rattle.std.specs.List.{concat};
ghost use Rattle.ciborium_ll_grammar.specs.Title.{IsTitle};
ghost use Rattle.ciborium_ll_grammar.specs.Strings.{Kind};
ghost use Rattle.ciborium_ll_grammar.specs.declared.hdr.Header.TheVariants as any;
ghost use Rattle.cbor_view.specs.Held.{entries_bytes, entries_depth, item_bytes, item_depth};
ghost use Rattle.cbor_view.specs.Pairs.{IsFirstPair, IsKey, IsPairOf};
ghost use Rattle.cbor_view.specs.Segments.{AreSegments, HasSegments, SpellsText};

use crate::item::Item;
use crate::nests::Entries;
use crate::segments::next_segment;

/// The key that a search looks for.
#[derive(Clone, Copy)]
pub(crate) enum Key<'k> {
    /// The item with these bytes.
    Bytes(&'k [u8]),
    /// This text, in any spelling.
    Text(&'k str),
    /// This unsigned integer, in any spelling.
    Positive(u64),
    /// The negative integer -1 - n, in any spelling.
    Negative(u64),
}

impl<'k> Key<'k> {
    /// Tells whether the item is this key.
    fn is_key(&self, item: &Item) -> bool
        ensures { IsTrue result ↔ IsKey self.now (item_bytes item.now) }
    {
        match *self {
            Key::Bytes(bytes) => is_same(item.bytes(), bytes),
            Key::Text(text) => is_text(item, text),
            Key::Positive(number) => is_positive(item, number),
            Key::Negative(number) => is_negative(item, number),
        }
    }
}

/// Tells whether the two are the same bytes.
fn is_same(bytes: &[u8], others: &[u8]) -> bool
    ensures { IsTrue result ↔ (bytes.now ≡ others.now) }
{
    bytes == others
}

/// Tells whether the item is this unsigned integer.
fn is_positive(item: &Item, number: u64) -> bool
    ensures { IsTrue result ↔ IsTitle (item_bytes item.now) (any.Positive number) }
{
    match item.positive() {
        Some(other) => other == number,
        None => false,
    }
}

/// Tells whether the item is the negative integer -1 - n.
fn is_negative(item: &Item, number: u64) -> bool
    ensures { IsTrue result ↔ IsTitle (item_bytes item.now) (any.Negative number) }
{
    match item.negative() {
        Some(other) => other == number,
        None => false,
    }
}

/// Tells whether the item is this text, of definite or indefinite length.
fn is_text(item: &Item, text: &str) -> bool
    ensures { IsTrue result ↔ ∥ SpellsText (item_bytes item.now) text.now ∥₁ }
{
    match item.text_segments() {
        Some(segments) => are_joined(segments.rest, text.as_bytes()),
        None => false,
    }
}

/// Returns the rest after this front of the bytes, or `None` if they do not begin with it.
fn after_front<'a>(bytes: &'a [u8], front: &[u8]) -> Option<&'a [u8]>
    ensures { MatchOption result ((rest : List ℕ) → bytes.now ≡ front.now ++ rest → ⊥)
        (λ rest. bytes.now ≡ front.now ++ rest.now) }
{
    match bytes.split_at_checked(front.len()) {
        Some((begun, rest)) => {
            if is_same(begun, front) {
                Some(rest)
            } else {
                None
            }
        }
        None => None,
    }
}

/// Tells whether the bodies of these segments, joined, are these bytes.
fn are_joined(segments: &[u8], bytes: &[u8]) -> bool
    requires { ∥ HasSegments segments.now ∥₁ }
    ensures { (kind : Kind) (bodies : List (List ℕ)) → AreSegments kind segments.now bodies
        → (IsTrue result ↔ (concat bodies ≡ bytes.now)) }
{
    let mut rest = segments;
    let mut left = bytes;
    'segments: while let Some((body, after)) = next_segment(rest) {
        let Some(more) = after_front(left, body) else {
            return false;
        };
        left = more;
        rest = after;
    }
    left.is_empty()
}

/// Returns the value of the first of these pairs with this key.
pub(crate) fn find<'a>(pairs: &Entries<'a>, key: &Key) -> Option<Item<'a>>
    ensures found { MatchOption result ((other value : List ℕ)
        → IsPairOf (entries_depth pairs.now) (entries_bytes pairs.now) other value → IsKey key.now other → ⊥)
        (λ item. IsFirstPair (IsKey key.now) (entries_depth pairs.now) (entries_bytes pairs.now) (item_bytes item)) }
    ensures depth { IfSome result (λ item. item_depth item ≡ entries_depth pairs.now) }
{
    let mut left = *pairs;
    'pairs: while let Some((other, value)) = left.next() {
        if key.is_key(&other) {
            return Some(value);
        }
    }
    None
}
