//! The items of an array and the pairs of a map.

ghost use Rattle.std.specs.Prelude.{◌≡◌, ◌<◌, ◌≤◌, ◌-◌, ◌++◌, [], ◌∷◌, IfSome, length, take};
ghost use Rattle.std.specs.Iterator.{at_most};
ghost use Rattle.ciborium_ll_grammar.specs.declared.limits.TheConstants.{MOST_LEVELS};
ghost use Rattle.cbor_view.specs.Views.{HasItems, HasPairs, closed, one_less};

use crate::item::{Item, next_item};
use std::iter::FusedIterator;

/// The items of an array that are left, without the break of an indefinite form.
#[derive(Clone, Copy, Drop)]
pub struct Elements<'a> {
    pub(crate) rest: &'a [u8],
    pub(crate) due: Option<usize>,
    pub(crate) depth: usize,
    ghost shallow: { depth ≤ MOST_LEVELS },
    ghost are: { ∥ HasItems depth due rest.now ∥₁ },
}

/// The pairs of a map that are left, without the break of an indefinite form.
#[derive(Clone, Copy, Drop)]
pub struct Entries<'a> {
    pub(crate) rest: &'a [u8],
    pub(crate) due: Option<usize>,
    pub(crate) depth: usize,
    ghost shallow: { depth ≤ MOST_LEVELS },
    ghost are: { ∥ HasPairs depth due rest.now ∥₁ },
}

/// Returns the contents of an array or a map without the break that ends an indefinite form.
pub(crate) fn without_break(due: Option<usize>, contents: &[u8]) -> &[u8]
    requires { due ≡ None → contents.now ≡ take (length contents.now - 1) contents.now ++ 0xff ∷ [] }
    ensures { contents.now ≡ closed due result.now }
{
    match due {
        Some(_) => contents,
        None => &contents[..contents.len() - 1],
    }
}

/// Returns the count less one, if there is a count.
fn one_less(due: Option<usize>) -> Option<usize>
    requires { IfSome due (λ count. 0 < count) }
    ensures { result ≡ one_less due }
{
    match due {
        Some(count) => Some(count - 1),
        None => None,
    }
}

impl<'a> Elements<'a> {
    ghost use Rattle.cbor_view.specs.Held.{elements_due};

    /// Returns how many items are left, or `None` for an indefinite length.
    pub fn left(&self) -> Option<usize>
        ensures { result ≡ elements_due self.now }
    {
        self.due
    }
}

impl<'a> Iterator for Elements<'a> {
    ghost use Rattle.cbor_view.specs.Held.{elements_bytes};
    ghost use Rattle.cbor_view.specs.Nexts.{GivesItem};

    type Item = Item<'a>;

    ghost next_gives = { GivesItem };

    ghost remaining = { λ elements. at_most (length (elements_bytes elements)) };

    /// Returns the next item.
    fn next(&mut self) -> Option<Item<'a>> {
        if self.rest.is_empty() {
            return None;
        }
        let Ok((item, rest)) = next_item(self.rest, self.depth) else {
            unreachable!()
        };
        self.rest = rest;
        self.due = one_less(self.due);
        Some(item)
    }
}

impl<'a> FusedIterator for Elements<'a> {}

impl<'a> Entries<'a> {
    ghost use Rattle.cbor_view.specs.Held.{entries_due};

    /// Returns how many pairs are left, or `None` for an indefinite length.
    pub fn left(&self) -> Option<usize>
        ensures { result ≡ entries_due self.now }
    {
        self.due
    }
}

impl<'a> Iterator for Entries<'a> {
    ghost use Rattle.cbor_view.specs.Held.{entries_bytes};
    ghost use Rattle.cbor_view.specs.Nexts.{GivesPair};

    type Item = (Item<'a>, Item<'a>);

    ghost next_gives = { GivesPair };

    ghost remaining = { λ entries. at_most (length (entries_bytes entries)) };

    /// Returns the next key and its value.
    fn next(&mut self) -> Option<(Item<'a>, Item<'a>)> {
        if self.rest.is_empty() {
            return None;
        }
        let Ok((key, after)) = next_item(self.rest, self.depth) else {
            unreachable!()
        };
        let Ok((value, last)) = next_item(after, self.depth) else {
            unreachable!()
        };
        self.rest = last;
        self.due = one_less(self.due);
        Some((key, value))
    }
}

impl<'a> FusedIterator for Entries<'a> {}
