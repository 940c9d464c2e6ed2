//! An item in the deterministic encoding, as it stands in memory. A call that passes items reads each byte of them
//! once.

ghost use Rattle.std.specs.Prelude.{◌≡◌, ◌↔◌, ◌++◌, ◌+◌, ◌≤◌, ℕ, List, IfErr, IfOk, IsTrue, MatchOption};
ghost use Rattle.std.specs.Prelude.{IfSome, Some, length};
ghost use Rattle.ciborium_ll_grammar.specs.Title.{IsInRange, shortest_title};
ghost use Rattle.ciborium_ll_grammar.specs.declared.hdr.Float.{Float as AnyFloat};
ghost use Rattle.cbor_deterministic.specs.Preferred.{IsPreferredTitle};
ghost use Rattle.cbor_deterministic.specs.Deterministic.{IsDeterministic, AreDeterministic};
ghost use Rattle.cbor_deterministic.specs.Refusals.{FailsItem, HasRefusal};
ghost use Rattle.cbor_deterministic.specs.Views.{Opens, HasPairs, HasKey, HasNoKey, IsPairOf, IsBytesOf, IsTextOf};
ghost use Rattle.cbor_deterministic.specs.Views.{IsOpenedBy};

use crate::items::{compare_keys, skip_item};
use crate::title::next_preferred;
use crate::{MAX_DEPTH, Order, Refusal, Stop};
use ciborium_ll_grammar::hdr::{Float, Header};
use ciborium_ll_text::state::text_of;
use std::cmp::Ordering;

/// A checked item in the deterministic encoding. A copy takes no memory. A call for one kind of item returns `None` for
/// any other item.
#[derive(Clone, Copy)]
pub struct Item<'a> {
    bytes: &'a [u8],
    depth: usize,
    order: Order,
    ghost is: { ∥ IsDeterministic order depth bytes.now ∥₁ },
}

/// The items of an array that are left.
#[derive(Clone, Copy)]
pub struct Elements<'a> {
    rest: &'a [u8],
    due: usize,
    depth: usize,
    order: Order,
    ghost are: { ∥ AreDeterministic order depth due rest.now ∥₁ },
}

/// The pairs of a map that are left.
#[derive(Clone, Copy)]
pub struct Entries<'a> {
    rest: &'a [u8],
    due: usize,
    depth: usize,
    order: Order,
    ghost are: { ∥ HasPairs order depth due rest.now ∥₁ },
}

/// Returns the item at the start, and the rest.
fn next_item(bytes: &[u8], depth: usize, order: Order) -> Result<(Item, &[u8]), Stop>
    ensures whole { IfOk result (λ found. bytes.now ≡ found.0.bytes.now ++ found.1.now) }
    ensures item { IfOk result (λ found. IsDeterministic order depth found.0.bytes.now) }
    ensures depth { IfOk result (λ found. found.0.depth ≡ depth) }
    ensures order { IfOk result (λ found. found.0.order ≡ order) }
    ensures fails { IfErr result (λ stop. FailsItem order depth bytes.now stop.why stop.left) }
{
    let rest = skip_item(bytes, depth, order)?;
    let item = Item {
        bytes: &bytes[..bytes.len() - rest.len()],
        depth,
        order,
    };
    Ok((item, rest))
}

/// Returns how many items an array has, if the header is that of an array.
fn array_count(header: Header) -> Option<usize>
    ensures { MatchOption result ((count : ℕ) → header ≡ Header.Array (Some count) → ⊥)
        (λ count. header ≡ Header.Array (Some count)) }
{
    match header {
        Header::Array(count) => count,
        _ => None,
    }
}

/// Returns how many pairs a map has, if the header is that of a map.
fn map_count(header: Header) -> Option<usize>
    ensures { MatchOption result ((count : ℕ) → header ≡ Header.Map (Some count) → ⊥)
        (λ count. header ≡ Header.Map (Some count)) }
{
    match header {
        Header::Map(count) => count,
        _ => None,
    }
}

impl<'a> Item<'a> {
    ghost use Rattle.cbor_deterministic.specs.Held.{elements_bytes, elements_depth, elements_due, elements_order};
    ghost use Rattle.cbor_deterministic.specs.Held.{entries_bytes, entries_depth, entries_due, entries_order};
    ghost use Rattle.cbor_deterministic.specs.Held.{item_bytes, item_depth, item_order};

    /// Returns the item at the start of the bytes, as [`crate::deterministic_len`] takes it, and the bytes after it.
    ///
    /// # Errors
    ///
    /// Those of [`crate::deterministic_len`].
    ///
    /// ```rust
    /// let (item, rest) = Item::parse(bytes, 16, Order::Bytewise)?;
    /// ```
    pub fn parse(
        bytes: &'a [u8],
        depth: usize,
        order: Order,
    ) -> Result<(Item<'a>, &'a [u8]), Refusal>
        requires shallow { depth ≤ MAX_DEPTH }
        ensures whole { IfOk result (λ found. bytes.now ≡ item_bytes found.0 ++ found.1.now) }
        ensures item { IfOk result (λ found. IsDeterministic order depth (item_bytes found.0)) }
        ensures depth { IfOk result (λ found. item_depth found.0 ≡ depth) }
        ensures order { IfOk result (λ found. item_order found.0 ≡ order) }
        ensures refused { IfErr result (λ refusal. HasRefusal order depth bytes.now refusal.why refusal.place) }
    {
        match next_item(bytes, depth, order) {
            Ok(found) => Ok(found),
            Err(stop) => Err(stop.refusal(bytes.len())),
        }
    }

    /// Returns the bytes of the item.
    pub fn bytes(&self) -> &'a [u8]
        ensures { result.now ≡ item_bytes self.now }
    {
        self.bytes
    }

    /// Returns the header of the item's title, and the bytes after the title.
    pub fn open(&self) -> (Header, &'a [u8])
        ensures { Opens (item_order self.now) (item_depth self.now) (item_bytes self.now) result.0 result.1.now }
    {
        match next_preferred(self.bytes) {
            Ok(found) => found,
            Err(_) => unreachable!(),
        }
    }

    /// Returns the header, never [`Header::Break`] or of an indefinite form.
    pub fn header(&self) -> Header
        ensures { IsOpenedBy (item_bytes self.now) result }
    {
        self.open().0
    }

    /// Returns the number of an unsigned integer.
    pub fn positive(&self) -> Option<u64>
        ensures { MatchOption result
            ((number : ℕ) → IsPreferredTitle (item_bytes self.now) (Header.Positive number) → ⊥)
            (λ number. IsPreferredTitle (item_bytes self.now) (Header.Positive number)) }
    {
        let (header, _contents) = self.open();
        match header {
            Header::Positive(number) => Some(number),
            _ => None,
        }
    }

    /// Returns the `n` of the negative integer -1 - n.
    pub fn negative(&self) -> Option<u64>
        ensures { MatchOption result
            ((number : ℕ) → IsPreferredTitle (item_bytes self.now) (Header.Negative number) → ⊥)
            (λ number. IsPreferredTitle (item_bytes self.now) (Header.Negative number)) }
    {
        let (header, _contents) = self.open();
        match header {
            Header::Negative(number) => Some(number),
            _ => None,
        }
    }

    /// Returns the number of a simple value.
    pub fn simple(&self) -> Option<u8>
        ensures { MatchOption result ((number : ℕ) → IsPreferredTitle (item_bytes self.now) (Header.Simple number) → ⊥)
            (λ number. IsPreferredTitle (item_bytes self.now) (Header.Simple number)) }
    {
        let (header, _contents) = self.open();
        match header {
            Header::Simple(number) => Some(number),
            _ => None,
        }
    }

    /// Returns the bits of a float with their width. No smaller width holds the float.
    pub fn float(&self) -> Option<Float>
        ensures { MatchOption result
            ((float : AnyFloat) → IsPreferredTitle (item_bytes self.now) (Header.Float float) → ⊥)
            (λ float. IsPreferredTitle (item_bytes self.now) (Header.Float float)) }
    {
        let (header, _contents) = self.open();
        match header {
            Header::Float(float) => Some(float),
            _ => None,
        }
    }

    /// Returns the body of a byte string.
    pub fn byte_string(&self) -> Option<&'a [u8]>
        ensures { MatchOption result ((body : List ℕ) → IsBytesOf (item_bytes self.now) body → ⊥)
            (λ body. IsBytesOf (item_bytes self.now) body.now) }
    {
        let (header, contents) = self.open();
        match header {
            Header::Bytes(_) => Some(contents),
            _ => None,
        }
    }

    /// Returns the body of a text string.
    pub fn text(&self) -> Option<&'a str>
        ensures { MatchOption result ((body : List ℕ) → IsTextOf (item_bytes self.now) body → ⊥)
            (λ body. IsTextOf (item_bytes self.now) body.now) }
    {
        let (header, contents) = self.open();
        match header {
            Header::Text(_) => Some(text_of(contents)),
            _ => None,
        }
    }

    /// Returns the number of a tag and the item that it tags.
    pub fn tag(&self) -> Option<(u64, Item<'a>)>
        ensures { MatchOption result ((number : ℕ) → IsOpenedBy (item_bytes self.now) (Header.Tag number) → ⊥)
            (λ found. Opens (item_order self.now) (item_depth self.now) (item_bytes self.now) (Header.Tag found.0)
            (item_bytes found.1) × (item_depth self.now ≡ item_depth found.1 + 1)
            × (item_order found.1 ≡ item_order self.now)) }
    {
        let (header, contents) = self.open();
        match header {
            Header::Tag(number) => {
                let item = Item {
                    bytes: contents,
                    depth: self.depth - 1,
                    order: self.order,
                };
                Some((number, item))
            }
            _ => None,
        }
    }

    /// Returns the items of an array.
    pub fn elements(&self) -> Option<Elements<'a>>
        ensures { MatchOption result ((count : ℕ) → IsOpenedBy (item_bytes self.now) (Header.Array (Some count)) → ⊥)
            (λ elements. Opens (item_order self.now) (item_depth self.now) (item_bytes self.now)
            (Header.Array (Some (elements_due elements))) (elements_bytes elements)
            × (item_depth self.now ≡ elements_depth elements + 1)
            × (elements_order elements ≡ item_order self.now)) }
    {
        let (header, contents) = self.open();
        match array_count(header) {
            Some(count) => Some(Elements {
                rest: contents,
                due: count,
                depth: self.depth - 1,
                order: self.order,
            }),
            None => None,
        }
    }

    /// Returns how many pairs a map has, and the bytes of them.
    fn pairs(&self) -> Option<(usize, &'a [u8])>
        ensures { MatchOption result ((count : ℕ) → IsOpenedBy (item_bytes self.now) (Header.Map (Some count)) → ⊥)
            (λ found. Opens (item_order self.now) (item_depth self.now) (item_bytes self.now)
            (Header.Map (Some found.0)) found.1.now) }
    {
        let (header, contents) = self.open();
        match map_count(header) {
            Some(count) => Some((count, contents)),
            None => None,
        }
    }

    /// Returns the pairs of a map, in the order of their keys.
    #[tactic(auto, using(crate::proofs::ViewLaws::opened_level, crate::proofs::ViewLaws::opened_pairs))]
    pub fn entries(&self) -> Option<Entries<'a>>
        ensures { MatchOption result ((count : ℕ) → IsOpenedBy (item_bytes self.now) (Header.Map (Some count)) → ⊥)
            (λ entries. Opens (item_order self.now) (item_depth self.now) (item_bytes self.now)
            (Header.Map (Some (entries_due entries))) (entries_bytes entries)
            × (item_depth self.now ≡ entries_depth entries + 1)
            × (entries_order entries ≡ item_order self.now)) }
    {
        match self.pairs() {
            Some((count, contents)) => Some(Entries {
                rest: contents,
                due: count,
                depth: self.depth - 1,
                order: self.order,
            }),
            None => None,
        }
    }
}

impl<'a> Item<'a> {
    ghost use Rattle.cbor_deterministic.specs.Held.{item_bytes, item_depth, item_order};

    /// Returns the value of the key with these bytes, in their deterministic encoding.
    ///
    /// The search stops at the first greater key.
    pub fn get(&self, key: &[u8]) -> Option<Item<'a>>
        ensures found { MatchOption result
            (HasNoKey (item_order self.now) (item_depth self.now) (item_bytes self.now) key.now)
            (λ item. HasKey (item_order self.now) (item_depth self.now) (item_bytes self.now) key.now
            (item_bytes item)) }
        ensures depth { IfSome result (λ item. item_depth self.now ≡ item_depth item + 1) }
        ensures order { IfSome result (λ item. item_order item ≡ item_order self.now) }
    {
        let (header, contents) = self.open();
        match map_count(header) {
            Some(count) => find(contents, count, self.depth - 1, self.order, key),
            None => None,
        }
    }

    /// Returns the value of the key that is this text. The search passes all pairs up to the key.
    pub fn get_text(&self, key: &str) -> Option<Item<'a>>
        ensures found { MatchOption result (HasNoKey (item_order self.now) (item_depth self.now) (item_bytes self.now)
            (shortest_title (Header.Text (Some (length key.now))) ++ key.now))
            (λ item. HasKey (item_order self.now) (item_depth self.now) (item_bytes self.now)
            (shortest_title (Header.Text (Some (length key.now))) ++ key.now) (item_bytes item)) }
        ensures depth { IfSome result (λ item. item_depth self.now ≡ item_depth item + 1) }
        ensures order { IfSome result (λ item. item_order item ≡ item_order self.now) }
    {
        self.get_titled(Header::Text(Some(key.len())), key.as_bytes())
    }

    /// Returns the value of the key that is this unsigned integer, as [`Item::get_text`] does.
    pub fn get_positive(&self, key: u64) -> Option<Item<'a>>
        ensures found { MatchOption result (HasNoKey (item_order self.now) (item_depth self.now) (item_bytes self.now)
            (shortest_title (Header.Positive key)))
            (λ item. HasKey (item_order self.now) (item_depth self.now) (item_bytes self.now)
            (shortest_title (Header.Positive key)) (item_bytes item)) }
        ensures depth { IfSome result (λ item. item_depth self.now ≡ item_depth item + 1) }
        ensures order { IfSome result (λ item. item_order item ≡ item_order self.now) }
    {
        self.get_titled(Header::Positive(key), &[])
    }

    /// Returns the value of the key that is the negative integer -1 - n, as [`Item::get_text`] does.
    pub fn get_negative(&self, n: u64) -> Option<Item<'a>>
        ensures found { MatchOption result (HasNoKey (item_order self.now) (item_depth self.now) (item_bytes self.now)
            (shortest_title (Header.Negative n)))
            (λ item. HasKey (item_order self.now) (item_depth self.now) (item_bytes self.now)
            (shortest_title (Header.Negative n)) (item_bytes item)) }
        ensures depth { IfSome result (λ item. item_depth self.now ≡ item_depth item + 1) }
        ensures order { IfSome result (λ item. item_order item ≡ item_order self.now) }
    {
        self.get_titled(Header::Negative(n), &[])
    }

    /// Returns the value of the key that is the shortest title of this header and these contents.
    fn get_titled(&self, title: Header, body: &[u8]) -> Option<Item<'a>>
        requires { IsInRange title }
        ensures found { MatchOption result (HasNoKey (item_order self.now) (item_depth self.now) (item_bytes self.now)
            (shortest_title title ++ body.now))
            (λ item. HasKey (item_order self.now) (item_depth self.now) (item_bytes self.now)
            (shortest_title title ++ body.now) (item_bytes item)) }
        ensures depth { IfSome result (λ item. item_depth self.now ≡ item_depth item + 1) }
        ensures order { IfSome result (λ item. item_order item ≡ item_order self.now) }
    {
        let (header, contents) = self.open();
        match map_count(header) {
            Some(count) => find_titled(contents, count, self.depth - 1, self.order, title, body),
            None => None,
        }
    }

    /// Returns whether the item is the shortest title of this header and these contents.
    fn is_titled(&self, title: Header, body: &[u8]) -> bool
        requires { IsInRange title }
        ensures { IsTrue result ↔ (item_bytes self.now ≡ shortest_title title ++ body.now) }
    {
        let (header, contents) = self.open();
        is_same_header(header, title) && is_same(contents, body)
    }
}

/// Returns whether the two headers are the same.
fn is_same_header(header: Header, other: Header) -> bool
    ensures { IsTrue result ↔ (header ≡ other) }
{
    header == other
}

/// Returns whether the bytes are the same.
fn is_same(bytes: &[u8], others: &[u8]) -> bool
    ensures { IsTrue result ↔ (bytes.now ≡ others.now) }
{
    bytes == others
}

/// Returns the value of the key with these bytes among `count` pairs, whose keys ascend.
fn find<'a>(
    pairs: &'a [u8],
    count: usize,
    depth: usize,
    order: Order,
    key: &[u8],
) -> Option<Item<'a>>
    requires { ∥ HasPairs order depth count pairs.now ∥₁ }
    ensures found { MatchOption result ((value : List ℕ) → IsPairOf order depth pairs.now key.now value → ⊥)
        (λ item. IsPairOf order depth pairs.now key.now item.bytes.now) }
    ensures depth { IfSome result (λ item. item.depth ≡ depth) }
    ensures order { IfSome result (λ item. item.order ≡ order) }
{
    let mut rest = pairs;
    let mut due = count;
    'pairs: while due > 0 {
        let Ok((other, after)) = next_item(rest, depth, order) else {
            unreachable!()
        };
        let Ok((value, last)) = next_item(after, depth, order) else {
            unreachable!()
        };
        match compare_keys(order, other.bytes, key) {
            Ordering::Less => {}
            Ordering::Equal => return Some(value),
            // The keys ascend, so no later key is this key.
            Ordering::Greater => return None,
        }
        rest = last;
        due -= 1;
    }
    None
}

/// Returns the value of the key that is the shortest title of this header and these contents, among `count` pairs.
fn find_titled<'a>(
    pairs: &'a [u8],
    count: usize,
    depth: usize,
    order: Order,
    title: Header,
    body: &[u8],
) -> Option<Item<'a>>
    requires range { IsInRange title }
    requires pairs { ∥ HasPairs order depth count pairs.now ∥₁ }
    ensures found { MatchOption result
        ((value : List ℕ) → IsPairOf order depth pairs.now (shortest_title title ++ body.now) value → ⊥)
        (λ item. IsPairOf order depth pairs.now (shortest_title title ++ body.now) item.bytes.now) }
    ensures depth { IfSome result (λ item. item.depth ≡ depth) }
    ensures order { IfSome result (λ item. item.order ≡ order) }
{
    let mut rest = pairs;
    let mut due = count;
    'pairs: while due > 0 {
        let Ok((other, after)) = next_item(rest, depth, order) else {
            unreachable!()
        };
        let Ok((value, last)) = next_item(after, depth, order) else {
            unreachable!()
        };
        if other.is_titled(title, body) {
            return Some(value);
        }
        rest = last;
        due -= 1;
    }
    None
}

impl<'a> Elements<'a> {
    ghost use Rattle.cbor_deterministic.specs.Held.{elements_bytes, elements_depth, elements_due, elements_order};
    ghost use Rattle.cbor_deterministic.specs.Held.{item_bytes, item_depth, item_order};

    /// Returns how many items are left.
    pub fn left(&self) -> usize
        ensures { result ≡ elements_due self.now }
    {
        self.due
    }

    /// Returns the next item, or `None` after the last item.
    pub fn next(&mut self) -> Option<Item<'a>>
        ensures next { MatchOption result ((elements_due self.old ≡ 0) × (elements_due self.new ≡ 0)
            × (elements_bytes self.new ≡ elements_bytes self.old))
            (λ item. (elements_bytes self.old ≡ item_bytes item ++ elements_bytes self.new)
            × (elements_due self.old ≡ elements_due self.new + 1) × (item_depth item ≡ elements_depth self.old)
            × (item_order item ≡ elements_order self.old)) }
        ensures depth { elements_depth self.new ≡ elements_depth self.old }
        ensures order { elements_order self.new ≡ elements_order self.old }
    {
        if self.due == 0 {
            return None;
        }
        let Ok((item, rest)) = next_item(self.rest, self.depth, self.order) else {
            unreachable!()
        };
        self.rest = rest;
        self.due -= 1;
        Some(item)
    }
}

impl<'a> Entries<'a> {
    ghost use Rattle.cbor_deterministic.specs.Held.{entries_bytes, entries_depth, entries_due, entries_order};
    ghost use Rattle.cbor_deterministic.specs.Held.{item_bytes, item_depth, item_order};

    /// Returns how many pairs are left.
    pub fn left(&self) -> usize
        ensures { result ≡ entries_due self.now }
    {
        self.due
    }

    /// Returns the next key and its value, or `None` after the last pair.
    pub fn next(&mut self) -> Option<(Item<'a>, Item<'a>)>
        ensures next { MatchOption result ((entries_due self.old ≡ 0) × (entries_due self.new ≡ 0)
            × (entries_bytes self.new ≡ entries_bytes self.old))
            (λ pair. (entries_bytes self.old ≡ item_bytes pair.0 ++ (item_bytes pair.1 ++ entries_bytes self.new))
            × (entries_due self.old ≡ entries_due self.new + 1)) }
        ensures key { IfSome result (λ pair. (item_depth pair.0 ≡ entries_depth self.old)
            × (item_order pair.0 ≡ entries_order self.old)) }
        ensures value { IfSome result (λ pair. (item_depth pair.1 ≡ entries_depth self.old)
            × (item_order pair.1 ≡ entries_order self.old)) }
        ensures depth { entries_depth self.new ≡ entries_depth self.old }
        ensures order { entries_order self.new ≡ entries_order self.old }
    {
        if self.due == 0 {
            return None;
        }
        let Ok((key, after)) = next_item(self.rest, self.depth, self.order) else {
            unreachable!()
        };
        let Ok((value, last)) = next_item(after, self.depth, self.order) else {
            unreachable!()
        };
        self.rest = last;
        self.due -= 1;
        Some((key, value))
    }
}
