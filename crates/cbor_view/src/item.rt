//! An item in memory, and its parts.

ghost use Rattle.std.specs.Prelude.{◌≡◌, ◌↔◌, ◌++◌, ◌+◌, ◌≤◌, ℕ, List, false, IfErr, IfOk, IsOk};
ghost use Rattle.std.specs.Prelude.{MatchOption, Option, Some};
ghost use Rattle.ciborium_ll_grammar.specs.declared.spelling.Spelling.TheVariants.{Any};
ghost use Rattle.ciborium_ll_grammar.specs.Title.{IsTitle};
ghost use Rattle.ciborium_ll_grammar.specs.Items.{IsItem};
ghost use Rattle.ciborium_ll_grammar.specs.declared.hdr.Float.{Float as AnyFloat};
ghost use Rattle.ciborium_ll_grammar.specs.declared.limits.TheConstants.{MOST_LEVELS};
ghost use Rattle.cbor_skip.specs.ItemFaults.{BeginsWithItem};
ghost use Rattle.cbor_view.specs.Faults.{HasFault};
ghost use Rattle.ciborium_ll_grammar.specs.Strings.{IsString, Bytes as ByteKind, Text as TextKind};
ghost use Rattle.cbor_view.specs.Pairs.{HasFirst, HasNone, IsKey};
ghost use Rattle.cbor_view.specs.Segments.{IsSegmented, SpellsText};
ghost use Rattle.cbor_view.specs.Views.{IsBytesOf, IsOpenedBy, IsTextOf, Opens, closed};

use crate::MAX_DEPTH;
use crate::nests::{Elements, Entries, without_break};
use crate::parse::{Fault, split_item};
use crate::search::{Key, find};
use crate::segments::{Segments, TextSegments, bytes_len, text_len};
use ciborium_ll_grammar::hdr::{Float, Header};
use ciborium_ll_grammar::titles::next_title;
use ciborium_ll_text::state::text_of;

/// A checked item of CBOR in memory. A copy of it takes no memory.
///
/// It holds its bytes and its depth. A call for one kind of item returns `None` for any other item.
#[derive(Clone, Copy)]
pub struct Item<'a> {
    bytes: &'a [u8],
    depth: usize,
    ghost shallow: { depth ≤ MOST_LEVELS },
    ghost is: { ∥ IsItem Any depth bytes.now ∥₁ },
}

/// Returns the item that begins the bytes, and the rest.
pub(crate) fn next_item(bytes: &[u8], depth: usize) -> Result<(Item, &[u8]), Fault>
    requires shallow { depth ≤ MAX_DEPTH }
    ensures whole { IfOk result (λ found. bytes.now ≡ found.0.bytes.now ++ found.1.now) }
    ensures item { IfOk result (λ found. IsItem Any depth found.0.bytes.now) }
    ensures depth { IfOk result (λ found. found.0.depth ≡ depth) }
    ensures exactly { IsOk result ↔ BeginsWithItem Any depth bytes.now }
    ensures fault { IfErr result (HasFault depth bytes.now) }
{
    match split_item(bytes, depth) {
        Ok((bytes, rest)) => Ok((Item { bytes, depth }, rest)),
        Err(fault) => Err(fault),
    }
}

impl<'a> Item<'a> {
    ghost use Rattle.cbor_view.specs.Held.{elements_bytes, elements_depth, elements_due};
    ghost use Rattle.cbor_view.specs.Held.{entries_bytes, entries_depth, entries_due};
    ghost use Rattle.cbor_view.specs.Held.{item_bytes, item_depth, segments_bytes, texts_bytes};

    /// Parses the item that begins the bytes. Any bytes may follow it.
    ///
    /// Tags, arrays and maps may be nested at most `depth` levels deep. Each takes a level, also an empty one; a string
    /// takes none.
    ///
    /// # Errors
    ///
    /// The faults are those of `cbor_skip::skip_item`:
    ///
    /// - `Short`: the bytes end before the item does.
    /// - `Syntax(offset)`: no title, a title that its string may not contain, or a text that is not UTF-8.
    /// - `Break(offset)`: a break in place of an item.
    /// - `Deep(offset)`: no level is left for a tag, an array or a map.
    pub fn parse(bytes: &'a [u8], depth: usize) -> Result<Item<'a>, Fault>
        requires shallow { depth ≤ MAX_DEPTH }
        ensures whole { IfOk result (λ item. (rest : List ℕ) × (bytes.now ≡ item_bytes item ++ rest)) }
        ensures item { IfOk result (λ item. IsItem Any depth (item_bytes item)) }
        ensures depth { IfOk result (λ item. item_depth item ≡ depth) }
        ensures exactly { IsOk result ↔ BeginsWithItem Any depth bytes.now }
        ensures fault { IfErr result (HasFault depth bytes.now) }
    {
        match next_item(bytes, depth) {
            Ok((item, _)) => Ok(item),
            Err(fault) => Err(fault),
        }
    }

    /// Parses as [`Item::parse`] does, and also returns the bytes after the item.
    ///
    /// # Errors
    ///
    /// Those of [`Item::parse`].
    pub fn parse_prefix(bytes: &'a [u8], depth: usize) -> Result<(Item<'a>, &'a [u8]), Fault>
        requires shallow { depth ≤ MAX_DEPTH }
        ensures whole { IfOk result (λ found. bytes.now ≡ item_bytes found.0 ++ found.1.now) }
        ensures item { IfOk result (λ found. IsItem Any depth (item_bytes found.0)) }
        ensures depth { IfOk result (λ found. item_depth found.0 ≡ depth) }
        ensures exactly { IsOk result ↔ BeginsWithItem Any depth bytes.now }
        ensures fault { IfErr result (HasFault depth bytes.now) }
    {
        next_item(bytes, depth)
    }

    /// Returns the bytes of the item, with its title.
    pub fn bytes(&self) -> &'a [u8]
        ensures { result.now ≡ item_bytes self.now }
    {
        self.bytes
    }

    /// Returns the header of the item's title, and its contents. The contents of an indefinite form end with its break.
    pub fn open(&self) -> (Header, &'a [u8])
        ensures { Opens (item_depth self.now) (item_bytes self.now) result.0 result.1.now }
    {
        match next_title(self.bytes) {
            Some(found) => found,
            None => unreachable!(),
        }
    }

    /// Returns the header, which is never [`Header::Break`].
    pub fn header(&self) -> Header
        ensures { (contents : List ℕ) × Opens (item_depth self.now) (item_bytes self.now) result contents }
    {
        self.open().0
    }

    /// Returns the number of an unsigned integer.
    pub fn positive(&self) -> Option<u64>
        ensures { MatchOption result ((number : ℕ) → IsTitle (item_bytes self.now) (Header.Positive number) → ⊥)
            (λ number. IsTitle (item_bytes self.now) (Header.Positive number)) }
    {
        let (header, _contents) = self.open();
        match header {
            Header::Positive(number) => Some(number),
            _ => None,
        }
    }

    /// Returns the `n` of the negative integer -1 - n.
    pub fn negative(&self) -> Option<u64>
        ensures { MatchOption result ((number : ℕ) → IsTitle (item_bytes self.now) (Header.Negative number) → ⊥)
            (λ number. IsTitle (item_bytes self.now) (Header.Negative number)) }
    {
        let (header, _contents) = self.open();
        match header {
            Header::Negative(number) => Some(number),
            _ => None,
        }
    }

    /// Returns the number of a simple value.
    pub fn simple(&self) -> Option<u8>
        ensures { MatchOption result ((number : ℕ) → IsTitle (item_bytes self.now) (Header.Simple number) → ⊥)
            (λ number. IsTitle (item_bytes self.now) (Header.Simple number)) }
    {
        let (header, _contents) = self.open();
        match header {
            Header::Simple(number) => Some(number),
            _ => None,
        }
    }

    /// Returns the bits of a float with their width.
    pub fn float(&self) -> Option<Float>
        ensures { MatchOption result ((float : AnyFloat) → IsTitle (item_bytes self.now) (Header.Float float) → ⊥)
            (λ float. IsTitle (item_bytes self.now) (Header.Float float)) }
    {
        let (header, _contents) = self.open();
        match header {
            Header::Float(float) => Some(float),
            _ => None,
        }
    }

    /// Returns the body of a byte string of definite length.
    pub fn byte_string(&self) -> Option<&'a [u8]>
        ensures { MatchOption result ((body : List ℕ) → IsBytesOf (item_bytes self.now) body → ⊥)
            (λ body. IsBytesOf (item_bytes self.now) body.now) }
    {
        let (header, contents) = self.open();
        match bytes_len(header) {
            Some(_) => Some(contents),
            None => None,
        }
    }

    /// Returns the body of a text string of definite length.
    pub fn text(&self) -> Option<&'a str>
        ensures { MatchOption result ((body : List ℕ) → IsTextOf (item_bytes self.now) body → ⊥)
            (λ body. IsTextOf (item_bytes self.now) body.now) }
    {
        let (header, contents) = self.open();
        match text_len(header) {
            Some(_) => Some(text_of(contents)),
            None => None,
        }
    }

    /// Returns the segments of a byte string.
    pub fn byte_segments(&self) -> Option<Segments<'a>>
        ensures { MatchOption result ((bodies : List (List ℕ)) → IsString ByteKind (item_bytes self.now) bodies → ⊥)
            (λ segments. IsSegmented ByteKind (item_bytes self.now) (segments_bytes segments)) }
    {
        let (header, _contents) = self.open();
        match header {
            Header::Bytes(_) => Some(Segments { rest: self.bytes }),
            _ => None,
        }
    }

    /// Returns the segments of a text string.
    pub fn text_segments(&self) -> Option<TextSegments<'a>>
        ensures { MatchOption result ((bodies : List (List ℕ)) → IsString TextKind (item_bytes self.now) bodies → ⊥)
            (λ segments. IsSegmented TextKind (item_bytes self.now) (texts_bytes segments)) }
    {
        let (header, _contents) = self.open();
        match header {
            Header::Text(_) => Some(TextSegments { rest: self.bytes }),
            _ => None,
        }
    }

    /// Returns the number of a tag and the item that it tags.
    pub fn tag(&self) -> Option<(u64, Item<'a>)>
        ensures { MatchOption result ((number : ℕ) → IsOpenedBy (item_bytes self.now) (Header.Tag number) → ⊥)
            (λ found. Opens (item_depth self.now) (item_bytes self.now) (Header.Tag found.0) (item_bytes found.1)
            × (item_depth self.now ≡ item_depth found.1 + 1)) }
    {
        let (header, contents) = self.open();
        match header {
            Header::Tag(number) => {
                let item = Item {
                    bytes: contents,
                    depth: self.depth - 1,
                };
                Some((number, item))
            }
            _ => None,
        }
    }

    /// Returns the items of an array.
    pub fn elements(&self) -> Option<Elements<'a>>
        ensures { MatchOption result
            ((count : Option ℕ) → IsOpenedBy (item_bytes self.now) (Header.Array count) → ⊥)
            (λ elements. Opens (item_depth self.now) (item_bytes self.now) (Header.Array (elements_due elements))
            (closed (elements_due elements) (elements_bytes elements))
            × (item_depth self.now ≡ elements_depth elements + 1)) }
    {
        let (header, contents) = self.open();
        match header {
            Header::Array(due) => {
                let items = without_break(due, contents);
                Some(Elements {
                    rest: items,
                    due,
                    depth: self.depth - 1,
                })
            }
            _ => None,
        }
    }

    /// Returns the pairs of a map.
    pub fn entries(&self) -> Option<Entries<'a>>
        ensures { MatchOption result ((count : Option ℕ) → IsOpenedBy (item_bytes self.now) (Header.Map count) → ⊥)
            (λ entries. Opens (item_depth self.now) (item_bytes self.now) (Header.Map (entries_due entries))
            (closed (entries_due entries) (entries_bytes entries))
            × (item_depth self.now ≡ entries_depth entries + 1)) }
    {
        let (header, contents) = self.open();
        match header {
            Header::Map(due) => {
                let pairs = without_break(due, contents);
                Some(Entries {
                    rest: pairs,
                    due,
                    depth: self.depth - 1,
                })
            }
            _ => None,
        }
    }
}

impl<'a> Item<'a> {
    ghost use Rattle.std.specs.Prelude.{IfSome};
    ghost use Rattle.cbor_view.specs.Held.{item_bytes, item_depth};

    /// Returns the value of the first key with these bytes.
    pub fn get(&self, key: &[u8]) -> Option<Item<'a>>
        ensures found { MatchOption result
            (HasNone (λ other. other ≡ key.now) (item_depth self.now) (item_bytes self.now))
            (λ item. HasFirst (λ other. other ≡ key.now) (item_depth self.now) (item_bytes self.now)
            (item_bytes item)) }
        ensures depth { IfSome result (λ item. item_depth self.now ≡ item_depth item + 1) }
    {
        self.get_key(&Key::Bytes(key))
    }

    /// Returns the value of the first key that is this text, in any spelling. The bodies of a text of indefinite length
    /// are joined.
    pub fn get_text(&self, key: &str) -> Option<Item<'a>>
        ensures found { MatchOption result
            (HasNone (λ other. ∥ SpellsText other key.now ∥₁) (item_depth self.now) (item_bytes self.now))
            (λ item. HasFirst (λ other. ∥ SpellsText other key.now ∥₁) (item_depth self.now) (item_bytes self.now)
            (item_bytes item)) }
        ensures depth { IfSome result (λ item. item_depth self.now ≡ item_depth item + 1) }
    {
        self.get_key(&Key::Text(key))
    }

    /// Returns the value of the first key that is this unsigned integer, in any spelling.
    pub fn get_positive(&self, key: u64) -> Option<Item<'a>>
        ensures found { MatchOption result
            (HasNone (λ other. IsTitle other (Header.Positive key)) (item_depth self.now) (item_bytes self.now))
            (λ item. HasFirst (λ other. IsTitle other (Header.Positive key)) (item_depth self.now)
            (item_bytes self.now) (item_bytes item)) }
        ensures depth { IfSome result (λ item. item_depth self.now ≡ item_depth item + 1) }
    {
        self.get_key(&Key::Positive(key))
    }

    /// Returns the value of the first key that is the negative integer -1 - n, in any spelling.
    pub fn get_negative(&self, n: u64) -> Option<Item<'a>>
        ensures found { MatchOption result
            (HasNone (λ other. IsTitle other (Header.Negative n)) (item_depth self.now) (item_bytes self.now))
            (λ item. HasFirst (λ other. IsTitle other (Header.Negative n)) (item_depth self.now)
            (item_bytes self.now) (item_bytes item)) }
        ensures depth { IfSome result (λ item. item_depth self.now ≡ item_depth item + 1) }
    {
        self.get_key(&Key::Negative(n))
    }

    /// Returns the value of the first pair of a map whose key is this one.
    fn get_key(&self, key: &Key) -> Option<Item<'a>>
        ensures found { MatchOption result (HasNone (IsKey key.now) (item_depth self.now) (item_bytes self.now))
            (λ item. HasFirst (IsKey key.now) (item_depth self.now) (item_bytes self.now) (item_bytes item)) }
        ensures depth { IfSome result (λ item. item_depth self.now ≡ item_depth item + 1) }
    {
        match self.entries() {
            Some(pairs) => find(&pairs, key),
            None => None,
        }
    }
}
