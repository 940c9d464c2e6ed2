//! A signed message, COSE_Sign1 (RFC 9052, 4.2), whose parts are views of the bytes.

ghost use Rattle.std.specs.Prelude.{◌≡◌, ◌↔◌, List, ℕ, suc, Option, Some, IfErr, IfOk, IsOk, MatchOption};
ghost use Rattle.cbor_view.specs.Held.{elements_due, item_bytes};
ghost use Rattle.cbor_view.specs.Nexts.{TakesItem};
ghost use Rattle.uses.specs.CoseView.{BeginsMessage, FailsMessage, IsFour, IsMessage, IsNoSign1};
ghost use Rattle.uses.specs.CoseView.{IsPayloadOf, IsTagged, payload_body};

use cbor_view::{Elements, Fault, Item};
use ciborium_ll::simple;

/// The greatest depth of nesting of a message, with its tag, its array and its map.
pub const MESSAGE_DEPTH: usize = 18;

/// The tag of a COSE_Sign1 (RFC 9052, 2).
const SIGN1: u64 = 18;

/// The number of the parts of a COSE_Sign1 (RFC 9052, 4.2).
const PARTS: usize = 4;

/// The parts of a COSE_Sign1, as they stand in the bytes.
#[derive(Clone, Copy)]
pub struct Message<'a> {
    /// The protected header parameters, as a byte string holds them.
    pub protected: &'a [u8],
    /// The map of the unprotected header parameters.
    pub unprotected: Item<'a>,
    /// The payload, or `None` if it is detached.
    pub payload: Option<&'a [u8]>,
    /// The signature.
    pub signature: &'a [u8],
}

/// Why no message was read.
#[derive(Debug, Clone, Copy, PartialEq, Eq)]
pub enum MessageError {
    /// No item begins the bytes, for this reason.
    Item(Fault),
    /// The item is no tagged COSE_Sign1.
    NoSign1,
}

/// Returns the parts of the tagged COSE_Sign1 (RFC 9052, 4.2) with which the bytes begin.
///
/// The COSE_Sign1 is tag 18 and an array of four: a byte string, a map, a byte string or null, and a byte string. The
/// array and the byte strings have definite lengths. Titles may have any spelling. The map may be nested 16 levels
/// deep. The call tests no other contents.
///
/// # Errors
///
/// - `Item`: no item begins the bytes.
/// - `NoSign1`: the item is no tagged COSE_Sign1.
pub fn view_sign1(bytes: &[u8]) -> Result<Message<'_>, MessageError>
    ensures begins { IfOk result (BeginsMessage bytes.now) }
    ensures exactly { IsOk result ↔ ((message : Message) × BeginsMessage bytes.now message) }
    ensures fails { IfErr result (FailsMessage bytes.now) }
{
    let item = match Item::parse(bytes, MESSAGE_DEPTH) {
        Ok(item) => item,
        Err(fault) => return Err(MessageError::Item(fault)),
    };
    match message_of(&item) {
        Some(message) => Ok(message),
        None => Err(MessageError::NoSign1),
    }
}

/// Returns the parts of a message.
fn message_of<'a>(item: &Item<'a>) -> Option<Message<'a>>
    ensures { MatchOption result (IsNoSign1 (item_bytes item.now)) (IsMessage (item_bytes item.now)) }
{
    let Some(inner) = find_tagged(item) else {
        return None;
    };
    let Some((first, second, third, fourth)) = four_of(&inner) else {
        return None;
    };
    let Some(protected) = first.byte_string() else {
        return None;
    };
    let Some(_pairs) = second.entries() else {
        return None;
    };
    let Some(payload) = payload_of(&third) else {
        return None;
    };
    let Some(signature) = fourth.byte_string() else {
        return None;
    };
    Some(Message {
        protected,
        unprotected: second,
        payload,
        signature,
    })
}

/// Returns the item with the tag of a COSE_Sign1.
fn find_tagged<'a>(item: &Item<'a>) -> Option<Item<'a>>
    ensures { MatchOption result ((inner : List ℕ) → IsTagged (item_bytes item.now) inner → ⊥)
        (λ inner. IsTagged (item_bytes item.now) (item_bytes inner)) }
{
    let Some((number, inner)) = item.tag() else {
        return None;
    };
    if number == SIGN1 { Some(inner) } else { None }
}

/// Returns the items of an array of four.
fn four_of<'a>(item: &Item<'a>) -> Option<(Item<'a>, Item<'a>, Item<'a>, Item<'a>)>
    ensures { MatchOption result
        ((first second third fourth : List ℕ) → IsFour (item_bytes item.now) first second third fourth → ⊥)
        (λ four. IsFour (item_bytes item.now) (item_bytes four.0) (item_bytes four.1) (item_bytes four.2)
        (item_bytes four.3)) }
{
    let Some(mut items) = item.elements() else {
        return None;
    };
    if items.left() != Some(PARTS) {
        return None;
    }
    let first = next_item(&mut items);
    let second = next_item(&mut items);
    let third = next_item(&mut items);
    let fourth = next_item(&mut items);
    Some((first, second, third, fourth))
}

/// Returns the next of the items that are left.
fn next_item<'a>(items: &mut Elements<'a>) -> Item<'a>
    requires { (count : ℕ) × (elements_due items.old ≡ Some (suc count)) }
    ensures { TakesItem items.old result items.new }
{
    match items.next() {
        Some(item) => item,
        None => unreachable!(),
    }
}

/// Returns the payload, or `None` in it for null.
fn payload_of<'a>(item: &Item<'a>) -> Option<Option<&'a [u8]>>
    ensures { MatchOption result ((body : Option (List ℕ)) → IsPayloadOf (item_bytes item.now) body → ⊥)
        (λ body. IsPayloadOf (item_bytes item.now) (payload_body body)) }
{
    if item.simple() == Some(simple::NULL) {
        return Some(None);
    }
    match item.byte_string() {
        Some(body) => Some(Some(body)),
        None => None,
    }
}
