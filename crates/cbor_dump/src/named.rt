//! The keys that items are.

ghost use Rattle.std.specs.Prelude.{ℕ, List, []};
ghost use Rattle.ciborium_ll.specs.Strings.{kind_header};
ghost use Rattle.cbor_dump.specs.Keys.{IsKeyOf, IsKept};
ghost use Rattle.cbor_dump.specs.StringRows.{kind_of};
ghost use Rattle.cbor_dump.specs.Walks.{IsItemAlone};

use crate::key::{Key, KeyBody, MOST_KEY};
use crate::strings::Kind;
use ciborium_ll::Header;

/// Returns the key that an item without a body is.
pub(crate) fn key_alone(header: Header) -> Key
    requires value { IsItemAlone header }
    ensures { IsKeyOf header [] result }
{
    match header {
        Header::Positive(number) => Key::Positive(number),
        Header::Negative(number) => Key::Negative(number),
        _ => Key::Other,
    }
}

/// Returns the key that a string is, if its body was kept.
pub(crate) fn key_string(kind: Kind, len: Option<usize>, kept: KeyBody) -> Key
    ensures { (rest : List ℕ) → IsKept len rest kept → IsKeyOf (kind_header (kind_of kind) len) rest result }
{
    match (len, kind) {
        (Some(len), Kind::Text) if len <= MOST_KEY => Key::Text(kept),
        (Some(len), Kind::Bytes) if len <= MOST_KEY => Key::Bytes(kept),
        _ => Key::Other,
    }
}
