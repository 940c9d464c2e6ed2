// SPDX-License-Identifier: Apache-2.0
//! Writes an item of CBOR as JSON (RFC 8949, section 6.1; RFC 8259). No call takes memory.
#![tactic(auto)]

ghost use Rattle.std.specs.Prelude.{◌≡◌, ◌≤◌};
ghost use Rattle.ciborium_ll.specs.Sides.{sides};
ghost use Rattle.cbor_json.specs.ItemStops.{WritesItem};
ghost use Rattle.cbor_json.specs.Reading.{ReadsWritten};
ghost use Rattle.cbor_json.specs.Roles.{first_role};
ghost use Rattle.ciborium_ll_grammar.specs.declared.limits.TheConstants.{MOST_LEVELS};

mod messages;
mod nests;
mod plain;
mod put;
mod role;
mod scalars;
mod strings;

use self::nests::write_item;
pub use self::role::Mode;
use self::role::Role;
use cbor_skip::SkipError;
use ciborium_ll::io::{Read, Write};
use ciborium_ll::{Decoder, Error, Header};

/// Why an item was not written whole.
#[derive(Debug, Drop)]
pub enum JsonError<E, F> {
    /// The read of the item stopped, for this reason.
    Read(SkipError<E>),
    /// The item at this offset has no JSON.
    NoJson(usize),
    /// The writer failed, with this error.
    Write(F),
}

impl<E, F> From<Error<E>> for JsonError<E, F> {
    ghost use Rattle.cbor_skip.specs.declared.SkipError.TheVariants.{Read as FailedRead};
    ghost use Rattle.cbor_json.specs.declared.JsonError.TheVariants.{Read as Stopped};

    ghost from_gives = { λ fault error. error ≡ Stopped (FailedRead fault) };

    fn from(fault: Error<E>) -> JsonError<E, F> {
        JsonError::Read(SkipError::Read(fault))
    }
}

/// Writes the next item as JSON (RFC 8949, 6.1; RFC 8259), as UTF-8 on one line.
///
/// Tags, arrays and maps nest at most `depth` levels deep, and `depth` is at most 256. If the writer does not fail and
/// each item has JSON, the call reads the item as `cbor_skip::skip_item` does. `Ok` says that one whole item was there,
/// each text UTF-8, and that exactly its text was written.
///
/// The decoder moves on as [`Decoder`] says. The reader fails only for `Error::Io`, and then once.
///
/// # The text
///
/// | item | [`Mode::Strict`] | [`Mode::Lossy`] |
/// |---|---|---|
/// | integer | its digits | the same |
/// | finite float | digits with a point, that the kit's `parse_float` reads as its value | the same |
/// | `false`, `true`, `null` | by name | the same |
/// | NaN, infinity, other simple value | no JSON | `null` |
/// | text string | a string; its segments are joined | the same |
/// | array, map | `[1,2]`, `{"a":1}` | the same |
/// | key that is no text | no JSON | as below |
/// | byte string | no JSON | a string: base64url without padding (RFC 4648, 5) |
/// | tag 21, 22 or 23 | no JSON | its content; the byte strings in it by base64url, base64 with padding, base16 |
/// | tag 2 or 3 | no JSON | its content; a byte string by base64url, with `~` before it for tag 3 |
/// | other tag | no JSON | its content |
///
/// - A string has the escapes of JSON. Each other character that a terminal acts on is escaped too: U+007F to U+009F,
///   and bidirectional controls as `\u202e`.
/// - A number is written as it is, also beyond 2^53, which many readers of JSON round. Tests alone say that the digits of a float are the shortest.
/// - Keys are written as they come, also if two are the same.
/// - In lossy mode an integer as a key is its digits between quotes, and a byte string as a key is its string. Any other
///   key that is no text has no JSON. The tag of a key is left out.
///
/// # Errors
///
/// - `NoJson(offset)`: the item whose title stands there has no JSON. The title was consumed.
/// - `Read`: the read of the item stopped, with the error of `skip_item` and the decoder as that call leaves it.
/// - `Write`: the writer failed. The contract says how far the item was read: no byte after the header of an integer, a
///   float or a simple value.
///
/// Before an error the call wrote:
///
/// - Nothing, if no header or a break was pulled, or if the item itself has no JSON.
/// - The text of all bytes that were handed out, if the read of a string stopped. By base64 the text of the last one or
///   two bytes is missing if they begin a group of three.
/// - The earlier items of an array or a map. If the next item has a title, the text before it and its text so far
///   follow.
/// - If the writer failed, a beginning of this text.
pub fn write_json<R: Read, W: Write>(
    decoder: &mut Decoder<R>,
    writer: &mut W,
    depth: usize,
    mode: Mode,
) -> Result<(), JsonError<R::Error, W::Error>>
    requires shallow { depth ≤ MOST_LEVELS }
    ensures written { WritesItem R.Read W.Write (first_role mode) (sides decoder.old writer.old) result
        (sides decoder.new writer.new) }
    ensures reads { ReadsWritten R.Read depth decoder.old result decoder.new }
{
    let place = decoder.offset();
    let header = decoder.pull()?;
    if let Header::Break = header {
        return Err(JsonError::Read(SkipError::Break(place)));
    }
    write_item(decoder, writer, header, place, depth, Role::first(mode))
}
