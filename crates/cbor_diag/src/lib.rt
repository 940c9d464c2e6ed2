// SPDX-License-Identifier: Apache-2.0
//! Shows an item of CBOR in diagnostic notation (RFC 8949, section 8). No call takes memory.
#![tactic(auto)]

ghost use Rattle.std.specs.Prelude.{◌≡◌, ◌≤◌, length};
ghost use Rattle.ciborium_ll.specs.Sides.{sides};
ghost use Rattle.cbor_diag.specs.EmbeddedShows.{ShowsEmbedded};
ghost use Rattle.cbor_diag.specs.ItemStops.{ShowsItem};
ghost use Rattle.cbor_diag.specs.Showing.{ReadsShown};
ghost use Rattle.ciborium_ll_grammar.specs.declared.limits.TheConstants.{MOST_LEVELS};

mod embedded;
mod layout;
mod marks;
mod memory;
mod messages;
mod nests;
mod plain;
pub mod put;
pub mod scalars;
pub mod strings;

use self::embedded::{Flat, Nested};
use self::layout::Line;
pub use self::layout::{Layout, Style};
use self::nests::show_one;
use cbor_embedded::Embedded;
use cbor_skip::SkipError;
use ciborium_ll::io::{Read, SliceReader, Write};
use ciborium_ll::{Decoder, Error};

/// The most byte strings that contain one another and are shown as items.
pub const MOST_STRINGS: usize = 8;

/// Why an item was not shown whole.
#[derive(Debug, Drop)]
pub enum DiagError<E, F> {
    /// The read of the item stopped, for this reason.
    Read(SkipError<E>),
    /// The writer failed, with this error.
    Write(F),
}

impl<E, F> From<Error<E>> for DiagError<E, F> {
    ghost use Rattle.cbor_skip.specs.declared.SkipError.TheVariants.{Read as FailedRead};
    ghost use Rattle.cbor_diag.specs.declared.DiagError.TheVariants.{Read as Stopped};

    ghost from_gives = { λ fault error. error ≡ Stopped (FailedRead fault) };

    fn from(fault: Error<E>) -> DiagError<E, F> {
        DiagError::Read(SkipError::Read(fault))
    }
}

/// Shows the next item in diagnostic notation (RFC 8949, section 8), as UTF-8.
///
/// Tags, arrays and maps nest at most `depth` levels deep, and `depth` is at most 256. If the writer does not fail, the
/// call reads the item as `cbor_skip::skip_item` does. `Ok` says that one whole item was there, each text UTF-8, and
/// that exactly its text was written.
///
/// The decoder moves on as [`Decoder`] says. The reader fails only for `Error::Io`, and then once.
///
/// # The text
///
/// - Integers are decimal. A simple value is its name or `simple(N)`.
/// - A float is `NaN`, `Infinity`, `-Infinity`, or digits that the kit's `parse_float` reads as its value. They have a
///   point, and a sign at an exponent, as the kit's `ryu` lays them out. Tests alone say that they are the shortest.
/// - `_2` or `_3` follows a float exactly if a shorter width holds the same value. In plain notation the text shows the
///   length of no other title.
/// - A byte string is `h'0102'`. A text string has the escapes of JSON in `""`, also for each other character that a
///   terminal acts on: U+007F to U+009F, and bidirectional controls as `\u202e`.
/// - Bodies of the indefinite form stand in `(_ )`, with commas, and no body gives `''_` or `""_`.
/// - A tag is `1(2)`, an array `[1, 2]`, a map `{1: 2}`, and an indefinite form `[_ 1]`.
///
/// Exact notation also shows the rest of what the bytes say, so that `cbor_encode::encode` gives them back. Tests alone
/// say that it does:
///
/// - `_0`, `_1`, `_2` or `_3` follows the number or the length of a title that is longer than need be, and has 1, 2, 4
///   or 8 bytes of it: `23_0`, `h'01'_1`, `1_2(2)`, `[_3 1]`, and `simple(24_0)` for two bytes below 32.
/// - A string of the indefinite form shows the strings within it as they are: `(_ h'01'_0, (_ h'02'), ''_)`.
/// - A NaN is `float'7e01'`, its bits in base 16, unless it is the quiet one without a sign.
///
/// # Errors
///
/// - `Read`: the read of the item stopped, with the error of `skip_item` and the decoder as that call leaves it.
/// - `Write`: the writer failed. The contract says how far the item was read: no byte after the header of an integer, a
///   float or a simple value.
///
/// Before an error the call wrote:
///
/// - Nothing, if no header or a break was pulled.
/// - The text of all bytes that were handed out, if the read of a string stopped.
/// - The earlier items of a tag, an array or a map. If the next item has a title, the text before it and its text so
///   far follow.
/// - If the writer failed, a beginning of this text.
pub fn diagnose<R: Read, W: Write>(
    decoder: &mut Decoder<R>,
    writer: &mut W,
    depth: usize,
    style: Style,
) -> Result<(), DiagError<R::Error, W::Error>>
    requires shallow { depth ≤ MOST_LEVELS }
    ensures shown { ShowsItem R.Read W.Write style (sides decoder.old writer.old) result
        (sides decoder.new writer.new) }
    ensures reads { ReadsShown R.Read depth decoder.old result decoder.new }
{
    let line = Line::first(style, Embedded::Nowhere);
    show_one::<R, W, Flat>(decoder, writer, depth, &line, &mut [])
}

/// Shows the next item as [`diagnose`] does, and byte strings as the item that they contain (RFC 8949, section 8, and
/// RFC 8610, G.3).
///
/// With `Tagged`, `d8 18 43 82 01 02` is `24(<<[1, 2]>>)`, and `43 82 01 02` is `h'820102'`. With `Everywhere` both are
/// shown as items. `embedded` says which byte strings are asked for. One that is asked for is shown so if all of this
/// holds:
///
/// - It has a definite length of at most `memory.len()` bytes, less those of the strings that contain it.
/// - Its body is one item, in any spelling, to the depth that is left. Its text has a level as the content of a tag has.
/// - At most seven strings that contain it are shown so.
///
/// Each other byte string is shown as in `diagnose`. In exact notation `cbor_encode::encode` gives the bytes back.
///
/// A string that is asked for and fits is read into the memory before its text is written.
///
/// # Errors
///
/// Those of `diagnose`. If the read of such a string stops, nothing of it is written. If the writer fails within it, all
/// of it was read.
pub fn diagnose_embedded<R: Read, W: Write>(
    decoder: &mut Decoder<R>,
    writer: &mut W,
    depth: usize,
    style: Style,
    embedded: Embedded,
    memory: &mut [u8],
) -> Result<(), DiagError<R::Error, W::Error>>
    requires shallow { depth ≤ MOST_LEVELS }
    ensures shown { ShowsEmbedded ⟦<SliceReader<'static> as Read>⟧ R.Read W.Write style embedded MOST_STRINGS depth
        (length memory.old) (sides decoder.old writer.old) result (sides decoder.new writer.new) }
    ensures reads { ReadsShown R.Read depth decoder.old result decoder.new }
{
    let line = Line::first(style, embedded);
    show_one::<R, W, Strings>(decoder, writer, depth, &line, memory)
}

/// How many byte strings that contain one another are shown as items: [`MOST_STRINGS`].
type Strings = Nested<Nested<Nested<Nested<Nested<Nested<Nested<Nested<Flat>>>>>>>>;
