// SPDX-License-Identifier: Apache-2.0
//! Encodes diagnostic notation as CBOR: the reverse of `cbor_diag`.
#![tactic(auto)]

ghost use Rattle.ciborium_ll_grammar.specs.declared.spelling.Spelling.TheVariants.{Any, Shortest};
ghost use Rattle.std.specs.Prelude.{◌≡◌, ◌≤◌, true, false, IfErr, IfOk, OnOk};
ghost use Rattle.ciborium_ll_text.specs.Text.{IsCharacters};
ghost use Rattle.ciborium_ll_grammar.specs.Items.{IsItem};
ghost use Rattle.ciborium_ll_grammar.specs.declared.limits.TheConstants.{MOST_LEVELS};
ghost use Rattle.cbor_encode.specs.Places.{IsFaultIn};
ghost use Rattle.cbor_encode.specs.Sequences.{AreSequence, has_underscore};

mod cursor;
mod floats;
mod heads;
mod items;
mod messages;
mod numbers;
mod places;
mod quoted;
mod sequences;
mod strings;
mod words;

use self::items::Rules;
use self::places::located;
use self::sequences::{check_text, read_one, read_sequence};
use ciborium_ll_grammar::limits::MOST_LEVELS;
use ciborium_ll_grammar::spelling::Spelling;
use std::alloc::Global;

/// The greatest depth of tags, arrays, maps and embedded items, in levels.
pub const MAX_DEPTH: usize = MOST_LEVELS;

/// The part of the notation that is due at a place.
#[derive(Clone, Copy, Debug, PartialEq, Eq)]
pub enum Expected {
    /// An item.
    Item,
    /// The end of the text.
    End,
    /// A comma or white space between two items.
    Space,
    /// A comma or the closing bracket.
    Comma,
    /// A colon and a value after a key.
    Colon,
    /// A closing parenthesis.
    Parenthesis,
    /// A digit.
    Digit,
    /// Two hexadecimal digits for each byte, and then a quote.
    HexDigits,
    /// Digits of base 64 for whole bytes, and then a quote.
    Base64,
    /// A character other than a control character, or an escape of JSON (RFC 8259, 7).
    Escape,
    /// A quote that closes the string.
    Quote,
    /// A slash that closes the comment.
    Comment,
    /// A string of the same kind as the others in these parentheses.
    Chunk,
    /// An integer from -2^64 to 2^64 - 1.
    Integer,
    /// A float that is finite.
    Float,
    /// 4, 8 or 16 hexadecimal digits, and then a quote.
    Bits,
    /// A simple value from 0 to 23 or from 32 to 255, or to 255 with a mark.
    Simple,
    /// A mark whose width holds the number or the length.
    Mark,
    /// No mark on an integer, a length or a tag: only the shortest titles are wanted.
    NoMark,
    /// UTF-8.
    Text,
    /// Fewer levels of tags, arrays, maps and embedded items.
    Level,
    /// More memory.
    Memory,
}

/// Why a text is not encoded.
#[derive(Clone, Copy, Debug, PartialEq, Eq, Drop)]
pub struct NotationError {
    /// The part of the notation that is due there.
    pub expected: Expected,
    /// The offset of the place, in bytes.
    pub place: usize,
    /// The line of the place, from 1.
    pub line: usize,
    /// The column of the place, in characters, from 1.
    pub column: usize,
}

/// Encodes one item in diagnostic notation (RFC 8949, section 8). White space and comments may surround the item. Tests
/// alone say that the bytes are the item of the text.
///
/// Tags, arrays, maps and embedded items nest at most `depth` levels deep.
///
/// # The notation
///
/// - An integer has digits in base 10, or in base 16, 8 or 2 after `0x`, `0o` or `0b`.
/// - A float has a point or an exponent, as `1.5` or `1e10`, or is `NaN`, `Infinity` or `-Infinity`. It has the
///   shortest width that holds the nearest double, or 16, 32 or 64 bits with the mark `_1`, `_2` or `_3`.
/// - `float'7e01'` is a float with these bits in base 16, of 2, 4 or 8 bytes.
/// - `false`, `true`, `null`, `undefined` and `simple(N)` are simple values. `simple(N_0)` has two bytes.
/// - `"..."` is a text with the escapes of JSON, and `'...'` a byte string of such a text.
/// - `h'...'` is a byte string in base 16, `b64'...'` in base 64 of either alphabet, `b64u'...'` in base 64 for URLs.
///   White space may stand between the digits, and in base 16 comments too.
/// - `<<1, 2>>` is a byte string that contains these items.
/// - `[1, 2]` is an array, `{1: 2}` a map, and `N(item)` a tag. A comma may follow the last item.
/// - `[_ 1]`, `{_ 1: 2}`, `(_ "a", "b")`, `''_` and `""_` have indefinite lengths. A string of indefinite length may
///   stand within another one, as in `(_ (_ "a"), ""_)`.
/// - `_i`, `_0`, `_1`, `_2` or `_3` asks for a title whose number is in the first byte, or in 1, 2, 4 or 8 bytes. It
///   follows an integer, a string, the number of a tag as in `1_1(2)`, or the opening bracket as in `[_1 2]`.
/// - A comment is between two slashes, or from `#` to the end of its line.
///
/// Titles without a mark are the shortest.
///
/// # Errors
///
/// The contract says the place of [`Expected::Text`] if the text is not UTF-8. Tests alone say the place of every other
/// error:
///
/// - [`Expected::Integer`], [`Expected::Float`], [`Expected::Mark`], [`Expected::Level`]: the start of the item.
/// - [`Expected::Escape`], [`Expected::Comment`], [`Expected::Simple`], [`Expected::Bits`]: the start of the escape,
///   comment, number or digits.
/// - [`Expected::Text`]: the first byte that is not UTF-8, wherever it stands in the text.
/// - [`Expected::Memory`]: the start of the item or the part of a string that found no memory.
/// - All others: the place at which this is expected.
///
/// # Time and memory
///
/// `n` bytes of text take at most about `n * depth` steps, since each level copies the bytes that it contains. On the
/// stack each level takes the frames of three calls.
pub fn encode(alloc: Global, text: &[u8], depth: usize) -> Result<Vec<u8>, NotationError>
    requires shallow { depth ≤ MOST_LEVELS }
    ensures item { IfOk result (λ bytes. IsItem Any depth bytes.items) }
    ensures shortest { has_underscore text.now ≡ false → IfOk result (λ bytes. IsItem Shortest depth bytes.items) }
    ensures text { OnOk result (IsCharacters text.now) }
    ensures fault { IfErr result (IsFaultIn text.now) }
{
    // Each mark has an underscore. Without one all titles are the shortest.
    let spelling = Spelling::shortest_if(!text.contains(&b'_'));
    one_item(alloc, text, depth, spelling)
}

/// Encodes one item as [`encode`] does, but takes no mark on an integer, a length or a tag (RFC 8949, 4.1). The marks
/// of floats choose their width.
///
/// # Errors
///
/// Those of [`encode`], and [`Expected::NoMark`]: the start of an item with a mark.
pub fn encode_shortest(alloc: Global, text: &[u8], depth: usize) -> Result<Vec<u8>, NotationError>
    requires shallow { depth ≤ MOST_LEVELS }
    ensures item { IfOk result (λ bytes. IsItem Shortest depth bytes.items) }
    ensures text { OnOk result (IsCharacters text.now) }
    ensures fault { IfErr result (IsFaultIn text.now) }
{
    one_item(alloc, text, depth, Spelling::Shortest)
}

/// Encodes a sequence of items (RFC 8742), each as [`encode`] takes it. A comma, white space or a comment stands
/// between two items, and a comma may follow the last item. A text without items gives no bytes.
///
/// # Errors
///
/// Those of [`encode`], but [`Expected::Space`] in place of [`Expected::End`].
pub fn encode_all(alloc: Global, text: &[u8], depth: usize) -> Result<Vec<u8>, NotationError>
    requires shallow { depth ≤ MOST_LEVELS }
    ensures items { IfOk result (λ bytes. AreSequence Any depth bytes.items) }
    ensures shortest { has_underscore text.now ≡ false → IfOk result (λ bytes. AreSequence Shortest depth bytes.items) }
    ensures text { OnOk result (IsCharacters text.now) }
    ensures fault { IfErr result (IsFaultIn text.now) }
{
    if let Err(stop) = check_text(text) {
        return Err(located(text, stop));
    }
    let rules = Rules {
        alloc,
        spelling: Spelling::shortest_if(!text.contains(&b'_')),
    };
    match read_sequence(text, depth, rules) {
        Ok(bytes) => Ok(bytes),
        Err(stop) => Err(located(text, stop)),
    }
}

/// Encodes one item. With `Shortest` all titles are the shortest.
fn one_item(
    alloc: Global,
    text: &[u8],
    depth: usize,
    spelling: Spelling,
) -> Result<Vec<u8>, NotationError>
    ensures item { IfOk result (λ bytes. IsItem spelling depth bytes.items) }
    ensures text { OnOk result (IsCharacters text.now) }
    ensures fault { IfErr result (IsFaultIn text.now) }
{
    if let Err(stop) = check_text(text) {
        return Err(located(text, stop));
    }
    match read_one(text, depth, Rules { alloc, spelling }) {
        Ok(bytes) => Ok(bytes),
        Err(stop) => Err(located(text, stop)),
    }
}
