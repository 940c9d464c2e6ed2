// SPDX-License-Identifier: Apache-2.0
//! Skips one item of CBOR (RFC 7049, 2.1 to 2.4), whatever it contains.
//!
//! No call takes memory, and each returns, also over a reader that never ends.
#![tactic(auto)]

ghost use Rattle.std.specs.Prelude.{◌≡◌, ◌<◌, ◌≤◌, ◌↔◌, ℕ, Bool, false, List, length, IsOk, MatchResult, Some};
ghost use Rattle.ciborium_ll_grammar.specs.declared.hdr.Header.{Header as AnyHeader};
ghost use Rattle.ciborium_ll_decoder.specs.declared.dec.Decoder.{Decoder as AnyDecoder};
ghost use Rattle.ciborium_ll_decoder.specs.Decoding.{MovesOn, offset_of, spelling_of, view};
ghost use Rattle.ciborium_ll_decoder.specs.Premises.{CanRead};
ghost use Rattle.cbor_skip.specs.declared.Begun.TheVariants.{Break as BegunBreak, Nest as BegunNest};
ghost use Rattle.cbor_skip.specs.Due.{IsNest};
ghost use Rattle.cbor_skip.specs.ItemFaults.{BeginsWithItem};
ghost use Rattle.cbor_skip.specs.Skipping.{BeginsNest, IsBegun, SkipsCounted, SkipsOne, SkipsWithin, StopsTitle};
ghost use Rattle.cbor_skip.specs.Skipping.{ReadsItem, StopsItem, allowed_by};
ghost use Rattle.cbor_skip.specs.SkippingTold.{SkipsFront, SkipsTold};
ghost use Rattle.ciborium_ll_grammar.specs.declared.limits.TheConstants.{LEAST_BUFFER, MOST_LEVELS};

mod after;
pub mod laws;
mod messages;

pub use self::after::skip_after;
use ciborium_ll_decoder::dec::{Decoder, Error};
use ciborium_ll_decoder::skip::{skip_bytes, skip_text};
use ciborium_ll_decoder::title::pull_title;
use ciborium_ll_grammar::hdr::{Header, Start};
pub use ciborium_ll_grammar::remaining::Remaining;
use ciborium_ll_io::io::Read;

/// Why no item was skipped.
#[derive(Debug, Drop)]
pub enum SkipError<E> {
    /// The decoder failed with this error.
    Read(Error<E>),
    /// A break stands at this offset in place of an item. It may stand there only as the end of an array of indefinite
    /// length, or of a map of indefinite length after whole pairs.
    Break(usize),
    /// No level is left for the tag, array or map at this offset.
    Deep(usize),
}

impl<E> From<Error<E>> for SkipError<E> {
    ghost use Rattle.cbor_skip.specs.declared.SkipError.TheVariants.{Read as FailedRead};

    ghost from_gives = { λ fault error. error ≡ FailedRead fault };

    fn from(fault: Error<E>) -> SkipError<E> {
        SkipError::Read(fault)
    }
}

/// The beginning that a title made, which was read.
enum Begun {
    /// An item without others in it, which was read to its end.
    Item,
    /// The end of an indefinite form.
    Break,
    /// A tag, an array or a map of this many items.
    Items(usize),
    /// An array or a map of indefinite length, or a map of more items than a `usize` counts, with this header.
    Nest(Header),
}

/// Reads the next title, and the rest of a string.
#[inline(always)]
fn skip_title<R: Read>(
    decoder: &mut Decoder<R>,
    buffer: &mut [u8],
) -> Result<Begun, Error<R::Error>>
    requires room { LEAST_BUFFER ≤ length buffer.old }
    ensures begun { MatchResult result (λ begun. IsBegun R.Read begun decoder.old decoder.new)
        (λ error. StopsTitle R.Read (length buffer.old) decoder.old error decoder.new) }
    ensures moves_on { MovesOn R.Read decoder.old decoder.new }
    ensures rises { IsOk result → offset_of decoder.old < offset_of decoder.new }
{
    let (header, title) = pull_title(decoder)?;
    // The title's parts give the start, so no header is made except that of a nest whose items are not counted.
    match title.start(header) {
        Start::Value => Ok(Begun::Item),
        Start::Break => Ok(Begun::Break),
        Start::Nest(nest) => Ok(nest_begun(nest)),
        Start::Bytes(len) => {
            skip_bytes(decoder, len, buffer)?;
            Ok(Begun::Item)
        }
        Start::Text(len) => {
            skip_text(decoder, len, buffer)?;
            Ok(Begun::Item)
        }
    }
}

/// Returns the beginning that the header of a tag, an array or a map makes.
#[inline(always)]
fn nest_begun(nest: Header) -> Begun
    requires { IsNest nest }
    ensures { BeginsNest nest result }
{
    match nest {
        Header::Tag(_) => Begun::Items(1),
        Header::Array(Some(count)) => Begun::Items(count),
        Header::Map(Some(pairs)) if pairs <= usize::MAX / 2 => Begun::Items(2 * pairs),
        _ => Begun::Nest(nest),
    }
}

/// Skips `count` items.
#[cycle(nests)]
fn skip_items<R: Read>(
    decoder: &mut Decoder<R>,
    count: usize,
    depth: usize,
    buffer: &mut [u8],
) -> Result<(), SkipError<R::Error>>
    requires room { LEAST_BUFFER ≤ length buffer.old }
    ensures skipped { SkipsCounted R.Read count depth (length buffer.old) decoder.old result decoder.new }
    ensures moves_on { MovesOn R.Read decoder.old decoder.new }
{
    let mut left = count;
    let mut levels = depth;
    'items: while left > 0 {
        let place = decoder.offset();
        left -= 1;
        match skip_title(decoder, buffer)? {
            // After the last item only its contents are due, so no call waits for them.
            Begun::Items(within) if left == 0 && levels > 0 => {
                left = within;
                levels -= 1;
            }
            begun => skip_rest(decoder, begun, place, levels, buffer)?,
        }
    }
    Ok(())
}

/// Skips the contents of an array or a map of indefinite length, or of a map of more items than a `usize` counts, after
/// its header.
#[cycle(nests)]
fn skip_within<R: Read>(
    decoder: &mut Decoder<R>,
    header: Header,
    depth: usize,
    buffer: &mut [u8],
) -> Result<(), SkipError<R::Error>>
    requires room { LEAST_BUFFER ≤ length buffer.old }
    requires nest { IsNest header }
    ensures skipped { SkipsWithin R.Read header depth (length buffer.old) decoder.old result decoder.new }
    ensures moves_on { MovesOn R.Read decoder.old decoder.new }
{
    let mut remaining = Remaining::behind(header);
    'items: while !remaining.is_done() {
        let place = decoder.offset();
        match skip_title(decoder, buffer)? {
            Begun::Break if remaining.closes() => return Ok(()),
            begun => skip_rest(decoder, begun, place, depth, buffer)?,
        }
        remaining = remaining.after_item();
    }
    Ok(())
}

/// Skips the rest of an item after its title, which stands at this place and made this beginning. A break is no item.
#[cycle(nests)]
#[inline(always)]
fn skip_rest<R: Read>(
    decoder: &mut Decoder<R>,
    begun: Begun,
    place: usize,
    depth: usize,
    buffer: &mut [u8],
) -> Result<(), SkipError<R::Error>>
    requires room { LEAST_BUFFER ≤ length buffer.old }
    requires nest { (header : AnyHeader) → begun ≡ BegunNest header → IsNest header }
    ensures skipped { (closable : Bool) (before : AnyDecoder R) → IsBegun R.Read begun before decoder.old
        → MovesOn R.Read before decoder.old → place ≡ offset_of before → (begun ≡ BegunBreak → closable ≡ false)
        → MatchResult result (λ done. ReadsItem R.Read depth before decoder.new)
        (λ error. StopsItem R.Read closable depth (length buffer.old) before error decoder.new) }
    ensures moves_on { MovesOn R.Read decoder.old decoder.new }
{
    match begun {
        Begun::Item => Ok(()),
        Begun::Break => Err(SkipError::Break(place)),
        Begun::Items(count) if depth > 0 => skip_items(decoder, count, depth - 1, buffer),
        Begun::Nest(nest) if depth > 0 => skip_within(decoder, nest, depth - 1, buffer),
        Begun::Items(_) | Begun::Nest(_) => Err(SkipError::Deep(place)),
    }
}

/// Skips one item, with tags, arrays and maps nested at most `depth` levels deep (RFC 7049, 2.1 to 2.4).
///
/// `depth` is at most 256. Each tag, array or map takes a level, also an empty one, and a frame on the stack. Strings
/// go through `buffer`, which has four bytes at least.
///
/// `Ok` means that the decoder is after one whole item, each body of a text UTF-8 by itself. A strict decoder read the
/// item in its shortest spelling (3.9).
///
/// # Errors
///
/// - `Break(offset)`: a break stands in place of an item.
/// - `Deep(offset)`: no level is left for a tag, an array or a map.
/// - `Read` with `Syntax(offset)`: no title, a title that may not stand within its string, or a body that is no text,
///   at the place that [`Error::Syntax`] names. A strict decoder also refuses a title that isn't strict, and an open
///   within a string.
/// - `Read` with `Io`: the reader failed.
/// - `Read` with `TooLong`: the offset can't take the next read.
///
/// `Break` and `Deep` consume the title at that offset.
///
/// # Conditions for success
///
/// If the reader is steady, the offset fits and no header waits on a strict decoder, `Ok` comes exactly if the bytes
/// begin with an item.
///
/// # Examples
///
/// ```rust
/// let mut decoder = Decoder::from(SliceReader::new(bytes));
/// skip_item(&mut decoder, DEPTH, &mut [0; 64]).ok()?;
/// let len = decoder.offset();
/// ```
pub fn skip_item<R: Read>(
    decoder: &mut Decoder<R>,
    depth: usize,
    buffer: &mut [u8],
) -> Result<(), SkipError<R::Error>>
    requires shallow { depth ≤ MOST_LEVELS }
    requires room { LEAST_BUFFER ≤ length buffer.old }
    ensures exactly { (due : List ℕ) → CanRead R.Read (length buffer.old) decoder.old due
        → (IsOk result ↔ BeginsWithItem (spelling_of decoder.old) depth due) }
    ensures front { (due : List ℕ) → view R.Read decoder.old ≡ Some due → IsOk result
        → SkipsFront R.Read (allowed_by decoder.old) depth due decoder.old decoder.new }
    ensures told { (due : List ℕ) → CanRead R.Read (length buffer.old) decoder.old due
        → SkipsTold R.Read (spelling_of decoder.old) depth due decoder.old result decoder.new }
    ensures skipped { SkipsOne R.Read depth (length buffer.old) decoder.old result decoder.new }
{
    skip_items(decoder, 1, depth, buffer)
}
