//! Items whose first bytes give their length, and whose bytes are all there.

ghost use Rattle.ciborium_ll_grammar.specs.declared.spelling.Spelling.{Spelling};
ghost use Rattle.std.specs.Prelude.{Bool, ℕ, ◌≡◌, ◌+◌, ◌-◌, ◌<◌, ◌≤◌, drop, take, length, slice_index, true};
ghost use Rattle.std.specs.Str.{IsAscii};
ghost use Rattle.ciborium_ll_text.specs.declared.state.State.TheVariants as s;
ghost use Rattle.ciborium_ll_text.specs.States.{after};
ghost use Rattle.cbor_checker.specs.Plain.{ArePlain, IsPlainItem, IsSpan, IsTagTitle};
ghost use Rattle.cbor_checker.specs.declared.plain.TheConstants.{LONGEST_SPAN, SHORT};

use cbor_parser::title::taken_header;
use ciborium_ll_grammar::hdr::Header;
use ciborium_ll_grammar::hdr::table::{TitleKind, row_of};
use ciborium_ll_grammar::spelling::Spelling;
use ciborium_ll_text::state::State;

/// The length of an item in bytes, title included, by its first byte, with two lines for each major type. 0 says
/// nothing.
///
/// At 256 more than the first byte stands how many of these bytes are the body of a text, which must be checked. It is
/// 0 for any other item. Both stand in one table, so that a loop needs one address for them.
#[rattlefmt::skip]
static LENS: [u8; 512] = [
    // unsigned integers
    1, 1, 1, 1, 1, 1, 1, 1, 1, 1, 1, 1, 1, 1, 1, 1,
    1, 1, 1, 1, 1, 1, 1, 1, 2, 3, 5, 9, 0, 0, 0, 0,
    // negative integers
    1, 1, 1, 1, 1, 1, 1, 1, 1, 1, 1, 1, 1, 1, 1, 1,
    1, 1, 1, 1, 1, 1, 1, 1, 2, 3, 5, 9, 0, 0, 0, 0,
    // byte strings
    1, 2, 3, 4, 5, 6, 7, 8, 9, 10, 11, 12, 13, 14, 15, 16,
    17, 18, 19, 20, 21, 22, 23, 24, 0, 0, 0, 0, 0, 0, 0, 0,
    // text strings
    1, 2, 3, 4, 5, 6, 7, 8, 9, 10, 11, 12, 13, 14, 15, 16,
    17, 18, 19, 20, 21, 22, 23, 24, 0, 0, 0, 0, 0, 0, 0, 0,
    // arrays
    0, 0, 0, 0, 0, 0, 0, 0, 0, 0, 0, 0, 0, 0, 0, 0,
    0, 0, 0, 0, 0, 0, 0, 0, 0, 0, 0, 0, 0, 0, 0, 0,
    // maps
    0, 0, 0, 0, 0, 0, 0, 0, 0, 0, 0, 0, 0, 0, 0, 0,
    0, 0, 0, 0, 0, 0, 0, 0, 0, 0, 0, 0, 0, 0, 0, 0,
    // tags
    0, 0, 0, 0, 0, 0, 0, 0, 0, 0, 0, 0, 0, 0, 0, 0,
    0, 0, 0, 0, 0, 0, 0, 0, 0, 0, 0, 0, 0, 0, 0, 0,
    // simple values and floats
    1, 1, 1, 1, 1, 1, 1, 1, 1, 1, 1, 1, 1, 1, 1, 1,
    1, 1, 1, 1, 1, 1, 1, 1, 2, 3, 5, 9, 0, 0, 0, 0,
    // bodies: unsigned integers
    0, 0, 0, 0, 0, 0, 0, 0, 0, 0, 0, 0, 0, 0, 0, 0,
    0, 0, 0, 0, 0, 0, 0, 0, 0, 0, 0, 0, 0, 0, 0, 0,
    // negative integers
    0, 0, 0, 0, 0, 0, 0, 0, 0, 0, 0, 0, 0, 0, 0, 0,
    0, 0, 0, 0, 0, 0, 0, 0, 0, 0, 0, 0, 0, 0, 0, 0,
    // byte strings
    0, 0, 0, 0, 0, 0, 0, 0, 0, 0, 0, 0, 0, 0, 0, 0,
    0, 0, 0, 0, 0, 0, 0, 0, 0, 0, 0, 0, 0, 0, 0, 0,
    // text strings
    0, 1, 2, 3, 4, 5, 6, 7, 8, 9, 10, 11, 12, 13, 14, 15,
    16, 17, 18, 19, 20, 21, 22, 23, 0, 0, 0, 0, 0, 0, 0, 0,
    // arrays
    0, 0, 0, 0, 0, 0, 0, 0, 0, 0, 0, 0, 0, 0, 0, 0,
    0, 0, 0, 0, 0, 0, 0, 0, 0, 0, 0, 0, 0, 0, 0, 0,
    // maps
    0, 0, 0, 0, 0, 0, 0, 0, 0, 0, 0, 0, 0, 0, 0, 0,
    0, 0, 0, 0, 0, 0, 0, 0, 0, 0, 0, 0, 0, 0, 0, 0,
    // tags
    0, 0, 0, 0, 0, 0, 0, 0, 0, 0, 0, 0, 0, 0, 0, 0,
    0, 0, 0, 0, 0, 0, 0, 0, 0, 0, 0, 0, 0, 0, 0, 0,
    // simple values and floats
    0, 0, 0, 0, 0, 0, 0, 0, 0, 0, 0, 0, 0, 0, 0, 0,
    0, 0, 0, 0, 0, 0, 0, 0, 0, 0, 0, 0, 0, 0, 0, 0,
];

/// The longest item whose first byte gives its length: a string of 23 bytes.
const LONGEST_SPAN: usize = 24;

/// The lengths that a first byte gives.
#[derive(Drop)]
struct Span {
    /// The length of the item in bytes, title included, or 0.
    len: usize,
    /// How many of these bytes are the body of a text.
    text_len: usize,
}

/// Returns the lengths that a first byte gives, without a branch by the kind of the item.
#[inline(always)]
fn span_of(first: u8) -> Span
    ensures span { IsSpan first result.len result.text_len }
    ensures less { 0 < result.len → result.text_len < result.len }
    ensures most { result.len ≤ LONGEST_SPAN }
{
    Span {
        len: usize::from(LENS[first as usize]),
        text_len: usize::from(LENS[256 + first as usize]),
    }
}

/// The lower five bits of a first byte hold its number if they are less than this.
const LONGER: u8 = 24;

/// At index n, the highest bits of the first n - 16 bytes of a word, the lowest byte first: none up to 16, all eight
/// from 24 on.
#[rattlefmt::skip]
static HIGH_BITS: [u64; 33] = [
    0x0000_0000_0000_0000, 0x0000_0000_0000_0000, 0x0000_0000_0000_0000, 0x0000_0000_0000_0000,
    0x0000_0000_0000_0000, 0x0000_0000_0000_0000, 0x0000_0000_0000_0000, 0x0000_0000_0000_0000,
    0x0000_0000_0000_0000, 0x0000_0000_0000_0000, 0x0000_0000_0000_0000, 0x0000_0000_0000_0000,
    0x0000_0000_0000_0000, 0x0000_0000_0000_0000, 0x0000_0000_0000_0000, 0x0000_0000_0000_0000,
    0x0000_0000_0000_0000, 0x0000_0000_0000_0080, 0x0000_0000_0000_8080, 0x0000_0000_0080_8080,
    0x0000_0000_8080_8080, 0x0000_0080_8080_8080, 0x0000_8080_8080_8080, 0x0080_8080_8080_8080,
    0x8080_8080_8080_8080, 0x8080_8080_8080_8080, 0x8080_8080_8080_8080, 0x8080_8080_8080_8080,
    0x8080_8080_8080_8080, 0x8080_8080_8080_8080, 0x8080_8080_8080_8080, 0x8080_8080_8080_8080,
    0x8080_8080_8080_8080,
];

/// At each index, the highest bits of the other bytes.
#[rattlefmt::skip]
static OTHER_BITS: [u64; 33] = [
    0x8080_8080_8080_8080, 0x8080_8080_8080_8080, 0x8080_8080_8080_8080, 0x8080_8080_8080_8080,
    0x8080_8080_8080_8080, 0x8080_8080_8080_8080, 0x8080_8080_8080_8080, 0x8080_8080_8080_8080,
    0x8080_8080_8080_8080, 0x8080_8080_8080_8080, 0x8080_8080_8080_8080, 0x8080_8080_8080_8080,
    0x8080_8080_8080_8080, 0x8080_8080_8080_8080, 0x8080_8080_8080_8080, 0x8080_8080_8080_8080,
    0x8080_8080_8080_8080, 0x8080_8080_8080_8000, 0x8080_8080_8080_0000, 0x8080_8080_8000_0000,
    0x8080_8080_0000_0000, 0x8080_8000_0000_0000, 0x8080_0000_0000_0000, 0x8000_0000_0000_0000,
    0x0000_0000_0000_0000, 0x0000_0000_0000_0000, 0x0000_0000_0000_0000, 0x0000_0000_0000_0000,
    0x0000_0000_0000_0000, 0x0000_0000_0000_0000, 0x0000_0000_0000_0000, 0x0000_0000_0000_0000,
    0x0000_0000_0000_0000,
];

/// Returns the highest bits of byte j of the eight bytes from `at` on, if `from <= j + 16` and `j + 16 < until`.
#[inline(always)]
fn high_bits(bytes: &[u8], at: usize, from: usize, until: usize) -> u64
    requires there { at + 8 ≤ length bytes.now }
    requires from { from ≤ 32 }
    requires until { until ≤ 32 }
    ensures { result ≡ 0 → (j : ℕ) → j < 8 → from ≤ j + 16 → j + 16 < until → slice_index bytes.now (at + j) < 128 }
{
    let word = u64::from_le_bytes([
        bytes[at],
        bytes[at + 1],
        bytes[at + 2],
        bytes[at + 3],
        bytes[at + 4],
        bytes[at + 5],
        bytes[at + 6],
        bytes[at + 7],
    ]);
    word & HIGH_BITS[until] & OTHER_BITS[from]
}

/// The number of bytes of two words.
const SHORT: usize = 16;

/// Returns whether `len` of the two words from `start` on are ASCII, those after the first `before`.
#[inline(always)]
fn is_part_ascii(bytes: &[u8], start: usize, before: usize, len: usize) -> bool
    requires there { start + SHORT ≤ length bytes.now }
    requires short { before + len ≤ SHORT }
    ensures { result ≡ true → IsAscii (take len (drop (start + before) bytes.now)) }
{
    let first = high_bits(bytes, start, before + 16, before + len + 16);
    let second = high_bits(bytes, start + 8, before + 8, before + len + 8);
    first | second == 0
}

/// Returns whether the `len` bytes from `at` on are ASCII; `false` says nothing.
///
/// With at least 16 bytes in all, up to 16 take no branch by their number. If two words from `at` on reach too far, the
/// call reads the last two.
#[inline(always)]
fn is_ascii_from(bytes: &[u8], at: usize, len: usize) -> bool
    requires { at + len ≤ length bytes.now }
    ensures { result ≡ true → IsAscii (take len (drop at bytes.now)) }
{
    if len > SHORT || bytes.len() < SHORT {
        return bytes[at..at + len].is_ascii();
    }
    let last = bytes.len() - SHORT;
    if at <= last {
        is_part_ascii(bytes, at, 0, len)
    } else {
        is_part_ascii(bytes, last, at - last, len)
    }
}

/// Returns whether the `len` bytes from `at` on fit two words and are ASCII; `false` says nothing.
#[inline(always)]
pub(crate) fn is_short_ascii(bytes: &[u8], at: usize, len: usize) -> bool
    requires { at + len ≤ length bytes.now }
    ensures { result ≡ true → IsAscii (take len (drop at bytes.now)) }
{
    len <= SHORT && is_ascii_from(bytes, at, len)
}

/// Returns the length of the string at the start, title included, if an item is due.
///
/// The second byte is the length of the body and at least 24, as in a shortest title. All of the string is there, and a
/// text is ASCII. Otherwise the call returns 0, which says nothing.
#[inline(always)]
fn string_len(bytes: &[u8]) -> usize
    requires some { 0 < length bytes.now }
    ensures within { result ≤ length bytes.now }
    ensures plain { (allowed : Spelling) → 0 < result → IsPlainItem allowed (take result bytes.now) }
{
    if bytes.len() < 2 || bytes[1] < 24 {
        return 0;
    }
    let len = 2 + usize::from(bytes[1]);
    if len > bytes.len() {
        return 0;
    }
    match bytes[0] {
        0x58 => len,
        0x78 if bytes[2..len].is_ascii() => len,
        _ => 0,
    }
}

/// Returns whether an item of these lengths is there from `at` on, and its text is ASCII; `false` says nothing.
///
/// If more bytes than the longest item are there, a short text takes no branch by the place. If the item is no text, the
/// call looks at no byte.
#[inline(always)]
fn is_span_there(bytes: &[u8], at: usize, span: &Span) -> bool
    requires some { at < length bytes.now }
    requires less { span.now.text_len < span.now.len }
    requires most { span.now.len ≤ LONGEST_SPAN }
    ensures there { result ≡ true → at + span.now.len ≤ length bytes.now }
    ensures ascii { result ≡ true → IsAscii (take span.now.text_len (drop (at + 1) bytes.now)) }
{
    if bytes.len() - at > LONGEST_SPAN && span.text_len <= SHORT {
        return is_part_ascii(bytes, at + 1, 0, span.text_len);
    }
    span.len <= bytes.len() - at
        && (span.text_len == 0 || is_ascii_from(bytes, at + 1, span.text_len))
}

/// Returns the length of the item from `at` on, title included, if an item is due and all of it is there: a number, a
/// float, a simple value, or a string below 256 bytes; a text is ASCII.
///
/// Otherwise it returns 0, and for `Shortest` also if a number, a float or a simple value has more than one byte. A 0
/// says nothing.
#[inline(always)]
fn plain_len(bytes: &[u8], at: usize, spelling: Spelling) -> usize
    requires some { at < length bytes.now }
    ensures within { at + result ≤ length bytes.now }
    ensures plain { 0 < result → IsPlainItem spelling (take result (drop at bytes.now)) }
{
    let span = span_of(bytes[at]);
    if span.len == 0 {
        return string_len(&bytes[at..]);
    }
    if spelling.is_shortest() && bytes[at] % 32 >= LONGER {
        return 0;
    }
    if is_span_there(bytes, at, &span) {
        span.len
    } else {
        0
    }
}

/// Plain items in a row.
#[derive(Drop)]
pub(crate) struct Run {
    /// How many bytes the items have.
    pub(crate) len: usize,
    /// How many more items the caller allowed.
    pub(crate) left: usize,
}

/// Takes at most `most` items whose lengths [`plain_len`] gives, if an item is due at `offset`. The `place` becomes the
/// offset of the last item.
#[inline(always)]
fn run_of(bytes: &[u8], most: usize, spelling: Spelling, offset: usize, place: &mut usize) -> Run
    requires room { offset + length bytes.now ≤ usize.MAX }
    ensures within { result.len ≤ length bytes.now }
    ensures most { result.left ≤ most }
    ensures some { result.left < most → 0 < result.len }
    ensures plain { (tags : Bool)
        → ArePlain spelling tags offset place.old (most - result.left) place.new (take result.len bytes.now) }
{
    let mut at = 0;
    let mut left = most;
    let mut last = 0;
    'items: while left > 0 && at < bytes.len() {
        let len = plain_len(bytes, at, spelling);
        if len == 0 {
            break 'items;
        }
        last = at;
        at += len;
        left -= 1;
    }
    if at > 0 {
        *place = offset + last;
    }
    Run { len: at, left }
}

/// Does what [`run_of`] does, with a loop for each kind of checker: the loop for any spelling does not ask for longer
/// titles. It stays a function of its own, with all that a title needs in registers.
#[inline(never)]
fn ascii_run(bytes: &[u8], most: usize, spelling: Spelling, offset: usize, place: &mut usize) -> Run
    requires room { offset + length bytes.now ≤ usize.MAX }
    ensures within { result.len ≤ length bytes.now }
    ensures most { result.left ≤ most }
    ensures some { result.left < most → 0 < result.len }
    ensures plain { (tags : Bool)
        → ArePlain spelling tags offset place.old (most - result.left) place.new (take result.len bytes.now) }
{
    // Both loops begin with these tests, so they stand here once.
    if most == 0 || bytes.is_empty() {
        return Run { len: 0, left: most };
    }
    match spelling {
        Spelling::Any => run_of(bytes, most, Spelling::Any, offset, place),
        Spelling::Shortest => run_of(bytes, most, Spelling::Shortest, offset, place),
    }
}

/// Returns whether these bytes, which are probably not ASCII, are UTF-8 by themselves.
fn is_text(bytes: &[u8]) -> bool
    ensures { result ≡ true → s.Between ≡ after s.Between bytes.now }
{
    matches!(State::Between.run_other(bytes), State::Between)
}

/// Returns the length of the text at the start, title included, if its title has one byte. It is 0 if there is no text
/// of this kind, if the body is not all there, or if it is not UTF-8 by itself.
fn short_text_len(bytes: &[u8]) -> usize
    requires some { 0 < length bytes.now }
    ensures within { result ≤ length bytes.now }
    ensures plain { (allowed : Spelling) → 0 < result → IsPlainItem allowed (take result bytes.now) }
{
    let len = 1 + usize::from(bytes[0] % 32);
    if bytes[0] / 32 != 3 || bytes[0] % 32 >= LONGER || len > bytes.len() {
        return 0;
    }
    if is_text(&bytes[1..len]) { len } else { 0 }
}

/// Does what [`short_text_len`] does, for a text of up to 255 bytes with its shortest title.
fn text_len(bytes: &[u8]) -> usize
    requires some { 0 < length bytes.now }
    ensures within { result ≤ length bytes.now }
    ensures plain { (allowed : Spelling) → 0 < result → IsPlainItem allowed (take result bytes.now) }
{
    if bytes[0] != 0x78 {
        return short_text_len(bytes);
    }
    if bytes.len() < 2 || bytes[1] < LONGER {
        return 0;
    }
    let len = 2 + usize::from(bytes[1]);
    if len > bytes.len() {
        return 0;
    }
    if is_text(&bytes[2..len]) { len } else { 0 }
}

/// Takes at most `most` texts whose lengths [`text_len`] gives. The `place` becomes the offset of the last text.
#[inline(never)]
fn text_run(bytes: &[u8], most: usize, offset: usize, place: &mut usize) -> Run
    requires room { offset + length bytes.now ≤ usize.MAX }
    ensures within { result.len ≤ length bytes.now }
    ensures most { result.left ≤ most }
    ensures some { result.left < most → 0 < result.len }
    ensures plain { (allowed : Spelling) (tags : Bool)
        → ArePlain allowed tags offset place.old (most - result.left) place.new (take result.len bytes.now) }
{
    let mut at = 0;
    let mut left = most;
    let mut last = *place;
    'texts: while left > 0 && at < bytes.len() {
        let len = text_len(&bytes[at..]);
        if len == 0 {
            break 'texts;
        }
        last = offset + at;
        at += len;
        left -= 1;
    }
    *place = last;
    Run { len: at, left }
}

/// Returns the length of a tag's title at `at`, or 0 if no tag begins there, or if its title is not whole or not taken.
#[inline(always)]
fn tag_len(bytes: &[u8], at: usize, spelling: Spelling) -> usize
    requires some { at < length bytes.now }
    ensures within { at + result ≤ length bytes.now }
    ensures tag { 0 < result → IsTagTitle spelling (take result (drop at bytes.now)) }
{
    let rest = &bytes[at..];
    let row = row_of(rest[0]);
    let len = 1 + row.affix.len();
    match row.kind {
        TitleKind::Tag if len <= rest.len() => match taken_header(&rest[..len], spelling) {
            Some(Header::Tag(_)) => len,
            _ => 0,
        },
        _ => 0,
    }
}

/// Takes at most `most` items that [`plain_len`] measures, each with a tag or without, if a level is left for the tag.
/// The `place` becomes the offset of the last item, after its tag.
#[inline(never)]
fn tagged_run(
    bytes: &[u8],
    most: usize,
    spelling: Spelling,
    offset: usize,
    place: &mut usize,
) -> Run
    requires room { offset + length bytes.now ≤ usize.MAX }
    ensures within { result.len ≤ length bytes.now }
    ensures most { result.left ≤ most }
    ensures some { result.left < most → 0 < result.len }
    ensures plain { ArePlain spelling true offset place.old (most - result.left) place.new
        (take result.len bytes.now) }
{
    let mut at = 0;
    let mut left = most;
    let mut last = *place;
    'items: while left > 0 && at < bytes.len() {
        let item = at + tag_len(bytes, at, spelling);
        if item == bytes.len() {
            break 'items;
        }
        let len = plain_len(bytes, item, spelling);
        if len == 0 {
            break 'items;
        }
        last = offset + item;
        at = item + len;
        left -= 1;
    }
    *place = last;
    Run { len: at, left }
}

/// Takes items at the start that [`ascii_run`] does not take: texts, or with `tags` items with tags. It takes at most
/// `most`, and the `place` becomes the offset of the last one.
#[inline(always)]
fn other_run(
    bytes: &[u8],
    most: usize,
    spelling: Spelling,
    tags: bool,
    offset: usize,
    place: &mut usize,
) -> Run
    requires some { 0 < length bytes.now }
    requires room { offset + length bytes.now ≤ usize.MAX }
    ensures within { result.len ≤ length bytes.now }
    ensures most { result.left ≤ most }
    ensures some { result.left < most → 0 < result.len }
    ensures plain { ArePlain spelling tags offset place.old (most - result.left) place.new
        (take result.len bytes.now) }
{
    match bytes[0] / 32 {
        3 => text_run(bytes, most, offset, place),
        6 if tags => tagged_run(bytes, most, spelling, offset, place),
        _ => Run { len: 0, left: most },
    }
}

/// Takes at most `most` items at the start, by [`other_run`] and [`ascii_run`] in turn. The `place` becomes the offset of
/// the last item.
#[inline(never)]
fn other_runs(
    bytes: &[u8],
    most: usize,
    spelling: Spelling,
    tags: bool,
    offset: usize,
    place: &mut usize,
) -> Run
    requires room { offset + length bytes.now ≤ usize.MAX }
    ensures within { result.len ≤ length bytes.now }
    ensures most { result.left ≤ most }
    ensures some { result.left < most → 0 < result.len }
    ensures plain { ArePlain spelling tags offset place.old (most - result.left) place.new
        (take result.len bytes.now) }
{
    let mut run = Run { len: 0, left: most };
    'runs: while run.left > 0 && run.len < bytes.len() {
        let rest = &bytes[run.len..];
        let others = other_run(rest, run.left, spelling, tags, offset + run.len, place);
        if others.len == 0 {
            break 'runs;
        }
        let at = run.len + others.len;
        let items = ascii_run(&bytes[at..], others.left, spelling, offset + at, place);
        run = Run {
            len: at + items.len,
            left: items.left,
        };
    }
    run
}

/// Returns whether a tag begins at `at`, or a text of which enough bytes are there, by its first byte.
#[inline(always)]
fn begins_other(bytes: &[u8], at: usize) -> bool
    ensures { result ≡ true → at < length bytes.now }
{
    if at >= bytes.len() {
        return false;
    }
    let first = bytes[at];
    first / 32 == 6 || first / 32 == 3 && usize::from(first % 32) < bytes.len() - at
}

/// Takes at most `most` items that [`plain_len`] measures and texts of up to 255 bytes, if an item is due at `offset`.
/// With `tags` it also takes items with one tag, for which a level has to be left. The `place` becomes the offset of the
/// last item.
///
/// The loop over items takes only texts of ASCII. Other texts and items with tags have loops of their own.
#[inline(always)]
pub(crate) fn plain_run(
    bytes: &[u8],
    most: usize,
    spelling: Spelling,
    tags: bool,
    offset: usize,
    place: &mut usize,
) -> Run
    requires room { offset + length bytes.now ≤ usize.MAX }
    ensures within { result.len ≤ length bytes.now }
    ensures most { result.left ≤ most }
    ensures some { result.left < most → 0 < result.len }
    ensures plain { ArePlain spelling tags offset place.old (most - result.left) place.new
        (take result.len bytes.now) }
{
    let run = ascii_run(bytes, most, spelling, offset, place);
    if run.left == 0 || !begins_other(bytes, run.len) {
        return run;
    }
    let rest = &bytes[run.len..];
    let others = other_runs(rest, run.left, spelling, tags, offset + run.len, place);
    Run {
        len: run.len + others.len,
        left: others.left,
    }
}
