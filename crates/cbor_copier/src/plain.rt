//! Elements that a copy keeps as they are, and whose bytes are all there.

ghost use Rattle.std.specs.Prelude.{◌≡◌, ◌+◌, ◌-◌, ◌/◌, ◌%◌, ◌<◌, ◌≤◌, ◌⊎◌, List, [], drop, take, length, slice_index};
ghost use Rattle.std.specs.Prelude.{◌≢◌, false, true};
ghost use Rattle.ciborium_ll_grammar.specs.Elements.{IsStrictRun, Mark};
ghost use Rattle.ciborium_ll_text.specs.Text.{IsCharacters};
ghost use Rattle.ciborium_ll_grammar.specs.Title.{affix_len};
ghost use Rattle.cbor_copier.specs.Plain.{AreKept, BeginsLonger, IsKept, IsLen, StaysShort};

use ciborium_ll_grammar::limits::LONGEST_TITLE;
use ciborium_ll_grammar::titles::{affix_number, least_of};
use ciborium_ll_text::state::State;

/// The length of an element in bytes, title included, by its first byte, with two lines for each major type. It is 0 for
/// a string with an affix, for an indefinite form, and for a byte that begins no title.
#[rattlefmt::skip]
static LENS: [u8; 256] = [
    // unsigned integers
    1, 1, 1, 1, 1, 1, 1, 1, 1, 1, 1, 1, 1, 1, 1, 1,
    1, 1, 1, 1, 1, 1, 1, 1, 2, 3, 5, 9, 0, 0, 0, 0,
    // negative integers
    1, 1, 1, 1, 1, 1, 1, 1, 1, 1, 1, 1, 1, 1, 1, 1,
    1, 1, 1, 1, 1, 1, 1, 1, 2, 3, 5, 9, 0, 0, 0, 0,
    // byte strings
    1, 2, 3, 4, 5, 6, 7, 8, 9, 10, 11, 12, 13, 14, 15, 16,
    17, 18, 19, 20, 21, 22, 23, 24, 0, 0, 0, 0, 0, 0, 0, 0,
    // text strings
    1, 2, 3, 4, 5, 6, 7, 8, 9, 10, 11, 12, 13, 14, 15, 16,
    17, 18, 19, 20, 21, 22, 23, 24, 0, 0, 0, 0, 0, 0, 0, 0,
    // arrays
    1, 1, 1, 1, 1, 1, 1, 1, 1, 1, 1, 1, 1, 1, 1, 1,
    1, 1, 1, 1, 1, 1, 1, 1, 2, 3, 5, 9, 0, 0, 0, 0,
    // maps
    1, 1, 1, 1, 1, 1, 1, 1, 1, 1, 1, 1, 1, 1, 1, 1,
    1, 1, 1, 1, 1, 1, 1, 1, 2, 3, 5, 9, 0, 0, 0, 0,
    // tags
    1, 1, 1, 1, 1, 1, 1, 1, 1, 1, 1, 1, 1, 1, 1, 1,
    1, 1, 1, 1, 1, 1, 1, 1, 2, 3, 5, 9, 0, 0, 0, 0,
    // simple values and floats
    1, 1, 1, 1, 1, 1, 1, 1, 1, 1, 1, 1, 1, 1, 1, 1,
    1, 1, 1, 1, 1, 1, 1, 1, 2, 3, 5, 9, 0, 0, 0, 0,
];

/// Returns the length of an element by its first byte, or 0.
#[inline(always)]
fn len_of(first: u8) -> usize
    ensures { IsLen first result }
{
    usize::from(LENS[first as usize])
}

/// Returns whether these bytes are UTF-8 by themselves. It asks whether they are ASCII only if the first one is.
#[inline(never)]
#[tactic(auto, using(crate::proofs::PlainLaws::ascii_text, crate::proofs::PlainLaws::state_told))]
pub(crate) fn is_text(bytes: &[u8]) -> bool
    ensures yes { result ≡ true → IsCharacters bytes.now }
    ensures no { result ≡ false → IsCharacters bytes.now → ⊥ }
{
    if !bytes.is_empty() && bytes[0] < 0x80 && bytes.is_ascii() {
        return true;
    }
    matches!(State::Between.run_other(bytes), State::Between)
}

/// Returns whether a title with this affix of one byte is the shortest.
#[inline(always)]
fn stays_in_one(first: u8, x: u8) -> bool
    ensures { result ≡ true → (24 ≤ x) × (224 ≤ first → 32 ≤ x) }
{
    if first >= 0xe0 { x >= 32 } else { x >= 24 }
}

/// Returns whether a title with an affix of two bytes is the shortest, by the first byte of the affix. A float's title
/// always is.
#[inline(always)]
fn stays_in_two(first: u8, x: u8) -> bool
    ensures { result ≡ true → first < 224 → 0 < x }
{
    first >= 0xe0 || x > 0
}

/// Does what [`stays_in_two`] does, for an affix of four bytes by its first two.
#[inline(always)]
fn stays_in_four(first: u8, x: u8, y: u8) -> bool
    ensures { result ≡ true → first < 224 → 0 < x + y }
{
    first >= 0xe0 || x > 0 || y > 0
}

/// Does what [`stays_in_two`] does, for an affix of eight bytes by its first four.
#[inline(always)]
fn stays_in_eight(first: u8, x: u8, y: u8, z: u8, w: u8) -> bool
    ensures { result ≡ true → first < 224 → 0 < x + y + z + w }
{
    first >= 0xe0 || x > 0 || y > 0 || z > 0 || w > 0
}

/// Returns whether the title at the beginning of `bytes` is the shortest of its header (RFC 7049, 3.9), with a branch by
/// its width. The bytes hold all of it.
#[inline(never)]
fn is_shortest_alone(bytes: &[u8]) -> bool
    requires some { 0 < length bytes.now }
    requires whole { affix_len (slice_index bytes.now 0 % 32) < length bytes.now }
    ensures yes { result ≡ true → StaysShort (slice_index bytes.now 0) (drop 1 bytes.now) }
    ensures small { slice_index bytes.now 0 % 32 < 24 → result ≡ true }
{
    let first = bytes[0];
    match first % 32 {
        24 => stays_in_one(first, bytes[1]),
        25 => stays_in_two(first, bytes[1]),
        26 => stays_in_four(first, bytes[1], bytes[2]),
        27 => stays_in_eight(first, bytes[1], bytes[2], bytes[3], bytes[4]),
        _ => true,
    }
}

/// Does what [`is_shortest_alone`] does, by the nine bytes from the title on, without a branch by the width.
#[inline(always)]
fn is_shortest_of(front: &[u8; LONGEST_TITLE]) -> bool
    ensures yes { result ≡ true → StaysShort (slice_index front.now 0) (drop 1 front.now) }
    ensures small { slice_index front.now 0 % 32 < 24 → result ≡ true }
{
    let first = front[0];
    let word = u64::from_be_bytes([
        front[1], front[2], front[3], front[4], front[5], front[6], front[7], front[8],
    ]);
    affix_number(first, word) >= least_of(first)
}

/// Returns the length of the title at the beginning of `bytes`, if it begins no string, is the shortest of its header
/// (RFC 7049, 3.9), and all of it is there. Otherwise it returns 0.
#[inline(always)]
fn title_len(bytes: &[u8]) -> usize
    requires some { 0 < length bytes.now }
    requires bytes { slice_index bytes.now 0 / 32 ≢ 2 }
    requires text { slice_index bytes.now 0 / 32 ≢ 3 }
    ensures within { result ≤ length bytes.now }
    ensures kept { 0 < result → IsKept (take result bytes.now) }
    ensures none { result ≡ 0 → 24 ≤ slice_index bytes.now 0 % 32 }
{
    let len = len_of(bytes[0]);
    if let Some(front) = bytes.first_chunk::<LONGEST_TITLE>() {
        if !is_shortest_of(front) {
            return 0;
        }
        return len;
    }
    if len == 0 || len > bytes.len() || !is_shortest_alone(bytes) {
        return 0;
    }
    len
}

/// Returns the length of the string at `at`, if its title has an affix of one byte and is the shortest, and all of the
/// string is there. Otherwise it returns 0.
#[inline(always)]
fn long_string_len(bytes: &[u8], at: usize) -> usize
    requires some { at < length bytes.now }
    requires string { (slice_index bytes.now at / 32 ≡ 2) ⊎ (slice_index bytes.now at / 32 ≡ 3) }
    ensures within { at + result ≤ length bytes.now }
    ensures kept { 0 < result → IsKept (take result (drop at bytes.now)) }
{
    let first = bytes[at];
    let left = bytes.len() - at;
    if first % 32 != 24 || left < 2 || bytes[at + 1] < 24 {
        return 0;
    }
    let len = 2 + usize::from(bytes[at + 1]);
    if len > left {
        return 0;
    }
    if first / 32 == 3 && !is_text(&bytes[at + 2..at + len]) {
        return 0;
    }
    len
}

/// Returns the length of the string at `at`, if its title is the shortest and has at most two bytes, and all of the
/// string is there. Otherwise it returns 0.
#[inline(always)]
fn string_len(bytes: &[u8], at: usize) -> usize
    requires some { at < length bytes.now }
    requires string { (slice_index bytes.now at / 32 ≡ 2) ⊎ (slice_index bytes.now at / 32 ≡ 3) }
    ensures within { at + result ≤ length bytes.now }
    ensures kept { 0 < result → IsKept (take result (drop at bytes.now)) }
{
    let len = len_of(bytes[at]);
    if len == 0 {
        return long_string_len(bytes, at);
    }
    if len > bytes.len() - at {
        return 0;
    }
    if bytes[at] / 32 == 3 && !is_text(&bytes[at + 1..at + len]) {
        return 0;
    }
    len
}

/// Returns the length of the element at `at`, if the copy keeps it and all of it is there. A 0 says nothing.
#[inline(always)]
fn kept_len(bytes: &[u8], at: usize) -> usize
    requires some { at < length bytes.now }
    ensures within { at + result ≤ length bytes.now }
    ensures kept { 0 < result → IsKept (take result (drop at bytes.now)) }
    ensures none { result ≡ 0 → BeginsLonger (slice_index bytes.now at) }
{
    if bytes[at] / 32 == 2 || bytes[at] / 32 == 3 {
        return string_len(bytes, at);
    }
    title_len(&bytes[at..])
}

/// Elements in a row.
#[derive(Drop)]
pub(crate) struct Run {
    /// How many bytes the elements have.
    pub(crate) len: usize,
    /// Where the last element begins.
    pub(crate) last: usize,
    /// How many more elements the caller allowed.
    pub(crate) left: usize,
}

/// Returns at most `most` elements whose lengths [`kept_len`] gives. It stays a function of its own, with all that an
/// element needs in registers.
#[inline(never)]
pub(crate) fn kept_run(bytes: &[u8], most: usize) -> Run
    ensures within { result.len ≤ length bytes.now }
    ensures most { result.left ≤ most }
    ensures last { result.last ≤ result.len }
    ensures kept { 0 < result.len → AreKept (most - result.left) result.last (take result.len bytes.now) }
    ensures strict { (marks : List Mark) × IsStrictRun (most - result.left) (take result.len bytes.now) marks }
    ensures ends { (result.left ≡ 0) ⊎ ((result.len ≡ length bytes.now)
        ⊎ BeginsLonger (slice_index bytes.now result.len)) }
{
    let mut at = 0;
    let mut last = 0;
    let mut left = most;
    'elements: while left > 0 && at < bytes.len() {
        let len = kept_len(bytes, at);
        if len == 0 {
            return Run {
                len: at,
                last,
                left,
            };
        }
        last = at;
        at += len;
        left -= 1;
    }
    Run {
        len: at,
        last,
        left,
    }
}

/// Returns whether [`kept_run`] may return an element, by the first title alone.
#[inline(always)]
fn may_begin(bytes: &[u8]) -> bool
    ensures { result ≡ false → 0 < length bytes.now → BeginsLonger (slice_index bytes.now 0) }
{
    if bytes.is_empty() {
        return false;
    }
    let first = bytes[0];
    if first / 32 == 2 || first / 32 == 3 {
        return first % 32 <= 24;
    }
    title_len(bytes) > 0
}

/// Elements in a row, each in its shortest spelling.
#[derive(Drop)]
pub struct ShortestRun {
    /// How many elements there are.
    pub elements: usize,
    /// How many bytes they have.
    pub len: usize,
}

/// Returns at most `most` elements at the start of `bytes`, each in its shortest spelling (RFC 7049, 3.9). They have no
/// simple value from 24 to 31 (RFC 7049, 2.3).
///
/// There may be more such elements: the run may end before a string, or before a title of more than one byte. It never
/// ends before another element of one byte.
#[inline(always)]
pub fn shortest_run(bytes: &[u8], most: usize) -> ShortestRun
    ensures within { result.len ≤ length bytes.now }
    ensures most { result.elements ≤ most }
    ensures run { (marks : List Mark) × IsStrictRun result.elements (take result.len bytes.now) marks }
    ensures ends { (result.elements ≡ most) ⊎ ((result.len ≡ length bytes.now)
        ⊎ BeginsLonger (slice_index bytes.now result.len)) }
{
    // This test spares a call before each element that is longer.
    if !may_begin(bytes) {
        return ShortestRun {
            elements: 0,
            len: 0,
        };
    }
    let run = kept_run(bytes, most);
    ShortestRun {
        elements: most - run.left,
        len: run.len,
    }
}
