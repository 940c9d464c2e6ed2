//! Items whose first bytes tell that they are in the deterministic encoding, and whose bytes are all there.

ghost use Rattle.std.specs.Prelude.{ℕ, ◌≡◌, ◌+◌, ◌-◌, ◌<◌, ◌≤◌, length, slice_index, take, true};
ghost use Rattle.std.specs.Int.{to_be_bytes, w8, w16, w32, w64};
ghost use Rattle.cbor_deterministic.specs.Flat.{AreFlatItems, IsFlatItem, IsLen};

use crate::floats::is_wide_float;
use ciborium_ll_grammar::hdr::Float;
use ciborium_ll_text::state::is_text;

/// The length of an item in bytes, title included, by its first byte, with two lines for each major type. 0 says
/// nothing.
#[rattlefmt::skip]
static LENS: [u8; 256] = [
    // unsigned integers
    1, 1, 1, 1, 1, 1, 1, 1, 1, 1, 1, 1, 1, 1, 1, 1,
    1, 1, 1, 1, 1, 1, 1, 1, 0, 0, 0, 0, 0, 0, 0, 0,
    // negative integers
    1, 1, 1, 1, 1, 1, 1, 1, 1, 1, 1, 1, 1, 1, 1, 1,
    1, 1, 1, 1, 1, 1, 1, 1, 0, 0, 0, 0, 0, 0, 0, 0,
    // byte strings
    1, 2, 3, 4, 5, 6, 7, 8, 9, 10, 11, 12, 13, 14, 15, 16,
    17, 18, 19, 20, 21, 22, 23, 24, 0, 0, 0, 0, 0, 0, 0, 0,
    // text strings
    1, 2, 3, 4, 5, 6, 7, 8, 9, 10, 11, 12, 13, 14, 15, 16,
    17, 18, 19, 20, 21, 22, 23, 24, 0, 0, 0, 0, 0, 0, 0, 0,
    // arrays
    0, 0, 0, 0, 0, 0, 0, 0, 0, 0, 0, 0, 0, 0, 0, 0,
    0, 0, 0, 0, 0, 0, 0, 0, 0, 0, 0, 0, 0, 0, 0, 0,
    // maps
    0, 0, 0, 0, 0, 0, 0, 0, 0, 0, 0, 0, 0, 0, 0, 0,
    0, 0, 0, 0, 0, 0, 0, 0, 0, 0, 0, 0, 0, 0, 0, 0,
    // tags
    0, 0, 0, 0, 0, 0, 0, 0, 0, 0, 0, 0, 0, 0, 0, 0,
    0, 0, 0, 0, 0, 0, 0, 0, 0, 0, 0, 0, 0, 0, 0, 0,
    // simple values and floats
    1, 1, 1, 1, 1, 1, 1, 1, 1, 1, 1, 1, 1, 1, 1, 1,
    1, 1, 1, 1, 1, 1, 1, 1, 0, 0, 0, 0, 0, 0, 0, 0,
];

/// Returns the length of an item by its first byte, or 0.
#[inline(always)]
fn len_of(first: u8) -> usize
    ensures { IsLen first result }
{
    usize::from(LENS[first as usize])
}

/// Returns the number of one byte.
#[inline(always)]
fn one_byte(bytes: &[u8]) -> u8
    requires { length bytes.now ≡ 1 }
    ensures { to_be_bytes w8 result ≡ bytes.now }
{
    u8::from_be_bytes([bytes[0]])
}

/// Returns the number of two bytes, the most significant byte first.
#[inline(always)]
fn two_bytes(bytes: &[u8]) -> u16
    requires { length bytes.now ≡ 2 }
    ensures { to_be_bytes w16 result ≡ bytes.now }
{
    u16::from_be_bytes([bytes[0], bytes[1]])
}

/// Returns the number of four bytes, the most significant byte first.
#[inline(always)]
fn four_bytes(bytes: &[u8]) -> u32
    requires { length bytes.now ≡ 4 }
    ensures { to_be_bytes w32 result ≡ bytes.now }
{
    u32::from_be_bytes([bytes[0], bytes[1], bytes[2], bytes[3]])
}

/// Returns the number of eight bytes, the most significant byte first.
#[inline(always)]
fn eight_bytes(bytes: &[u8]) -> u64
    requires { length bytes.now ≡ 8 }
    ensures { to_be_bytes w64 result ≡ bytes.now }
{
    u64::from_be_bytes([
        bytes[0], bytes[1], bytes[2], bytes[3], bytes[4], bytes[5], bytes[6], bytes[7],
    ])
}

/// Returns the length of the integer at the start, if its title has an affix and is the shortest, and all of it is
/// there. Otherwise it returns 0.
#[inline(always)]
fn integer_len(bytes: &[u8]) -> usize
    requires some { 0 < length bytes.now }
    requires major { slice_index bytes.now 0 < 64 }
    ensures within { result ≤ length bytes.now }
    ensures flat { 0 < result → IsFlatItem (take result bytes.now) }
{
    match bytes[0] % 32 {
        24 if bytes.len() >= 2 && one_byte(&bytes[1..2]) >= 24 => 2,
        25 if bytes.len() >= 3 && two_bytes(&bytes[1..3]) >= 0x100 => 3,
        26 if bytes.len() >= 5 && four_bytes(&bytes[1..5]) >= 0x1_0000 => 5,
        27 if bytes.len() >= 9 && eight_bytes(&bytes[1..9]) >= 0x1_0000_0000 => 9,
        _ => 0,
    }
}

/// Returns the length of the float at the start, if no smaller width holds the float and all of it is there. Otherwise
/// it returns 0.
#[inline(always)]
fn float_len(bytes: &[u8]) -> usize
    requires some { 0 < length bytes.now }
    ensures within { result ≤ length bytes.now }
    ensures flat { 0 < result → IsFlatItem (take result bytes.now) }
{
    match bytes[0] {
        0xf9 if bytes.len() >= 3 && !is_wide_float(Float::Half(two_bytes(&bytes[1..3]))) => 3,
        0xfa if bytes.len() >= 5 && !is_wide_float(Float::Single(four_bytes(&bytes[1..5]))) => 5,
        0xfb if bytes.len() >= 9 && !is_wide_float(Float::Double(eight_bytes(&bytes[1..9]))) => 9,
        _ => 0,
    }
}

/// Returns the length of the string at the start, title included, if its body has from 24 to 255 bytes, its title is the
/// shortest, all of it is there, and a text is UTF-8. Otherwise it returns 0.
#[inline(always)]
fn string_len(bytes: &[u8]) -> usize
    requires some { 0 < length bytes.now }
    ensures within { result ≤ length bytes.now }
    ensures flat { 0 < result → IsFlatItem (take result bytes.now) }
{
    if bytes.len() < 2 {
        return 0;
    }
    let body = one_byte(&bytes[1..2]);
    let len = 2 + usize::from(body);
    if body < 24 || len > bytes.len() {
        return 0;
    }
    match bytes[0] {
        0x58 => len,
        0x78 if is_text(&bytes[2..len]) => len,
        _ => 0,
    }
}

/// Returns the length of the number, the float or the string at the start, if its title has an affix, it is in the
/// deterministic encoding, and all of it is there. Otherwise it returns 0, which says nothing.
#[inline(always)]
fn long_len(bytes: &[u8]) -> usize
    requires some { 0 < length bytes.now }
    ensures within { result ≤ length bytes.now }
    ensures flat { 0 < result → IsFlatItem (take result bytes.now) }
{
    if bytes[0] < 0x40 {
        integer_len(bytes)
    } else if bytes[0] < 0x80 {
        string_len(bytes)
    } else {
        float_len(bytes)
    }
}

/// Returns the length of the item at the start, if it takes no level, is in the deterministic encoding, and all of it is
/// there. Otherwise it returns 0, which says nothing.
#[inline(always)]
fn item_len(bytes: &[u8]) -> usize
    ensures within { result ≤ length bytes.now }
    ensures flat { 0 < result → IsFlatItem (take result bytes.now) }
{
    if bytes.is_empty() {
        return 0;
    }
    let len = len_of(bytes[0]);
    if len == 0 {
        return long_len(bytes);
    }
    if len > bytes.len() {
        return 0;
    }
    if bytes[0] / 32 == 3 && !is_text(&bytes[1..len]) {
        return 0;
    }
    len
}

/// Does what [`item_len`] does. It stays a function of its own, so that the calls for nests need less of the stack.
#[inline(never)]
pub(crate) fn flat_len(bytes: &[u8]) -> usize
    ensures within { result ≤ length bytes.now }
    ensures flat { 0 < result → IsFlatItem (take result bytes.now) }
{
    item_len(bytes)
}

/// Items in a row.
#[derive(Drop)]
pub(crate) struct Run {
    /// How many bytes the items have.
    pub(crate) len: usize,
    /// How many more items the caller allowed.
    pub(crate) left: usize,
}

/// Returns at most `most` items whose lengths [`item_len`] gives. It stays a function of its own, with all that an item
/// needs in registers.
#[inline(never)]
pub(crate) fn flat_run(bytes: &[u8], most: usize) -> Run
    ensures within { result.len ≤ length bytes.now }
    ensures most { result.left ≤ most }
    ensures flat { AreFlatItems (most - result.left) (take result.len bytes.now) }
{
    let mut at = 0;
    let mut left = most;
    'items: while left > 0 {
        let len = item_len(&bytes[at..]);
        if len == 0 {
            return Run { len: at, left };
        }
        at += len;
        left -= 1;
    }
    Run { len: at, left }
}
