//! Titles whose bytes are all in memory, for checkers, copiers and views.

ghost use Rattle.std.specs.Prelude.{◌≡◌, ◌+◌, ◌++◌, ◌%◌, ◌<◌, ◌≤◌, IfSome, IfNone, MatchOption, length, slice_index};
ghost use Rattle.std.specs.Prelude.{true, false, take, ◌/◌, ◌^◌, ◌∷◌, [], Some};
ghost use Rattle.std.specs.Int.{to_be_bytes, w16, w32, w64};
ghost use Rattle.ciborium_ll_grammar.specs.Title.{BeginsRefused, HasFirstTitle, HasNoTitle, IsCutTitle, IsReserved};
ghost use Rattle.ciborium_ll_grammar.specs.Title.{IsTitle, IsRefused, affix_len};
ghost use Rattle.ciborium_ll_grammar.specs.Parts.{IsMinor, IsParts, minor_affix, minor_code, minor_number, parts_bytes};
ghost use Rattle.ciborium_ll_grammar.specs.Parts.{refused_when_strict, title_bytes};
ghost use Rattle.ciborium_ll_grammar.specs.TitleRows.{IsAffix, IsLeast, IsTitleKind};
ghost use Rattle.ciborium_ll_grammar.specs.declared.hdr.Minor.{Minor as AnyMinor};

use crate::hdr::table::{Affix, NO_NUMBER, TitleKind, row_of, shift_of};
use crate::hdr::{Header, Minor, Title, open_header, other_header};

/// Tells if the bytes are too few for their title.
#[inline(always)]
pub fn are_begun(bytes: &[u8]) -> bool
    ensures yes { result ≡ true → length bytes.now ≤ affix_len (slice_index bytes.now 0 % 32) }
    ensures no { result ≡ false → affix_len (slice_index bytes.now 0 % 32) < length bytes.now }
{
    bytes.is_empty() || bytes.len() <= row_of(bytes[0]).affix.len()
}

/// Returns the minor of a first byte, with the number in its lower five bits or in the affix `bytes`.
///
/// `None` means that the minor is reserved.
#[inline(always)]
fn minor_of(affix: Affix, first: u8, bytes: &[u8]) -> Option<Minor>
    requires affix { IsAffix affix (first % 32) }
    requires long { length bytes.now ≡ affix_len (first % 32) }
    ensures minor { IfSome result IsMinor }
    ensures code { IfSome result (λ minor. minor_code minor ≡ first % 32) }
    ensures affix { IfSome result (λ minor. minor_affix minor ≡ bytes.now) }
    ensures none { IfNone result (IsReserved (first % 32)) }
{
    match affix {
        Affix::Within => Some(Minor::Small(u64::from(first % 32))),
        Affix::One => Some(Minor::One(u64::from(bytes[0]))),
        Affix::Two => Some(Minor::Two(u64::from(two_bytes(bytes)))),
        Affix::Four => Some(Minor::Four(u64::from(four_bytes(bytes)))),
        Affix::Eight => Some(Minor::Eight(eight_bytes(bytes))),
        Affix::Open => Some(Minor::Open),
        Affix::Reserved => None,
    }
}

/// Returns the number in the affix at the beginning of the eight bytes of `word` (RFC 7049, 2.1). A table has the affix's
/// length. Only the minors from 24 to 27 have an affix.
///
/// After `19`, the eight bytes `01 00 20 20 20 20 20 20` give 256.
#[inline(always)]
pub fn affix_number(first: u8, word: u64) -> u64
    ensures one { first % 32 ≡ 24 → result ≡ word / 2 ^ 56 }
    ensures two { first % 32 ≡ 25 → result ≡ word / 2 ^ 48 }
    ensures four { first % 32 ≡ 26 → result ≡ word / 2 ^ 32 }
    ensures eight { first % 32 ≡ 27 → result ≡ word }
{
    word >> (u32::from(shift_of(first)) % 64)
}

/// Tells if titles with this first byte have a number (RFC 7049, 2.1): those of the minors up to 27.
#[inline(always)]
pub fn has_number(first: u8) -> bool
    ensures yes { result ≡ true → first % 32 ≤ 27 }
    ensures no { result ≡ false → 27 < first % 32 }
{
    shift_of(first) != NO_NUMBER
}

/// Returns the number of a title, by its first byte and the eight bytes of `word` after it (RFC 7049, 2.1). It is in the
/// lower five bits or in the affix. No branch depends on the width.
///
/// `17` gives 23, whatever `word` is. After `19`, the eight bytes `01 00 20 20 20 20 20 20` give 256.
#[inline(always)]
pub fn title_number(first: u8, word: u64) -> u64
    ensures small { first % 32 < 24 → result ≡ first % 32 }
    ensures one { first % 32 ≡ 24 → result ≡ word / 2 ^ 56 }
    ensures two { first % 32 ≡ 25 → result ≡ word / 2 ^ 48 }
    ensures four { first % 32 ≡ 26 → result ≡ word / 2 ^ 32 }
    ensures eight { first % 32 ≡ 27 → result ≡ word }
{
    let affix = affix_number(first, word);
    if first % 32 < 24 {
        u64::from(first % 32)
    } else {
        affix
    }
}

/// Returns the minor of a first byte and its number, which is in the lower five bits or in the affix at the beginning of
/// the eight bytes (RFC 7049, 2.1). No branch depends on the width.
#[inline(always)]
pub fn numbered_minor(first: u8, bytes: [u8; 8]) -> (Minor, u64)
    requires { first % 32 ≤ 27 }
    ensures minor { IsMinor result.0 }
    ensures code { minor_code result.0 ≡ first % 32 }
    ensures number { minor_number result.0 ≡ Some result.1 }
    ensures bytes { parts_bytes (first / 32) result.0 ≡ first ∷ take (affix_len (first % 32)) bytes }
{
    let number = title_number(first, u64::from_be_bytes(bytes));
    let minor = match first % 32 {
        24 => Minor::One(number),
        25 => Minor::Two(number),
        26 => Minor::Four(number),
        27 => Minor::Eight(number),
        _ => Minor::Small(number),
    };
    (minor, number)
}

/// The least number in a title of this width that is the shortest of its header, by its first byte, with two lines for
/// each major type (RFC 7049, 3.9).
#[rattlefmt::skip]
const LEASTS: [u64; 256] = [
    // unsigned integers
    0, 0, 0, 0, 0, 0, 0, 0, 0, 0, 0, 0, 0, 0, 0, 0,
    0, 0, 0, 0, 0, 0, 0, 0, 0x18, 0x100, 0x1_0000, 0x1_0000_0000, 0, 0, 0, 0,
    // negative integers
    0, 0, 0, 0, 0, 0, 0, 0, 0, 0, 0, 0, 0, 0, 0, 0,
    0, 0, 0, 0, 0, 0, 0, 0, 0x18, 0x100, 0x1_0000, 0x1_0000_0000, 0, 0, 0, 0,
    // byte strings
    0, 0, 0, 0, 0, 0, 0, 0, 0, 0, 0, 0, 0, 0, 0, 0,
    0, 0, 0, 0, 0, 0, 0, 0, 0x18, 0x100, 0x1_0000, 0x1_0000_0000, 0, 0, 0, 0,
    // text strings
    0, 0, 0, 0, 0, 0, 0, 0, 0, 0, 0, 0, 0, 0, 0, 0,
    0, 0, 0, 0, 0, 0, 0, 0, 0x18, 0x100, 0x1_0000, 0x1_0000_0000, 0, 0, 0, 0,
    // arrays
    0, 0, 0, 0, 0, 0, 0, 0, 0, 0, 0, 0, 0, 0, 0, 0,
    0, 0, 0, 0, 0, 0, 0, 0, 0x18, 0x100, 0x1_0000, 0x1_0000_0000, 0, 0, 0, 0,
    // maps
    0, 0, 0, 0, 0, 0, 0, 0, 0, 0, 0, 0, 0, 0, 0, 0,
    0, 0, 0, 0, 0, 0, 0, 0, 0x18, 0x100, 0x1_0000, 0x1_0000_0000, 0, 0, 0, 0,
    // tags
    0, 0, 0, 0, 0, 0, 0, 0, 0, 0, 0, 0, 0, 0, 0, 0,
    0, 0, 0, 0, 0, 0, 0, 0, 0x18, 0x100, 0x1_0000, 0x1_0000_0000, 0, 0, 0, 0,
    // simple values and floats
    0, 0, 0, 0, 0, 0, 0, 0, 0, 0, 0, 0, 0, 0, 0, 0,
    0, 0, 0, 0, 0, 0, 0, 0, 0x20, 0, 0, 0, 0, 0, 0, 0,
];

/// Returns the least number in a title with this first byte that is the shortest of its header (RFC 7049, 3.9). A table
/// has it.
///
/// After `19` it is 256. It is 0 for a title of one byte, and for a float.
#[inline(always)]
pub fn least_of(first: u8) -> u64
    ensures { IsLeast first result }
{
    LEASTS[first as usize]
}

/// Tells if a title with this first byte and number is not the shortest of its header (RFC 7049, 2.3 and 3.9). A strict
/// decoder refuses it. No branch depends on the width.
///
/// `19` with 255 is not the shortest, and with 256 it is.
#[inline(always)]
pub fn is_longer(first: u8, number: u64) -> bool
    ensures { (minor : AnyMinor) → IsMinor minor → minor_code minor ≡ first % 32 → minor_number minor ≡ Some number
        → result ≡ refused_when_strict (first / 32) minor }
{
    number < least_of(first)
}

/// Returns the header of the title of this first byte, minor and number (RFC 7049, 2.1).
#[inline(always)]
pub fn numbered_header(first: u8, minor: Minor, number: u64) -> Header
    requires minor { IsMinor minor }
    requires number { minor_number minor ≡ Some number }
    ensures { IsTitle (parts_bytes (first / 32) minor) result }
{
    // A float has other fields than a number. Without it, a caller's match on the header joins the one below.
    if first / 32 == 7 {
        return other_header(minor);
    }
    match u32::from(first) / 32 {
        0 => Header::Positive(number),
        1 => Header::Negative(number),
        2 => Header::Bytes(Some(number as usize)),
        3 => Header::Text(Some(number as usize)),
        4 => Header::Array(Some(number as usize)),
        5 => Header::Map(Some(number as usize)),
        _ => Header::Tag(number),
    }
}

/// Returns the header of a first byte whose minor is from 28 to 31, or `None` if no title begins so (RFC 7049, 2.1).
pub fn open_title(first: u8) -> Option<Header>
    requires { 27 < first % 32 }
    ensures some { IfSome result (IsTitle (first ∷ [])) }
    ensures open { IfSome result (λ header. first % 32 ≡ 31) }
    ensures none { IfNone result (IsRefused first) }
{
    if first % 32 < 31 {
        return None;
    }
    open_header(row_of(first).kind)
}

/// Returns the number of two bytes, the most significant byte first.
#[inline(always)]
fn two_bytes(bytes: &[u8]) -> u16
    requires { length bytes.now ≡ 2 }
    ensures { to_be_bytes w16 result ≡ bytes.now }
{
    u16::from_be_bytes([bytes[0], bytes[1]])
}

/// Returns the number of four bytes, the most significant byte first.
#[inline(always)]
fn four_bytes(bytes: &[u8]) -> u32
    requires { length bytes.now ≡ 4 }
    ensures { to_be_bytes w32 result ≡ bytes.now }
{
    u32::from_be_bytes([bytes[0], bytes[1], bytes[2], bytes[3]])
}

/// Returns the number of eight bytes, the most significant byte first.
#[inline(always)]
fn eight_bytes(bytes: &[u8]) -> u64
    requires { length bytes.now ≡ 8 }
    ensures { to_be_bytes w64 result ≡ bytes.now }
{
    u64::from_be_bytes([
        bytes[0], bytes[1], bytes[2], bytes[3], bytes[4], bytes[5], bytes[6], bytes[7],
    ])
}

/// Returns the whole title in `bytes` and its kind, or `None` for a reserved minor (RFC 7049, 2.1).
#[inline(always)]
pub fn title_of(bytes: &[u8]) -> Option<(Title, TitleKind)>
    requires { length bytes.now ≡ 1 + affix_len (slice_index bytes.now 0 % 32) }
    ensures parts { IfSome result (λ found. IsParts found.0) }
    ensures kind { IfSome result (λ found. IsTitleKind found.1 found.0.major (minor_code found.0.minor)) }
    ensures bytes { IfSome result (λ found. title_bytes found.0 ≡ bytes.now) }
    ensures none { IfNone result (BeginsRefused bytes.now) }
{
    let first = bytes[0];
    let row = row_of(first);
    let minor = minor_of(row.affix, first, &bytes[1..])?;
    let title = Title {
        major: first / 32,
        minor,
    };
    Some((title, row.kind))
}

/// Returns the header of a title, or `None` if no title begins with its first byte (RFC 7049, 2.1). All bytes that the
/// first byte announces are there.
///
/// `19 01 00` is a title of 256, and `1c` begins none.
#[inline(always)]
pub fn header_of(bytes: &[u8]) -> Option<Header>
    requires { length bytes.now ≡ 1 + affix_len (slice_index bytes.now 0 % 32) }
    ensures some { IfSome result (IsTitle bytes.now) }
    ensures none { IfNone result (BeginsRefused bytes.now) }
{
    let (title, kind) = title_of(bytes)?;
    title.header(kind)
}

/// Splits bytes after their first one and the bytes that it announces, or returns `None` if they are fewer.
///
/// `19 01 00 20` is split into `19 01 00` and `20`. The call does not ask if a title begins so.
#[inline(always)]
pub fn split_title(bytes: &[u8]) -> Option<(&[u8], &[u8])>
    ensures parts { IfSome result (λ found. bytes.now ≡ found.0.now ++ found.1.now) }
    ensures title { IfSome result (λ found. length found.0.now ≡ 1 + affix_len (slice_index found.0.now 0 % 32)) }
    ensures none { IfNone result (IsCutTitle bytes.now) }
{
    if bytes.is_empty() {
        return None;
    }
    bytes.split_at_checked(1 + row_of(bytes[0]).affix.len())
}

/// Returns the header of the title at the beginning of the bytes, and the rest.
///
/// `82 01 02` begins with the title of an array of 2, and its rest is `01 02`.
#[inline(always)]
pub fn next_title(bytes: &[u8]) -> Option<(Header, &[u8])>
    ensures { MatchOption result (HasNoTitle bytes.now) (λ found. HasFirstTitle bytes.now found.0 found.1.now) }
{
    let (title, rest) = split_title(bytes)?;
    let header = header_of(title)?;
    Some((header, rest))
}
