//! Titles whose first bytes came.

ghost use Rattle.std.specs.Prelude.{◌≡◌, ◌<◌, ◌%◌, ◌≤◌, true, false, length, slice_index};
ghost use Rattle.ciborium_ll_grammar.specs.Title.{affix_len};
ghost use Rattle.cbor_parser.specs.Longer.{BeginsLonger, HasZero};
ghost use Rattle.cbor_parser.specs.Titles.{NoneTaken, SomeTaken};

use ciborium_ll_grammar::hdr::table::{Affix, row_of};
use ciborium_ll_grammar::spelling::Spelling;

/// Returns whether a byte of 0 stands at `at`.
fn has_zero(bytes: &[u8], at: usize) -> bool
    ensures yes { result ≡ true → HasZero bytes.now at }
    ensures no { HasZero bytes.now at → result ≡ true }
{
    at < bytes.len() && bytes[at] == 0
}

/// Returns whether only longer titles begin with these bytes. A number in two, four or eight bytes whose first half is
/// 0 has a smaller form (RFC 7049, 3.9). A float has only one title.
fn begins_longer(bytes: &[u8]) -> bool
    requires { 0 < length bytes.now }
    ensures yes { result ≡ true → BeginsLonger bytes.now }
    ensures no { BeginsLonger bytes.now → result ≡ true }
{
    if bytes[0] >= 224 {
        return false;
    }
    match row_of(bytes[0]).affix {
        Affix::Two => has_zero(bytes, 1),
        Affix::Four => has_zero(bytes, 1) && has_zero(bytes, 2),
        Affix::Eight => has_zero(bytes, 1)
            && has_zero(bytes, 2)
            && has_zero(bytes, 3)
            && has_zero(bytes, 4),
        _ => false,
    }
}

/// Returns whether the spelling takes no title that begins with these bytes, which are too few for a whole title.
///
/// For `Shortest` it takes none that begins with `19 00`: the number has a shorter title (RFC 7049, 3.9).
pub fn begins_none(bytes: &[u8], spelling: Spelling) -> bool
    requires some { 0 < length bytes.now }
    requires cut { length bytes.now ≤ affix_len (slice_index bytes.now 0 % 32) }
    ensures yes { result ≡ true → NoneTaken spelling bytes.now }
    ensures no { result ≡ false → SomeTaken spelling bytes.now }
{
    spelling.is_shortest() && begins_longer(bytes)
}
