//! Titles that a spelling takes.

ghost use Rattle.std.specs.Prelude.{◌≡◌, ◌+◌, ◌++◌, ◌%◌, ◌≤◌, IfSome, IfNone, length, slice_index};
ghost use Rattle.ciborium_ll_grammar.specs.Items.{IsTakenTitle};
ghost use Rattle.ciborium_ll_grammar.specs.Title.{IsTitle, affix_len};
ghost use Rattle.cbor_parser.specs.Titles.{IsNoTakenTitle};
ghost use Rattle.ciborium_ll_grammar.specs.declared.limits.TheConstants.{LONGEST_TITLE};

use crate::few::Few;
use ciborium_ll_grammar::hdr::Header;
use ciborium_ll_grammar::spelling::Spelling;
use ciborium_ll_grammar::titles::title_of;

/// Returns the header of a title, or `None` if the spelling does not take it. All bytes that its first byte announces
/// are there.
///
/// The call refuses a first byte that begins no title, as `1c`. For `Shortest` it also refuses a longer title, as
/// `18 01`, and a simple value from 24 to 31 (RFC 7049, 3.9).
#[inline(always)]
pub fn taken_header(bytes: &[u8], spelling: Spelling) -> Option<Header>
    requires { length bytes.now ≡ 1 + affix_len (slice_index bytes.now 0 % 32) }
    ensures title { IfSome result (IsTitle bytes.now) }
    ensures taken { IfSome result (IsTakenTitle spelling bytes.now) }
    ensures none { IfNone result (IsNoTakenTitle spelling bytes.now) }
{
    let (title, kind) = title_of(bytes)?;
    if spelling.is_shortest() && title.minor.is_refused_when_strict(title.major) {
        return None;
    }
    title.header(kind)
}

/// Adds bytes at the end of a few.
pub(crate) fn add(few: &mut Few, bytes: &[u8])
    requires { length few.old + length bytes.now ≤ LONGEST_TITLE }
    ensures { few.new ≡ few.old ++ bytes.now }
{
    'bytes: for &byte in bytes {
        few.push(byte);
    }
}
