//! The title at the beginning of at least nine bytes. For a title with a number, no branch depends on the width or the
//! kind.

ghost use Rattle.std.specs.Prelude.{◌≡◌, ◌%◌, ◌<◌, ◌≤◌, IfNone, IfSome, MatchOption};
ghost use Rattle.ciborium_ll_grammar.specs.Title.{IsRefused};
ghost use Rattle.capi.specs.declared.answer.CllAnswer.TheVariants as a;
ghost use Rattle.capi.specs.Fronts.{form_in, kind_in, number_in};
ghost use Rattle.capi.specs.Pulling.{CllPull};

use crate::header::CllHeader;
use ciborium_ll_grammar::hdr::table::{TitleKind, row_of, title_lens};
use ciborium_ll_grammar::limits::LONGEST_TITLE;
use ciborium_ll_grammar::titles::title_number;

/// The least first byte of the major type 7.
const OTHERS: u8 = 0xe0;

/// The kind of a title by its first byte (RFC 7049, 2.1 to 2.3), as of [`CllHeader`]. A line has 32 first bytes.
#[rattlefmt::skip]
static KINDS: [u8; 256] = [
    0, 0, 0, 0, 0, 0, 0, 0, 0, 0, 0, 0, 0, 0, 0, 0, 0, 0, 0, 0, 0, 0, 0, 0, 0, 0, 0, 0, 0, 0, 0, 0,
    1, 1, 1, 1, 1, 1, 1, 1, 1, 1, 1, 1, 1, 1, 1, 1, 1, 1, 1, 1, 1, 1, 1, 1, 1, 1, 1, 1, 1, 1, 1, 1,
    2, 2, 2, 2, 2, 2, 2, 2, 2, 2, 2, 2, 2, 2, 2, 2, 2, 2, 2, 2, 2, 2, 2, 2, 2, 2, 2, 2, 2, 2, 2, 2,
    3, 3, 3, 3, 3, 3, 3, 3, 3, 3, 3, 3, 3, 3, 3, 3, 3, 3, 3, 3, 3, 3, 3, 3, 3, 3, 3, 3, 3, 3, 3, 3,
    4, 4, 4, 4, 4, 4, 4, 4, 4, 4, 4, 4, 4, 4, 4, 4, 4, 4, 4, 4, 4, 4, 4, 4, 4, 4, 4, 4, 4, 4, 4, 4,
    5, 5, 5, 5, 5, 5, 5, 5, 5, 5, 5, 5, 5, 5, 5, 5, 5, 5, 5, 5, 5, 5, 5, 5, 5, 5, 5, 5, 5, 5, 5, 5,
    6, 6, 6, 6, 6, 6, 6, 6, 6, 6, 6, 6, 6, 6, 6, 6, 6, 6, 6, 6, 6, 6, 6, 6, 6, 6, 6, 6, 6, 6, 6, 6,
    7, 7, 7, 7, 7, 7, 7, 7, 7, 7, 7, 7, 7, 7, 7, 7, 7, 7, 7, 7, 7, 7, 7, 7, 7, 8, 9, 10, 11, 11, 11, 11,
];

/// Returns the kind of a title by its first byte.
#[inline(always)]
#[tactic(auto, using(crate::proofs::FrontParts::kind_says))]
fn kind_of(first: u8) -> u8
    ensures { result ≡ kind_in first }
{
    KINDS[usize::from(first)]
}

/// Returns the number of a title that has one, by its first byte and the eight bytes after it. No branch depends on the
/// width.
#[inline(always)]
#[tactic(auto, using(crate::proofs::FrontParts::number_told))]
fn number_of(first: u8, word: u64) -> u64
    requires { first % 32 ≤ 27 }
    ensures { result ≡ number_in (first % 32) word }
{
    title_number(first, word)
}

/// Gives the parts of the header of a title that has no number, and returns the length of the title. `None` means that
/// no title begins with this byte.
#[inline(always)]
fn pull_open(first: u8, header: &mut CllHeader) -> Option<usize>
    requires { 27 < first % 32 }
    ensures none { IfNone result (header.new ≡ header.old) }
    ensures taken { IfSome result (λ len. IsRefused first → ⊥) }
    ensures len { IfSome result (λ len. len ≡ 1) }
    ensures value { IfSome result (λ len. header.new.value ≡ number_in (first % 32) 0) }
    ensures kind { IfSome result (λ len. header.new.kind ≡ kind_in first) }
    ensures form { IfSome result (λ len. header.new.indefinite ≡ form_in first) }
{
    if let TitleKind::Refused = row_of(first).kind {
        return None;
    }
    header.value = 0;
    header.kind = kind_of(first);
    header.indefinite = u8::from(first < OTHERS);
    Some(1)
}

/// Gives the parts of the header of the title at the beginning, and returns the length of the title. `None` means that
/// a title begins with a reserved byte, or that there are fewer than nine bytes.
#[inline(always)]
pub(crate) fn pull_front(bytes: &[u8], header: &mut CllHeader) -> Option<usize>
    ensures { MatchOption result (header.new ≡ header.old)
        (λ len. CllPull bytes.now a.Ok header.old header.new len) }
{
    let front = bytes.first_chunk::<LONGEST_TITLE>()?;
    let first = front[0];
    if first % 32 > 27 {
        return pull_open(first, header);
    }
    let word = u64::from_be_bytes([
        front[1], front[2], front[3], front[4], front[5], front[6], front[7], front[8],
    ]);
    header.value = number_of(first, word);
    header.kind = kind_of(first);
    header.indefinite = 0;
    Some(usize::from(title_lens()[usize::from(first % 32)]))
}
