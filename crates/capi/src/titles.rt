//! Titles one after the other, each with its place, and the bodies that the call passes over.

ghost use Rattle.std.specs.Prelude.{◌≡◌, ◌≢◌, ◌↔◌, ◌+◌, ◌<◌, ◌≤◌, ℕ, List, MatchOption, drop, length};
ghost use Rattle.ciborium_ll.specs.Types.Header.{Header as AnyHeader};
ghost use Rattle.ciborium_ll.specs.Decoding.{offset_limit};
ghost use Rattle.capi.specs.declared.answer.CllAnswer.TheVariants as a;
ghost use Rattle.capi.specs.declared.titles.CllTitle.{CllTitle as AnyTitle};
ghost use Rattle.capi.specs.Headers.{Says};
ghost use Rattle.capi.specs.Titles.{BeginsWithBody, FillsTitles, Gives, HasBody, HasNoBody, HasTitles};
ghost use Rattle.capi.specs.Titles.{ReadsTitle, StopsAt, StopsTitles};

use crate::answer::{CllAnswer, CllReport};
use crate::due::due_behind;
use crate::header::CllHeader;
use crate::{pull, skip};
use ciborium_ll::Spelling;
use ciborium_ll_text::state::is_text;

/// A header, and the offsets at which its title starts and ends.
#[derive(Clone, Copy, Debug, PartialEq, Eq)]
#[repr(C)]
pub struct CllTitle {
    /// The value of the header, as of [`CllHeader`].
    pub value: u64,
    /// The offset at which the title starts.
    pub start: u64,
    /// The offset at which the title ends, and the body of a string of a definite length begins.
    pub end: u64,
    /// The kind of the header, as of [`CllHeader`].
    pub kind: u8,
    /// 1 for the indefinite forms, and 0 otherwise.
    pub indefinite: u8,
}

impl CllTitle {
    /// Takes the fields of another title one by one. A copy of the struct also copies the bytes after its fields.
    #[inline(always)]
    fn assign(&mut self, other: CllTitle)
        ensures { self.new ≡ other }
    {
        self.value = other.value;
        self.start = other.start;
        self.end = other.end;
        self.kind = other.kind;
        self.indefinite = other.indefinite;
    }
}

/// Returns the length of the body that a title of this header has at the start of `rest`, if the body is there whole
/// and a text is UTF-8.
#[inline(always)]
fn body_len(header: CllHeader, rest: &[u8]) -> Option<usize>
    ensures { (meant : AnyHeader) → Says header meant
        → MatchOption result (HasNoBody meant rest.now) (HasBody meant rest.now) }
{
    if header.indefinite == 1 || header.kind < 2 || header.kind > 3 {
        return Some(0);
    }
    let len = header.value as usize;
    let body = rest.get(..len)?;
    if header.kind == 3 && !is_text(body) {
        return None;
    }
    Some(len)
}

/// Reads the title with which the bytes begin, and passes over its body. The bytes stand at the offset `start`. Returns
/// the title, and the length of both.
#[inline(always)]
fn read_title(bytes: &[u8], start: usize) -> Option<(CllTitle, usize)>
    requires { start + length bytes.now < offset_limit }
    ensures { MatchOption result (BeginsWithBody bytes.now → ⊥) (λ read. ReadsTitle bytes.now start read.0 read.1) }
{
    let mut header = CllHeader {
        value: 0,
        kind: 0,
        indefinite: 0,
    };
    let mut len = 0;
    match pull(bytes, &mut header, &mut len) {
        CllAnswer::Ok => {
            let body = body_len(header, &bytes[len..])?;
            let title = CllTitle {
                value: header.value,
                start: start as u64,
                end: (start + len) as u64,
                kind: header.kind,
                indefinite: header.indefinite,
            };
            Some((title, len + body))
        }
        _ => None,
    }
}

/// Says why no title with its body begins at the offset `taken`, after `filled` titles.
#[cold]
#[inline(never)]
fn stop(bytes: &[u8], taken: usize, filled: usize, report: &mut CllReport) -> CllAnswer
    requires within { taken < length bytes.now }
    requires none { BeginsWithBody (drop taken bytes.now) → ⊥ }
    ensures { StopsAt bytes.now taken filled result report.new }
{
    let rest = &bytes[taken..];
    let answer = skip(rest, 0, report);
    let place = match answer {
        CllAnswer::Short => due_behind(rest, 1, Spelling::Any),
        _ => taken + report.place as usize,
    };
    report.say(taken, filled, place);
    answer
}

/// Fills `titles` with the titles of the bytes, up to the end of either, or to a fault.
pub(crate) fn fill(bytes: &[u8], titles: &mut [CllTitle], report: &mut CllReport) -> CllAnswer
    ensures exactly { (taken : ℕ) (entries : List AnyTitle) → (HasTitles (length titles.old) bytes.now taken entries
        ↔ (result ≡ a.Ok) × Gives titles.old taken entries titles.new report.new) }
    ensures stopped { (taken : ℕ) (entries : List AnyTitle) → (StopsTitles (length titles.old) bytes.now taken entries
        ↔ (result ≢ a.Ok) × Gives titles.old taken entries titles.new report.new) }
    ensures filled { FillsTitles bytes.now titles.old result titles.new report.new }
{
    let mut filled = 0;
    let mut taken = 0;
    'titles: while filled < titles.len() && taken < bytes.len() {
        match read_title(&bytes[taken..], taken) {
            Some((title, len)) => {
                titles[filled].assign(title);
                filled += 1;
                taken += len;
            }
            None => return stop(bytes, taken, filled, report),
        }
    }
    report.say(taken, filled, 0);
    CllAnswer::Ok
}
