//! Copiers that a program in C keeps in memory of its own.

ghost use Rattle.std.specs.Prelude.{◌≡◌, ◌≤◌, ℕ, List, IfSome, IsSomeAnd};
ghost use Rattle.ciborium_ll_grammar.specs.declared.spelling.Spelling.{Spelling};
ghost use Rattle.cbor_copier.specs.Copying.{HasCopied};
ghost use Rattle.capi.specs.declared.answer.CllAnswer.TheVariants as a;
ghost use Rattle.capi.specs.Answers.{Reports};
ghost use Rattle.capi.specs.Pieces.{EndsCopied, FeedsCopied, IsCopier, IsCopierOf, IsCopyKept, IsNoCopier, StaysWithin};
ghost use Rattle.capi.specs.Pieces.{end_answer, end_place, progress_answer, progress_place};

use crate::answer::{CllAnswer, CllReport};
use cbor_copier::{Copier, End, Progress, Snapshot};
use ciborium_ll_grammar::spelling::Spelling;

/// The first eight bytes of a copier that was set up: "elements" in ASCII.
const MARK: u64 = 0x656c_656d_656e_7473;

/// A copier of elements whose bytes come in pieces, in memory of the caller's own.
#[derive(Drop)]
#[repr(C)]
pub struct CllCopier {
    /// A number that other memory is unlikely to hold.
    pub mark: u64,
    /// How far the copy has come, as plain numbers.
    pub state: Snapshot,
}

const _: () = prove!(size_of::<CllCopier>() == 72);

impl CllCopier {
    /// Returns the copier that this memory holds, if it holds one.
    #[inline(always)]
    #[tactic(auto, using(crate::proofs::PieceLaws::is_copier))]
    fn restored(&self) -> Option<Copier>
        ensures some { IfSome result (λ copier. IsCopier self.now) }
        ensures kept { (allowed : Spelling) (count : ℕ) (read written : List ℕ)
            → IsCopyKept allowed count read written self.now
            → IsSomeAnd result (λ copier. HasCopied allowed count read written copier) }
    {
        if self.mark == MARK {
            Copier::restore(&self.state)
        } else {
            None
        }
    }
}

/// Returns the answer to a piece, and its place.
fn told_progress(progress: Progress) -> (CllAnswer, usize)
    ensures answer { result.0 ≡ progress_answer progress }
    ensures place { result.1 ≡ progress_place progress }
{
    match progress {
        Progress::Ended => (CllAnswer::Ok, 0),
        Progress::More => (CllAnswer::Short, 0),
        Progress::Room => (CllAnswer::Room, 0),
        Progress::Syntax(place) => (CllAnswer::Syntax, place),
        Progress::TooLong => (CllAnswer::TooLong, 0),
    }
}

/// Returns the answer to the end of the bytes, and its place.
fn told_end(end: End) -> (CllAnswer, usize)
    ensures answer { result.0 ≡ end_answer end }
    ensures place { result.1 ≡ end_place end }
{
    match end {
        End::Ended => (CllAnswer::Ok, 0),
        End::Short => (CllAnswer::Short, 0),
        End::Room => (CllAnswer::Room, 0),
        End::Syntax(place) => (CllAnswer::Syntax, place),
    }
}

/// Sets a copier of `count` elements of this spelling up.
pub(crate) fn init(copier: &mut CllCopier, count: usize, spelling: Spelling)
    ensures { IsCopierOf spelling count copier.new }
{
    copier.state = Copier::with_spelling(count, spelling).save();
    copier.mark = MARK;
}

/// Gives a copier the next bytes of its elements, and writes what it can of their spelling.
pub(crate) fn feed(
    copier: &mut CllCopier,
    bytes: &[u8],
    out: &mut [u8],
    report: &mut CllReport,
) -> CllAnswer
    ensures fed { (allowed : Spelling) (count : ℕ) (read written : List ℕ)
        → IsCopyKept allowed count read written copier.old
        → FeedsCopied allowed count read written bytes.now out.old result out.new report.new copier.new }
    ensures within { StaysWithin bytes.now out.old out.new report.new }
    ensures argument { IsNoCopier copier.old
        → (result ≡ a.Argument) × (copier.new ≡ copier.old) × (out.new ≡ out.old) × Reports report.new 0 0 0 }
{
    let Some(mut restored) = copier.restored() else {
        report.say(0, 0, 0);
        return CllAnswer::Argument;
    };
    let copied = restored.feed(bytes, out);
    copier.state = restored.save();
    let (told, place) = told_progress(copied.progress);
    report.say(copied.taken, copied.written, place);
    told
}

/// Says what it means that no more bytes come to a copier.
pub(crate) fn end(copier: &CllCopier, report: &mut CllReport) -> CllAnswer
    ensures ended { (allowed : Spelling) (count : ℕ) (read written : List ℕ)
        → IsCopyKept allowed count read written copier.now
        → EndsCopied allowed count read written result report.new }
    ensures argument { IsNoCopier copier.now → (result ≡ a.Argument) × Reports report.new 0 0 0 }
{
    let Some(restored) = copier.restored() else {
        report.say(0, 0, 0);
        return CllAnswer::Argument;
    };
    let (told, place) = told_end(restored.end());
    report.say(0, 0, place);
    told
}
