//! Checkers that a program in C keeps in memory of its own.

ghost use Rattle.std.specs.Prelude.{◌≡◌, ◌≤◌, ℕ, List, IfSome, IsSomeAnd};
ghost use Rattle.cbor_checker.specs.Checking.{HasRead};
ghost use Rattle.capi.specs.declared.answer.CllAnswer.TheVariants as a;
ghost use Rattle.capi.specs.Answers.{Reports};
ghost use Rattle.capi.specs.Feeding.{EndsFed, Feeds, IsChecker, IsKept, IsNoChecker, IsSetUp, TakesWithin};
ghost use Rattle.capi.specs.Feeding.{end_answer, end_number, fault_answer, fault_place};
ghost use Rattle.capi.specs.Feeding.{progress_answer, progress_number};
ghost use Rattle.ciborium_ll_grammar.specs.declared.spelling.Spelling.{Spelling};
ghost use Rattle.ciborium_ll_grammar.specs.declared.limits.TheConstants.{MOST_LEVELS};

use crate::answer::{CllAnswer, CllReport};
use cbor_checker::{Checker, End, Fault, Progress, Snapshot};
use ciborium_ll::Spelling;

/// The first eight bytes of a checker that was set up: "ciborium" in ASCII.
const MARK: u64 = 0x6369_626f_7269_756d;

/// A checker of one item whose bytes come in pieces, in memory of the caller's own.
#[derive(Drop)]
#[repr(C)]
pub struct CllChecker {
    /// A number that other memory is unlikely to hold.
    pub mark: u64,
    /// How far the item has come, as plain numbers.
    pub state: Snapshot,
}

const _: () = prove!(size_of::<CllChecker>() == 2368);

impl CllChecker {
    /// Returns the checker that this memory holds, if it holds one.
    #[inline(always)]
    #[tactic(auto, using(crate::proofs::CheckerLaws::is_checker))]
    fn restored(&self) -> Option<Checker>
        ensures some { IfSome result (λ checker. IsChecker self.now) }
        ensures kept { (allowed : Spelling) (depth : ℕ) (read : List ℕ) → IsKept allowed depth read self.now
            → IsSomeAnd result (λ checker. HasRead allowed depth read checker) }
    {
        if self.mark == MARK {
            Checker::restore(&self.state)
        } else {
            None
        }
    }
}

/// Returns the answer to a piece, and the number that comes with it.
fn told_progress(progress: Progress) -> (CllAnswer, usize)
    ensures answer { result.0 ≡ progress_answer progress }
    ensures number { result.1 ≡ progress_number progress }
{
    match progress {
        Progress::Ended(len) => (CllAnswer::Ok, len),
        Progress::More(due) => (CllAnswer::Short, due),
        Progress::Fault(fault) => told_fault(fault),
        Progress::TooLong => (CllAnswer::TooLong, 0),
    }
}

/// Returns the answer to a fault, and its place.
pub(crate) fn told_fault(fault: Fault) -> (CllAnswer, usize)
    ensures answer { result.0 ≡ fault_answer fault }
    ensures place { result.1 ≡ fault_place fault }
{
    match fault {
        Fault::Syntax(place) => (CllAnswer::Syntax, place),
        Fault::Break(place) => (CllAnswer::BreakDue, place),
        Fault::Deep(place) => (CllAnswer::TooDeep, place),
    }
}

/// Returns the answer to the end of the bytes, and the number that comes with it.
fn told_end(end: End) -> (CllAnswer, usize)
    ensures answer { result.0 ≡ end_answer end }
    ensures number { result.1 ≡ end_number end }
{
    match end {
        End::Between => (CllAnswer::Ok, 0),
        End::Short(due) => (CllAnswer::Short, due),
        End::Fault(fault) => told_fault(fault),
    }
}

/// Sets a checker of an item in this spelling up.
pub(crate) fn init(checker: &mut CllChecker, depth: usize, spelling: Spelling)
    requires { depth ≤ MOST_LEVELS }
    ensures { IsSetUp spelling depth checker.new }
{
    Checker::with_spelling(depth, spelling).save(&mut checker.state);
    checker.mark = MARK;
}

/// Gives a checker the next bytes of its item.
pub(crate) fn feed(checker: &mut CllChecker, bytes: &[u8], report: &mut CllReport) -> CllAnswer
    ensures fed { (allowed : Spelling) (depth : ℕ) (read : List ℕ) → IsKept allowed depth read checker.old
        → Feeds allowed depth read bytes.now result report.new checker.new }
    ensures within { TakesWithin bytes.now report.new }
    ensures argument { IsNoChecker checker.old
        → (result ≡ a.Argument) × (checker.new ≡ checker.old) × Reports report.new 0 0 0 }
{
    if checker.mark != MARK {
        report.say(0, 0, 0);
        return CllAnswer::Argument;
    }
    let Some(feed) = checker.state.feed(bytes) else {
        report.say(0, 0, 0);
        return CllAnswer::Argument;
    };
    let (told, number) = told_progress(feed.progress);
    report.say(feed.taken, 0, number);
    told
}

/// Says what it means that no more bytes come to a checker.
pub(crate) fn end(checker: &CllChecker, report: &mut CllReport) -> CllAnswer
    ensures ended { (allowed : Spelling) (depth : ℕ) (read : List ℕ) → IsKept allowed depth read checker.now
        → EndsFed allowed depth read result report.new }
    ensures argument { IsNoChecker checker.now → (result ≡ a.Argument) × Reports report.new 0 0 0 }
{
    let Some(restored) = checker.restored() else {
        report.say(0, 0, 0);
        return CllAnswer::Argument;
    };
    let (told, number) = told_end(restored.end());
    report.say(0, 0, number);
    told
}
