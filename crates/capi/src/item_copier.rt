//! Copiers of items that a program in C keeps in memory of its own.

ghost use Rattle.std.specs.Prelude.{◌≡◌, ◌≤◌, Bool, ℕ, List, true};
ghost use Rattle.cbor_item_copier.specs.Copying.{HasCopied};
ghost use Rattle.capi.specs.declared.answer.CllAnswer.TheVariants as a;
ghost use Rattle.capi.specs.Answers.{Reports};
ghost use Rattle.capi.specs.ItemPieces.{EndsItem, FeedsItem, IsItemCopier, IsItemCopyKept, IsItemSetUp};
ghost use Rattle.capi.specs.ItemPieces.{IsNoItemCopier, item_answer, item_end_answer, item_end_number};
ghost use Rattle.capi.specs.ItemPieces.{item_number};
ghost use Rattle.capi.specs.Pieces.{StaysWithin};
ghost use Rattle.ciborium_ll_grammar.specs.declared.spelling.Spelling.{Spelling};
ghost use Rattle.ciborium_ll_grammar.specs.declared.limits.TheConstants.{MOST_LEVELS};

use crate::answer::{CllAnswer, CllReport};
use crate::checker::told_fault;
use cbor_item_copier::{End, ItemCopier, Progress, Snapshot};
use ciborium_ll::Spelling;

/// The first eight bytes of a copier that was set up: "one item" in ASCII.
const MARK: u64 = 0x6f6e_6520_6974_656d;

/// A copier of one item whose bytes come in pieces, in memory of the caller's own.
#[derive(Drop)]
#[repr(C)]
pub struct CllItemCopier {
    /// A number that other memory is unlikely to hold.
    pub mark: u64,
    /// How far the copy has come, as plain numbers.
    pub state: Snapshot,
}

const _: () = prove!(size_of::<CllItemCopier>() == 2432);

impl CllItemCopier {
    /// Makes `copier` the one that this memory holds, and says whether it holds one.
    #[inline(always)]
    #[tactic(auto, using(crate::proofs::ItemPieceLaws::is_item_copier))]
    fn load_into(&self, copier: &mut ItemCopier) -> bool
        ensures some { result ≡ true → IsItemCopier self.now }
        ensures kept { (allowed : Spelling) (depth : ℕ) (read written : List ℕ)
            → IsItemCopyKept allowed depth read written self.now
            → (result ≡ true) × HasCopied allowed depth read written copier.new }
    {
        self.mark == MARK && copier.load(&self.state)
    }
}

/// Returns the answer to a piece, and the number that comes with it.
fn told_progress(progress: Progress) -> (CllAnswer, usize)
    ensures answer { result.0 ≡ item_answer progress }
    ensures number { result.1 ≡ item_number progress }
{
    match progress {
        Progress::Ended(len) => (CllAnswer::Ok, len),
        Progress::More(due) => (CllAnswer::Short, due),
        Progress::Room => (CllAnswer::Room, 0),
        Progress::Fault(fault) => told_fault(fault),
        Progress::TooLong => (CllAnswer::TooLong, 0),
    }
}

/// Returns the answer to the end of the bytes, and the number that comes with it.
fn told_end(end: End) -> (CllAnswer, usize)
    ensures answer { result.0 ≡ item_end_answer end }
    ensures number { result.1 ≡ item_end_number end }
{
    match end {
        End::Between => (CllAnswer::Ok, 0),
        End::Short(due) => (CllAnswer::Short, due),
        End::Room => (CllAnswer::Room, 0),
        End::Fault(fault) => told_fault(fault),
    }
}

/// Sets a copier of an item in this spelling up.
pub(crate) fn init(copier: &mut CllItemCopier, depth: usize, spelling: Spelling)
    requires { depth ≤ MOST_LEVELS }
    ensures { IsItemSetUp spelling depth copier.new }
{
    ItemCopier::with_spelling(depth, spelling).save(&mut copier.state);
    copier.mark = MARK;
}

/// Gives a copier of an item its next bytes, and writes what it can of their spelling.
pub(crate) fn feed(
    copier: &mut CllItemCopier,
    bytes: &[u8],
    out: &mut [u8],
    report: &mut CllReport,
) -> CllAnswer
    ensures fed { (allowed : Spelling) (depth : ℕ) (read written : List ℕ)
        → IsItemCopyKept allowed depth read written copier.old
        → FeedsItem allowed depth read written bytes.now out.old result out.new report.new copier.new }
    ensures within { StaysWithin bytes.now out.old out.new report.new }
    ensures argument { IsNoItemCopier copier.old
        → (result ≡ a.Argument) × (copier.new ≡ copier.old) × (out.new ≡ out.old) × Reports report.new 0 0 0 }
{
    let mut restored = ItemCopier::new(0);
    if !copier.load_into(&mut restored) {
        report.say(0, 0, 0);
        return CllAnswer::Argument;
    }
    let copied = restored.feed(bytes, out);
    restored.save(&mut copier.state);
    let (told, number) = told_progress(copied.progress);
    report.say(copied.taken, copied.written, number);
    told
}

/// Says what it means that no more bytes come to a copier of an item.
pub(crate) fn end(copier: &CllItemCopier, report: &mut CllReport) -> CllAnswer
    ensures ended { (allowed : Spelling) (depth : ℕ) (read written : List ℕ)
        → IsItemCopyKept allowed depth read written copier.now
        → EndsItem allowed depth read written result report.new }
    ensures argument { IsNoItemCopier copier.now → (result ≡ a.Argument) × Reports report.new 0 0 0 }
{
    let mut restored = ItemCopier::new(0);
    if !copier.load_into(&mut restored) {
        report.say(0, 0, 0);
        return CllAnswer::Argument;
    }
    let (told, number) = told_end(restored.end());
    report.say(0, 0, number);
    told
}
