//! The copier of an item: it gives bytes to a checker, and those without a fault to a copier of elements.

ghost use Rattle.std.specs.Prelude.{◌≡◌, ◌≢◌, ◌+◌, ◌<◌, ◌≤◌, ◌^◌, ◌⊎◌, ◌++◌, Bool, ℕ, List, [], length, take, drop};
ghost use Rattle.std.specs.Prelude.{true, false};
ghost use Rattle.ciborium_ll_grammar.specs.declared.spelling.Spelling.{Spelling};
ghost use Rattle.ciborium_ll_grammar.specs.declared.spelling.Spelling.TheVariants.{Any, Shortest};
ghost use Rattle.ciborium_ll_grammar.specs.declared.limits.TheConstants.{LONGEST_AFFIX};
ghost use Rattle.ciborium_ll_grammar.specs.Title.{AreBytes};
ghost use Rattle.cbor_copier.specs.Copying.{HasCopied};
ghost use Rattle.cbor_copier.specs.Reading.{NoneGoOn};
ghost use Rattle.cbor_checker.specs.Checking.{spot_of};
ghost use Rattle.cbor_checker.specs.Spots.{Spot};
ghost use Rattle.cbor_checker.specs.Steps.{IsFed};
ghost use Rattle.cbor_checker.specs.Telling.{IsAtFault, is_due};
ghost use Rattle.cbor_item_copier.specs.Copying.{kept_len, most, pending_of};

use crate::progress::{Copied, End, Progress};
use crate::snapshot::Snapshot;
use cbor_checker::{Checker, End as CheckedEnd, Progress as Checked};
use cbor_copier::Copier;
use ciborium_ll_grammar::limits::LONGEST_AFFIX;
use ciborium_ll_grammar::spelling::Spelling;

/// Returns whether bytes of the spelling are to be written.
fn lacks_room(copier: &Copier) -> bool
    ensures yes { result ≡ true → pending_of copier.now ≢ [] }
    ensures no { result ≡ false → pending_of copier.now ≡ [] }
{
    matches!(copier.end(), cbor_copier::End::Room)
}

/// Returns whether no item begins with the bytes so far.
fn has_fault(checker: &Checker) -> bool
    ensures yes { result ≡ true → IsAtFault (spot_of checker.now) }
    ensures no { result ≡ false → IsAtFault (spot_of checker.now) → ⊥ }
{
    matches!(checker.progress(), Checked::Fault(_))
}

/// Feeds a piece to a checker, and returns how many bytes it takes: up to the end of the item or the byte at fault. It
/// takes none if no more bytes can be counted.
fn check(checker: &mut Checker, bytes: &[u8]) -> usize
    requires some { 0 < length bytes.now }
    requires due { is_due (spot_of checker.old).phase ≡ true }
    ensures within { result ≤ length bytes.now }
    ensures taken { (allowed : Spelling) (depth : ℕ) (fed : List ℕ) → IsFed allowed depth fed (spot_of checker.old)
        → IsFed allowed depth (fed ++ take result bytes.now) (spot_of checker.new) × (length fed + result ≤ most) }
    ensures none { (allowed : Spelling) (depth : ℕ) (fed : List ℕ) → IsFed allowed depth fed (spot_of checker.old)
        → result ≡ 0 → IsFed allowed depth fed (spot_of checker.new) × (length fed + 1 ≡ 2 ^ 64) }
{
    checker.feed(bytes).taken
}

/// Returns how many of the bytes that a checker took are copied: all except the byte at fault.
fn copied_len(checker: &Checker, taken: usize) -> usize
    requires { 0 < taken }
    ensures { (IsAtFault (spot_of checker.now) × (result + 1 ≡ taken))
        ⊎ ((IsAtFault (spot_of checker.now) → ⊥) × (result ≡ taken)) }
{
    if has_fault(checker) { taken - 1 } else { taken }
}

/// Returns how many of the `left` bytes of a piece go at once: as many as surely have room, and at least one. The bytes
/// of a title or a character that are held back are at most `LONGEST_AFFIX`.
fn step_len(left: usize, room: usize) -> usize
    requires { 0 < left }
    ensures some { (0 < result) × (result ≤ left) }
    ensures fits { (result ≤ 1) ⊎ (result + LONGEST_AFFIX ≤ room) }
{
    left.min(room.saturating_sub(LONGEST_AFFIX)).max(1)
}

/// Copies bytes with which some elements begin, and returns how many bytes were written. All bytes that were put out
/// before have to be given.
fn copy(copier: &mut Copier, bytes: &[u8], out: &mut [u8]) -> usize
    requires given { pending_of copier.old ≡ [] }
    requires fits { (length bytes.now ≤ 1) ⊎ (length bytes.now + LONGEST_AFFIX ≤ length out.old) }
    ensures written { result ≤ length out.old }
    ensures kept { drop result out.new ≡ drop result out.old }
    ensures full { (pending_of copier.new ≡ []) ⊎ (result ≡ length out.old) }
    ensures grown { result + kept_len copier.new ≤ kept_len copier.old + length bytes.now }
    ensures copied { (fed given : List ℕ) → (NoneGoOn Any most (fed ++ bytes.now) → ⊥) → AreBytes bytes.now
        → length fed + length bytes.now ≤ most → HasCopied Any most fed given copier.old
        → HasCopied Any most (fed ++ bytes.now) (given ++ take result out.new) copier.new }
{
    copier.feed(bytes, out).written
}

/// Copies one item of CBOR (RFC 7049, 2.1 to 2.4) in its shortest spelling. A caller gives its bytes in pieces to
/// [`ItemCopier::feed`], which writes into the caller's memory.
#[derive(Drop)]
pub struct ItemCopier {
    checker: Checker,
    copier: Copier,
}

impl ItemCopier {
    ghost use Rattle.cbor_item_copier.specs.Copying.{Answers, AnswersEnd, AnswersPiece, HasCopied as HasItemCopied};
    ghost use Rattle.cbor_item_copier.specs.Copying.{IsItemCopied, held, item_spot, pending};
    ghost use Rattle.std.specs.Prelude.{IfSome, IsSome, IsSomeAnd};
    ghost use Rattle.cbor_item_copier.specs.Snapshots.{HoldsSome, Keeps, Saves};
    ghost use Rattle.cbor_item_copier.specs.Steps.{Takes, TakesAt};
    ghost use Rattle.cbor_item_copier.specs.declared.progress.Progress.{Progress};
    ghost use Rattle.cbor_item_copier.specs.declared.progress.Progress.TheVariants as r;
    ghost use Rattle.cbor_item_copier.specs.Reading.{Copies, IsLast, IsMore, IsRoom, Tells, TellsEnd};
    ghost use Rattle.cbor_item_copier.specs.Telling.{IsAnswer, progress_of};
    ghost use Rattle.ciborium_ll_grammar.specs.declared.limits.TheConstants.{MOST_LEVELS};

    /// Makes a copier of one item, which has read no byte and written none, with the `depth` of [`Checker::new`].
    pub fn new(depth: usize) -> ItemCopier
        requires { depth ≤ MOST_LEVELS }
        ensures { HasItemCopied Any depth [] [] result }
    {
        ItemCopier::with_spelling(depth, Spelling::Any)
    }

    /// Makes a copier of one item that takes only the item's shortest spelling (RFC 7049, 3.9), with the `depth` and
    /// the faults of [`Checker::strict`].
    pub fn strict(depth: usize) -> ItemCopier
        requires { depth ≤ MOST_LEVELS }
        ensures { HasItemCopied Shortest depth [] [] result }
    {
        ItemCopier::with_spelling(depth, Spelling::Shortest)
    }

    /// Makes the copier of [`ItemCopier::new`] for `Any`, and that of [`ItemCopier::strict`] for `Shortest`.
    pub fn with_spelling(depth: usize, spelling: Spelling) -> ItemCopier
        requires { depth ≤ MOST_LEVELS }
        ensures { HasItemCopied spelling depth [] [] result }
    {
        ItemCopier {
            checker: Checker::with_spelling(depth, spelling),
            copier: Copier::new(usize::MAX),
        }
    }

    /// Returns the answer, by the states.
    fn answer(&self) -> Progress
        ensures answers { result ≡ progress_of (pending self.now) (item_spot self.now) }
        ensures tells { (allowed : Spelling) (depth : ℕ) (fed given : List ℕ) → IsItemCopied allowed depth fed given
            self.now
            → Tells allowed depth fed given result }
    {
        if lacks_room(&self.copier) {
            return Progress::Room;
        }
        match self.checker.progress() {
            Checked::More(due) => Progress::More(due),
            Checked::Ended(len) => Progress::Ended(len),
            Checked::Fault(fault) => Progress::Fault(fault),
            Checked::TooLong => Progress::TooLong,
        }
    }

    /// Returns the last answer of [`ItemCopier::feed`], or `More(1)` before the first piece. After a `TooLong` it
    /// returns `More`.
    pub fn progress(&self) -> Progress
        ensures tells { (allowed : Spelling) (depth : ℕ) (read written : List ℕ)
            → HasItemCopied allowed depth read written self.now → Tells allowed depth read written result }
        ensures is { Answers self.now result }
        ensures long { result ≡ r.TooLong → ⊥ }
    {
        self.answer()
    }

    /// Returns how the copy stands if no more bytes come.
    pub fn end(&self) -> End
        ensures tells { (allowed : Spelling) (depth : ℕ) (read written : List ℕ)
            → HasItemCopied allowed depth read written self.now → TellsEnd allowed depth read written result }
        ensures is { AnswersEnd self.now result }
    {
        if lacks_room(&self.copier) {
            return End::Room;
        }
        match self.checker.end() {
            CheckedEnd::Between => End::Between,
            CheckedEnd::Short(due) => End::Short(due),
            CheckedEnd::Fault(fault) => End::Fault(fault),
        }
    }

    /// Writes the pending bytes, as far as there is room, and returns how many.
    fn give(&mut self, out: &mut [u8]) -> usize
        ensures written { result ≤ length out.old }
        ensures kept { drop result out.new ≡ drop result out.old }
        ensures full { (pending self.new ≡ []) ⊎ (result ≡ length out.old) }
        ensures grown { result + held self.new ≤ held self.old }
        ensures copied { (allowed : Spelling) (depth : ℕ) (fed given : List ℕ)
            → IsItemCopied allowed depth fed given self.old
            → IsItemCopied allowed depth fed (given ++ take result out.new) self.new }
        ensures none { pending self.old ≡ [] → (result ≡ 0) × (self.new ≡ self.old) }
    {
        if !lacks_room(&self.copier) {
            return 0;
        }
        self.copier.feed(&[], out).written
    }

    /// Takes bytes up to the end of the item or to a fault. Returns how many bytes were taken and how many were
    /// written, or `None` if no more bytes can be counted.
    fn step(&mut self, bytes: &[u8], out: &mut [u8]) -> Option<(usize, usize)>
        requires some { 0 < length bytes.now }
        requires fits { (length bytes.now ≤ 1) ⊎ (length bytes.now + LONGEST_AFFIX ≤ length out.old) }
        requires given { pending self.old ≡ [] }
        requires due { is_due (item_spot self.old).phase ≡ true }
        ensures { Takes self.old bytes.now out.old result out.new self.new }
    {
        let taken = check(&mut self.checker, bytes);
        if taken == 0 {
            return None;
        }
        let copied = copied_len(&self.checker, taken);
        Some((taken, copy(&mut self.copier, &bytes[..copied], out)))
    }

    /// Takes bytes of a piece from the place `at` on, and writes after the first `written` bytes of `out`. Returns the
    /// ends of both, or `None` if no more bytes can be counted.
    fn step_at(
        &mut self,
        bytes: &[u8],
        at: usize,
        out: &mut [u8],
        written: usize,
    ) -> Option<(usize, usize)>
        requires some { at < length bytes.now }
        requires room { written ≤ length out.old }
        requires given { pending self.old ≡ [] }
        requires due { is_due (item_spot self.old).phase ≡ true }
        ensures { TakesAt self.old bytes.now at out.old written result out.new self.new }
    {
        let len = step_len(bytes.len() - at, out.len() - written);
        let (taken, more) = self.step(&bytes[at..at + len], &mut out[written..])?;
        Some((at + taken, written + more))
    }

    /// Does what [`ItemCopier::feed`] says, by the states.
    fn take(&mut self, bytes: &[u8], out: &mut [u8]) -> Copied
        ensures taken { result.taken ≤ length bytes.now }
        ensures written { result.written ≤ length out.old }
        ensures kept { drop result.written out.new ≡ drop result.written out.old }
        ensures copied { (allowed : Spelling) (depth : ℕ) (fed given : List ℕ)
            → IsItemCopied allowed depth fed given self.old
            → IsItemCopied allowed depth (fed ++ take result.taken bytes.now) (given ++ take result.written out.new)
            self.new }
        ensures tells { (allowed : Spelling) (depth : ℕ) (fed given : List ℕ) → IsItemCopied allowed depth fed given
            self.old
            → Tells allowed depth (fed ++ take result.taken bytes.now) (given ++ take result.written out.new)
            result.progress }
        ensures answers { IsAnswer result.progress (pending self.new) (item_spot self.new) }
        ensures all { IsMore result.progress → result.taken ≡ length bytes.now }
        ensures long { result.progress ≡ r.TooLong → result.taken < length bytes.now }
        ensures cut { (allowed : Spelling) (depth : ℕ) (fed given : List ℕ) → IsItemCopied allowed depth fed given
            self.old
            → result.progress ≡ r.TooLong → is_due (item_spot self.new).phase ≡ true }
        ensures full { IsRoom result.progress → result.written ≡ length out.old }
        ensures fits { pending self.old ≡ [] → length bytes.now + LONGEST_AFFIX ≤ length out.old → IsRoom result.progress → ⊥ }
        ensures grown { result.written + held self.new ≤ held self.old + result.taken }
        ensures stays { is_due (item_spot self.old).phase ≡ false → pending self.old ≡ []
            → (result.taken ≡ 0) × (result.written ≡ 0) × (self.new ≡ self.old)
            × (result.progress ≡ progress_of (pending self.old) (item_spot self.old)) }
    {
        let mut written = self.give(out);
        let mut at = 0;
        'pieces: while at < bytes.len() {
            match self.answer() {
                Progress::More(_) => {}
                progress => {
                    return Copied {
                        taken: at,
                        written,
                        progress,
                    };
                }
            }
            match self.step_at(bytes, at, out, written) {
                Some((next, end)) => {
                    at = next;
                    written = end;
                }
                None => {
                    return Copied {
                        taken: at,
                        written,
                        progress: Progress::TooLong,
                    };
                }
            }
        }
        Copied {
            taken: bytes.len(),
            written,
            progress: self.answer(),
        }
    }

    /// Takes a piece of the item's bytes, of any length, and writes their shortest spelling to the start of `out`, as
    /// [`Copier::feed`] does.
    ///
    /// - `More(n)`: all that can be written of the bytes so far is written.
    /// - `Room`: `out` is full. The caller gives the rest of the piece again.
    /// - `Ended(n)`: the call takes no byte after the item.
    /// - `Fault`: the answer comes with the first byte that makes it true. That byte counts as taken, and the spelling
    ///   of the bytes before it is written.
    #[inline(always)]
    pub fn feed(&mut self, bytes: &[u8], out: &mut [u8]) -> Copied
        ensures read { (allowed : Spelling) (depth : ℕ) (read written : List ℕ)
            → HasItemCopied allowed depth read written self.old
            → HasItemCopied allowed depth (read ++ take result.taken bytes.now)
            (written ++ take result.written out.new) self.new
            × Copies allowed depth read written bytes.now (take result.written out.new) result }
        ensures is { AnswersPiece self.new result.progress }
        ensures taken { result.taken ≤ length bytes.now }
        ensures written { result.written ≤ length out.old }
        ensures kept { drop result.written out.new ≡ drop result.written out.old }
        ensures all { IsMore result.progress → result.taken ≡ length bytes.now }
        ensures long { result.progress ≡ r.TooLong → result.taken < length bytes.now }
        ensures full { IsRoom result.progress → result.written ≡ length out.old }
        ensures none { (IsRoom result.progress → ⊥) → pending self.new ≡ [] }
        ensures fits { pending self.old ≡ [] → length bytes.now + LONGEST_AFFIX ≤ length out.old → IsRoom result.progress → ⊥ }
        ensures grown { result.written + held self.new ≤ held self.old + result.taken }
        ensures stays { (progress : Progress) → Answers self.old progress → IsLast progress
            → (result.taken ≡ 0) × (result.written ≡ 0) × (self.new ≡ self.old) × (result.progress ≡ progress) }
    {
        self.take(bytes, out)
    }

    /// Writes the state into `snapshot` as plain numbers, for [`ItemCopier::load`] and [`ItemCopier::restore`].
    pub fn save(&self, snapshot: &mut Snapshot)
        ensures keeps { (allowed : Spelling) (depth : ℕ) (read written : List ℕ)
            → HasItemCopied allowed depth read written self.now → Keeps allowed depth read written snapshot.new }
        ensures saves { Saves self.now snapshot.new }
    {
        self.checker.save(&mut snapshot.checker);
        snapshot.copier = self.copier.save();
    }

    /// Becomes the copier that [`ItemCopier::save`] wrote, and returns whether there is one.
    #[inline(always)]
    pub fn load(&mut self, snapshot: &Snapshot) -> bool
        ensures kept { (allowed : Spelling) (depth : ℕ) (read written : List ℕ)
            → Keeps allowed depth read written snapshot.now
            → (result ≡ true) × HasItemCopied allowed depth read written self.new }
        ensures some { result ≡ true → Saves self.new snapshot.now }
        ensures found { HoldsSome snapshot.now → result ≡ true }
        ensures none { result ≡ false → self.new ≡ self.old }
    {
        let Some(copier) = Copier::restore(&snapshot.copier) else {
            return false;
        };
        if !self.checker.load(&snapshot.checker) {
            return false;
        }
        self.copier = copier;
        true
    }

    /// Returns the copier that [`ItemCopier::save`] wrote, or `None` if [`ItemCopier::load`] finds none.
    pub fn restore(snapshot: &Snapshot) -> Option<ItemCopier>
        ensures kept { (allowed : Spelling) (depth : ℕ) (read written : List ℕ)
            → Keeps allowed depth read written snapshot.now
            → IsSomeAnd result (λ copier. HasItemCopied allowed depth read written copier) }
        ensures some { IfSome result (λ copier. Saves copier snapshot.now) }
        ensures found { HoldsSome snapshot.now → IsSome result }
    {
        let mut copier = ItemCopier::new(0);
        if copier.load(snapshot) {
            Some(copier)
        } else {
            None
        }
    }
}
