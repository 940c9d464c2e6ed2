//! The checker: the position that its bytes have led to, and its answers.

ghost use Rattle.ciborium_ll_grammar.specs.declared.spelling.Spelling.{Spelling};
ghost use Rattle.ciborium_ll_grammar.specs.declared.spelling.Spelling.TheVariants.{Any, Shortest};
ghost use Rattle.std.specs.Prelude.{◌≡◌, ◌<◌, ◌+◌, ◌≤◌, length, true, false, IsSome};
ghost use Rattle.cbor_checker.specs.Snapshots.{levels_in};
ghost use Rattle.ciborium_ll_grammar.specs.declared.limits.TheConstants.{MOST_LEVELS};

use crate::levels::copy_levels;
use crate::phase::Phase;
use crate::position::Position;
use crate::progress::{End, Feed, Progress};
use crate::snapshot::Snapshot;
use crate::tell::answer;
use cbor_parser::few::Few;
use cbor_parser::strings::Within;
use ciborium_ll_grammar::limits::MOST_LEVELS;
use ciborium_ll_grammar::spelling::Spelling;

/// Checks one item of CBOR (RFC 7049, 2.1 to 2.4), whose bytes a caller gives in pieces to [`Checker::feed`].
///
/// A checker has a fixed size, most of it for the 256 levels of tags, arrays and maps around an item.
#[derive(Drop)]
pub struct Checker {
    position: Position,
    kinds: [u8; MOST_LEVELS],
    counts: [u64; MOST_LEVELS],
    ghost known: { IsSome (levels_in position.nests kinds counts) },
}

impl Checker {
    ghost use Rattle.cbor_checker.specs.Checking.{Answers, AnswersEnd, AnswersPiece, HasRead, HoldsSome, Keeps, Saves};
    ghost use Rattle.std.specs.Prelude.{Bool, ℕ, ◌++◌, List, [], IfSome, IsSomeAnd, take, true, false};
    ghost use Rattle.cbor_checker.specs.Reading.{IsMore, Reads, Tells, TellsEnd};
    ghost use Rattle.cbor_checker.specs.declared.progress.Progress.{Progress};
    ghost use Rattle.cbor_checker.specs.declared.progress.Progress.TheVariants as r;
    ghost use Rattle.ciborium_ll_grammar.specs.declared.limits.TheConstants.{MOST_LEVELS};

    /// Makes a checker for one item (RFC 7049, 2.1 to 2.4), which has read no byte.
    ///
    /// Tags, arrays and maps may be nested at most `depth` levels deep, and `depth` is at most 256. Each takes a level,
    /// even if it is empty; a string takes none.
    #[inline(always)]
    pub fn new(depth: usize) -> Checker
        requires { depth ≤ MOST_LEVELS }
        ensures { HasRead Any depth [] result }
    {
        Checker::with_spelling(depth, Spelling::Any)
    }

    /// Makes a checker for one item in its shortest spelling (RFC 7049, 3.9), with the `depth` of [`Checker::new`].
    ///
    /// Each title is the shortest of its header, no simple value from 24 to 31 occurs, and strings within an open
    /// string have a definite length. Any other spelling is a `Syntax` at the title's offset, with the first byte that
    /// shows it, as `19 00` does. But a nest that is too deep is `Deep`, whatever its title is.
    #[inline(always)]
    pub fn strict(depth: usize) -> Checker
        requires { depth ≤ MOST_LEVELS }
        ensures { HasRead Shortest depth [] result }
    {
        Checker::with_spelling(depth, Spelling::Shortest)
    }

    /// Makes the checker of [`Checker::new`] for `Any`, and that of [`Checker::strict`] for `Shortest`.
    #[inline(always)]
    pub fn with_spelling(depth: usize, spelling: Spelling) -> Checker
        requires { depth ≤ MOST_LEVELS }
        ensures { HasRead spelling depth [] result }
    {
        Checker {
            position: Position {
                spelling,
                phase: Phase::Title,
                front: Few::new(),
                within: Within::Nothing,
                depth,
                nests: 0,
                place: 0,
                offset: 0,
            },
            kinds: [0; MOST_LEVELS],
            counts: [0; MOST_LEVELS],
        }
    }

    /// Returns the last answer of [`Checker::feed`], or `More(1)` before the first piece. After a `TooLong` it returns
    /// `More`. The answer is true of all bytes that the checker has read.
    pub fn progress(&self) -> Progress
        ensures tells { (allowed : Spelling) (depth : ℕ) (read : List ℕ) → HasRead allowed depth read self.now
            → Tells allowed depth read result }
        ensures is { Answers self.now result }
        ensures long { result ≡ r.TooLong → ⊥ }
    {
        answer(
            self.position.phase,
            &self.position.front,
            self.position.offset,
        )
    }

    /// Returns how the item stands if no more bytes come. The number that is due and the fault are those of
    /// [`Checker::progress`].
    pub fn end(&self) -> End
        ensures tells { (allowed : Spelling) (depth : ℕ) (read : List ℕ) → HasRead allowed depth read self.now
            → TellsEnd allowed depth read result }
        ensures is { AnswersEnd self.now result }
    {
        if self.position.offset == 0 {
            return End::Between;
        }
        match self.progress() {
            Progress::Ended(_) => End::Between,
            Progress::Fault(fault) => End::Fault(fault),
            Progress::More(due) => End::Short(due),
            Progress::TooLong => unreachable!(),
        }
    }

    /// Takes a piece of the item's bytes, of any length, and returns how many bytes it took and how far the item has
    /// come.
    ///
    /// The call takes all bytes, or those up to the end of the item, or those up to and with the byte at fault. After
    /// the end or a fault, a later call takes no byte and answers the same. The answer is true of all bytes that the
    /// checker has read, however a caller cut them ([`one_answer`](crate::laws::one_answer)).
    #[inline(always)]
    pub fn feed(&mut self, bytes: &[u8]) -> Feed
        ensures read { (allowed : Spelling) (depth : ℕ) (read : List ℕ) → HasRead allowed depth read self.old
            → HasRead allowed depth (read ++ take result.taken bytes.now) self.new
            × Reads allowed depth read bytes.now result }
        ensures is { AnswersPiece self.new result.progress }
        ensures taken { result.taken ≤ length bytes.now }
        ensures all { IsMore result.progress → result.taken ≡ length bytes.now }
        ensures long { result.progress ≡ r.TooLong → result.taken < length bytes.now }
        ensures stays { (progress : Progress) → Answers self.old progress → (IsMore progress → ⊥)
            → (result.taken ≡ 0) × (result.progress ≡ progress) × Answers self.new progress }
    {
        let taken = self.position.take(&mut self.kinds, &mut self.counts, bytes);
        Feed {
            taken,
            progress: self.position.tell(taken < bytes.len()),
        }
    }

    /// Writes the state into `snapshot` as plain numbers, for [`Checker::load`] and [`Checker::restore`]. It writes the
    /// numbers of only those levels that are in use.
    #[inline(always)]
    pub fn save(&self, snapshot: &mut Snapshot)
        ensures keeps { (allowed : Spelling) (depth : ℕ) (read : List ℕ) → HasRead allowed depth read self.now
            → Keeps allowed depth read snapshot.new }
        ensures saves { Saves self.now snapshot.new }
    {
        copy_levels(
            self.position.nests,
            &self.kinds,
            &self.counts,
            &mut snapshot.kinds,
            &mut snapshot.counts,
        );
        self.position.save(snapshot);
    }

    /// Becomes the checker that [`Checker::save`] wrote, and returns whether there is one. It has read the same bytes.
    #[inline(always)]
    pub fn load(&mut self, snapshot: &Snapshot) -> bool
        ensures kept { (allowed : Spelling) (depth : ℕ) (read : List ℕ) → Keeps allowed depth read snapshot.now
            → (result ≡ true) × HasRead allowed depth read self.new }
        ensures some { result ≡ true → Saves self.new snapshot.now }
        ensures found { HoldsSome snapshot.now → result ≡ true }
        ensures none { result ≡ false → self.new ≡ self.old }
    {
        let Some(position) = Position::restore(snapshot) else {
            return false;
        };
        self.position = position;
        self.kinds = snapshot.kinds; // All of them, so that none need be written before.
        self.counts = snapshot.counts;
        true
    }

    /// Returns the checker that [`Checker::save`] wrote, or `None` if [`Checker::load`] finds none. It has read the
    /// same bytes.
    #[inline(always)]
    pub fn restore(snapshot: &Snapshot) -> Option<Checker>
        ensures kept { (allowed : Spelling) (depth : ℕ) (read : List ℕ) → Keeps allowed depth read snapshot.now
            → IsSomeAnd result (λ checker. HasRead allowed depth read checker) }
        ensures some { IfSome result (λ checker. Saves checker snapshot.now) }
        ensures found { HoldsSome snapshot.now → IsSome result }
    {
        Some(Checker {
            position: Position::restore(snapshot)?,
            kinds: snapshot.kinds,
            counts: snapshot.counts,
        })
    }
}
