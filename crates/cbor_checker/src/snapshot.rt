//! A checker's state as plain numbers.

ghost use Rattle.ciborium_ll_grammar.specs.declared.spelling.Spelling.{Spelling};
ghost use Rattle.std.specs.Prelude.{◌≡◌, ◌<◌, ◌≤◌, length, true, false, IfNone, IfSome, IsSome, IsSomeAnd};
ghost use Rattle.std.specs.Option.{option_map};
ghost use Rattle.cbor_parser.specs.Strings.{open_count};
ghost use Rattle.cbor_parser.specs.declared.strings.Within.{Within as AnyWithin};
ghost use Rattle.cbor_checker.specs.declared.phase.Phase.{Phase as AnyPhase};
ghost use Rattle.cbor_checker.specs.Snapshots.{IsState};
ghost use Rattle.cbor_checker.specs.Telling.{has_left};

use crate::phase::Phase;
use crate::position::Position;
use crate::progress::Feed;
use ciborium_ll_grammar::limits::{LONGEST_TITLE, MOST_LEVELS};
use ciborium_ll_grammar::titles::are_begun;

/// The state of a [`Checker`](crate::Checker) as plain numbers in the caller's memory, for a program in C or one that
/// keeps many checkers.
///
/// Only the calls of a checker say which number means what; numbers that are all 0 are no state. The struct has no
/// bytes between its fields or after them.
///
/// A restored checker equals the saved checker. The calls refuse a kind that doesn't exist, or a number out of the few
/// bounds that there are. They do not find all memory that was overwritten: numbers of another state restore that
/// state, even if no bytes lead to it.
#[derive(Drop)]
#[repr(C)]
pub struct Snapshot {
    /// How many bytes came.
    pub offset: u64,
    /// The offset that a fault would name.
    pub place: u64,
    /// How many levels are left.
    pub depth: u64,
    /// How many bytes of a body are due, or the offset of a fault.
    pub number: u64,
    /// How many strings are open within the first open string.
    pub more: u64,
    /// How many items or pairs are left in each nest around the item, the innermost last.
    pub counts: [u64; MOST_LEVELS],
    /// The kind of each nest.
    pub kinds: [u8; MOST_LEVELS],
    /// How many nests there are.
    pub nests: u16,
    /// How many bytes came of a title that isn't whole.
    pub title_len: u8,
    /// Whether the checker takes the shortest spelling only.
    pub strict: u8,
    /// These bytes of the title.
    pub title: [u8; 9],
    /// What is due.
    pub phase: u8,
    /// The state that the characters of a text have led to.
    pub text: u8,
    /// Which strings are open.
    pub strings: u8,
}

impl Snapshot {
    ghost use Rattle.std.specs.Prelude.{Bool, ℕ, List, ◌++◌, take};
    ghost use Rattle.cbor_checker.specs.Checking.{Answers, AnswersPiece, HasRead, HoldsSome, Keeps, Saves};
    ghost use Rattle.cbor_checker.specs.Reading.{IsMore, Reads};
    ghost use Rattle.cbor_checker.specs.declared.checker.Checker.{Checker};
    ghost use Rattle.cbor_checker.specs.declared.progress.Progress.{Progress};
    ghost use Rattle.cbor_checker.specs.declared.progress.Progress.TheVariants as r;

    /// Returns numbers that are no state.
    pub fn new() -> Snapshot
        ensures { HoldsSome result → ⊥ }
    {
        Snapshot {
            offset: 0,
            place: 0,
            depth: 0,
            number: 0,
            more: 0,
            counts: [0; MOST_LEVELS],
            kinds: [0; MOST_LEVELS],
            nests: 0,
            title_len: 0,
            strict: 0,
            title: [0; 9],
            phase: 0,
            text: 0,
            strings: 0,
        }
    }

    /// Feeds the next piece to the checker that these numbers hold, and returns its answer, or `None` if they are no
    /// state.
    ///
    /// The call does what [`Checker::restore`](crate::Checker::restore), [`Checker::feed`](crate::Checker::feed) and
    /// [`Checker::save`](crate::Checker::save) do, but copies no numbers of nests.
    #[inline(always)]
    pub fn feed(&mut self, bytes: &[u8]) -> Option<Feed>
        ensures read { (allowed : Spelling) (depth : ℕ) (read : List ℕ) → Keeps allowed depth read self.old
            → IsSomeAnd result (λ feed. Keeps allowed depth (read ++ take feed.taken bytes.now) self.new
            × Reads allowed depth read bytes.now feed) }
        ensures is { (allowed : Spelling) (depth : ℕ) (read : List ℕ) → Keeps allowed depth read self.old
            → IfSome result (λ feed. (checker : Checker) → HasRead allowed depth (read ++ take feed.taken bytes.now)
            checker
            → AnswersPiece checker feed.progress) }
        ensures taken { IfSome result (λ feed. feed.taken ≤ length bytes.now) }
        ensures all { IfSome result (λ feed. IsMore feed.progress → feed.taken ≡ length bytes.now) }
        ensures long { IfSome result (λ feed. feed.progress ≡ r.TooLong → feed.taken < length bytes.now) }
        ensures found { HoldsSome self.old → IsSome result }
        ensures some { IfSome result (λ feed. HoldsSome self.old × HoldsSome self.new) }
        ensures stays { (checker : Checker) (progress : Progress) → Saves checker self.old → Answers checker progress
            → (IsMore progress → ⊥) → IfSome result (λ feed. (feed.taken ≡ 0) × (feed.progress ≡ progress)) }
        ensures none { IfNone result (self.new ≡ self.old) }
    {
        let mut position = Position::restore(self)?;
        let taken = position.take(&mut self.kinds, &mut self.counts, bytes);
        position.save(self);
        Some(Feed {
            taken,
            progress: position.tell(taken < bytes.len()),
        })
    }
}

/// Returns `false` for a body without bytes left.
#[inline(always)]
pub(crate) fn has_left(phase: Phase) -> bool
    ensures { result ≡ has_left phase }
{
    match phase {
        Phase::Bytes(left) | Phase::Text(left, _) => left > 0,
        _ => true,
    }
}

/// Returns whether the numbers of levels and of a title are those of a state, whatever its phase and its open strings
/// are.
#[inline(always)]
pub(crate) fn is_bounded(snapshot: &Snapshot) -> bool
    ensures yes { result ≡ true → (phase : AnyPhase) (within : AnyWithin) → has_left phase ≡ true
        → open_count within ≤ snapshot.now.offset → IsState snapshot.now phase within }
    ensures no { (phase : AnyPhase) (within : AnyWithin) → IsState snapshot.now phase within → result ≡ true }
{
    let depth = snapshot.depth as usize;
    if depth > MOST_LEVELS {
        return false;
    }
    if usize::from(snapshot.nests) > MOST_LEVELS - depth {
        return false;
    }
    let title_len = usize::from(snapshot.title_len);
    if title_len == 0 {
        return true;
    }
    if title_len > LONGEST_TITLE {
        return false;
    }
    are_begun(&snapshot.title[..title_len])
}
