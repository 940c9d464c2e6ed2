//! A checker's state without the numbers of its nests.

ghost use Rattle.ciborium_ll_grammar.specs.declared.spelling.Spelling.{Spelling};
ghost use Rattle.std.specs.Prelude.{◌≡◌, ◌+◌, ◌<◌, ◌≤◌, ◌%◌, length, slice_index, true, false};
ghost use Rattle.std.specs.Prelude.{IfSome, IsSome, IsSomeAnd};
ghost use Rattle.ciborium_ll_grammar.specs.Title.{affix_len};
ghost use Rattle.cbor_parser.specs.Strings.{open_count};
ghost use Rattle.cbor_checker.specs.Snapshots.{levels_in};
ghost use Rattle.cbor_checker.specs.Telling.{has_left};
ghost use Rattle.ciborium_ll_grammar.specs.declared.limits.TheConstants.{MOST_LEVELS};

use crate::levels::{Levels, are_levels};
use crate::phase::Phase;
use crate::progress::Progress;
use crate::snapshot::{Snapshot, has_left, is_bounded};
use crate::tell::piece_answer;
use crate::walk::Walk;
use cbor_parser::few::Few;
use cbor_parser::spelling_of;
use cbor_parser::strings::Within;
use ciborium_ll_grammar::limits::MOST_LEVELS;
use ciborium_ll_grammar::spelling::Spelling;

/// A checker's state without the numbers of its nests: how many nests there are, and all the rest.
#[derive(Drop)]
pub(crate) struct Position {
    pub(crate) spelling: Spelling,
    pub(crate) phase: Phase,
    pub(crate) front: Few,
    pub(crate) within: Within,
    pub(crate) depth: usize,
    pub(crate) nests: usize,
    pub(crate) place: usize,
    pub(crate) offset: usize,
    ghost room: { nests + depth ≤ MOST_LEVELS },
    ghost counted: { open_count within ≤ offset },
    ghost left: { has_left phase ≡ true },
    ghost begun: { length front ≤ affix_len (slice_index front 0 % 32) },
}

impl Position {
    ghost use Rattle.std.specs.Prelude.{◌++◌, Bool, ℕ, List, take};
    ghost use Rattle.cbor_checker.specs.Places.{spot_in};
    ghost use Rattle.cbor_checker.specs.Snapshots.{Holds};
    ghost use Rattle.cbor_checker.specs.Spots.{Spot};
    ghost use Rattle.cbor_checker.specs.Steps.{IsFed};
    ghost use Rattle.cbor_checker.specs.Reading.{IsMore, Tells};
    ghost use Rattle.cbor_checker.specs.Telling.{IsAnswer, is_due};
    ghost use Rattle.cbor_checker.specs.declared.progress.Progress.TheVariants as r;
    ghost use Rattle.ciborium_ll_grammar.specs.declared.limits.TheConstants.{MOST_LEVELS};

    /// Writes the state into `snapshot`, without the numbers of nests.
    #[inline(always)]
    pub(crate) fn save(&self, snapshot: &mut Snapshot)
        ensures kinds { snapshot.new.kinds ≡ snapshot.old.kinds }
        ensures counts { snapshot.new.counts ≡ snapshot.old.counts }
        ensures holds { IsSome (levels_in self.now.nests snapshot.old.kinds snapshot.old.counts)
            → Holds snapshot.new (spot_in self.now snapshot.old.kinds snapshot.old.counts) }
    {
        let (strings, more) = self.within.numbers();
        snapshot.strings = strings;
        snapshot.more = more as u64;
        snapshot.title_len = self.front.save_into(&mut snapshot.title) as u8;
        snapshot.strict = u8::from(self.spelling.is_shortest());
        snapshot.nests = self.nests as u16;
        snapshot.depth = self.depth as u64;
        snapshot.place = self.place as u64;
        snapshot.offset = self.offset as u64;
        // The numbers that the phase decides come last, so that no other number waits for it.
        let (phase, number, text) = self.phase.numbers();
        snapshot.phase = phase;
        snapshot.number = number as u64;
        snapshot.text = text;
    }

    /// Returns the position of the checker that `snapshot` holds, or `None` if the numbers are those of no checker.
    #[inline(always)]
    pub(crate) fn restore(snapshot: &Snapshot) -> Option<Position>
        ensures some { IfSome result (λ position. Holds snapshot.now (spot_in position snapshot.now.kinds
            snapshot.now.counts)) }
        ensures known { IfSome result (λ position. IsSome (levels_in position.nests snapshot.now.kinds
            snapshot.now.counts)) }
        ensures found { (spot : Spot) → Holds snapshot.now spot
            → IsSomeAnd result (λ position. spot_in position snapshot.now.kinds snapshot.now.counts ≡ spot) }
    {
        if !is_bounded(snapshot) {
            return None;
        }
        let nests = usize::from(snapshot.nests);
        if !are_levels(nests, &snapshot.kinds, &snapshot.counts) {
            return None;
        }
        let spelling = spelling_of(snapshot.strict)?;
        // Each test of a kind follows the match on its number, so that most kinds need none. The value with the most
        // parts comes last.
        let phase = Phase::of(snapshot.phase, snapshot.number as usize, snapshot.text)?;
        if !has_left(phase) {
            return None;
        }
        let within = Within::of(snapshot.strings, snapshot.more as usize)?;
        if !within.is_counted(snapshot.offset as usize) {
            return None;
        }
        Some(Position {
            spelling,
            phase,
            front: Few::restore(&snapshot.title, usize::from(snapshot.title_len)),
            within,
            depth: snapshot.depth as usize,
            nests,
            place: snapshot.place as usize,
            offset: snapshot.offset as usize,
        })
    }

    /// Takes a piece, as [`Checker::feed`](crate::Checker::feed) does, and returns how many bytes it took. The call
    /// changes the numbers of its nests in place.
    #[inline(always)]
    pub(crate) fn take(
        &mut self,
        kinds: &mut [u8; MOST_LEVELS],
        counts: &mut [u64; MOST_LEVELS],
        bytes: &[u8],
    ) -> usize
        requires { IsSome (levels_in self.old.nests kinds.old counts.old) }
        ensures known { IsSome (levels_in self.new.nests kinds.new counts.new) }
        ensures taken { result ≤ length bytes.now }
        ensures full { result < length bytes.now → is_due self.new.phase ≡ true → self.new.offset ≡ usize.MAX }
        ensures fed { (allowed : Spelling) (depth : ℕ) (fed : List ℕ) → IsFed allowed depth fed
            (spot_in self.old kinds.old counts.old)
            → IsFed allowed depth (fed ++ take result bytes.now) (spot_in self.new kinds.new counts.new) }
        ensures counted { (allowed : Spelling) (depth : ℕ) (fed : List ℕ) → IsFed allowed depth fed
            (spot_in self.old kinds.old counts.old)
            → length fed + result ≤ usize.MAX }
        ensures stays { is_due self.old.phase ≡ false → (result ≡ 0) × (spot_in self.new kinds.new counts.new ≡ spot_in self.old kinds.old counts.old) }
    {
        let mut walk = Walk {
            spelling: self.spelling,
            phase: self.phase,
            front: self.front.copy(),
            within: self.within,
            depth: self.depth,
            levels: Levels {
                kinds,
                counts,
                len: self.nests,
            },
            place: self.place,
            offset: self.offset,
        };
        let taken = walk.take(bytes);
        *self = Position {
            spelling: walk.spelling,
            phase: walk.phase,
            front: walk.front.copy(),
            within: walk.within,
            depth: walk.depth,
            nests: walk.levels.len,
            place: walk.place,
            offset: walk.offset,
        };
        taken
    }

    /// Returns how far the item has come; `left` says that bytes of the piece are left. A call asks this after all of
    /// its writes, so that no number waits for it.
    #[inline(always)]
    pub(crate) fn tell(&self, left: bool) -> Progress
        requires full { left ≡ true → is_due self.now.phase ≡ true → self.now.offset ≡ usize.MAX }
        ensures all { left ≡ true → IsMore result → ⊥ }
        ensures long { result ≡ r.TooLong → left ≡ true }
        ensures tells { (kinds counts : List ℕ) (allowed : Spelling) (depth : ℕ) (fed : List ℕ)
            → IsFed allowed depth fed (spot_in self.now kinds counts) → Tells allowed depth fed result }
        ensures answers { (kinds counts : List ℕ) → IsAnswer result (spot_in self.now kinds counts) }
    {
        piece_answer(self.phase, &self.front, self.offset, left)
    }
}
