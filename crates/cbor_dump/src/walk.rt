//! Keeps the tags, arrays and maps that a title stands within.

ghost use Rattle.std.specs.Prelude.{◌≡◌, ◌≤◌, ◌<◌, ◌++◌, [], ℕ, suc, Bool, List, IsTrue};
ghost use Rattle.ciborium_ll.specs.Types.Header.{Header as AnyHeader};
ghost use Rattle.cbor_dump.specs.Levels.{IsPlace, index_in};
ghost use Rattle.ciborium_ll_grammar.specs.declared.spelling.Spelling.{Spelling};
ghost use Rattle.ciborium_ll_grammar.specs.declared.limits.TheConstants.{MOST_LEVELS};

use crate::key::Key;
use crate::rows::Within;
use cbor_skip::Remaining;
use ciborium_ll::Header;
use ciborium_ll::limits::MOST_LEVELS;

/// The effect of a title that begins a level.
pub(crate) enum Entered {
    /// No level is left for it.
    Deep,
    /// It has no items, and has ended.
    Empty,
    /// It has begun a level, and items are due within it.
    Within,
}

/// Returns the index of the first item within a tag, an array or a map, if it has one.
fn first_index(header: Header) -> Option<usize>
    ensures { result ≡ index_in header 0 }
{
    match header {
        Header::Array(_) => Some(0),
        _ => None,
    }
}

/// Returns the index of the item after the item of this index.
fn next_index(index: Option<usize>) -> Option<usize>
    ensures { (header : AnyHeader) (count : ℕ) → index ≡ index_in header count
        → result ≡ index_in header (suc count) }
{
    match index {
        None => None,
        Some(index) => Some(index.saturating_add(1)),
    }
}

/// The tags, arrays and maps that are not closed, and the items due within each.
#[derive(Drop)]
pub(crate) struct Walk {
    levels: [Remaining; MOST_LEVELS],
    /// The index of the next item within each level, if the level is an array.
    indexes: [Option<usize>; MOST_LEVELS],
    /// The last item of the innermost level, if that has an item.
    key: Key,
    used: usize,
    depth: usize,
    ghost shallow: { depth ≤ MOST_LEVELS },
    ghost within: { used ≤ depth },
}

impl Walk {
    ghost use Rattle.ciborium_ll.specs.Title.{IsTitle};
    ghost use Rattle.ciborium_ll.specs.Items.{IsTakenTitle};
    ghost use Rattle.cbor_skip.specs.Due.{IsNest};
    ghost use Rattle.cbor_dump.specs.Walks.{Breaks, Ends, Enters, IsBehindItem, IsDue, IsDueBehind};
    ghost use Rattle.ciborium_ll_grammar.specs.declared.limits.TheConstants.{MOST_LEVELS};

    /// Makes a walk with no level open, of at most `depth` levels.
    pub(crate) fn new(depth: usize) -> Walk
        requires { depth ≤ MOST_LEVELS }
        ensures { (allowed : Spelling) → IsDue allowed depth 0 result [] }
    {
        Walk {
            levels: [Remaining::Items(0); MOST_LEVELS],
            indexes: [None; MOST_LEVELS],
            key: Key::Other,
            used: 0,
            depth,
        }
    }

    /// Returns how many levels are open.
    pub(crate) fn level(&self) -> usize
        ensures few { result ≤ MOST_LEVELS }
        ensures value { result ≡ self.now.used }
    {
        self.used
    }

    /// Returns the place of the item that is due.
    pub(crate) fn within(&self) -> Within
        ensures { (allowed : Spelling) (depth whole : ℕ) (before : List ℕ)
            (due : IsDue allowed depth whole self.now before)
            → IsPlace depth due.nests before result }
    {
        if self.used == 0 {
            return Within::Nothing;
        }
        if self.levels[self.used - 1].is_value() {
            return Within::Key(self.key);
        }
        match self.indexes[self.used - 1] {
            Some(index) => Within::Index(index),
            None => Within::Nothing,
        }
    }

    /// Takes the title of a tag, an array or a map.
    pub(crate) fn enter(&mut self, header: Header) -> Entered
        requires nest { IsNest header }
        ensures { (allowed : Spelling) (depth whole : ℕ) (before title : List ℕ) → IsDue allowed depth whole self.old
            before
            → IsTitle title header → IsTakenTitle allowed title header
            → Enters allowed depth whole result self.new before title }
    {
        if self.used == self.depth {
            return Entered::Deep;
        }
        let remaining = Remaining::behind(header);
        if remaining.is_done() {
            return Entered::Empty;
        }
        self.levels[self.used] = remaining;
        self.indexes[self.used] = first_index(header);
        self.used += 1;
        Entered::Within
    }

    /// Takes a break, and returns whether it may stand there. If it may, the call closes the last level.
    pub(crate) fn close(&mut self) -> bool
        ensures { (allowed : Spelling) (depth whole : ℕ) (before : List ℕ) → IsDue allowed depth whole self.old before
            → Breaks allowed depth whole result self.new before }
    {
        if self.used == 0 {
            return false;
        }
        if !self.levels[self.used - 1].closes() {
            return false;
        }
        self.used -= 1;
        true
    }

    /// Takes the end of an item, which the key names, and closes each level that ends with it.
    pub(crate) fn item_done(&mut self, key: Key)
        ensures { (allowed : Spelling) (depth whole : ℕ) (bytes : List ℕ)
            → IsBehindItem allowed depth whole self.old key bytes → IsDueBehind allowed depth whole self.new bytes }
    {
        let mut named = key;
        'levels: while self.ends_level(named) {
            named = Key::Other;
        }
    }

    /// Takes the end of an item, and returns whether the last level ends with it. The call then closes that level.
    fn ends_level(&mut self, key: Key) -> bool
        ensures ends { (allowed : Spelling) (depth whole : ℕ) (bytes : List ℕ)
            → IsBehindItem allowed depth whole self.old key bytes → Ends allowed depth whole result self.new bytes }
        ensures fewer { IsTrue result → self.new.used < self.old.used }
    {
        if self.used == 0 {
            return false;
        }
        let at = self.used - 1;
        let remaining = self.levels[at];
        if remaining.is_done() {
            return false;
        }
        let after = remaining.after_item();
        self.levels[at] = after;
        self.indexes[at] = next_index(self.indexes[at]);
        self.key = key;
        if !after.is_done() {
            return false;
        }
        self.used = at;
        true
    }
}
