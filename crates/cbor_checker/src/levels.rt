//! The tags, arrays and maps around an item, by their numbers, as a snapshot holds them.

ghost use Rattle.std.specs.Prelude.{◌≡◌, ◌<◌, ◌≤◌, [], ◌∷◌, None, Some, IsSome, false, length, true};
ghost use Rattle.cbor_checker.specs.Snapshots.{levels_in};
ghost use Rattle.cbor_checker.specs.Stack.{innermost, others};
ghost use Rattle.ciborium_ll_grammar.specs.declared.limits.TheConstants.{MOST_LEVELS};

use crate::level::{level_of, numbers_of};
use ciborium_ll_grammar::limits::MOST_LEVELS;
use ciborium_ll_grammar::remaining::Remaining;

/// The number of the kind of [`Remaining::Items`].
const ITEMS: u8 = 0;

/// The number of the kind of [`Remaining::Value`]. The kinds of indefinite length have greater numbers.
const VALUE: u8 = 2;

/// The rests of the nests around an item, the innermost last. The numbers stand in the caller's memory, and a call
/// changes them there without a copy.
#[derive(Drop)]
pub(crate) struct Levels<'a> {
    pub(crate) kinds: &'a mut [u8; MOST_LEVELS],
    pub(crate) counts: &'a mut [u64; MOST_LEVELS],
    pub(crate) len: usize,
    ghost most: { len ≤ MOST_LEVELS },
    ghost kinds_long: { length kinds.now ≡ MOST_LEVELS },
    ghost counts_long: { length counts.now ≡ MOST_LEVELS },
    ghost known: { IsSome (levels_in len kinds.now counts.now) },
}

impl Levels<'_> {
    ghost use Rattle.std.specs.Prelude.{ℕ, ◌+◌, ◌-◌, suc};
    ghost use Rattle.cbor_checker.specs.Spots.{Spot, item_due, settled};
    ghost use Rattle.cbor_checker.specs.Walking.{AreLent, levels_at};
    ghost use Rattle.ciborium_ll_grammar.specs.declared.limits.TheConstants.{MOST_LEVELS};

    /// Returns the innermost level, if there is one.
    #[inline(always)]
    pub(crate) fn innermost(&mut self) -> Option<Remaining>
        ensures found { result ≡ innermost (levels_at self.old) }
        ensures same { self.new ≡ self.old }
    {
        if self.len == 0 {
            return None;
        }
        level_of(self.kinds[self.len - 1], self.counts[self.len - 1] as usize)
    }

    /// Removes the innermost level.
    #[inline(always)]
    pub(crate) fn pop(&mut self)
        ensures taken { levels_at self.new ≡ others (levels_at self.old) }
        ensures len { self.new.len ≡ self.old.len - 1 }
        ensures lent { AreLent self.old self.new }
    {
        if self.len > 0 {
            self.len -= 1;
        }
    }

    /// Returns whether there are no levels.
    #[inline(always)]
    pub(crate) fn is_empty(&self) -> bool
        ensures yes { result ≡ true → levels_at self.now ≡ [] }
        ensures no { result ≡ false → 0 < self.now.len }
    {
        self.len == 0
    }

    /// Counts an item in the innermost level, and returns whether another item is due there. If none is due, the call
    /// removes the level.
    #[inline(always)]
    pub(crate) fn advance(&mut self) -> bool
        requires { 0 < self.old.len }
        ensures due { result ≡ true → (depth : ℕ) (spot : Spot)
            → settled depth (levels_at self.old) spot ≡ item_due depth (levels_at self.new) spot }
        ensures done { result ≡ false → (depth : ℕ) (spot : Spot)
            → settled depth (levels_at self.old) spot ≡ settled (suc depth) (levels_at self.new) spot }
        ensures same { result ≡ true → self.new.len ≡ self.old.len }
        ensures less { result ≡ false → self.new.len + 1 ≡ self.old.len }
        ensures lent { AreLent self.old self.new }
    {
        let at = self.len - 1;
        if self.kinds[at] > VALUE {
            return self.advance_open();
        }
        if self.kinds[at] == ITEMS && self.counts[at] > 0 {
            self.counts[at] -= 1;
            return true;
        }
        self.advance_any()
    }

    /// Does what [`Levels::advance`] does, for a level of indefinite length, away from the path of counted levels.
    #[inline(never)]
    fn advance_open(&mut self) -> bool
        requires { 0 < self.old.len }
        ensures due { result ≡ true → (depth : ℕ) (spot : Spot)
            → settled depth (levels_at self.old) spot ≡ item_due depth (levels_at self.new) spot }
        ensures done { result ≡ false → (depth : ℕ) (spot : Spot)
            → settled depth (levels_at self.old) spot ≡ settled (suc depth) (levels_at self.new) spot }
        ensures same { result ≡ true → self.new.len ≡ self.old.len }
        ensures less { result ≡ false → self.new.len + 1 ≡ self.old.len }
        ensures lent { AreLent self.old self.new }
    {
        self.advance_any()
    }

    /// Does what [`Levels::advance`] does, for any kind of level.
    #[inline(always)]
    fn advance_any(&mut self) -> bool
        requires { 0 < self.old.len }
        ensures due { result ≡ true → (depth : ℕ) (spot : Spot)
            → settled depth (levels_at self.old) spot ≡ item_due depth (levels_at self.new) spot }
        ensures done { result ≡ false → (depth : ℕ) (spot : Spot)
            → settled depth (levels_at self.old) spot ≡ settled (suc depth) (levels_at self.new) spot }
        ensures same { result ≡ true → self.new.len ≡ self.old.len }
        ensures less { result ≡ false → self.new.len + 1 ≡ self.old.len }
        ensures lent { AreLent self.old self.new }
    {
        let Some(level) = self.innermost() else {
            unreachable!();
        };
        match level.next() {
            Some(left) => {
                self.replace(left);
                true
            }
            None => {
                self.pop();
                false
            }
        }
    }

    /// Replaces the innermost level.
    #[inline(always)]
    pub(crate) fn replace(&mut self, level: Remaining)
        requires { 0 < self.old.len }
        ensures put { levels_at self.new ≡ level ∷ others (levels_at self.old) }
        ensures len { self.new.len ≡ self.old.len }
        ensures lent { AreLent self.old self.new }
    {
        let (kind, count) = numbers_of(level);
        let at = self.len - 1;
        self.kinds[at] = kind;
        self.counts[at] = count as u64;
    }

    /// Adds a level within the others.
    #[inline(always)]
    pub(crate) fn push(&mut self, level: Remaining)
        requires { self.old.len < MOST_LEVELS }
        ensures pushed { levels_at self.new ≡ level ∷ levels_at self.old }
        ensures len { self.new.len ≡ self.old.len + 1 }
        ensures lent { AreLent self.old self.new }
    {
        let (kind, count) = numbers_of(level);
        self.kinds[self.len] = kind;
        self.counts[self.len] = count as u64;
        self.len += 1;
    }
}

/// Copies the first `len` numbers of levels.
#[inline(always)]
pub(crate) fn copy_levels(
    len: usize,
    kinds: &[u8; MOST_LEVELS],
    counts: &[u64; MOST_LEVELS],
    kinds_to: &mut [u8; MOST_LEVELS],
    counts_to: &mut [u64; MOST_LEVELS],
)
    requires { len ≤ MOST_LEVELS }
    ensures { levels_in len kinds_to.new counts_to.new ≡ levels_in len kinds.now counts.now }
{
    if len == 0 {
        return;
    }
    kinds_to[..len].copy_from_slice(&kinds[..len]);
    counts_to[..len].copy_from_slice(&counts[..len]);
}

/// Returns whether the first `len` numbers are those of levels.
#[inline(always)]
pub(crate) fn are_levels(len: usize, kinds: &[u8; MOST_LEVELS], counts: &[u64; MOST_LEVELS]) -> bool
    requires { len ≤ MOST_LEVELS }
    ensures yes { result ≡ true → IsSome (levels_in len kinds.now counts.now) }
    ensures no { result ≡ false → levels_in len kinds.now counts.now ≡ None }
{
    for at in 0..len {
        if level_of(kinds[at], counts[at] as usize).is_none() {
            return false;
        }
    }
    true
}
