//! Nests whose items are counted, and the plain items in them.

ghost use Rattle.std.specs.Prelude.{◌≡◌, ◌+◌, ◌<◌, ◌≤◌, IfSome, Some, length, slice_index, take, true, false};
ghost use Rattle.cbor_checker.specs.Plain.{IsNestTitle, counted_behind};

use super::Walk;
use crate::level::{items_left, lowered};
use crate::plain::plain_run;
use ciborium_ll_grammar::remaining::Remaining;

/// A nest whose items are counted, with an item due in it.
#[derive(Drop)]
struct Nest {
    /// The rest of the nest after that item.
    level: Remaining,
    /// How many items the rest has.
    left: usize,
}

/// Returns the nest whose title this byte is, if a search for plain items in it pays: an array of 4 to 23 items, or a
/// map of 2 to 23 pairs. `None` says nothing.
#[inline(always)]
fn nest_of(first: u8) -> Option<Nest>
    ensures enters { IfSome result (λ nest. IsNestTitle first nest.level) }
    ensures left { IfSome result (λ nest. counted_behind nest.level ≡ Some nest.left) }
    ensures few { IfSome result (λ nest. nest.left < usize.MAX) }
{
    match first {
        0x84..=0x97 => {
            let count = usize::from(first - 0x80);
            Some(Nest {
                level: Remaining::Items(count - 1),
                left: count - 1,
            })
        }
        0xa2..=0xb7 => {
            let count = usize::from(first - 0xa0);
            Some(Nest {
                level: Remaining::Value(count - 1),
                left: 2 * count - 1,
            })
        }
        _ => None,
    }
}

impl Walk<'_> {
    ghost use Rattle.cbor_checker.specs.Walking.{AreLent, spot_at};
    ghost use Rattle.cbor_checker.specs.Steps.{Leads};
    ghost use Rattle.cbor_parser.specs.declared.strings.Within.TheVariants as w;
    ghost use Rattle.cbor_checker.specs.declared.phase.Phase.TheVariants as p;

    /// Takes the plain items at the start of `bytes`, up to the last item of the innermost nest, if that nest is
    /// counted. Returns how many bytes, and whether another item is due.
    #[inline(always)]
    pub(super) fn plain_items(&mut self, bytes: &[u8]) -> (usize, bool)
        requires phase { self.old.phase ≡ p.Title }
        requires fresh { length self.old.front ≡ 0 }
        requires due { self.old.within ≡ w.Nothing }
        requires some { 0 < length bytes.now }
        requires room { self.old.offset + length bytes.now ≤ usize.MAX }
        ensures some { result.1 ≡ false → 0 < result.0 }
        ensures within { result.0 ≤ length bytes.now }
        ensures leads { Leads (spot_at self.old) (take result.0 bytes.now) (spot_at self.new) }
        ensures title { result.1 ≡ true → self.new.phase ≡ p.Title }
        ensures item { result.1 ≡ true → self.new.within ≡ w.Nothing }
        ensures clear { result.1 ≡ true → length self.new.front ≡ 0 }
        ensures lent { AreLent self.old.levels self.new.levels }
    {
        // Without levels there is no nest to fill, and a nest is no plain item.
        if self.levels.is_empty() || nest_of(bytes[0]).is_some() {
            return (0, true);
        }
        let Some(level) = self.levels.innermost() else {
            return (0, true);
        };
        let Some(left) = items_left(level) else {
            return (0, true);
        };
        let tags = self.depth > 0;
        let run = plain_run(
            bytes,
            left + 1,
            self.spelling,
            tags,
            self.offset,
            &mut self.place,
        );
        self.offset += run.len;
        if run.left > 0 {
            self.levels.replace(lowered(level, run.left - 1));
            return (run.len, true);
        }
        self.levels.pop();
        self.depth += 1;
        (run.len, self.item_over())
    }

    /// Takes the one byte of this nest's title, and the plain items after it. Returns how many bytes, and whether
    /// another item is due.
    ///
    /// The call writes the level once, as these items leave it, and not at all if they fill the nest.
    #[inline(always)]
    fn nest_taken(&mut self, bytes: &[u8], nest: Nest) -> (usize, bool)
        requires phase { self.old.phase ≡ p.Title }
        requires fresh { length self.old.front ≡ 0 }
        requires due { self.old.within ≡ w.Nothing }
        requires some { 0 < length bytes.now }
        requires room { self.old.offset + length bytes.now ≤ usize.MAX }
        requires deep { 0 < self.old.depth }
        requires enters { IsNestTitle (slice_index bytes.now 0) nest.level }
        requires left { counted_behind nest.level ≡ Some nest.left }
        requires few { nest.left < usize.MAX }
        ensures some { 0 < result.0 }
        ensures within { result.0 ≤ length bytes.now }
        ensures leads { Leads (spot_at self.old) (take result.0 bytes.now) (spot_at self.new) }
        ensures title { result.1 ≡ true → self.new.phase ≡ p.Title }
        ensures item { result.1 ≡ true → self.new.within ≡ w.Nothing }
        ensures clear { result.1 ≡ true → length self.new.front ≡ 0 }
        ensures lent { AreLent self.old.levels self.new.levels }
    {
        self.place = self.offset;
        self.offset += 1;
        let tags = self.depth > 1; // One level is the nest's.
        let run = plain_run(
            &bytes[1..],
            nest.left + 1,
            self.spelling,
            tags,
            self.offset,
            &mut self.place,
        );
        self.offset += run.len;
        if run.left > 0 {
            self.depth -= 1;
            self.levels.push(lowered(nest.level, run.left - 1));
            return (1 + run.len, true);
        }
        (1 + run.len, self.item_over())
    }

    /// Takes a title as [`Walk::other_step`] does, but looks for the title of a nest first, and takes the plain items
    /// after it.
    #[inline(always)]
    pub(super) fn item_step(&mut self, bytes: &[u8]) -> (usize, bool)
        requires phase { self.old.phase ≡ p.Title }
        requires fresh { length self.old.front ≡ 0 }
        requires due { self.old.within ≡ w.Nothing }
        requires some { 0 < length bytes.now }
        requires room { self.old.offset + length bytes.now ≤ usize.MAX }
        ensures some { 0 < result.0 }
        ensures within { result.0 ≤ length bytes.now }
        ensures leads { Leads (spot_at self.old) (take result.0 bytes.now) (spot_at self.new) }
        ensures title { result.1 ≡ true → self.new.phase ≡ p.Title }
        ensures item { result.1 ≡ true → self.new.within ≡ w.Nothing }
        ensures clear { result.1 ≡ true → length self.new.front ≡ 0 }
        ensures lent { AreLent self.old.levels self.new.levels }
    {
        match nest_of(bytes[0]) {
            Some(nest) if self.depth > 0 => self.nest_taken(bytes, nest),
            _ => self.other_step(bytes),
        }
    }

    /// Takes the plain items of the innermost nest, or if there are none, the items that [`Walk::item_run`] takes.
    /// Returns how many bytes.
    #[inline(always)]
    pub(super) fn items(&mut self, bytes: &[u8]) -> usize
        requires phase { self.old.phase ≡ p.Title }
        requires fresh { length self.old.front ≡ 0 }
        requires due { self.old.within ≡ w.Nothing }
        requires some { 0 < length bytes.now }
        requires room { self.old.offset + length bytes.now ≤ usize.MAX }
        ensures some { 0 < result }
        ensures within { result ≤ length bytes.now }
        ensures leads { Leads (spot_at self.old) (take result bytes.now) (spot_at self.new) }
        ensures lent { AreLent self.old.levels self.new.levels }
    {
        // After plain items the next step goes on, so that this function keeps nothing of them on the stack.
        let (len, goes) = self.plain_items(bytes);
        if len == 0 && goes {
            self.item_run(bytes)
        } else {
            len
        }
    }
}
