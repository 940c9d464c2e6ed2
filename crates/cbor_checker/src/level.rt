//! The rest of a tag, an array or a map after the item that is due in it.

ghost use Rattle.std.specs.Prelude.{◌≡◌, ◌<◌, Some, IfSome};
ghost use Rattle.ciborium_ll_grammar.specs.declared.remaining.Remaining.{Remaining as AnyRemaining};
ghost use Rattle.ciborium_ll_grammar.specs.Remaining.{closes, next};
ghost use Rattle.cbor_checker.specs.Plain.{counted_behind, lowered};
ghost use Rattle.cbor_checker.specs.Levels.{ends_before};
ghost use Rattle.cbor_checker.specs.Snapshots.{level_in};

use ciborium_ll_grammar::remaining::Remaining;

/// Returns how many items the rest has, if they are counted and can be doubled. `None` says nothing.
#[inline(always)]
pub(crate) fn items_left(rest: Remaining) -> Option<usize>
    ensures left { IfSome result (λ left. counted_behind rest ≡ Some left) }
    ensures few { IfSome result (λ left. left < usize.MAX) }
{
    match rest {
        Remaining::Items(count) if count < usize::MAX / 2 => Some(count),
        Remaining::Pairs(count) if count < usize::MAX / 2 => Some(2 * count),
        Remaining::Value(count) if count < usize::MAX / 2 => Some(2 * count + 1),
        _ => None,
    }
}

/// Returns the rest of the same nest with `left` items.
#[inline(always)]
pub(crate) fn lowered(rest: Remaining, left: usize) -> Remaining
    ensures { result ≡ lowered left rest }
{
    match rest {
        Remaining::Items(_) => Remaining::Items(left),
        _ if left % 2 == 0 => Remaining::Pairs(left / 2),
        _ => Remaining::Value(left / 2),
    }
}

/// Returns whether a break may stand in place of the item that is due before this rest.
#[inline(always)]
pub(crate) fn ends_before(rest: Remaining) -> bool
    ensures value { result ≡ ends_before rest }
    ensures closes { (due : AnyRemaining) → next due ≡ Some rest → result ≡ closes due }
{
    matches!(rest, Remaining::OpenItems | Remaining::OpenValue)
}

/// Returns the number of the kind, and a count.
#[inline(always)]
pub(crate) fn numbers_of(rest: Remaining) -> (u8, usize)
    ensures { level_in result.0 result.1 ≡ Some rest }
{
    match rest {
        Remaining::Items(count) => (0, count),
        Remaining::Pairs(count) => (1, count),
        Remaining::Value(count) => (2, count),
        Remaining::OpenItems => (3, 0),
        Remaining::OpenPairs => (4, 0),
        Remaining::OpenValue => (5, 0),
    }
}

/// Returns the rest with these numbers, if there is one.
#[inline(always)]
pub(crate) fn level_of(kind: u8, count: usize) -> Option<Remaining>
    ensures { result ≡ level_in kind count }
{
    match kind {
        0 => Some(Remaining::Items(count)),
        1 => Some(Remaining::Pairs(count)),
        2 => Some(Remaining::Value(count)),
        3 => Some(Remaining::OpenItems),
        4 => Some(Remaining::OpenPairs),
        5 => Some(Remaining::OpenValue),
        _ => None,
    }
}
