//! The length of the item with which bytes begin, and how many more are due if they end too early, by a checker.

ghost use Rattle.std.specs.Prelude.{◌≡◌, ◌≤◌, IfSome, false, length};
ghost use Rattle.cbor_skip.specs.ItemFaults.{BeginsWithItem};
ghost use Rattle.ciborium_ll_grammar.specs.declared.spelling.Spelling.TheVariants.{Any};
ghost use Rattle.capi.specs.Lacking.{ItemLacks};
ghost use Rattle.ciborium_ll_grammar.specs.declared.limits.TheConstants.{MOST_LEVELS};

use cbor_checker::{Checker, Progress};
use ciborium_ll::Spelling;

/// Returns how many bytes must follow these at least, so that they begin with an item, or 0 if no bytes make them do
/// so. It is a function of its own, since a checker takes 2.4 KiB of the stack.
#[inline(never)]
pub(crate) fn due_behind(bytes: &[u8], depth: usize, spelling: Spelling) -> usize
    requires shallow { depth ≤ MOST_LEVELS }
    requires cut { BeginsWithItem spelling depth bytes.now → ⊥ }
    ensures { ItemLacks spelling depth bytes.now result }
{
    let mut checker = Checker::with_spelling(depth, spelling);
    match checker.feed(bytes).progress {
        Progress::More(due) => due,
        Progress::Ended(_) | Progress::Fault(_) | Progress::TooLong => 0,
    }
}

/// Returns the length of the item with which these bytes begin, if they begin with an item. A checker takes an item in
/// runs, and is faster than a skip. It is a function of its own, as `due_behind` is.
#[inline(never)]
pub(crate) fn item_len(bytes: &[u8], depth: usize) -> Option<usize>
    requires shallow { depth ≤ MOST_LEVELS }
    ensures { IfSome result (λ len. (front : BeginsWithItem Any depth bytes.now) × (len ≡ length front.item)) }
{
    let mut checker = Checker::new(depth);
    match checker.feed(bytes).progress {
        Progress::Ended(len) => Some(len),
        Progress::More(_) | Progress::Fault(_) | Progress::TooLong => None,
    }
}
