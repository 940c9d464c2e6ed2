//! Whole items at the beginning of bytes, by a checker.

ghost use Rattle.std.specs.Prelude.{◌≡◌, ◌<◌, ◌≤◌, Some, length, take};
ghost use Rattle.ciborium_ll_grammar.specs.declared.hdr.Header.TheVariants.{Array};
ghost use Rattle.ciborium_ll_grammar.specs.declared.limits.TheConstants.{MOST_LEVELS};
ghost use Rattle.ciborium_ll_grammar.specs.Items.{AreItems};
ghost use Rattle.ciborium_ll_grammar.specs.Title.{shortest_title};

use cbor_checker::{Checker, Progress};
use ciborium_ll_grammar::limits::{LONGEST_TITLE, MOST_LEVELS};
use ciborium_ll_grammar::spelling::Spelling;

/// The shortest title of an array of 64 items.
const MANY: [u8; 2] = [0x98, 0x40];

/// The shortest title of an array of eight items.
const FEW: [u8; 1] = [0x88];

/// The shortest title of an array of one item.
const ONE: [u8; 1] = [0x81];

/// Whole items in a row.
#[derive(Drop)]
pub(crate) struct Run {
    /// How many bytes the items have.
    pub(crate) len: usize,
    /// How many items there are.
    pub(crate) count: usize,
}

/// Returns the length of the `size` items with which these bytes begin, or 0, which says nothing.
///
/// A checker reads them as the items of one array, whose shortest title this is. So a checker is made once for them,
/// which takes 2.4 KiB of the stack. An item at the last of all levels has no level left in an array.
#[inline(never)]
fn group_len(bytes: &[u8], title: &[u8], size: usize, spelling: Spelling, depth: usize) -> usize
    requires shallow { depth ≤ MOST_LEVELS }
    requires title { title.now ≡ shortest_title (Array (Some size)) }
    ensures within { result ≤ length bytes.now }
    ensures items { 0 < result → AreItems spelling depth size (take result bytes.now) }
{
    let mut checker = Checker::with_spelling(depth.min(MOST_LEVELS - 1) + 1, spelling);
    let begun = checker.feed(title);
    if !matches!(begun.progress, Progress::More(_)) {
        return 0;
    }
    let fed = checker.feed(bytes);
    match fed.progress {
        Progress::Ended(_) => fed.taken,
        Progress::More(_) | Progress::Fault(_) | Progress::TooLong => 0,
    }
}

/// Takes groups of `size` more items after a run of items, as long as the bytes go on with a group. The run then has
/// at most `most` items.
fn more_items(
    run: Run,
    bytes: &[u8],
    title: &[u8],
    size: usize,
    most: usize,
    spelling: Spelling,
    depth: usize,
) -> Run
    requires shallow { depth ≤ MOST_LEVELS }
    requires title { title.now ≡ shortest_title (Array (Some size)) }
    requires within { run.len ≤ length bytes.now }
    requires most { run.count ≤ most }
    requires items { AreItems spelling depth run.count (take run.len bytes.now) }
    ensures within { result.len ≤ length bytes.now }
    ensures most { result.count ≤ most }
    ensures items { AreItems spelling depth result.count (take result.len bytes.now) }
{
    let mut run = run;
    'groups: while size <= most - run.count && run.len < bytes.len() {
        let len = group_len(&bytes[run.len..], title, size, spelling, depth);
        if len == 0 {
            return run;
        }
        run.len += len;
        run.count += size;
    }
    run
}

/// Takes at most `most` whole items, as long as the bytes go on with one: 64 at a time, then eight, then one. It takes
/// none of a few bytes, since a checker is slower to make than their titles are to read.
pub(crate) fn whole_items(bytes: &[u8], most: usize, spelling: Spelling, depth: usize) -> Run
    requires { depth ≤ MOST_LEVELS }
    ensures within { result.len ≤ length bytes.now }
    ensures most { result.count ≤ most }
    ensures items { AreItems spelling depth result.count (take result.len bytes.now) }
{
    let none = Run { len: 0, count: 0 };
    if bytes.len() <= LONGEST_TITLE {
        return none;
    }
    let many = more_items(none, bytes, &MANY, 64, most, spelling, depth);
    let few = more_items(many, bytes, &FEW, 8, most, spelling, depth);
    more_items(few, bytes, &ONE, 1, most, spelling, depth)
}
