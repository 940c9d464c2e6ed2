//! A reader that ends after a number of items.

ghost use Rattle.std.specs.Prelude.{◌≡◌, ◌≤◌, ◌+◌, ◌++◌, ℕ, List, [], length, false, None, IfErr, OnErr, OnOk};
ghost use Rattle.ciborium_ll.specs.Limits.{MOST_LEVELS};

use cbor_checker::{Checker, Progress};
use ciborium_ll::io::{Failures, Read};

/// Reads from another reader up to the end of a number of items. After these each read fails, and the reader within is
/// asked for nothing more. If the bytes begin with fewer items, all of them are handed out.
///
/// A read that goes past the end of the last item hands out its bytes. Only the reads after it fail.
#[derive(Drop)]
pub(crate) struct Fence<R> {
    source: R,
    checker: Checker,
    depth: usize,
    /// How many items are still to end.
    left: usize,
    failures: Failures,
    ghost shallow: { depth ≤ MOST_LEVELS },
}

impl<R> Fence<R> {
    ghost use Rattle.tool_files.specs.Fences.{IsFenced, fence_depth, fence_failures, fence_source};

    /// Makes a reader of as many items as `items`, to this depth, of what is left in `source`.
    pub(crate) fn new(source: R, items: usize, depth: usize) -> Fence<R>
        requires { depth ≤ MOST_LEVELS }
        ensures fenced { IsFenced items [] result }
        ensures depth { fence_depth result ≡ depth }
        ensures source { fence_source result ≡ source }
        ensures failures { fence_failures result ≡ 0 }
    {
        Fence {
            source,
            checker: Checker::new(depth),
            depth,
            left: items,
            failures: Failures::new(),
        }
    }

    /// Returns the reader within.
    pub(crate) fn into_inner(self) -> R
        ensures { result ≡ fence_source self }
    {
        let Fence {
            source,
            checker: _,
            depth: _,
            left: _,
            failures: _,
        } = self;
        source
    }

    /// Counts the items that end in bytes that were handed out. If no more bytes can be counted, no item is left.
    fn pass(&mut self, bytes: &[u8])
        ensures fenced { (items : ℕ) (given : List ℕ) → IsFenced items given self.old
            → IsFenced items (given ++ bytes.now) self.new }
        ensures depth { fence_depth self.new ≡ fence_depth self.old }
        ensures source { fence_source self.new ≡ fence_source self.old }
        ensures failures { fence_failures self.new ≡ fence_failures self.old }
    {
        let mut at = 0;
        'items: while at < bytes.len() && self.left > 0 {
            let fed = self.checker.feed(&bytes[at..]);
            at += fed.taken;
            match fed.progress {
                Progress::Ended(_) => {
                    self.checker = Checker::new(self.depth);
                    self.left -= 1;
                }
                Progress::TooLong => self.left = 0,
                Progress::More(_) => return,
                Progress::Fault(_) => return,
            }
        }
    }
}

impl<R: Read> Read for Fence<R> {
    ghost use Rattle.tool_files.specs.Fences.{IsFenced, fence_depth, fence_failures, fence_left, fence_source};

    /// The error of the reader within, or nothing after the last item.
    type Error = Option<R::Error>;

    ghost ahead = { λ _. None };

    ghost steady = { λ _. false };

    ghost failures = { λ r. fence_failures r };

    ghost steady_is_told = { λ _ h. absurd cc };

    /// Fills the whole of `data` from the reader within, or fails.
    ///
    /// # Errors
    ///
    /// - Nothing: the last item has ended. The reader within is asked for nothing.
    /// - The error of the reader within.
    fn read_exact(&mut self, data: &mut [u8]) -> Result<(), Option<R::Error>>
        // Clauses of the trait.
        ensures ok { OnOk result (fence_failures self.new ≡ fence_failures self.old) }
        ensures err { OnErr result (fence_failures self.new ≡ fence_failures self.old + 1) }

        // Clauses of this reader.
        ensures fenced { (items : ℕ) (given : List ℕ) → IsFenced items given self.old
            → OnOk result (IsFenced items (given ++ «data».new) self.new) }
        ensures ended { fence_left self.old ≡ 0 → result ≡ Err None }
        ensures kept { result ≡ Err None → (fence_left self.old ≡ 0) × (fence_source self.new ≡ fence_source self.old) }
    {
        if self.left == 0 {
            self.failures.raise();
            return Err(None);
        }
        if let Err(error) = self.source.read_exact(data) {
            self.failures.raise();
            return Err(Some(error));
        }
        self.pass(data);
        Ok(())
    }
}
