//! Bytes that are to be written.

ghost use Rattle.std.specs.Prelude.{◌≡◌, ◌≢◌, ◌≤◌, ◌⊎◌, ◌++◌, [], length, take, drop, true, false};

use cbor_parser::few::Few;
use std::marker::Model;

/// The bytes that one byte of the input puts out, without those that were given.
#[derive(Drop)]
pub(crate) struct Pending {
    few: Few,
    given: usize,
}

impl Model for Pending {
    ghost use Rattle.std.specs.Prelude.{ℕ, ◌≤◌, List, drop, length};

    ghost Value = { List ℕ };

    ghost view = { λ a. drop a.given a.few };

    ghost invariant = { λ a. a.given ≤ length a.few };
}

impl Pending {
    /// Returns no bytes.
    pub(crate) fn new() -> Pending
        ensures { result ≡ [] }
    {
        Pending {
            few: Few::new(),
            given: 0,
        }
    }

    /// Returns these bytes as pending.
    pub(crate) fn of(few: Few) -> Pending
        ensures { result ≡ few }
    {
        Pending { few, given: 0 }
    }

    /// Returns the bytes that were not given.
    pub(crate) fn rest(&self) -> Few
        ensures { result ≡ self.now }
    {
        self.few.rest(self.given)
    }

    /// Returns whether there are none.
    #[inline(always)]
    pub(crate) fn is_empty(&self) -> bool
        ensures yes { result ≡ true → self.now ≡ [] }
        ensures no { result ≡ false → self.now ≢ [] }
    {
        self.given == self.few.len()
    }

    /// Replaces the bytes.
    #[inline(always)]
    pub(crate) fn set(&mut self, few: Few)
        ensures { self.new ≡ few }
    {
        self.few = few;
        self.given = 0;
    }

    /// Returns the bytes.
    #[inline(always)]
    fn bytes(&self) -> &[u8]
        ensures { result.now ≡ self.now }
    {
        &self.few.bytes()[self.given..]
    }

    /// Removes the first `count` bytes.
    #[inline(always)]
    fn skip(&mut self, count: usize)
        requires { count ≤ length self.old }
        ensures { self.new ≡ drop count self.old }
    {
        let _most = self.few.len(); // For the prover: what is given stays below it, so the sum fits.
        self.given += count;
    }

    /// Writes as many bytes as fit after the first `at` bytes of `out`, and returns where they end.
    #[inline(always)]
    pub(crate) fn give(&mut self, out: &mut [u8], at: usize) -> usize
        requires { at ≤ length out.old }
        ensures within { (at ≤ result) × (result ≤ length out.old) }
        ensures given { take result out.new ++ self.new ≡ take at out.old ++ self.old }
        ensures rest { drop result out.new ≡ drop result out.old }
        ensures all { (self.new ≡ []) ⊎ (result ≡ length out.old) }
    {
        let bytes = self.bytes();
        let count = bytes.len().min(out.len() - at);
        out[at..at + count].copy_from_slice(&bytes[..count]);
        self.skip(count);
        at + count
    }
}
