//! A count for contracts alone.

ghost use Rattle.std.specs.Prelude.{◌≡◌, ℕ, ◌+◌};
ghost use Rattle.std.specs.Borrow.{ftrue};

use std::marker::{Model, PhantomData};

/// A count of failed calls, which has no greatest value and takes no bytes.
#[derive(Drop)]
pub struct Failures {
    marker: PhantomData<()>,
    pub ghost count: { ℕ },
}

impl Model for Failures {
    ghost also_owns = { λ _. ftrue };
}

impl Failures {
    /// Returns a count of no failures.
    pub fn new() -> Failures
        ensures { result.count ≡ 0 }
    {
        Failures {
            marker: PhantomData,
        }
    }

    /// Counts one failure.
    pub fn raise(&mut self)
        ensures { self.new.count ≡ self.old.count + 1 }
    {}
}
