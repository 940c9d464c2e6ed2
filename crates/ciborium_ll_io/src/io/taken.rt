//! Bytes for contracts alone.

ghost use Rattle.std.specs.Prelude.{◌≡◌, ℕ, List, [], ◌++◌};
ghost use Rattle.std.specs.Borrow.{ftrue};

use std::marker::{Model, PhantomData};

/// A list of bytes for contracts, which takes no memory: the bytes that a writer took, or those of a lent slice.
#[derive(Drop)]
pub(super) struct Taken {
    marker: PhantomData<()>,
    pub ghost bytes: { List ℕ },
}

impl Model for Taken {
    ghost also_owns = { λ _. ftrue };
}

impl Taken {
    /// Returns an empty list.
    pub(super) fn new() -> Taken
        ensures { result.bytes ≡ [] }
    {
        Taken {
            marker: PhantomData,
        }
    }

    /// Appends the bytes of `_data`.
    pub(super) fn append(&mut self, _data: &[u8])
        ensures { self.new.bytes ≡ self.old.bytes ++ _data.now }
    {}
}
