//! Bytes that exist only in contracts.

ghost use Rattle.std.specs.Prelude.{◌≡◌, ℕ, List, ◌++◌};
ghost use Rattle.std.specs.Borrow.{ftrue};

use std::marker::{Model, PhantomData};

/// How contracts read numbers off a value.
pub(super) trait Tells<T> {
    ghost told: { T → List ℕ };
}

/// A list of numbers for contracts. The program keeps none of them.
#[derive(Drop)]
pub(super) struct Noted {
    marker: PhantomData<()>,
    pub ghost bytes: { List ℕ },
}

impl Model for Noted {
    ghost also_owns = { λ _. ftrue };
}

impl Noted {
    /// Makes the list of the numbers that contracts read off `_value`.
    pub(super) fn of<T, M: Tells<T>>(_value: &T) -> Noted
        ensures { result.bytes ≡ M.told _value.now }
    {
        Noted {
            marker: PhantomData,
        }
    }

    /// Takes the bytes of `_data` too.
    pub(super) fn append(&mut self, _data: &[u8])
        ensures { self.new.bytes ≡ self.old.bytes ++ _data.now }
    {}
}
