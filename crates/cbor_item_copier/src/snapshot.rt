//! A copier's state as plain numbers.

ghost use Rattle.cbor_item_copier.specs.Snapshots.{HoldsSome};

use cbor_copier::Copier;

/// The state of an [`ItemCopier`](crate::ItemCopier) as plain numbers in the caller's memory, for a program in C or one
/// that keeps many copiers.
///
/// Numbers that are all 0 are no state. The struct has no bytes between its fields or after them.
///
/// A restored copier equals the saved copier. [`ItemCopier::restore`](crate::ItemCopier::restore) tests the numbers of
/// the checker and those of the copier separately. So it does not find all memory that was overwritten: it also takes
/// the numbers of two different saves.
#[derive(Drop)]
#[repr(C)]
pub struct Snapshot {
    /// How far the item has come.
    pub checker: cbor_checker::Snapshot,
    /// How far the copy of the item's elements has come.
    pub copier: cbor_copier::Snapshot,
}

const _: () = prove!(size_of::<Snapshot>() == 2424);

impl Snapshot {
    /// Returns numbers that are no state.
    pub fn new() -> Snapshot
        ensures { HoldsSome result → ⊥ }
    {
        Snapshot {
            checker: cbor_checker::Snapshot::new(),
            copier: Copier::new(0).save(),
        }
    }
}
