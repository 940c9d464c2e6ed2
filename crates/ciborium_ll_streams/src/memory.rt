//! A writer into memory that grows.

ghost use Rattle.std.specs.Prelude.{◌≡◌, ◌+◌, ◌<◌, [], Some, None, IsOk, OnOk, OnErr, length, vec_capacity, vec_len};
ghost use Rattle.std.specs.Io.KnownBytes.{Appends};
ghost use Rattle.ciborium_ll_io.specs.Transfer.{AppendsFront};

use ciborium_ll_io::io::{Failures, Write};
use std::alloc::{AllocError, Global};

/// The memory could not grow. Nothing was written.
#[derive(Debug, Drop)]
pub struct OutOfMemory;

impl From<OutOfMemory> for AllocError {
    fn from(_refused: OutOfMemory) -> AllocError {
        AllocError
    }
}

/// Writes to the end of a `Vec<u8>`, which grows. It tells no room.
#[derive(Drop)]
pub struct VecWriter {
    bytes: Vec<u8>,
    failures: Failures,
}

impl VecWriter {
    /// Returns a writer that has written nothing and takes no memory yet.
    pub fn new(alloc: Global) -> VecWriter
        ensures written { ⟦<VecWriter as Write>⟧.written result ≡ Some [] }
        ensures failures { ⟦<VecWriter as Write>⟧.failures result ≡ 0 }
        ensures capacity { vec_capacity result.bytes ≡ 0 }
    {
        VecWriter {
            bytes: Vec::new(alloc),
            failures: Failures::new(),
        }
    }

    /// Returns the number of bytes written.
    pub fn len(&self) -> usize
        ensures { result ≡ length self.now.bytes.items }
    {
        self.bytes.len()
    }

    /// Returns the bytes written.
    pub fn into_vec(self) -> Vec<u8>
        ensures written { ⟦<VecWriter as Write>⟧.written self ≡ Some result.items }
        ensures bytes { result ≡ self.bytes }
    {
        self.bytes
    }
}

impl Write for VecWriter {
    type Error = OutOfMemory;

    ghost written = { λ w. Some w.bytes.items };

    ghost room = { λ _. None };

    ghost failures = { λ w. w.failures.count };

    ghost flushed = { λ old new. new.bytes.items ≡ old.bytes.items };

    ghost target = { λ _. None };

    /// Appends the whole of `data`.
    ///
    /// # Errors
    ///
    /// - `OutOfMemory`: the memory could not grow.
    fn write_all(&mut self, data: &[u8]) -> Result<(), OutOfMemory>
        // The trait's.
        ensures bytes { OnOk result (Appends (Some self.old.bytes.items) (Some self.new.bytes.items) «data».now) }
        ensures front { OnErr result (AppendsFront (Some self.old.bytes.items) (Some self.new.bytes.items)
            None None «data».now) }
        ensures ok { OnOk result (self.new.failures.count ≡ self.old.failures.count) }
        ensures err { OnErr result (self.new.failures.count ≡ self.old.failures.count + 1) }

        // The writer's own.
        ensures nothing { OnErr result (self.new.bytes.items ≡ self.old.bytes.items) }
        ensures full { OnErr result (vec_capacity self.old.bytes < vec_len self.old.bytes + length «data».now) }
    {
        match self.bytes.extend_from_slice(data) {
            Ok(()) => Ok(()),
            Err(_) => {
                self.failures.raise();
                Err(OutOfMemory)
            }
        }
    }

    /// Does nothing, and never fails.
    fn flush(&mut self) -> Result<(), OutOfMemory>
        // The trait's.
        ensures flushed { OnOk result (self.new.bytes.items ≡ self.old.bytes.items) }
        ensures ok { OnOk result (self.new.failures.count ≡ self.old.failures.count) }
        ensures err { OnErr result (self.new.failures.count ≡ self.old.failures.count + 1) }

        // The writer's own.
        ensures done { IsOk result }
    {
        // Nothing was kept back.
        Ok(())
    }
}
