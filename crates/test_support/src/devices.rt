//! A reader and a writer of slices that fail at a planned call, and a reader without an end.
//!
//! None of them is steady, and none tells its room. No contract says that a call succeeds.

ghost use Rattle.std.specs.Prelude.{false, ◌≡◌, ◌+◌, ◌/◌, ◌<◌, [], Some, None, IsTrue, IfSome};
ghost use Rattle.std.specs.Prelude.{IsErrOf, OnOk, OnErr, length, take};
ghost use Rattle.std.specs.Io.KnownBytes.{Appends, Consumes};
ghost use Rattle.std.proofs.Common.{rules};
ghost use Rattle.ciborium_ll.specs.Transfer.{AppendsFront, Shrinks};

use ciborium_ll::io::{Failures, Read, SliceReader, SliceWriter, Write};

/// Which call of a device fails.
#[derive(Clone, Copy)]
pub enum Failing {
    /// No call.
    Never,
    /// The call of this number, from 1 on, among the calls that move at least one byte. Later calls succeed.
    Call(usize),
    /// Each call that moves no byte.
    Empty,
}

/// Why a call of a device failed.
#[derive(Drop)]
pub enum DeviceFault {
    /// The call was planned to fail.
    Planned,
    /// The slice has too few bytes left for the call, which moved none.
    Short,
}

/// Counts the calls of a device, and says which call fails.
#[derive(Clone, Copy)]
struct Plan {
    failing: Failing,
    calls: usize,
}

impl Plan {
    /// Counts a call that moves `length` bytes, and returns whether it fails.
    fn fails(&mut self, length: usize) -> bool {
        if length == 0 {
            return matches!(self.failing, Failing::Empty);
        }
        self.calls = self.calls.saturating_add(1);
        matches!(self.failing, Failing::Call(call) if call == self.calls)
    }

    /// Returns whether the planned call came.
    fn has_failed(&self) -> bool {
        matches!(self.failing, Failing::Call(call) if call <= self.calls)
    }
}

/// Reads from a slice. A call that fails consumes nothing.
#[derive(Drop)]
pub struct FailingReader<'a> {
    within: SliceReader<'a>,
    plan: Plan,
    failures: Failures,
}

impl<'a> FailingReader<'a> {
    /// Makes a reader of the whole slice. `failing` says which calls fail.
    pub fn new(bytes: &'a [u8], failing: Failing) -> FailingReader<'a>
        ensures ahead { ⟦<FailingReader<'a> as Read>⟧.ahead result ≡ Some bytes.now }
        ensures failures { ⟦<FailingReader<'a> as Read>⟧.failures result ≡ 0 }
    {
        FailingReader {
            within: SliceReader::new(bytes),
            plan: Plan { failing, calls: 0 },
            failures: Failures::new(),
        }
    }

    /// Returns the bytes that were not read yet.
    pub fn left(&self) -> &[u8]
        ensures { ⟦<FailingReader<'a> as Read>⟧.ahead self.now ≡ Some result.now }
    {
        self.within.left()
    }

    /// Returns whether the call that fails by its number has come.
    pub fn has_failed(&self) -> bool {
        self.plan.has_failed()
    }
}

impl<'a> Read for FailingReader<'a> {
    type Error = DeviceFault;

    ghost ahead = { λ r. ⟦<SliceReader<'a> as Read>⟧.ahead r.within };

    ghost steady = { λ _. false };

    ghost failures = { λ r. r.failures.count };

    ghost steady_is_told = { λ _ h. Prim.search rules };

    /// Fills the whole of `data`, or consumes nothing.
    ///
    /// # Errors
    ///
    /// - `Planned`: the call was planned to fail.
    /// - `Short`: fewer bytes are left.
    fn read_exact(&mut self, data: &mut [u8]) -> Result<(), DeviceFault>
        // Clauses of the trait.
        ensures bytes { OnOk result (Consumes (⟦<SliceReader<'a> as Read>⟧.ahead self.old.within)
            (⟦<SliceReader<'a> as Read>⟧.ahead self.new.within) «data».new) }
        ensures ok { OnOk result (self.new.failures.count ≡ self.old.failures.count) }
        ensures err { OnErr result (self.new.failures.count ≡ self.old.failures.count + 1) }
        ensures kept { OnErr result (IsTrue false → ⟦<SliceReader<'a> as Read>⟧.ahead self.new.within
            ≡ ⟦<SliceReader<'a> as Read>⟧.ahead self.old.within) }
        ensures missing { OnErr result (IsTrue false → IfSome (⟦<SliceReader<'a> as Read>⟧.ahead self.old.within)
            (λ bytes. length bytes < length «data».old)) }

        // Clauses of this device.
        ensures nothing { OnErr result (⟦<SliceReader<'a> as Read>⟧.ahead self.new.within
            ≡ ⟦<SliceReader<'a> as Read>⟧.ahead self.old.within) }
    {
        if self.plan.fails(data.len()) {
            self.failures.raise();
            return Err(DeviceFault::Planned);
        }
        if self.within.read_exact(data).is_err() {
            self.failures.raise();
            return Err(DeviceFault::Short);
        }
        Ok(())
    }
}

/// Writes into a slice. A call that is planned to fail writes the first half of its bytes, rounded down.
#[derive(Drop)]
pub struct FailingWriter<'a> {
    within: SliceWriter<'a>,
    plan: Plan,
    failures: Failures,
}

impl<'a> FailingWriter<'a> {
    /// Makes a writer into the whole slice. `failing` says which calls fail.
    pub fn new(space: &'a mut [u8], failing: Failing) -> FailingWriter<'a>
        ensures written { ⟦<FailingWriter<'a> as Write>⟧.written result ≡ Some [] }
        ensures failures { ⟦<FailingWriter<'a> as Write>⟧.failures result ≡ 0 }
    {
        FailingWriter {
            within: SliceWriter::new(space),
            plan: Plan { failing, calls: 0 },
            failures: Failures::new(),
        }
    }

    /// Returns the bytes written so far.
    pub fn written(&self) -> &[u8]
        ensures { ⟦<FailingWriter<'a> as Write>⟧.written self.now ≡ Some result.now }
    {
        self.within.written()
    }

    /// Returns whether the call that fails by its number has come.
    pub fn has_failed(&self) -> bool {
        self.plan.has_failed()
    }
}

impl<'a> Write for FailingWriter<'a> {
    type Error = DeviceFault;

    ghost written = { λ w. ⟦<SliceWriter<'a> as Write>⟧.written w.within };

    ghost room = { λ _. None };

    ghost failures = { λ w. w.failures.count };

    ghost flushed = { λ old new. ⟦<SliceWriter<'a> as Write>⟧.written new.within
        ≡ ⟦<SliceWriter<'a> as Write>⟧.written old.within };

    ghost target = { λ w. ⟦<SliceWriter<'a> as Write>⟧.target w.within };

    /// Appends the whole of `data`, or its first half if the call is planned to fail.
    ///
    /// # Errors
    ///
    /// - `Planned`: the call was planned to fail.
    /// - `Short`: the slice has less room. Nothing is written then.
    fn write_all(&mut self, data: &[u8]) -> Result<(), DeviceFault>
        // Clauses of the trait.
        ensures bytes { OnOk result (Appends (⟦<SliceWriter<'a> as Write>⟧.written self.old.within)
            (⟦<SliceWriter<'a> as Write>⟧.written self.new.within) «data».now) }
        ensures fills { OnOk result (Shrinks None None (length «data».now)) }
        ensures front { OnErr result (AppendsFront (⟦<SliceWriter<'a> as Write>⟧.written self.old.within)
            (⟦<SliceWriter<'a> as Write>⟧.written self.new.within) None None «data».now) }
        ensures ok { OnOk result (self.new.failures.count ≡ self.old.failures.count) }
        ensures err { OnErr result (self.new.failures.count ≡ self.old.failures.count + 1) }

        ensures full { OnErr result (IfSome None (λ room. room < length «data».now)) }
        ensures target { ⟦<SliceWriter<'a> as Write>⟧.target self.new.within
            ≡ ⟦<SliceWriter<'a> as Write>⟧.target self.old.within }

        // Clauses of this device.
        ensures half { IsErrOf result DeviceFault.Planned
            → Appends (⟦<SliceWriter<'a> as Write>⟧.written self.old.within)
            (⟦<SliceWriter<'a> as Write>⟧.written self.new.within) (take (length «data».now / 2) «data».now) }
        ensures nothing { IsErrOf result DeviceFault.Short
            → ⟦<SliceWriter<'a> as Write>⟧.written self.new.within
            ≡ ⟦<SliceWriter<'a> as Write>⟧.written self.old.within }
    {
        let is_planned = self.plan.fails(data.len());
        let taken = if is_planned {
            data.len() / 2
        } else {
            data.len()
        };
        if self.within.write_all(&data[..taken]).is_err() {
            self.failures.raise();
            return Err(DeviceFault::Short);
        }
        if is_planned {
            self.failures.raise();
            return Err(DeviceFault::Planned);
        }
        Ok(())
    }

    /// Does nothing.
    fn flush(&mut self) -> Result<(), DeviceFault> {
        Ok(())
    }
}

/// Gives one byte for ever, and counts how often. It tells no bytes.
#[derive(Drop)]
pub struct EndlessReader {
    byte: u8,
    given: usize,
    failures: Failures,
}

impl EndlessReader {
    /// Makes a reader that gives this byte.
    pub fn new(byte: u8) -> EndlessReader
        ensures { ⟦<EndlessReader as Read>⟧.failures result ≡ 0 }
    {
        EndlessReader {
            byte,
            given: 0,
            failures: Failures::new(),
        }
    }

    /// Returns how many bytes it gave, if a `usize` can hold that number.
    pub fn given(&self) -> usize {
        self.given
    }
}

impl Read for EndlessReader {
    type Error = DeviceFault;

    ghost ahead = { λ _. None };

    ghost steady = { λ _. false };

    ghost failures = { λ r. r.failures.count };

    ghost steady_is_told = { λ _ h. Prim.search rules };

    /// Fills `data`. It never fails.
    fn read_exact(&mut self, data: &mut [u8]) -> Result<(), DeviceFault> {
        data.fill(self.byte);
        self.given = self.given.saturating_add(data.len());
        Ok(())
    }
}
