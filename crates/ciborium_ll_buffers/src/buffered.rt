//! A reader and a writer over std's that move many bytes at a time, and whose errors are small.
//!
//! An `io::Error` has many bytes, which each function that returns one clears and copies. So these types keep a fault
//! aside, and a call answers only that there is a fault.

ghost use Rattle.std.specs.Prelude.{◌≡◌, ◌+◌, ◌≤◌, ◌<◌, ◌++◌, None, Some, IsTrue, IsOk, IsSome};
ghost use Rattle.std.specs.Prelude.{IfSome, IfOk, OnOk, OnErr, [], length};
ghost use Rattle.std.specs.Prelude.{◌%◌, ◌∷◌, ℕ, IfNone, slice_index, take};
ghost use Rattle.std.specs.Io.KnownBytes.{Appends, Consumes, IsAtEnd, Keeps};
ghost use Rattle.std.proofs.Common.{rules};
ghost use Rattle.ciborium_ll_io.specs.declared.io.TheConstants.{AT_HAND};
ghost use Rattle.ciborium_ll_io.specs.Transfer.{AppendsFront, AppendsPart, ConsumesPart, Shrinks};

use crate::window::Window;
use ciborium_ll_io::io::{AT_HAND, Failures, Read, Write};
use ciborium_ll_streams::{ReadFault, WriteFault, write_calls};
use std::io;

/// A call failed. The reader or writer keeps the fault.
#[derive(Debug, Drop)]
pub struct FaultKept;

/// Reads from a reader of std, ahead into a slice that the caller lends. It is never steady.
///
/// A slice of some 8 KiB serves well. If the slice is empty, each read calls the inner reader.
#[derive(Drop)]
pub struct BufferedReader<'a, T> {
    source: T,
    window: Window<'a>,
    fault: Option<ReadFault>,
    failures: Failures,
}

impl<'a, T: io::Read> BufferedReader<'a, T> {
    ghost use Rattle.ciborium_ll_buffers.specs.Buffers.{buffered_ahead, buffered_read_ahead, buffered_read_failures};
    ghost use Rattle.ciborium_ll_buffers.specs.Buffers.{buffered_read_capacity, buffered_read_fault, buffered_source};

    /// Returns a reader of the bytes left in `source`.
    pub fn new(source: T, buffer: &'a mut [u8]) -> BufferedReader<'a, T>
        ensures source { buffered_source result ≡ source }
        ensures read_ahead { buffered_read_ahead result ≡ [] }
        ensures capacity { buffered_read_capacity result ≡ length buffer.old }
        ensures ahead { buffered_ahead T.remaining result ≡ T.remaining source }
        ensures fault { buffered_read_fault result ≡ None }
        ensures failures { buffered_read_failures result ≡ 0 }
    {
        BufferedReader {
            source,
            window: Window::new(buffer),
            fault: None,
            failures: Failures::new(),
        }
    }

    /// Returns the bytes read ahead that no caller got.
    pub fn buffer(&self) -> &[u8]
        ensures { result.now ≡ buffered_read_ahead self.now }
    {
        self.window.held()
    }

    /// Gives up the first `len` bytes read ahead, as if a caller had read them.
    pub fn consume(&mut self, len: usize)
        requires { len ≤ length (buffered_read_ahead self.old) }
        ensures read_ahead { buffered_read_ahead self.old
            ≡ take len (buffered_read_ahead self.old) ++ buffered_read_ahead self.new }
        ensures ahead { Consumes (buffered_ahead T.remaining self.old) (buffered_ahead T.remaining self.new)
            (take len (buffered_read_ahead self.old)) }
        ensures source { buffered_source self.new ≡ buffered_source self.old }
        ensures capacity { buffered_read_capacity self.new ≡ buffered_read_capacity self.old }
        ensures fault { buffered_read_fault self.new ≡ buffered_read_fault self.old }
        ensures failures { buffered_read_failures self.new ≡ buffered_read_failures self.old }
    {
        self.window.skip(len);
    }

    /// Takes the fault of the last failed call, if it keeps one.
    pub fn take_fault(&mut self) -> Option<ReadFault>
        ensures fault { result ≡ buffered_read_fault self.old }
        ensures none { buffered_read_fault self.new ≡ None }
        ensures source { buffered_source self.new ≡ buffered_source self.old }
        ensures read_ahead { buffered_read_ahead self.new ≡ buffered_read_ahead self.old }
        ensures capacity { buffered_read_capacity self.new ≡ buffered_read_capacity self.old }
        ensures ahead { buffered_ahead T.remaining self.new ≡ buffered_ahead T.remaining self.old }
        ensures failures { buffered_read_failures self.new ≡ buffered_read_failures self.old }
    {
        self.fault.take()
    }

    /// Returns the inner reader, the bytes read ahead, and the fault kept.
    pub fn into_parts(self) -> (T, &'a [u8], Option<ReadFault>)
        ensures source { result.0 ≡ buffered_source self.entry }
        ensures read_ahead { result.1.now ≡ buffered_read_ahead self.entry }
        ensures within { length result.1.now ≤ buffered_read_capacity self.entry }
        ensures fault { result.2 ≡ buffered_read_fault self.entry }
    {
        let BufferedReader {
            source,
            window,
            fault,
            failures: _,
        } = self;
        (source, window.into_held(), fault)
    }

    /// Fills `data` by calls of the inner reader.
    #[cold]
    #[inline(never)]
    fn read_on(&mut self, data: &mut [u8]) -> Result<(), FaultKept>
        ensures bytes { OnOk result
            (Consumes (buffered_ahead T.remaining self.old) (buffered_ahead T.remaining self.new) «data».new) }
        ensures ok { OnOk result (buffered_read_failures self.new ≡ buffered_read_failures self.old) }
        ensures err { OnErr result (buffered_read_failures self.new ≡ buffered_read_failures self.old + 1) }
        ensures part { OnErr result
            (ConsumesPart (buffered_ahead T.remaining self.old) (buffered_ahead T.remaining self.new) «data».new) }
        ensures same { OnOk result (buffered_read_fault self.new ≡ buffered_read_fault self.old) }
        ensures fault { OnErr result (IsSome (buffered_read_fault self.new)) }
        ensures end { OnErr result (buffered_read_fault self.new ≡ Some ReadFault.End
            → IsAtEnd (buffered_ahead T.remaining self.new)) }
        ensures capacity { buffered_read_capacity self.new ≡ buffered_read_capacity self.old }
    {
        let mut filled = 0;
        while filled < data.len() {
            filled += self.read_part(&mut data[filled..])?;
        }
        Ok(())
    }

    /// Fills a front of `data` by at most one call of the inner reader, and returns its length.
    fn read_part(&mut self, data: &mut [u8]) -> Result<usize, FaultKept>
        requires { 0 < length «data».old }
        ensures bound { IfOk result (λ n. (0 < n) × (n ≤ length «data».new)) }
        ensures bytes { IfOk result
            (λ n. Consumes (buffered_ahead T.remaining self.old) (buffered_ahead T.remaining self.new)
            (take n «data».new)) }
        ensures ok { OnOk result (buffered_read_failures self.new ≡ buffered_read_failures self.old) }
        ensures err { OnErr result (buffered_read_failures self.new ≡ buffered_read_failures self.old + 1) }
        ensures keeps { OnErr result (Keeps (buffered_ahead T.remaining self.old)
            (buffered_ahead T.remaining self.new)) }
        ensures same { OnOk result (buffered_read_fault self.new ≡ buffered_read_fault self.old) }
        ensures fault { OnErr result (IsSome (buffered_read_fault self.new)) }
        ensures end { OnErr result (buffered_read_fault self.new ≡ Some ReadFault.End
            → IsAtEnd (buffered_ahead T.remaining self.new)) }
        ensures capacity { buffered_read_capacity self.new ≡ buffered_read_capacity self.old }
    {
        if self.window.len() == 0 {
            if self.window.capacity() <= data.len() {
                return self.read_past(data);
            }
            match self.window.fill(&mut self.source) {
                Ok(0) => return Err(self.failed(ReadFault::End)),
                Ok(_) => {}
                Err(error) => return Err(self.failed(ReadFault::Failed(error))),
            }
        }
        let count = data.len().min(self.window.len());
        self.window.take(&mut data[..count]);
        Ok(count)
    }

    /// Fills a front of `data` by one call of the inner reader, if none was read ahead, and returns its length.
    fn read_past(&mut self, data: &mut [u8]) -> Result<usize, FaultKept>
        requires some { 0 < length «data».old }
        requires none_ahead { buffered_read_ahead self.old ≡ [] }
        ensures bound { IfOk result (λ n. (0 < n) × (n ≤ length «data».new)) }
        ensures bytes { IfOk result
            (λ n. Consumes (buffered_ahead T.remaining self.old) (buffered_ahead T.remaining self.new)
            (take n «data».new)) }
        ensures ok { OnOk result (buffered_read_failures self.new ≡ buffered_read_failures self.old) }
        ensures err { OnErr result (buffered_read_failures self.new ≡ buffered_read_failures self.old + 1) }
        ensures keeps { OnErr result (Keeps (buffered_ahead T.remaining self.old)
            (buffered_ahead T.remaining self.new)) }
        ensures same { OnOk result (buffered_read_fault self.new ≡ buffered_read_fault self.old) }
        ensures fault { OnErr result (IsSome (buffered_read_fault self.new)) }
        ensures end { OnErr result (buffered_read_fault self.new ≡ Some ReadFault.End
            → IsAtEnd (buffered_ahead T.remaining self.new)) }
        ensures capacity { buffered_read_capacity self.new ≡ buffered_read_capacity self.old }
    {
        match self.source.read(data) {
            Ok(0) => Err(self.failed(ReadFault::End)),
            Ok(count) => Ok(count),
            Err(error) => Err(self.failed(ReadFault::Failed(error))),
        }
    }

    /// Keeps a fault, and returns the error that says so.
    fn failed(&mut self, fault: ReadFault) -> FaultKept
        ensures kept { buffered_read_fault self.new ≡ Some fault }
        ensures ahead { buffered_ahead T.remaining self.new ≡ buffered_ahead T.remaining self.old }
        ensures failures { buffered_read_failures self.new ≡ buffered_read_failures self.old + 1 }
        ensures capacity { buffered_read_capacity self.new ≡ buffered_read_capacity self.old }
    {
        self.failures.raise();
        self.fault = Some(fault);
        FaultKept
    }
}

impl<'a, T: io::Read> Read for BufferedReader<'a, T> {
    ghost use Rattle.ciborium_ll_buffers.specs.Buffers.{buffered_ahead, buffered_read_ahead, buffered_read_failures};
    ghost use Rattle.ciborium_ll_buffers.specs.Buffers.{buffered_read_capacity, buffered_read_fault, buffered_source};
    ghost use Rattle.ciborium_ll_buffers.specs.Buffers.{buffered_steady};

    type Error = FaultKept;

    ghost ahead = { λ r. buffered_ahead T.remaining r };

    ghost steady = { λ r. buffered_steady r };

    ghost failures = { λ r. buffered_read_failures r };

    ghost steady_is_told = { λ _ h. Prim.search rules };

    /// Fills `data` from the bytes read ahead, and then by as many calls of `read` as needed.
    ///
    /// # Errors
    ///
    /// - `FaultKept`: a call failed (`Failed`), or gave no byte (`End`). The bytes before the fault are at the front of
    ///   `data`.
    #[inline(always)]
    fn read_exact(&mut self, data: &mut [u8]) -> Result<(), FaultKept>
        // The trait's.
        ensures bytes { OnOk result
            (Consumes (buffered_ahead T.remaining self.old) (buffered_ahead T.remaining self.new) «data».new) }
        ensures ok { OnOk result (buffered_read_failures self.new ≡ buffered_read_failures self.old) }
        ensures err { OnErr result (buffered_read_failures self.new ≡ buffered_read_failures self.old + 1) }
        ensures stays_steady { IsTrue (buffered_steady self.old) → IsTrue (buffered_steady self.new) }
        ensures kept { OnErr result (IsTrue (buffered_steady self.old)
            → buffered_ahead T.remaining self.new ≡ buffered_ahead T.remaining self.old) }
        ensures missing { OnErr result (IsTrue (buffered_steady self.old)
            → IfSome (buffered_ahead T.remaining self.old) (λ bytes. length bytes < length «data».old)) }

        // The reader's own.
        ensures within { length «data».old ≤ length (buffered_read_ahead self.old)
            → IsOk result × (buffered_source self.new ≡ buffered_source self.old)
            × (buffered_read_ahead self.old ≡ «data».new ++ buffered_read_ahead self.new) }
        ensures part { OnErr result
            (ConsumesPart (buffered_ahead T.remaining self.old) (buffered_ahead T.remaining self.new) «data».new) }
        ensures same { OnOk result (buffered_read_fault self.new ≡ buffered_read_fault self.old) }
        ensures fault { OnErr result (IsSome (buffered_read_fault self.new)) }
        ensures end { OnErr result (buffered_read_fault self.new ≡ Some ReadFault.End
            → IsAtEnd (buffered_ahead T.remaining self.new)) }
        ensures capacity { buffered_read_capacity self.new ≡ buffered_read_capacity self.old }
    {
        if data.len() <= self.window.len() {
            self.window.take(data);
            return Ok(());
        }
        self.read_on(data)
    }

    /// Returns the next byte and the eight bytes after it, exactly if at least [`AT_HAND`] bytes were read ahead.
    #[inline(always)]
    fn read_at_hand(&mut self, lens: &[u8; 32]) -> Option<(u8, [u8; 8])>
        // The trait's.
        requires { (minor : ℕ) → minor < 32 → slice_index lens.now minor ≤ AT_HAND }
        ensures bytes { IfSome result (λ found. Consumes (buffered_ahead T.remaining self.old)
            (buffered_ahead T.remaining self.new) (take (slice_index lens.now (found.0 % 32)) (found.0 ∷ found.1))) }
        ensures failures { buffered_read_failures self.new ≡ buffered_read_failures self.old }
        ensures stays_steady { IsTrue (buffered_steady self.old) → IsTrue (buffered_steady self.new) }
        ensures none { IfNone result (self.new ≡ self.old) }

        // The reader's own.
        ensures few { IfNone result (length (buffered_read_ahead self.old) < AT_HAND) }
        ensures found { IfSome result (λ found. take AT_HAND (buffered_read_ahead self.old) ≡ found.0 ∷ found.1) }
        ensures held { IfSome result (λ found. buffered_read_ahead self.old
            ≡ take (slice_index lens.now (found.0 % 32)) (found.0 ∷ found.1) ++ buffered_read_ahead self.new) }
        ensures source { buffered_source self.new ≡ buffered_source self.old }
        ensures same { buffered_read_fault self.new ≡ buffered_read_fault self.old }
        ensures capacity { buffered_read_capacity self.new ≡ buffered_read_capacity self.old }
    {
        self.window.take_at_hand(lens)
    }
}

/// Writes to a writer of std, and keeps bytes back in a slice that the caller lends. It tells no room.
///
/// A slice of some 8 KiB serves well. Dropping the writer passes no kept bytes on.
#[derive(Drop)]
pub struct BufferedWriter<'a, T> {
    sink: T,
    window: Window<'a>,
    fault: Option<WriteFault>,
    failures: Failures,
}

impl<'a, T: io::Write> BufferedWriter<'a, T> {
    ghost use Rattle.ciborium_ll_buffers.specs.Buffers.{KeepsAlone, KeepsRest, buffered_capacity, buffered_kept_back};
    ghost use Rattle.ciborium_ll_buffers.specs.Buffers.{buffered_sink, buffered_space, buffered_write_failures};
    ghost use Rattle.ciborium_ll_buffers.specs.Buffers.{buffered_write_fault, buffered_written};

    /// Returns a writer that appends to the bytes of `sink`.
    pub fn new(sink: T, buffer: &'a mut [u8]) -> BufferedWriter<'a, T>
        ensures sink { buffered_sink result ≡ sink }
        ensures kept_back { buffered_kept_back result ≡ [] }
        ensures space { buffered_space result ≡ length buffer.old }
        ensures capacity { buffered_capacity result ≡ length buffer.old }
        ensures written { buffered_written T.contents result ≡ T.contents sink }
        ensures fault { buffered_write_fault result ≡ None }
        ensures failures { buffered_write_failures result ≡ 0 }
    {
        BufferedWriter {
            sink,
            window: Window::new(buffer),
            fault: None,
            failures: Failures::new(),
        }
    }

    /// Returns the bytes that it keeps back.
    pub fn buffer(&self) -> &[u8]
        ensures { result.now ≡ buffered_kept_back self.now }
    {
        self.window.held()
    }

    /// Takes the fault of the last failed call, if it keeps one.
    pub fn take_fault(&mut self) -> Option<WriteFault>
        ensures fault { result ≡ buffered_write_fault self.old }
        ensures none { buffered_write_fault self.new ≡ None }
        ensures sink { buffered_sink self.new ≡ buffered_sink self.old }
        ensures kept_back { buffered_kept_back self.new ≡ buffered_kept_back self.old }
        ensures space { buffered_space self.new ≡ buffered_space self.old }
        ensures capacity { buffered_capacity self.new ≡ buffered_capacity self.old }
        ensures written { buffered_written T.contents self.new ≡ buffered_written T.contents self.old }
        ensures failures { buffered_write_failures self.new ≡ buffered_write_failures self.old }
    {
        self.fault.take()
    }

    /// Returns the inner writer, the bytes kept back, and the fault kept.
    pub fn into_parts(self) -> (T, &'a [u8], Option<WriteFault>)
        ensures sink { result.0 ≡ buffered_sink self.entry }
        ensures kept_back { result.1.now ≡ buffered_kept_back self.entry }
        ensures fault { result.2 ≡ buffered_write_fault self.entry }
    {
        let BufferedWriter {
            sink,
            window,
            fault,
            failures: _,
        } = self;
        (sink, window.into_held(), fault)
    }

    /// Writes `data`, for which the window has no room.
    #[cold]
    #[inline(never)]
    fn write_on(&mut self, data: &[u8]) -> Result<(), FaultKept>
        requires { 0 < length «data».now }
        ensures bytes { OnOk result
            (Appends (buffered_written T.contents self.old) (buffered_written T.contents self.new) «data».now) }
        ensures part { OnErr result
            (AppendsPart (buffered_written T.contents self.old) (buffered_written T.contents self.new) «data».now) }
        ensures alone { OnOk result (KeepsAlone «data».now self.new) }
        ensures rest { OnErr result (KeepsRest self.old self.new) }
        ensures ok { OnOk result (buffered_write_failures self.new ≡ buffered_write_failures self.old) }
        ensures err { OnErr result (buffered_write_failures self.new ≡ buffered_write_failures self.old + 1) }
        ensures capacity { buffered_capacity self.new ≡ buffered_capacity self.old }
        ensures same { OnOk result (buffered_write_fault self.new ≡ buffered_write_fault self.old) }
        ensures fault { OnErr result (IsSome (buffered_write_fault self.new)) }
    {
        self.send()?;
        if data.len() <= self.window.capacity() {
            self.window.put(data);
            return Ok(());
        }
        match write_calls(&mut self.sink, data) {
            (_, Ok(())) => Ok(()),
            (_, Err(fault)) => Err(self.failed(fault)),
        }
    }

    /// Writes the bytes kept back. After a failure, the unwritten bytes stay.
    fn send(&mut self) -> Result<(), FaultKept>
        ensures bytes { Keeps (buffered_written T.contents self.old) (buffered_written T.contents self.new) }
        ensures empty { OnOk result (buffered_kept_back self.new ≡ []) }
        ensures whole { OnOk result (buffered_space self.new ≡ buffered_capacity self.new) }
        ensures rest { OnErr result (KeepsRest self.old self.new) }
        ensures capacity { buffered_capacity self.new ≡ buffered_capacity self.old }
        ensures ok { OnOk result (buffered_write_failures self.new ≡ buffered_write_failures self.old) }
        ensures err { OnErr result (buffered_write_failures self.new ≡ buffered_write_failures self.old + 1) }
        ensures same { OnOk result (buffered_write_fault self.new ≡ buffered_write_fault self.old) }
        ensures fault { OnErr result (IsSome (buffered_write_fault self.new)) }
    {
        let (count, outcome) = write_calls(&mut self.sink, self.window.held());
        self.window.skip(count);
        match outcome {
            Ok(()) => {
                self.window.restart();
                Ok(())
            }
            Err(fault) => Err(self.failed(fault)),
        }
    }

    /// Keeps a fault, and returns the error that says so.
    fn failed(&mut self, fault: WriteFault) -> FaultKept
        ensures kept { buffered_write_fault self.new ≡ Some fault }
        ensures written { buffered_written T.contents self.new ≡ buffered_written T.contents self.old }
        ensures kept_back { buffered_kept_back self.new ≡ buffered_kept_back self.old }
        ensures space { buffered_space self.new ≡ buffered_space self.old }
        ensures capacity { buffered_capacity self.new ≡ buffered_capacity self.old }
        ensures failures { buffered_write_failures self.new ≡ buffered_write_failures self.old + 1 }
    {
        self.failures.raise();
        self.fault = Some(fault);
        FaultKept
    }
}

impl<'a, T: io::Write> Write for BufferedWriter<'a, T> {
    ghost use Rattle.ciborium_ll_buffers.specs.Buffers.{KeepsAlone, KeepsBack, KeepsRest, buffered_capacity};
    ghost use Rattle.ciborium_ll_buffers.specs.Buffers.{buffered_kept_back, buffered_room, buffered_sink};
    ghost use Rattle.ciborium_ll_buffers.specs.Buffers.{buffered_space, buffered_write_failures, buffered_write_fault};
    ghost use Rattle.ciborium_ll_buffers.specs.Buffers.{buffered_written};

    type Error = FaultKept;

    ghost written = { λ w. buffered_written T.contents w };

    ghost room = { λ w. buffered_room w };

    ghost failures = { λ w. buffered_write_failures w };

    ghost flushed = { λ old new. Keeps (buffered_written T.contents old) (buffered_written T.contents new)
        × (buffered_kept_back new ≡ []) };

    ghost target = { λ _. None };

    /// Appends `data`, and keeps it back if the slice has space. Otherwise it first writes the bytes kept back, and
    /// then `data` too, unless the whole slice has room for it.
    ///
    /// # Errors
    ///
    /// - `FaultKept`: a call of the inner writer failed (`Failed`) or took no byte (`Zero`). No failure loses bytes
    ///   kept back before.
    #[inline(always)]
    fn write_all(&mut self, data: &[u8]) -> Result<(), FaultKept>
        // The trait's.
        ensures bytes { OnOk result
            (Appends (buffered_written T.contents self.old) (buffered_written T.contents self.new) «data».now) }
        ensures fills { OnOk result (Shrinks (buffered_room self.old) (buffered_room self.new) (length «data».now)) }
        ensures front { OnErr result (AppendsFront (buffered_written T.contents self.old)
            (buffered_written T.contents self.new) (buffered_room self.old) (buffered_room self.new) «data».now) }
        ensures full { OnErr result (IfSome (buffered_room self.old) (λ n. n < length «data».now)) }
        ensures ok { OnOk result (buffered_write_failures self.new ≡ buffered_write_failures self.old) }
        ensures err { OnErr result (buffered_write_failures self.new ≡ buffered_write_failures self.old + 1) }

        // The writer's own.
        ensures empty { length «data».now ≡ 0 → IsOk result × (buffered_sink self.new ≡ buffered_sink self.old) }
        ensures within { length «data».now ≤ buffered_space self.old
            → IsOk result × KeepsBack self.old «data».now self.new }
        ensures beyond { OnOk result (buffered_space self.old < length «data».now → KeepsAlone «data».now self.new) }
        ensures part { OnErr result
            (AppendsPart (buffered_written T.contents self.old) (buffered_written T.contents self.new) «data».now) }
        ensures rest { OnErr result (KeepsRest self.old self.new) }
        ensures capacity { buffered_capacity self.new ≡ buffered_capacity self.old }
        ensures same { OnOk result (buffered_write_fault self.new ≡ buffered_write_fault self.old) }
        ensures fault { OnErr result (IsSome (buffered_write_fault self.new)) }
    {
        if data.len() <= self.window.room() {
            self.window.put(data);
            return Ok(());
        }
        self.write_on(data)
    }

    /// Writes the bytes kept back, and flushes the inner writer.
    ///
    /// # Errors
    ///
    /// - `FaultKept`: a call of the inner writer failed, or took no byte. The unwritten bytes stay.
    fn flush(&mut self) -> Result<(), FaultKept>
        // The trait's.
        ensures bytes { IsSome (buffered_room self.old)
            → buffered_written T.contents self.new ≡ buffered_written T.contents self.old }
        ensures room { IsSome (buffered_room self.old) → buffered_room self.new ≡ buffered_room self.old }
        ensures flushed { OnOk result (Keeps (buffered_written T.contents self.old)
            (buffered_written T.contents self.new) × (buffered_kept_back self.new ≡ [])) }
        ensures ok { OnOk result (buffered_write_failures self.new ≡ buffered_write_failures self.old) }
        ensures err { OnErr result (buffered_write_failures self.new ≡ buffered_write_failures self.old + 1) }

        // The writer's own.
        ensures keeps { Keeps (buffered_written T.contents self.old) (buffered_written T.contents self.new) }
        ensures sent { OnOk result (buffered_kept_back self.new ≡ []) }
        ensures whole { OnOk result (buffered_space self.new ≡ buffered_capacity self.new) }
        ensures rest { OnErr result (KeepsRest self.old self.new) }
        ensures capacity { buffered_capacity self.new ≡ buffered_capacity self.old }
        ensures same { OnOk result (buffered_write_fault self.new ≡ buffered_write_fault self.old) }
        ensures fault { OnErr result (IsSome (buffered_write_fault self.new)) }
    {
        self.send()?;
        match self.sink.flush() {
            Ok(()) => Ok(()),
            Err(error) => Err(self.failed(WriteFault::Failed(error))),
        }
    }
}
