//! A reader and a writer over those of std, without a buffer.

ghost use Rattle.std.specs.Prelude.{false, IsTrue, ◌≡◌, ◌+◌, ◌<◌, None, Err, IsErrOf, IsOk, OnOk, OnErr, length, take};
ghost use Rattle.std.specs.Io.KnownBytes.{Appends, Consumes, IsAtEnd, Keeps};
ghost use Rattle.std.proofs.Common.{rules};
ghost use Rattle.ciborium_ll_io.specs.Transfer.{AppendsFront, AppendsPart, ConsumesPart};
ghost use Rattle.ciborium_ll_streams.specs.Streams.{stream_read_failures, stream_sink, stream_source, stream_write_failures};

use ciborium_ll_io::io::{Failures, Read, Write};
use std::io;

/// Why a `StdReader` or a `BufferedReader` failed.
#[derive(Debug, Drop)]
pub enum ReadFault {
    /// The inner reader gave no byte to a read of one byte or more.
    End,
    /// The inner reader failed with this error. An interrupted call fails too.
    Failed(io::Error),
}

/// Reads from a reader of std, without a buffer. It is never steady.
#[derive(Drop)]
pub struct StdReader<T> {
    source: T,
    failures: Failures,
}

impl<T: io::Read> StdReader<T> {
    /// Returns a reader of the bytes left in `source`.
    pub fn new(source: T) -> StdReader<T>
        ensures source { stream_source result ≡ source }
        ensures failures { stream_read_failures result ≡ 0 }
    {
        StdReader {
            source,
            failures: Failures::new(),
        }
    }

    /// Returns the inner reader.
    pub fn into_inner(self) -> T
        ensures { result ≡ stream_source self }
    {
        self.source
    }

    /// Counts a failure, and returns the fault as an error.
    #[cold]
    #[inline(never)]
    fn failed(&mut self, fault: ReadFault) -> Result<(), ReadFault>
        ensures fault { result ≡ Err fault }
        ensures same { stream_source self.new ≡ stream_source self.old }
        ensures failures { stream_read_failures self.new ≡ stream_read_failures self.old + 1 }
    {
        self.failures.raise();
        Err(fault)
    }
}

impl<T: io::Read> Read for StdReader<T> {
    type Error = ReadFault;

    ghost ahead = { λ r. T.remaining (stream_source r) };

    ghost steady = { λ _. false };

    ghost failures = { λ r. stream_read_failures r };

    ghost steady_is_told = { λ _ h. Prim.search rules };

    /// Fills `data` by as many calls of `read` as needed.
    ///
    /// # Errors
    ///
    /// - `End`: a call gave no byte.
    /// - `Failed`: a call failed.
    ///
    /// The bytes of the calls before are then at the front of `data`.
    fn read_exact(&mut self, data: &mut [u8]) -> Result<(), ReadFault>
        // The trait's.
        ensures bytes { OnOk result (Consumes (T.remaining (stream_source self.old))
            (T.remaining (stream_source self.new)) «data».new) }
        ensures ok { OnOk result (stream_read_failures self.new ≡ stream_read_failures self.old) }
        ensures err { OnErr result (stream_read_failures self.new ≡ stream_read_failures self.old + 1) }

        // The adapter's own.
        ensures empty { length «data».old ≡ 0 → IsOk result × (stream_source self.new ≡ stream_source self.old) }
        ensures part { OnErr result (ConsumesPart (T.remaining (stream_source self.old))
            (T.remaining (stream_source self.new)) «data».new) }
        ensures end { IsErrOf result ReadFault.End → IsAtEnd (T.remaining (stream_source self.new)) }
    {
        let mut filled = 0;
        while filled < data.len() {
            match self.source.read(&mut data[filled..]) {
                Ok(0) => return self.failed(ReadFault::End),
                Ok(count) => filled += count,
                Err(error) => return self.failed(ReadFault::Failed(error)),
            }
        }
        Ok(())
    }
}

/// Why a `StdWriter` or a `BufferedWriter` failed.
#[derive(Debug, Drop)]
pub enum WriteFault {
    /// The inner writer took no byte of a write of one byte or more.
    Zero,
    /// The inner writer failed with this error. An interrupted call fails too.
    Failed(io::Error),
}

/// Writes to a writer of std, without a buffer. It tells no room.
#[derive(Drop)]
pub struct StdWriter<T> {
    sink: T,
    failures: Failures,
}

impl<T: io::Write> StdWriter<T> {
    /// Returns a writer that appends to the bytes of `sink`.
    pub fn new(sink: T) -> StdWriter<T>
        ensures sink { stream_sink result ≡ sink }
        ensures failures { stream_write_failures result ≡ 0 }
    {
        StdWriter {
            sink,
            failures: Failures::new(),
        }
    }

    /// Returns the inner writer, and does not flush it.
    pub fn into_inner(self) -> T
        ensures { result ≡ stream_sink self }
    {
        self.sink
    }

    /// Counts a failure, and returns the fault as an error.
    #[cold]
    #[inline(never)]
    fn failed(&mut self, fault: WriteFault) -> Result<(), WriteFault>
        ensures fault { result ≡ Err fault }
        ensures same { stream_sink self.new ≡ stream_sink self.old }
        ensures failures { stream_write_failures self.new ≡ stream_write_failures self.old + 1 }
    {
        self.failures.raise();
        Err(fault)
    }
}

impl<T: io::Write> Write for StdWriter<T> {
    type Error = WriteFault;

    ghost written = { λ w. T.contents (stream_sink w) };

    ghost room = { λ _. None };

    ghost failures = { λ w. stream_write_failures w };

    ghost flushed = { λ old new. Keeps (T.contents (stream_sink old)) (T.contents (stream_sink new)) };

    ghost target = { λ _. None };

    /// Appends `data` by as many calls of `write` as needed.
    ///
    /// # Errors
    ///
    /// - `Zero`: a call took no byte.
    /// - `Failed`: a call failed.
    fn write_all(&mut self, data: &[u8]) -> Result<(), WriteFault>
        // The trait's.
        ensures bytes { OnOk result (Appends (T.contents (stream_sink self.old))
            (T.contents (stream_sink self.new)) «data».now) }
        ensures front { OnErr result (AppendsFront (T.contents (stream_sink self.old))
            (T.contents (stream_sink self.new)) None None «data».now) }
        ensures ok { OnOk result (stream_write_failures self.new ≡ stream_write_failures self.old) }
        ensures err { OnErr result (stream_write_failures self.new ≡ stream_write_failures self.old + 1) }

        // The adapter's own.
        ensures empty { length «data».now ≡ 0 → IsOk result × (stream_sink self.new ≡ stream_sink self.old) }
        ensures part { OnErr result (AppendsPart (T.contents (stream_sink self.old))
            (T.contents (stream_sink self.new)) «data».now) }
    {
        match write_calls(&mut self.sink, data) {
            (_, Ok(())) => Ok(()),
            (_, Err(fault)) => self.failed(fault),
        }
    }

    /// Flushes the inner writer.
    ///
    /// # Errors
    ///
    /// - `Failed`: that flush failed.
    fn flush(&mut self) -> Result<(), WriteFault>
        // The trait's.
        ensures flushed { OnOk result (Keeps (T.contents (stream_sink self.old)) (T.contents (stream_sink self.new))) }
        ensures ok { OnOk result (stream_write_failures self.new ≡ stream_write_failures self.old) }
        ensures err { OnErr result (stream_write_failures self.new ≡ stream_write_failures self.old + 1) }

        // The adapter's own.
        ensures keeps { Keeps (T.contents (stream_sink self.old)) (T.contents (stream_sink self.new)) }
        ensures failed { IsErrOf result WriteFault.Zero → ⊥ }
    {
        match self.sink.flush() {
            Ok(()) => Ok(()),
            Err(error) => self.failed(WriteFault::Failed(error)),
        }
    }
}

/// Writes bytes to a writer of std, by as many calls of `write` as needed. It returns the number of bytes that the writer
/// took, and the outcome. Users call [`StdWriter::write_all`].
///
/// # Errors
///
/// - `Zero`: a call took no byte.
/// - `Failed`: a call failed.
pub fn write_calls<W: io::Write>(sink: &mut W, bytes: &[u8]) -> (usize, Result<(), WriteFault>)
    ensures bytes { Appends (W.contents sink.old) (W.contents sink.new) (take result.0 bytes.now) }
    ensures ok { OnOk result.1 (result.0 ≡ length bytes.now) }
    ensures err { OnErr result.1 (result.0 < length bytes.now) }
    ensures empty { length bytes.now ≡ 0 → IsOk result.1 × (sink.new ≡ sink.old) }
{
    let mut sent = 0;
    while sent < bytes.len() {
        match sink.write(&bytes[sent..]) {
            Ok(0) => return (sent, Err(WriteFault::Zero)),
            Ok(count) => sent += count,
            Err(error) => return (sent, Err(WriteFault::Failed(error))),
        }
    }
    (sent, Ok(()))
}
