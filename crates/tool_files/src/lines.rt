//! Lines that are written many at a time.

ghost use Rattle.std.specs.Prelude.{◌≡◌, ◌<◌, ◌≤◌, ◌∷◌, ◌⊎◌, [], IfSome, IsErr, IsOk, IsSome, MatchOption, None, OnErr};
ghost use Rattle.std.specs.Prelude.{OnOk, Some};
ghost use Rattle.std.specs.Io.KnownBytes.{Appends, Keeps};
ghost use Rattle.tool_files.specs.declared.lines.TheConstants.{AT_ONCE, LINE_FEED, MOST};

use ciborium_ll::io::FaultKept;
use std::{fmt, io};

/// How many bytes of lines are written at once.
const AT_ONCE: usize = 8192;

/// The byte that ends a line.
const LINE_FEED: u8 = b'\n';

/// How many bytes wait at most: those, and a line of 1,024 bytes.
const MOST: usize = 9216;

/// Lines that wait to be written. They are written if they are many, or if they are flushed. A line that has no end
/// waits, unless it has no room: more than [`MOST`] bytes wait then with it.
///
/// An `io::Error` has many bytes, which each function that returns one clears and copies. So the lines keep the first
/// fault, and a call answers only that there is one. After a fault nothing more is written until it is taken.
#[derive(Drop)]
pub(crate) struct Lines<W> {
    bytes: [u8; MOST],
    /// How many bytes the whole lines have, and the beginning of one more.
    len: usize,
    /// How many bytes the whole lines have.
    whole: usize,
    writer: W,
    /// Why a write or a flush failed.
    fault: Option<io::Error>,
    ghost within: { len ≤ MOST },
}

impl<W: io::Write> Lines<W> {
    ghost use Rattle.tool_files.specs.Lines.{lines_text};

    /// Makes a text without lines.
    pub(crate) fn new(writer: W) -> Lines<W>
        ensures { lines_text W.contents result ≡ W.contents writer }
    {
        Lines {
            bytes: [0; MOST],
            len: 0,
            whole: 0,
            writer,
            fault: None,
        }
    }

    /// Ends a line whose text was added with this outcome, as [`Lines::add_lines`] does.
    ///
    /// # Errors
    ///
    /// The text was not added, or there is a fault.
    #[inline(always)]
    pub(crate) fn end_line(&mut self, added: fmt::Result) -> Result<(), FaultKept>
        ensures text { OnOk result
            (Appends (lines_text W.contents self.old) (lines_text W.contents self.new) (LINE_FEED ∷ [])) }
        ensures whole { OnOk result (self.new.whole ≡ self.new.len) }
        ensures few { OnOk result (self.new.len < AT_ONCE) }
        ensures none { OnOk result (self.new.fault ≡ None) }
        ensures fault { OnErr result (IsErr added ⊎ IsSome self.new.fault) }
    {
        if added.is_err() {
            return Err(FaultKept);
        }
        self.add_lines(&[LINE_FEED])
    }

    /// Adds the end of a line, or whole lines. Then only whole lines wait, of fewer than [`AT_ONCE`] bytes.
    ///
    /// # Errors
    ///
    /// There is a fault.
    #[inline(always)]
    pub(crate) fn add_lines(&mut self, lines: &[u8]) -> Result<(), FaultKept>
        ensures text { OnOk result
            (Appends (lines_text W.contents self.old) (lines_text W.contents self.new) lines.now) }
        ensures whole { OnOk result (self.new.whole ≡ self.new.len) }
        ensures few { OnOk result (self.new.len < AT_ONCE) }
        ensures none { OnOk result (self.new.fault ≡ None) }
        ensures fault { OnErr result (IsSome self.new.fault) }
    {
        self.add(lines)?;
        self.whole = self.len;
        if self.whole < AT_ONCE && self.fault.is_none() {
            return Ok(());
        }
        self.send(self.whole)
    }

    /// Writes the whole lines, and flushes the writer. If only whole lines waited, nothing waits then.
    ///
    /// # Errors
    ///
    /// There is a fault.
    pub(crate) fn finish(&mut self) -> Result<(), FaultKept>
        ensures text { OnOk result (Keeps (lines_text W.contents self.old) (lines_text W.contents self.new)) }
        ensures all { self.old.whole ≡ self.old.len → OnOk result (self.new.len ≡ 0) }
        ensures none { OnOk result (self.new.fault ≡ None) }
        ensures fault { OnErr result (IsSome self.new.fault) }
    {
        self.send(self.whole)?;
        let flushed = self.writer.flush();
        self.noted(flushed)
    }

    /// Keeps a fault, unless there is one.
    pub(crate) fn keep(&mut self, fault: io::Error)
        ensures text { lines_text W.contents self.new ≡ lines_text W.contents self.old }
        ensures len { self.new.len ≡ self.old.len }
        ensures whole { self.new.whole ≡ self.old.whole }
        ensures first { MatchOption self.old.fault (self.new.fault ≡ Some fault) (λ _. self.new.fault ≡ self.old.fault) }
    {
        if self.fault.is_none() {
            self.fault = Some(fault);
        }
    }

    /// Takes the fault. If there is none, the error says only that.
    pub(crate) fn take_fault(&mut self) -> io::Error
        ensures text { lines_text W.contents self.new ≡ lines_text W.contents self.old }
        ensures taken { IfSome self.old.fault (λ fault. result ≡ fault) }
        ensures none { self.new.fault ≡ None }
    {
        let fault = self.fault.take();
        fault.unwrap_or(io::Error::from(io::ErrorKind::Other))
    }

    /// Adds a part of a line.
    ///
    /// # Errors
    ///
    /// There is no room for it, and a fault.
    #[inline(always)]
    pub(crate) fn add(&mut self, part: &[u8]) -> Result<(), FaultKept>
        ensures text { OnOk result
            (Appends (lines_text W.contents self.old) (lines_text W.contents self.new) part.now) }
        ensures fault { OnErr result (IsSome self.new.fault) }
    {
        if part.len() > MOST - self.len {
            return self.write_on(part);
        }
        let end = self.len + part.len();
        self.bytes[self.len..end].copy_from_slice(part);
        self.len = end;
        Ok(())
    }

    /// Writes this many of the bytes that wait. The others wait on.
    fn send(&mut self, count: usize) -> Result<(), FaultKept>
        ensures keeps { OnOk result (Keeps (lines_text W.contents self.old) (lines_text W.contents self.new)) }
        ensures all { self.old.len ≤ count → OnOk result (self.new.len ≡ 0) }
        ensures whole { OnOk result (self.new.whole ≡ 0) }
        ensures none { OnOk result (self.new.fault ≡ None) }
        ensures fault { OnErr result (IsSome self.new.fault) }
    {
        if self.fault.is_some() {
            return Err(FaultKept);
        }
        let count = count.min(self.len);
        let written = self.writer.write_all(&self.bytes[..count]);
        self.bytes.copy_within(count..self.len, 0);
        self.len -= count;
        self.whole = 0;
        self.noted(written)
    }

    /// Writes the bytes that wait, and then a part of a line for which there is no room.
    #[cold]
    #[inline(never)]
    fn write_on(&mut self, part: &[u8]) -> Result<(), FaultKept>
        ensures text { OnOk result
            (Appends (lines_text W.contents self.old) (lines_text W.contents self.new) part.now) }
        ensures fault { OnErr result (IsSome self.new.fault) }
    {
        self.send(self.len)?;
        let written = self.writer.write_all(part);
        self.noted(written)
    }

    /// Keeps the fault of a call of the writer, if it failed.
    fn noted(&mut self, outcome: io::Result<()>) -> Result<(), FaultKept>
        ensures text { lines_text W.contents self.new ≡ lines_text W.contents self.old }
        ensures len { self.new.len ≡ self.old.len }
        ensures whole { self.new.whole ≡ self.old.whole }
        ensures ok { OnOk result (IsOk outcome) }
        ensures kept { OnOk result (self.new.fault ≡ self.old.fault) }
        ensures fault { OnErr result (IsSome self.new.fault) }
    {
        match outcome {
            Ok(()) => Ok(()),
            Err(fault) => {
                self.keep(fault);
                Err(FaultKept)
            }
        }
    }
}

impl<W: io::Write> fmt::Write for Lines<W> {
    ghost use Rattle.tool_files.specs.Lines.{lines_text};

    ghost write_str_gives = { λ old part new. Appends (lines_text W.contents old) (lines_text W.contents new) part };

    /// Adds a part of a line.
    ///
    /// # Errors
    ///
    /// There is no room for it, and a fault.
    #[inline(always)]
    fn write_str(&mut self, part: &str) -> fmt::Result {
        self.add(part.as_bytes()).map_err(|_| fmt::Error)
    }
}

impl<W: io::Write> io::Write for Lines<W> {
    /// Writes all bytes that wait, and then these.
    fn write(&mut self, buf: &[u8]) -> io::Result<usize> {
        match self.send(self.len) {
            Ok(()) => self.writer.write(buf),
            Err(FaultKept) => Err(self.take_fault()),
        }
    }

    /// Writes the whole lines, and flushes the writer. The lines keep the fault of a write, and the error says only that
    /// there is one. They do not keep that of the flush, which comes again at the end.
    fn flush(&mut self) -> io::Result<()> {
        match self.send(self.whole) {
            Ok(()) => self.writer.flush(),
            Err(FaultKept) => Err(io::Error::from(io::ErrorKind::Other)),
        }
    }
}
