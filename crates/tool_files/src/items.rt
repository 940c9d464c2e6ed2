//! The words `diag` and `json`.

ghost use Rattle.std.specs.Prelude.{◌≡◌, ◌≤◌, ◌+◌, ◌++◌, [], IsFalse, IsTrue, OnErr, OnOk, length, nat_le};
ghost use Rattle.tool_files.specs.Shows.{WritesInput};
ghost use Rattle.tool_files.specs.declared.items.TheConstants.{PART};

use crate::arguments::Options;
use crate::check::ROOM;
use crate::lines::Lines;
use crate::shared::Prompt;
use ciborium_ll::Decoder;
use ciborium_ll::io::{BufferedReader, Failures, FaultKept, Read, SliceReader, Write};
use std::cell::{RefCell, RefMut};
use std::io;
use tool_verdicts::items::{Form, items_verdict, write_part};
use tool_verdicts::verdict::Verdict;

/// How many bytes of text are passed on at once.
const PART: usize = 1024;

/// Writes items. A flush passes their text on as whole lines, which wait until they are many, or until the reader asks
/// for more.
#[derive(Drop)]
struct Page<'o, W> {
    /// The text after the last line, or its last part.
    bytes: [u8; PART],
    len: usize,
    /// Whether a part of that text was passed on.
    is_begun: bool,
    output: &'o RefCell<Lines<W>>,
    failures: Failures,
    ghost within: { len ≤ PART },
}

impl<'o, W: io::Write> Page<'o, W> {
    ghost use Rattle.tool_files.specs.Lines.{page_text};

    /// Makes a page without text.
    fn new(output: &'o RefCell<Lines<W>>) -> Page<'o, W> {
        Page {
            bytes: [0; PART],
            len: 0,
            is_begun: false,
            output,
            failures: Failures::new(),
        }
    }

    /// Returns the lines that wait.
    fn lines(&self) -> Result<RefMut<'o, Lines<W>>, FaultKept> {
        self.output.try_borrow_mut().map_err(|_| FaultKept)
    }

    /// Keeps more of the text if there is room for it, and returns whether there is.
    #[inline(always)]
    fn keep(&mut self, more: &[u8]) -> bool
        ensures room { result ≡ nat_le (self.old.len + length more.now) PART }
        ensures kept { IsTrue result → page_text self.new ≡ page_text self.old ++ more.now }
        ensures none { IsFalse result → self.new ≡ self.old }
        ensures failures { self.new.failures.count ≡ self.old.failures.count }
    {
        if more.len() > PART - self.len {
            return false;
        }
        let end = self.len + more.len();
        self.bytes[self.len..end].copy_from_slice(more);
        self.len = end;
        true
    }

    /// Passes the text on, and then more of it.
    #[cold]
    #[inline(never)]
    fn pass_on(&mut self, more: &[u8]) -> Result<(), FaultKept>
        ensures none { OnOk result (page_text self.new ≡ []) }
        ensures kept { OnErr result (page_text self.new ≡ page_text self.old) }
        ensures failures { self.new.failures.count ≡ self.old.failures.count }
    {
        let mut lines = self.lines()?;
        lines.add(&self.bytes[..self.len])?;
        lines.add(more)?;
        self.len = 0;
        self.is_begun = true;
        Ok(())
    }

    /// Passes the text on as whole lines.
    fn pass_lines(&mut self) -> Result<(), FaultKept>
        ensures none { OnOk result (page_text self.new ≡ []) }
        ensures kept { OnErr result (page_text self.new ≡ page_text self.old) }
        ensures failures { self.new.failures.count ≡ self.old.failures.count }
    {
        self.lines()?.add_lines(&self.bytes[..self.len])?;
        self.len = 0;
        self.is_begun = false;
        Ok(())
    }

    /// Ends the last line if it has no end, and writes all lines.
    fn end(&mut self) -> Result<(), FaultKept> {
        if self.len > 0 || self.is_begun {
            self.write_all(b"\n")?;
            self.pass_lines()?;
        }
        self.lines()?.finish()
    }

    /// Takes the fault that the lines keep.
    fn take_fault(&self) -> io::Error {
        match self.lines() {
            Ok(mut lines) => lines.take_fault(),
            Err(FaultKept) => io::Error::from(io::ErrorKind::Other),
        }
    }

    /// Counts a call that failed.
    fn counted(&mut self, outcome: Result<(), FaultKept>) -> Result<(), FaultKept>
        ensures same { result ≡ outcome }
        ensures ok { OnOk result (self.new.failures.count ≡ self.old.failures.count) }
        ensures err { OnErr result (self.new.failures.count ≡ self.old.failures.count + 1) }
    {
        if outcome.is_err() {
            self.failures.raise();
        }
        outcome
    }
}

impl<W: io::Write> Write for Page<'_, W> {
    ghost use Rattle.std.specs.Prelude.{None};

    /// The lines keep the error of the writer.
    type Error = FaultKept;

    ghost written = { λ _. None };

    ghost room = { λ _. None };

    ghost failures = { λ p. p.failures.count };

    ghost flushed = { λ _ _. Unit {0} };

    ghost target = { λ _. None };

    #[inline(always)]
    fn write_all(&mut self, data: &[u8]) -> Result<(), FaultKept> {
        if self.keep(data) {
            return Ok(());
        }
        let outcome = self.pass_on(data);
        self.counted(outcome)
    }

    fn flush(&mut self) -> Result<(), FaultKept> {
        let outcome = self.pass_lines();
        self.counted(outcome)
    }
}

/// Writes a reader's bytes in diagnostic notation, up to their end, each item in a line or in lines of its own. The
/// options may name a part of the items: those after the first ones, and at most a number of them.
///
/// The call flushes each whole item before it asks the reader for more. It writes the text of an item at fault up to
/// the fault.
///
/// # Errors
///
/// - The verdict on the item at fault, or on a read that failed for another reason than the end.
/// - `Output`: the writer failed.
pub fn diag_input<R: io::Read + Drop, W: io::Write + Drop>(
    reader: R,
    writer: W,
    options: Options,
) -> Result<(), Verdict> {
    write_input(reader, writer, options, options.notation())
}

/// Writes a reader's bytes as JSON, up to their end, each item on a line (RFC 8949, 6.1). The options may name a part
/// of the items, as for `diag_input`. They may want one item that nothing follows.
///
/// The call flushes each whole item before it asks the reader for more. It writes the text of an item at fault up to
/// the fault.
///
/// # Errors
///
/// - The verdict on the item at fault, which may be that it has no JSON, or on a read that failed for another reason
///   than the end.
/// - `More`: more follows the one item that the options want.
/// - `Output`: the writer failed.
pub fn json_input<R: io::Read + Drop, W: io::Write + Drop>(
    reader: R,
    writer: W,
    options: Options,
) -> Result<(), Verdict> {
    write_input(reader, writer, options, options.json())
}

/// Writes the items of a reader's bytes in this form, and ends the last line.
fn write_input<R: io::Read + Drop, W: io::Write + Drop>(
    reader: R,
    writer: W,
    options: Options,
    form: Form,
) -> Result<(), Verdict> {
    let output = RefCell::new(Lines::new(writer));
    let mut page = Page::new(&output);
    let outcome = write_items(Prompt::new(reader, &output), &mut page, options, form);
    match (outcome, page.end()) {
        (Ok(verdict), Ok(())) => verdict,
        _ => Err(Verdict::Output(page.take_fault())),
    }
}

/// Writes the items of a reader's bytes in this form, from their start, to any writer. The outer error is the writer's.
fn write_items<R: io::Read + Drop, W: Write>(
    reader: R,
    writer: &mut W,
    options: Options,
    form: Form,
) -> Result<Result<(), Verdict>, W::Error>
    ensures { WritesInput ⟦<SliceReader<'static> as Read>⟧ ⟦<BufferedReader<'static, R> as Read>⟧ W.Write
        options.spelling options.skip options.items options.one options.depth form reader writer.old result
        writer.new }
{
    let mut ahead = [0; ROOM];
    let reader = BufferedReader::new(reader, &mut ahead);
    let mut decoder = Decoder::with_spelling(reader, options.spelling, 0);
    let outcome = write_part(
        &mut decoder,
        writer,
        options.skip,
        options.items,
        options.one,
        options.depth,
        form,
    );
    let offset = decoder.offset();
    let (_, _, fault) = decoder.into_inner().into_parts();
    items_verdict(outcome, fault, offset)
}
