//! The word `dump`.

ghost use Rattle.std.specs.Prelude.{◌≤◌, ◌↔◌, ℕ, List, length, IsOk, None};
ghost use Rattle.std.specs.Prelude.{Result};
ghost use Rattle.std.specs.Str.{IsCharBoundary};
ghost use Rattle.std.specs.declared.io.Error.{Error as IoError};
ghost use Rattle.cbor_dump.specs.declared.dump.DumpError.{DumpError as AnyError};
ghost use Rattle.ciborium_ll.specs.Decoding.{offset_of};
ghost use Rattle.ciborium_ll.specs.Premises.{CanRead};
ghost use Rattle.cbor_dump.specs.Checking.{ReadsAsCheck};
ghost use Rattle.cbor_dump.specs.Dumps.{AreRowsTaken};
ghost use Rattle.cbor_dump.specs.Sequences.{IsSequence};
ghost use Rattle.cbor_dump.specs.Takings.{IsInMode, most_bytes};
ghost use Rattle.tool_verdicts.specs.Checking.{FindsBehindRows, dump_said};
ghost use Rattle.tool_files.specs.Shows.{DumpsAll, DumpsInput, DumpsSome, PrintsRows, TellsKept};
ghost use Rattle.ciborium_ll.specs.Limits.{MOST_LEVELS};

use crate::arguments::Options;
use crate::check::ROOM;
use crate::fence::Fence;
use crate::lines::Lines;
use crate::nested::{Asked, Holder, Levels, Strings, level_below};
use crate::shared::Prompt;
use cbor_dump::counted::skip_items;
use cbor_dump::dump::{DumpError, dump};
use cbor_dump::rows::{Meaning, Row, Rows};
use cbor_embedded::Embedded;
use ciborium_ll::io::{FaultKept, KeepingReader, Read};
use ciborium_ll::{Decoder, Spelling};
use std::alloc::{AllocError, Global};
use std::cell::{RefCell, RefMut};
use std::fmt::Write;
use std::{fmt, io};
use tool_verdicts::check::{BUFFER_SIZE, fault_of, prefer_failure};
use tool_verdicts::dump::{dump_verdict, show_left};
use tool_verdicts::items::EMBEDDED_ROOM;
use tool_verdicts::verdict::Verdict;

/// Prints rows, each as a line.
#[derive(Drop)]
struct Printer<'o, W> {
    /// The line of a row that has colors, or one that is not printed.
    line: String,
    output: &'o RefCell<Lines<W>>,
    offsets: bool,
    colors: bool,
    /// How many rows of a body are printed at most, if not all are.
    most: Option<usize>,
    /// How many rows of the present body were printed.
    rows: usize,
    /// The bytes of the present body that are in no row.
    hidden: Hidden,
    /// The level of a part of the last row's title or body.
    below: usize,
}

/// Bytes of a body that are not shown.
#[derive(Clone, Copy)]
struct Hidden {
    /// How many bytes they are.
    bytes: usize,
    /// How many spaces a row of them would begin with.
    indent: usize,
}

/// No bytes.
const NONE_HIDDEN: Hidden = Hidden {
    bytes: 0,
    indent: 0,
};

/// How many columns an offset takes, with the colon and the space after it, if it has at most six digits.
const OFFSET_COLUMNS: usize = 8;

/// The escape sequence before the meaning of a title or of a part of a text.
const MEANING: &str = "\x1b[36m";

/// The escape sequence before bytes at fault, and before the verdict on them.
const FAULT: &str = "\x1b[31m";

/// The escape sequence after a color.
const PLAIN: &str = "\x1b[0m";

impl<W: io::Write> Printer<'_, W> {
    /// Returns the lines that wait.
    fn lines(&self) -> Result<RefMut<'_, Lines<W>>, FaultKept> {
        self.output.try_borrow_mut().map_err(|_| FaultKept)
    }

    /// Answers a write of a line to memory. If it failed, the lines keep the fault that there is no memory.
    fn check_memory(&self, written: fmt::Result) -> Result<(), FaultKept> {
        if written.is_ok() {
            return Ok(());
        }
        self.lines()?.keep(io::Error::from(AllocError));
        Err(FaultKept)
    }

    /// Prints a row. A fault has its color throughout.
    fn put_row(&mut self, row: &Row<'_>, is_fault: bool) -> Result<(), FaultKept> {
        if self.colors {
            self.line.clear();
            let written = write_row(&mut self.line, row, self.offsets);
            self.check_memory(written)?;
            return self.put_colored(is_fault);
        }
        let mut lines = self.lines()?;
        let added = write_row(&mut *lines, row, self.offsets);
        lines.end_line(added)
    }

    /// Prints a row of a body, or hides it if enough rows of the body were printed.
    fn put_body(&mut self, row: &Row<'_>) -> Result<(), FaultKept> {
        if self.most.is_none_or(|most| self.rows < most) {
            self.rows = self.rows.saturating_add(1);
            return self.put_row(row, false);
        }
        if self.hidden.bytes == 0 {
            self.line.clear();
            let written = write_row(&mut self.line, row, false);
            self.check_memory(written)?;
            self.hidden.indent = first_digit(self.line.as_str());
        }
        self.hidden.bytes = self.hidden.bytes.saturating_add(row.bytes.len());
        Ok(())
    }

    /// Prints how many bytes of the last body were hidden, if there are any.
    #[inline(always)]
    fn end_body(&mut self) -> Result<(), FaultKept> {
        self.rows = 0;
        if self.hidden.bytes == 0 {
            return Ok(());
        }
        self.put_hidden()
    }

    /// Prints how many bytes of the last body were hidden.
    fn put_hidden(&mut self) -> Result<(), FaultKept> {
        let hidden = self.hidden;
        self.hidden = NONE_HIDDEN;
        self.line.clear();
        let written = write_hidden(&mut self.line, hidden, self.offsets);
        self.check_memory(written)?;
        self.put_line(false)
    }

    /// Prints the line, with its color if colors are wanted.
    fn put_line(&mut self, is_fault: bool) -> Result<(), FaultKept> {
        if self.colors {
            return self.put_colored(is_fault);
        }
        let mut lines = self.lines()?;
        let added = lines.write_str(self.line.as_str());
        lines.end_line(added)
    }

    /// Prints the line with its color: the part from the first `#` on, or all of it if it is a fault.
    fn put_colored(&mut self, is_fault: bool) -> Result<(), FaultKept> {
        let mut lines = self.lines()?;
        let added = write_colored(&mut *lines, self.line.as_str(), is_fault);
        lines.end_line(added)
    }

    /// Writes the lines that wait.
    fn finish(&self) -> Result<(), FaultKept> {
        self.lines()?.finish()
    }

    /// Prints the verdict after the rows.
    fn end(&mut self, verdict: &Verdict) -> Result<(), FaultKept> {
        self.end_body()?;
        self.line.clear();
        let written = write_verdict(&mut self.line, verdict);
        self.check_memory(written)?;
        self.put_line(true)
    }
}

impl<W: io::Write> Rows for Printer<'_, W> {
    ghost use Rattle.std.specs.Prelude.{None};

    /// The lines keep the error of the writer, or one that says that there is no memory for a line.
    type Error = FaultKept;

    ghost drawn = { λ _. None };

    /// Prints a row as a line.
    ///
    /// # Errors
    ///
    /// There is a fault of the lines.
    fn row(&mut self, row: Row<'_>) -> Result<(), FaultKept> {
        self.below = level_below(&row);
        if matches!(row.meaning, Meaning::Bytes | Meaning::Text) {
            return self.put_body(&row);
        }
        self.end_body()?;
        self.put_row(&row, matches!(row.meaning, Meaning::Fault))
    }
}

impl<W: io::Write> Levels for Printer<'_, W> {
    fn below(&self) -> usize {
        self.below
    }

    fn take_fault(&mut self) -> io::Error {
        match self.lines() {
            Ok(mut lines) => lines.take_fault(),
            Err(FaultKept) => io::Error::from(io::ErrorKind::Other),
        }
    }
}

/// Writes the text of a row, with its offset if offsets are wanted.
fn write_row<T: Write>(text: &mut T, row: &Row<'_>, offsets: bool) -> fmt::Result {
    if offsets {
        write!(text, "{:6}: ", row.offset)?;
    }
    text.write(row)
}

/// Writes how many bytes of a body were hidden, after as many spaces as a row of them begins with.
fn write_hidden<T: Write>(text: &mut T, hidden: Hidden, offsets: bool) -> fmt::Result {
    let columns = if offsets { OFFSET_COLUMNS } else { 0 };
    for _ in 0..hidden.indent.saturating_add(columns) {
        text.write_str(" ")?;
    }
    let plural = if hidden.bytes == 1 { "" } else { "s" };
    write!(text, "# ... {} more byte{plural}", hidden.bytes)
}

/// Writes a verdict as a comment.
fn write_verdict<T: Write>(text: &mut T, verdict: &Verdict) -> fmt::Result {
    write!(text, "# {verdict}")
}

/// Writes a line with its color: the part from the first `#` on, or all of it if it is a fault.
fn write_colored<T: Write>(text: &mut T, line: &str, is_fault: bool) -> fmt::Result {
    if is_fault {
        return write_in(text, FAULT, line);
    }
    let at = first_hash(line);
    text.write_str(&line[..at])?;
    if at < line.len() {
        write_in(text, MEANING, &line[at..])?;
    }
    Ok(())
}

/// Writes a part of a line in this color.
fn write_in<T: Write>(text: &mut T, color: &str, part: &str) -> fmt::Result {
    text.write_str(color)?;
    text.write_str(part)?;
    text.write_str(PLAIN)
}

/// Returns the index of the first `#`, or the length of the line if it has none.
fn first_hash(line: &str) -> usize
    ensures within { result ≤ length line.now }
    ensures boundary { IsCharBoundary line.now result }
{
    match line.find('#') {
        Some(at) => at,
        None => line.len(),
    }
}

/// Returns the index of the first character that is no space, or the length of the line if it has none.
fn first_digit(line: &str) -> usize {
    line.find(|character| character != ' ')
        .unwrap_or(line.len())
}

/// Dumps a reader's bytes, up to their end. After a fault of the bytes a line names it.
///
/// The options may name a part of the items: those after the first ones, and at most a number of them. If they name a
/// number of lines, each body has at most that number, and a comment after them says how many bytes follow.
///
/// If the options ask for the items in byte strings, the lines of an item take the place of those of a body. They may
/// also ask for those under tag 24 alone (RFC 8949, 3.4.5.1).
///
/// The call flushes each whole line before it asks the reader for more. It holds a body back that may be an item. Colors
/// are escape sequences between the bytes of the lines, and change none of them.
///
/// # Errors
///
/// - The verdict of a dump that did not come to the end after whole items.
/// - `Output`: the writer failed, or there is no memory for a line.
pub fn dump_input<R: io::Read + Drop, W: io::Write + Drop>(
    alloc: Global,
    reader: R,
    writer: W,
    options: Options,
    colors: bool,
) -> Result<(), Verdict> {
    let output = RefCell::new(Lines::new(writer));
    let mut printer = Printer {
        line: String::new(alloc),
        output: &output,
        offsets: options.offsets,
        colors,
        most: options.max,
        rows: 0,
        hidden: NONE_HIDDEN,
        below: 0,
    };
    let outcome = dump_held(Prompt::new(reader, &output), &mut printer, options);
    let ended = match &outcome {
        Err(Verdict::Output(_)) => Ok(()),
        Ok(()) | Err(Verdict::Failed(_)) => printer.end_body(),
        Err(verdict) => printer.end(verdict),
    };
    let flushed = printer.finish();
    match (ended, flushed) {
        (Ok(()), Ok(())) => outcome,
        _ => Err(Verdict::Output(printer.take_fault())),
    }
}

/// Prints the rows of a part of a reader's bytes, from their start, and the rows that were held when they ended.
fn dump_held<R: io::Read + Drop, W: io::Write>(
    reader: R,
    printer: &mut Printer<'_, W>,
    options: Options,
) -> Result<(), Verdict> {
    if let Embedded::Nowhere = options.embedded {
        return dump_rows(reader, printer, options);
    }
    let asked = Asked {
        embedded: options.embedded,
        depth: options.depth,
    };
    let mut memory = [0; EMBEDDED_ROOM];
    let mut holder = Holder::<Strings, Printer<'_, W>>::new(printer, &mut memory, asked);
    let outcome = dump_rows(reader, &mut holder, options);
    if let Err(Verdict::Output(_)) = &outcome {
        return outcome;
    }
    match holder.let_go() {
        Ok(()) => outcome,
        Err(FaultKept) => Err(Verdict::Output(holder.take_fault())),
    }
}

/// Prints the rows of a part of a reader's bytes, from their start, and the bytes that are left of a title or of a body
/// after them. It prints nothing of the items that are passed over.
fn dump_rows<R: io::Read + Drop, S: Levels + Rows<Error = FaultKept>>(
    reader: R,
    rows: &mut S,
    options: Options,
) -> Result<(), Verdict>
    ensures { DumpsInput ⟦<KeepingReader<'static, R> as Read>⟧ ⟦<Fence<KeepingReader<'static, R>> as Read>⟧
        options.spelling options.skip options.items options.depth reader result }
{
    let mut ahead = [0; ROOM];
    let reader = KeepingReader::new(reader, &mut ahead);
    let mut decoder = Decoder::with_spelling(reader, options.spelling, 0);
    let mut buffer = [0; BUFFER_SIZE];
    if let Err(error) = skip_items(&mut decoder, options.skip, options.depth, &mut buffer) {
        let verdict = fault_of(error, decoder.offset());
        let (_, _, fault) = decoder.into_inner().into_parts();
        return Err(prefer_failure(fault, verdict));
    }
    match options.items {
        None => {
            let (outcome, offset) = print_all(&mut decoder, rows, options);
            let (_, _, fault) = decoder.into_inner().into_parts();
            dump_verdict(outcome, fault, offset)
        }
        Some(items) => {
            let start = decoder.offset();
            let fence = Fence::new(decoder.into_inner(), items, options.depth);
            let mut fenced = Decoder::with_spelling(fence, options.spelling, start);
            let (outcome, offset) = print_all(&mut fenced, rows, options);
            let (_, _, fault) = fenced.into_inner().into_inner().into_parts();
            dump_verdict(outcome, fault, offset)
        }
    }
}

/// Prints the rows of the bytes that a decoder reads, and the bytes that are left of a title or of a body after them.
/// Returns the answer of the dump, and the offset at which the rows ended.
fn print_all<R: Read, S: Levels + Rows<Error = FaultKept>>(
    decoder: &mut Decoder<R>,
    rows: &mut S,
    options: Options,
) -> (Result<R::Error, DumpError<R::Error, io::Error>>, usize)
where
    R::Error: Drop,
    requires alike { IsInMode options.spelling decoder.old }
    ensures { PrintsRows R.Read options.depth decoder.old result.0 result.1 }
{
    let outcome = print_rows(decoder, options.depth, options.spelling, rows);
    let offset = decoder.offset();
    let outcome = show_left(decoder, outcome, rows.below(), rows);
    (with_fault(outcome, rows), offset)
}

/// Returns the answer of a dump with the fault that was kept.
fn with_fault<E, S: Levels>(
    outcome: Result<E, DumpError<E, FaultKept>>,
    rows: &mut S,
) -> Result<E, DumpError<E, io::Error>>
    ensures { TellsKept outcome result }
{
    match outcome {
        Ok(end) => Ok(end),
        Err(DumpError::Item(error)) => Err(DumpError::Item(error)),
        Err(DumpError::Rows(FaultKept)) => Err(DumpError::Rows(rows.take_fault())),
    }
}

/// Prints the rows of the bytes that a decoder reads. The decoder is as strict as the dump.
///
/// If every row was printed, a steady reader tells its bytes and the offset fits, `Ok` comes exactly if the bytes are a
/// sequence of items. Otherwise the error names the first fault after the whole items, with its offset.
fn print_rows<R: Read, S: Rows<Error = FaultKept>>(
    decoder: &mut Decoder<R>,
    depth: usize,
    spelling: Spelling,
    rows: &mut S,
) -> Result<R::Error, DumpError<R::Error, FaultKept>>
where
    R::Error: Drop,
    requires shallow { depth ≤ MOST_LEVELS }
    requires alike { IsInMode spelling decoder.old }
    ensures exactly { (due : List ℕ) → CanRead R.Read most_bytes decoder.old due → AreRowsTaken result
        → (IsOk result ↔ IsSequence spelling depth due) }
    ensures told { (due : List ℕ) → CanRead R.Read most_bytes decoder.old due → AreRowsTaken result
        → (told : Result R.Error (AnyError R.Error IoError)) → TellsKept result told
        → FindsBehindRows spelling depth due (offset_of decoder.old) (dump_said told None (offset_of decoder.new)) }
    ensures reads { AreRowsTaken result → ReadsAsCheck R.Read depth decoder.old result decoder.new }
{
    dump(decoder, depth, spelling, rows)
}
