//! The word `check` with `--index`.

ghost use Rattle.std.specs.Prelude.{◌≡◌, ◌++◌, ℕ, List, Some, OnOk, string_bytes};
ghost use Rattle.tool_files.specs.Indexes.{IndexesInput, span_line};

use crate::arguments::Options;
use crate::check::ROOM;
use crate::shared::{Prompt, Shared};
use ciborium_ll::Decoder;
use ciborium_ll::io::{BufferedReader, Read};
use std::alloc::{AllocError, Global};
use std::cell::RefCell;
use std::fmt::Write;
use std::io;
use std::io::Write as _;
use tool_verdicts::check::prefer_failure;
use tool_verdicts::part::{Span, Spans, index_part};
use tool_verdicts::verdict::Verdict;

/// Writes the places of items, each as a line.
#[derive(Drop)]
struct Lines<W> {
    line: String,
    writer: W,
}

impl<W: io::Write> Lines<W> {
    /// Makes the line of a place: `5 3` for an item of 3 bytes at the offset 5.
    fn set_line(&mut self, span: Span) -> Result<(), AllocError>
        ensures { OnOk result (string_bytes self.new.line ≡ span_line span) }
    {
        self.line.clear();
        writeln!(self.line, "{} {}", span.offset, span.len)
    }
}

impl<W: io::Write> Spans for Lines<W> {
    ghost use Rattle.std.specs.Prelude.{None};

    type Error = io::Error;

    ghost taken = { λ _. None };

    /// Writes the line of a place.
    ///
    /// # Errors
    ///
    /// The error is that of the writer, or says that there is no memory for the line.
    fn span(&mut self, span: Span) -> io::Result<()> {
        self.set_line(span)?;
        self.writer.write_all(self.line.as_bytes())
    }
}

/// Checks a reader's bytes as `check_input` does, and writes a line for each item of the part that the options name: its
/// offset and its length. Returns the verdict.
///
/// The call flushes each whole line before it asks the reader for more.
///
/// # Errors
///
/// The writer failed, or there is no memory for a line. The call then reads no more.
pub fn index_input<R: io::Read + Drop, W: io::Write + Drop>(
    alloc: Global,
    reader: R,
    writer: W,
    options: Options,
) -> io::Result<Verdict> {
    let output = RefCell::new(writer);
    let mut lines = Lines {
        line: String::new(alloc),
        writer: Shared::new(&output),
    };
    let verdict = index_items(Prompt::new(reader, &output), &mut lines, options)?;
    lines.writer.flush()?;
    Ok(verdict)
}

/// Checks a reader's bytes, from their start, and hands out the place of each item of the part.
///
/// # Errors
///
/// The error of the refused place.
fn index_items<R: io::Read + Drop, S: Spans>(
    reader: R,
    spans: &mut S,
    options: Options,
) -> Result<Verdict, S::Error>
    ensures { IndexesInput ⟦<BufferedReader<'static, R> as Read>⟧ options.spelling options.skip
        options.items options.depth reader (S.taken spans.old) (S.taken spans.new) result }
{
    let mut ahead = [0; ROOM];
    let reader = BufferedReader::new(reader, &mut ahead);
    let mut decoder = Decoder::with_spelling(reader, options.spelling, 0);
    let found = index_part(
        &mut decoder,
        options.skip,
        options.items,
        options.depth,
        spans,
    );
    let (_, _, fault) = decoder.into_inner().into_parts();
    match found {
        Ok(verdict) => Ok(prefer_failure(fault, verdict)),
        Err(error) => Err(error),
    }
}
