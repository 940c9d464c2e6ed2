//! Answers each line that is read.

use crate::answer;
use crate::fault::ToolError;
use ciborium_ll_io::io::Write;
use ciborium_ll_streams::StdWriter;
use std::alloc::Global;
use std::io;
use tool_requests::input::Lines;

/// Answers each line of the reader on the writer, and flushes the writer at the end.
///
/// A line ends at a line feed or at the end of the input. After 2^64 - 1 lines the run ends as at the end of the input.
/// An interrupted call is a failure like any other.
///
/// No clause says which bytes it reads and writes. It is safe, and it returns.
///
/// # Errors
///
/// - `Memory`: there is no memory. The writer then got the line `error: memory`, if that can still be written.
/// - `Read`: the reader failed.
/// - `Write`: the writer failed, or took none of some bytes.
///
/// The answers to the lines before were written, and with `Write` some of the next answer may be.
pub fn run<R: io::Read + Drop, W: io::Write + Drop>(
    alloc: Global,
    reader: R,
    writer: W,
) -> Result<(), ToolError> {
    let mut writer = StdWriter::new(writer);
    let outcome = answer_lines(alloc, reader, &mut writer);
    if let Err(ToolError::Memory) = outcome {
        let _ = writer.write_all(b"error: memory\n");
    }
    outcome
}

/// Answers each line, and flushes.
fn answer_lines<R: io::Read + Drop, W: io::Write>(
    alloc: Global,
    reader: R,
    writer: &mut StdWriter<W>,
) -> Result<(), ToolError> {
    let mut lines = Lines::new(alloc, reader)?;
    let mut line = Vec::new(alloc);
    let mut answer = String::new(alloc);
    for _ in 0..u64::MAX {
        if !answer_next(alloc, &mut lines, &mut line, &mut answer, writer)? {
            break;
        }
    }
    Ok(writer.flush()?)
}

/// Answers the next line, and returns whether there was one. It reads the line and makes its answer in this memory.
fn answer_next<R: io::Read + Drop, W: io::Write>(
    alloc: Global,
    lines: &mut Lines<R>,
    line: &mut Vec<u8>,
    answer: &mut String,
    writer: &mut StdWriter<W>,
) -> Result<bool, ToolError> {
    if !lines.read_line(line)? {
        return Ok(false);
    }
    answer.clear();
    answer::line(alloc, line.as_slice(), answer)?;
    writer.write_all(answer.as_bytes())?;
    Ok(true)
}
