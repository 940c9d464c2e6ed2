//! Answers, as lines of text.

use crate::word::word_of;
use std::alloc::{AllocError, Global};
use std::fmt;
use std::fmt::Write;

/// The last line of an answer, with the offset at which the answer ended.
#[derive(Drop)]
pub enum Last {
    /// The call consumed all bytes.
    End(usize),
    /// The bytes at this offset are no CBOR.
    Syntax(usize),
    /// Bytes are missing.
    Short(usize),
    /// The call skipped an item.
    Item(usize),
    /// A break stands in place of an item.
    Break(usize),
    /// An item nests too deep.
    Deep(usize),
    /// The item is no string.
    Other,
    /// A second chunk in a row is empty: the buffer is too small.
    Stuck,
    /// The offset has no room. No line is long enough for it.
    Room,
}

impl Last {
    /// Returns the name, and the offset that follows it, if one does.
    fn parts(&self) -> (&'static str, Option<usize>) {
        match self {
            Last::End(offset) => ("end", Some(*offset)),
            Last::Syntax(offset) => ("syntax", Some(*offset)),
            Last::Short(offset) => ("short", Some(*offset)),
            Last::Item(offset) => ("item", Some(*offset)),
            Last::Break(offset) => ("break", Some(*offset)),
            Last::Deep(offset) => ("deep", Some(*offset)),
            Last::Other => ("other", None),
            Last::Stuck => ("stuck", None),
            Last::Room => ("error: room", None),
        }
    }
}

impl fmt::Display for Last {
    fn fmt<W: Write>(&self, f: &mut fmt::Formatter<W>) -> fmt::Result {
        let (name, offset) = self.parts();
        match offset {
            Some(offset) => write!(f, "{name} {offset}"),
            None => f.write_str(name),
        }
    }
}

/// The value after the name of a title.
#[derive(Drop)]
pub enum Value {
    /// Nothing.
    Nothing,
    /// A number.
    Number(u64),
    /// Bits, as this many hexadecimal digits.
    Bits(u64, usize),
}

/// Writes the line of a title at this offset.
pub fn title_line(
    offset: usize,
    name: &str,
    value: Value,
    sink: &mut String,
) -> Result<(), AllocError> {
    match value {
        Value::Nothing => writeln!(sink, "{offset} {name}"),
        Value::Number(n) => writeln!(sink, "{offset} {name} {n}"),
        Value::Bits(bits, digits) => writeln!(sink, "{offset} {name} {bits:0digits$x}"),
    }
}

/// Writes the last line of an answer.
pub fn last_line(last: Last, sink: &mut String) -> Result<(), AllocError> {
    writeln!(sink, "{last}")
}

/// Writes the line of a segment of `length` bytes.
pub fn segment_line(length: usize, sink: &mut String) -> Result<(), AllocError> {
    writeln!(sink, "segment {length}")
}

/// Writes bytes as a line of one word.
pub fn word_line(alloc: Global, bytes: &[u8], sink: &mut String) -> Result<(), AllocError> {
    write_word(alloc, bytes, sink)?;
    sink.push_str("\n")
}

/// Writes the line of a chunk.
pub fn chunk_line(alloc: Global, chunk: &[u8], sink: &mut String) -> Result<(), AllocError> {
    sink.push_str("chunk ")?;
    word_line(alloc, chunk, sink)
}

/// Writes the bytes that a copy wrote, and then those that are left, or why the copy stopped. If the copy stopped for
/// want of room, the call writes only that.
pub fn copy_line(
    alloc: Global,
    last: Option<Last>,
    written: &[u8],
    left: &[u8],
    sink: &mut String,
) -> Result<(), AllocError> {
    if let Some(Last::Room) = last {
        return last_line(Last::Room, sink);
    }
    write_word(alloc, written, sink)?;
    match last {
        Some(last) => writeln!(sink, " {last}"),
        None => {
            sink.push_str(" rest ")?;
            word_line(alloc, left, sink)
        }
    }
}

/// Writes bytes as a word.
fn write_word(alloc: Global, bytes: &[u8], sink: &mut String) -> Result<(), AllocError> {
    let word = word_of(alloc, bytes)?;
    sink.push_str(word.as_str())
}
