//! Lines out of a reader.

ghost use Rattle.std.specs.Prelude.{◌≡◌, ◌≤◌, [], false, IfOk, OnOk, length, take, vec_len};
ghost use Rattle.tool_requests.specs.Line.{IsOneLine};

use std::alloc::{AllocError, Global};
use std::io;
use std::io::{BufRead, BufReader};

/// Why a line cannot be read.
#[derive(Drop)]
pub enum LineError {
    /// There is no memory for the line.
    Memory,
    /// The reader failed.
    Read(io::Error),
}

impl From<AllocError> for LineError {
    fn from(_refused: AllocError) -> LineError {
        LineError::Memory
    }
}

/// Gives the lines of a reader one by one, and asks the reader for many bytes at a time.
#[derive(Drop)]
pub struct Lines<R> {
    reader: BufReader<R>,
    has_ended: bool,
}

impl<R: io::Read + Drop> Lines<R> {
    /// Makes the lines of a reader. The error says that there is no memory for a buffer.
    pub fn new(alloc: Global, reader: R) -> Result<Lines<R>, AllocError> {
        let Ok(reader) = BufReader::new(alloc, reader) else {
            return Err(AllocError);
        };
        Ok(Lines {
            reader,
            has_ended: false,
        })
    }

    /// Replaces the content of `line` by the next line, without its line feed, and returns whether there was one.
    ///
    /// # Errors
    ///
    /// - `Memory`: there is no memory for the line.
    /// - `Read`: the reader failed.
    ///
    /// After both some of the line is lost.
    pub fn read_line(&mut self, line: &mut Vec<u8>) -> Result<bool, LineError>
        ensures one { OnOk result (IsOneLine line.new.items) }
        ensures none { IfOk result (λ found. found ≡ false → line.new.items ≡ []) }
    {
        line.clear();
        for _ in 0..u64::MAX {
            if self.has_ended {
                break;
            }
            if self.take_part(line)? {
                return Ok(true);
            }
        }
        Ok(!line.is_empty())
    }

    /// Appends the bytes of one read, up to the end of the line, and returns whether a line feed ended the line.
    fn take_part(&mut self, line: &mut Vec<u8>) -> Result<bool, LineError>
        requires { IsOneLine line.old.items }
        ensures { OnOk result (IsOneLine line.new.items) }
    {
        let part = match self.reader.fill_buf() {
            Ok(part) => part,
            Err(error) => return Err(LineError::Read(error)),
        };
        if part.is_empty() {
            self.has_ended = true;
            return Ok(false);
        }
        let length = line_length(part);
        let is_whole = length < part.len();
        line.extend_from_slice(&part[..length])?;
        self.reader.consume(length + usize::from(is_whole));
        Ok(is_whole)
    }
}

/// Returns how many bytes precede the first line feed, or how many there are if there is none.
fn line_length(part: &[u8]) -> usize
    ensures within { result ≤ length part.now }
    ensures line { IsOneLine (take result part.now) }
{
    match part.iter().position(|byte| *byte == b'\n') {
        Some(length) => length,
        None => part.len(),
    }
}
