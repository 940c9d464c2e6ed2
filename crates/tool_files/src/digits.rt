//! Bytes that are written as hexadecimal digits.

ghost use Rattle.std.specs.Prelude.{◌≡◌};

use crate::text::{Ready, Text};
use std::io;
use tool_verdicts::verdict::TextFault;

/// How many bytes of the text are read at once.
const WINDOW: usize = 4096;

/// How many bytes a window spells at most. Digits that were held before the window spell some of these.
const SPELLED: usize = WINDOW / 2 + 16;

/// Reads a text of hexadecimal digits, two for each byte, as those bytes.
///
/// White space, commas and colons may stand between digits, and so may comments: from `#` to the end of the line, and
/// from `/` to the next `/`. `0x` and `\x` may precede the digits of bytes, and `h'` and `'` may surround them. A byte
/// order mark may begin the text, and an offset a line: at most 16 digits with a colon and white space after them. In a
/// line with an offset two spaces after digits begin a comment.
///
/// At any other byte a read fails with an error of the kind `InvalidData`, and `fault` then names the place. A read
/// also fails if the text ends within a byte, a comment or quotes. It fails before it gives any byte of the window that
/// has the fault, which is 4096 bytes of text long, or shorter if the source gives fewer. Text that ends within a byte,
/// a comment or quotes is read with the text after it, as far as there is room for its bytes.
#[derive(Drop)]
pub struct Digits<R> {
    source: R,
    text: Text,
    ready: Ready,
    fault: Option<TextFault>,
    is_ended: bool,
}

impl<R: io::Read> Digits<R> {
    ghost use Rattle.tool_files.specs.Inputs.{BeginsDigits};

    /// Makes a reader of the bytes that the digits in `source` spell.
    pub fn new(source: R) -> Digits<R>
        ensures { BeginsDigits source result }
    {
        Digits {
            source,
            text: Text::new(),
            ready: Ready::new(),
            fault: None,
            is_ended: false,
        }
    }

    /// Returns the fault of the text, after a read failed for it.
    pub fn fault(&self) -> Option<TextFault>
        ensures { result ≡ self.now.fault }
    {
        self.fault
    }

    /// Takes the bytes of a window of the text.
    fn take(&mut self, window: &[u8]) -> Result<(), TextFault> {
        for byte in window {
            self.text.take(*byte, &mut self.ready)?;
        }
        Ok(())
    }

    /// Reads one window more, or the end of the text. The outer error is that of the source.
    fn fill(&mut self) -> io::Result<Result<(), TextFault>> {
        let mut window = [0; WINDOW];
        let count = self.source.read(&mut window)?;
        if count == 0 {
            self.is_ended = true;
            return Ok(self.text.end(&mut self.ready));
        }
        Ok(self.take(&window[..count]))
    }
}

impl<R: io::Read> io::Read for Digits<R> {
    fn read(&mut self, buf: &mut [u8]) -> io::Result<usize> {
        if buf.is_empty() {
            return Ok(0);
        }
        for _ in 0..u64::MAX {
            let is_at_rest = self.text.is_at_rest() || self.ready.room() < SPELLED;
            if self.fault.is_some() {
                return Err(io::Error::from(io::ErrorKind::InvalidData));
            }
            if self.is_ended || is_at_rest && !self.ready.is_empty() {
                return Ok(self.ready.give(buf));
            }
            if let Err(fault) = self.fill()? {
                self.ready.clear();
                self.fault = Some(fault);
            }
        }
        Ok(0)
    }
}
