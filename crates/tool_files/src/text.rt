//! A text that spells bytes, character by character.

ghost use Rattle.std.specs.Prelude.{◌≤◌, length};

use tool_verdicts::verdict::{TextFault, TextReason};

/// How many digits an offset has at most.
const MOST_DIGITS: usize = 16;

/// A place in a text.
#[derive(Clone, Copy)]
struct Spot {
    line: u64,
    column: u64,
}

impl Spot {
    /// Returns the fault at this place.
    fn fault(self, reason: TextReason) -> TextFault {
        TextFault {
            line: self.line,
            column: self.column,
            reason,
        }
    }
}

/// The part that the next byte of a text is in.
#[derive(Clone, Copy, PartialEq)]
enum Within {
    /// Digits, and the characters that may stand between them.
    Digits,
    /// A comment up to the end of the line.
    Line,
    /// A comment up to the next `/`.
    Slashes,
    /// An escape: `x` has to follow the backslash.
    Escape,
    /// The start of quotes: `'` has to follow `h`.
    Quotes,
    /// A byte order mark. The second byte has to follow.
    Mark,
    /// A byte order mark. The third byte has to follow.
    MarkEnd,
}

/// The content of the line so far.
#[derive(Clone, Copy, PartialEq)]
enum Line {
    /// White space alone.
    Empty,
    /// Digits that may be an offset.
    Front,
    /// Digits that may be an offset, and a colon after them.
    Colon,
    /// An offset, and no digits after it.
    Offset,
    /// An offset, and digits after it.
    Row,
    /// An offset, and digits and a space after it.
    RowSpace,
    /// Anything else.
    Other,
}

/// Returns the number of a hexadecimal digit.
fn digit_of(byte: u8) -> Option<u8> {
    match byte {
        b'0'..=b'9' => Some(byte - b'0'),
        b'a'..=b'f' => Some(byte - b'a' + 10),
        b'A'..=b'F' => Some(byte - b'A' + 10),
        _ => None,
    }
}

/// The state of a text before its next byte.
#[derive(Clone, Copy)]
pub(crate) struct Text {
    within: Within,
    line: Line,
    /// The first digit of a byte, if it was read.
    half: Option<u8>,
    /// The digits that may be an offset.
    held: [u8; MOST_DIGITS],
    /// How many these are.
    count: usize,
    /// How many digits the text ends with.
    run: u64,
    /// Where the comment began, if the text is in one.
    comment: Spot,
    /// Where the quotes began, if the text is in quotes.
    quotes: Option<Spot>,
    /// Where the last digit is.
    digit: Spot,
    /// Where the next character is.
    next: Spot,
    is_fresh: bool,
}

impl Text {
    /// Returns the state at the start of a text.
    pub(crate) fn new() -> Text {
        let first = Spot { line: 1, column: 1 };
        Text {
            within: Within::Digits,
            line: Line::Empty,
            half: None,
            held: [0; MOST_DIGITS],
            count: 0,
            run: 0,
            comment: first,
            quotes: None,
            digit: first,
            next: first,
            is_fresh: true,
        }
    }

    /// Returns whether the text may end here, and each of its digits was given.
    pub(crate) fn is_at_rest(&self) -> bool {
        self.half.is_none()
            && self.quotes.is_none()
            && matches!(self.within, Within::Digits | Within::Line)
            && !matches!(self.line, Line::Front | Line::Colon)
    }

    /// Takes the next byte of the text, and adds the bytes that are whole.
    ///
    /// # Errors
    ///
    /// The byte may not stand there.
    pub(crate) fn take(&mut self, byte: u8, bytes: &mut Ready) -> Result<(), TextFault> {
        let at = self.next;
        let is_fresh = self.is_fresh;
        self.is_fresh = false;
        let is_taken = if is_fresh && byte == 0xef {
            self.within = Within::Mark;
            true
        } else {
            self.step(byte, bytes)
        };
        if !is_taken {
            return Err(at.fault(TextReason::NoDigit));
        }
        self.move_on(byte);
        Ok(())
    }

    /// Ends the text, and adds the last byte if it is whole.
    ///
    /// # Errors
    ///
    /// The text may not end there.
    pub(crate) fn end(&mut self, bytes: &mut Ready) -> Result<(), TextFault> {
        if self.line == Line::Colon {
            self.count = 0;
        }
        self.release(bytes);
        if self.within == Within::Slashes {
            return Err(self.comment.fault(TextReason::OpenComment));
        }
        if self.half.is_some() {
            return Err(self.digit.fault(TextReason::HalfByte));
        }
        if let Some(quotes) = self.quotes {
            return Err(quotes.fault(TextReason::OpenQuotes));
        }
        match self.within {
            Within::Digits | Within::Line | Within::Slashes => Ok(()),
            _ => Err(self.next.fault(TextReason::NoDigit)),
        }
    }

    /// Counts a byte that was taken. A character has one byte that does not continue a character.
    fn move_on(&mut self, byte: u8) {
        if byte == b'\n' {
            self.next.line = self.next.line.saturating_add(1);
            self.next.column = 1;
            self.line = Line::Empty;
        } else if byte & 0xc0 != 0x80 && self.within != Within::Mark {
            self.next.column = self.next.column.saturating_add(1);
        }
    }

    /// Takes the next byte, and returns whether it may stand there.
    fn step(&mut self, byte: u8, bytes: &mut Ready) -> bool {
        let then = match (self.within, byte) {
            (Within::Digits, _) => return self.step_digits(byte, bytes),
            (Within::Line, b'\n') | (Within::Slashes, b'/') => Within::Digits,
            (Within::Line | Within::Slashes, _) => return true,
            (Within::Escape, b'x') => Within::Digits,
            (Within::Quotes, b'\'') => {
                self.quotes = Some(self.next);
                Within::Digits
            }
            (Within::Mark, 0xbb) => Within::MarkEnd,
            (Within::MarkEnd, 0xbf) => Within::Digits,
            _ => return false,
        };
        self.within = then;
        true
    }

    /// Takes a digit. Those that a line begins with are held, since they may be an offset.
    fn take_digit(&mut self, digit: u8, bytes: &mut Ready) {
        self.run = self.run.saturating_add(1);
        self.digit = self.next;
        match self.line {
            Line::Empty | Line::Front => {
                self.line = Line::Front;
                if let Some(place) = self.held.get_mut(self.count) {
                    *place = digit;
                    self.count = self.count.saturating_add(1);
                    return;
                }
                self.release(bytes);
            }
            Line::Colon => self.release(bytes),
            Line::Offset | Line::RowSpace => self.line = Line::Row,
            Line::Row | Line::Other => {}
        }
        self.pair(digit, bytes);
    }

    /// Takes the digits that were held as digits of bytes.
    fn release(&mut self, bytes: &mut Ready) {
        let held = self.held;
        for digit in held.iter().take(self.count) {
            self.pair(*digit, bytes);
        }
        self.count = 0;
        if matches!(self.line, Line::Front | Line::Colon) {
            self.line = Line::Other;
        }
    }

    /// Takes a digit of a byte, and adds the byte if it is whole.
    fn pair(&mut self, digit: u8, bytes: &mut Ready) {
        match self.half {
            None => self.half = Some(digit),
            Some(half) => {
                self.half = None;
                bytes.add((half % 16) * 16 + digit % 16);
            }
        }
    }

    /// Takes the next byte among digits, and returns whether it may stand there.
    fn step_digits(&mut self, byte: u8, bytes: &mut Ready) -> bool {
        if let Some(digit) = digit_of(byte) {
            self.take_digit(digit, bytes);
            return true;
        }
        let run = self.run;
        self.run = 0;
        match (self.line, byte) {
            (Line::Front, b':') => {
                self.line = Line::Colon;
                return true;
            }
            (Line::Colon, b' ' | b'\t' | b'\r' | b'\n') => {
                self.line = Line::Offset;
                self.count = 0;
                return true;
            }
            _ => {}
        }
        self.release(bytes);
        let is_prefix = run == 1 && self.half == Some(0) && matches!(byte, b'x' | b'X');
        if is_prefix {
            self.half = None;
        }
        is_prefix || self.step_between(byte)
    }

    /// Takes the next byte between digits, and returns whether it may stand there.
    fn step_between(&mut self, byte: u8) -> bool {
        match byte {
            b' ' => match self.line {
                Line::Row => self.line = Line::RowSpace,
                Line::RowSpace => self.within = Within::Line,
                _ => {}
            },
            b'\t' | b'\r' | b'\n' | 0x0b | 0x0c | b',' | b':' => {}
            b'#' => self.within = Within::Line,
            b'/' => {
                self.comment = self.next;
                self.within = Within::Slashes;
            }
            _ => return self.half.is_none() && self.step_mark(byte),
        }
        true
    }

    /// Takes the next byte between bytes, and returns whether it may stand there.
    fn step_mark(&mut self, byte: u8) -> bool {
        match (byte, self.quotes) {
            (b'\\', _) => self.within = Within::Escape,
            (b'h', None) => self.within = Within::Quotes,
            (b'\'', Some(_)) => self.quotes = None,
            _ => return false,
        }
        self.line = Line::Other;
        true
    }
}

/// How many bytes are kept at most until a read asks for them.
pub(crate) const MOST: usize = 4160;

/// Bytes that a text has spelled, and that no read has given.
#[derive(Drop)]
pub(crate) struct Ready {
    bytes: [u8; MOST],
    start: usize,
    end: usize,
}

impl Ready {
    /// Makes a place without bytes.
    pub(crate) fn new() -> Ready {
        Ready {
            bytes: [0; MOST],
            start: 0,
            end: 0,
        }
    }

    /// Returns whether there are no bytes.
    pub(crate) fn is_empty(&self) -> bool {
        self.start >= self.end
    }

    /// Returns how many bytes more there may be.
    pub(crate) fn room(&self) -> usize {
        MOST.saturating_sub(self.end)
    }

    /// Removes all bytes.
    pub(crate) fn clear(&mut self) {
        self.start = 0;
        self.end = 0;
    }

    /// Adds a byte. A byte without room is dropped, so the caller sees to it that there is room.
    fn add(&mut self, byte: u8) {
        if let Some(place) = self.bytes.get_mut(self.end) {
            *place = byte;
            self.end = self.end.saturating_add(1);
        }
    }

    /// Moves bytes to the start of `buf`, and returns how many: as many as there are, and as `buf` has room for.
    pub(crate) fn give(&mut self, buf: &mut [u8]) -> usize
        ensures { result ≤ length buf.old }
    {
        let room = buf.len();
        for count in 0..room {
            let Some(byte) = self.next_byte() else {
                return count;
            };
            if let Some(place) = buf.get_mut(count) {
                *place = byte;
            }
        }
        room
    }

    /// Takes the first byte, if there is one.
    fn next_byte(&mut self) -> Option<u8> {
        if self.is_empty() {
            self.clear();
            return None;
        }
        let byte = self.bytes.get(self.start).copied();
        self.start = self.start.saturating_add(1);
        byte
    }
}
