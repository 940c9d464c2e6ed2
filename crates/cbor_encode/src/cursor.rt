//! The text that is left.

ghost use Rattle.std.specs.Prelude.{◌≡◌, ◌<◌, ◌≤◌, ℕ, true, length, IfErr, IfSome, OnSome};
ghost use Rattle.cbor_encode.specs.Left.{IsWithin, left_of};

use crate::Expected;

/// The expected part of the notation, and how many bytes of the text are left from its place on.
#[derive(Clone, Copy, Drop)]
pub(crate) struct Stop {
    pub(crate) expected: Expected,
    pub(crate) left: usize,
}

/// The text that is left.
#[derive(Drop)]
pub(crate) struct Cursor<'a> {
    pub(crate) rest: &'a [u8],
}

impl<'a> Cursor<'a> {
    /// Returns how many bytes are left.
    pub(crate) fn left(&self) -> usize
        ensures { result ≡ left_of self.now }
    {
        self.rest.len()
    }

    /// Returns the fault that something else is expected here.
    pub(crate) fn fault(&self, expected: Expected) -> Stop
        ensures { result.left ≡ left_of self.now }
    {
        Stop {
            expected,
            left: self.rest.len(),
        }
    }

    /// Returns the next byte, and stays.
    pub(crate) fn peek(&self) -> Option<u8> {
        match self.rest.first() {
            Some(byte) => Some(*byte),
            None => None,
        }
    }

    /// Returns the next byte, and moves after it.
    pub(crate) fn next(&mut self) -> Option<u8>
        ensures within { left_of self.new ≤ left_of self.old }
        ensures shorter { OnSome result (left_of self.new < left_of self.old) }
    {
        let Some((first, rest)) = self.rest.split_first() else {
            return None;
        };
        self.rest = rest;
        Some(*first)
    }

    /// Moves after the next byte if it is this byte. Returns whether it is.
    pub(crate) fn take(&mut self, byte: u8) -> bool
        ensures within { left_of self.new ≤ left_of self.old }
        ensures shorter { result ≡ true → left_of self.new < left_of self.old }
    {
        let Some((first, rest)) = self.rest.split_first() else {
            return false;
        };
        if *first != byte {
            return false;
        }
        self.rest = rest;
        true
    }

    /// Returns whether the text goes on with this word.
    pub(crate) fn starts_with(&self, word: &[u8]) -> bool {
        self.rest.starts_with(word)
    }

    /// Moves after the word if the text goes on with it. Returns whether it does.
    pub(crate) fn take_word(&mut self, word: &[u8]) -> bool
        requires some { 0 < length word.now }
        ensures within { left_of self.new ≤ left_of self.old }
        ensures shorter { result ≡ true → left_of self.new < left_of self.old }
    {
        let Some(rest) = self.rest.strip_prefix(word) else {
            return false;
        };
        self.rest = rest;
        true
    }

    /// Moves after this byte, which is expected here.
    pub(crate) fn expect(&mut self, byte: u8, expected: Expected) -> Result<(), Stop>
        ensures within { left_of self.new ≤ left_of self.old }
        ensures place { IfErr result (IsWithin (left_of self.old)) }
    {
        if self.take(byte) {
            return Ok(());
        }
        Err(self.fault(expected))
    }

    /// Moves after the next byte that is this byte, or to the end. Returns whether there is one.
    fn skip_past(&mut self, byte: u8) -> bool
        ensures within { left_of self.new ≤ left_of self.old }
    {
        'bytes: while let Some(next) = self.next() {
            if next == byte {
                return true;
            }
        }
        false
    }

    /// Moves after white space and comments.
    pub(crate) fn skip_space(&mut self) -> Result<(), Stop>
        ensures within { left_of self.new ≤ left_of self.old }
        ensures place { IfErr result (IsWithin (left_of self.old)) }
    {
        'space: while let Some(byte) = self.peek() {
            let start = self.fault(Expected::Comment);
            match byte {
                b' ' | b'\t' | b'\r' | b'\n' | b'/' | b'#' => {}
                _ => return Ok(()),
            }
            if self.next().is_none() {
                return Ok(());
            }
            match byte {
                b'/' => {
                    if !self.skip_past(b'/') {
                        return Err(start);
                    }
                }
                b'#' => {
                    let _has_more = self.skip_past(b'\n');
                }
                _ => {}
            }
        }
        Ok(())
    }

    /// Moves after the white space and the comma that follow an item. The closing bracket may stand in place of the
    /// comma.
    pub(crate) fn end_item(&mut self, close: &[u8]) -> Result<(), Stop>
        ensures within { left_of self.new ≤ left_of self.old }
        ensures place { IfErr result (IsWithin (left_of self.old)) }
    {
        self.skip_space()?;
        if self.take(b',') {
            return self.skip_space();
        }
        if self.starts_with(close) {
            return Ok(());
        }
        Err(self.fault(Expected::Comma))
    }

    /// Moves after the next byte if it is a digit of this base. Returns the digit.
    pub(crate) fn digit(&mut self, base: u8) -> Option<u8>
        ensures within { left_of self.new ≤ left_of self.old }
        ensures shorter { OnSome result (left_of self.new < left_of self.old) }
        ensures digit { IfSome result (λ digit. digit < 16) }
    {
        let Some((first, rest)) = self.rest.split_first() else {
            return None;
        };
        let Some(digit) = digit_of(*first) else {
            return None;
        };
        if digit >= base {
            return None;
        }
        self.rest = rest;
        Some(digit)
    }
}

/// Returns the hexadecimal digit that this byte is.
fn digit_of(byte: u8) -> Option<u8>
    ensures { IfSome result (λ digit. digit < 16) }
{
    match byte {
        b'0'..=b'9' => Some(byte - b'0'),
        b'a'..=b'f' => Some(byte - b'a' + 10),
        b'A'..=b'F' => Some(byte - b'A' + 10),
        _ => None,
    }
}
