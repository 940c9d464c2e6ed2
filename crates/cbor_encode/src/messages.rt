//! The messages of the errors.

ghost use Rattle.std.specs.Prelude.{Some};
ghost use Rattle.cbor_encode.specs.NotationTexts.{error_text, expected_text};

use crate::{Expected, NotationError};
use std::{error, fmt};

impl fmt::Display for Expected {
    ghost output = { λ expected. Some (expected_text expected) };

    fn fmt<W: fmt::Write>(&self, f: &mut fmt::Formatter<W>) -> fmt::Result {
        match self {
            Expected::Item => write!(f, "an item"),
            Expected::End => write!(f, "the end of the text"),
            Expected::Space => write!(f, "a comma or white space"),
            Expected::Comma => write!(f, "a comma or a closing bracket"),
            Expected::Colon => write!(f, "a colon and a value"),
            Expected::Parenthesis => write!(f, "a closing parenthesis"),
            Expected::Digit => write!(f, "a digit"),
            Expected::HexDigits => write!(f, "two hexadecimal digits or a quote"),
            Expected::Base64 => write!(f, "digits of base 64 and a quote"),
            Expected::Escape => write!(f, "a character or an escape of JSON"),
            Expected::Quote => write!(f, "a closing quote"),
            Expected::Comment => write!(f, "a slash that closes this comment"),
            Expected::Chunk => write!(f, "a string of the same kind"),
            Expected::Integer => write!(f, "an integer from -2^64 to 2^64 - 1"),
            Expected::Float => write!(f, "a finite float"),
            Expected::Bits => write!(f, "4, 8 or 16 hexadecimal digits and a quote"),
            Expected::Simple => write!(f, "a simple value from 0 to 23 or from 32 to 255"),
            Expected::Mark => write!(f, "a mark whose width is enough"),
            Expected::NoMark => write!(f, "no mark"),
            Expected::Text => write!(f, "UTF-8"),
            Expected::Level => write!(f, "fewer levels"),
            Expected::Memory => write!(f, "more memory"),
        }
    }
}

impl fmt::Display for NotationError {
    ghost output = { λ error. Some (error_text error) };

    fn fmt<W: fmt::Write>(&self, f: &mut fmt::Formatter<W>) -> fmt::Result {
        write!(
            f,
            "line {}, column {}: expected {}",
            self.line, self.column, self.expected
        )
    }
}

impl error::Error for NotationError {}
