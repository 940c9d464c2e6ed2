//! The messages that a person reads for the errors of a skip.

ghost use Rattle.cbor_skip.specs.SkipTexts.{skip_error_text};

use crate::SkipError;
use std::{error, fmt};

impl<E: fmt::Display> fmt::Display for SkipError<E> {
    ghost output = { skip_error_text E.output };

    fn fmt<W: fmt::Write>(&self, f: &mut fmt::Formatter<W>) -> fmt::Result {
        match self {
            SkipError::Read(error) => write!(f, "{error}"),
            SkipError::Break(place) => write!(f, "a break that ends nothing at offset {place}"),
            SkipError::Deep(place) => write!(f, "too deep a nesting at offset {place}"),
        }
    }
}

impl<E: fmt::Debug + fmt::Display + Drop> error::Error for SkipError<E> {}
