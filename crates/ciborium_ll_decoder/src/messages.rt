//! The messages that a person reads for the errors of a decoder and of a copy.

ghost use Rattle.ciborium_ll_decoder.specs.ErrorTexts.{error_text, recode_error_text};

use crate::copy::RecodeError;
use crate::dec::Error;
use std::{error, fmt};

impl<T: fmt::Display> fmt::Display for Error<T> {
    ghost output = { error_text T.output };

    fn fmt<W: fmt::Write>(&self, f: &mut fmt::Formatter<W>) -> fmt::Result {
        match self {
            Error::Io(fault) => write!(f, "the reader failed: {fault}"),
            Error::Syntax(place) => write!(f, "no CBOR that may stand at offset {place}"),
            Error::TooLong => f.write_str("the offset can't take the next read"),
            Error::Waiting => f.write_str("a header waits before the bytes"),
        }
    }
}

impl<T: fmt::Debug + fmt::Display + Drop> error::Error for Error<T> {}

impl<E: fmt::Display, F: fmt::Display> fmt::Display for RecodeError<E, F> {
    ghost output = { recode_error_text E.output F.output };

    fn fmt<W: fmt::Write>(&self, f: &mut fmt::Formatter<W>) -> fmt::Result {
        match self {
            RecodeError::Read(error) => write!(f, "{error}"),
            RecodeError::Write(fault) => write!(f, "the writer failed: {fault}"),
        }
    }
}

impl<E: fmt::Debug + fmt::Display + Drop, F: fmt::Debug + fmt::Display + Drop> error::Error
    for RecodeError<E, F> {}
