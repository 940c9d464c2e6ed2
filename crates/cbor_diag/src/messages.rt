//! The texts of the errors for a person.

ghost use Rattle.cbor_diag.specs.DiagTexts.{diag_error_text};

use crate::DiagError;
use std::{error, fmt};

impl<E: fmt::Display, F: fmt::Display> fmt::Display for DiagError<E, F> {
    ghost output = { diag_error_text E.output F.output };

    fn fmt<W: fmt::Write>(&self, f: &mut fmt::Formatter<W>) -> fmt::Result {
        match self {
            DiagError::Read(error) => write!(f, "{error}"),
            DiagError::Write(fault) => write!(f, "{fault}"),
        }
    }
}

impl<E: fmt::Debug + fmt::Display + Drop, F: fmt::Debug + fmt::Display + Drop> error::Error
    for DiagError<E, F> {}
