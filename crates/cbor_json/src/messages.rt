//! The texts of the errors for a person.

ghost use Rattle.cbor_json.specs.JsonTexts.{json_error_text};

use crate::JsonError;
use std::{error, fmt};

impl<E: fmt::Display, F: fmt::Display> fmt::Display for JsonError<E, F> {
    ghost output = { json_error_text E.output F.output };

    fn fmt<W: fmt::Write>(&self, f: &mut fmt::Formatter<W>) -> fmt::Result {
        match self {
            JsonError::Read(error) => write!(f, "{error}"),
            JsonError::NoJson(place) => write!(f, "no JSON for the item at offset {place}"),
            JsonError::Write(fault) => write!(f, "{fault}"),
        }
    }
}

impl<E: fmt::Debug + fmt::Display + Drop, F: fmt::Debug + fmt::Display + Drop> error::Error
    for JsonError<E, F> {}
