//! The messages of faults.

ghost use Rattle.std.specs.Prelude.{Some};
ghost use Rattle.cbor_view.specs.FaultTexts.{fault_text};

use crate::Fault;
use std::{error, fmt};

impl fmt::Display for Fault {
    ghost output = { λ fault. Some (fault_text fault) };

    fn fmt<W: fmt::Write>(&self, f: &mut fmt::Formatter<W>) -> fmt::Result {
        match self {
            Fault::Short => f.write_str("the bytes end too early"),
            Fault::Syntax(place) => write!(f, "no CBOR that may stand at offset {place}"),
            Fault::Break(place) => write!(f, "a break that ends nothing at offset {place}"),
            Fault::Deep(place) => write!(f, "too deep a nesting at offset {place}"),
        }
    }
}

impl error::Error for Fault {}
