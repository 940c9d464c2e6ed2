//! The messages of the errors of readers and writers over those of std.

use crate::{ReadFault, WriteFault};
use std::error::Error;
use std::fmt;

impl fmt::Display for ReadFault {
    ghost use Rattle.ciborium_ll_streams.specs.FaultTexts.{read_fault_text};

    ghost output = { read_fault_text };

    /// Writes the message. For `Failed`, it is the text of std's error.
    fn fmt<W: fmt::Write>(&self, f: &mut fmt::Formatter<W>) -> fmt::Result {
        match self {
            ReadFault::End => f.write_str("the reader has ended"),
            ReadFault::Failed(error) => write!(f, "{error}"),
        }
    }
}

impl Error for ReadFault {}

impl fmt::Display for WriteFault {
    ghost use Rattle.ciborium_ll_streams.specs.FaultTexts.{write_fault_text};

    ghost output = { write_fault_text };

    /// Writes the message. For `Failed`, it is the text of std's error.
    fn fmt<W: fmt::Write>(&self, f: &mut fmt::Formatter<W>) -> fmt::Result {
        match self {
            WriteFault::Zero => f.write_str("the writer takes no more bytes"),
            WriteFault::Failed(error) => write!(f, "{error}"),
        }
    }
}

impl Error for WriteFault {}
