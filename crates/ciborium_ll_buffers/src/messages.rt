//! The message of the error of readers and a writer that keep a fault.

use crate::FaultKept;
use std::error::Error;
use std::fmt;

impl fmt::Display for FaultKept {
    ghost use Rattle.std.specs.Prelude.{Some, codes};

    ghost output = { λ _. Some (codes "a call failed, and its fault is kept") };

    fn fmt<W: fmt::Write>(&self, f: &mut fmt::Formatter<W>) -> fmt::Result {
        f.write_str("a call failed, and its fault is kept")
    }
}

impl Error for FaultKept {}
