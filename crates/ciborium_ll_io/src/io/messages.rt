//! The messages of the errors of readers and writers.

use super::{EndOfFile, OutOfSpace};
use std::error::Error;
use std::fmt;

impl fmt::Display for EndOfFile {
    ghost use Rattle.std.specs.Prelude.{Some, codes};

    ghost output = { λ _. Some (codes "the bytes have ended") };

    fn fmt<W: fmt::Write>(&self, f: &mut fmt::Formatter<W>) -> fmt::Result {
        f.write_str("the bytes have ended")
    }
}

impl Error for EndOfFile {}

impl fmt::Display for OutOfSpace {
    ghost use Rattle.std.specs.Prelude.{Some, codes};

    ghost output = { λ _. Some (codes "the space is full") };

    fn fmt<W: fmt::Write>(&self, f: &mut fmt::Formatter<W>) -> fmt::Result {
        f.write_str("the space is full")
    }
}

impl Error for OutOfSpace {}
