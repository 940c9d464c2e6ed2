//! Items that are skipped.

ghost use Rattle.std.specs.Prelude.{◌≤◌};
ghost use Rattle.ciborium_ll_grammar.specs.declared.limits.TheConstants.{MOST_LEVELS};

use crate::copy::BUFFER_SIZE;
use cbor_skip::{SkipError, skip_item};
use ciborium_ll_decoder::dec::{Decoder, Error};
use ciborium_ll_io::io::{EndOfFile, SliceReader};
use std::alloc::AllocError;
use tool_requests::answer::{Last, last_line};
use tool_requests::request::Numbered;

/// Answers `skip`: the offset at which the first item ends, or the fault in it.
pub fn item(asked: &Numbered, sink: &mut String) -> Result<(), AllocError>
    requires { asked.now.number ≤ MOST_LEVELS }
{
    let mut buffer = [0; BUFFER_SIZE];
    let mut decoder = Decoder::from(SliceReader::new(asked.bytes.as_slice()));
    let outcome = skip_item(&mut decoder, asked.number, &mut buffer);
    last_line(describe_skip(outcome, decoder.offset()), sink)
}

/// Returns the last line of an answer for the outcome of a skip that ended at this offset.
fn describe_skip(outcome: Result<(), SkipError<EndOfFile>>, offset: usize) -> Last {
    match outcome {
        Ok(()) => Last::Item(offset),
        Err(SkipError::Break(place)) => Last::Break(place),
        Err(SkipError::Deep(place)) => Last::Deep(place),
        Err(SkipError::Read(Error::Syntax(place))) => Last::Syntax(place),
        Err(SkipError::Read(Error::Io(_))) => Last::Short(offset),
        Err(SkipError::Read(Error::TooLong | Error::Waiting)) => Last::Room,
    }
}
