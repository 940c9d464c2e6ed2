// The facts that tests look at, as plain values: the answer of a call, and whether it is the expected answer.

use ciborium_ll::io::SliceReader;
use ciborium_ll::{Decoder, Error, Header, RecodeError};
use std::process::Abort;

// Requires that a fact holds. The message says which fact, since a call does not know the line of its caller.
pub fn holds(rt: &impl Abort, is_right: bool, what: &str) {
    assert!(rt; is_right, "{what}");
}

// Requires that a fact of a row holds. The bytes name the row.
pub fn holds_at(rt: &impl Abort, is_right: bool, bytes: &[u8]) {
    assert!(rt; is_right, "at {bytes:?}");
}

// Requires that a fact of a row holds. The numbers name the row.
pub fn holds_with(rt: &impl Abort, is_right: bool, numbers: &[usize]) {
    assert!(rt; is_right, "with {numbers:?}");
}

// Counts one more for this number, if it has a place.
pub fn counts_one(counts: &mut [u8; 10], number: usize) {
    if let Some(count) = counts.get_mut(number) {
        *count = count.saturating_add(1);
    }
}

// Why a call between slices stopped, if it did.
#[derive(Clone, Copy, PartialEq, Eq)]
pub enum Stop {
    Never,
    Syntax(usize),
    TooLong,
    Waiting,
    Short,
    Full,
}

// Returns the plain value of a decoder's error.
pub fn read_stop<E>(error: &Error<E>) -> Stop {
    match error {
        Error::Syntax(place) => Stop::Syntax(*place),
        Error::TooLong => Stop::TooLong,
        Error::Waiting => Stop::Waiting,
        Error::Io(_) => Stop::Short,
    }
}

// How a read of a string ended.
pub fn read_end<E>(outcome: &Result<(), Error<E>>) -> Stop {
    match outcome {
        Ok(()) => Stop::Never,
        Err(error) => read_stop(error),
    }
}

// Returns the plain value of a copy's error.
pub fn copy_stop<E, F>(error: &RecodeError<E, F>) -> Stop {
    match error {
        RecodeError::Read(error) => read_stop(error),
        RecodeError::Write(_) => Stop::Full,
    }
}

// Returns the plain value of a copy's outcome.
pub fn stop_of<E, F>(outcome: &Result<(), RecodeError<E, F>>) -> Stop {
    match outcome {
        Ok(()) => Stop::Never,
        Err(error) => copy_stop(error),
    }
}

// Returns the next header, or why there is none. It ensures nothing: after several calls with large contracts the proof
// of a caller takes long.
pub fn next_header(decoder: &mut Decoder<SliceReader>) -> Result<Header, Stop> {
    match decoder.pull() {
        Ok(header) => Ok(header),
        Err(error) => Err(read_stop(&error)),
    }
}
