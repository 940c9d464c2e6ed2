use crate::checks::holds;
use ciborium_ll::io::{EndOfFile, FaultKept, OutOfSpace, ReadFault, WriteFault};
use ciborium_ll::{Error, RecodeError};
use std::alloc::Global;
use std::error;

// Compares the text of an error, which `?` of a caller can pass on as an error of std.
fn says<E: error::Error>(alloc: Global, error: &E, want: &str) -> bool {
    match error.to_string(alloc) {
        Ok(text) => text.as_str() == want,
        Err(_) => false,
    }
}

// The texts of a decoder's errors over a slice: what has ended, and the place of bytes that may not stand there.
static DECODER_ERRORS: [(Error<EndOfFile>, &str); 4] = [
    (
        Error::Io(EndOfFile),
        "the reader failed: the bytes have ended",
    ),
    (Error::Syntax(7), "no CBOR that may stand at offset 7"),
    (Error::TooLong, "the offset can't take the next read"),
    (Error::Waiting, "a header waits before the bytes"),
];

// The texts of a copy's errors between slices.
static COPY_ERRORS: [(RecodeError<EndOfFile, OutOfSpace>, &str); 2] = [
    (
        RecodeError::Read(Error::Syntax(12)),
        "no CBOR that may stand at offset 12",
    ),
    (
        RecodeError::Write(OutOfSpace),
        "the writer failed: the space is full",
    ),
];

#[test]
fn errors_of_decoders_and_copies(rt: HostRuntime) {
    for (error, want) in &DECODER_ERRORS {
        holds(&rt, says(rt.alloc(), error, want), want);
    }
    for (error, want) in &COPY_ERRORS {
        holds(&rt, says(rt.alloc(), error, want), want);
    }
}

#[test]
fn errors_of_readers_and_writers(rt: HostRuntime) {
    let alloc = rt.alloc();
    let is_said = says(alloc, &EndOfFile, "the bytes have ended")
        && says(alloc, &OutOfSpace, "the space is full");
    holds(&rt, is_said, "EndOfFile and OutOfSpace");
    let is_said = says(alloc, &FaultKept, "a call failed, and its fault is kept")
        && says(alloc, &ReadFault::End, "the reader has ended")
        && says(alloc, &WriteFault::Zero, "the writer takes no more bytes");
    holds(
        &rt,
        is_said,
        "FaultKept, ReadFault::End and WriteFault::Zero",
    );
}
