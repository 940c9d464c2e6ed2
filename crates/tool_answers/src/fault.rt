//! The messages of the program when it fails.

ghost use Rattle.std.specs.Prelude.{◌≡◌};
ghost use Rattle.tool_answers.specs.Fault.{fault_of, fault_of_copy};

use ciborium_ll_decoder::copy::RecodeError;
use ciborium_ll_decoder::dec::Error;
use ciborium_ll_streams::{ReadFault, WriteFault};
use std::alloc::AllocError;
use std::{error, fmt, io};
use tool_requests::input::LineError;

/// Why the program failed, printed as one line.
#[derive(Debug, Drop)]
pub enum Fault {
    /// The bytes at this offset are no CBOR that may stand there.
    Syntax(usize),
    /// The offset would pass `usize::MAX`.
    TooLong,
    /// Standard input or the arguments cannot be read, or standard input ends too early.
    Read,
    /// Standard output cannot be written.
    Write,
    /// There is no memory left.
    Memory,
}

impl fmt::Display for Fault {
    ghost use Rattle.std.specs.Prelude.{Some};
    ghost use Rattle.tool_answers.specs.Fault.{fault_text};

    ghost output = { λ fault. Some (fault_text fault) };

    fn fmt<W: fmt::Write>(&self, f: &mut fmt::Formatter<W>) -> fmt::Result {
        match self {
            Fault::Syntax(place) => write!(f, "syntax {place}"),
            Fault::TooLong => f.write_str("too long"),
            Fault::Read => f.write_str("read"),
            Fault::Write => f.write_str("write"),
            Fault::Memory => f.write_str("memory"),
        }
    }
}

impl error::Error for Fault {}

/// Why a run ended early.
#[derive(Debug, Drop)]
pub enum ToolError {
    /// There was no memory for a line or for its answer.
    Memory,
    /// The reader failed.
    Read(io::Error),
    /// The writer failed.
    Write(io::Error),
}

impl From<AllocError> for ToolError {
    ghost use Rattle.std.specs.Prelude.{◌≡◌};
    ghost use Rattle.tool_answers.specs.declared.fault.ToolError.TheVariants.{Memory};

    ghost from_gives = { λ _ error. error ≡ Memory };

    fn from(_refused: AllocError) -> ToolError {
        ToolError::Memory
    }
}

impl From<LineError> for ToolError {
    fn from(error: LineError) -> ToolError {
        match error {
            LineError::Memory => ToolError::Memory,
            LineError::Read(error) => ToolError::Read(error),
        }
    }
}

impl From<WriteFault> for ToolError {
    ghost use Rattle.tool_answers.specs.Fault.{IsWriteError};

    ghost from_gives = { λ fault error. IsWriteError fault error };

    fn from(fault: WriteFault) -> ToolError {
        match fault {
            WriteFault::Zero => ToolError::Write(io::Error::from(io::ErrorKind::WriteZero)),
            WriteFault::Failed(error) => ToolError::Write(error),
        }
    }
}

impl fmt::Display for ToolError {
    ghost use Rattle.tool_answers.specs.Fault.{tool_error_text};

    ghost output = { tool_error_text };

    /// Writes the message. A reader or a writer that failed has the text of its own error.
    fn fmt<W: fmt::Write>(&self, f: &mut fmt::Formatter<W>) -> fmt::Result {
        match self {
            ToolError::Memory => f.write_str("there is no memory left"),
            ToolError::Read(error) | ToolError::Write(error) => write!(f, "{error}"),
        }
    }
}

impl error::Error for ToolError {}

/// Returns the fault that ended a run.
pub fn fault_of_run(error: &ToolError) -> Fault
    ensures { result ≡ fault_of error.now }
{
    match error {
        ToolError::Memory => Fault::Memory,
        ToolError::Read(_) => Fault::Read,
        ToolError::Write(_) => Fault::Write,
    }
}

/// Returns the fault that stopped a copy.
pub fn fault_of_raw(error: &RecodeError<ReadFault, WriteFault>) -> Fault
    ensures { result ≡ fault_of_copy error.now }
{
    match error {
        RecodeError::Read(Error::Io(_) | Error::Waiting) => Fault::Read,
        RecodeError::Read(Error::Syntax(place)) => Fault::Syntax(*place),
        RecodeError::Read(Error::TooLong) => Fault::TooLong,
        RecodeError::Write(_) => Fault::Write,
    }
}
