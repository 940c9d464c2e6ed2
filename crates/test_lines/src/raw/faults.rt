// The faults of copies, as the program prints them.

use crate::answers::{holds, is_printed_as};
use ciborium_ll::io::{ReadFault, WriteFault};
use ciborium_ll::{Error, RecodeError};
use std::alloc::Global;
use tool_lines::fault::fault_of_raw;

fn is_read_printed_as(alloc: Global, error: Error<ReadFault>, want: &str) -> bool {
    is_printed_as(alloc, &fault_of_raw(&RecodeError::Read(error)), want)
}

fn is_write_printed_as(alloc: Global, fault: WriteFault, want: &str) -> bool {
    is_printed_as(alloc, &fault_of_raw(&RecodeError::Write(fault)), want)
}

#[test]
fn faults_of_copies_as_printed(rt: HostRuntime) {
    let alloc = rt.alloc();
    let is_right = is_read_printed_as(alloc, Error::Syntax(3), "syntax 3")
        && is_read_printed_as(alloc, Error::TooLong, "too long")
        && is_read_printed_as(alloc, Error::Io(ReadFault::End), "read")
        && is_read_printed_as(alloc, Error::Waiting, "read");
    holds(&rt, is_right, "faults of a read");
    let is_right = is_write_printed_as(alloc, WriteFault::Zero, "write");
    holds(&rt, is_right, "a fault of a write");
}
