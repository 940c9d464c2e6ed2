//! Readers and writers, and the facts that they tell: over slices, over those of std, and into memory that grows.

pub use ciborium_ll_buffers::{BufferedReader, BufferedWriter, FaultKept, KeepingReader};
pub use ciborium_ll_io::io::{
    AT_HAND, Discard, EndOfFile, Failures, OutOfSpace, Read, SliceReader, SliceWriter, Write,
};
pub use ciborium_ll_streams::{
    OutOfMemory, ReadFault, StdReader, StdWriter, VecWriter, WriteFault,
};
