use crate::calls::{pushes, reads, writes};
use crate::checks::{holds, holds_at, holds_with};
use ciborium_ll::io::{ReadFault, StdReader, StdWriter, Write, WriteFault};
use ciborium_ll::{Decoder, Encoder, Header};
use std::alloc::Global;
use std::io;
use std::test::Fail;
use test_support::streams::{PartReader, PartWriter};

// A reader or writer that fails at each call, with an error of this kind.
#[derive(Drop)]
struct Failing {
    kind: io::ErrorKind,
    calls: usize,
}

impl io::Read for Failing {
    fn read(&mut self, _buf: &mut [u8]) -> io::Result<usize> {
        self.calls = self.calls.saturating_add(1);
        Err(io::Error::from(self.kind))
    }
}

impl io::Write for Failing {
    fn write(&mut self, _buf: &[u8]) -> io::Result<usize> {
        self.calls = self.calls.saturating_add(1);
        Err(io::Error::from(self.kind))
    }

    fn flush(&mut self) -> io::Result<()> {
        self.calls = self.calls.saturating_add(1);
        Err(io::Error::from(self.kind))
    }
}

// How a call failed, if it did: with an error of std, or since no byte moved.
#[derive(Clone, Copy, PartialEq, Eq)]
pub enum Failure {
    Never,
    Failed(io::ErrorKind),
    Stopped,
}

// Returns the failure in the fault of a reader.
pub fn read_failure(fault: Option<ReadFault>) -> Failure {
    match fault {
        None => Failure::Never,
        Some(ReadFault::Failed(error)) => Failure::Failed(error.kind()),
        Some(ReadFault::End) => Failure::Stopped,
    }
}

// Returns the failure in the fault of a writer.
pub fn write_failure(fault: Option<WriteFault>) -> Failure {
    match fault {
        None => Failure::Never,
        Some(WriteFault::Failed(error)) => Failure::Failed(error.kind()),
        Some(WriteFault::Zero) => Failure::Stopped,
    }
}

// Reads bytes from a reader of std.
fn reads_std<T: io::Read>(reader: &mut StdReader<T>, data: &mut [u8]) -> Failure {
    read_failure(reads(reader, data).err())
}

// Writes bytes to a writer of std.
fn writes_std<T: io::Write>(writer: &mut StdWriter<T>, data: &[u8]) -> Failure {
    write_failure(writer.write_all(data).err())
}

// Passes on what was written to a writer of std.
fn flushes_std<T: io::Write>(writer: &mut StdWriter<T>) -> Failure {
    write_failure(writer.flush().err())
}

// No contract says that a read over std succeeds. This test fails for an adapter that always answers `End`.
#[test]
fn a_reader_in_memory(rt: HostRuntime) {
    let mut decoder = Decoder::from(StdReader::new([0x18, 24, 1, 2].as_slice()));
    let is_given = matches!(decoder.pull(), Ok(Header::Positive(24)));
    holds(&rt, is_given && decoder.offset() == 2, "the header");
    let mut one = [0; 1];
    let is_read = reads(&mut decoder, &mut one).is_ok();
    holds(&rt, is_read && one == [1], "the byte behind it");
    let left = decoder.into_inner().into_inner();
    holds(&rt, left == [2].as_slice(), "what is left");
}

// The sizes of reads, the bytes that each gives if it succeeds, and how it fails.
type Reads = (usize, &'static [u8], Failure);

// Two bytes and none are read, a read is interrupted, and then one byte is left.
static READS: [Reads; 4] = [
    (2, &[1, 2], Failure::Never),
    (0, &[], Failure::Never),
    (2, &[], Failure::Failed(io::ErrorKind::Interrupted)),
    (2, &[], Failure::Stopped),
];

#[test]
fn one_byte_a_read(rt: HostRuntime) {
    let inner = PartReader::new(&[1, 2, 3, 4], 1);
    let inner = inner.failing_at(4, io::ErrorKind::Interrupted);
    let mut reader = StdReader::new(inner);
    for (size, front, failure) in &READS {
        let mut space = [0; 2];
        let data = &mut space[..2.min(*size)];
        let is_right = reads_std(&mut reader, data) == *failure && data.starts_with(front);
        holds_with(&rt, is_right, &[*size, front.len()]);
    }
    let inner = reader.into_inner();
    let is_right = inner.calls == 6 && inner.left.is_empty();
    holds(&rt, is_right, "the calls within");
}

// Returns whether a read of a failing reader ends with the first call, and passes its error on.
fn read_fails(kind: io::ErrorKind) -> bool {
    let mut reader = StdReader::new(Failing { kind, calls: 0 });
    let failure = reads_std(&mut reader, &mut [0; 2]);
    failure == Failure::Failed(kind) && reader.into_inner().calls == 1
}

// Returns whether a write and a flush of a failing writer end with the first call, and pass its error on.
fn write_fails(kind: io::ErrorKind) -> bool {
    let mut writer = StdWriter::new(Failing { kind, calls: 0 });
    let failed = Failure::Failed(kind);
    let is_written = writes_std(&mut writer, &[1, 2]) == failed;
    let is_flushed = flushes_std(&mut writer) == failed;
    is_written && is_flushed && writer.into_inner().calls == 2
}

static KINDS: [io::ErrorKind; 4] = [
    io::ErrorKind::Interrupted,
    io::ErrorKind::UnexpectedEof,
    io::ErrorKind::WriteZero,
    io::ErrorKind::Other,
];

#[test]
fn an_error_of_std_is_handed_on(rt: HostRuntime) {
    for kind in &KINDS {
        holds(&rt, read_fails(*kind), "a read");
        holds(&rt, write_fails(*kind), "a write and a flush");
    }
}

// Reads bytes in one call.
fn reads_all(bytes: &[u8], data: &mut [u8]) -> bool {
    reads_std(&mut StdReader::new(bytes), data) == Failure::Never
}

// Writes bytes in one call, and compares what was taken.
fn writes_all(alloc: Global, bytes: &[u8]) -> bool {
    let mut writer = StdWriter::new(Vec::new(alloc));
    let is_written = writes_std(&mut writer, bytes) == Failure::Never;
    let taken = writer.into_inner();
    is_written && taken.as_slice() == bytes
}

#[test]
fn more_than_a_million_bytes(rt: HostRuntime) -> Result<(), Fail> {
    let bytes = vec![in rt.alloc(); 7u8; 1_100_000]?;
    let mut data = vec![in rt.alloc(); 0u8; 1_100_000]?;
    let is_read = reads_all(bytes.as_slice(), data.as_mut_slice());
    let is_right = is_read && data.as_slice() == bytes.as_slice();
    holds(&rt, is_right, "a read");
    holds(&rt, writes_all(rt.alloc(), bytes.as_slice()), "a write");
    Ok(())
}

// No contract says that a write over std succeeds. This test fails for an adapter that always answers `Zero`.
#[test]
fn a_writer_in_memory(rt: HostRuntime) {
    let mut encoder = Encoder::from(StdWriter::new(Vec::new(rt.alloc())));
    let is_pushed = pushes(&mut encoder, Header::Bytes(Some(2)));
    let is_written = is_pushed && writes(&mut encoder, &[1, 2]);
    holds(&rt, is_written, "the writes");
    let taken = encoder.into_inner().into_inner();
    let is_right = taken.as_slice() == [0x42, 1, 2].as_slice();
    holds(&rt, is_right, "what was taken");
}

// Compares the bytes that a writer took, and in how many calls and flushes.
fn came_to(writer: &PartWriter, taken: &[u8], calls: (usize, usize)) -> bool {
    writer.taken.as_slice() == taken && (writer.calls, writer.flushes) == calls
}

// Two bytes and none are written, a write is interrupted, and then there is room for one byte.
static WRITES: [(&[u8], Failure); 4] = [
    (&[1, 2], Failure::Never),
    (&[], Failure::Never),
    (&[3, 4], Failure::Failed(io::ErrorKind::Interrupted)),
    (&[5, 6], Failure::Stopped),
];

#[test]
fn one_byte_a_write(rt: HostRuntime) {
    let inner = PartWriter::new(rt.alloc(), 1).within(4);
    let inner = inner.failing_at(4, Some(io::ErrorKind::Interrupted));
    let mut writer = StdWriter::new(inner);
    for (bytes, failure) in &WRITES {
        holds_at(&rt, writes_std(&mut writer, bytes) == *failure, bytes);
    }
    let is_right = came_to(&writer.into_inner(), &[1, 2, 3, 5], (6, 0));
    holds(&rt, is_right, "what was taken");
}

#[test]
fn a_flush_is_passed_on(rt: HostRuntime) {
    let mut writer = StdWriter::new(PartWriter::new(rt.alloc(), 1));
    let is_flushed = flushes_std(&mut writer) == Failure::Never;
    let inner = writer.into_inner();
    let is_right = is_flushed && came_to(&inner, &[], (0, 1));
    holds(&rt, is_right, "a flush");

    let mut writer = StdWriter::new(inner.failing_to_flush());
    let has_failed = flushes_std(&mut writer) == Failure::Failed(io::ErrorKind::Other);
    let is_right = has_failed && writer.into_inner().flushes == 2;
    holds(&rt, is_right, "a flush that fails");
}
