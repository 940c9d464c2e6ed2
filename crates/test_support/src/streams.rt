//! Readers and writers of std that move few bytes a call, and fail at one call.

use std::alloc::Global;
use std::io;

/// Reads from a slice.
#[derive(Drop)]
pub struct PartReader<'a> {
    /// The bytes that were not given yet.
    pub left: &'a [u8],
    /// How many calls came.
    pub calls: usize,
    most: usize,
    failing: Option<usize>,
    kind: io::ErrorKind,
}

impl<'a> PartReader<'a> {
    /// Makes a reader that gives at most `most` bytes a call.
    pub fn new(bytes: &'a [u8], most: usize) -> PartReader<'a> {
        PartReader {
            left: bytes,
            calls: 0,
            most,
            failing: None,
            kind: io::ErrorKind::Other,
        }
    }

    /// Returns the same reader, but the call of this number, from 1 on, fails with an error of this kind. Later calls
    /// succeed.
    pub fn failing_at(self, call: usize, kind: io::ErrorKind) -> PartReader<'a> {
        PartReader {
            failing: Some(call),
            kind,
            ..self
        }
    }
}

impl io::Read for PartReader<'_> {
    fn read(&mut self, buf: &mut [u8]) -> io::Result<usize> {
        self.calls = self.calls.saturating_add(1);
        if self.failing == Some(self.calls) {
            return Err(io::Error::from(self.kind));
        }
        let count = self.most.min(buf.len()).min(self.left.len());
        let (front, rest) = self.left.split_at(count);
        buf[..count].copy_from_slice(front);
        self.left = rest;
        Ok(count)
    }
}

/// Writes to a vector.
#[derive(Drop)]
pub struct PartWriter {
    /// The bytes that it took.
    pub taken: Vec<u8>,
    /// How many writes came.
    pub calls: usize,
    /// How many flushes came.
    pub flushes: usize,
    most: usize,
    room: usize,
    failing: Option<usize>,
    kind: Option<io::ErrorKind>,
    flush_fails: bool,
}

impl PartWriter {
    /// Makes a writer that takes at most `most` bytes a call.
    pub fn new(alloc: Global, most: usize) -> PartWriter {
        PartWriter {
            taken: Vec::new(alloc),
            calls: 0,
            flushes: 0,
            most,
            room: usize::MAX,
            failing: None,
            kind: None,
            flush_fails: false,
        }
    }

    /// Returns the same writer, but it takes at most `room` bytes in all.
    pub fn within(self, room: usize) -> PartWriter {
        PartWriter { room, ..self }
    }

    /// Returns the same writer, but the write of this number, from 1 on, fails with an error of this kind, or takes no
    /// byte. Later writes succeed.
    pub fn failing_at(self, call: usize, kind: Option<io::ErrorKind>) -> PartWriter {
        PartWriter {
            failing: Some(call),
            kind,
            ..self
        }
    }

    /// Returns the same writer, but each flush fails, with an error of the kind `Other`.
    pub fn failing_to_flush(self) -> PartWriter {
        PartWriter {
            flush_fails: true,
            ..self
        }
    }
}

impl io::Write for PartWriter {
    fn write(&mut self, buf: &[u8]) -> io::Result<usize> {
        self.calls = self.calls.saturating_add(1);
        if self.failing == Some(self.calls) {
            return match self.kind {
                Some(kind) => Err(io::Error::from(kind)),
                None => Ok(0),
            };
        }
        let free = self.room.saturating_sub(self.taken.len());
        let count = self.most.min(buf.len()).min(free);
        self.taken.extend_from_slice(&buf[..count])?;
        Ok(count)
    }

    fn flush(&mut self) -> io::Result<()> {
        self.flushes = self.flushes.saturating_add(1);
        if self.flush_fails {
            return Err(io::Error::from(io::ErrorKind::Other));
        }
        Ok(())
    }
}
