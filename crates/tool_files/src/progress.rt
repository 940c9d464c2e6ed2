//! Says on a terminal how far the program has read a long input.

ghost use Rattle.std.specs.Prelude.{◌≡◌};

use std::io;

/// How many bytes are read before the line is written, and before it is written again: 32 MiB.
const STEP: u64 = 1 << 25;

/// How many bytes the line counts as one.
const MEGABYTE: u64 = 1_000_000;

/// A reader that says in a line how many bytes were read, and of how many, if that is known. Each line takes the place of
/// the line before.
#[derive(Drop)]
pub struct Watched<'p, R, P> {
    source: R,
    to: &'p P,
    is_on: bool,
    total: Option<u64>,
    is_said: bool,
    bytes: u64,
    next: u64,
}

impl<'p, R: io::Read, P: io::Eprint> Watched<'p, R, P> {
    /// Makes a reader that has read nothing of `total` bytes, if their number is known. If `is_on` is false, it writes no
    /// line.
    pub fn new(source: R, to: &'p P, is_on: bool, total: Option<u64>) -> Watched<'p, R, P> {
        Watched {
            source,
            to,
            is_on,
            total,
            is_said: false,
            bytes: 0,
            next: STEP,
        }
    }

    /// Removes the line, if there is one.
    pub fn clear(&mut self) {
        if self.is_said {
            self.is_said = false;
            let _ = eprint!(self.to; "\r\u{1b}[K");
        }
    }

    /// Counts the bytes that were read.
    fn count(&mut self, more: usize)
        ensures { self.new.source ≡ self.old.source }
    {
        self.bytes = self.bytes.saturating_add(more as u64);
        if self.is_on && self.bytes >= self.next {
            self.next = self.bytes.saturating_add(STEP);
            self.is_said = true;
            let megabytes = self.bytes / MEGABYTE;
            let _ = match self.total {
                Some(total) => eprint!(self.to; "\r{megabytes} of {} MB", total / MEGABYTE),
                None => eprint!(self.to; "\r{megabytes} MB"),
            };
        }
    }
}

impl<R: io::Read, P: io::Eprint> io::Read for Watched<'_, R, P> {
    ghost remaining = { λ r. R.remaining r.source };

    fn read(&mut self, buf: &mut [u8]) -> io::Result<usize> {
        let count = self.source.read(buf)?;
        self.count(count);
        Ok(count)
    }
}
