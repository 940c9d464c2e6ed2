// The answers of calls on bytes and their strings if one read fails, read plainly, with no call of the library.

use crate::plain::{Fault, Title, affix_len, length_title_len, next_title};
use std::alloc::{AllocError, Global};

// Why a call gives nothing.
#[derive(Clone, Copy, PartialEq, Eq)]
pub enum Stop {
    Planned,
    Short,
    Syntax(usize),
}

// Bytes that are read. The reads that move a byte are counted from 1 on. The read of a planned number fails and takes
// no byte. A read of more bytes than are left takes none either.
#[derive(Drop)]
pub struct Tape<'a> {
    bytes: &'a [u8],
    offset: usize,
    reads: usize,
    failing: usize,
}

impl<'a> Tape<'a> {
    pub fn new(bytes: &'a [u8], failing: usize) -> Tape<'a> {
        Tape {
            bytes,
            offset: 0,
            reads: 0,
            failing,
        }
    }

    // Returns the offset at which the next read begins.
    pub fn offset(&self) -> usize {
        self.offset
    }

    pub fn has_ended(&self) -> bool {
        self.offset >= self.bytes.len()
    }

    // Returns whether the read that fails has come.
    pub fn has_failed(&self) -> bool {
        self.reads >= self.failing
    }

    fn take(&mut self, count: usize) -> Result<&'a [u8], Stop> {
        if count > 0 {
            self.reads = self.reads.saturating_add(1);
            if self.reads == self.failing {
                return Err(Stop::Planned);
            }
        }
        let end = self.offset.saturating_add(count);
        let Some(part) = self.bytes.get(self.offset..end) else {
            return Err(Stop::Short);
        };
        self.offset = end;
        Ok(part)
    }

    // Reads a title. Its first byte is a read, and its affix is another read.
    pub fn title(&mut self) -> Result<Title, Stop> {
        let mut start = self.offset;
        let minor = match self.take(1)? {
            [first] => *first % 32,
            _ => 0,
        };
        self.take(affix_len(minor))?;
        match next_title(self.bytes, &mut start) {
            Ok(title) => Ok(title),
            Err(Fault::Syntax(place)) => Err(Stop::Syntax(place)),
            Err(Fault::Short | Fault::ShortAndDamaged(_)) => Err(Stop::Short),
        }
    }
}

// Bytes that are written. The writes that move a byte are counted from 1 on. The write of a planned number takes its
// first half, rounded down, and fails.
#[derive(Drop)]
pub struct Sink {
    taken: Vec<u8>,
    writes: usize,
    failing: usize,
}

impl Sink {
    pub fn new(alloc: Global, failing: usize) -> Sink {
        Sink {
            taken: Vec::new(alloc),
            writes: 0,
            failing,
        }
    }

    pub fn taken(&self) -> &[u8] {
        self.taken.as_slice()
    }

    // Returns whether the write that fails has come.
    pub fn has_failed(&self) -> bool {
        self.writes >= self.failing
    }

    // Writes bytes, and returns whether all were taken.
    fn put(&mut self, bytes: &[u8]) -> Result<bool, AllocError> {
        self.writes = self.writes.saturating_add(usize::from(!bytes.is_empty()));
        let fails = !bytes.is_empty() && self.writes == self.failing;
        let count = if fails { bytes.len() / 2 } else { bytes.len() };
        self.taken
            .extend_from_slice(bytes.get(..count).unwrap_or(&[]))?;
        Ok(!fails)
    }
}

// A string whose first title was read.
#[derive(Drop)]
pub struct Walk {
    // The first title, until the first body is asked for.
    first: Option<Title>,
    major: u8,
    opens: usize,
    has_ended: bool,
    damaged: Option<usize>,
}

impl Walk {
    pub fn new(first: Title) -> Walk {
        Walk {
            first: Some(first),
            major: first.major,
            opens: 0,
            has_ended: false,
            damaged: None,
        }
    }

    // Reads the next title. The first title counts as its shortest.
    fn title(&mut self, tape: &mut Tape<'_>) -> Result<Title, Stop> {
        let Some(first) = self.first.take() else {
            return tape.title();
        };
        let length = if first.is_open() {
            1
        } else {
            length_title_len(first.number)
        };
        Ok(Title {
            place: tape.offset.saturating_sub(length),
            ..first
        })
    }

    // Moves to the next body, after opens and breaks. If a read fails, the opens and breaks before it stay counted.
    pub fn next(&mut self, tape: &mut Tape<'_>) -> Result<Option<Body>, Stop> {
        for _ in 0..=tape.bytes.len() {
            if let Some(place) = self.damaged {
                return Err(Stop::Syntax(place));
            }
            if self.has_ended {
                return Ok(None);
            }
            match self.title(tape) {
                Ok(title) if title.is_break() && self.opens > 0 => {
                    self.opens = self.opens.saturating_sub(1);
                    self.has_ended = self.opens == 0;
                }
                Ok(title) if title.major == self.major && title.is_open() => {
                    self.opens = self.opens.saturating_add(1);
                }
                Ok(title) if title.major == self.major => {
                    self.has_ended = self.opens == 0;
                    return Ok(Some(Body::new(title)));
                }
                Ok(title) => self.damaged = Some(title.place),
                Err(Stop::Syntax(place)) => self.damaged = Some(place),
                Err(stop) => return Err(stop),
            }
        }
        Ok(None)
    }
}

// How a drain ends.
#[derive(Clone, Copy)]
pub enum Drained {
    Ended,
    OutOfSizes,
    Unread(Stop),
    Unwritten,
}

// What is left of a body: bytes that were not read, and bytes that were read and are kept. The kept bytes are the last
// ones before the next read.
#[derive(Drop)]
pub struct Body {
    place: usize,
    is_text: bool,
    unread: usize,
    kept: usize,
    is_damaged: bool,
}

impl Body {
    fn new(title: Title) -> Body {
        Body {
            place: title.place,
            is_text: title.major == 3,
            unread: usize::try_from(title.number).unwrap_or(usize::MAX),
            kept: 0,
            is_damaged: false,
        }
    }

    pub fn left(&self) -> usize {
        self.unread.saturating_add(self.kept)
    }

    fn damage(&mut self) -> Stop {
        self.is_damaged = true;
        self.kept = 0;
        Stop::Syntax(self.place)
    }

    // Pulls the next chunk by a buffer of this size.
    pub fn pull<'a>(&mut self, tape: &mut Tape<'a>, size: usize) -> Result<Option<&'a [u8]>, Stop> {
        if self.is_damaged || self.unread == 0 && self.kept > 0 {
            return Err(self.damage());
        }
        if self.unread == 0 {
            return Ok(None);
        }
        let start = tape.offset.saturating_sub(self.kept);
        let count = self.unread.min(size.saturating_sub(self.kept));
        tape.take(count)?;
        self.unread = self.unread.saturating_sub(count);
        let due = tape.bytes.get(start..tape.offset).unwrap_or(&[]);
        let valid = match std::str::from_utf8(due) {
            Err(error) if self.is_text => error.valid_up_to(),
            _ => due.len(),
        };
        self.kept = due.len().saturating_sub(valid);
        if self.kept > 3 {
            return Err(self.damage());
        }
        Ok(due.get(..valid))
    }

    // Writes a chunk for each size.
    pub fn drain(
        &mut self,
        tape: &mut Tape<'_>,
        sizes: [usize; 2],
        sink: &mut Sink,
    ) -> Result<Drained, AllocError> {
        for size in sizes {
            match self.pull(tape, size) {
                Ok(Some(chunk)) => {
                    if !sink.put(chunk)? {
                        return Ok(Drained::Unwritten);
                    }
                }
                Ok(None) => return Ok(Drained::Ended),
                Err(stop) => return Ok(Drained::Unread(stop)),
            }
        }
        Ok(Drained::OutOfSizes)
    }
}
