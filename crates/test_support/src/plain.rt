//! Reads bytes plainly: by tables of titles and of text, with no call of the library.

use ciborium_ll::{Float, Header, Spelling};
use std::alloc::Global;
use std::test::Fail;

/// Why bytes could not be read on.
#[derive(Clone, Copy, PartialEq, Eq)]
pub enum Fault {
    /// The bytes from this offset on may not stand there, or are no CBOR.
    Syntax(usize),
    /// The bytes end too early.
    Short,
    /// The bytes end within a body of text, which is damaged before its end. A reader that finds the damage first names
    /// this offset.
    ShortAndDamaged(usize),
}

/// A title in its parts.
#[derive(Clone, Copy)]
pub struct Title {
    /// The offset at which it begins.
    pub place: usize,
    /// The upper three bits of its first byte.
    pub major: u8,
    /// The lower five bits of its first byte.
    pub minor: u8,
    /// The number in its minor or its affix.
    pub number: u64,
}

impl Title {
    /// Returns whether it has the indefinite form, or is a break.
    pub fn is_open(&self) -> bool {
        self.minor == 31
    }

    /// Returns whether it ends what an open began.
    pub fn is_break(&self) -> bool {
        self.major == 7 && self.minor == 31
    }

    /// Returns whether its number stands in the fewest bytes (RFC 7049, 3.9), and it is no simple value below 32 in two
    /// bytes (2.3). A float has only one form.
    pub fn is_strict(&self) -> bool {
        match (self.major, self.minor) {
            (7, 24) => self.number > 31,
            (7, _) => true,
            (_, 24) => self.number > 23,
            (_, 25) => self.number > 0xff,
            (_, 26) => self.number > 0xffff,
            (_, 27) => self.number > 0xffff_ffff,
            _ => true,
        }
    }

    /// Returns whether it begins a string.
    pub fn is_string(&self) -> bool {
        self.major == 2 || self.major == 3
    }

    /// Returns how many reads that move a byte the title takes: a read of the first byte, and a read of an affix.
    pub fn reads(&self) -> usize {
        if affix_len(self.minor) > 0 { 2 } else { 1 }
    }

    /// Returns the header that it means.
    pub fn header(&self) -> Header {
        let length = if self.is_open() {
            None
        } else {
            usize::try_from(self.number).ok()
        };
        match (self.major, self.minor) {
            (0, _) => Header::Positive(self.number),
            (1, _) => Header::Negative(self.number),
            (2, _) => Header::Bytes(length),
            (3, _) => Header::Text(length),
            (4, _) => Header::Array(length),
            (5, _) => Header::Map(length),
            (6, _) => Header::Tag(self.number),
            (_, 25) => Header::Float(Float::Half((self.number & 0xffff) as u16)),
            (_, 26) => Header::Float(Float::Single((self.number & 0xffff_ffff) as u32)),
            (_, 27) => Header::Float(Float::Double(self.number)),
            (_, 31) => Header::Break,
            _ => Header::Simple((self.number & 0xff) as u8),
        }
    }
}

/// Returns how many bytes of affix follow a first byte of this minor.
pub fn affix_len(minor: u8) -> usize {
    match minor {
        24 => 1,
        25 => 2,
        26 => 4,
        27 => 8,
        _ => 0,
    }
}

/// Reads a title, and moves the offset past the consumed bytes.
pub fn next_title(bytes: &[u8], offset: &mut usize) -> Result<Title, Fault> {
    let place = *offset;
    let Some(first) = bytes.get(place) else {
        return Err(Fault::Short);
    };
    let (major, minor) = (*first / 32, *first % 32);
    let behind = place.saturating_add(1);
    *offset = behind;
    if minor > 27 && minor < 31 || minor == 31 && matches!(major, 0 | 1 | 6) {
        return Err(Fault::Syntax(place));
    }
    let end = behind.saturating_add(affix_len(minor));
    let Some(affix) = bytes.get(behind..end) else {
        return Err(Fault::Short);
    };
    *offset = end;
    let mut number = if affix.is_empty() {
        u64::from(minor)
    } else {
        0
    };
    for byte in affix {
        number = number << 8 | u64::from(*byte);
    }
    Ok(Title {
        place,
        major,
        minor,
        number,
    })
}

/// Returns the title that was read, or the fault that a strict decoder finds in it.
pub fn strictly(title: Title) -> Result<Title, Fault> {
    if title.is_strict() {
        Ok(title)
    } else {
        Err(Fault::Syntax(title.place))
    }
}

/// Appends the shortest title of the same header to bytes. A float has only one title.
fn put_title(output: &mut Vec<u8>, title: Title) -> Result<(), Fail> {
    let is_float = title.major == 7 && (25..=27).contains(&title.minor);
    let minor = match title.number {
        _ if is_float || title.is_open() => title.minor,
        0..=23 => (title.number & 31) as u8,
        24..=0xff => 24,
        0x100..=0xffff => 25,
        0x1_0000..=0xffff_ffff => 26,
        _ => 27,
    };
    output.push(((title.major & 7) << 5) | (minor & 31))?;
    let digits = title.number.to_be_bytes();
    let skipped = digits.len().saturating_sub(affix_len(minor));
    output.extend_from_slice(digits.get(skipped..).unwrap_or(&[]))?;
    Ok(())
}

/// Returns how long the shortest title of a length is.
pub fn length_title_len(length: u64) -> usize {
    match length {
        0..=23 => 1,
        24..=0xff => 2,
        0x100..=0xffff => 3,
        0x1_0000..=0xffff_ffff => 5,
        _ => 9,
    }
}

/// What a copy through a buffer of 64 bytes gives.
#[derive(Drop)]
pub struct Copied {
    /// The bytes that it writes.
    pub output: Vec<u8>,
    /// The offset to which it reads.
    pub offset: usize,
    /// Why it stops before its end, if it does.
    pub fault: Option<Fault>,
    /// The titles that it takes.
    spelling: Spelling,
}

/// Reads the next title of a copy.
fn due_title(copied: &mut Copied, bytes: &[u8]) -> Result<Title, Fault> {
    let next = next_title(bytes, &mut copied.offset)?;
    if copied.spelling.is_shortest() {
        strictly(next)
    } else {
        Ok(next)
    }
}

/// Copies a body, which is one read of at most 64 bytes. A damaged end of at most three bytes is found late.
fn body(copied: &mut Copied, bytes: &[u8], title: Title, place: usize) -> Result<(), Fail> {
    put_title(&mut copied.output, title)?;
    let start = copied.offset;
    let rest = bytes.get(start..).unwrap_or(&[]);
    let whole = match usize::try_from(title.number) {
        Ok(length) => rest.get(..length),
        Err(_) => None,
    };
    let Some(body) = whole else {
        let is_damaged = title.major == 3
            && matches!(std::str::from_utf8(rest), Err(error) if error.error_len().is_some());
        copied.fault = Some(if is_damaged {
            Fault::ShortAndDamaged(place)
        } else {
            Fault::Short
        });
        return Ok(());
    };
    copied.offset = start.saturating_add(body.len());
    let valid = match std::str::from_utf8(body) {
        Err(error) if title.major == 3 => error.valid_up_to(),
        _ => body.len(),
    };
    if body.len().saturating_sub(valid) <= 3 {
        copied
            .output
            .extend_from_slice(body.get(..valid).unwrap_or(&[]))?;
    }
    if valid < body.len() {
        copied.fault = Some(Fault::Syntax(place));
    }
    Ok(())
}

/// Copies the segments of a string after its open, and its break.
fn segments(copied: &mut Copied, bytes: &[u8], major: u8) -> Result<(), Fail> {
    let mut depth = 1usize;
    for _ in 0..=bytes.len() {
        match due_title(copied, bytes) {
            Ok(next) if next.is_break() => {
                depth = depth.saturating_sub(1);
                if depth == 0 {
                    copied.output.push(0xff)?;
                    return Ok(());
                }
            }
            Ok(next) if next.major == major && next.is_open() && !copied.spelling.is_shortest() => {
                depth = depth.saturating_add(1);
            }
            Ok(next) if next.is_open() => copied.fault = Some(Fault::Syntax(next.place)),
            Ok(next) if next.major == major => body(copied, bytes, next, next.place)?,
            Ok(next) => copied.fault = Some(Fault::Syntax(next.place)),
            Err(fault) => copied.fault = Some(fault),
        }
        if copied.fault.is_some() {
            break;
        }
    }
    Ok(())
}

/// Copies an element.
fn element(copied: &mut Copied, bytes: &[u8]) -> Result<(), Fail> {
    match due_title(copied, bytes) {
        Ok(first) if first.is_string() && first.is_open() => {
            put_title(&mut copied.output, first)?;
            segments(copied, bytes, first.major)
        }
        Ok(first) if first.is_string() => {
            let place = copied.offset.saturating_sub(length_title_len(first.number));
            body(copied, bytes, first, place)
        }
        Ok(first) => put_title(&mut copied.output, first),
        Err(fault) => {
            copied.fault = Some(fault);
            Ok(())
        }
    }
}

/// Makes a copy that has not begun.
fn fresh(alloc: Global, spelling: Spelling) -> Copied {
    Copied {
        output: Vec::new(alloc),
        offset: 0,
        fault: None,
        spelling,
    }
}

/// Copies elements up to a fault.
fn elements(copied: &mut Copied, count: usize, bytes: &[u8]) -> Result<(), Fail> {
    for _ in 0..count {
        element(copied, bytes)?;
        if copied.fault.is_some() {
            break;
        }
    }
    Ok(())
}

/// Copies titles up to a fault. A title's body or items are no part of it.
fn headers(copied: &mut Copied, count: usize, bytes: &[u8]) -> Result<(), Fail> {
    for _ in 0..count {
        match due_title(copied, bytes) {
            Ok(next) => put_title(&mut copied.output, next)?,
            Err(fault) => {
                copied.fault = Some(fault);
                break;
            }
        }
    }
    Ok(())
}

/// Copies elements. With `are_headers` each title is an element without its body.
pub fn copy(alloc: Global, are_headers: bool, count: usize, bytes: &[u8]) -> Result<Copied, Fail> {
    let mut copied = fresh(alloc, Spelling::Any);
    if are_headers {
        headers(&mut copied, count, bytes)?;
    } else {
        elements(&mut copied, count, bytes)?;
    }
    Ok(copied)
}

/// Copies elements as a strict decoder gives them.
pub fn strict_copy(alloc: Global, count: usize, bytes: &[u8]) -> Result<Copied, Fail> {
    let mut copied = fresh(alloc, Spelling::Shortest);
    elements(&mut copied, count, bytes)?;
    Ok(copied)
}
