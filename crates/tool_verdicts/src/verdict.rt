//! The verdict on an input, as the program says it.

ghost use Rattle.std.specs.Prelude.{◌≡◌, ◌≤◌, ◌⊎◌, Some};
ghost use Rattle.tool_verdicts.specs.Verdicts.{output_status, status_code, text_fault_text, verdict_status, verdict_text};

use cbor_deterministic::Refusal;
use std::{fmt, io};

/// How the program ends.
#[derive(Clone, Copy)]
pub enum Status {
    /// All input is as wanted.
    Well,
    /// Some input is not as wanted: it is not well-formed, for example.
    Malformed,
    /// The arguments ask for nothing that the program does.
    Usage,
    /// An input or the output failed.
    Failed,
    /// The reader of the output has gone away.
    Gone,
}

impl Status {
    /// Returns the number that a script sees.
    pub fn code(self) -> u8
        ensures { result ≡ status_code self }
    {
        match self {
            Status::Well => 0,
            Status::Malformed => 1,
            Status::Usage => 2,
            Status::Failed => 3,
            Status::Gone => 141,
        }
    }

    /// Returns the status after a write to the output failed.
    pub fn after_output(kind: io::ErrorKind) -> Status
        ensures { result ≡ output_status kind }
    {
        match kind {
            io::ErrorKind::BrokenPipe => Status::Gone,
            _ => Status::Failed,
        }
    }

    /// Returns the status with the greater number.
    pub fn worse(self, other: Status) -> Status
        ensures one { (result ≡ self) ⊎ (result ≡ other) }
        ensures worst { (status_code self ≤ status_code result) × (status_code other ≤ status_code result) }
    {
        if self.code() < other.code() {
            other
        } else {
            self
        }
    }
}

/// Why a text spells no bytes.
#[derive(Clone, Copy)]
pub enum TextReason {
    /// It has something other than a hexadecimal digit.
    NoDigit,
    /// It ends after the first digit of a byte.
    HalfByte,
    /// It ends within a comment.
    OpenComment,
    /// It ends within quotes.
    OpenQuotes,
}

impl TextReason {
    ghost use Rattle.tool_verdicts.specs.Verdicts.{reason_text};

    /// Returns the text of the reason.
    pub fn text(self) -> &'static str
        ensures { result.now ≡ reason_text self }
    {
        match self {
            TextReason::NoDigit => "no hexadecimal digit",
            TextReason::HalfByte => "half a byte",
            TextReason::OpenComment => "a comment without an end",
            TextReason::OpenQuotes => "quotes without an end",
        }
    }
}

/// A fault in a text that spells bytes.
#[derive(Clone, Copy)]
pub struct TextFault {
    /// The number of the line at fault. The first line is 1.
    pub line: u64,
    /// The number of the character at fault in its line. The first character is 1.
    pub column: u64,
    /// Why the text spells no bytes.
    pub reason: TextReason,
}

impl fmt::Display for TextFault {
    ghost output = { λ fault. Some (text_fault_text fault) };

    fn fmt<W: fmt::Write>(&self, f: &mut fmt::Formatter<W>) -> fmt::Result {
        write!(f, "line {}, column {}: ", self.line, self.column)?;
        f.write_str(self.reason.text())
    }
}

/// The verdict on an input. Offsets are in bytes from its start.
#[derive(Drop)]
pub enum Verdict {
    /// It is well-formed.
    Well {
        /// How many items it has.
        items: usize,
        /// How many bytes the items take.
        bytes: usize,
    },
    /// The bytes at this offset are no CBOR that could stand there, or a body is no text. It is the place of the
    /// library's `Error::Syntax`.
    Syntax(usize),
    /// The input ends within an item. This offset follows the whole titles and pieces of bodies.
    Short(usize),
    /// At this offset a break ends nothing.
    Break(usize),
    /// At this offset a tag, an array or a map stands too deep.
    Deep(usize),
    /// More than one item was found. The second item would begin at this offset.
    More(usize),
    /// The item at this offset has no JSON.
    NoJson(usize),
    /// No item in the deterministic encoding stands there (RFC 8949, 4.2). The refusal has the reason and the offset.
    Refused(Refusal),
    /// The text that spells the input has a fault.
    Text(TextFault),
    /// The offset would pass `usize::MAX`.
    TooLong,
    /// The input cannot be read.
    Failed(io::Error),
    /// Standard output cannot be written, or there is no memory for a line of it.
    Output(io::Error),
}

impl Verdict {
    ghost use Rattle.tool_verdicts.specs.Verdicts.{verdict_moved};

    /// Returns the verdict on an input that begins at the offset `start` of another one. A place that would be greater
    /// than `usize::MAX` is `usize::MAX`.
    pub fn shift(self, start: usize) -> Verdict
        ensures { result ≡ verdict_moved start self }
    {
        match self {
            Verdict::Syntax(place) => Verdict::Syntax(start.saturating_add(place)),
            Verdict::Short(place) => Verdict::Short(start.saturating_add(place)),
            Verdict::Break(place) => Verdict::Break(start.saturating_add(place)),
            Verdict::Deep(place) => Verdict::Deep(start.saturating_add(place)),
            Verdict::More(place) => Verdict::More(start.saturating_add(place)),
            Verdict::NoJson(place) => Verdict::NoJson(start.saturating_add(place)),
            Verdict::Refused(refusal) => Verdict::Refused(Refusal {
                why: refusal.why,
                place: start.saturating_add(refusal.place),
            }),
            verdict => verdict,
        }
    }

    /// Returns how the program ends after this input.
    pub fn status(&self) -> Status
        ensures { result ≡ verdict_status self.now }
    {
        match self {
            Verdict::Well { .. } => Status::Well,
            Verdict::Syntax(_)
            | Verdict::Short(_)
            | Verdict::Break(_)
            | Verdict::Deep(_)
            | Verdict::More(_)
            | Verdict::NoJson(_)
            | Verdict::Refused(_)
            | Verdict::Text(_) => Status::Malformed,
            Verdict::TooLong | Verdict::Failed(_) => Status::Failed,
            Verdict::Output(error) => Status::after_output(error.kind()),
        }
    }
}

impl fmt::Display for Verdict {
    ghost output = { verdict_text };

    fn fmt<W: fmt::Write>(&self, f: &mut fmt::Formatter<W>) -> fmt::Result {
        match self {
            Verdict::Well { items, bytes } => write!(f, "ok {items} {bytes}"),
            Verdict::Syntax(place) => write!(f, "syntax {place}"),
            Verdict::Short(place) => write!(f, "short {place}"),
            Verdict::Break(place) => write!(f, "break {place}"),
            Verdict::Deep(place) => write!(f, "deep {place}"),
            Verdict::More(place) => write!(f, "more {place}"),
            Verdict::NoJson(place) => write!(f, "no-json {place}"),
            Verdict::Refused(refusal) => { write!(f, "refused {}: {}", refusal.place, refusal.why) }
            Verdict::Text(fault) => write!(f, "{fault}"),
            Verdict::TooLong => f.write_str("too long"),
            Verdict::Failed(error) => write!(f, "{error}"),
            Verdict::Output(error) => write!(f, "standard output: {error}"),
        }
    }
}
