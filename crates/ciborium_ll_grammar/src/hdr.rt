//! Titles and their headers.

ghost use Rattle.std.specs.Prelude.{ℕ, Option, ◌≡◌, ◌+◌, ◌*◌, ◌<◌, length, IfSome, IfNone, [], ◌∷◌};
ghost use Rattle.std.specs.Prelude.{Some};
ghost use Rattle.ciborium_ll_grammar.specs.Title.{IsInRange, IsTitle, IsNeverOpen, Major};
ghost use Rattle.ciborium_ll_grammar.specs.Title.{least_size, minor_of, affix_of, shortest_title};
ghost use Rattle.ciborium_ll_grammar.specs.Title.{title_len, shortest_with_length, major_code};
ghost use Rattle.ciborium_ll_grammar.specs.Parts.{IsMinor, IsParts, minor_affix, minor_code};
ghost use Rattle.ciborium_ll_grammar.specs.Parts.{minor_number, refused_when_strict, parts_bytes};
ghost use Rattle.ciborium_ll_grammar.specs.Parts.{parts_first, title_bytes};
ghost use Rattle.ciborium_ll_grammar.specs.Elements.{IsPlain};
ghost use Rattle.ciborium_ll_grammar.specs.TitleRows.{IsTitleKind};

mod start;
pub mod table;

pub use self::start::Start;
use crate::hdr::table::TitleKind;

/// A float, as its width and raw bits (RFC 7049, 2.3).
///
/// A NaN equals itself, and +0.0 differs from -0.0.
#[derive(Clone, Copy, Debug, PartialEq, Eq)]
pub enum Float {
    /// The 16 bits of a half-precision float.
    Half(u16),
    /// The 32 bits of a single-precision float.
    Single(u32),
    /// The 64 bits of a double-precision float.
    Double(u64),
}

/// The meaning of a title, without a body (RFC 7049, 2.1 to 2.3).
///
/// `None` is the indefinite form, which a `Break` ends.
#[derive(Clone, Copy, Debug, PartialEq, Eq)]
pub enum Header {
    /// An unsigned integer.
    Positive(u64),
    /// The negative integer -1 - n.
    Negative(u64),
    /// A float.
    Float(Float),
    /// A simple value.
    Simple(u8),
    /// A tag for the item that follows.
    Tag(u64),
    /// The end of an indefinite string, array or map.
    Break,
    /// A byte string of this many bytes.
    Bytes(Option<usize>),
    /// A text string of this many bytes.
    Text(Option<usize>),
    /// An array of this many items.
    Array(Option<usize>),
    /// A map of this many pairs of items.
    Map(Option<usize>),
}

/// The lower five bits of a first byte, with the number that they hold or announce.
#[derive(Clone, Copy)]
pub enum Minor {
    /// The number itself, below 24.
    Small(u64),
    /// A number in one byte after the first.
    One(u64),
    /// A number in two bytes after the first.
    Two(u64),
    /// A number in four bytes after the first.
    Four(u64),
    /// A number in eight bytes after the first.
    Eight(u64),
    /// No number: an indefinite form or a break.
    Open,
}

impl Minor {
    /// Returns the number, or `None` for `Open`.
    pub(crate) fn number(self) -> Option<u64>
        ensures { result ≡ minor_number self }
    {
        match self {
            Minor::Small(n) | Minor::One(n) | Minor::Two(n) | Minor::Four(n) | Minor::Eight(n) => {
                Some(n)
            }
            Minor::Open => None,
        }
    }

    /// Returns the number as a length, or `None` for the indefinite form.
    #[inline(always)]
    pub fn length(self) -> Option<usize>
        ensures { result ≡ minor_number self }
    {
        match self.number() {
            Some(n) => Some(n as usize),
            None => None,
        }
    }

    /// Returns the smallest form that holds a number.
    fn holding(number: u64) -> Minor
        ensures minor { IsMinor result }
        ensures code { minor_code result ≡ minor_of (least_size number) number }
        ensures affix { minor_affix result ≡ affix_of (least_size number) number }
    {
        if number < 24 {
            Minor::Small(number)
        } else if number < 0x100 {
            Minor::One(number)
        } else if number < 0x1_0000 {
            Minor::Two(number)
        } else if number < 0x1_0000_0000 {
            Minor::Four(number)
        } else {
            Minor::Eight(number)
        }
    }

    /// Returns the smallest form that holds a length, or the indefinite form for `None`.
    fn holding_length(length: Option<usize>) -> Minor
        ensures minor { IsMinor result }
        ensures bytes { (major : Major) → parts_bytes (major_code major) result ≡ shortest_with_length major length }
    {
        match length {
            Some(length) => Minor::holding(length as u64),
            None => Minor::Open,
        }
    }

    /// Returns the lower five bits of the first byte.
    pub fn code(self) -> u8
        requires { IsMinor self }
        ensures value { result ≡ minor_code self }
        ensures bits { result < 32 }
    {
        match self {
            Minor::Small(n) => n as u8,
            Minor::One(_) => 24,
            Minor::Two(_) => 25,
            Minor::Four(_) => 26,
            Minor::Eight(_) => 27,
            Minor::Open => 31,
        }
    }

    /// Tells if a strict decoder refuses this minor (RFC 7049, 2.3 and 3.9).
    ///
    /// It refuses a number that a smaller form holds, and a simple value below 32 in two bytes.
    pub fn is_refused_when_strict(self, major: u8) -> bool
        ensures { result ≡ refused_when_strict major self }
    {
        if major == 7 {
            return match self {
                Minor::One(n) => n < 32,
                _ => false,
            };
        }
        match self {
            Minor::Small(_) | Minor::Open => false,
            Minor::One(n) => n < 24,
            Minor::Two(n) => n < 0x100,
            Minor::Four(n) => n < 0x1_0000,
            Minor::Eight(n) => n < 0x1_0000_0000,
        }
    }

    /// Returns the smallest form of the same meaning under the major type 7. Floats and the break keep their form.
    #[inline(always)]
    fn shortest_other(self) -> Minor
        requires { IsMinor self }
        ensures minor { IsMinor result }
        ensures bytes { (header : Header) → IsTitle (parts_bytes 7 self) header
            → parts_bytes 7 result ≡ shortest_title header }
    {
        match self {
            Minor::Small(n) | Minor::One(n) => Minor::holding(n),
            _ => self,
        }
    }

    /// Returns the smallest form of the same meaning under a major type below 7.
    #[inline(always)]
    fn shortest_number(self) -> Minor
        requires { IsMinor self }
        ensures minor { IsMinor result }
        ensures bytes { (major : ℕ) (header : Header) → major < 7 → IsTitle (parts_bytes major self) header
            → parts_bytes major result ≡ shortest_title header }
    {
        match self.number() {
            Some(n) => Minor::holding(n),
            None => Minor::Open,
        }
    }

    /// Returns the number of bytes of the affix.
    fn affix_len(self) -> usize
        ensures { result ≡ length (minor_affix self) }
    {
        match self {
            Minor::Small(_) | Minor::Open => 0,
            Minor::One(_) => 1,
            Minor::Two(_) => 2,
            Minor::Four(_) => 4,
            Minor::Eight(_) => 8,
        }
    }
}

/// The element that a title begins (RFC 7049, 2.1 and 2.2).
#[derive(Clone, Copy)]
pub enum Element {
    /// A byte string of this many bytes, or of indefinite length.
    Bytes(Option<usize>),
    /// A text string of this many bytes, or of indefinite length.
    Text(Option<usize>),
    /// No string: the title is an element by itself.
    Plain,
}

/// A title in its parts.
#[derive(Clone, Copy)]
pub struct Title {
    /// The major type, below 8: the upper three bits of the first byte (RFC 7049, 2.1).
    pub major: u8,
    /// The minor: the lower five bits and the affix.
    pub minor: Minor,
}

impl Title {
    /// Returns the first byte.
    pub fn first_byte(self) -> u8
        requires { IsParts self }
        ensures { result ≡ parts_first self.major self.minor }
    {
        self.major * 32 + self.minor.code()
    }

    /// Returns the title's header, or `None` for the minor 31 of a major type without indefinite form (RFC 7049, 2.2).
    #[inline(always)]
    pub fn header(self, kind: TitleKind) -> Option<Header>
        requires parts { IsParts self }
        requires kind { IsTitleKind kind self.major (minor_code self.minor) }
        ensures some { IfSome result (IsTitle (title_bytes self)) }
        ensures none { IfNone result ((minor_code self.minor ≡ 31) × IsNeverOpen self.major) }
    {
        let Some(n) = self.minor.number() else {
            return open_header(kind);
        };
        Some(match kind {
            TitleKind::Positive => Header::Positive(n),
            TitleKind::Negative => Header::Negative(n),
            TitleKind::Bytes => Header::Bytes(Some(n as usize)),
            TitleKind::Text => Header::Text(Some(n as usize)),
            TitleKind::Array => Header::Array(Some(n as usize)),
            TitleKind::Map => Header::Map(Some(n as usize)),
            TitleKind::Tag => Header::Tag(n),
            TitleKind::Other => other_header(self.minor),
            // A refused first byte has no number, so no title takes this arm. It has the body of the arm above, so it
            // needs no test.
            TitleKind::Refused => other_header(self.minor),
        })
    }

    /// Returns the element that the title begins, from the parts alone.
    #[inline(always)]
    pub fn element(self) -> Element
        requires { IsParts self }
        ensures bytes { (header : Header) (length : Option ℕ) → IsTitle (title_bytes self) header
            → result ≡ Element.Bytes length → header ≡ Header.Bytes length }
        ensures text { (header : Header) (length : Option ℕ) → IsTitle (title_bytes self) header
            → result ≡ Element.Text length → header ≡ Header.Text length }
        ensures plain { (header : Header) → IsTitle (title_bytes self) header
            → result ≡ Element.Plain → IsPlain header }
    {
        match self.major {
            2 => Element::Bytes(self.minor.length()),
            3 => Element::Text(self.minor.length()),
            _ => Element::Plain,
        }
    }

    /// Returns the shortest title of the same header (RFC 7049, 3.9). A float keeps its width.
    #[inline(always)]
    pub fn shortest(self) -> Title
        requires { IsParts self }
        ensures parts { IsParts result }
        ensures bytes { (header : Header) → IsTitle (title_bytes self) header
            → title_bytes result ≡ shortest_title header }
    {
        let minor = if self.major == 7 {
            self.minor.shortest_other()
        } else {
            self.minor.shortest_number()
        };
        Title {
            major: self.major,
            minor,
        }
    }
}

/// Returns the meaning of the minor 31 in a title of this kind, if it has one.
#[inline(always)]
pub(crate) fn open_header(kind: TitleKind) -> Option<Header>
    ensures some { IfSome result (λ header. (major : ℕ) → IsTitleKind kind major 31
        → IsTitle ((32 * major + 31) ∷ []) header) }
    ensures none { IfNone result ((major : ℕ) → IsTitleKind kind major 31 → IsNeverOpen major) }
{
    match kind {
        TitleKind::Bytes => Some(Header::Bytes(None)),
        TitleKind::Text => Some(Header::Text(None)),
        TitleKind::Array => Some(Header::Array(None)),
        TitleKind::Map => Some(Header::Map(None)),
        TitleKind::Other => Some(Header::Break),
        TitleKind::Positive | TitleKind::Negative | TitleKind::Tag | TitleKind::Refused => None,
    }
}

/// Returns the header that a minor means under the major type 7.
#[inline(always)]
pub(crate) fn other_header(minor: Minor) -> Header
    requires { IsMinor minor }
    ensures { IsTitle (parts_bytes 7 minor) result }
{
    match minor {
        Minor::Small(n) | Minor::One(n) => Header::Simple(n as u8),
        Minor::Two(n) => Header::Float(Float::Half(n as u16)),
        Minor::Four(n) => Header::Float(Float::Single(n as u32)),
        Minor::Eight(n) => Header::Float(Float::Double(n)),
        Minor::Open => Header::Break,
    }
}

impl Header {
    /// Returns the shortest title's length, in bytes.
    #[inline(always)]
    pub fn title_len(&self) -> usize
        ensures value { result ≡ title_len self.now }
        ensures least { 0 < result }
        ensures most { result < 10 }
        ensures range { IsInRange self.now }
    {
        1 + shortest(*self).minor.affix_len()
    }
}

/// Returns the header's shortest title (RFC 7049, 3.9).
#[inline(always)]
pub fn shortest(header: Header) -> Title
    ensures parts { IsParts result }
    ensures bytes { title_bytes result ≡ shortest_title header }
    ensures range { IsInRange header }
{
    let (major, minor) = match header {
        Header::Positive(n) => (0, Minor::holding(n)),
        Header::Negative(n) => (1, Minor::holding(n)),
        Header::Bytes(length) => (2, Minor::holding_length(length)),
        Header::Text(length) => (3, Minor::holding_length(length)),
        Header::Array(length) => (4, Minor::holding_length(length)),
        Header::Map(length) => (5, Minor::holding_length(length)),
        Header::Tag(n) => (6, Minor::holding(n)),
        Header::Simple(n) => (7, Minor::holding(u64::from(n))),
        Header::Float(Float::Half(bits)) => (7, Minor::Two(u64::from(bits))),
        Header::Float(Float::Single(bits)) => (7, Minor::Four(u64::from(bits))),
        Header::Float(Float::Double(bits)) => (7, Minor::Eight(bits)),
        Header::Break => (7, Minor::Open),
    };
    Title { major, minor }
}
