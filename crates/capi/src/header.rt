//! Headers as C knows them: a kind, a value, and whether the form is indefinite.

ghost use Rattle.std.specs.Prelude.{◌≡◌, IfNone, IfSome};
ghost use Rattle.ciborium_ll.specs.Title.{IsTitle};
ghost use Rattle.ciborium_ll_grammar.specs.Parts.{IsMinor, IsParts, minor_number, parts_bytes, title_bytes};
ghost use Rattle.capi.specs.Headers.{IsNoHeader, Says, indefinite_of, len_from, length_or_none, rebuilt};

use ciborium_ll::{Float, Header};
use ciborium_ll_grammar::hdr::{Minor, Title};

/// The meaning of a title: a kind, a number, and whether the form is indefinite.
#[derive(Clone, Copy, Debug, PartialEq, Eq)]
#[repr(C)]
pub struct CllHeader {
    /// The number, the length, the count, or the raw bits of a float. It is 0 for a break and for the indefinite forms.
    pub value: u64,
    /// The kind, by its number: 0 positive, 1 negative, 2 bytes, 3 text, 4 array, 5 map, 6 tag, 7 simple, 8 half,
    /// 9 single, 10 double, 11 break.
    pub kind: u8,
    /// 1 for the indefinite forms, and 0 otherwise.
    pub indefinite: u8,
}

impl CllHeader {
    /// Makes the parts of a header.
    #[inline(always)]
    pub(crate) fn of(header: Header) -> CllHeader
        ensures { Says result header }
    {
        match header {
            Header::Positive(n) => CllHeader::definite(0, n),
            Header::Negative(n) => CllHeader::definite(1, n),
            Header::Bytes(len) => CllHeader::with_length(2, len),
            Header::Text(len) => CllHeader::with_length(3, len),
            Header::Array(len) => CllHeader::with_length(4, len),
            Header::Map(len) => CllHeader::with_length(5, len),
            Header::Tag(n) => CllHeader::definite(6, n),
            Header::Simple(n) => CllHeader::definite(7, u64::from(n)),
            Header::Float(Float::Half(bits)) => CllHeader::definite(8, u64::from(bits)),
            Header::Float(Float::Single(bits)) => CllHeader::definite(9, u64::from(bits)),
            Header::Float(Float::Double(bits)) => CllHeader::definite(10, bits),
            Header::Break => CllHeader::definite(11, 0),
        }
    }

    /// Makes the parts of a title's header from the title's own parts. The call does not look at the header except for
    /// the major type 7, so a pull is one jump by a table.
    #[inline(always)]
    pub(crate) fn of_title(title: Title, header: Header) -> CllHeader
        requires parts { IsParts title }
        requires title { IsTitle (title_bytes title) header }
        ensures { Says result header }
    {
        if title.major == 7 {
            CllHeader::of_other(title.minor, header)
        } else {
            CllHeader::with_length(title.major, title.minor.length())
        }
    }

    /// Makes the parts of the header of a title of the major type 7.
    #[inline(always)]
    fn of_other(minor: Minor, header: Header) -> CllHeader
        requires minor { IsMinor minor }
        requires title { IsTitle (parts_bytes 7 minor) header }
        ensures { Says result header }
    {
        match minor {
            Minor::Small(n) | Minor::One(n) => CllHeader::definite(7, n),
            Minor::Two(n) => CllHeader::definite(8, n),
            Minor::Four(n) => CllHeader::definite(9, n),
            Minor::Eight(n) => CllHeader::definite(10, n),
            Minor::Open => CllHeader::definite(11, 0),
        }
    }

    /// Makes the parts of a kind with a number.
    #[inline(always)]
    fn definite(kind: u8, value: u64) -> CllHeader
        ensures value { result.value ≡ value }
        ensures kind { result.kind ≡ kind }
        ensures definite { result.indefinite ≡ 0 }
    {
        CllHeader {
            value,
            kind,
            indefinite: 0,
        }
    }

    /// Makes the parts of a kind with a length, or of its indefinite form.
    #[inline(always)]
    fn with_length(kind: u8, len: Option<usize>) -> CllHeader
        ensures value { result.value ≡ length_or_none len }
        ensures kind { result.kind ≡ kind }
        ensures indefinite { result.indefinite ≡ indefinite_of len }
    {
        match len {
            Some(len) => CllHeader::definite(kind, len as u64),
            None => CllHeader {
                value: 0,
                kind,
                indefinite: 1,
            },
        }
    }

    /// Returns the header that has these parts, or `None` if no header has them.
    #[inline(always)]
    pub(crate) fn header(&self) -> Option<Header>
        ensures some { IfSome result (λ header. Says self.now header) }
        ensures none { IfNone result (IsNoHeader self.now) }
    {
        let header = self.rebuilt()?;
        let parts = CllHeader::of(header);
        if parts == *self { Some(header) } else { None }
    }

    /// Returns the header that the parts make, if the kind is one. The value is cut to what the kind holds, so the
    /// header may have other parts.
    #[inline(always)]
    fn rebuilt(&self) -> Option<Header>
        ensures { result ≡ rebuilt self.now.kind self.now.indefinite self.now.value }
    {
        let value = self.value;
        match self.kind {
            0 => Some(Header::Positive(value)),
            1 => Some(Header::Negative(value)),
            2 => Some(Header::Bytes(self.len())),
            3 => Some(Header::Text(self.len())),
            4 => Some(Header::Array(self.len())),
            5 => Some(Header::Map(self.len())),
            6 => Some(Header::Tag(value)),
            7 => Some(Header::Simple((value % 0x100) as u8)),
            8 => Some(Header::Float(Float::Half((value % 0x1_0000) as u16))),
            9 => Some(Header::Float(Float::Single((value % 0x1_0000_0000) as u32))),
            10 => Some(Header::Float(Float::Double(value))),
            11 => Some(Header::Break),
            _ => None,
        }
    }

    /// Returns the length or the count, or `None` for the indefinite form.
    #[inline(always)]
    fn len(&self) -> Option<usize>
        ensures { result ≡ len_from self.now.indefinite self.now.value }
    {
        if self.indefinite == 0 {
            Some(self.value as usize)
        } else {
            None
        }
    }
}
