//! Titles of a header in a given width.

ghost use Rattle.std.specs.Prelude.{◌≡◌, None, if◌then◌else◌};
ghost use Rattle.capi.specs.Widths.{Wide, WideOf, minor_where, length_in, minor_in, numbered_in, open_in, title_in};

use crate::header::CllHeader;
use ciborium_ll::{Float, Header};
use ciborium_ll_grammar::hdr::{Minor, Title};

/// Returns the title that has `width` bytes after its first one, of the header that has these parts, if there is one.
pub(crate) fn title_in(parts: &CllHeader, width: u32) -> Option<Title>
    ensures { WideOf parts.now width result }
{
    wide_title(parts.header()?, width)
}

/// Returns the title of a header that has `width` bytes after its first one, if there is one.
fn wide_title(header: Header, width: u32) -> Option<Title>
    ensures { Wide header width result }
{
    title(header, width)
}

/// Returns the same title by its parts.
fn title(header: Header, width: u32) -> Option<Title>
    ensures { result ≡ title_in header width }
{
    match header {
        Header::Positive(n) => numbered(0, width, n),
        Header::Negative(n) => numbered(1, width, n),
        Header::Bytes(len) => with_length(2, width, len),
        Header::Text(len) => with_length(3, width, len),
        Header::Array(len) => with_length(4, width, len),
        Header::Map(len) => with_length(5, width, len),
        Header::Tag(n) => numbered(6, width, n),
        Header::Simple(n) => other(width < 2, width, u64::from(n)),
        Header::Float(Float::Half(bits)) => other(width == 2, width, u64::from(bits)),
        Header::Float(Float::Single(bits)) => other(width == 4, width, u64::from(bits)),
        Header::Float(Float::Double(bits)) => other(width == 8, width, bits),
        Header::Break => open(7, width),
    }
}

/// Returns a number under the major type 7, if it may have this width.
fn other(may: bool, width: u32, number: u64) -> Option<Title>
    ensures { result ≡ if may then numbered_in 7 width number else None }
{
    if may {
        numbered(7, width, number)
    } else {
        None
    }
}

/// Returns a title of a number under a major type, if the number fits the width.
fn numbered(major: u8, width: u32, number: u64) -> Option<Title>
    ensures { result ≡ numbered_in major width number }
{
    Some(Title {
        major,
        minor: minor(width, number)?,
    })
}

/// Returns a number in `width` bytes, if it fits them.
fn minor(width: u32, number: u64) -> Option<Minor>
    ensures { result ≡ minor_in width number }
{
    match width {
        0 => held(number < 24, Minor::Small(number)),
        1 => held(number < 0x100, Minor::One(number)),
        2 => held(number < 0x1_0000, Minor::Two(number)),
        4 => held(number < 0x1_0000_0000, Minor::Four(number)),
        8 => Some(Minor::Eight(number)),
        _ => None,
    }
}

/// Returns the minor if it holds its number.
fn held(fits: bool, minor: Minor) -> Option<Minor>
    ensures { result ≡ minor_where fits minor }
{
    fits.then_some(minor)
}

/// Returns a title of a length under a major type, or of the indefinite form.
fn with_length(major: u8, width: u32, len: Option<usize>) -> Option<Title>
    ensures { result ≡ length_in major width len }
{
    match len {
        Some(len) => numbered(major, width, len as u64),
        None => open(major, width),
    }
}

/// Returns the title of the minor 31 under a major type, if the width is 0.
fn open(major: u8, width: u32) -> Option<Title>
    ensures { result ≡ open_in major width }
{
    if width == 0 {
        Some(Title {
            major,
            minor: Minor::Open,
        })
    } else {
        None
    }
}
