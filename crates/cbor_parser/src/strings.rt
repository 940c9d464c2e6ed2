//! The strings of indefinite length that are open, and which titles may stand within them (RFC 7049, 2.2.2).

ghost use Rattle.std.specs.Prelude.{◌≡◌, ◌<◌, ◌≤◌, ◌+◌, IfSome, Some, true};
ghost use Rattle.cbor_parser.specs.Strings.{blocks, closed, open_count, piece_within, within_after, within_in};
ghost use Rattle.cbor_parser.specs.Strings.{within_open};
ghost use Rattle.cbor_parser.specs.declared.strings.Within.TheVariants as w;

use ciborium_ll_grammar::hdr::Header;
use ciborium_ll_grammar::hdr::table::TitleKind;
use ciborium_ll_grammar::spelling::Spelling;

/// The two kinds of string (RFC 7049, 2.1).
#[derive(Clone, Copy)]
pub enum StringKind {
    /// Byte strings.
    Bytes,
    /// Texts.
    Text,
}

/// The strings of indefinite length that are open.
#[derive(Clone, Copy)]
pub enum Within {
    /// No string.
    Nothing,
    /// A string of this kind, and this many strings within it.
    Open(StringKind, usize),
}

/// Returns the strings that are open after the break of the innermost of `more + 1` strings of a kind.
#[inline(always)]
fn closed(kind: StringKind, more: usize) -> Within
    ensures is { result ≡ closed kind more }
    ensures counted { open_count result ≤ more }
{
    if more == 0 {
        Within::Nothing
    } else {
        Within::Open(kind, more - 1)
    }
}

/// Returns the strings that are open after the title of a string of this length within `more + 1` strings of its kind.
///
/// For `Shortest` no string of indefinite length may stand there: then the call returns `None`.
#[inline(always)]
fn piece_within(
    spelling: Spelling,
    kind: StringKind,
    more: usize,
    len: Option<usize>,
) -> Option<Within>
    requires { more < usize.MAX }
    ensures is { result ≡ piece_within spelling kind more len }
    ensures counted { IfSome result (λ within. open_count within ≤ more + 2) }
{
    match (len, spelling) {
        (Some(_), _) => Some(Within::Open(kind, more)),
        (None, Spelling::Any) => Some(Within::Open(kind, more + 1)),
        (None, Spelling::Shortest) => None,
    }
}

/// Returns the strings that are open after a title within `more + 1` strings of a kind, or `None` if it may not stand
/// there.
#[inline(always)]
fn within_open(spelling: Spelling, kind: StringKind, more: usize, header: Header) -> Option<Within>
    requires { more < usize.MAX }
    ensures is { result ≡ within_open spelling kind more header }
    ensures counted { IfSome result (λ within. open_count within ≤ more + 2) }
{
    match (kind, header) {
        (StringKind::Bytes, Header::Bytes(len)) | (StringKind::Text, Header::Text(len)) => {
            piece_within(spelling, kind, more, len)
        }
        (_, Header::Break) => Some(closed(kind, more)),
        _ => None,
    }
}

/// Returns the numbers of `more + 1` open strings of a kind, apart from the path without any.
#[inline(never)]
fn open_numbers(kind: StringKind, more: usize) -> (u8, usize)
    ensures { within_in result.0 result.1 ≡ Some (w.Open kind more) }
{
    match kind {
        StringKind::Bytes => (1, more),
        StringKind::Text => (2, more),
    }
}

impl Within {
    /// Returns the strings that are open after a title of this header, or `None` if it may not stand here. If the
    /// spelling is `Shortest`, no string of indefinite length may stand within another one.
    ///
    /// After `5f` the title `41` leaves one byte string open, `ff` leaves none, and `61` may not stand there.
    #[inline(always)]
    pub fn after(self, spelling: Spelling, header: Header) -> Option<Within>
        requires { open_count self ≤ usize.MAX }
        ensures is { result ≡ within_after spelling self header }
        ensures counted { IfSome result (λ within. open_count within ≤ open_count self + 1) }
    {
        match self {
            Within::Nothing => match header {
                Header::Bytes(None) => Some(Within::Open(StringKind::Bytes, 0)),
                Header::Text(None) => Some(Within::Open(StringKind::Text, 0)),
                _ => Some(Within::Nothing),
            },
            Within::Open(kind, more) => within_open(spelling, kind, more, header),
        }
    }

    /// Returns whether no title of this kind, of two or more bytes, may stand here.
    ///
    /// A break has one byte: after `5f`, `78` is blocked, and so is the kind of `ff`.
    #[inline(always)]
    pub fn blocks(self, kind: TitleKind) -> bool
        ensures { result ≡ blocks self kind }
    {
        match (self, kind) {
            (Within::Nothing, _)
            | (Within::Open(StringKind::Bytes, _), TitleKind::Bytes)
            | (Within::Open(StringKind::Text, _), TitleKind::Text) => false,
            _ => true,
        }
    }

    /// Returns the number of the kind, and how many strings are open within the first.
    #[inline(always)]
    pub fn numbers(self) -> (u8, usize)
        ensures { within_in result.0 result.1 ≡ Some self }
    {
        match self {
            Within::Nothing => (0, 0),
            Within::Open(kind, more) => open_numbers(kind, more),
        }
    }

    /// Returns the open strings with these numbers, or `None` if there are no such strings.
    #[inline(always)]
    pub fn of(kind: u8, more: usize) -> Option<Within>
        ensures { result ≡ within_in kind more }
    {
        match kind {
            0 => Some(Within::Nothing),
            1 => Some(Within::Open(StringKind::Bytes, more)),
            2 => Some(Within::Open(StringKind::Text, more)),
            _ => None,
        }
    }

    /// Returns whether at least as many bytes came as strings are open.
    #[inline(always)]
    pub fn is_counted(self, offset: usize) -> bool
        ensures yes { result ≡ true → open_count self ≤ offset }
        ensures no { open_count self ≤ offset → result ≡ true }
    {
        match self {
            Within::Nothing => true,
            Within::Open(_, more) => more < offset,
        }
    }
}
