//! How an item is written, by what contains it.

ghost use Rattle.std.specs.Prelude.{◌≡◌};
ghost use Rattle.cbor_json.specs.Roles.{first_role, has_json, has_value, item_role, plain_base, tag_base};
ghost use Rattle.cbor_json.specs.StringTexts.{IsQuotesOf, string_opening, string_quotes};
ghost use Rattle.ciborium_ll.specs.Strings.{Bytes as byte_strings};

use cbor_diag::strings::quotes::Quotes;
use cbor_floats::float_value;
use ciborium_ll::{Header, simple};

/// What is written for items that JSON has no form for.
#[derive(Clone, Copy, Debug, PartialEq, Eq)]
pub enum Mode {
    /// They are faults, so the text has all that the item said.
    Strict,
    /// They are replaced as RFC 8949, section 6.1, advises.
    Lossy,
}

/// How a byte string is written.
#[derive(Clone, Copy)]
pub(crate) enum Base {
    /// By base64url without padding (RFC 4648, section 5).
    Url,
    /// As a negative bignum: by base64url, after a `~`.
    Negative,
    /// By base64 with padding (RFC 4648, section 4).
    Standard,
    /// By base16 in upper case (RFC 4648, section 8).
    Sixteen,
}

/// How an item is written, by what contains it.
#[derive(Clone, Copy)]
pub(crate) struct Role {
    pub(crate) mode: Mode,
    pub(crate) is_key: bool,
    pub(crate) base: Base,
}

impl Role {
    /// Returns the role of an item that nothing contains.
    pub(crate) fn first(mode: Mode) -> Role
        ensures { result ≡ first_role mode }
    {
        Role {
            mode,
            is_key: false,
            base: Base::Url,
        }
    }

    /// Returns the role of an item within a tag, an array or a map of this role. `is_value` says that it is the value
    /// of a pair.
    pub(crate) fn within(self, header: Header, is_value: bool) -> Role
        ensures { result ≡ item_role self header is_value }
    {
        let Role { mode, is_key, base } = self;
        match header {
            Header::Tag(number) => Role {
                mode,
                is_key,
                base: base.tagged(number),
            },
            Header::Map(_) => Role {
                mode,
                is_key: !is_value,
                base: base.plain(),
            },
            _ => Role {
                mode,
                is_key: false,
                base: base.plain(),
            },
        }
    }

    /// Returns whether an item of this role and header has JSON.
    pub(crate) fn has_json(self, header: Header) -> bool
        ensures { result ≡ has_json self header }
    {
        match header {
            Header::Break => false,
            Header::Text(_) => true,
            Header::Array(_) | Header::Map(_) => !self.is_key,
            Header::Bytes(_) | Header::Tag(_) => self.mode == Mode::Lossy,
            Header::Positive(_) | Header::Negative(_) => self.mode == Mode::Lossy || !self.is_key,
            Header::Float(_) | Header::Simple(_) => {
                !self.is_key && (self.mode == Mode::Lossy || has_value(header))
            }
        }
    }
}

/// Returns whether JSON has a value for a float or a simple value.
fn has_value(header: Header) -> bool
    ensures { result ≡ has_value header }
{
    match header {
        Header::Float(float) => float_value(float).is_finite(),
        Header::Simple(number) => matches!(number, simple::FALSE | simple::TRUE | simple::NULL),
        _ => false,
    }
}

impl Base {
    /// Returns how byte strings within a tag are written.
    fn tagged(self, number: u64) -> Base
        ensures { result ≡ tag_base self number }
    {
        match number {
            2 | 21 => Base::Url,
            3 => Base::Negative,
            22 => Base::Standard,
            23 => Base::Sixteen,
            _ => self.plain(),
        }
    }

    /// Returns the text before the content of a byte string.
    pub(crate) fn opening(self) -> &'static [u8]
        ensures { result.now ≡ string_opening byte_strings self }
    {
        match self {
            Base::Negative => b"\"~",
            _ => b"\"",
        }
    }

    /// Returns how the content of a byte string is written.
    pub(crate) fn quotes(self) -> Quotes
        ensures is { result ≡ string_quotes byte_strings self }
        ensures fits { IsQuotesOf byte_strings result }
    {
        match self {
            Base::Url | Base::Negative => Quotes::Base64Url,
            Base::Standard => Quotes::Base64,
            Base::Sixteen => Quotes::Base16,
        }
    }

    /// Returns how byte strings are written that are no content of a bignum's tag.
    fn plain(self) -> Base
        ensures { result ≡ plain_base self }
    {
        match self {
            Base::Negative => Base::Url,
            base => base,
        }
    }
}
