//! A table of first bytes (RFC 7049, 2.1 to 2.3).

ghost use Rattle.std.specs.Prelude.{ℕ, ◌≡◌, ◌+◌, ◌<◌, ◌%◌, slice_index};
ghost use Rattle.ciborium_ll_grammar.specs.Title.{affix_len};
ghost use Rattle.ciborium_ll_grammar.specs.TitleRows.{IsAffix, IsRow};
ghost use Rattle.ciborium_ll_grammar.specs.declared.hdr.table.TheConstants.{NO_NUMBER};

/// The meaning of a title without its number (RFC 7049, 2.1).
#[derive(Clone, Copy)]
pub enum TitleKind {
    /// An unsigned integer: the major type 0.
    Positive,
    /// A negative integer: the major type 1.
    Negative,
    /// A byte string: the major type 2.
    Bytes,
    /// A text string: the major type 3.
    Text,
    /// An array: the major type 4.
    Array,
    /// A map: the major type 5.
    Map,
    /// A tag: the major type 6.
    Tag,
    /// A simple value, a float or the break: the major type 7.
    Other,
    /// No title begins with this first byte.
    Refused,
}

/// The place of a title's number (RFC 7049, 2.1).
#[derive(Clone, Copy)]
pub enum Affix {
    /// In the lower five bits of the first byte.
    Within,
    /// In one byte after the first.
    One,
    /// In two bytes after the first.
    Two,
    /// In four bytes after the first.
    Four,
    /// In eight bytes after the first.
    Eight,
    /// No number: an indefinite form or a break.
    Open,
    /// No number: the minors 28 to 30 are reserved.
    Reserved,
}

/// The number of bytes of the affix for each variant of [`Affix`]. A look-up takes no branch.
const AFFIX_LENS: [usize; 7] = [0, 1, 2, 4, 8, 0, 0];

/// The entry of [`FORMS`] for a title without a number.
pub(crate) const NO_NUMBER: u8 = 64;

/// The form of a title, by the lower five bits of its first byte (RFC 7049, 2.1).
///
/// Two lines have the title's length in bytes. Two more say how many of the 64 bits after the first byte follow the
/// affix, or that there is no number. All stand in one table, so that a loop needs one address for them.
#[rattlefmt::skip]
static FORMS: [u8; 64] = [
    1, 1, 1, 1, 1, 1, 1, 1, 1, 1, 1, 1, 1, 1, 1, 1,
    1, 1, 1, 1, 1, 1, 1, 1, 2, 3, 5, 9, 1, 1, 1, 1,
    0, 0, 0, 0, 0, 0, 0, 0, 0, 0, 0, 0, 0, 0, 0, 0,
    0, 0, 0, 0, 0, 0, 0, 0, 56, 48, 32, 0, 64, 64, 64, 64,
];

/// Returns the length of a title, in bytes, for each value of the lower five bits of its first byte (RFC 7049, 2.1).
#[inline(always)]
pub fn title_lens() -> &'static [u8; 32]
    ensures { (minor : ℕ) → minor < 32 → slice_index result.now minor ≡ 1 + affix_len minor }
{
    match FORMS.first_chunk::<32>() {
        Some(lens) => lens,
        None => unreachable!(),
    }
}

/// Returns how many of the 64 bits after a first byte follow the affix, or [`NO_NUMBER`].
#[inline(always)]
pub(crate) fn shift_of(first: u8) -> u8
    ensures small { first % 32 < 24 → result ≡ 0 }
    ensures one { first % 32 ≡ 24 → result ≡ 56 }
    ensures two { first % 32 ≡ 25 → result ≡ 48 }
    ensures four { first % 32 ≡ 26 → result ≡ 32 }
    ensures eight { first % 32 ≡ 27 → result ≡ 0 }
    ensures none { 27 < first % 32 → result ≡ NO_NUMBER }
{
    FORMS[32 + usize::from(first % 32)]
}

impl Affix {
    /// Returns the affix's length, in bytes.
    #[inline(always)]
    pub fn len(self) -> usize
        ensures { (minor : ℕ) → IsAffix self minor → result ≡ affix_len minor }
    {
        AFFIX_LENS[self as usize]
    }
}

/// The table's entry for one first byte.
#[derive(Clone, Copy)]
pub struct Row {
    /// The meaning of a title with this first byte, or `Refused`.
    pub kind: TitleKind,
    /// The place of the title's number.
    pub affix: Affix,
}

macro_rules! row {
    ($kind:ident, $affix:ident) => {
        Row {
            kind: TitleKind::$kind,
            affix: Affix::$affix,
        }
    };
}

// Each row has a name from its kind and the length of its affix.
const POSITIVE: Row = row!(Positive, Within);

const POSITIVE_1: Row = row!(Positive, One);

const POSITIVE_2: Row = row!(Positive, Two);

const POSITIVE_4: Row = row!(Positive, Four);

const POSITIVE_8: Row = row!(Positive, Eight);

const NEGATIVE: Row = row!(Negative, Within);

const NEGATIVE_1: Row = row!(Negative, One);

const NEGATIVE_2: Row = row!(Negative, Two);

const NEGATIVE_4: Row = row!(Negative, Four);

const NEGATIVE_8: Row = row!(Negative, Eight);

const BYTES: Row = row!(Bytes, Within);

const BYTES_1: Row = row!(Bytes, One);

const BYTES_2: Row = row!(Bytes, Two);

const BYTES_4: Row = row!(Bytes, Four);

const BYTES_8: Row = row!(Bytes, Eight);

const BYTES_OPEN: Row = row!(Bytes, Open);

const TEXT: Row = row!(Text, Within);

const TEXT_1: Row = row!(Text, One);

const TEXT_2: Row = row!(Text, Two);

const TEXT_4: Row = row!(Text, Four);

const TEXT_8: Row = row!(Text, Eight);

const TEXT_OPEN: Row = row!(Text, Open);

const ARRAY: Row = row!(Array, Within);

const ARRAY_1: Row = row!(Array, One);

const ARRAY_2: Row = row!(Array, Two);

const ARRAY_4: Row = row!(Array, Four);

const ARRAY_8: Row = row!(Array, Eight);

const ARRAY_OPEN: Row = row!(Array, Open);

const MAP: Row = row!(Map, Within);

const MAP_1: Row = row!(Map, One);

const MAP_2: Row = row!(Map, Two);

const MAP_4: Row = row!(Map, Four);

const MAP_8: Row = row!(Map, Eight);

const MAP_OPEN: Row = row!(Map, Open);

const TAG: Row = row!(Tag, Within);

const TAG_1: Row = row!(Tag, One);

const TAG_2: Row = row!(Tag, Two);

const TAG_4: Row = row!(Tag, Four);

const TAG_8: Row = row!(Tag, Eight);

const OTHER: Row = row!(Other, Within);

const OTHER_1: Row = row!(Other, One);

const OTHER_2: Row = row!(Other, Two);

const OTHER_4: Row = row!(Other, Four);

const OTHER_8: Row = row!(Other, Eight);

const OTHER_OPEN: Row = row!(Other, Open);

const RESERVED: Row = row!(Refused, Reserved);
/// The minor 31 under a major type that has no indefinite form.
const NEVER_OPEN: Row = row!(Refused, Open);

/// A row for each first byte. Each major type has four lines of eight rows.
#[rattlefmt::skip]
static ROWS: [Row; 256] = [
    // unsigned integers
    POSITIVE, POSITIVE, POSITIVE, POSITIVE, POSITIVE, POSITIVE, POSITIVE, POSITIVE,
    POSITIVE, POSITIVE, POSITIVE, POSITIVE, POSITIVE, POSITIVE, POSITIVE, POSITIVE,
    POSITIVE, POSITIVE, POSITIVE, POSITIVE, POSITIVE, POSITIVE, POSITIVE, POSITIVE,
    POSITIVE_1, POSITIVE_2, POSITIVE_4, POSITIVE_8, RESERVED, RESERVED, RESERVED, NEVER_OPEN,
    // negative integers
    NEGATIVE, NEGATIVE, NEGATIVE, NEGATIVE, NEGATIVE, NEGATIVE, NEGATIVE, NEGATIVE,
    NEGATIVE, NEGATIVE, NEGATIVE, NEGATIVE, NEGATIVE, NEGATIVE, NEGATIVE, NEGATIVE,
    NEGATIVE, NEGATIVE, NEGATIVE, NEGATIVE, NEGATIVE, NEGATIVE, NEGATIVE, NEGATIVE,
    NEGATIVE_1, NEGATIVE_2, NEGATIVE_4, NEGATIVE_8, RESERVED, RESERVED, RESERVED, NEVER_OPEN,
    // byte strings
    BYTES, BYTES, BYTES, BYTES, BYTES, BYTES, BYTES, BYTES,
    BYTES, BYTES, BYTES, BYTES, BYTES, BYTES, BYTES, BYTES,
    BYTES, BYTES, BYTES, BYTES, BYTES, BYTES, BYTES, BYTES,
    BYTES_1, BYTES_2, BYTES_4, BYTES_8, RESERVED, RESERVED, RESERVED, BYTES_OPEN,
    // text strings
    TEXT, TEXT, TEXT, TEXT, TEXT, TEXT, TEXT, TEXT,
    TEXT, TEXT, TEXT, TEXT, TEXT, TEXT, TEXT, TEXT,
    TEXT, TEXT, TEXT, TEXT, TEXT, TEXT, TEXT, TEXT,
    TEXT_1, TEXT_2, TEXT_4, TEXT_8, RESERVED, RESERVED, RESERVED, TEXT_OPEN,
    // arrays
    ARRAY, ARRAY, ARRAY, ARRAY, ARRAY, ARRAY, ARRAY, ARRAY,
    ARRAY, ARRAY, ARRAY, ARRAY, ARRAY, ARRAY, ARRAY, ARRAY,
    ARRAY, ARRAY, ARRAY, ARRAY, ARRAY, ARRAY, ARRAY, ARRAY,
    ARRAY_1, ARRAY_2, ARRAY_4, ARRAY_8, RESERVED, RESERVED, RESERVED, ARRAY_OPEN,
    // maps
    MAP, MAP, MAP, MAP, MAP, MAP, MAP, MAP,
    MAP, MAP, MAP, MAP, MAP, MAP, MAP, MAP,
    MAP, MAP, MAP, MAP, MAP, MAP, MAP, MAP,
    MAP_1, MAP_2, MAP_4, MAP_8, RESERVED, RESERVED, RESERVED, MAP_OPEN,
    // tags
    TAG, TAG, TAG, TAG, TAG, TAG, TAG, TAG,
    TAG, TAG, TAG, TAG, TAG, TAG, TAG, TAG,
    TAG, TAG, TAG, TAG, TAG, TAG, TAG, TAG,
    TAG_1, TAG_2, TAG_4, TAG_8, RESERVED, RESERVED, RESERVED, NEVER_OPEN,
    // simple values, floats and the break
    OTHER, OTHER, OTHER, OTHER, OTHER, OTHER, OTHER, OTHER,
    OTHER, OTHER, OTHER, OTHER, OTHER, OTHER, OTHER, OTHER,
    OTHER, OTHER, OTHER, OTHER, OTHER, OTHER, OTHER, OTHER,
    OTHER_1, OTHER_2, OTHER_4, OTHER_8, RESERVED, RESERVED, RESERVED, OTHER_OPEN,
];

/// Returns the row of a first byte.
#[inline(always)]
pub fn row_of(first: u8) -> Row
    ensures { IsRow first result }
{
    ROWS[first as usize]
}
