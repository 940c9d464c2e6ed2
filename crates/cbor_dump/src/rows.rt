//! The rows of a dump, and their text.

ghost use Rattle.std.specs.Prelude.{◌≡◌, ◌+◌, ◌*◌, ◌<◌, ◌≤◌, ◌^◌, ◌++◌, ◌||◌, List, OnErr, OnOk, [], ◌∷◌, None, codes};
ghost use Rattle.std.specs.Prelude.{decimal, length, nat_le, nat_lt, negsuc, if◌then◌else◌};
ghost use Rattle.std.specs.Fmt.{DisplaysOnOk, DisplaysStyledOnOk, WritesOnOk, signed_decimal};
ghost use Rattle.std.specs.Str.{chars};
ghost use Rattle.std.specs.declared.option.Option.{Option};
ghost use Rattle.ciborium_ll_text.specs.Digits.{hex_text};
ghost use Rattle.cbor_dump.specs.declared.rows.TheConstants.{COMMENT, KEY_COLUMNS, STEP};
ghost use Rattle.cbor_dump.specs.Levels.{Line};
ghost use Rattle.cbor_dump.specs.Dumps.{Draws};
ghost use Rattle.cbor_dump.specs.RowTexts.{blank, character_text, characters_text, count_text, digits_text};
ghost use Rattle.cbor_dump.specs.RowTexts.{IsHeaderValue, IsRowText, IsValue, WritesOneOnOk, bare_text};
ghost use Rattle.cbor_dump.specs.RowTexts.{commented_text, header_text, indent, known_text, level_text, more_text};
ghost use Rattle.cbor_dump.specs.RowTexts.{quoted_text, row_text, shown_text, simple_text, tag_text, width_text};
ghost use Rattle.cbor_dump.specs.RowTexts.{within_text, bytes_key, key_columns, key_text};
ghost use Rattle.cbor_dump.specs.RowTexts.{no_key, text_key};

use crate::key::Key;
use crate::numbers::number;
use crate::tags::name_of;
use cbor_escapes::{are_unescaped, is_acted_on, write_shown};
use cbor_floats::float_value;
use ciborium_ll::{Float, Header, simple};
use itoa::Buffer;
use std::fmt;

/// The column of the `#` before a comment.
const COMMENT: usize = 36;

/// How many columns a level takes in an indent: as many as a byte takes, with the space before it.
const STEP: usize = 3;

/// How many levels an indent shows at most.
const MOST_INDENT: usize = 8;

/// How many columns a string that is shown as a key has at most, without its quotes.
const KEY_COLUMNS: usize = 22;

/// The same at a level that no indent shows.
const DEEP_COLUMNS: usize = 12;

/// How many columns fewer it has if its value is a float.
const FLOAT_COLUMNS: usize = 5;

/// A space and two digits for each byte, from 00 to ff.
const DIGITS: &str = " \
    00 01 02 03 04 05 06 07 08 09 0a 0b 0c 0d 0e 0f \
    10 11 12 13 14 15 16 17 18 19 1a 1b 1c 1d 1e 1f \
    20 21 22 23 24 25 26 27 28 29 2a 2b 2c 2d 2e 2f \
    30 31 32 33 34 35 36 37 38 39 3a 3b 3c 3d 3e 3f \
    40 41 42 43 44 45 46 47 48 49 4a 4b 4c 4d 4e 4f \
    50 51 52 53 54 55 56 57 58 59 5a 5b 5c 5d 5e 5f \
    60 61 62 63 64 65 66 67 68 69 6a 6b 6c 6d 6e 6f \
    70 71 72 73 74 75 76 77 78 79 7a 7b 7c 7d 7e 7f \
    80 81 82 83 84 85 86 87 88 89 8a 8b 8c 8d 8e 8f \
    90 91 92 93 94 95 96 97 98 99 9a 9b 9c 9d 9e 9f \
    a0 a1 a2 a3 a4 a5 a6 a7 a8 a9 aa ab ac ad ae af \
    b0 b1 b2 b3 b4 b5 b6 b7 b8 b9 ba bb bc bd be bf \
    c0 c1 c2 c3 c4 c5 c6 c7 c8 c9 ca cb cc cd ce cf \
    d0 d1 d2 d3 d4 d5 d6 d7 d8 d9 da db dc dd de df \
    e0 e1 e2 e3 e4 e5 e6 e7 e8 e9 ea eb ec ed ee ef \
    f0 f1 f2 f3 f4 f5 f6 f7 f8 f9 fa fb fc fd fe ff";

/// As many spaces as a row has before its comment, and then ` # `.
const MARGIN: &str = "                                     # ";

/// The meaning of a row's bytes.
#[derive(Debug, Clone, Copy)]
pub enum Meaning {
    /// They are a title of this header.
    Header(Header),
    /// They are a part of the body of a byte string.
    Bytes,
    /// They are a part of the body of a text string, and whole characters.
    Text,
    /// They were read, and a fault stands within them or follows them.
    Fault,
}

/// The place of a title within the array or the map that contains its item.
#[derive(Debug, Clone, Copy)]
pub enum Within {
    /// No place: the title begins neither an element of an array nor the value of a pair, or the row has no title.
    Nothing,
    /// The title begins the element of this index, counted from 0. An index that is no `usize` is `usize::MAX`.
    Index(usize),
    /// The title begins the value of the pair that has this key.
    Key(Key),
}

/// One row of a dump.
#[derive(Debug, Clone, Copy)]
pub struct Row<'a> {
    /// How many tags, arrays, maps and opens a title stands within. A break that closes one has the level of its title,
    /// and a part of a body stands one level deeper than its string's title.
    pub level: usize,
    /// The offset of the first byte.
    pub offset: usize,
    /// The bytes of the row, in a dump 1 to 16.
    pub bytes: &'a [u8],
    /// The meaning of the bytes.
    pub meaning: Meaning,
    /// The place of the bytes, if they are a title of an element of an array or of a pair's value.
    pub within: Within,
}

/// Takes the rows of a dump, one by one.
pub trait Rows {
    /// Why a row was refused.
    type Error;

    /// All rows so far, if the value exposes them.
    ghost drawn: { Self → Option (List Line) };

    /// Takes the next row.
    ///
    /// # Errors
    ///
    /// Any error refuses the row.
    fn row(&mut self, row: Row<'_>) -> Result<(), Self::Error>
        ensures line { OnOk result (Draws (drawn self.old) (drawn self.new) (record {
          level = row.entry.level;
          offset = row.entry.offset;
          bytes = row.entry.bytes.now;
          meaning = row.entry.meaning;
          within = row.entry.within;
        } ∷ [])) }
        ensures refused { OnErr result (drawn self.new ≡ drawn self.old) };
}

/// Returns this many spaces, and ` # ` after them.
#[inline(always)]
fn spaces_before_hash(count: usize) -> &'static str
    requires { count ≤ COMMENT }
    ensures { result.now ≡ blank count ++ codes " # " }
{
    &MARGIN[COMMENT - count..]
}

/// Returns the two digits of a byte.
#[inline(always)]
fn digits_of(byte: u8) -> &'static str
    ensures { result.now ≡ hex_text byte }
{
    let at = 3 * usize::from(byte) + 1;
    &DIGITS[at..at + 2]
}

/// Returns a space and the two digits of a byte.
#[inline(always)]
fn digits_behind(byte: u8) -> &'static str
    ensures { result.now ≡ 32 ∷ hex_text byte }
{
    let at = 3 * usize::from(byte);
    &DIGITS[at..at + 3]
}

/// Writes the digits of bytes, after a space each.
fn more_digits<W: fmt::Write>(f: &mut fmt::Formatter<W>, bytes: &[u8]) -> fmt::Result
    ensures { WritesOnOk W.Write.write_str_gives f.old result (more_text bytes.now) f.new }
{
    'bytes: for byte in bytes {
        f.write_str(digits_behind(*byte))?;
    }
    Ok(())
}

/// Writes an indent of this many levels.
fn write_indent<W: fmt::Write>(f: &mut fmt::Formatter<W>, levels: usize) -> fmt::Result
    ensures { WritesOnOk W.Write.write_str_gives f.old result (blank (STEP * levels)) f.new }
{
    'levels: for _level in 0..levels {
        f.write_str("   ")?;
    }
    Ok(())
}

/// Writes an indent of this many levels, bytes as digits with spaces between them, and a text after them.
fn digits<W: fmt::Write>(
    f: &mut fmt::Formatter<W>,
    levels: usize,
    bytes: &[u8],
    end: &str,
) -> fmt::Result
    ensures { WritesOnOk W.Write.write_str_gives f.old result
        (blank (STEP * levels) ++ (digits_text bytes.now ++ end.now)) f.new }
{
    write_indent(f, levels)?;
    if let [first, rest @ ..] = bytes {
        f.write_str(digits_of(*first))?;
        more_digits(f, rest)?;
    }
    f.write_str(end)
}

/// Writes a number.
fn decimal<W: fmt::Write>(f: &mut fmt::Formatter<W>, number: u64) -> fmt::Result
    ensures { WritesOnOk W.Write.write_str_gives f.old result (decimal number) f.new }
{
    f.write_str(Buffer::new().format(number))
}

/// Writes a length or a count after the name of what it counts, or `*` for the indefinite form.
fn counted<W: fmt::Write>(f: &mut fmt::Formatter<W>, name: &str, len: Option<usize>) -> fmt::Result
    ensures { WritesOnOk W.Write.write_str_gives f.old result (name.now ++ count_text len) f.new }
{
    f.write_str(name)?;
    match len {
        Some(len) => decimal(f, len as u64),
        None => f.write_str("*"),
    }
}

/// Writes the integer -1 - `number`.
fn negative<W: fmt::Write>(f: &mut fmt::Formatter<W>, number: u64) -> fmt::Result
    ensures { WritesOnOk W.Write.write_str_gives f.old result (signed_decimal (negsuc number)) f.new }
{
    f.write_str(Buffer::new().format(-1 - i128::from(number)))
}

/// Writes a simple value (RFC 7049, 2.3).
fn simple<W: fmt::Write>(f: &mut fmt::Formatter<W>, number: u8) -> fmt::Result
    ensures { WritesOnOk W.Write.write_str_gives f.old result (simple_text number) f.new }
{
    match number {
        simple::FALSE => f.write_str("false"),
        simple::TRUE => f.write_str("true"),
        simple::NULL => f.write_str("null"),
        simple::UNDEFINED => f.write_str("undefined"),
        _ => {
            f.write_str("simple ")?;
            decimal(f, u64::from(number))
        }
    }
}

/// Writes the name of a float's width, before its value.
fn float<W: fmt::Write>(f: &mut fmt::Formatter<W>, value: Float) -> fmt::Result
    ensures { WritesOnOk W.Write.write_str_gives f.old result (width_text value) f.new }
{
    match value {
        Float::Half(_) => f.write_str("half "),
        Float::Single(_) => f.write_str("single "),
        Float::Double(_) => f.write_str("double "),
    }
}

/// Writes a tag by its number, and by its name if it is a common one.
fn tag<W: fmt::Write>(f: &mut fmt::Formatter<W>, number: u64) -> fmt::Result
    ensures { WritesOnOk W.Write.write_str_gives f.old result (tag_text number) f.new }
{
    f.write_str("tag ")?;
    decimal(f, number)?;
    match name_of(number) {
        Some(name) => write!(f, " ({name})"),
        None => Ok(()),
    }
}

/// Writes a header: its kind, and its value, length or count.
fn header<W: fmt::Write>(f: &mut fmt::Formatter<W>, header: Header) -> fmt::Result
    ensures { WritesOnOk W.Write.write_str_gives f.old result (header_text header) f.new }
{
    match header {
        Header::Positive(number) => decimal(f, number),
        Header::Negative(number) => negative(f, number),
        Header::Float(value) => float(f, value),
        Header::Simple(number) => simple(f, number),
        Header::Tag(number) => tag(f, number),
        Header::Break => f.write_str("break"),
        Header::Bytes(len) => counted(f, "bytes ", len),
        Header::Text(len) => counted(f, "text ", len),
        Header::Array(len) => counted(f, "array ", len),
        Header::Map(len) => counted(f, "map ", len),
    }
}

/// Writes a character of a text between quotes. A character that a terminal acts on is escaped.
fn character<W: fmt::Write>(f: &mut fmt::Formatter<W>, c: char) -> fmt::Result
    ensures { WritesOnOk W.Write.write_str_gives f.old result (character_text c) f.new }
{
    match c {
        '"' => f.write_str("\\\""),
        '\\' => f.write_str("\\\\"),
        '\n' => f.write_str("\\n"),
        '\r' => f.write_str("\\r"),
        '\t' => f.write_str("\\t"),
        _ => write_shown(f, c),
    }
}

/// Returns the text that these bytes are, or an empty text if they are no UTF-8.
fn text_of(bytes: &[u8]) -> &str
    ensures { result.now ≡ shown_text bytes.now }
{
    str::from_utf8(bytes).unwrap_or("")
}

/// Writes a text between quotes.
fn quoted<W: fmt::Write>(f: &mut fmt::Formatter<W>, text: &str) -> fmt::Result
    ensures { WritesOnOk W.Write.write_str_gives f.old result (quoted_text text.now) f.new }
{
    f.write_str("\"")?;
    characters(f, text)?;
    f.write_str("\"")
}

/// Writes the characters of a text between its quotes.
fn characters<W: fmt::Write>(f: &mut fmt::Formatter<W>, text: &str) -> fmt::Result
    ensures { WritesOnOk W.Write.write_str_gives f.old result (characters_text (chars text.now)) f.new }
{
    if are_unescaped(text.as_bytes()) {
        return f.write_str(text);
    }
    'characters: for c in text.chars() {
        character(f, c)?;
    }
    Ok(())
}

/// Returns how many levels an indent shows.
fn shown_levels(level: usize) -> usize
    ensures { STEP * result ≡ indent level }
{
    level.min(MOST_INDENT)
}

/// Writes the bytes of a row that has no comment, indented by its level.
fn bare<W: fmt::Write>(f: &mut fmt::Formatter<W>, level: usize, bytes: &[u8]) -> fmt::Result
    ensures { WritesOnOk W.Write.write_str_gives f.old result (bare_text level bytes.now) f.new }
{
    digits(f, shown_levels(level), bytes, "")
}

/// Writes the bytes of a row, and the `#` before its comment.
///
/// The bytes are indented by the level. If that leaves no room for them before the comment, they begin further left.
fn commented<W: fmt::Write>(f: &mut fmt::Formatter<W>, level: usize, bytes: &[u8]) -> fmt::Result
    ensures { WritesOnOk W.Write.write_str_gives f.old result (commented_text level bytes.now) f.new }
{
    let room = (COMMENT / STEP).saturating_sub(bytes.len());
    let levels = shown_levels(level).min(room);
    digits(f, levels, bytes, spaces_before_hash(STEP * (room - levels)))
}

/// Writes the level of a title that an indent can't show.
fn deep<W: fmt::Write>(f: &mut fmt::Formatter<W>, level: usize) -> fmt::Result
    ensures { WritesOnOk W.Write.write_str_gives f.old result (level_text level) f.new }
{
    if level <= MOST_INDENT {
        return Ok(());
    }
    f.write_str("level ")?;
    decimal(f, level as u64)?;
    f.write_str(" ")
}

/// Returns how many columns a string that is shown as a key has at most, without its quotes.
fn key_columns(level: usize, header: Header) -> usize
    ensures most { result ≤ KEY_COLUMNS }
    ensures value { result ≡ key_columns level header }
{
    let columns = if level > MOST_INDENT {
        DEEP_COLUMNS
    } else {
        KEY_COLUMNS
    };
    match header {
        Header::Float(_) => columns - FLOAT_COLUMNS,
        _ => columns,
    }
}

/// Returns how many bytes a character between quotes has.
fn character_len(c: char) -> usize
    ensures { result ≡ length (character_text c) }
{
    match c {
        '"' | '\\' | '\n' | '\r' | '\t' => 2,
        _ if is_acted_on(u32::from(c)) => 6,
        _ => c.len_utf8(),
    }
}

/// Returns whether the characters of a text have at most `most` bytes between quotes.
fn has_columns(text: &str, most: usize) -> bool
    requires few { most ≤ KEY_COLUMNS }
    ensures { result ≡ nat_le (length (characters_text (chars text.now))) most }
{
    let mut len = 0usize;
    'characters: for c in text.chars() {
        len = len.saturating_add(character_len(c));
    }
    len <= most
}

/// Writes a text between quotes as it is, if the columns have room for it.
fn bare_key<W: fmt::Write>(f: &mut fmt::Formatter<W>, text: &str, most: usize) -> fmt::Result
    ensures { WritesOnOk W.Write.write_str_gives f.old result
        (if nat_le (length text.now) most then 34 ∷ (text.now ++ 34 ∷ []) else no_key) f.new }
{
    if text.len() > most {
        return f.write_str("..");
    }
    f.write_str("\"")?;
    f.write_str(text)?;
    f.write_str("\"")
}

/// Writes the text of a key, if the columns have room for it.
fn text_key<W: fmt::Write>(f: &mut fmt::Formatter<W>, bytes: &[u8], most: usize) -> fmt::Result
    requires few { most ≤ KEY_COLUMNS }
    ensures { WritesOnOk W.Write.write_str_gives f.old result (text_key most bytes.now) f.new }
{
    let text = text_of(bytes);
    if are_unescaped(text.as_bytes()) {
        return bare_key(f, text, most);
    }
    if !has_columns(text, most) {
        return f.write_str("..");
    }
    quoted(f, text)
}

/// Writes the digits of a key, if the columns have room for them.
fn bytes_key<W: fmt::Write>(f: &mut fmt::Formatter<W>, bytes: &[u8], most: usize) -> fmt::Result
    ensures { WritesOnOk W.Write.write_str_gives f.old result (bytes_key most bytes.now) f.new }
{
    if bytes.len() > most / 3 {
        return f.write_str("..");
    }
    f.write_str("h'")?;
    digits(f, 0, bytes, "'")
}

/// Returns whether the columns have room for an integer of this number.
fn has_number(number: u64, most: usize) -> bool
    ensures { result ≡ (nat_lt 19 most || nat_lt number (10 ^ most)) }
{
    most > 19 || number < 10u64.pow(most as u32)
}

/// Writes a key, or two points if the columns have no room for it.
fn named<W: fmt::Write>(f: &mut fmt::Formatter<W>, key: &Key, most: usize) -> fmt::Result
    requires few { most ≤ KEY_COLUMNS }
    ensures { WritesOnOk W.Write.write_str_gives f.old result (key_text most key.now) f.new }
{
    match key {
        Key::Positive(number) if has_number(*number, most) => decimal(f, *number),
        Key::Negative(number) if has_number(*number, most) => negative(f, *number),
        Key::Text(body) => text_key(f, body.bytes(), most),
        Key::Bytes(body) => bytes_key(f, body.bytes(), most),
        Key::Positive(_) | Key::Negative(_) | Key::Other => f.write_str(".."),
    }
}

/// Writes an index in brackets, and a space.
fn numbered<W: fmt::Write>(f: &mut fmt::Formatter<W>, index: usize) -> fmt::Result
    ensures { WritesOnOk W.Write.write_str_gives f.old result (codes "[" ++ (decimal index ++ codes "] ")) f.new }
{
    f.write_str("[")?;
    decimal(f, index as u64)?;
    f.write_str("] ")
}

/// Writes the place of a title, if it has one.
fn place<W: fmt::Write>(f: &mut fmt::Formatter<W>, within: &Within, most: usize) -> fmt::Result
    requires few { most ≤ KEY_COLUMNS }
    ensures { WritesOnOk W.Write.write_str_gives f.old result (within_text most within.now) f.new }
{
    match within {
        Within::Nothing => Ok(()),
        Within::Index(index) => numbered(f, *index),
        Within::Key(key) => {
            f.write_str("{")?;
            named(f, key, most)?;
            f.write_str("} ")
        }
    }
}

/// Writes a row without the value of a float.
fn front<W: fmt::Write>(f: &mut fmt::Formatter<W>, row: &Row<'_>) -> fmt::Result
    ensures { WritesOnOk W.Write.write_str_gives f.old result (row_text row.now) f.new }
{
    match row.meaning {
        Meaning::Header(title) => {
            commented(f, row.level, row.bytes)?;
            deep(f, row.level)?;
            place(f, &row.within, key_columns(row.level, title))?;
            header(f, title)
        }
        Meaning::Text => {
            commented(f, row.level, row.bytes)?;
            quoted(f, text_of(row.bytes))
        }
        Meaning::Bytes | Meaning::Fault => bare(f, row.level, row.bytes),
    }
}

/// Writes the value of a float after its width. After any other header the call writes nothing.
fn header_value<W: fmt::Write>(f: &mut fmt::Formatter<W>, header: Header) -> fmt::Result
    ensures { WritesOneOnOk W.Write.write_str_gives f.old result (IsHeaderValue header) f.new }
{
    match header {
        Header::Float(value) => number(f, float_value(value)),
        _ => Ok(()),
    }
}

/// Writes the value of a float after its width. After any other meaning the call writes nothing.
fn value<W: fmt::Write>(f: &mut fmt::Formatter<W>, meaning: Meaning) -> fmt::Result
    ensures { WritesOneOnOk W.Write.write_str_gives f.old result (IsValue meaning) f.new }
{
    match meaning {
        Meaning::Header(header) => header_value(f, header),
        Meaning::Text | Meaning::Bytes | Meaning::Fault => Ok(()),
    }
}

impl fmt::Display for Row<'_> {
    ghost output = { known_text };

    /// Writes the bytes as digits, indented by the level, and after a `#` their meaning. Parts of byte strings and
    /// bytes at fault have no `#`.
    ///
    /// The `#` stands in column 36. An indent shows at most 8 levels, and a title that is deeper has its level after the
    /// `#`. The place of a title follows: `[0]` for an index, and `{"alg"}`, `{h'01 02'}` or `{1}` for a key. Tests
    /// alone say that a row of a dump has at most 91 columns.
    ///
    /// A key is `{..}` if it is another item, or if the row has no room for it. There is room for every integer and for
    /// a text of at most 22 columns between its quotes. The row of a float has room for 5 columns less, and a deeper
    /// title for 10 less. Then an integer of at most as many digits is shown. A byte string takes 3 columns a byte.
    fn fmt<W: fmt::Write>(&self, f: &mut fmt::Formatter<W>) -> fmt::Result
        ensures writes { DisplaysOnOk W.Write.write_str_gives f.old result (known_text self.now) f.new }
        ensures styled { DisplaysStyledOnOk W.Write.write_str_gives f.old result None f.new }
        ensures text { WritesOneOnOk W.Write.write_str_gives f.old result (IsRowText self.now) f.new }
    {
        front(f, self)?;
        value(f, self.meaning)
    }
}
