//! Strings.

ghost use Rattle.std.specs.Prelude.{◌≡◌, ◌<◌, ◌≤◌, ◌+◌, ◌^◌, ℕ, true, IfErr, IfOk, OnOk, List, length, drop};
ghost use Rattle.ciborium_ll_text.specs.Text.{IsCharacters, IsFront};
ghost use Rattle.ciborium_ll_grammar.specs.Strings.{kind_header};
ghost use Rattle.ciborium_ll_grammar.specs.Items.{IsItem};
ghost use Rattle.cbor_encode.specs.Adding.{Adds};
ghost use Rattle.cbor_encode.specs.Chunks.{AreWithin, HasChunks};
ghost use Rattle.cbor_encode.specs.Left.{IsWithin, left_of};
ghost use Rattle.cbor_encode.specs.Scalars.{kind_of};

use crate::Expected;
use crate::cursor::{Cursor, Stop};
use crate::heads::{Form, put, put_chunk, put_whole, take_form};
use crate::quoted::{read_base64, read_hex, read_quoted};
use ciborium_ll_grammar::hdr::Header;
use ciborium_ll_grammar::spelling::Spelling;
use ciborium_ll_text::state::{State, text_front};
use std::alloc::Global;

/// The body of a string.
#[derive(Drop)]
pub(crate) struct Body {
    pub(crate) is_text: bool,
    pub(crate) bytes: Vec<u8>,
}

/// Returns how many bytes at the start are the longest text in UTF-8.
pub(crate) fn text_len(bytes: &[u8]) -> usize
    ensures within { result ≤ length bytes.now }
    ensures whole { result ≡ length bytes.now → IsCharacters bytes.now }
    ensures front { (front : List ℕ) × IsFront bytes.now front (drop (length front) bytes.now)
        × (result ≡ length front) }
{
    text_front(bytes, 0, State::Between).0.len()
}

/// Returns the header of a string of this length, or of the indefinite form.
fn string_header(is_text: bool, len: Option<usize>) -> Header
    ensures { result ≡ kind_header (kind_of is_text) len }
{
    if is_text {
        Header::Text(len)
    } else {
        Header::Bytes(len)
    }
}

/// Returns whether a string begins here. Otherwise no string does.
pub(crate) fn begins_string(cursor: &Cursor<'_>) -> bool {
    cursor.starts_with(b"\"")
        || cursor.starts_with(b"'")
        || cursor.starts_with(b"h'")
        || cursor.starts_with(b"b64'")
        || cursor.starts_with(b"b64u'")
}

/// Reads the quotes of a byte string and what they contain.
fn read_bytes(cursor: &mut Cursor<'_>, alloc: Global) -> Result<Vec<u8>, Stop>
    ensures shorter { OnOk result (left_of cursor.new < left_of cursor.old) }
    ensures within { left_of cursor.new ≤ left_of cursor.old }
    ensures place { IfErr result (IsWithin (left_of cursor.old)) }
{
    if cursor.take(b'\'') {
        return read_quoted(cursor, b'\'', alloc);
    }
    if cursor.take_word(b"h'") {
        return read_hex(cursor, alloc);
    }
    if cursor.take_word(b"b64'") {
        return read_base64(cursor, false, alloc);
    }
    if cursor.take_word(b"b64u'") {
        return read_base64(cursor, true, alloc);
    }
    Err(cursor.fault(Expected::Chunk))
}

/// Reads the quotes of a string and what they contain.
fn read_body(cursor: &mut Cursor<'_>, alloc: Global) -> Result<Body, Stop>
    ensures text { IfOk result (λ body. body.is_text ≡ true → IsCharacters body.bytes.items) }
    ensures shorter { OnOk result (left_of cursor.new < left_of cursor.old) }
    ensures within { left_of cursor.new ≤ left_of cursor.old }
    ensures place { IfErr result (IsWithin (left_of cursor.old)) }
{
    let stop = cursor.fault(Expected::Text);
    if !cursor.take(b'"') {
        let bytes = read_bytes(cursor, alloc)?;
        return Ok(Body {
            is_text: false,
            bytes,
        });
    }
    let bytes = read_quoted(cursor, b'"', alloc)?;
    if text_len(bytes.as_slice()) != bytes.len() {
        return Err(stop);
    }
    Ok(Body {
        is_text: true,
        bytes,
    })
}

/// Encodes a string with its own quotes.
pub(crate) fn put_string(
    cursor: &mut Cursor<'_>,
    out: &mut Vec<u8>,
    alloc: Global,
    spelling: Spelling,
) -> Result<(), Stop>
    ensures wrote { OnOk result ((depth : ℕ) → Adds (IsItem spelling depth) out.old.items out.new.items) }
    ensures shorter { OnOk result (left_of cursor.new < left_of cursor.old) }
    ensures within { left_of cursor.new ≤ left_of cursor.old }
    ensures place { IfErr result (IsWithin (left_of cursor.old)) }
{
    let left = cursor.left();
    let body = read_body(cursor, alloc)?;
    let bytes = body.bytes.as_slice();
    let form = take_form(cursor);
    if !form.is_open() {
        let header = string_header(body.is_text, Some(bytes.len()));
        return put_whole(out, header, form.mark(), bytes, spelling, left);
    }
    if !bytes.is_empty() {
        return Err(Stop {
            expected: Expected::Mark,
            left,
        });
    }
    let header = string_header(body.is_text, None);
    put_whole(out, header, None, &[0xff], spelling, left)
}

/// Encodes a string of indefinite length by the strings in its parentheses.
pub(crate) fn put_chunks(
    cursor: &mut Cursor<'_>,
    out: &mut Vec<u8>,
    alloc: Global,
    spelling: Spelling,
) -> Result<(), Stop>
    ensures wrote { OnOk result ((depth : ℕ) → Adds (IsItem spelling depth) out.old.items out.new.items) }
    ensures shorter { OnOk result (left_of cursor.new < left_of cursor.old) }
    ensures within { left_of cursor.new ≤ left_of cursor.old }
    ensures place { IfErr result (IsWithin (left_of cursor.old)) }
{
    let left = cursor.left();
    if !cursor.take_word(b"(_") {
        return Err(cursor.fault(Expected::Item));
    }
    cursor.skip_space()?;
    let is_text = begins_text(cursor)?;
    let mut strings = read_chunks(cursor, is_text, alloc, spelling)?;
    put(&mut strings, &[0xff], left)?;
    let header = string_header(is_text, None);
    put_whole(out, header, None, strings.as_slice(), spelling, left)
}

/// Returns whether the first string that begins here or after further opens is a text.
fn begins_text(cursor: &Cursor<'_>) -> Result<bool, Stop>
    ensures { IfErr result (IsWithin (left_of cursor.now)) }
{
    let mut ahead = Cursor { rest: cursor.rest };
    'opens: while ahead.take_word(b"(_") {
        ahead.skip_space()?;
    }
    if begins_string(&ahead) {
        Ok(ahead.starts_with(b"\""))
    } else {
        Err(ahead.fault(Expected::Chunk))
    }
}

/// Encodes strings of one kind, up to the parenthesis that closes them.
fn read_chunks(
    cursor: &mut Cursor<'_>,
    is_text: bool,
    alloc: Global,
    spelling: Spelling,
) -> Result<Vec<u8>, Stop>
    ensures chunks { IfOk result (λ strings. HasChunks spelling (kind_of is_text) strings.items) }
    ensures within { left_of cursor.new ≤ left_of cursor.old }
    ensures place { IfErr result (IsWithin (left_of cursor.old)) }
{
    let mut strings = Vec::new(alloc);
    let mut opens = 1;
    'chunks: while opens > 0 {
        opens = put_opens(cursor, &mut strings, opens, is_text, spelling)?;
        put_string_within(cursor, &mut strings, is_text, alloc, spelling)?;
        cursor.end_item(b")")?;
        opens = close_opens(cursor, &mut strings, opens, is_text, spelling)?;
    }
    Ok(strings)
}

/// Encodes the opens that stand here, within this many opens that are not closed. Returns how many there are then.
fn put_opens(
    cursor: &mut Cursor<'_>,
    strings: &mut Vec<u8>,
    opens: usize,
    is_text: bool,
    spelling: Spelling,
) -> Result<usize, Stop>
    requires some { 0 < opens }
    requires counted { opens + left_of cursor.old < 2 ^ 64 }
    requires chunks { AreWithin spelling (kind_of is_text) opens strings.old.items }
    ensures chunks { IfOk result (λ after. AreWithin spelling (kind_of is_text) after strings.new.items) }
    ensures some { IfOk result (λ after. 0 < after) }
    ensures counted { IfOk result (λ after. after + left_of cursor.new ≤ opens + left_of cursor.old) }
    ensures within { left_of cursor.new ≤ left_of cursor.old }
    ensures place { IfErr result (IsWithin (left_of cursor.old)) }
{
    let mut opens = opens;
    'opens: while !spelling.is_shortest() && cursor.take_word(b"(_") {
        let open = string_header(is_text, None);
        put_chunk(strings, open, None, &[], spelling, cursor.left())?;
        opens += 1;
        cursor.skip_space()?;
    }
    Ok(opens)
}

/// Encodes a string with its own quotes within a string of indefinite length.
fn put_string_within(
    cursor: &mut Cursor<'_>,
    strings: &mut Vec<u8>,
    is_text: bool,
    alloc: Global,
    spelling: Spelling,
) -> Result<(), Stop>
    ensures chunks { OnOk result ((opens : ℕ) → 0 < opens
        → AreWithin spelling (kind_of is_text) opens strings.old.items
        → AreWithin spelling (kind_of is_text) opens strings.new.items) }
    ensures shorter { OnOk result (left_of cursor.new < left_of cursor.old) }
    ensures within { left_of cursor.new ≤ left_of cursor.old }
    ensures place { IfErr result (IsWithin (left_of cursor.old)) }
{
    let stop = cursor.fault(Expected::Chunk);
    let body = read_body(cursor, alloc)?;
    let form = take_form(cursor);
    if body.is_text != is_text {
        return Err(stop);
    }
    let bytes = body.bytes.as_slice();
    if !form.is_open() {
        let header = string_header(is_text, Some(bytes.len()));
        return put_chunk(strings, header, form.mark(), bytes, spelling, stop.left);
    }
    if spelling.is_shortest() || !bytes.is_empty() {
        return Err(stop);
    }
    let open = string_header(is_text, None);
    put_chunk(strings, open, None, &[0xff], spelling, stop.left)
}

/// Encodes the breaks of the parentheses that close here, without the last one of the string. Returns how many opens
/// are not closed then.
fn close_opens(
    cursor: &mut Cursor<'_>,
    strings: &mut Vec<u8>,
    opens: usize,
    is_text: bool,
    spelling: Spelling,
) -> Result<usize, Stop>
    requires chunks { AreWithin spelling (kind_of is_text) opens strings.old.items }
    ensures chunks { IfOk result (λ opens. AreWithin spelling (kind_of is_text) opens strings.new.items) }
    ensures fewer { IfOk result (λ after. after ≤ opens) }
    ensures within { left_of cursor.new ≤ left_of cursor.old }
    ensures place { IfErr result (IsWithin (left_of cursor.old)) }
{
    let mut opens = opens;
    'ends: while opens > 1 && cursor.take(b')') {
        put(strings, &[0xff], cursor.left())?;
        opens -= 1;
        cursor.end_item(b")")?;
    }
    if opens == 1 && cursor.take(b')') {
        return Ok(0);
    }
    Ok(opens)
}
