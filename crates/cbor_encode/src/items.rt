//! Items, and what tags, arrays and maps contain.

ghost use Rattle.std.specs.Prelude.{◌<◌, ◌≤◌, ◌*◌, ℕ, IfErr, IfOk, OnOk, length};
ghost use Rattle.ciborium_ll_grammar.specs.Items.{AreItems, IsItem};
ghost use Rattle.cbor_encode.specs.Adding.{Adds};
ghost use Rattle.cbor_encode.specs.Left.{IsWithin, left_of};
ghost use Rattle.cbor_encode.specs.Scalars.{IsScalar};

use crate::Expected;
use crate::cursor::{Cursor, Stop};
use crate::heads::{put, put_whole, take_form};
use crate::numbers::{Number, read_number};
use crate::strings::{begins_string, put_chunks, put_string};
use crate::words::read_word;
use ciborium_ll_grammar::hdr::Header;
use ciborium_ll_grammar::spelling::Spelling;
use std::alloc::Global;

/// The rules for the whole text.
#[derive(Clone, Copy)]
pub(crate) struct Rules {
    pub(crate) alloc: Global,
    /// The titles that the bytes may have.
    pub(crate) spelling: Spelling,
}

/// The encodings of items, joined, and how many items or pairs they are.
#[derive(Drop)]
struct Contents {
    bytes: Vec<u8>,
    count: usize,
}

/// Encodes one item.
#[cycle(items)]
pub(crate) fn put_item(
    cursor: &mut Cursor<'_>,
    out: &mut Vec<u8>,
    depth: usize,
    rules: Rules,
) -> Result<(), Stop>
    ensures wrote { OnOk result (Adds (IsItem rules.spelling depth) out.old.items out.new.items) }
    ensures shorter { OnOk result (left_of cursor.new < left_of cursor.old) }
    ensures within { left_of cursor.new ≤ left_of cursor.old }
    ensures place { IfErr result (IsWithin (left_of cursor.old)) }
{
    match cursor.peek() {
        Some(b'[') => put_array(cursor, out, depth, rules),
        Some(b'{') => put_map(cursor, out, depth, rules),
        Some(b'<') => put_embedded(cursor, out, depth, rules),
        Some(b'0'..=b'9' | b'-') => put_number(cursor, out, depth, rules),
        Some(b'(') => put_chunks(cursor, out, rules.alloc, rules.spelling),
        _ => put_plain(cursor, out, rules),
    }
}

/// Encodes a string or a named value.
fn put_plain(cursor: &mut Cursor<'_>, out: &mut Vec<u8>, rules: Rules) -> Result<(), Stop>
    ensures wrote { OnOk result ((depth : ℕ) → Adds (IsItem rules.spelling depth) out.old.items
        out.new.items) }
    ensures shorter { OnOk result (left_of cursor.new < left_of cursor.old) }
    ensures within { left_of cursor.new ≤ left_of cursor.old }
    ensures place { IfErr result (IsWithin (left_of cursor.old)) }
{
    if begins_string(cursor) {
        return put_string(cursor, out, rules.alloc, rules.spelling);
    }
    let left = cursor.left();
    let number = read_word(cursor)?;
    put_scalar(out, number, rules, left)
}

/// Adds an integer, a float or a simple value. From it on, `left` bytes of the text are left.
fn put_scalar(out: &mut Vec<u8>, number: Number, rules: Rules, left: usize) -> Result<(), Stop>
    requires scalar { IsScalar number.header number.mark }
    ensures wrote { OnOk result ((depth : ℕ) → Adds (IsItem rules.spelling depth) out.old.items
        out.new.items) }
    ensures place { IfErr result (IsWithin left) }
{
    put_whole(out, number.header, number.mark, &[], rules.spelling, left)
}

/// Encodes an integer, a float or a tag.
#[cycle(items)]
fn put_number(
    cursor: &mut Cursor<'_>,
    out: &mut Vec<u8>,
    depth: usize,
    rules: Rules,
) -> Result<(), Stop>
    ensures wrote { OnOk result (Adds (IsItem rules.spelling depth) out.old.items out.new.items) }
    ensures shorter { OnOk result (left_of cursor.new < left_of cursor.old) }
    ensures within { left_of cursor.new ≤ left_of cursor.old }
    ensures place { IfErr result (IsWithin (left_of cursor.old)) }
{
    let left = cursor.left();
    let number = read_number(cursor)?;
    let Header::Positive(tag) = number.header else {
        return put_scalar(out, number, rules, left);
    };
    if !cursor.take(b'(') {
        return put_scalar(out, number, rules, left);
    }
    if depth == 0 {
        return Err(Stop {
            expected: Expected::Level,
            left,
        });
    }
    let item = read_tagged(cursor, depth - 1, rules)?;
    put_whole(
        out,
        Header::Tag(tag),
        number.mark,
        item.as_slice(),
        rules.spelling,
        left,
    )
}

/// Encodes the item of a tag, up to the closing parenthesis.
#[cycle(items)]
fn read_tagged(cursor: &mut Cursor<'_>, depth: usize, rules: Rules) -> Result<Vec<u8>, Stop>
    ensures item { IfOk result (λ bytes. IsItem rules.spelling depth bytes.items) }
    ensures within { left_of cursor.new ≤ left_of cursor.old }
    ensures place { IfErr result (IsWithin (left_of cursor.old)) }
{
    let mut item = Vec::new(rules.alloc);
    cursor.skip_space()?;
    put_item(cursor, &mut item, depth, rules)?;
    cursor.skip_space()?;
    cursor.expect(b')', Expected::Parenthesis)?;
    Ok(item)
}

/// Encodes an array.
#[cycle(items)]
fn put_array(
    cursor: &mut Cursor<'_>,
    out: &mut Vec<u8>,
    depth: usize,
    rules: Rules,
) -> Result<(), Stop>
    ensures wrote { OnOk result (Adds (IsItem rules.spelling depth) out.old.items out.new.items) }
    ensures shorter { OnOk result (left_of cursor.new < left_of cursor.old) }
    ensures within { left_of cursor.new ≤ left_of cursor.old }
    ensures place { IfErr result (IsWithin (left_of cursor.old)) }
{
    let left = cursor.left();
    if depth == 0 {
        return Err(cursor.fault(Expected::Level));
    }
    if !cursor.take(b'[') {
        return Err(cursor.fault(Expected::Item));
    }
    let form = take_form(cursor);
    let mut items = read_items(cursor, b"]", depth - 1, rules)?;
    if form.is_open() {
        put(&mut items.bytes, &[0xff], left)?;
        let bytes = items.bytes.as_slice();
        return put_whole(out, Header::Array(None), None, bytes, rules.spelling, left);
    }
    put_whole(
        out,
        Header::Array(Some(items.count)),
        form.mark(),
        items.bytes.as_slice(),
        rules.spelling,
        left,
    )
}

/// Encodes a map.
#[cycle(items)]
fn put_map(
    cursor: &mut Cursor<'_>,
    out: &mut Vec<u8>,
    depth: usize,
    rules: Rules,
) -> Result<(), Stop>
    ensures wrote { OnOk result (Adds (IsItem rules.spelling depth) out.old.items out.new.items) }
    ensures shorter { OnOk result (left_of cursor.new < left_of cursor.old) }
    ensures within { left_of cursor.new ≤ left_of cursor.old }
    ensures place { IfErr result (IsWithin (left_of cursor.old)) }
{
    let left = cursor.left();
    if depth == 0 {
        return Err(cursor.fault(Expected::Level));
    }
    if !cursor.take(b'{') {
        return Err(cursor.fault(Expected::Item));
    }
    let form = take_form(cursor);
    let mut pairs = read_pairs(cursor, depth - 1, rules)?;
    if form.is_open() {
        put(&mut pairs.bytes, &[0xff], left)?;
        let bytes = pairs.bytes.as_slice();
        return put_whole(out, Header::Map(None), None, bytes, rules.spelling, left);
    }
    put_whole(
        out,
        Header::Map(Some(pairs.count)),
        form.mark(),
        pairs.bytes.as_slice(),
        rules.spelling,
        left,
    )
}

/// Encodes a byte string by the items that it contains.
#[cycle(items)]
fn put_embedded(
    cursor: &mut Cursor<'_>,
    out: &mut Vec<u8>,
    depth: usize,
    rules: Rules,
) -> Result<(), Stop>
    ensures wrote { OnOk result (Adds (IsItem rules.spelling depth) out.old.items out.new.items) }
    ensures shorter { OnOk result (left_of cursor.new < left_of cursor.old) }
    ensures within { left_of cursor.new ≤ left_of cursor.old }
    ensures place { IfErr result (IsWithin (left_of cursor.old)) }
{
    let left = cursor.left();
    if depth == 0 {
        return Err(cursor.fault(Expected::Level));
    }
    if !cursor.take_word(b"<<") {
        return Err(cursor.fault(Expected::Item));
    }
    let items = read_items(cursor, b">>", depth - 1, rules)?;
    let form = take_form(cursor);
    if form.is_open() {
        return Err(Stop {
            expected: Expected::Mark,
            left,
        });
    }
    let bytes = items.bytes.as_slice();
    let header = Header::Bytes(Some(bytes.len()));
    put_whole(out, header, form.mark(), bytes, rules.spelling, left)
}

/// Encodes items up to this closing bracket.
#[cycle(items)]
fn read_items(
    cursor: &mut Cursor<'_>,
    close: &[u8],
    depth: usize,
    rules: Rules,
) -> Result<Contents, Stop>
    requires some { 0 < length close.now }
    ensures items { IfOk result (λ items. AreItems rules.spelling depth items.count items.bytes.items) }
    ensures within { left_of cursor.new ≤ left_of cursor.old }
    ensures place { IfErr result (IsWithin (left_of cursor.old)) }
{
    let mut bytes = Vec::new(rules.alloc);
    let mut count = 0;
    cursor.skip_space()?;
    'items: while !cursor.take_word(close) {
        put_item(cursor, &mut bytes, depth, rules)?;
        count += 1;
        cursor.end_item(close)?;
    }
    Ok(Contents { bytes, count })
}

/// Encodes pairs of a key and a value up to the closing brace.
#[cycle(items)]
fn read_pairs(cursor: &mut Cursor<'_>, depth: usize, rules: Rules) -> Result<Contents, Stop>
    ensures pairs { IfOk result (λ pairs. AreItems rules.spelling depth (2 * pairs.count)
        pairs.bytes.items) }
    ensures within { left_of cursor.new ≤ left_of cursor.old }
    ensures place { IfErr result (IsWithin (left_of cursor.old)) }
{
    let mut bytes = Vec::new(rules.alloc);
    let mut count = 0;
    cursor.skip_space()?;
    'pairs: while !cursor.take(b'}') {
        put_item(cursor, &mut bytes, depth, rules)?;
        cursor.skip_space()?;
        cursor.expect(b':', Expected::Colon)?;
        cursor.skip_space()?;
        put_item(cursor, &mut bytes, depth, rules)?;
        count += 1;
        cursor.end_item(b"}")?;
    }
    Ok(Contents { bytes, count })
}
