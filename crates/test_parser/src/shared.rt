// What a parser found in bytes that are cut into pieces, as a line.

use cbor_parser::{Event, Parser};
use ciborium_ll_grammar::hdr::Header;
use ciborium_ll_grammar::spelling::Spelling;
use std::alloc::{AllocError, Global};
use std::process::Abort;

// As many bytes as a row has at most.
pub const MOST: usize = 64;

// Each cut of as many bytes is one bit of a mask. Longer rows repeat the cuts of these bytes.
const CUTS: usize = 10;

// What was looked at holds. The message says what that is.
pub fn holds(rt: &impl Abort, is_right: bool, what: &str) {
    assert!(rt; is_right, "{what}");
}

// Adds bytes in digits.
pub fn add_bytes(text: &mut String, bytes: &[u8]) -> Result<(), AllocError> {
    for byte in bytes {
        write!(text, "{:02x}", *byte)?;
    }
    Ok(())
}

// Adds a comma between two parts.
fn add_comma(text: &mut String) -> Result<(), AllocError> {
    if text.is_empty() {
        return Ok(());
    }
    text.push_str(", ")
}

// Adds a header with its offset.
fn add_header(text: &mut String, offset: usize, header: Header) -> Result<(), AllocError> {
    add_comma(text)?;
    write!(text, "{offset} {header:?}")
}

// Adds a part of a body, and a blank before the first part.
fn add_body(text: &mut String, carried: &[u8], part: &[u8]) -> Result<(), AllocError> {
    if text.as_str().ends_with(")") {
        text.push_str(" ")?;
    }
    add_bytes(text, carried)?;
    add_bytes(text, part)
}

// Adds what an event says of the bytes that were taken.
fn add_event(text: &mut String, event: &Event, part: &[u8]) -> Result<(), AllocError> {
    match event {
        Event::Need(_) => Ok(()),
        Event::Header { header, offset } => add_header(text, *offset, *header),
        Event::Close { offset } => {
            add_comma(text)?;
            write!(text, "{} Close", *offset)
        }
        Event::Body { left: _ } => add_body(text, &[], part),
        Event::Text { carried, left: _ } => add_body(text, carried.bytes(), part),
        Event::Fault(_) | Event::TooLong => Ok(()),
    }
}

// Pushes a piece, and adds its events.
fn add_piece(text: &mut String, parser: &mut Parser, piece: &[u8]) -> Result<(), AllocError> {
    let mut rest = piece;
    for _ in 0..piece.len() {
        let pushed = parser.push(rest);
        let Some((part, others)) = rest.split_at_checked(pushed.taken) else {
            return text.push_str(" more than the piece");
        };
        add_event(text, &pushed.event, part)?;
        rest = others;
    }
    Ok(())
}

// Pushes a piece to the parser, or to a parser that is restored from its numbers, and adds its events.
fn add_cut(
    text: &mut String,
    parser: &mut Parser,
    piece: &[u8],
    is_saved: bool,
) -> Result<(), AllocError> {
    if !is_saved {
        return add_piece(text, parser, piece);
    }
    match Parser::restore(parser.save()) {
        Some(other) => {
            *parser = other;
            add_piece(text, parser, piece)
        }
        None => text.push_str(" not restored"),
    }
}

// Adds the answer to an empty piece: a fault, how many bytes are due, or nothing if the bytes may end.
fn add_end(text: &mut String, parser: &mut Parser) -> Result<(), AllocError> {
    let is_between = parser.is_between();
    let (word, number) = match parser.push(&[]).event {
        Event::Fault(place) => ("fault", place),
        Event::Need(_) if is_between => return Ok(()),
        Event::Need(due) => ("due", due),
        _ => ("no answer", 0),
    };
    add_comma(text)?;
    write!(text, "{word} {number}")
}

// The tokens of bytes, with their offsets, and how they end. A bit of the mask says if the bytes are cut before a byte.
// The first bit says if the parser is saved and restored at each cut.
fn parsed(alloc: Global, bytes: &[u8], strict: bool, mask: u32) -> Result<String, AllocError> {
    let mut text = String::new(alloc);
    let mut parser = Parser::with_spelling(Spelling::shortest_if(strict));
    let mut start = 0;
    let is_saved = mask & 1 == 1;
    for at in 0..bytes.len() {
        if (mask >> (at % CUTS)) & 1 == 1
            && let Some(piece) = bytes.get(start..at)
        {
            add_cut(&mut text, &mut parser, piece, is_saved)?;
            start = at;
        }
    }
    if let Some(piece) = bytes.get(start..) {
        add_cut(&mut text, &mut parser, piece, is_saved)?;
    }
    add_end(&mut text, &mut parser)?;
    Ok(text)
}

// Whether the bytes are parsed so in each cut.
fn is_parsed(alloc: Global, bytes: &[u8], strict: bool, want: &str) -> bool {
    for mask in 0..1 << CUTS {
        let is_so = match parsed(alloc, bytes, strict, mask) {
            Ok(text) => text.as_str() == want,
            Err(_) => false,
        };
        if !is_so {
            return false;
        }
    }
    true
}

// The bytes that digits say.
pub fn decoded<'a>(digits: &str, space: &'a mut [u8; MOST]) -> Option<&'a [u8]> {
    let len = (digits.len() / 2).min(MOST);
    let bytes = &mut space[..len];
    match hex::decode_to_slice(digits, bytes) {
        Ok(()) => Some(bytes),
        Err(_) => None,
    }
}

// Whether the bytes that the digits say are parsed so in each cut.
pub fn is_row(alloc: Global, digits: &str, strict: bool, want: &str) -> bool {
    let mut space = [0; MOST];
    match decoded(digits, &mut space) {
        Some(bytes) => is_parsed(alloc, bytes, strict, want),
        None => false,
    }
}
