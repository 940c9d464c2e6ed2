//! Titles that are told.

use ciborium_ll_decoder::dec::{Decoder, Error};
use ciborium_ll_grammar::hdr::{Float, Header};
use ciborium_ll_io::io::{EndOfFile, SliceReader};
use std::alloc::AllocError;
use tool_requests::answer::{Last, Value, last_line, title_line};

/// Answers `heads`: a line for each title, and one for the end of the titles.
pub fn heads(bytes: &[u8], sink: &mut String) -> Result<(), AllocError> {
    let mut decoder = Decoder::from(SliceReader::new(bytes));
    // Each title takes a byte, and the call after the last title fails.
    for _ in 0..=bytes.len() {
        let offset = decoder.offset();
        match decoder.pull() {
            Ok(header) => title_line(offset, name_of(header), value_of(header), sink)?,
            Err(error) => return last_line(describe_end(error, offset, decoder.offset()), sink),
        }
    }
    Ok(())
}

/// Returns the end of the titles: the error of a pull that began at one offset and ended at another.
fn describe_end(error: Error<EndOfFile>, began: usize, offset: usize) -> Last {
    match error {
        Error::Syntax(place) => Last::Syntax(place),
        Error::Io(_) if offset == began => Last::End(offset),
        Error::Io(_) => Last::Short(offset),
        Error::TooLong | Error::Waiting => Last::Room,
    }
}

/// Returns the name of a header, with a star if its length is indefinite.
fn name_of(header: Header) -> &'static str {
    match header {
        Header::Positive(_) => "positive",
        Header::Negative(_) => "negative",
        Header::Float(Float::Half(_)) => "half",
        Header::Float(Float::Single(_)) => "single",
        Header::Float(Float::Double(_)) => "double",
        Header::Simple(_) => "simple",
        Header::Tag(_) => "tag",
        Header::Break => "break",
        Header::Bytes(Some(_)) => "bytes",
        Header::Bytes(None) => "bytes *",
        Header::Text(Some(_)) => "text",
        Header::Text(None) => "text *",
        Header::Array(Some(_)) => "array",
        Header::Array(None) => "array *",
        Header::Map(Some(_)) => "map",
        Header::Map(None) => "map *",
    }
}

/// Returns the value after the name of a header: its number, the bits of a float, or nothing.
fn value_of(header: Header) -> Value {
    match header {
        Header::Positive(n) | Header::Negative(n) | Header::Tag(n) => Value::Number(n),
        Header::Float(Float::Half(bits)) => Value::Bits(u64::from(bits), 4),
        Header::Float(Float::Single(bits)) => Value::Bits(u64::from(bits), 8),
        Header::Float(Float::Double(bits)) => Value::Bits(bits, 16),
        Header::Simple(n) => Value::Number(u64::from(n)),
        Header::Bytes(Some(length))
        | Header::Text(Some(length))
        | Header::Array(Some(length))
        | Header::Map(Some(length)) => Value::Number(length as u64),
        _ => Value::Nothing,
    }
}
