//! Values that are written as strings.

ghost use Rattle.std.specs.Prelude.{IfOk};
ghost use Rattle.ciborium_ll_grammar.specs.Strings.{Bytes as byte_strings, Text as text_strings};
ghost use Rattle.tool_answers.specs.Value.{IsValueSpelling};

use ciborium_ll_encoder::enc::Encoder;
use ciborium_ll_streams::{OutOfMemory, VecWriter};
use std::alloc::{AllocError, Global};
use tool_requests::answer::word_line;
use tool_requests::request::Limited;

/// Answers `bytes`: the spelling of a byte string under a limit.
pub fn bytes(alloc: Global, asked: &Limited, sink: &mut String) -> Result<(), AllocError> {
    let spelling = spell_bytes(alloc, asked.bytes.as_slice(), asked.limit)?;
    word_line(alloc, spelling.as_slice(), sink)
}

/// Answers `text`: the spelling of a text string under a limit, if the bytes are text.
pub fn text(alloc: Global, asked: &Limited, sink: &mut String) -> Result<(), AllocError> {
    let Ok(value) = std::str::from_utf8(asked.bytes.as_slice()) else {
        return sink.push_str("error: text\n");
    };
    let spelling = spell_text(alloc, value, asked.limit)?;
    word_line(alloc, spelling.as_slice(), sink)
}

/// Returns the spelling of a byte string, in segments within the limit. The error says that there is no memory for it.
fn spell_bytes(alloc: Global, value: &[u8], limit: Option<usize>) -> Result<Vec<u8>, OutOfMemory>
    ensures { IfOk result (λ bytes. IsValueSpelling byte_strings limit value.now bytes.items) }
{
    let mut encoder = Encoder::from(VecWriter::new(alloc));
    encoder.bytes(value, limit)?;
    Ok(encoder.into_inner().into_vec())
}

/// Returns the spelling of a text string, in segments within the limit. The error says that there is no memory for it.
fn spell_text(alloc: Global, value: &str, limit: Option<usize>) -> Result<Vec<u8>, OutOfMemory>
    ensures { IfOk result (λ bytes. IsValueSpelling text_strings limit value.now bytes.items) }
{
    let mut encoder = Encoder::from(VecWriter::new(alloc));
    encoder.text(value, limit)?;
    Ok(encoder.into_inner().into_vec())
}
