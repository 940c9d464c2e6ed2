//! The encoder.

ghost use Rattle.std.specs.Prelude.{◌≡◌};
ghost use Rattle.ciborium_ll_grammar.specs.Parts.{IsParts, title_bytes};
ghost use Rattle.ciborium_ll_encoder.specs.Encoding.{EncoderPush, WritesTitle, writer_of};

mod values;

use ciborium_ll_grammar::hdr::{Header, Minor, Title, shortest};
use ciborium_ll_io::io::Write;

/// Writes headers, each as its shortest title, and values of bytes and of text. As a writer, it passes bodies on.
///
/// If a call fails, the writer failed once, after a beginning of the call's bytes. Any room that the writer tells was
/// too small for them. No call takes the writer off its slice.
#[derive(Drop)]
pub struct Encoder<W> {
    writer: W,
}

impl<W: Write> From<W> for Encoder<W> {
    ghost from_gives = { λ writer encoder. writer_of encoder ≡ writer };

    /// Returns an encoder that appends to the bytes written.
    fn from(writer: W) -> Encoder<W> {
        Encoder { writer }
    }
}

impl<W: Write> Write for Encoder<W> {
    type Error = W::Error;

    ghost written = { λ encoder. W.written encoder.writer };

    ghost room = { λ encoder. W.room encoder.writer };

    ghost failures = { λ encoder. W.failures encoder.writer };

    ghost flushed = { λ old new. W.flushed old.writer new.writer };

    ghost target = { λ encoder. W.target encoder.writer };

    /// Appends the bytes of a body.
    ///
    /// # Errors
    ///
    /// - `W::Error`: the writer failed.
    fn write_all(&mut self, data: &[u8]) -> Result<(), W::Error> {
        self.writer.write_all(data)
    }

    /// Flushes the writer.
    ///
    /// # Errors
    ///
    /// - `W::Error`: the writer failed.
    fn flush(&mut self) -> Result<(), W::Error> {
        self.writer.flush()
    }
}

impl<W: Write> Encoder<W> {
    /// Returns the writer.
    pub fn into_inner(self) -> W
        ensures { result ≡ writer_of self }
    {
        self.writer
    }

    /// Writes the shortest title of a header (RFC 7049, 3.9), as its first byte and its affix.
    ///
    /// # Errors
    ///
    /// - `W::Error`: the writer failed.
    #[inline(always)]
    pub fn push(&mut self, header: Header) -> Result<(), W::Error>
        ensures { EncoderPush W.Write header (writer_of self.old) result (writer_of self.new) }
    {
        push_title(self, shortest(header))
    }
}

/// Writes a title, as its first byte and its affix.
///
/// # Errors
///
/// - `W::Error`: the writer failed, with a beginning of the title written.
#[inline(always)]
pub fn push_title<W: Write>(encoder: &mut Encoder<W>, title: Title) -> Result<(), W::Error>
    requires { IsParts title }
    ensures { WritesTitle W.Write (title_bytes title) (writer_of encoder.old) result (writer_of encoder.new) }
{
    let first = title.first_byte();
    let writer = &mut encoder.writer;
    match title.minor {
        Minor::Small(_) | Minor::Open => writer.write_pair(first, &[]),
        Minor::One(n) => writer.write_pair(first, &(n as u8).to_be_bytes()),
        Minor::Two(n) => writer.write_pair(first, &(n as u16).to_be_bytes()),
        Minor::Four(n) => writer.write_pair(first, &(n as u32).to_be_bytes()),
        Minor::Eight(n) => writer.write_pair(first, &n.to_be_bytes()),
    }
}
