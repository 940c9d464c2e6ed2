//! Values of bytes and of text, in pieces of limited length.

ghost use Rattle.std.specs.Prelude.{◌≡◌, max, unwrap_or, ◌<◌, ◌≤◌, ◌+◌, ◌++◌, ◌↔◌, ℕ, Option, length, IsTrue, OnOk};
ghost use Rattle.std.specs.Str.{IsCharBoundary};
ghost use Rattle.ciborium_ll_grammar.specs.Title.{shortest_title};
ghost use Rattle.ciborium_ll_grammar.specs.Strings.{Bytes, Text};
ghost use Rattle.ciborium_ll_text.specs.Text.{IsTail};
ghost use Rattle.ciborium_ll_grammar.specs.Values.{value_limit};
ghost use Rattle.ciborium_ll_grammar.specs.declared.limits.TheConstants.{LEAST_BUFFER, MOST_KEPT};
ghost use Rattle.ciborium_ll_encoder.specs.Encoding.{WritesBytes, WritesPieces, WritesString, WritesValue, WritesFewest, writer_of};

use crate::enc::Encoder;
use ciborium_ll_grammar::hdr::Header;
use ciborium_ll_io::io::Write;

/// Returns the requested limit, or `len` if there is none, and at least `least`.
#[inline(always)]
fn limit(segment: Option<usize>, len: usize, least: usize) -> usize
    ensures { result ≡ max least (unwrap_or segment len) }
{
    segment.unwrap_or(len).max(least)
}

impl<W: Write> Encoder<W> {
    /// Writes a byte string (RFC 7049, 2.1) in segments of `segment` bytes (2.2.2), the last with the remainder.
    ///
    /// A limit of 0 counts as 1. With `None`, or if the value fits the limit, the string has a definite length.
    ///
    /// # Errors
    ///
    /// - `W::Error`: the writer failed.
    #[tactic(auto, using(crate::proofs::Writes::values))]
    pub fn bytes(&mut self, value: &[u8], segment: Option<usize>) -> Result<(), W::Error>
        ensures { WritesString W.Write Bytes segment value.now (writer_of self.old) result (writer_of self.new) }
    {
        let limit = limit(segment, value.len(), 1);
        if value.len() <= limit {
            return self.string(Header::Bytes(Some(value.len())), value);
        }
        self.push(Header::Bytes(None))?;
        self.byte_pieces(value, limit)?;
        self.push(Header::Break)
    }

    /// Writes a text string (RFC 7049, 2.1) in segments of at most `segment` bytes (2.2.2).
    ///
    /// A limit below 4 counts as 4, the length of the longest character. With `None`, or if the value fits the limit,
    /// the string has a definite length. Otherwise each segment is a text, as long as the limit allows without a cut
    /// character. No fewer segments fit the limit.
    ///
    /// # Errors
    ///
    /// - `W::Error`: the writer failed.
    ///
    /// # Examples
    ///
    /// ```rust
    /// encoder.text(entry.key, None)?;
    /// encoder.text(entry.value, None)
    /// ```
    pub fn text(&mut self, value: &str, segment: Option<usize>) -> Result<(), W::Error>
        ensures written { WritesString W.Write Text segment value.now (writer_of self.old) result
            (writer_of self.new) }
        ensures fewest { OnOk result (0 < length value.now
            → WritesFewest W.Write (value_limit Text segment value.now) value.now (writer_of self.old)
            (writer_of self.new)) }
    {
        let limit = limit(segment, value.len(), 4);
        if value.len() <= limit {
            return self.string(Header::Text(Some(value.len())), value.as_bytes());
        }
        self.long_text(value, limit)
    }

    /// Writes a text that is longer than the limit.
    fn long_text(&mut self, value: &str, limit: usize) -> Result<(), W::Error>
        requires four { LEAST_BUFFER ≤ limit }
        requires longer { limit < length value.now }
        ensures value { (segment : Option ℕ) → limit ≡ max LEAST_BUFFER (unwrap_or segment (length value.now))
            → WritesValue W.Write Text segment value.now (writer_of self.old) result (writer_of self.new) }
        ensures target { W.target (writer_of self.new) ≡ W.target (writer_of self.old) }
    {
        self.push(Header::Text(None))?;
        self.text_pieces(value, limit)?;
        self.push(Header::Break)
    }

    /// Writes a body after its title.
    fn string(&mut self, title: Header, body: &[u8]) -> Result<(), W::Error>
        ensures bytes { WritesBytes W.Write (writer_of self.old) result (shortest_title title ++ body.now)
            (writer_of self.new) }
        ensures target { W.target (writer_of self.new) ≡ W.target (writer_of self.old) }
    {
        self.push(title)?;
        self.writer.write_all(body)
    }

    /// Writes the pieces of bytes that are longer than the limit.
    fn byte_pieces(&mut self, value: &[u8], limit: usize) -> Result<(), W::Error>
        requires some { 0 < limit }
        requires longer { limit < length value.now }
        ensures pieces { WritesPieces W.Write Bytes limit value.now (writer_of self.old) result (writer_of self.new) }
        ensures target { W.target (writer_of self.new) ≡ W.target (writer_of self.old) }
    {
        let mut rest = value;
        'pieces: while rest.len() > limit {
            let (piece, behind) = rest.split_at(limit);
            self.string(Header::Bytes(Some(piece.len())), piece)?;
            rest = behind;
        }
        self.string(Header::Bytes(Some(rest.len())), rest)
    }

    /// Writes the pieces of a text that is longer than the limit.
    fn text_pieces(&mut self, value: &str, limit: usize) -> Result<(), W::Error>
        requires four { LEAST_BUFFER ≤ limit }
        requires longer { limit < length value.now }
        ensures pieces { WritesPieces W.Write Text limit value.now (writer_of self.old) result (writer_of self.new) }
        ensures target { W.target (writer_of self.new) ≡ W.target (writer_of self.old) }
    {
        let mut rest = value;
        'pieces: while rest.len() > limit {
            let (piece, behind) = rest.split_at(piece_len(rest, limit));
            self.string(Header::Text(Some(piece.len())), piece.as_bytes())?;
            rest = behind;
        }
        self.string(Header::Text(Some(rest.len())), rest.as_bytes())
    }
}

/// Returns the length of the first piece of a text that is longer than the limit.
///
/// The piece ends at the limit, or before a character that lies across the limit. The search steps over at most three
/// bytes, because a character has at most three later bytes.
fn piece_len(text: &str, limit: usize) -> usize
    requires four { LEAST_BUFFER ≤ limit }
    requires longer { limit < length text.now }
    ensures boundary { IsCharBoundary text.now result }
    ensures within { result ≤ limit }
    ensures some { 0 < result }
    ensures back { limit ≤ result + MOST_KEPT }
    ensures longest { (other : ℕ) → result < other → other ≤ limit → ¬ (IsCharBoundary text.now other) }
{
    let bytes = text.as_bytes();
    let mut len = limit;
    'shorter: while is_continuation(bytes[len]) {
        len -= 1;
    }
    len
}

/// Tells if a byte is a later byte of a character (Unicode, Table 3-7).
fn is_continuation(byte: u8) -> bool
    ensures { IsTrue result ↔ IsTail byte }
{
    matches!(byte, 0x80..=0xbf)
}
