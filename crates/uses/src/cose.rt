//! A signed message, COSE_Sign1 (RFC 9052, 4.2), as the places of its parts.

ghost use Rattle.std.specs.Prelude.{◌≡◌, IfErr, IfOk, OnOk, None, true};
ghost use Rattle.ciborium_ll_grammar.specs.declared.spelling.Spelling.TheVariants.{Shortest};
ghost use Rattle.ciborium_ll.specs.Decoding.{spelling_of, waiting_of};
ghost use Rattle.ciborium_ll.specs.Title.{shortest_title};
ghost use Rattle.uses.specs.Cose.{BeginsBytes, BeginsMap, BeginsPayload, BeginsSign1, BodyFails, EndsPairs, StopsAtPart};
ghost use Rattle.uses.specs.Cose.{SkipsPairs, StopsSign1, Took, TookBody, TookMap, TookPayload, TookString};

use cbor_skip::{Remaining, SkipError, skip_item};
use ciborium_ll::io::{EndOfFile, Read, SliceReader};
use ciborium_ll::{Decoder, Error, Header, simple};

/// The greatest depth of nesting in the unprotected map.
pub const MAP_DEPTH: usize = 16;

/// The bytes of a slice from `start` up to `end`, without `end`.
#[derive(Debug, Clone, Copy, PartialEq, Eq)]
pub struct Span {
    /// The offset of the first byte.
    pub start: usize,
    /// The offset after the last byte.
    pub end: usize,
}

/// The places of the parts of a COSE_Sign1. The span of a byte string is the span of its body.
#[derive(Debug, Clone, Copy, PartialEq, Eq)]
pub struct Sign1 {
    /// The protected header parameters, as a byte string holds them.
    pub protected: Span,
    /// The whole map of the unprotected header parameters.
    pub unprotected: Span,
    /// The payload, or `None` if it is detached.
    pub payload: Option<Span>,
    /// The signature.
    pub signature: Span,
}

/// Why no COSE_Sign1 was read.
#[derive(Debug, Drop)]
pub enum CoseError<E> {
    /// The decoder failed with this error.
    Read(Error<E>),
    /// The read of the unprotected map failed with this error.
    Skip(SkipError<E>),
    /// The title at this offset may not stand there.
    Unexpected(usize),
}

impl<E> From<Error<E>> for CoseError<E> {
    ghost use Rattle.uses.specs.declared.cose.CoseError.TheVariants.{Read as FailedRead};

    ghost from_gives = { λ fault error. error ≡ FailedRead fault };

    fn from(fault: Error<E>) -> CoseError<E> {
        CoseError::Read(fault)
    }
}

impl<E> From<SkipError<E>> for CoseError<E> {
    ghost use Rattle.uses.specs.declared.cose.CoseError.TheVariants.{Skip as FailedSkip};

    ghost from_gives = { λ fault error. error ≡ FailedSkip fault };

    fn from(fault: SkipError<E>) -> CoseError<E> {
        CoseError::Skip(fault)
    }
}

/// Returns the places of the parts of the tagged COSE_Sign1 (RFC 9052, 4.2) with which the bytes begin.
///
/// The COSE_Sign1 is tag 18 and an array of four: a byte string, a map, a byte string or null, and a byte string. Each
/// title must be the shortest, within the map too. No byte string may have an indefinite length. The map may be nested
/// 16 levels deep. The call tests no other contents.
///
/// # Errors
///
/// The bytes before an error are the beginning of a COSE_Sign1.
///
/// - `Read`: the decoder failed. `Syntax(offset)` means that no title begins there, or a longer one. `Io` means that
///   the bytes end too early.
/// - `Skip`: the read of the map failed.
/// - `Unexpected(offset)`: the title at this offset may not stand there.
pub fn read_sign1<'a>(bytes: &'a [u8]) -> Result<Sign1, CoseError<EndOfFile>>
    ensures begins { IfOk result (λ parts. BeginsSign1 bytes.now parts) }
    ensures stops { IfErr result (λ error. StopsSign1 ⟦<SliceReader<'a> as Read>⟧ bytes.now error) }
{
    let mut decoder = Decoder::strict(SliceReader::new(bytes));
    title(&mut decoder, Header::Tag(18))?;
    title(&mut decoder, Header::Array(Some(4)))?;
    let protected = byte_string(&mut decoder)?;
    let unprotected = map(&mut decoder)?;
    let payload = byte_string_or_null(&mut decoder)?;
    let signature = byte_string(&mut decoder)?;
    Ok(Sign1 {
        protected,
        unprotected,
        payload,
        signature,
    })
}

/// Takes the title of this header.
fn title<R: Read>(decoder: &mut Decoder<R>, header: Header) -> Result<(), CoseError<R::Error>>
    requires strict { spelling_of decoder.old ≡ Shortest }
    requires none_waits { waiting_of decoder.old ≡ None }
    ensures took { OnOk result (Took R.Read decoder.old (shortest_title header) decoder.new) }
    ensures stops { IfErr result (λ error. StopsAtPart R.Read (λ other. other ≡ header) decoder.old error decoder.new) }
{
    let place = decoder.offset();
    let next = decoder.pull()?;
    if next == header {
        Ok(())
    } else {
        Err(CoseError::Unexpected(place))
    }
}

/// Takes the next byte string, and returns the span of its body.
fn byte_string<R: Read>(decoder: &mut Decoder<R>) -> Result<Span, CoseError<R::Error>>
    requires strict { spelling_of decoder.old ≡ Shortest }
    requires none_waits { waiting_of decoder.old ≡ None }
    ensures took { IfOk result (λ span. TookString R.Read decoder.old span decoder.new) }
    ensures stops { IfErr result (λ error. StopsAtPart R.Read BeginsBytes decoder.old error decoder.new) }
{
    let place = decoder.offset();
    match decoder.pull()? {
        Header::Bytes(Some(len)) => Ok(body(decoder, len)?),
        _ => Err(CoseError::Unexpected(place)),
    }
}

/// Takes the next byte string, and returns the span of its body, or `None` for null.
fn byte_string_or_null<R: Read>(
    decoder: &mut Decoder<R>,
) -> Result<Option<Span>, CoseError<R::Error>>
    requires strict { spelling_of decoder.old ≡ Shortest }
    requires none_waits { waiting_of decoder.old ≡ None }
    ensures took { IfOk result (λ span. TookPayload R.Read decoder.old span decoder.new) }
    ensures stops { IfErr result (λ error. StopsAtPart R.Read BeginsPayload decoder.old error decoder.new) }
{
    let place = decoder.offset();
    match decoder.pull()? {
        Header::Simple(simple::NULL) => Ok(None),
        Header::Bytes(Some(len)) => Ok(Some(body(decoder, len)?)),
        _ => Err(CoseError::Unexpected(place)),
    }
}

/// Takes the body after the header of a byte string, and returns its span.
fn body<R: Read>(decoder: &mut Decoder<R>, len: usize) -> Result<Span, Error<R::Error>>
    requires none_waits { waiting_of decoder.old ≡ None }
    ensures took { IfOk result (λ span. TookBody R.Read len decoder.old span decoder.new) }
    ensures fails { IfErr result (λ error. BodyFails R.Read len decoder.old error decoder.new) }
{
    let start = decoder.offset();
    let mut buffer = [0; 64];
    let mut left = len;
    'chunks: while left > 0 {
        let size = left.min(buffer.len());
        decoder.read_exact(&mut buffer[..size])?;
        left -= size;
    }
    let end = decoder.offset();
    Ok(Span { start, end })
}

/// Takes the next map, and returns its span.
fn map<R: Read>(decoder: &mut Decoder<R>) -> Result<Span, CoseError<R::Error>>
    requires strict { spelling_of decoder.old ≡ Shortest }
    requires none_waits { waiting_of decoder.old ≡ None }
    ensures took { IfOk result (λ span. TookMap R.Read decoder.old span decoder.new) }
    ensures stops { IfErr result (λ error. StopsAtPart R.Read BeginsMap decoder.old error decoder.new) }
{
    let start = decoder.offset();
    match decoder.pull()? {
        Header::Map(len) => pairs(decoder, len)?,
        _ => return Err(CoseError::Unexpected(start)),
    }
    let end = decoder.offset();
    Ok(Span { start, end })
}

/// Skips the pairs of a map, after its header.
///
/// It does not give the header back and skip the whole map, because a strict decoder takes a header that waits in any
/// spelling.
fn pairs<R: Read>(decoder: &mut Decoder<R>, len: Option<usize>) -> Result<(), SkipError<R::Error>>
    ensures { SkipsPairs R.Read len decoder.old result decoder.new }
{
    let mut remaining = Remaining::behind(Header::Map(len));
    'items: while !remaining.is_done() {
        let place = decoder.offset();
        if let Err(error) = skip_item(decoder, MAP_DEPTH - 1, &mut [0; 64]) {
            return answer_end(error, remaining.closes(), place);
        }
        remaining = remaining.after_item();
    }
    Ok(())
}

/// Returns the meaning of the error of a map's item that begins at `place`. A break there ends the map, if it may.
fn answer_end<E>(error: SkipError<E>, closes: bool, place: usize) -> Result<(), SkipError<E>>
    ensures { EndsPairs closes place error result }
{
    match error {
        SkipError::Break(at) if closes && at == place => Ok(()),
        error => Err(error),
    }
}
