//! Bodies read through buffers of any sizes.

ghost use Rattle.std.specs.Prelude.{◌≡◌, ◌≤◌, ◌<◌, ◌+◌, ◌↔◌, ℕ, List, All, IfOk, length};
ghost use Rattle.ciborium_ll_decoder.specs.Chunks.{segment_decoder, segment_reference};
ghost use Rattle.ciborium_ll_decoder.specs.Decoding.{MovesOn};
ghost use Rattle.ciborium_ll_decoder.specs.declared.seg.Segment.{Segment as AnySegment};
ghost use Rattle.ciborium_ll_encoder.specs.Encoding.{writer_of};
ghost use Rattle.ciborium_ll_grammar.specs.Strings.{Kind, Text as text_strings, most_kept};
ghost use Rattle.ciborium_ll_text.specs.Text.{IsCharacters};
ghost use Rattle.ciborium_ll.specs.Drains.{calls_for, AddUp, Drains, DrainsEach, DrainsSegment, DrainsSome, DrainsTold};
ghost use Rattle.ciborium_ll.specs.Drains.{SaysEnded, IsDrainable, IsEnough};

use ciborium_ll_decoder::seg::{Bytes, Chunked, Segment, Text};
use ciborium_ll_encoder::enc::Encoder;
use ciborium_ll_io::io::{Read, Write};
use ciborium_ll_recode::recode::RecodeError;

/// The result of a drain.
#[derive(Debug, PartialEq, Eq, Drop)]
pub struct Drained {
    /// The number of calls of `pull` that succeeded, including a call that answered `None`.
    pub calls: usize,
    /// Why the drain ended.
    pub end: End,
}

/// Why a drain without an error ended.
#[derive(Debug, PartialEq, Eq, Drop)]
pub enum End {
    /// The body had ended.
    Ended,
    /// Each size was used, and no call saw the end of the body.
    OutOfSizes,
}

/// Pulls once for each size, and writes each chunk.
fn drain<R: Read, W: Write, P: Chunked>(
    segment: &mut Segment<'_, R, P>,
    sizes: &[usize],
    buffer: &mut [u8],
    sink: &mut Encoder<W>,
) -> Result<Drained, RecodeError<R::Error, W::Error>>
    requires fit { All (λ size. size ≤ length buffer.old) sizes.now }
    ensures drains { Drains R.Read W.Write sizes.now segment.old (writer_of sink.old) result segment.new
        (writer_of sink.new) }
    ensures moves_on { MovesOn R.Read (segment_decoder segment.old) (segment_decoder segment.new) }
    ensures same_reference { segment_reference segment.new ≡ segment_reference segment.old }
    ensures target { W.target (writer_of sink.new) ≡ W.target (writer_of sink.old) }
{
    'sizes: for (index, size) in sizes.iter().enumerate() {
        let Some(chunk) = P::chunk(segment, &mut buffer[..*size])? else {
            return Ok(Drained {
                calls: index + 1,
                end: End::Ended,
            });
        };
        sink.write_all(chunk)
            .map_err(|fault| RecodeError::Write(fault))?;
    }
    Ok(Drained {
        calls: sizes.len(),
        end: End::OutOfSizes,
    })
}

/// Says how many calls are enough for a body, if each size is at least `size`.
///
/// This is the body's length divided by `size`, or for text by `size - 3`, rounded up. For example 10 calls with
/// buffers of 4 bytes read a text of 10 bytes.
#[tactic(auto, using(crate::proofs::DrainTold::calls_enough))]
pub fn enough_sizes()
    ensures { (kind : Kind) (size bytes : ℕ) (sizes : List ℕ) → most_kept kind < size
        → All (λ other. size ≤ other) sizes
        → calls_for kind size bytes < length sizes → IsEnough kind sizes bytes (calls_for kind size bytes) }
{}

/// Says what the chunks of a drain add up to, if each chunk was written.
///
/// The bytes kept of the body before, followed by the bytes read, are the bytes written, followed by the bytes kept
/// after. Each buffer was filled as far as the body reaches. No size was used after sizes that were enough.
#[tactic(auto, using(crate::proofs::DrainLaws::each_some))]
pub fn drained_in_all<R: Read, W: Write, P: Chunked>()
    ensures { (sizes : List ℕ) (old new : AnySegment R P P.Parser) (writer writer' : W)
        → DrainsEach R.Read W.Write sizes old writer new writer'
        → DrainsSome R.Read W.Write sizes old writer new writer' }
{}

/// Reads a body of bytes by one `pull` for each size, and writes each chunk.
///
/// A size is the length in bytes of the front of `buffer` that one `pull` gets. [`drained_in_all`] says what the chunks
/// add up to.
///
/// If the reader is steady, the offset fits, the whole body is there and the writer has room for it, no call fails. The
/// answer is then `Ended`, after the fewest calls, exactly if some first sizes, but not all, add up to the body's
/// length or more.
///
/// # Errors
///
/// - `RecodeError::Read`: a `pull` failed.
/// - `RecodeError::Write`: a write failed, with a beginning of the chunk written.
pub fn drain_bytes<R: Read, W: Write>(
    segment: &mut Segment<'_, R, Bytes>,
    sizes: &[usize],
    buffer: &mut [u8],
    sink: &mut Encoder<W>,
) -> Result<Drained, RecodeError<R::Error, W::Error>>
    requires fit { All (λ size. size ≤ length buffer.old) sizes.now }
    ensures exactly { (body written : List ℕ) → IsDrainable R.Read W.Write segment.old (writer_of sink.old) body written
        → (SaysEnded result ↔ ((count : ℕ) × AddUp sizes.now (length body) count)) }
    ensures soonest { (body written : List ℕ) (count : ℕ)
        → IsDrainable R.Read W.Write segment.old (writer_of sink.old) body written
        → AddUp sizes.now (length body) count → IfOk result (λ drained. drained.calls ≤ count + 1) }
    ensures told { (body written : List ℕ) → IsDrainable R.Read W.Write segment.old (writer_of sink.old) body written
        → DrainsTold R.Read W.Write sizes.now body written segment.old result segment.new (writer_of sink.new) }
    ensures drains { DrainsSegment R.Read W.Write sizes.now segment.old (writer_of sink.old) result segment.new
        (writer_of sink.new) }
{
    drain::<R, W, Bytes>(segment, sizes, buffer, sink)
}

/// Reads a body of text by one `pull` for each size, and writes each chunk, as [`drain_bytes`] does.
///
/// With the premises there, a call fails only if the body is no text. If some first sizes, less 3 each and not all, add
/// up to its length or more, the answer is `Ended` exactly if the body is UTF-8. So the answer does not depend on the
/// sizes.
///
/// # Errors
///
/// - `RecodeError::Read`: a `pull` failed, or the body is no text.
/// - `RecodeError::Write`: as [`drain_bytes`] says.
pub fn drain_text<R: Read, W: Write>(
    segment: &mut Segment<'_, R, Text>,
    sizes: &[usize],
    buffer: &mut [u8],
    sink: &mut Encoder<W>,
) -> Result<Drained, RecodeError<R::Error, W::Error>>
    requires fit { All (λ size. size ≤ length buffer.old) sizes.now }
    ensures any_sizes { (body written : List ℕ) (count : ℕ)
        → IsDrainable R.Read W.Write segment.old (writer_of sink.old) body written
        → IsEnough text_strings sizes.now (length body) count → (SaysEnded result ↔ IsCharacters body) }
    ensures told { (body written : List ℕ) → IsDrainable R.Read W.Write segment.old (writer_of sink.old) body written
        → DrainsTold R.Read W.Write sizes.now body written segment.old result segment.new (writer_of sink.new) }
    ensures drains { DrainsSegment R.Read W.Write sizes.now segment.old (writer_of sink.old) result segment.new
        (writer_of sink.new) }
{
    drain::<R, W, Text>(segment, sizes, buffer, sink)
}
