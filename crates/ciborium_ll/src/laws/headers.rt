//! Laws of headers, and of a header that a caller gives back.

ghost use Rattle.std.specs.Prelude.{◌≡◌, ◌↔◌, IsTrue};
ghost use Rattle.ciborium_ll_decoder.specs.Decoding.{PullsBack};

use ciborium_ll_decoder::dec::{Decoder, Error};
use ciborium_ll_grammar::hdr::{Float, Header};
use ciborium_ll_io::io::Read;

/// Tells if two headers are equal.
pub fn same_header(one: Header, other: Header) -> bool
    ensures { IsTrue result ↔ (one ≡ other) }
{
    one == other
}

/// Tells if two floats have the same width and bits.
pub fn same_float(one: Float, other: Float) -> bool
    ensures { IsTrue result ↔ (one ≡ other) }
{
    one == other
}

/// Returns a copy of a header.
pub fn copied_header(header: &Header) -> Header
    ensures { result ≡ header.now }
{
    *header
}

/// Returns a copy of a float.
pub fn copied_float(float: &Float) -> Float
    ensures { result ≡ float.now }
{
    *float
}

/// Pulls a header, gives it back and pulls it again.
///
/// The second `pull` gives the same header, and leaves the reader and the offset as the first left them.
///
/// # Errors
///
/// - The errors of the first `pull`. The second never fails.
#[tactic(auto, using(ciborium_ll_decoder::proofs::DecodingLaws::pulls_again))]
pub fn pull_again<R: Read>(decoder: &mut Decoder<R>) -> Result<Header, Error<R::Error>>
    ensures { PullsBack R.Read decoder.old result decoder.new }
{
    let header = decoder.pull()?;
    decoder.push(header);
    decoder.pull()
}
