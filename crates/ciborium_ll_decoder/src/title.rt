//! A header with its title in parts. Users pull headers.

ghost use Rattle.ciborium_ll_decoder.specs.Decoding.{DecoderPullTitle};

use crate::dec::{Decoder, Error};
use ciborium_ll_grammar::hdr::{Header, Title};
use ciborium_ll_io::io::Read;

/// Takes the next header as [`Decoder::pull`] does, with its errors, and returns a title in parts with it: the title
/// that was read, or the shortest title of a waiting header.
#[inline(always)]
pub fn pull_title<R: Read>(decoder: &mut Decoder<R>) -> Result<(Header, Title), Error<R::Error>>
    ensures { DecoderPullTitle R.Read decoder.old result decoder.new }
{
    if let Some(header) = decoder.waiting {
        return Ok(decoder.pull_waiting(header));
    }
    decoder.title()
}
