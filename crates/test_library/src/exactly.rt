// Copies between slices. Proofs here, outside the library, say when they succeed. They show that a caller can meet the
// library's conditions on the reader, the writer and the offset.

ghost use Rattle.std.specs.Prelude.{◌≤◌, ◌+◌, ◌<◌, ◌↔◌, ℕ, List, IsTrue, length};
ghost use Rattle.ciborium_ll.specs.Copying.{TitlesInFront};
ghost use Rattle.ciborium_ll.specs.Decoding.{offset_limit};
ghost use Rattle.ciborium_ll.specs.Premises.{longest_affix};
ghost use Rattle.ciborium_ll.specs.Shortening.{Shortens};
ghost use Rattle.ciborium_ll.specs.Types.Spelling.TheVariants.{Any};

use crate::checks::holds;
use ciborium_ll::io::{SliceReader, SliceWriter};
use ciborium_ll::laws::copy_headers;
use ciborium_ll::recode::recode;
use ciborium_ll::{Decoder, Encoder};

// Copies `count` elements into a slice that has room for all bytes, and returns whether the bytes begin with that many
// elements.
fn copies_elements(bytes: &[u8], space: &mut [u8], count: usize) -> bool
    requires room { length bytes.now ≤ length space.old }
    requires fits { length bytes.now + longest_affix < offset_limit }
    ensures { IsTrue result ↔ ((copy : List ℕ) × (rest : List ℕ) × Shortens Any count bytes.now copy rest) }
{
    let mut decoder = Decoder::from(SliceReader::new(bytes));
    let mut encoder = Encoder::from(SliceWriter::new(space));
    let mut buffer = [0; 8];
    recode(&mut decoder, &mut encoder, count, &mut buffer).is_ok()
}

// Copies `count` titles into a slice that has room for all bytes, and returns whether the bytes begin with that many
// titles.
fn copies_titles(bytes: &[u8], space: &mut [u8], count: usize) -> bool
    requires room { length bytes.now ≤ length space.old }
    requires fits { length bytes.now + longest_affix < offset_limit }
    ensures { IsTrue result ↔ TitlesInFront count bytes.now }
{
    let mut decoder = Decoder::from(SliceReader::new(bytes));
    let mut encoder = Encoder::from(SliceWriter::new(space));
    copy_headers(&mut decoder, &mut encoder, count).is_ok()
}

#[test]
fn a_string_is_one_element_and_more_titles(rt: HostRuntime) {
    let bytes = [0x5f, 0x41, 0x00, 0xff];
    let is_one = copies_elements(&bytes, &mut [0; 4], 1);
    let are_two = copies_elements(&bytes, &mut [0; 4], 2);
    holds(&rt, is_one && !are_two, "one element");
    let are_four = copies_titles(&bytes, &mut [0; 4], 4);
    let are_five = copies_titles(&bytes, &mut [0; 4], 5);
    holds(&rt, are_four && !are_five, "four titles");
}
