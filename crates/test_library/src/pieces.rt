use crate::calls::{decoder_at, encoder_into, has_left, has_written};
use crate::checks::{holds, holds_with};
use ciborium_ll::io::SliceWriter;
use ciborium_ll::laws::{self, Piece};
use ciborium_ll::{Encoder, Header};
use std::process::Abort;

const WRITTEN: &[u8] = b"\x82\x5f\x42\x01\x02\x41\x03\xff\x7f\x62\xc3\xa9\x63\xe2\x82\xac\xff";

// The array without its last byte.
const CUT: &[u8] = b"\x82\x5f\x42\x01\x02\x41\x03\xff\x7f\x62\xc3\xa9\x63\xe2\x82\xac";

// Writes an array of a byte string and a text string, each in two segments, and then no piece.
fn writes_array(encoder: &mut Encoder<SliceWriter>) -> bool {
    let pieces = [
        Piece::Header(Header::Array(Some(2))),
        Piece::Bytes(&[1, 2, 3], Some(2)),
        Piece::Text("\u{e9}\u{20ac}", Some(4)),
    ];
    laws::write_pieces(encoder, &pieces).is_ok() && laws::write_pieces(encoder, &[]).is_ok()
}

// Writes that array into this much room, and compares whether it fits, and the written bytes.
fn pieces_row(rt: &impl Abort, room: usize, fits: bool, written: &[u8]) {
    let mut space = [0; 17];
    let mut encoder = encoder_into(&mut space, room);
    let is_right = writes_array(&mut encoder) == fits;
    let is_written = has_written(&encoder.into_inner(), written);
    holds_with(rt, is_right && is_written, &[room]);
}

// If the pieces do not fit, all but the last byte is written.
#[test]
fn pieces_are_written_one_by_one(rt: HostRuntime) {
    pieces_row(&rt, 17, true, WRITTEN);
    pieces_row(&rt, 16, false, CUT);
}

#[test]
fn what_was_written_is_copied(rt: HostRuntime) {
    let mut space = [0; 18];
    let bytes = b"\x82\x5f\x42\x01\x02\x41\x03\xff\x7f\x62\xc3\xa9\x63\xe2\x82\xac\xff\x00";
    let mut decoder = decoder_at(bytes, 0);
    let mut encoder = encoder_into(&mut space, 18);
    let outcome = laws::copy_spelled(&mut decoder, &mut encoder, 3, &mut [0; 4]);
    holds(&rt, outcome.is_ok(), "three elements are there");
    let is_written = has_written(&encoder.into_inner(), WRITTEN);
    holds(&rt, is_written, "they are written");
    holds(&rt, has_left(decoder, &[0]), "a byte is left");
}
