// A strict decoder that continues after a failure is as strict as before.

use crate::calls::{
    StringKind, all_hold, bytes_in, failing_decoder, holds, is_pulled, is_refused, is_stop,
    next_segment,
};
use crate::copies::{Kind, Side, Task, fails_and_stops};
use ciborium_ll::io::Read;
use ciborium_ll::{Bytes, Decoder, Error, Header, Segments, Spelling};
use std::process::Abort;
use test_support::devices::{DeviceFault, Failing, FailingReader};
use test_support::tape::Stop;

// Bytes, the number of a call that fails, and the place of a title that a strict decoder refuses after it.
type Row = (&'static [u8], usize, usize);

// Returns whether a string has no further body, for this reason.
fn advance_fails(segments: &mut Segments<'_, FailingReader<'_>, Bytes>, want: Stop) -> bool {
    match segments.advance() {
        Ok(_) => false,
        Err(error) => is_stop(&error, want),
    }
}

// Returns whether a title is refused at this place, and once more.
fn refuses_twice(segments: &mut Segments<'_, FailingReader<'_>, Bytes>, place: usize) -> bool {
    let want = Stop::Syntax(place);
    advance_fails(segments, want) && advance_fails(segments, want)
}

// A decoder before the bytes 18 05 5f 5f, which begin at this place, refuses a longer title. After it and the open at 2
// it refuses an open inside that open.
fn refuses(rt: &impl Abort, decoder: &mut Decoder<FailingReader<'_>>, place: usize) {
    let is_refused_when_strict = is_refused(decoder, Stop::Syntax(place));
    let mut segments = bytes_in(rt, decoder, None, &[0x5f]);
    let is_nested = refuses_twice(&mut segments, place.saturating_add(3));
    all_hold(rt, place, &[is_refused_when_strict, is_nested]);
}

// Reads two bytes of a body.
fn reads<R: Read>(decoder: &mut Decoder<R>) -> Result<(), Error<R::Error>> {
    decoder.read_exact(&mut [0; 2])
}

// Returns whether a read of two bytes of a body fails as planned, and one more read gives them.
fn reads_once_more(decoder: &mut Decoder<FailingReader<'_>>) -> bool {
    let has_failed = matches!(reads(decoder), Err(Error::Io(DeviceFault::Planned)));
    has_failed && reads(decoder).is_ok()
}

// A read of a body fails, and the test makes it once more.
#[test]
fn behind_a_read_of_a_body(rt: HostRuntime) {
    let bytes = [0x42, 1, 2, 0x18, 5, 0x5f, 0x5f];
    let mut decoder = failing_decoder(Spelling::Shortest, &bytes, Failing::Call(2));
    let is_begun = is_pulled(&mut decoder, Header::Bytes(Some(2)));
    all_hold(&rt, 0, &[is_begun, reads_once_more(&mut decoder)]);
    refuses(&rt, &mut decoder, 3);
}

// A pull of a title fails, and the next pulls refuse the title at this place.
fn title_row(rt: &impl Abort, bytes: &[u8], call: usize, place: usize) {
    let mut decoder = failing_decoder(Spelling::Shortest, bytes, Failing::Call(call));
    holds(rt, is_refused(&mut decoder, Stop::Planned), call, bytes);
    refuses(rt, &mut decoder, place);
}

// A pull of a title fails at its first byte, and at its affix. If the affix was not read, the first byte is lost.
#[test]
fn behind_a_pull_of_a_title(rt: HostRuntime) {
    title_row(&rt, &[0x18, 5, 0x5f, 0x5f], 1, 0);
    title_row(&rt, &[0x19, 0x18, 5, 0x5f, 0x5f], 2, 1);
}

// Strings of indefinite length. A call of the reader fails under `advance`.
static STRINGS: [Row; 5] = [
    // A nested open. The first call does not read its title, and the next call does.
    (&[0x5f, 0x5f, 0xff, 0xff], 2, 1),
    // A longer title.
    (&[0x5f, 0x58, 0, 0xff], 2, 1),
    // A longer title, after a first byte that is lost.
    (&[0x5f, 0x58, 0x58, 0, 0xff], 3, 2),
    // An open, after a first byte that is lost.
    (&[0x5f, 0x59, 0x5f, 0xff, 0xff], 3, 2),
    // A longer title and an affix of eight bytes.
    (&[0x5f, 0x5b, 0x5b, 0, 0, 0, 0, 0, 0, 0, 0, 0xff], 3, 2),
];

// The reader fails under `advance`. The next call and each later one refuse a title.
fn string_row(rt: &impl Abort, bytes: &[u8], call: usize, place: usize) {
    let mut decoder = failing_decoder(Spelling::Shortest, bytes, Failing::Call(call));
    let mut segments = bytes_in(rt, &mut decoder, None, bytes);
    let is_unread = advance_fails(&mut segments, Stop::Planned);
    let is_right = is_unread && refuses_twice(&mut segments, place);
    holds(rt, is_right, call, bytes);
}

#[test]
fn behind_an_advance(rt: HostRuntime) {
    for &(bytes, call, place) in &STRINGS {
        string_row(&rt, bytes, call, place);
    }
}

// Whether a body is read once more.
fn is_read_once_more(
    rt: &impl Abort,
    segments: &mut Segments<'_, FailingReader<'_>, Bytes>,
) -> bool {
    let mut segment = next_segment(rt, segments);
    let mut buffer = [0; 4];
    let is_unread = Bytes::gives(&mut segment, &mut buffer, &Err(Stop::Planned));
    is_unread && Bytes::gives(&mut segment, &mut buffer, &Ok(Some(&[1, 2])))
}

#[test]
fn behind_a_pull_of_a_segment(rt: HostRuntime) {
    let bytes = [0x5f, 0x42, 1, 2, 0x5f, 0xff, 0xff];
    let mut decoder = failing_decoder(Spelling::Shortest, &bytes, Failing::Call(3));
    let mut segments = bytes_in(&rt, &mut decoder, None, &bytes);
    let is_read = is_read_once_more(&rt, &mut segments);
    let is_nested = advance_fails(&mut segments, Stop::Syntax(4));
    all_hold(&rt, 4, &[is_read, is_nested]);
}

// Elements. A copy takes two of them, and a call of this side fails. A first byte, an affix and a body are one call of
// the writer each, if they have bytes.
static COPIES: [(Side, Row); 9] = [
    (Side::Reader, (&[0x18, 5], 1, 0)),
    (Side::Reader, (&[0x5f, 0x5f, 0xff, 0xff], 1, 1)),
    (Side::Reader, (&[5, 0xf8, 0x18], 2, 1)),
    (Side::Reader, (&[0x19, 0x18, 5], 2, 1)),
    // Within a body. The next copy reads the body as titles.
    (Side::Reader, (&[0x42, 0x18, 5], 2, 1)),
    (Side::Reader, (&[0x5f, 0x42, 0x58, 0, 0xff], 3, 2)),
    (Side::Writer, (&[5, 0x18, 5], 1, 1)),
    (Side::Writer, (&[0x18, 0x18, 0x18, 5], 2, 2)),
    (Side::Writer, (&[0x42, 0x58, 0, 0xf8, 0x18], 2, 3)),
];

// A copy of two elements fails as planned, and the next copy refuses a title.
#[test]
fn behind_a_copy(rt: HostRuntime) {
    for &(side, (bytes, call, place)) in &COPIES {
        let task = Task {
            kind: Kind::StrictElements,
            count: 2,
            bytes,
        };
        fails_and_stops(&rt, task, side, call, place);
    }
}
