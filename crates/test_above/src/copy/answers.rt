ghost use Rattle.std.specs.Prelude.{◌≤◌, length};

use crate::shared::MOST;
use cbor_copier::{Copied, Copier, Progress};
use ciborium_ll::io::{EndOfFile, OutOfSpace, SliceReader, SliceWriter};
use ciborium_ll::recode::{RecodeError, recode};
use ciborium_ll::{Decoder, Encoder, Error};
use std::process::Abort;

// Requires that a copy of `count` elements, or of an item by that many levels, holds.
pub fn holds(
    rt: &impl Abort,
    is_right: bool,
    number: usize,
    bytes: &[u8],
    cut: usize,
    room: usize,
) {
    assert!(rt;
        is_right,
        "{number}, {bytes:?}, cut at {cut}, room for {room}"
    );
}

// Feeds a piece. Tests do not need the large contract of the call.
pub fn fed(copier: &mut Copier, piece: &[u8], out: &mut [u8]) -> Copied {
    copier.feed(piece, out)
}

// How far a copy has come, and the bytes that it wrote.
#[derive(Drop)]
pub struct Answer {
    pub taken: usize,
    pub written: usize,
    pub progress: Progress,
    pub out: [u8; MOST],
}

// Feeds a piece from `taken` on, with room from `from` to `to`. It feeds nothing for numbers that no copier returns.
fn feed(
    copier: &mut Copier,
    piece: &[u8],
    taken: usize,
    out: &mut [u8],
    from: usize,
    to: usize,
) -> Copied {
    if taken > piece.len() || from > to || to > out.len() {
        return Copied {
            taken: 0,
            written: 0,
            progress: Progress::TooLong,
        };
    }
    copier.feed(&piece[taken..], &mut out[from..to])
}

// Returns whether more is to be done, if this many bytes of all were taken.
fn goes_on(progress: Progress, taken: usize, len: usize) -> bool {
    match progress {
        Progress::Room => true,
        Progress::More => taken < len,
        _ => false,
    }
}

// Copies bytes that come in two pieces, cut at `cut`. Each second call has no room, and the others have room for `room`
// bytes.
pub fn copied(count: usize, bytes: &[u8], cut: usize, room: usize) -> Answer
    requires { cut ≤ length bytes.now }
{
    copied_by(Copier::new(count), bytes, cut, room)
}

// Does what `copied` does, by this copier.
pub fn copied_by(mut copier: Copier, bytes: &[u8], cut: usize, room: usize) -> Answer
    requires { cut ≤ length bytes.now }
{
    let mut out = [0; MOST];
    let mut taken: usize = 0;
    let mut written: usize = 0;
    let mut progress = Progress::More;
    for turn in 0..4 * MOST {
        let piece = if taken < cut { &bytes[..cut] } else { bytes };
        let until = if turn % 2 == 0 {
            written
        } else {
            written.saturating_add(room).min(MOST)
        };
        let fed = feed(&mut copier, piece, taken, &mut out, written, until);
        taken = taken.saturating_add(fed.taken);
        written = written.saturating_add(fed.written);
        progress = fed.progress;
        if !goes_on(progress, taken, bytes.len()) {
            break;
        }
    }
    Answer {
        taken,
        written,
        progress,
        out,
    }
}

// Returns the progress that the end of a copy by `recode` means. If bytes end too early, more are due.
fn progress_of(outcome: Result<(), RecodeError<EndOfFile, OutOfSpace>>) -> Progress {
    match outcome {
        Ok(()) => Progress::Ended,
        Err(RecodeError::Read(Error::Syntax(place))) => Progress::Syntax(place),
        Err(RecodeError::Read(_)) => Progress::More,
        Err(RecodeError::Write(_)) => Progress::Room,
    }
}

// Copies elements by `recode`. Tests do not need the large contract of the call.
fn recodes(
    decoder: &mut Decoder<SliceReader<'_>>,
    encoder: &mut Encoder<SliceWriter<'_>>,
    count: usize,
) -> Progress {
    progress_of(recode(decoder, encoder, count, &mut [0; MOST]))
}

// Returns the answer of a copy of the whole by `recode`.
pub fn recoded(count: usize, bytes: &[u8]) -> Answer {
    let mut out = [0; MOST];
    let mut decoder = Decoder::from(SliceReader::new(bytes));
    let mut encoder = Encoder::from(SliceWriter::new(&mut out));
    let progress = recodes(&mut decoder, &mut encoder, count);
    let taken = decoder.offset();
    let written = encoder.into_inner().written().len();
    Answer {
        taken,
        written,
        progress,
        out,
    }
}

// Returns whether the output begins with the bytes that the other copy wrote.
pub fn begins(out: &[u8; MOST], whole: &Answer) -> bool {
    out.starts_with(&whole.out[..whole.written.min(MOST)])
}

// Returns whether both say the same. If the bytes end too early, `recode` does not look whether any elements begin so.
// If they end within a body, it may have written less of the body.
fn agree(fed: &Answer, whole: &Answer) -> bool {
    let is_same = match whole.progress {
        Progress::More => matches!(fed.progress, Progress::More | Progress::Syntax(_)),
        progress => fed.progress == progress,
    };
    let is_whole = match whole.progress {
        Progress::Ended => fed.taken == whole.taken && fed.written == whole.written,
        _ => whole.written <= fed.written,
    };
    is_same && is_whole && begins(&fed.out, whole)
}

// Copies bytes in all ways, and compares the answers with that of `recode`.
pub fn all_ways(rt: &impl Abort, count: usize, bytes: &[u8]) {
    let whole = recoded(count, bytes);
    for cut in 0..=bytes.len() {
        for room in [1, 2, MOST] {
            let is_right = agree(&copied(count, bytes, cut, room), &whole);
            holds(rt, is_right, count, bytes, cut, room);
        }
    }
}
