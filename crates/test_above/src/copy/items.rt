ghost use Rattle.std.specs.Prelude.{◌≤◌, length};

use crate::copy::answers::{Answer as Recoded, begins, holds, recoded};
use crate::shared::{MOST, all_hold};
use cbor_checker::{Checker, Fault, Feed, Progress as Checked};
use cbor_item_copier::{Copied, End, ItemCopier, Progress};
use ciborium_ll::Spelling;
use std::process::Abort;

// How far the copy of an item has come, and the bytes that it wrote.
#[derive(Drop)]
struct Answer {
    taken: usize,
    written: usize,
    progress: Progress,
    end: End,
    out: [u8; MOST],
}

// Makes a copier. `checked` below returns a checker's answer to a piece.
fn copier_of(spelling: Spelling, depth: usize) -> ItemCopier {
    ItemCopier::with_spelling(depth.min(256), spelling)
}

fn checked(spelling: Spelling, depth: usize, bytes: &[u8]) -> Feed {
    Checker::with_spelling(depth.min(256), spelling).feed(bytes)
}

// Feeds a piece from `taken` on, with room from `from` to `to`. It feeds nothing for numbers that no copier returns.
fn feed(
    copier: &mut ItemCopier,
    piece: &[u8],
    taken: usize,
    out: &mut [u8],
    from: usize,
    to: usize,
) -> Copied {
    if taken > piece.len() || from > to || to > out.len() {
        return Copied {
            taken: 0,
            written: 0,
            progress: Progress::TooLong,
        };
    }
    copier.feed(&piece[taken..], &mut out[from..to])
}

// Returns whether more is to be done, if this many bytes of all were taken.
fn goes_on(progress: Progress, taken: usize, len: usize) -> bool {
    match progress {
        Progress::Room => true,
        Progress::More(_) => taken < len,
        _ => false,
    }
}

// Returns the end of the piece that has the next byte. There are two pieces, cut at `cut`, or one for each byte if
// `cut` is 0.
fn piece_end(taken: usize, cut: usize, len: usize) -> usize
    requires { cut ≤ len }
    ensures { result ≤ len }
{
    if cut == 0 {
        taken.saturating_add(1).min(len)
    } else if taken < cut {
        cut
    } else {
        len
    }
}

// Copies an item whose bytes come in pieces. Each second call has no room, and the others have room for `room` bytes.
fn copied(spelling: Spelling, depth: usize, bytes: &[u8], cut: usize, room: usize) -> Answer
    requires { cut ≤ length bytes.now }
{
    let mut copier = copier_of(spelling, depth);
    let mut out = [0; MOST];
    let mut taken: usize = 0;
    let mut written: usize = 0;
    let mut progress = copier.progress();
    for turn in 0..4 * MOST {
        let piece = &bytes[..piece_end(taken, cut, bytes.len())];
        let until = if turn % 2 == 0 {
            written
        } else {
            written.saturating_add(room).min(MOST)
        };
        let fed = feed(&mut copier, piece, taken, &mut out, written, until);
        taken = taken.saturating_add(fed.taken);
        written = written.saturating_add(fed.written);
        progress = fed.progress;
        if !goes_on(progress, taken, bytes.len()) {
            break;
        }
    }
    Answer {
        taken,
        written,
        progress,
        end: copier.end(),
        out,
    }
}

// Returns whether both say the same, and the end of the bytes says what the last answer said.
fn agree(answer: &Answer, whole: Feed) -> bool {
    if answer.taken != whole.taken {
        return false;
    }
    match whole.progress {
        Checked::More(due) => {
            let end = if answer.taken == 0 {
                End::Between
            } else {
                End::Short(due)
            };
            answer.progress == Progress::More(due) && answer.end == end
        }
        Checked::Ended(len) => {
            answer.progress == Progress::Ended(len) && answer.end == End::Between
        }
        Checked::Fault(fault) => {
            answer.progress == Progress::Fault(fault) && answer.end == End::Fault(fault)
        }
        Checked::TooLong => false,
    }
}

// Returns whether the written bytes begin with those of the whole, and end with it after a whole item. `recode` may
// write less of a body that is cut.
fn goes_on_from(answer: &Answer, whole: &Recoded) -> bool {
    let is_enough = match answer.progress {
        Progress::Ended(_) => answer.written == whole.written,
        _ => answer.written >= whole.written,
    };
    is_enough && begins(&answer.out, whole)
}

// Returns the bytes that `recode` writes for those that a checker takes: all of them except the byte at fault.
fn recoded_of(whole: Feed, bytes: &[u8]) -> Recoded {
    let fault = usize::from(matches!(whole.progress, Checked::Fault(_)));
    let taken = whole.taken.min(bytes.len()).saturating_sub(fault);
    recoded(usize::MAX, &bytes[..taken])
}

// Copies an item in all ways. It compares the answers with that of a checker of the whole, and the written bytes with
// those of `recode`.
fn all_ways(rt: &impl Abort, spelling: Spelling, depth: usize, bytes: &[u8]) {
    let whole = checked(spelling, depth, bytes);
    let elements = recoded_of(whole, bytes);
    for cut in 0..=bytes.len() {
        for room in [1, 2, MOST] {
            let answer = copied(spelling, depth, bytes, cut, room);
            let is_right = agree(&answer, whole) && goes_on_from(&answer, &elements);
            holds(rt, is_right, depth, bytes, cut, room);
        }
    }
}

// Copies an item in all ways to some depths, in any spelling and in the shortest one.
pub fn to_depths(rt: &impl Abort, bytes: &[u8]) {
    for depth in [0, 1, 8] {
        all_ways(rt, Spelling::Any, depth, bytes);
        all_ways(rt, Spelling::Shortest, depth, bytes);
    }
}

// Each byte by itself, and each pair of bytes.
#[test]
fn each_first_byte(rt: HostRuntime) {
    for first in 0..=255 {
        all_ways(&rt, Spelling::Any, 1, &[first]);
        for second in [0x00, 0x18, 0x41, 0x5f, 0x61, 0x80, 0x9f, 0xff] {
            all_ways(&rt, Spelling::Any, 1, &[first, second]);
            all_ways(&rt, Spelling::Shortest, 1, &[first, second]);
        }
    }
}

// The spelling that is taken, a depth, bytes, the written bytes, and the progress. A fault is found with the first byte
// after which there is no item of this kind (RFC 8949, appendix F, and RFC 3629, 3).
type Written = (Spelling, usize, &'static [u8], &'static [u8], Progress);

static ROWS: [Written; 20] = [
    (Spelling::Any, 0, b"\x01", b"\x01", Progress::Ended(1)),
    (
        Spelling::Any,
        0,
        b"\x1b\x00\x00\x00\x00\x00\x00\x00\x18",
        b"\x18\x18",
        Progress::Ended(9),
    ),
    (
        Spelling::Any,
        1,
        b"\x98\x02\x58\x01\x01\x5f\x42\x02\x03\xff",
        b"\x82\x41\x01\x5f\x42\x02\x03\xff",
        Progress::Ended(10),
    ),
    (
        Spelling::Any,
        1,
        b"\xbf\x78\x01\x61\xf4\xff",
        b"\xbf\x61\x61\xf4\xff",
        Progress::Ended(6),
    ),
    (
        Spelling::Any,
        1,
        b"\xd9\x00\x01\x01",
        b"\xc1\x01",
        Progress::Ended(4),
    ),
    (
        Spelling::Any,
        2,
        b"\x82\x01\xb9\x00\x02\x02\x03\x04\x05",
        b"\x82\x01\xa2\x02\x03\x04\x05",
        Progress::Ended(9),
    ),
    (
        Spelling::Any,
        0,
        b"\x7f\x7f\xff\xff",
        b"\x7f\xff",
        Progress::Ended(4),
    ),
    (Spelling::Any, 0, b"", b"", Progress::More(1)),
    (Spelling::Any, 1, b"\x82\x19", b"\x82", Progress::More(2)),
    (Spelling::Any, 1, b"\x9f", b"\x9f", Progress::More(1)),
    (
        Spelling::Any,
        0,
        b"\x78\x03\x61\x62\xe2",
        b"\x63\x61\x62",
        Progress::Fault(Fault::Syntax(1)),
    ),
    (
        Spelling::Any,
        0,
        b"\x62\xc3\x41",
        b"\x62",
        Progress::Fault(Fault::Syntax(0)),
    ),
    (
        Spelling::Any,
        0,
        b"\x80",
        b"",
        Progress::Fault(Fault::Deep(0)),
    ),
    (
        Spelling::Any,
        1,
        b"\xd9\x00\x01\x81",
        b"\xc1",
        Progress::Fault(Fault::Deep(3)),
    ),
    (
        Spelling::Any,
        1,
        b"\xff",
        b"",
        Progress::Fault(Fault::Break(0)),
    ),
    (
        Spelling::Any,
        1,
        b"\xa1\xff",
        b"\xa1",
        Progress::Fault(Fault::Break(1)),
    ),
    (
        Spelling::Any,
        1,
        b"\x82\x1c",
        b"\x82",
        Progress::Fault(Fault::Syntax(1)),
    ),
    (
        Spelling::Any,
        0,
        b"\x5f\x18",
        b"\x5f",
        Progress::Fault(Fault::Syntax(1)),
    ),
    (
        Spelling::Shortest,
        0,
        b"\x18\x17",
        b"",
        Progress::Fault(Fault::Syntax(0)),
    ),
    (
        Spelling::Shortest,
        0,
        b"\x7f\x7f\xff\xff",
        b"\x7f",
        Progress::Fault(Fault::Syntax(1)),
    ),
];

// Returns whether the copy of an item wrote this, and has come this far.
fn is_row(answer: &Answer, out: &[u8], progress: Progress) -> bool {
    let is_written = answer.written == out.len() && answer.out.starts_with(out);
    is_written && answer.progress == progress
}

fn row(rt: &impl Abort, written: Written) {
    let (spelling, depth, bytes, out, progress) = written;
    for cut in 0..=bytes.len() {
        let answer = copied(spelling, depth, bytes, cut, 1);
        holds(rt, is_row(&answer, out, progress), depth, bytes, cut, 1);
    }
}

#[test]
fn each_row(rt: HostRuntime) {
    for written in &ROWS {
        row(&rt, *written);
    }
}

// Returns how far a copier has come after these bytes, which it has room for.
fn progress_after(mut copier: ItemCopier, bytes: &[u8]) -> Progress {
    copier.feed(bytes, &mut [0; MOST]).progress
}

// Each constructor makes a copier of its spelling: a longer title is a fault for a strict one alone.
#[test]
fn by_each_constructor(rt: HostRuntime) {
    let longer = [0x18, 0x17];
    let ended = Progress::Ended(2);
    let refused = Progress::Fault(Fault::Syntax(0));
    let is_new = progress_after(ItemCopier::new(1), &longer) == ended;
    let is_any = progress_after(copier_of(Spelling::Any, 1), &longer) == ended;
    let is_strict = progress_after(ItemCopier::strict(1), &longer) == refused;
    let is_shortest = progress_after(copier_of(Spelling::Shortest, 1), &longer) == refused;
    all_hold(&rt, &[is_new, is_any, is_strict, is_shortest]);
}
