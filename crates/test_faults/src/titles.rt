use crate::calls::{
    MOST, decoded, decoder, failing_decoder, failing_encoder, holds, is_pulled, is_refused, pulls,
    reading_of,
};
use ciborium_ll::io::Write;
use ciborium_ll::{Decoder, Encoder, Error, Header, Spelling};
use std::process::Abort;
use test_support::devices::{DeviceFault, Failing, FailingReader, FailingWriter};
use test_support::plain::{self, Fault, Title};
use test_support::tape::Stop;

// The result of a pull of a title.
#[derive(Clone, Copy)]
enum Pulled {
    Header(Header),
    Syntax(usize),
    Short,
    // The reader failed, as planned.
    Unread,
    Wrong,
}

// Returns the plain answer of an outcome.
fn pulled_of(outcome: Result<Header, Error<DeviceFault>>) -> Pulled {
    match outcome {
        Ok(header) => Pulled::Header(header),
        Err(Error::Syntax(place)) => Pulled::Syntax(place),
        Err(Error::Io(DeviceFault::Short)) => Pulled::Short,
        Err(Error::Io(DeviceFault::Planned)) => Pulled::Unread,
        Err(_) => Pulled::Wrong,
    }
}

// Returns whether an answer is that of a plain reading.
fn is_plain(answer: Pulled, want: Result<Title, Fault>) -> bool {
    match answer {
        Pulled::Header(header) => matches!(want, Ok(title) if title.header() == header),
        Pulled::Syntax(place) => want.err() == Some(Fault::Syntax(place)),
        Pulled::Short => want.err() == Some(Fault::Short),
        Pulled::Unread | Pulled::Wrong => false,
    }
}

// Returns whether a failed read is one of a first byte that was not read, or of the affix after a first byte that was.
fn is_unread(start: usize, offset: usize, calls: usize, failing: usize) -> bool {
    let read = offset.saturating_sub(start);
    offset >= start && read <= 1 && calls.saturating_add(read).saturating_add(1) == failing
}

// Returns how many reads a title takes.
fn reads_of(title: Result<Title, Fault>) -> usize {
    match title {
        Ok(title) => title.reads(),
        Err(_) => 1,
    }
}

// The result of a plain reading at an offset, its end, and how many reads it takes. For a strict decoder a title can be
// a fault.
#[derive(Clone, Copy)]
struct Plain {
    want: Result<Title, Fault>,
    behind: usize,
    reads: usize,
}

// Reads a title plainly.
fn plain_at(bytes: &[u8], start: usize, spelling: Spelling) -> Plain {
    let mut behind = start;
    let title = plain::next_title(bytes, &mut behind);
    let want = if spelling.is_shortest() {
        title.and_then(plain::strictly)
    } else {
        title
    };
    Plain {
        want,
        behind,
        reads: reads_of(title),
    }
}

// Reads bytes as titles, and compares each answer with a plain reading from the offset at which that call begins.
fn reads_on(
    rt: &impl Abort,
    decoder: &mut Decoder<FailingReader<'_>>,
    spelling: Spelling,
    bytes: &[u8],
    failing: usize,
) {
    let mut calls = 0usize;
    for _ in 0..bytes.len().saturating_add(3) {
        let start = decoder.offset();
        let answer = pulled_of(pulls(decoder));
        let offset = decoder.offset();
        let plain = plain_at(bytes, start, spelling);
        let is_right = if matches!(answer, Pulled::Unread) {
            is_unread(start, offset, calls, failing)
        } else {
            is_plain(answer, plain.want) && offset == plain.behind
        };
        holds(rt, is_right, failing, bytes);
        calls = calls.saturating_add(plain.reads);
        if plain.want.err() == Some(Fault::Short) && start >= bytes.len() {
            break;
        }
    }
}

// Reads bytes as titles by a reader that fails at one call. It returns whether that call has come.
pub fn reads_titles(rt: &impl Abort, spelling: Spelling, bytes: &[u8], failing: usize) -> bool {
    let mut decoder = failing_decoder(spelling, bytes, Failing::Call(failing));
    reads_on(rt, &mut decoder, spelling, bytes, failing);
    let (offset, left, has_failed) = reading_of(decoder);
    holds(
        rt,
        offset.saturating_add(left) == bytes.len(),
        failing,
        bytes,
    );
    has_failed
}

// The call of each number fails in turn, until none does. Only the answer of that call changes.
pub fn each_read_fails_under_pull(rt: &impl Abort, spelling: Spelling, hex: &str) {
    let mut space = [0; MOST];
    let bytes = decoded(rt, hex, &mut space);
    let mut last = 0usize;
    for call in 1..=64usize {
        if !reads_titles(rt, spelling, bytes, call) {
            last = call;
            break;
        }
    }
    holds(rt, last > 0, last, bytes);
}

// A title with no affix takes two calls all the same, and the second moves no byte. A refused title does so too. After
// a reserved minor there is no second call.
#[test]
fn an_empty_affix_is_a_call(rt: HostRuntime) {
    let bytes = [5, 0xff, 0x1f, 0x3f, 0xdf, 0x1c];
    let mut decoder = failing_decoder(Spelling::Any, &bytes, Failing::Empty);
    for offset in 1..=5usize {
        let is_unread = is_refused(&mut decoder, Stop::Planned) && decoder.offset() == offset;
        holds(&rt, is_unread, offset, &bytes);
    }
    holds(&rt, is_refused(&mut decoder, Stop::Syntax(5)), 6, &bytes);
}

// Returns whether a write of a header fails as planned, and a write of no bytes fails too.
fn empty_writes_fail(encoder: &mut Encoder<FailingWriter<'_>>, header: Header) -> bool {
    matches!(encoder.push(header), Err(DeviceFault::Planned))
        && matches!(encoder.write_all(&[]), Err(DeviceFault::Planned))
}

// A write of a header of this byte takes two calls too, and the second moves no byte.
fn empty_affix_row(rt: &impl Abort, header: Header, first: u8) {
    let mut space = [0; 1];
    let mut encoder = failing_encoder(&mut space, Failing::Empty);
    let has_failed = empty_writes_fail(&mut encoder, header);
    let writer = encoder.into_inner();
    let is_right = has_failed && writer.written() == [first].as_slice();
    holds(rt, is_right, usize::from(first), writer.written());
}

#[test]
fn an_empty_affix_is_written(rt: HostRuntime) {
    empty_affix_row(&rt, Header::Positive(5), 5);
    empty_affix_row(&rt, Header::Break, 0xff);
}

// Asks for a title whose read of this number fails, and once more. The first pull reads up to this offset, and the next
// one gives this number.
fn asks_once_more(rt: &impl Abort, bytes: &[u8], call: usize, offset: usize, want: u64) {
    let mut decoder = failing_decoder(Spelling::Any, bytes, Failing::Call(call));
    let is_unread = is_refused(&mut decoder, Stop::Planned) && decoder.offset() == offset;
    let is_right = is_unread && is_pulled(&mut decoder, Header::Positive(want));
    holds(rt, is_right, call, bytes);
}

// A failure at the first byte loses nothing, and the next call gives the title. A failure at the affix loses that byte.
#[test]
fn a_title_is_asked_for_once_more(rt: HostRuntime) {
    let bytes = [0x19, 0x18, 0x18];
    asks_once_more(&rt, &bytes, 1, 0, 0x1818);
    asks_once_more(&rt, &bytes, 2, 1, 0x18);
    let is_whole = is_pulled(
        &mut decoder(Spelling::Any, &bytes),
        Header::Positive(0x1818),
    );
    holds(&rt, is_whole, 0, &bytes);
}
