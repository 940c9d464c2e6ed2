// Byte strings that are shown as the item that they contain (RFC 8949, section 8, and RFC 8610, G.3). The rows were
// worked by hand.

use crate::exact::exact;
use crate::rows::{ACTED_ON, LONG, OTHER_VECTORS, VECTORS};
use crate::shared::{MOST, decoded, holds, is_encoded};
use cbor_diag::{Layout, Style, diagnose_embedded};
use cbor_embedded::Embedded;
use ciborium_ll::Decoder;
use ciborium_ll::io::{SliceReader, SliceWriter};
use std::alloc::Global;
use std::process::Abort;

// Rows of an item's bytes and its exact notation, if the content of the tag 24 is shown as an item.
static TAGGED: &str = "\
d81843820102 24(<<[1, 2]>>)
43820102 h'820102'
d81841f6 24(<<null>>)
41f6 h'f6'
d8184241f6 24(<<h'f6'>>)
d81845d8184241f6 24(<<24(<<h'f6'>>)>>)
c143820102 1(h'820102')
d81943820102 25(h'820102')
d8188241f641f6 24([h'f6', h'f6'])
d8185f4101ff 24((_ h'01'))
d81840 24(h'')
d818420102 24(h'0102')
d8184181 24(h'81')
d818411c 24(h'1c')
d81841ff 24(h'ff')
d818426161 24(<<\"a\">>)
d8184261ff 24(h'61ff')
d818421801 24(<<1_0>>)
d8185801f6 24(<<null>>_0)
d9001841f6 24_1(<<null>>)";

// The same, if each byte string that is one item is shown as the item.
static EVERYWHERE: &str = "\
40 h''
41f6 <<null>>
420102 h'0102'
43820102 <<[1, 2]>>
d81843820102 24(<<[1, 2]>>)
4241f6 <<<<null>>>>
8241f6420102 [<<null>>, h'0102']
a141014102 {<<1>>: <<2>>}
4381411c <<[h'1c']>>
5801f6 <<null>>_0
5f41f6ff (_ h'f6')
454443424100 <<<<<<<<<<0>>>>>>>>>>
484746454443424100 <<<<<<<<<<<<<<<<0>>>>>>>>>>>>>>>>
49484746454443424100 <<<<<<<<<<<<<<<<h'00'>>>>>>>>>>>>>>>>";

// Rows of a depth and an item's notation to that depth.
static DEPTHS: &str = "\
1 24(h'820102')
2 24(h'820102')
3 24(<<[1, 2]>>)";

// Rows of a length of the memory and an item's notation with it.
static ROOMS: &str = "\
0 h'41f6'
1 h'41f6'
2 <<h'f6'>>
3 <<<<null>>>>";

// How an item is shown.
#[derive(Clone, Copy)]
struct Asked {
    style: Style,
    embedded: Embedded,
    depth: usize,
    room: usize,
}

// Exact notation on one line, to a depth of 16 and with 64 bytes of memory.
fn asked_for(embedded: Embedded) -> Asked {
    Asked {
        style: exact(Layout::OneLine),
        embedded,
        depth: 16,
        room: 64,
    }
}

// A show: whether one whole item was read, and how many bytes were written to the start of the space.
#[derive(Clone, Copy)]
struct Shown {
    is_whole: bool,
    written: usize,
}

// Shows the item that the bytes begin with.
fn show(bytes: &[u8], asked: Asked, space: &mut [u8]) -> Shown {
    let mut lent = [0; 64];
    let room = asked.room.min(64);
    let mut decoder = Decoder::from(SliceReader::new(bytes));
    let mut writer = SliceWriter::new(space);
    let outcome = diagnose_embedded(
        &mut decoder,
        &mut writer,
        asked.depth.min(256),
        asked.style,
        asked.embedded,
        &mut lent[..room],
    );
    let is_whole = match outcome {
        Ok(()) => decoder.offset() == bytes.len(),
        Err(_) => false,
    };
    Shown {
        is_whole,
        written: writer.written().len(),
    }
}

// Returns whether the bytes are one item with this notation.
fn is_shown(bytes: &[u8], asked: Asked, notation: &[u8]) -> bool {
    let mut space = [0; 256];
    let shown = show(bytes, asked, &mut space);
    shown.is_whole && space.get(..shown.written) == Some(notation)
}

// Returns whether exact notation of the bytes is encoded as these bytes. It is also if the bytes are no item.
fn comes_back(alloc: Global, bytes: &[u8], asked: Asked) -> bool {
    let mut space = [0; 512];
    let shown = show(bytes, asked, &mut space);
    if !shown.is_whole {
        return true;
    }
    match space.get(..shown.written) {
        Some(notation) => is_encoded(alloc, notation, bytes),
        None => false,
    }
}

// Requires that the bytes of a row have the notation after them.
fn row_is_shown(rt: &impl Abort, row: &str, asked: Asked) {
    let (digits, notation) = row.split_once(' ').unwrap_or((row, ""));
    let mut space = [0; MOST];
    let bytes = decoded(rt, digits, &mut space);
    holds(rt, is_shown(bytes, asked, notation.as_bytes()), row);
}

// Requires that the bytes that the digits spell come back, whichever strings are shown as items.
fn row_comes_back(rt: &impl Abort, alloc: Global, digits: &str) {
    let mut space = [0; MOST];
    let bytes = decoded(rt, digits, &mut space);
    let is_right = comes_back(alloc, bytes, asked_for(Embedded::Nowhere))
        && comes_back(alloc, bytes, asked_for(Embedded::Tagged))
        && comes_back(alloc, bytes, asked_for(Embedded::Everywhere));
    holds(rt, is_right, digits);
}

// Requires that the bytes of each row come back.
fn rows_come_back(rt: &impl Abort, alloc: Global, rows: &str) {
    for row in rows.lines() {
        let (digits, _notation) = row.split_once(' ').unwrap_or((row, ""));
        row_comes_back(rt, alloc, digits);
    }
}

// Returns the number before the space of a row, and the text after it.
fn numbered(row: &str) -> (usize, &[u8]) {
    let (number, notation) = row.split_once(' ').unwrap_or((row, ""));
    (number.parse::<usize>().unwrap_or(99), notation.as_bytes())
}

#[test]
fn choices(rt: HostRuntime) {
    for row in TAGGED.lines() {
        row_is_shown(&rt, row, asked_for(Embedded::Tagged));
    }
    for row in EVERYWHERE.lines() {
        row_is_shown(&rt, row, asked_for(Embedded::Everywhere));
    }
    let nowhere = asked_for(Embedded::Nowhere);
    row_is_shown(&rt, "d81843820102 24(h'820102')", nowhere);
    row_is_shown(&rt, "43820102 h'820102'", nowhere);
}

#[test]
fn depths(rt: HostRuntime) {
    let bytes = [0xd8, 0x18, 0x43, 0x82, 0x01, 0x02];
    for row in DEPTHS.lines() {
        let (depth, notation) = numbered(row);
        let asked = Asked {
            depth,
            ..asked_for(Embedded::Tagged)
        };
        holds(&rt, is_shown(&bytes, asked, notation), row);
    }
}

#[test]
fn rooms(rt: HostRuntime) {
    let bytes = [0x42, 0x41, 0xf6];
    for row in ROOMS.lines() {
        let (room, notation) = numbered(row);
        let asked = Asked {
            room,
            ..asked_for(Embedded::Everywhere)
        };
        holds(&rt, is_shown(&bytes, asked, notation), row);
    }
}

#[test]
fn lines(rt: HostRuntime) {
    let asked = Asked {
        style: exact(Layout::Indented),
        ..asked_for(Embedded::Everywhere)
    };
    let bytes = [0x81, 0x43, 0x82, 0x01, 0x02];
    let notation = b"[\n  <<[\n    1,\n    2\n  ]>>\n]";
    holds(&rt, is_shown(&bytes, asked, notation), "lines");
}

// If a string is cut, nothing of it is shown.
#[test]
fn cut(rt: HostRuntime) {
    let mut space = [0; 16];
    let shown = show(
        &[0xd8, 0x18, 0x43, 0x82, 0x01],
        asked_for(Embedded::Tagged),
        &mut space,
    );
    let is_right = !shown.is_whole && space.get(..shown.written) == Some(b"24(");
    holds(&rt, is_right, "cut");
}

#[test]
fn embedded_bytes_come_back(rt: HostRuntime) {
    rows_come_back(&rt, rt.alloc(), TAGGED);
    rows_come_back(&rt, rt.alloc(), EVERYWHERE);
    rows_come_back(&rt, rt.alloc(), VECTORS);
    rows_come_back(&rt, rt.alloc(), OTHER_VECTORS);
    rows_come_back(&rt, rt.alloc(), ACTED_ON);
    for digits in &LONG {
        row_comes_back(&rt, rt.alloc(), digits);
    }
}

// Items of one and two bytes, and strings of two bytes.
#[test]
fn embedded_items_come_back(rt: HostRuntime) {
    let asked = asked_for(Embedded::Everywhere);
    for first in 0..=255u8 {
        holds(&rt, comes_back(rt.alloc(), &[first], asked), "one byte");
        for second in 0..=255u8 {
            let is_right = comes_back(rt.alloc(), &[first, second], asked)
                && comes_back(rt.alloc(), &[0x42, first, second], asked);
            holds(&rt, is_right, "two bytes");
        }
    }
}
