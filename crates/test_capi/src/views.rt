// Views of an item and of its parts, each call once for each answer, by bytes that were worked by hand.

use crate::told::{Told, is_told, nothing, told};
use capi::{
    CllAnswer, CllBody, CllHeader, CllItem, CllItems, cll_item_bytes, cll_item_get,
    cll_item_get_int, cll_item_get_text, cll_item_header, cll_item_items, cll_item_next,
    cll_item_parse, cll_item_text,
};
use std::process::Abort;

// The bytes and the depth of a view.
type Part<'a> = (&'a [u8], u32);

// What stands in a view before a call. It begins no item.
const BEFORE: Part = (&[0x1c], 9);

fn view_of(part: Part) -> CllItem {
    CllItem {
        bytes: part.0,
        depth: part.1,
    }
}

// Bytes, the depth, the answer, how many bytes were consumed, the place, and the item.
type Parsed = (&'static [u8], u32, CllAnswer, u64, u64, Part<'static>);

static PARSED: [Parsed; 6] = [
    (
        &[0x82, 0x01, 0x02, 0x03],
        1,
        CllAnswer::Ok,
        3,
        0,
        (&[0x82, 0x01, 0x02], 1),
    ),
    (&[0x82, 0x01], 1, CllAnswer::Short, 2, 1, BEFORE),
    (&[0x81, 0x1c], 1, CllAnswer::Syntax, 2, 1, BEFORE),
    (&[0x81, 0xff], 1, CllAnswer::BreakDue, 2, 1, BEFORE),
    (&[0x80], 0, CllAnswer::TooDeep, 1, 0, BEFORE),
    (&[0x00], 257, CllAnswer::Argument, 0, 0, BEFORE),
];

// Parses an item. Returns the results, and the view.
fn parsed(bytes: &'static [u8], depth: u32) -> (Told, CllItem<'static>) {
    let mut item = view_of(BEFORE);
    let mut report = nothing();
    let code = cll_item_parse(bytes, depth, &mut item, &mut report);
    (told(code, &report), item)
}

fn parse_row(rt: &impl Abort, row: &Parsed) {
    let (results, item) = parsed(row.0, row.1);
    let is_right = is_told(&results, row.2, [row.3, 0, row.4]);
    assert!(rt; is_right && item.bytes == row.5.0 && item.depth == row.5.1, "at {:?}", row.0);
}

#[test]
fn parses(rt: HostRuntime) {
    for row in &PARSED {
        parse_row(&rt, row);
    }
}

// The bytes of a view, the answer, and the kind, the form and the value of the header.
type Headed = (&'static [u8], CllAnswer, u8, u8, u64);

static HEADED: [Headed; 3] = [
    (&[0x19, 0x03, 0xe8], CllAnswer::Ok, 0, 0, 1000),
    (&[0x9f, 0xff], CllAnswer::Ok, 4, 1, 0),
    (&[0x1c], CllAnswer::Argument, 98, 97, 99),
];

fn header_row(rt: &impl Abort, row: &Headed) {
    let mut header = CllHeader {
        value: 99,
        kind: 98,
        indefinite: 97,
    };
    let code = cll_item_header(&view_of((row.0, 1)), &mut header);
    let is_right = header.kind == row.2 && header.indefinite == row.3 && header.value == row.4;
    assert!(rt; code == row.1.code() && is_right, "at {:?}", row.0);
}

#[test]
fn headers(rt: HostRuntime) {
    for row in &HEADED {
        header_row(&rt, row);
    }
}

// The bytes of a view, whether a text is asked for, the answer, and the body.
type Held = (&'static [u8], bool, CllAnswer, &'static [u8]);

static HELD: [Held; 7] = [
    (&[0x42, 0x01, 0x02], false, CllAnswer::Ok, &[0x01, 0x02]),
    (&[0x40], false, CllAnswer::Ok, &[]),
    (&[0x42, 0x01, 0x02], true, CllAnswer::Absent, &[0x1c]),
    (&[0x62, 0xc3, 0xbc], true, CllAnswer::Ok, &[0xc3, 0xbc]),
    (&[0x62, 0xc3, 0xbc], false, CllAnswer::Absent, &[0x1c]),
    (&[0x5f, 0x41, 0x01, 0xff], false, CllAnswer::Absent, &[0x1c]),
    // A body that is longer than its title says is none.
    (&[0x41, 0x01, 0x02], false, CllAnswer::Absent, &[0x1c]),
];

fn body_row(rt: &impl Abort, row: &Held) {
    let item = view_of((row.0, 0));
    let mut body = CllBody { bytes: BEFORE.0 };
    let code = if row.1 {
        cll_item_text(&item, &mut body)
    } else {
        cll_item_bytes(&item, &mut body)
    };
    assert!(rt;
        code == row.2.code() && body.bytes == row.3,
        "at {:?}",
        row.0
    );
}

#[test]
fn bodies(rt: HostRuntime) {
    for row in &HELD {
        body_row(&rt, row);
    }
}

// A view, the answer, the items in it, the answer of the first step, the first item, and the others.
type Listed = (
    Part<'static>,
    CllAnswer,
    Part<'static>,
    CllAnswer,
    Part<'static>,
    Part<'static>,
);

static LISTED: [Listed; 7] = [
    (
        (&[0x82, 0x81, 0x01, 0x02], 2),
        CllAnswer::Ok,
        (&[0x81, 0x01, 0x02], 1),
        CllAnswer::Ok,
        (&[0x81, 0x01], 1),
        (&[0x02], 1),
    ),
    (
        (&[0xbf, 0x01, 0x02, 0xff], 1),
        CllAnswer::Ok,
        (&[0x01, 0x02], 0),
        CllAnswer::Ok,
        (&[0x01], 0),
        (&[0x02], 0),
    ),
    (
        (&[0x5f, 0x41, 0x01, 0xff], 0),
        CllAnswer::Ok,
        (&[0x41, 0x01], 0),
        CllAnswer::Ok,
        (&[0x41, 0x01], 0),
        (&[], 0),
    ),
    (
        (&[0xc1, 0x00], 1),
        CllAnswer::Ok,
        (&[0x00], 0),
        CllAnswer::Ok,
        (&[0x00], 0),
        (&[], 0),
    ),
    (
        (&[0x80], 1),
        CllAnswer::Ok,
        (&[], 0),
        CllAnswer::Absent,
        BEFORE,
        (&[], 0),
    ),
    // A break is missing.
    (
        (&[0x9f, 0x01], 1),
        CllAnswer::Absent,
        BEFORE,
        CllAnswer::Argument,
        BEFORE,
        BEFORE,
    ),
    // No level is left.
    (
        (&[0x81, 0x01], 0),
        CllAnswer::Absent,
        BEFORE,
        CllAnswer::Argument,
        BEFORE,
        BEFORE,
    ),
];

fn list_row(rt: &impl Abort, row: &Listed) {
    let mut items = CllItems {
        bytes: BEFORE.0,
        depth: BEFORE.1,
    };
    let mut item = view_of(BEFORE);
    let code = cll_item_items(&view_of(row.0), &mut items);
    let lists = items.bytes == row.2.0 && items.depth == row.2.1;
    assert!(rt; code == row.1.code() && lists, "at {:?}", row.0.0);
    let code = cll_item_next(&mut items, &mut item);
    let steps = items.bytes == row.5.0 && items.depth == row.5.1;
    let takes = item.bytes == row.4.0 && item.depth == row.4.1;
    assert!(rt; code == row.3.code() && steps && takes, "at {:?}", row.0.0);
}

#[test]
fn lists(rt: HostRuntime) {
    for row in &LISTED {
        list_row(&rt, row);
    }
}

// A depth above the greatest is no argument of a step, also before an item.
#[test]
fn a_step_takes_no_greater_depth(rt: HostRuntime) {
    let mut items = CllItems {
        bytes: &[0x00],
        depth: 257,
    };
    let mut item = view_of(BEFORE);
    let code = cll_item_next(&mut items, &mut item);
    assert!(rt; code == CllAnswer::Argument.code() && items.bytes.len() == 1 && item.depth == 9);
}

// A key: the bytes of an item, a text, or an integer.
#[derive(Clone, Copy)]
enum Key {
    Bytes(&'static [u8]),
    Text(&'static [u8]),
    Integer(i64),
}

// The bytes of a view to a depth of 1, the key, the answer, and the value.
type Found = (&'static [u8], Key, CllAnswer, Part<'static>);

// A map of indefinite length: 1, in two bytes, is "a"; -1 is 0; "k" is 2, and once more 3.
const MAP: &[u8] = &[
    0xbf, 0x18, 0x01, 0x61, 0x61, 0x20, 0x00, 0x61, 0x6b, 0x02, 0x7f, 0x61, 0x6b, 0xff, 0x03, 0xff,
];

static FOUND: [Found; 13] = [
    (
        MAP,
        Key::Bytes(&[0x18, 0x01]),
        CllAnswer::Ok,
        (&[0x61, 0x61], 0),
    ),
    (MAP, Key::Bytes(&[0x01]), CllAnswer::Absent, BEFORE),
    (MAP, Key::Text(&[0x6b]), CllAnswer::Ok, (&[0x02], 0)),
    (MAP, Key::Text(&[0x6b, 0x6b]), CllAnswer::Absent, BEFORE),
    (MAP, Key::Text(&[0xff]), CllAnswer::Argument, BEFORE),
    (MAP, Key::Integer(1), CllAnswer::Ok, (&[0x61, 0x61], 0)),
    (MAP, Key::Integer(-1), CllAnswer::Ok, (&[0x00], 0)),
    (MAP, Key::Integer(i64::MIN), CllAnswer::Absent, BEFORE),
    (&[0x80], Key::Bytes(&[0x01]), CllAnswer::Absent, BEFORE),
    (&[0x80], Key::Text(&[0x6b]), CllAnswer::Absent, BEFORE),
    // No item, and an item with a byte after it.
    (&[0xa1, 0x01], Key::Integer(1), CllAnswer::Argument, BEFORE),
    (
        &[0xa0, 0x00],
        Key::Bytes(&[0x01]),
        CllAnswer::Argument,
        BEFORE,
    ),
    (&[], Key::Text(&[]), CllAnswer::Argument, BEFORE),
];

fn find_row(rt: &impl Abort, row: &Found) {
    let item = view_of((row.0, 1));
    let mut value = view_of(BEFORE);
    let code = match row.1 {
        Key::Bytes(bytes) => cll_item_get(&item, bytes, &mut value),
        Key::Text(text) => cll_item_get_text(&item, text, &mut value),
        Key::Integer(number) => cll_item_get_int(&item, number, &mut value),
    };
    let is_right = value.bytes == row.3.0 && value.depth == row.3.1;
    assert!(rt; code == row.2.code() && is_right, "at {:?}", row.0);
}

#[test]
fn finds(rt: HostRuntime) {
    for row in &FOUND {
        find_row(&rt, row);
    }
}

// The answer of these calls has a number that does not change.
#[test]
fn the_number_is_that_of_the_header(rt: HostRuntime) {
    assert!(rt; CllAnswer::Absent.code() == 12);
}
