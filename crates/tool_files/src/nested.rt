//! Shows the items that byte strings of a dump contain, out of lent memory (RFC 8949, 3.4.5.1).
//!
//! A string in a string is shown by another instance of the same functions, so the types say how many may contain one
//! another.

ghost use Rattle.std.specs.Prelude.{◌≡◌, ◌≤◌, ◌<◌, ◌+◌, ◌++◌, ℕ, true, length, nat_lt, suc, take, OnOk};
ghost use Rattle.ciborium_ll.specs.Limits.{MOST_LEVELS};
ghost use Rattle.ciborium_ll.specs.Decoding.{offset_limit};
ghost use Rattle.tool_files.specs.Embeds.{HandsOn, is_held, is_item_tag};

use cbor_dump::embedded::{Deepen, dump_body};
use cbor_dump::rows::{Meaning, Row, Rows, Within};
use cbor_embedded::{ENCODED_ITEM, Embedded};
use ciborium_ll::{Header, Spelling};
use std::io;
use std::marker::PhantomData;

/// At most eight byte strings that contain one another are shown as items.
pub(crate) type Strings = Deeper<Deeper<Deeper<Deeper<Deeper<Deeper<Deeper<Deeper<Flat>>>>>>>>;

/// How many bytes a row of a body has at most.
const ROW_BYTES: usize = 16;

/// Which byte strings are shown as the item that they contain, and how many levels deep the items may be nested.
#[derive(Clone, Copy)]
pub(crate) struct Asked {
    pub(crate) embedded: Embedded,
    pub(crate) depth: usize,
    ghost shallow: { depth ≤ MOST_LEVELS },
}

/// The body of a byte string: its length, the offset of its first byte, and the level of its rows.
#[derive(Clone, Copy)]
pub(crate) struct Body {
    len: usize,
    offset: usize,
    level: usize,
}

/// How many byte strings that contain one another are shown as items.
pub(crate) trait Bodies: Sized {
    ghost strings: { ℕ };

    /// Returns whether any is.
    fn are_followed() -> bool
        ensures { result ≡ nat_lt 0 strings };

    /// Shows the body of a byte string as the item that it is, in rows this many levels deeper, and returns whether it
    /// did. Otherwise the call took no row. The memory is lent for the strings in the item.
    fn show<S: Rows>(
        rows: &mut S,
        bytes: &[u8],
        offset: usize,
        levels: usize,
        asked: Asked,
        memory: &mut [u8],
    ) -> Result<bool, S::Error>;
}

/// No byte string is shown as an item.
#[derive(Drop)]
pub(crate) struct Flat(());

impl Bodies for Flat {
    ghost strings = { 0 };

    fn are_followed() -> bool {
        false
    }

    fn show<S: Rows>(
        _rows: &mut S,
        _bytes: &[u8],
        _offset: usize,
        _levels: usize,
        _asked: Asked,
        _memory: &mut [u8],
    ) -> Result<bool, S::Error> {
        Ok(false)
    }
}

/// One more byte string is shown as an item.
#[derive(Drop)]
pub(crate) struct Deeper<B>(PhantomData<B>);

impl<B: Bodies> Bodies for Deeper<B> {
    ghost strings = { suc B.strings };

    fn are_followed() -> bool {
        true
    }

    fn show<S: Rows>(
        rows: &mut S,
        bytes: &[u8],
        offset: usize,
        levels: usize,
        asked: Asked,
        memory: &mut [u8],
    ) -> Result<bool, S::Error> {
        // The item may be in any spelling, as in `diag`.
        let mut holder = Holder::<B, S>::new(rows, memory, asked);
        let is_shown = dump_body(
            bytes,
            offset,
            levels,
            asked.depth,
            Spelling::Any,
            &mut holder,
        )?;
        holder.let_go()?;
        Ok(is_shown)
    }
}

/// Takes the rows of a dump, and tells where the bytes after them would stand.
pub(crate) trait Levels: Rows {
    /// Returns the level of a part of the last row's title or body.
    fn below(&self) -> usize;

    /// Takes the fault with which a row was refused.
    fn take_fault(&mut self) -> io::Error;
}

/// Takes rows, and holds those of a byte string's body until all of them have come. If the body is one item, the rows of
/// the item take their place. Otherwise they are handed on as they came.
#[derive(Drop)]
pub(crate) struct Holder<'m, B, S> {
    rows: &'m mut S,
    memory: &'m mut [u8],
    asked: Asked,
    /// How many levels deeper each row is handed on.
    base: usize,
    /// The body whose rows are held.
    body: Option<Body>,
    /// How many bytes of it came.
    count: usize,
    /// How many strings of indefinite length the next title stands within.
    opens: usize,
    /// Whether the last row was the title of a tag of an encoded item.
    is_tagged: bool,
    /// The level of a part of the last row's title or body.
    below: usize,
    bodies: PhantomData<B>,
}

impl<'m, B: Bodies, S: Rows> Holder<'m, B, S> {
    /// Makes a holder that holds nothing, and hands rows on as they are.
    pub(crate) fn new(rows: &'m mut S, memory: &'m mut [u8], asked: Asked) -> Holder<'m, B, S> {
        Holder {
            rows,
            memory,
            asked,
            base: 0,
            body: None,
            count: 0,
            opens: 0,
            is_tagged: false,
            below: 0,
            bodies: PhantomData,
        }
    }

    /// Hands on the bytes that are held, in rows as they came.
    ///
    /// # Errors
    ///
    /// The error of the refused row.
    pub(crate) fn let_go(&mut self) -> Result<(), S::Error> {
        let Some(body) = self.body else {
            return Ok(());
        };
        let count = self.count.min(self.memory.len());
        self.body = None;
        self.count = 0;
        let level = self.base.saturating_add(body.level);
        let (held, _) = self.memory.split_at_mut(count);
        put_rows(self.rows, held, body.offset, level)
    }

    /// Holds a row of a body. If the row is the last one, the call shows the body.
    fn hold(&mut self, row: Row<'_>, body: Body) -> Result<(), S::Error> {
        if !put_bytes(self.memory, self.count, row.bytes) {
            // A body is as long as its title says, so this is no case.
            self.let_go()?;
            return self.hand_on(row);
        }
        self.count = self.count.saturating_add(row.bytes.len());
        if self.count < body.len {
            return Ok(());
        }
        self.show(body)
    }

    /// Shows the body that is held.
    fn show(&mut self, body: Body) -> Result<(), S::Error> {
        let level = self.base.saturating_add(body.level);
        let asked = self.asked.below(body.level);
        let count = self.count.min(self.memory.len());
        let (bytes, rest) = self.memory.split_at_mut(count);
        if B::show(self.rows, bytes, body.offset, level, asked, rest)? {
            self.body = None;
            self.count = 0;
            return Ok(());
        }
        self.let_go()
    }

    /// Returns the body that a title begins, if its rows are held.
    fn body_after(&self, row: &Row<'_>) -> Option<Body> {
        match row.meaning {
            Meaning::Header(Header::Bytes(Some(len))) if self.holds(len, row.level) => Some(Body {
                len,
                offset: row.offset.saturating_add(row.bytes.len()),
                level: row.level.saturating_add(1),
            }),
            _ => None,
        }
    }

    /// Returns whether the rows of a byte string of this length are held. Its title has this level.
    fn holds(&self, len: usize, level: usize) -> bool
        ensures { result ≡ is_held self.now.asked.embedded (record {
          tagged = self.now.is_tagged;
          opens = self.now.opens;
          level = level;
        }) self.now.asked.depth B.strings (length self.now.memory.now) len }
    {
        let is_asked = match self.asked.embedded {
            Embedded::Nowhere => false,
            Embedded::Tagged => self.is_tagged,
            Embedded::Everywhere => true,
        };
        is_asked
            && self.opens == 0
            && level < self.asked.depth
            && len <= self.memory.len()
            && B::are_followed()
    }

    /// Hands on a row at its level.
    fn hand_on(&mut self, row: Row<'_>) -> Result<(), S::Error> {
        self.rows.row(Row {
            level: self.base.saturating_add(row.level),
            offset: row.offset,
            bytes: row.bytes,
            meaning: row.meaning,
            within: row.within,
        })
    }
}

impl Asked {
    /// Returns the same for the item in a byte string whose body has this level.
    fn below(self, level: usize) -> Asked {
        Asked {
            embedded: self.embedded,
            depth: self.depth.saturating_sub(level),
        }
    }
}

impl<B: Bodies, S: Rows> Rows for Holder<'_, B, S> {
    ghost use Rattle.std.specs.Prelude.{None};

    type Error = S::Error;

    ghost drawn = { λ _. None };

    /// Takes a row, and hands it on or holds it.
    ///
    /// # Errors
    ///
    /// The error of the row that was handed on and refused.
    fn row(&mut self, row: Row<'_>) -> Result<(), S::Error> {
        self.below = level_below(&row);
        if let (Some(body), Meaning::Bytes) = (self.body, row.meaning) {
            return self.hold(row, body);
        }
        self.let_go()?;
        self.body = self.body_after(&row);
        self.opens = opens_after(self.opens, row.meaning);
        self.is_tagged = is_tag(row.meaning);
        self.hand_on(row)
    }
}

impl<B: Bodies, S: Levels> Levels for Holder<'_, B, S> {
    fn below(&self) -> usize {
        self.below
    }

    fn take_fault(&mut self) -> io::Error {
        self.rows.take_fault()
    }
}

impl<B: Bodies, S: Rows> Deepen for Holder<'_, B, S> {
    ghost base = { λ holder. holder.base };

    fn deepen(&mut self, levels: usize) {
        self.base = levels;
    }
}

/// Copies bytes into memory after the first `count` bytes of it, and returns whether it has room for them.
fn put_bytes(memory: &mut [u8], count: usize, bytes: &[u8]) -> bool
    ensures { result ≡ true → take (count + length bytes.now) memory.new ≡ take count memory.old ++ bytes.now }
{
    if count > memory.len() || bytes.len() > memory.len() - count {
        return false;
    }
    memory[count..count + bytes.len()].copy_from_slice(bytes);
    true
}

/// Hands on bytes of a byte string's body, from this offset on, in rows of this level. A row has 16 bytes, and the last
/// one may have fewer.
fn put_rows<S: Rows>(
    rows: &mut S,
    bytes: &[u8],
    offset: usize,
    level: usize,
) -> Result<(), S::Error>
    ensures { offset + length bytes.now < offset_limit
        → OnOk result (HandsOn level offset (S.drawn rows.old) (S.drawn rows.new) bytes.now) }
{
    let mut at = 0;
    'parts: while at < bytes.len() {
        let end = at + ROW_BYTES.min(bytes.len() - at);
        rows.row(Row {
            level,
            offset: offset.saturating_add(at),
            bytes: &bytes[at..end],
            meaning: Meaning::Bytes,
            within: Within::Nothing,
        })?;
        at = end;
    }
    Ok(())
}

/// Returns the level of a part of a row: one deeper than a title, and otherwise the level of the row.
pub(crate) fn level_below(row: &Row<'_>) -> usize {
    match row.meaning {
        Meaning::Header(_) => row.level.saturating_add(1),
        Meaning::Bytes | Meaning::Text | Meaning::Fault => row.level,
    }
}

/// Returns how many strings of indefinite length the next title stands within.
fn opens_after(opens: usize, meaning: Meaning) -> usize {
    match meaning {
        Meaning::Header(Header::Bytes(None) | Header::Text(None)) => opens.saturating_add(1),
        Meaning::Header(Header::Break) => opens.saturating_sub(1),
        _ => opens,
    }
}

/// Returns whether bytes are the title of the tag of an encoded item.
fn is_tag(meaning: Meaning) -> bool
    ensures { result ≡ is_item_tag meaning }
{
    matches!(meaning, Meaning::Header(Header::Tag(ENCODED_ITEM)))
}
