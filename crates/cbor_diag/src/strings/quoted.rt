//! A writer that writes bytes as they stand between quotes, and tells the bytes that it got.

ghost use Rattle.std.specs.Prelude.{◌≡◌, ◌∷◌, [], Some, None, false};
ghost use Rattle.cbor_diag.specs.declared.strings.held.Held.TheVariants.{Nothing as NothingHeld};
ghost use Rattle.cbor_diag.specs.Passing.{passed_held};
ghost use Rattle.cbor_diag.specs.Quoting.{IsQuoted, failure_count, quotes_code, writer_code};

use super::held::Held;
use super::noted::{Noted, Tells};
use super::quotes::{Quotes, show_quoted};
use ciborium_ll::io::{Failures, Write};

/// Reads the facts that a writer tells.
struct Told;

impl<W: Write> Tells<W> for Told {
    ghost told = { λ writer. writer_code W.Write writer };
}

/// Writes bytes to another writer as they stand between quotes, each character of a text at its last byte. After a
/// failure it writes nothing more.
///
/// It tells the bytes that it got. It notes in `began` the facts that the other writer told at the start of the loan.
/// Its ghost field relates these to the bytes that were written to the other writer since.
#[derive(Drop)]
pub struct Quoted<'w, W: Write> {
    writer: &'w mut W,
    quotes: Quotes,
    held: Held,
    failed: bool,
    failures: Failures,
    began: Noted,
    given: Noted,
    ghost counted: { failures.count ≡ failure_count failed },
    ghost holds: { failed ≡ false → held ≡ passed_held quotes NothingHeld given.bytes },
    ghost quoted: { ∥ IsQuoted W.Write began.bytes quotes failed given.bytes writer.now ∥₁ },
}

impl<'w, W: Write> Quoted<'w, W> {
    /// Makes a writer that has no bytes yet.
    pub fn new(writer: &'w mut W, quotes: Quotes) -> Quoted<'w, W>
        ensures began { result.began.bytes ≡ writer_code W.Write writer.old }
        ensures given { result.given.bytes ≡ [] }
        ensures quotes { result.quotes ≡ quotes }
        ensures failed { result.failed ≡ false }
        ensures same_reference { result.writer.ghost_name ≡ writer.entry.ghost_name }
    {
        let began = Noted::of::<W, Told>(writer);
        Quoted {
            writer,
            quotes,
            held: Held::Nothing,
            failed: false,
            failures: Failures::new(),
            began,
            given: Noted::of::<(), Nothing>(&()),
        }
    }

    /// Returns the bytes of a character that are held.
    pub fn held(&self) -> Held
        ensures { result ≡ self.now.held }
    {
        self.held
    }
}

/// Reads no number off a value.
struct Nothing;

impl Tells<()> for Nothing {
    ghost told = { λ _. [] };
}

impl<'w, W: Write> Write for Quoted<'w, W> {
    type Error = W::Error;

    ghost written = { λ w. Some w.given.bytes };

    ghost room = { λ _. None };

    ghost failures = { λ w. w.failures.count };

    ghost flushed = { λ _ _. Unit {0} };

    // A call that gets the writer says that its target stays the same. So the target has only facts that no call
    // changes: the loan, the kind of quotes, and the facts that the other writer told at the start.
    ghost target = { λ w. Some (record { loan = w.writer.ghost_name; before = quotes_code w.quotes ∷ w.began.bytes }) };

    fn write_all(&mut self, data: &[u8]) -> Result<(), W::Error> {
        self.given.append(data);
        if self.failed {
            return Ok(());
        }
        match show_quoted(&mut *self.writer, self.quotes, &mut self.held, data) {
            Ok(()) => Ok(()),
            Err(fault) => {
                self.failed = true;
                self.failures.raise();
                Err(fault)
            }
        }
    }

    /// Does nothing. The owner of the other writer flushes it.
    fn flush(&mut self) -> Result<(), W::Error> {
        Ok(())
    }
}
