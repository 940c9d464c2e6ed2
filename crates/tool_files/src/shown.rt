//! Names as the program prints them.

ghost use Rattle.std.specs.Prelude.{Some};
ghost use Rattle.std.specs.Str.{chars};
ghost use Rattle.cbor_escapes.specs.Escapes.{terminal_texts};

use cbor_escapes::write_text;
use std::fmt;

/// Prints a name without the characters that a terminal acts on.
///
/// Control characters, line ends among them, and the characters that change the direction of a text are printed as `\u`
/// and their number in four hexadecimal digits.
#[derive(Clone, Copy, Drop)]
pub struct Shown<'n>(pub &'n str);

impl fmt::Display for Shown<'_> {
    ghost output = { λ shown. Some (terminal_texts (chars shown.0.now)) };

    fn fmt<W: fmt::Write>(&self, f: &mut fmt::Formatter<W>) -> fmt::Result {
        write_text(f, self.0)
    }
}

/// Prints a name that may be no UTF-8, as `Shown` prints a name. It prints a byte that belongs to no character as `\x` and
/// two hexadecimal digits.
#[derive(Clone, Copy, Drop)]
pub struct ShownBytes<'n>(pub &'n [u8]);

impl fmt::Display for ShownBytes<'_> {
    fn fmt<W: fmt::Write>(&self, f: &mut fmt::Formatter<W>) -> fmt::Result {
        for chunk in self.0.utf8_chunks() {
            write_text(f, chunk.valid())?;
            for byte in chunk.invalid() {
                write!(f, "\\x{byte:02x}")?;
            }
        }
        Ok(())
    }
}
