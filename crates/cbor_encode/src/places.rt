//! The line and the column of a place.

ghost use Rattle.std.specs.Prelude.{◌≡◌, ◌<◌, ◌-◌, ◌^◌, length};
ghost use Rattle.cbor_encode.specs.Left.{IsWithin};
ghost use Rattle.cbor_encode.specs.Places.{IsFaultIn, NamesDamage, column_after, line_after, next_column, next_line};

use crate::NotationError;
use crate::cursor::Stop;

/// Returns the error of a stop, with its line and its column in the text.
#[tactic(auto, using(crate::proofs::DamageLaws::fault_at))]
pub(crate) fn located(text: &[u8], stop: Stop) -> NotationError
    requires within { IsWithin (length text.now) stop }
    requires damage { NamesDamage text.now stop }
    ensures { IsFaultIn text.now result }
{
    let place = text.len() - stop.left;
    NotationError {
        expected: stop.expected,
        place,
        line: line_after(&text[..place]),
        column: column_after(&text[..place]),
    }
}

/// Returns the line after these bytes.
fn line_after(bytes: &[u8]) -> usize
    ensures { result ≡ line_after 1 bytes.now }
{
    let mut line = 1;
    let mut rest = bytes;
    'bytes: while let Some((first, behind)) = rest.split_first() {
        if *first == b'\n' {
            line += 1;
        }
        rest = behind;
    }
    line
}

/// Returns the column after these bytes, in characters.
fn column_after(bytes: &[u8]) -> usize
    ensures { result ≡ column_after 1 bytes.now }
{
    let mut column = 1;
    let mut rest = bytes;
    'bytes: while let Some((first, behind)) = rest.split_first() {
        column = next_column(column, *first);
        rest = behind;
    }
    column
}

/// Returns the column after this byte.
fn next_column(column: usize, byte: u8) -> usize
    requires { column < 2 ^ 64 - 1 }
    ensures { result ≡ next_column column byte }
{
    match byte {
        b'\n' => 1,
        0x80..=0xbf => column,
        _ => column + 1,
    }
}
