//! A text as a whole: one item, or a sequence of items.

ghost use Rattle.std.specs.Prelude.{◌≤◌, length, IfErr, IfOk, OnOk};
ghost use Rattle.ciborium_ll_text.specs.Text.{IsCharacters};
ghost use Rattle.ciborium_ll_grammar.specs.Items.{IsItem};
ghost use Rattle.cbor_encode.specs.Left.{IsWithin, left_of};
ghost use Rattle.cbor_encode.specs.Places.{NamesDamage};
ghost use Rattle.cbor_encode.specs.Sequences.{AreSequence};

use crate::Expected;
use crate::cursor::{Cursor, Stop};
use crate::items::{Rules, put_item};
use crate::strings::text_len;
use std::alloc::Global;

/// Checks that the text is UTF-8.
#[tactic(auto, using(crate::proofs::DamageLaws::damage_named))]
pub(crate) fn check_text(text: &[u8]) -> Result<(), Stop>
    ensures text { OnOk result (IsCharacters text.now) }
    ensures place { IfErr result (IsWithin (length text.now)) }
    ensures damage { IfErr result (NamesDamage text.now) }
{
    let len = text_len(text);
    if len == text.len() {
        return Ok(());
    }
    Err(Stop {
        expected: Expected::Text,
        left: text.len() - len,
    })
}

/// Encodes a text that is one item.
pub(crate) fn read_one(text: &[u8], depth: usize, rules: Rules) -> Result<Vec<u8>, Stop>
    ensures item { IfOk result (λ bytes. IsItem rules.spelling depth bytes.items) }
    ensures place { IfErr result (IsWithin (length text.now)) }
{
    let mut bytes = Vec::new(rules.alloc);
    let mut cursor = Cursor { rest: text };
    cursor.skip_space()?;
    put_item(&mut cursor, &mut bytes, depth, rules)?;
    cursor.skip_space()?;
    if cursor.left() > 0 {
        return Err(cursor.fault(Expected::End));
    }
    Ok(bytes)
}

/// Encodes a text that is a sequence of items.
pub(crate) fn read_sequence(text: &[u8], depth: usize, rules: Rules) -> Result<Vec<u8>, Stop>
    ensures items { IfOk result (λ bytes. AreSequence rules.spelling depth bytes.items) }
    ensures place { IfErr result (IsWithin (length text.now)) }
{
    let mut bytes = Vec::new(rules.alloc);
    let mut cursor = Cursor { rest: text };
    cursor.skip_space()?;
    'items: while cursor.left() > 0 {
        put_item(&mut cursor, &mut bytes, depth, rules)?;
        end_of_item(&mut cursor)?;
    }
    Ok(bytes)
}

/// Moves after the white space and the comma that follow an item. One of the two or the end of the text has to be there.
fn end_of_item(cursor: &mut Cursor<'_>) -> Result<(), Stop>
    ensures within { left_of cursor.new ≤ left_of cursor.old }
    ensures place { IfErr result (IsWithin (left_of cursor.old)) }
{
    let left = cursor.left();
    cursor.skip_space()?;
    if cursor.take(b',') {
        return cursor.skip_space();
    }
    if cursor.left() == left && left > 0 {
        return Err(cursor.fault(Expected::Space));
    }
    Ok(())
}
