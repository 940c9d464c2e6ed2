//! Reads the meaning of a row's bytes: a title, or a part of a text.

ghost use Rattle.std.specs.Prelude.{◌≡◌, ◌%◌, ℕ, List, ◌∷◌, length, None, Some};
ghost use Rattle.ciborium_ll.specs.Decoding.{IsSteady, offset_of, spelling_of, view, waiting_of};
ghost use Rattle.ciborium_ll.specs.Title.{affix_len};
ghost use Rattle.ciborium_ll_text.specs.States.{after};
ghost use Rattle.ciborium_ll_text.specs.declared.state.State.TheVariants.{Between};
ghost use Rattle.cbor_dump.specs.Parts.{is_between, is_inside};
ghost use Rattle.cbor_dump.specs.Takings.{AnswersTitle};

use ciborium_ll::io::{Read, SliceReader};
use ciborium_ll::{Decoder, Header, Spelling};
use ciborium_ll_text::state::{State, text_front};

/// Returns the header of a title, which has the first byte and as many bytes as that announces.
pub(crate) fn title_header(title: &[u8], spelling: Spelling) -> Option<Header>
    ensures { (first : ℕ) (affix : List ℕ) → title.now ≡ first ∷ affix → length affix ≡ affix_len (first % 32)
        → AnswersTitle spelling title.now result }
{
    whole_header(&mut Decoder::with_spelling(SliceReader::new(title), spelling, 0))
}

/// Returns the header of the title that is all that the decoder reads.
fn whole_header<R: Read>(decoder: &mut Decoder<R>) -> Option<Header>
where
    R::Error: Drop,
    ensures { (first : ℕ) (affix bytes : List ℕ) → IsSteady R.Read decoder.old → offset_of decoder.old ≡ 0
        → waiting_of decoder.old ≡ None → view R.Read decoder.old ≡ Some bytes → bytes ≡ first ∷ affix
        → length affix ≡ affix_len (first % 32) → AnswersTitle (spelling_of decoder.old) bytes result }
{
    decoder.pull().ok()
}

/// Returns the state of a text after these bytes.
fn state_of(bytes: &[u8]) -> State
    ensures { result ≡ after Between bytes.now }
{
    text_front(bytes, 0, State::Between).1
}

/// Returns whether the bytes are whole characters.
pub(crate) fn is_text(bytes: &[u8]) -> bool
    ensures { result ≡ is_between (after Between bytes.now) }
{
    matches!(state_of(bytes), State::Between)
}

/// Returns whether the bytes are whole characters and then the beginning of another one.
pub(crate) fn is_cut(bytes: &[u8]) -> bool
    ensures { result ≡ is_inside (after Between bytes.now) }
{
    !matches!(state_of(bytes), State::Between | State::Damaged)
}
