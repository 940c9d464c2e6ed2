//! Texts that come in chunks (Unicode, Table 3-7).

ghost use Rattle.std.specs.Prelude.{◌≡◌, ◌≢◌, ◌≤◌, ◌↔◌, IsTrue, length, take, drop};
ghost use Rattle.ciborium_ll_text.specs.States.{after, may_end, IsLastEnd};
ghost use Rattle.ciborium_ll_text.specs.Text.{IsCharacters, IsFront};
ghost use Rattle.ciborium_ll_text.specs.Windows.{after_window};
ghost use Rattle.ciborium_ll_text.specs.declared.state.State.TheVariants.{Between, Damaged};

use crate::blocks::{LEAST_LEN, all_follow};
use simdutf8::basic;

/// The state of a text after the bytes so far.
#[derive(Clone, Copy)]
pub enum State {
    /// Between two characters.
    Between,
    /// One byte of a character is due, from 80 to bf.
    OneDue,
    /// Two bytes of a character are due, each from 80 to bf.
    TwoDue,
    /// Three bytes of a character are due, each from 80 to bf.
    ThreeDue,
    /// After e0: two bytes are due, the next from a0 to bf.
    BehindE0,
    /// After ed: two bytes are due, the next from 80 to 9f.
    BehindEd,
    /// After f0: three bytes are due, the next from 90 to bf.
    BehindF0,
    /// After f4: three bytes are due, the next from 80 to 8f.
    BehindF4,
    /// No text begins with the bytes.
    Damaged,
}

impl State {
    /// Tells if `left` more bytes may end the text.
    #[inline(always)]
    pub fn may_end(self, left: usize) -> bool
        ensures { result ≡ may_end self left }
    {
        match self {
            State::Between => true,
            State::OneDue => left >= 1,
            State::TwoDue | State::BehindE0 | State::BehindEd => left >= 2,
            State::ThreeDue | State::BehindF0 | State::BehindF4 => left >= 3,
            State::Damaged => false,
        }
    }

    /// Returns the state after more bytes.
    #[inline(always)]
    #[tactic(auto, using(crate::proofs::StateLaws::ascii_stays))]
    fn run(self, bytes: &[u8]) -> State
        ensures { result ≡ after self bytes.now }
    {
        if let State::Between = self
            && bytes.is_ascii()
        {
            return State::Between;
        }
        self.run_other(bytes)
    }

    /// Returns the state after more bytes, which are probably not ASCII. The call does not ask for that first.
    #[inline(always)]
    pub fn run_other(self, bytes: &[u8]) -> State
        ensures { result ≡ after self bytes.now }
    {
        if bytes.len() < LEAST_LEN {
            return self.run_rows(bytes);
        }
        self.run_blocks(bytes)
    }

    /// Returns the state after more bytes, sixteen at once, or byte by byte if one may not follow the others.
    fn run_blocks(self, bytes: &[u8]) -> State
        requires { 19 ≤ length bytes.now }
        ensures { result ≡ after self bytes.now }
    {
        // The kept bytes precede the first three. The test below does not see them.
        if bytes[0] >= 0xf0 && bytes[1] >= 0xc0 {
            return self.run_rows(bytes);
        }
        let first = self.run_rows(&bytes[..3]);
        let window = behind_window(bytes[0], bytes[1], bytes[2]);
        if first.shift() != window.shift() {
            return self.run_rows(bytes);
        }
        if !all_follow(bytes) {
            return self.run_rows(bytes);
        }
        let len = bytes.len();
        behind_window(bytes[len - 3], bytes[len - 2], bytes[len - 1])
    }

    /// Returns the end of the last character of the bytes, which lead to the state `behind`.
    ///
    /// `self` is the state after the first `kept` bytes, in which no character ends.
    #[inline(always)]
    fn front_len(self, bytes: &[u8], kept: usize, behind: State) -> usize
        requires within { kept ≤ length bytes.now }
        requires told { self ≡ after Between (take kept bytes.now) }
        requires stuck { IsLastEnd (take kept bytes.now) 0 }
        requires behind { behind ≡ after Between bytes.now }
        ensures { IsLastEnd bytes.now result }
    {
        match behind {
            State::Between => bytes.len(),
            State::Damaged => self.last_end(bytes, kept),
            _ => behind.cut_end(bytes),
        }
    }

    /// Returns the end of the last character of the bytes, by a search from the byte at index `kept` on.
    ///
    /// `self` is the state after the first `kept` bytes, in which no character ends.
    #[cold]
    #[inline(never)]
    fn last_end(self, bytes: &[u8], kept: usize) -> usize
        requires within { kept ≤ length bytes.now }
        requires told { self ≡ after Between (take kept bytes.now) }
        requires stuck { IsLastEnd (take kept bytes.now) 0 }
        ensures { IsLastEnd bytes.now result }
    {
        let mut state = self;
        let mut end = 0;
        for at in kept..bytes.len() {
            state = state.step(bytes[at]);
            if let State::Between = state {
                end = at + 1;
            }
        }
        end
    }

    /// Returns the end of the last character of the bytes, which lead to this state inside a further character.
    ///
    /// The further character begins with one of the last three bytes.
    fn cut_end(self, bytes: &[u8]) -> usize
        requires told { self ≡ after Between bytes.now }
        requires inside { (self ≢ Between) × (self ≢ Damaged) }
        ensures { IsLastEnd bytes.now result }
    {
        let len = bytes.len();
        if bytes[len - 1] >= 0xc0 {
            len - 1
        } else if bytes[len - 2] >= 0xc0 {
            len - 2
        } else {
            len - 3
        }
    }
}

/// Returns the state after bytes that follow one another as in a text, from their last three.
///
/// The last of the three that begins a character gives the state.
#[inline(always)]
#[tactic(auto, unfolding(crate::specs::Windows::after_window))]
fn behind_window(x: u8, y: u8, z: u8) -> State
    ensures { result ≡ after_window x y z }
{
    if z < 0x80 {
        State::Between
    } else if z >= 0xc0 {
        State::Between.step(z)
    } else if y >= 0xf0 {
        State::TwoDue
    } else if y >= 0xe0 {
        State::OneDue
    } else if y >= 0xc0 {
        State::Between
    } else if x >= 0xf0 {
        State::OneDue
    } else {
        State::Between
    }
}

/// Reads a text's bytes once more, and returns them as a `&str`.
#[inline(always)]
#[tactic(auto, using(crate::proofs::Utf8Laws::to_std))]
pub fn text_of(bytes: &[u8]) -> &str
    requires { IsCharacters bytes.now }
    ensures { result.now ≡ bytes.now }
{
    match basic::from_utf8(bytes) {
        Ok(text) => text,
        Err(_) => unreachable!(),
    }
}

/// Returns the longest front that is text, and the state after all bytes.
///
/// `state` is the state after the first `kept` bytes, in which no character ends.
#[inline(always)]
pub fn text_front(bytes: &[u8], kept: usize, state: State) -> (&[u8], State)
    requires within { kept ≤ length bytes.now }
    requires told { state ≡ after Between (take kept bytes.now) }
    requires stuck { IsLastEnd (take kept bytes.now) 0 }
    ensures front { IsFront bytes.now result.0.now (drop (length result.0.now) bytes.now) }
    ensures state { result.1 ≡ after Between (drop (length result.0.now) bytes.now) }
{
    let behind = state.run(&bytes[kept..]);
    let len = state.front_len(bytes, kept, behind);
    (&bytes[..len], behind)
}

/// Returns whether the bytes are UTF-8 (Unicode, Table 3-7).
#[inline(always)]
#[tactic(auto, using(crate::proofs::FrontLaws::text_told))]
pub fn is_text(bytes: &[u8]) -> bool
    ensures { IsTrue result ↔ IsCharacters bytes.now }
{
    text_front(bytes, 0, State::Between).0.len() == bytes.len()
}
