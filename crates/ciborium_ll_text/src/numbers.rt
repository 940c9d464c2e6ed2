//! A text's state as a plain number, for a caller that keeps it in its own memory.

ghost use Rattle.std.specs.Prelude.{◌≡◌, Some};
ghost use Rattle.ciborium_ll_text.specs.Numbers.{state_in};

use crate::state::State;

impl State {
    /// Returns the state's number, from 0 to 8.
    pub fn number(self) -> u8
        ensures { state_in result ≡ Some self }
    {
        match self {
            State::Between => 0,
            State::OneDue => 1,
            State::TwoDue => 2,
            State::ThreeDue => 3,
            State::BehindE0 => 4,
            State::BehindEd => 5,
            State::BehindF0 => 6,
            State::BehindF4 => 7,
            State::Damaged => 8,
        }
    }

    /// Returns the state with this number, or `None` above 8.
    pub fn of_number(number: u8) -> Option<State>
        ensures { result ≡ state_in number }
    {
        match number {
            0 => Some(State::Between),
            1 => Some(State::OneDue),
            2 => Some(State::TwoDue),
            3 => Some(State::ThreeDue),
            4 => Some(State::BehindE0),
            5 => Some(State::BehindEd),
            6 => Some(State::BehindF0),
            7 => Some(State::BehindF4),
            8 => Some(State::Damaged),
            _ => None,
        }
    }
}
