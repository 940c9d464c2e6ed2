//! A text's state, run byte by byte: one look-up in a table and one shift for each byte.

ghost use Rattle.std.specs.Prelude.{◌≡◌};
ghost use Rattle.ciborium_ll_text.specs.Rows.{shift_of};
ghost use Rattle.ciborium_ll_text.specs.States.{after, after_byte};
ghost use Rattle.ciborium_ll_text.specs.declared.state.State.{State as States};

use crate::state::State;

// The first bit of each state's entry in a row. In the entries this number stands for the state.
const BETWEEN: u64 = 0;

const ONE_DUE: u64 = 6;

const TWO_DUE: u64 = 12;

const THREE_DUE: u64 = 18;

const BEHIND_E0: u64 = 24;

const BEHIND_ED: u64 = 30;

const BEHIND_F0: u64 = 36;

const BEHIND_F4: u64 = 42;

const DAMAGED: u64 = 48;

/// An entry has six bits.
const ENTRY: u64 = 64;

// A byte that is not from 80 to bf. It damages a character.
const FIRST: u64 = (DAMAGED << ONE_DUE)
    | (DAMAGED << TWO_DUE)
    | (DAMAGED << THREE_DUE)
    | NOT_E0
    | NOT_ED
    | NOT_F0
    | NOT_F4
    | (DAMAGED << DAMAGED);

const ASCII: u64 = (BETWEEN << BETWEEN) | FIRST;

const OF_TWO: u64 = (ONE_DUE << BETWEEN) | FIRST;

const E0: u64 = (BEHIND_E0 << BETWEEN) | FIRST;

const OF_THREE: u64 = (TWO_DUE << BETWEEN) | FIRST;

const ED: u64 = (BEHIND_ED << BETWEEN) | FIRST;

const F0: u64 = (BEHIND_F0 << BETWEEN) | FIRST;

const OF_FOUR: u64 = (THREE_DUE << BETWEEN) | FIRST;

const F4: u64 = (BEHIND_F4 << BETWEEN) | FIRST;

const NONE: u64 = (DAMAGED << BETWEEN) | FIRST;

// A byte from 80 to bf. One byte less is due. Between two characters it is a damage.
const LATER: u64 = (DAMAGED << BETWEEN)
    | (BETWEEN << ONE_DUE)
    | (ONE_DUE << TWO_DUE)
    | (TWO_DUE << THREE_DUE)
    | (DAMAGED << DAMAGED);

const FROM_80: u64 = LATER | NOT_E0 | ON_ED | NOT_F0 | ON_F4;

const FROM_90: u64 = LATER | NOT_E0 | ON_ED | ON_F0 | NOT_F4;

const FROM_A0: u64 = LATER | ON_E0 | NOT_ED | ON_F0 | NOT_F4;

// The entries of the states after e0, ed, f0 and f4: the byte continues the character (ON) or damages it (NOT).
const ON_E0: u64 = ONE_DUE << BEHIND_E0;

const ON_ED: u64 = ONE_DUE << BEHIND_ED;

const ON_F0: u64 = TWO_DUE << BEHIND_F0;

const ON_F4: u64 = TWO_DUE << BEHIND_F4;

const NOT_E0: u64 = DAMAGED << BEHIND_E0;

const NOT_ED: u64 = DAMAGED << BEHIND_ED;

const NOT_F0: u64 = DAMAGED << BEHIND_F0;

const NOT_F4: u64 = DAMAGED << BEHIND_F4;

/// A row for each byte. It has an entry for each state: the state after the byte.
static ROWS: [u64; 256] = [
    // 00 to 7f
    ASCII, ASCII, ASCII, ASCII, ASCII, ASCII, ASCII, ASCII, ASCII, ASCII, ASCII, ASCII, ASCII,
    ASCII, ASCII, ASCII, ASCII, ASCII, ASCII, ASCII, ASCII, ASCII, ASCII, ASCII, ASCII, ASCII,
    ASCII, ASCII, ASCII, ASCII, ASCII, ASCII, ASCII, ASCII, ASCII, ASCII, ASCII, ASCII, ASCII,
    ASCII, ASCII, ASCII, ASCII, ASCII, ASCII, ASCII, ASCII, ASCII, ASCII, ASCII, ASCII, ASCII,
    ASCII, ASCII, ASCII, ASCII, ASCII, ASCII, ASCII, ASCII, ASCII, ASCII, ASCII, ASCII, ASCII,
    ASCII, ASCII, ASCII, ASCII, ASCII, ASCII, ASCII, ASCII, ASCII, ASCII, ASCII, ASCII, ASCII,
    ASCII, ASCII, ASCII, ASCII, ASCII, ASCII, ASCII, ASCII, ASCII, ASCII, ASCII, ASCII, ASCII,
    ASCII, ASCII, ASCII, ASCII, ASCII, ASCII, ASCII, ASCII, ASCII, ASCII, ASCII, ASCII, ASCII,
    ASCII, ASCII, ASCII, ASCII, ASCII, ASCII, ASCII, ASCII, ASCII, ASCII, ASCII, ASCII, ASCII,
    ASCII, ASCII, ASCII, ASCII, ASCII, ASCII, ASCII, ASCII, ASCII, ASCII, ASCII,
    // 80 to 8f
    FROM_80, FROM_80, FROM_80, FROM_80, FROM_80, FROM_80, FROM_80, FROM_80, FROM_80, FROM_80,
    FROM_80, FROM_80, FROM_80, FROM_80, FROM_80, FROM_80,
    // 90 to 9f
    FROM_90, FROM_90, FROM_90, FROM_90, FROM_90, FROM_90, FROM_90, FROM_90, FROM_90, FROM_90,
    FROM_90, FROM_90, FROM_90, FROM_90, FROM_90, FROM_90,
    // a0 to bf
    FROM_A0, FROM_A0, FROM_A0, FROM_A0, FROM_A0, FROM_A0, FROM_A0, FROM_A0, FROM_A0, FROM_A0,
    FROM_A0, FROM_A0, FROM_A0, FROM_A0, FROM_A0, FROM_A0, FROM_A0, FROM_A0, FROM_A0, FROM_A0,
    FROM_A0, FROM_A0, FROM_A0, FROM_A0, FROM_A0, FROM_A0, FROM_A0, FROM_A0, FROM_A0, FROM_A0,
    FROM_A0, FROM_A0,
    // c0 to c1
    NONE, NONE,
    // c2 to df
    OF_TWO, OF_TWO, OF_TWO, OF_TWO, OF_TWO, OF_TWO, OF_TWO, OF_TWO, OF_TWO, OF_TWO, OF_TWO, OF_TWO,
    OF_TWO, OF_TWO, OF_TWO, OF_TWO, OF_TWO, OF_TWO, OF_TWO, OF_TWO, OF_TWO, OF_TWO, OF_TWO, OF_TWO,
    OF_TWO, OF_TWO, OF_TWO, OF_TWO, OF_TWO, OF_TWO,
    // e0
    E0,
    // e1 to ec
    OF_THREE, OF_THREE, OF_THREE, OF_THREE, OF_THREE, OF_THREE, OF_THREE, OF_THREE, OF_THREE,
    OF_THREE, OF_THREE, OF_THREE,
    // ed
    ED,
    // ee to ef
    OF_THREE, OF_THREE,
    // f0
    F0,
    // f1 to f3
    OF_FOUR, OF_FOUR, OF_FOUR,
    // f4
    F4,
    // f5 to ff
    NONE, NONE, NONE, NONE, NONE, NONE, NONE, NONE, NONE, NONE, NONE,
];

impl State {
    /// Returns the state after one more byte.
    pub fn step(self, byte: u8) -> State
        ensures { result ≡ after_byte self byte }
    {
        State::at((ROWS[byte as usize] >> self.shift()) % ENTRY)
    }

    /// Returns the state after more bytes.
    #[inline(never)]
    pub(crate) fn run_rows(self, bytes: &[u8]) -> State
        ensures { result ≡ after self bytes.now }
    {
        // Only the last six bits of `row` are the state. The bits above belong to other states' entries.
        let mut row = self.shift();
        for byte in bytes {
            row = ROWS[*byte as usize] >> (row % ENTRY);
        }
        State::at(row % ENTRY)
    }

    /// Returns the first bit of the state's entry in a row.
    pub(crate) fn shift(self) -> u64
        ensures { result ≡ shift_of self }
    {
        match self {
            State::Between => BETWEEN,
            State::OneDue => ONE_DUE,
            State::TwoDue => TWO_DUE,
            State::ThreeDue => THREE_DUE,
            State::BehindE0 => BEHIND_E0,
            State::BehindEd => BEHIND_ED,
            State::BehindF0 => BEHIND_F0,
            State::BehindF4 => BEHIND_F4,
            State::Damaged => DAMAGED,
        }
    }

    /// Returns the state whose entry begins at this bit.
    fn at(shift: u64) -> State
        ensures { (state : States) → shift ≡ shift_of state → result ≡ state }
    {
        match shift {
            BETWEEN => State::Between,
            ONE_DUE => State::OneDue,
            TWO_DUE => State::TwoDue,
            THREE_DUE => State::ThreeDue,
            BEHIND_E0 => State::BehindE0,
            BEHIND_ED => State::BehindEd,
            BEHIND_F0 => State::BehindF0,
            BEHIND_F4 => State::BehindF4,
            _ => State::Damaged,
        }
    }
}
