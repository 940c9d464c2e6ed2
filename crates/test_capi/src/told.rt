// The results of calls, as plain values.

use capi::{CllAnswer, CllReport};

// Makes the report that a call gets.
pub fn nothing() -> CllReport {
    CllReport {
        consumed: 7,
        written: 7,
        place: 7,
        elements: 7,
        whole: 7,
        spelled: 7,
    }
}

// The number of an answer, and its report: how many bytes were consumed and written, and the place.
pub type Told = (u32, [u64; 3]);

pub fn told(code: u32, report: &CllReport) -> Told {
    (code, [report.consumed, report.written, report.place])
}

// Returns whether the results are these.
pub fn is_told(told: &Told, answer: CllAnswer, want: [u64; 3]) -> bool {
    told.0 == answer.code() && told.1 == want
}

// Returns the 16 bytes of an output that begins with these bytes, and is unchanged after them.
pub fn in_front(bytes: &[u8]) -> [u8; 16] {
    let mut out = [0xee; 16];
    let length = bytes.len().min(16);
    out[..length].copy_from_slice(&bytes[..length]);
    out
}
