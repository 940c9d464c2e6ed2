//! The answer of a call, and its report.

ghost use Rattle.std.specs.Prelude.{◌≡◌};
ghost use Rattle.capi.specs.Answers.{Reports, ReportsCopy, ReportsElements, code};

use crate::tally::Tally;

/// The answer of a call. `place` is that of its report.
#[derive(Clone, Copy, Debug, PartialEq, Eq)]
pub enum CllAnswer {
    /// The call did all that the caller asked for.
    Ok,
    /// The bytes end too early.
    Short,
    /// No CBOR that may stand at `place` stands there, or for `cll_utf8` no UTF-8.
    Syntax,
    /// The next thing to write does not fit into the output.
    Room,
    /// An offset would pass the greatest number. No bytes in memory make it do so.
    TooLong,
    /// At `place` a break stands in place of an item.
    BreakDue,
    /// At `place` a tag, an array or a map stands deeper than the caller allows.
    TooDeep,
    /// An argument is out of its range, and the call did nothing.
    Argument,
    /// At `place` stands a longer title than need be, or a float that fits a smaller width.
    NotShortest,
    /// At `place` stands the title of an indefinite form, or a break.
    Indefinite,
    /// At `place` stands a key that comes before the key of the pair before it.
    KeyOrder,
    /// At `place` stands a key that its map has before it.
    DuplicateKey,
    /// There is none: no more items, no pair with this key, or an item of another kind.
    Absent,
}

impl CllAnswer {
    /// Returns the number by which C knows the answer.
    #[inline(always)]
    pub fn code(self) -> u32
        ensures { result ≡ code self }
    {
        match self {
            CllAnswer::Ok => 0,
            CllAnswer::Short => 1,
            CllAnswer::Syntax => 2,
            CllAnswer::Room => 3,
            CllAnswer::TooLong => 4,
            CllAnswer::BreakDue => 5,
            CllAnswer::TooDeep => 6,
            CllAnswer::Argument => 7,
            CllAnswer::NotShortest => 8,
            CllAnswer::Indefinite => 9,
            CllAnswer::KeyOrder => 10,
            CllAnswer::DuplicateKey => 11,
            CllAnswer::Absent => 12,
        }
    }
}

/// How far a call came.
#[derive(Drop)]
#[repr(C)]
pub struct CllReport {
    /// How many bytes the call consumed.
    pub consumed: u64,
    /// How many bytes the call wrote. Of `cll_headers` it is how many titles were filled.
    pub written: u64,
    /// A number that depends on the answer, and 0 otherwise:
    ///
    /// - `Syntax`, `BreakDue`, `TooDeep`, `NotShortest`, `Indefinite`, `KeyOrder`, `DuplicateKey`: the fault's offset.
    /// - `Short` of `cll_headers`, `cll_recode`, `cll_strict`, `cll_skip`, a checker, a parser or a copier of an item:
    ///   how many bytes are due.
    /// - `Ok` of `cll_checker_feed` or `cll_item_copier_feed`: the item's length.
    pub place: u64,
    /// How many elements `cll_recode` or `cll_strict` did whole, and 0 otherwise.
    pub elements: u64,
    /// The offset after the last of these elements, and 0 otherwise.
    pub whole: u64,
    /// How many of the bytes that `cll_recode` wrote are the spelling of these elements, and 0 otherwise.
    pub spelled: u64,
}

impl CllReport {
    /// Says how many bytes the call consumed and wrote, and names a place. The other numbers become 0.
    #[inline(always)]
    pub(crate) fn say(&mut self, consumed: usize, written: usize, place: usize)
        ensures { Reports self.new consumed written place }
    {
        self.consumed = consumed as u64;
        self.written = written as u64;
        self.place = place as u64;
        self.elements = 0;
        self.whole = 0;
        self.spelled = 0;
    }

    /// Says the same of a copy or a check of elements, and how many of them it did.
    #[inline(always)]
    pub(crate) fn say_elements(
        &mut self,
        consumed: usize,
        written: usize,
        place: usize,
        tally: Tally,
    )
        ensures reports { ReportsCopy self.new consumed written place }
        ensures elements { ReportsElements self.new tally.elements tally.whole tally.spelled }
    {
        self.consumed = consumed as u64;
        self.written = written as u64;
        self.place = place as u64;
        self.elements = tally.elements as u64;
        self.whole = tally.whole as u64;
        self.spelled = tally.spelled as u64;
    }
}
