// The verdicts of `check --deterministic`.

use crate::checks::{holds, holds_at, judged, options_of, written};
use std::alloc::Global;
use std::io;
use std::process::Abort;
use test_support::streams::PartReader;
use tool_files::arguments::Options;
use tool_files::deterministic::check_deterministic;
use tool_files::digits::Digits;
use tool_verdicts::verdict::Verdict;

// Maps with the keys of RFC 8949, in the order of its section 4.2.1 and in that of its section 4.2.3. Each value is 0.
pub const BYTEWISE: &str = "a8 0a00 186400 2000 617a00 62616100 81186400 812000 f400";

pub const LENGTH_FIRST: &str = "a8 0a00 2000 f400 186400 617a00 812000 62616100 81186400";

// Words, digits and the verdict on the bytes that they spell, worked by hand. The titles and the floats are those that
// RFC 8949 names in its section 4.2.1 as preferred, and the next shorter or longer ones.
static ROWS: [(&str, &str, &str); 53] = [
    ("check --deterministic", "", "ok 0 0"),
    ("check --deterministic", "01 80", "ok 2 2"),
    ("check --deterministic", BYTEWISE, "ok 1 24"),
    (
        "check --deterministic --order=bytewise",
        BYTEWISE,
        "ok 1 24",
    ),
    (
        "check --deterministic --order length-first",
        LENGTH_FIRST,
        "ok 1 24",
    ),
    (
        "check --order length-first --deterministic",
        BYTEWISE,
        "refused 6: a key that sorts before the previous key",
    ),
    (
        "check --deterministic",
        LENGTH_FIRST,
        "refused 7: a key that sorts before the previous key",
    ),
    (
        "check --deterministic --order=length-first --order=bytewise",
        BYTEWISE,
        "ok 1 24",
    ),
    // Integers and lengths.
    ("check --deterministic", "17 37", "ok 2 2"),
    (
        "check --deterministic",
        "18 17",
        "refused 0: a shorter form says the same",
    ),
    ("check --deterministic", "18 18 38 18", "ok 2 4"),
    (
        "check --deterministic",
        "19 00ff",
        "refused 0: a shorter form says the same",
    ),
    ("check --deterministic", "19 0100", "ok 1 3"),
    (
        "check --deterministic",
        "1a 0000ffff",
        "refused 0: a shorter form says the same",
    ),
    ("check --deterministic", "1a 00010000", "ok 1 5"),
    (
        "check --deterministic",
        "3b 00000000ffffffff",
        "refused 0: a shorter form says the same",
    ),
    ("check --deterministic", "3b 0000000100000000", "ok 1 9"),
    (
        "check --deterministic",
        "01 98 01 02",
        "refused 1: a shorter form says the same",
    ),
    (
        "check --deterministic",
        "d8 01 00",
        "refused 0: a shorter form says the same",
    ),
    // Floats: 1.5, 100000.0, 1.1, infinity and a NaN.
    ("check --deterministic", "f9 3e00", "ok 1 3"),
    (
        "check --deterministic",
        "fa 3fc00000",
        "refused 0: a shorter form says the same",
    ),
    ("check --deterministic", "fa 47c35000", "ok 1 5"),
    (
        "check --deterministic",
        "fb 40f86a0000000000",
        "refused 0: a shorter form says the same",
    ),
    ("check --deterministic", "fb 3ff199999999999a", "ok 1 9"),
    ("check --deterministic", "f9 7c00 f9 7e00", "ok 2 6"),
    (
        "check --deterministic",
        "fa 7fc00000",
        "refused 0: a shorter form says the same",
    ),
    // Indefinite lengths.
    (
        "check --deterministic",
        "00 9f ff",
        "refused 1: an indefinite length or a break",
    ),
    (
        "check --deterministic",
        "81 5f 41 01 ff",
        "refused 1: an indefinite length or a break",
    ),
    (
        "check --deterministic",
        "ff",
        "refused 0: an indefinite length or a break",
    ),
    // Simple values and texts.
    (
        "check --deterministic",
        "82 01 f8 18",
        "refused 2: a simple value from 24 to 31",
    ),
    ("check --deterministic", "f8 20 f4", "ok 2 3"),
    (
        "check --deterministic",
        "81 61 ff",
        "refused 1: a text that is not UTF-8",
    ),
    // Titles and ends.
    (
        "check --deterministic",
        "00 1c",
        "refused 1: no title begins with this byte",
    ),
    (
        "check --deterministic",
        "82 01",
        "refused 2: the bytes end too early",
    ),
    (
        "check --deterministic",
        "00 19 01",
        "refused 1: the bytes end too early",
    ),
    (
        "check --deterministic",
        "00 42 01",
        "refused 3: the bytes end too early",
    ),
    // Keys.
    ("check --deterministic", "a2 01 00 02 00", "ok 1 5"),
    (
        "check --deterministic",
        "82 01 02 f6 a2 02 00 01 00",
        "refused 7: a key that sorts before the previous key",
    ),
    (
        "check --deterministic",
        "a2 01 02 01 03",
        "refused 3: the same key twice",
    ),
    (
        "check --deterministic --order=length-first",
        "00 a2 01 02 01 03",
        "refused 4: the same key twice",
    ),
    // Levels.
    (
        "check --deterministic --depth 0",
        "01 80",
        "refused 1: too deep a nesting",
    ),
    (
        "check --deterministic --depth 1",
        "80 81 80",
        "refused 2: too deep a nesting",
    ),
    ("check --deterministic --depth 2", "80 81 80", "ok 2 3"),
    // Exactly one item.
    ("check --deterministic --one", "80", "ok 1 1"),
    ("check --deterministic --one", "01 80", "more 1"),
    ("check --deterministic --one", "82 01 02 1c", "more 3"),
    (
        "check --deterministic --one",
        "",
        "refused 0: the bytes end too early",
    ),
    (
        "check --one --deterministic --order length-first",
        BYTEWISE,
        "refused 6: a key that sorts before the previous key",
    ),
    // The shortest spelling is not enough.
    ("check --strict", "9f ff", "ok 1 2"),
    (
        "check --strict --deterministic",
        "9f ff",
        "refused 0: an indefinite length or a break",
    ),
    // A fault of the digits comes first.
    (
        "check --deterministic",
        "18 17 0",
        "line 1, column 7: half a byte",
    ),
    (
        "check --deterministic --one",
        "9f z",
        "line 1, column 4: no hexadecimal digit",
    ),
    ("check --deterministic --names", "f6 # null", "ok 1 1"),
];

// Returns the verdict on the bytes that some digits spell. A check without `--deterministic` is a plain one.
fn found(rt: &impl Abort, alloc: Global, digits: &str, options: Options) -> String {
    if !options.deterministic {
        return crate::checks::found(rt, alloc, digits, options);
    }
    let mut reader = Digits::new(digits.as_bytes());
    let verdict = check_deterministic(alloc, &mut reader, options);
    written(rt, alloc, judged(&reader, verdict))
}

#[test]
fn deterministic_rows(rt: HostRuntime) {
    for &(words, digits, want) in &ROWS {
        let options = options_of(&rt, rt.alloc(), words);
        let text = found(&rt, rt.alloc(), digits, options);
        holds(&rt, text.as_str() == want, words, digits);
    }
}

#[test]
fn deterministic_reads_that_fail(rt: HostRuntime) {
    for call in 1..=4 {
        let reader = PartReader::new(b"\x82\x01\x02", 1).failing_at(call, io::ErrorKind::TimedOut);
        let verdict = check_deterministic(rt.alloc(), reader, Options::new());
        holds_at(&rt, matches!(verdict, Verdict::Failed(_)), "read", call);
    }
}
