use crate::checks::{PAIR, holds, holds_at, options_of};
use std::alloc::Global;
use std::io;
use std::io::Read;
use std::process::Abort;
use test_support::streams::{PartReader, PartWriter};
use tool_files::arguments::Options;
use tool_files::digits::Digits;
use tool_files::dump::dump_input;
use tool_verdicts::verdict::Verdict;

// Adds the bytes that the digits of a text spell, and returns whether it has no other digits.
fn add_bytes_of(bytes: &mut Vec<u8>, text: &[u8]) -> bool {
    Digits::new(text).read_to_end(bytes).is_ok()
}

// Dumps the bytes that some digits spell. It returns whether the dump shows all of them: they are items, or end too
// early.
fn dumps(alloc: Global, digits: &str, options: Options, colors: bool, text: &mut Vec<u8>) -> bool {
    let reader = Digits::new(digits.as_bytes());
    matches!(
        dump_input(alloc, reader, text, options, colors),
        Ok(()) | Err(Verdict::Short(_))
    )
}

// Returns whether some bytes are shown: all of them if they end too early, and otherwise up to the fault.
fn are_shown(all: &[u8], shown: &[u8], is_whole: bool) -> bool {
    all.starts_with(shown) && (shown.len() == all.len() || !is_whole)
}

// Returns whether the digits of the dump are the bytes that some digits spell.
pub fn are_digits(alloc: Global, digits: &str) -> bool {
    let mut text = Vec::new(alloc);
    let is_whole = dumps(alloc, digits, Options::new(), false, &mut text);
    let mut all = Vec::new(alloc);
    let mut shown = Vec::new(alloc);
    add_bytes_of(&mut all, digits.as_bytes())
        && add_bytes_of(&mut shown, text.as_slice())
        && are_shown(all.as_slice(), shown.as_slice(), is_whole)
}

// Digits after `=`, and the dump of their bytes below them. From the fifth dump on they end within an affix of two
// bytes and of eight, within bodies, and within a character after seven others. All are one text, since a proof that
// names a table of long texts takes far longer.
static DUMPS: &str = "\
= 82 1903e8 6161
82                                  # array 2
   19 03 e8                         # [0] 1000
   61                               # [1] text 1
      61                            # \"a\"
= bf 01 5f42010240ff ff a0
bf                                  # map *
   01                               # 1
   5f                               # {1} bytes *
      42                            # bytes 2
         01 02
      40                            # bytes 0
   ff                               # break
ff                                  # break
a0                                  # map 0
= c1 81 f4 20 3bffffffffffffffff f93c00 f0
c1                                  # tag 1 (epoch time)
   81                               # array 1
      f4                            # [0] false
20                                  # -1
3b ff ff ff ff ff ff ff ff          # -18446744073709551616
f9 3c 00                            # half 1.0
f0                                  # simple 16
= 6f 2230313233343536373839f0908591 4100 811c
6f                                  # text 15
   22 30 31 32 33 34 35 36          # \"\\\"0123456\"
   37 38 39 f0 90 85 91             # \"789\u{10151}\"
41                                  # bytes 1
   00
81                                  # array 1
   1c
# syntax 19
= 81 19 03
81                                  # array 1
   19
   03
# short 2
= 1b 01020304050607
1b
01 02 03 04 05 06 07
# short 1
= c1 5f 42 01
c1                                  # tag 1 (epoch time)
   5f                               # bytes *
      42                            # bytes 2
         01
# short 3
= 5820 000102030405060708090a0b0c0d0e0f 101112131415161718191a1b1c1d1e
58 20                               # bytes 32
   00 01 02 03 04 05 06 07 08 09 0a 0b 0c 0d 0e 0f
   10 11 12 13 14 15 16 17 18 19 1a 1b 1c 1d 1e
# short 18
= 62 c3
62                                  # text 2
   c3
# short 1
= 69 61616161616161c3
69                                  # text 9
   61 61 61 61 61 61 61 c3
# short 9
";

// Returns whether the dump is this, in colors or without.
fn is_dumped(alloc: Global, digits: &str, options: Options, colors: bool, want: &str) -> bool {
    let mut text = Vec::new(alloc);
    let _ = dumps(alloc, digits, options, colors, &mut text);
    text.as_slice() == want.as_bytes()
}

// Returns whether a text without its escape sequences, each of which ends with `m`, is this.
fn is_plainly(text: &[u8], want: &[u8]) -> bool {
    let mut rest = want;
    let mut is_within = false;
    for byte in text {
        if *byte == 0x1b {
            is_within = true;
        }
        if !is_within {
            let Some(behind) = rest.strip_prefix(&[*byte]) else {
                return false;
            };
            rest = behind;
        }
        if *byte == b'm' {
            is_within = false;
        }
    }
    rest.is_empty()
}

// Returns whether the dump is this without its colors.
fn is_dumped_plainly(alloc: Global, digits: &str, options: Options, want: &str) -> bool {
    let mut text = Vec::new(alloc);
    let _ = dumps(alloc, digits, options, true, &mut text);
    is_plainly(text.as_slice(), want.as_bytes())
}

// Requires that the dump of the bytes that some digits spell is this, with colors and without.
fn row(rt: &impl Abort, alloc: Global, options: Options, digits: &str, want: &str) {
    let is_right = is_dumped(alloc, digits, options, false, want);
    holds(rt, is_right, "a dump", digits);
    let is_right = is_dumped_plainly(alloc, digits, options, want);
    holds(rt, is_right, "in colors", digits);
}

// Requires that the dump in a part of a text is that of its digits. It returns how many dumps there are: one or none.
fn part(rt: &impl Abort, alloc: Global, options: Options, part: &str) -> usize {
    match part.split_once('\n') {
        Some((digits, want)) => {
            row(rt, alloc, options, digits, want);
            1
        }
        None => 0,
    }
}

// Requires that each dump of a text is that of its digits, and that there are `count` dumps.
pub fn each_dumped(rt: &impl Abort, alloc: Global, options: Options, text: &str, count: usize) {
    let mut found = 0usize;
    for dump in text.split('=') {
        found = found.saturating_add(part(rt, alloc, options, dump));
    }
    holds_at(rt, found == count, "dumps", found);
}

#[test]
fn texts_of_dumps(rt: HostRuntime) {
    each_dumped(&rt, rt.alloc(), Options::new(), DUMPS, 10);
}

// Maps. A value has the key of its pair: an integer, a text of one row and one of two, a byte string, and the widest
// text. A text of 23 bytes, one of 17 bytes before a float, one of 25 bytes, and other items are not shown. The text in
// pieces is no key that is shown, and an item within a key does not take its place.
static KEYED: &str = "\
= a2 01 02 20 8103
a2                                  # map 2
   01                               # 1
   02                               # {1} 2
   20                               # -1
   81                               # {-1} array 1
      03                            # [0] 3
= bf 63616c67 a1 00 f6 71656c656d656e744964656e746966696572 f4 ff
bf                                  # map *
   63                               # text 3
      61 6c 67                      # \"alg\"
   a1                               # {\"alg\"} map 1
      00                            # 0
      f6                            # {0} null
   71                               # text 17
      65 6c 65 6d 65 6e 74 49       # \"elementI\"
      64 65 6e 74 69 66 69 65       # \"dentifie\"
      72                            # \"r\"
   f4                               # {\"elementIdentifier\"} false
ff                                  # break
= a4 420aff 01 630a2262 02 3bffffffffffffffff 03 40 c14100
a4                                  # map 4
   42                               # bytes 2
      0a ff
   01                               # {h'0a ff'} 1
   63                               # text 3
      0a 22 62                      # \"\\n\\\"b\"
   02                               # {\"\\n\\\"b\"} 2
   3b ff ff ff ff ff ff ff ff       # -18446744073709551616
   03                               # {-18446744073709551616} 3
   40                               # bytes 0
   c1                               # {h''} tag 1 (epoch time)
      41                            # bytes 1
         00
= a5 811863 01 7f6161ff 02 f93c00 03 7661616161616161616161616161616161616161616161 04 776161616161616161616161616161616161616161616161 05
a5                                  # map 5
   81                               # array 1
      18 63                         # [0] 99
   01                               # {..} 1
   7f                               # text *
      61                            # text 1
         61                         # \"a\"
   ff                               # break
   02                               # {..} 2
   f9 3c 00                         # half 1.0
   03                               # {..} 3
   76                               # text 22
      61 61 61 61 61 61 61 61       # \"aaaaaaaa\"
      61 61 61 61 61 61 61 61       # \"aaaaaaaa\"
      61 61 61 61 61 61             # \"aaaaaa\"
   04                               # {\"aaaaaaaaaaaaaaaaaaaaaa\"} 4
   77                               # text 23
      61 61 61 61 61 61 61 61       # \"aaaaaaaa\"
      61 61 61 61 61 61 61 61       # \"aaaaaaaa\"
      61 61 61 61 61 61 61          # \"aaaaaaa\"
   05                               # {..} 5
= a4 47000102030405ff 00 480001020304050607 01 716161616161616161616161616161616161 f90000 72616161616161616161616161616161616161 f90000
a4                                  # map 4
   47                               # bytes 7
      00 01 02 03 04 05 ff
   00                               # {h'00 01 02 03 04 05 ff'} 0
   48                               # bytes 8
      00 01 02 03 04 05 06 07
   01                               # {..} 1
   71                               # text 17
      61 61 61 61 61 61 61 61       # \"aaaaaaaa\"
      61 61 61 61 61 61 61 61       # \"aaaaaaaa\"
      61                            # \"a\"
   f9 00 00                         # {\"aaaaaaaaaaaaaaaaa\"} half 0.0
   72                               # text 18
      61 61 61 61 61 61 61 61       # \"aaaaaaaa\"
      61 61 61 61 61 61 61 61       # \"aaaaaaaa\"
      61 61                         # \"aa\"
   f9 00 00                         # {..} half 0.0
= a1 781961616161616161616161616161616161616161616161616161 00
a1                                  # map 1
   78 19                            # text 25
      61 61 61 61 61 61 61 61       # \"aaaaaaaa\"
      61 61 61 61 61 61 61 61       # \"aaaaaaaa\"
      61 61 61 61 61 61 61 61       # \"aaaaaaaa\"
      61                            # \"a\"
   00                               # {..} 0
";

#[test]
fn keys_of_dumps(rt: HostRuntime) {
    each_dumped(&rt, rt.alloc(), Options::new(), KEYED, 6);
}

// Texts with escaped characters: a line feed, U+007F, U+009B, and the characters at the bounds of the escaped ranges,
// those of the bidirectional controls among them (Unicode, PropList.txt). Characters beyond these bounds, such as a
// space, `~` and U+00A0, stand for themselves.
static ESCAPED: &str = "\
= 63 0a6666
63                                  # text 3
   0a 66 66                         # \"\\nff\"
= 61 7f
61                                  # text 1
   7f                               # \"\\u007f\"
= 62 c29b
62                                  # text 2
   c2 9b                            # \"\\u009b\"
= 6a 00090d1f207ec29fc2a0
6a                                  # text 10
   00 09 0d 1f 20 7e c2 9f          # \"\\u0000\\t\\r\\u001f ~\\u009f\"
   c2 a0                            # \"\u{a0}\"
= 69 d89bd89cd89de2808d
69                                  # text 9
   d8 9b d8 9c d8 9d e2 80 8d       # \"\u{61b}\\u061c\u{61d}\u{200d}\"
= 69 e2808ee2808fe28090
69                                  # text 9
   e2 80 8e e2 80 8f e2 80 90       # \"\\u200e\\u200f\u{2010}\"
= 6c e280a9e280aae280aee280af
6c                                  # text 12
   e2 80 a9 e2 80 aa e2 80 ae       # \"\u{2029}\\u202a\\u202e\"
   e2 80 af                         # \"\u{202f}\"
= 6c e281a5e281a6e281a9e281aa
6c                                  # text 12
   e2 81 a5 e2 81 a6 e2 81 a9       # \"\u{2065}\\u2066\\u2069\"
   e2 81 aa                         # \"\u{206a}\"
";

#[test]
fn escapes_of_dumps(rt: HostRuntime) {
    each_dumped(&rt, rt.alloc(), Options::new(), ESCAPED, 8);
}

// A level that an indent does not show, and long rows at it: a text of control characters, and a double.
static DEEP: &str = "\
= 81818181818181818182 680000000000000000 fb8010000000000000
81                                  # array 1
   81                               # [0] array 1
      81                            # [0] array 1
         81                         # [0] array 1
            81                      # [0] array 1
               81                   # [0] array 1
                  81                # [0] array 1
                     81             # [0] array 1
                        81          # [0] array 1
                        82          # level 9 [0] array 2
                        68          # level 10 [0] text 8
            00 00 00 00 00 00 00 00 # \"\\u0000\\u0000\\u0000\\u0000\\u0000\\u0000\\u0000\\u0000\"
         fb 80 10 00 00 00 00 00 00 # level 10 [1] double -2.2250738585072014e-308
";

#[test]
fn levels_of_dumps(rt: HostRuntime) {
    each_dumped(&rt, rt.alloc(), Options::new(), DEEP, 1);
}

// Returns whether each line of a dump of these bytes has at most 100 columns.
fn is_narrow(alloc: Global, bytes: &[u8], options: Options) -> bool {
    let mut text = Vec::new(alloc);
    let _ = dump_input(alloc, bytes, &mut text, options, false);
    let mut columns = 0usize;
    for byte in text.as_slice() {
        columns = if *byte == b'\n' {
            0
        } else {
            columns.saturating_add(1)
        };
        if columns > 100 {
            return false;
        }
    }
    true
}

// An array of a text of eight control characters, and of a double with the most digits.
static WIDE: [u8; 19] = [
    0x82, 0x68, 0, 1, 2, 3, 4, 5, 6, 7, 0xfb, 0x80, 0x10, 0, 0, 0, 0, 0, 0,
];

// A map of doubles with the most digits. The keys are the greatest number of 7 digits and one of 8 digits, their
// negative numbers, and texts of 7 and of 8 bytes, and of 17 and of 18 bytes.
static WIDE_KEYS: &str = "\
a8 1a0098967f fb8010000000000000 1a00989680 fb8010000000000000 \
3a0098967f fb8010000000000000 3a00989680 fb8010000000000000 \
6761616161616161 fb8010000000000000 686161616161616161 fb8010000000000000 \
716161616161616161616161616161616161 fb8010000000000000 \
72616161616161616161616161616161616161 fb8010000000000000";

// Returns whether the lines are narrow if the bytes that some digits spell stand within this many arrays.
fn is_narrow_within(alloc: Global, digits: &str, levels: usize, options: Options) -> bool {
    let mut bytes = Vec::new(alloc);
    for _ in 0..levels {
        if bytes.push(0x81).is_err() {
            return false;
        }
    }
    add_bytes_of(&mut bytes, digits.as_bytes()) && is_narrow(alloc, bytes.as_slice(), options)
}

// The same array within 255 arrays, which are as many as may stand around it, and the map within fewer too.
#[test]
fn widths_of_dumps(rt: HostRuntime) {
    let mut deep = [0x81u8; 274];
    deep[255..].copy_from_slice(&WIDE);
    let offsets = options_of(&rt, rt.alloc(), "dump --offsets");
    holds(&rt, is_narrow(rt.alloc(), &WIDE, offsets), "narrow", "wide");
    let offsets = options_of(&rt, rt.alloc(), "dump --offsets");
    holds(&rt, is_narrow(rt.alloc(), &deep, offsets), "narrow", "deep");
    for levels in [0, 7, 8, 255] {
        let offsets = options_of(&rt, rt.alloc(), "dump --offsets");
        let narrow = is_narrow_within(rt.alloc(), WIDE_KEYS, levels, offsets);
        holds_at(&rt, narrow, "keys", levels);
    }
}

// Dumps with offsets.
static OFFSETS: &str = "\
= 81f6
     0: 81                                  # array 1
     1:    f6                               # [0] null
= 430102
     0: 43                                  # bytes 3
     1:    01 02
# short 1
";

#[test]
fn offsets_of_dumps(rt: HostRuntime) {
    let offsets = options_of(&rt, rt.alloc(), "dump --offsets");
    each_dumped(&rt, rt.alloc(), offsets, OFFSETS, 2);
}

// Dumps with at most one line of each body. In the first one 20 bytes of 36 follow a line of 16, and then a body of one
// line. In the last one a body ends too early.
static SHORTENED: &str = "\
= 82 5824 000102030405060708090a0b0c0d0e0f101112131415161718191a1b1c1d1e1f20212223 4101
82                                  # array 2
   58 24                            # [0] bytes 36
      00 01 02 03 04 05 06 07 08 09 0a 0b 0c 0d 0e 0f
      # ... 20 more bytes
   41                               # [1] bytes 1
      01
= 6e 6161616161616161616161616161
6e                                  # text 14
   61 61 61 61 61 61 61 61          # \"aaaaaaaa\"
   # ... 6 more bytes
= 5f 5812 000102030405060708090a0b0c0d0e0f1011 ff 1c
5f                                  # bytes *
   58 12                            # bytes 18
      00 01 02 03 04 05 06 07 08 09 0a 0b 0c 0d 0e 0f
      # ... 2 more bytes
ff                                  # break
1c
# syntax 22
";

// Dumps without the bodies, and with offsets.
static BODILESS: &str = "\
= 81 420102
     0: 81                                  # array 1
     1:    42                               # [0] bytes 2
              # ... 2 more bytes
";

#[test]
fn shortened_dumps(rt: HostRuntime) {
    let one = options_of(&rt, rt.alloc(), "dump --max 1");
    each_dumped(&rt, rt.alloc(), one, SHORTENED, 3);
    let none = options_of(&rt, rt.alloc(), "dump --max=0 --offsets");
    each_dumped(&rt, rt.alloc(), none, BODILESS, 1);
}

// Dumps of one item after the first one, with offsets.
static PARTS: &str = "\
= 820102 4103 1c
     3: 41                                  # bytes 1
     4:    03
= 01 1c
     1: 1c
# syntax 1
= 01
";

#[test]
fn dumps_of_parts(rt: HostRuntime) {
    let second = options_of(&rt, rt.alloc(), "dump --skip 1 --items 1 --offsets");
    each_dumped(&rt, rt.alloc(), second, PARTS, 3);
    let third = options_of(&rt, rt.alloc(), "dump --skip 2");
    each_dumped(
        &rt,
        rt.alloc(),
        third,
        "= 01\n# short 1\n= 01 82\n# short 2\n",
        2,
    );
}

// Returns whether a dump has no colors.
pub fn has_no_colors(alloc: Global, digits: &str) -> bool {
    let mut text = Vec::new(alloc);
    let _ = dumps(alloc, digits, Options::new(), false, &mut text);
    !text.as_slice().contains(&0x1b)
}

#[test]
fn colors_of_dumps(rt: HostRuntime) {
    let want = "81                                  \u{1b}[36m# array 1\u{1b}[0m
\u{1b}[31m   1c\u{1b}[0m
\u{1b}[31m# syntax 1\u{1b}[0m
";
    let is_colored = is_dumped(rt.alloc(), "811c", Options::new(), true, want);
    holds(&rt, is_colored, "colors", "811c");
}

// Returns whether a failed read is found.
fn is_failed_read(alloc: Global, call: usize) -> bool {
    let reader = PartReader::new(PAIR, 1).failing_at(call, io::ErrorKind::TimedOut);
    let mut text = Vec::new(alloc);
    matches!(
        dump_input(alloc, reader, &mut text, Options::new(), false),
        Err(Verdict::Failed(_))
    )
}

// Returns whether a writer that takes no byte is found.
fn is_failed_write(alloc: Global, call: usize) -> bool {
    let mut writer = PartWriter::new(alloc, 20).failing_at(call, None);
    matches!(
        dump_input(alloc, PAIR, &mut writer, Options::new(), false),
        Err(Verdict::Output(_))
    )
}

#[test]
fn calls_that_fail(rt: HostRuntime) {
    for call in 1..=7 {
        holds_at(&rt, is_failed_read(rt.alloc(), call), "read", call);
        holds_at(&rt, is_failed_write(rt.alloc(), call), "write", call);
    }
}

// The reader gives an item a call. The first write fails before the second read, so the line of the second item tells
// the fault.
#[test]
fn a_failed_write_ends_the_reads(rt: HostRuntime) {
    let mut reader = PartReader::new(&[0; 100], 1);
    let writer = PartWriter::new(rt.alloc(), 1).failing_at(1, Some(io::ErrorKind::BrokenPipe));
    let outcome = dump_input(rt.alloc(), &mut reader, writer, Options::new(), false);
    let is_failed = matches!(outcome, Err(Verdict::Output(_)));
    holds_at(&rt, is_failed && reader.calls == 2, "reads", reader.calls);
}
