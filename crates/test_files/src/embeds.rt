use crate::checks::{holds, holds_at, options_of};
use crate::dumps::each_dumped;
use std::alloc::Global;
use std::io::Read;
use test_support::streams::PartWriter;
use tool_files::arguments::Options;
use tool_files::digits::Digits;
use tool_files::dump::dump_input;
use tool_verdicts::verdict::Verdict;

// Byte strings that are items (RFC 8949, 3.4.5.1). The first dump is the example of RFC 8949, appendix A: a text under
// tag 24. In the second one no tag stands before the string. The third one has a string in a string, and the fourth one
// a key and a value.
static ITEMS: &str = "\
= d818 45 6449455446
d8 18                               # tag 24 (encoded item)
   45                               # bytes 5
      64                            # text 4
         49 45 54 46                # \"IETF\"
= 43 820102 f6
43                                  # bytes 3
   82                               # array 2
      01                            # [0] 1
      02                            # [1] 2
f6                                  # null
= 82 44 43820102 41 f4
82                                  # array 2
   44                               # [0] bytes 4
      43                            # bytes 3
         82                         # array 2
            01                      # [0] 1
            02                      # [1] 2
   41                               # [1] bytes 1
      f4                            # false
= a1 41 01 42 4102
a1                                  # map 1
   41                               # bytes 1
      01                            # 1
   42                               # {h'01'} bytes 2
      41                            # bytes 1
         02                         # 2
";

// Byte strings that are no item: two items, a part of one, none, a break, and the parts of a string of indefinite
// length (RFC 8949, 3.2.3). After that string, and after an empty array and an empty text, an item is shown again. A
// long one has lines of 16 bytes. The last four are cut: within a line, after a line, after a line and a part of one,
// and in an item.
static OTHERS: &str = "\
= 42 0102
42                                  # bytes 2
   01 02
= 81 42 8201 f6
81                                  # array 1
   42                               # [0] bytes 2
      82 01
f6                                  # null
= 40 41 ff
40                                  # bytes 0
41                                  # bytes 1
   ff
= 5f 42 8100 5f 41 00 ff 41 01 ff 41 02
5f                                  # bytes *
   42                               # bytes 2
      81 00
   5f                               # bytes *
      41                            # bytes 1
         00
   ff                               # break
   41                               # bytes 1
      01
ff                                  # break
41                                  # bytes 1
   02                               # 2
= 9f ff 7f ff 41 00
9f                                  # array *
ff                                  # break
7f                                  # text *
ff                                  # break
41                                  # bytes 1
   00                               # 0
= 5820 000102030405060708090a0b0c0d0e0f 101112131415161718191a1b1c1d1e1f
58 20                               # bytes 32
   00 01 02 03 04 05 06 07 08 09 0a 0b 0c 0d 0e 0f
   10 11 12 13 14 15 16 17 18 19 1a 1b 1c 1d 1e 1f
= 43 8201
43                                  # bytes 3
   82 01
# short 1
= 5820 000102030405060708090a0b0c0d0e0f
58 20                               # bytes 32
   00 01 02 03 04 05 06 07 08 09 0a 0b 0c 0d 0e 0f
# short 18
= 5820 000102030405060708090a0b0c0d0e0f 1011
58 20                               # bytes 32
   00 01 02 03 04 05 06 07 08 09 0a 0b 0c 0d 0e 0f
   10 11
# short 18
= 42 81
42                                  # bytes 2
   81
# short 1
";

// Nine strings that contain one another. The ninth one stands in the eighth, and its bytes are no item here.
static NINE: &str = "\
= 49 48 47 46 45 44 43 42 41 00
49                                  # bytes 9
   48                               # bytes 8
      47                            # bytes 7
         46                         # bytes 6
            45                      # bytes 5
               44                   # bytes 4
                  43                # bytes 3
                     42             # bytes 2
                        41          # bytes 1
                        00
";

// Byte strings right under tag 24, and others: under tag 1, in an array under tag 24, after an item under tag 24, and
// in a string under tag 24.
static TAGGED: &str = "\
= d818 41 00 41 00
d8 18                               # tag 24 (encoded item)
   41                               # bytes 1
      00                            # 0
41                                  # bytes 1
   00
= c1 41 00
c1                                  # tag 1 (epoch time)
   41                               # bytes 1
      00
= d818 81 41 00
d8 18                               # tag 24 (encoded item)
   81                               # array 1
      41                            # [0] bytes 1
         00
= 82 d81800 41 00
82                                  # array 2
   d8 18                            # [0] tag 24 (encoded item)
      00                            # 0
   41                               # [1] bytes 1
      00
= d818 42 41 00
d8 18                               # tag 24 (encoded item)
   42                               # bytes 2
      41                            # bytes 1
         00
= d818 44 d818 41 00
d8 18                               # tag 24 (encoded item)
   44                               # bytes 4
      d8 18                         # tag 24 (encoded item)
         41                         # bytes 1
            00                      # 0
";

// Offsets are those of the whole input.
static PLACED: &str = "\
= f6 d818 43 820102
     0: f6                                  # null
     1: d8 18                               # tag 24 (encoded item)
     3:    43                               # bytes 3
     4:       82                            # array 2
     5:          01                         # [0] 1
     6:          02                         # [1] 2
= 42 8201 42 0102 5811 0000000000000000000000000000000000
     0: 42                                  # bytes 2
     1:    82 01
     3: 42                                  # bytes 2
     4:    01 02
     6: 58 11                               # bytes 17
     8:    00 00 00 00 00 00 00 00 00 00 00 00 00 00 00 00
    24:    00
";

// At most one line of each body: of a string in a string, of a string that is no item, and of the string after it.
static FEW: &str = "\
= 5814 5812 000102030405060708090a0b0c0d0e0f1011 5811 0000000000000000000000000000000000 41ff
58 14                               # bytes 20
   58 12                            # bytes 18
      00 01 02 03 04 05 06 07 08 09 0a 0b 0c 0d 0e 0f
      # ... 2 more bytes
58 11                               # bytes 17
   00 00 00 00 00 00 00 00 00 00 00 00 00 00 00 00
   # ... 1 more byte
41                                  # bytes 1
   ff
";

// The item in a byte string takes a level, which no string has here. Then it takes the only one.
static NO_LEVEL: &str = "\
= 41 00
41                                  # bytes 1
   00
";

// One level: that of the item in a string, and none for what the item contains. An array leaves none for a string.
static ONE_LEVEL: &str = "\
= 41 00 42 8100 81 41 00 42 4100
41                                  # bytes 1
   00                               # 0
42                                  # bytes 2
   81 00
81                                  # array 1
   41                               # [0] bytes 1
      00
42                                  # bytes 2
   41                               # bytes 1
      00
";

// Two levels, as for `81 81 00` without strings.
static TWO_LEVELS: &str = "\
= 42 8100 42 4100 43 818100
42                                  # bytes 2
   81                               # array 1
      00                            # [0] 0
42                                  # bytes 2
   41                               # bytes 1
      00                            # 0
43                                  # bytes 3
   81 81 00
";

// Only the titles around a string have to be the shortest, as for `diag`.
static STRICT: &str = "\
= 42 1800 1800
42                                  # bytes 2
   18 00                            # 0
18 00
# syntax 3
";

// The second item of each input.
static SECOND: &str = "\
= 41 00 41 01 1c
41                                  # bytes 1
   01                               # 1
= 41 00 42 01
42                                  # bytes 2
   01
# short 3
";

#[test]
fn items_in_strings(rt: HostRuntime) {
    let embedded = options_of(&rt, rt.alloc(), "dump --embedded");
    each_dumped(&rt, rt.alloc(), embedded, ITEMS, 4);
    each_dumped(&rt, rt.alloc(), embedded, OTHERS, 10);
    each_dumped(&rt, rt.alloc(), embedded, NINE, 1);
}

#[test]
fn items_under_tag_24(rt: HostRuntime) {
    let tagged = options_of(&rt, rt.alloc(), "dump --embedded=tagged");
    each_dumped(&rt, rt.alloc(), tagged, TAGGED, 6);
}

#[test]
fn items_beside_other_options(rt: HostRuntime) {
    let offsets = options_of(&rt, rt.alloc(), "dump --embedded --offsets");
    each_dumped(&rt, rt.alloc(), offsets, PLACED, 2);
    let few = options_of(&rt, rt.alloc(), "dump --max 1 --embedded");
    each_dumped(&rt, rt.alloc(), few, FEW, 1);
    let strict = options_of(&rt, rt.alloc(), "dump --embedded --strict");
    each_dumped(&rt, rt.alloc(), strict, STRICT, 1);
    let second = options_of(&rt, rt.alloc(), "dump --embedded --skip 1 --items 1");
    each_dumped(&rt, rt.alloc(), second, SECOND, 2);
}

#[test]
fn levels_of_items(rt: HostRuntime) {
    let none = options_of(&rt, rt.alloc(), "dump --embedded --depth 0");
    each_dumped(&rt, rt.alloc(), none, NO_LEVEL, 1);
    let one = options_of(&rt, rt.alloc(), "dump --embedded --depth 1");
    each_dumped(&rt, rt.alloc(), one, ONE_LEVEL, 1);
    let two = options_of(&rt, rt.alloc(), "dump --embedded --depth 2");
    each_dumped(&rt, rt.alloc(), two, TWO_LEVELS, 1);
}

// The start of a string of 65,536 bytes, which are one of 65,531 bytes, and its dump with one line of each body. The
// memory has room for the first string, and none is left for the second one.
static LONG: &str = "5a00010000 5a0000fffb";

static LONG_DUMP: &str = "\
5a 00 01 00 00                      # bytes 65536
   5a 00 00 ff fb                   # bytes 65531
      00 00 00 00 00 00 00 00 00 00 00 00 00 00 00 00
      # ... 65515 more bytes
";

// One byte more, for which there is no room.
static LONGER: &str = "5a00010001 5a0000fffc";

static LONGER_DUMP: &str = "\
5a 00 01 00 01                      # bytes 65537
   5a 00 00 ff fc 00 00 00 00 00 00 00 00 00 00 00
   # ... 65521 more bytes
";

// Returns whether digits and as many zeros as `count` have this dump.
fn is_dumped(alloc: Global, digits: &str, count: usize, options: Options, want: &str) -> bool {
    let mut bytes = Vec::new(alloc);
    if Digits::new(digits.as_bytes())
        .read_to_end(&mut bytes)
        .is_err()
    {
        return false;
    }
    for _ in 0..count {
        if bytes.push(0).is_err() {
            return false;
        }
    }
    let mut text = Vec::new(alloc);
    let dumped = dump_input(alloc, bytes.as_slice(), &mut text, options, false);
    dumped.is_ok() && text.as_slice() == want.as_bytes()
}

#[test]
fn items_of_many_bytes(rt: HostRuntime) {
    let few = options_of(&rt, rt.alloc(), "dump --embedded --max 1");
    let is_item = is_dumped(rt.alloc(), LONG, 65531, few, LONG_DUMP);
    holds(&rt, is_item, "an item", LONG);
    let is_bytes = is_dumped(rt.alloc(), LONGER, 65532, few, LONGER_DUMP);
    holds(&rt, is_bytes, "bytes", LONGER);
}

// A string that is an item, and one that is none. Their dump has four lines, of 46, 40, 46 and 9 bytes.
static STRINGS: &[u8] = b"\x41\x00\x42\x01\x02";

// Returns whether a writer whose call of this number takes no byte is found.
fn is_failed_write(alloc: Global, call: usize, options: Options) -> bool {
    let mut writer = PartWriter::new(alloc, 40).failing_at(call, None);
    matches!(
        dump_input(alloc, STRINGS, &mut writer, options, false),
        Err(Verdict::Output(_))
    )
}

// The lines go out at once, by calls of 40 bytes.
#[test]
fn calls_that_fail(rt: HostRuntime) {
    for call in 1..=4 {
        let embedded = options_of(&rt, rt.alloc(), "dump --embedded");
        holds_at(
            &rt,
            is_failed_write(rt.alloc(), call, embedded),
            "write",
            call,
        );
    }
}
