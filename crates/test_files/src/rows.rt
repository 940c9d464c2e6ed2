// Rows for the tests, each in hexadecimal digits. Long tables are one text, since a proof that names a table looks at
// each of its rows.

// The examples of RFC 8949, appendix A, and after them those of its section 3 that are not among them, 90 in all.
pub static EXAMPLES: &str = "\
00
01
0a
17
1818
1819
1864
1903e8
1a000f4240
1b000000e8d4a51000
1bffffffffffffffff
c249010000000000000000
3bffffffffffffffff
c349010000000000000000
20
29
3863
3903e7
f90000
f98000
f93c00
fb3ff199999999999a
f93e00
f97bff
fa47c35000
fa7f7fffff
fb7e37e43c8800759c
f90001
f90400
f9c400
fbc010666666666666
f97c00
f97e00
f9fc00
fa7f800000
fa7fc00000
faff800000
fb7ff0000000000000
fb7ff8000000000000
fbfff0000000000000
f4
f5
f6
f7
f0
f8ff
c074323031332d30332d32315432303a30343a30305a
c11a514b67b0
c1fb41d452d9e8200000
d74401020304
d818456449455446
d82076687474703a2f2f7777772e6578616d706c652e636f6d
40
4401020304
60
6161
6449455446
62225c
62c3bc
63e6b0b4
64f0908591
80
83010203
8301820203820405
98190102030405060708090a0b0c0d0e0f101112131415161718181819
a0
a201020304
a26161016162820203
826161a161626163
a56161614161626142616361436164614461656145
5f42010243030405ff
7f657374726561646d696e67ff
9fff
9f018202039f0405ffff
9f01820203820405ff
83018202039f0405ff
83019f0203ff820405
9f0102030405060708090a0b0c0d0e0f101112131415161718181819ff
bf61610161629f0203ffff
826161bf61626163ff
bf6346756ef563416d7421ff
1901f4
3901f3
450102030405
8a00000000000000000000
5f44aabbccdd43eeff99ff
c48221196ab3
c5822003
d9d9f700
d9d9f7d9d9f700
";

// The malformed items of RFC 8949, appendix F.1, 110 in all, and the verdict on each.
pub static MALFORMED: &str = "\
# The bytes end within a title.
18 = short 1
19 = short 1
1a = short 1
1b = short 1
1901 = short 1
1a0102 = short 1
1b01020304050607 = short 1
38 = short 1
58 = short 1
78 = short 1
98 = short 1
9a01ff00 = short 1
b8 = short 1
d8 = short 1
f8 = short 1
f900 = short 1
fa0000 = short 1
fb000000 = short 1
# They end within a string of a definite length.
41 = short 1
61 = short 1
5affffffff00 = short 5
5bffffffffffffffff010203 = short 9
7affffffff00 = short 5
7b7fffffffffffffff010203 = short 9
# They end within an array or a map of a definite length, or behind the title of a tag.
81 = short 1
818181818181818181 = short 9
8200 = short 2
a1 = short 1
a20102 = short 3
a100 = short 2
a2000000 = short 4
c0 = short 1
# They end within a string, an array or a map of indefinite length.
5f4100 = short 3
7f6100 = short 3
9f = short 1
9f0102 = short 3
bf = short 1
bf01020102 = short 5
819f = short 2
9f8000 = short 3
9f9f9f9f9fffffffff = short 9
9f819f819f9fffffff = short 9
# First bytes that are reserved.
1c = syntax 0
1d = syntax 0
1e = syntax 0
3c = syntax 0
3d = syntax 0
3e = syntax 0
5c = syntax 0
5d = syntax 0
5e = syntax 0
7c = syntax 0
7d = syntax 0
7e = syntax 0
9c = syntax 0
9d = syntax 0
9e = syntax 0
bc = syntax 0
bd = syntax 0
be = syntax 0
dc = syntax 0
dd = syntax 0
de = syntax 0
fc = syntax 0
fd = syntax 0
fe = syntax 0
# Simple values below 32 in two bytes, which RFC 7049 leaves without a meaning.
f800 = ok 1 2
f801 = ok 1 2
f818 = ok 1 2
f81f = ok 1 2
# Pieces of another kind.
5f00ff = syntax 1
5f21ff = syntax 1
5f6100ff = syntax 1
5f80ff = syntax 1
5fa0ff = syntax 1
5fc000ff = syntax 1
5fe0ff = syntax 1
7f4100ff = syntax 1
# A string of indefinite length within another one, which a strict decoder alone refuses.
5f5f4100ffff = ok 1 6
7f7f6100ffff = ok 1 6
# Breaks that end nothing.
ff = break 0
81ff = break 1
8200ff = break 2
a1ff = break 1
a1ff00 = break 1
a100ff = break 2
a20000ff = break 3
9f81ff = break 2
9f829f819f9fffffffff = break 9
bf00ff = break 2
bf000000ff = break 4
# The minor 31 where nothing is open.
1f = syntax 0
3f = syntax 0
df = syntax 0
# Texts that are none: a byte that begins no character, one that goes on none, an overlong one, a surrogate, and a
# character that is cut at the end of its piece.
61ff = syntax 0
6180 = syntax 0
62c080 = syntax 0
63eda080 = syntax 0
7f61c361a9ff = syntax 1
# Behind whole items the offset is that of the whole input.
0001ff = break 2
00811c = syntax 2
820001820002ff = break 6
0000008200 = short 5
f6f61a00 = short 3
c2c2 = short 2
a101 = short 2
bf01 = short 2
5f = short 1
7f = short 1
5f41 = short 2
";

// Options, digits, and the verdict.
pub static SPELLED: [(&str, &str, &str); 81] = [
    // Sequences of items (RFC 8742).
    ("check", "", "ok 0 0"),
    ("check", "00", "ok 1 1"),
    ("check", "000000", "ok 3 3"),
    ("check", "8201 02f6 6161", "ok 3 6"),
    ("check", "9fff bfff 5fff 7fff", "ok 4 8"),
    // Exactly one item.
    ("check --one", "", "short 0"),
    ("check --one", "820102", "ok 1 3"),
    ("check --one", "0000", "more 1"),
    ("check --one", "6161ff", "more 2"),
    ("check --one", "00 19 03", "more 1"),
    ("check --one", "00 1c", "more 1"),
    ("check --one", "8200", "short 2"),
    // Only the shortest spelling.
    ("check --strict", "17 1818 18ff 190100", "ok 4 8"),
    ("check --strict", "1817", "syntax 0"),
    ("check --strict", "001900ff", "syntax 1"),
    ("check --strict", "1b00000000ffffffff", "syntax 0"),
    ("check --strict", "580100", "syntax 0"),
    ("check --strict", "980100", "syntax 0"),
    ("check --strict", "815f580100ff", "syntax 2"),
    ("check --strict", "f800", "syntax 0"),
    ("check --strict", "f820", "ok 1 2"),
    ("check --strict", "5f5f4100ffff", "syntax 1"),
    ("check --strict", "7f7f6100ffff", "syntax 1"),
    ("check --strict", "5f4100ff", "ok 1 4"),
    ("check --strict --one", "00 00", "more 1"),
    ("check --strict --one", "00 1800", "more 1"),
    // A part of the items: those after the first ones, and at most a number of them.
    ("check --skip 0", "00 6161", "ok 2 3"),
    ("check --skip 1", "00 6161 f6", "ok 2 3"),
    ("check --skip=3", "00 6161 f6", "ok 0 0"),
    ("check --skip 4", "00 6161 f6", "short 4"),
    ("check --skip 2", "00 8201", "short 3"),
    ("check --skip 1", "00 1c", "syntax 1"),
    ("check --skip 2", "00 ff 00", "break 1"),
    ("check --skip 18446744073709551615", "", "short 0"),
    ("check --items 2", "00 6161 1c", "ok 2 3"),
    ("check --items 3", "00 6161 1c", "syntax 3"),
    ("check --items 5", "00 6161", "ok 2 3"),
    ("check --items=0", "1c", "ok 0 0"),
    ("check --skip 1 --items 1", "00 6161 1c", "ok 1 2"),
    ("check --items 1 --skip 1 --strict", "1800 00", "syntax 0"),
    ("check --depth 0 --skip 1", "80 00", "deep 0"),
    ("check --skip 1 --one", "00 6161", "ok 1 2"),
    ("check --skip 1 --one", "00 6161 00", "more 3"),
    // Levels.
    ("check --depth 0", "00 6161 5f4100ff", "ok 3 7"),
    ("check --depth 0", "80", "deep 0"),
    ("check --depth 1", "80 a0 c000 9fff", "ok 4 6"),
    ("check --depth 1", "8180", "deep 1"),
    ("check --depth 1", "00c0c000", "deep 2"),
    ("check --depth 2", "818100", "ok 1 3"),
    // Digits, in either case, with spaces and comments between them.
    ("check", "F6 0A # ff\n0b / ff\n ff / 0c", "ok 4 4"),
    ("check", "8 2 0\t1\r\n0 2", "ok 1 3"),
    ("check", "# 00", "ok 0 0"),
    ("check", "0#\n0", "ok 1 1"),
    ("check", "00 # 01", "ok 1 1"),
    ("check", "00 / 01 / / 02 /", "ok 1 1"),
    ("check", "0", "line 1, column 1: half a byte"),
    ("check", "0 # 0", "line 1, column 1: half a byte"),
    (
        "check",
        "00 / 01",
        "line 1, column 4: a comment without an end",
    ),
    (
        "check",
        "00 /",
        "line 1, column 4: a comment without an end",
    ),
    ("check", "00 g", "line 1, column 4: no hexadecimal digit"),
    (
        "check",
        "00\n\n f60g",
        "line 3, column 5: no hexadecimal digit",
    ),
    // Commas, colons, prefixes, escapes, quotes, and a byte order mark.
    ("check", "00,", "ok 1 1"),
    ("check", "82:01:f6", "ok 1 3"),
    ("check", "82, 01,\n 0xf6", "ok 1 3"),
    ("check", "0x8201 0XF6", "ok 1 3"),
    ("check", "\\x82\\x01\\xf6", "ok 1 3"),
    ("check", "h'8201' h'f6'", "ok 1 3"),
    ("check", "\u{feff}8201f6", "ok 1 3"),
    ("check", "1x00", "line 1, column 2: no hexadecimal digit"),
    ("check", "0 x00", "line 1, column 3: no hexadecimal digit"),
    ("check", "\\82", "line 1, column 2: no hexadecimal digit"),
    ("check", "h82", "line 1, column 2: no hexadecimal digit"),
    ("check", "h'820'", "line 1, column 6: no hexadecimal digit"),
    ("check", "h'82", "line 1, column 2: quotes without an end"),
    (
        "check",
        "00\u{feff}",
        "line 1, column 3: no hexadecimal digit",
    ),
    (
        "check",
        "00 # \u{e9}\n /\u{e9}/ \u{e9}",
        "line 2, column 6: no hexadecimal digit",
    ),
    // Offsets, and what xxd writes after digits.
    (
        "check",
        "00000000: 8201 f6                                  ..82",
        "ok 1 3",
    ),
    (
        "check",
        "     0: 82  # array 2\n     1:    01\n    2:\n\tf6",
        "ok 1 3",
    ),
    ("check", "00000000000000000000: f6", "ok 11 11"),
    ("check", "82: 01", "ok 1 1"),
    ("check", "82:01 f6: 00", "ok 2 4"),
];

// Words, and the files that they name, if they ask for a look at files.
pub static WORDS: [(&str, Option<&str>); 145] = [
    ("check", Some("")),
    ("check -", Some("-")),
    ("check a b", Some("a b")),
    ("check --strict", Some("")),
    ("check --strict --one --names --hex a", Some("a")),
    ("check --depth 256 a", Some("a")),
    ("check --depth 0", Some("")),
    ("check --depth=256 a", Some("a")),
    ("check -- --strict", Some("--strict")),
    ("check --hex --", Some("")),
    ("check a --hex", Some("a")),
    (
        "check a --depth 3 b --hex c -- --d -h",
        Some("a b c --d -h"),
    ),
    ("check --strict --strict", Some("")),
    ("dump", Some("")),
    ("dump --offsets --strict --hex a", Some("a")),
    ("dump --color always a --color=never b", Some("a b")),
    ("diag", Some("")),
    ("diag --pretty --strict --hex --depth 3 a", Some("a")),
    ("encode", Some("")),
    ("json", Some("")),
    ("json --lossy --strict --hex --depth 3 a --one", Some("a")),
    ("json --skip 1 a --items=2 -", Some("a -")),
    ("json --one --skip 1", Some("")),
    ("json --one --items 1", None),
    ("json --lossy=1", None),
    ("json --pretty", None),
    ("json --exact", None),
    ("json --index", None),
    ("json --names", None),
    ("json --max 1", None),
    ("json --offsets", None),
    ("json --color never", None),
    ("json --order bytewise", None),
    ("json --deterministic", None),
    ("check --lossy", None),
    ("dump --lossy", None),
    ("diag --lossy", None),
    ("encode --lossy", None),
    ("canon --lossy", None),
    ("recode --lossy", None),
    ("encode --one --depth 3 f", Some("f")),
    ("check --deterministic --order length-first a", Some("a")),
    ("check a --order=bytewise b --deterministic", Some("a b")),
    ("check --deterministic --strict --hex", Some("")),
    ("canon", Some("")),
    ("canon --order length-first --depth 3 a -", Some("a -")),
    ("canon a --order=bytewise", Some("a")),
    ("check --order bytewise", None),
    ("check --order=length-first a", None),
    ("check --order", None),
    ("check --deterministic --order", None),
    ("check --deterministic --order sorted", None),
    ("check --deterministic --order=", None),
    ("check --deterministic --order Bytewise", None),
    ("check --deterministic=1", None),
    (
        "check -- --deterministic --order",
        Some("--deterministic --order"),
    ),
    ("dump --deterministic", None),
    ("dump --order bytewise", None),
    ("diag --deterministic", None),
    ("encode --order=bytewise", None),
    ("canon --deterministic", None),
    ("canon --strict", None),
    ("canon --hex", None),
    ("canon --one", None),
    ("canon --names", None),
    ("canon --order canonical", None),
    ("dump --one", None),
    ("dump --pretty", None),
    ("dump --names", None),
    ("dump --color", None),
    ("dump --color=", None),
    ("dump --color a", None),
    ("diag --one", None),
    ("diag --offsets", None),
    ("encode --strict", None),
    ("encode --hex", None),
    ("encode --names", None),
    ("encode --pretty", None),
    ("encode --offsets", None),
    ("encode --color never", None),
    ("encode --depth 257", None),
    ("Encode", None),
    ("check --pretty", None),
    ("check --offsets", None),
    ("check --color never", None),
    ("check --depth", None),
    ("check --depth 257", None),
    ("check --depth=257", None),
    ("check --depth=", None),
    ("check --depth 01", None),
    ("check --depth -1", None),
    ("check --depth --", None),
    ("check --strict=", None),
    ("check -s", None),
    ("check --Strict", None),
    ("check a --pretty", None),
    ("Check", None),
    ("", None),
    ("help", None),
    ("recode", Some("")),
    ("recode a --depth 3 ./5", Some("a ./5")),
    ("recode --strict", None),
    // Parts of the items, their places, and the lines of a body.
    ("check --skip 0 --items 18446744073709551615 a", Some("a")),
    ("check a --index --skip=2 --items 3", Some("a")),
    ("check --index --index", Some("")),
    ("check --skip 1 --one", Some("")),
    ("check --deterministic --skip 0", Some("")),
    ("dump --max 0 --skip 1 --items=2 a", Some("a")),
    ("diag --items 1 --pretty --skip 1", Some("")),
    ("recode --skip 1 a --items 2", Some("a")),
    ("check --skip", None),
    ("check --skip=", None),
    ("check --skip -1", None),
    ("check --skip 01", None),
    ("check --skip +1", None),
    ("check --skip 1a", None),
    ("check --items 18446744073709551616", None),
    ("check --index=1", None),
    ("check --max 1", None),
    ("diag --max 1", None),
    ("dump --index", None),
    ("recode --index", None),
    ("encode --skip 1", None),
    ("canon --items 1", None),
    ("check --one --items 1", None),
    ("check --index --one", None),
    ("check --deterministic --skip 1", None),
    ("check --items 1 --deterministic", None),
    ("check --deterministic --index a", None),
    ("check --one --items 1 --help", None),
    ("dump --max", None),
    ("diag --exact --pretty a", Some("a")),
    ("diag --exact=1", None),
    ("dump --exact", None),
    ("diag --embedded a --embedded=tagged --exact", Some("a")),
    ("diag --embedded tagged", Some("tagged")),
    ("diag --embedded=all", None),
    ("diag --embedded=", None),
    ("diag --tagged", None),
    ("dump --embedded a --embedded=tagged --max 1", Some("a")),
    ("dump --embedded tagged", Some("tagged")),
    ("dump --embedded=all", None),
    ("encode --embedded", None),
    ("json --embedded=tagged", None),
    ("check --embedded", None),
];

// Words, and the start of the text that they ask for.
pub static HELPS: [(&str, &str); 19] = [
    ("help", "usage: cbor WORD"),
    ("--help", "usage: cbor WORD"),
    ("-h", "usage: cbor WORD"),
    ("help help", "usage: cbor WORD"),
    ("help check", "usage: cbor check"),
    ("help dump", "usage: cbor dump"),
    ("--help diag", "usage: cbor diag"),
    ("help json", "usage: cbor json"),
    ("help encode", "usage: cbor encode"),
    ("help canon", "usage: cbor canon"),
    ("help recode", "usage: cbor recode"),
    ("check --help", "usage: cbor check"),
    ("dump a -h --bogus", "usage: cbor dump"),
    ("diag --pretty --help", "usage: cbor diag"),
    ("json a --lossy -h", "usage: cbor json"),
    ("encode a --one -h", "usage: cbor encode"),
    ("canon a --order=bytewise -h", "usage: cbor canon"),
    ("check --order bytewise --help", "usage: cbor check"),
    ("--version", "cbor 0."),
];

// Words that ask for nothing, and what is said of them.
pub static REFUSALS: [(&str, &str); 35] = [
    (
        "chek",
        "no word \"chek\"; did you mean \"check\"?\ncbor: the words are check, dump, diag, json, encode, canon, recode, help",
    ),
    (
        "bogus",
        "no word \"bogus\"\ncbor: the words are check, dump, diag, json, encode, canon, recode, help",
    ),
    (
        "recod 1",
        "no word \"recod\"; did you mean \"recode\"?\ncbor: the words are check, dump, diag, json, encode, canon, recode, help",
    ),
    (
        "help chek",
        "no word \"chek\"; did you mean \"check\"?\ncbor: the words are check, dump, diag, json, encode, canon, recode, help",
    ),
    ("help check dump", "\"dump\" is one word too many"),
    ("--version 1", "\"1\" is one word too many"),
    (
        "check --strikt",
        "check has no option \"--strikt\"; did you mean \"--strict\"?\ncbor: the options of check are --strict, --deterministic, --order, --depth, --one, --skip, --items, --index, --names, --hex, --help",
    ),
    (
        "check --pretty=1",
        "check has no option \"--pretty\"\ncbor: the options of check are --strict, --deterministic, --order, --depth, --one, --skip, --items, --index, --names, --hex, --help",
    ),
    (
        "encode --strict",
        "encode has no option \"--strict\"\ncbor: the options of encode are --depth, --one, --help",
    ),
    (
        "jsn",
        "no word \"jsn\"; did you mean \"json\"?\ncbor: the words are check, dump, diag, json, encode, canon, recode, help",
    ),
    (
        "json --loosy",
        "json has no option \"--loosy\"; did you mean \"--lossy\"?\ncbor: the options of json are --strict, --lossy, --depth, --one, --skip, --items, --hex, --help",
    ),
    (
        "json --one --items 2",
        "--one and --items exclude each other",
    ),
    ("encode --one=1", "--one takes no value"),
    (
        "canon --strict",
        "canon has no option \"--strict\"\ncbor: the options of canon are --order, --depth, --help",
    ),
    (
        "canon --order sorted a",
        "--order sorted: bytewise or length-first",
    ),
    (
        "check --deterministic --order=1",
        "--order 1: bytewise or length-first",
    ),
    (
        "check --deterministic --order",
        "--order wants a value: bytewise or length-first",
    ),
    ("check --order bytewise", "--order wants --deterministic"),
    (
        "check a --order=length-first b",
        "--order wants --deterministic",
    ),
    ("check --deterministic=1", "--deterministic takes no value"),
    ("check a --depth 300", "--depth 300: at most 256"),
    ("check --depth=300", "--depth 300: at most 256"),
    ("check --depth 03", "--depth 03: a number of at most 256"),
    (
        "check --depth",
        "--depth wants a value: a number of at most 256",
    ),
    ("check --one=1", "--one takes no value"),
    ("diag --embedded=all", "--embedded all: tagged, or no value"),
    (
        "json --embedded=tagged",
        "json has no option \"--embedded\"\ncbor: the options of json are --strict, --lossy, --depth, --one, --skip, --items, --hex, --help",
    ),
    ("dump --color red", "--color red: always, never or auto"),
    ("check --skip 01", "--skip 01: a number below 2^64"),
    (
        "recode --items=18446744073709551616",
        "--items 18446744073709551616: a number below 2^64",
    ),
    ("dump --max", "--max wants a value: a number below 2^64"),
    (
        "check --one --items 2",
        "--one and --items exclude each other",
    ),
    (
        "check --index --one",
        "--one and --index exclude each other",
    ),
    (
        "check --skip 1 --deterministic",
        "--deterministic and --skip exclude each other",
    ),
    (
        "recode --skp",
        "recode has no option \"--skp\"; did you mean \"--skip\"?\ncbor: the options of recode are --depth, --skip, --items, --help",
    ),
];

// Names, and how they are shown.
pub static NAMES: [(&str, &str); 4] = [
    ("a\u{e9} b", "a\u{e9} b"),
    ("a\nb\t\u{1b}[2J\u{7f}", "a\\u000ab\\u0009\\u001b[2J\\u007f"),
    (
        "\u{9f}\u{a0}\u{61c}\u{200d}\u{200e}\u{200f}",
        "\\u009f\u{a0}\\u061c\u{200d}\\u200e\\u200f",
    ),
    (
        "\u{202a}\u{202e}\u{202f}\u{2066}\u{2069}",
        "\\u202a\\u202e\u{202f}\\u2066\\u2069",
    ),
];
