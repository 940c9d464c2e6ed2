// Each literal of the notation, worked by hand from RFC 8949, section 3, and the examples of its section 8 and of
// RFC 8610, appendix G.

use crate::shared::{are_encoded, gives, holds, is_encoded};
use cbor_encode::{MAX_DEPTH, encode_shortest};

// Integers in each base, and the least and the greatest.
static INTEGERS: &str = "\
00 0
00 -0
181a 0x1a
181a 0x1A
0f 0o17
05 0b101
20 -0x1
3818 -0b11001
1bffffffffffffffff 18446744073709551615
1bffffffffffffffff 0xffffffffffffffff
3bffffffffffffffff -18446744073709551616
3bfffffffffffffffe -18446744073709551615
01 001";

// Floats: in the shortest width, by exponents, at the ends of each width (IEEE 754, 3.4), and with marks (RFC 8949,
// 8.1).
static FLOATS: &str = "\
f93e00 1.5
f95640 1E+2
f95640 1e2
fa501502f9 1e10
fb3fb999999999999a 0.1
f98000 -0.0
f97bff 65504.0
fa47800000 65536.0
f90001 5.960464477539063e-8
fa33000000 2.9802322387695312e-8
f90400 6.103515625e-5
f903ff 6.097555160522461e-5
fa00000001 1.401298464324817e-45
fb3690000000000000 7.006492321624085e-46
fa7f7fffff 3.4028234663852886e38
fb47f0000000000000 3.402823669209385e38
fb0000000000000001 5.0e-324
f93e00 1.5_1
fa3fc00000 1.5_2
fb3ff8000000000000 1.5_3
f97c00 Infinity
f9fc00 -Infinity
f97e00 NaN
f97e00 NaN_1
fa7fc00000 NaN_2
fb7ff8000000000000 NaN_3
fa7f800000 Infinity_2
fbfff0000000000000 -Infinity_3";

// Simple values.
static SIMPLE: &str = "\
f4 false
f5 true
f6 null
f7 undefined
e0 simple(0)
f0 simple(16)
f4 simple(20)
f820 simple(32)
f8ff simple(255)";

// Texts with each escape of JSON (RFC 8259, 7), and byte strings of texts.
static TEXTS: &str = "\
68225c2f080c0a0d09 \"\\\"\\\\\\/\\b\\f\\n\\r\\t\"
6141 \"\\u0041\"
62c3bc \"\\u00FC\"
64f0908591 \"\\uD800\\udd51\"
64f48fbfbf \"\\udbff\\udfff\"
6127 \"'\"
4568656c6c6f 'hello'";

// Byte strings of text, whose escapes may be of either quote.
static TEXT_BYTES: &str = "\
40 ''
4127 '\\''
4122 '\"'
4122 '\\\"'
42c3bc '\\u00fc'
4b68656c6c6f20776f726c64 'hello world'";

// Byte strings in base 16 and in base 64 (RFC 4648, 4 and 5): the examples of RFC 8949, section 8, and of RFC 8610,
// G.1.
static BYTES: &str = "\
4412345678 h'12345678'
4b48656c6c6f20776f726c64 h'48656c6c6f20776f726c64'
4b48656c6c6f20776f726c64 h'48 65 6c 6c 6f 20 77 6f 72 6c 64'
4b48656c6c6f20776f726c64 h'4 86 56c 6c6f 20776 f726c64'
4468656c6c h'68 65 / two / 6c6c'
41ab h'aB'
4412345678 b64'EjRWeA'
4412345678 b64'EjRWeA=='
4412345678 b64u'EjRWeA'
4412345678 b64' Ej RW eA = = '
42ffef b64'/+8='
42ffef b64'_-8'
42ffef b64u'_-8'
43000000 b64'AAAA'
40 b64''";

// Embedded items (RFC 8610, G.3).
static EMBEDDED: &str = "\
4101 <<1>>
420102 <<1, 2>>
4563666f6ff6 <<\"foo\", null>>
40 <<>>
424101 << <<1>> >>
580101 <<1>>_0";

// Indefinite lengths (RFC 8949, 8.1).
static INDEFINITE: &str = "\
5f420123424567ff (_ h'0123', h'4567')
7f63666f6f63626172ff (_ \"foo\", \"bar\")
5fff ''_
7fff \"\"_
5fff h''_
5f40ff (_ '')
7f780161ff (_ \"a\"_0)
9fff [_ ]
9fff [_]
bfff {_}
bf0102ff {_ 1: 2}
9f81009fffff [_ [0], [_ ]]
c19f01ff 1([_ 1])";

// Marks of titles.
static MARKS: &str = "\
01 1_i
1801 1_0
190001 1_1
1a00000001 1_2
1b0000000000000001 1_3
20 -1_i
3800 -1_0
1818 24_0
780161 \"a\"_0
59000101 h'01'_1
40 ''_i
7a0000000161 \"a\"_2
5b000000000000000101 b64'AQ'_3
8101 [_i 1]
980101 [_0 1]
9b0000000000000000 [_3 ]
b900010102 {_1 1: 2}
ba00000000 {_2}
c102 1_i(2)
d80102 1_0(2)
d9000102 1_1(2)";

// Comments, white space and commas: the first row is an example of RFC 8610, G.6.
static LAYOUTS: &str = "\
83011a00a1816083686f70736f6e697a65071869 /grasp-message/ [/M_DISCOVERY/ 1, /session-id/ 10584416, \
/objective/ [/objective-name/ \"opsonize\", /D, N, S/ 7, /loop-count/ 105]]
820102 [1, 2,]
820102 [ 1 ,2 ]
a10102 { 1 : 2 , }
c101 1( 1 )
01 / c / 1 / d /
01 1 # the rest of the line
80 [/ 1 /]
d9d9f700 55799(0)";

// Texts of several lines.
static LINES: &str = "# an array\n[ # of two\n\t1,\r\n  2 / and\n no more /\n]\n";

// A text whose marks are those of floats alone.
static MARKED_FLOATS: &str = "[1.5_3, NaN_2, [_ 1]]";

#[test]
fn integers(rt: HostRuntime) {
    are_encoded(&rt, rt.alloc(), INTEGERS);
}

#[test]
fn floats(rt: HostRuntime) {
    are_encoded(&rt, rt.alloc(), FLOATS);
}

#[test]
fn simple_values(rt: HostRuntime) {
    are_encoded(&rt, rt.alloc(), SIMPLE);
}

#[test]
fn strings(rt: HostRuntime) {
    are_encoded(&rt, rt.alloc(), TEXTS);
    are_encoded(&rt, rt.alloc(), TEXT_BYTES);
    are_encoded(&rt, rt.alloc(), BYTES);
    are_encoded(&rt, rt.alloc(), EMBEDDED);
}

#[test]
fn indefinite_lengths(rt: HostRuntime) {
    are_encoded(&rt, rt.alloc(), INDEFINITE);
}

#[test]
fn marks(rt: HostRuntime) {
    are_encoded(&rt, rt.alloc(), MARKS);
}

#[test]
fn layouts(rt: HostRuntime) {
    are_encoded(&rt, rt.alloc(), LAYOUTS);
    holds(
        &rt,
        is_encoded(rt.alloc(), LINES.as_bytes(), &[0x82, 1, 2]),
        LINES,
    );
}

#[test]
fn floats_keep_their_marks(rt: HostRuntime) {
    let answer = encode_shortest(rt.alloc(), MARKED_FLOATS.as_bytes(), MAX_DEPTH);
    let want = b"\x83\xfb\x3f\xf8\0\0\0\0\0\0\xfa\x7f\xc0\0\0\x9f\x01\xff";
    holds(&rt, gives(answer, want), MARKED_FLOATS);
}
