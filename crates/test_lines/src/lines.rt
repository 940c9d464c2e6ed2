// Lines of each kind, each with its answer.

use super::answers::{holds, is_answered};
use std::alloc::Global;

// Returns whether the lines below the first line of a block are the answer to it.
fn is_block_answered(alloc: Global, block: &str) -> bool {
    match block.split_once('\n') {
        Some((line, want)) => is_answered(alloc, line.as_bytes(), want.as_bytes()),
        None => false,
    }
}

// Blocks of a line and its answer, with `=` between blocks: heads of each kind, byte strings and text strings in
// chunks, and values in segments. Then elements that are copied, copies that stop, strict copies, and items that are
// skipped.
static BLOCKS: &str = "\
heads 9f018202039f0405ffff
0 array *
1 positive 1
2 array 2
3 positive 2
4 positive 3
5 array *
6 positive 4
7 positive 5
8 break
9 break
end 10
=heads 1f
syntax 0
=heads 1c
syntax 0
=heads df
syntax 0
=heads 001c
0 positive 0
syntax 1
=heads -
end 0
=heads 1903
short 1
=heads f97e00fa47c35000f810f818
0 half 7e00
3 single 47c35000
8 simple 16
10 simple 24
end 12
=heads 3bffffffffffffffffc25f7fbf5818781960a1
0 negative 18446744073709551615
9 tag 2
10 bytes *
11 text *
12 map *
13 bytes 24
15 text 25
17 text 0
18 map 1
end 19
=heads FB0000000000000001
0 double 0000000000000001
end 9
=heads 00fb0000
0 positive 0
short 2
=chunks 2 43010203
segment 3
chunk 0102
chunk 03
stop
end 4
=chunks 1 5f5f4101ff4102ff
segment 1
chunk 01
stop
segment 1
chunk 02
stop
end 8
=chunks 4 5fff
end 2
=chunks 4 5f01
syntax 1
=chunks 4 40
segment 0
stop
end 1
=chunks 4 4301
segment 3
short 1
=chunks 1 4301
segment 3
chunk 01
short 2
=chunks 0 4101
segment 1
chunk -
stuck
=chunks 4 00
other
=chunks 4 ff
other
=chunks 4 1f
syntax 0
=chunks 4 -
short 0
=chunks 4 1903
short 1
=chunks 65536 5803010203
segment 3
chunk 010203
stop
end 5
=chunks 4 6661f09f988062
segment 6
chunk 61
chunk f09f9880
chunk 62
stop
end 7
=chunks 4 63eda080
segment 3
chunk -
syntax 0
=chunks 4 64eda08061
segment 4
syntax 0
=chunks 4 780261ff
segment 2
chunk 61
syntax 1
=chunks 4 7f62e28261acff
segment 2
chunk -
syntax 1
=chunks 3 64f09f9880
segment 4
chunk -
stuck
=chunks 7 6d48656c6c6f2c20576f726c6421
segment 13
chunk 48656c6c6f2c20
chunk 576f726c6421
stop
end 14
=bytes 2 0102030405
5f4201024203044105ff
=bytes * -
40
=bytes 0 010203
5f410141024103ff
=bytes 1 010203
5f410141024103ff
=bytes 3 010203
43010203
=bytes 4294967295 0a
410a
=text 5 c3a9c3a9c3a9
7f64c3a9c3a962c3a9ff
=text 6 c3a9c3a9c3a9
66c3a9c3a9c3a9
=text 4 61f09f9880f09f9880
7f616164f09f988064f09f9880ff
=text 7 61f09f9880f09f9880
7f6561f09f988064f09f9880ff
=text 8 61f09f9880f09f9880
7f6561f09f988064f09f9880ff
=text 4 61c3a9e282acf09f9880
7f6361c3a963e282ac64f09f9880ff
=text 0 61c3a9e282acf09f9880
7f6361c3a963e282ac64f09f9880ff
=text 7 61c3a9e282acf09f9880
7f6661c3a9e282ac64f09f9880ff
=text * 61c3a9e282acf09f9880
6a61c3a9e282acf09f9880
=text 1 6162636465
7f64616263646165ff
=text 9 -
60
=text 4 e282
error: text
=recode 1 5f5f580101ffff
5f4101ff rest -
=recode 0 5f5f580101ffff
- rest 5f5f580101ffff
=recode 2 1805f810a0
05f0 rest a0
=recode 1 ff
ff rest -
=recode 1 5f40ff
5f40ff rest -
=recode 1 7fff
7fff rest -
=recode 1 5f40ff
5f40ff rest -
=recode 3 a107780d48656c6c6f2c20576f726c6421
a1076d48656c6c6f2c20576f726c6421 rest -
=recode 2 5801015f5f420203ffff
41015f420203ff rest -
=recode 3 825f4201024103ff7f62c3a963e282acff00
825f4201024103ff7f62c3a963e282acff rest 00
=recode 0 -
- rest -
=recode 1 7f61615fff
7f6161 syntax 3
=recode 1 780261ff
6261 syntax 1
=recode 1 6561ff626364
65 syntax 0
=recode 1 4301
43 short 1
=recode 1 7f7fff
7f short 3
=recode 1 -
- short 0
=recode 4294967295 -
- short 0
=recode 1 7f62c3a9641f
7f62c3a964 short 5
=recode 2 f6fc
f6 syntax 1
=recode 1 5f
5f short 1
=recode 1 5f41
5f41 short 2
=recode 1 5f4101
5f4101 short 3
=recode 1 7f62c32964f09f9880ff
7f62 syntax 1
=recode 1 7f63c3a964f09f9880ff
7f63c3a964 syntax 5
=recode 1 7f62c3a965f09f9880ff
7f62c3a965f09f9880 syntax 4
=recode 1 7f62c3a964f09f9880fe
7f62c3a964f09f9880 syntax 9
=strict 1 1805
- syntax 0
=strict 1 1817
- syntax 0
=strict 1 1818
1818 rest -
=strict 1 190018
- syntax 0
=strict 1 f818
- syntax 0
=strict 1 f81f
- syntax 0
=strict 1 f820
f820 rest -
=strict 1 f90000
f90000 rest -
=strict 2 051805
05 syntax 1
=strict 1 5f4101ff
5f4101ff rest -
=strict 1 5f5f4101ffff
5f syntax 1
=strict 1 7f780161ff
7f syntax 1
=strict 1 780261ff
- syntax 0
=strict 1 5f7fff
5f syntax 1
=strict 1 1c
- syntax 0
=strict 1 4301
43 short 1
=strict 1 6261ff00
6261 syntax 0
=strict 1 0500
05 rest 00
=strict 0 1805
- rest 1805
=skip 1 80
item 1
=skip 1 c001
item 2
=skip 1 bfff
item 2
=skip 1 9f01020300ff
item 6
=skip 2 a16161820102
item 6
=skip 0 5f4101ff
item 4
=skip 0 0001
item 1
=skip 2 c1a0ff
item 2
=skip 0 80
deep 0
=skip 0 c0
deep 0
=skip 1 a16161820102
deep 3
=skip 0 ff
break 0
=skip 1 81ff
break 1
=skip 1 bf01ff
break 2
=skip 3 62c328
syntax 0
=skip 1 811f
syntax 1
=skip 1 8201
short 2
=skip 1 bb8000000000000001
short 9
=skip 1 bb80000000000000010000
short 11
=skip 0 -
short 0
";

// This test fails for a program that always answers `error: memory`, or prints its input again.
#[test]
fn lines_of_each_kind(rt: HostRuntime) {
    for block in BLOCKS.split('=') {
        holds(&rt, is_block_answered(rt.alloc(), block), block);
    }
}
