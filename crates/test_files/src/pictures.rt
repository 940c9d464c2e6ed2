use crate::dumps::each_dumped;
use tool_files::arguments::Options;

// Digits after `=`, and the dump of their bytes below them. They are the examples of RFC 8949, section 3, as its
// pictures have them, except that a break stands at the level of the title that it ends. Those of its appendix A
// follow, with their notation there, except that a float has a point before its exponent. Two examples are left out,
// since their texts are longer than a line.
static PICTURES: &str = "\
= 0a 1901f4 3901f3 45 0102030405 8a 00000000000000000000
0a                                  # 10
19 01 f4                            # 500
39 01 f3                            # -500
45                                  # bytes 5
   01 02 03 04 05
8a                                  # array 10
   00                               # [0] 0
   00                               # [1] 0
   00                               # [2] 0
   00                               # [3] 0
   00                               # [4] 0
   00                               # [5] 0
   00                               # [6] 0
   00                               # [7] 0
   00                               # [8] 0
   00                               # [9] 0
= 8301820203820405
83                                  # array 3
   01                               # [0] 1
   82                               # [1] array 2
      02                            # [0] 2
      03                            # [1] 3
   82                               # [2] array 2
      04                            # [0] 4
      05                            # [1] 5
= 9f018202039f0405ffff
9f                                  # array *
   01                               # [0] 1
   82                               # [1] array 2
      02                            # [0] 2
      03                            # [1] 3
   9f                               # [2] array *
      04                            # [0] 4
      05                            # [1] 5
   ff                               # break
ff                                  # break
= 9f01820203820405ff
9f                                  # array *
   01                               # [0] 1
   82                               # [1] array 2
      02                            # [0] 2
      03                            # [1] 3
   82                               # [2] array 2
      04                            # [0] 4
      05                            # [1] 5
ff                                  # break
= 83018202039f0405ff
83                                  # array 3
   01                               # [0] 1
   82                               # [1] array 2
      02                            # [0] 2
      03                            # [1] 3
   9f                               # [2] array *
      04                            # [0] 4
      05                            # [1] 5
   ff                               # break
= 83019f0203ff820405
83                                  # array 3
   01                               # [0] 1
   9f                               # [1] array *
      02                            # [0] 2
      03                            # [1] 3
   ff                               # break
   82                               # [2] array 2
      04                            # [0] 4
      05                            # [1] 5
= bf6346756ef563416d7421ff
bf                                  # map *
   63                               # text 3
      46 75 6e                      # \"Fun\"
   f5                               # {\"Fun\"} true
   63                               # text 3
      41 6d 74                      # \"Amt\"
   21                               # {\"Amt\"} -2
ff                                  # break
= 5f44aabbccdd43eeff99ff
5f                                  # bytes *
   44                               # bytes 4
      aa bb cc dd
   43                               # bytes 3
      ee ff 99
ff                                  # break
= c249010000000000000000
c2                                  # tag 2 (bignum)
   49                               # bytes 9
      01 00 00 00 00 00 00 00 00
= c48221196ab3 c5822003
c4                                  # tag 4 (decimal fraction)
   82                               # array 2
      21                            # [0] -2
      19 6a b3                      # [1] 27315
c5                                  # tag 5 (bigfloat)
   82                               # array 2
      20                            # [0] -1
      03                            # [1] 3
= d9d9f700
d9 d9 f7                            # tag 55799 (CBOR)
   00                               # 0
= 00 01 0a 17 1818 1819 1864 1903e8 1a000f4240 1b000000e8d4a51000 1bffffffffffffffff 3bffffffffffffffff 20 29 3863 3903e7
00                                  # 0
01                                  # 1
0a                                  # 10
17                                  # 23
18 18                               # 24
18 19                               # 25
18 64                               # 100
19 03 e8                            # 1000
1a 00 0f 42 40                      # 1000000
1b 00 00 00 e8 d4 a5 10 00          # 1000000000000
1b ff ff ff ff ff ff ff ff          # 18446744073709551615
3b ff ff ff ff ff ff ff ff          # -18446744073709551616
20                                  # -1
29                                  # -10
38 63                               # -100
39 03 e7                            # -1000
= f4 f5 f6 f7 f0 f8ff
f4                                  # false
f5                                  # true
f6                                  # null
f7                                  # undefined
f0                                  # simple 16
f8 ff                               # simple 255
= f90000 f98000 f93c00 fb3ff199999999999a f93e00 f97bff fa47c35000 fa7f7fffff fb7e37e43c8800759c f90001 f90400 f9c400 fbc010666666666666 f97c00 f97e00 f9fc00 fa7f800000 fa7fc00000 faff800000 fb7ff0000000000000 fb7ff8000000000000 fbfff0000000000000
f9 00 00                            # half 0.0
f9 80 00                            # half -0.0
f9 3c 00                            # half 1.0
fb 3f f1 99 99 99 99 99 9a          # double 1.1
f9 3e 00                            # half 1.5
f9 7b ff                            # half 65504.0
fa 47 c3 50 00                      # single 100000.0
fa 7f 7f ff ff                      # single 3.4028234663852886e+38
fb 7e 37 e4 3c 88 00 75 9c          # double 1.0e+300
f9 00 01                            # half 5.960464477539063e-8
f9 04 00                            # half 0.00006103515625
f9 c4 00                            # half -4.0
fb c0 10 66 66 66 66 66 66          # double -4.1
f9 7c 00                            # half Infinity
f9 7e 00                            # half NaN
f9 fc 00                            # half -Infinity
fa 7f 80 00 00                      # single Infinity
fa 7f c0 00 00                      # single NaN
fa ff 80 00 00                      # single -Infinity
fb 7f f0 00 00 00 00 00 00          # double Infinity
fb 7f f8 00 00 00 00 00 00          # double NaN
fb ff f0 00 00 00 00 00 00          # double -Infinity
= c349010000000000000000
c3                                  # tag 3 (negative bignum)
   49                               # bytes 9
      01 00 00 00 00 00 00 00 00
= c11a514b67b0 c1fb41d452d9e8200000
c1                                  # tag 1 (epoch time)
   1a 51 4b 67 b0                   # 1363896240
c1                                  # tag 1 (epoch time)
   fb 41 d4 52 d9 e8 20 00 00       # double 1363896224.5
= d74401020304 d818456449455446
d7                                  # tag 23 (to base16)
   44                               # bytes 4
      01 02 03 04
d8 18                               # tag 24 (encoded item)
   45                               # bytes 5
      64 49 45 54 46
= 40 4401020304 60 6161 6449455446 62225c 62c3bc 63e6b0b4 64f0908591
40                                  # bytes 0
44                                  # bytes 4
   01 02 03 04
60                                  # text 0
61                                  # text 1
   61                               # \"a\"
64                                  # text 4
   49 45 54 46                      # \"IETF\"
62                                  # text 2
   22 5c                            # \"\\\"\\\\\"
62                                  # text 2
   c3 bc                            # \"ü\"
63                                  # text 3
   e6 b0 b4                         # \"水\"
64                                  # text 4
   f0 90 85 91                      # \"\u{10151}\"
= 80 83010203 a0 a201020304
80                                  # array 0
83                                  # array 3
   01                               # [0] 1
   02                               # [1] 2
   03                               # [2] 3
a0                                  # map 0
a2                                  # map 2
   01                               # 1
   02                               # {1} 2
   03                               # 3
   04                               # {3} 4
= 98190102030405060708090a0b0c0d0e0f101112131415161718181819
98 19                               # array 25
   01                               # [0] 1
   02                               # [1] 2
   03                               # [2] 3
   04                               # [3] 4
   05                               # [4] 5
   06                               # [5] 6
   07                               # [6] 7
   08                               # [7] 8
   09                               # [8] 9
   0a                               # [9] 10
   0b                               # [10] 11
   0c                               # [11] 12
   0d                               # [12] 13
   0e                               # [13] 14
   0f                               # [14] 15
   10                               # [15] 16
   11                               # [16] 17
   12                               # [17] 18
   13                               # [18] 19
   14                               # [19] 20
   15                               # [20] 21
   16                               # [21] 22
   17                               # [22] 23
   18 18                            # [23] 24
   18 19                            # [24] 25
= 9f0102030405060708090a0b0c0d0e0f101112131415161718181819ff
9f                                  # array *
   01                               # [0] 1
   02                               # [1] 2
   03                               # [2] 3
   04                               # [3] 4
   05                               # [4] 5
   06                               # [5] 6
   07                               # [6] 7
   08                               # [7] 8
   09                               # [8] 9
   0a                               # [9] 10
   0b                               # [10] 11
   0c                               # [11] 12
   0d                               # [12] 13
   0e                               # [13] 14
   0f                               # [14] 15
   10                               # [15] 16
   11                               # [16] 17
   12                               # [17] 18
   13                               # [18] 19
   14                               # [19] 20
   15                               # [20] 21
   16                               # [21] 22
   17                               # [22] 23
   18 18                            # [23] 24
   18 19                            # [24] 25
ff                                  # break
= a26161016162820203
a2                                  # map 2
   61                               # text 1
      61                            # \"a\"
   01                               # {\"a\"} 1
   61                               # text 1
      62                            # \"b\"
   82                               # {\"b\"} array 2
      02                            # [0] 2
      03                            # [1] 3
= 826161a161626163
82                                  # array 2
   61                               # [0] text 1
      61                            # \"a\"
   a1                               # [1] map 1
      61                            # text 1
         62                         # \"b\"
      61                            # {\"b\"} text 1
         63                         # \"c\"
= a56161614161626142616361436164614461656145
a5                                  # map 5
   61                               # text 1
      61                            # \"a\"
   61                               # {\"a\"} text 1
      41                            # \"A\"
   61                               # text 1
      62                            # \"b\"
   61                               # {\"b\"} text 1
      42                            # \"B\"
   61                               # text 1
      63                            # \"c\"
   61                               # {\"c\"} text 1
      43                            # \"C\"
   61                               # text 1
      64                            # \"d\"
   61                               # {\"d\"} text 1
      44                            # \"D\"
   61                               # text 1
      65                            # \"e\"
   61                               # {\"e\"} text 1
      45                            # \"E\"
= 5f42010243030405ff 7f657374726561646d696e67ff
5f                                  # bytes *
   42                               # bytes 2
      01 02
   43                               # bytes 3
      03 04 05
ff                                  # break
7f                                  # text *
   65                               # text 5
      73 74 72 65 61                # \"strea\"
   64                               # text 4
      6d 69 6e 67                   # \"ming\"
ff                                  # break
= 9fff bf61610161629f0203ffff
9f                                  # array *
ff                                  # break
bf                                  # map *
   61                               # text 1
      61                            # \"a\"
   01                               # {\"a\"} 1
   61                               # text 1
      62                            # \"b\"
   9f                               # {\"b\"} array *
      02                            # [0] 2
      03                            # [1] 3
   ff                               # break
ff                                  # break
= 826161bf61626163ff
82                                  # array 2
   61                               # [0] text 1
      61                            # \"a\"
   bf                               # [1] map *
      61                            # text 1
         62                         # \"b\"
      61                            # {\"b\"} text 1
         63                         # \"c\"
   ff                               # break
";

#[test]
fn pictures_of_the_standard(rt: HostRuntime) {
    each_dumped(&rt, rt.alloc(), Options::new(), PICTURES, 27);
}
