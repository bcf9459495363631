//! Scenes and their journals. The digests and cdhashes were made with Python's hashlib.

use pg_bytes::{Status, Which};

/// What a scene shows, the scene, and its journal.
pub const SCENES: [(&str, &str, &str); 33] = [
    (
        "a user with a trust cache",
        "\
scene 1
file B
cache T
process enforce
script
loadtrust c0
attach f0 0
spawn p0
map p0 0x100000000 f0 0 2 r-x private
fault p0 0x100000000 x
fault p0 0x100001000 x
",
        "\
0 0.0 t loadmodule c0 -> loaded 0
1 0.1 f0 readsig 0 -> read 216
2 0.1 t lookup bb2576d3b1410f658d4d9174e40456b40d79c596 -> listed 0 0
3 0.1 f0 addblob 0 bb2576d3b1410f658d4d9174e40456b40d79c596 @1 @2 -> attached 0
4 0.2 p0 start -> began 00001001
5 0.3 p0 insert 0x100000000 f0 0 2 r-x private -> inserted 0
6 0.3 f0 addregion 0 p0 0 2 r-x private @5 -> added
7 0.4 p0 resolve 0x100000000 x -> region 0 f0 0 00001001
8 0.4 f0 enter 0 0 x 00001001 @7 -> given
9 0.5 p0 resolve 0x100001000 x -> region 0 f0 1 00001001
10 0.5 f0 enter 0 1 x 00001001 @9 -> given
events 11
calls 6
given 2
denied 0
",
    ),
    (
        "a page is written, and written back",
        "\
scene 1
raw A 12288 186
process enforce
admit dd2875b1ed5de5cda3421fc7fe4869ab72113510
script
spawn p0
map p0 0x10000 f0 0 3 r-x private
attach f0 0
write f0 4096 ff
fault p0 0x11000 x
fault p0 0x12000 x
write f0 4096 42
fault p0 0x11000 x
",
        "\
0 0.0 p0 start -> began 00001001
1 0.1 p0 insert 0x10000 f0 0 3 r-x private -> inserted 0
2 0.1 f0 addregion 0 p0 0 3 r-x private @1 -> added
3 0.2 f0 readsig 0 -> read 186
4 0.2 t lookup dd2875b1ed5de5cda3421fc7fe4869ab72113510 -> listed 0 0
5 0.2 f0 addblob 0 dd2875b1ed5de5cda3421fc7fe4869ab72113510 @3 @4 -> attached 0
6 0.3 f0 write 4096 ff -> written 1
7 0.4 p0 resolve 0x11000 x -> region 0 f0 1 00001001
8 0.4 f0 enter 0 1 x 00001001 @7 -> denied mismatch 1 1 b3e4aef8662c0b68ddfdb42424ddaadc68ef96a20b0cb29139b02b4f74fb92ca 725bcd6c66d02acf6ebeab9c92410e010ea22e336876256aaf05a211f4ce1902
9 0.4 p0 punish -> spare
10 0.5 p0 resolve 0x12000 x -> region 0 f0 2 00001001
11 0.5 f0 enter 0 2 x 00001001 @10 -> given
12 0.6 f0 write 4096 42 -> written 1
13 0.7 p0 resolve 0x11000 x -> region 0 f0 1 00001001
14 0.7 f0 enter 0 1 x 00001001 @13 -> given
events 15
calls 8
given 2
denied 1
",
    ),
    (
        "one page twice",
        "\
scene 1
raw A 12288 186
process enforce
admit dd2875b1ed5de5cda3421fc7fe4869ab72113510
script
spawn p0
map p0 0x10000 f0 0 3 r-x private
attach f0 0
fault p0 0x10000 x
fault p0 0x10000 x
",
        "\
0 0.0 p0 start -> began 00001001
1 0.1 p0 insert 0x10000 f0 0 3 r-x private -> inserted 0
2 0.1 f0 addregion 0 p0 0 3 r-x private @1 -> added
3 0.2 f0 readsig 0 -> read 186
4 0.2 t lookup dd2875b1ed5de5cda3421fc7fe4869ab72113510 -> listed 0 0
5 0.2 f0 addblob 0 dd2875b1ed5de5cda3421fc7fe4869ab72113510 @3 @4 -> attached 0
6 0.3 p0 resolve 0x10000 x -> region 0 f0 0 00001001
7 0.3 f0 enter 0 0 x 00001001 @6 -> given
8 0.4 p0 resolve 0x10000 x -> region 0 f0 0 00001001
9 0.4 f0 enter 0 0 x 00001001 @8 -> given
events 10
calls 5
given 2
denied 0
",
    ),
    (
        "a shared writer, and its unmapping",
        "\
scene 1
raw A 12288 186
process enforce
process none
admit dd2875b1ed5de5cda3421fc7fe4869ab72113510
script
spawn p0
map p0 0x10000 f0 0 3 r-x private
attach f0 0
fault p0 0x10000 x
spawn p1
map p1 0x20000 f0 0 1 rw- shared
fault p1 0x20000 w
fault p0 0x10000 x
unmap p1 0x20000
fault p0 0x10000 x
",
        "\
0 0.0 p0 start -> began 00001001
1 0.1 p0 insert 0x10000 f0 0 3 r-x private -> inserted 0
2 0.1 f0 addregion 0 p0 0 3 r-x private @1 -> added
3 0.2 f0 readsig 0 -> read 186
4 0.2 t lookup dd2875b1ed5de5cda3421fc7fe4869ab72113510 -> listed 0 0
5 0.2 f0 addblob 0 dd2875b1ed5de5cda3421fc7fe4869ab72113510 @3 @4 -> attached 0
6 0.3 p0 resolve 0x10000 x -> region 0 f0 0 00001001
7 0.3 f0 enter 0 0 x 00001001 @6 -> given
8 0.4 p1 start -> began 00000001
9 0.5 p1 insert 0x20000 f0 0 1 rw- shared -> inserted 4096
10 0.5 f0 addregion 4096 p1 0 1 rw- shared @9 -> added
11 0.6 p1 resolve 0x20000 w -> region 4096 f0 0 00000001
12 0.6 f0 enter 4096 0 w 00000001 @11 -> given violation sealedwrite 0
13 0.6 p1 clearvalid -> cleared 00000000
14 0.7 p0 resolve 0x10000 x -> region 0 f0 0 00001001
15 0.7 f0 enter 0 0 x 00001001 @14 -> denied writableshared 0 4096
16 0.7 p0 punish -> spare
17 0.8 p1 remove 0x20000 -> removed 4096 f0
18 0.8 f0 dropregion 4096 -> dropped
19 0.9 p0 resolve 0x10000 x -> region 0 f0 0 00001001
20 0.9 f0 enter 0 0 x 00001001 @19 -> given
events 21
calls 10
given 3
denied 1
",
    ),
    (
        "a private copy, a debugger and a violation",
        "\
scene 1
raw A 12288 186
process enforce
admit dd2875b1ed5de5cda3421fc7fe4869ab72113510
script
spawn p0
map p0 0x10000 f0 0 3 rwx private
attach f0 0
fault p0 0x10000 w
fault p0 0x10000 x
debug p0
fault p0 0x10000 x
",
        "\
0 0.0 p0 start -> began 00001001
1 0.1 p0 insert 0x10000 f0 0 3 rwx private -> inserted 0
2 0.1 f0 addregion 0 p0 0 3 rwx private @1 -> added
3 0.2 f0 readsig 0 -> read 186
4 0.2 t lookup dd2875b1ed5de5cda3421fc7fe4869ab72113510 -> listed 0 0
5 0.2 f0 addblob 0 dd2875b1ed5de5cda3421fc7fe4869ab72113510 @3 @4 -> attached 0
6 0.3 p0 resolve 0x10000 w -> region 0 f0 0 00001001
7 0.3 f0 enter 0 0 w 00001001 @6 -> given
8 0.4 p0 resolve 0x10000 x -> region 0 f0 0 00001001
9 0.4 f0 enter 0 0 x 00001001 @8 -> denied privatecopy 0
10 0.4 p0 punish -> spare
11 0.5 p0 debug -> debugged 10001001
12 0.6 p0 resolve 0x10000 x -> region 0 f0 0 10001001
13 0.6 f0 enter 0 0 x 10001001 @12 -> given violation privatecopy 0
14 0.6 p0 clearvalid -> cleared 10001000
events 15
calls 7
given 2
denied 1
",
    ),
    (
        "a killed process",
        "\
scene 1
raw A 12288 186
process kill
admit dd2875b1ed5de5cda3421fc7fe4869ab72113510
script
spawn p0
map p0 0x10000 f0 0 3 r-x private
attach f0 0
write f0 4096 ff
fault p0 0x11000 x
fault p0 0x12000 x
",
        "\
0 0.0 p0 start -> began 00000201
1 0.1 p0 insert 0x10000 f0 0 3 r-x private -> inserted 0
2 0.1 f0 addregion 0 p0 0 3 r-x private @1 -> added
3 0.2 f0 readsig 0 -> read 186
4 0.2 t lookup dd2875b1ed5de5cda3421fc7fe4869ab72113510 -> listed 0 0
5 0.2 f0 addblob 0 dd2875b1ed5de5cda3421fc7fe4869ab72113510 @3 @4 -> attached 0
6 0.3 f0 write 4096 ff -> written 1
7 0.4 p0 resolve 0x11000 x -> region 0 f0 1 00000201
8 0.4 f0 enter 0 1 x 00000201 @7 -> denied mismatch 1 1 b3e4aef8662c0b68ddfdb42424ddaadc68ef96a20b0cb29139b02b4f74fb92ca 725bcd6c66d02acf6ebeab9c92410e010ea22e336876256aaf05a211f4ce1902
9 0.4 p0 punish -> kill
10 0.5 p0 resolve 0x12000 x -> killed
events 11
calls 6
given 0
denied 1
",
    ),
    (
        "a changed page, of a process without flags and of one that enforces",
        "\
scene 1
raw A 12288 186
process none
process enforce
admit dd2875b1ed5de5cda3421fc7fe4869ab72113510
script
spawn p0
map p0 0x10000 f0 0 3 r-x private
attach f0 0
write f0 4096 ff
fault p0 0x11000 x
spawn p1
map p1 0x20000 f0 0 3 r-x private
fault p1 0x21000 x
",
        "\
0 0.0 p0 start -> began 00000001
1 0.1 p0 insert 0x10000 f0 0 3 r-x private -> inserted 0
2 0.1 f0 addregion 0 p0 0 3 r-x private @1 -> added
3 0.2 f0 readsig 0 -> read 186
4 0.2 t lookup dd2875b1ed5de5cda3421fc7fe4869ab72113510 -> listed 0 0
5 0.2 f0 addblob 0 dd2875b1ed5de5cda3421fc7fe4869ab72113510 @3 @4 -> attached 0
6 0.3 f0 write 4096 ff -> written 1
7 0.4 p0 resolve 0x11000 x -> region 0 f0 1 00000001
8 0.4 f0 enter 0 1 x 00000001 @7 -> given violation mismatch 1 1 b3e4aef8662c0b68ddfdb42424ddaadc68ef96a20b0cb29139b02b4f74fb92ca 725bcd6c66d02acf6ebeab9c92410e010ea22e336876256aaf05a211f4ce1902
9 0.4 p0 clearvalid -> cleared 00000000
10 0.5 p1 start -> began 00001001
11 0.6 p1 insert 0x20000 f0 0 3 r-x private -> inserted 4096
12 0.6 f0 addregion 4096 p1 0 3 r-x private @11 -> added
13 0.7 p1 resolve 0x21000 x -> region 4096 f0 1 00001001
14 0.7 f0 enter 4096 1 x 00001001 @13 -> denied mismatch 1 1 b3e4aef8662c0b68ddfdb42424ddaadc68ef96a20b0cb29139b02b4f74fb92ca 725bcd6c66d02acf6ebeab9c92410e010ea22e336876256aaf05a211f4ce1902
15 0.7 p1 punish -> spare
events 16
calls 8
given 1
denied 1
",
    ),
    (
        "a hard process",
        "\
scene 1
raw A 12288 186
process hard
admit dd2875b1ed5de5cda3421fc7fe4869ab72113510
script
spawn p0
map p0 0x10000 f0 0 3 r-x private
attach f0 0
write f0 4096 ff
fault p0 0x11000 x
fault p0 0x12000 x
",
        "\
0 0.0 p0 start -> began 00000101
1 0.1 p0 insert 0x10000 f0 0 3 r-x private -> inserted 0
2 0.1 f0 addregion 0 p0 0 3 r-x private @1 -> added
3 0.2 f0 readsig 0 -> read 186
4 0.2 t lookup dd2875b1ed5de5cda3421fc7fe4869ab72113510 -> listed 0 0
5 0.2 f0 addblob 0 dd2875b1ed5de5cda3421fc7fe4869ab72113510 @3 @4 -> attached 0
6 0.3 f0 write 4096 ff -> written 1
7 0.4 p0 resolve 0x11000 x -> region 0 f0 1 00000101
8 0.4 f0 enter 0 1 x 00000101 @7 -> denied mismatch 1 1 b3e4aef8662c0b68ddfdb42424ddaadc68ef96a20b0cb29139b02b4f74fb92ca 725bcd6c66d02acf6ebeab9c92410e010ea22e336876256aaf05a211f4ce1902
9 0.4 p0 punish -> spare
10 0.5 p0 resolve 0x12000 x -> region 0 f0 2 00000101
11 0.5 f0 enter 0 2 x 00000101 @10 -> given
events 12
calls 6
given 1
denied 1
",
    ),
    (
        "a page past the limit",
        "\
scene 1
file B
process enforce
admit bb2576d3b1410f658d4d9174e40456b40d79c596
script
spawn p0
map p0 0x10000 f0 0 3 r-x private
attach f0 0
fault p0 0x12000 x
",
        "\
0 0.0 p0 start -> began 00001001
1 0.1 p0 insert 0x10000 f0 0 3 r-x private -> inserted 0
2 0.1 f0 addregion 0 p0 0 3 r-x private @1 -> added
3 0.2 f0 readsig 0 -> read 216
4 0.2 t lookup bb2576d3b1410f658d4d9174e40456b40d79c596 -> listed 0 0
5 0.2 f0 addblob 0 bb2576d3b1410f658d4d9174e40456b40d79c596 @3 @4 -> attached 0
6 0.3 p0 resolve 0x12000 x -> region 0 f0 2 00001001
7 0.3 f0 enter 0 2 x 00001001 @6 -> denied beyondlimit 2
8 0.3 p0 punish -> spare
events 9
calls 4
given 0
denied 1
",
    ),
    (
        "a trust cache without entries",
        "\
scene 1
file B
cache NONE
script
loadtrust c0
attach f0 0
",
        "\
0 0.0 t loadmodule c0 -> loaded 0
1 0.1 f0 readsig 0 -> read 216
2 0.1 t lookup bb2576d3b1410f658d4d9174e40456b40d79c596 -> unlisted
events 3
calls 2
given 0
denied 0
",
    ),
    (
        "trust caches that break their format",
        "\
scene 1
cache CUT
cache UNSORTED
cache CUTLONGER
cache THREE
script
loadtrust c0
loadtrust c1
loadtrust c2
loadtrust c3
",
        "\
0 0.0 t loadmodule c0 -> refused trust.3.0.0
1 0.1 t loadmodule c1 -> refused trust.4.1.0
2 0.2 t loadmodule c2 -> refused trust.3.0.0
3 0.3 t loadmodule c3 -> refused trust.2.3.0
events 4
calls 4
given 0
denied 0
",
    ),
    (
        "a trust cache of version 2",
        "\
scene 1
file B
cache LONGER
script
loadtrust c0
attach f0 0
",
        "\
0 0.0 t loadmodule c0 -> loaded 0
1 0.1 f0 readsig 0 -> read 216
2 0.1 t lookup bb2576d3b1410f658d4d9174e40456b40d79c596 -> listed 0 0
3 0.1 f0 addblob 0 bb2576d3b1410f658d4d9174e40456b40d79c596 @1 @2 -> attached 0
events 4
calls 2
given 0
denied 0
",
    ),
    (
        "a fat file",
        "\
scene 1
file FAT
process enforce
admit bb2576d3b1410f658d4d9174e40456b40d79c596
script
spawn p0
map p0 0x10000 f0 0 7 r-x private
attach f0 0
attach f0 1
attach f0 0
fault p0 0x15000 x
",
        "\
0 0.0 p0 start -> began 00001001
1 0.1 p0 insert 0x10000 f0 0 7 r-x private -> inserted 0
2 0.1 f0 addregion 0 p0 0 7 r-x private @1 -> added
3 0.2 f0 readsig 0 -> read 216
4 0.2 t lookup bb2576d3b1410f658d4d9174e40456b40d79c596 -> listed 0 0
5 0.2 f0 addblob 0 bb2576d3b1410f658d4d9174e40456b40d79c596 @3 @4 -> attached 0
6 0.3 f0 readsig 1 -> read 216
7 0.3 t lookup bb2576d3b1410f658d4d9174e40456b40d79c596 -> listed 0 0
8 0.3 f0 addblob 1 bb2576d3b1410f658d4d9174e40456b40d79c596 @6 @7 -> attached 1
9 0.4 f0 readsig 0 -> read 216
10 0.4 t lookup bb2576d3b1410f658d4d9174e40456b40d79c596 -> listed 0 0
11 0.4 f0 addblob 0 bb2576d3b1410f658d4d9174e40456b40d79c596 @9 @10 -> already 0
12 0.5 p0 resolve 0x15000 x -> region 0 f0 5 00001001
13 0.5 f0 enter 0 5 x 00001001 @12 -> given
events 14
calls 6
given 1
denied 0
",
    ),
    (
        "one resident page",
        "\
scene 1
resident 1
raw A 12288 186
process enforce
admit dd2875b1ed5de5cda3421fc7fe4869ab72113510
script
spawn p0
map p0 0x10000 f0 0 3 r-x private
attach f0 0
fault p0 0x10000 x
fault p0 0x11000 x
fault p0 0x10000 x
",
        "\
0 0.0 p0 start -> began 00001001
1 0.1 p0 insert 0x10000 f0 0 3 r-x private -> inserted 0
2 0.1 f0 addregion 0 p0 0 3 r-x private @1 -> added
3 0.2 f0 readsig 0 -> read 186
4 0.2 t lookup dd2875b1ed5de5cda3421fc7fe4869ab72113510 -> listed 0 0
5 0.2 f0 addblob 0 dd2875b1ed5de5cda3421fc7fe4869ab72113510 @3 @4 -> attached 0
6 0.3 p0 resolve 0x10000 x -> region 0 f0 0 00001001
7 0.3 f0 enter 0 0 x 00001001 @6 -> given
8 0.4 p0 resolve 0x11000 x -> region 0 f0 1 00001001
9 0.4 f0 enter 0 1 x 00001001 @8 -> given victim 0
10 0.5 p0 resolve 0x10000 x -> region 0 f0 0 00001001
11 0.5 f0 enter 0 0 x 00001001 @10 -> given victim 1
events 12
calls 6
given 3
denied 0
",
    ),
    (
        "a victim that cannot be written back",
        "\
scene 1
resident 1
raw A 12288 186
process none
fail f0 3
script
spawn p0
map p0 0x10000 f0 0 2 rw- shared
fault p0 0x10000 w
store p0 0x10000 01
fault p0 0x11000 r
load p0 0x10000 1
",
        "\
0 0.0 p0 start -> began 00000001
1 0.1 p0 insert 0x10000 f0 0 2 rw- shared -> inserted 0
2 0.1 f0 addregion 0 p0 0 2 rw- shared @1 -> added
3 0.2 p0 resolve 0x10000 w -> region 0 f0 0 00000001
4 0.2 f0 enter 0 0 w 00000001 @3 -> given
5 0.3 p0 resolve 0x10000 w -> region 0 f0 0 00000001
6 0.3 f0 store 0 0 0 01 @5 -> stored
7 0.4 p0 resolve 0x11000 r -> region 0 f0 1 00000001
8 0.4 f0 enter 0 1 r 00000001 @7 -> pagerfault 0
9 0.5 p0 resolve 0x10000 r -> region 0 f0 0 00000001
10 0.5 f0 load 0 0 0 1 @9 -> bytes 01
events 11
calls 6
given 1
denied 0
",
    ),
    (
        "nothing",
        "\
scene 1
",
        "\
events 0
calls 0
given 0
denied 0
",
    ),
    (
        "a write that stops",
        "\
scene 1
raw Z 0 0
fail f0 10
script
write f0 100 fill:ff:65536
",
        "\
0 0.0 f0 write 100 fill:ff:65536 -> short 32668
events 1
calls 1
given 0
denied 0
",
    ),
    (
        "an exit",
        "\
scene 1
raw A 12288 186
process enforce
admit dd2875b1ed5de5cda3421fc7fe4869ab72113510
script
spawn p0
map p0 0x10000 f0 0 3 r-x private
attach f0 0
exit p0
fault p0 0x10000 x
",
        "\
0 0.0 p0 start -> began 00001001
1 0.1 p0 insert 0x10000 f0 0 3 r-x private -> inserted 0
2 0.1 f0 addregion 0 p0 0 3 r-x private @1 -> added
3 0.2 f0 readsig 0 -> read 186
4 0.2 t lookup dd2875b1ed5de5cda3421fc7fe4869ab72113510 -> listed 0 0
5 0.2 f0 addblob 0 dd2875b1ed5de5cda3421fc7fe4869ab72113510 @3 @4 -> attached 0
6 0.3 p0 exit -> exited f0
7 0.3 f0 droppid p0 -> dropped 1
8 0.4 p0 resolve 0x10000 x -> dead
events 9
calls 5
given 0
denied 0
",
    ),
    (
        "a write past the end",
        "\
scene 1
raw A 12288 186
process enforce
admit dd2875b1ed5de5cda3421fc7fe4869ab72113510
script
spawn p0
map p0 0x10000 f0 0 3 r-x private
attach f0 0
write f0 12474 00
write f0 12473 00
",
        "\
0 0.0 p0 start -> began 00001001
1 0.1 p0 insert 0x10000 f0 0 3 r-x private -> inserted 0
2 0.1 f0 addregion 0 p0 0 3 r-x private @1 -> added
3 0.2 f0 readsig 0 -> read 186
4 0.2 t lookup dd2875b1ed5de5cda3421fc7fe4869ab72113510 -> listed 0 0
5 0.2 f0 addblob 0 dd2875b1ed5de5cda3421fc7fe4869ab72113510 @3 @4 -> attached 0
6 0.3 f0 write 12474 00 -> pastend 12474
7 0.4 f0 write 12473 00 -> written 1
events 8
calls 5
given 0
denied 0
",
    ),
    (
        "an empty file",
        "\
scene 1
file E
process enforce
script
spawn p0
attach f0 0
map p0 0x10000 f0 0 1 r-x private
",
        "\
0 0.0 p0 start -> began 00001001
1 0.1 f0 readsig 0 -> noslices fat.1.0.0
2 0.2 p0 insert 0x10000 f0 0 1 r-x private -> outoffile 0
events 3
calls 3
given 0
denied 0
",
    ),
    (
        "a page that leaves memory",
        "\
scene 1
raw A 12288 186
process enforce
admit dd2875b1ed5de5cda3421fc7fe4869ab72113510
script
spawn p0
map p0 0x10000 f0 0 3 r-x private
attach f0 0
fault p0 0x10000 x
fetch p0 0x10000 4
evict f0 0
evict f0 0
fetch p0 0x10000 4
fault p0 0x10000 x
",
        "\
0 0.0 p0 start -> began 00001001
1 0.1 p0 insert 0x10000 f0 0 3 r-x private -> inserted 0
2 0.1 f0 addregion 0 p0 0 3 r-x private @1 -> added
3 0.2 f0 readsig 0 -> read 186
4 0.2 t lookup dd2875b1ed5de5cda3421fc7fe4869ab72113510 -> listed 0 0
5 0.2 f0 addblob 0 dd2875b1ed5de5cda3421fc7fe4869ab72113510 @3 @4 -> attached 0
6 0.3 p0 resolve 0x10000 x -> region 0 f0 0 00001001
7 0.3 f0 enter 0 0 x 00001001 @6 -> given
8 0.4 p0 resolve 0x10000 x -> region 0 f0 0 00001001
9 0.4 f0 fetch 0 0 0 4 @8 -> bytes 41414141
10 0.5 f0 evict 0 -> evicted
11 0.6 f0 evict 0 -> notresident
12 0.7 p0 resolve 0x10000 x -> region 0 f0 0 00001001
13 0.7 f0 fetch 0 0 0 4 @12 -> notmapped
14 0.8 p0 resolve 0x10000 x -> region 0 f0 0 00001001
15 0.8 f0 enter 0 0 x 00001001 @14 -> given
events 16
calls 9
given 2
denied 0
",
    ),
    (
        "a signature that overlaps another",
        "\
scene 1
raw A 12288 186
process enforce
admit dd2875b1ed5de5cda3421fc7fe4869ab72113510
admit 3d69d2450b699e6344c648c9de1311b3a677e4e6
script
spawn p0
map p0 0x10000 f0 0 3 r-x private
attach f0 0
write f0 12303 00
attach f0 0
",
        "\
0 0.0 p0 start -> began 00001001
1 0.1 p0 insert 0x10000 f0 0 3 r-x private -> inserted 0
2 0.1 f0 addregion 0 p0 0 3 r-x private @1 -> added
3 0.2 f0 readsig 0 -> read 186
4 0.2 t lookup dd2875b1ed5de5cda3421fc7fe4869ab72113510 -> listed 0 0
5 0.2 f0 addblob 0 dd2875b1ed5de5cda3421fc7fe4869ab72113510 @3 @4 -> attached 0
6 0.3 f0 write 12303 00 -> written 1
7 0.4 f0 readsig 0 -> read 186
8 0.4 t lookup 3d69d2450b699e6344c648c9de1311b3a677e4e6 -> listed 1 0
9 0.4 f0 addblob 0 3d69d2450b699e6344c648c9de1311b3a677e4e6 @7 @8 -> overlap 0
events 10
calls 5
given 0
denied 0
",
    ),
    (
        "refusals of a process",
        "\
scene 1
raw A 12288 186
process enforce
admit dd2875b1ed5de5cda3421fc7fe4869ab72113510
script
spawn p0
map p0 0x10000 f0 0 3 r-x private
attach f0 0
map p0 0x11000 f0 0 1 r-- private
fault p0 0x10000 w
fault p0 0x90000 r
spawn p0
",
        "\
0 0.0 p0 start -> began 00001001
1 0.1 p0 insert 0x10000 f0 0 3 r-x private -> inserted 0
2 0.1 f0 addregion 0 p0 0 3 r-x private @1 -> added
3 0.2 f0 readsig 0 -> read 186
4 0.2 t lookup dd2875b1ed5de5cda3421fc7fe4869ab72113510 -> listed 0 0
5 0.2 f0 addblob 0 dd2875b1ed5de5cda3421fc7fe4869ab72113510 @3 @4 -> attached 0
6 0.3 p0 insert 0x11000 f0 0 1 r-- private -> overlap 0
7 0.4 p0 resolve 0x10000 w -> prot 0
8 0.5 p0 resolve 0x90000 r -> nomap
9 0.6 p0 start -> started p0
events 10
calls 7
given 0
denied 0
",
    ),
    (
        "the first pager call fails",
        "\
scene 1
raw A 12288 186
fail f0 1
process enforce
admit dd2875b1ed5de5cda3421fc7fe4869ab72113510
script
spawn p0
map p0 0x10000 f0 0 3 r-x private
attach f0 0
fault p0 0x10000 x
attach f0 0
",
        "\
0 0.0 p0 start -> began 00001001
1 0.1 p0 insert 0x10000 f0 0 3 r-x private -> inserted 0
2 0.1 f0 addregion 0 p0 0 3 r-x private @1 -> added
3 0.2 f0 readsig 0 -> pagerfault 3
4 0.3 p0 resolve 0x10000 x -> region 0 f0 0 00001001
5 0.3 f0 enter 0 0 x 00001001 @4 -> denied unsigned 0
6 0.3 p0 punish -> spare
7 0.4 f0 readsig 0 -> read 186
8 0.4 t lookup dd2875b1ed5de5cda3421fc7fe4869ab72113510 -> listed 0 0
9 0.4 f0 addblob 0 dd2875b1ed5de5cda3421fc7fe4869ab72113510 @7 @8 -> attached 0
events 10
calls 5
given 0
denied 1
",
    ),
    (
        "the second pager call fails",
        "\
scene 1
raw A 12288 186
fail f0 2
process enforce
admit dd2875b1ed5de5cda3421fc7fe4869ab72113510
script
spawn p0
map p0 0x10000 f0 0 3 r-x private
attach f0 0
fault p0 0x10000 x
fault p0 0x10000 x
",
        "\
0 0.0 p0 start -> began 00001001
1 0.1 p0 insert 0x10000 f0 0 3 r-x private -> inserted 0
2 0.1 f0 addregion 0 p0 0 3 r-x private @1 -> added
3 0.2 f0 readsig 0 -> read 186
4 0.2 t lookup dd2875b1ed5de5cda3421fc7fe4869ab72113510 -> listed 0 0
5 0.2 f0 addblob 0 dd2875b1ed5de5cda3421fc7fe4869ab72113510 @3 @4 -> attached 0
6 0.3 p0 resolve 0x10000 x -> region 0 f0 0 00001001
7 0.3 f0 enter 0 0 x 00001001 @6 -> pagerfault 0
8 0.4 p0 resolve 0x10000 x -> region 0 f0 0 00001001
9 0.4 f0 enter 0 0 x 00001001 @8 -> given
events 10
calls 5
given 1
denied 0
",
    ),
    (
        "the fourth pager call fails",
        "\
scene 1
raw A 12288 186
fail f0 4
process enforce
admit dd2875b1ed5de5cda3421fc7fe4869ab72113510
script
spawn p0
map p0 0x10000 f0 0 3 r-x private
attach f0 0
write f0 4000 fill:ff:200
fault p0 0x11000 x
fault p0 0x10000 x
",
        "\
0 0.0 p0 start -> began 00001001
1 0.1 p0 insert 0x10000 f0 0 3 r-x private -> inserted 0
2 0.1 f0 addregion 0 p0 0 3 r-x private @1 -> added
3 0.2 f0 readsig 0 -> read 186
4 0.2 t lookup dd2875b1ed5de5cda3421fc7fe4869ab72113510 -> listed 0 0
5 0.2 f0 addblob 0 dd2875b1ed5de5cda3421fc7fe4869ab72113510 @3 @4 -> attached 0
6 0.3 f0 write 4000 fill:ff:200 -> short 96
7 0.4 p0 resolve 0x11000 x -> region 0 f0 1 00001001
8 0.4 f0 enter 0 1 x 00001001 @7 -> given
9 0.5 p0 resolve 0x10000 x -> region 0 f0 0 00001001
10 0.5 f0 enter 0 0 x 00001001 @9 -> denied mismatch 0 0 7dd9c361924a0d0071d52c70bc92f1219f7369b4411d9f3eb552960ae8e61258 6896d9ea3f73a4434f5832bc65714e7d066f177373f36f34dc8a6f735daa41b1
11 0.5 p0 punish -> spare
events 12
calls 6
given 1
denied 1
",
    ),
    (
        "an eviction that fails",
        "\
scene 1
raw A 12288 186
process none
fail f0 2
script
spawn p0
map p0 0x10000 f0 0 1 rw- shared
fault p0 0x10000 w
store p0 0x10000 01
evict f0 0
evict f0 0
fault p0 0x10000 r
load p0 0x10000 1
",
        "\
0 0.0 p0 start -> began 00000001
1 0.1 p0 insert 0x10000 f0 0 1 rw- shared -> inserted 0
2 0.1 f0 addregion 0 p0 0 1 rw- shared @1 -> added
3 0.2 p0 resolve 0x10000 w -> region 0 f0 0 00000001
4 0.2 f0 enter 0 0 w 00000001 @3 -> given
5 0.3 p0 resolve 0x10000 w -> region 0 f0 0 00000001
6 0.3 f0 store 0 0 0 01 @5 -> stored
7 0.4 f0 evict 0 -> pagerfault 0
8 0.5 f0 evict 0 -> evicted
9 0.6 p0 resolve 0x10000 r -> region 0 f0 0 00000001
10 0.6 f0 enter 0 0 r 00000001 @9 -> given
11 0.7 p0 resolve 0x10000 r -> region 0 f0 0 00000001
12 0.7 f0 load 0 0 0 1 @11 -> bytes 01
events 13
calls 8
given 2
denied 0
",
    ),
    (
        "large pages of four slots",
        "\
scene 1
pagesize 16384
raw C4 32768 346
process enforce
admit ee7fa7a180ae9f146d4614b4c0c852515c49a89c
script
spawn p0
map p0 0x10000 f0 0 2 r-x private
attach f0 0
write f0 8192 ff
fault p0 0x10000 x
fault p0 0x14000 x
",
        "\
0 0.0 p0 start -> began 00001001
1 0.1 p0 insert 0x10000 f0 0 2 r-x private -> inserted 0
2 0.1 f0 addregion 0 p0 0 2 r-x private @1 -> added
3 0.2 f0 readsig 0 -> read 346
4 0.2 t lookup ee7fa7a180ae9f146d4614b4c0c852515c49a89c -> listed 0 0
5 0.2 f0 addblob 0 ee7fa7a180ae9f146d4614b4c0c852515c49a89c @3 @4 -> attached 0
6 0.3 f0 write 8192 ff -> written 1
7 0.4 p0 resolve 0x10000 x -> region 0 f0 0 00001001
8 0.4 f0 enter 0 0 x 00001001 @7 -> denied mismatch 0 2 a2783dce4bff17afbdc3850298bf05137fb1c7fd03885b4f2fa920e3030040e2 b23f99e1f653e62fa5bc14cc528a9ec3b6d11be482b2ee51b519d1d6ad8c5466
9 0.4 p0 punish -> spare
10 0.5 p0 resolve 0x14000 x -> region 0 f0 1 00001001
11 0.5 f0 enter 0 1 x 00001001 @10 -> given
events 12
calls 6
given 1
denied 1
",
    ),
    (
        "large pages of one slot",
        "\
scene 1
pagesize 16384
raw C16 32768 154
process enforce
admit d658bf8454e2b636baf6b5f9962f32ffbad68dfd
script
spawn p0
map p0 0x10000 f0 0 2 r-x private
attach f0 0
write f0 8192 ff
fault p0 0x10000 x
fault p0 0x14000 x
",
        "\
0 0.0 p0 start -> began 00001001
1 0.1 p0 insert 0x10000 f0 0 2 r-x private -> inserted 0
2 0.1 f0 addregion 0 p0 0 2 r-x private @1 -> added
3 0.2 f0 readsig 0 -> read 154
4 0.2 t lookup d658bf8454e2b636baf6b5f9962f32ffbad68dfd -> listed 0 0
5 0.2 f0 addblob 0 d658bf8454e2b636baf6b5f9962f32ffbad68dfd @3 @4 -> attached 0
6 0.3 f0 write 8192 ff -> written 1
7 0.4 p0 resolve 0x10000 x -> region 0 f0 0 00001001
8 0.4 f0 enter 0 0 x 00001001 @7 -> denied mismatch 0 0 21ccea9aa166d6a98c29a77eb53087bd052a5b935a9a3aa05226a154c2205067 485db7a926943cd8a7bcddcfa47f0d6dd389364b0dc5bb596e9d4710d9a81b06
9 0.4 p0 punish -> spare
10 0.5 p0 resolve 0x14000 x -> region 0 f0 1 00001001
11 0.5 f0 enter 0 1 x 00001001 @10 -> given
events 12
calls 6
given 1
denied 1
",
    ),
    (
        "large hash pages under small pages",
        "\
scene 1
raw C16 32768 154
process enforce
admit d658bf8454e2b636baf6b5f9962f32ffbad68dfd
script
spawn p0
map p0 0x10000 f0 0 3 r-x private
attach f0 0
",
        "\
0 0.0 p0 start -> began 00001001
1 0.1 p0 insert 0x10000 f0 0 3 r-x private -> inserted 0
2 0.1 f0 addregion 0 p0 0 3 r-x private @1 -> added
3 0.2 f0 readsig 0 -> read 154
4 0.2 f0 refuse @3 blob.9.14.0 -> noted
events 5
calls 3
given 0
denied 0
",
    ),
    (
        "slices at offsets under large pages",
        "\
scene 1
pagesize 16384
file FAT
process enforce
admit bb2576d3b1410f658d4d9174e40456b40d79c596
script
spawn p0
map p0 0x10000 f0 0 2 r-x private
attach f0 0
attach f0 1
fault p0 0x14000 x
",
        "\
0 0.0 p0 start -> began 00001001
1 0.1 p0 insert 0x10000 f0 0 2 r-x private -> inserted 0
2 0.1 f0 addregion 0 p0 0 2 r-x private @1 -> added
3 0.2 f0 readsig 0 -> read 216
4 0.2 f0 refuse @3 blob.10.4096.0 -> noted
5 0.3 f0 readsig 1 -> read 216
6 0.3 t lookup bb2576d3b1410f658d4d9174e40456b40d79c596 -> listed 0 0
7 0.3 f0 addblob 1 bb2576d3b1410f658d4d9174e40456b40d79c596 @5 @6 -> attached 0
8 0.4 p0 resolve 0x14000 x -> region 0 f0 1 00001001
9 0.4 f0 enter 0 1 x 00001001 @8 -> denied beyondlimit 1
10 0.4 p0 punish -> spare
events 11
calls 5
given 0
denied 1
",
    ),
    (
        "the policy, and a directory with the flag ADHOC",
        "\
scene 1
policy adhoc
file B
process enforce
script
attach f0 0
spawn p0
map p0 0x100000000 f0 0 2 r-x private
fault p0 0x100001000 x
",
        "\
0 0.0 f0 readsig 0 -> read 216
1 0.0 t lookup bb2576d3b1410f658d4d9174e40456b40d79c596 -> unlisted
2 0.0 f0 addblob 0 bb2576d3b1410f658d4d9174e40456b40d79c596 @0 @1 -> attached 0
3 0.1 p0 start -> began 00001001
4 0.2 p0 insert 0x100000000 f0 0 2 r-x private -> inserted 0
5 0.2 f0 addregion 0 p0 0 2 r-x private @4 -> added
6 0.3 p0 resolve 0x100001000 x -> region 0 f0 1 00001001
7 0.3 f0 enter 0 1 x 00001001 @6 -> given
events 8
calls 4
given 1
denied 0
",
    ),
    (
        "the policy, and a directory without it",
        "\
scene 1
policy adhoc
file BFLAGS
process enforce
script
attach f0 0
spawn p0
map p0 0x100000000 f0 0 2 r-x private
fault p0 0x100001000 x
",
        "\
0 0.0 f0 readsig 0 -> read 216
1 0.0 t lookup 40a03fbb9b161b3be1350a1b4ed55cc31dfdd67e -> unlisted
2 0.1 p0 start -> began 00001001
3 0.2 p0 insert 0x100000000 f0 0 2 r-x private -> inserted 0
4 0.2 f0 addregion 0 p0 0 2 r-x private @3 -> added
5 0.3 p0 resolve 0x100001000 x -> region 0 f0 1 00001001
6 0.3 f0 enter 0 1 x 00001001 @5 -> denied unsigned 1
7 0.3 p0 punish -> spare
events 8
calls 4
given 0
denied 1
",
    ),
];

/// What ends a run early, the scene, how many files are read, the status and the line.
pub const EARLY: [(&str, &str, u32, Status, &str); 8] = [
    (
        "a line with too few words",
        "\
scene 1
raw A 12288 186
process enforce
script
spawn p0
map p0 0x10000 f0 0 3 r-x private
fault p0 0x10000
",
        1,
        Status::SceneBad { line: 7, kind: 5 },
        "csrun: line 7: words\n",
    ),
    (
        "a page size out of range",
        "\
scene 1
pagesize 8192
",
        1,
        Status::SceneBad { line: 2, kind: 8 },
        "csrun: line 2: range\n",
    ),
    (
        "no scene",
        "",
        1,
        Status::SceneBad { line: 1, kind: 2 },
        "csrun: line 1: firstline\n",
    ),
    (
        "a static trust cache that is cut",
        "\
scene 1
static CUT
file B
",
        2,
        Status::TrustBad {
            item: 1,
            number: 3,
            arg: 0,
        },
        "csrun: trust cache of item 1 refused: trust.3.0.0\n",
    ),
    (
        "a file that is missing",
        "\
scene 1
file B
file GONE
",
        3,
        Status::FileFault { item: 2 },
        "csrun: cannot read item 2\n",
    ),
    (
        "the first of three files that is missing",
        "\
scene 1
raw GONE 0 0
file B
cache T
",
        2,
        Status::FileFault { item: 1 },
        "csrun: cannot read item 1\n",
    ),
    (
        "a static trust cache that is missing",
        "\
scene 1
static GONE
static CUT
",
        2,
        Status::FileFault { item: 1 },
        "csrun: cannot read item 1\n",
    ),
    (
        "nine scripts behind a file",
        "\
scene 1
file B
script
script
script
script
script
script
script
script
script
",
        1,
        Status::Limit {
            which: Which::Workers,
            number: 8,
        },
        "csrun: limit workers 8\n",
    ),
];

/// The code directory of three pages of bytes 0x41, 0x42 and 0x43.
pub const DIRECTORY: &str =
    "fade0c02000000ba00020400000200020000005a000000580000000000000003000030002002000c00000000000000000000000000000000000000000000000000000000000000000000000000003000000000000000000161006896d9ea3f73a4434f5832bc65714e7d066f177373f36f34dc8a6f735daa41b1725bcd6c66d02acf6ebeab9c92410e010ea22e336876256aaf05a211f4ce1902b23f99e1f653e62fa5bc14cc528a9ec3b6d11be482b2ee51b519d1d6ad8c5466";

/// A code directory of eight pages of 4,096 bytes, with a slot for each.
pub const SMALL_PAGES: &str =
    "fade0c020000015a00020400000200020000005a000000580000000000000008000080002002000c00000000000000000000000000000000000000000000000000000000000000000000000000008000000000000000000161006896d9ea3f73a4434f5832bc65714e7d066f177373f36f34dc8a6f735daa41b1725bcd6c66d02acf6ebeab9c92410e010ea22e336876256aaf05a211f4ce1902b23f99e1f653e62fa5bc14cc528a9ec3b6d11be482b2ee51b519d1d6ad8c5466267e5d2bb42138bdf23ccb5fbdea09385169de4c686f7c12034ccd7bb0c6899da3c255caf361412ed2cd90ecff6437ed02630ad54940e9024642e13cfc104c52a3c255caf361412ed2cd90ecff6437ed02630ad54940e9024642e13cfc104c52a3c255caf361412ed2cd90ecff6437ed02630ad54940e9024642e13cfc104c52a3c255caf361412ed2cd90ecff6437ed02630ad54940e9024642e13cfc104c52";

/// The same bytes by two pages of 16,384.
pub const LARGE_PAGES: &str =
    "fade0c020000009a00020400000200020000005a000000580000000000000002000080002002000e0000000000000000000000000000000000000000000000000000000000000000000000000000800000000000000000016100485db7a926943cd8a7bcddcfa47f0d6dd389364b0dc5bb596e9d4710d9a81b060bcbd2435e7d577a264f93c223407b90717423c73eb79a0fe1c0824632190390";

/// Trust caches by their names, in hex.
pub const CACHES: [(&str, &str); 7] = [
    (
        "T",
        "010000000000000000000000000000000000000001000000bb2576d3b1410f658d4d9174e40456b40d79c5960200",
    ),
    (
        "LONGER",
        "020000000000000000000000000000000000000001000000bb2576d3b1410f658d4d9174e40456b40d79c59602000000",
    ),
    ("NONE", "010000000000000000000000000000000000000000000000"),
    (
        "CUT",
        "010000000000000000000000000000000000000001000000bb2576d3b1410f658d4d9174e40456b40d79c59602",
    ),
    (
        "CUTLONGER",
        "020000000000000000000000000000000000000001000000bb2576d3b1410f658d4d9174e40456b40d79c596020000",
    ),
    (
        "UNSORTED",
        "0100000000000000000000000000000000000000020000002222222222222222222222222222222222222222020011111111111111111111111111111111111111110200",
    ),
    ("THREE", "030000000000000000000000000000000000000000000000"),
];
