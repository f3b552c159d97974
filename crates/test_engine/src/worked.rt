//! The worked answers of tests/soak/worked.py, written by tests/soak/worked_jobs.

/// The column file that the jobs are read with.
pub(crate) const COLUMNS: &str = "\
a,b
3,10
0,20
-5,30
";

/// Files of jobs with their answers. `--` stands on a line between two files, and `=>` before the answers of a file.
pub(crate) const FILES: &str = "\
w0 = column(\"a\").sum()
w1 = range(5, 5).toArray()
w2 = range(5, 5).min()
w3 = range(0, 10).map(x -> 10 / (x - 7)).limit(7).toArray()
w4 = range(0, 10).map(x -> 10 / (x - 7)).limit(8).toArray()
w5 = of(1, 0).map(x -> 1 / x).map(x -> 1 / (x - 1)).toArray()
w6 = of(2, 1, 0, 3).prefix(Long::sum).toArray()
w7 = of(1, 0).map(x -> 1 / x).findFirst()
w8 = of(1, 0).map(x -> 1 / x).prefix(Long::sum).findFirst()
w9 = of(9223372036854775807, 1).sum()
=>
-2
[]
OptionalLong.empty
[-1, -1, -2, -2, -3, -5, -10]
fault divide-by-zero stage 1 item 7
fault divide-by-zero stage 2 item 0
[2, 3, 3, 6]
OptionalLong[1]
fault divide-by-zero stage 1 item 1
-9223372036854775808
--
w0 = of(-9223372036854775808).map(x -> x / -1).toArray()
w1 = of(8589934595, 21474836487).reduce(4294967296, affine)
w2 = range(0, 5).reduce((a, b) -> b)
w3 = of(1, 3, 0).takeWhile(x -> 6 / x > 2).toArray()
w4 = of(1, 2, 0, 3).takeWhile(x -> 6 / x > 2).toArray()
w5 = concat(range(0, 3), of(7, 8)).skip(2).toArray()
w6 = of(2, 0, 3).flatMap(x -> range(0, x)).toArray()
w7 = of(1, 2, 3, 4).prefix(1, 3, Long::sum).toArray()
w8 = of(1, 2, 3, 4).prefix(1, 5, Long::sum).toArray()
w9 = of(0).map(x -> 1 / x).limit(0).toArray()
=>
[-9223372036854775808]
42949672982
OptionalLong[4]
[1]
fault divide-by-zero stage 1 item 2
[2, 7, 8]
[0, 1, 0, 1, 2]
[1, 2, 5, 4]
fault out-of-array stage 1 item -
[]
--
w0 = of(0, 1).map(x -> 1 / x).skip(1).toArray()
w1 = of(5, 0).anyMatch(x -> 10 / x > 1)
w2 = of(0, 5).anyMatch(x -> 10 / x > 1)
w3 = range(-9223372036854775808, 9223372036854775807).count()
w4 = of(2, 1).flatMap(x -> range(0, x)).map(x -> 1 / (1 - x)).toArray()
w5 = of(-7).map(x -> Math.floorMod(x, 3) * 100 + x % 3 + (x >>> 62)).toArray()
w6 = of(1).map(x -> x << 65).sum()
w7 = of(9223372036854775807).map(x -> Math.addExact(x, 1)).sum()
w8 = empty().anyMatch(x -> true)
w9 = empty().allMatch(x -> false)
=>
fault divide-by-zero stage 1 item 0
true
fault divide-by-zero stage 1 item 0
fault source-too-long stage 0 item -
fault divide-by-zero stage 2 item 0
[202]
2
fault overflow stage 1 item 0
false
true
--
w0 = empty().noneMatch(x -> true)
w1 = of(3, 1, 4).dropWhile(x -> x > 2).toArray()
w2 = of(1, 2).toArray()
w3 = of(1, 0).map(x -> 1 / x).limit(5).map(x -> 1 / (x - 1)).toArray()
w4 = of(1, 0).skip(0).map(x -> 1 / x).limit(1).toArray()
w5 = of(3, 4, 5).skip(1).limit(1).findFirst()
w6 = of(8589934595, 21474836487).prefix(affine).toArray()
w7 = of(4, 5, 6).prefix(first).toArray()
w8 = empty().prefix(0, 0, Long::sum).toArray()
w9 = of(2, 1, 0).prefix(Long::sum).map(x -> 1 / (x - 3)).toArray()
=>
true
[1, 4]
[1, 2]
fault divide-by-zero stage 3 item 0
[1]
OptionalLong[4]
[8589934595, 42949672982]
[4, 4, 4]
[]
fault divide-by-zero stage 2 item 1
--
w0 = of(1, 0).map(x -> 1 / x).prefix(0, 9, Long::sum).count()
w1 = range(0, 1000).findFirst()
w2 = of(5, 0, 7).dropWhile(x -> 10 / x > 3).toArray()
w3 = range(0, 100000).filter(x -> x % 3 == 0).prefix(Long::sum).skip(33333).toArray()
w4 = range(Long.MIN_VALUE, Long.MAX_VALUE).limit(0).sum()
w5 = range(Long.MIN_VALUE, Long.MAX_VALUE).limit(5).skip(5).limit(0).sum()
w6 = range(Long.MIN_VALUE, Long.MAX_VALUE).limit(5).skip(5).sum()
w7 = of(0).map(x -> 1 / x).prefix(sum).limit(0).toArray()
w8 = of(1).prefix(0, 9, sum).limit(0).count()
w9 = range(0, 4611686018427387904).map(x -> x * 2).skip(3).findFirst()
=>
fault divide-by-zero stage 1 item 1
OptionalLong[0]
[5, 0, 7]
[1666683333]
0
0
fault source-too-long stage 0 item -
[]
0
OptionalLong[6]
--
w0 = range(0, 4611686018427387904).skip(4611686018427387903).toArray()
w1 = range(0, 4611686018427387905).skip(9).toArray()
w2 = concat(range(0, 4611686018427387904), of(7)).findFirst()
w3 = of(0, 1).flatMap(x -> range(0, 4611686018427387904 + x)).skip(1).findFirst()
w4 = of(1).flatMap(x -> range(0, 4611686018427387904 + x)).findFirst()
w5 = of(7, 0).flatMap(x -> of(x, 14 / x)).limit(2).toArray()
w6 = of(7, 0).flatMap(x -> of(x, 14 / x)).limit(3).toArray()
w7 = of(-9223372036854775808).map(x -> x % -1 + Math.abs(x) + Math.floorMod(x, -1)).sum()
w8 = of(-7).map(x -> Math.floorDiv(x, 2) * 100 + x / 2).sum()
w9 = of(-16).map(x -> (x >> 2) * 100 + (x >>> 60)).sum()
=>
[4611686018427387903]
fault source-too-long stage 0 item -
fault source-too-long stage 0 item -
OptionalLong[1]
fault source-too-long stage 1 item 0
[7, 2]
fault divide-by-zero stage 1 item 1
-9223372036854775808
-403
-385
--
w0 = of(12).map(x -> x & 10 | x ^ 3).sum()
w1 = of(5).map(x -> x > 3 ? x > 4 ? 1 : 2 : 3).sum()
w2 = of(0).filter(x -> x == 0 || 1 / x > 0).count()
w3 = of(-9223372036854775808).map(x -> Math.negateExact(x)).sum()
w4 = of(3).map(x -> - 9223372036854775808 + x).sum()
w5 = of(6, 3).reduce(-1, (long a, long b) -> ((a) & (b)))
w6 = of(6, 3).reduce((a, b) -> Math.max(a, b))
w7 = of(-5, 9223372036854775807, 3).reduce(0, Math::addExact)
w8 = of(9223372036854775807, 1, -5).reduce(0, Math::addExact)
w9 = of(9223372036854775807, 2).flatMap(x -> of(x, 1)).reduce(0, Math::addExact)
=>
15
1
1
fault overflow stage 1 item 0
-9223372036854775805
2
OptionalLong[6]
9223372036854775805
fault overflow stage 1 item 1
fault overflow stage 2 item 0
--
w0 = of(1, 0).map(x -> 1 / x).reduce(0, Math::addExact)
w1 = of(9223372036854775807, 1, 0).filter(x -> 1 / x > -1).reduce(0, (u, v) -> (Math.addExact(u, (v))))
w2 = empty().reduce(0, Math::addExact)
=>
fault divide-by-zero stage 1 item 1
fault overflow stage 2 item 1
0
--
true = of(1).anyMatch(range -> range > 0)
long = of(1).allMatch(x -> x > 1)
=>
true
false
--
=>
--
\u{feff}# squares\r
s = LongStream.rangeClosed(1, 4)\r
  .map((x) -> x * x)\r
  .sum();\r
=>
30
--
t = column(\"a\").sum()
u = column(\"b\").map(x -> x / $t).toArray()
=>
-2
[-5, -10, -15]
--
z = of(0).map(x -> 1 / x).sum()
y = of(1).map(x -> x + $z).sum()
=>
fault divide-by-zero stage 1 item 0
unusable 0
--
a = of(2).sum()
b = of(1).map(x -> x + $a).sum()
c = of(1).map(x -> x * $a + $b + $a).sum()
=>
2
3
7
--
p = of(1, 2).toArray()
q = result(p).map(x -> x * 2).sum()
=>
[1, 2]
6
--
z = of(0).map(x -> 1 / x).sum()
m = of().min()
u = of(1).map(x -> $m + $z).sum()
v = empty().map(x -> x + $u).sum()
=>
fault divide-by-zero stage 1 item 0
OptionalLong.empty
unusable 1
unusable 2
--
z = of(0).map(x -> 1 / x).toArray()
r = concat(of(1), result(z)).limit(0).count()
=>
fault divide-by-zero stage 1 item 0
unusable 0
--
true = of(2).sum()
long = of(3).filter(x -> x > $true).count()
=>
2
1
--
version 2
z = of(0).map(x -> 1 / x).sum().onFault(-1)
y = of(1).map(x -> x + $z).sum()
m = of(1, 0).map(x -> 1 / x).max().onFault(9)
n = empty().min().onFault(9)
=>
-1
0
OptionalLong[9]
OptionalLong.empty
--
\u{feff}# c
 version\t2 
q = of(0).map(x -> 1 / x).sum()
u = of(1).map(x -> x + $q).sum()
.onFault(7);
=>
fault divide-by-zero stage 1 item 0
unusable 0
--
version 2
r = of(0).map(x -> 1 / x).reduce(1, product).onFault(2)
s = of(0).map(x -> 1 / x).reduce(product).onFault(3)
f = of(0).map(x -> 1 / x).findFirst().onFault(4)
e = of(9223372036854775807, 1).reduce(0, Math::addExact).onFault(5)
l = range(Long.MIN_VALUE, 1).count().onFault(6)
version = of(1).prefix(0, 9, sum).min().onFault(7)
=>
2
OptionalLong[3]
OptionalLong[4]
5
6
OptionalLong[7]
--
version 2
=>
";
