//! Texts, and what each prints.

/// A text with a command of many kinds.
pub const TEXT: &[u8] = b"nodes 2
join 1 0
deliver 1
put 0 a/b/k x stamp 2
read 0 a/b/k
del 1 a/b/k
over 1 a/b/m hex:00
settle
show 0 a/b/k
resolve 0 a/b/k lww
watch 0 a/b 2
put 0 a/b/k y read 1
changes 0 1
keep 0
keep 0 a/b/k
images 0
list 0 a/b
tick 0
exchange 0 1
junk 0 5054
restart 0 3
hello 0 1
leave 0
show 0 a/b/k
restart 0 0
root 0
views 0
";

/// What it prints.
pub const OUTPUT: &[u8] = b"ok
ok
frame 1 JOIN 1 0
took
wrote ctx 0.1:1
frame 2 GOSSIP 0 1
read 1 ctx 0.1:1 values x@2
wrote ctx 1.1:1
frame 3 GOSSIP 1 0
wrote ctx 1.1:1
frame 4 GOSSIP 1 0
delivered 3
ctx 0.1:1,1.1:1 values x@2,~
wrote ctx 0.1:2,1.1:1
frame 5 GOSSIP 0 1
watch 1
wrote ctx 0.1:3,1.1:1
frame 6 GOSSIP 0 1
missed 0 keys k
ok
ok
images 7
keys k,m
ok
ok
frame 7 XROOT 0 1
refused 10 Short
ok
ok
frame 8 HELLO 0 1
ok
ctx 0.1:3,1.1:1 values y,x@2
ok
root e3b0c44298fc1c149afbf4c8996fb92427ae41e4649b934ca495991b7852b855
active - passive - eager - lazy -
";

/// A text, how many resolvers are at hand, what is printed, and the number of the bad line, or 0.
pub type Row = (&'static [u8], usize, &'static [u8], u64);

pub static ROWS: [Row; 16] = [
    (TEXT, 2, OUTPUT, 0),
    // The last line may lack its line feed.
    (b"nodes 1", 2, b"ok\n", 0),
    (b"nodes 1\nimages 0", 2, b"ok\nimages 1\n", 0),
    (b"", 2, b"", 0),
    (b"\n", 2, b"", 0),
    // A resolver that isn't at hand is no word.
    (
        b"nodes 1\nresolve 0 a/b/k lww\n",
        0,
        b"error 70 BadLine 2\n",
        2,
    ),
    (b"nodes 1\nresolve 0 a/b/k lww\n", 1, b"ok\nok\n", 0),
    (
        b"nodes 1\nresolve 0 a/b/k largest\n",
        1,
        b"error 70 BadLine 2\n",
        2,
    ),
    (b"nodes 1\nresolve 0 a/b/k largest\n", 2, b"ok\nok\n", 0),
    // Bytes that are no text, or no letters.
    (b"\xff\xfe", 2, b"error 70 BadLine 1\n", 1),
    (b"nodes 1\n\0\n", 2, b"error 70 BadLine 2\n", 2),
    (b"# \xff\n  #\0\nnodes 1\n", 2, b"ok\n", 0),
    (b"nodes 1\r\n", 2, b"error 70 BadLine 1\n", 1),
    (b"nodes 1\n\t\n", 2, b"error 70 BadLine 2\n", 2),
    (b"nodes 1\nroot\xa00\n", 2, b"error 70 BadLine 2\n", 2),
    (b"nonsense", 2, b"error 70 BadLine 1\n", 1),
];

/// A text, how many times it stands in one line, what is printed, and the number of the bad line,
/// or 0.
pub type LongRow = (&'static [u8], u32, &'static [u8], u64);

/// Lines of four megabytes, and a text of the most bytes that are read.
pub static LONG_ROWS: [LongRow; 7] = [
    (&[b' '; 1_000], 4_000, b"", 0),
    (&[b'#'; 1_000], 4_000, b"", 0),
    (&[b'0'; 1_000], 4_000, b"error 70 BadLine 1\n", 1),
    (&[b'/'; 1_000], 4_000, b"error 70 BadLine 1\n", 1),
    (&[b'x'; 1_000], 4_000, b"error 70 BadLine 1\n", 1),
    (&[b'\xff'; 1_000], 4_000, b"error 70 BadLine 1\n", 1),
    (&[b'#'; 8_192], 8_192, b"", 0),
];

/// Repeated `TIMES_TOO_LONG` times, this is one byte more than is read.
pub const TOO_LONG: &[u8] = &[b'#'; 8_065];

pub const TIMES_TOO_LONG: u32 = 8_321;
