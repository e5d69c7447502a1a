// Writes what the index's writer and reader answer, and what the writer leaves in its buffer; the file `stdout` has what document 02's E4 and E9 say.
#![tactic(auto)]

ghost use Rattle.std.specs.Prelude.{◌≤◌, length};

use casework::{MANY, Named};
use indexes::IndexRefusal;
use std::{array, fmt, io};

// What a buffer's bytes are as lent; no index here has it.
const LENT: u8 = 0xEE;

// What stands before the routes.
const HEADER: &[u8] = b"route_id,route_type\n";

// Routes whose ids are in order A, AB, B: records 2, 3 and 1.
const ROUTES: &[u8] = b"route_id,route_type\nB,3\n\"A\",3\nAB,3\n";

// What is answered of an index: its length, the file's own refusal, or one that names no file.
#[derive(Clone, Copy)]
struct Answered(Result<usize, IndexRefusal>);

impl fmt::Display for Answered {
    fn fmt<W: fmt::Write>(&self, f: &mut fmt::Formatter<W>) -> fmt::Result {
        match self.0 {
            Ok(length) => write!(f, "whole {length}"),
            Err(IndexRefusal::Unread(refusal)) => write!(f, "unread{}", Named(refusal)),
            Err(IndexRefusal::Barred(number)) => write!(f, "barred {number}"),
        }
    }
}

// Bytes in hex, each after a blank.
#[derive(Clone, Copy)]
struct Hex<'a>(&'a [u8]);

impl fmt::Display for Hex<'_> {
    fn fmt<W: fmt::Write>(&self, f: &mut fmt::Formatter<W>) -> fmt::Result {
        for byte in self.0 {
            write!(f, " {byte:02x}")?;
        }
        Ok(())
    }
}

// A buffer as lent.
fn as_lent<const N: usize>() -> [u8; N] {
    [LENT; N]
}

// The writer: its answer, and the buffer that it leaves.
fn write(rt: &impl Print, name: &str, f: usize, s: &[u8], b: &mut [u8]) -> io::Result<()> {
    let answer = Answered(index_write::write_index(f, s, b));
    println!(rt; "{name} {answer}:{}", Hex(b))
}

// The reader: its answer.
fn read(rt: &impl Print, name: &str, f: usize, s: &[u8], b: &[u8]) -> io::Result<()> {
    let answer = Answered(index_check::check_index(f, s, b));
    println!(rt; "{name} {answer}")
}

// The reader of each index, beside the routes above.
fn judge(rt: &impl Print, indexes: &[(&str, &[u8])]) -> io::Result<()> {
    for (name, b) in indexes {
        read(rt, name, 2, ROUTES, b)?;
    }
    Ok(())
}

// What is written into a buffer of N bytes.
fn write_into<const N: usize>(rt: &impl Print, name: &str, f: usize, s: &[u8]) -> io::Result<()>
    requires { N ≤ 24 }
{
    let mut b: [u8; N] = as_lent();
    write(rt, name, f, s, &mut b)
}

// The same, and read back.
fn both<const N: usize>(rt: &impl Print, name: &str, f: usize, s: &[u8]) -> io::Result<()>
    requires { N ≤ 24 }
{
    let mut b: [u8; N] = as_lent();
    write(rt, name, f, s, &mut b)?;
    read(rt, "  read back", f, s, &b)
}

// Ids rise as byte strings, of their values.
fn orders(rt: &impl Print) -> io::Result<()> {
    both::<14>(rt, "routes", 2, ROUTES)?;
    both::<16>(
        rt,
        "prefixes",
        1,
        b"stop_id,stop_name,stop_lat,stop_lon\n\"AB\",x,1,2\nA,x,1,2\n\"A,\",x,1,2\n\"A\"\"\",x,1,2\n",
    )?;
    both::<12>(
        rt,
        "services",
        3,
        b"service_id,monday,tuesday,wednesday,thursday,friday,saturday,sunday,start_date,end_date\nW,1,1,1,1,1,0,0,20240101,20241231\nS,0,0,0,0,0,1,1,20240101,20241231\n",
    )?;
    both::<14>(
        rt,
        "above 127",
        4,
        b"route_id,service_id,trip_id\nR,W,\xC3\xA9\nR,W,z\nR,W,\xC3\xA8\n",
    )?;
    both::<12>(
        rt,
        "marked, CR LF",
        2,
        b"\xEF\xBB\xBFroute_id,route_type\r\nb,3\r\nB,3\r\n",
    )
}

// The buffer: too short, too long, and for no records.
fn rooms(rt: &impl Print) -> io::Result<()> {
    write_into::<13>(rt, "a byte short", 2, ROUTES)?;
    write_into::<24>(rt, "longer", 2, ROUTES)?;
    both::<8>(rt, "no records", 2, HEADER)?;
    write_into::<7>(rt, "no records, a byte short", 2, HEADER)
}

// Routes of which two have one id.
const REPEATED: &[u8] = b"route_id,route_type\nA,3\n\"A\",3\n";

// Routes with a tab.
const TAB: &[u8] = b"route_id,route_type\nA\t,3\n";

// The writer's other refusals, which leave the buffer as lent.
fn refusals(rt: &impl Print) -> io::Result<()> {
    write_into::<12>(rt, "repeated", 2, REPEATED)?;
    write_into::<12>(rt, "file 0", 0, ROUTES)?;
    write_into::<12>(rt, "file 5", 5, b"")?;
    write_into::<12>(rt, "empty calendar", 3, b"")?;
    write_into::<12>(rt, "tab", 2, TAB)?;
    write_into::<4>(rt, "repeated, short", 2, REPEATED)
}

// The reader refuses by an index's head and length.
const HEADS: [(&str, &[u8]); 12] = [
    (
        "accepted",
        b"TTX\x01\x00\x02\x03\x00\x02\x00\x03\x00\x01\x00",
    ),
    ("no bytes", b""),
    ("7 bytes", b"TTX\x01\x00\x02\x03"),
    (
        "wrong mark",
        b"TTx\x01\x00\x02\x03\x00\x02\x00\x03\x00\x01\x00",
    ),
    (
        "wrong mark, version 2",
        b"TXT\x02\x00\x02\x03\x00\x02\x00\x03\x00\x01\x00",
    ),
    (
        "version 2",
        b"TTX\x02\x00\x02\x03\x00\x02\x00\x03\x00\x01\x00",
    ),
    (
        "version 257",
        b"TTX\x01\x01\x02\x03\x00\x02\x00\x03\x00\x01\x00",
    ),
    (
        "version 2, file byte 3",
        b"TTX\x02\x00\x03\x03\x00\x02\x00\x03\x00\x01\x00",
    ),
    (
        "file byte 3",
        b"TTX\x01\x00\x03\x03\x00\x02\x00\x03\x00\x01\x00",
    ),
    ("count 2", b"TTX\x01\x00\x02\x02\x00\x02\x00\x03\x00"),
    (
        "a byte more",
        b"TTX\x01\x00\x02\x03\x00\x02\x00\x03\x00\x01\x00\x00",
    ),
    (
        "a byte less",
        b"TTX\x01\x00\x02\x03\x00\x02\x00\x03\x00\x01",
    ),
];

// The reader refuses by an index's entries.
const ENTRIES: [(&str, &[u8]); 7] = [
    (
        "record 0",
        b"TTX\x01\x00\x02\x03\x00\x02\x00\x03\x00\x00\x00",
    ),
    (
        "record 4",
        b"TTX\x01\x00\x02\x03\x00\x04\x00\x03\x00\x01\x00",
    ),
    (
        "record 258",
        b"TTX\x01\x00\x02\x03\x00\x02\x01\x03\x00\x01\x00",
    ),
    (
        "swapped, record 0",
        b"TTX\x01\x00\x02\x03\x00\x03\x00\x02\x00\x00\x00",
    ),
    (
        "swapped",
        b"TTX\x01\x00\x02\x03\x00\x03\x00\x02\x00\x01\x00",
    ),
    (
        "last two swapped",
        b"TTX\x01\x00\x02\x03\x00\x02\x00\x01\x00\x03\x00",
    ),
    (
        "record 2 twice",
        b"TTX\x01\x00\x02\x03\x00\x02\x00\x02\x00\x01\x00",
    ),
];

// The reader takes versions 1 and 2, and version 2 of no three records.
const VERSIONS: [(&str, &[u8]); 5] = [
    (
        "version 0",
        b"TTX\x00\x00\x02\x03\x00\x02\x00\x03\x00\x01\x00",
    ),
    (
        "version 3",
        b"TTX\x03\x00\x02\x03\x00\x02\x00\x03\x00\x01\x00",
    ),
    (
        "version 2, whole",
        b"TTX\x02\x00\x02\x03\x00\x00\x00\x02\x00\x00\x00\x03\x00\x00\x00\x01\x00\x00\x00",
    ),
    ("version 2, 8 bytes", b"TTX\x02\x00\x02\x03\x00"),
    ("version 2, 9 bytes", b"TTX\x02\x00\x02\x03\x00\x00"),
];

fn versions(rt: &impl Print) -> io::Result<()> {
    judge(rt, &VERSIONS)?;
    let none = b"TTX\x02\x00\x02\x00\x00\x00\x00";
    read(rt, "version 2, no records", 2, HEADER, none)
}

// Byte i of a file of routes, seven bytes each, whose ids fall.
fn file_byte(i: usize) -> u8 {
    match HEADER.get(i) {
        Some(byte) => *byte,
        None => {
            let at = i - HEADER.len();
            let [a, b, c, d] = casework::id_of(MANY - 1 - at / 7 % MANY);
            [a, b, c, d, b',', b'3', b'\n'][at % 7]
        }
    }
}

// 65,535 routes.
fn few_routes() -> [u8; 458765] {
    array::from_fn(file_byte)
}

// 65,536 routes.
fn many_routes() -> [u8; 458772] {
    array::from_fn(file_byte)
}

// The writer: its answer, and how the buffer that it leaves begins and ends.
fn write_long(rt: &impl Print, name: &str, s: &[u8], b: &mut [u8]) -> io::Result<()>
    requires { 18 ≤ length b.old }
{
    let answer = Answered(index_write::write_index(2, s, b));
    let left = &*b;
    let last = left.len() - 8;
    println!(rt;
        "{name} {answer}:{} ..{}",
        Hex(&left[..18]),
        Hex(&left[last..])
    )
}

// Version 1 up to 65,535 records.
fn first(rt: &impl Print) -> io::Result<()> {
    let s = few_routes();
    let mut b: [u8; 131078] = as_lent();
    write_long(rt, "65,535 routes", &s, &mut b)?;
    read(rt, "  read back", 2, &s, &b)?;
    read(rt, "  beside 65,536", 2, &many_routes(), &b)
}

// Version 2 above.
fn second(rt: &impl Print) -> io::Result<()> {
    let s = many_routes();
    let mut short: [u8; 262153] = as_lent();
    write_long(rt, "65,536 routes, a byte short", &s, &mut short)?;
    let mut b: [u8; 262154] = as_lent();
    write_long(rt, "65,536 routes", &s, &mut b)?;
    read(rt, "  read back", 2, &s, &b)?;
    read(rt, "  beside 65,535", 2, &few_routes(), &b)?;
    b[8] = 0;
    read(rt, "  its count in 16 bits", 2, &s, &b)
}

// The reader answers of the file first.
fn files(rt: &impl Print) -> io::Result<()> {
    read(rt, "of file 0", 0, ROUTES, b"")?;
    read(rt, "of file 5", 5, b"", b"")?;
    read(rt, "of an empty calendar", 3, b"", b"")?;
    read(rt, "of a tab", 2, TAB, b"TTX")?;
    let index = b"TTX\x01\x00\x02\x02\x00\x01\x00\x02\x00";
    read(rt, "of a repeated id", 2, REPEATED, index)
}

fn main(rt: HostRuntime) -> io::Result<()> {
    orders(&rt)?;
    rooms(&rt)?;
    refusals(&rt)?;
    judge(&rt, &HEADS)?;
    judge(&rt, &ENTRIES)?;
    versions(&rt)?;
    first(&rt)?;
    second(&rt)?;
    files(&rt)
}
