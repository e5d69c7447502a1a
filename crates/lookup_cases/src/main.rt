// Asks for codes at the counter and writes what is answered; the file `stdout` has what document 02's E5 and E9 say.
#![tactic(auto)]

ghost use Rattle.std.specs.Prelude.{◌≤◌};

use casework::MANY;
use lookups::Refused;
use std::{array, fmt, io};

// What is lent to a call: the bytes of stops.txt, its table and its index.
#[derive(Clone, Copy)]
struct Lent<'a> {
    file: &'a [u8],
    table: &'a [i32],
    index: &'a [u8],
}

// Record 1 is B, record 2 is A in quotes, record 3 is AB: their ids stand from 36 to 37, 44 to 47 and 54 to 56. The index lists records 2, 3 and 1.
const THREE: Lent<'static> = Lent {
    file: b"stop_id,stop_name,stop_lat,stop_lon\nB,x,1,2\n\"A\",y,1,2\nAB,z,1,2\n",
    table: &[
        0, 0, 0, 0, 0, 0, 0, 36, 37, 9, 9, 9, 9, 9, 44, 47, 9, 9, 9, 9, 9, 54, 56, 9, 9, 9, 9, 9,
    ],
    index: b"TTX\x01\x00\x01\x03\x00\x02\x00\x03\x00\x01\x00",
};

// An index that lists record 1 alone.
const ONE: &[u8] = b"TTX\x01\x00\x01\x01\x00\x01\x00";

// What is answered to a code: a record or none, or 50.
#[derive(Clone, Copy)]
struct Answered(Result<usize, Refused>);

impl fmt::Display for Answered {
    fn fmt<W: fmt::Write>(&self, f: &mut fmt::Formatter<W>) -> fmt::Result {
        match self.0 {
            Ok(0) => write!(f, "none"),
            Ok(record) => write!(f, "record {record}"),
            Err(Refused) => write!(f, "50"),
        }
    }
}

// Asks for a code.
fn ask(rt: &impl Print, name: &str, lent: &Lent, code: &[u8]) -> io::Result<()> {
    let answer = lookup::look_up(lent.file, lent.table, lent.index, code);
    println!(rt; "{name} {}", Answered(answer))
}

// Asks for each code.
fn ask_each(rt: &impl Print, lent: &Lent, codes: &[(&str, &[u8])]) -> io::Result<()> {
    for (name, code) in codes {
        ask(rt, name, lent, code)?;
    }
    Ok(())
}

// Asks for A by each index.
fn ask_by(rt: &impl Print, indexes: &[(&str, &[u8])]) -> io::Result<()> {
    for (name, index) in indexes {
        ask(rt, name, &Lent { index, ..THREE }, b"A")?;
    }
    Ok(())
}

// Asks for A where record 1, the only one that is listed, has its id from a start to an end.
fn ask_at(rt: &impl Print, name: &str, file: &[u8], start: i32, end: i32) -> io::Result<()> {
    let table = [0, 0, 0, 0, 0, 0, 0, start, end, 9, 9, 9, 9, 9];
    let lent = Lent {
        file,
        table: &table,
        index: ONE,
    };
    ask(rt, name, &lent, b"A")
}

// The record with that id, or none: the code is a value.
const CODES: [(&str, &[u8]); 10] = [
    ("A", b"A"),
    ("AB", b"AB"),
    ("B", b"B"),
    ("before all", b"@"),
    ("between A and AB", b"AA"),
    ("between AB and B", b"AC"),
    ("after all", b"C"),
    ("ABC", b"ABC"),
    ("A in quotes", b"\"A\""),
    ("no code", b""),
];

// Before anything else is looked at, and after it.
fn empties(rt: &impl Print) -> io::Result<()> {
    let none = Lent {
        file: b"",
        table: &[],
        index: b"",
    };
    ask(rt, "no code, no index", &none, b"")?;
    let index = b"TTX\x01\x00\x02\x00\x00";
    ask(rt, "no code, another file", &Lent { index, ..THREE }, b"")?;
    let index = b"TTX\x01\x00\x01\x00\x00";
    ask(rt, "no entries", &Lent { index, ..none }, b"A")?;
    let index = b"TTX\x01\x00\x01\x00\x00\x00";
    ask(rt, "no entries, a byte more", &Lent { index, ..none }, b"A")
}

// Indexes that are answered 50.
const INDEXES: [(&str, &[u8]); 16] = [
    ("no index", b""),
    ("7 bytes", b"TTX\x01\x00\x01\x00"),
    ("another mark", b"TTY\x01\x00\x01\x01\x00\x02\x00"),
    ("version 0", b"TTX\x00\x00\x01\x01\x00\x02\x00"),
    ("version 3", b"TTX\x03\x00\x01\x01\x00\x02\x00"),
    ("version 257", b"TTX\x01\x01\x01\x01\x00\x02\x00"),
    ("file 0", b"TTX\x01\x00\x00\x01\x00\x02\x00"),
    ("file 2", b"TTX\x01\x00\x02\x01\x00\x02\x00"),
    ("a byte more", b"TTX\x01\x00\x01\x01\x00\x02\x00\x00"),
    ("a byte less", b"TTX\x01\x00\x01\x01\x00\x02"),
    ("count 2 of 1", b"TTX\x01\x00\x01\x02\x00\x02\x00"),
    ("count 0 of 1", b"TTX\x01\x00\x01\x00\x00\x02\x00"),
    (
        "version 2 of one",
        b"TTX\x02\x00\x01\x01\x00\x00\x00\x02\x00\x00\x00",
    ),
    ("version 2 of none", b"TTX\x02\x00\x01\x00\x00\x00\x00"),
    ("version 2, 8 bytes", b"TTX\x02\x00\x01\x00\x00"),
    ("version 2, 9 bytes", b"TTX\x02\x00\x01\x00\x00\x01"),
];

// Entries that are wrong: the answer is that of those that are probed.
const ENTRIES: [(&str, &[u8]); 8] = [
    ("one entry", b"TTX\x01\x00\x01\x01\x00\x02\x00"),
    ("two entries", b"TTX\x01\x00\x01\x02\x00\x02\x00\x03\x00"),
    ("record 4", b"TTX\x01\x00\x01\x01\x00\x04\x00"),
    ("record 65,535", b"TTX\x01\x00\x01\x01\x00\xFF\xFF"),
    ("record 0", b"TTX\x01\x00\x01\x01\x00\x00\x00"),
    (
        "record 4 second of three",
        b"TTX\x01\x00\x01\x03\x00\x02\x00\x04\x00\x01\x00",
    ),
    (
        "record 4 third of three",
        b"TTX\x01\x00\x01\x03\x00\x02\x00\x03\x00\x04\x00",
    ),
    (
        "another's, first of three",
        b"TTX\x01\x00\x01\x03\x00\x01\x00\x03\x00\x01\x00",
    ),
];

// Id places.
const PLACES: [(&str, i32, i32); 12] = [
    ("A", 45, 46),
    ("A in quotes", 44, 47),
    ("another", 36, 37),
    ("start and end alike", 45, 45),
    ("at the end", 63, 63),
    ("backward", 46, 45),
    ("a byte past the end", 62, 64),
    ("past the end", 64, 64),
    ("start -1", -1, 46),
    ("end -1", 45, -1),
    ("both -1", -1, -1),
    ("least and greatest", i32::MIN, i32::MAX),
];

fn places(rt: &impl Print) -> io::Result<()> {
    for (name, start, end) in PLACES {
        ask_at(rt, name, THREE.file, start, end)?;
    }
    Ok(())
}

// The bytes at an id place.
const FIELDS: [(&str, &[u8]); 10] = [
    ("LF", b"A\n"),
    ("LF in quotes", b"\"A\n\""),
    ("two fields", b"A,B"),
    ("a comma in quotes", b"\"A,B\""),
    ("a mark that isn't closed", b"\"A"),
    ("a mark within", b"A\""),
    ("text behind a mark", b"\"A\"B"),
    ("tab", b"A\t"),
    ("CR", b"A\r"),
    ("half a character", b"A\xC3"),
];

fn fields(rt: &impl Print) -> io::Result<()> {
    for (name, file) in FIELDS {
        ask_at(rt, name, file, 0, file.len() as i32)?;
    }
    Ok(())
}

// A record that lies only partly in the table: its places, and so many numbers behind them.
const CUT: [(&str, &[i32]); 3] = [
    ("a number short", &[0, 0, 0, 0, 0, 0, 0, 45, 46, 9, 9, 9, 9]),
    ("its place alone", &[0, 0, 0, 0, 0, 0, 0, 45, 46]),
    (
        "a number more",
        &[0, 0, 0, 0, 0, 0, 0, 45, 46, 9, 9, 9, 9, 9, 9],
    ),
];

fn cut(rt: &impl Print) -> io::Result<()> {
    for (name, table) in CUT {
        let lent = Lent {
            file: THREE.file,
            table,
            index: ONE,
        };
        ask(rt, name, &lent, b"A")?;
    }
    Ok(())
}

// Bytes above 127 are greater than all others.
const HIGH: Lent<'static> = Lent {
    file: b"z\xC3\xA9",
    table: &[
        0, 0, 0, 0, 0, 0, 0, 0, 1, 9, 9, 9, 9, 9, 1, 3, 9, 9, 9, 9, 9,
    ],
    index: b"TTX\x01\x00\x01\x02\x00\x01\x00\x02\x00",
};

const HIGH_CODES: [(&str, &[u8]); 3] = [
    ("z", b"z"),
    ("two bytes above 127", b"\xC3\xA9"),
    ("one of them", b"\xC3"),
];

// Byte i of ids, one behind the other, in rising order.
fn id_byte(i: usize) -> u8 {
    casework::id_of(i / 4)[i % 4]
}

// Number j of record r: where its id starts, and where it ends.
fn number_of(r: usize, j: usize) -> i32 {
    match (r, j) {
        (0, _) => 0,
        (_, 0) => ((r - 1) % MANY * 4) as i32,
        (_, 1) => ((r - 1) % MANY * 4 + 4) as i32,
        _ => 9,
    }
}

// Byte i of an index that lists 1, 2 and so on behind what stands before them, each record number in so many bytes, low byte first.
fn index_byte(before: &[u8], width: usize, i: usize) -> u8
    requires { (2 ≤ width) × (width ≤ 4) }
{
    match before.get(i) {
        Some(byte) => *byte,
        None => {
            let at = i - before.len();
            (at / width % MANY + 1).to_le_bytes()[at % width]
        }
    }
}

// 65,536 ids.
fn many_ids() -> [u8; 262144] {
    array::from_fn(id_byte)
}

// Their table.
fn many_records() -> [i32; 458759] {
    array::from_fn(|i| number_of(i / 7, i % 7))
}

// An index of version 1 of the first 65,535 of them.
fn first_index() -> [u8; 131078] {
    array::from_fn(|i| index_byte(b"TTX\x01\x00\x01\xFF\xFF", 2, i))
}

// An index of version 2 of all of them.
fn second_index() -> [u8; 262154] {
    array::from_fn(|i| index_byte(b"TTX\x02\x00\x01\x00\x00\x01\x00", 4, i))
}

// Codes for both versions, of as many entries as they can have, and as they must have.
const MANY_CODES: [(&str, &[u8]); 8] = [
    ("  first", b"aaaa"),
    ("  second", b"aaab"),
    ("  middle", b"iaaa"),
    ("  last but one", b"pppo"),
    ("  last", b"pppp"),
    ("  before all", b"aaa"),
    ("  between", b"iaaaa"),
    ("  after all", b"q"),
];

fn first(rt: &impl Print) -> io::Result<()> {
    rt.println("65,535 entries")?;
    let lent = Lent {
        file: &many_ids(),
        table: &many_records(),
        index: &first_index(),
    };
    ask_each(rt, &lent, &MANY_CODES)
}

// The same with a record less in the table, and with an entry less.
fn second(rt: &impl Print) -> io::Result<()> {
    rt.println("65,536 entries")?;
    let table = many_records();
    let index = second_index();
    let lent = Lent {
        file: &many_ids(),
        table: &table,
        index: &index,
    };
    ask_each(rt, &lent, &MANY_CODES)?;
    let table = &table[..table.len() - 7];
    ask(rt, "  a record less", &Lent { table, ..lent }, b"pppp")?;
    let index = &index[..index.len() - 4];
    ask(rt, "  an entry less", &Lent { index, ..lent }, b"aaaa")
}

fn main(rt: HostRuntime) -> io::Result<()> {
    ask_each(&rt, &THREE, &CODES)?;
    empties(&rt)?;
    ask_by(&rt, &INDEXES)?;
    ask_by(&rt, &ENTRIES)?;
    places(&rt)?;
    fields(&rt)?;
    cut(&rt)?;
    ask_each(&rt, &HIGH, &HIGH_CODES)?;
    first(&rt)?;
    second(&rt)
}
