// Runs the whole check on feeds: both sides of each rule, tables, pages, starting places and lists; `stdout` has what host/model makes of them.
// A line of standard input is a title, after #, or a case: list length, a blank or, where the profile for boards is asked for, a b, starting place, which table to write, and six files, each after a bar; one without a bar has no bytes.
#![tactic(auto)]

ghost use Rattle.std.specs.Prelude.{◌<◌, ◌≤◌, ◌≡◌, length, take};

use casework::{GOOD, Named, Numbers};
use lent::Tables;
use meaning::{Answer, Place, Profile};
use std::{fmt, io};

// What every number of a table is as lent; no record has it.
const LENT: i32 = -777;

// The answer as it is told.
#[derive(Clone, Copy)]
struct Answered(Answer);

impl fmt::Display for Answered {
    fn fmt<W: fmt::Write>(&self, f: &mut fmt::Formatter<W>) -> fmt::Result {
        match self.0 {
            Answer::Accepted => write!(f, "accepted"),
            Answer::Findings { written, total } => write!(f, "findings {written} {total}"),
            Answer::Refused(refusal) => write!(f, "refused{}", Named(refusal)),
        }
    }
}

// What a case asks for: the starting place, the profile, and the number of the file whose table is told; none where it is no file's.
#[derive(Clone, Copy)]
struct Case {
    from: Place,
    asked: Profile,
    told: usize,
}

// The numbers of a table up to the last that isn't as lent.
fn used(t: &[i32]) -> &[i32]
    ensures { length result.now ≤ length t.now }
{
    match t.iter().rposition(|number| *number != LENT) {
        Some(last) => &t[..=last],
        None => &[],
    }
}

// The names of the tables.
const NAMES: [&str; 6] = [
    "stops",
    "routes",
    "calendar",
    "trips",
    "stop_times",
    "calendar_dates",
];

// Writes the table of the file whose number is given, as far as it isn't as lent; none for another number.
fn tell_table(rt: &impl Print, file: usize, tables: &Tables) -> io::Result<()> {
    match file {
        1..=6 => println!(rt; "{}:{}", NAMES[file - 1], Numbers(used(tables.table(file)))),
        _ => Ok(()),
    }
}

// The byte at a place; 0 where there is none.
fn byte_at(s: &[u8], i: usize) -> u8 {
    s.get(i).copied().unwrap_or(0)
}

// The digit at a place; 10 where there is none, so that a number of other bytes stays one.
fn digit(s: &[u8], i: usize) -> usize
    ensures { result ≤ 10 }
{
    match byte_at(s, i) {
        b @ b'0'..=b'9' => (b - b'0') as usize,
        _ => 10,
    }
}

// A digit of base 16.
fn hex(b: u8) -> u8
    ensures { result < 16 }
{
    match b {
        b'0'..=b'9' => b - b'0',
        b'A'..=b'F' => b - b'A' + 10,
        _ => 0,
    }
}

// A byte as it is written, and how many bytes that takes.
#[derive(Clone, Copy)]
pub struct Written {
    pub byte: u8,
    pub width: usize,
}

// What a backslash and a byte stand for, with the two bytes behind them.
fn escaped(c: u8, high: u8, low: u8) -> Written
    ensures { (1 ≤ result.width) × (result.width ≤ 4) }
{
    match c {
        b'n' => Written {
            byte: b'\n',
            width: 2,
        },
        b'r' => Written {
            byte: b'\r',
            width: 2,
        },
        b't' => Written {
            byte: b'\t',
            width: 2,
        },
        b'x' => Written {
            byte: hex(high) * 16 + hex(low),
            width: 4,
        },
        _ => Written { byte: c, width: 2 },
    }
}

// The byte that is written at a place.
fn taken(s: &[u8], i: usize) -> Written
    requires { i < length s.now }
    ensures { (1 ≤ result.width) × (result.width ≤ 4) }
{
    let b = s[i];
    if b == b'\\' {
        return escaped(byte_at(s, i + 1), byte_at(s, i + 2), byte_at(s, i + 3));
    }
    Written { byte: b, width: 1 }
}

// The bytes that are written from a place on.
fn decode(s: &[u8], from: usize, out: &mut [u8]) -> usize
    ensures { (result ≤ length out.new) × (result ≡ length (take result out.new)) }
{
    let mut i = from;
    let mut n = 0;
    // No `for`: how far a turn goes is told by what stands there.
    while i < s.len() {
        if out.len() <= n {
            return n;
        }
        let w = taken(s, i);
        out[n] = w.byte;
        n += 1;
        i += w.width;
    }
    n
}

// A number of four digits.
fn amount(s: &[u8], i: usize) -> usize
    requires { i < 100 }
    ensures { result ≤ 11110 }
{
    digit(s, i) * 1000 + digit(s, i + 1) * 100 + digit(s, i + 2) * 10 + digit(s, i + 3)
}

// A number of the starting place: the least, the greatest, the one below 0, or four digits after a mark.
fn start_number(s: &[u8], i: usize) -> i32
    requires { i < 90 }
{
    match byte_at(s, i) {
        b'<' => -2147483648,
        b'>' => 2147483647,
        b'-' => -1,
        _ => amount(s, i + 1) as i32,
    }
}

// The starting place.
fn start_place(l: &[u8]) -> Place {
    Place {
        file: start_number(l, 3),
        line: start_number(l, 9),
        rule: start_number(l, 15),
    }
}

// The profile that a mark asks for.
fn profile_of(mark: u8) -> Profile {
    match mark {
        b'b' => Profile::Boards,
        _ => Profile::Plain,
    }
}

// What a case asks for.
fn case_of(l: &[u8]) -> Case {
    Case {
        from: start_place(l),
        asked: profile_of(byte_at(l, 2)),
        told: digit(l, 20),
    }
}

// The length of the list.
fn list_length(l: &[u8]) -> usize {
    digit(l, 0) * 10 + digit(l, 1)
}

// The six files, each after a bar; = stands for that of the feed without a finding, and one that isn't there has no bytes.
fn files_of(s: &[u8]) -> [&[u8]; 6] {
    let mut parts = s.get(1..).unwrap_or(b"").split(|byte| *byte == b'|');
    GOOD.files().map(|standard| {
        let part = parts.next();
        match part {
            Some(b"=") => standard,
            Some(file) => file,
            None => b"",
        }
    })
}

// The check of six files with tables as lent, and the table that is asked for.
fn check_files(
    rt: &impl Print,
    files: [&[u8]; 6],
    list: &mut [i32],
    case: Case,
) -> io::Result<Answer> {
    let Case { from, asked, told } = case;
    let mut tables = Tables {
        stops: &mut [LENT; 256],
        routes: &mut [LENT; 256],
        calendar: &mut [LENT; 256],
        trips: &mut [LENT; 256],
        stop_times: &mut [LENT; 256],
        dates: &mut [LENT; 256],
    };
    let a = tusuchiy::check(files, &mut tables, list, from, asked);
    tell_table(rt, told, &tables)?;
    Ok(a)
}

// A case: the check with a list, and what both say; none where the list is longer than there is room.
fn run_case(rt: &impl Print, l: &[u8]) -> io::Result<()> {
    let mut buf = [0u8; 4096];
    let n = decode(l, 21, &mut buf);
    let mut list = [99i32; 64];
    let length = list_length(l);
    if list.len() < length {
        return Ok(());
    }
    let list = &mut list[..length];
    let answer = check_files(rt, files_of(&buf[..n]), list, case_of(l))?;
    println!(rt; "{}:{}", Answered(answer), Numbers(list))
}

// A title or a case.
fn run_line(rt: &impl Print, l: &[u8]) -> io::Result<()> {
    if byte_at(l, 0) == b'#' {
        rt.write_all(l)?;
        rt.print("\n")
    } else {
        run_case(rt, l)
    }
}

// The lines of standard input.
fn run_lines(rt: &impl Print, s: &[u8]) -> io::Result<()> {
    let mut at = 0;
    while let Some((line, next)) = text::next_line(s, at) {
        run_line(rt, &s[line.start..line.end])?;
        at = next;
    }
    Ok(())
}

fn main(rt: HostRuntime) -> io::Result<()> {
    let mut input = [0; 262144];
    let n = casework::read_full(&rt, &mut input)?;
    run_lines(&rt, &input[..n])
}
