// Writes what `text` answers at the edges of lines, endings, quoting and values; the file `stdout` has what document 01 says.
#![tactic(auto)]

ghost use Rattle.std.specs.Prelude.{◌+◌, ◌≤◌, length};

use meaning::Bounds;
use std::io;
use text::Cursor;

// A word where a fact holds, and nothing where it doesn't.
fn where_so(word: &str, holds: bool) -> &str {
    if holds { word } else { "" }
}

// Writes a field: its bounds, what its value is like, and what stands inside its quotes.
fn field(rt: &impl Print, at: Bounds, raw: &[u8]) -> io::Result<()> {
    let length = text::value_length(raw);
    let empty = where_so(" empty", text::is_empty_value(raw));
    let quoted = where_so(" quoted", text::is_marked(raw));
    print!(rt;
        "   {}-{} value {length}{empty}{quoted} |",
        at.start, at.end
    )?;
    rt.write_all(text::content_of(raw))?;
    rt.print("|\n")
}

// Writes the fields of a line.
fn fields(rt: &impl Print, l: &[u8]) -> io::Result<()> {
    let mut c = Cursor::new();
    while let Some((bounds, next)) = c.next(l) {
        field(rt, bounds, &l[bounds.start..bounds.end])?;
        c = next;
    }
    Ok(())
}

// Writes a line: its bounds and the next one's start, what rules 5 to 7 ask of it, and its fields.
fn line(rt: &impl Print, at: Bounds, next: usize, l: &[u8]) -> io::Result<()> {
    let stray = where_so(" stray", text::has_stray(l));
    let m = text::measure(l);
    let good = where_so(" good", m.good);
    println!(rt;
        "  line {}-{} next {next}{stray}{good} fields {}",
        at.start, at.end, m.fields
    )?;
    fields(rt, l)
}

// Writes what rules 1 to 4 ask of a file.
fn whole(rt: &impl Print, s: &[u8]) -> io::Result<()> {
    let starts = text::body_start(s);
    let lf = text::count_lf(s);
    let ended = where_so(" ended", text::ends_with_lf(s));
    println!(rt; "file {} starts {starts} lf {lf}{ended}", s.len())
}

// Writes a file: what is asked of it, and its lines.
fn file(rt: &impl Print, s: &[u8]) -> io::Result<()> {
    whole(rt, s)?;
    let mut at = text::body_start(s);
    while let Some((bounds, next)) = text::next_line(s, at) {
        line(rt, bounds, next, &s[bounds.start..bounds.end])?;
        at = next;
    }
    Ok(())
}

// Writes each file.
fn files(rt: &impl Print, cases: &[&[u8]]) -> io::Result<()> {
    for s in cases {
        file(rt, s)?;
    }
    Ok(())
}

// Writes whether two raw fields are equal by value, and whether the first one's value is the second one as it stands.
fn pair(rt: &impl Print, a: &[u8], b: &[u8]) -> io::Result<()> {
    let value = where_so(" same value", text::same_value(a, b));
    let name = where_so(" is name", text::is_name(a, b));
    let bytes = where_so(" same bytes", text::same_bytes(a, b));
    rt.write_all(a)?;
    rt.print(" and ")?;
    rt.write_all(b)?;
    println!(rt; "{value}{name}{bytes}")
}

// The mark at a file's start is dropped once, and only whole.
const MARKS: [&[u8]; 7] = [
    b"",
    b"\xEF\xBB\xBF",
    b"\xEF\xBB\xBF\n",
    b"\xEF\xBB\xBF\r\n",
    b"\xEF\xBB\xBF\xEF\xBB\xBFa\n",
    b"\xEF\xBBa\n",
    b"a\xEF\xBB\xBF\n",
];

// A line ends with LF, and one CR directly before it belongs to the ending.
const ENDINGS: [&[u8]; 7] = [
    b"a",
    b"\n",
    b"\r\n",
    b"a\r\nb\nc\r\n",
    b"a\r\r\n",
    b"a\rb\n",
    b"a\n\n\r\nb",
];

// Tab and CR outside an ending; other control bytes are bytes.
const STRAYS: [&[u8]; 6] = [
    b"a\tb\n",
    b"\"a\tb\"\n",
    b"\r\r\n",
    b"\x01\x0B\x0C\n",
    b"\"a\r\n",
    b"\"a\nb\"\n",
];

// The quoting table at each of its cells.
const QUOTING: [&[u8]; 8] = [
    b",\na,\n,a\na,b,c\n",
    b"\"a\"\"b\",c\n",
    b"a\"b\n\"a\"b\n",
    b"\"a\" ,b\n \"a\",b\n",
    b"\"\"\n\"\"\"\"\n\"\"\"\n\"\n",
    b"\"a,b\",\"\",c\n",
    b"\"a\",\"b\"\"\",\"\"\"c\"\n",
    b"a\"b,c\"d,e\n",
];

// Bytes that are all one.
fn filled(b: u8) -> [u8; 500] {
    [b; 500]
}

// Writes what rules 1 to 4 ask of n bytes, the last of which is LF and all others b.
fn ended(rt: &impl Print, b: u8, n: usize) -> io::Result<()>
    requires { (1 ≤ n) × (n ≤ 500) }
{
    let mut s = filled(b);
    s[n - 1] = b'\n';
    whole(rt, &s[..n])
}

// Writes it of n bytes that are all LF, and of n bytes of which only the last is LF.
fn block(rt: &impl Print, n: usize) -> io::Result<()>
    requires { (1 ≤ n) × (n ≤ 500) }
{
    ended(rt, b'\n', n)?;
    ended(rt, b'a', n)
}

// The same at a number of bytes, at one less and at one more.
fn around(rt: &impl Print, middle: usize) -> io::Result<()>
    requires { (2 ≤ middle) × (middle ≤ 499) }
{
    for n in middle - 1..middle + 2 {
        block(rt, n)?;
    }
    Ok(())
}

// LF bytes are counted to the end, however many bytes a turn counts.
fn blocks(rt: &impl Print) -> io::Result<()> {
    around(rt, 8)?;
    around(rt, 224)?;
    around(rt, 256)?;
    around(rt, 448)
}

// Writes a line, how many fields it has, and a table of four in which the places past their ends are noted from number 1 on; 9 stands where none is.
fn past(rt: &impl Print, l: &[u8]) -> io::Result<()> {
    let mut t = [9usize; 4];
    let m = text::walk_fields(l, &mut t);
    let good = where_so(" good", m.good);
    rt.write_all(l)?;
    println!(rt;
        "{good} fields {} past {} {} {} {}",
        m.fields, t[0], t[1], t[2], t[3]
    )
}

// The next field begins past the end of the one before; a table that is too short has the first of them.
const STARTS: [&[u8]; 10] = [
    b"",
    b"a",
    b"a,b",
    b",,",
    b"a,b,c,d",
    b"\"a,b\",c",
    b"\"a\"\"\",b",
    b"\"a,b",
    b"a\"b,c",
    b"a,\"b\"c,de",
];

fn starts(rt: &impl Print) -> io::Result<()> {
    for l in STARTS {
        past(rt, l)?;
    }
    Ok(())
}

// Writes a word into bytes, from `at` on, as far as there is room.
fn put(s: &mut [u8], at: usize, word: &[u8])
    requires { at ≤ length s.old }
{
    for (to, from) in s[at..].iter_mut().zip(word) {
        *to = *from;
    }
}

// Writes what a walk tells of a line: whether it is good, how many fields are told, and the places past the ends of fields 32, 33 and 34; 9 stands where
// none is noted.
fn walked(rt: &impl Print, l: &[u8]) -> io::Result<()> {
    let mut t = [9usize; 40];
    let m = text::walk_fields(l, &mut t);
    let good = where_so(" good", m.good);
    println!(rt;
        "{good} fields {} past {} {} {}",
        m.fields, t[32], t[33], t[34]
    )
}

// Writes it of n commas with a word in their midst, from `at` on.
fn long(rt: &impl Print, n: usize, at: usize, word: &[u8]) -> io::Result<()>
    requires { (at ≤ 500) × (n ≤ 500) }
{
    let mut s = filled(b',');
    put(&mut s, at, word);
    print!(rt; "commas {n} from {at} ")?;
    rt.write_all(word)?;
    walked(rt, &s[..n])
}

// Fields are told as far as rule 7 needs them, and quoting is judged to the line's end.
fn lengths(rt: &impl Print) -> io::Result<()> {
    long(rt, 30, 0, b"")?;
    long(rt, 31, 0, b"")?;
    long(rt, 32, 0, b"")?;
    long(rt, 33, 0, b"")?;
    long(rt, 34, 0, b"")?;
    long(rt, 500, 0, b"")?;
    long(rt, 37, 3, b"\",,,,\"")?;
    long(rt, 38, 3, b"\",,,,\"")?;
    long(rt, 39, 3, b"\",,,,\"")?;
    long(rt, 40, 3, b"a\"")?;
    long(rt, 40, 3, b"\"")
}

// Quoting past field 33, good and bad, with its first mark at a byte.
const QUOTES: [&[u8]; 6] = [b"\"", b"\"\"", b"\"\"a", b"\"a\"", b"a\"", b"\"\"\""];

fn quotes(rt: &impl Print, at: usize) -> io::Result<()>
    requires { at ≤ 400 }
{
    for word in QUOTES {
        long(rt, 100, at, word)?;
    }
    Ok(())
}

// The same from byte to byte.
fn along(rt: &impl Print, from: usize, to: usize) -> io::Result<()>
    requires { to ≤ 400 }
{
    for at in from..to {
        quotes(rt, at)?;
    }
    Ok(())
}

// However many bytes are looked at together, marks are found wherever they stand.
fn rests(rt: &impl Print) -> io::Result<()> {
    along(rt, 30, 36)?;
    along(rt, 62, 69)?;
    along(rt, 93, 101)?;
    long(
        rt,
        200,
        40,
        b"\",,,,,,,,,,,,,,,,,,,,,,,,,,,,,,,,,,,,,,,,,,,,,,,,,,,,,,,,,,,,,,,,,,,,,,,,,,\"",
    )?;
    long(
        rt,
        200,
        40,
        b"\",,,,,,,,,,,,,,,,,,,,,,,,,,,,,,,,,,,,,,,,,,,,,,,,,,,,,,,,,,,,,,,,,,,,,,,,,,\"a",
    )
}

// Names and ids are compared by value; case and spaces count.
const PAIRS: [(&[u8], &[u8]); 8] = [
    (b"\"A\"", b"A"),
    (b"A", b"\"A\""),
    (b"A", b"A"),
    (b"a", b"A"),
    (b"A ", b"A"),
    (b"\"\"", b""),
    (b"\"a\"\"b\"", b"a\"b"),
    (b"\"ab\"", b"\"ab\""),
];

fn values(rt: &impl Print) -> io::Result<()> {
    for (a, b) in PAIRS {
        pair(rt, a, b)?;
    }
    Ok(())
}

fn main(rt: HostRuntime) -> io::Result<()> {
    files(&rt, &MARKS)?;
    files(&rt, &ENDINGS)?;
    files(&rt, &STRAYS)?;
    files(&rt, &QUOTING)?;
    blocks(&rt)?;
    starts(&rt)?;
    lengths(&rt)?;
    rests(&rt)?;
    values(&rt)
}
