#![tactic(auto)]
// Where the known columns stand in a header, and where their fields lie in a line.
ghost use Rattle.std.specs.Prelude.{◌≡◌, ◌&&◌, map, ℕ, ◌≤◌, ◌<◌, eqb, length, get_or, replicate, IfSome};
ghost use Rattle.meaning.specs.Bytes.{count_lf, fields, values};
ghost use Rattle.meaning.specs.Columns.{column_of, field_at};
ghost use Rattle.meaning.specs.Refusals.{rule8};
ghost use Rattle.text.specs.Fields.{up_to33};
ghost use Rattle.schema.specs.Named.{counted};
ghost use Rattle.columns.specs.Heading.{Heading};
ghost use Rattle.columns.specs.Columns.{places_of, firsts_with, again_with, lacking, noted, fields_at, field_by, told, Noted};

use meaning::Bounds;
use text::Cursor;

// Under what the lines of a file are read: the column of each known name in its header, counted from 1, 0 where it is absent; and how
// many fields the header has. No Option a column: the definitions (`places`, `cell`) count columns from 1, and 0 is absent in them too.
#[derive(Clone, Copy)]
pub struct Columns {
    pub at: [usize; 10],
    pub count: usize,
}

// Where the known names of a header stand: the column of each, as above; and the leftmost in which one stands for the second time.
#[derive(Clone, Copy)]
pub struct Names {
    pub at: [usize; 10],
    pub again: Option<usize>,
}

// One more standing: in column n stands the name of this known column, or of none.
fn note_name(names: Names, known: Option<usize>, n: usize) -> Names
    requires { IfSome known (λ k. k < 10) }
    ensures at_value { result.at ≡ firsts_with names.at (counted known) n }
    ensures again_value { (c : ℕ) → names.again ≡ told c → 1 ≤ n → result.again ≡ told (again_with names.at c (counted known) n) }
{
    let Some(k) = known else {
        return names;
    };
    let mut at = names.at;
    let again = names.again;
    if at[k] == 0 {
        at[k] = n;
        return Names { at, again };
    }
    Names {
        at,
        again: again.or(Some(n)),
    }
}

// The names of a header, each noted where it is met: for headers of any number of fields.
fn wide_names(f: usize, h: &[u8]) -> Names
    requires { f < 7 }
    ensures { (result.at ≡ places_of f (values h.now)) × (result.again ≡ told (rule8 f (values h.now))) }
{
    let mut names = Names {
        at: [0usize; 10],
        again: None,
    };
    let mut c = Cursor::new();
    let mut n: usize = 1;
    while let Some((field, next)) = c.next(h) {
        names = note_name(names, schema::named(f, &h[field.start..field.end]), n);
        n += 1;
        c = next;
    }
    names
}

// Is a must-be-present name missing, where the known names stand in these columns?
pub fn lacks(f: usize, at: [usize; 10]) -> bool
    requires { f < 7 }
    ensures { result ≡ lacking f at }
{
    (0..schema::count(f)).any(|k| schema::known(f, k).must && at[k] == 0)
}

// A field, noted in the cell of each known column that stands in column j.
fn note_field(cells: &mut [Bounds; 10], at: [usize; 10], j: usize, field: Bounds)
    ensures { cells.new ≡ noted at j field 10 cells.old }
{
    for (k, p) in at.iter().enumerate() {
        if *p == j {
            cells[k] = field;
        }
    }
}

// A line's cells are where the field under each known column lies in it, 0 to 0 where there is none: here each is noted where it is met,
// for lines of any number of fields.
fn wide_cells(l: &[u8], at: [usize; 10]) -> [Bounds; 10]
    ensures { result ≡ fields_at l.now at }
{
    let mut cells = [Bounds { start: 0, end: 0 }; 10];
    let mut c = Cursor::new();
    let mut n: usize = 1;
    while let Some((field, next)) = c.next(l) {
        note_field(&mut cells, at, n, field);
        n += 1;
        c = next;
    }
    cells
}

// The field in column p of a line with so many fields, by where they start.
fn field_by(count: usize, starts: &[usize], p: usize) -> Bounds
    requires { (count < length starts.now) × ((k : ℕ) → 0 < k → k ≤ count → 0 < get_or starts.now k 0) }
    ensures { result ≡ field_by count starts.now p }
{
    if p == 0 {
        return Bounds { start: 0, end: 0 };
    }
    if count < p {
        return Bounds { start: 0, end: 0 };
    }
    Bounds {
        start: starts[p - 1],
        end: starts[p] - 1,
    }
}

// The fields under columns, one look-up each.
fn near_cells(count: usize, starts: &[usize], at: [usize; 10]) -> [Bounds; 10]
    requires { (count < length starts.now) × ((k : ℕ) → 0 < k → k ≤ count → 0 < get_or starts.now k 0) }
    ensures { result ≡ map (field_by count starts.now) at }
{
    let mut cells = [Bounds { start: 0, end: 0 }; 10];
    for (k, p) in at.iter().enumerate() {
        cells[k] = field_by(count, starts, *p);
    }
    cells
}

// The fields of a line under columns, where a walk along it told how many fields it has and, as far as the table goes, where they start.
pub fn cells_of(l: &[u8], count: usize, starts: &[usize], at: [usize; 10]) -> [Bounds; 10]
    requires { (count ≡ up_to33 (length (fields l.now))) × Noted l.now starts.now }
    ensures { result ≡ fields_at l.now at }
{
    if count < starts.len() {
        return near_cells(count, starts, at);
    }
    wide_cells(l, at)
}

// A table for where the fields of a line start, as many as rule 7 allows, and where one more would.
pub fn blank_starts() -> [usize; 33]
    ensures { result ≡ replicate 33 0 }
{
    [0usize; 33]
}

// The names of a header with so many fields, by where they start.
fn near_names(f: usize, h: &[u8], count: usize, starts: &[usize]) -> Names
    requires f_bound { f < 7 }
    requires count_value { (count ≡ length (fields h.now)) × (count < length starts.now) × Noted h.now starts.now }
    ensures { (result.at ≡ places_of f (values h.now)) × (result.again ≡ told (rule8 f (values h.now))) }
{
    let mut names = Names {
        at: [0usize; 10],
        again: None,
    };
    for n in 1..=count {
        let Bounds { start, end } = field_by(count, starts, n);
        names = note_name(names, schema::named(f, &h[start..end]), n);
    }
    names
}

// The names of a header, where a walk along it told how many fields it has and, as far as the table goes, where they start.
pub fn names_of(f: usize, h: &[u8], count: usize, starts: &[usize]) -> Names
    requires f_bound { f < 7 }
    requires count_value { (count ≡ up_to33 (length (fields h.now))) × Noted h.now starts.now }
    ensures { (result.at ≡ places_of f (values h.now)) × (result.again ≡ told (rule8 f (values h.now))) }
{
    if count < starts.len() {
        return near_names(f, h, count, starts);
    }
    wide_names(f, h)
}

// The names of a header, in one walk along it.
fn header_names(f: usize, h: &[u8]) -> Names
    requires { f < 7 }
    ensures { (result.at ≡ places_of f (values h.now)) × (result.again ≡ told (rule8 f (values h.now))) }
{
    let mut starts = blank_starts();
    let m = text::walk_fields(h, &mut starts);
    names_of(f, h, m.fields, &starts)
}

// What a file's header tells: the columns of its known names, and where the next line starts.
#[derive(Clone, Copy)]
pub struct Header {
    pub known: [usize; 10],
    pub next: usize,
}

// The header of a file that has a line.
pub fn read_header(f: usize, s: &[u8]) -> Header
    requires { (f < 7) × (1 ≤ count_lf s.now) }
    ensures { Heading f s.now result.known result.next }
{
    let at = text::body_start(s);
    let Some((line, next)) = text::next_line(s, at) else {
        let known = [0usize; 10];
        return Header { known, next: at };
    };
    let names = header_names(f, &s[line.start..line.end]);
    let known = names.at;
    Header { known, next }
}

// The fields of a line under columns, in one walk along the line.
pub fn locate(l: &[u8], at: [usize; 10]) -> [Bounds; 10]
    ensures { result ≡ fields_at l.now at }
{
    let mut starts = blank_starts();
    let m = text::walk_fields(l, &mut starts);
    cells_of(l, m.fields, &starts, at)
}

// Where the field in column p of a line begins; 0 where there is none.
pub fn field_start(l: &[u8], p: usize) -> usize
    ensures { (result ≡ (field_at l.now p).start) × (result ≤ length l.now) }
{
    let mut c = Cursor::new();
    let mut n: usize = 1;
    while let Some((field, next)) = c.next(l) {
        if n == p {
            return field.start;
        }
        n += 1;
        c = next;
    }
    0
}
