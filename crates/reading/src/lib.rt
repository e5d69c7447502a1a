#![tactic(auto)]
// Refusals 1 to 14: the first broken rule of a value, a line, a file and a feed. Nothing is written.
ghost use Rattle.std.specs.Prelude.{◌≡◌, not, ◌&&◌, List, map, ℕ, ◌*◌, ◌<◌, ◌≤◌, ltb, length, None, is_some};
ghost use Rattle.meaning.specs.Lists.{empty};
ghost use Rattle.meaning.specs.Bytes.{count_lf, lines_from, lines_of, good, fields, value};
ghost use Rattle.meaning.specs.Columns.{row_of};
ghost use Rattle.meaning.specs.Forms.{time_of, date_of, latitude_of, longitude_of, sequence_of, choice_of, route_type_of, exception_of, is_time, shape};
ghost use Rattle.meaning.specs.Tables.{file_of, width_of};
ghost use Rattle.meaning.specs.Refusals.{text_tests, head_tests, value_tests, line_tests, on_lines, in_file, may_lack, rule4, slack, speaks, verdict_of};
ghost use Rattle.text.specs.Fields.{up_to33};
ghost use Rattle.columns.specs.Columns.{Noted};
ghost use Rattle.values.specs.Located.{Located};
ghost use Rattle.reading.specs.Tests.{of_rule, first, byte_tests, column_tests, earlier_of};
ghost use Rattle.reading.specs.Heads.{columns_under};
ghost use Rattle.reading.specs.Wholes.{whole_of, wholes_of, rule_marks, first_true, whole_claims};

use columns::Columns;
use meaning::{Column, Form, MAX_BYTES, MAX_LINES, Need, Refusal, Time};
use rows::{Calendar, Dates, Stops, Table};
use schema::KnownColumns;
use text::Measured;
use values::LocatedLine;

// Is the value of a raw field a time, or empty?
fn is_time(raw: &[u8]) -> bool
    ensures { result ≡ is_time (time_of (value raw.now)) }
{
    !matches!(forms::time_of(raw), Time::NoTime)
}

// Is it of this form?
fn is_of_form(form: Form, raw: &[u8]) -> bool
    ensures { result ≡ shape form (value raw.now) }
{
    match form {
        Form::Text => true,
        Form::Time => is_time(raw),
        Form::Date => forms::date_of(raw).is_some(),
        Form::Latitude => forms::latitude_of(raw).is_some(),
        Form::Longitude => forms::longitude_of(raw).is_some(),
        Form::Sequence => forms::sequence_of(raw).is_some(),
        Form::Choice(highest) => forms::choice_of(raw, highest).is_some(),
        Form::RouteType => forms::route_type_of(raw).is_some(),
        Form::ExceptionType => forms::exception_of(raw).is_some(),
    }
}

// Is a value of n bytes too long for its column?
fn is_long(c: Column, n: usize) -> bool
    ensures { result ≡ (c.ident && ltb 64 n) }
{
    let ident = c.ident;
    ident && 64 < n
}

// A broken rule, and the column in which it is broken, 0 where it names none. Of two the lower rule comes first, and of one rule the column further left.
#[derive(Clone, Copy, PartialEq, Eq, PartialOrd, Ord)]
pub struct Fault {
    pub rule: usize,
    pub column: usize,
}

// Up to which need a line may leave values empty: one of type 3 or 4 its name; its place too, where it has no coordinate.
fn slack_of(f: usize, l: &LocatedLine) -> Need
    ensures { (ps : List ℕ) → Located l.now.line.now ps l.now.cells → result ≡ slack f (row_of ps l.now.line.now) }
{
    if f != Stops::FILE {
        return Need::Never;
    }
    if l.location_type() <= 2 {
        return Need::Never;
    }
    if l.has_place() {
        return Need::AllButInner;
    }
    Need::AllButPlaceless
}

// The first of rules 11 to 13 that the value of a raw field breaks under a known column that stands in column p, on a line that may leave
// so much open; an absent column breaks none.
fn value_fault(c: Column, slack: Need, p: usize, raw: &[u8]) -> Option<Fault>
    ensures { result ≡ first (column_tests slack c p (value raw.now)) }
{
    if p == 0 {
        return None;
    }
    let n = text::value_length(raw);
    if is_long(c, n) {
        return Some(Fault {
            rule: 11,
            column: p,
        });
    }
    if n == 0 {
        if slack < c.need {
            return Some(Fault {
                rule: 12,
                column: p,
            });
        }
        return None;
    }
    if is_of_form(c.form, raw) {
        return None;
    }
    Some(Fault {
        rule: 13,
        column: p,
    })
}

// The fault of the lower rule; of two of one rule the one further left.
fn earlier(a: Option<Fault>, b: Option<Fault>) -> Option<Fault>
    ensures { result ≡ earlier_of a b }
{
    let Some(t) = b else {
        return a;
    };
    let Some(s) = a else {
        return b;
    };
    Some(s.min(t))
}

// The first of rules 11 to 13 that the values of a line break, whose known columns stand at `at`, and the leftmost column that breaks it.
fn row_fault(
    known: &KnownColumns,
    at: [usize; 10],
    l: &[u8],
    count: usize,
    starts: &[usize],
) -> Option<Fault>
    requires { (count ≡ up_to33 (length (fields l.now))) × Noted l.now starts.now }
    ensures { result ≡ first (value_tests known.now.file at l.now) }
{
    let located = LocatedLine {
        line: l,
        cells: columns::cells_of(l, count, starts, at),
    };
    let slack = slack_of(known.file, &located);
    let mut fault = None;
    for k in 0..schema::count(known.file) {
        let raw = located.raw(k);
        fault = earlier(fault, value_fault(known.columns[k], slack, at[k], raw));
    }
    fault
}

// The first of rules 5 and 14 that a line breaks.
fn byte_rule(l: &[u8]) -> Option<usize>
    ensures { of_rule result ≡ first (byte_tests l.now) }
{
    if characters::is_plain(l) {
        return None;
    }
    if text::has_stray(l) {
        return Some(5);
    }
    if characters::is_ill_formed(l) {
        return Some(14);
    }
    None
}

// The first of rules 5, 14, 6 and 7 that a line breaks, by what a walk along it told; where it breaks none, the walk told all its fields.
pub fn text_rule(l: &[u8], m: Measured) -> Option<usize>
    requires { (m.good ≡ good l.now) × (m.fields ≡ up_to33 (length (fields l.now))) }
    ensures result_value { of_rule result ≡ first (text_tests l.now) }
    ensures fields_value { result ≡ None → m.fields ≡ length (fields l.now) }
{
    if let Some(rule) = byte_rule(l) {
        return Some(rule);
    }
    if !m.good {
        return Some(6);
    }
    if 32 < m.fields {
        return Some(7);
    }
    None
}

// A header judged in one walk along it: the first rule that it breaks, and its column; or else under what the lines after it are read.
// Its text comes first, so that names are looked for in no more than 32 fields.
pub fn judge_header(f: usize, h: &[u8]) -> Result<Columns, Fault>
    requires { f < 7 }
    ensures { result ≡ columns_under f h.now }
{
    let mut starts = columns::blank_starts();
    let m = text::walk_fields(h, &mut starts);
    if let Some(rule) = text_rule(h, m) {
        return Err(Fault { rule, column: 0 });
    }
    let names = columns::names_of(f, h, m.fields, &starts);
    if let Some(column) = names.again {
        return Err(Fault { rule: 8, column });
    }
    let at = names.at;
    if columns::lacks(f, at) {
        return Err(Fault { rule: 9, column: 0 });
    }
    Ok(Columns {
        at,
        count: m.fields,
    })
}

// The first rule that a line after the header breaks, and its column.
pub fn line_fault(known: &KnownColumns, c: Columns, l: &[u8]) -> Option<Fault>
    ensures { result ≡ first (line_tests known.now.file c.at c.count l.now) }
{
    let mut starts = columns::blank_starts();
    let m = text::walk_fields(l, &mut starts);
    if let Some(rule) = text_rule(l, m) {
        return Some(Fault { rule, column: 0 });
    }
    if m.fields != c.count {
        return Some(Fault {
            rule: 10,
            column: 0,
        });
    }
    let at = c.at;
    row_fault(known, at, l, m.fields, &starts)
}

// The refusal of a fault at a place.
fn refusal(t: Fault, file: usize, line: usize) -> Refusal
    ensures { result ≡ record { number = t.rule; file = file; line = line; column = t.column } }
{
    Refusal {
        number: t.rule,
        file,
        line,
        column: t.column,
    }
}

// The first line from byte `from` on that breaks a rule, its lines counted from 2.
fn read_lines(f: usize, c: Columns, s: &[u8], from: usize) -> Result<(), Refusal>
    requires { f < 7 }
    ensures { result ≡ speaks (on_lines f c.at c.count 2 (lines_from s.now from)) }
{
    let known = schema::all_known(f);
    let mut at = from;
    let mut n: usize = 2;
    while let Some((line, next)) = text::next_line(s, at) {
        if let Some(t) = line_fault(&known, c, &s[line.start..line.end]) {
            return Err(refusal(t, f, n));
        }
        n += 1;
        at = next;
    }
    Ok(())
}

// The first line of a file that breaks a rule.
pub fn read_file(f: usize, s: &[u8]) -> Result<(), Refusal>
    requires { f < 7 }
    ensures { result ≡ speaks (in_file f (lines_of s.now)) }
{
    let Some((line, next)) = text::next_line(s, text::body_start(s)) else {
        return Ok(());
    };
    match judge_header(f, &s[line.start..line.end]) {
        Ok(c) => read_lines(f, c, s, next),
        Err(t) => Err(refusal(t, f, 1)),
    }
}

// Is a table of this length shorter than its width times the file's LF count?
fn is_short(f: usize, room: usize, lf: usize) -> bool
    requires { (0 < f) × (f < 7) }
    ensures { result ≡ ltb room (width_of f * lf) }
{
    let w = rows::width_of(f);
    room / w < lf
}

// May file f be empty, which means "not supplied"? `dated`: file 6 is supplied.
fn may_lack(f: usize, dated: bool) -> bool
    ensures { (files : List (List ℕ)) → dated ≡ not (empty (file_of files 6)) → result ≡ may_lack files f }
{
    f == Dates::FILE || f == Calendar::FILE && dated
}

// Does a file break rule 4?
fn is_unended(f: usize, s: &[u8], dated: bool) -> bool
    ensures { (files : List (List ℕ)) (room : ℕ) → dated ≡ not (empty (file_of files 6)) → result ≡ rule4 files f s.now room }
{
    if s.len() == 0 {
        return !may_lack(f, dated);
    }
    !text::ends_with_lf(s)
}

// Which of rules 1 to 4 a file breaks, with its LF count and its table's length.
pub fn whole_of(f: usize, s: &[u8], lf: usize, room: usize, dated: bool) -> [bool; 4]
    requires { (0 < f) × (f < 7) × (lf ≡ count_lf s.now) }
    ensures { (files : List (List ℕ)) → dated ≡ not (empty (file_of files 6)) → result ≡ whole_of files f s.now room }
{
    let short = is_short(f, room, lf);
    let unended = is_unended(f, s, dated);
    [MAX_BYTES < s.len(), MAX_LINES < lf, short, unended]
}

// The first file that breaks rule k + 1.
fn first_true(wholes: [[bool; 4]; 6], k: usize) -> Option<usize>
    requires { k < 4 }
    ensures { result ≡ first_true 1 (rule_marks k wholes) }
{
    for (f, whole) in wholes.iter().enumerate() {
        if whole[k] {
            return Some(f + 1);
        }
    }
    None
}

// Rules 1 to 4, rule by rule.
fn order(wholes: [[bool; 4]; 6]) -> Result<(), Refusal>
    ensures { result ≡ speaks (whole_claims wholes) }
{
    for k in 0..4 {
        if let Some(file) = first_true(wholes, k) {
            return Err(Refusal {
                number: k + 1,
                file,
                line: 0,
                column: 0,
            });
        }
    }
    Ok(())
}

// Rules 1 to 4 over the files, by their LF counts.
fn read_wholes(files: [&[u8]; 6], rooms: [usize; 6], counts: [usize; 6]) -> Result<(), Refusal>
    requires { counts ≡ map count_lf (map (λ x. x.now) files) }
    ensures { result ≡ speaks (whole_claims (wholes_of (map (λ x. x.now) files.entry) rooms)) }
{
    let dated = files[5].len() != 0;
    let mut wholes = [[false; 4]; 6];
    for i in 0..6 {
        wholes[i] = whole_of(i + 1, files[i], counts[i], rooms[i], dated);
    }
    order(wholes)
}

// Can the six files, which have so many LF bytes each, be read into tables of these lengths? If not, the first broken rule with its file, line and column.
pub fn verdict(files: [&[u8]; 6], rooms: [usize; 6], counts: [usize; 6]) -> Result<(), Refusal>
    requires { counts ≡ map count_lf (map (λ x. x.now) files) }
    ensures { result ≡ verdict_of (map (λ x. x.now) files.entry) rooms }
{
    read_wholes(files, rooms, counts)?;
    for (i, file) in files.iter().enumerate() {
        read_file(i + 1, file)?;
    }
    Ok(())
}
