#![tactic(auto)]
// The faults of each file: as a whole, then line by line in one walk, handed out.
ghost use Rattle.std.specs.Prelude.{◌≡◌, not, IfSome, List, [], ◌∷◌, ℕ, ◌+◌, ◌^◌, ◌<◌, ◌≤◌, length};
ghost use Rattle.meaning.specs.Lists.{empty};
ghost use Rattle.meaning.specs.Tables.{file_of};
ghost use Rattle.meaning.specs.Refusals.{max_bytes, test};
ghost use Rattle.reading.specs.Tests.{first};
ghost use Rattle.listing.specs.Handing.{state, adding, SameList};
ghost use Rattle.faults.specs.List.{texts_from, texts_of, fault_at, head_said, tests_under, later_faults, line_faults, file_faults};
ghost use Rattle.faults.specs.Told.{quad};
ghost use Rattle.file_faults.specs.Walk.{any_at, fault_of, tests_by, Heads, Header, marked_faults};

use columns::Columns;
use listing::Listing;
use meaning::Bounds;
use reading::Fault;
use schema::KnownColumns;

// Where the line that begins at `at` lies, and where the next one starts; bytes that no LF ends are a line here.
fn any_line(s: &[u8], at: usize) -> Option<(Bounds, usize)>
    ensures { result ≡ any_at s.now at }
{
    let end = s.len();
    text::next_line(s, at).or((at < end).then_some((Bounds { start: at, end }, end)))
}

// One fault more, where a rule is broken.
fn note_fault(list: &mut Listing, file: usize, line: usize, t: Option<Fault>)
    requires file_bound { (file < 2 ^ 31) × ((line < 2 ^ 31) × IfSome t (λ u. (u.rule < 2 ^ 31) × (u.column < 2 ^ 31))) }
    requires total_bound { list.old.sink.total < 2 ^ 62 }
    ensures same_list { SameList list.old list.new }
    ensures result_after { state list.new.out.now list.new.sink ≡ adding quad list.old.from (fault_of file line t) (state list.old.out.now list.old.sink) }
    ensures total_bound_2 { list.new.sink.total ≤ list.old.sink.total + 1 }
{
    if let Some(t) = t {
        let d = [file as i32, line as i32, t.rule as i32, t.column as i32];
        list.hand_out(&d);
    }
}

// A rule of a whole file, where it is broken.
fn whole_fault(broken: bool, rule: usize) -> Option<Fault>
    ensures { result ≡ first (test rule broken ∷ []) }
{
    if broken {
        return Some(Fault { rule, column: 0 });
    }
    None
}

// Rules 1, 2 and 4 of a file, by what was found of its rules 1 to 4. Rule 3 is about lent memory, not about the feed.
fn list_whole(f: usize, whole: [bool; 4], list: &mut Listing)
    requires { (f < 7) × (list.old.sink.total < 2 ^ 61) }
    ensures same_list { SameList list.old list.new }
    ensures result_after { state list.new.out.now list.new.sink ≡ adding quad list.old.from (marked_faults f whole) (state list.old.out.now list.old.sink) }
    ensures total_bound { list.new.sink.total ≤ list.old.sink.total + 3 }
{
    note_fault(list, f, 0, whole_fault(whole[0], 1));
    note_fault(list, f, 0, whole_fault(whole[1], 2));
    note_fault(list, f, 0, whole_fault(whole[3], 4));
}

// The first rule that a line after the header breaks: of all its rules where the header is good, else of those that don't look at the header.
fn later_fault(known: &KnownColumns, header: Option<Columns>, l: &[u8]) -> Option<Fault>
    ensures { result ≡ first (tests_by known.now.file header l.now) }
{
    match header {
        Some(c) => reading::line_fault(known, c, l),
        None => reading::text_rule(l, text::measure(l)).map(|rule| Fault { rule, column: 0 }),
    }
}

// The fault of line n, after the header.
fn list_line(known: &KnownColumns, header: Option<Columns>, l: &[u8], n: usize, list: &mut Listing)
    requires n_bound { (n < 2 ^ 31) × (list.old.sink.total < 2 ^ 62) }
    requires header { Header known.now.file header }
    ensures same_list { SameList list.old list.new }
    ensures by_index { (h : List ℕ) → Heads known.now.file h header → state list.new.out.now list.new.sink ≡ adding quad list.old.from (fault_at known.now.file n (tests_under (head_said known.now.file h) known.now.file h l.now)) (state list.old.out.now list.old.sink) }
    ensures total_bound { list.new.sink.total ≤ list.old.sink.total + 1 }
{
    note_fault(list, known.file, n, later_fault(known, header, l));
}

// The faults of the lines after the header, from byte `from` on, counted from 2.
fn list_later(f: usize, header: Option<Columns>, s: &[u8], from: usize, list: &mut Listing)
    requires f_bound { (f < 7) × ((length s.now ≤ max_bytes) × (list.old.sink.total < 2 ^ 60)) }
    requires header { Header f header }
    ensures same_list { SameList list.old list.new }
    ensures by_index { (h : List ℕ) → Heads f h header → state list.new.out.now list.new.sink ≡ adding quad list.old.from (later_faults f h 2 (texts_from s.now from)) (state list.old.out.now list.old.sink) }
    ensures total_bound { list.new.sink.total ≤ list.old.sink.total + length s.now }
{
    let known = schema::all_known(f);
    let mut at = from;
    let mut n: usize = 2;
    while let Some((line, next)) = any_line(s, at) {
        list_line(&known, header, &s[line.start..line.end], n, list);
        n += 1;
        at = next;
    }
}

// The faults of a file's lines: of its header, then of the others.
fn list_lines(f: usize, s: &[u8], list: &mut Listing)
    requires { (f < 7) × ((length s.now ≤ max_bytes) × (list.old.sink.total < 2 ^ 59)) }
    ensures same_list { SameList list.old list.new }
    ensures result_after { state list.new.out.now list.new.sink ≡ adding quad list.old.from (line_faults f (texts_of s.now)) (state list.old.out.now list.old.sink) }
    ensures total_bound { list.new.sink.total ≤ list.old.sink.total + length s.now + 1 }
{
    let Some((line, next)) = any_line(s, text::body_start(s)) else {
        return;
    };
    let h = reading::judge_header(f, &s[line.start..line.end]);
    note_fault(list, f, 1, h.err());
    list_later(f, h.ok(), s, next, list);
}

// The faults of file f: as a whole, then of its lines, where it breaks neither 1 nor 2. `dated`: file 6 is supplied.
pub fn list_faults(f: usize, s: &[u8], dated: bool, list: &mut Listing)
    requires { (0 < f) × ((f < 7) × (list.old.sink.total < 2 ^ 58)) }
    ensures same_list { SameList list.old list.new }
    ensures by_index { (files : List (List ℕ)) → dated ≡ not (empty (file_of files 6)) → state list.new.out.now list.new.sink ≡ adding quad list.old.from (file_faults files f s.now) (state list.old.out.now list.old.sink) }
    ensures total_bound { list.new.sink.total ≤ list.old.sink.total + max_bytes + 4 }
{
    let whole = reading::whole_of(f, s, text::count_lf(s), 0, dated);
    list_whole(f, whole, list);
    if !whole[0] && !whole[1] {
        list_lines(f, s, list);
    }
}
