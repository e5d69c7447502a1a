// The first walk along files 1 to 4 and 6: where each id stands, what only the text can tell, and then the order of the ids.
ghost use Rattle.std.specs.Prelude.{◌≡◌, List, [], ℕ, ◌+◌, ◌*◌, ◌-◌, ◌^◌, ◌<◌, ◌≤◌, ℤ, pos, length, get_or, take};
ghost use Rattle.meaning.specs.Lists.{empty, flat, laid};
ghost use Rattle.meaning.specs.Bytes.{count_lf};
ghost use Rattle.meaning.specs.Columns.{row_of, rows_of};
ghost use Rattle.meaning.specs.Tables.{under, width_of, id_column};
ghost use Rattle.meaning.specs.Refusals.{max_bytes};
ghost use Rattle.marks.specs.Marks.{MarkedIf};
ghost use Rattle.rows.specs.Cells.{put_at};
ghost use Rattle.ordering.specs.Cells.{KeptAt, RoomAt};
ghost use Rattle.ordering.specs.Ids.{ArrangedBy};
ghost use Rattle.ordering.specs.declared.By.TheVariants.{IdAndDate};
ghost use Rattle.repeats.specs.Repeats.{Marking as Repeated};
ghost use Rattle.values.specs.Located.{Located};
ghost use Rattle.records.specs.Line.{line};
ghost use Rattle.records.specs.Waiting.{waiting_column};
ghost use Rattle.columns.specs.Heading.{Heading};
ghost use Rattle.tables.specs.Fill.{Room, Fits};
ghost use Rattle.tables.specs.Noting.{noted, note_mark, Telling, Marking};
ghost use Rattle.tables.specs.Walk.{date_key, placing, placed_of, Ordered, OrderedIf};

use ordering::{By, Order};
use records::FileLine;
use rows::{Calendar, Dates, Routes, Stops, Table, Trips};
use values::LocatedLine;

// The order of file 6 by service, in which a reference into it is looked up.
const BY_SERVICE: Order = Order {
    by: By::Id,
    width: Dates::WIDTH,
    cell: seeking::CELL,
};

// The same by service and date.
const BY_DATE: Order = Order {
    by: By::IdAndDate,
    width: Dates::WIDTH,
    cell: 3,
};

// One walk serves five files: what differs goes by the file's number, as in the definitions `waiting_column`, `date_key` and `noted`.

// Where in the schema the field stands that waits: a trip's service, a stop's parent.
fn waiting_column(f: usize) -> usize
    ensures { (result ≡ waiting_column f) × (result < 10) }
{
    if f == Trips::FILE {
        return 1;
    }
    5
}

// The date of a line of file 6, which goes with its service.
fn date_key(f: usize, l: &LocatedLine) -> u32
    ensures by_index { (ps : List ℕ) → Located l.now.line.now ps l.now.cells → pos result ≡ date_key f (row_of ps l.now.line.now) }
    ensures upper_bound { result < 2 ^ 31 }
{
    if f == Dates::FILE {
        return l.date(1);
    }
    0
}

// The places of a line's id and of the field that waits, and the date.
fn put_places(f: usize, l: &FileLine, t: &mut [i32], r: usize)
    requires f_bound { f ≤ 6 }
    requires f_in_bounds { r * width_of f + width_of f ≤ length t.old }
    ensures { (ps : List ℕ) → Located l.now.located.line.now ps l.now.located.cells
        → t.new ≡ put_at t.old (r * width_of f) (placing f ps (line l.now.start l.now.located.line.now)) }
{
    let id = l.field_place(rows::id_column(f));
    let key = date_key(f, &l.located);
    let other = l.field_place(waiting_column(f));
    rows::cells::put_places(t, r, rows::width_of(f), id, key, other);
}

// Is the value under known column k empty?
fn is_bare(l: &LocatedLine, k: usize) -> bool
    requires { k < 10 }
    ensures { (ps : List ℕ) → Located l.now.line.now ps l.now.cells → result ≡ empty (under k (row_of ps l.now.line.now)) }
{
    text::is_empty_value(l.raw(k))
}

// Has a stop a parent, a route no name?
fn is_noted(f: usize, l: &LocatedLine) -> bool
    ensures { (ps : List ℕ) → Located l.now.line.now ps l.now.cells → result ≡ noted f (row_of ps l.now.line.now) }
{
    if f == Stops::FILE {
        return !is_bare(l, 5);
    }
    if f == Routes::FILE {
        if is_bare(l, 2) {
            return is_bare(l, 3);
        }
    }
    false
}

// What the first walk does with a line of file f, whose record is r.
fn place_line(
    f: usize,
    l: &[u8],
    at: usize,
    places: [usize; 10],
    t: &mut [i32],
    r: usize,
    m: &mut [u16],
)
    requires { (f ≤ 6) × ((at + length l.now ≤ max_bytes) × (r * width_of f + width_of f ≤ length t.old)) }
    ensures { (ps : List ℕ) → ((k : ℕ) → get_or places k 0 ≡ get_or ps k 0)
        → (t.new ≡ put_at t.old (r * width_of f) (placing f ps (line at l.now)))
        × MarkedIf (noted f (row_of ps l.now)) m.old m.new (note_mark f) r }
{
    let line = FileLine {
        located: LocatedLine {
            line: l,
            cells: columns::locate(l, places),
        },
        start: at,
    };
    put_places(f, &line, t, r);
    let noted = is_noted(f, &line.located);
    marks::mark_if(m, f + 6, r, noted);
}

// The lines from `at` on, the first of which has record 1; how many records there are.
fn place_lines(
    f: usize,
    s: &[u8],
    at: usize,
    known: [usize; 10],
    t: &mut [i32],
    m: &mut [u16],
) -> usize
    requires le_f { (1 ≤ f) × ((f ≤ 6) × Room f s.now t.old) }
    requires heading { Heading f s.now known at }
    ensures t_after { (lent : List ℤ) → t.old ≡ laid (flat (take 1 (placed_of f s.now))) lent
        → t.new ≡ laid (flat (placed_of f s.now)) lent }
    ensures telling { Telling (λ i. noted f (get_or (rows_of f s.now) (i - 1) [])) (note_mark f) (count_lf s.now) m.old m.new }
    ensures result_value { result + 1 ≡ count_lf s.now }
{
    let mut here = at;
    let mut r = 1;
    while let Some((line, next)) = text::next_line(s, here) {
        place_line(f, &s[line.start..line.end], line.start, known, t, r, m);
        here = next;
        r += 1;
    }
    r - 1
}

// Record 0, and what the first walk writes for each line; how many records there are.
fn place_file(f: usize, s: &[u8], t: &mut [i32], m: &mut [u16]) -> usize
    requires { (1 ≤ f) × ((f ≤ 6) × Room f s.now t.old) }
    ensures t_after { t.new ≡ laid (flat (placed_of f s.now)) t.old }
    ensures telling { Telling (λ i. noted f (get_or (rows_of f s.now) (i - 1) [])) (note_mark f) (count_lf s.now) m.old m.new }
    ensures result_value { result + 1 ≡ count_lf s.now }
{
    let h = columns::read_header(f, s);
    rows::cells::zero_record(t, rows::width_of(f));
    let known = h.known;
    let next = h.next;
    place_lines(f, s, next, known, t, m)
}

// The ids of file f in its table, and its records in their order; how many there are.
pub fn order_file(f: usize, s: &[u8], t: &mut [i32], m: &mut [u16]) -> usize
    requires { (1 ≤ f) × ((f ≤ 4) × Room f s.now t.old) }
    ensures ordered { Ordered f s.now result t.old t.new }
    ensures marking { Marking f s.now m.old m.new }
{
    let n = place_file(f, s, t, m);
    let width = rows::width_of(f);
    seeking::arrange(s, t, width, n);
    repeats::mark_repeats(seeking::by_id(width), s, t, n, f, m);
    n
}

// The same for calendar.txt, which may be not supplied.
pub fn order_services(s: &[u8], t: &mut [i32], m: &mut [u16]) -> usize
    requires { Fits 3 s.now t.old }
    ensures ordered_if { OrderedIf 3 s.now result t.old t.new }
    ensures marking { Marking 3 s.now m.old m.new }
{
    if s.len() == 0 {
        return 0;
    }
    order_file(Calendar::FILE, s, t, m)
}

// Exceptions with the service and the date of an earlier one, marked: they are put in that order, in number 3 of each.
fn mark_dates(s: &[u8], t: &mut [i32], n: usize, m: &mut [u16])
    requires { RoomAt 3 4 n t.old × (n < 2 ^ 31) }
    ensures kept_at { KeptAt 3 4 n t.old t.new }
    ensures repeated { Repeated IdAndDate s.now t.new 4 n 6 m.old m.new }
    ensures arranged_by { ArrangedBy IdAndDate s.now 3 4 n t.new }
{
    sorting::arrange(BY_DATE, s, t, n);
    repeats::mark_repeats(BY_DATE, s, t, n, Dates::FILE, m);
}

// The services of calendar_dates.txt in its table, and its records in their order, whatever their dates; it may be not supplied.
pub fn order_dates(s: &[u8], t: &mut [i32], m: &mut [u16]) -> usize
    requires { Fits 6 s.now t.old }
    ensures ordered_if { OrderedIf 6 s.now result t.old t.new }
    ensures marking { Marking 6 s.now m.old m.new }
{
    if s.len() == 0 {
        return 0;
    }
    let n = place_file(Dates::FILE, s, t, m);
    mark_dates(s, t, n, m);
    sorting::arrange_from(BY_SERVICE, s, t, n, BY_DATE.cell);
    n
}
