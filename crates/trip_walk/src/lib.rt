#![tactic(auto)]
// Rules 28 to 31: one walk along the order of stop_times' lines, while their records wait in the table.
ghost use Rattle.std.specs.Prelude.{◌≡◌, true, false, cond, not, ◌&&◌, ◌||◌, List, ℕ, ◌+◌, ◌*◌, ◌-◌, ◌^◌, ◌<◌, ◌≤◌, eqb, ltb, length};
ghost use Rattle.meaning.specs.Bytes.{part};
ghost use Rattle.meaning.specs.Rules.{seconds_of};
ghost use Rattle.marks.specs.Marks.{marked, paired_mark, open_mark, met_mark};
ghost use Rattle.rows.specs.Cells.{bounds_at, time_at};
ghost use Rattle.ordering.specs.Cells.{KeptAt};
ghost use Rattle.ordering.specs.Ids.{trip_of};
ghost use Rattle.trip_order.specs.Cells.{Grouped, linked, repeats, larger};
ghost use Rattle.trip_order.specs.Steady.{steady};
ghost use Rattle.trip_walk.specs.Table.{same_in, timed_in, lines_in, cells_in, Ranged};
ghost use Rattle.trip_walk.specs.Told.{Told, Untold, KeptMarks, ToldTwo, OnlyMet};
ghost use Rattle.trip_walk.specs.Walk.{Turned, Closed, goes_by};

use marks::{EQUAL, FALLING, MET, OPEN, PAIRED};
use ordering::{By, Order};
use rows::{StopTimes, Table, TimeRow, times};

// The number of a waiting record that holds a cell of the order.
const CELL: usize = 7;

// The order of the lines.
const ORDER: Order = Order {
    by: By::TripAndSequence,
    width: StopTimes::WIDTH,
    cell: CELL,
};

// The numbers of a waiting record at which its trip_id starts and ends in the file.
const START: usize = 5;

const END: usize = 6;

// What the walk carries along: the greatest departure in the group of smaller sequences, and of this one;
// the first cell of the group, and of the run of equal sequences; and of this line: is it of the group before, and what is told of it.
#[derive(Clone, Copy, Default)]
struct State {
    below: usize,
    here: usize,
    from: usize,
    begins: usize,
    linked: bool,
    equal: bool,
    falls: bool,
}

// What a line's two times say. No Option of two: the walk takes them in without a branch, and the definitions name the three one by one (`timed_in`, `time_at`).
#[derive(Clone, Copy)]
struct Times {
    timed: bool,
    arrives: usize,
    departs: usize,
}

// The line in cell k.
fn line_at(t: &[i32], k: usize) -> usize
    ensures { result ≡ cells_in t.now k }
{
    rows::cells::nat_of(t, k, StopTimes::WIDTH, CELL)
}

// The one or the other, as `cond` says it.
fn pick(b: bool, x: usize, y: usize) -> usize
    ensures { result ≡ cond b x y }
{
    if b {
        return x;
    }
    y
}

// The larger number, as `larger` says it.
fn larger_of(a: usize, b: usize) -> usize
    ensures { result ≡ larger a b }
{
    if a < b {
        return b;
    }
    a
}

// The times of a line.
fn times_at(t: &[i32], x: usize) -> Times
    ensures { (result.timed ≡ timed_in t.now x) × ((result.arrives ≡ seconds_of (time_at t.now (x * 8 + 3))) × (result.departs ≡ seconds_of (time_at t.now (x * 8 + 4)))) }
{
    let a = StopTimes::arrival_at(t, TimeRow::new(x));
    let d = StopTimes::departure_at(t, TimeRow::new(x));
    Times {
        timed: times::is_timed(a, d),
        arrives: times::seconds_of(a),
        departs: times::seconds_of(d),
    }
}

// The raw trip_id of a line.
fn raw_trip<'a>(s: &'a [u8], t: &[i32], x: usize) -> &'a [u8]
    ensures { result.now ≡ part s.now (bounds_at t.now (x * 8 + 5)) }
{
    let start = rows::cells::nat_of(t, x, StopTimes::WIDTH, START);
    let end = rows::cells::nat_of(t, x, StopTimes::WIDTH, END);
    ordering::part_of(s, start, end)
}

// Are two lines of one trip? No byte is read where a trip has a record.
fn same_trip(s: &[u8], t: &[i32], x: usize, y: usize) -> bool
    ensures { result ≡ same_in s.now t.now x y }
{
    let a = StopTimes::trip_at(t, TimeRow::new(x)).0;
    let b = StopTimes::trip_at(t, TimeRow::new(y)).0;
    if a != b {
        return false;
    }
    if a != 0 {
        return true;
    }
    text::same_value(raw_trip(s, t, x), raw_trip(s, t, y))
}

// Is the line in cell k of the trip of the one before?
fn is_linked(s: &[u8], t: &[i32], k: usize) -> bool
    ensures { result ≡ linked (lines_in s.now t.now) (cells_in t.now) k }
{
    if 1 < k {
        return same_trip(s, t, line_at(t, k - 1), line_at(t, k));
    }
    false
}

// And has its sequence too?
fn is_repeat(t: &[i32], k: usize, link: bool) -> bool
    requires { 0 < k }
    ensures { (s : List ℕ) → link ≡ linked (lines_in s t.now) (cells_in t.now) k → result ≡ repeats (lines_in s t.now) (cells_in t.now) k }
{
    if link {
        return StopTimes::sequence_at(t, TimeRow::new(line_at(t, k - 1)))
            == StopTimes::sequence_at(t, TimeRow::new(line_at(t, k)));
    }
    false
}

// The departure of a timed line, 0 for another.
fn leaving(x: Times) -> usize
    ensures { result ≡ cond x.timed x.departs 0 }
{
    pick(x.timed, x.departs, 0)
}

// Does a timed line arrive before a departure?
fn is_late(x: Times, below: usize) -> bool
    ensures { result ≡ (x.timed && ltb x.arrives below) }
{
    x.timed & (x.arrives < below)
}

// The greatest departure of smaller sequences, carried on.
fn below_of(a: State, link: bool, equal: bool) -> usize
    ensures { result ≡ cond link (cond equal a.below (larger a.below a.here)) 0 }
{
    let grown = larger_of(a.below, a.here);
    pick(link, pick(equal, a.below, grown), 0)
}

// The greatest departure of this sequence, carried on.
fn here_of(a: State, equal: bool, leave: usize) -> usize
    ensures { result ≡ cond equal (larger a.here leave) leave }
{
    pick(equal, larger_of(a.here, leave), leave)
}

// What is carried on to cell k, and told of its line.
fn next(a: State, k: usize, link: bool, equal: bool, x: Times) -> State
    ensures below_value { (result.below ≡ cond link (cond equal a.below (larger a.below a.here)) 0) × (result.here ≡ cond equal (larger a.here (cond x.timed x.departs 0)) (cond x.timed x.departs 0)) }
    ensures from_value { (result.from ≡ cond link a.from k) × (result.begins ≡ cond equal a.begins k) }
    ensures linked_value { (result.linked ≡ link) × (result.equal ≡ equal) }
    ensures falls_value { result.falls ≡ (x.timed && ltb x.arrives (cond link (cond equal a.below (larger a.below a.here)) 0)) }
{
    let below = below_of(a, link, equal);
    State {
        below,
        here: here_of(a, equal, leaving(x)),
        from: pick(link, a.from, k),
        begins: pick(equal, a.begins, k),
        linked: link,
        equal,
        falls: is_late(x, below),
    }
}

// One cell more.
fn turn(s: &[u8], t: &[i32], k: usize, a: State) -> State
    requires { 0 < k }
    ensures { Turned (lines_in s.now t.now) (cells_in t.now) k a.below a.here a.from a.begins result.below result.here result.from result.begins result.linked result.equal result.falls }
{
    let link = is_linked(s, t, k);
    let equal = is_repeat(t, k, link);
    let x = times_at(t, line_at(t, k));
    next(a, k, link, equal, x)
}

// Marks b and c of record r, where p and q hold.
fn tell(m: &mut [u16], b: usize, p: bool, c: usize, q: bool, r: usize)
    requires { (b < c) × (c < 16) }
    ensures { ToldTwo m.old m.new b p c q r }
{
    marks::mark_if(m, b, r, p);
    marks::mark_if(m, c, r, q);
}

// Is a line not timed?
fn is_untimed(t: &[i32], x: usize) -> bool
    ensures { result ≡ not (timed_in t.now x) }
{
    let y = times_at(t, x);
    !y.timed
}

// Is the first or the last of a group not timed?
fn is_open(t: &[i32], a: State) -> bool
    ensures { result ≡ (not (timed_in t.now (cells_in t.now a.from)) || not (timed_in t.now (cells_in t.now a.begins))) }
{
    let first = is_untimed(t, line_at(t, a.from));
    let last = is_untimed(t, line_at(t, a.begins));
    first | last
}

// The trip of the group that ends with cell k: has it two lines, is its first or its last not timed?
fn tell_trip(t: &[i32], k: usize, a: State, m: &mut [u16])
    ensures { ToldTwo m.old m.new paired_mark (not (eqb a.from k)) open_mark (not (timed_in t.now (cells_in t.now a.from)) || not (timed_in t.now (cells_in t.now a.begins))) (trip_of t.now 8 (cells_in t.now k)) }
{
    let r = StopTimes::trip_at(t, TimeRow::new(line_at(t, k))).0;
    let open = is_open(t, a);
    tell(m, PAIRED, a.from != k, OPEN, open, r);
}

// The group before cell k is told of, if there is one and cell k isn't of it.
fn close(t: &[i32], k: usize, a: State, link: bool, m: &mut [u16])
    ensures { (s : List ℕ) → Closed (lines_in s t.now) (trip_of t.now 8) (cells_in t.now) k a.from a.begins link m.old m.new }
{
    if link {
        return;
    }
    if k <= 1 {
        return;
    }
    tell_trip(t, k - 1, a, m);
}

// The walk along the cells: each line is told of in its turn, each trip when its group has ended.
fn walk(s: &[u8], t: &[i32], n: usize, m: &mut [u16])
    requires ranged { Ranged s.now t.now n × (n < length m.old) }
    requires by_index { (b r : ℕ) → 9 ≤ b → b ≤ 12 → marked m.old b r ≡ false }
    ensures told { Told s.now t.now n m.new }
    ensures kept_marks { KeptMarks m.old m.new }
{
    let mut a = State::default();
    for k in 1..n + 1 {
        let next = turn(s, t, k, a);
        close(t, k, a, next.linked, m);
        tell(m, EQUAL, next.equal, FALLING, next.falls, line_at(t, k));
        a = next;
    }
    close(t, n + 1, a, false, m);
}

// Is line i + 1 of the trip of line i, by its record?
fn is_after(t: &[i32], i: usize) -> bool
    requires { i < 2 ^ 31 }
    ensures { result ≡ (ltb 0 i && eqb (trip_of t.now 8 i) (trip_of t.now 8 (i + 1))) }
{
    let before = StopTimes::trip_at(t, TimeRow::new(i)).0;
    let here = StopTimes::trip_at(t, TimeRow::new(i + 1)).0;
    (0 < i) & (before == here)
}

// Does line i + 1 go on with a trip, or begin one that is not met yet?
fn goes_on(t: &[i32], m: &[u16], i: usize) -> bool
    requires { i < 2 ^ 31 }
    ensures { result ≡ goes_by t.now m.now i }
{
    let r = StopTimes::trip_at(t, TimeRow::new(i + 1)).0;
    if (0 < r) & (r < m.len()) {
        if is_after(t, i) {
            let x = StopTimes::sequence_at(t, TimeRow::new(i));
            let y = StopTimes::sequence_at(t, TimeRow::new(i + 1));
            return x <= y;
        }
        return !marks::is_marked(m, MET, r);
    }
    false
}

// Do trips stand together and rise in the order of the file? No byte is read: where a trip has no record the answer is no.
fn is_steady(t: &[i32], n: usize, m: &mut [u16]) -> bool
    requires n_bound { n < 2 ^ 31 }
    requires by_index { (r : ℕ) → marked m.old met_mark r ≡ false }
    ensures by_index_2 { (s : List ℕ) → result ≡ true → Grouped (lines_in s t.now) (λ i. i) n }
    ensures by_index_3 { (s : List ℕ) → ((x : ℕ) → 0 < x → x ≤ n → (0 < trip_of t.now 8 x) × (trip_of t.now 8 x < length m.old)) → result ≡ steady (lines_in s t.now) n }
    ensures only_met { OnlyMet m.old m.new }
{
    for i in 0..n {
        if !goes_on(t, m, i) {
            return false;
        }
        let r = StopTimes::trip_at(t, TimeRow::new(i + 1)).0;
        marks::mark(m, MET, r);
    }
    true
}

// An order of n lines in which trips stand together and rise: the file's own where it will do, else one that is sorted.
fn rank(s: &[u8], t: &mut [i32], n: usize, m: &mut [u16])
    requires n_in_bounds { ((n + 1) * 8 ≤ length t.old) × (n < 2 ^ 31) }
    requires by_index { (r : ℕ) → marked m.old met_mark r ≡ false }
    ensures ranged { Ranged s.now t.new n }
    ensures kept_at { KeptAt 7 8 n t.old t.new }
    ensures only_met { OnlyMet m.old m.new }
{
    sorting::list_all(ORDER, t, n);
    if is_steady(t, n, m) {
        return;
    }
    sorting::sort(ORDER, s, t, n);
}

// Rules 28 and 29 of each of n waiting lines, and 30 and 31 of each trip that has a record, as marks.
pub fn mark_times(s: &[u8], t: &mut [i32], n: usize, m: &mut [u16])
    requires n_in_bounds { ((n + 1) * 8 ≤ length t.old) × ((n < 2 ^ 31) × (n < length m.old)) }
    requires untold { Untold m.old }
    ensures kept_at { KeptAt 7 8 n t.old t.new }
    ensures told { Told s.now t.old n m.new }
    ensures m_len_unchanged { length m.new ≡ length m.old }
    ensures by_index { (b r : ℕ) → b < 9 → marked m.new b r ≡ marked m.old b r }
{
    rank(s, t, n, m);
    walk(s, t, n, m);
}
