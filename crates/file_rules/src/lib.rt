#![tactic(auto)]
// The findings of each file, line by line, from tables and marks alone, handed out.
ghost use Rattle.std.specs.Prelude.{◌≡◌, List, ℕ, ◌+◌, ◌*◌, ◌^◌, ◌<◌, ◌≤◌, ℤ, take};
ghost use Rattle.meaning.specs.Tables.{Feed};
ghost use Rattle.meaning.specs.Rules.{bindings_of};
ghost use Rattle.listing.specs.Handing.{state, noting, SameList};
ghost use Rattle.file_rules.specs.Lines.{rule_numbers, rule_count, Judges, Ready};

use judging::MOST_RULES;
use listing::Listing;
use meaning::Profile;
use rows::{
    Calendar, Dates, Routes, ServiceRow, StopRow, StopTimes, Stops, Table, TimeRow, TripRow, Trips,
};

// What the line with index i of stops.txt breaks.
fn stop_line(t: &[i32], marks: &[u16], i: usize) -> [bool; MOST_RULES]
    requires { i < 2 ^ 31 }
    ensures { (w : Feed) (n : ℕ) (stops : List ℤ) → Ready 1 n w t.now stops marks.now → i < n → Judges 1 w i result }
{
    let row = StopRow::new(i + 1);
    let repeats = marks::is_marked(marks, Stops::FILE, row.0);
    let has_parent = marks::is_marked(marks, marks::PARENT, row.0);
    let parent = Stops::parent_at(t, row);
    judging::judge_stop(
        repeats,
        !has_parent,
        parent.0,
        Stops::kind_at(t, row),
        Stops::kind_at(t, parent),
    )
}

// What a line of routes.txt breaks.
fn route_line(marks: &[u16], i: usize) -> [bool; MOST_RULES]
    requires { i < 2 ^ 31 }
    ensures { (w : Feed) (n : ℕ) (t stops : List ℤ) → Ready 2 n w t stops marks.now → i < n → Judges 2 w i result }
{
    let row = i + 1;
    judging::judge_route(
        marks::is_marked(marks, Routes::FILE, row),
        marks::is_marked(marks, marks::NAMELESS, row),
    )
}

// What a line of calendar.txt breaks.
fn service_line(t: &[i32], marks: &[u16], i: usize) -> [bool; MOST_RULES]
    requires { i < 2 ^ 31 }
    ensures { (w : Feed) (n : ℕ) (stops : List ℤ) → Ready 3 n w t.now stops marks.now → i < n → Judges 3 w i result }
{
    let row = ServiceRow::new(i + 1);
    judging::judge_service(
        marks::is_marked(marks, Calendar::FILE, row.0),
        Calendar::start_at(t, row),
        Calendar::end_at(t, row),
    )
}

// What a line of trips.txt breaks.
fn trip_line(t: &[i32], marks: &[u16], i: usize) -> [bool; MOST_RULES]
    requires { i < 2 ^ 31 }
    ensures { (w : Feed) (n : ℕ) (stops : List ℤ) → Ready 4 n w t.now stops marks.now → i < n → Judges 4 w i result }
{
    let row = TripRow::new(i + 1);
    judging::judge_trip(
        marks::is_marked(marks, Trips::FILE, row.0),
        Trips::route_at(t, row).0,
        Trips::service_at(t, row).0,
        Trips::dated_at(t, row).0,
        marks::is_marked(marks, marks::PAIRED, row.0),
        marks::is_marked(marks, marks::OPEN, row.0),
    )
}

// What a line of stop_times.txt breaks; rule 23 asks the table of stops.
fn time_line(t: &[i32], stops: &[i32], marks: &[u16], i: usize) -> [bool; MOST_RULES]
    requires { i < 2 ^ 31 }
    ensures { (w : Feed) (n : ℕ) → Ready 5 n w t.now stops.now marks.now → i < n → Judges 5 w i result }
{
    let row = TimeRow::new(i + 1);
    let stop = StopTimes::stop_at(t, row);
    judging::judge_time(
        StopTimes::trip_at(t, row).0,
        stop.0,
        Stops::kind_at(stops, stop),
        StopTimes::arrival_at(t, row),
        StopTimes::departure_at(t, row),
        StopTimes::pickup_at(t, row),
        StopTimes::drop_off_at(t, row),
        StopTimes::timepoint_at(t, row),
        marks::is_marked(marks, marks::EQUAL, row.0),
        marks::is_marked(marks, marks::FALLING, row.0),
    )
}

// What a line of calendar_dates.txt breaks.
fn date_line(marks: &[u16], i: usize) -> [bool; MOST_RULES]
    requires { i < 2 ^ 31 }
    ensures { (w : Feed) (n : ℕ) (t stops : List ℤ) → Ready 6 n w t stops marks.now → i < n → Judges 6 w i result }
{
    judging::judge_date(marks::is_marked(marks, Dates::FILE, i + 1))
}

// The numbers of the rules of a line of stop_times.txt that are asked for.
fn times_asked(asked: Profile) -> &'static [u8]
    ensures { result.now ≡ take (rule_count asked 5) (rule_numbers 5) }
{
    match asked {
        Profile::Plain => &[21, 23, 26, 27, 28, 29],
        Profile::Boards => &[21, 23, 26, 27, 28, 29, 60, 61, 62],
    }
}

// The numbers of the rules of a line of a file that are asked for; by the file's number, as a walk along all six files gives it.
fn numbers_of(f: usize, asked: Profile) -> &'static [u8]
    requires { (1 ≤ f) × (f ≤ 6) }
    ensures { result.now ≡ take (rule_count asked f) (rule_numbers f) }
{
    match f {
        Stops::FILE => &[20, 21, 22],
        Routes::FILE => &[20, 25],
        Calendar::FILE => &[20, 24],
        Trips::FILE => &[20, 21, 30, 31],
        StopTimes::FILE => times_asked(asked),
        _ => &[20],
    }
}

// What a line of a file breaks; by the file's number, as a walk along all six files gives it.
fn judge_line(f: usize, t: &[i32], stops: &[i32], marks: &[u16], i: usize) -> [bool; MOST_RULES]
    requires { (1 ≤ f) × ((f ≤ 6) × (i < 2 ^ 31)) }
    ensures { (w : Feed) (n : ℕ) → Ready f n w t.now stops.now marks.now → i < n → Judges f w i result }
{
    match f {
        Stops::FILE => stop_line(t, marks, i),
        Routes::FILE => route_line(marks, i),
        Calendar::FILE => service_line(t, marks, i),
        Trips::FILE => trip_line(t, marks, i),
        StopTimes::FILE => time_line(t, stops, marks, i),
        _ => date_line(marks, i),
    }
}

// The findings of a file that has n records, by the rules asked for, in the order of its lines and rules; `stops` is the table of stops.
pub fn list_file(
    f: usize,
    n: usize,
    t: &[i32],
    stops: &[i32],
    marks: &[u16],
    list: &mut Listing,
    asked: Profile,
)
    requires { (1 ≤ f) × ((f ≤ 6) × ((n < 2 ^ 30) × (list.old.sink.total ≤ 2 ^ 61))) }
    ensures same_list { SameList list.old list.new }
    ensures result_after { (w : Feed) → Ready f n w t.now stops.now marks.now
        → state list.new.out.now list.new.sink ≡ noting list.old.from (bindings_of asked w f) (state list.old.out.now list.old.sink) }
    ensures total_bound { list.new.sink.total ≤ list.old.sink.total + rule_count Profile.Boards f * n }
{
    let numbers = numbers_of(f, asked);
    for i in 0..n {
        let broken = judge_line(f, t, stops, marks, i);
        noting::note_line(list, f, i + 2, numbers, broken);
    }
}
