// Writes and reads records and findings at the edges, and compares them with values found by hand.
#![tactic(auto)]

ghost use Rattle.std.specs.Prelude.{◌≤◌};

use casework::START;
use listing::{Listing, Sink};
use meaning::{Bounds, Place, Time};
use rows::{
    Calendar, DateRow, Dates, RouteRow, Routes, ServiceRow, StopRow, StopTimes, Stops, Table,
    TimeRow, TripRow, Trips,
};
use std::io;

// One line: the case, and whether it came out as expected.
fn told(rt: &impl Print, name: &str, good: bool) -> io::Result<()> {
    let word = if good { "good" } else { "DIFFERS" };
    println!(rt; "{name} {word}")
}

// The places of a second record's id and of its parent's field wait; then its parent, which goes to its number, and negative coordinates.
// The first record and what follows stay.
fn stops(rt: &impl Print) -> io::Result<()> {
    let mut t = [7i32; 15];
    let id = Bounds { start: 36, end: 37 };
    let field = Bounds { start: 41, end: 44 };
    rows::cells::put_places(&mut t, 1, Stops::WIDTH, id, 0, field);
    told(
        rt,
        "places",
        t == [7, 7, 7, 7, 7, 7, 7, 36, 37, 0, 41, 44, 0, 0, 7],
    )?;
    let place = StopRow::new(1).waiting_at(&t);
    told(rt, "waiting", place.start == 41 && place.end == 44)?;
    StopRow::new(1).settle(&mut t, StopRow::new(3));
    told(
        rt,
        "settled",
        t == [7, 7, 7, 7, 7, 7, 7, 36, 37, 0, 41, 44, 0, 3, 7],
    )?;
    Stops::put(&mut t, StopRow::new(1), id, -338674999, -1800000000, 2, 1);
    let want = [
        7,
        7,
        7,
        7,
        7,
        7,
        7,
        36,
        37,
        -338674999,
        -1800000000,
        2,
        3,
        1,
        7,
    ];
    told(rt, "stops", t == want)
}

// Record 0 and a record of the largest number.
fn routes(rt: &impl Print) -> io::Result<()> {
    let mut t = [7i32; 7];
    let id = Bounds {
        start: 39,
        end: 2147483647,
    };
    rows::cells::zero_record(&mut t, Routes::WIDTH);
    Routes::put(&mut t, RouteRow::new(1), id, 12);
    told(rt, "routes", t == [0, 0, 0, 39, 2147483647, 12, 7])
}

// The first and the last date.
fn calendar(rt: &impl Print) -> io::Result<()> {
    let mut t = [7i32; 6];
    let id = Bounds { start: 0, end: 0 };
    Calendar::put(&mut t, ServiceRow::new(0), id, 127, 10101, 99991231);
    told(rt, "calendar", t == [0, 0, 127, 10101, 99991231, 7])
}

// No direction. The place of the service's field waits, with zeros behind it; the eighth number is settled, and stays when the others are written.
fn trips(rt: &impl Print) -> io::Result<()> {
    let mut t = [7i32; 9];
    let id = Bounds { start: 5, end: 6 };
    let field = Bounds { start: 7, end: 10 };
    rows::cells::put_places(&mut t, 0, Trips::WIDTH, id, 0, field);
    told(rt, "a service waits", t == [5, 6, 0, 7, 10, 0, 0, 0, 7])?;
    let place = TripRow::new(0).waiting_at(&t);
    told(rt, "its place", place.start == 7 && place.end == 10)?;
    TripRow::new(0).settle(&mut t, DateRow::new(65535));
    Trips::put(
        &mut t,
        TripRow::new(0),
        id,
        RouteRow::new(0),
        ServiceRow::new(65535),
        -1,
        2,
        1,
    );
    told(rt, "trips", t == [5, 6, 0, 65535, -1, 2, 1, 65535, 7])?;
    told(
        rt,
        "a trip's dates",
        Trips::dated_at(&t, TripRow::new(0)).0 == 65535,
    )
}

// A service on the last date: its key while it is ordered, then its record. Number 3 is the order's cell until then.
fn dates(rt: &impl Print) -> io::Result<()> {
    let mut t = [7i32; 9];
    let id = Bounds { start: 31, end: 34 };
    let none = Bounds { start: 0, end: 0 };
    rows::cells::put_places(&mut t, 1, Dates::WIDTH, id, 99991231, none);
    told(
        rt,
        "a date waits",
        t == [7, 7, 7, 7, 31, 34, 99991231, 0, 7],
    )?;
    Dates::put(&mut t, DateRow::new(1), id, 99991231, 2);
    told(
        rt,
        "calendar_dates",
        t == [7, 7, 7, 7, 31, 34, 99991231, 2, 7],
    )?;
    let date = Dates::date_at(&t, DateRow::new(1)) == 99991231;
    told(
        rt,
        "date and type",
        date && Dates::kind_at(&t, DateRow::new(1)) == 2,
    )
}

// A record that waits, with the largest stop and trip_id, no trip and no timepoint; settled, whatever stands in the order's cell. The record before and what follows stay.
fn waiting_times(rt: &impl Print) -> io::Result<()> {
    let mut t = [7i32; 17];
    let field = Bounds {
        start: 41,
        end: 2147483647,
    };
    StopTimes::put_waiting(
        &mut t,
        TimeRow::new(1),
        TripRow::new(0),
        StopRow::new(33554431),
        999999999,
        -1,
        359999,
        3,
        1,
        -1,
        field,
    );
    let waits = [
        7, 7, 7, 7, 7, 7, 7, 7, 0, 2147483636, 999999999, -1, 359999, 41, 2147483647, 0, 7,
    ];
    told(rt, "stop_times wait", t == waits)?;
    t[15] = 9;
    StopTimes::settle(&mut t, TimeRow::new(1));
    let settled = [
        7, 7, 7, 7, 7, 7, 7, 7, 0, 33554431, 999999999, -1, 359999, 3, 1, -1, 7,
    ];
    told(rt, "stop_times settled", t == settled)
}

// Timepoints 0 and 1, in two records.
fn timepoints(rt: &impl Print) -> io::Result<()> {
    let mut t = [7i32; 16];
    let field = Bounds { start: 0, end: 1 };
    StopTimes::put_waiting(
        &mut t,
        TimeRow::new(0),
        TripRow::new(1),
        StopRow::new(2),
        4,
        28800,
        -1,
        1,
        2,
        1,
        field,
    );
    StopTimes::put_waiting(
        &mut t,
        TimeRow::new(1),
        TripRow::new(2147483647),
        StopRow::new(0),
        0,
        0,
        0,
        0,
        3,
        0,
        field,
    );
    let waits = [
        1, 154, 4, 28800, -1, 0, 1, 0, 2147483647, 13, 0, 0, 0, 0, 1, 0,
    ];
    told(rt, "timepoints wait", t == waits)?;
    StopTimes::settle(&mut t, TimeRow::new(0));
    StopTimes::settle(&mut t, TimeRow::new(1));
    let settled = [1, 2, 4, 28800, -1, 1, 2, 1, 2147483647, 0, 0, 0, 0, 0, 3, 0];
    told(rt, "timepoints settled", t == settled)
}

// A negative number is one past every file and every record.
fn negative(rt: &impl Print) -> io::Result<()> {
    let t = [36, -1, -338674999, 1800000000, 2, -2147483648, 1];
    let id = StopRow::new(0).id_at(&t);
    told(rt, "id", id.start == 36 && id.end == 4294967295)?;
    told(
        rt,
        "parent",
        Stops::parent_at(&t, StopRow::new(0)).0 == 4294967295,
    )
}

// What lies outside the table is 0, whatever the row; a record that is cut off is read as far as it goes.
fn outside(rt: &impl Print) -> io::Result<()> {
    let t = [0, 0, 0, 0, 0, 0, 0, 50, 51, 9];
    let id = StopRow::new(1).id_at(&t);
    told(
        rt,
        "cut",
        id.end == 51 && Stops::kind_at(&t, StopRow::new(1)) == 0,
    )?;
    told(
        rt,
        "far",
        Stops::kind_at(&t, StopRow::new(18446744073709551615)) == 0,
    )
}

// Times: 0 is midnight, -1 is none.
fn times(rt: &impl Print) -> io::Result<()> {
    let t = [9, 8, 999999999, -1, 0, 0, 0, 1];
    let none = matches!(StopTimes::arrival_at(&t, TimeRow::new(0)), Time::Untimed);
    let midnight = matches!(
        StopTimes::departure_at(&t, TimeRow::new(0)),
        Time::Seconds(0)
    );
    told(rt, "times", none && midnight)?;
    let sequence = StopTimes::sequence_at(&t, TimeRow::new(0)) == 999999999;
    told(
        rt,
        "sequence",
        sequence && StopTimes::timepoint_at(&t, TimeRow::new(0)) == 1,
    )
}

// Rows of the two kinds.
fn references(rt: &impl Print) -> io::Result<()> {
    let t = [0, 0, 0, 0, 0, 0, 0, 0, 4, 5];
    let trip = StopTimes::trip_at(&t, TimeRow::new(1)).0 == 4;
    told(
        rt,
        "references",
        trip && StopTimes::stop_at(&t, TimeRow::new(1)).0 == 5,
    )
}

// Three findings among five claims.
fn noted(out: &mut [i32], from: Place) -> Sink {
    let sink = Sink {
        written: 0,
        total: 0,
    };
    let mut list = Listing { out, from, sink };
    list.note(true, 1, 2, 20);
    list.note(false, 1, 2, 21);
    list.note(true, 4, 3, 21);
    list.note(true, 4, 3, 30);
    list.note(false, 5, 2, 20);
    list.sink
}

// A call with a list as lent, from a starting place: what it leaves in the list, and how many are written.
fn page<const N: usize>(
    rt: &impl Print,
    name: &str,
    p: Place,
    want: [i32; N],
    written: usize,
) -> io::Result<()>
    requires { N ≤ 13 }
{
    let mut t = [9i32; N];
    let k = noted(&mut t, p);
    told(rt, name, t == want && k.written == written && k.total == 3)
}

// Lists too short for a finding.
fn no_room(rt: &impl Print) -> io::Result<()> {
    page(rt, "none in 0", START, [], 0)?;
    page(rt, "none in 1", START, [9], 0)?;
    page(rt, "none in 2", START, [9, 9], 0)
}

// Lists for one, two and more, with a rest that stays.
fn rooms(rt: &impl Print) -> io::Result<()> {
    page(rt, "one in 4", START, [1, 2, 20, 9], 1)?;
    page(rt, "two in 8", START, [1, 2, 20, 4, 3, 21, 9, 9], 2)?;
    let all = [1, 2, 20, 4, 3, 21, 4, 3, 30, 9, 9, 9, 9];
    page(rt, "all in 13", START, all, 3)
}

// Calls from starting places, into lists for two: before the findings, at one, between two, at the last and beyond it.
const STARTS: [(&str, i32, i32, i32, [i32; 7], usize); 6] = [
    ("negative", -1, 99, 99, [1, 2, 20, 4, 3, 21, 9], 2),
    ("at the first", 1, 2, 20, [4, 3, 21, 4, 3, 30, 9], 2),
    ("lowest line", 4, i32::MIN, 99, [4, 3, 21, 4, 3, 30, 9], 2),
    ("between rules", 4, 3, 22, [4, 3, 30, 9, 9, 9, 9], 1),
    ("at the last", 4, 3, 30, [9; 7], 0),
    ("beyond", i32::MAX, -1, -1, [9; 7], 0),
];

fn starts(rt: &impl Print) -> io::Result<()> {
    for (name, file, line, rule, want, written) in STARTS {
        page(rt, name, Place { file, line, rule }, want, written)?;
    }
    Ok(())
}

// All tables.
fn tables(rt: &impl Print) -> io::Result<()> {
    stops(rt)?;
    routes(rt)?;
    calendar(rt)?;
    trips(rt)?;
    waiting_times(rt)?;
    timepoints(rt)?;
    dates(rt)
}

// All that is read back.
fn cells(rt: &impl Print) -> io::Result<()> {
    negative(rt)?;
    outside(rt)?;
    times(rt)?;
    references(rt)
}

fn main(rt: HostRuntime) -> io::Result<()> {
    tables(&rt)?;
    cells(&rt)?;
    no_room(&rt)?;
    rooms(&rt)?;
    starts(&rt)
}
