#![tactic(auto)]
// The record of one located line, written into its table.
ghost use Rattle.std.specs.Prelude.{true, ◌≡◌, List, ℕ, ◌+◌, ◌*◌, ◌<◌, ◌≤◌, pos, length, get_or};
ghost use Rattle.meaning.specs.Columns.{row_of};
ghost use Rattle.meaning.specs.Tables.{Feed, width_of, record_of, refer, parent_station, trip_service, route_ids, service_ids, trip_ids, stop_ids, dated_ids};
ghost use Rattle.meaning.specs.Refusals.{max_bytes, max_lines};
ghost use Rattle.rows.specs.Cells.{put_at};
ghost use Rattle.memo.specs.Memo.{Ready};
ghost use Rattle.values.specs.Located.{field_in, Located};
ghost use Rattle.records.specs.Line.{line};
ghost use Rattle.records.specs.Refers.{Lists, Refers, Sought};
ghost use Rattle.records.specs.Waiting.{waits, last_of, named_of, waiting_of, written_of};

use meaning::Bounds;
use rows::{
    Calendar, DateRow, Dates, RouteRow, Routes, ServiceRow, StopRow, StopTimes, Stops, Table,
    TimeRow, TripRow, Trips,
};
use seeking::Records;
use values::LocatedLine;

// A located line of a file, and where it starts, counted from the file's first byte.
#[derive(Clone, Copy)]
pub struct FileLine<'a> {
    pub located: LocatedLine<'a>,
    pub start: usize,
    ghost lies: { start + length located.line.now ≤ max_bytes },
}

impl<'a> FileLine<'a> {
    // The place in the file of the field under known column k.
    pub fn field_place(&self, k: usize) -> Bounds
        requires { k < 10 }
        ensures start_value { (result.start ≡ self.now.start + (field_in self.now.located.cells k).start)
            × (result.end ≡ self.now.start + (field_in self.now.located.cells k).end) }
        ensures start_le_max_bytes { (result.start ≤ max_bytes) × (result.end ≤ max_bytes) }
    {
        let Bounds { start, end } = self.located.cells[k];
        Bounds {
            start: self.start + start,
            end: self.start + end,
        }
    }
}

// A stop, whose parent is settled.
fn put_stop(l: &FileLine, t: &mut [i32], row: StopRow)
    requires { row.0 * 7 + 7 ≤ length t.old }
    ensures { (w : Feed) (ps : List ℕ) → Located l.now.located.line.now ps l.now.located.cells
        → get_or t.old (row.0 * 7 + 6) (pos 0) ≡ pos (refer (parent_station (row_of ps l.now.located.line.now)) (stop_ids w))
        → t.new ≡ put_at t.old (row.0 * 7) (record_of 1 w ps (line l.now.start l.now.located.line.now)) }
{
    let id = l.field_place(0);
    let latitude = l.located.latitude(2);
    let longitude = l.located.longitude(3);
    let kind = l.located.choice_or_zero(4, 4);
    let placed = l.located.place_mark();
    Stops::put(t, row, id, latitude, longitude, kind, placed);
}

// A route.
fn put_route(l: &FileLine, t: &mut [i32], row: RouteRow)
    requires { row.0 * 3 + 3 ≤ length t.old }
    ensures { (w : Feed) (ps : List ℕ) → Located l.now.located.line.now ps l.now.located.cells
        → t.new ≡ put_at t.old (row.0 * 3) (record_of 2 w ps (line l.now.start l.now.located.line.now)) }
{
    let id = l.field_place(0);
    let kind = l.located.route_type(1);
    Routes::put(t, row, id, kind);
}

// A service.
fn put_service(l: &FileLine, t: &mut [i32], row: ServiceRow)
    requires { row.0 * 5 + 5 ≤ length t.old }
    ensures { (w : Feed) (ps : List ℕ) → Located l.now.located.line.now ps l.now.located.cells
        → t.new ≡ put_at t.old (row.0 * 5) (record_of 3 w ps (line l.now.start l.now.located.line.now)) }
{
    let id = l.field_place(0);
    let days = l.located.packed_days();
    let start = l.located.date(8);
    let end = l.located.date(9);
    Calendar::put(t, row, id, days, start, end);
}

// A trip, whose service's first exception is settled. A memo goes beside its records: these are lent to be read, and by many at once, a memo is written.
fn put_trip(
    l: &FileLine,
    t: &mut [i32],
    row: TripRow,
    routes: Records,
    routes_memo: &mut [u32],
    services: Records,
    services_memo: &mut [u32],
)
    requires row_in_bounds { row.0 * 8 + 8 ≤ length t.old }
    requires count_le_max_lines { (routes.count ≤ max_lines) × (services.count ≤ max_lines) }
    requires ready { Ready routes.file.now routes.table.now 3 routes.count routes_memo.old
        × Ready services.file.now services.table.now 5 services.count services_memo.old }
    ensures t_after { (w : Feed) (ps : List ℕ) → Located l.now.located.line.now ps l.now.located.cells
        → Lists routes.entry.file.now routes.entry.table.now 3 routes.entry.count (route_ids w)
        → Lists services.entry.file.now services.entry.table.now 5 services.entry.count (service_ids w)
        → get_or t.old (row.0 * 8 + 7) (pos 0) ≡ pos (refer (trip_service (row_of ps l.now.located.line.now)) (dated_ids w))
        → t.new ≡ put_at t.old (row.0 * 8) (record_of 4 w ps (line l.now.start l.now.located.line.now)) }
    ensures ready_2 { Ready routes.entry.file.now routes.entry.table.now 3 routes.entry.count routes_memo.new
        × Ready services.entry.file.now services.entry.table.now 5 services.entry.count services_memo.new }
{
    let route = resolve::find::<Routes>(routes, l.located.raw(0), routes_memo);
    let service = resolve::find::<Calendar>(services, l.located.raw(1), services_memo);
    let id = l.field_place(2);
    let direction = l.located.choice_or_minus(3, 1);
    let wheelchair = l.located.choice_or_zero(4, 2);
    let bikes = l.located.choice_or_zero(5, 2);
    Trips::put(t, row, id, route, service, direction, wheelchair, bikes);
}

// A stop time, which waits. It shares with a trip how a reference is found (`resolve::find`); its columns are others.
fn put_time(
    l: &FileLine,
    t: &mut [i32],
    row: TimeRow,
    trips: Records,
    trips_memo: &mut [u32],
    stops: Records,
    stops_memo: &mut [u32],
)
    requires row_in_bounds { row.0 * 8 + 8 ≤ length t.old }
    requires count_le_max_lines { (trips.count ≤ max_lines) × (stops.count ≤ max_lines) }
    requires ready { Ready trips.file.now trips.table.now 8 trips.count trips_memo.old
        × Ready stops.file.now stops.table.now 7 stops.count stops_memo.old }
    ensures t_after { (w : Feed) (ps : List ℕ) → Located l.now.located.line.now ps l.now.located.cells
        → Lists trips.entry.file.now trips.entry.table.now 8 trips.entry.count (trip_ids w)
        → Lists stops.entry.file.now stops.entry.table.now 7 stops.entry.count (stop_ids w)
        → t.new ≡ put_at t.old (row.0 * 8) (waiting_of w ps (line l.now.start l.now.located.line.now)) }
    ensures ready_2 { Ready trips.entry.file.now trips.entry.table.now 8 trips.entry.count trips_memo.new
        × Ready stops.entry.file.now stops.entry.table.now 7 stops.entry.count stops_memo.new }
{
    let trip = resolve::find::<Trips>(trips, l.located.raw(0), trips_memo);
    let stop = resolve::find::<Stops>(stops, l.located.raw(3), stops_memo);
    let sequence = l.located.sequence(4);
    let arrival = l.located.clock(1);
    let departure = l.located.clock(2);
    let pickup = l.located.choice_or_zero(5, 3);
    let drop_off = l.located.choice_or_zero(6, 3);
    let timepoint = l.located.choice_or_minus(7, 1);
    let place = l.field_place(0);
    StopTimes::put_waiting(
        t, row, trip, stop, sequence, arrival, departure, pickup, drop_off, timepoint, place,
    );
}

// An exception: a service on a date.
fn put_date(l: &FileLine, t: &mut [i32], row: DateRow)
    requires { row.0 * 4 + 4 ≤ length t.old }
    ensures { (w : Feed) (ps : List ℕ) → Located l.now.located.line.now ps l.now.located.cells
        → t.new ≡ put_at t.old (row.0 * 4) (record_of 6 w ps (line l.now.start l.now.located.line.now)) }
{
    let id = l.field_place(0);
    let date = l.located.date(1);
    let kind = l.located.exception(2);
    Dates::put(t, row, id, date, kind);
}

// By the file's number, as the walk and the definition `written_of` have it: what the second walk writes for a line of file f, with known columns in the columns `places`; a and b are the records that it refers to.
pub fn put_record(
    f: usize,
    l: &[u8],
    at: usize,
    places: [usize; 10],
    t: &mut [i32],
    r: usize,
    a: Records,
    a_memo: &mut [u32],
    b: Records,
    b_memo: &mut [u32],
)
    requires le_f { (1 ≤ f) × ((f ≤ 6) × (at + length l.now ≤ max_bytes)) }
    requires f_in_bounds { r * width_of f + width_of f ≤ length t.old }
    requires count_le_max_lines { (a.count ≤ max_lines) × (b.count ≤ max_lines) }
    requires sought { Sought f a a_memo.old b b_memo.old }
    ensures by_index { (w : Feed) (ps : List ℕ) → ((k : ℕ) → get_or places k 0 ≡ get_or ps k 0)
        → Refers f w a.entry b.entry
        → (waits f ≡ true → get_or t.old (last_of f r) (pos 0) ≡ pos (named_of f w (row_of ps l.now)))
        → t.new ≡ put_at t.old (r * width_of f) (written_of f w ps (line at l.now)) }
    ensures sought_2 { Sought f a.entry a_memo.new b.entry b_memo.new }
{
    let line = FileLine {
        located: LocatedLine {
            line: l,
            cells: columns::locate(l, places),
        },
        start: at,
    };
    match f {
        Stops::FILE => put_stop(&line, t, StopRow::new(r)),
        Routes::FILE => put_route(&line, t, RouteRow::new(r)),
        Calendar::FILE => put_service(&line, t, ServiceRow::new(r)),
        Dates::FILE => put_date(&line, t, DateRow::new(r)),
        Trips::FILE => put_trip(&line, t, TripRow::new(r), a, a_memo, b, b_memo),
        _ => put_time(&line, t, TimeRow::new(r), a, a_memo, b, b_memo),
    }
}
