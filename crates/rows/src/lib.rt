#![tactic(auto)]
// A type per file that knows its width and number, a row type per file, and the records that they place.
ghost use Rattle.std.specs.Prelude.{◌≡◌, ◌∷◌, [], ℕ, ◌+◌, ◌*◌, ◌-◌, ◌^◌, ◌<◌, ◌≤◌, pos, length, get_or, set, ltb, IsTrue, refl};
ghost use Rattle.meaning.specs.Tables.{width_of, id_column};
ghost use Rattle.rows.specs.Cells.{put_at, nat_at, bounds_at, time_at};
ghost use Rattle.rows.specs.Waiting.{unmark, packed, settled_at};

use meaning::{Bounds, Time};
use std::marker::PhantomData;

pub mod cells; // cells.rt: whole records written and single numbers read, for any width
pub mod times; // times.rt: what stored times say

// A file's table.
pub trait Table: Copy {
    // How many numbers a record has.
    const WIDTH: usize;

    ghost WIDTH: { ℕ };

    // The file's number.
    const FILE: usize;

    ghost has_cells: { IsTrue (ltb 0 WIDTH) };
}

// A table in which a field of each record waits till the record that it names is known, one of another table's.
pub trait Pending: Table {
    type Named: Table;
}

// The number of a record in a table.
#[derive(Clone, Copy)]
pub struct Row<T>(pub usize, PhantomData<T>);

pub type StopRow = Row<Stops>;

pub type RouteRow = Row<Routes>;

pub type ServiceRow = Row<Calendar>;

pub type TripRow = Row<Trips>;

pub type TimeRow = Row<StopTimes>;

// An exception: a service on a date.
pub type DateRow = Row<Dates>;

impl<T: Table> Row<T> {
    pub fn new(number: usize) -> Row<T>
        ensures { result.0 ≡ number }
    {
        Row(number, PhantomData)
    }

    // Where the record starts.
    pub fn place(self) -> usize
        requires { self.0 * T.WIDTH < 2 ^ 64 }
        ensures { result ≡ self.0 * T.WIDTH }
    {
        self.0 * T::WIDTH
    }

    // Where the record's id stands in the file.
    pub fn id_at(self, t: &[i32]) -> Bounds
        ensures { result ≡ bounds_at t.now (self.0 * T.WIDTH) }
    {
        cells::bounds_of(t, self.0, T::WIDTH)
    }

    // Number k of the record, as an unsigned one.
    fn nat_at(self, t: &[i32], k: usize) -> usize
        requires { k < 8 }
        ensures { result ≡ nat_at t.now (self.0 * T.WIDTH + k) }
    {
        cells::nat_of(t, self.0, T::WIDTH, k)
    }
}

impl<T: Pending> Row<T> {
    // Where the field lies that waits in the record: numbers 3 and 4.
    pub fn waiting_at(self, t: &[i32]) -> Bounds
        ensures { result ≡ bounds_at t.now (self.0 * T.WIDTH + 3) }
    {
        cells::waiting_of(t, self.0, T::WIDTH)
    }

    // The record that the field names, in the last number.
    pub fn settle(self, t: &mut [i32], named: Row<T::Named>)
        requires { (self.0 * T.WIDTH + T.WIDTH ≤ length t.old) × (named.0 < 2 ^ 31) }
        ensures { t.new ≡ set t.old (self.0 * T.WIDTH + (T.WIDTH - 1)) (pos named.0) }
    {
        cells::settle(t, self.0, T::WIDTH, named.0);
    }
}

// stops.txt
#[derive(Clone, Copy)]
pub struct Stops;

impl Table for Stops {
    const WIDTH: usize = 7;

    ghost WIDTH = { 7 };

    const FILE: usize = 1;

    ghost has_cells = { refl };
}

impl Pending for Stops {
    type Named = Stops;
}

// What a record holds differs from file to file, as in `record_of`: each has writers and readers of its own, and what all share is Row's.
impl Stops {
    // The record of a line, whose parent is settled in number 6; 1 takes its place there where the line has a place, else 0.
    pub fn put(
        t: &mut [i32],
        row: StopRow,
        id: Bounds,
        latitude: i32,
        longitude: i32,
        kind: u32,
        placed: u32,
    )
        requires row_in_bounds { row.0 * 7 + 7 ≤ length t.old }
        requires start_bound { (id.start < 2 ^ 31) × ((id.end < 2 ^ 31) × ((kind < 2 ^ 31) × (placed < 2 ^ 31))) }
        ensures { t.new ≡ put_at t.old (row.0 * 7)
            (pos id.start ∷ pos id.end ∷ latitude ∷ longitude ∷ pos kind ∷ get_or t.old (row.0 * 7 + 6) (pos 0) ∷ pos placed ∷ []) }
    {
        let r = [
            id.start as i32,
            id.end as i32,
            latitude,
            longitude,
            kind as i32,
            cells::number_of(t, row.0, Stops::WIDTH, 6),
            placed as i32,
        ];
        cells::store(t, row.place(), &r);
    }

    pub fn kind_at(t: &[i32], row: StopRow) -> usize
        ensures { result ≡ nat_at t.now (row.0 * 7 + 4) }
    {
        row.nat_at(t, 4)
    }

    pub fn parent_at(t: &[i32], row: StopRow) -> StopRow
        ensures { result.0 ≡ nat_at t.now (row.0 * 7 + 5) }
    {
        Row::new(row.nat_at(t, 5))
    }
}

// routes.txt
#[derive(Clone, Copy)]
pub struct Routes;

impl Table for Routes {
    const WIDTH: usize = 3;

    ghost WIDTH = { 3 };

    const FILE: usize = 2;

    ghost has_cells = { refl };
}

impl Routes {
    // The record of a line.
    pub fn put(t: &mut [i32], row: RouteRow, id: Bounds, kind: u32)
        requires row_in_bounds { row.0 * 3 + 3 ≤ length t.old }
        requires start_bound { (id.start < 2 ^ 31) × ((id.end < 2 ^ 31) × (kind < 2 ^ 31)) }
        ensures { t.new ≡ put_at t.old (row.0 * 3) (pos id.start ∷ pos id.end ∷ pos kind ∷ []) }
    {
        let r = [id.start as i32, id.end as i32, kind as i32];
        cells::store(t, row.place(), &r);
    }

    pub fn kind_at(t: &[i32], row: RouteRow) -> usize
        ensures { result ≡ nat_at t.now (row.0 * 3 + 2) }
    {
        row.nat_at(t, 2)
    }
}

// calendar.txt
#[derive(Clone, Copy)]
pub struct Calendar;

impl Table for Calendar {
    const WIDTH: usize = 5;

    ghost WIDTH = { 5 };

    const FILE: usize = 3;

    ghost has_cells = { refl };
}

impl Calendar {
    // The record of a line.
    pub fn put(t: &mut [i32], row: ServiceRow, id: Bounds, days: u32, start: u32, end: u32)
        requires row_in_bounds { row.0 * 5 + 5 ≤ length t.old }
        requires start_bound { (id.start < 2 ^ 31) × ((id.end < 2 ^ 31) × ((days < 2 ^ 31) × ((start < 2 ^ 31) × (end < 2 ^ 31)))) }
        ensures { t.new ≡ put_at t.old (row.0 * 5)
            (pos id.start ∷ pos id.end ∷ pos days ∷ pos start ∷ pos end ∷ []) }
    {
        let r = [
            id.start as i32,
            id.end as i32,
            days as i32,
            start as i32,
            end as i32,
        ];
        cells::store(t, row.place(), &r);
    }

    pub fn start_at(t: &[i32], row: ServiceRow) -> usize
        ensures { result ≡ nat_at t.now (row.0 * 5 + 3) }
    {
        row.nat_at(t, 3)
    }

    pub fn end_at(t: &[i32], row: ServiceRow) -> usize
        ensures { result ≡ nat_at t.now (row.0 * 5 + 4) }
    {
        row.nat_at(t, 4)
    }
}

// trips.txt
#[derive(Clone, Copy)]
pub struct Trips;

impl Table for Trips {
    const WIDTH: usize = 8;

    ghost WIDTH = { 8 };

    const FILE: usize = 4;

    ghost has_cells = { refl };
}

impl Pending for Trips {
    type Named = Dates;
}

impl Trips {
    // The record of a line, but for the first file 6 record of its service, number 7, which is settled before.
    pub fn put(
        t: &mut [i32],
        row: TripRow,
        id: Bounds,
        route: RouteRow,
        service: ServiceRow,
        direction: i32,
        wheelchair: u32,
        bikes: u32,
    )
        requires row_in_bounds { row.0 * 8 + 7 ≤ length t.old }
        requires start_bound { (id.start < 2 ^ 31) × ((id.end < 2 ^ 31) × ((route.0 < 2 ^ 31) × ((service.0 < 2 ^ 31)
            × ((wheelchair < 2 ^ 31) × (bikes < 2 ^ 31))))) }
        ensures { t.new ≡ put_at t.old (row.0 * 8)
            (pos id.start ∷ pos id.end ∷ pos route.0 ∷ pos service.0 ∷ direction ∷ pos wheelchair ∷ pos bikes ∷ []) }
    {
        let r = [
            id.start as i32,
            id.end as i32,
            route.0 as i32,
            service.0 as i32,
            direction,
            wheelchair as i32,
            bikes as i32,
        ];
        cells::store(t, row.place(), &r);
    }

    pub fn route_at(t: &[i32], row: TripRow) -> RouteRow
        ensures { result.0 ≡ nat_at t.now (row.0 * 8 + 2) }
    {
        Row::new(row.nat_at(t, 2))
    }

    pub fn service_at(t: &[i32], row: TripRow) -> ServiceRow
        ensures { result.0 ≡ nat_at t.now (row.0 * 8 + 3) }
    {
        Row::new(row.nat_at(t, 3))
    }

    pub fn dated_at(t: &[i32], row: TripRow) -> DateRow
        ensures { result.0 ≡ nat_at t.now (row.0 * 8 + 7) }
    {
        Row::new(row.nat_at(t, 7))
    }
}

// stop_times.txt
#[derive(Clone, Copy)]
pub struct StopTimes;

impl Table for StopTimes {
    const WIDTH: usize = 8;

    ghost WIDTH = { 8 };

    const FILE: usize = 5;

    ghost has_cells = { refl };
}

impl StopTimes {
    // The record of a line that waits for its order: number 1 is packed, 5 and 6 are where its trip_id lies, 7 is for the order.
    pub fn put_waiting(
        t: &mut [i32],
        row: TimeRow,
        trip: TripRow,
        stop: StopRow,
        sequence: u32,
        arrival: i32,
        departure: i32,
        pickup: u32,
        drop_off: u32,
        timepoint: i32,
        place: Bounds,
    )
        requires row_in_bounds { row.0 * 8 + 8 ≤ length t.old }
        requires trip_bound { (trip.0 < 2 ^ 31) × ((stop.0 < 2 ^ 25) × ((sequence < 2 ^ 31) × ((pickup < 4) × ((drop_off < 4)
            × ((place.start < 2 ^ 31) × (place.end < 2 ^ 31)))))) }
        ensures { (m : ℕ) → m < 4 → timepoint ≡ unmark m → t.new ≡ put_at t.old (row.0 * 8)
            (pos trip.0 ∷ pos (packed stop.0 pickup drop_off m) ∷ pos sequence ∷ arrival ∷ departure ∷ pos place.start ∷ pos place.end ∷ pos 0 ∷ []) }
    {
        let r = [
            trip.0 as i32,
            packed(stop.0, pickup, drop_off, mark_of(timepoint)),
            sequence as i32,
            arrival,
            departure,
            place.start as i32,
            place.end as i32,
            0,
        ];
        cells::store(t, row.place(), &r);
    }

    // The last form of a record that waits.
    pub fn settle(t: &mut [i32], row: TimeRow)
        requires { row.0 * 8 + 8 ≤ length t.old }
        ensures { t.new ≡ put_at t.old (row.0 * 8) (settled_at t.old (row.0 * 8)) }
    {
        let n = num::nat(cells::number_of(t, row.0, StopTimes::WIDTH, 1));
        let r = [
            cells::number_of(t, row.0, StopTimes::WIDTH, 0),
            (n / 64) as i32,
            cells::number_of(t, row.0, StopTimes::WIDTH, 2),
            cells::number_of(t, row.0, StopTimes::WIDTH, 3),
            cells::number_of(t, row.0, StopTimes::WIDTH, 4),
            (n / 16 % 4) as i32,
            (n / 4 % 4) as i32,
            unmarked(n % 4),
        ];
        cells::store(t, row.place(), &r);
    }

    pub fn trip_at(t: &[i32], row: TimeRow) -> TripRow
        ensures { result.0 ≡ nat_at t.now (row.0 * 8) }
    {
        Row::new(row.nat_at(t, 0))
    }

    pub fn stop_at(t: &[i32], row: TimeRow) -> StopRow
        ensures { result.0 ≡ nat_at t.now (row.0 * 8 + 1) }
    {
        Row::new(row.nat_at(t, 1))
    }

    pub fn sequence_at(t: &[i32], row: TimeRow) -> usize
        ensures { result ≡ nat_at t.now (row.0 * 8 + 2) }
    {
        row.nat_at(t, 2)
    }

    pub fn arrival_at(t: &[i32], row: TimeRow) -> Time
        ensures { result ≡ time_at t.now (row.0 * 8 + 3) }
    {
        cells::time_of(t, row.0, StopTimes::WIDTH, 3)
    }

    pub fn departure_at(t: &[i32], row: TimeRow) -> Time
        ensures { result ≡ time_at t.now (row.0 * 8 + 4) }
    {
        cells::time_of(t, row.0, StopTimes::WIDTH, 4)
    }

    pub fn pickup_at(t: &[i32], row: TimeRow) -> usize
        ensures { result ≡ nat_at t.now (row.0 * 8 + 5) }
    {
        row.nat_at(t, 5)
    }

    pub fn drop_off_at(t: &[i32], row: TimeRow) -> usize
        ensures { result ≡ nat_at t.now (row.0 * 8 + 6) }
    {
        row.nat_at(t, 6)
    }

    // 0 or 1; a number past both where it is empty.
    pub fn timepoint_at(t: &[i32], row: TimeRow) -> usize
        ensures { result ≡ nat_at t.now (row.0 * 8 + 7) }
    {
        row.nat_at(t, 7)
    }
}

// calendar_dates.txt
#[derive(Clone, Copy)]
pub struct Dates;

impl Table for Dates {
    const WIDTH: usize = 4;

    ghost WIDTH = { 4 };

    const FILE: usize = 6;

    ghost has_cells = { refl };
}

impl Dates {
    // The record of a line.
    pub fn put(t: &mut [i32], row: DateRow, id: Bounds, date: u32, kind: u32)
        requires row_in_bounds { row.0 * 4 + 4 ≤ length t.old }
        requires start_bound { (id.start < 2 ^ 31) × ((id.end < 2 ^ 31) × ((date < 2 ^ 31) × (kind < 2 ^ 31))) }
        ensures { t.new ≡ put_at t.old (row.0 * 4)
            (pos id.start ∷ pos id.end ∷ pos date ∷ pos kind ∷ []) }
    {
        let r = [id.start as i32, id.end as i32, date as i32, kind as i32];
        cells::store(t, row.place(), &r);
    }

    pub fn date_at(t: &[i32], row: DateRow) -> usize
        ensures { result ≡ nat_at t.now (row.0 * 4 + 2) }
    {
        row.nat_at(t, 2)
    }

    pub fn kind_at(t: &[i32], row: DateRow) -> usize
        ensures { result ≡ nat_at t.now (row.0 * 4 + 3) }
    {
        row.nat_at(t, 3)
    }
}

// The mark of a timepoint, in two bits.
fn mark_of(timepoint: i32) -> usize
    ensures { ((m : ℕ) → m < 4 → timepoint ≡ unmark m → result ≡ m) × (result < 4) }
{
    if timepoint < 0 {
        return 0;
    }
    (num::nat(timepoint) + 1) % 4
}

// The timepoint that a mark stands for.
fn unmarked(mark: usize) -> i32
    requires { mark < 4 }
    ensures { result ≡ unmark mark }
{
    if mark == 0 {
        return -1;
    }
    (mark - 1) as i32
}

// Four numbers in one, the last three in two bits each.
fn packed(stop: usize, pickup: u32, drop_off: u32, mark: usize) -> i32
    requires { (stop < 2 ^ 25) × ((pickup < 4) × ((drop_off < 4) × (mark < 4))) }
    ensures { result ≡ pos (packed stop pickup drop_off mark) }
{
    (((stop * 4 + pickup as usize) * 4 + drop_off as usize) * 4 + mark) as i32
}

// The width of a file's table, by the file's number, as the definition `width_of` and walks over all files have it; 0 for a number that is no file's.
pub fn width_of(file: usize) -> usize
    ensures { result ≡ width_of file }
{
    match file {
        Stops::FILE => Stops::WIDTH,
        Routes::FILE => Routes::WIDTH,
        Calendar::FILE => Calendar::WIDTH,
        Trips::FILE => Trips::WIDTH,
        StopTimes::FILE => StopTimes::WIDTH,
        Dates::FILE => Dates::WIDTH,
        _ => 0,
    }
}

// Where in the schema a file's own id stands.
pub fn id_column(f: usize) -> usize
    ensures { (result ≡ id_column f) × (result < 10) }
{
    if f == Trips::FILE {
        return 2;
    }
    0
}
