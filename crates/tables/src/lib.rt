#![tactic(auto)]
// The six lent tables, filled from the six files.
ghost use Rattle.std.specs.Prelude.{◌≡◌, false, List, [], ◌∷◌, map, ℕ, ◌+◌, ◌≤◌, ℤ, take};
ghost use Rattle.meaning.specs.Lists.{flat, laid};
ghost use Rattle.meaning.specs.Bytes.{count_lf};
ghost use Rattle.meaning.specs.Tables.{Feed, file_of, feed_of, route_ids, service_ids, filled};
ghost use Rattle.meaning.specs.Refusals.{max_lines};
ghost use Rattle.meaning.specs.Outcome.{filled_from};
ghost use Rattle.marks.specs.Marks.{marked, Blank};
ghost use Rattle.marks.specs.Noted.{Noted, TripsNoted};
ghost use Rattle.ordering.specs.Ids.{Placed, Arranged};
ghost use Rattle.records.specs.Refers.{Lists, Indexed, Refers, Sought};
ghost use Rattle.columns.specs.Heading.{Heading};
ghost use Rattle.lent.specs.Lent.{held, Same};
ghost use Rattle.tables.specs.Fill.{Room, Fits, CoversAll};
ghost use Rattle.tables.specs.Walk.{written_all, written, Ordered, OrderedIf, IndexedIf, ListsIf, Settled};

use lent::Tables;
use rows::{Calendar, Dates, Routes, Stops, Table, Trips};
use seeking::Records;

mod placing; // placing.rt: the first walk along files 1 to 4 and 6, and the order of their ids
mod waiting; // waiting.rt: the record that a field which waits names
mod parents; // parents.rt: the parents of stops, once every stop's id is in the table
mod services; // services.rt: the first exceptions of trips' services, once those of file 6 are in the table
mod times; // times.rt: the lines of stop_times, which wait in their table while they are put in trip order

// The second walk from `at` on, where the line of record 1 starts; how many records there are.
fn fill_lines(
    f: usize,
    s: &[u8],
    at: usize,
    known: [usize; 10],
    t: &mut [i32],
    a: Records,
    a_memo: &mut [u32],
    b: Records,
    b_memo: &mut [u32],
) -> usize
    requires le_f { (1 ≤ f) × ((f ≤ 6) × Room f s.now t.old) }
    requires heading { Heading f s.now known at }
    requires count_le_max_lines { (a.count ≤ max_lines) × (b.count ≤ max_lines) }
    requires sought { Sought f a a_memo.old b b_memo.old }
    ensures t_after { (w : Feed) (lent : List ℤ)
        → Refers f w a.entry b.entry
        → Settled f w s.now t.old
        → t.old ≡ laid (flat (take 1 (written_all f w s.now))) lent
        → t.new ≡ written f w s.now lent }
    ensures result_value { result + 1 ≡ count_lf s.now }
{
    let mut here = at;
    let mut r = 1;
    while let Some((line, next)) = text::next_line(s, here) {
        records::put_record(
            f,
            &s[line.start..line.end],
            line.start,
            known,
            t,
            r,
            a,
            a_memo,
            b,
            b_memo,
        );
        here = next;
        r += 1;
    }
    r - 1
}

// The records of a file as the second walk writes them, record 0 first; references go to the records a and b. How many there are.
fn fill(f: usize, s: &[u8], t: &mut [i32], a: Records, b: Records) -> usize
    requires le_f { (1 ≤ f) × ((f ≤ 6) × Room f s.now t.old) }
    requires count_le_max_lines { (a.count ≤ max_lines) × (b.count ≤ max_lines) }
    requires indexed { Indexed f a b }
    ensures t_after { (w : Feed)
        → Refers f w a.entry b.entry
        → Settled f w s.now t.old
        → t.new ≡ written f w s.now t.old }
    ensures result_value { result + 1 ≡ count_lf s.now }
{
    let h = columns::read_header(f, s);
    rows::cells::zero_record(t, rows::width_of(f));
    let known = h.known;
    let next = h.next;
    let mut a_memo = memo::blank();
    let mut b_memo = memo::blank();
    fill_lines(f, s, next, known, t, a, &mut a_memo, b, &mut b_memo)
}

// A table that refers to no other, of a file that may be not supplied.
fn fill_alone(f: usize, s: &[u8], t: &mut [i32])
    requires le_f { ((1 ≤ f) × (f ≤ 6)) × ((f ≡ 4 → ⊥) × (f ≡ 5 → ⊥)) }
    requires fits { Fits f s.now t.old }
    ensures { (w : Feed) → Settled f w s.now t.old → t.new ≡ filled f w s.now t.old }
{
    if s.len() == 0 {
        return;
    }
    let blank = [0i32; 1];
    let none = Records {
        file: s,
        table: &blank,
        count: 0,
    };
    fill(f, s, t, none, none);
}

// The table of trips; calendar.txt may be not supplied.
fn fill_trips(s: &[u8], t: &mut [i32], routes: Records, services: Records)
    requires room { Room 4 s.now t.old × ((routes.count ≤ max_lines) × (services.count ≤ max_lines)) }
    requires placed { Placed routes.file.now routes.table.now 3 routes.count × Arranged routes.file.now 3 routes.count routes.table.now }
    requires indexed_if { IndexedIf services.file.now services.table.now 5 services.count }
    ensures { (w : Feed)
        → Lists routes.entry.file.now routes.entry.table.now 3 routes.entry.count (route_ids w)
        → ListsIf services.entry.file.now services.entry.table.now 5 services.entry.count (service_ids w)
        → Settled 4 w s.now t.old
        → t.new ≡ filled 4 w s.now t.old }
{
    if services.file.len() == 0 {
        let blank = [0i32; 5];
        let none = Records {
            file: services.file,
            table: &blank,
            count: 0,
        };
        fill(Trips::FILE, s, t, routes, none);
        return;
    }
    fill(Trips::FILE, s, t, routes, services);
}

// How many records files 1 to 4 and 6 have.
#[derive(Clone, Copy)]
struct Counts {
    stops: usize,
    routes: usize,
    services: usize,
    trips: usize,
    dates: usize,
}

// The ids of files 1 to 4 and 6 in their tables, and the records of each in their order; what only text and order tell is marked.
fn order_all(files: [&[u8]; 6], tables: &mut Tables, marks: &mut [u16]) -> Counts
    requires room { Room 1 (file_of (map (λ x. x.now) files) 1) tables.old.stops.now }
    requires room_2 { Room 2 (file_of (map (λ x. x.now) files) 2) tables.old.routes.now }
    requires fits { Fits 3 (file_of (map (λ x. x.now) files) 3) tables.old.calendar.now }
    requires room_3 { Room 4 (file_of (map (λ x. x.now) files) 4) tables.old.trips.now }
    requires fits_2 { Fits 6 (file_of (map (λ x. x.now) files) 6) tables.old.dates.now }
    requires blank { Blank marks.old × CoversAll marks.old (map (λ x. x.now) files) }
    ensures same { Same tables.old tables.new }
    ensures stop_times_after { tables.new.stop_times.now ≡ tables.old.stop_times.now }
    ensures ordered { Ordered 1 (file_of (map (λ x. x.now) files.entry) 1) result.stops tables.old.stops.now tables.new.stops.now }
    ensures ordered_2 { Ordered 2 (file_of (map (λ x. x.now) files.entry) 2) result.routes tables.old.routes.now tables.new.routes.now }
    ensures ordered_if { OrderedIf 3 (file_of (map (λ x. x.now) files.entry) 3) result.services tables.old.calendar.now tables.new.calendar.now }
    ensures ordered_3 { Ordered 4 (file_of (map (λ x. x.now) files.entry) 4) result.trips tables.old.trips.now tables.new.trips.now }
    ensures ordered_if_2 { OrderedIf 6 (file_of (map (λ x. x.now) files.entry) 6) result.dates tables.old.dates.now tables.new.dates.now }
    ensures noted { Noted (feed_of (map (λ x. x.now) files.entry)) marks.new }
    ensures by_index { (k i : ℕ) → 9 ≤ k → marked marks.new k i ≡ false }
{
    Counts {
        stops: placing::order_file(Stops::FILE, files[0], tables.stops, marks),
        routes: placing::order_file(Routes::FILE, files[1], tables.routes, marks),
        services: placing::order_services(files[2], tables.calendar, marks),
        trips: placing::order_file(Trips::FILE, files[3], tables.trips, marks),
        dates: placing::order_dates(files[5], tables.dates, marks),
    }
}

// The six tables of six files: ids and their orders first, by which references are found, then every record; and the marks.
pub fn fill_all(files: [&[u8]; 6], tables: &mut Tables, marks: &mut [u16])
    requires room { Room 1 (file_of (map (λ x. x.now) files) 1) tables.old.stops.now }
    requires room_2 { Room 2 (file_of (map (λ x. x.now) files) 2) tables.old.routes.now }
    requires fits { Fits 3 (file_of (map (λ x. x.now) files) 3) tables.old.calendar.now }
    requires room_3 { Room 4 (file_of (map (λ x. x.now) files) 4) tables.old.trips.now }
    requires room_4 { Room 5 (file_of (map (λ x. x.now) files) 5) tables.old.stop_times.now }
    requires fits_2 { Fits 6 (file_of (map (λ x. x.now) files) 6) tables.old.dates.now }
    requires blank { Blank marks.old × CoversAll marks.old (map (λ x. x.now) files) }
    ensures same { Same tables.old tables.new }
    ensures tables_after { held tables.new ≡ filled_from 1 (feed_of (map (λ x. x.now) files.entry)) (map (λ x. x.now) files.entry) (held tables.old) }
    ensures noted { Noted (feed_of (map (λ x. x.now) files.entry)) marks.new × TripsNoted (feed_of (map (λ x. x.now) files.entry)) marks.new }
{
    let n = order_all(files, tables, marks);
    let [stops, routes, calendar, trips, stop_times, dates] = files;
    // each by itself: Rattle doesn't cover yet a call that is lent two fields of one struct
    let stops_table = &mut *tables.stops;
    let routes_table = &mut *tables.routes;
    let calendar_table = &mut *tables.calendar;
    let trips_table = &mut *tables.trips;
    let stop_times_table = &mut *tables.stop_times;
    let dates_table = &mut *tables.dates;
    parents::settle_parents(stops, n.stops, stops_table);
    let exceptions = Records {
        file: dates,
        table: dates_table,
        count: n.dates,
    };
    services::settle_services(trips, n.trips, trips_table, exceptions);
    let trip_records = Records {
        file: trips,
        table: trips_table,
        count: n.trips,
    };
    let stop_records = Records {
        file: stops,
        table: stops_table,
        count: n.stops,
    };
    times::fill_times(
        stop_times,
        stop_times_table,
        trip_records,
        stop_records,
        marks,
    );
    let route_records = Records {
        file: routes,
        table: routes_table,
        count: n.routes,
    };
    let service_records = Records {
        file: calendar,
        table: calendar_table,
        count: n.services,
    };
    fill_trips(trips, trips_table, route_records, service_records);
    fill_alone(Dates::FILE, dates, dates_table);
    fill_alone(Calendar::FILE, calendar, calendar_table);
    fill_alone(Routes::FILE, routes, routes_table);
    fill_alone(Stops::FILE, stops, stops_table);
}
