#![tactic(auto)]
// The check for C and Rust, every refusal at once, the index beside a feed, and one code asked at the counter: the exported functions.
ghost use Rattle.std.specs.Prelude.{◌≡◌, ◌∷◌, [], ◌+◌, ◌*◌, ◌≤◌, ◌<◌, pos, length, Ok, Err};
ghost use Rattle.meaning.specs.Outcome.{outcome};
ghost use Rattle.meaning.specs.Refusals.{max_bytes, max_lines};
ghost use Rattle.tusuchiy.specs.Small.{Small};
ghost use Rattle.num.specs.Signs.{nat_of};
ghost use Rattle.faults.specs.Told.{told as faultsTold};
ghost use Rattle.indexes.specs.Index.{checked, wrote, written};
ghost use Rattle.indexes.specs.Small.{Small as SmallIndex};
ghost use Rattle.lookups.specs.Lookup.{lookup};
ghost use Rattle.tusuchiy_c.specs.Asked.{profile_of};
ghost use Rattle.tusuchiy_c.specs.Told.{Told};
ghost use Rattle.tusuchiy_c.specs.ToldCheck.{ToldCheck};
ghost use Rattle.tusuchiy_c.specs.ToldFaults.{ToldFaults};
ghost use Rattle.tusuchiy_c.specs.ToldIndex.{ToldIndex};
ghost use Rattle.tusuchiy_c.specs.ToldLookup.{ToldLookup};

use indexes::IndexRefusal;
use lent::Tables;
use listing::Sink;
use lookups::Refused;
use meaning::{Answer, Place, Profile, Refusal};

// The answer: verdict 0 accepted, 1 findings, 2 refused; the refusal's number, file, line and column; findings written and in all.
#[repr(C)]
#[derive(Clone, Copy, Default)]
pub struct TusuchiyAnswer {
    pub verdict: i32,
    pub number: i32,
    pub file: i32,
    pub line: i32,
    pub column: i32,
    pub written: i32,
    pub total: i32,
}

// A refusal, for C.
fn refused(r: Refusal) -> TusuchiyAnswer
    requires { Small (Answer.Refused r) }
    ensures { Told (Answer.Refused r) result }
{
    TusuchiyAnswer {
        verdict: 2,
        number: r.number as i32,
        file: r.file as i32,
        line: r.line as i32,
        column: r.column as i32,
        ..TusuchiyAnswer::default()
    }
}

// Findings, for C.
fn found(written: usize, total: usize) -> TusuchiyAnswer
    requires { Small (Answer.Findings written total) }
    ensures { Told (Answer.Findings written total) result }
{
    TusuchiyAnswer {
        verdict: 1,
        written: written as i32,
        total: total as i32,
        ..TusuchiyAnswer::default()
    }
}

// An answer, for C. No `From`: it can't ask that the numbers are small (`Small`).
fn told(a: Answer) -> TusuchiyAnswer
    requires { Small a }
    ensures { Told a result }
{
    match a {
        Answer::Accepted => TusuchiyAnswer::default(),
        Answer::Findings { written, total } => found(written, total),
        Answer::Refused(r) => refused(r),
    }
}

// The starting place that three numbers name.
fn place_of(file: i32, line: i32, rule: i32) -> Place
    ensures { result ≡ record { file = file; line = line; rule = rule } }
{
    Place { file, line, rule }
}

// The profile that a number asks for: 0 none, any other that for boards.
fn profile_of(number: i32) -> Profile
    ensures { result ≡ profile_of number }
{
    match number {
        0 => Profile::Plain,
        _ => Profile::Boards,
    }
}

// The check over six files, six lent tables and a lent list, from a starting place, for boards where `profile` isn't 0. An empty slice of file 3 or 6
// means: not supplied.
#[unsafe(no_mangle)]
pub extern "C" fn tusuchiy_check<'a>(
    stops: &'a [u8],
    routes: &'a [u8],
    calendar: &'a [u8],
    trips: &'a [u8],
    stop_times: &'a [u8],
    calendar_dates: &'a [u8],
    stops_table: &mut [i32],
    routes_table: &mut [i32],
    calendar_table: &mut [i32],
    trips_table: &mut [i32],
    stop_times_table: &mut [i32],
    calendar_dates_table: &mut [i32],
    findings: &mut [i32],
    after_file: i32,
    after_line: i32,
    after_rule: i32,
    profile: i32,
) -> TusuchiyAnswer
    ensures { ToldCheck (outcome
        (stops.now ∷ routes.now ∷ calendar.now ∷ trips.now ∷ stop_times.now ∷ calendar_dates.now ∷ [])
        (stops_table.old ∷ routes_table.old ∷ calendar_table.old ∷ trips_table.old ∷ stop_times_table.old ∷ calendar_dates_table.old ∷ [])
        findings.old (record { file = after_file; line = after_line; rule = after_rule }) (profile_of profile)) result
        (stops_table.new ∷ routes_table.new ∷ calendar_table.new ∷ trips_table.new ∷ stop_times_table.new ∷ calendar_dates_table.new ∷ [])
        findings.new }
{
    let from = place_of(after_file, after_line, after_rule);
    let asked = profile_of(profile);
    let files = [stops, routes, calendar, trips, stop_times, calendar_dates];
    let mut tables = Tables {
        stops: stops_table,
        routes: routes_table,
        calendar: calendar_table,
        trips: trips_table,
        stop_times: stop_times_table,
        dates: calendar_dates_table,
    };
    told(tusuchiy::check(files, &mut tables, findings, from, asked))
}

// The answer of a call for faults: how many were written, and how many there are.
#[repr(C)]
#[derive(Clone, Copy)]
pub struct TusuchiyFaultsAnswer {
    pub written: i32,
    pub total: i32,
}

// How far a list of faults has come, for C.
fn told_faults(k: Sink) -> TusuchiyFaultsAnswer
    requires { (k.written ≤ k.total) × (k.total ≤ 6 * (max_bytes + 4)) }
    ensures { (result.written ≡ pos k.written) × (result.total ≡ pos k.total) }
{
    TusuchiyFaultsAnswer {
        written: k.written as i32,
        total: k.total as i32,
    }
}

// Every refusal of six files at once, four numbers each into a lent list: file, line, number, column; those after a starting place.
#[unsafe(no_mangle)]
pub extern "C" fn tusuchiy_faults<'a>(
    stops: &'a [u8],
    routes: &'a [u8],
    calendar: &'a [u8],
    trips: &'a [u8],
    stop_times: &'a [u8],
    calendar_dates: &'a [u8],
    faults: &mut [i32],
    after_file: i32,
    after_line: i32,
    after_number: i32,
) -> TusuchiyFaultsAnswer
    ensures { ToldFaults (faultsTold
        (stops.now ∷ routes.now ∷ calendar.now ∷ trips.now ∷ stop_times.now ∷ calendar_dates.now ∷ [])
        (record { file = after_file; line = after_line; rule = after_number }) faults.old) result faults.new }
{
    let from = place_of(after_file, after_line, after_number);
    let files = [stops, routes, calendar, trips, stop_times, calendar_dates];
    told_faults(tusuchiy::faults(files, faults, from))
}

// The answer about an index: number 0 written or accepted, 1 to 14 the file's own refusal with its file, line and column, or 40 to 46; the index's length.
#[repr(C)]
#[derive(Clone, Copy)]
pub struct TusuchiyIndexAnswer {
    pub number: i32,
    pub file: i32,
    pub line: i32,
    pub column: i32,
    pub length: i32,
}

// The file's own refusal, for C.
fn unread(r: Refusal) -> TusuchiyIndexAnswer
    requires { SmallIndex (Err (IndexRefusal.Unread r)) }
    ensures { ToldIndex (Err (IndexRefusal.Unread r)) result }
{
    TusuchiyIndexAnswer {
        number: r.number as i32,
        file: r.file as i32,
        line: r.line as i32,
        column: r.column as i32,
        length: 0,
    }
}

// A number or a length alone, for C.
fn bare(number: usize, length: usize) -> TusuchiyIndexAnswer
    requires { (number ≤ 46) × (length ≤ 10 + 4 * max_lines) }
    ensures { (result.number ≡ pos number) × (result.file ≡ pos 0) × (result.line ≡ pos 0) × (result.column ≡ pos 0) × (result.length ≡ pos length) }
{
    TusuchiyIndexAnswer {
        number: number as i32,
        file: 0,
        line: 0,
        column: 0,
        length: length as i32,
    }
}

// Why there is no index, for C.
fn told_refusal(why: IndexRefusal) -> TusuchiyIndexAnswer
    requires { SmallIndex (Err why) }
    ensures { ToldIndex (Err why) result }
{
    match why {
        IndexRefusal::Unread(r) => unread(r),
        IndexRefusal::Barred(n) => bare(n, 0),
    }
}

// An answer about an index, for C.
fn told_index(a: Result<usize, IndexRefusal>) -> TusuchiyIndexAnswer
    requires { SmallIndex a }
    ensures { ToldIndex a result }
{
    match a {
        Ok(n) => bare(0, n),
        Err(why) => told_refusal(why),
    }
}

// The index of a file, written at the start of a lent buffer; any file number but 1 to 4 is answered by 42.
#[unsafe(no_mangle)]
pub extern "C" fn tusuchiy_index_write(
    file_number: i32,
    file: &[u8],
    buffer: &mut [u8],
) -> TusuchiyIndexAnswer
    ensures told_index { ToldIndex (wrote (nat_of file_number) file.now (length buffer.old)) result }
    ensures buffer_after { buffer.new ≡ written (nat_of file_number) file.now buffer.old }
{
    told_index(index_write::write_index(num::nat(file_number), file, buffer))
}

// Is an index the one of its file? Any file number but 1 to 4 is answered by 42.
#[unsafe(no_mangle)]
pub extern "C" fn tusuchiy_index_check(
    file_number: i32,
    file: &[u8],
    index: &[u8],
) -> TusuchiyIndexAnswer
    ensures { ToldIndex (checked (nat_of file_number) file.now index.now) result }
{
    told_index(index_check::check_index(num::nat(file_number), file, index))
}

// The answer of a lookup: number 0, or 50; the record with that id, else 0.
#[repr(C)]
#[derive(Clone, Copy)]
pub struct TusuchiyLookupAnswer {
    pub number: i32,
    pub row: i32,
}

// A number and a record, for C.
fn looked_up(number: usize, row: usize) -> TusuchiyLookupAnswer
    requires { (number ≤ 50) × (row < 2147483648) }
    ensures { (result.number ≡ pos number) × (result.row ≡ pos row) }
{
    TusuchiyLookupAnswer {
        number: number as i32,
        row: row as i32,
    }
}

// The answer that finds a record, for C, whose numbers end below 2,147,483,648.
fn told_record(r: usize) -> TusuchiyLookupAnswer
    ensures { ToldLookup (Ok r) result }
{
    if r < 2147483648 {
        return looked_up(0, r);
    }
    looked_up(50, 0)
}

// The answer of a lookup, for C.
fn told_lookup(a: Result<usize, Refused>) -> TusuchiyLookupAnswer
    ensures { ToldLookup a result }
{
    match a {
        Ok(r) => told_record(r),
        Err(Refused) => looked_up(50, 0),
    }
}

// The record of stops.txt with a code as its id, or 0, from its table and its index.
#[unsafe(no_mangle)]
pub extern "C" fn tusuchiy_lookup(
    stops: &[u8],
    stops_table: &[i32],
    index: &[u8],
    code: &[u8],
) -> TusuchiyLookupAnswer
    ensures { ToldLookup (lookup stops.now stops_table.now index.now code.now) result }
{
    told_lookup(lookup::look_up(stops, stops_table, index, code))
}
