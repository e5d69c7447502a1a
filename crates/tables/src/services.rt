// The first exception of each trip's service, once the services of calendar_dates.txt are in its table and in their order.
ghost use Rattle.std.specs.Prelude.{List, ℕ, ◌+◌, ◌*◌, ◌≤◌, length};
ghost use Rattle.meaning.specs.Refusals.{max_lines};
ghost use Rattle.ordering.specs.Cells.{KeptAt};
ghost use Rattle.ordering.specs.Ids.{Placed, Arranged};
ghost use Rattle.memo.specs.Memo.{Ready};
ghost use Rattle.records.specs.Refers.{Lists};
ghost use Rattle.tables.specs.Walk.{IndexedIf, ListsIf, Named};

use crate::waiting;
use rows::TripRow;
use seeking::Records;

// Number 7 of each trip's record, behind a memo.
fn settle_with(s: &[u8], n: usize, t: &mut [i32], dates: Records, memo: &mut [u32])
    requires ready { Ready dates.file.now dates.table.now 4 dates.count memo.old }
    requires n_in_bounds { ((n + 1) * 8 ≤ length t.old) × ((n ≤ max_lines) × (dates.count ≤ max_lines)) }
    ensures kept_at { KeptAt 7 8 n t.old t.new }
    ensures by_index { (ids : List (List ℕ)) → Lists dates.entry.file.now dates.entry.table.now 4 dates.entry.count ids
        → Named 8 s.now (n + 1) ids t.old t.new }
{
    for r in 1..n + 1 {
        let row = TripRow::new(r);
        let dated = waiting::named_by(s, t, row, dates, memo);
        row.settle(t, dated);
    }
}

// Number 7 of each trip's record.
fn settle_among(s: &[u8], n: usize, t: &mut [i32], dates: Records)
    requires placed { Placed dates.file.now dates.table.now 4 dates.count × Arranged dates.file.now 4 dates.count dates.table.now }
    requires n_in_bounds { ((n + 1) * 8 ≤ length t.old) × ((n ≤ max_lines) × (dates.count ≤ max_lines)) }
    ensures kept_at { KeptAt 7 8 n t.old t.new }
    ensures by_index { (ids : List (List ℕ)) → Lists dates.entry.file.now dates.entry.table.now 4 dates.entry.count ids
        → Named 8 s.now (n + 1) ids t.old t.new }
{
    let mut memo = memo::blank();
    settle_with(s, n, t, dates, &mut memo);
}

// The same where calendar_dates.txt may be not supplied: no service is then found.
pub fn settle_services(s: &[u8], n: usize, t: &mut [i32], dates: Records)
    requires indexed_if { IndexedIf dates.file.now dates.table.now 4 dates.count }
    requires n_in_bounds { ((n + 1) * 8 ≤ length t.old) × ((n ≤ max_lines) × (dates.count ≤ max_lines)) }
    ensures kept_at { KeptAt 7 8 n t.old t.new }
    ensures by_index { (ids : List (List ℕ)) → ListsIf dates.entry.file.now dates.entry.table.now 4 dates.entry.count ids
        → Named 8 s.now (n + 1) ids t.old t.new }
{
    if dates.file.len() == 0 {
        let blank = [0i32; 4];
        let none = Records {
            file: dates.file,
            table: &blank,
            count: 0,
        };
        settle_among(s, n, t, none);
        return;
    }
    settle_among(s, n, t, dates);
}
