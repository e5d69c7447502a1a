#![tactic(auto)]
// The first record with an id, found by halving a sorted order.
ghost use Rattle.std.specs.Prelude.{◌≡◌, ◌+◌, ◌^◌, ◌<◌, ◌≤◌};
ghost use Rattle.meaning.specs.Bytes.{value};
ghost use Rattle.ranking.specs.Ranks.{before};
ghost use Rattle.ordering.specs.Cells.{cell, Room, Kept};
ghost use Rattle.ordering.specs.Ids.{id_of, no_later, Sorted, Placed, Arranged};
ghost use Rattle.ordering.specs.declared.By.TheVariants.{Id};
ghost use Rattle.seeking.specs.First.{First, id_is};
ghost use Rattle.seeking.specs.Seek.{Lower};

use ordering::{By, Order};

// The records of a file: its bytes, its table, and how many there are.
#[derive(Clone, Copy)]
pub struct Records<'a> {
    pub file: &'a [u8],
    pub table: &'a [i32],
    pub count: usize,
}

// The number of a record in which its file's order by id has a cell.
pub const CELL: usize = 2;

// The order by id of records of w numbers.
pub fn by_id(w: usize) -> Order
    ensures { result ≡ record { by = Id; width = w; cell = 2 } }
{
    Order {
        by: By::Id,
        width: w,
        cell: CELL,
    }
}

// The order of n records by id, whatever their cells held.
pub fn arrange(s: &[u8], t: &mut [i32], w: usize, n: usize)
    requires { Room w n t.old × (n < 2 ^ 31) }
    ensures arranged { Arranged s.now w n t.new }
    ensures kept { Kept w n t.old t.new }
{
    sorting::arrange(by_id(w), s, t, n);
}

// Does the id in cell i come before the value of a raw field?
fn is_before(a: Records, w: usize, i: usize, raw: &[u8]) -> bool
    requires { Room w i a.table.now }
    ensures { result ≡ before (id_of a.entry.file.now a.entry.table.now w (cell a.entry.table.now w i)) (value raw.now) }
{
    let r = by_id(w).get(a.table, i);
    ranking::compare_values(ordering::raw_id(a.file, a.table, w, r), raw).is_lt()
}

// The first cell whose id doesn't come before the value of a raw field; the count + 1 where there is none.
fn lower(a: Records, w: usize, raw: &[u8]) -> usize
    requires room { Room w a.count a.table.now }
    requires sorted { Sorted (no_later (id_of a.file.now a.table.now w)) (cell a.table.now w) a.count }
    ensures { Lower (id_of a.entry.file.now a.entry.table.now w) (cell a.entry.table.now w) a.entry.count (value raw.now) result }
{
    // by hand: cells are numbers of the records, so there is no slice for the library's partition_point
    let mut lo = 1;
    let mut hi = a.count + 1;
    while lo < hi {
        let mid = lo + (hi - lo) / 2;
        if is_before(a, w, mid, raw) {
            lo = mid + 1;
        } else {
            hi = mid;
        }
    }
    lo
}

// The first of the records that has the id of a raw field, 0 where there is none.
pub fn first_record(a: Records, w: usize, raw: &[u8]) -> usize
    requires { Placed a.file.now a.table.now w a.count × Arranged a.file.now w a.count a.table.now }
    ensures first { First (id_is a.entry.file.now a.entry.table.now w (value raw.now)) (a.entry.count + 1) result }
    ensures upper_bound { result ≤ a.entry.count }
{
    let at = lower(a, w, raw);
    if a.count < at {
        return 0;
    }
    let r = by_id(w).get(a.table, at);
    if ranking::same_values(ordering::raw_id(a.file, a.table, w, r), raw) {
        return r;
    }
    0
}
