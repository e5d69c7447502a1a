// The lines of stop_times: they wait in their table, are told of in trip order, and are settled.
ghost use Rattle.std.specs.Prelude.{◌≡◌, false, List, ℕ, ◌+◌, ◌*◌, ◌^◌, ◌<◌, ◌≤◌, ℤ, length};
ghost use Rattle.meaning.specs.Bytes.{count_lf};
ghost use Rattle.meaning.specs.Columns.{rows_of};
ghost use Rattle.meaning.specs.Tables.{Feed, filled};
ghost use Rattle.meaning.specs.Refusals.{max_lines};
ghost use Rattle.ordering.specs.Cells.{KeptAt};
ghost use Rattle.marks.specs.Marks.{marked};
ghost use Rattle.marks.specs.Noted.{TripsNoted};
ghost use Rattle.records.specs.Refers.{Indexed, Refers};
ghost use Rattle.tables.specs.Fill.{Room};
ghost use Rattle.tables.specs.Walk.{written};

use rows::{StopTimes, Table, TimeRow};
use seeking::Records;

// Records 1 to n, which wait, in their last form.
fn settle_times(t: &mut [i32], n: usize)
    requires { ((n + 1) * 8 ≤ length t.old) × (n < 2 ^ 31) }
    ensures { (w : Feed) (s : List ℕ) (lent : List ℤ) → n + 1 ≡ count_lf s → count_lf s * 8 ≤ length lent
        → KeptAt 7 8 n (written 5 w s lent) t.old
        → t.new ≡ filled 5 w s lent }
{
    for r in 1..n + 1 {
        StopTimes::settle(t, TimeRow::new(r));
    }
}

// The records of stop_times, and the marks that trip order tells.
pub fn fill_times(s: &[u8], t: &mut [i32], trips: Records, stops: Records, m: &mut [u16])
    requires room { Room 5 s.now t.old × ((trips.count ≤ max_lines) × (stops.count ≤ max_lines)) }
    requires indexed { Indexed 5 trips stops }
    requires s_in_bounds { (count_lf s.now ≤ length m.old) × (trips.count < length m.old) }
    requires by_index { (k i : ℕ) → 9 ≤ k → marked m.old k i ≡ false }
    ensures t_after { (w : Feed) → w.stop_times ≡ rows_of 5 s.now
        → Refers 5 w trips.entry stops.entry
        → (t.new ≡ filled 5 w s.now t.old) × TripsNoted w m.new }
    ensures by_index_2 { (k i : ℕ) → k < 9 → marked m.new k i ≡ marked m.old k i }
{
    let n = crate::fill(StopTimes::FILE, s, t, trips, stops);
    trip_walk::mark_times(s, t, n, m);
    settle_times(t, n);
}
