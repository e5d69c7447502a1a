// The record that a field which waits names: a stop's parent, the first exception of a trip's service.
ghost use Rattle.std.specs.Prelude.{ℕ, ◌+◌, ◌*◌, ◌≤◌};
ghost use Rattle.meaning.specs.Bytes.{part, value};
ghost use Rattle.rows.specs.Cells.{bounds_at};
ghost use Rattle.seeking.specs.First.{First, names};
ghost use Rattle.memo.specs.Memo.{Ready};

use rows::{Pending, Row};
use seeking::Records;

// The first of the records a that the field waiting in a row names; row 0 where it names none.
pub fn named_by<T: Pending>(
    s: &[u8],
    t: &[i32],
    row: Row<T>,
    a: Records,
    memo: &mut [u32],
) -> Row<T::Named>
    requires { Ready a.file.now a.table.now T.Named.WIDTH a.count memo.old }
    ensures first { First (names a.entry.file.now a.entry.table.now T.Named.WIDTH (value (part s.now (bounds_at t.now (row.0 * T.WIDTH + 3))))) (a.entry.count + 1) result.0 }
    ensures upper_bound { result.0 ≤ a.entry.count }
    ensures ready { Ready a.entry.file.now a.entry.table.now T.Named.WIDTH a.entry.count memo.new }
{
    let p = row.waiting_at(t);
    resolve::find::<T::Named>(a, ordering::part_of(s, p.start, p.end), memo)
}
