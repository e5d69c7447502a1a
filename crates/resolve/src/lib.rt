#![tactic(auto)]
// The record that a reference names.
ghost use Rattle.std.specs.Prelude.{◌+◌, ◌≤◌};
ghost use Rattle.meaning.specs.Bytes.{value};
ghost use Rattle.seeking.specs.First.{First, names};
ghost use Rattle.memo.specs.Memo.{Ready};

use rows::{Row, Table};
use seeking::Records;

// The first of the records, of width numbers each, that has the id of a raw field, 0 where there is none or the field is empty.
pub fn named_record(a: Records, width: usize, raw: &[u8], memo: &mut [u32]) -> usize
    requires { Ready a.file.now a.table.now width a.count memo.old }
    ensures first { First (names a.entry.file.now a.entry.table.now width (value raw.now)) (a.entry.count + 1) result }
    ensures upper_bound { result ≤ a.entry.count }
    ensures ready { Ready a.entry.file.now a.entry.table.now width a.entry.count memo.new }
{
    if text::is_empty_value(raw) {
        return 0;
    }
    memo::first_record(a, width, raw, memo)
}

// The same of a table's records, by its own width: row 0 where there is none or the field is empty.
pub fn find<T: Table>(a: Records, raw: &[u8], memo: &mut [u32]) -> Row<T>
    requires { Ready a.file.now a.table.now T.WIDTH a.count memo.old }
    ensures first { First (names a.entry.file.now a.entry.table.now T.WIDTH (value raw.now)) (a.entry.count + 1) result.0 }
    ensures result_le_n { result.0 ≤ a.entry.count }
    ensures ready { Ready a.entry.file.now a.entry.table.now T.WIDTH a.entry.count memo.new }
{
    Row::new(named_record(a, T::WIDTH, raw, memo))
}
