// The parents of stops, once every stop's id is in the table and in its order.
ghost use Rattle.std.specs.Prelude.{List, ℕ, ◌+◌, ◌≤◌};
ghost use Rattle.meaning.specs.Refusals.{max_lines};
ghost use Rattle.ordering.specs.Cells.{KeptAt};
ghost use Rattle.ordering.specs.Ids.{Placed, Arranged};
ghost use Rattle.memo.specs.Memo.{Ready};
ghost use Rattle.records.specs.Refers.{Lists};
ghost use Rattle.tables.specs.Walk.{Named};

use crate::waiting;
use rows::StopRow;
use seeking::Records;

// Each stop's parent, number 6 of its record till that is put, behind a memo.
// No one function with that of services: here the table that is searched is the one that is written.
fn settle_with(s: &[u8], n: usize, t: &mut [i32], memo: &mut [u32])
    requires { Ready s.now t.old 7 n memo.old × (n ≤ max_lines) }
    ensures kept_at { KeptAt 6 7 n t.old t.new }
    ensures by_index { (ids : List (List ℕ)) → Lists s.now t.old 7 n ids → Named 7 s.now (n + 1) ids t.old t.new }
{
    for r in 1..n + 1 {
        let row = StopRow::new(r);
        let stops = Records {
            file: s,
            table: t,
            count: n,
        };
        let parent = waiting::named_by(s, t, row, stops, memo);
        row.settle(t, parent);
    }
}

// Each stop's parent, number 6 of its record till that is put.
pub fn settle_parents(s: &[u8], n: usize, t: &mut [i32])
    requires { Placed s.now t.old 7 n × (Arranged s.now 7 n t.old × (n ≤ max_lines)) }
    ensures kept_at { KeptAt 6 7 n t.old t.new }
    ensures by_index { (ids : List (List ℕ)) → Lists s.now t.old 7 n ids → Named 7 s.now (n + 1) ids t.old t.new }
{
    let mut memo = memo::blank();
    settle_with(s, n, t, &mut memo);
}
