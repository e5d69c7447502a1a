#![tactic(auto)]
// All findings of a feed whose tables are filled, handed out in order.
ghost use Rattle.std.specs.Prelude.{◌≡◌, ℕ, ◌+◌, ◌*◌, ◌^◌, ◌<◌, ◌≤◌, get_or};
ghost use Rattle.meaning.specs.Tables.{Feed};
ghost use Rattle.meaning.specs.Rules.{bindings};
ghost use Rattle.meaning.specs.Findings.{findings_of};
ghost use Rattle.meaning.specs.Refusals.{max_lines};
ghost use Rattle.lent.specs.Lent.{held};
ghost use Rattle.listing.specs.Handing.{state, noting, lent_only, handed_out, SameList};
ghost use Rattle.rules.specs.Tabled.{Tabled};

use lent::Tables;
use listing::{Listing, Sink};
use meaning::{Place, Profile};

// All findings, of files of so many lines each, by the rules asked for, into a list that others may stand in: those after the list's place are written, as many
// as fit; the rest of the list stays. A file has a record on each line but its header.
pub fn list_files(
    counts: [usize; 6],
    tables: &Tables,
    marks: &[u16],
    list: &mut Listing,
    asked: Profile,
)
    requires lines_bound { (i : ℕ) → i < 6 → get_or counts i 0 ≤ max_lines }
    requires total_bound { list.old.sink.total ≤ 2 ^ 60 }
    ensures same_list { SameList list.old list.new }
    ensures result_after { (w : Feed) → Tabled w counts (held tables.now) marks.now
        → state list.new.out.now list.new.sink ≡ noting list.old.from (bindings asked w) (state list.old.out.now list.old.sink) }
    ensures from_none { (w : Feed) → Tabled w counts (held tables.now) marks.now
        → state list.old.out.now list.old.sink ≡ lent_only list.old.out.now
        → state list.new.out.now list.new.sink ≡ handed_out list.old.from (findings_of asked w) list.old.out.now }
    ensures total_bound_2 { list.new.sink.total ≤ list.old.sink.total + 21 * max_lines }
{
    for f in 1..=6 {
        let records = counts[f - 1].saturating_sub(1);
        let table = tables.table(f);
        file_rules::list_file(f, records, table, tables.stops, marks, list, asked);
    }
}

// The same into a list that has just been lent, and how many are written, and how many there are.
pub fn list_findings(
    counts: [usize; 6],
    tables: &Tables,
    marks: &[u16],
    out: &mut [i32],
    from: Place,
    asked: Profile,
) -> Sink
    requires { (i : ℕ) → i < 6 → get_or counts i 0 ≤ max_lines }
    ensures result_after { (w : Feed) → Tabled w counts (held tables.now) marks.now
        → state out.new result ≡ handed_out from (findings_of asked w) out.old }
    ensures total_bound { result.total ≤ 21 * max_lines }
{
    let mut list = Listing {
        out,
        from,
        sink: Sink {
            written: 0,
            total: 0,
        },
    };
    list_files(counts, tables, marks, &mut list, asked);
    list.sink
}
