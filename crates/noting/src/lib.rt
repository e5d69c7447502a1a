#![tactic(auto)]
// The rules of one line, noted in order.
ghost use Rattle.std.specs.Prelude.{◌≡◌, ◌+◌, ◌^◌, ◌<◌, ◌≤◌, length};
ghost use Rattle.meaning.specs.Refusals.{on_line};
ghost use Rattle.listing.specs.Handing.{state, noting, SameList};
ghost use Rattle.judging.specs.Judging.{tests_from};

use judging::MOST_RULES;
use listing::Listing;

// The rules of a line that have these numbers, with what was judged of each.
pub fn note_line(
    list: &mut Listing,
    file: usize,
    line: usize,
    numbers: &[u8],
    broken: [bool; MOST_RULES],
)
    requires file_bound { (file < 2 ^ 31) × (line < 2 ^ 31) }
    requires count_bound { (length numbers.now ≤ 9) × (list.old.sink.total + length numbers.now ≤ 2 ^ 62) }
    ensures same_list { SameList list.old list.new }
    ensures result_after { state list.new.out.now list.new.sink ≡ noting list.old.from (on_line file line (tests_from numbers.now broken (length numbers.now))) (state list.old.out.now list.old.sink) }
    ensures total_bound { list.new.sink.total ≤ list.old.sink.total + length numbers.now }
{
    for (i, number) in numbers.iter().enumerate() {
        list.note(broken[i], file, line, usize::from(*number));
    }
}
