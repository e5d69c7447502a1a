#![tactic(auto)]
// Where the ids of a file's records begin, one number a record: what an index needs of a file that lends no table.
ghost use Rattle.std.specs.Prelude.{◌≡◌, ℕ, ◌+◌, ◌<◌, ◌≤◌, pos, length, get_or, drop};
ghost use Rattle.meaning.specs.Bytes.{count_lf, lines_from, lines_of};
ghost use Rattle.meaning.specs.Promises.{no_line};
ghost use Rattle.meaning.specs.Refusals.{max_bytes};
ghost use Rattle.ordering.specs.Cells.{cell_at};
ghost use Rattle.id_places.specs.Places.{start_in, Ids};

use ordering::{By, Order};

// The order by id of such a table: a record is one number, where its id begins, and these numbers themselves are put in order.
pub const ORDER: Order = Order {
    by: By::Field,
    width: 1,
    cell: 0,
};

// A number for each record of a file of N lines; none is placed.
pub fn blank<const N: usize>() -> [i32; N]
    ensures { (k : ℕ) → get_or result k (pos 0) ≡ pos 0 }
{
    [0i32; N]
}

// The lines from `at` on, the first of which has record 1, by their fields in column p; how many records there are.
fn place_lines(s: &[u8], at: usize, p: usize, t: &mut [i32]) -> usize
    requires bound { (1 ≤ count_lf s.now) × (count_lf s.now ≤ length t.old) × (length s.now ≤ max_bytes) }
    requires at_value { lines_from s.now at ≡ drop 1 (lines_of s.now) }
    ensures result_value { (result + 1 ≡ count_lf s.now) × (length t.new ≡ length t.old) }
    ensures by_index { (k : ℕ) → 0 < k → k ≤ result → cell_at 0 t.new 1 k ≡ start_in p (get_or (lines_of s.now) k no_line) }
{
    let mut here = at;
    let mut r = 1;
    while let Some((line, next)) = text::next_line(s, here) {
        let field = columns::field_start(&s[line.start..line.end], p);
        ORDER.put(t, r, line.start + field);
        here = next;
        r += 1;
    }
    r - 1
}

// Where the id of each record of a file begins, in a number for each; how many records there are.
pub fn place_ids(f: usize, s: &[u8], t: &mut [i32]) -> usize
    requires { (f < 7) × (1 ≤ count_lf s.now) × (count_lf s.now ≤ length t.old) × (length s.now ≤ max_bytes) }
    ensures ids { Ids f s.now result t.new }
    ensures t_len_unchanged { length t.new ≡ length t.old }
{
    let h = columns::read_header(f, s);
    let known = h.known;
    let next = h.next;
    let own = rows::id_column(f);
    place_lines(s, next, known[own], t)
}
