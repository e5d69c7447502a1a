#![tactic(auto)]
// One code, asked at the counter: the record with that id, found by halving the range of an index's entries.
ghost use Rattle.std.specs.Prelude.{◌≡◌, ℕ, ◌+◌, ◌-◌, ◌^◌, ◌<◌, ◌≤◌, Ok};
ghost use Rattle.indexes.specs.Index.{number_at, entry};
ghost use Rattle.lookups.specs.Lookup.{miscounted, barred, is_place, misplaced, not_one, standing_to, standing, lastly, halve, sought, lookup};

use indexes::{BEFORE, Version};
use lookups::Refused;
use rows::{Stops, Table};
use std::cmp::Ordering;

// Has an index whose version has number k not the version of as many records as it counts, or not the length of its own count?
fn is_miscounted(b: &[u8], k: usize) -> bool
    requires { k ≡ number_at 2 b.now 3 }
    ensures { result ≡ miscounted b.now }
{
    let v = indexes::version_named(k);
    let n = index_bytes::number_at(b, v, BEFORE);
    let own = indexes::version_of(n);
    if own.number != k {
        return true;
    }
    b.len() != index_bytes::length_of(v, n)
}

// Is an index not for file 1, or does it break 40, 41 or the length of its own count?
fn is_barred(b: &[u8]) -> bool
    ensures { result ≡ barred b.now }
{
    if index_bytes::is_unmarked(b) {
        return true;
    }
    if index_bytes::is_unknown(b) {
        return true;
    }
    if index_bytes::byte_at(b, 5) != 1 {
        return true;
    }
    is_miscounted(b, index_bytes::pair_at(b, 3))
}

// Is a stored number a place in a file of n bytes, or its end?
fn is_within(x: i32, n: usize) -> bool
    ensures { result ≡ is_place n «x» }
{
    match usize::try_from(x) {
        Ok(place) => place <= n,
        Err(_) => false,
    }
}

// Does a place run backward, or outside a file of n bytes?
fn is_misplaced(n: usize, a: i32, e: i32) -> bool
    ensures { result ≡ misplaced n «a» «e» }
{
    if !is_within(a, n) {
        return true;
    }
    if !is_within(e, n) {
        return true;
    }
    e < a
}

// Are bytes, walked alone, not one good field without LF?
fn is_not_one(raw: &[u8]) -> bool
    ensures { result ≡ not_one raw.now }
{
    let m = text::measure(raw);
    if !m.good {
        return true;
    }
    m.fields != 1 || text::count_lf(raw) != 0
}

// How a code stands to the value of a raw field.
fn stand_to(code: &[u8], raw: &[u8]) -> Result<Ordering, Refused>
    ensures { result ≡ standing_to code.now raw.now }
{
    if is_not_one(raw) {
        return Err(Refused);
    }
    Ok(ranking::compare_content(code, false, text::content_of(raw), text::is_marked(raw)))
}

// The record r that the one entry left lists, where the code is its id, else 0.
fn answer_of(order: Ordering, r: usize) -> usize
    ensures { Ok result ≡ lastly (Ok order) r }
{
    match order {
        Ordering::Equal => r,
        Ordering::Less | Ordering::Greater => 0,
    }
}

// What a lookup is handed: the file's bytes and its table, the index, and the code that is asked for.
#[derive(Clone, Copy)]
struct Query<'a> {
    file: &'a [u8],
    table: &'a [i32],
    index: &'a [u8],
    code: &'a [u8],
}

impl Query<'_> {
    // How the code stands to the id of a record.
    fn stand(&self, r: usize) -> Result<Ordering, Refused>
        requires { r < 2 ^ 32 }
        ensures { result ≡ standing self.now.file.now self.now.table.now self.now.code.now r }
    {
        if self.table.len() < (r + 1) * Stops::WIDTH {
            return Err(Refused);
        }
        let at = r * Stops::WIDTH;
        if is_misplaced(self.file.len(), self.table[at], self.table[at + 1]) {
            return Err(Refused);
        }
        stand_to(
            self.code,
            ordering::raw_id(self.file, self.table, Stops::WIDTH, r),
        )
    }

    // The answer of the entries from low up to but not including high, of an index of this version: the range is halved until one is left,
    // by hand and by recursion: document 01's named form, with probes that can be refused.
    fn seek(&self, v: Version, low: usize, high: usize) -> Result<usize, Refused>
        requires { (low < high) × (high < 2 ^ 32) }
        ensures { (n : ℕ) → high - low ≤ n → result ≡ halve (λ i. standing self.now.file.now self.now.table.now self.now.code.now (entry v self.now.index.now i)) (entry v self.now.index.now) n low high }
    {
        if high - low == 1 {
            let r = index_bytes::entry_at(self.index, v, low);
            return Ok(answer_of(self.stand(r)?, r));
        }
        let mid = low + (high - low) / 2;
        match self.stand(index_bytes::entry_at(self.index, v, mid))? {
            Ordering::Less => self.seek(v, low, mid),
            Ordering::Equal | Ordering::Greater => self.seek(v, mid, high),
        }
    }

    // The answer of an index that isn't refused.
    fn answer(&self) -> Result<usize, Refused>
        ensures { result ≡ sought self.now.file.now self.now.table.now self.now.index.now self.now.code.now }
    {
        let v = indexes::version_named(index_bytes::pair_at(self.index, 3));
        let n = index_bytes::number_at(self.index, v, BEFORE);
        if n == 0 {
            return Ok(0);
        }
        self.seek(v, 0, n)
    }
}

// The record of stops.txt with a code as its id, or 0; any file, any table, any index, any code.
pub fn look_up(file: &[u8], table: &[i32], index: &[u8], code: &[u8]) -> Result<usize, Refused>
    ensures { result ≡ lookup file.now table.now index.now code.now }
{
    if code.is_empty() {
        return Ok(0);
    }
    if is_barred(index) {
        return Err(Refused);
    }
    let query = Query {
        file,
        table,
        index,
        code,
    };
    query.answer()
}
