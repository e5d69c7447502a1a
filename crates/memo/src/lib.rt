#![tactic(auto)]
// A memo in front of the search: records that were found, by a hash of their raw ids.
ghost use Rattle.std.specs.Prelude.{◌≡◌, true, ℕ, ◌+◌, ◌^◌, ◌<◌, ◌≤◌, get_or, set};
ghost use Rattle.meaning.specs.Lists.{same};
ghost use Rattle.meaning.specs.Bytes.{value};
ghost use Rattle.ordering.specs.Ids.{id_of};
ghost use Rattle.seeking.specs.First.{First, id_is};
ghost use Rattle.memo.specs.Memo.{Ready};

use seeking::Records;

// How many records a memo remembers: it may be any number up to RANGE.
pub const SIZE: usize = 16384;

// A hash is below RANGE, and as many hashes as SHARE says fall on one place.
const RANGE: usize = 4294967296;

const SHARE: usize = RANGE / SIZE;

// A memo that knows nothing.
pub fn blank() -> [u32; SIZE]
    ensures { (k : ℕ) → get_or result k 0 ≡ 0 }
{
    [0u32; SIZE]
}

// Where a raw field's record is remembered: any place would do.
fn slot(raw: &[u8]) -> usize {
    let mut h: usize = 0;
    for &b in raw {
        h = (h + usize::from(b)) * 16777619 % RANGE;
    }
    h / SHARE
}

// What is remembered at a place, 0 past the memo's end.
fn recall(memo: &[u32], h: usize) -> usize
    ensures { (result ≡ get_or memo.now h 0) × (result < 2 ^ 32) }
{
    memo.get(h).map_or(0, |r| *r as usize)
}

// A record is remembered.
fn remember(memo: &mut [u32], h: usize, r: usize)
    requires { r < 2 ^ 32 }
    ensures { memo.new ≡ set memo.old h r }
{
    // by index: over get_mut the check was left with no fact of what the memo holds after the write
    if h < memo.len() {
        memo[h] = r as u32;
    }
}

// Is it a record, and is its id the value of a raw field?
fn is_hit(a: Records, w: usize, r: usize, raw: &[u8]) -> bool
    requires { (w ≤ 8) × (r < 2 ^ 32) }
    ensures { result ≡ true → (0 < r) × (same (id_of a.entry.file.now a.entry.table.now w r) (value raw.now) ≡ true) }
{
    if r == 0 {
        return false;
    }
    ranking::same_values(ordering::raw_id(a.file, a.table, w, r), raw)
}

// The first of the records that has the id of a raw field, 0 where there is none: from the memo, else by the search.
pub fn first_record(a: Records, w: usize, raw: &[u8], memo: &mut [u32]) -> usize
    requires { Ready a.file.now a.table.now w a.count memo.old }
    ensures first { First (id_is a.entry.file.now a.entry.table.now w (value raw.now)) (a.entry.count + 1) result }
    ensures upper_bound { result ≤ a.entry.count }
    ensures ready { Ready a.entry.file.now a.entry.table.now w a.entry.count memo.new }
{
    let h = slot(raw);
    let r = recall(memo, h);
    if is_hit(a, w, r, raw) {
        return r;
    }
    let q = seeking::first_record(a, w, raw);
    remember(memo, h, q);
    q
}
