#![tactic(auto)]
// The reader of an index: is it the one that lists every record of its file once, in rising order of ids?
ghost use Rattle.std.specs.Prelude.{◌≡◌, true, ◌+◌, ◌^◌, ◌<◌, ◌≤◌, length};
ghost use Rattle.meaning.specs.Bytes.{count_lf};
ghost use Rattle.meaning.specs.Refusals.{max_lines, verdict_numbers};
ghost use Rattle.meaning.specs.Promises.{says_readable};
ghost use Rattle.ranking.specs.Ranks.{before};
ghost use Rattle.ordering.specs.Cells.{cell_at};
ghost use Rattle.ordering.specs.Ids.{value_on};
ghost use Rattle.indexes.specs.Order.{ids_of};
ghost use Rattle.indexes.specs.Index.{version_of, entry, rule42, strays, rule43, rule44, index_tests, spoken, indexed, lone_verdict, barred_or, checked};
ghost use Rattle.indexes.specs.Promises.{Reads};
ghost use Rattle.id_places.specs.Places.{Ids};
ghost use Rattle.index_check.specs.Entries.{Entries};

use id_places::ORDER;
use indexes::{BEFORE, IndexRefusal, Version};
use meaning::{FEW_LINES, MAX_LINES};

// Does the id of record x, which begins where the table says, come before that of record y?
fn is_before(s: &[u8], t: &[i32], x: usize, y: usize) -> bool
    requires { (x < length t.now) × (y < length t.now) }
    ensures { result ≡ before (value_on s.now (cell_at 0 t.now 1 x)) (value_on s.now (cell_at 0 t.now 1 y)) }
{
    let a = ORDER.get(t, x);
    let b = ORDER.get(t, y);
    ranking::compare_values(text::field_on(s, a), text::field_on(s, b)).is_lt()
}

// No struct in common with the writer's `Ranks`: that one has cells and no index, and other facts hold of it. An index beside a file that can be read, how many records the file has, and the version that an index of so many has.
#[derive(Clone, Copy)]
struct Beside<'a> {
    file: usize,
    bytes: &'a [u8],
    index: &'a [u8],
    version: Version,
    records: usize,
    ghost asked: { indexed file ≡ true },
    ghost verdict: { verdict_numbers (lone_verdict file bytes.now) ≡ says_readable },
    ghost count: { records + 1 ≡ count_lf bytes.now },
}

impl Beside<'_> {
    // 42: has the index not this version, or a wrong file number, count or length?
    fn is_other(&self) -> bool
        ensures { result ≡ rule42 self.now.version self.now.file self.now.records self.now.index.now }
    {
        if index_bytes::pair_at(self.index, 3) != self.version.number {
            return true;
        }
        if index_bytes::byte_at(self.index, 5) != self.file {
            return true;
        }
        if self.index.len() != index_bytes::length_of(self.version, self.records) {
            return true;
        }
        index_bytes::number_at(self.index, self.version, BEFORE) != self.records
    }

    // Is the record number with index i 0 or beyond the last?
    fn is_stray(&self, i: usize) -> bool
        requires { i < 2 ^ 32 }
        ensures { result ≡ strays self.now.records (entry self.now.version self.now.index.now i) }
    {
        let r = index_bytes::entry_at(self.index, self.version, i);
        r == 0 || self.records < r
    }

    // 43: is some record number 0 or beyond the last?
    fn has_stray(&self) -> bool
        ensures { result ≡ rule43 self.now.version self.now.records self.now.index.now }
    {
        for i in 0..self.records {
            if self.is_stray(i) {
                return true;
            }
        }
        false
    }

    // 44: do the ids of the records listed not rise strictly? `Entries` holds once 42 and 43 are passed, so that it is no ghost field.
    fn falls(&self, t: &[i32]) -> bool
        requires placed { Ids self.now.file self.now.bytes.now self.now.records t.now × (count_lf self.now.bytes.now ≤ length t.now) }
        requires entries { Entries self.now.version self.now.records self.now.index.now }
        ensures { result ≡ rule44 self.now.version (ids_of self.now.file self.now.bytes.now) self.now.index.now }
    {
        for i in 1..self.records {
            let last = index_bytes::entry_at(self.index, self.version, i - 1);
            let next = index_bytes::entry_at(self.index, self.version, i);
            if !is_before(self.bytes, t, last, next) {
                return true;
            }
        }
        false
    }

    // 44, of a file whose ids have yet to be placed, into a number for each record.
    fn falls_with(&self, t: &mut [i32]) -> bool
        requires room { count_lf self.now.bytes.now ≤ length t.old }
        requires entries { Entries self.now.version self.now.records self.now.index.now }
        ensures { result ≡ rule44 self.now.version (ids_of self.now.file self.now.bytes.now) self.now.index.now }
    {
        id_places::place_ids(self.file, self.bytes, t);
        self.falls(t)
    }

    // The same, of a file of no more than N lines. Apart from its caller, whose frame would else hold the large table's pages for a small file too.
    #[inline(never)]
    fn falls_up_to<const N: usize>(&self) -> bool
        requires room { (self.now.records < N) × (N ≤ max_lines) }
        requires entries { Entries self.now.version self.now.records self.now.index.now }
        ensures { result ≡ rule44 self.now.version (ids_of self.now.file self.now.bytes.now) self.now.index.now }
    {
        let mut t = id_places::blank::<N>();
        self.falls_with(&mut t)
    }

    // The same, of any file.
    fn is_falling(&self) -> bool
        requires { Entries self.now.version self.now.records self.now.index.now }
        ensures { result ≡ rule44 self.now.version (ids_of self.now.file self.now.bytes.now) self.now.index.now }
    {
        if self.records < FEW_LINES {
            return self.falls_up_to::<FEW_LINES>();
        }
        self.falls_up_to::<MAX_LINES>()
    }
}

// What is answered of an index beside a file that can be read and has n records: the first of 40 to 44 that it breaks, or its length.
fn judge(f: usize, s: &[u8], b: &[u8], n: usize) -> Result<usize, IndexRefusal>
    requires { Reads f s.now × (n + 1 ≡ count_lf s.now) }
    ensures { result ≡ barred_or (spoken (index_tests (version_of (length (ids_of f s.now))) f (ids_of f s.now) b.now)) (length b.now) }
{
    if index_bytes::is_unmarked(b) {
        return Err(IndexRefusal::Barred(40));
    }
    if index_bytes::is_unknown(b) {
        return Err(IndexRefusal::Barred(41));
    }
    let beside = Beside {
        file: f,
        bytes: s,
        index: b,
        version: indexes::version_of(n),
        records: n,
    };
    if beside.is_other() {
        return Err(IndexRefusal::Barred(42));
    }
    if beside.has_stray() {
        return Err(IndexRefusal::Barred(43));
    }
    if beside.is_falling() {
        return Err(IndexRefusal::Barred(44));
    }
    Ok(b.len())
}

// The reader: any file number, any file, any index.
pub fn check_index(f: usize, s: &[u8], b: &[u8]) -> Result<usize, IndexRefusal>
    ensures { result ≡ checked f s.now b.now }
{
    if f == 0 || 4 < f {
        return Err(IndexRefusal::Barred(42));
    }
    let lf = text::count_lf(s);
    match alone::read_alone(f, s, lf) {
        Ok(()) => judge(f, s, b, lf - 1),
        Err(r) => Err(IndexRefusal::Unread(r)),
    }
}
