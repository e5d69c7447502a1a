#![tactic(auto)]
// The writer of an index: the one that lists every record of its file once, in rising order of ids.
ghost use Rattle.std.specs.Prelude.{◌≡◌, false, ◌+◌, ◌*◌, ◌-◌, ◌/◌, ◌%◌, ◌^◌, ◌<◌, ◌≤◌, length, set, take, drop, ◌++◌, Ok};
ghost use Rattle.meaning.specs.Bytes.{count_lf, lines_from, lines_of};
ghost use Rattle.meaning.specs.Lists.{some};
ghost use Rattle.meaning.specs.Refusals.{max_bytes, max_lines};
ghost use Rattle.ordering.specs.Cells.{cell_at, RoomAt};
ghost use Rattle.ordering.specs.Ids.{in_order, alike, Sorted, Stands, Apart};
ghost use Rattle.ordering.specs.declared.By.TheVariants.{Field};
ghost use Rattle.indexes.specs.Order.{ids_of, ranked};
ghost use Rattle.indexes.specs.Index.{version_of, index_of, index_length, writer_tests, spoken, barred_or, left_by, wrote, written};
ghost use Rattle.indexes.specs.Promises.{Reads};
ghost use Rattle.id_places.specs.Places.{own_column};
ghost use Rattle.index_write.specs.Writing.{Ranked, start_of, Put, Entry, Entered, Within};

use id_places::ORDER;
use indexes::{BEFORE, IndexRefusal, Version};
use meaning::{FEW_LINES, MAX_LINES};

// A number below 65,536 in two bytes, low byte first.
fn put_pair(b: &mut [u8], at: usize, v: usize)
    requires { (at + 2 ≤ length b.old) × (v < 65536) }
    ensures { b.new ≡ set (set b.old at (v % 256)) (at + 1) (v / 256) }
{
    let [low, high] = (v as u16).to_le_bytes();
    b[at] = low;
    b[at + 1] = high;
}

// A number in as many bytes as a version has for one.
fn put_number(b: &mut [u8], v: Version, at: usize, x: usize)
    requires { (at + v.width ≤ length b.old) × (x < 256 ^ v.width) }
    ensures { Put v.width at x b.old b.new }
{
    if v.width == 2 {
        put_pair(b, at, x);
        return;
    }
    put_pair(b, at, x % 65536);
    put_pair(b, at + 2, x / 65536);
}

// The bytes before the count.
fn start_of(f: usize, v: Version) -> [u8; 6]
    requires { (f < 256) × (v.number < 256) }
    ensures { result ≡ start_of v f }
{
    [b'T', b'T', b'X', v.number as u8, 0, f as u8]
}

// These bytes, at the start of a buffer.
fn put_start(b: &mut [u8], head: [u8; 6])
    requires { 6 ≤ length b.old }
    ensures { b.new ≡ take 6 head ++ drop 6 b.old }
{
    b[..BEFORE].copy_from_slice(&head);
}

// The records of a file by their ids: the file's number and bytes; in cell k where the id that is k-th begins; how many there are, since there may be more
// cells; the version of their index. What `Ranked` says of the cells stays in the contracts: it is a record of facts (`Begins`), and a ghost field takes a fact alone.
#[derive(Clone, Copy)]
struct Ranks<'a> {
    file: usize,
    bytes: &'a [u8],
    cells: &'a [i32],
    records: usize,
    version: Version,
}

impl Ranks<'_> {
    // Have the fields in cells k and k + 1 one value?
    fn is_repeat(&self, k: usize) -> bool
        requires { RoomAt 0 1 (k + 1) self.now.cells.now }
        ensures { result ≡ alike Field self.now.bytes.now self.now.cells.now 1 (cell_at 0 self.now.cells.now 1 k) (cell_at 0 self.now.cells.now 1 (k + 1)) }
    {
        let x = ORDER.get(self.cells, k);
        let y = ORDER.get(self.cells, k + 1);
        ORDER.is_alike(self.bytes, self.cells, x, y)
    }

    // Does a value stand in two cells, which are sorted?
    fn has_repeat(&self) -> bool
        requires { RoomAt 0 1 self.now.records self.now.cells.now }
        ensures { result ≡ some (λ k. alike Field self.now.bytes.now self.now.cells.now 1 (cell_at 0 self.now.cells.now 1 k) (cell_at 0 self.now.cells.now 1 (k + 1))) 1 (self.now.records - 1) }
    {
        for k in 1..self.records {
            if self.is_repeat(k) {
                return true;
            }
        }
        false
    }

    // The cell in which the byte x stands, found by halving.
    fn cell_of(&self, x: usize) -> usize
        requires room_at { RoomAt 0 1 self.now.records self.now.cells.now × (x < 2 ^ 32) }
        requires sorted { Sorted (in_order Field self.now.bytes.now self.now.cells.now 1) (cell_at 0 self.now.cells.now 1) self.now.records × Apart (cell_at 0 self.now.cells.now 1) self.now.records × Stands (cell_at 0 self.now.cells.now 1) self.now.records x }
        ensures { (0 < result) × (result ≤ self.now.records) × (cell_at 0 self.now.cells.now 1 result ≡ x) }
    {
        // a loop of its own: `partition_point(..)` over the cells would read them past `Order::get`, which alone knows where they stand
        let mut lo: usize = 1;
        let mut hi = self.records;
        while lo < hi {
            let mid = lo + (hi - lo) / 2;
            if ORDER.no_later(self.bytes, self.cells, x, ORDER.get(self.cells, mid)) {
                hi = mid;
            } else {
                lo = mid + 1;
            }
        }
        lo
    }

    // Record r, in the entry whose cell holds the byte x.
    fn put_entry(&self, x: usize, r: usize, b: &mut [u8])
        requires room_at { RoomAt 0 1 self.now.records self.now.cells.now × (x < 2 ^ 32) }
        requires sorted { Sorted (in_order Field self.now.bytes.now self.now.cells.now 1) (cell_at 0 self.now.cells.now 1) self.now.records × Apart (cell_at 0 self.now.cells.now 1) self.now.records × Stands (cell_at 0 self.now.cells.now 1) self.now.records x }
        requires wide { (index_length self.now.version self.now.records ≤ length b.old) × (r < 256 ^ self.now.version.width) × (self.now.records < 2 ^ 32) }
        ensures { Entry self.now.version self.now.records x r self.now.cells.now b.old b.new }
    {
        let k = self.cell_of(x);
        let at = index_bytes::length_of(self.version, k - 1);
        put_number(b, self.version, at, r);
    }

    // The number of each record, in the entry whose cell holds where its id begins: the lines from `at` on, whose ids stand in column p.
    fn put_entries(&self, at: usize, p: usize, b: &mut [u8])
        requires reads { Reads self.now.file self.now.bytes.now × Ranked self.now.file self.now.bytes.now self.now.records self.now.cells.now × (index_length self.now.version self.now.records ≤ length b.old) }
        requires at_value { (lines_from self.now.bytes.now at ≡ drop 1 (lines_of self.now.bytes.now)) × (p ≡ own_column self.now.file self.now.bytes.now) }
        requires bytes_len_bound { (length self.now.bytes.now ≤ max_bytes) × (self.now.records < 256 ^ self.now.version.width) }
        ensures { Entered self.now.version self.now.file self.now.bytes.now self.now.records (self.now.records + 1) self.now.cells.now b.new × Within self.now.version self.now.records b.old b.new }
    {
        let mut here = at;
        let mut r = 1;
        while let Some((line, next)) = text::next_line(self.bytes, here) {
            let field = columns::field_start(&self.bytes[line.start..line.end], p);
            self.put_entry(line.start + field, r, b);
            here = next;
            r += 1;
        }
    }

    // The index.
    fn put_index(&self, b: &mut [u8])
        requires reads { Reads self.now.file self.now.bytes.now × Ranked self.now.file self.now.bytes.now self.now.records self.now.cells.now × (index_length self.now.version self.now.records ≤ length b.old) }
        requires file_bound { (self.now.file < 5) × (some (λ k. alike Field self.now.bytes.now self.now.cells.now 1 (cell_at 0 self.now.cells.now 1 k) (cell_at 0 self.now.cells.now 1 (k + 1))) 1 (self.now.records - 1) ≡ false) }
        requires bytes_len_bound { (length self.now.bytes.now ≤ max_bytes) × (self.now.records < 2 ^ 32) × (self.now.version ≡ version_of self.now.records) }
        ensures { b.new ≡ left_by (Ok (index_length self.now.version self.now.records)) (index_of self.now.version self.now.file (ranked (ids_of self.now.file self.now.bytes.now))) b.old }
    {
        let h = columns::read_header(self.file, self.bytes);
        let known = h.known;
        let next = h.next;
        let own = rows::id_column(self.file);
        put_start(b, start_of(self.file, self.version));
        put_number(b, self.version, BEFORE, self.records);
        self.put_entries(next, known[own], b);
    }
}

// What is written for a file that can be read, with a table of one number a record.
fn write_read(f: usize, s: &[u8], t: &mut [i32], b: &mut [u8]) -> Result<usize, IndexRefusal>
    requires { Reads f s.now × (count_lf s.now ≤ length t.old) }
    ensures value { result ≡ barred_or (spoken (writer_tests (version_of (length (ids_of f s.now))) (ids_of f s.now) (length b.old))) (index_length (version_of (length (ids_of f s.now))) (length (ids_of f s.now))) }
    ensures b_after { b.new ≡ left_by result (index_of (version_of (length (ids_of f s.now))) f (ranked (ids_of f s.now))) b.old }
{
    let n = id_places::place_ids(f, s, t);
    sorting::sort(ORDER, s, t, n);
    let ranks = Ranks {
        file: f,
        bytes: s,
        cells: t,
        records: n,
        version: indexes::version_of(n),
    };
    if ranks.has_repeat() {
        return Err(IndexRefusal::Barred(45));
    }
    let need = index_bytes::length_of(ranks.version, n);
    if b.len() < need {
        return Err(IndexRefusal::Barred(46));
    }
    ranks.put_index(b);
    Ok(need)
}

// The same, of a file of no more than N lines. Apart from its caller, whose frame would else hold the large table's pages for a small file too.
#[inline(never)]
fn write_up_to<const N: usize>(f: usize, s: &[u8], b: &mut [u8]) -> Result<usize, IndexRefusal>
    requires { Reads f s.now × (count_lf s.now ≤ N) × (N ≤ max_lines) }
    ensures value { result ≡ barred_or (spoken (writer_tests (version_of (length (ids_of f s.now))) (ids_of f s.now) (length b.old))) (index_length (version_of (length (ids_of f s.now))) (length (ids_of f s.now))) }
    ensures b_after { b.new ≡ left_by result (index_of (version_of (length (ids_of f s.now))) f (ranked (ids_of f s.now))) b.old }
{
    let mut t = id_places::blank::<N>();
    write_read(f, s, &mut t, b)
}

// The same, of a file that has so many LF bytes.
fn write_alone(f: usize, s: &[u8], lf: usize, b: &mut [u8]) -> Result<usize, IndexRefusal>
    requires { Reads f s.now × (lf ≡ count_lf s.now) }
    ensures value { result ≡ barred_or (spoken (writer_tests (version_of (length (ids_of f s.now))) (ids_of f s.now) (length b.old))) (index_length (version_of (length (ids_of f s.now))) (length (ids_of f s.now))) }
    ensures b_after { b.new ≡ left_by result (index_of (version_of (length (ids_of f s.now))) f (ranked (ids_of f s.now))) b.old }
{
    if lf <= FEW_LINES {
        return write_up_to::<FEW_LINES>(f, s, b);
    }
    write_up_to::<MAX_LINES>(f, s, b)
}

// The writer: any file number, any file, any buffer.
pub fn write_index(f: usize, s: &[u8], b: &mut [u8]) -> Result<usize, IndexRefusal>
    ensures value { result ≡ wrote f s.now (length b.old) }
    ensures b_after { b.new ≡ written f s.now b.old }
{
    if f == 0 || 4 < f {
        return Err(IndexRefusal::Barred(42));
    }
    let lf = text::count_lf(s);
    match alone::read_alone(f, s, lf) {
        Ok(()) => write_alone(f, s, lf, b),
        Err(r) => Err(IndexRefusal::Unread(r)),
    }
}
