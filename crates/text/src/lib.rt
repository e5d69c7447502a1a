#![tactic(auto)]
// From bytes to fields: lines and their endings, quoting, the line cursor, and values.
ghost use Rattle.std.specs.Prelude.{true, false, ◌||◌, ◌≡◌, [], ◌∷◌, ℕ, ◌+◌, ◌<◌, ◌≤◌, length, get_or, set, take, drop};
ghost use Rattle.meaning.specs.Lists.{same, any, empty};
ghost use Rattle.meaning.specs.Bytes.{count_lf, start_of, start, closed, class_of, quoting, endings, next, run, good, fields, marked, content, undouble, value};
ghost use Rattle.meaning.specs.Refusals.{ended, rule5};
ghost use Rattle.text.specs.Lines.{is_lf, to_lf, line_to, line_at};
ghost use Rattle.text.specs.Fields.{is_mark, is_break, to_break, to_mark, to_asked, past_ends, up_to33, ends_line, field_run, field_on, step_at};
ghost use Rattle.text.specs.Values.{width_of};

use meaning::Bounds;

// As many bytes as a turn counts: twenty-eight times eight. Their count fits a byte, and wide registers take them with nothing left over.
const BLOCK: usize = 224;

// How many LF bytes stand in a block. The count is one byte, so that the compiler counts in many lanes at once: 0.12 ms for 3 MB, where filter and count
// over all of it take 1.49.
fn count_block(s: &[u8]) -> u8
    requires { length s.now ≤ 224 }
    ensures { result ≡ count_lf s.now }
{
    let mut n = 0;
    for b in s {
        n += u8::from(*b == b'\n');
    }
    n
}

// How many LF bytes stand in a file: block by block, then the rest, less than a block, to its end. By index: `chunks_exact` with its remainder is as long, and as fast.
pub fn count_lf(s: &[u8]) -> usize
    ensures { (result ≡ count_lf s.now) × (result ≤ length s.now) }
{
    let mut n: usize = 0;
    let mut i = 0;
    while BLOCK <= s.len() - i {
        n += count_block(&s[i..i + BLOCK]) as usize;
        i += BLOCK;
    }
    n + count_block(&s[i..]) as usize
}

// Is the last byte LF?
pub fn ends_with_lf(s: &[u8]) -> bool
    ensures { result ≡ ended s.now }
{
    s.last() == Some(&b'\n')
}

// Where the first line starts: past a mark EF BB BF.
pub fn body_start(s: &[u8]) -> usize
    ensures { (result ≡ start_of s.now) × (result ≤ length s.now) }
{
    if s.starts_with(&[0xEF, 0xBB, 0xBF]) {
        return 3;
    }
    0
}

// Does one of two tests hold? Both are made, so that the compiler can make many at once.
pub fn either(a: bool, b: bool) -> bool
    ensures { result ≡ (a || b) }
{
    a || b
}

// A byte from `at` on that no LF stands before, eight bytes a turn: the first LF is one of the eight from there on, or fewer are left. By index: the answer is one.
fn near_lf(s: &[u8], at: usize) -> usize
    ensures { (result + to_lf (drop result s.now) ≡ at + to_lf (drop at s.now)) × (at ≤ result) }
{
    let mut i = at;
    while i < s.len() {
        if s.len() - i < 8 {
            return i;
        }
        if s[i..i + 8].contains(&b'\n') {
            return i;
        }
        i += 8;
    }
    i
}

// Where the first LF from `at` on stands; the file's end where there is none. By index past the eights: with position it takes 1.31 ms for 3 MB of lines,
// with position alone 1.47, as it is 0.61.
fn lf_from(s: &[u8], at: usize) -> usize
    ensures { (result ≡ at + to_lf (drop at s.now)) × (at ≤ result) }
{
    let mut i = near_lf(s, at);
    while i < s.len() {
        if s[i] == b'\n' {
            return i;
        }
        i += 1;
    }
    i
}

// Where the line from `at` whose LF stands at e lies without its ending, and where the next one starts.
fn line_to(s: &[u8], at: usize, e: usize) -> Option<(Bounds, usize)>
    requires { at ≤ e }
    ensures { result ≡ line_to s.now at e }
{
    if s.len() <= e {
        return None;
    }
    let end = if at < e && s[e - 1] == b'\r' {
        e - 1
    } else {
        e
    };
    Some((Bounds { start: at, end }, e + 1))
}

// Where the line that begins at `at` lies, without its ending, and where the next one starts; none where no LF follows.
pub fn next_line(s: &[u8], at: usize) -> Option<(Bounds, usize)>
    ensures { result ≡ line_at s.now at }
{
    let e = lf_from(s, at);
    line_to(s, at, e)
}

// As many bytes as a turn looks at, for a tab and then for a CR. Most lines are shorter, and looked at whole.
const STRETCH: usize = 256;

// Is one of these bytes a tab or a CR?
fn has_tab_or_cr(s: &[u8]) -> bool
    ensures { result ≡ rule5 s.now }
{
    s.contains(&b'\t') || s.contains(&b'\r')
}

// Is there a tab, or a CR outside an ending? Stretch by stretch, no further than the first that has either, then the rest, less than a stretch: so no line is
// walked for a tab far past its first CR. By index, as `count_lf`.
pub fn has_stray(l: &[u8]) -> bool
    ensures { result ≡ rule5 l.now }
{
    let mut i = 0;
    while STRETCH <= l.len() - i {
        if has_tab_or_cr(&l[i..i + STRETCH]) {
            return true;
        }
        i += STRETCH;
    }
    has_tab_or_cr(&l[i..])
}

// The states of the quoting table, and a fifth for bad.
const START: u8 = 0;

const BARE: u8 = 1;

const QUOTED: u8 = 2;

const CLOSED: u8 = 3;

const BAD: u8 = 4;

// The quoting table: the next state by state and byte class.
const QUOTING: [[u8; 3]; 5] = [
    [START, QUOTED, BARE],
    [START, BAD, BARE],
    [QUOTED, CLOSED, QUOTED],
    [START, QUOTED, BAD],
    [BAD, BAD, BAD],
];

// Its last column: is the line's end good in a state?
const ENDINGS: [bool; 5] = [true, true, false, true, false];

// The byte classes: comma, mark, other.
fn class_of(b: u8) -> usize
    ensures { (result ≡ class_of b) × (result < 3) }
{
    if b == b',' {
        return 0;
    }
    if b == b'"' {
        return 1;
    }
    2
}

// The state after a byte, by the quoting table.
fn next_state(table: &[[u8; 3]; 5], q: u8, b: u8) -> u8
    requires { (table.now ≡ quoting) × (q < 5) }
    ensures { (result ≡ next q b) × (result < 5) }
{
    let c = class_of(b);
    let k = q as usize;
    table[k][c]
}

// Is a byte a comma or a mark? Most are above both.
fn is_break(b: u8) -> bool
    ensures { result ≡ is_break b }
{
    b <= b',' && (b == b',' || b == b'"')
}

// Where the first comma or mark from `at` on stands; the line's end where there is none. Byte by byte: with position a walk along 2 MB of lines takes 32.8 M
// instructions, as it is 29.2.
fn break_from(l: &[u8], at: usize) -> usize
    ensures { (result ≡ at + to_break (drop at l.now)) × (at ≤ result) }
{
    let mut i = at;
    while let Some(b) = l.get(i) {
        if is_break(*b) {
            break;
        }
        i += 1;
    }
    i
}

// Where the first mark from `at` on stands; the line's end where there is none. As above: on quoted lines 39.1 M for 35.5.
fn mark_from(l: &[u8], at: usize) -> usize
    ensures { (result ≡ at + to_mark (drop at l.now)) × (at ≤ result) }
{
    let mut i = at;
    while let Some(b) = l.get(i) {
        if *b == b'"' {
            break;
        }
        i += 1;
    }
    i
}

// Where the first byte from `at` on stands that the quoting table is asked for in a state; those before it keep the state.
fn asked_from(l: &[u8], at: usize, q: u8) -> usize
    ensures { (result ≡ at + to_asked q (drop at l.now)) × (at ≤ result) }
{
    if q == BARE {
        return break_from(l, at);
    }
    if q == CLOSED {
        return at;
    }
    mark_from(l, at)
}

// A place along a line, where a field begins, in the state START; past the line's end, with the state in which its last field ended.
#[derive(Clone, Copy)]
pub struct Cursor {
    pub at: usize,
    pub state: u8,
}

impl Cursor {
    pub fn new() -> Self
        ensures { (result.at ≡ 0) × (result.state ≡ start) }
    {
        Cursor {
            at: 0,
            state: START,
        }
    }

    // Where the next field lies, and the moved cursor; none past the line's end.
    pub fn next(self, l: &[u8]) -> Option<(Bounds, Cursor)>
        ensures { result ≡ step_at l.now self.at }
    {
        let table = QUOTING;
        self.next_by(&table, l)
    }

    // The same by a lent quoting table: a constant's array is written anew wherever it is named. Each next state comes from the table, and a run of bytes
    // that keep the state is passed over.
    #[inline(always)]
    fn next_by(self, table: &[[u8; 3]; 5], l: &[u8]) -> Option<(Bounds, Cursor)>
        requires { table.now ≡ quoting }
        ensures { result ≡ step_at l.now self.at }
    {
        let at = self.at;
        if l.len() < at {
            return None;
        }
        if l.len() == at {
            return Some((
                Bounds { start: at, end: at },
                Cursor {
                    at: at + 1,
                    state: START,
                },
            ));
        }
        let mut q = next_state(table, START, l[at]);
        let mut i = at;
        // By index: a turn takes the bytes that keep the state.
        while q != START {
            i = asked_from(l, i + 1, q);
            if l.len() <= i {
                break;
            }
            q = next_state(table, q, l[i]);
        }
        Some((
            Bounds { start: at, end: i },
            Cursor {
                at: i + 1,
                state: q,
            },
        ))
    }
}

// Is one of these bytes a mark? No byte is left out, so that the compiler looks at several at once: 0.18 ms for 3 MB, where contains takes 0.48.
fn has_mark(s: &[u8]) -> bool
    ensures { result ≡ any is_mark s.now }
{
    let mut some = false;
    for b in s {
        some = either(some, *b == b'"');
    }
    some
}

// Past bytes from `at` on that aren't marks, but for the last of them: it alone tells what state they lead to, from any state but CLOSED.
fn past_unmarked(l: &[u8], at: usize) -> usize
    ensures { ((q : ℕ) → q < 5 → (q ≡ closed → ⊥) → run q (drop result l.now) ≡ run q (drop at l.now)) × (at ≤ result) }
{
    // By index: the answer is one, and a turn begins with the last byte of the one before.
    let mut i = at;
    while i < l.len() {
        if l.len() - i < 32 {
            return i;
        }
        if has_mark(&l[i..i + 32]) {
            return i;
        }
        i += 31;
    }
    i
}

// The state at a line's end, from a place and a state on, by the quoting table: for a line whose fields needn't be told any more.
fn last_state(l: &[u8], at: usize, state: u8) -> u8
    requires { state < 5 }
    ensures { (result ≡ run state (drop at l.now)) × (result < 5) }
{
    let table = QUOTING;
    let mut q = state;
    // By index: a turn takes a byte, and those that keep the state.
    let mut i = at;
    while i < l.len() {
        q = next_state(&table, q, l[i]);
        i += 1;
        if q != CLOSED {
            i = past_unmarked(l, i);
        }
    }
    q
}

// Is the line's end good in a state?
fn ends_good(q: u8) -> bool
    requires { q < 5 }
    ensures { result ≡ get_or endings q false }
{
    let k = q as usize;
    ENDINGS[k]
}

// What a walk along a line tells: whether the quoting table calls it good, and how many fields it has, 33 standing for more than rule 7 allows;
// that is told of a bad line too.
#[derive(Clone, Copy)]
pub struct Measured {
    pub good: bool,
    pub fields: usize,
}

// A number in a table that may be too short for it. Kept with an index: get_mut promises nothing of the table afterwards.
fn note(t: &mut [usize], n: usize, v: usize)
    ensures { t.new ≡ set t.old n v }
{
    if n < t.len() {
        t[n] = v;
    }
}

// One walk along a line by its cursor, from field to field, no further than it takes to know that rule 7 is broken; what is left is only judged for quoting.
// Past the end of field n, counted from 1, begins the next: that place is noted in number n of a table, as far as it goes.
pub fn walk_fields(l: &[u8], starts: &mut [usize]) -> Measured
    ensures good_value { (result.good ≡ good l.now)
        × (result.fields ≡ up_to33 (length (fields l.now)))
        × (1 ≤ result.fields)
        × (result.fields ≤ 33) }
    ensures starts_after { starts.new ≡ past_ends (take 33 (fields l.now)) 1 starts.old }
{
    let table = QUOTING;
    let mut c = Cursor::new();
    let mut n: usize = 0;
    // No range: n is told, with what the cursor tells past the last field.
    while n < 33 {
        let Some((_, next)) = c.next_by(&table, l) else {
            return Measured {
                good: ends_good(c.state),
                fields: n,
            };
        };
        n += 1;
        note(starts, n, next.at);
        c = next;
    }
    let state = last_state(l, c.at, c.state);
    Measured {
        good: ends_good(state),
        fields: n,
    }
}

// The same, and nothing is noted.
pub fn measure(l: &[u8]) -> Measured
    ensures { (result.good ≡ good l.now)
        × (result.fields ≡ up_to33 (length (fields l.now)))
        × (1 ≤ result.fields)
        × (result.fields ≤ 33) }
{
    let mut none = [0usize; 1];
    walk_fields(l, &mut none)
}

// Does a byte end a line: the LF of its ending, or the CR before it?
fn ends_line(b: u8) -> bool
    ensures { result ≡ ends_line b }
{
    b == b'\n' || b == b'\r'
}

// The end of the field that begins at a byte of a file, whose lines end where an ending begins.
fn run_end(s: &[u8], at: usize) -> usize
    ensures value { (result ≡ at + field_run start (drop at s.now)) × (at ≤ result) }
    ensures upper_bound { at ≤ length s.now → result ≤ length s.now }
{
    // Made once a field, as above. By index: a walk by enumerate and skip has the line's end as a case of its own.
    let table = QUOTING;
    let mut q = START;
    let mut i = at;
    while i < s.len() {
        if ends_line(s[i]) {
            return i;
        }
        q = next_state(&table, q, s[i]);
        if q == START {
            return i;
        }
        i += 1;
    }
    i
}

// The raw field that begins at a byte of a file.
pub fn field_on(s: &[u8], at: usize) -> &[u8]
    ensures { result.now ≡ field_on s.now at }
{
    if s.len() <= at {
        return &s[..0];
    }
    let e = run_end(s, at);
    &s[at..e]
}

// Is a raw field quoted?
pub fn is_marked(raw: &[u8]) -> bool
    ensures { result ≡ marked raw.now }
{
    raw.first() == Some(&b'"')
}

// What stands inside the quotes of a raw field; all of a bare one.
pub fn content_of(raw: &[u8]) -> &[u8]
    ensures { (result.now ≡ content raw.now) × (length result.now ≤ length raw.now) }
{
    if is_marked(raw) {
        if 1 < raw.len() {
            let e = raw.len() - 1;
            return &raw[1..e];
        }
        return &raw[..0];
    }
    raw
}

// How far a byte of a value reaches: a mark in quotes stands twice.
pub fn width(q: bool, b: u8) -> usize
    ensures { (result ≡ width_of q b) × (0 < result) × (result ≤ 2) }
{
    if q && b == b'"' {
        return 2;
    }
    1
}

// How many bytes stand between quotes, a mark that stands twice counted once. By index, since a turn takes one byte or two.
fn undoubled_length(s: &[u8]) -> usize
    ensures { result ≡ length (undouble true s.now) }
{
    let mut n: usize = 0;
    let mut i = 0;
    while i < s.len() {
        i += width(true, s[i]);
        n += 1;
    }
    n
}

// How many bytes the value of a raw field has.
pub fn value_length(raw: &[u8]) -> usize
    ensures { (result ≡ length (value raw.now)) × (result ≤ length raw.now) }
{
    let s = content_of(raw);
    if is_marked(raw) {
        return undoubled_length(s);
    }
    s.len()
}

// Is the value of a raw field empty?
pub fn is_empty_value(raw: &[u8]) -> bool
    ensures { result ≡ empty (value raw.now) }
{
    let s = content_of(raw);
    s.len() == 0
}

// Are two contents, each quoted or not, equal by value? By index, since a turn takes one byte or two.
fn same_content(a: &[u8], qa: bool, b: &[u8], qb: bool) -> bool
    ensures { result ≡ same (undouble qa a.now) (undouble qb b.now) }
{
    let mut i = 0;
    let mut j = 0;
    while i < a.len() {
        if b.len() <= j {
            return false;
        }
        if a[i] != b[j] {
            return false;
        }
        i += width(qa, a[i]);
        j += width(qb, b[j]);
    }
    b.len() <= j
}

// Are two raw fields equal by value?
pub fn same_value(a: &[u8], b: &[u8]) -> bool
    ensures { result ≡ same (value a.now) (value b.now) }
{
    same_content(content_of(a), is_marked(a), content_of(b), is_marked(b))
}

// Is the value of a raw field this name?
pub fn is_name(raw: &[u8], name: &[u8]) -> bool
    ensures { result ≡ same (value raw.now) name.now }
{
    same_content(content_of(raw), is_marked(raw), name, false)
}

// Are two byte strings equal?
pub fn same_bytes(a: &[u8], b: &[u8]) -> bool
    ensures { result ≡ same a.now b.now }
{
    a == b
}
