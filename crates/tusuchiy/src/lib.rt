#![tactic(auto)]
// The whole check, and every refusal at once.
ghost use Rattle.std.specs.Prelude.{◌≡◌, map, cond, eqb, length, get_or, ℕ, ◌+◌, ◌*◌, ◌<◌, ◌≤◌, Ok};
ghost use Rattle.meaning.specs.Bytes.{count_lf};
ghost use Rattle.meaning.specs.Refusals.{max_bytes, max_lines, few_lines, verdict_of};
ghost use Rattle.meaning.specs.Outcome.{read_outcome, outcome};
ghost use Rattle.marks.specs.Marks.{Blank};
ghost use Rattle.lent.specs.Lent.{held, Same};
ghost use Rattle.listing.specs.Handing.{state};
ghost use Rattle.faults.specs.Told.{told};
ghost use Rattle.tusuchiy.specs.Small.{Small};

use lent::Tables;
use listing::{Listing, Sink};
use meaning::{Answer, FEW_LINES, MAX_LINES, Place, Profile};

// Accepted exactly when there is no finding; else how many are written, and how many there are.
fn answer_of(k: Sink) -> Answer
    ensures { result ≡ cond (eqb k.total 0) Answer.Accepted (Answer.Findings k.written k.total) }
{
    if k.total == 0 {
        return Answer::Accepted;
    }
    Answer::Findings {
        written: k.written,
        total: k.total,
    }
}

// How many LF bytes each file has.
fn count_all(files: [&[u8]; 6]) -> [usize; 6]
    ensures { result ≡ map count_lf (map (λ x. x.now) files.entry) }
{
    // tried with `files.map`: what it ensures of its items (`items`) the search did not bring to `map count_lf`
    let mut counts = [0usize; 6];
    for i in 0..6 {
        counts[i] = text::count_lf(files[i]);
    }
    counts
}

// A readable feed, whose files have so many LF bytes each, and marks with an entry for each line: its tables are filled and its findings handed out.
fn checked_with(
    files: [&[u8]; 6],
    counts: [usize; 6],
    tables: &mut Tables,
    findings: &mut [i32],
    marks: &mut [u16],
    from: Place,
    asked: Profile,
) -> Answer
    requires read { verdict_of (map (λ x. x.now) files) (map length (held tables.old)) ≡ Ok tt }
    requires counts_value { counts ≡ map count_lf (map (λ x. x.now) files) }
    requires blank { Blank marks.old × ((i : ℕ) → i < 6 → get_or counts i 0 ≤ length marks.old) }
    ensures same { Same tables.old tables.new }
    ensures asked_value { read_outcome (map (λ x. x.now) files.entry) (held tables.old) findings.old from asked
        ≡ record { answer = result; tables = held tables.new; list = findings.new } }
    ensures small { Small result }
{
    tables::fill_all(files, tables, marks);
    answer_of(rules::list_findings(counts, tables, marks, findings, from, asked))
}

// The same, where no file has more than N lines.
fn checked_up_to<const N: usize>(
    files: [&[u8]; 6],
    counts: [usize; 6],
    tables: &mut Tables,
    findings: &mut [i32],
    from: Place,
    asked: Profile,
) -> Answer
    requires read { verdict_of (map (λ x. x.now) files) (map length (held tables.old)) ≡ Ok tt }
    requires counts_value { counts ≡ map count_lf (map (λ x. x.now) files) }
    requires by_index { (i : ℕ) → i < 6 → get_or counts i 0 ≤ N }
    requires room { N ≤ max_lines }
    ensures same { Same tables.old tables.new }
    ensures asked_value { read_outcome (map (λ x. x.now) files.entry) (held tables.old) findings.old from asked
        ≡ record { answer = result; tables = held tables.new; list = findings.new } }
    ensures small { Small result }
{
    let mut marks = marks::blank::<N>();
    checked_with(files, counts, tables, findings, &mut marks, from, asked)
}

// The same, with marks by the number of lines: the first i files have few. It calls itself and makes no loop, in which the compiler would put both arrays into
// the caller's frame: a small feed would touch every page of the large one.
fn checked_from(
    i: usize,
    files: [&[u8]; 6],
    counts: [usize; 6],
    tables: &mut Tables,
    findings: &mut [i32],
    from: Place,
    asked: Profile,
) -> Answer
    requires read { verdict_of (map (λ x. x.now) files) (map length (held tables.old)) ≡ Ok tt }
    requires counts_value { counts ≡ map count_lf (map (λ x. x.now) files) }
    requires i_bound { (i ≤ 6) × ((k : ℕ) → k < i → get_or counts k 0 ≤ few_lines) }
    ensures same { Same tables.old tables.new }
    ensures asked_value { read_outcome (map (λ x. x.now) files.entry) (held tables.old) findings.old from asked
        ≡ record { answer = result; tables = held tables.new; list = findings.new } }
    ensures small { Small result }
{
    if i == 6 {
        return checked_up_to::<FEW_LINES>(files, counts, tables, findings, from, asked);
    }
    if FEW_LINES < counts[i] {
        return checked_up_to::<MAX_LINES>(files, counts, tables, findings, from, asked);
    }
    checked_from(i + 1, files, counts, tables, findings, from, asked)
}

// The check: from six files, six tables and a list as lent, a starting place and the rules asked for, to the answer and what all seven hold.
pub fn check(
    files: [&[u8]; 6],
    tables: &mut Tables,
    findings: &mut [i32],
    from: Place,
    asked: Profile,
) -> Answer
    ensures same { Same tables.old tables.new }
    ensures asked_value { outcome (map (λ x. x.now) files.entry) (held tables.old) findings.old from asked
        ≡ record { answer = result; tables = held tables.new; list = findings.new } }
    ensures small { Small result }
{
    let counts = count_all(files);
    let rooms = tables.lengths();
    match reading::verdict(files, rooms, counts) {
        Ok(()) => checked_from(0, files, counts, tables, findings, from, asked),
        Err(r) => Answer::Refused(r),
    }
}

// Every refusal of six files at once: those after the starting place are written into a lent list, as many as fit; and how many there are.
pub fn faults(files: [&[u8]; 6], list: &mut [i32], from: Place) -> Sink
    ensures result_after { state list.new result ≡ told (map (λ x. x.now) files.entry) from list.old }
    ensures written_le_total { (result.written ≤ result.total) × (result.total ≤ 6 * (max_bytes + 4)) }
{
    let dated = files[5].len() != 0;
    let mut told = Listing {
        out: list,
        from,
        sink: Sink {
            written: 0,
            total: 0,
        },
    };
    for (i, file) in files.iter().enumerate() {
        file_faults::list_faults(i + 1, file, dated, &mut told);
    }
    told.sink
}
