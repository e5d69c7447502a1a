#![tactic(auto)]
// A file read by itself: its own rules, but for rule 3, since no table is lent.
ghost use Rattle.std.specs.Prelude.{◌≡◌, ◌<◌, Err};
ghost use Rattle.meaning.specs.Bytes.{count_lf};
ghost use Rattle.indexes.specs.Index.{lone_verdict};

use meaning::{MAX_BYTES, MAX_LINES, Refusal};

// The refusal of a file as a whole.
fn refused(number: usize, file: usize) -> Result<(), Refusal>
    ensures { result ≡ Err (record { number = number; file = file; line = 0; column = 0 }) }
{
    Err(Refusal {
        number,
        file,
        line: 0,
        column: 0,
    })
}

// Can one of files 1 to 4, which has so many LF bytes, be read by itself? If not, the first broken rule with its line and column.
pub fn read_alone(f: usize, s: &[u8], lf: usize) -> Result<(), Refusal>
    requires { (0 < f) × (f < 5) × (lf ≡ count_lf s.now) }
    ensures { result ≡ lone_verdict f s.now }
{
    if MAX_BYTES < s.len() {
        return refused(1, f);
    }
    if MAX_LINES < lf {
        return refused(2, f);
    }
    if text::ends_with_lf(s) {
        return reading::read_file(f, s);
    }
    refused(4, f)
}
