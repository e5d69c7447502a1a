#![tactic(auto)]
// The numbers that the fields of one located line say.
ghost use Rattle.std.specs.Prelude.{◌≡◌, cond, List, ℕ, ◌^◌, ◌<◌, ◌≤◌, pos, length};
ghost use Rattle.meaning.specs.Bytes.{part};
ghost use Rattle.meaning.specs.Columns.{row_of};
ghost use Rattle.meaning.specs.Forms.{latitude_of, longitude_of, time_of, date_of, sequence_of, choice_of, route_type_of, exception_of};
ghost use Rattle.meaning.specs.Tables.{degrees, day, number, seconds, picked, one_if, or_zero, or_minus, packed_days, kind_of, placed};
ghost use Rattle.forms.specs.Bounds.{ChoiceFits};
ghost use Rattle.std.proofs.Props.{props};
ghost use Rattle.values.specs.Located.{field_in, value_in, Within, Located};

use meaning::{Bounds, Time};

// The number of a choice.
fn chosen(c: Option<u32>) -> u32
    ensures { (result ≡ one_if c) × ((m : ℕ) → ChoiceFits m c → result ≤ m) }
{
    c.unwrap_or(0)
}

// A line with its cells: where the field under each known column lies in it, and what it says.
#[derive(Clone, Copy)]
pub struct LocatedLine<'a> {
    pub line: &'a [u8],
    pub cells: [Bounds; 10],
    ghost within: { Within (length line.now) cells } by { Prim.hlevel props },
}

impl<'a> LocatedLine<'a> {
    // The raw field under known column k.
    pub fn raw(&self, k: usize) -> &'a [u8]
        requires { k < 10 }
        ensures { result.now ≡ part self.now.line.now (field_in self.now.cells k) }
    {
        let Bounds { start, end } = self.cells[k];
        &self.line[start..end]
    }

    pub fn latitude(&self, k: usize) -> i32
        requires { k < 10 }
        ensures { result ≡ degrees (latitude_of (value_in self.now.line.now self.now.cells k)) }
    {
        forms::latitude_of(self.raw(k)).unwrap_or(0)
    }

    pub fn longitude(&self, k: usize) -> i32
        requires { k < 10 }
        ensures { result ≡ degrees (longitude_of (value_in self.now.line.now self.now.cells k)) }
    {
        forms::longitude_of(self.raw(k)).unwrap_or(0)
    }

    // A date as it is stored.
    pub fn date(&self, k: usize) -> u32
        requires { k < 10 }
        ensures { (pos result ≡ day (date_of (value_in self.now.line.now self.now.cells k))) × (result < 2 ^ 31) }
    {
        forms::date_of(self.raw(k)).unwrap_or(0)
    }

    // A stop_sequence.
    pub fn sequence(&self, k: usize) -> u32
        requires { k < 10 }
        ensures { (pos result ≡ number (sequence_of (value_in self.now.line.now self.now.cells k))) × (result < 2 ^ 31) }
    {
        forms::sequence_of(self.raw(k)).unwrap_or(0)
    }

    // A time in seconds; empty is -1.
    pub fn clock(&self, k: usize) -> i32
        requires { k < 10 }
        ensures { result ≡ seconds (time_of (value_in self.now.line.now self.now.cells k)) }
    {
        match forms::time_of(self.raw(k)) {
            Time::Seconds(n) => n as i32,
            Time::Untimed | Time::NoTime => -1,
        }
    }

    pub fn route_type(&self, k: usize) -> u32
        requires { k < 10 }
        ensures { (pos result ≡ picked (route_type_of (value_in self.now.line.now self.now.cells k))) × (result < 2 ^ 31) }
    {
        chosen(forms::route_type_of(self.raw(k)))
    }

    pub fn exception(&self, k: usize) -> u32
        requires { k < 10 }
        ensures { (pos result ≡ picked (exception_of (value_in self.now.line.now self.now.cells k))) × (result < 2 ^ 31) }
    {
        chosen(forms::exception_of(self.raw(k)))
    }

    // A day mark.
    pub fn mark(&self, k: usize) -> u32
        requires { k < 10 }
        ensures { (result ≡ one_if (choice_of 1 (value_in self.now.line.now self.now.cells k))) × (result ≤ 1) }
    {
        chosen(forms::choice_of(self.raw(k), 1))
    }

    // A choice, 0 to m; empty means 0.
    pub fn choice_or_zero(&self, k: usize, m: u8) -> u32
        requires { k < 10 }
        ensures { (pos result ≡ or_zero m (value_in self.now.line.now self.now.cells k)) × (result ≤ m) }
    {
        let v = self.raw(k);
        if text::is_empty_value(v) {
            return 0;
        }
        chosen(forms::choice_of(v, m))
    }

    // A choice, 0 to m; empty means -1.
    pub fn choice_or_minus(&self, k: usize, m: u8) -> i32
        requires { k < 10 }
        ensures { result ≡ or_minus m (value_in self.now.line.now self.now.cells k) }
    {
        let v = self.raw(k);
        if text::is_empty_value(v) {
            return -1;
        }
        chosen(forms::choice_of(v, m)) as i32
    }

    // The location_type of a line of stops.txt; empty means 0, and so does a value not of its form.
    pub fn location_type(&self) -> u32
        ensures { (ps : List ℕ) → Located self.now.line.now ps self.now.cells → result ≡ kind_of (row_of ps self.now.line.now) }
    {
        chosen(forms::choice_of(self.raw(4), 4))
    }

    // Has a line of stops.txt a place: is one of its coordinates there?
    pub fn has_place(&self) -> bool
        ensures { (ps : List ℕ) → Located self.now.line.now ps self.now.cells → result ≡ placed (row_of ps self.now.line.now) }
    {
        !text::is_empty_value(self.raw(2)) || !text::is_empty_value(self.raw(3))
    }

    // The mark of a place: 1 with one, 0 without.
    pub fn place_mark(&self) -> u32
        ensures { (((ps : List ℕ) → Located self.now.line.now ps self.now.cells → result ≡ cond (placed (row_of ps self.now.line.now)) 1 0)) × (result < 2 ^ 31) }
    {
        u32::from(self.has_place())
    }

    // The seven day marks packed in one number with Monday lowest.
    pub fn packed_days(&self) -> u32
        ensures { (((ps : List ℕ) → Located self.now.line.now ps self.now.cells → result ≡ packed_days (row_of ps self.now.line.now))) × (result < 2 ^ 31) }
    {
        let mut n: u32 = 0;
        for d in (1..8).rev() {
            n = self.mark(d) + 2 * n;
        }
        n
    }
}
