#![tactic(auto)]
// Entries handed out into a lent list: those after a starting place, as many as fit, and how many there are.
ghost use Rattle.std.specs.Prelude.{◌≡◌, ◌+◌, ◌^◌, ◌<◌, ◌≤◌, length};
ghost use Rattle.meaning.specs.Refusals.{claim};
ghost use Rattle.meaning.specs.Pages.{behind, place_in};
ghost use Rattle.listing.specs.Handing.{state, added, noted, SameList};

use meaning::Place;

// How far a list has come: how many entries are written, and how many there are.
#[derive(Clone, Copy)]
pub struct Sink {
    pub written: usize,
    pub total: usize,
}

// A lent list of entries: the place that they come after, and how far it has come.
#[derive(Drop)]
pub struct Listing<'a> {
    pub out: &'a mut [i32],
    pub from: Place,
    pub sink: Sink,
}

// Whether an entry, by its row, is strictly greater than the starting place.
fn comes_after(p: Place, e: &[i32]) -> bool
    requires { 3 ≤ length e.now }
    ensures { result ≡ behind p (place_in e.now) }
{
    let here = Place {
        file: e[0],
        line: e[1],
        rule: e[2],
    };
    p < here
}

impl Listing<'_> {
    // One entry more, by its row: file, line and rule, and whatever else it tells.
    pub fn hand_out(&mut self, e: &[i32])
        requires in_bounds { 3 ≤ length e.now }
        requires total_bound { self.old.sink.total < 2 ^ 62 }
        ensures same_list { SameList self.old self.new }
        ensures result_after { state self.new.out.now self.new.sink ≡ added self.old.from e.now (state self.old.out.now self.old.sink) }
        ensures total_value { self.new.sink.total ≡ self.old.sink.total + 1 }
    {
        let Sink { written, total } = self.sink;
        self.sink.total = total + 1;
        if comes_after(self.from, e) && written < self.out.len() / e.len() {
            rows::cells::store(self.out, written * e.len(), e);
            self.sink.written = written + 1;
        }
    }

    // One claim more.
    pub fn note(&mut self, broken: bool, file: usize, line: usize, rule: usize)
        requires file_bound { (file < 2 ^ 31) × ((line < 2 ^ 31) × (rule < 2 ^ 31)) }
        requires total_bound { self.old.sink.total < 2 ^ 62 }
        ensures same_list { SameList self.old self.new }
        ensures result_after { state self.new.out.now self.new.sink ≡ noted self.old.from (claim rule file line broken) (state self.old.out.now self.old.sink) }
        ensures total_bound_2 { self.new.sink.total ≤ self.old.sink.total + 1 }
    {
        if broken {
            let d = [file as i32, line as i32, rule as i32];
            self.hand_out(&d);
        }
    }
}
