#![tactic(auto)]
// Marks: what only a line's text or the order of its file's ids can tell of a record, a bit each in one array that all files share.
ghost use Rattle.std.specs.Prelude.{◌≡◌, ◌<◌};
ghost use Rattle.marks.specs.Marks.{marked, Blank, OneMore, MarkedIf};

// Mark f, of files 1 to 4 and 6: the id of the line, with its date in file 6, stands on an earlier one of file f. The marks from 7 on have names.
// They are numbers and no enum, since the contracts of `is_marked`, `mark` and `mark_if` (`marked m b r`) take a file's number for its mark.
pub const PARENT: usize = 7;

pub const NAMELESS: usize = 8;

// Of a line of stop_times: an earlier line of its trip has its sequence; it arrives before a smaller sequence departs.
pub const EQUAL: usize = 9;

pub const FALLING: usize = 10;

// Of a trip: it has two lines at least; its first or its last isn't timed; a walk in file order has come to it.
pub const PAIRED: usize = 11;

pub const OPEN: usize = 12;

pub const MET: usize = 13;

// Lent as a slice: a struct of it would have one field, and no fact about it stands in the contracts of three functions.

// No record is marked. Where files have no more than N lines, record r of any file has entry r.
pub fn blank<const N: usize>() -> [u16; N]
    ensures { Blank result }
{
    [0u16; N]
}

// Has record r mark b? None has that has no entry.
pub fn is_marked(m: &[u16], b: usize, r: usize) -> bool
    requires { b < 16 }
    ensures { result ≡ marked m.now b r }
{
    r < m.len() && (m[r] >> b) % 2 == 1
}

// Record r gets mark b, if it has an entry.
pub fn mark(m: &mut [u16], b: usize, r: usize)
    requires { b < 16 }
    ensures { OneMore m.old m.new b r }
{
    if r < m.len() {
        m[r] |= 1u16 << b;
    }
}

// Record r gets mark b where p holds, if it has an entry.
pub fn mark_if(m: &mut [u16], b: usize, r: usize, p: bool)
    requires { b < 16 }
    ensures { MarkedIf p m.old m.new b r }
{
    if p {
        mark(m, b, r);
    }
}
