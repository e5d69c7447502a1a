#![tactic(auto)]
// The types and the limits that definitions and code share.

// The most bytes of a file, by rule 1.
pub const MAX_BYTES: usize = 134217728;

// The most LF bytes of a file, by rule 2; as many entries has every array with one for each line.
pub const MAX_LINES: usize = 1048576;

// So many entries has such an array where no file has more lines, so that small feeds don't pay for the limit.
pub const FEW_LINES: usize = 65536;

// Where something starts and where it ends, the end excluded.
#[derive(Clone, Copy)]
pub struct Bounds {
    pub start: usize,
    pub end: usize,
}

// On which lines a column needs a value: on none; on all but those of type 3 or 4; on all but those of them without a coordinate; on all.
#[derive(Clone, Copy, PartialEq, Eq, PartialOrd, Ord)]
pub enum Need {
    Never,
    AllButInner,
    AllButPlaceless,
    Always,
}

// The form of a column's values; a choice goes from 0 to its highest number.
#[derive(Clone, Copy, PartialEq, Eq)]
pub enum Form {
    Text,
    Time,
    Date,
    Latitude,
    Longitude,
    Sequence,
    Choice(u8),
    RouteType,
    ExceptionType,
}

// What document 01 asks of a known column: must it be present, on which lines it needs a value, is it an id, and which form it has.
#[derive(Clone, Copy)]
pub struct Column {
    pub must: bool,
    pub need: Need,
    pub ident: bool,
    pub form: Form,
}

// What the value of a time says: seconds, nothing, or that it is no time.
#[derive(Clone, Copy)]
pub enum Time {
    Seconds(u32),
    Untimed,
    NoTime,
}

// A refusal: the number of the broken rule, its file, its line (0 for a whole file) and its column (0: none is told).
#[derive(Clone, Copy)]
pub struct Refusal {
    pub number: usize,
    pub file: usize,
    pub line: usize,
    pub column: usize,
}

// Which rules bind: those of every feed, or those that boards add too.
#[derive(Clone, Copy)]
pub enum Profile {
    Plain,
    Boards,
}

// The starting place of a call: any three numbers, compared in that order.
#[derive(Clone, Copy, PartialEq, Eq, PartialOrd, Ord)]
pub struct Place {
    pub file: i32,
    pub line: i32,
    pub rule: i32,
}

// The answer of a check.
#[derive(Clone, Copy)]
pub enum Answer {
    Accepted,
    Findings { written: usize, total: usize },
    Refused(Refusal),
}
