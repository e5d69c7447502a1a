#![tactic(auto)]
// What an index beside the feed is, and what is answered about one.
ghost use Rattle.std.specs.Prelude.{◌≡◌};
ghost use Rattle.indexes.specs.Index.{version_of, version_named};

mod version; // version.rt: what a version is

use meaning::Refusal;
pub use version::Version;

// The least bytes of an index, by rule 40.
pub const LEAST: usize = 8;

// How many bytes stand before the count.
pub const BEFORE: usize = 6;

// The version whose numbers stand in two bytes.
const FIRST: Version = Version {
    number: 1,
    width: 2,
};

// The version whose numbers stand in four.
const SECOND: Version = Version {
    number: 2,
    width: 4,
};

// Version 1 up to 65,535 records and version 2 above.
pub fn version_of(n: usize) -> Version
    ensures { result ≡ version_of n }
{
    if n < 65536 { FIRST } else { SECOND }
}

// The version with number 1; any other number is taken for that of the second.
pub fn version_named(k: usize) -> Version
    ensures { result ≡ version_named k }
{
    if k == 1 { FIRST } else { SECOND }
}

// Why an index is neither written nor accepted. Else the writer and the reader answer its length.
#[derive(Clone, Copy)]
pub enum IndexRefusal {
    // the file's own refusal
    Unread(Refusal),
    // a refusal by its number in the documents, from 40 to 46, which names no file and no line
    Barred(usize),
}
