#![tactic(auto)]
// The mark and the numbers in an index's bytes, be they many or few: past the end stands 0.
ghost use Rattle.std.specs.Prelude.{◌≡◌, ◌^◌, ◌<◌, get_or};
ghost use Rattle.indexes.specs.Index.{number_at, index_length, entry, rule40, rule41};

use indexes::{BEFORE, LEAST, Version};

// A byte, 0 past the end.
pub fn byte_at(b: &[u8], at: usize) -> usize
    ensures { (result ≡ get_or b.now at 0) × (result < 256) }
{
    match b.get(at) {
        Some(&byte) => usize::from(byte),
        None => 0,
    }
}

// The number that two bytes write, low byte first.
pub fn pair_at(b: &[u8], at: usize) -> usize
    requires { at < 2 ^ 41 }
    ensures { (result ≡ number_at 2 b.now at) × (result < 65536) }
{
    let low = byte_at(b, at);
    let high = byte_at(b, at + 1);
    low + 256 * high
}

// The number that as many bytes write as a version has for one.
pub fn number_at(b: &[u8], v: Version, at: usize) -> usize
    requires { at < 2 ^ 40 }
    ensures { (result ≡ number_at v.width b.now at) × (result < 2 ^ 32) }
{
    let low = pair_at(b, at);
    if v.width == 2 {
        return low;
    }
    let high = pair_at(b, at + 2);
    low + 65536 * high
}

// How many bytes an index of n records has.
pub fn length_of(v: Version, n: usize) -> usize
    requires { n < 2 ^ 32 }
    ensures { (result ≡ index_length v n) × (result < 2 ^ 40) }
{
    let w = v.width;
    BEFORE + w + n * w
}

// The record number with index i, which stands behind those of i records.
pub fn entry_at(b: &[u8], v: Version, i: usize) -> usize
    requires { i < 2 ^ 32 }
    ensures { (result ≡ entry v b.now i) × (result < 2 ^ 32) }
{
    number_at(b, v, length_of(v, i))
}

// 40: is an index shorter than 8 bytes, or has it a wrong mark?
pub fn is_unmarked(b: &[u8]) -> bool
    ensures { result ≡ rule40 b.now }
{
    b.len() < LEAST || !b.starts_with(b"TTX")
}

// 41: has it another version than 1 or 2?
pub fn is_unknown(b: &[u8]) -> bool
    ensures { result ≡ rule41 b.now }
{
    let k = pair_at(b, 3);
    k != 1 && k != 2
}
