// Whole records written and single numbers read, for tables of any width.
ghost use Rattle.std.specs.Prelude.{◌≡◌, ◌∷◌, [], ◌+◌, ◌*◌, ◌-◌, ◌^◌, ◌<◌, ◌≤◌, pos, length, get_or, set, take, replicate};
ghost use Rattle.meaning.specs.Lists.{laid};
ghost use Rattle.rows.specs.Cells.{put_at, nat_at, bounds_at, time_at};

use meaning::{Bounds, Time};

// A record, written from a place on.
pub fn store(t: &mut [i32], at: usize, r: &[i32])
    requires { at + length r.now ≤ length t.old }
    ensures { t.new ≡ put_at t.old at r.now }
{
    t[at..at + r.len()].copy_from_slice(r);
}

// The place of a record's id, a number to order it by and, where the record is wide enough, the place of one more field; zeros beside them.
pub fn put_places(t: &mut [i32], row: usize, width: usize, id: Bounds, key: u32, other: Bounds)
    requires width_bound { (width ≤ 8) × (row * width + width ≤ length t.old) }
    requires start_bound { (id.start < 2 ^ 31) × ((id.end < 2 ^ 31) × ((key < 2 ^ 31) × ((other.start < 2 ^ 31) × (other.end < 2 ^ 31)))) }
    ensures { t.new ≡ put_at t.old (row * width)
        (take width (pos id.start ∷ pos id.end ∷ pos key ∷ pos other.start ∷ pos other.end ∷ pos 0 ∷ pos 0 ∷ pos 0 ∷ [])) }
{
    let r = [
        id.start as i32,
        id.end as i32,
        key as i32,
        other.start as i32,
        other.end as i32,
        0,
        0,
        0,
    ];
    store(t, row * width, &r[..width]);
}

// Record 0 is all zero.
pub fn zero_record(t: &mut [i32], width: usize)
    requires { width ≤ length t.old }
    ensures { t.new ≡ laid (replicate width (pos 0)) t.old }
{
    t[..width].fill(0);
}

// Number k of a record; 0 where it lies outside the table.
pub fn number_of(t: &[i32], row: usize, width: usize, k: usize) -> i32
    requires { (0 < width) × (k < 8) }
    ensures { result ≡ get_or t.now (row * width + k) (pos 0) }
{
    if row <= t.len() / width {
        let at = row * width + k;
        if at < t.len() {
            return t[at];
        }
    }
    0
}

// The same as an unsigned number.
pub fn nat_of(t: &[i32], row: usize, width: usize, k: usize) -> usize
    requires { (0 < width) × (k < 8) }
    ensures { result ≡ nat_at t.now (row * width + k) }
{
    num::nat(number_of(t, row, width, k))
}

// The start and end with which a record begins.
pub fn bounds_of(t: &[i32], row: usize, width: usize) -> Bounds
    requires { 0 < width }
    ensures { result ≡ bounds_at t.now (row * width) }
{
    let start = nat_of(t, row, width, 0);
    let end = nat_of(t, row, width, 1);
    Bounds { start, end }
}

// Where the field lies that waits in numbers 3 and 4 of a record.
pub fn waiting_of(t: &[i32], row: usize, width: usize) -> Bounds
    requires { 0 < width }
    ensures { result ≡ bounds_at t.now (row * width + 3) }
{
    let start = nat_of(t, row, width, 3);
    let end = nat_of(t, row, width, 4);
    Bounds { start, end }
}

// The record that a waiting field names, in the last number of its own.
pub fn settle(t: &mut [i32], row: usize, width: usize, named: usize)
    requires { (0 < width) × ((row * width + width ≤ length t.old) × (named < 2 ^ 31)) }
    ensures { t.new ≡ set t.old (row * width + (width - 1)) (pos named) }
{
    t[row * width + (width - 1)] = named as i32;
}

// A stored time: a negative number is none.
pub fn time_of(t: &[i32], row: usize, width: usize, k: usize) -> Time
    requires { (0 < width) × (k < 8) }
    ensures { result ≡ time_at t.now (row * width + k) }
{
    let z = number_of(t, row, width, k);
    if z < 0 {
        return Time::Untimed;
    }
    Time::Seconds(num::nat(z) as u32)
}
