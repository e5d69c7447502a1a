#![tactic(auto)]
// Value forms: time, date, coordinate, number and choice.
ghost use Rattle.std.specs.Prelude.{◌≡◌, Bool, ℕ, ◌+◌, ◌≤◌, ◌<◌, length, drop, Some};
ghost use Rattle.meaning.specs.Bytes.{value};
ghost use Rattle.meaning.specs.Forms.{time_of, date_of, latitude_of, longitude_of, sequence_of, choice_of, route_type_of, exception_of, clock_of, clock, time_text, leap, days_in, is_day, date_text, to_point, signed, size_text, degrees_text, digit_text, route_type_text};
ghost use Rattle.forms.specs.Bounds.{TimeFits, DateFits, DegreesFits, NumberFits, ChoiceFits};
ghost use Rattle.forms.specs.Parts.{pointed_at, beyond, sized};

use meaning::Time;

// Hours, minutes and seconds as one time.
fn clock_of(colons: bool, h: Option<u32>, m: Option<u32>, x: Option<u32>) -> Time
    requires { (n : ℕ) → h ≡ Some n → n < 100 }
    ensures { result ≡ clock_of colons h m x }
{
    let (Some(a), Some(b), Some(e)) = (h, m, x) else {
        return Time::NoTime;
    };
    if colons && b < 60 && e < 60 {
        return Time::Seconds(a * 3600 + b * 60 + e);
    }
    Time::NoTime
}

// A text of k hour digits, then :MM:SS.
fn clock_at(v: &[u8], k: usize) -> Time
    requires { (length v.now ≡ k + 6) × (k ≤ 2) }
    ensures { result ≡ clock k v.now }
{
    let h = digits::number(&v[..k]);
    let m = digits::number(&v[k + 1..k + 3]);
    let x = digits::number(&v[k + 4..]);
    clock_of(v[k] == b':' && v[k + 3] == b':', h, m, x)
}

// The time that a text writes.
fn time_text(v: &[u8]) -> Time
    ensures { result ≡ time_text v.now }
{
    match v.len() {
        0 => Time::Untimed,
        7 => clock_at(v, 1),
        8 => clock_at(v, 2),
        _ => Time::NoTime,
    }
}

// Is a year a leap year?
fn is_leap(y: u32) -> bool
    ensures { result ≡ leap y }
{
    y % 4 == 0 && (y % 100 != 0 || y % 400 == 0)
}

const MONTH_DAYS: [u32; 13] = [0, 31, 28, 31, 30, 31, 30, 31, 31, 30, 31, 30, 31];

// How many days a month of a year has.
fn days_in(y: u32, m: u32) -> u32
    requires { m ≤ 12 }
    ensures { result ≡ days_in y m }
{
    if m == 2 && is_leap(y) {
        29
    } else {
        MONTH_DAYS[m as usize]
    }
}

// Is a number YYYYMMDD a true Gregorian date?
fn is_day(n: u32) -> bool
    ensures { result ≡ is_day n }
{
    let y = n / 10000;
    let m = n / 100 % 100;
    let d = n % 100;
    if y < 1 || m < 1 || 12 < m || d < 1 {
        return false;
    }
    d <= days_in(y, m)
}

// The date that a text writes.
fn date_text(v: &[u8]) -> Option<u32>
    ensures { result ≡ date_text v.now }
{
    if v.len() != 8 {
        return None;
    }
    let n = digits::number(v)?;
    is_day(n).then_some(n)
}

// How many bytes stand before the first point.
fn to_point(v: &[u8]) -> usize
    ensures { (result ≡ to_point v.now) × (result ≤ length v.now) }
{
    v.iter().position(|b| *b == b'.').unwrap_or(v.len())
}

// Are these the digit counts of a coordinate: p bytes before the point, n bytes in all?
fn is_pointed(p: usize, n: usize) -> bool
    ensures { result ≡ pointed_at p n }
{
    if p < 1 || 3 < p {
        return false;
    }
    n <= p || (p + 2 <= n && n <= p + 21)
}

// What stands behind the point, which stands at p.
fn tail_of(v: &[u8], p: usize) -> &[u8]
    requires { p ≤ length v.now }
    ensures { result.now ≡ drop (p + 1) v.now }
{
    if p < v.len() { &v[p + 1..] } else { &v[p..] }
}

// Does a whole number with decimals, one of them not 0 where `some`, lie beyond a limit?
fn is_beyond(limit: u32, w: u32, some: bool) -> bool
    ensures { result ≡ beyond limit w some }
{
    if w == limit { some } else { limit < w }
}

// A size with its sign.
fn signed_of(below: bool, n: u32) -> i32
    requires { n < 2147483648 }
    ensures { result ≡ signed below n }
{
    let z = n as i32;
    if below { -z } else { z }
}

// Whole degrees and decimals as one coordinate.
fn sized_of(limit: u32, below: bool, whole: Option<u32>, tail: Option<(u32, bool)>) -> Option<i32>
    requires { (limit ≤ 180) × ((n : ℕ) (t : Bool) → tail ≡ Some (n, t) → n < 10000000) }
    ensures { result ≡ sized limit below whole tail }
{
    let w = whole?;
    let (n, some) = tail?;
    if is_beyond(limit, w, some) {
        return None;
    }
    Some(signed_of(below, w * 10000000 + n))
}

// The coordinate that a text without sign writes.
fn size_text(limit: u32, below: bool, v: &[u8]) -> Option<i32>
    requires { limit ≤ 180 }
    ensures { result ≡ size_text limit below v.now }
{
    let p = to_point(v);
    if !is_pointed(p, v.len()) {
        return None;
    }
    sized_of(
        limit,
        below,
        digits::number(&v[..p]),
        digits::decimals(tail_of(v, p)),
    )
}

// The coordinate that a text writes.
fn degrees_text(limit: u32, v: &[u8]) -> Option<i32>
    requires { limit ≤ 180 }
    ensures { result ≡ degrees_text limit v.now }
{
    match v.split_first() {
        Some((b'-', size)) => size_text(limit, true, size),
        _ => size_text(limit, false, v),
    }
}

// The choice, a to m, that a text of one digit writes.
fn digit_text(a: u8, m: u8, v: &[u8]) -> Option<u32>
    ensures { result ≡ digit_text a m v.now }
{
    if v.len() != 1 {
        return None;
    }
    let digit = v[0].checked_sub(b'0')?;
    (a <= digit && digit <= m).then_some(u32::from(digit))
}

// The route type that a text writes.
fn route_type_text(v: &[u8]) -> Option<u32>
    ensures { result ≡ route_type_text v.now }
{
    match v {
        b"11" => Some(11),
        b"12" => Some(12),
        _ => digit_text(0, 7, v),
    }
}

// The time that a raw field's value writes.
pub fn time_of(raw: &[u8]) -> Time
    ensures { (result ≡ time_of (value raw.now)) × TimeFits result }
{
    time_text(text::content_of(raw))
}

// The date that a raw field's value writes.
pub fn date_of(raw: &[u8]) -> Option<u32>
    ensures { (result ≡ date_of (value raw.now)) × DateFits result }
{
    date_text(text::content_of(raw))
}

// The latitude that a raw field's value writes.
pub fn latitude_of(raw: &[u8]) -> Option<i32>
    ensures { (result ≡ latitude_of (value raw.now)) × DegreesFits 90 result }
{
    degrees_text(90, text::content_of(raw))
}

// The longitude that a raw field's value writes.
pub fn longitude_of(raw: &[u8]) -> Option<i32>
    ensures { (result ≡ longitude_of (value raw.now)) × DegreesFits 180 result }
{
    degrees_text(180, text::content_of(raw))
}

// The stop_sequence that a raw field's value writes.
pub fn sequence_of(raw: &[u8]) -> Option<u32>
    ensures { (result ≡ sequence_of (value raw.now)) × NumberFits result }
{
    digits::number(text::content_of(raw))
}

// The choice, 0 to m, that a raw field's value writes.
pub fn choice_of(raw: &[u8], m: u8) -> Option<u32>
    ensures { (result ≡ choice_of m (value raw.now)) × ChoiceFits m result }
{
    digit_text(0, m, text::content_of(raw))
}

// The route type that a raw field's value writes.
pub fn route_type_of(raw: &[u8]) -> Option<u32>
    ensures { (result ≡ route_type_of (value raw.now)) × ChoiceFits 12 result }
{
    route_type_text(text::content_of(raw))
}

// The exception_type, 1 or 2, that a raw field's value writes.
pub fn exception_of(raw: &[u8]) -> Option<u32>
    ensures { (result ≡ exception_of (value raw.now)) × ChoiceFits 2 result }
{
    digit_text(1, 2, text::content_of(raw))
}
