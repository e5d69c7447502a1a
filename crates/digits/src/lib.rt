#![tactic(auto)]
// Runs of digits: the number that one to nine write, and what the decimals behind a point write.
ghost use Rattle.std.specs.Prelude.{◌≡◌, Bool, ℕ, ◌<◌, ◌^◌, length, Some};
ghost use Rattle.meaning.specs.Forms.{sequence_text};
ghost use Rattle.digits.specs.Decimals.{decimals_of};

// The number that one to nine digits write.
pub fn number(v: &[u8]) -> Option<u32>
    ensures { (result ≡ sequence_text v.now) × ((n : ℕ) → result ≡ Some n → n < 10 ^ length v.now) × ((n : ℕ) → result ≡ Some n → n < 1000000000) }
{
    if v.is_empty() || 9 < v.len() {
        return None;
    }
    let mut n: u32 = 0;
    for b in v {
        if !b.is_ascii_digit() {
            return None;
        }
        n = n * 10 + u32::from(*b - b'0');
    }
    Some(n)
}

// The ten-millionths that digits behind a point write, further digits dropped, and whether one of all of them isn't 0:
// a digit past the seventh has no unit left.
pub fn decimals(v: &[u8]) -> Option<(u32, bool)>
    ensures { (result ≡ decimals_of v.now) × ((n : ℕ) (t : Bool) → result ≡ Some (n, t) → n < 10000000) }
{
    let mut n: u32 = 0;
    let mut unit: u32 = 1000000;
    let mut some = false;
    for b in v {
        if !b.is_ascii_digit() {
            return None;
        }
        n += u32::from(*b - b'0') * unit;
        unit /= 10;
        some |= *b != b'0';
    }
    Some((n, some))
}
