#![tactic(auto)]
// What a signed number is where an unsigned one is asked for.
ghost use Rattle.std.specs.Prelude.{◌≡◌, ◌^◌, ◌<◌, nat_abs};
ghost use Rattle.num.specs.Signs.{nat_of};

// A stored number read back; a negative one is a number past every file and every record.
pub fn nat(x: i32) -> usize
    ensures value { result ≡ nat_of x }
    ensures upper_bound { result < 2 ^ 32 }
{
    usize::try_from(x).unwrap_or(4294967295)
}

// How far a number is from 0.
pub fn size(x: i32) -> usize
    ensures { result ≡ nat_abs x }
{
    x.unsigned_abs() as usize
}
