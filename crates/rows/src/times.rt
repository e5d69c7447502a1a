// What stored times say: is one given, are both, how many seconds.
ghost use Rattle.std.specs.Prelude.{◌≡◌, ◌&&◌};
ghost use Rattle.meaning.specs.Rules.{given, seconds_of};

use meaning::Time;

// Is a time given?
pub fn is_given(x: Time) -> bool
    ensures { result ≡ given x }
{
    matches!(x, Time::Seconds(_))
}

// Are both times of a line given?
pub fn is_timed(arrival: Time, departure: Time) -> bool
    ensures { result ≡ (given arrival && given departure) }
{
    is_given(arrival) & is_given(departure)
}

// A time's seconds; 0 where none is given.
pub fn seconds_of(x: Time) -> usize
    ensures { result ≡ seconds_of x }
{
    match x {
        Time::Seconds(n) => n as usize,
        Time::Untimed | Time::NoTime => 0,
    }
}
