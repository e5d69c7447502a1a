#![tactic(auto)]
// What the stored numbers of one line, and a few tests of its values, say of each binding rule.
ghost use Rattle.std.specs.Prelude.{◌≡◌, ◌≤◌, ◌||◌, false};
ghost use Rattle.meaning.specs.Rules.{kind_of_parent, is_late};
ghost use Rattle.judging.specs.Judging.{filled_up, loose, off_kind, misplaced, half_timed, sooner, on_request, stop_judged, route_judged, service_judged, trip_judged, time_judged, date_judged};

use meaning::Time;
use rows::times;

// The most rules that a line of a file has.
pub const MOST_RULES: usize = 9;

// Two days, in seconds.
const TWO_DAYS: usize = 172800;

// 21: a reference that isn't empty has no record. Two values and no Option: `loose` asks of each by itself, and 0 is a reference's number for none.
fn is_loose(none: bool, at: usize) -> bool
    ensures { result ≡ loose none at }
{
    !none & (at == 0)
}

// 22, 23: the stop that a reference resolves to is of another kind.
fn is_off_kind(wanted: usize, at: usize, kind: usize) -> bool
    ensures { result ≡ off_kind wanted at kind }
{
    (at != 0) & (kind != wanted)
}

// The type that the parent of a stop must have: 0 for a boarding area, 1 for all others.
fn wanted_kind(kind: usize) -> usize
    ensures { result ≡ kind_of_parent kind }
{
    if kind == 4 {
        return 0;
    }
    1
}

// 22: a parent where there is to be none, none where there is to be one, or one of another type than it must have.
fn is_misplaced(none: bool, parent: usize, kind: usize, parent_kind: usize) -> bool
    ensures { result ≡ misplaced none parent kind parent_kind }
{
    let wanted = wanted_kind(kind);
    (kind == 1) & !none | ((1 < kind) & none | is_off_kind(wanted, parent, parent_kind))
}

// 27: the first of two times comes before the second.
fn is_sooner(a: Time, b: Time) -> bool
    ensures { result ≡ sooner a b }
{
    times::seconds_of(a) < times::seconds_of(b)
}

// 26: just one time given, or timepoint 1 without both.
fn is_half_timed(arrival: Time, departure: Time, timepoint: usize) -> bool
    ensures { result ≡ half_timed arrival departure timepoint }
{
    let one = times::is_given(arrival) | times::is_given(departure);
    !times::is_timed(arrival, departure) & (one | (timepoint == 1))
}

// 61: one of two choices is 2 or 3.
fn is_on_request(pickup: usize, drop_off: usize) -> bool
    ensures { result ≡ on_request pickup drop_off }
{
    (pickup == 2) | (pickup == 3) | ((drop_off == 2) | (drop_off == 3))
}

// 62: a time of two days or more.
fn is_late(x: Time) -> bool
    ensures { result ≡ is_late x }
{
    TWO_DAYS <= times::seconds_of(x)
}

// 62: one of two times is late.
fn is_either_late(arrival: Time, departure: Time) -> bool
    ensures { result ≡ (is_late arrival || is_late departure) }
{
    is_late(arrival) | is_late(departure)
}

// What was judged of the first rules of a line, filled up by false.
fn filled_up<const N: usize>(broken: [bool; N]) -> [bool; MOST_RULES]
    requires { N ≤ 9 }
    ensures { result ≡ filled_up false broken.entry }
{
    let mut all = [false; MOST_RULES];
    all[..N].copy_from_slice(&broken);
    all
}

// Rules 20, 21 and 22 on a line of stops.txt.
pub fn judge_stop(
    repeats: bool,
    no_parent: bool,
    parent: usize,
    kind: usize,
    parent_kind: usize,
) -> [bool; MOST_RULES]
    ensures { result ≡ stop_judged repeats no_parent parent kind parent_kind }
{
    filled_up([
        repeats,
        is_loose(no_parent, parent),
        is_misplaced(no_parent, parent, kind, parent_kind),
    ])
}

// Rules 20 and 25 on a line of routes.txt.
pub fn judge_route(repeats: bool, nameless: bool) -> [bool; MOST_RULES]
    ensures { result ≡ route_judged repeats nameless }
{
    filled_up([repeats, nameless])
}

// Rules 20 and 24 on a line of calendar.txt.
pub fn judge_service(repeats: bool, start: usize, end: usize) -> [bool; MOST_RULES]
    ensures { result ≡ service_judged repeats start end }
{
    filled_up([repeats, end < start])
}

// Rules 20, 21, 30 and 31 on a line of trips.txt, none of whose references is empty, by rule 12.
pub fn judge_trip(
    repeats: bool,
    route: usize,
    service: usize,
    dated: usize,
    paired: bool,
    open_ended: bool,
) -> [bool; MOST_RULES]
    ensures { result ≡ trip_judged repeats route service dated paired open_ended }
{
    filled_up([
        repeats,
        is_loose(false, route) | (is_loose(false, service) & is_loose(false, dated)),
        !repeats & !paired,
        !repeats & open_ended,
    ])
}

// Rules 21, 23, 26 to 29 and 60 to 62 on a line of stop_times.txt, neither of whose references is empty, by rule 12.
pub fn judge_time(
    trip: usize,
    stop: usize,
    stop_kind: usize,
    arrival: Time,
    departure: Time,
    pickup: usize,
    drop_off: usize,
    timepoint: usize,
    equal: bool,
    falling: bool,
) -> [bool; MOST_RULES]
    ensures { result ≡ time_judged trip stop stop_kind arrival departure pickup drop_off timepoint equal falling }
{
    [
        is_loose(false, trip) | is_loose(false, stop),
        is_off_kind(0, stop, stop_kind),
        is_half_timed(arrival, departure, timepoint),
        times::is_timed(arrival, departure) & is_sooner(departure, arrival),
        equal,
        falling,
        !times::is_timed(arrival, departure),
        is_on_request(pickup, drop_off),
        is_either_late(arrival, departure),
    ]
}

// Rule 20 on a line of calendar_dates.txt.
pub fn judge_date(repeats: bool) -> [bool; MOST_RULES]
    ensures { result ≡ date_judged repeats }
{
    filled_up([repeats])
}
