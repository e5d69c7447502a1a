#![tactic(auto)]
// What the programs of cases share: a feed to differ from, the input, ids that are built, and how numbers and a refusal are told.
ghost use Rattle.std.specs.Prelude.{◌≡◌, ◌≤◌, ◌+◌, ◌/◌, ◌%◌, [], ◌∷◌, IfOk, Some, length};
ghost use Rattle.casework.specs.Told.{each_told, refusal_told};

use meaning::{Place, Refusal};
use std::io::Read;
use std::{fmt, io};

// The starting place before every finding and every fault.
pub const START: Place = Place {
    file: 0,
    line: 0,
    rule: 0,
};

// The bytes of a feed's files.
#[derive(Clone, Copy)]
pub struct Feed<'a> {
    pub stops: &'a [u8],
    pub routes: &'a [u8],
    pub calendar: &'a [u8],
    pub trips: &'a [u8],
    pub stop_times: &'a [u8],
    pub dates: &'a [u8],
}

// A feed without a finding: a case differs from it in one file or more.
pub const GOOD: Feed<'static> = Feed {
    stops: b"stop_id,stop_name,stop_lat,stop_lon\nA,Alder,1.5,2\nB,Birch,1.6,2\n",
    routes: b"route_id,route_short_name,route_type\nR,7,3\n",
    calendar: b"service_id,monday,tuesday,wednesday,thursday,friday,saturday,sunday,start_date,end_date\nW,1,1,1,1,1,0,0,20240101,20241231\n",
    trips: b"route_id,service_id,trip_id\nR,W,T\n",
    stop_times: b"trip_id,arrival_time,departure_time,stop_id,stop_sequence\nT,08:00:00,08:00:00,A,1\nT,08:05:00,08:05:00,B,2\n",
    dates: b"service_id,date,exception_type\nW,20240704,2\nX,20241224,1\n",
};

impl<'a> Feed<'a> {
    // The files in the order of their numbers.
    pub fn files(self) -> [&'a [u8]; 6]
        ensures { result ≡ self.entry.stops ∷ self.entry.routes ∷ self.entry.calendar ∷ self.entry.trips ∷ self.entry.stop_times ∷ self.entry.dates ∷ [] }
    {
        [
            self.stops,
            self.routes,
            self.calendar,
            self.trips,
            self.stop_times,
            self.dates,
        ]
    }
}

// As many records as have an index of version 2 at the least.
pub const MANY: usize = 65536;

// The id of number k below 65,536: four letters from a to p, so that ids rise with their numbers.
pub fn id_of(k: usize) -> [u8; 4]
    ensures { result ≡ (97 + k / 4096 % 16) ∷ (97 + k / 256 % 16) ∷ (97 + k / 16 % 16) ∷ (97 + k % 16) ∷ [] }
{
    [
        b'a' + (k / 4096 % 16) as u8,
        b'a' + (k / 256 % 16) as u8,
        b'a' + (k / 16 % 16) as u8,
        b'a' + (k % 16) as u8,
    ]
}

// Numbers of a table or list, each after a blank.
#[derive(Clone, Copy)]
pub struct Numbers<'a>(pub &'a [i32]);

impl fmt::Display for Numbers<'_> {
    ghost output = { λ t. Some (each_told t.0.now) };

    fn fmt<W: fmt::Write>(&self, f: &mut fmt::Formatter<W>) -> fmt::Result {
        for number in self.0 {
            write!(f, " {number}")?;
        }
        Ok(())
    }
}

// What a refusal names: its number, file, line and column, each after a blank.
#[derive(Clone, Copy)]
pub struct Named(pub Refusal);

impl fmt::Display for Named {
    ghost output = { λ r. Some (refusal_told r.0) };

    fn fmt<W: fmt::Write>(&self, f: &mut fmt::Formatter<W>) -> fmt::Result {
        let r = self.0;
        write!(f, " {} {} {} {}", r.number, r.file, r.line, r.column)
    }
}

// Reads until the room is full or the input ends, and answers how many bytes it read.
pub fn read_full(rt: &impl Input, room: &mut [u8]) -> io::Result<usize>
    ensures { IfOk result (λ n. n ≤ length room.new) }
{
    let mut input = rt.reader();
    let mut n = 0;
    // No `for`: how far a turn goes is told by the reader.
    while n < room.len() {
        let got = input.read(&mut room[n..])?;
        if got == 0 {
            return Ok(n);
        }
        n += got;
    }
    Ok(n)
}
