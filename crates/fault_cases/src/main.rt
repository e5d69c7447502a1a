// Writes what a call for faults answers, and the list that it leaves; the file `stdout` has what issue 19's words say, worked out by hand.
#![tactic(auto)]

ghost use Rattle.std.specs.Prelude.{◌≡◌, ◌<◌, ◌≤◌, ◌^◌, IfOk, vec_len};

use casework::{Feed, GOOD, Numbers, START};
use meaning::{MAX_LINES, Place};
use std::alloc::{AllocError, Global};
use std::io;

// A feed without a fault: a case differs from it in one file or more.
const BASE: Feed<'static> = Feed {
    routes: b"route_id,route_type\nR,3\n",
    ..GOOD
};

// What a list's numbers are as lent; no fault has it.
const LENT: i32 = 99;

// A call with a list: how many are written, how many there are, and the list that it leaves.
fn call(rt: &impl Print, name: &str, feed: Feed, list: &mut [i32], from: Place) -> io::Result<()> {
    let files = feed.files();
    let k = tusuchiy::faults(files, list, from);
    println!(rt; "{name} {} {}:{}", k.written, k.total, Numbers(list))
}

// A call from before every fault, with a list of N numbers as lent.
fn call_with<const N: usize>(rt: &impl Print, name: &str, feed: Feed) -> io::Result<()>
    requires { N ≤ 52 }
{
    let mut list = [LENT; N];
    call(rt, name, feed, &mut list, START)
}

// The feed with each of these in place of its routes.txt.
fn routes(rt: &impl Print, cases: &[(&str, &[u8])]) -> io::Result<()> {
    for (name, routes) in cases {
        call_with::<16>(rt, name, Feed { routes, ..BASE })?;
    }
    Ok(())
}

// The feed with another calendar.txt and calendar_dates.txt.
fn services<'a>(
    rt: &impl Print,
    name: &str,
    calendar: &'a [u8],
    dates: &'a [u8],
) -> io::Result<()> {
    let feed = Feed {
        calendar,
        dates,
        ..BASE
    };
    call_with::<16>(rt, name, feed)
}

// No fault at all.
const READABLE: [(&str, &[u8]); 4] = [
    ("good, with findings", b"route_id,route_type\nS,3\nS,3\n"),
    ("good, no records", b"route_id,route_type\n"),
    ("good, CR LF", b"route_id,route_type\r\nR,3\r\n"),
    ("good, marked", b"\xEF\xBB\xBFroute_id,route_type\nR,3\n"),
];

fn readable(rt: &impl Print) -> io::Result<()> {
    call_with::<16>(rt, "good", BASE)?;
    routes(rt, &READABLE)?;
    services(rt, "file 6 not supplied", BASE.calendar, b"")?;
    services(rt, "file 3 not supplied", b"", BASE.dates)
}

// Six files with the same bytes.
fn alike(rt: &impl Print, name: &str, s: &[u8]) -> io::Result<()> {
    let feed = Feed {
        stops: s,
        routes: s,
        calendar: s,
        trips: s,
        stop_times: s,
        dates: s,
    };
    call_with::<52>(rt, name, feed)
}

// The mark alone.
const MARK: &[u8] = b"\xEF\xBB\xBF";

// A file with no bytes, or no line.
fn empties(rt: &impl Print) -> io::Result<()> {
    services(rt, "neither 3 nor 6", b"", b"")?;
    routes(rt, &[("empty", b"")])?;
    alike(rt, "all empty", b"")?;
    let cases: [(&str, &[u8]); 2] = [
        ("the mark alone", MARK),
        ("two bytes of the mark", b"\xEF\xBB"),
    ];
    routes(rt, &cases)?;
    services(rt, "the mark alone in 6, none of 3", b"", MARK)?;
    services(rt, "the mark alone in both", MARK, MARK)
}

// A missing last line ending hides nothing.
const UNENDED: [(&str, &[u8]); 7] = [
    ("unended, good", b"route_id,route_type\nR,3"),
    ("unended, earlier line", b"route_id,route_type\nR,x\nS,3"),
    ("unended, last line", b"route_id,route_type\nR,3\nS,x"),
    ("unended, both", b"route_id,route_type\nR\nS,x"),
    ("unended header, good", b"route_id,route_type"),
    ("unended header, refused", b"route_id"),
    ("unended, refused header", b"\xEF\xBB\xBFroute_id\nR,x\nS\t"),
];

fn unended(rt: &impl Print) -> io::Result<()> {
    routes(rt, &UNENDED)?;
    let dates = b"service_id,date,exception_type\nW,20240704,3";
    services(rt, "unended in 6", b"", dates)
}

// A CR belongs to an ending directly before an LF only, and there but one.
const RETURNS: [(&str, &[u8]); 5] = [
    ("CR at the end", b"route_id,route_type\r\nR,3\r"),
    ("CR at the end of the header", b"route_id,route_type\r"),
    ("CR alone", b"\r"),
    ("CR after LF at the end", b"route_id,route_type\nR,3\n\r"),
    ("CR CR LF", b"route_id,route_type\nR,3\r\r\n"),
];

// So many line endings.
fn endings(alloc: Global, n: usize) -> Result<Vec<u8>, AllocError>
    ensures { IfOk result (λ s. vec_len s ≡ n) }
{
    vec![in alloc; b'\n'; n]
}

// So many, and a tab after them.
fn endings_and_tab(alloc: Global, n: usize) -> Result<Vec<u8>, AllocError>
    requires { n < 2 ^ 32 }
{
    let mut s = endings(alloc, n + 1)?;
    s[n] = b'\t';
    Ok(s)
}

// Rule 2 hides every line of its file, and of no other: as many line endings as it allows, and one more. Each file is made for its case, so that one is held at a time.
fn limits(rt: &impl Print, alloc: Global) -> io::Result<()> {
    routes(rt, &[("1,048,576 lines", &endings(alloc, MAX_LINES)?)])?;
    let unended = "1,048,576 lines, unended";
    routes(rt, &[(unended, &endings_and_tab(alloc, MAX_LINES)?)])?;
    routes(rt, &[("1,048,577 lines", &endings(alloc, MAX_LINES + 1)?)])?;
    let unended = "1,048,577 lines, unended";
    routes(rt, &[(unended, &endings_and_tab(alloc, MAX_LINES + 1)?)])?;
    let stops = endings(alloc, MAX_LINES + 1)?;
    let feed = Feed {
        stops: &stops,
        routes: b"route_id,route_type\nR,x\n",
        dates: b"",
        ..BASE
    };
    call_with::<52>(rt, "1,048,577 lines, and a file after", feed)
}

// A refused header hides the values and the field count below it, and no fault of their text.
const HEADERS: [(&str, &[u8]); 10] = [
    ("header 5", b"route_id,route_type\t\nR,x\nS,3\n,\nT\t,3\n"),
    ("header 14", b"route_id,route_type,\xE9\nR,x,\nS,3,\xE9\n"),
    ("header 6", b"route_id,\"route_type\nR,x\nS,\"3\n"),
    (
        "header 7",
        b"route_id,route_type,,,,,,,,,,,,,,,,,,,,,,,,,,,,,,,\nR,x\nS,3,,,,,,,,,,,,,,,,,,,,,,,,,,,,,,,\n",
    ),
    (
        "header 8",
        b"route_id,route_type,route_id\nR,x,R\nS,3,\"S\n",
    ),
    ("header 9", b"route_id\n,\nS\xFF\n"),
    ("header 9, field count", b"route_id\nR,3,\n\n"),
    ("header empty", b"\nR,x\n\t\n"),
    (
        "header marked twice",
        b"\xEF\xBB\xBF\xEF\xBB\xBFroute_id,route_type\nR,x\n",
    ),
    (
        "header with 32 columns",
        b"route_id,route_type,,,,,,,,,,,,,,,,,,,,,,,,,,,,,,\nR,x,,,,,,,,,,,,,,,,,,,,,,,,,,,,,,\n",
    ),
];

// Names are looked for in 32 fields, no more: rule 7 speaks before them, and 6 before it.
const WIDE_HEADERS: [(&str, &[u8]); 6] = [
    (
        "a name in the last of 32 columns",
        b"route_id,,,,,,,,,,,,,,,,,,,,,,,,,,,,,,,route_type\nR,,,,,,,,,,,,,,,,,,,,,,,,,,,,,,,x\n",
    ),
    (
        "a name again in the last of 32 columns",
        b"route_id,route_type,,,,,,,,,,,,,,,,,,,,,,,,,,,,,,route_id\nR,x\n",
    ),
    (
        "a name again in column 33",
        b"route_id,route_type,,,,,,,,,,,,,,,,,,,,,,,,,,,,,,,route_id\nR,x\n",
    ),
    (
        "a name that must be there in column 33",
        b"route_id,,,,,,,,,,,,,,,,,,,,,,,,,,,,,,,,route_type\nR,,,,,,,,,,,,,,,,,,,,,,,,,,,,,,,,x\n",
    ),
    (
        "33 columns, a name again and one missing",
        b"route_id,route_id,,,,,,,,,,,,,,,,,,,,,,,,,,,,,,,\nR,x\n",
    ),
    (
        "bad quoting past 33 columns",
        b"route_id,route_type,,,,,,,,,,,,,,,,,,,,,,,,,,,,,,,,,,,,,,,,\"\nR,x\n",
    ),
];

// A line has one fault, the header too: the first that speaks.
const BOTH: [(&str, &[u8]); 11] = [
    ("header 5 and 9", b"route_id\t\n"),
    ("header 14 and 6", b"route_id,route_type,\"\xE9\n"),
    ("header 8 and 9", b"route_id,route_id\n"),
    (
        "header 8 twice",
        b"route_id,route_type,route_type,route_id\n",
    ),
    ("5 and 14", b"route_id,route_type\n\t\xE9,3\n"),
    ("14 and 6", b"route_id,route_type\n\"\xE9,3\n"),
    (
        "6 and 7",
        b"route_id,route_type\n,,,,,,,,,,,,,,,,,,,,,,,,,,,,,,,,\"\n",
    ),
    (
        "7 and 10",
        b"route_id,route_type\n,,,,,,,,,,,,,,,,,,,,,,,,,,,,,,,,\n",
    ),
    ("10 and 12", b"route_id,route_type\n,x,\n"),
    ("12 and 13", b"route_type,route_id\nx,\n"),
    ("12 twice", b"route_type,route_id\n,\n"),
];

// Every line is judged, whatever stands on the others.
const LINES: [(&str, &[u8]); 2] = [
    (
        "each rule of a line",
        b"stop_id,stop_name,stop_lat,stop_lon,parent_station\n\
A\t,Alder,1.5,2,\n\
A,\xE9,1.5,2,\n\
A,\"Al\"der,1.5,2,\n\
A,,,,,,,,,,,,,,,,,,,,,,,,,,,,,,,,\n\
A,Alder,1.5,2\n\
A,Alder,1.5,2,ABCDEFGHABCDEFGHABCDEFGHABCDEFGHABCDEFGHABCDEFGHABCDEFGHABCDEFGHI\n\
A,Alder,1.5,,\n\
A,Alder,1.5,2,\n\
A,Alder,90.1,2,\n",
    ),
    (
        "each type of a stop",
        b"stop_id,stop_name,stop_lat,stop_lon,location_type\n\
A,,,,0\n\
A,Alder,,,2\n\
A,,,,3\n\
A,,1.5,,3\n\
A,,,x,4\n\
A,,91,2,4\n\
A,Alder,,,5\n\
A,Alder,1.5,2,5\n\
,,,,4\n",
    ),
];

fn lines(rt: &impl Print) -> io::Result<()> {
    for (name, stops) in LINES {
        call_with::<52>(rt, name, Feed { stops, ..BASE })?;
    }
    Ok(())
}

// Files in order, each with its faults; none hides another's.
const FAULTY: Feed<'static> = Feed {
    stops: b"stop_id,stop_name,stop_lat,stop_lon\nA,Alder,91,2\nB,,1.5,2\n",
    routes: b"route_id,route_type,route_type\nR,3,x\n",
    calendar: b"service_id\nW,x",
    trips: b"",
    stop_times: b"trip_id,arrival_time,departure_time,stop_id,stop_sequence\nT,9:60:00,,A,1\n",
    dates: b"service_id,date,exception_type\nW,20230229,1",
};

fn files(rt: &impl Print) -> io::Result<()> {
    call_with::<52>(rt, "every file", FAULTY)?;
    alike(rt, "a tab each", b"\t")
}

// Five faults.
const FIVE: Feed<'static> = Feed {
    stops: b"stop_id,stop_name,stop_lat,stop_lon\nA,Alder,91,2\n",
    routes: b"route_id,route_type\nR\nS,x",
    trips: b"route_id,service_id\nR,W\n",
    dates: b"",
    ..BASE
};

// A page of two, from a starting place.
fn page(rt: &impl Print, name: &str, file: i32, line: i32, rule: i32) -> io::Result<()> {
    let mut list = [LENT; 8];
    call(rt, name, FIVE, &mut list, Place { file, line, rule })
}

// Lists of several lengths.
fn rooms(rt: &impl Print) -> io::Result<()> {
    call_with::<0>(rt, "no room", FIVE)?;
    call_with::<3>(rt, "3 numbers", FIVE)?;
    call_with::<4>(rt, "4 numbers", FIVE)?;
    call_with::<9>(rt, "9 numbers", FIVE)?;
    call_with::<20>(rt, "20 numbers", FIVE)?;
    page(rt, "8 numbers, the second page", 2, 0, 4)?;
    page(rt, "8 numbers, the third page", 2, 3, 13)?;
    page(rt, "8 numbers, past the last", 4, 1, 9)
}

// Starting places, with room for all.
const PLACES: [(&str, i32, i32, i32); 14] = [
    ("at the first", 1, 2, 13),
    ("a number before the first", 1, 2, 12),
    ("a number after the first", 1, 2, 14),
    ("between lines", 2, 1, 14),
    ("a lower number of a line", 2, 2, 9),
    ("between files", 3, 0, 0),
    ("a greater line of an earlier file", 1, i32::MAX, i32::MAX),
    ("a file after the last", 7, 0, 0),
    ("below 0", -1, -1, -1),
    ("the least", i32::MIN, i32::MIN, i32::MIN),
    ("the greatest", i32::MAX, i32::MAX, i32::MAX),
    ("a line below 0", 2, -1, i32::MAX),
    ("a number below 0", 2, 0, -1),
    ("a file below 0", -1, i32::MAX, i32::MAX),
];

fn places(rt: &impl Print) -> io::Result<()> {
    for (name, file, line, rule) in PLACES {
        let mut list = [LENT; 20];
        call(rt, name, FIVE, &mut list, Place { file, line, rule })?;
    }
    Ok(())
}

fn main(rt: HostRuntime) -> io::Result<()> {
    readable(&rt)?;
    empties(&rt)?;
    unended(&rt)?;
    routes(&rt, &RETURNS)?;
    limits(&rt, rt.alloc())?;
    routes(&rt, &HEADERS)?;
    routes(&rt, &WIDE_HEADERS)?;
    routes(&rt, &BOTH)?;
    lines(&rt)?;
    files(&rt)?;
    rooms(&rt)?;
    places(&rt)
}
