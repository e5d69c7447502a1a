// Reads cases from standard input, one a line: a letter for the form, a blank, a raw field. Writes each with what `forms` answers; `stdout` has what document 01 says, from expected.py.
#![tactic(auto)]

use meaning::Time;
use std::fmt::Display;
use std::io;

// Writes a value, or that there is none of its form.
fn tell<T: Display + Drop>(rt: &impl Print, value: Option<T>) -> io::Result<()> {
    match value {
        Some(value) => rt.print(value),
        None => rt.write_all(b"refused"),
    }
}

// Writes the time of a raw field.
fn time(rt: &impl Print, raw: &[u8]) -> io::Result<()> {
    match forms::time_of(raw) {
        Time::Seconds(n) => rt.print(n),
        Time::Untimed => rt.write_all(b"untimed"),
        Time::NoTime => rt.write_all(b"refused"),
    }
}

// Writes what a form answers of a raw field; a digit stands for one of 0 to that digit.
fn answer(rt: &impl Print, form: u8, raw: &[u8]) -> io::Result<()> {
    match form {
        b't' => time(rt, raw),
        b'd' => tell(rt, forms::date_of(raw)),
        b'y' => tell(rt, forms::latitude_of(raw)),
        b'x' => tell(rt, forms::longitude_of(raw)),
        b'n' => tell(rt, forms::sequence_of(raw)),
        b'r' => tell(rt, forms::route_type_of(raw)),
        b'e' => tell(rt, forms::exception_of(raw)),
        b'0'.. => tell(rt, forms::choice_of(raw, form - b'0')),
        _ => Ok(()),
    }
}

// Writes a case and its answer; a line without one is passed over. What isn't a number is written as bytes: `print` makes a buffer for each of its values.
fn case(rt: &impl Print, line: &[u8]) -> io::Result<()> {
    if line.len() < 2 {
        return Ok(());
    }
    rt.write_all(line)?;
    rt.write_all(b" = ")?;
    answer(rt, line[0], &line[2..])?;
    rt.write_all(b"\n")
}

fn main(rt: HostRuntime) -> io::Result<()> {
    let mut input = [0; 65536];
    let n = casework::read_full(&rt, &mut input)?;
    for line in input[..n].split(|byte| *byte == b'\n') {
        case(&rt, line)?;
    }
    Ok(())
}
