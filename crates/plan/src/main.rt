// Prints the plan of the star list that stands on standard input. Arguments: the day of its places and the night's at 0h; then, in degrees,
// the observer's longitude, west positive, and latitude, and the standard altitude; then the edition, the crate's where there is none. Where
// `--table` stands before them it is a table for people; behind that `--sidereal` and degrees are the sidereal time at Greenwich on that day
// from an almanac, which is worked out else.
#![tactic(auto)]

ghost use Rattle.std.specs.Prelude.{◌≤◌, length};

use edition::Edition;
use quantity::Deg;
use std::rt::Env;

// The plan of a list with a sidereal time, where one is given, or without.
fn put_either(
    out: &mut [u8],
    table: bool,
    given: Option<Deg>,
    edition: Edition,
    bytes: &[u8],
    day1: f64,
    day2: f64,
    long: Deg,
    lat: Deg,
    alt: Deg,
) -> usize
    ensures { result ≤ length out.new }
{
    match given {
        Some(sidereal) => {
            let o = transit::observer_in_degrees(sidereal, long, lat, alt);
            report::put_report(
                out,
                report::plan_style(table, o),
                edition,
                bytes,
                day1,
                day2,
            )
        }
        None => report::put_plan(out, table, edition, bytes, day1, day2, long, lat, alt),
    }
}

// The plan of a list.
fn print_list(
    rt: &impl Print,
    err: &impl Print,
    table: bool,
    given: Option<Deg>,
    edition: Edition,
    bytes: &[u8],
    day1: f64,
    day2: f64,
    long: Deg,
    lat: Deg,
    alt: Deg,
) {
    let mut out = [0u8; report::ROOM];
    let k = put_either(
        &mut out, table, given, edition, bytes, day1, day2, long, lat, alt,
    );
    arguments::write(rt, err, &out[..k]);
}

// The list on standard input, with all else read.
fn print(
    rt: &(impl Input + Print),
    err: &impl Print,
    table: bool,
    given: Option<Deg>,
    edition: Edition,
    day1: f64,
    day2: f64,
    long: Deg,
    lat: Deg,
    alt: Deg,
) {
    let mut input = [0u8; list::READ];
    let n = arguments::read(&mut rt.reader(), &mut input);
    print_list(
        rt,
        err,
        table,
        given,
        edition,
        &input[..n],
        day1,
        day2,
        long,
        lat,
        alt,
    );
}

// How many arguments stand before the days.
fn before_days(table: bool, almanac: bool) -> usize
    ensures { result ≤ 3 }
{
    let words = if table { 1 } else { 0 };
    if almanac { words + 2 } else { words }
}

// The argument behind `--sidereal`.
fn sidereal_at(table: bool) -> usize
    ensures { (2 ≤ result) × (result ≤ 3) }
{
    if table { 3 } else { 2 }
}

// With the days and the edition read, and a sidereal time where one is given.
fn on_days(
    rt: &(impl Env + Input + Print),
    err: &impl Print,
    table: bool,
    before: usize,
    given: Option<Deg>,
    edition: Edition,
    day1: f64,
    day2: f64,
)
    requires { before ≤ 3 }
{
    let Some(long) = arguments::degrees_of(rt, err, before + 3, b"LONGITUDE") else {
        return;
    };
    let Some(lat) = arguments::degrees_of(rt, err, before + 4, b"LATITUDE") else {
        return;
    };
    let Some(alt) = arguments::degrees_of(rt, err, before + 5, b"ALTITUDE") else {
        return;
    };
    print(rt, err, table, given, edition, day1, day2, long, lat, alt);
}

// With what stands before the days read.
fn read_days(
    rt: &(impl Env + Input + Print),
    err: &impl Print,
    table: bool,
    before: usize,
    given: Option<Deg>,
)
    requires { before ≤ 3 }
{
    let Some((day1, day2)) = arguments::days_of(rt, err, before + 1, before + 2, b"DATE", 0) else {
        return;
    };
    let Some(edition) = arguments::edition_of(rt, err, before + 6, b"after ALTITUDE") else {
        return;
    };
    on_days(rt, err, table, before, given, edition, day1, day2);
}

fn main(rt: HostRuntime) {
    let err = rt.stderr();
    let table = arguments::is_argument(&rt, 1, b"--table");
    let at = sidereal_at(table);
    let almanac = arguments::is_argument(&rt, at - 1, b"--sidereal");
    let before = before_days(table, almanac);
    if !almanac {
        read_days(&rt, &err, table, before, None);
        return;
    }
    let Some(sidereal) = arguments::degrees_of(&rt, &err, at, b"SIDEREAL") else {
        return;
    };
    read_days(&rt, &err, table, before, Some(sidereal));
}
