// Prints a sight of one star of the list that stands on standard input. Arguments: the star's number, the day of the list's places and that
// of the sight; then, in degrees, the observer's longitude, west positive, and latitude; then, where a circle was read, what it reads at
// the star and at the mark; then the edition, the crate's where there is none. Before them may stand `--dut1` and UT1 - UTC in seconds,
// which are added to the date of the sight.
#![tactic(auto)]

ghost use Rattle.std.specs.Prelude.{◌≤◌};

use edition::Edition;
use report_heading::{Readings, Sight};
use std::rt::Env;

// ---- a sight

// That of a star of the list.
fn print_sight(
    rt: &impl Print,
    err: &impl Print,
    edition: Edition,
    bytes: &[u8],
    sight: Sight,
    readings: Option<Readings>,
) {
    let mut out = [0u8; report_heading::ROOM];
    let k = report_heading::put_sight(&mut out, edition, bytes, sight, readings);
    arguments::write(rt, err, &out[..k]);
}

// The list on standard input, with all else read.
fn print(
    rt: &(impl Input + Print),
    err: &impl Print,
    edition: Edition,
    sight: Sight,
    readings: Option<Readings>,
) {
    let mut input = [0u8; list::READ];
    let n = arguments::read(&mut rt.reader(), &mut input);
    print_sight(rt, err, edition, &input[..n], sight, readings);
}

// With all read but the edition, which argument i names.
fn on_readings(
    rt: &(impl Env + Input + Print),
    err: &impl Print,
    i: usize,
    sight: Sight,
    readings: Option<Readings>,
) {
    let Some(edition) = arguments::edition_of(rt, err, i, b"the last argument") else {
        return;
    };
    print(rt, err, edition, sight, readings);
}

// With the sight read.
fn on_sight(rt: &(impl Env + Input + Print), err: &impl Print, before: usize, sight: Sight)
    requires { before ≤ 2 }
{
    if arguments::count(rt) <= before + 7 {
        on_readings(rt, err, before + 6, sight, None);
        return;
    }
    let Some(star) = arguments::degrees_of(rt, err, before + 6, b"STAR-READING") else {
        return;
    };
    let Some(mark) = arguments::degrees_of(rt, err, before + 7, b"MARK-READING") else {
        return;
    };
    on_readings(rt, err, before + 8, sight, Some(Readings { star, mark }));
}

// With the number and the days read.
fn on_days(
    rt: &(impl Env + Input + Print),
    err: &impl Print,
    before: usize,
    number: u32,
    day1: f64,
    day2: f64,
    utc: bool,
)
    requires { before ≤ 2 }
{
    let Some(long) = arguments::degrees_of(rt, err, before + 4, b"LONGITUDE") else {
        return;
    };
    let Some(lat) = arguments::degrees_of(rt, err, before + 5, b"LATITUDE") else {
        return;
    };
    on_sight(
        rt,
        err,
        before,
        Sight {
            number,
            day1,
            day2,
            long,
            lat,
            utc,
        },
    );
}

// With the number read.
fn on_number(
    rt: &(impl Env + Input + Print),
    err: &impl Print,
    before: usize,
    number: u32,
    dut1: i32,
    utc: bool,
)
    requires { before ≤ 2 }
{
    let Some((day1, day2)) = arguments::days_of(rt, err, before + 2, before + 3, b"TIME", dut1)
    else {
        return;
    };
    on_days(rt, err, before, number, day1, day2, utc);
}

// With what stands before the number read.
fn read_number(
    rt: &(impl Env + Input + Print),
    err: &impl Print,
    before: usize,
    dut1: i32,
    utc: bool,
)
    requires { before ≤ 2 }
{
    let Some(number) = arguments::unsigned_of(rt, before + 1) else {
        arguments::say(err, b"NUMBER: no whole number of 32 bits\n");
        return;
    };
    on_number(rt, err, before, number, dut1, utc);
}

fn main(rt: HostRuntime) {
    let err = rt.stderr();
    if arguments::is_argument(&rt, 1, b"--dut1") {
        let Some(dut1) = arguments::dut1_of(&rt, &err, 2) else {
            return;
        };
        read_number(&rt, &err, 2, dut1, false);
        return;
    }
    read_number(&rt, &err, 0, 0, arguments::is_date(&rt, 3));
}
