// Prints the mean heading of one mark by a night's sights of stars of the list that stands on standard input. The sights are a text on
// descriptor 3. Arguments: the day of the list's places; then, in degrees, the observer's longitude, west positive, and latitude; then the
// edition, the crate's where there is none. Before them may stand `--dut1` and UT1 - UTC in seconds, which are added to the dates of the
// sights.
#![tactic(auto)]

ghost use Rattle.std.specs.Prelude.{◌≤◌};

use edition::Edition;
use report_marks::Pad;
use std::rt::Env;
use text_fields::UnclearAt;

// Bytes to read where sights are expected, one more than a text may have.
const READ: usize = 300001;

// ---- what is said

// Says which line cannot be read.
fn no_sight(err: &impl Print, line: usize) {
    arguments::say(err, b"SIGHTS, line ");
    arguments::say_number(err, line as u64);
    arguments::say(
        err,
        b": not a time, a star's number and two readings in decimal degrees\n",
    );
}

// Says that the text of sights is too long.
fn too_long(err: &impl Print) {
    arguments::say(err, b"SIGHTS has more than 300000 bytes\n");
}

// ---- the night

// The text of a night, or why there is none.
fn print_night<'a>(
    rt: &impl Print,
    err: &impl Print,
    edition: Edition,
    pad: Pad,
    bytes: &'a [u8],
    text: &'a [u8],
    dut1: i32,
) {
    let mut out = [0u8; report_night::ROOM];
    match report_night::put_night(&mut out, edition, pad, bytes, text, dut1) {
        Ok(k) => {
            arguments::write(rt, err, &out[..k]);
        }
        Err(UnclearAt(line)) => {
            no_sight(err, line);
        }
    }
}

// With the sights on their descriptor.
fn with_sights(
    rt: &impl Print,
    err: &impl Print,
    edition: Edition,
    pad: Pad,
    dut1: i32,
    bytes: &[u8],
) {
    let mut text = [0u8; READ];
    let n = arguments::read_third(&mut text);
    if n == READ {
        too_long(err);
        return;
    }
    print_night(rt, err, edition, pad, bytes, &text[..n], dut1);
}

// With the list on standard input.
fn print(rt: &(impl Input + Print), err: &impl Print, edition: Edition, pad: Pad, dut1: i32) {
    let mut input = [0u8; list::READ];
    let n = arguments::read(&mut rt.reader(), &mut input);
    with_sights(rt, err, edition, pad, dut1, &input[..n]);
}

// With all read but the edition, which argument i names.
fn on_place(rt: &(impl Env + Input + Print), err: &impl Print, i: usize, pad: Pad, dut1: i32) {
    let Some(edition) = arguments::edition_of(rt, err, i, b"the last argument") else {
        return;
    };
    print(rt, err, edition, pad, dut1);
}

// With what stands before the day read: where UT1 - UTC is not given, UT1 is taken for UTC.
fn read_pad(rt: &(impl Env + Input + Print), err: &impl Print, before: usize, utc: bool, dut1: i32)
    requires { before ≤ 2 }
{
    let Ok(day1) = arguments::day_of(rt, err, before + 1, b"JD1", 0) else {
        return;
    };
    let Some(long) = arguments::degrees_of(rt, err, before + 2, b"LONGITUDE") else {
        return;
    };
    let Some(lat) = arguments::degrees_of(rt, err, before + 3, b"LATITUDE") else {
        return;
    };
    on_place(
        rt,
        err,
        before + 4,
        Pad {
            day1,
            long,
            lat,
            utc,
        },
        dut1,
    );
}

fn main(rt: HostRuntime) {
    let err = rt.stderr();
    if arguments::is_argument(&rt, 1, b"--dut1") {
        let Some(dut1) = arguments::dut1_of(&rt, &err, 2) else {
            return;
        };
        read_pad(&rt, &err, 2, false, dut1);
        return;
    }
    read_pad(&rt, &err, 0, true, 0);
}
