// Prints a day: its Julian day with all its digits, and sidereal time at Greenwich on it. The argument is a Julian day, J2000 or a date;
// before it may stand `--dut1` and UT1 - UTC in seconds, which are added to a date.
#![tactic(auto)]

use std::rt::Env;

// The text of a day, which may say that UT1 is taken for UTC.
fn print(rt: &impl Print, err: &impl Print, day: f64, utc: bool) {
    let mut out = [0u8; report_day::ROOM];
    let k = report_day::put_day(&mut out, day, utc);
    arguments::write(rt, err, &out[..k]);
}

// The day of argument i.
fn print_day(rt: &(impl Env + Print), err: &impl Print, i: usize, dut1: i32, utc: bool) {
    let Ok(day) = arguments::day_of(rt, err, i, b"DATE", dut1) else {
        return;
    };
    print(rt, err, day, utc);
}

fn main(rt: HostRuntime) {
    let err = rt.stderr();
    if arguments::is_argument(&rt, 1, b"--dut1") {
        let Some(dut1) = arguments::dut1_of(&rt, &err, 2) else {
            return;
        };
        print_day(&rt, &err, 3, dut1, false);
        return;
    }
    print_day(&rt, &err, 1, 0, arguments::is_date(&rt, 1));
}
