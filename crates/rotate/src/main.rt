// Prints the star list that stands on standard input, under the rotation from the day of the first argument to that of the second, in the
// edition that the third names: the crate's where there is none. It is precession alone, and the first line says so.
#![tactic(auto)]

use edition::Edition;

// The text of a list.
fn print_list(
    rt: &impl Print,
    err: &impl Print,
    edition: Edition,
    bytes: &[u8],
    day1: f64,
    day2: f64,
) {
    let mut out = [0u8; report::ROOM];
    let k = report::put_rotated(&mut out, edition, bytes, day1, day2);
    arguments::write(rt, err, &out[..k]);
}

// The list on standard input, with the days and the edition read.
fn print(rt: &(impl Input + Print), err: &impl Print, edition: Edition, day1: f64, day2: f64) {
    let mut input = [0u8; list::READ];
    let n = arguments::read(&mut rt.reader(), &mut input);
    print_list(rt, err, edition, &input[..n], day1, day2);
}

fn main(rt: HostRuntime) {
    let err = rt.stderr();
    let Some((day1, day2)) = arguments::days_of(&rt, &err, 1, 2, b"JD2", 0) else {
        return;
    };
    let Some(edition) = arguments::edition_of(&rt, &err, 3, b"third argument") else {
        return;
    };
    print(&rt, &err, edition, day1, day2);
}
