// Prints the star list that stands on standard input, reduced from the day of the first argument to that of the second, in the edition
// that the third names: the crate's where there is none. Where `--table` stands before them it is a table for people.
#![tactic(auto)]

ghost use Rattle.std.specs.Prelude.{◌≤◌};

use edition::Edition;
use text_answers::Style;

// The text of a list in its style.
fn print_list(
    rt: &impl Print,
    err: &impl Print,
    style: Style,
    edition: Edition,
    bytes: &[u8],
    day1: f64,
    day2: f64,
) {
    let mut out = [0u8; report::ROOM];
    let k = report::put_report(&mut out, style, edition, bytes, day1, day2);
    arguments::write(rt, err, &out[..k]);
}

// The list on standard input, with the days and the edition read.
fn print(
    rt: &(impl Input + Print),
    err: &impl Print,
    style: Style,
    edition: Edition,
    day1: f64,
    day2: f64,
) {
    let mut input = [0u8; list::READ];
    let n = arguments::read(&mut rt.reader(), &mut input);
    print_list(rt, err, style, edition, &input[..n], day1, day2);
}

// A table, or lines.
fn style_of(table: bool) -> Style {
    if table { Style::Table } else { Style::Lines }
}

// How many arguments stand before the days.
fn before_days(table: bool) -> usize
    ensures { result ≤ 1 }
{
    if table { 1 } else { 0 }
}

fn main(rt: HostRuntime) {
    let err = rt.stderr();
    let table = arguments::is_argument(&rt, 1, b"--table");
    let before = before_days(table);
    let Some((day1, day2)) = arguments::days_of(&rt, &err, before + 1, before + 2, b"JD2", 0) else {
        return;
    };
    let Some(edition) = arguments::edition_of(&rt, &err, before + 3, b"third argument") else {
        return;
    };
    print(&rt, &err, style_of(table), edition, day1, day2);
}
