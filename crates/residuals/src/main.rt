// Prints what a night's measured places leave of the star list on standard input, reduced from the day of the first argument to that of
// the second, in the edition that the third names: the crate's where there is none. The measured places are a text on descriptor 3. Where
// `--figures`, `--sights` or `--left` stands before the days, it is the figures, each sight, or who is left out; else a sheet for people.
#![tactic(auto)]

ghost use Rattle.std.specs.Prelude.{◌≤◌};

use edition::Edition;
use report_residuals::{Style, Untold};
use std::rt::Env;

// Bytes to read where measured places are expected, one more than a text may have.
const READ: usize = 600001;

// ---- what the arguments say

// The style that the first argument asks for.
fn style_of(rt: &impl Env) -> Style {
    if arguments::is_argument(rt, 1, b"--figures") {
        return Style::Figures;
    }
    if arguments::is_argument(rt, 1, b"--sights") {
        return Style::Sights;
    }
    if arguments::is_argument(rt, 1, b"--left") {
        return Style::Left;
    }
    Style::People
}

// How many arguments stand before the days: the style's word, which that for people has not.
fn before_days(style: Style) -> usize
    ensures { result ≤ 1 }
{
    match style {
        Style::People => 0,
        Style::Figures => 1,
        Style::Sights => 1,
        Style::Left => 1,
    }
}

// ---- what is said

// The line of a refusal, with its words for people.
fn refuse(rt: &impl Print, people: bool, n: u8, words: &[u8]) {
    if !people {
        arguments::refuse(rt, n);
        return;
    }
    arguments::say(rt, b"refused ");
    arguments::say_number(rt, n as u64);
    arguments::say(rt, words);
    arguments::say(rt, b"\n");
}

// The line of a refusal of the list and its days, likewise.
fn refuse_list(rt: &impl Print, err: &impl Print, people: bool, n: u8) {
    if !people {
        arguments::refuse(rt, n);
        return;
    }
    let mut out = [0u8; 128];
    let k = text_refusal::put_refusal(&mut out, 0, n);
    arguments::write(rt, err, &out[..k]);
}

// Says which line cannot be read.
fn no_sight(err: &impl Print, line: usize) {
    arguments::say(err, b"MEASURED, line ");
    arguments::say_number(err, line as u64);
    arguments::say(
        err,
        b": not a star's number, a right ascension and a declination, both in decimal degrees\n",
    );
}

// Says that the text of measured places is too long.
fn too_long(err: &impl Print) {
    arguments::say(err, b"MEASURED has more than 600000 bytes\n");
}

// ---- the night

// Why there is no text.
fn explain(rt: &impl Print, err: &impl Print, people: bool, untold: Untold) {
    match untold {
        Untold::List(refusal) => {
            refuse_list(rt, err, people, refusal.number());
        }
        Untold::Unclear(line) => {
            no_sight(err, line);
        }
        Untold::TooMany => {
            refuse(rt, people, 8, b": more than 3000 sights");
        }
        Untold::Sheet(refusal) => {
            refuse(
                rt,
                people,
                refusal.number(),
                b": a measured angle is past 3666 degrees: check them",
            );
        }
    }
}

// The text of a night in its style, or why there is none.
fn print_night<'a>(
    rt: &impl Print,
    err: &impl Print,
    style: Style,
    edition: Edition,
    bytes: &'a [u8],
    day1: f64,
    day2: f64,
    text: &'a [u8],
) {
    let mut out = [0u8; report_residuals::ROOM];
    match report_residuals::put_report(&mut out, style, edition, bytes, day1, day2, text) {
        Ok(k) => {
            arguments::write(rt, err, &out[..k]);
        }
        Err(untold) => {
            explain(rt, err, before_days(style) == 0, untold);
        }
    }
}

// With the measured places on their descriptor.
fn with_measured(
    rt: &impl Print,
    err: &impl Print,
    style: Style,
    edition: Edition,
    bytes: &[u8],
    day1: f64,
    day2: f64,
) {
    let mut text = [0u8; READ];
    let n = arguments::read_third(&mut text);
    if n == READ {
        too_long(err);
        return;
    }
    print_night(rt, err, style, edition, bytes, day1, day2, &text[..n]);
}

// With the list on standard input.
fn print(
    rt: &(impl Input + Print),
    err: &impl Print,
    style: Style,
    edition: Edition,
    day1: f64,
    day2: f64,
) {
    let mut input = [0u8; list::READ];
    let n = arguments::read(&mut rt.reader(), &mut input);
    with_measured(rt, err, style, edition, &input[..n], day1, day2);
}

fn main(rt: HostRuntime) {
    let err = rt.stderr();
    let style = style_of(&rt);
    let before = before_days(style);
    let Some((day1, day2)) = arguments::days_of(&rt, &err, before + 1, before + 2, b"JD2", 0) else {
        return;
    };
    let Some(edition) = arguments::edition_of(&rt, &err, before + 3, b"after JD2") else {
        return;
    };
    print(&rt, &err, style, edition, day1, day2);
}
