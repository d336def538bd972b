// What a program's arguments say, and what is said of those that say nothing; and how a program reads its input and writes. A missing
// argument, and one of more than 64 bytes, is read as an empty one, which is no day, no number and no word. Nothing can be promised of what a
// system hands in: what is proved is that each call is safe, and ends. What fails to be read or written ends no program: it is read as the
// input's end, and said where it is the answer.
#![tactic(auto)]

ghost use Rattle.std.specs.Prelude.{◌≤◌, length};

use edition::Edition;
use quantity::Deg;
use std::env::FillError;
use std::io::Read;
use std::rt::Env;
use text_date::Reason;

// ---- what is read

// Reads until the slice is full, the input ends or a read fails, and answers how many bytes it put at the slice's start.
pub fn read(from: &mut impl Read, input: &mut [u8]) -> usize
    ensures { result ≤ length input.new }
{
    let mut done = 0;
    // It goes on by what a read brings, so that it is no `for` over the bytes.
    while done < input.len() {
        let n = read_more(from, &mut input[done..]);
        if n == 0 {
            break;
        }
        done += n;
    }
    done
}

// What one read puts at the slice's start: nothing where it fails.
fn read_more(from: &mut impl Read, input: &mut [u8]) -> usize
    ensures { result ≤ length input.new }
{
    from.read(input).unwrap_or(0)
}

// Reads descriptor 3 until the slice is full, the input ends or a read fails: nothing where it is not open. std reaches no descriptor by its
// number, and opening its name anew would wait on a pipe that nobody writes to any more.
pub fn read_third(input: &mut [u8]) -> usize
    ensures { result ≤ length input.new }
{
    io::read_full(3, input)
}

// ---- what is said

// Writes the text as far as it can be written.
pub fn say(to: &impl Print, text: &[u8]) {
    let _ = to.write_all(text);
}

// Writes the text, or says that it could not.
pub fn write(out: &impl Print, err: &impl Print, text: &[u8]) {
    if out.write_all(text).is_err() {
        say(err, b"not written in full\n");
    }
}

// A number in decimal.
pub fn say_number(to: &impl Print, n: u64) {
    let mut text = [0u8; 20];
    let k = text_number::put_decimal(&mut text, 0, n);
    say(to, &text[..k]);
}

// The line of a refusal, likewise.
pub fn refuse(to: &impl Print, n: u8) {
    let mut line = [0u8; 16];
    let k = text_number::put_refused(&mut line, 0, n);
    say(to, &line[..k]);
}

// Says which argument, i, is not a day, and why.
fn no_day(rt: &impl Env, err: &impl Print, name: &[u8], i: usize, reason: Reason) {
    let mut text = [0u8; 64];
    let n = put_argument(rt, &mut text, i);
    let mut out = [0u8; 256];
    let k = text_day::put_complaint(&mut out, name, &text[..n], reason);
    say(err, &out[..k]);
}

// ---- what an argument says

// Puts argument i at the slice's start, and answers its length: 0 where it is missing or longer than the slice.
fn put_argument(rt: &impl Env, text: &mut [u8], i: usize) -> usize
    ensures { result ≤ length text.new }
{
    rt.arg(i, text).unwrap_or(0)
}

// Whether there is an argument i: 0 is the program's name.
fn has_argument(rt: &impl Env, i: usize) -> bool {
    let mut text = [0u8; 64];
    match rt.arg(i, &mut text) {
        Ok(_) => true,
        Err(FillError::TooLong) => true,
        Err(FillError::NotPresent) => false,
    }
}

// How many arguments there are, the program's name among them.
pub fn count(rt: &impl Env) -> usize {
    for i in 0..usize::MAX {
        if !has_argument(rt, i) {
            return i;
        }
    }
    usize::MAX
}

// What a reader makes of argument i.
fn said<T, F: FnOnce(&[u8]) -> T>(rt: &impl Env, i: usize, read: F) -> T
    requires { F.IsAlwaysCallable read }
{
    let mut text = [0u8; 64];
    let n = put_argument(rt, &mut text, i);
    read(&text[..n])
}

// Whether argument i is the word.
pub fn is_argument(rt: &impl Env, i: usize, word: &[u8]) -> bool {
    said(rt, i, |text| text_word::is_word(text, word))
}

// The number that argument i says, where it says one.
pub fn unsigned_of(rt: &impl Env, i: usize) -> Option<u32> {
    said(rt, i, text_whole::read_unsigned)
}

// The number with a sign that argument i says, where it says one.
pub fn signed_of(rt: &impl Env, i: usize) -> Option<i32> {
    said(rt, i, text_whole::read_signed)
}

// The milliseconds that argument i says, where it says any.
fn milliseconds_of(rt: &impl Env, i: usize) -> Option<i32> {
    said(rt, i, text_dut1::read)
}

// The angle that argument i says, where it says one.
fn angle_of(rt: &impl Env, i: usize) -> Option<Deg> {
    said(rt, i, text_degrees::read)
}

// The day that argument i says, where UT1 is so many milliseconds ahead of UTC.
fn moment_of(rt: &impl Env, i: usize, dut1: i32) -> Result<f64, Reason> {
    said(rt, i, |text| text_day::read(text, dut1))
}

// The edition that argument i says, the crate's where there is none.
fn named_of(rt: &impl Env, i: usize) -> Option<Edition> {
    if !has_argument(rt, i) {
        return Some(Edition::Crate);
    }
    if is_argument(rt, i, b"published") {
        return Some(Edition::Published);
    }
    None
}

// Whether argument i is a date, and so UTC: then a day that UT1 - UTC moves.
pub fn is_date(rt: &impl Env, i: usize) -> bool {
    let Ok(x) = moment_of(rt, i, 0) else {
        return false;
    };
    let Ok(y) = moment_of(rt, i, 900) else {
        return false;
    };
    x < y
}

// ---- the same, where it is said of an argument that it is none, by its name

// UT1 - UTC in milliseconds, behind `--dut1`.
pub fn dut1_of(rt: &impl Env, err: &impl Print, i: usize) -> Option<i32> {
    let dut1 = milliseconds_of(rt, i);
    if dut1.is_none() {
        say(
            err,
            b"--dut1: UT1 - UTC in seconds, at most 0.9 in size and three digits behind the point\n",
        );
    }
    dut1
}

// An angle in degrees.
pub fn degrees_of(rt: &impl Env, err: &impl Print, i: usize, name: &[u8]) -> Option<Deg> {
    let angle = angle_of(rt, i);
    if angle.is_none() {
        say(err, name);
        say(
            err,
            b": degrees are digits with at most one point, no more than 2^53 without it, and a sign where wanted\n",
        );
    }
    angle
}

// A day, where UT1 is so many milliseconds ahead of UTC.
pub fn day_of(
    rt: &impl Env,
    err: &impl Print,
    i: usize,
    name: &[u8],
    dut1: i32,
) -> Result<f64, Reason> {
    let day = moment_of(rt, i, dut1);
    if let Err(reason) = day {
        no_day(rt, err, name, i, reason);
    }
    day
}

// The day of a list's places, and another by its name, which alone is moved by UT1 - UTC.
pub fn days_of(
    rt: &impl Env,
    err: &impl Print,
    first: usize,
    second: usize,
    name: &[u8],
    dut1: i32,
) -> Option<(f64, f64)> {
    let day1 = day_of(rt, err, first, b"JD1", 0).ok()?;
    let day2 = day_of(rt, err, second, name, dut1).ok()?;
    Some((day1, day2))
}

// An edition: the crate's where there is no argument i.
pub fn edition_of(rt: &impl Env, err: &impl Print, i: usize, name: &[u8]) -> Option<Edition> {
    let edition = named_of(rt, i);
    if edition.is_none() {
        say(err, name);
        say(err, b": the edition is published, or not named\n");
    }
    edition
}
