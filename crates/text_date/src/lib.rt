// A date as crews have it, `2028-11-13` (0h) or `2028-11-13T04:33:36.5Z` (UTC), read as a Julian day. Promised: the date that is written, by
// the calendar, and its milliseconds, exactly; the Julian day of the two and of UT1 - UTC, rounded once; or why the text says none.
#![tactic(auto)]

ghost use Rattle.std.specs.Prelude.{◌≡◌, ◌+◌, ◌≤◌, ◌<◌, IfSome, length};
ghost use Rattle.text_date.specs.rules.Digits.{digit_of, pair_at, year_at, shown_digits};
ghost use Rattle.text_date.specs.rules.Date.{reason_of, shown, below, date_of};
ghost use Rattle.text_date.specs.rules.Time.{is_clock, is_fraction, frac_byte, fraction_of, shown_timed, clock_in, with_time, with_number, time_rule};
ghost use Rattle.text_date.specs.rules.Moment.{moment_rule};

use calendar::{Date, Missing};

// Why a text says no date: the form of the date, the month, the day; before 1582-10-15, after 4000-01-16; the form of the time, no Z, the
// form of the fraction; the hour, the minute, the second. None of these is a number of document 01's table of refusals.
#[derive(Clone, Copy, PartialEq, Eq)]
pub enum Reason {
    NoDate,
    NoMonth,
    NoDay,
    TooEarly,
    TooLate,
    NoTime,
    NoZ,
    NoFraction,
    NoHour,
    NoMinute,
    NoSecond,
}

impl From<Missing> for Reason {
    ghost from_gives = { λ m r. r ≡ reason_of m };

    fn from(missing: Missing) -> Reason {
        match missing {
            Missing::Month => Reason::NoMonth,
            Missing::Day => Reason::NoDay,
        }
    }
}

// ---- digits

// The worth of a digit, where the byte is one.
fn digit(b: u8) -> Option<u32>
    ensures says { shown_digits result ≡ digit_of b }
    ensures below { IfSome result (λ n. n < 10) }
{
    if b < b'0' {
        return None;
    }
    if b > b'9' {
        return None;
    }
    Some((b - b'0') as u32)
}

// Two digits at a place.
fn pair(text: &[u8], at: usize) -> Option<u32>
    requires { at + 2 ≤ length text.now }
    ensures says { shown_digits result ≡ pair_at text.now at }
    ensures below { IfSome result (λ n. n < 100) }
{
    Some(digit(text[at])? * 10 + digit(text[at + 1])?)
}

// The year: four digits at the start.
fn year(text: &[u8]) -> Option<u32>
    requires { 10 ≤ length text.now }
    ensures says { shown_digits result ≡ year_at text.now }
    ensures below { IfSome result (λ n. n < 10000) }
{
    Some(pair(text, 0)? * 100 + pair(text, 2)?)
}

// A number that is said and below a limit; else the reason.
fn below(limit: u32, number: Option<u32>, reason: Reason) -> Result<u32, Reason>
    requires { limit ≤ 10000 }
    ensures { shown result ≡ below limit (shown_digits number) reason }
{
    match number {
        Some(n) if n < limit => Ok(n),
        _ => Err(reason),
    }
}

// ---- the date

// The day number of the date that the first ten bytes say.
fn date_number(text: &[u8]) -> Result<u32, Reason>
    requires { 10 ≤ length text.now }
    ensures { shown result ≡ date_of text.now }
{
    if text[4] != b'-' {
        return Err(Reason::NoDate);
    }
    if text[7] != b'-' {
        return Err(Reason::NoDate);
    }
    let y = below(10000, year(text), Reason::NoDate)?;
    let m = below(100, pair(text, 5), Reason::NoMonth)?;
    let d = below(100, pair(text, 8), Reason::NoDay)?;
    let n = calendar::day_number(Date {
        year: y as u16,
        month: m as u8,
        day: d as u8,
    })?;
    Ok(n)
}

// ---- the time

// Whether hours, minutes and seconds stand where they should.
fn is_clock(text: &[u8]) -> bool
    ensures { result ≡ is_clock text.now }
{
    if text.len() < 20 {
        return false;
    }
    if text[13] != b':' {
        return false;
    }
    text[16] == b':'
}

// Whether nothing stands between the seconds and the last byte, or a point and up to three bytes.
fn is_fraction(text: &[u8]) -> bool
    requires { 20 ≤ length text.now }
    ensures { result ≡ is_fraction text.now }
{
    let n = text.len();
    if n == 20 {
        return true;
    }
    if n < 22 {
        return false;
    }
    if n > 24 {
        return false;
    }
    text[19] == b'.'
}

// The byte at a place before the last one, or a 0.
fn frac_byte(text: &[u8], at: usize) -> u8
    requires { at ≤ 22 }
    ensures { result ≡ frac_byte text.now at }
{
    if at + 1 < text.len() {
        return text[at];
    }
    b'0'
}

// The milliseconds of the fraction.
fn fraction(text: &[u8]) -> Option<u32>
    ensures says { shown_digits result ≡ fraction_of text.now }
    ensures below { IfSome result (λ n. n < 1000) }
{
    let a = digit(frac_byte(text, 20))?;
    let b = digit(frac_byte(text, 21))?;
    let c = digit(frac_byte(text, 22))?;
    Some((a * 10 + b) * 10 + c)
}

// The time of a text whose form is a time's: a day number and the milliseconds since its 0h.
fn clock_in(text: &[u8], n: u32) -> Result<(u32, u32), Reason>
    requires { 20 ≤ length text.now }
    ensures { shown_timed result ≡ clock_in text.now n }
{
    let h = below(24, pair(text, 11), Reason::NoHour)?;
    let m = below(60, pair(text, 14), Reason::NoMinute)?;
    let s = below(60, pair(text, 17), Reason::NoSecond)?;
    let f = below(1000, fraction(text), Reason::NoFraction)?;
    Ok((n, ((h * 60 + m) * 60 + s) * 1000 + f))
}

// The time behind the date, on its day number.
fn with_time(text: &[u8], n: u32) -> Result<(u32, u32), Reason>
    requires { 10 < length text.now }
    ensures { shown_timed result ≡ with_time text.now n }
{
    if text[10] != b'T' {
        return Err(Reason::NoTime);
    }
    if text[text.len() - 1] != b'Z' {
        return Err(Reason::NoZ);
    }
    if !is_clock(text) {
        return Err(Reason::NoTime);
    }
    if !is_fraction(text) {
        return Err(Reason::NoFraction);
    }
    clock_in(text, n)
}

// ---- both

// The time of a text with a day number.
fn with_number(text: &[u8], n: u32) -> Result<(u32, u32), Reason>
    requires { 10 ≤ length text.now }
    ensures { shown_timed result ≡ with_number text.now n }
{
    if n < 2299161 {
        return Err(Reason::TooEarly);
    }
    if n > 3182045 {
        return Err(Reason::TooLate);
    }
    if text.len() == 10 {
        return Ok((n, 0));
    }
    with_time(text, n)
}

// The time that the text says.
fn time_of(text: &[u8]) -> Result<(u32, u32), Reason>
    ensures { shown_timed result ≡ time_rule text.now }
{
    if text.len() < 10 {
        return Err(Reason::NoDate);
    }
    with_number(text, date_number(text)?)
}

// The Julian day that the text says, where UT1 is so many milliseconds ahead of UTC.
pub fn read(text: &[u8], dut1: i32) -> Result<f64, Reason>
    ensures { shown result ≡ moment_rule text.now dut1 }
{
    let (n, t) = time_of(text)?;
    Ok(calendar::julian(n, t, dut1))
}
