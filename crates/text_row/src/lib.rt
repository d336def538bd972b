// A star's row of the tables that `reduce --table` and `plan --table` print: its number, then its right ascension in hours and its
// declination in degrees, or its rise, culmination and set, or its refusal in words. Promised: every byte of it, each angle rounded once.
#![tactic(auto)]

ghost use Rattle.std.specs.Prelude.{◌-◌, ◌≡◌};
ghost use Rattle.lent.specs.rules.Writing.{Wrote};
ghost use Rattle.text_row.specs.rules.Place.{milliseconds, milliseconds_of, hours_text, hundredths, sign_of, arc_text, degrees_text};
ghost use Rattle.transit.specs.rules.Clock.{shown_plan};
ghost use Rattle.text_row.specs.rules.Row.{column_text, place_text, row_of};
ghost use Rattle.text_row.specs.rules.PlanRow.{times_row, why_row, outcome_row, plan_row};

use helpers::angle;
use quantity::{Deg, Rad};

// ---- a right ascension

// Degrees in milliseconds of time.
fn milliseconds(x: Deg) -> f64
    ensures { result ≡ milliseconds x }
{
    x.0 * 240000.0
}

// A right ascension in whole milliseconds of time, below 24 hours.
fn milliseconds_of(x: Rad) -> u64
    ensures { result ≡ milliseconds_of x }
{
    let y = milliseconds(units::to_degrees(angle::within_two_PI(x)));
    units::nearest_whole(y) % 86400000
}

// Each `put_` writes its text from the offset on, and answers the offset after it. This one: a right ascension in hours, minutes and
// seconds.
pub fn put_hours(out: &mut [u8], at: usize, x: Rad) -> usize
    ensures { Wrote out.old at (hours_text x) out.new result }
{
    let n = milliseconds_of(x);
    let a = text_time::put_clock(out, at, n / 1000);
    let b = lent::put_byte(out, a, b'.');
    text_time::put_three(out, b, n % 1000)
}

// ---- a declination

// Degrees in hundredths of a second of arc.
fn hundredths(x: Deg) -> f64
    ensures { result ≡ hundredths x }
{
    x.0 * 360000.0
}

// The sign that is shown.
fn sign(minus: bool) -> u8
    ensures { result ≡ sign_of minus }
{
    if minus { b'-' } else { b'+' }
}

// A sign and so many hundredths of a second, in degrees, minutes and seconds.
fn put_arc(out: &mut [u8], at: usize, minus: bool, n: u64) -> usize
    ensures { Wrote out.old at (arc_text minus n) out.new result }
{
    let a = lent::put_byte(out, at, sign(minus));
    let b = text_time::put_clock(out, a, n / 100);
    let c = lent::put_byte(out, b, b'.');
    text_time::put_two(out, c, n % 100)
}

// A declination in degrees, minutes and seconds.
fn put_degrees(out: &mut [u8], at: usize, x: Rad) -> usize
    ensures { Wrote out.old at (degrees_text x) out.new result }
{
    let y = hundredths(units::to_degrees(x));
    let n = units::nearest_whole(double::size(y));
    put_arc(out, at, units::has_minus(y, n), n)
}

// ---- a star

// How many of ten columns are left.
fn left_of_ten(k: usize) -> usize
    ensures { result ≡ 10 - k }
{
    10usize.saturating_sub(k)
}

// A number at the right of a column of ten.
fn put_column(out: &mut [u8], at: usize, n: u32) -> usize
    ensures { Wrote out.old at (column_text n) out.new result }
{
    let mut digits = [0u8; 20];
    let spaces = [b' '; 10];
    let k = left_of_ten(text_number::put_decimal(&mut digits, 0, n as u64));
    let a = lent::put(out, at, &spaces[..k]);
    text_number::put_decimal(out, a, n as u64)
}

// Both angles.
fn put_place(out: &mut [u8], at: usize, asc: Rad, dec: Rad) -> usize
    ensures { Wrote out.old at (place_text asc dec) out.new result }
{
    let a = put_hours(out, at, asc);
    let b = lent::put(out, a, b"     ");
    let c = put_degrees(out, b, dec);
    lent::put_byte(out, c, b'\n')
}

// A star's row.
pub fn put_row(out: &mut [u8], at: usize, number: u32, status: u8, asc: Rad, dec: Rad) -> usize
    ensures { Wrote out.old at (row_of number status asc dec) out.new result }
{
    let a = put_column(out, at, number);
    let b = lent::put(out, a, b"  ");
    if status == 0 {
        return put_place(out, b, asc, dec);
    }
    text_refusal::put_refusal(out, b, status)
}

// ---- a star in a plan

// The three times, and the culmination after that of the plan.
fn put_times_row(
    out: &mut [u8],
    at: usize,
    rise: f64,
    culmination: f64,
    set: f64,
    again: f64,
) -> usize
    ensures { Wrote out.old at (times_row rise culmination set again) out.new result }
{
    let a = text_time::put_time(out, at, rise);
    let b = lent::put(out, a, b"  ");
    let c = text_time::put_time(out, b, culmination);
    let d = lent::put(out, c, b"     ");
    let e = text_time::put_time(out, d, set);
    let f = text_time::put_again(out, e, again);
    lent::put_byte(out, f, b'\n')
}

// Why there are none.
fn put_why_row(out: &mut [u8], at: usize, n: u8) -> usize
    ensures { Wrote out.old at (why_row n) out.new result }
{
    if n < 15 {
        return text_refusal::put_refusal(out, at, n);
    }
    text_time::put_why(out, at, n)
}

// What a plan's row says of a star.
fn put_outcome_row(out: &mut [u8], at: usize, a: Result<(f64, f64, f64), u8>, again: f64) -> usize
    ensures { Wrote out.old at (outcome_row (shown_plan a) again) out.new result }
{
    match a {
        Ok((rise, culmination, set)) => put_times_row(out, at, rise, culmination, set, again),
        Err(n) => put_why_row(out, at, n),
    }
}

// A star's row in a plan, with the culmination after that of the plan.
pub fn put_plan_row(
    out: &mut [u8],
    at: usize,
    number: u32,
    a: Result<(f64, f64, f64), u8>,
    again: f64,
) -> usize
    ensures { Wrote out.old at (plan_row number (shown_plan a) again) out.new result }
{
    let b = put_column(out, at, number);
    let c = lent::put(out, b, b"  ");
    put_outcome_row(out, c, a, again)
}
