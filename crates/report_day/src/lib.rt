// A day, and its text: what `day` prints. The Julian day with all its digits, and sidereal time at Greenwich on it, mean and apparent.
// Promised: every byte of it, of every day; the digits are the double's own, and each sidereal time is rounded once.
#![tactic(auto)]

ghost use Rattle.std.specs.Prelude.{◌≡◌};
ghost use Rattle.lent.specs.rules.Writing.{Wrote};
ghost use Rattle.report_day.specs.rules.Digits.{parts_of, digit_of, left_of, digits_text, exact_text};
ghost use Rattle.report_day.specs.rules.Day.{millionths_of, six_digits, degrees_text, angle_text, open_text, day_text, day_of};

use quantity::Rad;

// Bytes of the text, at most.
pub const ROOM: usize = 320;

// ---- all digits of a day

// A day in parts of 2^-32, of which a day of the stated domain has a whole number.
fn parts_of(day: f64) -> u64
    ensures { result ≡ parts_of day }
{
    double::whole_part(day * 4294967296.0)
}

// The digit of what is below a day.
fn digit_of(left: u64) -> u8
    ensures { result ≡ digit_of left }
{
    b'0' + ((left % 4294967296) * 10 / 4294967296) as u8
}

// What is left below that digit.
fn left_of(left: u64) -> u64
    ensures { result ≡ left_of left }
{
    (left % 4294967296) * 10 % 4294967296
}

// Each `put_` writes its text from the offset on, and answers the offset after it. This one: the digits of so many parts, at most 32.
fn put_digits(out: &mut [u8], at: usize, parts: u64) -> usize
    ensures { Wrote out.old at (digits_text 32 parts) out.new result }
{
    let mut offset = lent::within(at, out.len());
    let mut left = parts;
    for i in 0..32u64 {
        offset = lent::put_byte(out, offset, digit_of(left));
        left = left_of(left);
        if left == 0 {
            return offset;
        }
    }
    offset
}

// A day with all its digits.
fn put_exact(out: &mut [u8], at: usize, day: f64) -> usize
    ensures { Wrote out.old at (exact_text day) out.new result }
{
    let parts = parts_of(day);
    let a = text_number::put_decimal(out, at, parts / 4294967296);
    let b = lent::put_byte(out, a, b'.');
    put_digits(out, b, parts)
}

// ---- an angle

// An angle in whole millionths of a degree, below a turn.
fn millionths_of(x: Rad) -> u64
    ensures { result ≡ millionths_of x }
{
    let y = units::to_degrees(x);
    units::nearest_whole(y.0 * 1000000.0) % 360000000
}

// The last six digits of a number.
fn put_six(out: &mut [u8], at: usize, n: u64) -> usize
    ensures { Wrote out.old at (six_digits n) out.new result }
{
    let a = text_time::put_two(out, at, n / 10000 % 100);
    let b = text_time::put_two(out, a, n / 100 % 100);
    text_time::put_two(out, b, n % 100)
}

// An angle in degrees.
fn put_degrees(out: &mut [u8], at: usize, x: Rad) -> usize
    ensures { Wrote out.old at (degrees_text x) out.new result }
{
    let n = millionths_of(x);
    let a = text_number::put_decimal(out, at, n / 1000000);
    let b = lent::put_byte(out, a, b'.');
    put_six(out, b, n)
}

// In degrees, and in hours, minutes and seconds.
fn put_angle(out: &mut [u8], at: usize, x: Rad) -> usize
    ensures { Wrote out.old at (angle_text x) out.new result }
{
    let a = put_degrees(out, at, x);
    let b = lent::put(out, a, b" degrees, ");
    let c = text_row::put_hours(out, b, x);
    lent::put(out, c, b" hours\n")
}

// ---- a day

// What is said where UT1 is taken for UTC.
pub fn put_open(out: &mut [u8], at: usize, utc: bool) -> usize
    ensures { Wrote out.old at (open_text utc) out.new result }
{
    if utc {
        return lent::put(
            out,
            at,
            b"UT1 is taken for UTC: up to 13.5\" of hour angle stay open\n",
        );
    }
    lent::within(at, out.len())
}

// A day, its mean and its apparent sidereal time.
fn put_text(out: &mut [u8], day: f64, mean: Rad, apparent: Rad, utc: bool) -> usize
    ensures { Wrote out.old 0 (day_text day mean apparent utc) out.new result }
{
    let a = lent::put(out, 0, b"Julian day              ");
    let b = put_exact(out, a, day);
    let c = lent::put(out, b, b"\nmean sidereal time      ");
    let d = put_angle(out, c, mean);
    let e = lent::put(out, d, b"apparent sidereal time  ");
    let f = put_angle(out, e, apparent);
    put_open(out, f, utc)
}

// The text of a day, from the slice's start on; and the offset after it. It may say that UT1 is taken for UTC. A refused day's is its
// refusal alone: 1; 2.
pub fn put_day(out: &mut [u8], day: f64, utc: bool) -> usize
    ensures { Wrote out.old 0 (day_of day utc) out.new result }
{
    match quantity::day_refusal(day) {
        Ok(()) => put_text(
            out,
            day,
            sidereal::mean_on(day),
            sidereal::apparent_on(day),
            utc,
        ),
        Err(refusal) => text_number::put_refused(out, 0, refusal.number()),
    }
}
