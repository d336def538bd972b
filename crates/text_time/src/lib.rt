// A star's line of the text that `plan` prints: its number, then its rise, culmination and set in hours, minutes and seconds, and a second
// culmination on the day, or why there are none. Promised: every byte of it, each time the nearest second.
#![tactic(auto)]

ghost use Rattle.std.specs.Prelude.{◌≡◌};
ghost use Rattle.lent.specs.rules.Writing.{Wrote};
ghost use Rattle.transit.specs.rules.Clock.{shown_plan};
ghost use Rattle.text_time.specs.rules.Time.{seconds_of, two_digits, three_digits, clock_text, time_text};
ghost use Rattle.text_time.specs.rules.Line.{time_then, again_text, times_text, why_text, outcome_text, plan_line};

// ---- a time

// The seconds of a fraction of a day, to the nearest one.
fn seconds_of(x: f64) -> u64
    ensures { result ≡ seconds_of x }
{
    double::whole_part(x * 86400.0 + 0.5)
}

// Each `put_` writes its text from the offset on, and answers the offset after it. This one: a number of two digits.
pub fn put_two(out: &mut [u8], at: usize, n: u64) -> usize
    ensures { Wrote out.old at (two_digits n) out.new result }
{
    if n < 10 {
        let a = lent::put_byte(out, at, b'0');
        return text_number::put_decimal(out, a, n);
    }
    text_number::put_decimal(out, at, n)
}

// One of three digits.
pub fn put_three(out: &mut [u8], at: usize, n: u64) -> usize
    ensures { Wrote out.old at (three_digits n) out.new result }
{
    if n < 100 {
        let a = lent::put_byte(out, at, b'0');
        return put_two(out, a, n);
    }
    text_number::put_decimal(out, at, n)
}

// So many seconds in hours, minutes and seconds.
pub fn put_clock(out: &mut [u8], at: usize, n: u64) -> usize
    ensures { Wrote out.old at (clock_text n) out.new result }
{
    let a = put_two(out, at, n / 3600);
    let b = lent::put_byte(out, a, b':');
    let c = put_two(out, b, n / 60 % 60);
    let d = lent::put_byte(out, c, b':');
    put_two(out, d, n % 60)
}

// A fraction of a day likewise.
pub fn put_time(out: &mut [u8], at: usize, x: f64) -> usize
    ensures { Wrote out.old at (time_text x) out.new result }
{
    put_clock(out, at, seconds_of(x))
}

// ---- a star

// A time, and a byte after it.
fn put_time_then(out: &mut [u8], at: usize, x: f64, end: u8) -> usize
    ensures { Wrote out.old at (time_then x end) out.new result }
{
    let a = put_time(out, at, x);
    lent::put_byte(out, a, end)
}

// The culmination after that of the plan, where it is within the day.
pub fn put_again(out: &mut [u8], at: usize, again: f64) -> usize
    ensures { Wrote out.old at (again_text again) out.new result }
{
    if again < 1.0 {
        let a = lent::put(out, at, b" again ");
        return put_time(out, a, again);
    }
    lent::within(at, out.len())
}

// The three times, and that one.
fn put_times(out: &mut [u8], at: usize, rise: f64, culmination: f64, set: f64, again: f64) -> usize
    ensures { Wrote out.old at (times_text rise culmination set again) out.new result }
{
    let a = put_time_then(out, at, rise, b' ');
    let b = put_time_then(out, a, culmination, b' ');
    let c = put_time(out, b, set);
    let d = put_again(out, c, again);
    lent::put_byte(out, d, b'\n')
}

// Why there are none.
pub fn put_why(out: &mut [u8], at: usize, n: u8) -> usize
    ensures { Wrote out.old at (why_text n) out.new result }
{
    match n {
        15 => lent::put(out, at, b"never rises\n"),
        16 => lent::put(out, at, b"never sets\n"),
        _ => text_number::put_refused(out, at, n),
    }
}

// What a star's line says of it.
fn put_outcome(out: &mut [u8], at: usize, a: Result<(f64, f64, f64), u8>, again: f64) -> usize
    ensures { Wrote out.old at (outcome_text (shown_plan a) again) out.new result }
{
    match a {
        Ok((rise, culmination, set)) => put_times(out, at, rise, culmination, set, again),
        Err(n) => put_why(out, at, n),
    }
}

// A star's line, with the culmination after that of its plan.
pub fn put_line(
    out: &mut [u8],
    at: usize,
    number: u32,
    a: Result<(f64, f64, f64), u8>,
    again: f64,
) -> usize
    ensures { Wrote out.old at (plan_line number (shown_plan a) again) out.new result }
{
    let b = text_number::put_decimal(out, at, number as u64);
    let c = lent::put_byte(out, b, b' ');
    put_outcome(out, c, a, again)
}
