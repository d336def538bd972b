// A command's word for a day: a Julian day in decimal, `J2000`, or a date as crews have it; and in words why it is none of them. Promised:
// what `text_decimal` reads wherever it reads a day, 2451545.0 for J2000, and else what `text_date` reads; every byte of the words.
#![tactic(auto)]

ghost use Rattle.std.specs.Prelude.{◌≡◌};
ghost use Rattle.lent.specs.rules.Writing.{Wrote};
ghost use Rattle.text_date.specs.rules.Date.{shown};
ghost use Rattle.text_day.specs.rules.Day.{named_day, day_rule};
ghost use Rattle.text_day.specs.rules.Reason.{reason_text, complaint_text};

use text_date::Reason;

// The day that a text says which is no decimal number.
fn named(text: &[u8], dut1: i32) -> Result<f64, Reason>
    ensures { shown result ≡ named_day text.now dut1 }
{
    if text_word::is_word(text, b"J2000") {
        return Ok(2451545.0);
    }
    text_date::read(text, dut1)
}

// The day that the text says, where UT1 is so many milliseconds ahead of UTC: they are added to a date, and to nothing else.
pub fn read(text: &[u8], dut1: i32) -> Result<f64, Reason>
    ensures { shown result ≡ day_rule text.now dut1 }
{
    match text_decimal::read(text) {
        Some(x) => Ok(x),
        None => named(text, dut1),
    }
}

// Writes why a text says no day from the offset on, and answers the offset after it.
pub fn put_reason(out: &mut [u8], at: usize, reason: Reason) -> usize
    ensures { Wrote out.old at (reason_text reason) out.new result }
{
    match reason {
        Reason::NoDate => lent::put(
            out,
            at,
            b"a day is a Julian day (digits with at most one point), J2000, or a date as 2028-11-13 or 2028-11-13T04:33:36.5Z",
        ),
        Reason::NoMonth => lent::put(out, at, b"there is no such month"),
        Reason::NoDay => lent::put(out, at, b"that month has no such day"),
        Reason::TooEarly => lent::put(out, at, b"a date is 1582-10-15 or later"),
        Reason::TooLate => lent::put(out, at, b"a date is 4000-01-16 or earlier"),
        Reason::NoTime => lent::put(
            out,
            at,
            b"a time is as T04:33:36Z or T04:33:36.5Z, behind its date",
        ),
        Reason::NoZ => lent::put(out, at, b"a time ends in Z: it is UTC"),
        Reason::NoFraction => lent::put(out, at, b"at most three digits of a second"),
        Reason::NoHour => lent::put(out, at, b"the hour is 00 to 23"),
        Reason::NoMinute => lent::put(out, at, b"the minute is 00 to 59"),
        Reason::NoSecond => lent::put(out, at, b"the second is 00 to 59"),
    }
}

// Writes which argument says no day, its word and why, in a line from the slice's start on, and answers the offset after it.
pub fn put_complaint<'a>(out: &mut [u8], name: &'a [u8], word: &'a [u8], reason: Reason) -> usize
    ensures { Wrote out.old 0 (complaint_text name.now word.now reason) out.new result }
{
    let a = lent::put(out, 0, name);
    let b = lent::put(out, a, b" is '");
    let c = lent::put(out, b, word);
    let d = lent::put(out, c, b"': ");
    let e = put_reason(out, d, reason);
    lent::put_byte(out, e, b'\n')
}
