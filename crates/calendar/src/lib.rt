// The Gregorian calendar: a date's day number, the whole number that is the Julian day at its noon, and the Julian day of a time of it.
// Promised: the days counted, by the lengths of months and years, or which of month and day there is not; the milliseconds over those of
// a day, by one division.
#![tactic(auto)]

ghost use Rattle.std.specs.Prelude.{◌≡◌, ◌<◌, ◌≤◌, IfSome};
ghost use Rattle.calendar.specs.rules.Date.{leap, month_length, shown_length, days_before, days_before_year, Valid};
ghost use Rattle.calendar.specs.rules.Julian.{millis_of, julian_of};
ghost use Rattle.calendar.specs.rules.Number.{number_of, shown_number, number_rule};

// A year, a month from 1 on and a day from 1 on.
#[derive(Clone, Copy)]
pub struct Date {
    pub year: u16,
    pub month: u8,
    pub day: u8,
}

// Why a date has no day number: there is no such month, or the month has no such day.
#[derive(Clone, Copy, PartialEq, Eq)]
pub enum Missing {
    Month,
    Day,
}

// ---- dates

// Whether a year is a leap year.
fn is_leap(year: u16) -> bool
    ensures { result ≡ leap year }
{
    if year % 400 == 0 {
        return true;
    }
    if year % 100 == 0 {
        return false;
    }
    year % 4 == 0
}

// The days of a month, where there is such a month.
fn month_length(leaps: bool, month: u8) -> Option<u8>
    ensures says { shown_length result ≡ month_length leaps month }
    ensures some { IfSome result (λ n. 0 < n) }
{
    if month < 1 {
        return None;
    }
    if month > 12 {
        return None;
    }
    if month == 2 {
        if leaps {
            return Some(29);
        }
        return Some(28);
    }
    Some(30 + (month + month / 8) % 2)
}

// The days of a year before a month.
fn days_before(leaps: bool, month: u8) -> u32
    requires { (1 ≤ month) × (month ≤ 12) }
    ensures { result ≡ days_before leaps month }
{
    let n = (367 * month as u32 - 362) / 12;
    if month <= 2 {
        return n;
    }
    if leaps {
        return n - 1;
    }
    n - 2
}

// The days before a year, from the year 0 on.
fn days_before_year(year: u16) -> u32
    ensures { result ≡ days_before_year year }
{
    let n = year as u32;
    365 * n + (n + 3) / 4 + (n + 399) / 400 - (n + 99) / 100
}

// The day number of a date that is one.
fn number_of(date: Date) -> u32
    requires { Valid date }
    ensures { result ≡ number_of date }
{
    let year = date.year;
    let month = date.month;
    let day = date.day as u32;
    1721059 + days_before_year(year) + days_before(is_leap(year), month) + day
}

// The day number of a date.
pub fn day_number(date: Date) -> Result<u32, Missing>
    ensures { shown_number result ≡ number_rule date }
{
    let year = date.year;
    let month = date.month;
    let day = date.day;
    let Some(most) = month_length(is_leap(year), month) else {
        return Err(Missing::Month);
    };
    if day == 0 {
        return Err(Missing::Day);
    }
    if day > most {
        return Err(Missing::Day);
    }
    Ok(number_of(date))
}

// ---- times

// The milliseconds since the Julian day 0, which begins at noon; 0 before it.
fn millis_of(number: u32, millis: u32, dut1: i32) -> u64
    ensures { result ≡ millis_of number millis dut1 }
{
    let n = 86400000 * number as u64 + millis as u64;
    let size = dut1.unsigned_abs() as u64;
    if dut1 < 0 {
        return n.saturating_sub(size).saturating_sub(43200000);
    }
    (n + size).saturating_sub(43200000)
}

// The Julian day so many milliseconds past the 0h of a day number, and so many more or less, as UT1 is ahead of UTC or behind it.
pub fn julian(number: u32, millis: u32, dut1: i32) -> f64
    ensures { result ≡ julian_of number millis dut1 }
{
    std::num::nearest_u64_to_f64(millis_of(number, millis, dut1)) / 86400000.0
}
