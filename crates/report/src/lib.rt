// A list reduced from one day to another, and its text in a style: what `reduce` and `plan` print; and one under the rotation of two days,
// which `rotate` prints. Promised: every byte, of every list and every two days, in the room that it names.
#![tactic(auto)]

ghost use Rattle.std.specs.Prelude.{◌≡◌};
ghost use Rattle.lent.specs.rules.Writing.{Wrote};
ghost use Rattle.report.specs.rules.Report.{report_of, plan_style, plan_of, rotated_of};

use edition::Edition;
use quantity::Deg;
use text_answers::Style;
use transit::Observer;

// Bytes of the longest text, at most: so many a star, and those of a head and a foot.
pub const ROOM: usize = 461 + 145 * list::MOST_STARS;

// The list reduced from the first day to the second, as text from the slice's start on; and the offset after it.
pub fn put_report(
    out: &mut [u8],
    style: Style,
    edition: Edition,
    bytes: &[u8],
    day1: f64,
    day2: f64,
) -> usize
    ensures { Wrote out.old 0 (report_of style edition bytes.now day1 day2) out.new result }
{
    let mut status = [0u8; list::MOST_STARS];
    let mut asc = [0u64; list::MOST_STARS];
    let mut dec = [0u64; list::MOST_STARS];
    let done = batch::batch(edition, bytes, day1, day2, &mut status, &mut asc, &mut dec);
    text_answers::put_answers(out, style, edition, bytes, &status, &asc, &dec, done)
}

// The style of a plan, a table or lines.
pub fn plan_style(table: bool, o: Observer) -> Style
    ensures { result ≡ plan_style table o }
{
    if table {
        Style::PlanTable(o)
    } else {
        Style::Plan(o)
    }
}

// The list's plan on the second day, for a site and a standard altitude in degrees, as text from the slice's start on; and the offset after
// it. The sidereal time is the apparent one at Greenwich on that day.
pub fn put_plan(
    out: &mut [u8],
    table: bool,
    edition: Edition,
    bytes: &[u8],
    day1: f64,
    day2: f64,
    long: Deg,
    lat: Deg,
    alt: Deg,
) -> usize
    ensures { Wrote out.old 0 (plan_of table edition bytes.now day1 day2 long lat alt) out.new result }
{
    let o = transit::observer_at(sidereal::apparent_on(day2), long, lat, alt);
    let style = plan_style(table, o);
    put_report(out, style, edition, bytes, day1, day2)
}

// The list under the rotation from the first day to the second, as lines under one that says so, from the slice's start on; and the offset
// after them.
pub fn put_rotated(out: &mut [u8], edition: Edition, bytes: &[u8], day1: f64, day2: f64) -> usize
    ensures { Wrote out.old 0 (rotated_of edition bytes.now day1 day2) out.new result }
{
    let mut status = [0u8; list::MOST_STARS];
    let mut asc = [0u64; list::MOST_STARS];
    let mut dec = [0u64; list::MOST_STARS];
    let done = rotation_list::rotate(edition, bytes, day1, day2, &mut status, &mut asc, &mut dec);
    match done {
        Ok(tally) => {
            let a = lent::put(out, 0, b"precession alone\n");
            text_answers::put_list(
                out,
                a,
                Style::Lines,
                edition,
                bytes,
                &status,
                &asc,
                &dec,
                tally,
            )
        }
        Err(refusal) => text_number::put_refused(out, 0, refusal.number()),
    }
}
