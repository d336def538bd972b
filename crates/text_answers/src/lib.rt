// The text of a list's answers, star by star, in one of four styles. Promised: every byte of it, as far as there is room. What is
// printed was worked out before: a status and two angles a star, each angle lent as its bits, a refusal of all and a tally.
#![tactic(auto)]

ghost use Rattle.std.specs.Prelude.{◌+◌, ◌≡◌, get_or};
ghost use Rattle.lent.specs.rules.Writing.{Wrote};
ghost use Rattle.lent.specs.rules.Texts.{texts};
ghost use Rattle.quantity.specs.rules.Answer.{checked, shown};
ghost use Rattle.list_tally.specs.rules.Status.{highest_status};
ghost use Rattle.text_answers.specs.rules.Answers.{star_text, edition_text, heading_in, head_text, count_text, count_at, tally_text, foot_text};
ghost use Rattle.text_answers.specs.rules.Answers.{refusal_in, refused_in, angle_at, lent_line, list_text, answers_text};

use edition::Edition;
use list_tally::Tally;
use quantity::{Rad, Refusal};
use transit::Observer;

// What is written of a star: its angles, and a tally of all, or a row of a table; its plan for an observer, in a line or in a row.
#[derive(Clone, Copy)]
pub enum Style {
    Lines,
    Table,
    Plan(Observer),
    PlanTable(Observer),
}

// How many statuses are known.
const KNOWN: usize = list_tally::HIGHEST_STATUS as usize + 1;

// ---- a star

// Byte i of a slice; past its end 0.
pub fn byte_at(s: &[u8], i: usize) -> u8
    ensures { result ≡ get_or s.now i 0 }
{
    s.get(i).copied().unwrap_or(0)
}

// Angle i of a slice of radians, each lent as its bits; past its end 0.0.
pub fn angle_at(s: &[u64], i: usize) -> Rad
    ensures { result ≡ angle_at s.now i }
{
    match s.get(i) {
        Some(bits) => Rad(double::of_pattern(*bits)),
        None => Rad(0.0),
    }
}

// Each `put_` writes its text from the offset on, and answers the offset after it. This one: a star in its style.
fn put_star(
    out: &mut [u8],
    at: usize,
    style: Style,
    number: u32,
    status: u8,
    asc: Rad,
    dec: Rad,
) -> usize
    ensures { Wrote out.old at (star_text style number status asc dec) out.new result }
{
    match style {
        Style::Lines => text_line::put_line(out, at, number, status, asc, dec),
        Style::Table => text_row::put_row(out, at, number, status, asc, dec),
        Style::Plan(o) => {
            let plan = transit::planned(status, asc, dec, o);
            text_time::put_line(out, at, number, plan, transit::again(plan))
        }
        Style::PlanTable(o) => {
            let plan = transit::planned(status, asc, dec, o);
            text_row::put_plan_row(out, at, number, plan, transit::again(plan))
        }
    }
}

// Star i of the list, whose status and angles are lent; nothing for an empty place.
fn put_nth<'a>(
    out: &mut [u8],
    at: usize,
    style: Style,
    bytes: &'a [u8],
    status: &'a [u8],
    asc: &'a [u64],
    dec: &'a [u64],
    i: usize,
) -> usize
    ensures { Wrote out.old at (lent_line style bytes.now status.now asc.now dec.now i)
        out.new result }
{
    let star = list::nth(bytes, i);
    let number = star.number;
    if number == 0 {
        return lent::within(at, out.len());
    }
    put_star(
        out,
        at,
        style,
        number,
        byte_at(status, i),
        angle_at(asc, i),
        angle_at(dec, i),
    )
}

// Those of the first n places.
fn put_stars<'a>(
    out: &mut [u8],
    at: usize,
    style: Style,
    bytes: &'a [u8],
    status: &'a [u8],
    asc: &'a [u64],
    dec: &'a [u64],
    n: usize,
) -> usize
    ensures { Wrote out.old at
        (texts n (lent_line style bytes.now status.now asc.now dec.now)) out.new result }
{
    let mut offset = lent::within(at, out.len());
    for i in 0..n {
        offset = put_nth(out, offset, style, bytes, status, asc, dec, i);
    }
    offset
}

// ---- head and foot

// The edition in a line, where it is the published one.
fn put_edition(out: &mut [u8], at: usize, edition: Edition) -> usize
    ensures { Wrote out.old at (edition_text edition) out.new result }
{
    match edition {
        Edition::Crate => lent::within(at, out.len()),
        Edition::Published => lent::put(out, at, b"edition published\n"),
    }
}

// A table's heading.
fn put_heading(out: &mut [u8], at: usize, style: Style) -> usize
    ensures { Wrote out.old at (heading_in style) out.new result }
{
    match style {
        Style::Lines | Style::Plan(_) => lent::within(at, out.len()),
        Style::Table => lent::put(
            out,
            at,
            b"      star  right ascension  declination\n             h  m  s           d  '  \"\n",
        ),
        Style::PlanTable(_) => lent::put(
            out,
            at,
            b"      star  rise      culmination  set\n             h  m  s   h  m  s      h  m  s\n",
        ),
    }
}

// What stands before the stars.
fn put_head(out: &mut [u8], at: usize, style: Style, edition: Edition) -> usize
    ensures { Wrote out.old at (head_text style edition) out.new result }
{
    let a = put_edition(out, at, edition);
    put_heading(out, a, style)
}

// The count of one status.
fn put_count(out: &mut [u8], at: usize, n: u32) -> usize
    ensures { Wrote out.old at (count_text n) out.new result }
{
    let a = lent::put_byte(out, at, b' ');
    text_number::put_decimal(out, a, n as u64)
}

// The counts of the statuses from 0 to the highest known.
fn put_counts(out: &mut [u8], at: usize, counts: &[u32; 20]) -> usize
    ensures { Wrote out.old at (texts (highest_status + 1) (count_at counts.now)) out.new result }
{
    let mut offset = lent::within(at, out.len());
    for k in 0..KNOWN {
        offset = put_count(out, offset, counts[k]);
    }
    offset
}

// The tally in a line.
fn put_tally(out: &mut [u8], at: usize, tally: Tally) -> usize
    ensures { Wrote out.old at (tally_text tally) out.new result }
{
    let counts = tally.counts;
    let a = lent::put(out, at, b"tally");
    let b = put_counts(out, a, &counts);
    lent::put_byte(out, b, b'\n')
}

// What stands after the stars.
fn put_foot(out: &mut [u8], at: usize, style: Style, tally: Tally) -> usize
    ensures { Wrote out.old at (foot_text style tally) out.new result }
{
    match style {
        Style::Lines => put_tally(out, at, tally),
        Style::Table | Style::Plan(_) | Style::PlanTable(_) => lent::within(at, out.len()),
    }
}

// ---- a refusal

// The least refusal over all arguments, with the list's.
fn refusal_in(style: Style, check: Result<(), Refusal>) -> Result<(), Refusal>
    ensures { checked result ≡ refusal_in style (checked check) }
{
    match style {
        Style::Lines | Style::Table => check,
        Style::Plan(o) | Style::PlanTable(o) => quantity::lower(check, transit::plan_refusal(o)),
    }
}

// A refused call's text.
fn put_refused(out: &mut [u8], style: Style, n: u8) -> usize
    ensures { Wrote out.old 0 (refused_in style n) out.new result }
{
    match style {
        Style::Lines | Style::Plan(_) => text_number::put_refused(out, 0, n),
        Style::Table => text_refusal::put_refusal(out, 0, n),
        Style::PlanTable(_) => text_refusal::put_plan_refusal(out, 0, n),
    }
}

// ---- the whole

// The answers of a list whose call was not refused, with such a tally, from the offset on; and the offset after them.
pub fn put_list<'a>(
    out: &mut [u8],
    at: usize,
    style: Style,
    edition: Edition,
    bytes: &'a [u8],
    status: &'a [u8],
    asc: &'a [u64],
    dec: &'a [u64],
    tally: Tally,
) -> usize
    ensures { Wrote out.old at
        (list_text style edition bytes.now status.now asc.now dec.now tally) out.new result }
{
    let a = put_head(out, at, style, edition);
    let b = put_stars(out, a, style, bytes, status, asc, dec, list::count(bytes));
    put_foot(out, b, style, tally)
}

// The answers of a list whose reduction answered so, from the slice's start on; and the offset after them.
pub fn put_answers<'a>(
    out: &mut [u8],
    style: Style,
    edition: Edition,
    bytes: &'a [u8],
    status: &'a [u8],
    asc: &'a [u64],
    dec: &'a [u64],
    answer: Result<Tally, Refusal>,
) -> usize
    ensures { Wrote out.old 0
        (answers_text style edition bytes.now status.now asc.now dec.now (shown answer)) out.new result }
{
    let accepted = refusal_in(style, answer.and(Ok(()))).and(answer);
    match accepted {
        Ok(tally) => put_list(out, 0, style, edition, bytes, status, asc, dec, tally),
        Err(refusal) => put_refused(out, style, refusal.number()),
    }
}
