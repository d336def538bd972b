// The sheet that `starlist` prints (section 7) of the stars that a list keeps, and the same with every star's yearly changes. Promised:
// every byte of it for every list, in the room that it names.
#![tactic(auto)]

ghost use Rattle.std.specs.Prelude.{◌≡◌, [], ◌∷◌, ◌≤◌, length};
ghost use Rattle.quantity.specs.rules.Answer.{shown};
ghost use Rattle.lent.specs.rules.Writing.{Wrote};
ghost use Rattle.list.specs.rules.Stars.{stars, kept};
ghost use Rattle.text_sheet.specs.rules.Sheet.{place_text, rates_text, line, lines, goods, heading, footing, sheet_of};
ghost use Rattle.text_sheet.specs.rules.Render.{bytes_of, render_rule, rendered};

use list::Star;
use quantity::Refusal;

// Bytes of the longest sheet, at most: sixty-four a star, and sixty more.
pub const ROOM: usize = 60 + 64 * list::MOST_STARS;

// Each `put_` writes its text from the offset on, and answers the offset after it. This one: a star's right ascension and declination.
fn put_place(out: &mut [u8], at: usize, star: Star) -> usize
    ensures { Wrote out.old at (place_text star) out.new result }
{
    let a = lent::put_byte(out, at, b' ');
    let b = text_number::put_decimal(out, a, star.asc as u64);
    let c = lent::put_byte(out, b, b' ');
    text_number::put_integer(out, c, star.dec)
}

// Its yearly changes, where they are asked for.
fn put_rates(out: &mut [u8], at: usize, rates: bool, star: Star) -> usize
    ensures { Wrote out.old at (rates_text rates star) out.new result }
{
    if rates {
        let a = lent::put_byte(out, at, b' ');
        let b = text_number::put_integer(out, a, star.asc_rate);
        let c = lent::put_byte(out, b, b' ');
        return text_number::put_integer(out, c, star.dec_rate);
    }
    lent::within(at, out.len())
}

// A star's line.
fn put_line(out: &mut [u8], at: usize, rates: bool, star: Star) -> usize
    ensures { Wrote out.old at (line rates star) out.new result }
{
    let a = text_number::put_decimal(out, at, star.number as u64);
    if list::in_range(star) {
        let b = put_place(out, a, star);
        let c = put_rates(out, b, rates, star);
        return lent::put(out, c, b" ok\n");
    }
    lent::put(out, a, b" bad\n")
}

// The line of a star that is kept, and nothing for an empty place.
fn put_kept(out: &mut [u8], at: usize, rates: bool, star: Star) -> usize
    ensures { Wrote out.old at (lines rates (kept (star ∷ []))) out.new result }
{
    if star.number == 0 {
        return lent::within(at, out.len());
    }
    put_line(out, at, rates, star)
}

// A line for each star that is kept.
fn put_lines(out: &mut [u8], at: usize, rates: bool, bytes: &[u8]) -> usize
    ensures { Wrote out.old at (lines rates (kept (stars bytes.now))) out.new result }
{
    let mut offset = lent::within(at, out.len());
    for i in 0..list::count(bytes) {
        offset = put_kept(out, offset, rates, list::nth(bytes, i));
    }
    offset
}

// 1 for a star that is kept, and else 0.
fn one_kept(star: Star) -> usize
    ensures { result ≡ length (kept (star ∷ [])) }
{
    if star.number == 0 { 0 } else { 1 }
}

// 1 for a star that is kept and in range, and else 0.
fn one_good(star: Star) -> usize
    ensures { result ≡ goods (kept (star ∷ [])) }
{
    if star.number == 0 {
        return 0;
    }
    if list::in_range(star) { 1 } else { 0 }
}

// How many stars are kept, and how many of them are in range.
#[derive(Clone, Copy)]
struct Counted {
    all: usize,
    good: usize,
}

fn counts(bytes: &[u8]) -> Counted
    ensures all { result.all ≡ length (kept (stars bytes.now)) }
    ensures good { result.good ≡ goods (kept (stars bytes.now)) }
{
    let mut all: usize = 0;
    let mut good: usize = 0;
    for i in 0..list::count(bytes) {
        let star = list::nth(bytes, i);
        all += one_kept(star);
        good += one_good(star);
    }
    Counted { all, good }
}

// How many stars there are.
fn put_heading(out: &mut [u8], at: usize, n: usize) -> usize
    ensures { Wrote out.old at (heading n) out.new result }
{
    let a = lent::put(out, at, b"stars ");
    let b = text_number::put_decimal(out, a, n as u64);
    lent::put_byte(out, b, b'\n')
}

// How many are good, and how many bad.
fn put_footing(out: &mut [u8], at: usize, good: usize, bad: usize) -> usize
    ensures { Wrote out.old at (footing good bad) out.new result }
{
    let a = lent::put(out, at, b"good ");
    let b = text_number::put_decimal(out, a, good as u64);
    let c = lent::put(out, b, b" bad ");
    let d = text_number::put_decimal(out, c, bad as u64);
    lent::put_byte(out, d, b'\n')
}

// The whole sheet, from the slice's start on.
fn put_sheet(out: &mut [u8], rates: bool, bytes: &[u8]) -> usize
    ensures { Wrote out.old 0 (sheet_of rates bytes.now) out.new result }
{
    if !list::is_list(bytes) {
        return text_number::put_refused(out, 0, Refusal::List.number());
    }
    let counted = counts(bytes);
    let all = counted.all;
    let good = counted.good;
    let a = put_heading(out, 0, all);
    let b = put_lines(out, a, rates, bytes);
    put_footing(out, b, good, all - good)
}

// The sheet of a list, with or without yearly changes, from the slice's start on; of bytes that are no list, the line that says so: how
// many bytes were written.
// Refusals: 8 for a slice that is shorter than the longest sheet.
pub fn render(bytes: &[u8], rates: bool, out: &mut [u8]) -> Result<usize, Refusal>
    ensures result_value { shown result ≡ render_rule rates bytes.now out.old }
    ensures text { out.new ≡ rendered rates bytes.now out.old }
    ensures within { bytes_of result ≤ length out.new }
{
    if out.len() < ROOM {
        return Err(Refusal::List);
    }
    Ok(put_sheet(out, rates, bytes))
}
