// The text of a night's headings of one mark, which are lent by their lines, stars and headings: each sight's, with its residual from the
// reference; their mean, with its spread and its error. Promised: every byte, as far as there is room; each figure is rounded once.
#![tactic(auto)]

ghost use Rattle.std.specs.Prelude.{◌≡◌};
ghost use Rattle.lent.specs.rules.Writing.{Wrote};
ghost use Rattle.lent.specs.rules.Texts.{texts};
ghost use Rattle.text_headings.specs.rules.Sight.{seconds_text, sight_of, way_text, aside_text, residual_text, heading_text, heading_at, row_at};
ghost use Rattle.text_headings.specs.rules.Mean.{counts_text, scatter_text, spread_text, mean_text};

use quantity::Deg;
use residual_sheet::{Residual, Sheet};

// Bytes of a sight's line, at most.
pub const SIGHT_ROOM: usize = 197;

// ---- a sight

// Each `put_` writes its text from the offset on, and answers the offset after it. This one: so many milliarcseconds in seconds of arc.
fn put_seconds(out: &mut [u8], at: usize, n: u64) -> usize
    ensures { Wrote out.old at (seconds_text n) out.new result }
{
    let a = text_number::put_decimal(out, at, n / 1000);
    let b = lent::put_byte(out, a, b'.');
    let c = text_time::put_three(out, b, n % 1000);
    lent::put_byte(out, c, b'"')
}

// Which sight it is.
pub fn put_sight_of(out: &mut [u8], at: usize, line: u64, star: u64) -> usize
    ensures { Wrote out.old at (sight_of line star) out.new result }
{
    let a = lent::put(out, at, b"line ");
    let b = text_number::put_decimal(out, a, line);
    let c = lent::put(out, b, b": star ");
    text_number::put_decimal(out, c, star)
}

// On which side of the reference it lies.
fn put_way(out: &mut [u8], at: usize, minus: bool) -> usize
    ensures { Wrote out.old at (way_text minus) out.new result }
{
    if minus {
        return lent::put(out, at, b" counterclockwise of line ");
    }
    lent::put(out, at, b" clockwise of line ")
}

// That it is set aside, where it is.
fn put_aside(out: &mut [u8], at: usize, aside: bool) -> usize
    ensures { Wrote out.old at (aside_text aside) out.new result }
{
    if aside {
        return lent::put(out, at, b", set aside\n");
    }
    lent::put_byte(out, at, b'\n')
}

// Its residual from the reference, which stands in a line.
fn put_residual(out: &mut [u8], at: usize, x: Residual, reference: u64) -> usize
    ensures { Wrote out.old at (residual_text x reference) out.new result }
{
    let minus = x.minus;
    let a = put_seconds(out, at, x.size);
    let b = put_way(out, a, minus);
    let c = text_number::put_decimal(out, b, reference);
    put_aside(out, c, residual_sheet::is_aside(x))
}

// All of it in a line.
fn put_heading(
    out: &mut [u8],
    at: usize,
    line: u64,
    star: u64,
    mark: Deg,
    x: Residual,
    reference: u64,
) -> usize
    ensures { Wrote out.old at (heading_text line star mark x reference) out.new result }
{
    let a = put_sight_of(out, at, line, star);
    let b = lent::put(out, a, b", mark");
    let c = text_heading::put_circle(out, b, mark);
    let d = lent::put(out, c, b" from north, clockwise, ");
    put_residual(out, d, x, reference)
}

// Heading i of a slice, each lent as its bits; past its end 0.0.
fn heading_at(s: &[u64], i: usize) -> Deg
    ensures { result ≡ heading_at s.now i }
{
    Deg(double::of_pattern(text_sights::number_at(s, i)))
}

// Sight i of those that are lent, by sight k as the reference.
fn put_row_at<'a>(
    out: &mut [u8],
    at: usize,
    line: &'a [u64],
    star: &'a [u32],
    heading: &'a [u64],
    k: usize,
    i: usize,
) -> usize
    ensures { Wrote out.old at (row_at line.now star.now heading.now k i) out.new result }
{
    let mark = heading_at(heading, i);
    let x = heading_mean::residual_from(heading_at(heading, k), mark);
    let reference = text_sights::number_at(line, k);
    let number = text_sights::star_at(star, i) as u64;
    let on_line = text_sights::number_at(line, i);
    put_heading(out, at, on_line, number, mark, x, reference)
}

// The first n of them.
pub fn put_rows<'a>(
    out: &mut [u8],
    at: usize,
    line: &'a [u64],
    star: &'a [u32],
    heading: &'a [u64],
    k: usize,
    n: usize,
) -> usize
    ensures { Wrote out.old at (texts n (row_at line.now star.now heading.now k)) out.new result }
{
    let mut offset = lent::within(at, out.len());
    for i in 0..n {
        offset = put_row_at(out, offset, line, star, heading, k, i);
    }
    offset
}

// ---- the mean

// How many sights are taken in and set aside.
fn put_counts(out: &mut [u8], at: usize, count: u64, aside: u64) -> usize
    ensures { Wrote out.old at (counts_text count aside) out.new result }
{
    let a = lent::put(out, at, b"taken in         ");
    let b = text_number::put_decimal(out, a, count);
    let c = lent::put(out, b, b"\nset aside        ");
    let d = text_number::put_decimal(out, c, aside);
    lent::put_byte(out, d, b'\n')
}

// Spread and error, of two sights or more.
fn put_scatter(out: &mut [u8], at: usize, count: u64, sum: u64, squares: u64) -> usize
    ensures { Wrote out.old at (scatter_text count sum squares) out.new result }
{
    let spread = units::nearest_whole(heading_mean::spread_of(count, sum, squares));
    let error = units::nearest_whole(heading_mean::mean_error(count, sum, squares));
    let a = lent::put(out, at, b"spread           ");
    let b = put_seconds(out, a, spread);
    let c = lent::put(out, b, b"\nerror of mean    ");
    let d = put_seconds(out, c, error);
    lent::put_byte(out, d, b'\n')
}

// The same of any number of them.
fn put_spread(out: &mut [u8], at: usize, count: u64, sum: u64, squares: u64) -> usize
    ensures { Wrote out.old at (spread_text count sum squares) out.new result }
{
    if count < 2 {
        return lent::put(out, at, b"spread           not known of one sight\n");
    }
    put_scatter(out, at, count, sum, squares)
}

// The mean with what is known of it.
pub fn put_mean(out: &mut [u8], at: usize, mean: Deg, sheet: Sheet) -> usize
    ensures { Wrote out.old at (mean_text mean sheet) out.new result }
{
    let count = text_residuals::size(sheet.count);
    let aside = text_residuals::size(sheet.aside);
    let sum = text_residuals::size(sheet.sum);
    let squares = text_residuals::size(sheet.squares);
    let a = text_heading::put_mark(out, at, mean);
    let b = put_counts(out, a, count, aside);
    put_spread(out, b, count, sum, squares)
}
