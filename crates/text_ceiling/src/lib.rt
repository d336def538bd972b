// The text that `ceiling` prints: the ceiling on nutation at the centuries -20 to 20, a line each. Promised: every byte of it, and that
// the days asked at have those centuries exactly.
#![tactic(auto)]

ghost use Rattle.std.specs.Prelude.{◌≡◌};
ghost use Rattle.lent.specs.rules.Writing.{Wrote};
ghost use Rattle.quantity.specs.rules.Answer.{shown_two};
ghost use Rattle.text_ceiling.specs.rules.Text.{is_before, size_at, day_at, bits_text, figures_text, line_at, ceiling_text};

use quantity::Refusal;

// Bytes of the text, at most.
pub const ROOM: usize = 2296;

// ---- the day of a line

// Whether line i has a century below zero.
fn is_before(i: u64) -> bool
    ensures { result ≡ is_before i }
{
    i < 20
}

// The size of its century.
fn size_at(i: u64) -> u64
    ensures { result ≡ size_at i }
{
    i.abs_diff(20)
}

// Its day.
fn day_at(i: u64) -> f64
    ensures { result ≡ day_at i }
{
    let days = 36525.0 * double::from_whole(size_at(i));
    double::either(is_before(i), 2451545.0 - days, 2451545.0 + days)
}

// ---- the text

// The bits of both figures.
fn put_bits(out: &mut [u8], at: usize, x: f64, y: f64) -> usize
    ensures { Wrote out.old at (bits_text x y) out.new result }
{
    let a = text_number::put_hex16(out, at, double::pattern(x));
    let b = lent::put_byte(out, a, b' ');
    let c = text_number::put_hex16(out, b, double::pattern(y));
    lent::put_byte(out, c, b'\n')
}

// Both figures, or a refusal.
fn put_figures(out: &mut [u8], at: usize, x: Result<(f64, f64), Refusal>) -> usize
    ensures { Wrote out.old at (figures_text (shown_two x)) out.new result }
{
    match x {
        Ok((long, oblq)) => put_bits(out, at, long, oblq),
        Err(refusal) => text_number::put_refused(out, at, refusal.number()),
    }
}

// Line i.
fn put_line(out: &mut [u8], at: usize, i: u64) -> usize
    ensures { Wrote out.old at (line_at i) out.new result }
{
    let a = text_number::put_signed(out, at, is_before(i), size_at(i));
    let b = lent::put_byte(out, a, b' ');
    put_figures(out, b, nutation_ceiling::nutation_ceiling(day_at(i)))
}

// All lines, from the slice's start on; and the offset after them.
pub fn put_ceiling(out: &mut [u8]) -> usize
    ensures { Wrote out.old 0 ceiling_text out.new result }
{
    let mut offset = lent::within(0, out.len());
    for i in 0..41 {
        offset = put_line(out, offset, i);
    }
    offset
}
