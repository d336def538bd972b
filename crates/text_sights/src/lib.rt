// The text of a night's sights, which are lent by their lines, stars, statuses, computed and measured angles: each sight, who is left out,
// and the sheets for people with who is in neither. Promised: every byte, as far as there is room.
#![tactic(auto)]

ghost use Rattle.std.specs.Prelude.{◌≡◌, get_or};
ghost use Rattle.lent.specs.rules.Writing.{Wrote};
ghost use Rattle.lent.specs.rules.Texts.{texts};
ghost use Rattle.residual_sheet.specs.rules.Residual.{residual_of};
ghost use Rattle.text_sights.specs.rules.Sights.{angle_at, sight_at, left_at, place_at, people_text};

use quantity::Rad;
use residual_sheet::{Residual, Sheet};
use text_residuals::Place;

// ---- values by their places

// Number i of a slice; past its end 0.
pub fn number_at(s: &[u64], i: usize) -> u64
    ensures { result ≡ get_or s.now i 0 }
{
    s.get(i).copied().unwrap_or(0)
}

// Status i of a slice likewise.
pub fn status_at(s: &[u8], i: usize) -> u8
    ensures { result ≡ get_or s.now i 0 }
{
    s.get(i).copied().unwrap_or(0)
}

// Star i of a slice likewise.
pub fn star_at(s: &[u32], i: usize) -> u32
    ensures { result ≡ get_or s.now i 0 }
{
    s.get(i).copied().unwrap_or(0)
}

// The residual of angle i of two slices of radians, each lent as its bits; past an end 0.0.
fn residual_at(across: bool, computed: &[u64], measured: &[u64], i: usize) -> Residual
    ensures { result ≡ residual_of across (angle_at computed.now i) (angle_at measured.now i) }
{
    let c = double::of_pattern(number_at(computed, i));
    let m = double::of_pattern(number_at(measured, i));
    residual_sheet::residual_of(across, Rad(c), Rad(m))
}

// ---- the sights one by one

// Each `put_` writes its text from the offset on, and answers the offset after it. This one: sight i, its residuals or its refusal.
fn put_sight_at<'a>(
    out: &mut [u8],
    at: usize,
    line: &'a [u64],
    star: &'a [u32],
    status: &'a [u8],
    asc: &'a [u64],
    dec: &'a [u64],
    measured_asc: &'a [u64],
    measured_dec: &'a [u64],
    i: usize,
) -> usize
    ensures { Wrote out.old at (sight_at line.now star.now status.now asc.now
        dec.now measured_asc.now measured_dec.now i) out.new result }
{
    let n = status_at(status, i);
    let on_line = number_at(line, i);
    let number = star_at(star, i) as u64;
    if n != 0 {
        return text_residuals::put_refused_sight(out, at, on_line, number, n);
    }
    let a = residual_at(true, asc, measured_asc, i);
    let d = residual_at(false, dec, measured_dec, i);
    text_residuals::put_sight(out, at, on_line, number, a, d)
}

// The first n of them.
pub fn put_sights<'a>(
    out: &mut [u8],
    line: &'a [u64],
    star: &'a [u32],
    status: &'a [u8],
    asc: &'a [u64],
    dec: &'a [u64],
    measured_asc: &'a [u64],
    measured_dec: &'a [u64],
    n: usize,
) -> usize
    ensures { Wrote out.old 0 (texts n (sight_at line.now star.now status.now asc.now
        dec.now measured_asc.now measured_dec.now)) out.new result }
{
    let mut offset = 0;
    for i in 0..n {
        offset = put_sight_at(
            out,
            offset,
            line,
            star,
            status,
            asc,
            dec,
            measured_asc,
            measured_dec,
            i,
        );
    }
    offset
}

// Sight i where it is left out, in words.
fn put_left_at<'a>(
    out: &mut [u8],
    at: usize,
    line: &'a [u64],
    star: &'a [u32],
    status: &'a [u8],
    i: usize,
) -> usize
    ensures { Wrote out.old at (left_at line.now star.now status.now i) out.new result }
{
    let n = status_at(status, i);
    if n == 0 {
        return lent::within(at, out.len());
    }
    text_residuals::put_left(out, at, number_at(line, i), star_at(star, i) as u64, n)
}

// Of the first n those that are left out.
pub fn put_lefts<'a>(
    out: &mut [u8],
    at: usize,
    line: &'a [u64],
    star: &'a [u32],
    status: &'a [u8],
    n: usize,
) -> usize
    ensures { Wrote out.old at (texts n (left_at line.now star.now status.now)) out.new result }
{
    let mut offset = lent::within(at, out.len());
    for i in 0..n {
        offset = put_left_at(out, offset, line, star, status, i);
    }
    offset
}

// ---- all of them

// The line and the star at a place.
fn place_at<'a>(line: &'a [u64], star: &'a [u32], place: i64) -> Place
    ensures { result ≡ place_at line.now star.now place }
{
    let i = text_residuals::size(place) as usize;
    let number = star_at(star, i) as u64;
    Place {
        line: number_at(line, i),
        star: number,
    }
}

// Both sheets for people, and who is in neither.
pub fn put_people<'a>(
    out: &mut [u8],
    asc: Sheet,
    dec: Sheet,
    line: &'a [u64],
    star: &'a [u32],
    status: &'a [u8],
) -> usize
    ensures { Wrote out.old 0 (people_text asc dec line.now star.now status.now) out.new result }
{
    let a = place_at(line, star, asc.place);
    let d = place_at(line, star, dec.place);
    let k = text_residuals::put_sheet(out, 0, asc, a, dec, d);
    put_lefts(out, k, line, star, status, line.len())
}
