// The parts of a sight's text: an angle in degrees, minutes and seconds of arc, the observer's place, what is said of an altitude, the
// edition, and a refusal of a sight or of a mark, in words. Promised: every byte of it; each angle is rounded once.
#![tactic(auto)]

ghost use Rattle.std.specs.Prelude.{◌≡◌};
ghost use Rattle.quantity.specs.rules.Answer.{shown_by};
ghost use Rattle.lent.specs.rules.Writing.{Wrote};
ghost use Rattle.text_heading.specs.rules.Angle.{tenths, tenths_of, circle_tenths, arc_text, pad_text, lead_of, column_text, angle_text, circle_text, mark_text};
ghost use Rattle.text_heading.specs.rules.Place.{hundredths, side_of, parts_text, coordinate_text, place_text};
ghost use Rattle.text_heading.specs.rules.Edition.{edition_text};
ghost use Rattle.text_heading.specs.rules.Altitude.{seen_at, seen_text, remark_text, altitude_text};
ghost use Rattle.text_heading.specs.rules.Refusal.{sight_words, mark_words, sight_refusal_text, mark_refusal_text};

use edition::Edition;
use quantity::{Deg, Numbered};

// ---- an angle

// Degrees in tenths of a second of arc.
fn tenths(x: Deg) -> f64
    ensures { result ≡ tenths x }
{
    x.0 * 36000.0
}

// To the nearest one, without the sign.
fn tenths_of(x: Deg) -> u64
    ensures { result ≡ tenths_of x }
{
    units::nearest_whole(double::size(tenths(x)))
}

// The same of a heading, below a turn.
fn circle_tenths(x: Deg) -> u64
    ensures { result ≡ circle_tenths x }
{
    tenths_of(x) % 12960000
}

// Each `put_` writes its text from the offset on, and answers the offset after it. This one: so many tenths of a second.
pub fn put_arc(out: &mut [u8], at: usize, n: u64) -> usize
    ensures { Wrote out.old at (arc_text n) out.new result }
{
    let a = text_number::put_decimal(out, at, n / 36000);
    let b = lent::put_byte(out, a, b'd');
    let c = text_time::put_two(out, b, n / 600 % 60);
    let d = lent::put_byte(out, c, b'\'');
    let e = text_time::put_two(out, d, n / 10 % 60);
    let f = lent::put_byte(out, e, b'.');
    let g = text_number::put_decimal(out, f, n % 10);
    lent::put_byte(out, g, b'"')
}

// Spaces in front of fewer than three digits.
fn put_pad(out: &mut [u8], at: usize, degrees: u64) -> usize
    ensures { Wrote out.old at (pad_text degrees) out.new result }
{
    if degrees < 10 {
        return lent::put(out, at, b"  ");
    }
    if degrees < 100 {
        return lent::put_byte(out, at, b' ');
    }
    lent::within(at, out.len())
}

// A minus sign, or a space in its column.
fn lead(minus: bool) -> u8
    ensures { result ≡ lead_of minus }
{
    if minus { b'-' } else { b' ' }
}

// A sign and so many tenths, in columns.
fn put_column(out: &mut [u8], at: usize, minus: bool, n: u64) -> usize
    ensures { Wrote out.old at (column_text minus n) out.new result }
{
    let a = put_pad(out, at, n / 36000);
    let b = lent::put_byte(out, a, lead(minus));
    put_arc(out, b, n)
}

// An angle of either sign.
pub fn put_angle(out: &mut [u8], at: usize, x: Deg) -> usize
    ensures { Wrote out.old at (angle_text x) out.new result }
{
    let n = tenths_of(x);
    put_column(out, at, units::has_minus(tenths(x), n), n)
}

// A heading.
pub fn put_circle(out: &mut [u8], at: usize, x: Deg) -> usize
    ensures { Wrote out.old at (circle_text x) out.new result }
{
    put_column(out, at, false, circle_tenths(x))
}

// A mark's heading in a line.
pub fn put_mark(out: &mut [u8], at: usize, mark: Deg) -> usize
    ensures { Wrote out.old at (mark_text mark) out.new result }
{
    let a = lent::put(out, at, b"mark            ");
    let b = put_circle(out, a, mark);
    lent::put(out, b, b" from north, clockwise\n")
}

// ---- the observer's place

// Degrees in hundredths.
fn hundredths(x: Deg) -> f64
    ensures { result ≡ hundredths x }
{
    x.0 * 100.0
}

// The letter of a side.
fn side(minus: bool, positive: u8, negative: u8) -> u8
    ensures { result ≡ side_of minus positive negative }
{
    if minus { negative } else { positive }
}

// So many hundredths of a degree, and a letter.
fn put_parts(out: &mut [u8], at: usize, n: u64, letter: u8) -> usize
    ensures { Wrote out.old at (parts_text n letter) out.new result }
{
    let a = text_number::put_decimal(out, at, n / 100);
    let b = lent::put_byte(out, a, b'.');
    let c = text_time::put_two(out, b, n % 100);
    let d = lent::put_byte(out, c, b' ');
    lent::put_byte(out, d, letter)
}

// A longitude or a latitude, with the letter of its side.
fn put_coordinate(out: &mut [u8], at: usize, x: Deg, positive: u8, negative: u8) -> usize
    ensures { Wrote out.old at (coordinate_text x positive negative) out.new result }
{
    let y = hundredths(x);
    let n = units::nearest_whole(double::size(y));
    let minus = units::has_minus(y, n);
    put_parts(out, at, n, side(minus, positive, negative))
}

// Both in a line.
pub fn put_place(out: &mut [u8], at: usize, long: Deg, lat: Deg) -> usize
    ensures { Wrote out.old at (place_text long lat) out.new result }
{
    let a = lent::put(out, at, b"place            ");
    let b = put_coordinate(out, a, long, b'W', b'E');
    let c = lent::put(out, b, b", ");
    let d = put_coordinate(out, c, lat, b'N', b'S');
    lent::put_byte(out, d, b'\n')
}

// ---- the edition

// In a line, where it is the published one.
pub fn put_edition(out: &mut [u8], at: usize, edition: Edition) -> usize
    ensures { Wrote out.old at (edition_text edition) out.new result }
{
    match edition {
        Edition::Crate => lent::within(at, out.len()),
        Edition::Published => lent::put(out, at, b"edition          published\n"),
    }
}

// ---- an altitude

// The altitude at which a star is seen.
fn put_seen_at(out: &mut [u8], at: usize, x: Deg) -> usize
    ensures { Wrote out.old at (seen_at x) out.new result }
{
    let a = lent::put(out, at, b", seen at ");
    put_arc(out, a, tenths_of(x))
}

// The same where refraction is defined.
fn put_seen<E: Numbered>(out: &mut [u8], at: usize, seen: Result<Deg, E>) -> usize
    ensures { Wrote out.old at (seen_text (shown_by E.numbered seen)) out.new result }
{
    match seen {
        Ok(x) => put_seen_at(out, at, x),
        Err(_) => lent::within(at, out.len()),
    }
}

// That the star is below the horizon, or near the zenith.
fn put_remark(out: &mut [u8], at: usize, alt: Deg) -> usize
    ensures { Wrote out.old at (remark_text alt) out.new result }
{
    if alt.0 < 0.0 {
        return lent::put(out, at, b", below the horizon");
    }
    if 89.0 <= alt.0 {
        return lent::put(
            out,
            at,
            b", within a degree of the zenith: the azimuth is ill defined",
        );
    }
    lent::within(at, out.len())
}

// All that is said of it, and of the one at which the star is seen.
pub fn put_altitude<E: Numbered>(out: &mut [u8], at: usize, alt: Deg, seen: Result<Deg, E>) -> usize
    ensures { Wrote out.old at (altitude_text alt (shown_by E.numbered seen)) out.new result }
{
    let a = put_angle(out, at, alt);
    let b = put_seen(out, a, seen);
    let c = put_remark(out, b, alt);
    lent::put_byte(out, c, b'\n')
}

// ---- a refusal

// What a sight can be refused by.
fn put_sight_words(out: &mut [u8], at: usize, n: u8) -> usize
    ensures { Wrote out.old at (sight_words n) out.new result }
{
    if n == 3 {
        return lent::put(
            out,
            at,
            b": LATITUDE is past 90 degrees, LONGITUDE past 3666, or the star is carried past the pole: check them",
        );
    }
    if n == 10 {
        return lent::put(out, at, b": the list has no star of this number: check it");
    }
    if n == 14 {
        return lent::put(
            out,
            at,
            b": the star stands straight overhead or exactly at the pole: choose another",
        );
    }
    text_refusal::put_star_words(out, at, n)
}

// What a mark's heading can be refused by.
fn put_mark_words(out: &mut [u8], at: usize, n: u8) -> usize
    ensures { Wrote out.old at (mark_words n) out.new result }
{
    if n == 3 {
        return lent::put(
            out,
            at,
            b": a reading is not from 0 to below 360 degrees: check both",
        );
    }
    lent::within(at, out.len())
}

// The line of a refusal of a sight, with its words.
pub fn put_sight_refusal(out: &mut [u8], at: usize, n: u8) -> usize
    ensures { Wrote out.old at (sight_refusal_text n) out.new result }
{
    let a = text_refusal::put_number_words(out, at, n);
    let b = put_sight_words(out, a, n);
    lent::put_byte(out, b, b'\n')
}

// The line of a refusal of a mark's heading, likewise.
pub fn put_mark_refusal(out: &mut [u8], at: usize, n: u8) -> usize
    ensures { Wrote out.old at (mark_refusal_text n) out.new result }
{
    let a = text_refusal::put_number_words(out, at, n);
    let b = put_mark_words(out, a, n);
    lent::put_byte(out, b, b'\n')
}
