// A star's line of the text that `reduce` prints: its number, then its angles or its refusal. Promised: every byte of it.
#![tactic(auto)]

ghost use Rattle.std.specs.Prelude.{◌≡◌};
ghost use Rattle.lent.specs.rules.Writing.{Wrote};
ghost use Rattle.text_line.specs.rules.Angle.{angle_text};
ghost use Rattle.text_line.specs.rules.Line.{angle_then, bits_then, angles_text, line_of};

use quantity::Rad;

// ---- an angle

// Each `put_` writes its text from the offset on, and answers the offset after it. This one: an angle in whole milliarcseconds.
fn put_angle(out: &mut [u8], at: usize, x: Rad) -> usize
    ensures { Wrote out.old at (angle_text x) out.new result }
{
    let y = units::milliarcseconds(units::to_degrees(x));
    let n = units::nearest_whole(double::size(y));
    text_number::put_signed(out, at, units::has_minus(y, n), n)
}

// ---- a star

// An angle in milliarcseconds, and a byte after it.
fn put_angle_then(out: &mut [u8], at: usize, x: Rad, end: u8) -> usize
    ensures { Wrote out.old at (angle_then x end) out.new result }
{
    let a = put_angle(out, at, x);
    lent::put_byte(out, a, end)
}

// An angle's bits in hexadecimal, and a byte after them.
fn put_bits_then(out: &mut [u8], at: usize, x: Rad, end: u8) -> usize
    ensures { Wrote out.old at (bits_then x end) out.new result }
{
    let a = text_number::put_hex16(out, at, double::pattern(x.0));
    lent::put_byte(out, a, end)
}

// Both angles in milliarcseconds, then the bits of both.
fn put_angles(out: &mut [u8], at: usize, asc: Rad, dec: Rad) -> usize
    ensures { Wrote out.old at (angles_text asc dec) out.new result }
{
    let a = put_angle_then(out, at, asc, b' ');
    let b = put_angle_then(out, a, dec, b' ');
    let c = put_bits_then(out, b, asc, b' ');
    put_bits_then(out, c, dec, b'\n')
}

// A star's line.
pub fn put_line(out: &mut [u8], at: usize, number: u32, status: u8, asc: Rad, dec: Rad) -> usize
    ensures { Wrote out.old at (line_of number status asc dec) out.new result }
{
    let a = text_number::put_decimal(out, at, number as u64);
    let b = lent::put_byte(out, a, b' ');
    if status == 0 {
        return put_angles(out, b, asc, dec);
    }
    text_number::put_refused(out, b, status)
}
