// Numbers as text, written into a lent slice, and the line of a refusal. Promised: every byte of it, as far as there is room.
#![tactic(auto)]

ghost use Rattle.lent.specs.rules.Writing.{Wrote};
ghost use Rattle.text_number.specs.rules.Number.{decimal_text, signed_text, integer_text, hex16};
ghost use Rattle.text_number.specs.rules.Refused.{refused_text};

// Each `put_` writes its text from the offset on, and answers the offset after it. This one: a number in decimal.
pub fn put_decimal(out: &mut [u8], at: usize, n: u64) -> usize
    ensures { Wrote out.old at (decimal_text n) out.new result }
{
    let mut digits = [0u8; 20];
    let k = io::decimal(n, &mut digits);
    lent::put(out, at, &digits[..k])
}

// A sign and a size: n in decimal, with a minus sign in front where it is asked for.
pub fn put_signed(out: &mut [u8], at: usize, minus: bool, n: u64) -> usize
    ensures { Wrote out.old at (signed_text minus n) out.new result }
{
    if minus {
        let a = lent::put_byte(out, at, b'-');
        return put_decimal(out, a, n);
    }
    put_decimal(out, at, n)
}

// A signed number in decimal.
pub fn put_integer(out: &mut [u8], at: usize, z: i32) -> usize
    ensures { Wrote out.old at (integer_text z) out.new result }
{
    put_signed(out, at, signed::negative(z), signed::size(z) as u64)
}

// Sixteen hexadecimal digits.
pub fn put_hex16(out: &mut [u8], at: usize, n: u64) -> usize
    ensures { Wrote out.old at (hex16 n) out.new result }
{
    let mut digits = [0u8; 16];
    let k = io::hex(n, 16, &mut digits);
    lent::put(out, at, &digits[..k])
}

// The line of a refusal.
pub fn put_refused(out: &mut [u8], at: usize, n: u8) -> usize
    ensures { Wrote out.old at (refused_text n) out.new result }
{
    let a = lent::put(out, at, b"refused ");
    let b = put_decimal(out, a, n as u64);
    lent::put_byte(out, b, b'\n')
}
