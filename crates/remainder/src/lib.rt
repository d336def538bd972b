// The exact remainder of two doubles, with the first one's sign (section 3). Promised: that of IEEE 754's account, of any two doubles, by
// whole numbers alone.
#![tactic(auto)]

ghost use Rattle.std.specs.Prelude.{◌≡◌, ◌*◌, ◌%◌, ◌^◌, ◌≤◌, ◌<◌};
ghost use Rattle.double.specs.rules.Operations.{bits};
ghost use Rattle.double.specs.rules.Count.{count};
ghost use Rattle.remainder.specs.rules.Digits.{digits_of, binary_places_of};
ghost use Rattle.remainder.specs.rules.Remainder.{remainder_of};

// The digits of a pattern without its sign: 53 with the leading one, which is not written, or a subnormal's own.
fn digits(b: u64) -> u64
    ensures { result ≡ digits_of b }
{
    if b < 0x10_0000_0000_0000 {
        return b;
    }
    0x10_0000_0000_0000 + b % 0x10_0000_0000_0000
}

// How many binary places they stand above those of the smallest double.
fn binary_places(b: u64) -> u64
    ensures { result ≡ binary_places_of b }
{
    if b < 0x10_0000_0000_0000 {
        return 0;
    }
    (b >> 52) - 1
}

// What is left of m·2^k by n, eleven binary places a pass: what is left then has 64 digits at most.
fn rest_of(m: u64, k: u64, n: u64) -> u64
    requires { (m < 2 ^ 53) × (0 < n) × (n < 2 ^ 53) }
    ensures { result ≡ m * 2 ^ k % n }
{
    let mut rest = m;
    let mut left = k;
    while 11 <= left {
        rest = (rest << 11) % n;
        left -= 11;
    }
    (rest << left) % n
}

// The pattern of r·2^g, where the smallest double counts 1: r brought up by its leading zeros, as far as g goes.
fn packed(r: u64, g: u64) -> u64
    requires { (r < 2 ^ 53) × (g ≤ 2045) }
    ensures { (result < 2047 * 2 ^ 52) × (count (bits result) ≡ r * 2 ^ g) }
{
    if r == 0 {
        return 0;
    }
    let up = (u64::leading_zeros(r) as u64) - 11;
    if up < g {
        ((g - up) << 52) + (r << up)
    } else {
        r << g
    }
}

// The pattern of the remainder, by those of two finite doubles that bear no minus sign, the second not zero and not the larger one.
fn remainder_pattern(b: u64, c: u64) -> u64
    requires { (b < 2047 * 2 ^ 52) × (0 < c) × (c ≤ b) }
    ensures { (result < 2047 * 2 ^ 52) × (count (bits result) ≡ count (bits b) % count (bits c)) }
{
    if c < 0x10_0000_0000_0000 {
        let up = binary_places(c);
        return packed(rest_of(digits(b), binary_places(b) - up, digits(c)), up);
    }
    let m = 0x10_0000_0000_0000 + b % 0x10_0000_0000_0000;
    let n = 0x10_0000_0000_0000 + c % 0x10_0000_0000_0000;
    packed(rest_of(m, (b >> 52) - (c >> 52), n), (c >> 52) - 1)
}

// The remainder of x by y, with x's sign; a NaN where x is infinite, y is zero or either is a NaN. What is smaller than y is its own.
pub fn remainder_of(x: f64, y: f64) -> f64
    ensures { result ≡ remainder_of x y }
{
    if !double::is_finite(x) {
        return 0.0 / 0.0;
    }
    let d = double::size(y);
    if 0.0 < d {
        let b = f64::to_bits(double::size(x));
        let c = f64::to_bits(d);
        if b < c {
            return x;
        }
        return double::negated_if(x < 0.0, f64::from_bits(remainder_pattern(b, c)));
    }
    0.0 / 0.0
}
