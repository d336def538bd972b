// The square root of a double (section 2). Promised: IEEE 754's squareRoot to nearest, said and proved over whole numbers, on every
// double; 1 and 5 are refused. It is a recurrence of two digits, 29 and 24 bits: floats estimate each digit, and whole numbers mend it
// until the exact rest fits.
#![tactic(auto)]

ghost use Rattle.std.specs.Prelude.{◌≡◌, ◌+◌, ◌*◌, ◌/◌, ◌%◌, ◌^◌, ◌<◌, ◌≤◌, true, false};
ghost use Rattle.std.specs.Float.Ieee.{le, lt};
ghost use Rattle.double.specs.rules.Operations.{bits, zero};
ghost use Rattle.double.specs.rules.Pattern.{pattern_of};
ghost use Rattle.quantity.specs.rules.Answer.{checked, shown, with};
ghost use Rattle.root.specs.rules.Nearest.{twice_root_squared};
ghost use Rattle.root.specs.rules.Whole.{whole_root, IsDigit};
ghost use Rattle.root.specs.notions.Steps.{taken, Tried};
ghost use Rattle.root.specs.rules.Root.{root_pattern, root_of, root_refusal, root_rule};

use quantity::Refusal;

// 2^−1022, the least double that has its 53 digits, and the greatest double.
const LEAST_NORMAL: f64 = 2.2250738585072014e-308;

const GREATEST: f64 = 1.7976931348623157e308;

// Whether the digit t fits: it takes twice·t·2^k + t² of left·2^k, and what is left then is at most twice the new root. No
// difference that passes has wrapped.
fn is_digit(left: u64, twice: u64, k: u64, t: u64) -> bool
    requires { (twice < 2 ^ 30) × (k < 27) × (t < 2 ^ 30) }
    ensures { Tried left twice (2 ^ k) t result }
{
    let above = std::num::wrapping_sub_u64(left, twice * t);
    if above >> (63 - k) == 0 {
        let rest = std::num::wrapping_sub_u64(above << k, t * t);
        rest <= (twice << k) + t + t
    } else {
        false
    }
}

// What the digit t takes, in whole 2^k: a part of one counts whole.
fn taken(twice: u64, k: u64, t: u64) -> u64
    requires { (twice < 2 ^ 30) × (k < 27) × (t ≤ 2 ^ 30) }
    ensures { result ≡ taken twice (2 ^ k) t }
{
    twice * t + ((t * t + ((1 << k) - 1)) >> k)
}

// A step of the recurrence: the digit that follows a root of which twice is the double, where left·2^k is left beside its square.
// The estimate may be any: it is mended by one until it fits. Nothing overflows, since 2^30 would take too much.
pub fn digit(left: u64, twice: u64, k: u64, estimate: u64) -> u64
    requires { (twice < 2 ^ 30) × (k < 27) × (estimate < 2 ^ 30) × (left * 2 ^ k < twice * 2 ^ 30 * 2 ^ k + 2 ^ 60) }
    ensures { IsDigit left twice (2 ^ k) result }
{
    let mut t = estimate;
    while !is_digit(left, twice, k, t) {
        if left < taken(twice, k, t) {
            t -= 1;
        } else {
            t += 1;
        }
    }
    t
}

// An estimate of one over z's root for z from 1 up to 4, b its bit pattern: half of b from a constant is a pattern near it, and
// three of Newton's steps come nearer. Nothing is promised of it: `digit` mends what it leads to.
fn reciprocal(z: f64, b: u64) -> f64
    requires { b < 2 ^ 63 }
{
    let y0 = f64::from_bits(0x5fe6_d250_b000_0000 - (b >> 1));
    let half = z * 0.5;
    let y1 = y0 * (1.5008789551163346 - half * y0 * y0);
    let y2 = y1 * (1.5 - half * y1 * y1);
    y2 * (1.5 - half * y2 * y2)
}

// The whole part of e·2^28, for e from 0 up to 4: a sum with 2^14 has 38 binary places. Two more in the last of them, so that a
// root that is a whole number is not estimated one less.
fn selected(e: f64) -> u64
    ensures { result < 2 ^ 30 }
{
    (double::pattern(e + 16384.000000000007) >> 10) % 0x4000_0000
}

// rest·2^−33: the last place of a double from 2^19 on.
fn scaled(rest: u64) -> f64
    requires { rest < 2 ^ 52 }
{
    f64::from_bits(0x4120_0000_0000_0000 + rest) - 524288.0
}

// The whole number nearest to the root of d·2^52, of 53 binary digits, by a step for 29 of them and one for 24. Each estimate is
// what is left times y, one over the root: z stands for d·2^−52. No tie can be.
fn rounded_root(d: u64, z: f64, y: f64) -> u64
    requires { (2 ^ 52 ≤ d) × (d < 2 ^ 54) }
    ensures { result ≡ (whole_root 54 (d * 2 ^ 54) + 1) / 2 }
{
    let whole = d << 4;
    let a = digit(whole, 0, 0, selected(z * y));
    let twice = a + a;
    let first = whole - a * a;
    let left = first << 24;
    let b = digit(left, twice, 24, selected(scaled(first) * y));
    let q = (a << 24) + b;
    let rest = ((left - twice * b) << 24) - b * b;
    if rest > q { q + 1 } else { q }
}

// The bit pattern of the root of m·2^(e − 2096), where m has its 53 digits: p has e above its last 52 bits, and in these what
// follows m's leading one. An odd exponent gives its odd two to m. No tie can be where the root is rounded.
// z is the pattern of m·2^−52, or of twice that where e is odd.
fn pack(p: u64) -> u64
    requires { p < 3068 * 2 ^ 52 }
    ensures { result ≡ root_pattern ((2 ^ 52 + p % 2 ^ 52) * 2 ^ (p / 2 ^ 52 + 54)) }
{
    let z = p % 0x20_0000_0000_0000 + 0x3ff0_0000_0000_0000;
    let m = 0x10_0000_0000_0000 + p % 0x10_0000_0000_0000;
    let x = f64::from_bits(z);
    ((p >> 53) << 52) + rounded_root(m << ((p >> 52) % 2), x, reciprocal(x, z))
}

// The bits of the root of a normal double above zero: its pattern has the digits as `pack` takes them, and an exponent 1021 less.
fn normal_bits(x: f64) -> u64
    requires { (le (bits 0x0010000000000000) x ≡ true) × (le x (bits 0x7fefffffffffffff) ≡ true) }
    ensures { result ≡ root_pattern (twice_root_squared x) }
{
    pack(f64::to_bits(x) + 0x3fd0_0000_0000_0000)
}

// That root.
fn normal_root(x: f64) -> f64
    requires { (le (bits 0x0010000000000000) x ≡ true) × (le x (bits 0x7fefffffffffffff) ≡ true) }
    ensures { result ≡ root_of x }
{
    f64::from_bits(normal_bits(x))
}

// The root of a subnormal double: its digits are brought up by their leading zeros, and the exponent down by as many.
fn subnormal_root(x: f64) -> f64
    requires { (le (bits 0x0010000000000000) x ≡ false) × (lt zero x ≡ true) }
    ensures { result ≡ root_of x }
{
    let b = f64::to_bits(x);
    let up = u64::leading_zeros(b) - 11;
    f64::from_bits(pack(((1021 - (up as u64)) << 52) + (b << up)))
}

// The root of x, total: what is not above zero, and the infinity, is answered as it came.
pub fn root_of(x: f64) -> f64
    ensures { result ≡ root_of x }
{
    if LEAST_NORMAL <= x {
        if x <= GREATEST {
            return normal_root(x);
        }
        return x;
    }
    if 0.0 < x {
        return subnormal_root(x);
    }
    x
}

// Refusals of the root: 1; 5 below zero.
fn root_refusal(x: f64) -> Result<(), Refusal>
    ensures { checked result ≡ root_refusal x }
{
    if double::is_finite(x) {
        if x < 0.0 { Err(Refusal::Range) } else { Ok(()) }
    } else {
        Err(Refusal::NotFinite)
    }
}

// The square root. Given: any number. Answered: the double nearest to its root; that of −0 is −0.
// Refusals: 1; 5 below zero. A normal number above zero is answered without a look at those.
pub fn square_root(x: f64) -> Result<f64, Refusal>
    ensures { shown result ≡ root_rule x }
{
    if LEAST_NORMAL <= x {
        if x <= GREATEST {
            return Ok(normal_root(x));
        }
    }
    root_refusal(x)?;
    Ok(root_of(x))
}

// The square root as its bits, for who stores it: no NaN need be asked for on the way.
pub fn square_root_bits(x: f64) -> Result<u64, Refusal>
    ensures { shown result ≡ with pattern_of (root_rule x) }
{
    if LEAST_NORMAL <= x {
        if x <= GREATEST {
            return Ok(normal_bits(x));
        }
    }
    let y = square_root(x)?;
    Ok(double::pattern(y))
}
