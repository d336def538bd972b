// Arctangent and arcsine (section 2). Promised: the paper's operations, each rounded once and in the order written, on every double; two
// side by side have each what they have alone. Refused are 14 by the arctangent, 7 by the arcsine, and 1 where they are called alone.
#![tactic(auto)]

ghost use Rattle.std.specs.Prelude.{◌≡◌};
ghost use Rattle.quantity.specs.rules.Answer.{checked, shown};
ghost use Rattle.root.specs.rules.Root.{root_of};
ghost use Rattle.elementary_arc.specs.rules.Series.{arctangent_series};
ghost use Rattle.elementary_arc.specs.rules.Arctangent.{atn, base, supplement_if, arctangent_of, both_zero, arctangent_in, arctangent_refusal, arctangent_rule};
ghost use Rattle.elementary_arc.specs.rules.Level.{lesser_over, reduced, base_from, arc_by_signs, arctangents_of};
ghost use Rattle.elementary_arc.specs.rules.Arcsine.{square, arcsine_in, arcsine_rule};

use quantity::{HALF, PI, QUARTER, Rad, Refusal};

// The entries of A: 1/n.
const A41: f64 = 0.024390243902439025;

const A39: f64 = -0.02564102564102564;

const A37: f64 = 0.02702702702702703;

const A35: f64 = -0.02857142857142857;

const A33: f64 = 0.030303030303030304;

const A31: f64 = -0.03225806451612903;

const A29: f64 = 0.034482758620689655;

const A27: f64 = -0.037037037037037035;

const A25: f64 = 0.04;

const A23: f64 = -0.043478260869565216;

const A21: f64 = 0.047619047619047616;

const A19: f64 = -0.05263157894736842;

const A17: f64 = 0.058823529411764705;

const A15: f64 = -0.06666666666666667;

const A13: f64 = 0.07692307692307693;

const A11: f64 = -0.09090909090909091;

const A9: f64 = 0.1111111111111111;

const A7: f64 = -0.14285714285714285;

const A5: f64 = 0.2;

const A3: f64 = -0.3333333333333333;

// A(u)
fn arctangent_series(u: f64) -> f64
    ensures { result ≡ arctangent_series u }
{
    let w = u * u;
    let mut p = A41;
    p = p * w + A39;
    p = p * w + A37;
    p = p * w + A35;
    p = p * w + A33;
    p = p * w + A31;
    p = p * w + A29;
    p = p * w + A27;
    p = p * w + A25;
    p = p * w + A23;
    p = p * w + A21;
    p = p * w + A19;
    p = p * w + A17;
    p = p * w + A15;
    p = p * w + A13;
    p = p * w + A11;
    p = p * w + A9;
    p = p * w + A7;
    p = p * w + A5;
    p = p * w + A3;
    u + (u * w) * p
}

// Atn(v), for v from 0 to 1.
fn atn(v: f64) -> f64
    ensures { result ≡ atn v }
{
    if v <= 0.4142 {
        arctangent_series(v)
    } else {
        QUARTER + arctangent_series((v - 1.0) / (v + 1.0))
    }
}

// The base of two sizes.
fn base(y: f64, x: f64) -> f64
    ensures { result ≡ base y x }
{
    if y <= x {
        atn(y / x)
    } else {
        HALF - atn(x / y)
    }
}

// Base as it becomes where x bears a minus sign.
fn supplement_if(minus: bool, b: f64) -> f64
    ensures { result ≡ supplement_if minus b }
{
    if minus { PI - b } else { b }
}

// Base's size and y's sign.
fn arc_by_signs(y: f64, x: f64, b: f64) -> f64
    ensures { result ≡ arc_by_signs y x b }
{
    double::negated_if(
        double::bears_minus(y),
        double::size(supplement_if(double::bears_minus(x), b)),
    )
}

// The arctangent of (y, x), which are not both zero: the angle from the second axis, with y's sign.
fn arctangent_of(y: f64, x: f64) -> Rad
    ensures { result ≡ arctangent_of y x }
{
    Rad(arc_by_signs(y, x, base(double::size(y), double::size(x))))
}

// Whether y and x are zero, of either sign.
pub fn both_zero(y: f64, x: f64) -> bool
    ensures { result ≡ both_zero y x }
{
    if y == 0.0 { x == 0.0 } else { false }
}

// The arctangent as other functions use it. Refusals, which callers hand on: 14 where both are zero.
pub fn arctangent_in(y: f64, x: f64) -> Result<Rad, Refusal>
    ensures { shown result ≡ arctangent_in y x }
{
    if both_zero(y, x) {
        return Err(Refusal::NoDirection);
    }
    Ok(arctangent_of(y, x))
}

// ---- two arctangents side by side: nothing branches, so that the compiler works on both at once

// The lesser of two sizes over the greater.
fn lesser_over(y: f64, x: f64) -> f64
    ensures { result ≡ lesser_over y x }
{
    double::either(y <= x, y, x) / double::either(y <= x, x, y)
}

// What the series is taken of for Atn(v). Over 1 v is itself.
fn reduced(v: f64) -> f64
    ensures { result ≡ reduced v }
{
    double::either(v <= 0.4142, v, v - 1.0) / double::either(v <= 0.4142, 1.0, v + 1.0)
}

// The base of two sizes, from the lesser over the greater and the series.
fn base_from(y: f64, x: f64, v: f64, a: f64) -> f64
    ensures { result ≡ base_from y x v a }
{
    let t = double::either(v <= 0.4142, a, QUARTER + a);
    double::either(y <= x, t, HALF - t)
}

// Two angles side by side.
#[derive(Clone, Copy)]
pub struct Arctangents {
    pub first: Rad,
    pub second: Rad,
}

// The arctangents of (y, x) and of (z, w), each what it is alone. Refusals are left to callers, which test for two zeros.
pub fn arctangents_of(y: f64, x: f64, z: f64, w: f64) -> Arctangents
    ensures { result ≡ arctangents_of y x z w }
{
    let up = double::size(y);
    let across = double::size(x);
    let up2 = double::size(z);
    let across2 = double::size(w);
    let v = lesser_over(up, across);
    let v2 = lesser_over(up2, across2);
    let a = arctangent_series(reduced(v));
    let a2 = arctangent_series(reduced(v2));
    Arctangents {
        first: Rad(arc_by_signs(y, x, base_from(up, across, v, a))),
        second: Rad(arc_by_signs(z, w, base_from(up2, across2, v2, a2))),
    }
}

// ---- called alone

// Refusals of the arctangent's arguments: 1.
fn arctangent_refusal(y: f64, x: f64) -> Result<(), Refusal>
    ensures { checked result ≡ arctangent_refusal y x }
{
    quantity::lower(quantity::number_refusal(y), quantity::number_refusal(x))
}

// The arctangent of (y, x), called alone. Refusals: 1; 14 where both are zero.
pub fn arctangent(y: f64, x: f64) -> Result<Rad, Refusal>
    ensures { shown result ≡ arctangent_rule y x }
{
    arctangent_refusal(y, x)?;
    arctangent_in(y, x)
}

// The root of (1 − s)·(1 + s), by which the arcsine of s is an arctangent.
pub fn arcsine_root(s: f64) -> f64
    ensures { result ≡ root_of (square s) }
{
    root::root_of((1.0 - s) * (1.0 + s))
}

// The arcsine as other functions use it: base with the sign of s, since the root bears no minus sign. Refusals, which callers hand on:
// 7 where s exceeds 1 in size, 1 of a NaN; never 14.
pub fn arcsine_in(s: f64) -> Result<Rad, Refusal>
    ensures { shown result ≡ arcsine_in s }
{
    let a = double::size(s);
    if a <= 1.0 {
        let b = base(a, arcsine_root(s));
        return Ok(Rad(double::negated_if(double::bears_minus(s), b)));
    }
    if 1.0 < a {
        return Err(Refusal::Arcsine);
    }
    Err(Refusal::NotFinite)
}

// The arcsine of s, called alone. Refusals: 1; 7 where s exceeds 1 in size.
pub fn arcsine(s: f64) -> Result<Rad, Refusal>
    ensures { shown result ≡ arcsine_rule s }
{
    quantity::number_refusal(s)?;
    arcsine_in(s)
}
