// One row of nutation (section 4): its argument from the five angles of a day, and its shares. Angles are in radians. Promised: the
// Rust's operations on every double.
#![tactic(auto)]

ghost use Rattle.std.specs.Prelude.{◌≡◌};
ghost use Rattle.nutation_args.specs.rules.Arguments.{moon_m1, sun_m, moon_d, moon_f, moon_node, in_turn, moon_from, moon_of};
ghost use Rattle.nutation_args.specs.rules.Sum.{argument_of, long_share, oblq_share, with_row, converted};

use helpers::angle;
use quantity::{Deg, Rad};

// How often D, M, M', F and Ω enter the argument; the coefficients of longitude and of obliquity, each with its slow part.
#[derive(Clone, Copy)]
pub struct Row(
    pub i32,
    pub i32,
    pub i32,
    pub i32,
    pub i32,
    pub i32,
    pub i32,
    pub i32,
    pub i32,
);

// The century t, and at it the five arguments, each folded into one turn of degrees first.
#[derive(Clone, Copy)]
pub struct Moon {
    pub t: f64,
    pub d: Rad,
    pub m: Rad,
    pub m1: Rad,
    pub f: Rad,
    pub node: Rad,
}

// The sums over rows in longitude and in obliquity, as the table has them.
#[derive(Clone, Copy)]
pub struct Sums {
    pub long: Deg,
    pub oblq: Deg,
}

// Nutation in longitude and in obliquity.
#[derive(Clone, Copy)]
pub struct Nutations {
    pub long: Rad,
    pub oblq: Rad,
}

// ---- the arguments

// M': the Moon's mean anomaly.
fn moon_m1(t: f64) -> Deg
    ensures { result ≡ moon_m1 t }
{
    Deg(134.96298 + t * (477198.867398 + t * (0.0086972 + t / 56250.0)))
}

// M: the Sun's mean anomaly.
fn sun_m(t: f64) -> Deg
    ensures { result ≡ sun_m t }
{
    Deg(357.52772 + t * (35999.05034 - t * (0.0001603 + t / 300000.0)))
}

// D: the Moon's mean elongation.
fn moon_d(t: f64) -> Deg
    ensures { result ≡ moon_d t }
{
    Deg(297.85036 + t * (445267.11148 - t * (0.0019142 - t / 189474.0)))
}

// F: the Moon's argument of latitude.
fn moon_f(t: f64) -> Deg
    ensures { result ≡ moon_f t }
{
    Deg(93.27191 + t * (483202.017538 - t * (0.0036825 - t / 327270.0)))
}

// Ω: the longitude of the Moon's ascending node.
fn moon_node(t: f64) -> Deg
    ensures { result ≡ moon_node t }
{
    Deg(125.04452 - t * (1934.136261 - t * (0.0020708 + t / 450000.0)))
}

// Degrees folded into one turn, in radians.
fn in_turn(x: Deg) -> Rad
    ensures { result ≡ in_turn x }
{
    angle::radians(angle::within_360(x))
}

// The arguments from their five angles.
fn moon_from(t: f64, d: Rad, m: Rad, m1: Rad, f: Rad, node: Rad) -> Moon
    ensures { result ≡ moon_from t d m m1 f node }
{
    Moon {
        t,
        d,
        m,
        m1,
        f,
        node,
    }
}

// The arguments at a century.
pub fn moon_at(t: f64) -> Moon
    ensures { result ≡ moon_of t }
{
    moon_from(
        t,
        in_turn(moon_d(t)),
        in_turn(sun_m(t)),
        in_turn(moon_m1(t)),
        in_turn(moon_f(t)),
        in_turn(moon_node(t)),
    )
}

// ---- the sums

// A row's argument.
fn argument(x: Row, a: Moon) -> Rad
    ensures { result ≡ argument_of x a }
{
    Rad(
        (x.0 as f64) * a.d.0
            + (x.1 as f64) * a.m.0
            + (x.2 as f64) * a.m1.0
            + (x.3 as f64) * a.f.0
            + (x.4 as f64) * a.node.0,
    )
}

// A ten-thousandth of a second of arc, in degrees.
const UNIT: f64 = 0.0001 / 3600.0;

// A row's share of the longitude, from the sine of its argument.
fn long_share(x: Row, t: f64, sine: f64) -> Deg
    ensures { result ≡ long_share x t sine }
{
    Deg(((x.5 as f64) + t * (x.6 as f64) / 10.0) * sine * UNIT)
}

// A row's share of the obliquity, from the cosine of its argument.
fn oblq_share(x: Row, t: f64, cosine: f64) -> Deg
    ensures { result ≡ oblq_share x t cosine }
{
    Deg(((x.7 as f64) + t * (x.8 as f64) / 10.0) * cosine * UNIT)
}

// The sums with one row more.
pub fn with_row(x: Row, a: Moon, s: Sums) -> Sums
    ensures { result ≡ with_row x a s }
{
    let w = elementary::sin_cos_of(argument(x, a));
    let long = long_share(x, a.t, w.sine);
    let oblq = oblq_share(x, a.t, w.cosine);
    Sums {
        long: Deg(s.long.0 + long.0),
        oblq: Deg(s.oblq.0 + oblq.0),
    }
}

// Both sums in radians.
pub fn converted(s: Sums) -> Nutations
    ensures { result ≡ converted s }
{
    let long = s.long;
    let oblq = s.oblq;
    Nutations {
        long: angle::radians(long),
        oblq: angle::radians(oblq),
    }
}
