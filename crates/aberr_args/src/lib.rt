// A row of aberration's table (section 4): its argument from the eleven of a day, and its terms of the three sums. Angles are in radians.
// Promised: the operations of the Rust's blocks, their grouping kept where a row is marked.
#![tactic(auto)]

ghost use Rattle.std.specs.Prelude.{◌≡◌};
ghost use Rattle.aberr_args.specs.rules.Arguments.{arguments_of};
ghost use Rattle.aberr_args.specs.rules.Row.{angle_of, multipliers_of, x_terms, y_terms, z_terms, times, plus, argument_of, grouped, term, with_term};
ghost use Rattle.aberr_args.specs.rules.Row.{moved, spread, share_of, added};
ghost use Rattle.elementary.specs.rules.Sine.{sin_cos_of};

use elementary::SinCos;
use quantity::Rad;

// ---- the arguments

// The century t, and at it the eleven arguments: the longitudes of Venus to Neptune (l2 to l8) and of the Moon (l1),
// and the Moon's D, M' and F.
#[derive(Clone, Copy)]
pub struct Arguments {
    pub t: f64,
    pub l2: Rad,
    pub l3: Rad,
    pub l4: Rad,
    pub l5: Rad,
    pub l6: Rad,
    pub l7: Rad,
    pub l8: Rad,
    pub l1: Rad,
    pub d: Rad,
    pub m1: Rad,
    pub f: Rad,
}

// The arguments at a century.
pub fn arguments_at(t: f64) -> Arguments
    ensures { result ≡ arguments_of t }
{
    Arguments {
        t,
        l2: Rad(3.1761467 + 1021.3285546 * t),
        l3: Rad(1.7534703 + 628.3075849 * t),
        l4: Rad(6.2034809 + 334.0612431 * t),
        l5: Rad(0.5995465 + 52.9690965 * t),
        l6: Rad(0.8740168 + 21.3299095 * t),
        l7: Rad(5.4812939 + 7.4781599 * t),
        l8: Rad(5.3118863 + 3.8133036 * t),
        l1: Rad(3.8103444 + 8399.6847337 * t),
        d: Rad(5.1984667 + 7771.3771486 * t),
        m1: Rad(2.3555559 + 8328.6914289 * t),
        f: Rad(1.6279052 + 8433.4661601 * t),
    }
}

// ---- a row

// How often which angle enters the argument, up to three times; the mark; which row of the table holds the parts in T, by its index, or 0
// for none; and for x, y and z the coefficients of sine and cosine.
#[derive(Clone, Copy)]
pub struct Row(
    pub i8,
    pub u8,
    pub i8,
    pub u8,
    pub i8,
    pub u8,
    pub u8,
    pub u8,
    pub i32,
    pub i32,
    pub i32,
    pub i32,
    pub i32,
    pub i32,
);

// The angle of a number: 1 is L', 2 to 8 are L2 to L8, 9 is D, 10 M' and 11 F.
fn angle_of(g: Arguments, n: u8) -> Rad
    ensures { result ≡ angle_of g n }
{
    match n {
        1 => g.l1,
        2 => g.l2,
        3 => g.l3,
        4 => g.l4,
        5 => g.l5,
        6 => g.l6,
        7 => g.l7,
        8 => g.l8,
        9 => g.d,
        10 => g.m1,
        _ => g.f,
    }
}

// How often the angles of a row enter its argument; bracketed, the first times their difference.
#[derive(Clone, Copy)]
pub struct Multipliers {
    pub bracketed: bool,
    pub first: f64,
    pub second: f64,
    pub third: f64,
}

// What a row adds to one sum: the coefficients of sine and cosine, moving with their parts in T; bracketed, one coefficient times a sum or a
// difference of the two.
#[derive(Clone, Copy)]
pub struct Terms {
    pub bracketed: bool,
    pub moving: bool,
    pub sine: f64,
    pub sine_t: f64,
    pub cosine: f64,
    pub cosine_t: f64,
}

// A row's multipliers.
fn multipliers_of(x: Row) -> Multipliers
    ensures { result ≡ multipliers_of x }
{
    Multipliers {
        bracketed: x.6 % 2 == 1,
        first: x.0 as f64,
        second: x.2 as f64,
        third: x.4 as f64,
    }
}

// A row's terms of x; q holds their parts in T.
fn x_terms(x: Row, q: Row) -> Terms
    ensures { result ≡ x_terms x q }
{
    Terms {
        bracketed: x.6 / 2 % 2 == 1,
        moving: x.7 != 0,
        sine: x.8 as f64,
        sine_t: q.8 as f64,
        cosine: x.9 as f64,
        cosine_t: q.9 as f64,
    }
}

// A row's terms of y.
fn y_terms(x: Row, q: Row) -> Terms
    ensures { result ≡ y_terms x q }
{
    Terms {
        bracketed: false,
        moving: x.7 != 0,
        sine: x.10 as f64,
        sine_t: q.10 as f64,
        cosine: x.11 as f64,
        cosine_t: q.11 as f64,
    }
}

// A row's terms of z.
fn z_terms(x: Row, q: Row) -> Terms
    ensures { result ≡ z_terms x q }
{
    Terms {
        bracketed: x.6 / 4 % 2 == 1,
        moving: x.7 != 0,
        sine: x.12 as f64,
        sine_t: q.12 as f64,
        cosine: x.13 as f64,
        cosine_t: q.13 as f64,
    }
}

// p with k·w added, or p where k is 0.
fn plus(p: f64, k: f64, w: f64) -> f64
    ensures { result ≡ plus p k w }
{
    if k == 0.0 { p } else { p + k * w }
}

// k·w.
fn times(k: f64, w: f64) -> f64
    ensures { result ≡ times k w }
{
    k * w
}

// p with k times an angle added, which is looked up where k is not 0.
fn with_angle(p: f64, k: f64, g: Arguments, n: u8) -> f64
    ensures { result ≡ plus p k (angle_of g n).0 }
{
    if k == 0.0 {
        return p;
    }
    plus(p, k, angle_of(g, n).0)
}

// A row's argument.
fn argument(x: Row, g: Arguments) -> Rad
    ensures { result ≡ argument_of x g }
{
    let second = x.3;
    let third = x.5;
    let a = angle_of(g, x.1).0;
    let m = multipliers_of(x);
    if m.bracketed {
        return Rad(m.first * (a - angle_of(g, second).0));
    }
    let one = times(m.first, a);
    let two = with_angle(one, m.second, g, second);
    Rad(with_angle(two, m.third, g, third))
}

// ---- the sums

// The Earth's velocity along the axes of J2000, in 10^-8 AU a day.
#[derive(Clone, Copy)]
pub struct Velocity {
    pub x: f64,
    pub y: f64,
    pub z: f64,
}

// Kept terms: a coefficient times the sum of sine and cosine where theirs are equal, else the greater times the difference.
fn grouped(e: Terms, sine: f64, cosine: f64) -> f64
    ensures { result ≡ grouped e sine cosine }
{
    let s = e.sine;
    let c = e.cosine;
    if s == c {
        return s * (sine + cosine);
    }
    if s < c {
        return c * (cosine - sine);
    }
    s * (sine - cosine)
}

// (k + d·t)·w.
fn term(k: f64, d: f64, t: f64, w: f64) -> f64
    ensures { result ≡ term k d t w }
{
    plus(k, d, t) * w
}

// p + (k + d·t)·w, or p where k is 0.
fn with_term(p: f64, k: f64, d: f64, t: f64, w: f64) -> f64
    ensures { result ≡ with_term p k d t w }
{
    if k == 0.0 { p } else { p + plus(k, d, t) * w }
}

// A sum with both terms, and their parts in T.
fn moved(e: Terms, t: f64, sine: f64, cosine: f64, sum: f64) -> f64
    ensures { result ≡ moved e t sine cosine sum }
{
    sum + with_term(
        term(e.sine, e.sine_t, t, sine),
        e.cosine,
        e.cosine_t,
        t,
        cosine,
    )
}

// A sum with the terms of sine and cosine: both where they move, else each where it is there.
fn spread(e: Terms, t: f64, sine: f64, cosine: f64, sum: f64) -> f64
    ensures { result ≡ spread e t sine cosine sum }
{
    let s = e.sine;
    let c = e.cosine;
    if e.moving {
        return moved(e, t, sine, cosine, sum);
    }
    if s == 0.0 {
        if c == 0.0 {
            return sum;
        }
        return sum + times(c, cosine);
    }
    sum + plus(times(s, sine), c, cosine)
}

// A sum with a row's terms.
fn share(e: Terms, t: f64, sine: f64, cosine: f64, sum: f64) -> f64
    ensures { result ≡ share_of e t sine cosine sum }
{
    if e.bracketed {
        sum + grouped(e, sine, cosine)
    } else {
        spread(e, t, sine, cosine, sum)
    }
}

// The sine and the cosine of a row's argument.
pub fn sin_cos_in(x: Row, g: Arguments) -> SinCos
    ensures { result ≡ sin_cos_of (argument_of x g) }
{
    elementary::sin_cos_of(argument(x, g))
}

// The sums with a row's terms, from the sine and cosine of its argument.
fn added(x: Row, q: Row, t: f64, sine: f64, cosine: f64, v: Velocity) -> Velocity
    ensures { result ≡ added x q t sine cosine v }
{
    Velocity {
        x: share(x_terms(x, q), t, sine, cosine, v.x),
        y: share(y_terms(x, q), t, sine, cosine, v.y),
        z: share(z_terms(x, q), t, sine, cosine, v.z),
    }
}

// The same. Few rows have parts in T, and the others are not to pay for them.
pub fn with_terms(x: Row, q: Row, t: f64, sine: f64, cosine: f64, v: Velocity) -> Velocity
    ensures { result ≡ added x q t sine cosine v }
{
    let n = x.7;
    if n == 0 {
        return added(
            x,
            Row(0, 0, 0, 0, 0, 0, 0, 0, 0, 0, 0, 0, 0, 0),
            t,
            sine,
            cosine,
            v,
        );
    }
    added(x, q, t, sine, cosine, v)
}
