// What two days fix for precession (section 4): the span between them, their refusals, and the angles by edition. Angles are in radians.
// Promised: bit for bit the crate's angles, or Meeus's, on every day.
#![tactic(auto)]

ghost use Rattle.std.specs.Prelude.{◌≡◌};
ghost use Rattle.quantity.specs.rules.Answer.{checked};
ghost use Rattle.precess_angles.specs.rules.Days.{span_of, days_refusal, place_refusal};
ghost use Rattle.precess_angles.specs.rules.Equatorial.{eq_xi, eq_zeta, eq_theta, eq_angles_of, precession_by, eq_precession_of};
ghost use Rattle.precess_angles.specs.rules.Fk4.{fk4_century, fk4_span, fk4_xi, fk4_zeta, fk4_theta, degrees_as_radians, fk4_angle, fk4_angles_of, fk4_precession_of};

use edition::Edition;
use helpers::{angle, time};
use quantity::{Deg, Rad, Refusal};

// ---- the days

// Centuries from the first day to the second.
pub fn span(day1: f64, day2: f64) -> f64
    ensures { result ≡ span_of day1 day2 }
{
    (day2 - day1) / 36525.0
}

// Refusals of two days: 1; 2.
pub fn days_refusal(day1: f64, day2: f64) -> Result<(), Refusal>
    ensures { checked result ≡ days_refusal day1 day2 }
{
    quantity::lower(quantity::day_refusal(day1), quantity::day_refusal(day2))
}

// Refusals of a longitude, a latitude and two days: 1; 2; 3.
pub fn place_refusal(long: Rad, lat: Rad, day1: f64, day2: f64) -> Result<(), Refusal>
    ensures { checked result ≡ place_refusal long lat day1 day2 }
{
    quantity::lower(
        quantity::lower(
            quantity::angle_refusal(long),
            quantity::latitude_refusal(lat),
        ),
        days_refusal(day1, day2),
    )
}

// ---- equatorial precession (Meeus 21.2 and 21.3; the crate's edition has two signs otherwise)

// The three angles that two days fix.
#[derive(Clone, Copy)]
pub struct EqAngles {
    pub xi: Rad,
    pub zeta: Rad,
    pub theta: Rad,
}

// What places are precessed by: two angles, and the sine and cosine of the third.
#[derive(Clone, Copy)]
pub struct EqPrecession {
    pub xi: Rad,
    pub zeta: Rad,
    pub sine: f64,
    pub cosine: f64,
}

// The first angle, at the first day's century and the span.
fn eq_xi(c: f64, t: f64) -> Deg
    ensures { result ≡ eq_xi c t }
{
    let x = t * (2306.2181 / 3600.0 + c * (1.39656 / 3600.0 - c * (0.000139 / 3600.0)));
    Deg(x + t * t * ((0.30188 / 3600.0 - c * (0.000344 / 3600.0)) + t * (0.017998 / 3600.0)))
}

// The second angle.
fn eq_zeta(edition: Edition, c: f64, t: f64) -> Deg
    ensures { result ≡ eq_zeta edition c t }
{
    let x = 1.09468 / 3600.0;
    let y = c * (0.000066 / 3600.0);
    let z = edition::by_edition(edition, x - y, x + y);
    Deg(
        t * (2306.2181 / 3600.0 + c * (1.39656 / 3600.0 - c * (0.000139 / 3600.0)))
            + t * t * (z + t * (0.018203 / 3600.0)),
    )
}

// The third angle.
fn eq_theta(edition: Edition, c: f64, t: f64) -> Deg
    ensures { result ≡ eq_theta edition c t }
{
    let x = edition::by_edition(edition, 0.8533 / 3600.0, -(0.8533 / 3600.0));
    let y = c * (0.000217 / 3600.0);
    Deg(
        t * (2004.3109 / 3600.0 + c * (x - y)
            - t * ((0.42665 / 3600.0 + y) + t * (0.041833 / 3600.0))),
    )
}

// The angles from the first day to the second.
pub fn eq_angles(edition: Edition, day1: f64, day2: f64) -> EqAngles
    ensures { result ≡ eq_angles_of edition day1 day2 }
{
    let c = time::century(day1);
    let t = span(day1, day2);
    EqAngles {
        xi: angle::radians(eq_xi(c, t)),
        zeta: angle::radians(eq_zeta(edition, c, t)),
        theta: angle::radians(eq_theta(edition, c, t)),
    }
}

// The precession by three angles.
fn precession_by(angles: EqAngles) -> EqPrecession
    ensures { result ≡ precession_by angles }
{
    let xi = angles.xi;
    let zeta = angles.zeta;
    let theta = angles.theta;
    let t = elementary::sin_cos_of(theta);
    EqPrecession {
        xi,
        zeta,
        sine: t.sine,
        cosine: t.cosine,
    }
}

// The precession from the first day to the second.
pub fn eq_precession(edition: Edition, day1: f64, day2: f64) -> EqPrecession
    ensures { result ≡ eq_precession_of edition day1 day2 }
{
    precession_by(eq_angles(edition, day1, day2))
}

// ---- the FK4 system

// Tropical centuries from 1900.0 to a day.
fn fk4_century(day: f64) -> f64
    ensures { result ≡ fk4_century day }
{
    (day - 2415020.3135) / 36524.2199
}

// Tropical centuries from the first day to the second.
fn fk4_span(day1: f64, day2: f64) -> f64
    ensures { result ≡ fk4_span day1 day2 }
{
    (day2 - day1) / 36524.2199
}

// The first angle.
fn fk4_xi(c: f64, t: f64) -> Deg
    ensures { result ≡ fk4_xi c t }
{
    Deg(t * (2304.25 / 3600.0 + c * (1.396 / 3600.0) + t * (0.302 / 3600.0 + t * (0.018 / 3600.0))))
}

// The second angle, from the first.
fn fk4_zeta(xi: Deg, t: f64) -> Deg
    ensures { result ≡ fk4_zeta xi t }
{
    Deg(xi.0 + t * t * (0.791 / 3600.0 + t * (0.001 / 3600.0)))
}

// The third angle.
fn fk4_theta(c: f64, t: f64) -> Deg
    ensures { result ≡ fk4_theta c t }
{
    Deg(
        t * (2004.682 / 3600.0
            - c * (0.853 / 3600.0)
            - t * (0.426 / 3600.0 + t * (0.042 / 3600.0))),
    )
}

// A count of degrees taken for radians, as the crate takes it in `precess_eq_coords_FK5` and nowhere else.
fn degrees_as_radians(x: Deg) -> Rad
    ensures { result ≡ degrees_as_radians x }
{
    Rad(x.0)
}

// Each of the three angles: taken for radians, or converted.
fn fk4_angle(edition: Edition, x: Deg) -> Rad
    ensures { result ≡ fk4_angle edition x }
{
    match edition {
        Edition::Crate => degrees_as_radians(x),
        Edition::Published => angle::radians(x),
    }
}

// The angles from the first day to the second.
fn fk4_angles(edition: Edition, day1: f64, day2: f64) -> EqAngles
    ensures { result ≡ fk4_angles_of edition day1 day2 }
{
    let c = fk4_century(day1);
    let t = fk4_span(day1, day2);
    let xi = fk4_xi(c, t);
    EqAngles {
        xi: fk4_angle(edition, xi),
        zeta: fk4_angle(edition, fk4_zeta(xi, t)),
        theta: fk4_angle(edition, fk4_theta(c, t)),
    }
}

// The precession from the first day to the second.
pub fn fk4_precession(edition: Edition, day1: f64, day2: f64) -> EqPrecession
    ensures { result ≡ fk4_precession_of edition day1 day2 }
{
    precession_by(fk4_angles(edition, day1, day2))
}
