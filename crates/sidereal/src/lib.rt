// Sidereal time at Greenwich, mean (Meeus 12.4) and apparent. The day is one of universal time. Angles are in radians.
// Rules: specs/rules, in reading order in specs/rules.antt.
#![tactic(auto)]

ghost use Rattle.std.specs.Prelude.{◌≡◌};
ghost use Rattle.double.specs.rules.Operations.{◌⊕◌, ◌⊗◌};
ghost use Rattle.quantity.specs.rules.Angle.{rad};
ghost use Rattle.quantity.specs.rules.Answer.{shown};
ghost use Rattle.elementary.specs.rules.Sine.{cosine_of};
ghost use Rattle.helpers.specs.rules.Angle.{within_two_PI};
ghost use Rattle.chain.specs.rules.Obliquity.{true_obliquity};
ghost use Rattle.sidereal.specs.rules.Mean.{mean_in_degrees, mean_of, mean_sidereal_rule};
ghost use Rattle.sidereal.specs.rules.Apparent.{apparent_from, apparent_of, apparent_sidereal_rule};

use helpers::{angle, time};
use nutation_args::Nutations;
use quantity::{Deg, Rad, Refusal};

// ---- mean

// In degrees, not folded, from the days d since 2451545.0 and the century t of the day.
fn mean_in_degrees(d: f64, t: f64) -> Deg
    ensures { result ≡ mean_in_degrees d t }
{
    Deg(((280.46061837 + 360.98564736629 * d) + (0.000387933 * t) * t) - ((t * t) * t) / 38710000.0)
}

// Mean sidereal time on a day that is not refused.
pub fn mean_on(day: f64) -> Rad
    ensures { result ≡ mean_of day }
{
    angle::radians(angle::within_360(mean_in_degrees(day - 2451545.0, time::century(day))))
}

// Mean sidereal time at Greenwich. Refusals: 1; 2.
pub fn mean_sidereal(day: f64) -> Result<Rad, Refusal>
    ensures { shown result ≡ mean_sidereal_rule day }
{
    quantity::day_refusal(day)?;
    Ok(mean_on(day))
}

// ---- apparent

// An angle folded into one turn, which most are already.
fn folded(x: f64) -> Rad
    ensures { result ≡ within_two_PI (rad x) }
{
    if 0.0 < x {
        if x < 6.283185307179586 {
            return Rad(x);
        }
    }
    angle::within_two_PI(Rad(x))
}

// From the mean one, nutation in longitude and in obliquity, and the mean obliquity: numbers, which stay in registers of floats.
fn apparent_in(mean: f64, long: f64, in_oblq: f64, mean_oblq: f64) -> f64
    ensures { rad result ≡ within_two_PI (rad (mean ⊕ (long ⊗ cosine_of (true_obliquity (rad mean_oblq) (rad in_oblq))))) }
{
    let f = elementary::fold(chain::true_obliquity(Rad(mean_oblq), Rad(in_oblq)));
    let x = folded(mean + long * f.cosine());
    x.0
}

// The same of angles.
pub fn apparent_from(mean: Rad, n: Nutations, mean_oblq: Rad) -> Rad
    ensures { result ≡ apparent_from mean n mean_oblq }
{
    let long = n.long.0;
    let in_oblq = n.oblq.0;
    Rad(apparent_in(mean.0, long, in_oblq, mean_oblq.0))
}

// Apparent sidereal time on a day that is not refused.
pub fn apparent_on(day: f64) -> Rad
    ensures { result ≡ apparent_of day }
{
    let n = nutation_table::nutation_on(day);
    let mean_oblq = chain::mean_obliquity_on(day);
    let mean = mean_on(day);
    let long = n.long.0;
    let in_oblq = n.oblq.0;
    Rad(apparent_in(mean.0, long, in_oblq, mean_oblq.0))
}

// Apparent sidereal time at Greenwich. Refusals: 1; 2.
pub fn apparent_sidereal(day: f64) -> Result<Rad, Refusal>
    ensures { shown result ≡ apparent_sidereal_rule day }
{
    quantity::day_refusal(day)?;
    Ok(apparent_on(day))
}
