// Aberration (section 4), of the Sun and of a star. Angles are in radians. Promised: bit for bit the Rust's formulas over the velocity of
// aberr_table, or the refusal.
#![tactic(auto)]

ghost use Rattle.std.specs.Prelude.{◌≡◌};
ghost use Rattle.quantity.specs.rules.Answer.{checked, shown_two, shown};
ghost use Rattle.aberr.specs.rules.Sun.{sol_aberr_of, sol_aberr_rule};
ghost use Rattle.aberr.specs.rules.Star.{aberr_at, stell_aberr_refusal, stell_aberr_in_eq_coords_in, stell_aberr_in_eq_coords_rule};

use aberr_args::Velocity;
use elementary::Direction;
use helpers::angle;
use quantity::{Deg, EqPoint, Rad, Refusal, Shift};

// ---- the Sun (Meeus, chapter 25)

// Solar aberration of a distance that is not refused.
fn sol_aberr_of(dist: f64) -> Rad
    ensures { result ≡ sol_aberr_of dist }
{
    Rad(-angle::radians(Deg(20.4898 / 3600.0)).0 / dist)
}

// Solar aberration in ecliptic longitude. Given: the Sun's distance in AU. Refusals: 1; 5.
pub fn sol_aberr(dist: f64) -> Result<Rad, Refusal>
    ensures { shown result ≡ sol_aberr_rule dist }
{
    quantity::distance_refusal(dist)?;
    Ok(sol_aberr_of(dist))
}

// ---- a star (Ron and Vondrák; Meeus, chapter 23)

// The speed of light, in the unit of the velocity.
const LIGHT: f64 = 17314463350.0;

// Aberration of a direction under the Earth's velocity.
pub fn aberr_at(d: Direction, v: Velocity) -> Shift
    ensures { result ≡ aberr_at d v }
{
    Shift {
        asc: Rad((v.y * d.cos_asc - v.x * d.sin_asc) / (LIGHT * d.cos_dec)),
        dec: Rad(-((v.x * d.cos_asc + v.y * d.sin_asc) * d.sin_dec - v.z * d.cos_dec) / LIGHT),
    }
}

// Refusals of a point and a day: 1; 2; 3; 4.
fn stell_aberr_refusal(p: EqPoint, day: f64) -> Result<(), Refusal>
    ensures { checked result ≡ stell_aberr_refusal p day }
{
    quantity::lower(
        quantity::lower(
            quantity::angle_refusal(Rad(p.asc)),
            quantity::steep_refusal(Rad(p.dec)),
        ),
        quantity::day_refusal(day),
    )
}

// Aberration of a point on a day, of arguments that are not refused.
fn stell_aberr_in(p: EqPoint, day: f64) -> Shift
    ensures { result ≡ stell_aberr_in_eq_coords_in p day }
{
    aberr_at(elementary::toward(p), aberr_table::velocity_on(day))
}

// Stellar aberration in right ascension and declination, of a point on a day. Refusals: 1; 2; 3; 4 past 1.57 for declination.
pub fn stell_aberr_in_eq_coords(stell_eq_point: EqPoint, day: f64) -> Result<(f64, f64), Refusal>
    ensures { shown_two result ≡ stell_aberr_in_eq_coords_rule stell_eq_point day }
{
    stell_aberr_refusal(stell_eq_point, day)?;
    let s = stell_aberr_in(stell_eq_point, day);
    Ok((s.asc.0, s.dec.0))
}
