// Nutation (section 4), on a day and at a point. Angles are in radians. Promised: bit for bit the Rust's formulas over the sums of
// nutation_table, or the refusal.
#![tactic(auto)]

ghost use Rattle.std.specs.Prelude.{◌≡◌};
ghost use Rattle.quantity.specs.rules.Answer.{checked, shown_two};
ghost use Rattle.nutation.specs.rules.Day.{nutation_rule};
ghost use Rattle.nutation.specs.rules.Point.{nutation_at, nutation_in_refusal, nutation_in_eq_coords_in, nutation_in_eq_coords_rule};

use elementary::Direction;
use nutation_args::Nutations;
use quantity::{EqPoint, Rad, Refusal, Shift};

// ---- nutation on a day

// Nutation in longitude and in obliquity on a day (Meeus, chapter 22). Refusals: 1; 2.
pub fn nutation(day: f64) -> Result<(f64, f64), Refusal>
    ensures { shown_two result ≡ nutation_rule day }
{
    quantity::day_refusal(day)?;
    let n = nutation_table::nutation_on(day);
    Ok((n.long.0, n.oblq.0))
}

// ---- nutation of a point (Meeus 23.1)

// Nutation of a direction, from the sine and cosine of the obliquity.
pub fn nutation_at(d: Direction, n: Nutations, sin_oblq: f64, cos_oblq: f64) -> Shift
    ensures { result ≡ nutation_at d n sin_oblq cos_oblq }
{
    let tan_dec = d.sin_dec / d.cos_dec;
    let long = n.long.0;
    let oblq = n.oblq.0;
    Shift {
        asc: Rad(long * (cos_oblq + sin_oblq * d.sin_asc * tan_dec) - d.cos_asc * tan_dec * oblq),
        dec: Rad(sin_oblq * d.cos_asc * long + d.sin_asc * oblq),
    }
}

// Refusals of a point and three angles: 1; 3; 4.
fn nutation_in_refusal(p: EqPoint, long: Rad, oblq: Rad, tru_oblq: Rad) -> Result<(), Refusal>
    ensures { checked result ≡ nutation_in_refusal p long oblq tru_oblq }
{
    quantity::lower(
        quantity::lower(
            quantity::angle_refusal(Rad(p.asc)),
            quantity::steep_refusal(Rad(p.dec)),
        ),
        quantity::lower(
            quantity::angle_refusal(long),
            quantity::lower(
                quantity::angle_refusal(oblq),
                quantity::angle_refusal(tru_oblq),
            ),
        ),
    )
}

// Nutation of a point, of arguments that are not refused.
fn nutation_in(p: EqPoint, long: Rad, oblq: Rad, tru_oblq: Rad) -> Shift
    ensures { result ≡ nutation_in_eq_coords_in p long oblq tru_oblq }
{
    let e = elementary::fold(tru_oblq);
    nutation_at(
        elementary::toward(p),
        Nutations { long, oblq },
        e.sine(),
        e.cosine(),
    )
}

// Nutation in right ascension and declination at a point. Given: the point, nutation in longitude and in obliquity, and the
// obliquity of the ecliptic. Refusals: 1; 3; 4 past 1.57 for declination.
pub fn nutation_in_eq_coords(
    eq_point: EqPoint,
    nut_in_long: Rad,
    nut_in_oblq: Rad,
    tru_oblq: Rad,
) -> Result<(f64, f64), Refusal>
    ensures { shown_two result ≡ nutation_in_eq_coords_rule eq_point nut_in_long nut_in_oblq tru_oblq }
{
    nutation_in_refusal(eq_point, nut_in_long, nut_in_oblq, tru_oblq)?;
    let s = nutation_in(eq_point, nut_in_long, nut_in_oblq, tru_oblq);
    Ok((s.asc.0, s.dec.0))
}
