// Ecliptic coordinates (section 4; document 02, request (ix)). All angles are in radians. Promised: bit for bit the Rust's formulas,
// longitude and latitude in one point, or the refusal that is met first.
#![tactic(auto)]

ghost use Rattle.std.specs.Prelude.{◌≡◌};
ghost use Rattle.quantity.specs.rules.Answer.{checked, shown_two, shown};
ghost use Rattle.coords_ecl.specs.rules.Arguments.{frame_refusal, steep_frame_refusal};
ghost use Rattle.coords_ecl.specs.rules.Point.{point_of};
ghost use Rattle.coords_ecl.specs.rules.Ecliptic.{ecl_frm_eq_in, ecl_frm_eq_rule, asc_frm_ecl_in, asc_frm_ecl_rule, dec_frm_ecl_in, dec_frm_ecl_rule};

use quantity::{EclPoint, Rad, Refusal};

// ---- refusals of the arguments, shared by the functions

// A longitude, a latitude and an obliquity: 1; 3.
fn frame_refusal(long: Rad, lat: Rad, oblq: Rad) -> Result<(), Refusal>
    ensures { checked result ≡ frame_refusal long lat oblq }
{
    quantity::lower(
        quantity::angle_refusal(long),
        quantity::lower(
            quantity::latitude_refusal(lat),
            quantity::angle_refusal(oblq),
        ),
    )
}

// The same where the latitude goes into a tangent: 1; 3; 4.
// Three sizes within their limits are seen first, as nothing refuses them.
fn steep_frame_refusal(long: Rad, lat: Rad, oblq: Rad) -> Result<(), Refusal>
    ensures { checked result ≡ steep_frame_refusal long lat oblq }
{
    if double::size(long.0) <= 64.0 && double::size(lat.0) <= 1.57 && double::size(oblq.0) <= 64.0 {
        return Ok(());
    }
    quantity::lower(
        quantity::angle_refusal(long),
        quantity::lower(quantity::steep_refusal(lat), quantity::angle_refusal(oblq)),
    )
}

// ---- ecliptic coordinates (Meeus, chapter 13)

// A longitude and a latitude as a point; a refusal stays.
fn point_of(a: Result<(f64, f64), Refusal>) -> Result<EclPoint, Refusal>
    ensures { shown result ≡ point_of (shown_two a) }
{
    let (long, lat) = a?;
    Ok(EclPoint { long, lat })
}

// The ecliptic point of arguments that are not refused: sine and cosine of each angle are taken once for both.
fn ecl_frm_eq_in(asc: Rad, dec: Rad, oblq: Rad) -> Result<EclPoint, Refusal>
    ensures { shown result ≡ ecl_frm_eq_in asc dec oblq }
{
    let a = elementary::sin_cos_of(asc);
    let e = elementary::sin_cos_of(oblq);
    let d = elementary::sin_cos_of(dec);
    point_of(quantity::both(
        elementary_arc::arctangent_in(a.sine * e.cosine + d.sine / d.cosine * e.sine, a.cosine),
        elementary_arc::arcsine_in(d.sine * e.cosine - d.cosine * e.sine * a.sine),
    ))
}

// The ecliptic point from equatorial coordinates and the obliquity. Refusals: 1; 3; 4 past 1.57 for declination; then 7.
pub fn ecl_frm_eq(asc: Rad, dec: Rad, oblq_eclip: Rad) -> Result<EclPoint, Refusal>
    ensures { shown result ≡ ecl_frm_eq_rule asc dec oblq_eclip }
{
    steep_frame_refusal(asc, dec, oblq_eclip)?;
    ecl_frm_eq_in(asc, dec, oblq_eclip)
}

// The right ascension of arguments that are not refused.
fn asc_frm_ecl_in(long: Rad, lat: Rad, oblq: Rad) -> Result<Rad, Refusal>
    ensures { shown result ≡ asc_frm_ecl_in long lat oblq }
{
    let l = elementary::sin_cos_of(long);
    let e = elementary::sin_cos_of(oblq);
    let b = elementary::fold(lat);
    elementary_arc::arctangent_in(l.sine * e.cosine - b.tangent() * e.sine, l.cosine)
}

// The right ascension from ecliptic coordinates and the obliquity. Refusals: 1; 3; 4 past 1.57 for latitude.
pub fn asc_frm_ecl(ecl_long: Rad, ecl_lat: Rad, oblq_eclip: Rad) -> Result<Rad, Refusal>
    ensures { shown result ≡ asc_frm_ecl_rule ecl_long ecl_lat oblq_eclip }
{
    steep_frame_refusal(ecl_long, ecl_lat, oblq_eclip)?;
    asc_frm_ecl_in(ecl_long, ecl_lat, oblq_eclip)
}

// The declination of arguments that are not refused.
fn dec_frm_ecl_in(long: Rad, lat: Rad, oblq: Rad) -> Result<Rad, Refusal>
    ensures { shown result ≡ dec_frm_ecl_in long lat oblq }
{
    let l = elementary::sin_cos_of(long);
    let e = elementary::sin_cos_of(oblq);
    let b = elementary::sin_cos_of(lat);
    elementary_arc::arcsine_in(b.sine * e.cosine + b.cosine * e.sine * l.sine)
}

// The declination from ecliptic coordinates and the obliquity. Refusals: 1; 3; then 7.
pub fn dec_frm_ecl(ecl_long: Rad, ecl_lat: Rad, oblq_eclip: Rad) -> Result<Rad, Refusal>
    ensures { shown result ≡ dec_frm_ecl_rule ecl_long ecl_lat oblq_eclip }
{
    frame_refusal(ecl_long, ecl_lat, oblq_eclip)?;
    dec_frm_ecl_in(ecl_long, ecl_lat, oblq_eclip)
}
