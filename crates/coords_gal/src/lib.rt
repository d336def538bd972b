// Galactic coordinates (section 4): the part of the crate's coords that only they need. All angles are in radians. Promised: bit for bit
// the Rust's formulas, or the refusal.
#![tactic(auto)]

ghost use Rattle.std.specs.Prelude.{◌≡◌};
ghost use Rattle.quantity.specs.rules.Answer.{checked, shown};
ghost use Rattle.coords_gal.specs.rules.Arguments.{gal_refusal, steep_gal_refusal};
ghost use Rattle.coords_gal.specs.rules.Galactic.{pole, round_pole, from_pole_asc, gal_long_in, gal_long_frm_eq_rule, gal_lat_in, gal_lat_frm_eq_rule};
ghost use Rattle.coords_gal.specs.rules.Galactic.{from_pole_long, asc_frm_gal_in, asc_frm_gal_rule};

use elementary::Folded;
use helpers::angle;
use quantity::{Deg, Rad, Refusal};

// ---- refusals of the arguments, shared by the functions

// A longitude and a latitude: 1; 3.
fn gal_refusal(long: Rad, lat: Rad) -> Result<(), Refusal>
    ensures { checked result ≡ gal_refusal long lat }
{
    quantity::lower(
        quantity::angle_refusal(long),
        quantity::latitude_refusal(lat),
    )
}

// The same where the latitude goes into a tangent: 1; 3; 4.
fn steep_gal_refusal(long: Rad, lat: Rad) -> Result<(), Refusal>
    ensures { checked result ≡ steep_gal_refusal long lat }
{
    quantity::lower(quantity::angle_refusal(long), quantity::steep_refusal(lat))
}

// ---- galactic coordinates of B1950.0 (Meeus, chapter 13)

// The declination of the galactic pole, folded.
fn pole() -> Folded
    ensures { result ≡ pole }
{
    elementary::fold(angle::radians(Deg(27.4)))
}

// The angle round the pole, from an angle n at the pole and a latitude d.
fn round_pole(n: Folded, d: Folded) -> Result<Rad, Refusal>
    ensures { shown result ≡ round_pole n d }
{
    let p = pole();
    elementary_arc::arctangent_in(n.sine(), p.sine() * n.cosine() - p.cosine() * d.tangent())
}

// The galactic pole's right ascension, 192.25 degrees, less the point's, folded.
fn from_pole_asc(asc: Rad) -> Folded
    ensures { result ≡ from_pole_asc asc }
{
    elementary::fold(Rad(angle::radians(Deg(192.25)).0 - asc.0))
}

// The galactic longitude of arguments that are not refused.
fn gal_long_in(asc: Rad, dec: Rad) -> Result<Rad, Refusal>
    ensures { shown result ≡ gal_long_in asc dec }
{
    quantity::taken_from(
        angle::radians(Deg(303.0)),
        round_pole(from_pole_asc(asc), elementary::fold(dec)),
    )
}

// The galactic longitude from equatorial coordinates. Refusals: 1; 3; 4 past 1.57 for declination; then 14 at the galactic pole.
pub fn gal_long_frm_eq(asc: Rad, dec: Rad) -> Result<Rad, Refusal>
    ensures { shown result ≡ gal_long_frm_eq_rule asc dec }
{
    steep_gal_refusal(asc, dec)?;
    gal_long_in(asc, dec)
}

// The galactic latitude of arguments that are not refused.
fn gal_lat_in(asc: Rad, dec: Rad) -> Result<Rad, Refusal>
    ensures { shown result ≡ gal_lat_in asc dec }
{
    let n = from_pole_asc(asc);
    let p = pole();
    let d = elementary::fold(dec);
    elementary_arc::arcsine_in(d.sine() * p.sine() + d.cosine() * p.cosine() * n.cosine())
}

// The galactic latitude from equatorial coordinates. Refusals: 1; 3; then 7.
pub fn gal_lat_frm_eq(asc: Rad, dec: Rad) -> Result<Rad, Refusal>
    ensures { shown result ≡ gal_lat_frm_eq_rule asc dec }
{
    gal_refusal(asc, dec)?;
    gal_lat_in(asc, dec)
}

// The point's galactic longitude less the celestial pole's, 123 degrees, folded.
fn from_pole_long(long: Rad) -> Folded
    ensures { result ≡ from_pole_long long }
{
    elementary::fold(Rad(long.0 - angle::radians(Deg(123.0)).0))
}

// The right ascension of arguments that are not refused.
fn asc_frm_gal_in(long: Rad, lat: Rad) -> Result<Rad, Refusal>
    ensures { shown result ≡ asc_frm_gal_in long lat }
{
    quantity::added_to(
        angle::radians(Deg(12.25)),
        round_pole(from_pole_long(long), elementary::fold(lat)),
    )
}

// The right ascension from galactic coordinates. Refusals: 1; 3; 4 past 1.57 for latitude; then 14 at the celestial pole.
pub fn asc_frm_gal(gal_long: Rad, gal_lat: Rad) -> Result<Rad, Refusal>
    ensures { shown result ≡ asc_frm_gal_rule gal_long gal_lat }
{
    steep_gal_refusal(gal_long, gal_lat)?;
    asc_frm_gal_in(gal_long, gal_lat)
}
