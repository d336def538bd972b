// Parallax (section 4). Angles are in radians, distances in AU, heights in metres. Promised: bit for bit the Rust's formulas, or the
// refusal. Topocentric ecliptic coordinates stand in parallax_ecl.
#![tactic(auto)]

ghost use Rattle.std.specs.Prelude.{◌≡◌};
ghost use Rattle.quantity.specs.rules.Answer.{checked, shown};
ghost use Rattle.parallax.specs.rules.Horizontal.{sun_parallax, eq_hz_parallax_in, eq_hz_parallax_rule};
ghost use Rattle.parallax.specs.rules.Observer.{centre_of, observer_refusal};
ghost use Rattle.parallax.specs.rules.Equatorial.{eastward, ahead, topocent_dec, topocent_from, topocent_at, topocent_in, topocent_refusal};
ghost use Rattle.parallax.specs.rules.Equatorial.{topocent_eq_coords_rule};

use elementary::Folded;
use helpers::angle;
use helpers_earth::Earth;
use quantity::{Deg, EqPoint, GeographPoint, Rad, Refusal};

// ---- horizontal parallax (Meeus, chapter 40)

// The sine of the Sun's parallax at 1 AU.
fn sun_parallax() -> f64
    ensures { result ≡ sun_parallax }
{
    elementary::fold(angle::radians(Deg(8.794 / 3600.0))).sine()
}

// The equatorial horizontal parallax of a distance that is not refused.
fn eq_hz_parallax_in(dist: f64) -> Result<Rad, Refusal>
    ensures { shown result ≡ eq_hz_parallax_in dist }
{
    elementary_arc::arcsine_in(sun_parallax() / dist)
}

// The equatorial horizontal parallax of a body, from its distance to the Earth. Refusals: 1; 5.
pub fn eq_hz_parallax(dist_to_earth: f64) -> Result<Rad, Refusal>
    ensures { shown result ≡ eq_hz_parallax_rule dist_to_earth }
{
    quantity::distance_refusal(dist_to_earth)?;
    eq_hz_parallax_in(dist_to_earth)
}

// ---- the observer

// The observer's place from the Earth's centre, and the sine of the parallax.
#[derive(Clone, Copy)]
pub struct Centre {
    pub rho_sin: f64,
    pub rho_cos: f64,
    pub parallax: f64,
}

// ρ sin φ', ρ cos φ' and the sine of the parallax.
pub fn centre_of(rho_sin: f64, rho_cos: f64, parallax: Rad) -> Centre
    ensures { result ≡ centre_of rho_sin rho_cos parallax }
{
    Centre {
        rho_sin,
        rho_cos,
        parallax: elementary::fold(parallax).sine(),
    }
}

// Refusals of the parallax, the observer's place and height, and a sidereal time: 1; 3; 4; 5.
pub fn observer_refusal(
    parallax: Rad,
    site: GeographPoint,
    height: f64,
    sidereal: Rad,
) -> Result<(), Refusal>
    ensures { checked result ≡ observer_refusal parallax site height sidereal }
{
    quantity::lower(
        quantity::lower(
            quantity::angle_refusal(parallax),
            quantity::angle_refusal(sidereal),
        ),
        quantity::lower(
            quantity::lower(
                quantity::angle_refusal(Rad(site.long)),
                quantity::steep_refusal(Rad(site.lat)),
            ),
            quantity::height_refusal(height),
        ),
    )
}

// ---- equatorial coordinates (Meeus 40.2 and 40.3)

// The first argument of the arctangent that gives the change of right ascension.
fn eastward(c: Centre, h: Folded) -> f64
    ensures { result ≡ eastward c h }
{
    -c.rho_cos * c.parallax * h.sine()
}

// The second argument of both arctangents.
fn ahead(c: Centre, h: Folded, d: Folded) -> f64
    ensures { result ≡ ahead c h d }
{
    d.cosine() - c.rho_cos * c.parallax * h.cosine()
}

// The topocentric declination, from the change of right ascension.
fn topocent_dec(c: Centre, d: Folded, change: Rad, x: f64) -> Result<Rad, Refusal>
    ensures { shown result ≡ topocent_dec c d change x }
{
    elementary_arc::arctangent_in(
        (d.sine() - c.rho_sin * c.parallax) * elementary::fold(change).cosine(),
        x,
    )
}

// The topocentric point, from its change of right ascension.
fn topocent_from(c: Centre, d: Folded, asc: Rad, change: Rad, x: f64) -> Result<EqPoint, Refusal>
    ensures { shown result ≡ topocent_from c d asc change x }
{
    let dec = topocent_dec(c, d, change, x)?;
    Ok(EqPoint {
        asc: asc.0 + change.0,
        dec: dec.0,
    })
}

// The topocentric point, from the hour angle h and the declination d.
fn topocent_at(c: Centre, h: Folded, d: Folded, asc: Rad) -> Result<EqPoint, Refusal>
    ensures { shown result ≡ topocent_at c h d asc }
{
    let x = ahead(c, h, d);
    let change = elementary_arc::arctangent_in(eastward(c, h), x)?;
    topocent_from(c, d, asc, change, x)
}

// The topocentric point of arguments that are not refused.
fn topocent_in(
    p: EqPoint,
    parallax: Rad,
    site: GeographPoint,
    height: f64,
    sidereal: Rad,
) -> Result<EqPoint, Refusal>
    ensures { shown result ≡ topocent_in p parallax site height sidereal }
{
    let (s, c) = Earth::rho_in(Rad(site.lat), height)?;
    topocent_at(
        centre_of(s, c, parallax),
        elementary::fold(coords::hour_angle(sidereal, Rad(site.long), Rad(p.asc))),
        elementary::fold(Rad(p.dec)),
        Rad(p.asc),
    )
}

// Refusals of all arguments: 1; 3; 4; 5.
fn topocent_refusal(
    p: EqPoint,
    parallax: Rad,
    site: GeographPoint,
    height: f64,
    sidereal: Rad,
) -> Result<(), Refusal>
    ensures { checked result ≡ topocent_refusal p parallax site height sidereal }
{
    quantity::lower(
        quantity::lower(
            quantity::angle_refusal(Rad(p.asc)),
            quantity::latitude_refusal(Rad(p.dec)),
        ),
        observer_refusal(parallax, site, height, sidereal),
    )
}

// The topocentric equatorial point of a body. Given: its point, its equatorial horizontal parallax, the observer's place and height,
// and the sidereal time at Greenwich. Refusals: 1; 3; 4 past 1.57 for the observer's latitude; 5; then 14.
pub fn topocent_eq_coords(
    eq_point: EqPoint,
    eq_hz_parllx: Rad,
    geograph_point: GeographPoint,
    observer_ht: f64,
    greenw_sidr: Rad,
) -> Result<EqPoint, Refusal>
    ensures { shown result ≡ topocent_eq_coords_rule eq_point eq_hz_parllx geograph_point observer_ht greenw_sidr }
{
    topocent_refusal(
        eq_point,
        eq_hz_parllx,
        geograph_point,
        observer_ht,
        greenw_sidr,
    )?;
    topocent_in(
        eq_point,
        eq_hz_parllx,
        geograph_point,
        observer_ht,
        greenw_sidr,
    )
}
