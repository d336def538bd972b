// Topocentric ecliptic coordinates (section 4). Angles are in radians, heights in metres. Promised: bit for bit the Rust's formulas or,
// in the published edition, Meeus's latitude; or the refusal.
#![tactic(auto)]

ghost use Rattle.std.specs.Prelude.{◌≡◌};
ghost use Rattle.quantity.specs.rules.Answer.{checked, shown, shown_three};
ghost use Rattle.parallax_ecl.specs.rules.Ecliptic.{nearby, long_top, upward, lat_of_crate, lat_published, lat_top, semidiameter_in, ecliptic_from};
ghost use Rattle.parallax_ecl.specs.rules.Ecliptic.{ecliptic_along, ecliptic_at, ecliptic_in, topopcent_refusal, topopcent_ecl_coords_rule};

use edition::Edition;
use elementary::Folded;
use helpers::angle;
use helpers_earth::Earth;
use parallax::Centre;
use quantity::{EclPoint, GeographPoint, Rad, Refusal};

// ---- ecliptic coordinates (Meeus, chapter 40)

// N.
fn nearby(c: Centre, l: Folded, b: Folded, s: Folded) -> f64
    ensures { result ≡ nearby c l b s }
{
    l.cosine() * b.cosine() - c.rho_cos * c.parallax * s.cosine()
}

// The topocentric longitude.
fn long_top(c: Centre, l: Folded, b: Folded, s: Folded, e: Folded, n: f64) -> Result<Rad, Refusal>
    ensures { shown result ≡ long_top c l b s e n }
{
    elementary_arc::arctangent_in(
        l.sine() * b.cosine()
            - c.parallax * (c.rho_sin * e.sine() + c.rho_cos * e.cosine() * s.sine()),
        n,
    )
}

// What the latitude's arctangent goes by.
fn upward(c: Centre, b: Folded, s: Folded, e: Folded) -> f64
    ensures { result ≡ upward c b s e }
{
    b.sine() - c.parallax * (c.rho_sin * e.cosine() - c.rho_cos * e.sine() * s.sine())
}

// The crate's topocentric latitude, from the cosine of the longitude: beyond the pole where N is below zero.
fn lat_of_crate(up: f64, cos_long: f64, n: f64) -> Result<Rad, Refusal>
    ensures { shown result ≡ lat_of_crate up cos_long n }
{
    elementary_arc::arctangent_in(cos_long * up, n)
}

// Meeus's. Refusals: 6 where the cosine is zero.
fn lat_published(up: f64, cos_long: f64, n: f64) -> Result<Rad, Refusal>
    ensures { shown result ≡ lat_published up cos_long n }
{
    if cos_long == 0.0 {
        return Err(Refusal::Zero);
    }
    elementary_arc::arctangent_in(up, n / cos_long)
}

// The topocentric latitude. Refusals: 6.
fn lat_top(edition: Edition, up: f64, cos_long: f64, n: f64) -> Result<Rad, Refusal>
    ensures { shown result ≡ lat_top edition up cos_long n }
{
    match edition {
        Edition::Crate => lat_of_crate(up, cos_long, n),
        Edition::Published => lat_published(up, cos_long, n),
    }
}

// The topocentric semidiameter. Refusals: 7.
fn semidiameter_in(cos_long: f64, lat: Rad, semidiameter: Rad, n: f64) -> Result<Rad, Refusal>
    ensures { shown result ≡ semidiameter_in cos_long lat semidiameter n }
{
    elementary_arc::arcsine_in(
        cos_long * elementary::fold(lat).cosine() * elementary::fold(semidiameter).sine() / n,
    )
}

// All three, from the longitude and the latitude. Refusals: 7.
fn ecliptic_from(
    long: Rad,
    cos_long: f64,
    lat: Rad,
    semidiameter: Rad,
    n: f64,
) -> Result<(f64, f64, f64), Refusal>
    ensures { shown_three result ≡ ecliptic_from long cos_long lat semidiameter n }
{
    let s = semidiameter_in(cos_long, lat, semidiameter, n)?;
    Ok((angle::within_two_PI(long).0, lat.0, s.0))
}

// All three, from the longitude. Refusals: 6; 7.
fn ecliptic_along(
    edition: Edition,
    up: f64,
    long: Rad,
    semidiameter: Rad,
    n: f64,
) -> Result<(f64, f64, f64), Refusal>
    ensures { shown_three result ≡ ecliptic_along edition up long semidiameter n }
{
    let cos_long = elementary::fold(long).cosine();
    let lat = lat_top(edition, up, cos_long, n)?;
    ecliptic_from(long, cos_long, lat, semidiameter, n)
}

// All three, from the longitude l, the latitude b, the sidereal time s and the obliquity e.
// Refusals: 6 where N is zero; 6 where the longitude's cosine is, in the published edition; 7.
fn ecliptic_at(
    edition: Edition,
    c: Centre,
    l: Folded,
    b: Folded,
    s: Folded,
    e: Folded,
    semidiameter: Rad,
) -> Result<(f64, f64, f64), Refusal>
    ensures { shown_three result ≡ ecliptic_at edition c l b s e semidiameter }
{
    let n = nearby(c, l, b, s);
    if n == 0.0 {
        return Err(Refusal::Zero);
    }
    let long = long_top(c, l, b, s, e, n)?;
    ecliptic_along(edition, upward(c, b, s, e), long, semidiameter, n)
}

// All three, of arguments that are not refused. Refusals: 6; 7.
fn ecliptic_in(
    edition: Edition,
    p: EclPoint,
    parallax: Rad,
    site: GeographPoint,
    height: f64,
    sidereal: Rad,
    oblq: Rad,
    semidiameter: Rad,
) -> Result<(f64, f64, f64), Refusal>
    ensures { shown_three result ≡ ecliptic_in edition p parallax site height sidereal oblq semidiameter }
{
    let (s, c) = Earth::rho_in(Rad(site.lat), height)?;
    ecliptic_at(
        edition,
        parallax::centre_of(s, c, parallax),
        elementary::fold(Rad(p.long)),
        elementary::fold(Rad(p.lat)),
        elementary::fold(sidereal),
        elementary::fold(oblq),
        semidiameter,
    )
}

// Refusals of all arguments: 1; 3; 4; 5.
fn topopcent_refusal(
    p: EclPoint,
    parallax: Rad,
    site: GeographPoint,
    height: f64,
    sidereal: Rad,
    oblq: Rad,
    semidiameter: Rad,
) -> Result<(), Refusal>
    ensures { checked result ≡ topopcent_refusal p parallax site height sidereal oblq semidiameter }
{
    quantity::lower(
        quantity::lower(
            quantity::lower(
                quantity::angle_refusal(Rad(p.long)),
                quantity::latitude_refusal(Rad(p.lat)),
            ),
            quantity::lower(
                quantity::angle_refusal(oblq),
                quantity::angle_refusal(semidiameter),
            ),
        ),
        parallax::observer_refusal(parallax, site, height, sidereal),
    )
}

// The topocentric ecliptic longitude, latitude and semidiameter of a body. Given: its ecliptic point, its equatorial horizontal
// parallax, the observer's place and height, the local sidereal time, the obliquity and the geocentric semidiameter.
// Refusals: 1; 3; 4 past 1.57 for the observer's latitude; 5; then 6 where N is zero; in the published edition 6 also where the
// topocentric longitude's cosine is zero; 7.
pub fn topopcent_ecl_coords(
    edition: Edition,
    ecl_point: EclPoint,
    eq_hz_parllx: Rad,
    geograph_point: GeographPoint,
    observer_ht: f64,
    loc_sidr: Rad,
    eclip_oblq: Rad,
    geocent_semdia: Rad,
) -> Result<(f64, f64, f64), Refusal>
    ensures { shown_three result ≡ topopcent_ecl_coords_rule edition ecl_point eq_hz_parllx geograph_point observer_ht loc_sidr eclip_oblq
        geocent_semdia }
{
    topopcent_refusal(
        ecl_point,
        eq_hz_parllx,
        geograph_point,
        observer_ht,
        loc_sidr,
        eclip_oblq,
        geocent_semdia,
    )?;
    ecliptic_in(
        edition,
        ecl_point,
        eq_hz_parllx,
        geograph_point,
        observer_ht,
        loc_sidr,
        eclip_oblq,
        geocent_semdia,
    )
}
