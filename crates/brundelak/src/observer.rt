// What depends on the observer: parallax; rise, culmination and set.
ghost use Rattle.quantity.specs.rules.Angle.{rad};
ghost use Rattle.brundelak_handed.specs.rules.Boundary.{Handed, HandedTwo, HandedThree, number_of_radians, numbers_of_point};
ghost use Rattle.edition.specs.declared.Edition.TheVariants.{Crate};
ghost use Rattle.parallax.specs.rules.Horizontal.{eq_hz_parallax_rule};
ghost use Rattle.parallax.specs.rules.Equatorial.{topocent_eq_coords_rule};
ghost use Rattle.parallax_ecl.specs.rules.Ecliptic.{topopcent_ecl_coords_rule};
ghost use Rattle.transit.specs.rules.RiseCulmSet.{rise_culm_set_rule};

use brundelak_handed::{hand_point, hand_radians, hand_three};
use edition::Edition;
use quantity::{EclPoint, EqPoint, GeographPoint, Rad};

// Equatorial horizontal parallax at a distance. Refusals: 1; 5.
#[unsafe(no_mangle)]
pub extern "C" fn brundelak_eq_hz_parallax(dist: f64, out: &mut u64) -> u8
    ensures { Handed (number_of_radians (eq_hz_parallax_rule dist)) result out.old out.new }
{
    hand_radians(parallax::eq_hz_parallax(dist), out)
}

// Topocentric right ascension and declination. Refusals: 1; 3; 4; 5; 14.
#[unsafe(no_mangle)]
pub extern "C" fn brundelak_topocent_eq_coords(
    asc: f64,
    dec: f64,
    parallax: f64,
    long: f64,
    lat: f64,
    height: f64,
    sidereal: f64,
    topocent_asc: &mut u64,
    topocent_dec: &mut u64,
) -> u8
    ensures { HandedTwo
        (numbers_of_point (topocent_eq_coords_rule (record { asc = asc; dec = dec }) (rad parallax) (record { long = long; lat = lat }) height (rad sidereal)))
        result topocent_asc.old topocent_dec.old topocent_asc.new topocent_dec.new }
{
    hand_point(
        parallax::topocent_eq_coords(
            EqPoint { asc: asc, dec: dec },
            Rad(parallax),
            GeographPoint { long, lat },
            height,
            Rad(sidereal),
        ),
        topocent_asc,
        topocent_dec,
    )
}

// Topocentric ecliptic longitude, latitude and semidiameter. Refusals: 1; 3; 4; 5; 6; 7.
#[unsafe(no_mangle)]
pub extern "C" fn brundelak_topopcent_ecl_coords(
    ecl_long: f64,
    ecl_lat: f64,
    parallax: f64,
    long: f64,
    lat: f64,
    height: f64,
    sidereal: f64,
    oblq: f64,
    semidiameter: f64,
    topocent_long: &mut u64,
    topocent_lat: &mut u64,
    topocent_semidiameter: &mut u64,
) -> u8
    ensures { HandedThree (topopcent_ecl_coords_rule Crate (record { long = ecl_long; lat = ecl_lat }) (rad parallax)
        (record { long = long; lat = lat }) height (rad sidereal) (rad oblq) (rad semidiameter)) result topocent_long.old topocent_lat.old topocent_semidiameter.old topocent_long.new topocent_lat.new topocent_semidiameter.new }
{
    hand_three(
        parallax_ecl::topopcent_ecl_coords(
            Edition::Crate,
            EclPoint {
                long: ecl_long,
                lat: ecl_lat,
            },
            Rad(parallax),
            GeographPoint { long, lat },
            height,
            Rad(sidereal),
            Rad(oblq),
            Rad(semidiameter),
        ),
        topocent_long,
        topocent_lat,
        topocent_semidiameter,
    )
}

// Rise, culmination and set as fractions of a day. Refusals: 1; 3; 4; 15; 16.
#[unsafe(no_mangle)]
pub extern "C" fn brundelak_rise_culm_set(
    asc: f64,
    dec: f64,
    sidereal: f64,
    long: f64,
    lat: f64,
    alt: f64,
    rise: &mut u64,
    culmination: &mut u64,
    set: &mut u64,
) -> u8
    ensures { HandedThree (rise_culm_set_rule (record { asc = asc; dec = dec }) (rad sidereal) (record { long = long; lat = lat }) (rad alt)) result
        rise.old culmination.old set.old rise.new culmination.new set.new }
{
    hand_three(
        transit::rise_culm_set(
            EqPoint { asc: asc, dec: dec },
            Rad(sidereal),
            GeographPoint { long, lat },
            Rad(alt),
        ),
        rise,
        culmination,
        set,
    )
}
