// The functions of numbers that differ between the editions, in the published one. The names without the word are the crate's edition.
ghost use Rattle.quantity.specs.rules.Angle.{rad};
ghost use Rattle.brundelak_handed.specs.rules.Boundary.{Handed, HandedTwo, HandedThree, number_of_radians};
ghost use Rattle.edition.specs.declared.Edition.TheVariants.{Published};
ghost use Rattle.coords.specs.rules.Horizon.{dec_frm_hz_rule};
ghost use Rattle.precess.specs.rules.Equatorial.{precess_eq_coords_rule, precess_eq_coords_FK5_rule};
ghost use Rattle.parallax_ecl.specs.rules.Ecliptic.{topopcent_ecl_coords_rule};
ghost use Rattle.chain.specs.rules.Chain.{chain_rule};

use brundelak_handed::{hand_radians, hand_three, hand_two};
use edition::Edition;
use quantity::{EclPoint, GeographPoint, Rad};

// The declination from horizontal coordinates. Refusals: 1; 3; 7.
#[unsafe(no_mangle)]
pub extern "C" fn brundelak_dec_frm_hz_published(
    az: f64,
    alt: f64,
    observer_lat: f64,
    out: &mut u64,
) -> u8
    ensures { Handed (number_of_radians (dec_frm_hz_rule Published (rad az) (rad alt) (rad observer_lat))) result out.old out.new }
{
    hand_radians(
        coords::dec_frm_hz(Edition::Published, Rad(az), Rad(alt), Rad(observer_lat)),
        out,
    )
}

// Equatorial coordinates from one day to another. Refusals: 1; 2; 3; 14; 7.
#[unsafe(no_mangle)]
pub extern "C" fn brundelak_precess_eq_coords_published(
    old_asc: f64,
    old_dec: f64,
    day1: f64,
    day2: f64,
    asc: &mut u64,
    dec: &mut u64,
) -> u8
    ensures { HandedTwo (precess_eq_coords_rule Published (rad old_asc) (rad old_dec) day1 day2) result asc.old dec.old
        asc.new dec.new }
{
    hand_two(
        precess::precess_eq_coords(Edition::Published, Rad(old_asc), Rad(old_dec), day1, day2),
        asc,
        dec,
    )
}

// Coordinates of the FK4 system from one day to another. Refusals: 1; 2; 3; 14; 7.
#[unsafe(no_mangle)]
pub extern "C" fn brundelak_precess_eq_coords_fk5_published(
    old_asc: f64,
    old_dec: f64,
    day1: f64,
    day2: f64,
    asc: &mut u64,
    dec: &mut u64,
) -> u8
    ensures { HandedTwo (precess_eq_coords_FK5_rule Published (rad old_asc) (rad old_dec) day1 day2) result asc.old dec.old
        asc.new dec.new }
{
    hand_two(
        precess::precess_eq_coords_FK5(Edition::Published, Rad(old_asc), Rad(old_dec), day1, day2),
        asc,
        dec,
    )
}

// Topocentric ecliptic longitude, latitude and semidiameter. Refusals: 1; 3; 4; 5; 6; 7.
#[unsafe(no_mangle)]
pub extern "C" fn brundelak_topopcent_ecl_coords_published(
    ecl_long: f64,
    ecl_lat: f64,
    parallax: f64,
    long: f64,
    lat: f64,
    height: f64,
    sidereal: f64,
    oblq: f64,
    semidiameter: f64,
    topocent_long: &mut u64,
    topocent_lat: &mut u64,
    topocent_semidiameter: &mut u64,
) -> u8
    ensures { HandedThree (topopcent_ecl_coords_rule Published (record { long = ecl_long; lat = ecl_lat }) (rad parallax)
        (record { long = long; lat = lat }) height (rad sidereal) (rad oblq) (rad semidiameter)) result topocent_long.old topocent_lat.old topocent_semidiameter.old topocent_long.new topocent_lat.new topocent_semidiameter.new }
{
    hand_three(
        parallax_ecl::topopcent_ecl_coords(
            Edition::Published,
            EclPoint {
                long: ecl_long,
                lat: ecl_lat,
            },
            Rad(parallax),
            GeographPoint { long, lat },
            height,
            Rad(sidereal),
            Rad(oblq),
            Rad(semidiameter),
        ),
        topocent_long,
        topocent_lat,
        topocent_semidiameter,
    )
}

// A star's place from one day to another: precession, nutation, aberration. Refusals: 1; 2; 3; 14; 7; 4.
#[unsafe(no_mangle)]
pub extern "C" fn brundelak_chain_published(
    old_asc: f64,
    old_dec: f64,
    day1: f64,
    day2: f64,
    asc: &mut u64,
    dec: &mut u64,
) -> u8
    ensures { HandedTwo (chain_rule Published (rad old_asc) (rad old_dec) day1 day2) result asc.old dec.old asc.new
        dec.new }
{
    hand_two(
        chain::chain(Edition::Published, Rad(old_asc), Rad(old_dec), day1, day2),
        asc,
        dec,
    )
}
