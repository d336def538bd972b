// Changes of frame.
ghost use Rattle.quantity.specs.rules.Angle.{rad};
ghost use Rattle.brundelak_handed.specs.rules.Boundary.{Handed, HandedTwo, number_of_radians, numbers_of_ecliptic};
ghost use Rattle.edition.specs.declared.Edition.TheVariants.{Crate};
ghost use Rattle.coords.specs.rules.HourAngle.{hr_angl_frm_observer_long_rule, hr_angl_frm_loc_sidr_rule};
ghost use Rattle.coords_ecl.specs.rules.Ecliptic.{ecl_frm_eq_rule, asc_frm_ecl_rule, dec_frm_ecl_rule};
ghost use Rattle.coords.specs.rules.Horizon.{az_frm_eq_rule, alt_frm_eq_rule, hr_angl_frm_hz_rule, dec_frm_hz_rule};
ghost use Rattle.coords_gal.specs.rules.Galactic.{gal_long_frm_eq_rule, gal_lat_frm_eq_rule, asc_frm_gal_rule};

use brundelak_handed::{hand_ecliptic, hand_radians};
use edition::Edition;
use quantity::Rad;

// The hour angle from the sidereal time at Greenwich. Refusals: 1; 3.
#[unsafe(no_mangle)]
pub extern "C" fn brundelak_hr_angl_frm_observer_long(
    green_sidreal: f64,
    observer_long: f64,
    asc: f64,
    out: &mut u64,
) -> u8
    ensures { Handed (number_of_radians (hr_angl_frm_observer_long_rule (rad green_sidreal) (rad observer_long) (rad asc))) result out.old
        out.new }
{
    hand_radians(
        coords::hr_angl_frm_observer_long(Rad(green_sidreal), Rad(observer_long), Rad(asc)),
        out,
    )
}

// The hour angle from the local sidereal time. Refusals: 1; 3.
#[unsafe(no_mangle)]
pub extern "C" fn brundelak_hr_angl_frm_loc_sidr(local_sidreal: f64, asc: f64, out: &mut u64) -> u8
    ensures { Handed (number_of_radians (hr_angl_frm_loc_sidr_rule (rad local_sidreal) (rad asc))) result out.old out.new }
{
    hand_radians(
        coords::hr_angl_frm_loc_sidr(Rad(local_sidreal), Rad(asc)),
        out,
    )
}

// The ecliptic longitude and latitude. Refusals: 1; 3; 4; 7.
#[unsafe(no_mangle)]
pub extern "C" fn brundelak_ecl_frm_eq(
    asc: f64,
    dec: f64,
    oblq_eclip: f64,
    long: &mut u64,
    lat: &mut u64,
) -> u8
    ensures { HandedTwo (numbers_of_ecliptic (ecl_frm_eq_rule (rad asc) (rad dec) (rad oblq_eclip))) result long.old lat.old
        long.new lat.new }
{
    hand_ecliptic(
        coords_ecl::ecl_frm_eq(Rad(asc), Rad(dec), Rad(oblq_eclip)),
        long,
        lat,
    )
}

// The right ascension from ecliptic coordinates. Refusals: 1; 3; 4.
#[unsafe(no_mangle)]
pub extern "C" fn brundelak_asc_frm_ecl(
    ecl_long: f64,
    ecl_lat: f64,
    oblq_eclip: f64,
    out: &mut u64,
) -> u8
    ensures { Handed (number_of_radians (asc_frm_ecl_rule (rad ecl_long) (rad ecl_lat) (rad oblq_eclip))) result out.old out.new }
{
    hand_radians(
        coords_ecl::asc_frm_ecl(Rad(ecl_long), Rad(ecl_lat), Rad(oblq_eclip)),
        out,
    )
}

// The declination from ecliptic coordinates. Refusals: 1; 3; 7.
#[unsafe(no_mangle)]
pub extern "C" fn brundelak_dec_frm_ecl(
    ecl_long: f64,
    ecl_lat: f64,
    oblq_eclip: f64,
    out: &mut u64,
) -> u8
    ensures { Handed (number_of_radians (dec_frm_ecl_rule (rad ecl_long) (rad ecl_lat) (rad oblq_eclip))) result out.old out.new }
{
    hand_radians(
        coords_ecl::dec_frm_ecl(Rad(ecl_long), Rad(ecl_lat), Rad(oblq_eclip)),
        out,
    )
}

// The azimuth, from south, west positive. Refusals: 1; 3; 4; 14.
#[unsafe(no_mangle)]
pub extern "C" fn brundelak_az_frm_eq(
    hour_angle: f64,
    dec: f64,
    observer_lat: f64,
    out: &mut u64,
) -> u8
    ensures { Handed (number_of_radians (az_frm_eq_rule (rad hour_angle) (rad dec) (rad observer_lat))) result out.old out.new }
{
    hand_radians(
        coords::az_frm_eq(Rad(hour_angle), Rad(dec), Rad(observer_lat)),
        out,
    )
}

// The altitude. Refusals: 1; 3; 7.
#[unsafe(no_mangle)]
pub extern "C" fn brundelak_alt_frm_eq(
    hour_angle: f64,
    dec: f64,
    observer_lat: f64,
    out: &mut u64,
) -> u8
    ensures { Handed (number_of_radians (alt_frm_eq_rule (rad hour_angle) (rad dec) (rad observer_lat))) result out.old out.new }
{
    hand_radians(
        coords::alt_frm_eq(Rad(hour_angle), Rad(dec), Rad(observer_lat)),
        out,
    )
}

// The hour angle from horizontal coordinates. Refusals: 1; 3; 4; 14.
#[unsafe(no_mangle)]
pub extern "C" fn brundelak_hr_angl_frm_hz(
    az: f64,
    alt: f64,
    observer_lat: f64,
    out: &mut u64,
) -> u8
    ensures { Handed (number_of_radians (hr_angl_frm_hz_rule (rad az) (rad alt) (rad observer_lat))) result out.old out.new }
{
    hand_radians(
        coords::hr_angl_frm_hz(Rad(az), Rad(alt), Rad(observer_lat)),
        out,
    )
}

// The declination from horizontal coordinates. Refusals: 1; 3; 7.
#[unsafe(no_mangle)]
pub extern "C" fn brundelak_dec_frm_hz(az: f64, alt: f64, observer_lat: f64, out: &mut u64) -> u8
    ensures { Handed (number_of_radians (dec_frm_hz_rule Crate (rad az) (rad alt) (rad observer_lat))) result out.old out.new }
{
    hand_radians(
        coords::dec_frm_hz(Edition::Crate, Rad(az), Rad(alt), Rad(observer_lat)),
        out,
    )
}

// The galactic longitude. Refusals: 1; 3; 4; 14.
#[unsafe(no_mangle)]
pub extern "C" fn brundelak_gal_long_frm_eq(asc: f64, dec: f64, out: &mut u64) -> u8
    ensures { Handed (number_of_radians (gal_long_frm_eq_rule (rad asc) (rad dec))) result out.old out.new }
{
    hand_radians(coords_gal::gal_long_frm_eq(Rad(asc), Rad(dec)), out)
}

// The galactic latitude. Refusals: 1; 3; 7.
#[unsafe(no_mangle)]
pub extern "C" fn brundelak_gal_lat_frm_eq(asc: f64, dec: f64, out: &mut u64) -> u8
    ensures { Handed (number_of_radians (gal_lat_frm_eq_rule (rad asc) (rad dec))) result out.old out.new }
{
    hand_radians(coords_gal::gal_lat_frm_eq(Rad(asc), Rad(dec)), out)
}

// The right ascension from galactic coordinates. Refusals: 1; 3; 4; 14.
#[unsafe(no_mangle)]
pub extern "C" fn brundelak_asc_frm_gal(gal_long: f64, gal_lat: f64, out: &mut u64) -> u8
    ensures { Handed (number_of_radians (asc_frm_gal_rule (rad gal_long) (rad gal_lat))) result out.old out.new }
{
    hand_radians(coords_gal::asc_frm_gal(Rad(gal_long), Rad(gal_lat)), out)
}
