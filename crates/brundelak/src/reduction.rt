// What leads from a catalogue place to a place on a day: precession, nutation, aberration and the chain.
ghost use Rattle.quantity.specs.rules.Angle.{rad};
ghost use Rattle.brundelak_handed.specs.rules.Boundary.{Handed, HandedTwo, HandedThree, number_of_radians};
ghost use Rattle.edition.specs.declared.Edition.TheVariants.{Crate};
ghost use Rattle.precess.specs.rules.Annual.{annual_precess_rule};
ghost use Rattle.precess.specs.rules.Equatorial.{precess_eq_coords_rule, precess_eq_coords_FK5_rule};
ghost use Rattle.precess_ecl.specs.rules.Ecliptic.{precess_ecl_coords_rule};
ghost use Rattle.precess_ecl.specs.rules.Orbit.{precess_orb_elements_rule};
ghost use Rattle.nutation.specs.rules.Day.{nutation_rule};
ghost use Rattle.nutation_ceiling.specs.rules.Ceiling.{nutation_ceiling_rule};
ghost use Rattle.nutation.specs.rules.Point.{nutation_in_eq_coords_rule};
ghost use Rattle.aberr.specs.rules.Sun.{sol_aberr_rule};
ghost use Rattle.aberr.specs.rules.Star.{stell_aberr_in_eq_coords_rule};
ghost use Rattle.chain.specs.rules.Chain.{chain_rule};

use brundelak_handed::{hand_radians, hand_three, hand_two};
use edition::Edition;
use quantity::{EqPoint, Rad};

// Annual precession. Refusals: 1; 2; 3; 4.
#[unsafe(no_mangle)]
pub extern "C" fn brundelak_annual_precess(
    asc: f64,
    dec: f64,
    day: f64,
    precess_in_asc: &mut u64,
    precess_in_dec: &mut u64,
) -> u8
    ensures { HandedTwo (annual_precess_rule (rad asc) (rad dec) day) result precess_in_asc.old precess_in_dec.old
        precess_in_asc.new precess_in_dec.new }
{
    hand_two(
        precess::annual_precess(Rad(asc), Rad(dec), day),
        precess_in_asc,
        precess_in_dec,
    )
}

// Equatorial coordinates from one day to another. Refusals: 1; 2; 3; 14; 7.
#[unsafe(no_mangle)]
pub extern "C" fn brundelak_precess_eq_coords(
    old_asc: f64,
    old_dec: f64,
    day1: f64,
    day2: f64,
    asc: &mut u64,
    dec: &mut u64,
) -> u8
    ensures { HandedTwo (precess_eq_coords_rule Crate (rad old_asc) (rad old_dec) day1 day2) result asc.old dec.old
        asc.new dec.new }
{
    hand_two(
        precess::precess_eq_coords(Edition::Crate, Rad(old_asc), Rad(old_dec), day1, day2),
        asc,
        dec,
    )
}

// Coordinates of the FK4 system from one day to another. Refusals: 1; 2; 3; 14; 7.
#[unsafe(no_mangle)]
pub extern "C" fn brundelak_precess_eq_coords_fk5(
    old_asc: f64,
    old_dec: f64,
    day1: f64,
    day2: f64,
    asc: &mut u64,
    dec: &mut u64,
) -> u8
    ensures { HandedTwo (precess_eq_coords_FK5_rule Crate (rad old_asc) (rad old_dec) day1 day2) result asc.old dec.old
        asc.new dec.new }
{
    hand_two(
        precess::precess_eq_coords_FK5(Edition::Crate, Rad(old_asc), Rad(old_dec), day1, day2),
        asc,
        dec,
    )
}

// Ecliptic coordinates from one day to another. Refusals: 1; 2; 3; 7.
#[unsafe(no_mangle)]
pub extern "C" fn brundelak_precess_ecl_coords(
    old_long: f64,
    old_lat: f64,
    day1: f64,
    day2: f64,
    ecl_long: &mut u64,
    ecl_lat: &mut u64,
) -> u8
    ensures { HandedTwo (precess_ecl_coords_rule (rad old_long) (rad old_lat) day1 day2) result ecl_long.old ecl_lat.old
        ecl_long.new ecl_lat.new }
{
    hand_two(
        precess_ecl::precess_ecl_coords(Rad(old_long), Rad(old_lat), day1, day2),
        ecl_long,
        ecl_lat,
    )
}

// Orbital elements from one day to another. Refusals: 1; 2; 3; 7; 6; 7.
#[unsafe(no_mangle)]
pub extern "C" fn brundelak_precess_orb_elements(
    old_inc: f64,
    old_arg_perih: f64,
    old_long_ascend_node: f64,
    day1: f64,
    day2: f64,
    inc: &mut u64,
    arg_perih: &mut u64,
    long_ascend_node: &mut u64,
) -> u8
    ensures { HandedThree (precess_orb_elements_rule (rad old_inc) (rad old_arg_perih) (rad old_long_ascend_node) day1 day2) result
        inc.old arg_perih.old long_ascend_node.old inc.new arg_perih.new
        long_ascend_node.new }
{
    hand_three(
        precess_ecl::precess_orb_elements(
            Rad(old_inc),
            Rad(old_arg_perih),
            Rad(old_long_ascend_node),
            day1,
            day2,
        ),
        inc,
        arg_perih,
        long_ascend_node,
    )
}

// Nutation in longitude and obliquity. Refusals: 1; 2.
#[unsafe(no_mangle)]
pub extern "C" fn brundelak_nutation(day: f64, nut_in_long: &mut u64, nut_in_oblq: &mut u64) -> u8
    ensures { HandedTwo (nutation_rule day) result nut_in_long.old nut_in_oblq.old nut_in_long.new
        nut_in_oblq.new }
{
    hand_two(nutation::nutation(day), nut_in_long, nut_in_oblq)
}

// The most, in size, that each can be on a day. Refusals: 1; 2.
#[unsafe(no_mangle)]
pub extern "C" fn brundelak_nutation_ceiling(
    day: f64,
    long_ceiling: &mut u64,
    oblq_ceiling: &mut u64,
) -> u8
    ensures { HandedTwo (nutation_ceiling_rule day) result long_ceiling.old oblq_ceiling.old
        long_ceiling.new oblq_ceiling.new }
{
    hand_two(
        nutation_ceiling::nutation_ceiling(day),
        long_ceiling,
        oblq_ceiling,
    )
}

// Nutation in right ascension and declination. Refusals: 1; 3; 4.
#[unsafe(no_mangle)]
pub extern "C" fn brundelak_nutation_in_eq_coords(
    asc: f64,
    dec: f64,
    nut_in_long: f64,
    nut_in_oblq: f64,
    tru_oblq: f64,
    nut_in_asc: &mut u64,
    nut_in_dec: &mut u64,
) -> u8
    ensures { HandedTwo (nutation_in_eq_coords_rule (record { asc = asc; dec = dec }) (rad nut_in_long) (rad nut_in_oblq) (rad tru_oblq)) result
        nut_in_asc.old nut_in_dec.old nut_in_asc.new nut_in_dec.new }
{
    hand_two(
        nutation::nutation_in_eq_coords(
            EqPoint { asc: asc, dec: dec },
            Rad(nut_in_long),
            Rad(nut_in_oblq),
            Rad(tru_oblq),
        ),
        nut_in_asc,
        nut_in_dec,
    )
}

// Solar aberration at a distance. Refusals: 1; 5.
#[unsafe(no_mangle)]
pub extern "C" fn brundelak_sol_aberr(dist: f64, out: &mut u64) -> u8
    ensures { Handed (number_of_radians (sol_aberr_rule dist)) result out.old out.new }
{
    hand_radians(aberr::sol_aberr(dist), out)
}

// Stellar aberration in right ascension and declination. Refusals: 1; 2; 3; 4.
#[unsafe(no_mangle)]
pub extern "C" fn brundelak_stell_aberr_in_eq_coords(
    asc: f64,
    dec: f64,
    day: f64,
    aberr_in_asc: &mut u64,
    aberr_in_dec: &mut u64,
) -> u8
    ensures { HandedTwo (stell_aberr_in_eq_coords_rule (record { asc = asc; dec = dec }) day) result aberr_in_asc.old
        aberr_in_dec.old aberr_in_asc.new aberr_in_dec.new }
{
    hand_two(
        aberr::stell_aberr_in_eq_coords(EqPoint { asc: asc, dec: dec }, day),
        aberr_in_asc,
        aberr_in_dec,
    )
}

// A star's place from one day to another: precession, nutation, aberration. Refusals: 1; 2; 3; 14; 7; 4.
#[unsafe(no_mangle)]
pub extern "C" fn brundelak_chain(
    old_asc: f64,
    old_dec: f64,
    day1: f64,
    day2: f64,
    asc: &mut u64,
    dec: &mut u64,
) -> u8
    ensures { HandedTwo (chain_rule Crate (rad old_asc) (rad old_dec) day1 day2) result asc.old dec.old asc.new
        dec.new }
{
    hand_two(
        chain::chain(Edition::Crate, Rad(old_asc), Rad(old_dec), day1, day2),
        asc,
        dec,
    )
}
