// The helpers of section 3.
ghost use Rattle.quantity.specs.rules.Angle.{deg, rad};
ghost use Rattle.brundelak_handed.specs.rules.Boundary.{Handed, HandedTwo, number_of_degrees, number_of_radians};
ghost use Rattle.helpers.specs.rules.Angle.{deg_frm_dms_rule, deg_frm_hms_rule, to_radians_rule, limit_to_360_rule, limit_to_two_PI_rule};
ghost use Rattle.helpers.specs.rules.Time.{julian_cent_rule};
ghost use Rattle.helpers_earth.specs.rules.Earth.{rho_sin_cos_phi_rule};

use brundelak_handed::{hand, hand_degrees, hand_radians, hand_two};
use quantity::{Deg, Rad};

// Seconds of arc to degrees. Refusals: 1.
#[unsafe(no_mangle)]
pub extern "C" fn brundelak_deg_frm_dms(seconds: f64, out: &mut u64) -> u8
    ensures { Handed (number_of_degrees (deg_frm_dms_rule seconds)) result out.old out.new }
{
    hand_degrees(helpers::angle::deg_frm_dms(seconds), out)
}

// Seconds of time to degrees. Refusals: 1.
#[unsafe(no_mangle)]
pub extern "C" fn brundelak_deg_frm_hms(seconds: f64, out: &mut u64) -> u8
    ensures { Handed (number_of_degrees (deg_frm_hms_rule seconds)) result out.old out.new }
{
    hand_degrees(helpers::angle::deg_frm_hms(seconds), out)
}

// Degrees to radians. Refusals: 1.
#[unsafe(no_mangle)]
pub extern "C" fn brundelak_to_radians(x: f64, out: &mut u64) -> u8
    ensures { Handed (number_of_radians (to_radians_rule (deg x))) result out.old out.new }
{
    hand_radians(helpers::angle::to_radians(Deg(x)), out)
}

// Degrees folded into one turn. Refusals: 1.
#[unsafe(no_mangle)]
pub extern "C" fn brundelak_limit_to_360(x: f64, out: &mut u64) -> u8
    ensures { Handed (number_of_degrees (limit_to_360_rule (deg x))) result out.old out.new }
{
    hand_degrees(helpers::angle::limit_to_360(Deg(x)), out)
}

// Radians folded into one turn. Refusals: 1.
#[unsafe(no_mangle)]
pub extern "C" fn brundelak_limit_to_two_pi(x: f64, out: &mut u64) -> u8
    ensures { Handed (number_of_radians (limit_to_two_PI_rule (rad x))) result out.old out.new }
{
    hand_radians(helpers::angle::limit_to_two_PI(Rad(x)), out)
}

// Centuries from 2451545.0 to a day. Refusals: 1; 2.
#[unsafe(no_mangle)]
pub extern "C" fn brundelak_julian_cent(day: f64, out: &mut u64) -> u8
    ensures { Handed (julian_cent_rule day) result out.old out.new }
{
    hand(helpers::time::julian_cent(day), out)
}

// The observer's place from the Earth's centre. Refusals: 1; 3; 4; 5.
#[unsafe(no_mangle)]
pub extern "C" fn brundelak_rho_sin_cos_phi(
    lat: f64,
    height: f64,
    rho_sin: &mut u64,
    rho_cos: &mut u64,
) -> u8
    ensures { HandedTwo (rho_sin_cos_phi_rule (rad lat) height) result rho_sin.old rho_cos.old rho_sin.new
        rho_cos.new }
{
    hand_two(
        helpers_earth::Earth::rho_sin_cos_phi(Rad(lat), height),
        rho_sin,
        rho_cos,
    )
}
