// Refraction at the sight. Altitudes are in degrees, refraction in minutes of arc.
ghost use Rattle.quantity.specs.rules.Angle.{deg};
ghost use Rattle.brundelak_handed.specs.rules.Boundary.{Handed, number_of_degrees, number_of_arcminutes};
ghost use Rattle.atmos.specs.rules.Refraction.{refrac_frm_apprnt_alt_rule, refrac_frm_true_alt_rule};
ghost use Rattle.atmos.specs.rules.Sight.{sight_alt_rule, plan_alt_rule};

use brundelak_handed::{hand_arcminutes, hand_degrees};
use quantity::Deg;

// Refraction from the apparent altitude. Refusals: 1; 3.
#[unsafe(no_mangle)]
pub extern "C" fn brundelak_refrac_frm_apprnt_alt(alt: f64, out: &mut u64) -> u8
    ensures { Handed (number_of_arcminutes (refrac_frm_apprnt_alt_rule (deg alt))) result out.old out.new }
{
    hand_arcminutes(atmos::refrac_frm_apprnt_alt(Deg(alt)), out)
}

// Refraction from the true altitude. Refusals: 1; 3.
#[unsafe(no_mangle)]
pub extern "C" fn brundelak_refrac_frm_true_alt(alt: f64, out: &mut u64) -> u8
    ensures { Handed (number_of_arcminutes (refrac_frm_true_alt_rule (deg alt))) result out.old out.new }
{
    hand_arcminutes(atmos::refrac_frm_true_alt(Deg(alt)), out)
}

// The true altitude of a star that was measured. Refusals: 1; 3.
#[unsafe(no_mangle)]
pub extern "C" fn brundelak_sight_alt(alt: f64, out: &mut u64) -> u8
    ensures { Handed (number_of_degrees (sight_alt_rule (deg alt))) result out.old out.new }
{
    hand_degrees(atmos::sight_alt(Deg(alt)), out)
}

// The altitude at which to look for a star. Refusals: 1; 3.
#[unsafe(no_mangle)]
pub extern "C" fn brundelak_plan_alt(alt: f64, out: &mut u64) -> u8
    ensures { Handed (number_of_degrees (plan_alt_rule (deg alt))) result out.old out.new }
{
    hand_degrees(atmos::plan_alt(Deg(alt)), out)
}
