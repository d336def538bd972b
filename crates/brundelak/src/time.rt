// Sidereal time at Greenwich.
ghost use Rattle.brundelak_handed.specs.rules.Boundary.{Handed, number_of_radians};
ghost use Rattle.sidereal.specs.rules.Mean.{mean_sidereal_rule};
ghost use Rattle.sidereal.specs.rules.Apparent.{apparent_sidereal_rule};

use brundelak_handed::hand_radians;

// Mean sidereal time. Refusals: 1; 2.
#[unsafe(no_mangle)]
pub extern "C" fn brundelak_mean_sidereal(day: f64, out: &mut u64) -> u8
    ensures { Handed (number_of_radians (mean_sidereal_rule day)) result out.old out.new }
{
    hand_radians(sidereal::mean_sidereal(day), out)
}

// Apparent sidereal time. Refusals: 1; 2.
#[unsafe(no_mangle)]
pub extern "C" fn brundelak_apparent_sidereal(day: f64, out: &mut u64) -> u8
    ensures { Handed (number_of_radians (apparent_sidereal_rule day)) result out.old out.new }
{
    hand_radians(sidereal::apparent_sidereal(day), out)
}
