// The elementary functions, and the root.
ghost use Rattle.quantity.specs.rules.Angle.{rad};
ghost use Rattle.brundelak_handed.specs.rules.Boundary.{Handed, number_of_radians};
ghost use Rattle.elementary.specs.rules.Sine.{sine_rule, cosine_rule, tangent_rule};
ghost use Rattle.elementary_arc.specs.rules.Arctangent.{arctangent_rule};
ghost use Rattle.elementary_arc.specs.rules.Arcsine.{arcsine_rule};
ghost use Rattle.root.specs.rules.Root.{root_rule};

use brundelak_handed::{hand, hand_radians, hand_value};
use quantity::Rad;

// The sine of an angle. Refusals: 1; 3 past 400000.0.
#[unsafe(no_mangle)]
pub extern "C" fn brundelak_sine(x: f64, out: &mut u64) -> u8
    ensures { Handed (sine_rule (rad x)) result out.old out.new }
{
    hand(elementary::sine(Rad(x)), out)
}

// The cosine of an angle. Refusals: 1; 3 past 400000.0.
#[unsafe(no_mangle)]
pub extern "C" fn brundelak_cosine(x: f64, out: &mut u64) -> u8
    ensures { Handed (cosine_rule (rad x)) result out.old out.new }
{
    hand(elementary::cosine(Rad(x)), out)
}

// The tangent of an angle. Refusals: 1; 3 past 400000.0; 4 past 1.57.
#[unsafe(no_mangle)]
pub extern "C" fn brundelak_tangent(x: f64, out: &mut u64) -> u8
    ensures { Handed (tangent_rule (rad x)) result out.old out.new }
{
    hand(elementary::tangent(Rad(x)), out)
}

// The arctangent of (y, x). Refusals: 1; 14 where both are zero.
#[unsafe(no_mangle)]
pub extern "C" fn brundelak_arctangent(y: f64, x: f64, out: &mut u64) -> u8
    ensures { Handed (number_of_radians (arctangent_rule y x)) result out.old out.new }
{
    hand_radians(elementary_arc::arctangent(y, x), out)
}

// The arcsine of a number. Refusals: 1; 7 past 1.
#[unsafe(no_mangle)]
pub extern "C" fn brundelak_arcsine(s: f64, out: &mut u64) -> u8
    ensures { Handed (number_of_radians (arcsine_rule s)) result out.old out.new }
{
    hand_radians(elementary_arc::arcsine(s), out)
}

// The square root of a number. Refusals: 1; 5 below zero.
#[unsafe(no_mangle)]
pub extern "C" fn brundelak_root(x: f64, out: &mut u64) -> u8
    ensures { Handed (root_rule x) result out.old out.new }
{
    hand_value(root::square_root_bits(x), out)
}
