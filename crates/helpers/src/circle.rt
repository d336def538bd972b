// Degrees on a circle that is read clockwise, from 0 to below 360.
ghost use Rattle.std.specs.Prelude.{◌≡◌};
ghost use Rattle.quantity.specs.rules.Answer.{checked};
ghost use Rattle.helpers.specs.rules.Circle.{below_turn, on_circle, circle_refusal};

use crate::angle;
use quantity::{Deg, Refusal};

// An angle below a turn as it is, and 0 for a whole turn.
fn below_turn(x: Deg) -> Deg
    ensures { result ≡ below_turn x }
{
    if x.0 < 360.0 { x } else { Deg(0.0) }
}

// Degrees folded into 0 to below 360.
pub fn on_circle(x: Deg) -> Deg
    ensures { result ≡ on_circle x }
{
    below_turn(angle::within_360(x))
}

// Refusals of an angle on the circle: 1; 3 below 0, and from 360 on.
pub fn circle_refusal(x: Deg) -> Result<(), Refusal>
    ensures { checked result ≡ circle_refusal x }
{
    if double::is_finite(x.0) {
        if 0.0 <= x.0 {
            if x.0 < 360.0 {
                return Ok(());
            }
            return Err(Refusal::Angle);
        }
        return Err(Refusal::Angle);
    }
    Err(Refusal::NotFinite)
}
