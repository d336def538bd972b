// Degrees, radians and seconds, and folding into one turn. Each takes every finite number and refuses the rest by 1.
ghost use Rattle.std.specs.Prelude.{◌≡◌};
ghost use Rattle.quantity.specs.rules.Answer.{shown};
ghost use Rattle.helpers.specs.rules.Angle.{radians_of, remainder, limited, within360, within_two_PI, deg_frm_dms_rule, deg_frm_hms_rule, to_radians_rule};
ghost use Rattle.helpers.specs.rules.Angle.{limit_to_360_rule, limit_to_two_PI_rule};

use quantity::{Deg, Rad, Refusal};

// The double PI/180.
const DEGREE: f64 = 0.017453292519943295;

// The conversion: the only way from degrees to radians.
pub fn radians(x: Deg) -> Rad
    ensures { result ≡ radians_of x }
{
    Rad(x.0 * DEGREE)
}

// The exact remainder of x by a full turn, with x's sign.
fn remainder(x: f64, full: f64) -> f64
    ensures { result ≡ remainder x full }
{
    remainder::remainder_of(x, full)
}

// The remainder, plus a full turn where it is below zero. Every fold into a turn is this one, and so is that of days into one.
pub fn limited(x: f64, full: f64) -> f64
    ensures { result ≡ limited x full }
{
    let r = remainder(x, full);
    if r < 0.0 { r + full } else { r }
}

// Degrees folded into 0 to 360.
pub fn within_360(x: Deg) -> Deg
    ensures { result ≡ within360 x }
{
    Deg(limited(x.0, 360.0))
}

// Radians folded into 0 to 2·PI.
pub fn within_two_PI(x: Rad) -> Rad
    ensures { result ≡ within_two_PI x }
{
    Rad(limited(x.0, 6.283185307179586))
}

// Seconds of arc to degrees. Refusals: 1.
pub fn deg_frm_dms(seconds: f64) -> Result<Deg, Refusal>
    ensures { shown result ≡ deg_frm_dms_rule seconds }
{
    quantity::number_refusal(seconds)?;
    Ok(Deg(seconds / 3600.0))
}

// Seconds of time to degrees. Refusals: 1.
pub fn deg_frm_hms(seconds: f64) -> Result<Deg, Refusal>
    ensures { shown result ≡ deg_frm_hms_rule seconds }
{
    quantity::number_refusal(seconds)?;
    Ok(Deg(15.0 * (seconds / 3600.0)))
}

// Degrees to radians. Refusals: 1.
pub fn to_radians(x: Deg) -> Result<Rad, Refusal>
    ensures { shown result ≡ to_radians_rule x }
{
    quantity::number_refusal(x.0)?;
    Ok(radians(x))
}

// Degrees folded into one turn. Refusals: 1.
pub fn limit_to_360(x: Deg) -> Result<Deg, Refusal>
    ensures { shown result ≡ limit_to_360_rule x }
{
    quantity::number_refusal(x.0)?;
    Ok(within_360(x))
}

// Radians folded into one turn. Refusals: 1.
pub fn limit_to_two_PI(x: Rad) -> Result<Rad, Refusal>
    ensures { shown result ≡ limit_to_two_PI_rule x }
{
    quantity::number_refusal(x.0)?;
    Ok(within_two_PI(x))
}
