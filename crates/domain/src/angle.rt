// The conversions of `helpers::angle`, called with any f64: each answers by its rule, a finite number, or is refused by 1.
ghost use Rattle.std.specs.Prelude.{◌≡◌};
ghost use Rattle.quantity.specs.rules.Answer.{shown};
ghost use Rattle.helpers.specs.rules.Angle.{deg_frm_dms_rule, deg_frm_hms_rule, to_radians_rule};
ghost use Rattle.domain.specs.notions.Answers.{FiniteDegrees, FiniteRadians};

use quantity::{Deg, Rad, Refusal};

pub fn deg_frm_dms(seconds: f64) -> Result<Deg, Refusal>
    ensures result_value { shown result ≡ deg_frm_dms_rule seconds }
    ensures finite { FiniteDegrees result }
{
    helpers::angle::deg_frm_dms(seconds)
}

pub fn deg_frm_hms(seconds: f64) -> Result<Deg, Refusal>
    ensures result_value { shown result ≡ deg_frm_hms_rule seconds }
    ensures finite { FiniteDegrees result }
{
    helpers::angle::deg_frm_hms(seconds)
}

pub fn to_radians(x: Deg) -> Result<Rad, Refusal>
    ensures result_value { shown result ≡ to_radians_rule x }
    ensures finite { FiniteRadians result }
{
    helpers::angle::to_radians(x)
}
