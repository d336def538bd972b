// The century of a day.
ghost use Rattle.std.specs.Prelude.{◌≡◌};
ghost use Rattle.quantity.specs.rules.Answer.{shown};
ghost use Rattle.helpers.specs.rules.Time.{century_of, julian_cent_rule};

use quantity::Refusal;

// Centuries from 2451545.0 to a day.
pub fn century(day: f64) -> f64
    ensures { result ≡ century_of day }
{
    (day - 2451545.0) / 36525.0
}

// Centuries from 2451545.0 to a day. Refusals: 1; 2.
pub fn julian_cent(day: f64) -> Result<f64, Refusal>
    ensures { shown result ≡ julian_cent_rule day }
{
    quantity::day_refusal(day)?;
    Ok(century(day))
}
