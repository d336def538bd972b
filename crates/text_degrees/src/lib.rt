// An angle in degrees, in decimal: digits and an optional point, with a sign in front where it is wanted. Promised: the double nearest to
// what is written, by one rounding, or that it is none.
#![tactic(auto)]

ghost use Rattle.std.specs.Prelude.{◌≡◌};
ghost use Rattle.text_decimal.specs.rules.Decimal.{shown_decimal};
ghost use Rattle.text_degrees.specs.rules.Degrees.{with_sign, shown_read_degrees, degrees_rule};

use quantity::Deg;

// The number behind a sign.
fn with_sign(minus: bool, number: Option<f64>) -> Option<Deg>
    ensures { shown_read_degrees result ≡ with_sign minus (shown_decimal number) }
{
    Some(Deg(double::negated_if(minus, number?)))
}

// The angle that the text says, where it is one.
pub fn read(text: &[u8]) -> Option<Deg>
    ensures { shown_read_degrees result ≡ degrees_rule text.now }
{
    if text.len() == 0 {
        return None;
    }
    if text[0] == b'-' {
        return with_sign(true, text_decimal::read(&text[1..]));
    }
    if text[0] == b'+' {
        return with_sign(false, text_decimal::read(&text[1..]));
    }
    with_sign(false, text_decimal::read(text))
}
