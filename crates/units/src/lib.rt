// Radians as degrees, the nearest whole number and its sign, and milliarcseconds each way. Promised: the written operations on every double; below
// 2^53 the whole number is the nearest one, halves away from zero.
#![tactic(auto)]

ghost use Rattle.std.specs.Prelude.{◌≡◌, pos};
ghost use Rattle.units.specs.rules.Degrees.{to_degrees, milliarcseconds, degrees_of};
ghost use Rattle.units.specs.rules.Nearest.{nearest_whole, has_minus};

use quantity::{Deg, Rad};

// Radians as degrees.
pub fn to_degrees(x: Rad) -> Deg
    ensures { result ≡ to_degrees x }
{
    Deg(x.0 * 57.29577951308232)
}

// Degrees in milliarcseconds.
pub fn milliarcseconds(x: Deg) -> f64
    ensures { result ≡ milliarcseconds x }
{
    x.0 * 3600000.0
}

// A count of milliarcseconds in degrees.
pub fn degrees_of(count: u32) -> Deg
    ensures { result ≡ degrees_of (pos count) }
{
    Deg(count as f64 / 3600000.0)
}

// A count of either sign likewise.
pub fn degrees_of_signed(count: i32) -> Deg
    ensures { result ≡ degrees_of count }
{
    Deg(count as f64 / 3600000.0)
}

// The nearest whole number to one that is not below zero, a half going up.
pub fn nearest_whole(y: f64) -> u64
    ensures { result ≡ nearest_whole y }
{
    let w = double::whole_part(y);
    if w < 9007199254740992 {
        if 0.5 <= y - std::num::nearest_u64_to_f64(w) {
            return w + 1;
        }
    }
    w
}

// Whether a minus sign stands before n, the nearest whole number to the size of y.
pub fn has_minus(y: f64, n: u64) -> bool
    ensures { result ≡ has_minus y n }
{
    if y < 0.0 {
        return 0 < n;
    }
    false
}
