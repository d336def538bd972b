// The two arcs of a place, of two places side by side: right ascension by the arctangent of (up, across), declination by the arcsine of
// height. Promised: each place has the arcs and the refusal that it has alone. Precession and rotation take theirs here.
#![tactic(auto)]

ghost use Rattle.std.specs.Prelude.{◌≡◌};
ghost use Rattle.precess_arcs.specs.rules.Arcs.{arcs_check, arcs_two};

use quantity::Refusal;

// Refusals of a place's arcs: 14; 7; and 1 of a NaN.
pub fn arcs_refusal(up: f64, across: f64, height: f64) -> Result<(), Refusal>
    ensures { result ≡ arcs_check up across height }
{
    if elementary_arc::both_zero(up, across) {
        return Err(Refusal::NoDirection);
    }
    let size = double::size(height);
    if size <= 1.0 {
        return Ok(());
    }
    if 1.0 < size {
        Err(Refusal::Arcsine)
    } else {
        Err(Refusal::NotFinite)
    }
}

// The arcs of two places, in radians.
#[derive(Clone, Copy)]
pub struct TwoArcs {
    pub first_asc: f64,
    pub second_asc: f64,
    pub first_dec: f64,
    pub second_dec: f64,
}

// The arcs of two places, from the roots of both heights (`elementary_arc::arcsine_root`), which a caller takes first, for both
// declinations wait for them. Refusals are left to callers too, which ask `arcs_refusal`: what tests or takes roots as well is not compiled
// in place in two callers.
pub fn arcs_two(
    up: f64,
    across: f64,
    height: f64,
    root: f64,
    up2: f64,
    across2: f64,
    height2: f64,
    root2: f64,
) -> TwoArcs
    ensures { result ≡ arcs_two up across height root up2 across2 height2 root2 }
{
    let ascs = elementary_arc::arctangents_of(up, across, up2, across2);
    let decs = elementary_arc::arctangents_of(height, root, height2, root2);
    TwoArcs {
        first_asc: ascs.first.0,
        second_asc: ascs.second.0,
        first_dec: decs.first.0,
        second_dec: decs.second.0,
    }
}
