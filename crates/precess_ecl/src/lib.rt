// Precession of the ecliptic (section 4): its places, and the elements of an orbit. Angles are in radians. Promised: bit for bit the
// Rust's formulas, or the refusal; 14 is never met.
#![tactic(auto)]

ghost use Rattle.std.specs.Prelude.{◌≡◌};
ghost use Rattle.quantity.specs.rules.Answer.{checked, shown_two, shown_three, shown};
ghost use Rattle.precess_ecl.specs.rules.Ecliptic.{ecl_nu, ecl_pi, ecl_rho, ecl_precession_by, ecl_precession_of};
ghost use Rattle.precess_ecl.specs.rules.Ecliptic.{ecl_precessed_from, ecl_precessed_in, precess_ecl_coords_rule};
ghost use Rattle.precess_ecl.specs.rules.Orbit.{leaned_of, new_inclination, new_node, node_and_perihelion, orbit_from, orbit_in, orbit_refusal};
ghost use Rattle.precess_ecl.specs.rules.Orbit.{precess_orb_elements_rule};

use elementary::Folded;
use helpers::{angle, time};
use quantity::{Deg, Rad, Refusal};

// ---- ecliptic coordinates (Meeus 21.5 to 21.7)

// What two days fix of ecliptic precession: nu with its sine and cosine, Pi and rho.
#[derive(Clone, Copy)]
pub struct EclPrecession {
    pub nu: Rad,
    pub sine: f64,
    pub cosine: f64,
    pub pi: Rad,
    pub rho: Rad,
}

const BACK: f64 = -0.03302;

// The angle nu between the two ecliptics.
fn ecl_nu(c: f64, t: f64) -> Deg
    ensures { result ≡ ecl_nu c t }
{
    let x = c * (0.000598 / 3600.0);
    Deg(
        t * (47.0029 / 3600.0 - c * (0.06603 / 3600.0 - x)
            + t * ((BACK / 3600.0 + x) + t * (0.00006 / 3600.0))),
    )
}

// The longitude Pi of their node.
fn ecl_pi(c: f64, t: f64) -> Deg
    ensures { result ≡ ecl_pi c t }
{
    Deg(
        174.876384 + c * (3289.4789 / 3600.0 + c * (0.60622 / 3600.0))
            - t * ((869.8089 / 3600.0 + c * (0.50491 / 3600.0)) - t * (0.03536 / 3600.0)),
    )
}

// The general precession rho.
fn ecl_rho(c: f64, t: f64) -> Deg
    ensures { result ≡ ecl_rho c t }
{
    let y = c * (0.000042 / 3600.0);
    Deg(
        t * (5029.0966 / 3600.0
            + c * (2.22226 / 3600.0 - y)
            + t * ((1.11113 / 3600.0 - y) - t * (0.000006 / 3600.0))),
    )
}

// The precession by three angles.
fn ecl_precession_by(nu: Rad, pi: Rad, rho: Rad) -> EclPrecession
    ensures { result ≡ ecl_precession_by nu pi rho }
{
    let t = elementary::sin_cos_of(nu);
    EclPrecession {
        nu,
        sine: t.sine,
        cosine: t.cosine,
        pi,
        rho,
    }
}

// The precession from the first day to the second.
fn ecl_precession(day1: f64, day2: f64) -> EclPrecession
    ensures { result ≡ ecl_precession_of day1 day2 }
{
    let c = time::century(day1);
    let t = precess_angles::span(day1, day2);
    ecl_precession_by(
        angle::radians(ecl_nu(c, t)),
        angle::radians(ecl_pi(c, t)),
        angle::radians(ecl_rho(c, t)),
    )
}

// A place after precession: p is Pi less its longitude, b its latitude. Refusals: 7.
fn ecl_precessed_from(
    p: Folded,
    b: Folded,
    precession: EclPrecession,
) -> Result<(f64, f64), Refusal>
    ensures { shown_two result ≡ ecl_precessed_from p b precession }
{
    let sp = p.sine();
    let cp = p.cosine();
    let sb = b.sine();
    let cb = b.cosine();
    quantity::both(
        quantity::taken_from(
            Rad(precession.rho.0 + precession.pi.0),
            elementary_arc::arctangent_in(
                precession.cosine * cb * sp - precession.sine * sb,
                cb * cp,
            ),
        ),
        elementary_arc::arcsine_in(precession.cosine * sb + precession.sine * cb * sp),
    )
}

// A place under the precession of two days, of arguments that are not refused. Refusals: 7.
fn ecl_precessed_in(long: Rad, lat: Rad, precession: EclPrecession) -> Result<(f64, f64), Refusal>
    ensures { shown_two result ≡ ecl_precessed_in long lat precession }
{
    ecl_precessed_from(
        elementary::fold(Rad(precession.pi.0 - long.0)),
        elementary::fold(lat),
        precession,
    )
}

// Ecliptic coordinates reduced from the first day to the second. Refusals: 1; 2; 3; then 7.
pub fn precess_ecl_coords(
    old_long: Rad,
    old_lat: Rad,
    day1: f64,
    day2: f64,
) -> Result<(f64, f64), Refusal>
    ensures { shown_two result ≡ precess_ecl_coords_rule old_long old_lat day1 day2 }
{
    precess_angles::place_refusal(old_long, old_lat, day1, day2)?;
    ecl_precessed_in(old_long, old_lat, ecl_precession(day1, day2))
}

// ---- orbital elements (Meeus, chapter 24)

// A and B of the crate: the new inclination's sine along and across the old node.
#[derive(Clone, Copy)]
struct Leaned {
    a: f64,
    b: f64,
}

// A and B, from the inclination i and the node less Pi.
fn lean(i: Folded, n: Folded, precession: EclPrecession) -> Leaned
    ensures { result ≡ leaned_of i n precession }
{
    let si = i.sine();
    Leaned {
        a: si * n.sine(),
        b: -precession.sine * i.cosine() + precession.cosine * si * n.cosine(),
    }
}

// The new inclination; nu where the old one is zero, of either sign. Refusals: 7.
fn new_inclination(inc: Rad, l: Leaned, precession: EclPrecession) -> Result<Rad, Refusal>
    ensures { shown result ≡ new_inclination inc l precession }
{
    if inc.0 == 0.0 {
        return Ok(precession.nu);
    }
    let s = root::square_root(l.a * l.a + l.b * l.b)?;
    elementary_arc::arcsine_in(s)
}

// The new node; half a turn on where the old inclination is zero. Where it has no direction the new inclination is zero, and
// `orbit_from` refuses by 6 before it looks at the node.
fn new_node(inc: Rad, l: Leaned, precession: EclPrecession) -> Result<Rad, Refusal>
    ensures { shown result ≡ new_node inc l precession }
{
    let phi = precession.pi.0 + precession.rho.0;
    if inc.0 == 0.0 {
        return Ok(Rad(phi + quantity::PI));
    }
    quantity::added_to(Rad(phi), elementary_arc::arctangent_in(l.a, l.b))
}

// The new node and perihelion, where the new inclination's sine s is not zero. Refusals: 7.
fn node_and_perihelion(
    s: f64,
    node: Result<Rad, Refusal>,
    perih: Rad,
    n: Folded,
    precession: EclPrecession,
) -> Result<(f64, f64), Refusal>
    ensures { shown_two result ≡ node_and_perihelion s (shown node) perih n precession }
{
    quantity::both(
        node,
        quantity::added_to(
            perih,
            elementary_arc::arcsine_in(-precession.sine * n.sine() / s),
        ),
    )
}

// The elements with their new inclination i. Refusals: 6 where its sine is zero; then 7.
fn orbit_from(
    i: Rad,
    node: Result<Rad, Refusal>,
    perih: Rad,
    n: Folded,
    precession: EclPrecession,
) -> Result<(f64, f64, f64), Refusal>
    ensures { shown_three result ≡ orbit_from i (shown node) perih n precession }
{
    let s = elementary::fold(i).sine();
    if s == 0.0 {
        return Err(Refusal::Zero);
    }
    let (x, w) = node_and_perihelion(s, node, perih, n, precession)?;
    Ok((i.0, w, x))
}

// The elements of arguments that are not refused. Refusals: 7; 6; 7.
fn orbit_in(
    inc: Rad,
    perih: Rad,
    node: Rad,
    precession: EclPrecession,
) -> Result<(f64, f64, f64), Refusal>
    ensures { shown_three result ≡ orbit_in inc perih node precession }
{
    let n = elementary::fold(Rad(node.0 - precession.pi.0));
    let l = lean(elementary::fold(inc), n, precession);
    let i = new_inclination(inc, l, precession)?;
    orbit_from(i, new_node(inc, l, precession), perih, n, precession)
}

// Refusals of three angles and two days: 1; 2; 3.
fn orbit_refusal(inc: Rad, perih: Rad, node: Rad, day1: f64, day2: f64) -> Result<(), Refusal>
    ensures { checked result ≡ orbit_refusal inc perih node day1 day2 }
{
    quantity::lower(
        quantity::lower(
            quantity::angle_refusal(inc),
            quantity::lower(
                quantity::angle_refusal(perih),
                quantity::angle_refusal(node),
            ),
        ),
        precess_angles::days_refusal(day1, day2),
    )
}

// Inclination, argument of perihelion and ascending node reduced from the first day to the second.
// Refusals: 1; 2; 3; then 7 for the new inclination; 6 where its sine is zero; 7 for the perihelion.
pub fn precess_orb_elements(
    old_inc: Rad,
    old_arg_perih: Rad,
    old_long_ascend_node: Rad,
    day1: f64,
    day2: f64,
) -> Result<(f64, f64, f64), Refusal>
    ensures { shown_three result ≡ precess_orb_elements_rule old_inc old_arg_perih old_long_ascend_node day1 day2 }
{
    orbit_refusal(old_inc, old_arg_perih, old_long_ascend_node, day1, day2)?;
    orbit_in(
        old_inc,
        old_arg_perih,
        old_long_ascend_node,
        ecl_precession(day1, day2),
    )
}
