// Precession of equatorial places (section 4): annual, and from one day to another by the angles of precess_angles. Angles are in
// radians. Promised: bit for bit the Rust's formulas in the crate's edition and Meeus's in the published one, alone or two places at
// once, or the refusal. Precession of the ecliptic, its places and orbits, stands in precess_ecl.
#![tactic(auto)]

ghost use Rattle.std.specs.Prelude.{◌≡◌};
ghost use Rattle.quantity.specs.rules.Answer.{checked, shown_two};
ghost use Rattle.precess.specs.rules.Annual.{annual_m, annual_n, annual_at, annual_in, annual_refusal, annual_precess_rule};
ghost use Rattle.precess.specs.rules.Equatorial.{arcs_of, precessed_from, precessed_in, precess_eq_coords_rule, precess_eq_coords_FK5_rule};
ghost use Rattle.precess.specs.rules.Two.{precessed_two_from, precessed_two};

use edition::Edition;
use elementary::{Direction, Folded};
use helpers::{angle, time};
use precess_angles::EqPrecession;
use quantity::{Deg, EqPoint, Places, Rad, Refusal};

// ---- annual precession (Meeus, chapter 21)

// m at a century.
fn annual_m(c: f64) -> Deg
    ensures { result ≡ annual_m c }
{
    Deg(15.0 * (3.07496 / 3600.0) + 15.0 * (0.00186 / 3600.0) * c)
}

// n at a century.
fn annual_n(c: f64) -> Deg
    ensures { result ≡ annual_n c }
{
    Deg(15.0 * (1.33621 / 3600.0) - 15.0 * (0.00057 / 3600.0) * c)
}

// The yearly change of a place, from m and n.
fn annual_at(m: Rad, n: Rad, a: Folded, d: Folded) -> Result<(f64, f64), Refusal>
    ensures { shown_two result ≡ annual_at m n a d }
{
    Ok((m.0 + n.0 * a.sine() * d.tangent(), n.0 * a.cosine()))
}

// The yearly change of arguments that are not refused.
fn annual_in(asc: Rad, dec: Rad, day: f64) -> Result<(f64, f64), Refusal>
    ensures { shown_two result ≡ annual_in asc dec day }
{
    let c = time::century(day);
    annual_at(
        angle::radians(annual_m(c)),
        angle::radians(annual_n(c)),
        elementary::fold(asc),
        elementary::fold(dec),
    )
}

// Refusals of a right ascension, a declination and a day: 1; 2; 3; 4.
fn annual_refusal(asc: Rad, dec: Rad, day: f64) -> Result<(), Refusal>
    ensures { checked result ≡ annual_refusal asc dec day }
{
    quantity::lower(
        quantity::lower(quantity::angle_refusal(asc), quantity::steep_refusal(dec)),
        quantity::day_refusal(day),
    )
}

// The annual precession in right ascension and declination towards a day. Refusals: 1; 2; 3; 4 past 1.57 for declination.
pub fn annual_precess(asc: Rad, dec: Rad, day: f64) -> Result<(f64, f64), Refusal>
    ensures { shown_two result ≡ annual_precess_rule asc dec day }
{
    annual_refusal(asc, dec, day)?;
    annual_in(asc, dec, day)
}

// ---- equatorial coordinates (Meeus 21.4)

// What the arcs of a place are taken of: its right ascension is the arctangent of (up, across), its declination the arcsine of height.
#[derive(Clone, Copy)]
struct Arcs {
    up: f64,
    across: f64,
    height: f64,
}

// The arcs of a place after precession, from the direction of its right ascension with xi added and its declination.
fn arcs_of(d: Direction, precession: EqPrecession) -> Arcs
    ensures { result ≡ arcs_of d precession }
{
    let sa = d.sin_asc;
    let ca = d.cos_asc;
    let sd = d.sin_dec;
    let cd = d.cos_dec;
    Arcs {
        up: cd * sa,
        across: precession.cosine * cd * ca - precession.sine * sd,
        height: precession.sine * cd * ca + precession.cosine * sd,
    }
}

// A place after precession. Refusals: 14; 7.
fn precessed_from(d: Direction, precession: EqPrecession) -> Result<(f64, f64), Refusal>
    ensures { shown_two result ≡ precessed_from d precession }
{
    let zeta = precession.zeta;
    let a = arcs_of(d, precession);
    quantity::both(
        quantity::plus(elementary_arc::arctangent_in(a.up, a.across), zeta),
        elementary_arc::arcsine_in(a.height),
    )
}

// A place under a night's precession, of arguments that are not refused. Refusals: 14; 7.
pub fn precessed_in(asc: Rad, dec: Rad, precession: EqPrecession) -> Result<(f64, f64), Refusal>
    ensures { shown_two result ≡ precessed_in asc dec precession }
{
    let p = EqPoint {
        asc: asc.0 + precession.xi.0,
        dec: dec.0,
    };
    precessed_from(elementary::toward(p), precession)
}

// Two places after precession, side by side. Refusals of each: 14; 7.
fn precessed_two_from(d: Direction, e: Direction, precession: EqPrecession) -> Places
    ensures { result ≡ precessed_two_from d e precession }
{
    let zeta = precession.zeta;
    let a = arcs_of(d, precession);
    let b = arcs_of(e, precession);
    let root = elementary_arc::arcsine_root(a.height);
    let root2 = elementary_arc::arcsine_root(b.height);
    let p = precess_arcs::arcs_two(
        a.up, a.across, a.height, root, b.up, b.across, b.height, root2,
    );
    Places {
        first_asc: p.first_asc + zeta.0,
        second_asc: p.second_asc + zeta.0,
        first_dec: p.first_dec,
        second_dec: p.second_dec,
        first_check: precess_arcs::arcs_refusal(a.up, a.across, a.height),
        second_check: precess_arcs::arcs_refusal(b.up, b.across, b.height),
    }
}

// Two places under a night's precession, side by side, of arguments that are not refused. Refusals of each: 14; 7.
pub fn precessed_two(
    first_asc: Rad,
    first_dec: Rad,
    second_asc: Rad,
    second_dec: Rad,
    precession: EqPrecession,
) -> Places
    ensures { result ≡ precessed_two first_asc first_dec second_asc second_dec precession }
{
    let p = EqPoint {
        asc: first_asc.0 + precession.xi.0,
        dec: first_dec.0,
    };
    let q = EqPoint {
        asc: second_asc.0 + precession.xi.0,
        dec: second_dec.0,
    };
    let both = elementary::towards(p, q);
    let d = both.first;
    let e = both.second;
    precessed_two_from(d, e, precession)
}

// Equatorial coordinates reduced from the first day to the second. Refusals: 1; 2; 3; then 14; 7.
pub fn precess_eq_coords(
    edition: Edition,
    old_asc: Rad,
    old_dec: Rad,
    day1: f64,
    day2: f64,
) -> Result<(f64, f64), Refusal>
    ensures { shown_two result ≡ precess_eq_coords_rule edition old_asc old_dec day1 day2 }
{
    precess_angles::place_refusal(old_asc, old_dec, day1, day2)?;
    precessed_in(
        old_asc,
        old_dec,
        precess_angles::eq_precession(edition, day1, day2),
    )
}

// Equatorial coordinates of the FK4 system reduced from the first day to the second. Refusals: 1; 2; 3; then 14; 7.
pub fn precess_eq_coords_FK5(
    edition: Edition,
    old_asc: Rad,
    old_dec: Rad,
    day1: f64,
    day2: f64,
) -> Result<(f64, f64), Refusal>
    ensures { shown_two result ≡ precess_eq_coords_FK5_rule edition old_asc old_dec day1 day2 }
{
    precess_angles::place_refusal(old_asc, old_dec, day1, day2)?;
    precessed_in(
        old_asc,
        old_dec,
        precess_angles::fk4_precession(edition, day1, day2),
    )
}
