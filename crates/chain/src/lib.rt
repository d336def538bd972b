// The chain (section 7): a star's place from one day to another by precession, nutation and aberration. Angles are in radians. Promised:
// the steps' rules one after the other, bit for bit, alone or two stars at once, or the first refusal. What the two days fix is a night,
// worked out once for a whole list.
#![tactic(auto)]

ghost use Rattle.std.specs.Prelude.{◌≡◌};
ghost use Rattle.quantity.specs.rules.Answer.{answered, checked, checked_by, shown_by, shown_two, shown_two_by, unless, lanes_by};
ghost use Rattle.precess_angles.specs.rules.Days.{place_refusal};
ghost use Rattle.chain.specs.rules.Obliquity.{mean_obliquity, mean_obliquity_of, true_obliquity};
ghost use Rattle.chain.specs.rules.Chain.{point_refusal, angles_refusal, chain_rule};
ghost use Rattle.chain.specs.rules.Night.{night_from, night_of, moved, moved_under, point_under_by, place_under_by};
ghost use Rattle.chain.specs.rules.Two.{next_refusal, two_places_under_by};

use aberr_args::Velocity;
use edition::Edition;
use elementary::Direction;
use helpers::{angle, time};
use nutation_args::Nutations;
use precess_angles::EqPrecession;
use quantity::{Deg, EqPoint, Numbered, Places, Rad, Refusal, Shift};

// ---- the obliquity

// The mean obliquity at a century (Meeus 22.2).
fn mean_obliquity(c: f64) -> Deg
    ensures { result ≡ mean_obliquity c }
{
    Deg(
        84381.448 / 3600.0
            - c * (46.8150 / 3600.0 + c * (0.00059 / 3600.0 - c * (0.001813 / 3600.0))),
    )
}

// The mean obliquity on a day.
pub fn mean_obliquity_on(day: f64) -> Rad
    ensures { result ≡ mean_obliquity_of day }
{
    angle::radians(mean_obliquity(time::century(day)))
}

// The true obliquity, from the mean one and nutation in obliquity.
pub fn true_obliquity(mean: Rad, nut_in_oblq: Rad) -> Rad
    ensures { result ≡ true_obliquity mean nut_in_oblq }
{
    Rad(mean.0 + nut_in_oblq.0)
}

// ---- the night

// Constants derived from two dates: precession, nutation, the sine and cosine of the true obliquity, the Earth's velocity, and the check
// of the three angles that nutation goes by. Its refusals are the table's, or any that have numbers; the number 0 refuses nothing.
#[derive(Clone, Copy)]
pub struct Night<E = Refusal> {
    pub precession: EqPrecession,
    pub nutation: Nutations,
    pub sin_oblq: f64,
    pub cos_oblq: f64,
    pub velocity: Velocity,
    pub check: Result<(), E>,
}

// Refusals of nutation in longitude and in obliquity and of the obliquity: 1; 3.
fn angles_refusal(n: Nutations, oblq: Rad) -> Result<(), Refusal>
    ensures { checked result ≡ angles_refusal n oblq }
{
    let in_long = n.long;
    let in_oblq = n.oblq;
    quantity::lower(
        quantity::angle_refusal(in_long),
        quantity::lower(
            quantity::angle_refusal(in_oblq),
            quantity::angle_refusal(oblq),
        ),
    )
}

// A night from its parts.
fn night_from(precession: EqPrecession, n: Nutations, oblq: Rad, v: Velocity) -> Night
    ensures { result ≡ night_from precession n oblq v }
{
    let e = elementary::sin_cos_of(oblq);
    Night {
        precession,
        nutation: n,
        sin_oblq: e.sine,
        cos_oblq: e.cosine,
        velocity: v,
        check: angles_refusal(n, oblq),
    }
}

// The night of two days. The editions differ in precession alone.
pub fn night_of(edition: Edition, day1: f64, day2: f64) -> Night
    ensures { result ≡ night_of edition day1 day2 }
{
    let n = nutation_table::nutation_on(day2);
    let in_oblq = n.oblq;
    night_from(
        precess_angles::eq_precession(edition, day1, day2),
        n,
        true_obliquity(mean_obliquity_on(day2), in_oblq),
        aberr_table::velocity_on(day2),
    )
}

// ---- a star under a night

// Refusals of a point whose declination goes into a tangent: 1; 3; 4. Most points are within both limits.
fn point_refusal(p: EqPoint) -> Result<(), Refusal>
    ensures { checked result ≡ point_refusal p }
{
    if double::size(p.asc) <= 64.0 {
        if double::size(p.dec) <= 1.57 {
            return Ok(());
        }
    }
    quantity::lower(
        quantity::angle_refusal(Rad(p.asc)),
        quantity::steep_refusal(Rad(p.dec)),
    )
}

// A precessed point with its nutation and its aberration added, in that order.
fn moved(p: EqPoint, n: Shift, a: Shift) -> EqPoint
    ensures { result ≡ moved p n a }
{
    EqPoint {
        asc: (p.asc + n.asc.0) + a.asc.0,
        dec: (p.dec + n.dec.0) + a.dec.0,
    }
}

// A precessed point moved under a night, from its direction.
fn moved_under<E: Numbered>(p: EqPoint, d: Direction, night: Night<E>) -> EqPoint
    ensures { result ≡ moved_under p d night }
{
    let nutations = night.nutation;
    let velocity = night.velocity;
    moved(
        p,
        nutation::nutation_at(d, nutations, night.sin_oblq, night.cos_oblq),
        aberr::aberr_at(d, velocity),
    )
}

// Converts a check whose refusals are the table's to one whose refusals are a night's; the number stays.
fn as_in_night<E: Numbered>(check: Result<(), Refusal>) -> Result<(), E>
    ensures { checked_by E.numbered result ≡ checked check }
{
    match check {
        Ok(()) => Ok(()),
        Err(refusal) => Err(E::of(refusal)),
    }
}

// Passes a check on; a refusal with the number 0 becomes `Ok`.
fn none_at_nought<E: Numbered>(check: Result<(), E>) -> Result<(), E>
    ensures { shown_by E.numbered result ≡ unless (checked_by E.numbered check) (answered tt) }
{
    match check {
        Ok(()) => Ok(()),
        Err(refusal) => {
            if refusal.numbered() == 0 {
                Ok(())
            } else {
                Err(refusal)
            }
        }
    }
}

// A precessed point under a night. Refusals: the lowest of 1, 3, 4 and the night's.
fn point_under<E: Numbered>(p: EqPoint, night: Night<E>) -> Result<(f64, f64), E>
    ensures { shown_two_by E.numbered result ≡ point_under_by E.numbered p night }
{
    none_at_nought(quantity::lower(as_in_night(point_refusal(p)), night.check))?;
    let m = moved_under(p, elementary::toward(p), night);
    Ok((m.asc, m.dec))
}

// A star's place under a night, of a place that is not refused. Refusals: those of its precession; then the lowest of 1, 3, 4 and the
// night's.
pub fn place_under<E: Numbered>(asc: Rad, dec: Rad, night: Night<E>) -> Result<(f64, f64), E>
    ensures { shown_two_by E.numbered result ≡ place_under_by E.numbered asc dec night }
{
    let precession = night.precession;
    match precess::precessed_in(asc, dec, precession) {
        Ok((a, d)) => point_under(EqPoint { asc: a, dec: d }, night),
        Err(refusal) => Err(E::of(refusal)),
    }
}

// ---- two stars side by side under a night: both are worked out to the end, whatever is refused

// A star's refusal: its place's, or else that of its precessed point or of the night.
fn next_refusal<E: Numbered>(
    place: Result<(), Refusal>,
    p: EqPoint,
    night: Result<(), E>,
) -> Result<(), E>
    ensures { checked_by E.numbered result
        ≡ next_refusal (checked place) p (checked_by E.numbered night) }
{
    match place {
        Ok(()) => quantity::lower(as_in_night(point_refusal(p)), night),
        Err(refusal) => Err(E::of(refusal)),
    }
}

// Two stars' places under a night, side by side, of places that are not refused. Refusals of each: those of its precession; then the
// lowest of 1, 3, 4 and the night's.
pub fn two_places_under<E: Numbered>(
    first_asc: Rad,
    first_dec: Rad,
    second_asc: Rad,
    second_dec: Rad,
    night: Night<E>,
) -> Places<E>
    ensures { lanes_by E.numbered result
        ≡ two_places_under_by E.numbered first_asc first_dec second_asc second_dec night }
{
    let precession = night.precession;
    let night_check = night.check;
    let t = precess::precessed_two(first_asc, first_dec, second_asc, second_dec, precession);
    let p = EqPoint {
        asc: t.first_asc,
        dec: t.first_dec,
    };
    let q = EqPoint {
        asc: t.second_asc,
        dec: t.second_dec,
    };
    let first_check = next_refusal(t.first_check, p, night_check);
    let second_check = next_refusal(t.second_check, q, night_check);
    let both = elementary::towards(p, q);
    let d = both.first;
    let e = both.second;
    let m = moved_under(p, d, night);
    let n = moved_under(q, e, night);
    Places {
        first_asc: m.asc,
        second_asc: n.asc,
        first_dec: m.dec,
        second_dec: n.dec,
        first_check,
        second_check,
    }
}

// ---- the chain

// A star's place on the second day from its place on the first. Refusals: 1; 2; 3; then 14, 7, and 4 for the precessed declination.
pub fn chain(
    edition: Edition,
    asc: Rad,
    dec: Rad,
    day1: f64,
    day2: f64,
) -> Result<(f64, f64), Refusal>
    ensures { shown_two result ≡ chain_rule edition asc dec day1 day2 }
{
    precess_angles::place_refusal(asc, dec, day1, day2)?;
    place_under(asc, dec, night_of(edition, day1, day2))
}
