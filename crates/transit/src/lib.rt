// Rise, culmination and set (document 02, request (v); Meeus, chapter 15, before interpolation), and an observer's plan by the clock. Angles
// are in radians, a longitude is positive west of Greenwich, and a time is a fraction of the sidereal day since 0h, in a plan one of the
// clock's day. Promised: bit for bit the request's formulas; 15 exactly where the star never rises, 16 exactly where it never sets.
#![tactic(auto)]

ghost use Rattle.std.specs.Prelude.{◌≡◌};
ghost use Rattle.quantity.specs.rules.Answer.{checked, shown, shown_three};
ghost use Rattle.transit.specs.rules.Arc.{arc_cosine, arc_in};
ghost use Rattle.transit.specs.rules.RiseCulmSet.{within_a_day, culmination_of, fractions, rise_culm_set_in};
ghost use Rattle.transit.specs.rules.RiseCulmSet.{observer_refusal, rise_culm_set_refusal, rise_culm_set_rule};
ghost use Rattle.transit.specs.rules.Clock.{clock_of, by_clock, shown_plan, again_in};
ghost use Rattle.transit.specs.rules.Observer.{plan_refusal, planned_of, site_in_degrees, observer_at, observer_in_degrees};

use helpers::angle;
use quantity::{Deg, EqPoint, GeographPoint, HALF, Rad, Refusal};

// A full turn, 2·PI.
const TURN: f64 = 6.283185307179586;

// ---- the arc from rise to culmination, and from there to set

// The arc's cosine, from the declination, the observer's latitude and the standard altitude.
fn arc_cosine(dec: Rad, lat: Rad, alt: Rad) -> f64
    ensures { result ≡ arc_cosine dec lat alt }
{
    let h = elementary::fold(alt);
    let d = elementary::sin_cos_of(dec);
    let p = elementary::sin_cos_of(lat);
    (h.sine() - p.sine * d.sine) / (p.cosine * d.cosine)
}

// The arc from its cosine. Refusals: 15 above 1, where the star never rises; 16 below −1, where it never sets.
fn arc_in(cosine: f64) -> Result<Rad, Refusal>
    ensures { shown result ≡ arc_in cosine }
{
    if 1.0 < cosine {
        return Err(Refusal::NeverRises);
    }
    if cosine < -1.0 {
        return Err(Refusal::NeverSets);
    }
    quantity::taken_from(Rad(HALF), elementary_arc::arcsine_in(cosine))
}

// ---- the three fractions

// Days folded into one.
fn within_a_day(x: f64) -> f64
    ensures { result ≡ within_a_day x }
{
    angle::limited(x, 1.0)
}

// The culmination before folding.
fn culmination_of(asc: Rad, sidereal: Rad, long: Rad) -> f64
    ensures { result ≡ culmination_of asc sidereal long }
{
    (asc.0 + long.0 - sidereal.0) / TURN
}

// Rise, culmination and set, from the culmination before folding and the arc.
fn fractions(culmination: f64, arc: Rad) -> Result<(f64, f64, f64), Refusal>
    ensures { shown_three result ≡ fractions culmination arc }
{
    let part = arc.0 / TURN;
    Ok((
        within_a_day(culmination - part),
        within_a_day(culmination),
        within_a_day(culmination + part),
    ))
}

// Rise, culmination and set of arguments that are not refused.
fn rise_culm_set_in(
    p: EqPoint,
    sidereal: Rad,
    site: GeographPoint,
    alt: Rad,
) -> Result<(f64, f64, f64), Refusal>
    ensures { shown_three result ≡ rise_culm_set_in p sidereal site alt }
{
    let arc = arc_in(arc_cosine(Rad(p.dec), Rad(site.lat), alt))?;
    fractions(culmination_of(Rad(p.asc), sidereal, Rad(site.long)), arc)
}

// Refusals of what belongs to the observer and his night: 1; 3; 4.
fn observer_refusal(sidereal: Rad, site: GeographPoint, alt: Rad) -> Result<(), Refusal>
    ensures { checked result ≡ observer_refusal sidereal site alt }
{
    quantity::lower(
        quantity::lower(
            quantity::angle_refusal(Rad(site.long)),
            quantity::steep_refusal(Rad(site.lat)),
        ),
        quantity::lower(
            quantity::angle_refusal(sidereal),
            quantity::latitude_refusal(alt),
        ),
    )
}

// Refusals of all arguments: 1; 3; 4.
fn rise_culm_set_refusal(
    p: EqPoint,
    sidereal: Rad,
    site: GeographPoint,
    alt: Rad,
) -> Result<(), Refusal>
    ensures { checked result ≡ rise_culm_set_refusal p sidereal site alt }
{
    quantity::lower(
        quantity::lower(
            quantity::angle_refusal(Rad(p.asc)),
            quantity::steep_refusal(Rad(p.dec)),
        ),
        observer_refusal(sidereal, site, alt),
    )
}

// Rise, culmination and set of a star as fractions of the sidereal day since 0h, in this order. Given: its point, the sidereal time at
// Greenwich at 0h, the observer's site and the standard altitude. Refusals: 1; 3; 4 past 1.57 for declination and the observer's
// latitude; then 15 where the star never rises and 16 where it never sets.
pub fn rise_culm_set(
    eq_point: EqPoint,
    greenw_sidr: Rad,
    geograph_point: GeographPoint,
    alt: Rad,
) -> Result<(f64, f64, f64), Refusal>
    ensures { shown_three result ≡ rise_culm_set_rule eq_point greenw_sidr geograph_point alt }
{
    rise_culm_set_refusal(eq_point, greenw_sidr, geograph_point, alt)?;
    rise_culm_set_in(eq_point, greenw_sidr, geograph_point, alt)
}

// ---- by the clock

// Sidereal days in a day by the clock.
const SIDEREAL_DAYS: f64 = 1.00273790935;

// A sidereal day, in days by the clock.
const SIDEREAL_DAY: f64 = 1.0 / 1.00273790935;

// The clock's time of a fraction of the sidereal day since 0h.
fn clock_of(fraction: f64) -> f64
    ensures { result ≡ clock_of fraction }
{
    fraction / SIDEREAL_DAYS
}

// Three times by the clock.
fn by_clock(a: Result<(f64, f64, f64), Refusal>) -> Result<(f64, f64, f64), Refusal>
    ensures { shown_three result ≡ by_clock (shown_three a) }
{
    let (rise, culmination, set) = a?;
    Ok((clock_of(rise), clock_of(culmination), clock_of(set)))
}

// The clock's time of the culmination after that of a plan, a sidereal day later: below 1.0 where the star culminates twice on the day.
// 1.0 where there is no plan.
pub fn again(a: Result<(f64, f64, f64), u8>) -> f64
    ensures { result ≡ again_in (shown_plan a) }
{
    match a {
        Ok((_, culmination, _)) => culmination + SIDEREAL_DAY,
        Err(_) => 1.0,
    }
}

// ---- an observer's plan

// An observer and his night: the sidereal time at Greenwich at 0h, his site, and the standard altitude.
#[derive(Clone, Copy)]
pub struct Observer {
    pub sidereal: Rad,
    pub site: GeographPoint,
    pub alt: Rad,
}

// Refusals of an observer, whatever the star: 1; 3; 4.
pub fn plan_refusal(o: Observer) -> Result<(), Refusal>
    ensures { checked result ≡ plan_refusal o }
{
    let sidereal = o.sidereal;
    let site = o.site;
    let alt = o.alt;
    observer_refusal(sidereal, site, alt)
}

// The rise, culmination and set by the clock of a star that was given a status and two angles. Refusals: the status; then those of
// `rise_culm_set`. They are numbers here, since a status is any byte that a caller's memory holds.
pub fn planned(status: u8, asc: Rad, dec: Rad, o: Observer) -> Result<(f64, f64, f64), u8>
    ensures { shown_plan result ≡ planned_of status asc dec o }
{
    if status != 0 {
        return Err(status);
    }
    let sidereal = o.sidereal;
    let site = o.site;
    let alt = o.alt;
    let point = EqPoint {
        asc: asc.0,
        dec: dec.0,
    };
    by_clock(rise_culm_set(point, sidereal, site, alt)).map_err(|refusal| refusal.number())
}

// A site from its longitude, west positive, and latitude in degrees.
fn site_in_degrees(long: Deg, lat: Deg) -> GeographPoint
    ensures { result ≡ site_in_degrees long lat }
{
    GeographPoint {
        long: angle::radians(long).0,
        lat: angle::radians(lat).0,
    }
}

// An observer from the sidereal time, and from degrees.
pub fn observer_at(sidereal: Rad, long: Deg, lat: Deg, alt: Deg) -> Observer
    ensures { result ≡ observer_at sidereal long lat alt }
{
    let site = site_in_degrees(long, lat);
    let height = angle::radians(alt);
    Observer {
        sidereal,
        site,
        alt: height,
    }
}

// An observer from degrees, the sidereal time too.
pub fn observer_in_degrees(sidereal: Deg, long: Deg, lat: Deg, alt: Deg) -> Observer
    ensures { result ≡ observer_in_degrees sidereal long lat alt }
{
    observer_at(angle::radians(sidereal), long, lat, alt)
}
