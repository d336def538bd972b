// The true heading of a star, from its record, the day of its place, the day of the sight and the observer's place; and that of a mark
// beside it. A heading is in degrees from north, clockwise. Promised: the rules of the batch, of sidereal time and of coords, one after the
// other, bit for bit, and the turn from south to north, or the first refusal. Every heading is from 0 to below 360.
#![tactic(auto)]

ghost use Rattle.std.specs.Prelude.{◌≡◌};
ghost use Rattle.quantity.specs.rules.Answer.{checked, shown_two, shown_three, shown};
ghost use Rattle.chain.specs.rules.Obliquity.{mean_obliquity_of};
ghost use Rattle.batch.specs.rules.Star.{star_under};
ghost use Rattle.sidereal.specs.rules.Mean.{mean_of};
ghost use Rattle.sidereal.specs.rules.Apparent.{apparent_from};
ghost use Rattle.heading.specs.rules.Sky.{northward, bearings, sky_from, sky_in, sky_under};
ghost use Rattle.heading.specs.rules.Heading.{heading_refusal, heading_under, heading_rule};
ghost use Rattle.heading.specs.rules.Mark.{mark_in, mark_refusal, mark_heading_rule};

use chain::Night;
use edition::Edition;
use helpers::circle;
use list::Star;
use nutation_args::Nutations;
use quantity::{Deg, Rad, Refusal};

// ---- a star in the sky

// The heading of an azimuth, which is counted from south.
fn northward(az: Deg) -> Deg
    ensures { result ≡ northward az }
{
    circle::on_circle(Deg(az.0 + 180.0))
}

// Heading, azimuth and altitude in degrees, from azimuth and altitude.
fn bearings(az: Rad, alt: Rad) -> Result<(f64, f64, f64), Refusal>
    ensures { shown_three result ≡ bearings az alt }
{
    let az_degrees = units::to_degrees(az);
    let alt_degrees = units::to_degrees(alt);
    let heading = northward(az_degrees);
    Ok((heading.0, az_degrees.0, alt_degrees.0))
}

// The same from the azimuth and what the altitude is worked out of. Refusals: 1; 3; then 7.
fn sky_from(az: Rad, hour_angle: Rad, dec: Rad, lat: Rad) -> Result<(f64, f64, f64), Refusal>
    ensures { shown_three result ≡ sky_from az hour_angle dec lat }
{
    let alt = coords::alt_frm_eq(hour_angle, dec, lat)?;
    bearings(az, alt)
}

// Heading, azimuth and altitude in degrees, from the hour angle, the declination and the observer's latitude. Refusals: 1; 3; 4; then 14;
// then 7.
pub fn sky_in(hour_angle: Rad, dec: Rad, lat: Rad) -> Result<(f64, f64, f64), Refusal>
    ensures { shown_three result ≡ sky_in hour_angle dec lat }
{
    let az = coords::az_frm_eq(hour_angle, dec, lat)?;
    sky_from(az, hour_angle, dec, lat)
}

// The same from the sidereal time at Greenwich, the star's place, and the observer's. Refusals: 1; 3; then those of `sky_in`.
pub fn sky_under(
    sidereal: Rad,
    asc: Rad,
    dec: Rad,
    long: Rad,
    lat: Rad,
) -> Result<(f64, f64, f64), Refusal>
    ensures { shown_three result ≡ sky_under sidereal asc dec long lat }
{
    let h = coords::hr_angl_frm_observer_long(sidereal, long, asc)?;
    sky_in(h, dec, lat)
}

// ---- a star by its record

// A star's place under a night after so many years, as the batch has it. Refusals: 10; 9; 3; then 14, 7 and 4.
fn star_under(star: Star, night: Night, years: f64) -> Result<(f64, f64), Refusal>
    ensures { shown_two result ≡ star_under star night years }
{
    let dec = star_place::dec_of(star, years);
    star_store::star_refusal(star, dec)?;
    chain::place_under(star_place::asc_of(star, years), dec, night)
}

// Apparent sidereal time on a day of which nutation is known.
fn sidereal_with(n: Nutations, day: f64) -> Rad
    ensures { result ≡ apparent_from (mean_of day) n (mean_obliquity_of day) }
{
    sidereal::apparent_from(sidereal::mean_on(day), n, chain::mean_obliquity_on(day))
}

// Refusals of the days and the observer's place: 1; 2; 3.
fn heading_refusal(day1: f64, day2: f64, long: Rad, lat: Rad) -> Result<(), Refusal>
    ensures { checked result ≡ heading_refusal day1 day2 long lat }
{
    quantity::lower(
        precess_angles::days_refusal(day1, day2),
        quantity::lower(
            quantity::angle_refusal(long),
            quantity::latitude_refusal(lat),
        ),
    )
}

// A star's heading, azimuth and altitude, of days and a place that are not refused. Nutation is worked out once, with the night.
fn heading_in(
    edition: Edition,
    star: Star,
    day1: f64,
    day2: f64,
    long: Rad,
    lat: Rad,
) -> Result<(f64, f64, f64), Refusal>
    ensures { shown_three result ≡ heading_under edition star day1 day2 long lat }
{
    let night = chain::night_of(edition, day1, day2);
    let nutations = night.nutation;
    let (a, d) = star_under(star, night, star_place::years_between(day1, day2))?;
    sky_under(sidereal_with(nutations, day2), Rad(a), Rad(d), long, lat)
}

// A star's true heading, its azimuth, from south and west positive, and its altitude, in degrees. Given: its record, in milliarcseconds,
// the day of the record's place, the day of the sight, and the observer's longitude, west positive, and latitude. Refusals: 1; 2; 3; then
// 9 for a record out of range, 3 for a shifted declination past HALF in size, 14, 7 and 4 of its place; then those of `sky_under`.
pub fn heading(
    edition: Edition,
    asc: u32,
    dec: i32,
    asc_rate: i32,
    dec_rate: i32,
    day1: f64,
    day2: f64,
    long: Rad,
    lat: Rad,
) -> Result<(f64, f64, f64), Refusal>
    ensures { shown_three result ≡ heading_rule edition asc dec asc_rate dec_rate day1 day2 long lat }
{
    heading_refusal(day1, day2, long, lat)?;
    let star = Star {
        number: 1,
        asc,
        dec,
        asc_rate,
        dec_rate,
    };
    heading_in(edition, star, day1, day2, long, lat)
}

// ---- a mark

// Refusals of a heading and two readings: 1; 3.
fn mark_refusal(heading: Deg, star_reading: Deg, mark_reading: Deg) -> Result<(), Refusal>
    ensures { checked result ≡ mark_refusal heading star_reading mark_reading }
{
    quantity::lower(
        circle::circle_refusal(heading),
        quantity::lower(
            circle::circle_refusal(star_reading),
            circle::circle_refusal(mark_reading),
        ),
    )
}

// A mark's heading, of arguments that are not refused.
fn mark_in(heading: Deg, star_reading: Deg, mark_reading: Deg) -> Deg
    ensures { result ≡ mark_in heading star_reading mark_reading }
{
    circle::on_circle(Deg(heading.0 + (mark_reading.0 - star_reading.0)))
}

// A mark's true heading, from the star's and from what a circle reads at the star and at the mark, clockwise, in degrees. Refusals: 1; 3
// where one is below 0, or not below 360.
pub fn mark_heading(heading: Deg, star_reading: Deg, mark_reading: Deg) -> Result<Deg, Refusal>
    ensures { shown result ≡ mark_heading_rule heading star_reading mark_reading }
{
    mark_refusal(heading, star_reading, mark_reading)?;
    Ok(mark_in(heading, star_reading, mark_reading))
}
