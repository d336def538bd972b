// A star's place (section 7): its right ascension and its declination in radians, from its record's milliarcseconds, each shifted by its
// yearly change. Promised: the written operations on every record; on days that are not refused, the right ascension of a star in
// range is never refused, and its declination by 3 alone.
#![tactic(auto)]

ghost use Rattle.std.specs.Prelude.{◌≡◌};
ghost use Rattle.star_place.specs.rules.Place.{years_between, angle_of, shifted, asc_of, dec_of};

use helpers::angle;
use list::Star;
use quantity::Rad;

// The years from the first day to the second, which a night has once.
pub fn years_between(day1: f64, day2: f64) -> f64
    ensures { result ≡ years_between day1 day2 }
{
    (day2 - day1) / 365.25
}

// A count of milliarcseconds in radians.
fn angle_of(count: i32) -> Rad
    ensures { result ≡ angle_of count }
{
    angle::radians(units::degrees_of_signed(count))
}

// A coordinate plus its yearly change times the years.
fn shifted(coordinate: Rad, change: Rad, years: f64) -> Rad
    ensures { result ≡ shifted coordinate change years }
{
    Rad(coordinate.0 + change.0 * years)
}

// A star's right ascension after so many years.
pub fn asc_of(star: Star, years: f64) -> Rad
    ensures { result ≡ asc_of star years }
{
    let asc = star.asc;
    let rate = star.asc_rate;
    shifted(
        angle::radians(units::degrees_of(asc)),
        angle_of(rate),
        years,
    )
}

// A star's declination after so many years.
pub fn dec_of(star: Star, years: f64) -> Rad
    ensures { result ≡ dec_of star years }
{
    let dec = star.dec;
    let rate = star.dec_rate;
    shifted(angle_of(dec), angle_of(rate), years)
}
