// A sight: the true heading of a star, and of a mark beside it, and the mean of a mark's headings, in degrees from north, clockwise.
ghost use Rattle.quantity.specs.rules.Angle.{deg, rad};
ghost use Rattle.brundelak_handed.specs.rules.Boundary.{Handed, HandedThree, number_of_degrees};
ghost use Rattle.edition.specs.declared.Edition.TheVariants.{Crate, Published};
ghost use Rattle.heading.specs.rules.Heading.{heading_rule};
ghost use Rattle.heading.specs.rules.Mark.{mark_heading_rule};
ghost use Rattle.heading_mean.specs.rules.Mean.{mean_heading_rule};
ghost use Rattle.brundelak.specs.rules.Sights.{HandedMean};

use crate::residuals::numbers;
use brundelak_handed::{hand_degrees, hand_three};
use edition::Edition;
use quantity::{Deg, Rad};

// A star's heading, azimuth and altitude, from its record. Refusals: 1; 2; 3; then 9; 3; 14; 7; 4; then 3; 4; 14; 7.
#[unsafe(no_mangle)]
pub extern "C" fn brundelak_heading(
    asc: u32,
    dec: i32,
    asc_rate: i32,
    dec_rate: i32,
    day1: f64,
    day2: f64,
    long: f64,
    lat: f64,
    heading: &mut u64,
    azimuth: &mut u64,
    alt: &mut u64,
) -> u8
    ensures { HandedThree (heading_rule Crate asc dec asc_rate dec_rate day1 day2 (rad long) (rad lat)) result heading.old
        azimuth.old alt.old heading.new azimuth.new alt.new }
{
    hand_three(
        heading::heading(
            Edition::Crate,
            asc,
            dec,
            asc_rate,
            dec_rate,
            day1,
            day2,
            Rad(long),
            Rad(lat),
        ),
        heading,
        azimuth,
        alt,
    )
}

// The same with Meeus's precession. Refusals: as before.
#[unsafe(no_mangle)]
pub extern "C" fn brundelak_heading_published(
    asc: u32,
    dec: i32,
    asc_rate: i32,
    dec_rate: i32,
    day1: f64,
    day2: f64,
    long: f64,
    lat: f64,
    heading: &mut u64,
    azimuth: &mut u64,
    alt: &mut u64,
) -> u8
    ensures { HandedThree (heading_rule Published asc dec asc_rate dec_rate day1 day2 (rad long) (rad lat)) result heading.old
        azimuth.old alt.old heading.new azimuth.new alt.new }
{
    hand_three(
        heading::heading(
            Edition::Published,
            asc,
            dec,
            asc_rate,
            dec_rate,
            day1,
            day2,
            Rad(long),
            Rad(lat),
        ),
        heading,
        azimuth,
        alt,
    )
}

// A mark's heading, from the star's and two readings of a circle. Refusals: 1; 3.
#[unsafe(no_mangle)]
pub extern "C" fn brundelak_mark_heading(
    heading: f64,
    star_reading: f64,
    mark_reading: f64,
    out: &mut u64,
) -> u8
    ensures { Handed (number_of_degrees (mark_heading_rule (deg heading) (deg star_reading) (deg mark_reading))) result out.old
        out.new }
{
    hand_degrees(
        heading::mark_heading(Deg(heading), Deg(star_reading), Deg(mark_reading)),
        out,
    )
}

// The mean of a night's headings of one mark, and the sheet of their residuals from the reference. Refusals: 8; 1; 3; 20.
#[unsafe(no_mangle)]
pub extern "C" fn brundelak_mean_heading(
    headings: &[u64],
    mean: &mut u64,
    sheet: &mut [i64; 6],
) -> u8
    ensures { HandedMean (mean_heading_rule headings.now) result mean.old sheet.old mean.new
        sheet.new }
{
    match heading_mean::mean_heading(headings) {
        Ok((x, s)) => {
            *mean = double::pattern(x.0);
            *sheet = numbers(s);
            0
        }
        Err(refusal) => refusal.number(),
    }
}
