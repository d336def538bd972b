// A sight, and its text: what `sight` prints. The observer's place as it was understood, a star's heading, azimuth and altitude, and a
// mark's heading where a circle was read. Promised: every byte of it, of every list; each angle is rounded once.
#![tactic(auto)]

ghost use Rattle.std.specs.Prelude.{◌≡◌};
ghost use Rattle.quantity.specs.rules.Answer.{shown_three, shown};
ghost use Rattle.list.specs.rules.Find.{shown_found};
ghost use Rattle.lent.specs.rules.Writing.{Wrote};
ghost use Rattle.report_heading.specs.rules.Sight.{star_text, sky_text, lines_text, beside_text, read_text};
ghost use Rattle.report_heading.specs.rules.Sight.{bearings_text, bearings_of, found_text, sight_text};

use edition::Edition;
use helpers::angle;
use list::Star;
use quantity::{Deg, Refusal};

// What a circle reads at the star and at the mark.
#[derive(Clone, Copy)]
pub struct Readings {
    pub star: Deg,
    pub mark: Deg,
}

// What a sight is given by, besides a list: the star's number, the day of the list's places, the day of the sight, the observer's
// longitude, west positive, and latitude; and whether UT1 is taken for UTC.
#[derive(Clone, Copy)]
pub struct Sight {
    pub number: u32,
    pub day1: f64,
    pub day2: f64,
    pub long: Deg,
    pub lat: Deg,
    pub utc: bool,
}

// Bytes of the text, at most.
pub const ROOM: usize = 560;

// Each `put_` writes its text from the offset on, and answers the offset after it. This one: a star's number and its heading.
fn put_star(out: &mut [u8], at: usize, number: u32, heading: Deg) -> usize
    ensures { Wrote out.old at (star_text number heading) out.new result }
{
    let a = lent::put(out, at, b"star             ");
    let b = text_number::put_decimal(out, a, number as u64);
    let c = lent::put(out, b, b"\nheading         ");
    let d = text_heading::put_circle(out, c, heading);
    lent::put(out, d, b" from north, clockwise\n")
}

// Its azimuth and altitude.
fn put_sky(out: &mut [u8], at: usize, az: Deg, alt: Deg) -> usize
    ensures { Wrote out.old at (sky_text az alt) out.new result }
{
    let a = lent::put(out, at, b"azimuth         ");
    let b = text_heading::put_angle(out, a, az);
    let c = lent::put(out, b, b" from south, west positive\naltitude        ");
    text_heading::put_altitude(out, c, alt, atmos::plan_alt(alt))
}

// The observer's place, the edition, and all of that.
fn put_lines(
    out: &mut [u8],
    edition: Edition,
    sight: Sight,
    heading: Deg,
    az: Deg,
    alt: Deg,
) -> usize
    ensures { Wrote out.old 0 (lines_text edition sight heading az alt) out.new result }
{
    let number = sight.number;
    let long = sight.long;
    let lat = sight.lat;
    let a = text_heading::put_place(out, 0, long, lat);
    let b = text_heading::put_edition(out, a, edition);
    let c = put_star(out, b, number, heading);
    put_sky(out, c, az, alt)
}

// All of it with a mark, or the refusal of its heading alone.
fn put_beside(
    out: &mut [u8],
    edition: Edition,
    sight: Sight,
    heading: Deg,
    az: Deg,
    alt: Deg,
    mark: Result<Deg, Refusal>,
) -> usize
    ensures { Wrote out.old 0 (beside_text edition sight heading az alt (shown mark)) out.new result }
{
    match mark {
        Ok(x) => {
            let utc = sight.utc;
            let a = put_lines(out, edition, sight, heading, az, alt);
            let b = text_heading::put_mark(out, a, x);
            report_day::put_open(out, b, utc)
        }
        Err(refusal) => text_heading::put_mark_refusal(out, 0, refusal.number()),
    }
}

// With a mark where a circle was read, and without one else.
fn put_read(
    out: &mut [u8],
    edition: Edition,
    sight: Sight,
    heading: Deg,
    az: Deg,
    alt: Deg,
    readings: Option<Readings>,
) -> usize
    ensures { Wrote out.old 0 (read_text edition sight heading az alt readings) out.new result }
{
    match readings {
        None => {
            let utc = sight.utc;
            let a = put_lines(out, edition, sight, heading, az, alt);
            report_day::put_open(out, a, utc)
        }
        Some(read) => {
            let answer = heading::mark_heading(heading, read.star, read.mark);
            put_beside(out, edition, sight, heading, az, alt, answer)
        }
    }
}

// A star's bearings, or their refusal alone.
fn put_bearings(
    out: &mut [u8],
    edition: Edition,
    sight: Sight,
    bearings: Result<(f64, f64, f64), Refusal>,
    readings: Option<Readings>,
) -> usize
    ensures { Wrote out.old 0 (bearings_text edition sight (shown_three bearings) readings) out.new result }
{
    match bearings {
        Ok((h, az, alt)) => { put_read(out, edition, sight, Deg(h), Deg(az), Deg(alt), readings) }
        Err(refusal) => text_heading::put_sight_refusal(out, 0, refusal.number()),
    }
}

// A star's bearings from its record.
pub fn bearings_of(edition: Edition, star: Star, sight: Sight) -> Result<(f64, f64, f64), Refusal>
    ensures { shown_three result ≡ bearings_of edition star sight }
{
    let long = sight.long;
    let lat = sight.lat;
    heading::heading(
        edition,
        star.asc,
        star.dec,
        star.asc_rate,
        star.dec_rate,
        sight.day1,
        sight.day2,
        angle::radians(long),
        angle::radians(lat),
    )
}

// Those of a star that was looked for, or why it was not found.
fn put_found(
    out: &mut [u8],
    edition: Edition,
    sight: Sight,
    found: Result<(usize, Star), Refusal>,
    readings: Option<Readings>,
) -> usize
    ensures { Wrote out.old 0 (found_text edition sight (shown_found found) readings) out.new result }
{
    match found {
        Ok((_, star)) => {
            let bearings = bearings_of(edition, star, sight);
            put_bearings(out, edition, sight, bearings, readings)
        }
        Err(refusal) => text_heading::put_sight_refusal(out, 0, refusal.number()),
    }
}

// The text of a sight of a star of the list, from the slice's start on; and the offset after it. Given besides: what a circle read. A
// refused sight's is its refusal in words alone: those of `list::find`, of `heading::heading`, and of `heading::mark_heading`.
pub fn put_sight(
    out: &mut [u8],
    edition: Edition,
    bytes: &[u8],
    sight: Sight,
    readings: Option<Readings>,
) -> usize
    ensures { Wrote out.old 0 (sight_text edition bytes.now sight readings) out.new result }
{
    let found = list::find(bytes, sight.number);
    put_found(out, edition, sight, found, readings)
}
