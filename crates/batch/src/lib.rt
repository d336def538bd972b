// The batch (section 7): every star's status and the bits of its two angles into memory that the caller lends, and the tally of the
// statuses. Promised: each star has the chain's answer at its shifted place, and what a call leaves alone it leaves bit for bit, a NaN's too.
#![tactic(auto)]

ghost use Rattle.std.specs.Prelude.{◌≡◌};
ghost use Rattle.batch.specs.rules.Star.{two_stars_under};
ghost use Rattle.batch.specs.rules.Batch.{Batch};

use chain::Night;
use edition::Edition;
use list::Star;
use list_tally::Tally;
use quantity::{Places, Refusal};

// Two stars' places under a night after so many years, side by side. Refusals of each: 10 for an empty place; 9 for a record out of range;
// then 3 for a shifted declination past HALF in size; then 14, 7 and 4.
fn two_stars_under(first: Star, second: Star, night: Night, years: f64) -> Places
    ensures { result ≡ two_stars_under first second night years }
{
    let first_dec = star_place::dec_of(first, years);
    let second_dec = star_place::dec_of(second, years);
    let first_refusal = star_store::star_refusal(first, first_dec);
    let second_refusal = star_store::star_refusal(second, second_dec);
    let p = chain::two_places_under(
        star_place::asc_of(first, years),
        first_dec,
        star_place::asc_of(second, years),
        second_dec,
        night,
    );
    Places {
        first_asc: p.first_asc,
        second_asc: p.second_asc,
        first_dec: p.first_dec,
        second_dec: p.second_dec,
        first_check: star_store::earlier(first_refusal, p.first_check),
        second_check: star_store::earlier(second_refusal, p.second_check),
    }
}

// Every star of the list, shifted by the years between the days, from the first day to the second, two at a time, the last of an odd
// count beside itself: its status, 0 or its refusal, and the bits of its two angles, 0.0 and 0.0 where it is refused, as an empty place
// is by 10. What is lent past the list's places stays. Refusals of the call, which changes nothing lent: 1; 2; then 8.
pub fn batch(
    edition: Edition,
    bytes: &[u8],
    day1: f64,
    day2: f64,
    status: &mut [u8],
    asc: &mut [u64],
    dec: &mut [u64],
) -> Result<Tally, Refusal>
    ensures { Batch edition bytes.now day1 day2 status.old asc.old dec.old result
        status.new asc.new dec.new }
{
    star_store::store_refusal(bytes, day1, day2, status.len(), asc.len(), dec.len())?;
    let mut tally = Tally::new();
    let night = chain::night_of(edition, day1, day2);
    let years = star_place::years_between(day1, day2);
    let n = list::count(bytes);
    // Stays a counted loop: it goes on by two, and where it ends says which star is left over.
    let mut i = 0;
    while i + 1 < n {
        let j = i + 1;
        let p = two_stars_under(list::nth(bytes, i), list::nth(bytes, j), night, years);
        tally = star_store::store_star(
            status,
            asc,
            dec,
            i,
            p.first_check,
            p.first_asc,
            p.first_dec,
            tally,
        );
        tally = star_store::store_star(
            status,
            asc,
            dec,
            j,
            p.second_check,
            p.second_asc,
            p.second_dec,
            tally,
        );
        i = j + 1;
    }
    if i < n {
        let star = list::nth(bytes, i);
        let p = two_stars_under(star, star, night, years);
        tally = star_store::store_star(
            status,
            asc,
            dec,
            i,
            p.first_check,
            p.first_asc,
            p.first_dec,
            tally,
        );
    }
    Ok(tally)
}
