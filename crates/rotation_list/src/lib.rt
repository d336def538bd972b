// A list under one rotation (request xiv): every star's status and the bits of its two angles into memory that the caller lends, and the
// tally of the statuses, stored as the batch stores them. Promised: each star has the place to which the rotation of the two days brings its
// shifted place. It is precession alone, without nutation and aberration, beside the batch and not claimed equal to it.
#![tactic(auto)]

ghost use Rattle.std.specs.Prelude.{◌≡◌};
ghost use Rattle.rotation_list.specs.rules.Rotate.{two_turned, nowhere, Rotated};

use edition::Edition;
use elementary::{Direction, TwoSinCos};
use list::Star;
use list_tally::Tally;
use quantity::{Places, Refusal};

// Two stars' places, from the sines and cosines of the stars' angles; and of two more stars the sines and cosines, and what each is refused
// for before its place is taken: 10 for an empty place; 9 for a record out of range; then 3 for a shifted declination past HALF in size.
#[derive(Clone, Copy)]
struct Turn {
    places: Places,
    ascs: TwoSinCos,
    decs: TwoSinCos,
    first_check: Result<(), Refusal>,
    second_check: Result<(), Refusal>,
}

// Two stars' places under a rotation, side by side, and meanwhile the next two stars after so many years: neither half waits for the other,
// so that each is worked out while the other waits. The order of the calls is time, and no result rests on it. The matrix is lent, and
// copied where it is applied. Refusals of each place: 14 and 7.
fn two_turned(
    m: &[[f64; 3]; 3],
    ascs: TwoSinCos,
    decs: TwoSinCos,
    first: Star,
    second: Star,
    years: f64,
) -> Turn
    ensures { result ≡ two_turned m.now ascs decs years first second }
{
    let d = Direction {
        sin_asc: ascs.first_sine,
        cos_asc: ascs.first_cosine,
        sin_dec: decs.first_sine,
        cos_dec: decs.first_cosine,
    };
    let e = Direction {
        sin_asc: ascs.second_sine,
        cos_asc: ascs.second_cosine,
        sin_dec: decs.second_sine,
        cos_dec: decs.second_cosine,
    };
    let v = rotation::vector_under(*m, d);
    let w = rotation::vector_under(*m, e);
    let up = v[1];
    let across = v[0];
    let height = v[2];
    let up2 = w[1];
    let across2 = w[0];
    let height2 = w[2];
    let first_arcs = precess_arcs::arcs_refusal(up, across, height);
    let second_arcs = precess_arcs::arcs_refusal(up2, across2, height2);
    let first_dec = star_place::dec_of(first, years);
    let second_dec = star_place::dec_of(second, years);
    let first_asc = star_place::asc_of(first, years);
    let second_asc = star_place::asc_of(second, years);
    let root = elementary_arc::arcsine_root(height);
    let next_decs = elementary::two_sin_cos_of(first_dec, second_dec);
    let root2 = elementary_arc::arcsine_root(height2);
    let next_ascs = elementary::two_sin_cos_of(first_asc, second_asc);
    let first_check = star_store::star_refusal(first, first_dec);
    let second_check = star_store::star_refusal(second, second_dec);
    let arcs = precess_arcs::arcs_two(up, across, height, root, up2, across2, height2, root2);
    Turn {
        places: Places {
            first_asc: arcs.first_asc,
            second_asc: arcs.second_asc,
            first_dec: arcs.first_dec,
            second_dec: arcs.second_dec,
            first_check: first_arcs,
            second_check: second_arcs,
        },
        ascs: next_ascs,
        decs: next_decs,
        first_check,
        second_check,
    }
}

// The sines and cosines with which the first turn begins: its places are of no star, and not stored.
fn nowhere() -> TwoSinCos
    ensures { result ≡ nowhere }
{
    TwoSinCos {
        first_sine: 0.0,
        second_sine: 0.0,
        first_cosine: 0.0,
        second_cosine: 0.0,
    }
}

// Every star of the list, shifted by the years between the days, under the rotation from the first day to the second, two at a time, the
// last of an odd count beside itself: its status, 0 or its refusal, and the bits of its two angles, 0.0 and 0.0 where it is refused, as an
// empty place is by 10. What is lent past the list's places stays. Refusals of the call, which changes nothing lent: 1; 2; then 8.
pub fn rotate(
    edition: Edition,
    bytes: &[u8],
    day1: f64,
    day2: f64,
    status: &mut [u8],
    asc: &mut [u64],
    dec: &mut [u64],
) -> Result<Tally, Refusal>
    ensures { Rotated edition bytes.now day1 day2 status.old asc.old dec.old result
        status.new asc.new dec.new }
{
    star_store::store_refusal(bytes, day1, day2, status.len(), asc.len(), dec.len())?;
    let tally = Tally::new();
    let m = rotation::rotation_of(edition, day1, day2);
    let years = star_place::years_between(day1, day2);
    let n = list::count(bytes);
    let mut counts = tally.counts;
    let mut t = two_turned(
        &m,
        nowhere(),
        nowhere(),
        list::nth(bytes, 0),
        list::nth(bytes, 1),
        years,
    );
    // Stays a counted loop: it goes on by two, and where it ends says which star is left over.
    let mut i = 0;
    while i + 1 < n {
        let j = i + 1;
        let k = j + 1;
        let first_check = t.first_check;
        let second_check = t.second_check;
        t = two_turned(
            &m,
            t.ascs,
            t.decs,
            list::nth(bytes, k),
            list::nth(bytes, k + 1),
            years,
        );
        let p = t.places;
        star_store::store_star_in(
            status,
            asc,
            dec,
            &mut counts,
            i,
            star_store::earlier(first_check, p.first_check),
            p.first_asc,
            p.first_dec,
        );
        star_store::store_star_in(
            status,
            asc,
            dec,
            &mut counts,
            j,
            star_store::earlier(second_check, p.second_check),
            p.second_asc,
            p.second_dec,
        );
        i = k;
    }
    if i < n {
        let first_check = t.first_check;
        let star = list::nth(bytes, i);
        let last = two_turned(&m, t.ascs, t.decs, star, star, years);
        let p = last.places;
        star_store::store_star_in(
            status,
            asc,
            dec,
            &mut counts,
            i,
            star_store::earlier(first_check, p.first_check),
            p.first_asc,
            p.first_dec,
        );
    }
    Ok(Tally { counts })
}
