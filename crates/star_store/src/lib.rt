// What every call shares that answers a list star by star (sections 5 and 7): the refusals of the call and of a star, and one star's status
// and the bits of its two angles stored into memory that the caller lends, with the tally of the statuses. Promised: each place has its
// star's answer, by whatever rule, and what a call leaves alone it leaves bit for bit, a NaN's too.
#![tactic(auto)]

ghost use Rattle.std.specs.Prelude.{◌<◌, ◌≡◌, cond, eqb, length};
ghost use Rattle.double.specs.rules.Operations.{zero};
ghost use Rattle.double.specs.rules.Pattern.{pattern_of};
ghost use Rattle.quantity.specs.rules.Answer.{checked, checked_by, answered, pair, unless};
ghost use Rattle.quantity.specs.rules.Refusal.{latitude_refusal};
ghost use Rattle.list.specs.rules.Record.{in_range};
ghost use Rattle.list.specs.rules.Stars.{most_stars, is_kept};
ghost use Rattle.star_store.specs.rules.Star.{earlier};
ghost use Rattle.star_store.specs.rules.Stored.{store_refusal};
ghost use Rattle.star_store.specs.notions.StarStored.{Placed, StarStored};

use list::Star;
use list_tally::Tally;
use quantity::{HALF, Numbered, Rad, Refusal};

// ---- one star

// A star's refusals before its place is taken: 10 for an empty place; 9 for a record out of range; then 3 for a declination past HALF in
// size.
pub fn star_refusal(star: Star, dec: Rad) -> Result<(), Refusal>
    ensures { checked result ≡ cond (is_kept star) (cond (in_range star) (latitude_refusal dec) 9) 10 }
{
    if star.number == 0 {
        return Err(Refusal::NoStar);
    }
    if list::in_range(star) {
        if double::size(dec.0) <= HALF {
            return Ok(());
        }
        return quantity::latitude_refusal(dec);
    }
    Err(Refusal::Record)
}

// The earlier of two refusals; the number 0 is none.
pub fn earlier<E: Numbered>(refusal: Result<(), E>, later: Result<(), E>) -> Result<(), E>
    ensures { checked_by E.numbered result ≡ earlier (checked_by E.numbered refusal) (checked_by E.numbered later) }
{
    if quantity::status_of(refusal) == 0 {
        later
    } else {
        refusal
    }
}

// What is stored of an angle, its bits: those of 0.0 where its place is refused.
fn stored_bits<E: Numbered>(refusal: Result<(), E>, x: f64) -> u64
    ensures { result ≡ cond (eqb (checked_by E.numbered refusal) 0) (pattern_of x) (pattern_of zero) }
{
    if quantity::status_of(refusal) == 0 {
        double::pattern(x)
    } else {
        0
    }
}

// One star's status and the bits of its angles at its place in what is lent.
fn put_star<E: Numbered>(
    status: &mut [u8],
    asc: &mut [u64],
    dec: &mut [u64],
    i: usize,
    refusal: Result<(), E>,
    a: f64,
    d: f64,
)
    requires i_lt_most_stars { i < most_stars }
    requires i_in_bounds { i < length status.old }
    requires i_in_bounds_2 { i < length asc.old }
    requires i_in_bounds_3 { i < length dec.old }
    ensures { Placed i (unless (checked_by E.numbered refusal) (answered (pair a d))) status.old asc.old dec.old
        status.new asc.new dec.new }
{
    status[i] = quantity::status_of(refusal);
    asc[i] = stored_bits(refusal, a);
    dec[i] = stored_bits(refusal, d);
}

// The same, and the tally raised by the status.
pub fn store_star<E: Numbered>(
    status: &mut [u8],
    asc: &mut [u64],
    dec: &mut [u64],
    i: usize,
    refusal: Result<(), E>,
    a: f64,
    d: f64,
    tally: Tally,
) -> Tally
    requires i_lt_most_stars { i < most_stars }
    requires i_in_bounds { i < length status.old }
    requires i_in_bounds_2 { i < length asc.old }
    requires i_in_bounds_3 { i < length dec.old }
    ensures { StarStored i (unless (checked_by E.numbered refusal) (answered (pair a d))) tally status.old asc.old dec.old result
        status.new asc.new dec.new }
{
    put_star(status, asc, dec, i, refusal, a, d);
    let raised = tally.raise(quantity::status_of(refusal));
    raised.tally
}

// The same with the counts of a tally that are raised where they stand: one that goes by value is copied whole, and waited for.
pub fn store_star_in<E: Numbered>(
    status: &mut [u8],
    asc: &mut [u64],
    dec: &mut [u64],
    counts: &mut [u32; 20],
    i: usize,
    refusal: Result<(), E>,
    a: f64,
    d: f64,
)
    requires i_lt_most_stars { i < most_stars }
    requires i_in_bounds { i < length status.old }
    requires i_in_bounds_2 { i < length asc.old }
    requires i_in_bounds_3 { i < length dec.old }
    ensures { StarStored i (unless (checked_by E.numbered refusal) (answered (pair a d))) (record { counts = counts.entry.now }) status.old
        asc.old dec.old (record { counts = counts.exit.now }) status.new asc.new dec.new }
{
    put_star(status, asc, dec, i, refusal, a, d);
    list_tally::raise_in(counts, quantity::status_of(refusal));
}

// ---- the call

// Refusals of a call with slices of these lengths: 1; 2; then 8.
pub fn store_refusal(
    bytes: &[u8],
    day1: f64,
    day2: f64,
    status: usize,
    asc: usize,
    dec: usize,
) -> Result<(), Refusal>
    ensures { checked result ≡ store_refusal bytes.now day1 day2 status asc dec }
{
    precess_angles::days_refusal(day1, day2)?;
    if !list::is_list(bytes) {
        return Err(Refusal::List);
    }
    let n = list::count(bytes);
    if n <= status && n <= asc && n <= dec {
        Ok(())
    } else {
        Err(Refusal::List)
    }
}
