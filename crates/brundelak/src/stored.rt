// The stored list: a star shown, a star written, find, the batch and the rotation.
ghost use Rattle.edition.specs.declared.Edition.TheVariants.{Crate, Published};
ghost use Rattle.list.specs.rules.Find.{find_rule};
ghost use Rattle.list.specs.rules.Reader.{read_rule};
ghost use Rattle.list.specs.rules.Writer.{record_text};
ghost use Rattle.brundelak.specs.rules.Put.{HandedPut};
ghost use Rattle.star_store.specs.rules.Stored.{shown_tallied};
ghost use Rattle.brundelak.specs.rules.Stored.{fields, HandedFound, HandedStar, HandedTally, HandedBatch, HandedRotated, HandedRaise};

use brundelak_handed::hand_value;
use edition::Edition;
use list::Star;
use list_tally::Tally;
use quantity::Refusal;

// The first star with a number: its index and the record's other fields. Refusals: 8; 10 for number 0 too; 9.
#[unsafe(no_mangle)]
pub extern "C" fn brundelak_find(
    bytes: &[u8],
    number: u32,
    index: &mut usize,
    asc: &mut u32,
    dec: &mut i32,
    asc_rate: &mut i32,
    dec_rate: &mut i32,
) -> u8
    ensures { HandedFound (find_rule bytes.now number) result index.old asc.old dec.old
        asc_rate.old dec_rate.old index.new asc.new dec.new asc_rate.new
        dec_rate.new }
{
    match list::find(bytes, number) {
        Ok((i, star)) => {
            let d = star.dec;
            let u = star.asc_rate;
            let v = star.dec_rate;
            *index = i;
            *asc = star.asc;
            *dec = d;
            *asc_rate = u;
            *dec_rate = v;
            0
        }
        Err(refusal) => refusal.number(),
    }
}

// The first kept star from an offset of a list on, in range or not, and the offset after it: the reader's next. 255 where none is left.
// Refusals: 8.
#[unsafe(no_mangle)]
pub extern "C" fn brundelak_star(
    bytes: &[u8],
    offset: usize,
    number: &mut u32,
    asc: &mut u32,
    dec: &mut i32,
    asc_rate: &mut i32,
    dec_rate: &mut i32,
    next: &mut usize,
) -> u8
    ensures { HandedStar (read_rule bytes.now offset) result
        (fields number.old asc.old dec.old asc_rate.old dec_rate.old) next.old
        (fields number.new asc.new dec.new asc_rate.new dec_rate.new) next.new }
{
    match list::star_at(bytes, offset) {
        Ok(Some((star, after))) => {
            let d = star.dec;
            let u = star.asc_rate;
            let v = star.dec_rate;
            *number = star.number;
            *asc = star.asc;
            *dec = d;
            *asc_rate = u;
            *dec_rate = v;
            *next = after;
            0
        }
        Ok(None) => 255,
        Err(refusal) => refusal.number(),
    }
}

// A star's record from an offset of the slice on, and the offset after it. Refusals: 9; 8 (no record of a list begins there; no room).
#[unsafe(no_mangle)]
pub extern "C" fn brundelak_put_star(
    out: &mut [u8],
    offset: usize,
    number: u32,
    asc: u32,
    dec: i32,
    asc_rate: i32,
    dec_rate: i32,
    next: &mut usize,
) -> u8
    ensures { HandedPut (record_text offset (fields number asc dec asc_rate dec_rate)) out.old offset result next.old
        out.new next.new }
{
    let star = Star {
        number,
        asc,
        dec,
        asc_rate,
        dec_rate,
    };
    hand_value(list::put_star(out, offset, star), next)
}

// The status of a call that stored its stars, with the counts of its tally handed over where it is 0.
fn hand_tally(tallied: Result<Tally, Refusal>, counts: &mut [u32; 20]) -> u8
    ensures { HandedTally (shown_tallied tallied) result counts.old counts.new }
{
    match tallied {
        Ok(tally) => {
            let all = tally.counts;
            *counts = all;
            0
        }
        Err(refusal) => refusal.number(),
    }
}

// The batch in an edition, with its counts handed over. Refusals: 1; 2; 8.
fn hand_batch(
    edition: Edition,
    bytes: &[u8],
    day1: f64,
    day2: f64,
    status: &mut [u8],
    asc: &mut [u64],
    dec: &mut [u64],
    counts: &mut [u32; 20],
) -> u8
    ensures { HandedBatch edition bytes.now day1 day2 status.old asc.old dec.old
        counts.old result status.new asc.new dec.new counts.new }
{
    let tallied = batch::batch(edition, bytes, day1, day2, status, asc, dec);
    hand_tally(tallied, counts)
}

// Every star of a list from the first day to the second: status, right ascension and declination of each into the lent slices, and
// the 20 counts of the tally. Refusals, which leave all lent memory unchanged: 1; 2; 8.
#[unsafe(no_mangle)]
pub extern "C" fn brundelak_batch(
    bytes: &[u8],
    day1: f64,
    day2: f64,
    status: &mut [u8],
    asc: &mut [u64],
    dec: &mut [u64],
    counts: &mut [u32; 20],
) -> u8
    ensures { HandedBatch Crate bytes.now day1 day2 status.old asc.old dec.old counts.old
        result status.new asc.new dec.new counts.new }
{
    hand_batch(Edition::Crate, bytes, day1, day2, status, asc, dec, counts)
}

// The same in the published edition.
#[unsafe(no_mangle)]
pub extern "C" fn brundelak_batch_published(
    bytes: &[u8],
    day1: f64,
    day2: f64,
    status: &mut [u8],
    asc: &mut [u64],
    dec: &mut [u64],
    counts: &mut [u32; 20],
) -> u8
    ensures { HandedBatch Published bytes.now day1 day2 status.old asc.old dec.old
        counts.old result status.new asc.new dec.new counts.new }
{
    hand_batch(
        Edition::Published,
        bytes,
        day1,
        day2,
        status,
        asc,
        dec,
        counts,
    )
}

// The rotation of a list in an edition, with its counts handed over. Refusals: 1; 2; 8.
fn hand_rotate(
    edition: Edition,
    bytes: &[u8],
    day1: f64,
    day2: f64,
    status: &mut [u8],
    asc: &mut [u64],
    dec: &mut [u64],
    counts: &mut [u32; 20],
) -> u8
    ensures { HandedRotated edition bytes.now day1 day2 status.old asc.old dec.old
        counts.old result status.new asc.new dec.new counts.new }
{
    let tallied = rotation_list::rotate(edition, bytes, day1, day2, status, asc, dec);
    hand_tally(tallied, counts)
}

// Every star of a list under the one rotation of precession from the first day to the second, without nutation and aberration: stored and
// counted as brundelak_batch does. Refusals, which leave all lent memory unchanged: 1; 2; 8.
#[unsafe(no_mangle)]
pub extern "C" fn brundelak_rotate(
    bytes: &[u8],
    day1: f64,
    day2: f64,
    status: &mut [u8],
    asc: &mut [u64],
    dec: &mut [u64],
    counts: &mut [u32; 20],
) -> u8
    ensures { HandedRotated Crate bytes.now day1 day2 status.old asc.old dec.old
        counts.old result status.new asc.new dec.new counts.new }
{
    hand_rotate(Edition::Crate, bytes, day1, day2, status, asc, dec, counts)
}

// The same in the published edition.
#[unsafe(no_mangle)]
pub extern "C" fn brundelak_rotate_published(
    bytes: &[u8],
    day1: f64,
    day2: f64,
    status: &mut [u8],
    asc: &mut [u64],
    dec: &mut [u64],
    counts: &mut [u32; 20],
) -> u8
    ensures { HandedRotated Published bytes.now day1 day2 status.old asc.old dec.old
        counts.old result status.new asc.new dec.new counts.new }
{
    hand_rotate(
        Edition::Published,
        bytes,
        day1,
        day2,
        status,
        asc,
        dec,
        counts,
    )
}

// One status counted in the 20 counts of a tally. Refusals, which leave them unchanged: 9 for a status that is not known, then 8 for
// a count that is full.
#[unsafe(no_mangle)]
pub extern "C" fn brundelak_tally_raise(status: u8, counts: &mut [u32; 20]) -> u8
    ensures { HandedRaise status counts.old result counts.new }
{
    let tally = Tally { counts: *counts };
    let raised = tally.raise(status);
    let after = raised.tally;
    let all = after.counts;
    *counts = all;
    quantity::status_of(raised.check)
}
