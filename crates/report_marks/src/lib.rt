// What each sight of a night gives for one mark: its star is looked up in a list, the star's heading worked out, and the mark's from it and
// two readings. Promised: the heading or its refusal, by its kind, of any sight, and of all sights of a text, into slices.
#![tactic(auto)]

ghost use Rattle.std.specs.Prelude.{◌<◌, ◌≡◌, length};
ghost use Rattle.quantity.specs.rules.Answer.{shown_three, shown};
ghost use Rattle.text_fields.specs.rules.Stored.{places_of, EntriesStored};
ghost use Rattle.text_fields.specs.notions.Stored.{EntryStored};
ghost use Rattle.text_night.specs.rules.Sight.{sight_rule};
ghost use Rattle.text_night.specs.rules.Sights.{entry_of};
ghost use Rattle.report_marks.specs.rules.Marked.{shown_marked, mark_of, marked_by, sight_on, marked_of, status_of, bits_of, columns};

use edition::Edition;
use quantity::{Deg, Refusal};
use report_heading::Sight;
use text_fields::{Stopped, UnclearAt};

// What all sights share: the day of the list's places, the observer's longitude, west positive, and latitude; and whether UT1 is taken for
// UTC.
#[derive(Clone, Copy)]
pub struct Pad {
    pub day1: f64,
    pub long: Deg,
    pub lat: Deg,
    pub utc: bool,
}

// Why a sight has no heading of the mark: the refusal of the star's, or that of the mark's from it.
#[derive(Clone, Copy, PartialEq, Eq)]
enum Unmarked {
    Sight(Refusal),
    Mark(Refusal),
}

// ---- a sight

// By the mark's heading.
fn mark_of(mark: Result<Deg, Refusal>) -> Result<Deg, Unmarked>
    ensures { shown_marked result ≡ mark_of (shown mark) }
{
    match mark {
        Ok(x) => Ok(x),
        Err(refusal) => Err(Unmarked::Mark(refusal)),
    }
}

// By the star's bearings, and by what a circle reads at the star and at the mark.
fn marked_by(
    bearings: Result<(f64, f64, f64), Refusal>,
    star: Deg,
    mark: Deg,
) -> Result<Deg, Unmarked>
    ensures { shown_marked result ≡ marked_by (shown_three bearings) star mark }
{
    match bearings {
        Ok((h, _, _)) => mark_of(heading::mark_heading(Deg(h), star, mark)),
        Err(refusal) => Err(Unmarked::Sight(refusal)),
    }
}

// The sight of a star on a day.
fn sight_on(pad: Pad, number: u32, day: f64) -> Sight
    ensures { result ≡ sight_on pad number day }
{
    let long = pad.long;
    let lat = pad.lat;
    Sight {
        number,
        day1: pad.day1,
        day2: day,
        long,
        lat,
        utc: pad.utc,
    }
}

// By the star of a number, which is looked up in the list.
fn marked_of(
    edition: Edition,
    pad: Pad,
    bytes: &[u8],
    day: f64,
    number: u32,
    star: Deg,
    mark: Deg,
) -> Result<Deg, Unmarked>
    ensures { shown_marked result ≡ marked_of edition pad bytes.now day number star mark }
{
    match list::find(bytes, number) {
        Ok((_, record)) => {
            let sight = sight_on(pad, number, day);
            marked_by(
                report_heading::bearings_of(edition, record, sight),
                star,
                mark,
            )
        }
        Err(refusal) => Err(Unmarked::Sight(refusal)),
    }
}

// Its status: 0, or the number of its refusal.
fn status_of(came: Result<Deg, Unmarked>) -> u8
    ensures { result ≡ status_of (shown_marked came) }
{
    match came {
        Ok(_) => 0,
        Err(Unmarked::Sight(refusal)) => refusal.number(),
        Err(Unmarked::Mark(refusal)) => refusal.number(),
    }
}

// The bits of its heading; where it is refused 1 for the mark's, and 0 for the star's.
fn bits_of(came: Result<Deg, Unmarked>) -> u64
    ensures { result ≡ bits_of (shown_marked came) }
{
    match came {
        Ok(x) => double::pattern(x.0),
        Err(Unmarked::Sight(_)) => 0,
        Err(Unmarked::Mark(_)) => 1,
    }
}

// ---- all of them

// One sight at its place in what is lent: its line, its star, its status and its bits.
fn store_sight(
    edition: Edition,
    pad: Pad,
    bytes: &[u8],
    line: &mut [u64],
    star: &mut [u32],
    status: &mut [u8],
    bits: &mut [u64],
    i: usize,
    at_line: usize,
    sight: text_night::Sight,
)
    requires i_in_bounds { i < length line.old }
    requires i_in_bounds_2 { i < length star.old }
    requires i_in_bounds_3 { i < length status.old }
    requires i_in_bounds_4 { i < length bits.old }
    ensures { EntryStored (columns edition pad bytes.now) (entry_of sight at_line) i
        line.old star.old status.old bits.old
        line.new star.new status.new bits.new }
{
    let came = marked_of(
        edition,
        pad,
        bytes,
        sight.day,
        sight.number,
        sight.star,
        sight.mark,
    );
    line[i] = at_line as u64;
    star[i] = sight.number;
    status[i] = status_of(came);
    bits[i] = bits_of(came);
}

// Every sight of the text at its place in what is lent, in the text's order. A sight that finds no place in each slice, and a line that
// cannot be read, ends it; what was met before stands.
pub fn read_night<'a>(
    edition: Edition,
    pad: Pad,
    bytes: &'a [u8],
    text: &'a [u8],
    dut1: i32,
    line: &mut [u64],
    star: &mut [u32],
    status: &mut [u8],
    bits: &mut [u64],
) -> Result<usize, Stopped>
    ensures { EntriesStored (sight_rule dut1) entry_of (columns edition pad bytes.now)
        (places_of (length line.old) (length star.old) (length status.old) (length bits.old))
        text.now line.old star.old status.old bits.old result
        line.new star.new status.new bits.new }
{
    let places = text_fields::fewest(line.len(), star.len(), status.len(), bits.len());
    let mut at = 0;
    let mut passed = 0;
    let mut n = 0;
    // The text ends it, and `n` counts the sights that are stored.
    loop {
        match text_night::next_sight(text, at, dut1) {
            Ok(Some(met)) => {
                if n >= places {
                    return Err(Stopped::Full);
                }
                passed += met.passed;
                store_sight(
                    edition, pad, bytes, line, star, status, bits, n, passed, met.what,
                );
                at = met.next;
                n += 1;
            }
            Ok(None) => {
                return Ok(n);
            }
            Err(UnclearAt(lines)) => {
                return Err(Stopped::Unclear(passed + lines));
            }
        }
    }
}
