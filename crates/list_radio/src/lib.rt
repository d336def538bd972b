// Lists over the radio link (requests (i), (x)): reader and writer. Promised: any bytes are read or refused, the first refusal met; head
// and star are put into a slice, or refused with nothing written. A list that begins with byte 2 is read, as one whose stars stand still,
// and never written.
#![tactic(auto)]

ghost use Rattle.std.specs.Prelude.{◌≡◌, [], ◌∷◌, length, drop};
ghost use Rattle.quantity.specs.rules.Answer.{checked, shown, with};
ghost use Rattle.lent.specs.rules.Writing.{Wrote};
ghost use Rattle.lent.specs.rules.Put.{Put};
ghost use Rattle.list_groups.specs.rules.Reading.{read_number, read_at};
ghost use Rattle.list_groups.specs.rules.Several.{read_all};
ghost use Rattle.list_groups.specs.rules.Read.{shown_read};
ghost use Rattle.list_radio.specs.rules.Star.{star_groups, read_star};
ghost use Rattle.list_radio.specs.rules.Radio.{head_bytes, mark_refusal, is_moving, read_count, stars_of};
ghost use Rattle.list_radio.specs.rules.Reader.{open_rule, shown_place, shown_rates, ranged_at, star_at_rule, accept_rule};
ghost use Rattle.list_radio.specs.rules.Put.{head_text, star_text};

use list::Star;
use quantity::Refusal;

// The first byte of a radio list, and of one whose stars stand still.
const MARK: u8 = 3;

const STILL_MARK: u8 = 2;

const MOST_STARS: u32 = list::MOST_STARS as u32;

// Bytes of a radio list, at most (`accepted_has_room`): the first byte, a count of two groups, of each star three numbers of five and two
// of three.
pub const MOST_BYTES: usize = 3 + 21 * list::MOST_STARS;

// Bytes to read where a radio list is expected: four more than the longest has, which decide for all after them (`stars_decided`). The
// last star may have yearly changes of five groups each, and is refused by 9 after the last of them.
pub const READ: usize = MOST_BYTES + 4;

// Refusals: 13 for an empty list, 11 for another first byte than a radio list has.
fn mark_refusal(bytes: &[u8]) -> Result<(), Refusal>
    ensures { checked result ≡ mark_refusal bytes.now }
{
    if bytes.len() == 0 {
        return Err(Refusal::End);
    }
    if bytes[0] == MARK {
        return Ok(());
    }
    if bytes[0] == STILL_MARK {
        Ok(())
    } else {
        Err(Refusal::FirstByte)
    }
}

// Whether the first byte is that of stars with yearly changes.
pub fn is_moving(bytes: &[u8]) -> bool
    ensures { result ≡ is_moving bytes.now }
{
    if bytes.len() == 0 {
        return false;
    }
    bytes[0] == MARK
}

// The count that stands after the first byte, and the offset after it.
fn count_at(bytes: &[u8], at: usize) -> Result<(u32, usize), Refusal>
    ensures { shown_read result ≡ read_at read_count bytes.now at }
{
    let (n, next) = list_groups::number_at(bytes, at)?;
    if n <= MOST_STARS {
        Ok((n, next))
    } else {
        Err(Refusal::List)
    }
}

// How many stars, and the offset of the first.
// Refusals: 13 for an empty list, 11 for another first byte, 12 or 13 of the count, 8 for a count above what a list may have.
pub fn open(bytes: &[u8]) -> Result<(u32, usize), Refusal>
    ensures { shown_read result ≡ open_rule bytes.now }
{
    mark_refusal(bytes)?;
    count_at(bytes, 1)
}

// Three numbers that stand from an offset on, and the offset after them.
fn place_at(bytes: &[u8], at: usize) -> Result<(u32, u32, u32, usize), Refusal>
    ensures { shown_place result ≡ read_at (read_all read_number 3) bytes.now at }
{
    let (number, a) = list_groups::number_at(bytes, at)?;
    let (asc, b) = list_groups::number_at(bytes, a)?;
    let (dec, next) = list_groups::number_at(bytes, b)?;
    Ok((number, asc, dec, next))
}

// Two numbers that stand from an offset on, and the offset after them.
fn rates_at(bytes: &[u8], at: usize) -> Result<(u32, u32, usize), Refusal>
    ensures { shown_rates result ≡ read_at (read_all read_number 2) bytes.now at }
{
    let (asc_rate, a) = list_groups::number_at(bytes, at)?;
    let (dec_rate, next) = list_groups::number_at(bytes, a)?;
    Ok((asc_rate, dec_rate, next))
}

// The star of its numbers, of which the last three are folded, and the offset after them; 9 for a star out of range.
fn star_of(
    number: u32,
    asc: u32,
    dec: u32,
    asc_rate: u32,
    dec_rate: u32,
    next: usize,
) -> Result<(Star, usize), Refusal>
    ensures { shown_read result ≡ ranged_at (number ∷ asc ∷ dec ∷ asc_rate ∷ dec_rate ∷ []) next }
{
    let star = Star {
        number,
        asc,
        dec: list_groups::unfold(dec),
        asc_rate: list_groups::unfold(asc_rate),
        dec_rate: list_groups::unfold(dec_rate),
    };
    if list::in_range(star) {
        Ok((star, next))
    } else {
        Err(Refusal::Record)
    }
}

// The star that stands from an offset on, with yearly changes or without, whatever the first byte, and the offset after it.
pub fn star_from(bytes: &[u8], at: usize, moving: bool) -> Result<(Star, usize), Refusal>
    ensures { shown_read result ≡ read_at (read_star moving) bytes.now at }
{
    let (number, asc, dec, a) = place_at(bytes, at)?;
    if !moving {
        return star_of(number, asc, dec, 0, 0, a);
    }
    let (asc_rate, dec_rate, next) = rates_at(bytes, a)?;
    star_of(number, asc, dec, asc_rate, dec_rate, next)
}

// The star at an offset, and the offset after it.
// Refusals: 13 for an empty list, 11 for another first byte, then 12 or 13 number by number, then 9 for a star out of range.
pub fn star_at(bytes: &[u8], offset: usize) -> Result<(Star, usize), Refusal>
    ensures { shown_read result ≡ star_at_rule bytes.now offset }
{
    mark_refusal(bytes)?;
    star_from(bytes, offset, is_moving(bytes))
}

// How many stars there are, where so many stand from an offset on, with yearly changes or without, and nothing after them.
// Refusals: as `star_at` at each star, then 13 for bytes over.
pub fn check_stars(bytes: &[u8], n: u32, first: usize, moving: bool) -> Result<u32, Refusal>
    ensures { shown result ≡ with length (stars_of moving n (drop first bytes.now)) }
{
    let mut p = first;
    for _ in 0..n {
        let (_, next) = star_from(bytes, p, moving)?;
        p = next;
    }
    if p < bytes.len() {
        return Err(Refusal::End);
    }
    Ok(n)
}

// How many stars a whole list has.
// Refusals: the first met, as `open`, as `star_at` at each star, then 13 for bytes over.
pub fn accept(bytes: &[u8]) -> Result<u32, Refusal>
    ensures { shown result ≡ accept_rule bytes.now }
{
    let (n, first) = open(bytes)?;
    check_stars(bytes, n, first, is_moving(bytes))
}

// How many bytes a star takes.
pub fn star_size(star: Star) -> usize
    ensures { result ≡ length (star_groups star) }
{
    list_groups::count(star.number)
        + list_groups::count(star.asc)
        + list_groups::count(list_groups::fold(star.dec))
        + list_groups::count(list_groups::fold(star.asc_rate))
        + list_groups::count(list_groups::fold(star.dec_rate))
}

// A star's bytes from the offset on, in range or not, and the offset after them.
pub fn write_star(out: &mut [u8], at: usize, star: Star) -> usize
    ensures { Wrote out.old at (star_groups star) out.new result }
{
    let a = list_groups::put_number(out, at, star.number);
    let b = list_groups::put_number(out, a, star.asc);
    let c = list_groups::put_number(out, b, list_groups::fold(star.dec));
    let d = list_groups::put_number(out, c, list_groups::fold(star.asc_rate));
    list_groups::put_number(out, d, list_groups::fold(star.dec_rate))
}

// The first byte and the count from the offset on, and the offset after them.
pub fn write_head(out: &mut [u8], at: usize, n: u32) -> usize
    ensures { Wrote out.old at (head_bytes n) out.new result }
{
    let a = lent::put_byte(out, at, MARK);
    list_groups::put_number(out, a, n)
}

// The head of a list with so many stars, from the offset on.
// Refusals: 8 for a count above what a list may have, then 8 for no room.
pub fn put_head(out: &mut [u8], offset: usize, count: u32) -> Result<usize, Refusal>
    ensures { Put (head_text count) out.old offset out.new result }
{
    if count > MOST_STARS {
        return Err(Refusal::List);
    }
    if !lent::has_room(out.len(), offset, 1 + list_groups::count(count)) {
        return Err(Refusal::List);
    }
    Ok(write_head(out, offset, count))
}

// A star, from the offset on.
// Refusals: 9 for a star out of range, then 8 for no room.
pub fn put_star(out: &mut [u8], offset: usize, star: Star) -> Result<usize, Refusal>
    ensures { Put (star_text star) out.old offset out.new result }
{
    if !list::in_range(star) {
        return Err(Refusal::Record);
    }
    if !lent::has_room(out.len(), offset, star_size(star)) {
        return Err(Refusal::List);
    }
    Ok(write_star(out, offset, star))
}
