// The moves between a stored list and a radio list (requests (i), (x)), from bytes to bytes. Promised: any bytes are moved or refused, the
// first refusal met; a list in range moves there and back to the same bytes, and nothing is written before all is known. What is written
// begins with byte 3; a radio list that begins with byte 2 moves as one whose stars do not change.
#![tactic(auto)]

ghost use Rattle.std.specs.Prelude.{◌≡◌, true, drop};
ghost use Rattle.quantity.specs.rules.Answer.{shown};
ghost use Rattle.lent.specs.rules.Writing.{Wrote};
ghost use Rattle.lent.specs.rules.Put.{Put};
ghost use Rattle.list.specs.rules.Stars.{is_list, stars, list_bytes};
ghost use Rattle.list_groups.specs.rules.Several.{spell_all};
ghost use Rattle.list_radio.specs.rules.Star.{star_groups};
ghost use Rattle.list_moves.specs.rules.Moves.{to_list, to_radio, stars_upto, size_of};

use quantity::Refusal;

// The records of the stars that stand from an offset on, with yearly changes or without, from the slice's start on: so many, and up to the
// first that is refused.
fn lay_stars(out: &mut [u8], bytes: &[u8], n: u32, first: usize, moving: bool) -> usize
    ensures { Wrote out.old 0 (list_bytes (stars_upto moving n (drop first bytes.now))) out.new result }
{
    let mut p = first;
    let mut offset = 0;
    for _ in 0..n {
        let Ok((star, next)) = list_radio::star_from(bytes, p, moving) else {
            return offset;
        };
        offset = list::write_star(out, offset, star);
        p = next;
    }
    offset
}

// A radio list as a stored list, from the slice's start on: how many bytes were written.
// Refusals: as `list_radio::accept`, then 8 for a slice that is shorter than the answer.
pub fn radio_to_list(bytes: &[u8], out: &mut [u8]) -> Result<usize, Refusal>
    ensures { Put (to_list bytes.now) out.old 0 out.new result }
{
    let (n, first) = list_radio::open(bytes)?;
    let moving = list_radio::is_moving(bytes);
    let m = list_radio::check_stars(bytes, n, first, moving)?;
    if out.len() < list::WIDTH * (m as usize) {
        return Err(Refusal::List);
    }
    Ok(lay_stars(out, bytes, n, first, moving))
}

// How many bytes the stars of a list take. Refusal: 9 for a record out of range.
fn stars_size(bytes: &[u8]) -> Result<usize, Refusal>
    requires { is_list bytes.now ≡ true }
    ensures { shown result ≡ size_of (stars bytes.now) }
{
    let mut size: usize = 0;
    for i in 0..list::count(bytes) {
        let star = list::nth(bytes, i);
        if !list::in_range(star) {
            return Err(Refusal::Record);
        }
        size += list_radio::star_size(star);
    }
    Ok(size)
}

// The stars of a list from the offset on, and the offset after them.
fn write_stars(out: &mut [u8], at: usize, bytes: &[u8]) -> usize
    ensures { Wrote out.old at (spell_all star_groups (stars bytes.now)) out.new result }
{
    let mut offset = lent::within(at, out.len());
    for i in 0..list::count(bytes) {
        offset = list_radio::write_star(out, offset, list::nth(bytes, i));
    }
    offset
}

// A stored list as a radio list, from the slice's start on: how many bytes were written.
// Refusals: 8 for bytes that are no list, 9 for a record out of range, then 8 for a slice that is shorter than the answer.
pub fn list_to_radio(bytes: &[u8], out: &mut [u8]) -> Result<usize, Refusal>
    ensures { Put (to_radio bytes.now) out.old 0 out.new result }
{
    if !list::is_list(bytes) {
        return Err(Refusal::List);
    }
    let size = stars_size(bytes)?;
    let n = list::count(bytes) as u32;
    if out.len() < 1 + list_groups::count(n) + size {
        return Err(Refusal::List);
    }
    let offset = list_radio::write_head(out, 0, n);
    Ok(write_stars(out, offset, bytes))
}
