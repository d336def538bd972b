// A stored list that is edited where it stands, in memory that a caller lends (request (xi)): a star struck off it, one added, and those
// that are kept brought forward. Number 0 is an empty place, whatever stands behind it. Promised: the whole of the bytes after a call; one
// that is refused leaves every byte.
#![tactic(auto)]

ghost use Rattle.std.specs.Prelude.{◌-◌, [], ◌∷◌, length, replicate};
ghost use Rattle.lent.specs.rules.Writing.{Wrote};
ghost use Rattle.list.specs.rules.Stars.{stars, kept, list_bytes};
ghost use Rattle.list_edit.specs.rules.Edit.{strike_rule, add_rule, gather_rule, Edit};

use list::Star;
use quantity::Refusal;

// ---- strike and add

// The first record with the number zeroed, in range or not.
// Refusals: 8 for bytes that are no list; 10 for number 0, and where no record has the number.
pub fn strike(bytes: &mut [u8], number: u32) -> Result<(), Refusal>
    ensures { Edit (strike_rule bytes.old number) bytes.old bytes.new result }
{
    if !list::is_list(bytes) {
        return Err(Refusal::List);
    }
    if number == 0 {
        return Err(Refusal::NoStar);
    }
    let i = list::index_of(bytes, number);
    if i >= list::count(bytes) {
        return Err(Refusal::NoStar);
    }
    list::write_star(bytes, i * list::WIDTH, list::nought());
    Ok(())
}

// The star's record in the first empty place.
// Refusals: 8 for bytes that are no list; 9 for number 0 and for a star out of range; 18 where a record has the number, in range or not;
// 19 where no place is empty.
pub fn add(bytes: &mut [u8], star: Star) -> Result<(), Refusal>
    ensures { Edit (add_rule bytes.old star) bytes.old bytes.new result }
{
    let number = star.number;
    if !list::is_list(bytes) {
        return Err(Refusal::List);
    }
    if number == 0 {
        return Err(Refusal::Record);
    }
    if !list::in_range(star) {
        return Err(Refusal::Record);
    }
    let n = list::count(bytes);
    if list::index_of(bytes, number) < n {
        return Err(Refusal::NumberPresent);
    }
    let i = list::index_of(bytes, 0);
    if i >= n {
        return Err(Refusal::NoEmptyPlace);
    }
    list::write_star(bytes, i * list::WIDTH, star);
    Ok(())
}

// ---- gather

// The star's record from the offset on where its number is not 0, and the offset after it.
fn put_kept(out: &mut [u8], at: usize, star: Star) -> usize
    ensures { Wrote out.old at (list_bytes (kept (star ∷ []))) out.new result }
{
    if star.number == 0 {
        return lent::within(at, out.len());
    }
    list::write_star(out, at, star)
}

// The records whose number is not 0 brought forward, in their order, and the offset after them.
fn bring_forward(bytes: &mut [u8]) -> usize
    ensures { Wrote bytes.old 0 (list_bytes (kept (stars bytes.old))) bytes.new result }
{
    let mut at = 0;
    for i in 0..list::count(bytes) {
        at = put_kept(bytes, at, list::nth(bytes, i));
    }
    at
}

// Zeros from the offset on to the end, and the offset after them.
pub fn put_zeros(out: &mut [u8], at: usize) -> usize
    ensures { Wrote out.old at (replicate (length out.old - at) 0) out.new result }
{
    let start = lent::within(at, out.len());
    out[start..].fill(0);
    out.len()
}

// Every record whose number is not 0 brought forward, in range or not, and zero bytes behind them. Refusal: 8 for bytes that are no list.
pub fn gather(bytes: &mut [u8]) -> Result<(), Refusal>
    ensures { Edit (gather_rule bytes.old) bytes.old bytes.new result }
{
    if !list::is_list(bytes) {
        return Err(Refusal::List);
    }
    let at = bring_forward(bytes);
    put_zeros(bytes, at);
    Ok(())
}
