// The moves between the record of before, of 12 bytes, and the record of 20 (request (x)), from bytes to bytes. Promised: a list in range
// moves up and back to the same bytes; one with a yearly change that is not zero never moves down; nothing is written before all is known.
#![tactic(auto)]

ghost use Rattle.std.specs.Prelude.{◌≡◌, ◌+◌, ◌≤◌, length, get_or};
ghost use Rattle.lent.specs.rules.Writing.{Wrote};
ghost use Rattle.lent.specs.rules.Put.{Put};
ghost use Rattle.lent.specs.rules.Texts.{texts};
ghost use Rattle.list.specs.rules.Stars.{count_of, stars, nought, all_are, all_in_range};
ghost use Rattle.list_widths.specs.rules.Narrow.{narrow_width, narrow_at, narrow_bytes, is_still, is_narrow, narrow_count, narrow_stars};
ghost use Rattle.list_widths.specs.rules.Widths.{to_wide, to_narrow, wide_record, narrow_record};

use list::Star;
use quantity::Refusal;

// Bytes of a record of before.
pub const NARROW_WIDTH: usize = 12;

const MOST_NARROW_BYTES: usize = NARROW_WIDTH * list::MOST_STARS;

// ---- the record of before

// Whether the bytes are whole records of before, and no more of them than a list may have.
fn is_narrow(bytes: &[u8]) -> bool
    ensures { result ≡ is_narrow bytes.now }
{
    bytes.len() <= MOST_NARROW_BYTES && bytes.len() % NARROW_WIDTH == 0
}

// How many stars.
fn narrow_count(bytes: &[u8]) -> usize
    ensures { result ≡ narrow_count bytes.now }
{
    bytes.len() / NARROW_WIDTH
}

// The star whose record of before stands from the offset on.
fn narrow_at(bytes: &[u8], at: usize) -> Star
    requires { at + narrow_width ≤ length bytes.now }
    ensures { result ≡ narrow_at bytes.now at }
{
    Star {
        number: list::word_at(bytes, at),
        asc: list::word_at(bytes, at + 4),
        dec: signed::signed_of(list::word_at(bytes, at + 8)),
        asc_rate: 0,
        dec_rate: 0,
    }
}

// Star i; past the last one a star of zeros.
fn narrow_nth(bytes: &[u8], i: usize) -> Star
    ensures { result ≡ get_or (narrow_stars bytes.now) i nought }
{
    if i < narrow_count(bytes) {
        return narrow_at(bytes, i * NARROW_WIDTH);
    }
    list::nought()
}

// Whether a star stands still.
fn is_still(star: Star) -> bool
    ensures { result ≡ is_still star }
{
    signed::size(star.asc_rate) == 0 && signed::size(star.dec_rate) == 0
}

// A star's record of before from the offset on, and the offset after it.
fn write_narrow(out: &mut [u8], at: usize, star: Star) -> usize
    ensures { Wrote out.old at (narrow_bytes star) out.new result }
{
    let a = list::put_word(out, at, star.number);
    let b = list::put_word(out, a, star.asc);
    list::put_word(out, b, signed::word_of(star.dec))
}

// ---- up

// Whether every star of a list of before is in range.
fn narrow_in_range(bytes: &[u8]) -> bool
    ensures { result ≡ all_in_range (narrow_stars bytes.now) }
{
    (0..narrow_count(bytes)).all(|i| list::in_range(narrow_nth(bytes, i)))
}

// The records of the stars of a list of before, from the slice's start on.
fn write_up(out: &mut [u8], bytes: &[u8]) -> usize
    ensures { Wrote out.old 0 (texts (narrow_count bytes.now) (wide_record bytes.now)) out.new result }
{
    let mut offset = 0;
    for i in 0..narrow_count(bytes) {
        offset = list::write_star(out, offset, narrow_nth(bytes, i));
    }
    offset
}

// A list of records of 12 bytes as a list of 20, its stars standing still, from the slice's start on: how many bytes were written.
// Refusals: 8 for bytes that are no such list, 9 for a record out of range, then 8 for a slice that is shorter than the answer.
pub fn list_12_to_20(bytes: &[u8], out: &mut [u8]) -> Result<usize, Refusal>
    ensures { Put (to_wide bytes.now) out.old 0 out.new result }
{
    if !is_narrow(bytes) {
        return Err(Refusal::List);
    }
    if !narrow_in_range(bytes) {
        return Err(Refusal::Record);
    }
    let n = narrow_count(bytes);
    if out.len() < n * list::WIDTH {
        return Err(Refusal::List);
    }
    Ok(write_up(out, bytes))
}

// ---- down

// Whether every star of a list is in range.
fn all_in_range(bytes: &[u8]) -> bool
    ensures { result ≡ all_in_range (stars bytes.now) }
{
    (0..list::count(bytes)).all(|i| list::in_range(list::nth(bytes, i)))
}

// Whether every star of a list stands still.
fn all_still(bytes: &[u8]) -> bool
    ensures { result ≡ all_are is_still (stars bytes.now) }
{
    (0..list::count(bytes)).all(|i| is_still(list::nth(bytes, i)))
}

// The records of before of the stars of a list, from the slice's start on.
fn write_down(out: &mut [u8], bytes: &[u8]) -> usize
    ensures { Wrote out.old 0 (texts (count_of bytes.now) (narrow_record bytes.now)) out.new result }
{
    let mut offset = 0;
    for i in 0..list::count(bytes) {
        offset = write_narrow(out, offset, list::nth(bytes, i));
    }
    offset
}

// A list of records of 20 bytes as a list of 12, from the slice's start on: how many bytes were written.
// Refusals: 8 for bytes that are no list, 9 for a record out of range, 17 for a yearly change that is not zero, then 8 for a slice that is
// shorter than the answer.
pub fn list_20_to_12(bytes: &[u8], out: &mut [u8]) -> Result<usize, Refusal>
    ensures { Put (to_narrow bytes.now) out.old 0 out.new result }
{
    if !list::is_list(bytes) {
        return Err(Refusal::List);
    }
    if !all_in_range(bytes) {
        return Err(Refusal::Record);
    }
    if !all_still(bytes) {
        return Err(Refusal::MovingStar);
    }
    let n = list::count(bytes);
    if out.len() < n * NARROW_WIDTH {
        return Err(Refusal::List);
    }
    Ok(write_down(out, bytes))
}
