// The stored list (section 7): record, reader, writer and find. Promised: every byte string is read, star i being its record whatever it
// holds, and a star in range is written so that it reads back; number 0 is an empty place, which reader and find pass over. Above the
// record all speaks of a list of stars.
#![tactic(auto)]

ghost use Rattle.std.specs.Prelude.{◌≡◌, ◌+◌, ◌≤◌, length, drop};
ghost use Rattle.lent.specs.rules.Writing.{Wrote};
ghost use Rattle.lent.specs.rules.Put.{Put};
ghost use Rattle.list.specs.rules.Record.{width, word_at, star_at, in_range, word_bytes, star_bytes};
ghost use Rattle.list.specs.rules.Stars.{is_list, count_of, stars, nought, nth};
ghost use Rattle.list.specs.rules.Reader.{shown_stored, empty_before, read_rule};
ghost use Rattle.list.specs.rules.Writer.{is_start, record_text};
ghost use Rattle.list.specs.rules.Find.{shown_found, index_of, find_rule};

use quantity::Refusal;

// A star's record: its number, its right ascension and declination in milliarcseconds, and the yearly change of each.
#[derive(Clone, Copy)]
pub struct Star {
    pub number: u32,
    pub asc: u32,
    pub dec: i32,
    pub asc_rate: i32,
    pub dec_rate: i32,
}

// Bytes of a record.
pub const WIDTH: usize = 20;

// Stars of a list, at most.
pub const MOST_STARS: usize = 3000;

const MOST_BYTES: usize = WIDTH * MOST_STARS;

// Bytes to read where a list is expected: one more than the longest has, so that a longer one is seen.
pub const READ: usize = MOST_BYTES + 1;

// The word that stands from the offset on.
pub fn word_at(bytes: &[u8], at: usize) -> u32
    requires { at + 4 ≤ length bytes.now }
    ensures { result ≡ word_at bytes.now at }
{
    signed::wide(bytes[at])
        + 256 * signed::wide(bytes[at + 1])
        + 65536 * signed::wide(bytes[at + 2])
        + 16777216 * signed::wide(bytes[at + 3])
}

// The star whose record stands from the offset on.
fn record_at(bytes: &[u8], at: usize) -> Star
    requires { at + width ≤ length bytes.now }
    ensures { result ≡ star_at bytes.now at }
{
    Star {
        number: word_at(bytes, at),
        asc: word_at(bytes, at + 4),
        dec: signed::signed_of(word_at(bytes, at + 8)),
        asc_rate: signed::signed_of(word_at(bytes, at + 12)),
        dec_rate: signed::signed_of(word_at(bytes, at + 16)),
    }
}

// A yearly change in milliarcseconds, at most.
const FASTEST: u32 = 20000;

// Whether right ascension is below a turn, declination at most a quarter turn in size, and neither changes too fast.
pub fn in_range(star: Star) -> bool
    ensures { result ≡ in_range star }
{
    if star.asc >= 1296000000 {
        return false;
    }
    if signed::size(star.dec) > 324000000 {
        return false;
    }
    if signed::size(star.asc_rate) > FASTEST {
        return false;
    }
    signed::size(star.dec_rate) <= FASTEST
}

// A word's bytes from the offset on, and the offset after them.
pub fn put_word(out: &mut [u8], at: usize, word: u32) -> usize
    ensures { Wrote out.old at (word_bytes word) out.new result }
{
    let a = lent::put_byte(out, at, (word % 256) as u8);
    let b = lent::put_byte(out, a, (word / 256 % 256) as u8);
    let c = lent::put_byte(out, b, (word / 65536 % 256) as u8);
    lent::put_byte(out, c, (word / 16777216) as u8)
}

// A record's bytes from the offset on, whatever the offset and in range or not, and the offset after them.
pub fn write_star(out: &mut [u8], at: usize, star: Star) -> usize
    ensures { Wrote out.old at (star_bytes star) out.new result }
{
    let a = put_word(out, at, star.number);
    let b = put_word(out, a, star.asc);
    let c = put_word(out, b, signed::word_of(star.dec));
    let d = put_word(out, c, signed::word_of(star.asc_rate));
    put_word(out, d, signed::word_of(star.dec_rate))
}

// Whether the bytes are whole records, and no more of them than a list may have.
pub fn is_list(bytes: &[u8]) -> bool
    ensures { result ≡ is_list bytes.now }
{
    bytes.len() <= MOST_BYTES && bytes.len() % WIDTH == 0
}

// How many stars.
pub fn count(bytes: &[u8]) -> usize
    ensures { result ≡ count_of bytes.now }
{
    bytes.len() / WIDTH
}

// The star of a record of zeros.
pub fn nought() -> Star
    ensures { result ≡ nought }
{
    Star {
        number: 0,
        asc: 0,
        dec: 0,
        asc_rate: 0,
        dec_rate: 0,
    }
}

// Star i, in range or not; past the last one a star of zeros.
pub fn nth(bytes: &[u8], i: usize) -> Star
    ensures { result ≡ nth bytes.now i }
{
    if i < count(bytes) {
        return record_at(bytes, i * WIDTH);
    }
    nought()
}

// The index of the first star that is kept, from an index on; where none is left, one past the last star.
fn kept_from(bytes: &[u8], from: usize) -> usize
    ensures { result ≡ from + empty_before (drop from (stars bytes.now)) }
{
    let n = count(bytes);
    for i in from..n {
        if nth(bytes, i).number != 0 {
            return i;
        }
    }
    from.max(n)
}

// The first star that is kept from an offset of a list on, in range or not, and the offset after it; where empty places alone are left, none.
// Refusals: 8 for bytes that are no list, and for an offset past the end or not at a record's start.
pub fn star_at(bytes: &[u8], offset: usize) -> Result<Option<(Star, usize)>, Refusal>
    ensures { shown_stored result ≡ read_rule bytes.now offset }
{
    if !is_list(bytes) {
        return Err(Refusal::List);
    }
    if offset > bytes.len() {
        return Err(Refusal::List);
    }
    if offset % WIDTH != 0 {
        return Err(Refusal::List);
    }
    let i = kept_from(bytes, offset / WIDTH);
    if i >= count(bytes) {
        return Ok(None);
    }
    Ok(Some((nth(bytes, i), (i + 1) * WIDTH)))
}

// Whether a record of a list may begin there.
fn is_start(offset: usize) -> bool
    ensures { result ≡ is_start offset }
{
    offset < MOST_BYTES && offset % WIDTH == 0
}

// A star's record, from the offset on.
// Refusals: 9 for a star out of range, then 8 for an offset at which no record of a list begins, and for no room.
pub fn put_star(out: &mut [u8], offset: usize, star: Star) -> Result<usize, Refusal>
    ensures { Put (record_text offset star) out.old offset out.new result }
{
    if !in_range(star) {
        return Err(Refusal::Record);
    }
    if !is_start(offset) {
        return Err(Refusal::List);
    }
    if !lent::has_room(out.len(), offset, WIDTH) {
        return Err(Refusal::List);
    }
    Ok(write_star(out, offset, star))
}

// The index of the first star with the number, or how many stars there are where none has it.
pub fn index_of(bytes: &[u8], number: u32) -> usize
    ensures { result ≡ index_of number (stars bytes.now) }
{
    let n = count(bytes);
    for i in 0..n {
        if nth(bytes, i).number == number {
            return i;
        }
    }
    n
}

// The first star with the number, and its index.
// Refusals: 8 for bytes that are no list; 10 for number 0, and where no star has the number; 9 where that star is out of range.
pub fn find(bytes: &[u8], number: u32) -> Result<(usize, Star), Refusal>
    ensures { shown_found result ≡ find_rule bytes.now number }
{
    if !is_list(bytes) {
        return Err(Refusal::List);
    }
    if number == 0 {
        return Err(Refusal::NoStar);
    }
    let i = index_of(bytes, number);
    if i >= count(bytes) {
        return Err(Refusal::NoStar);
    }
    let star = nth(bytes, i);
    if in_range(star) {
        return Ok((i, star));
    }
    Err(Refusal::Record)
}
