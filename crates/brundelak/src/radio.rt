// A list over the radio link: reader, writer and movers.
ghost use Rattle.list_radio.specs.rules.Reader.{open_rule, star_at_rule, accept_rule};
ghost use Rattle.list_radio.specs.rules.Put.{head_text, star_text};
ghost use Rattle.list_moves.specs.rules.Moves.{to_list, to_radio};
ghost use Rattle.brundelak.specs.rules.Put.{HandedNumber, HandedPut};
ghost use Rattle.brundelak.specs.rules.Radio.{HandedOpened, HandedReceived};
ghost use Rattle.brundelak.specs.rules.Stored.{fields};

use brundelak_handed::hand_value;
use list::Star;

// How many stars, and the offset of the first. Refusals: 13 (empty); 11; 12 or 13 (the count); 8.
#[unsafe(no_mangle)]
pub extern "C" fn brundelak_radio_open(bytes: &[u8], count: &mut u32, offset: &mut usize) -> u8
    ensures { HandedOpened (open_rule bytes.now) result count.old offset.old count.new offset.new }
{
    match list_radio::open(bytes) {
        Ok((stars, first)) => {
            *count = stars;
            *offset = first;
            0
        }
        Err(refusal) => refusal.number(),
    }
}

// The star at an offset, and the offset after it. Refusals: 13 (empty); 11; 12 or 13 number by number; 9.
#[unsafe(no_mangle)]
pub extern "C" fn brundelak_radio_star(
    bytes: &[u8],
    offset: usize,
    number: &mut u32,
    asc: &mut u32,
    dec: &mut i32,
    asc_rate: &mut i32,
    dec_rate: &mut i32,
    next: &mut usize,
) -> u8
    ensures { HandedReceived (star_at_rule bytes.now offset) result
        (fields number.old asc.old dec.old asc_rate.old dec_rate.old) next.old
        (fields number.new asc.new dec.new asc_rate.new dec_rate.new) next.new }
{
    match list_radio::star_at(bytes, offset) {
        Ok((star, after)) => {
            let d = star.dec;
            let u = star.asc_rate;
            let v = star.dec_rate;
            *number = star.number;
            *asc = star.asc;
            *dec = d;
            *asc_rate = u;
            *dec_rate = v;
            *next = after;
            0
        }
        Err(refusal) => refusal.number(),
    }
}

// How many stars a whole list has. Refusals: the first met, as of the head, of each star, then 13 for bytes over.
#[unsafe(no_mangle)]
pub extern "C" fn brundelak_radio_accept(bytes: &[u8], count: &mut u32) -> u8
    ensures { HandedNumber (accept_rule bytes.now) result count.old count.new }
{
    hand_value(list_radio::accept(bytes), count)
}

// The head of a list from an offset of the slice on, and the offset after it. Refusals: 8 (the count); 8 (no room).
#[unsafe(no_mangle)]
pub extern "C" fn brundelak_radio_put_head(
    out: &mut [u8],
    offset: usize,
    count: u32,
    next: &mut usize,
) -> u8
    ensures { HandedPut (head_text count) out.old offset result next.old out.new next.new }
{
    hand_value(list_radio::put_head(out, offset, count), next)
}

// A star from an offset of the slice on, and the offset after it. Refusals: 9; 8 (no room).
#[unsafe(no_mangle)]
pub extern "C" fn brundelak_radio_put_star(
    out: &mut [u8],
    offset: usize,
    number: u32,
    asc: u32,
    dec: i32,
    asc_rate: i32,
    dec_rate: i32,
    next: &mut usize,
) -> u8
    ensures { HandedPut (star_text (fields number asc dec asc_rate dec_rate)) out.old offset result next.old
        out.new next.new }
{
    let star = Star {
        number,
        asc,
        dec,
        asc_rate,
        dec_rate,
    };
    hand_value(list_radio::put_star(out, offset, star), next)
}

// A radio list as a stored list, and how many bytes were written. Refusals: as of the whole list; 8 (a short slice).
#[unsafe(no_mangle)]
pub extern "C" fn brundelak_radio_to_list(bytes: &[u8], out: &mut [u8], written: &mut usize) -> u8
    ensures { HandedPut (to_list bytes.now) out.old 0 result written.old out.new written.new }
{
    hand_value(list_moves::radio_to_list(bytes, out), written)
}

// A stored list as a radio list, and how many bytes were written. Refusals: 8 (no list); 9; 8 (a short slice).
#[unsafe(no_mangle)]
pub extern "C" fn brundelak_list_to_radio(bytes: &[u8], out: &mut [u8], written: &mut usize) -> u8
    ensures { HandedPut (to_radio bytes.now) out.old 0 result written.old out.new written.new }
{
    hand_value(list_moves::list_to_radio(bytes, out), written)
}
