// A stored list edited where it stands, in memory that a caller lends.
ghost use Rattle.list_edit.specs.rules.Edit.{strike_rule, add_rule, gather_rule};
ghost use Rattle.brundelak.specs.rules.Edits.{HandedEdit};
ghost use Rattle.brundelak.specs.rules.Stored.{fields};

use list::Star;

// The first record with the number zeroed. Refusals: 8; 10 (number 0, or no record has it).
#[unsafe(no_mangle)]
pub extern "C" fn brundelak_strike(bytes: &mut [u8], number: u32) -> u8
    ensures { HandedEdit (strike_rule bytes.old number) result bytes.old bytes.new }
{
    quantity::status_of(list_edit::strike(bytes, number))
}

// A star's record in the first empty place. Refusals: 8; 9 (number 0, or out of range); 18 (a record has the number); 19 (no place is empty).
#[unsafe(no_mangle)]
pub extern "C" fn brundelak_add(
    bytes: &mut [u8],
    number: u32,
    asc: u32,
    dec: i32,
    asc_rate: i32,
    dec_rate: i32,
) -> u8
    ensures { HandedEdit (add_rule bytes.old (fields number asc dec asc_rate dec_rate)) result bytes.old bytes.new }
{
    let star = Star {
        number,
        asc,
        dec,
        asc_rate,
        dec_rate,
    };
    quantity::status_of(list_edit::add(bytes, star))
}

// The records whose number is not 0 brought forward, and zeros behind them. Refusals: 8.
#[unsafe(no_mangle)]
pub extern "C" fn brundelak_gather(bytes: &mut [u8]) -> u8
    ensures { HandedEdit (gather_rule bytes.old) result bytes.old bytes.new }
{
    quantity::status_of(list_edit::gather(bytes))
}
