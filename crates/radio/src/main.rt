// Moves the star list on standard input from one form to another: where the argument is `unpack` the radio form becomes a stored list,
// where it is `up` a list of records of 12 bytes one of 20, where it is `down` a list of 20 one of 12, and else a stored list its radio
// form. What is refused has its line on standard error.
#![tactic(auto)]

ghost use Rattle.std.specs.Prelude.{cond};
ghost use Rattle.lent.specs.rules.Put.{Put};
ghost use Rattle.list_widths.specs.rules.Widths.{to_wide, to_narrow};
ghost use Rattle.list_moves.specs.rules.Moves.{to_list, to_radio};

use quantity::Refusal;

// Bytes of the longest form, at most.
const ROOM: usize = list_radio::MOST_BYTES;

// The list in its other form, from the slice's start on.
fn put_moved(
    out: &mut [u8],
    up: bool,
    down: bool,
    unpack: bool,
    bytes: &[u8],
) -> Result<usize, Refusal>
    ensures { Put (cond up (to_wide bytes.now) (cond down (to_narrow bytes.now) (cond unpack (to_list bytes.now)
        (to_radio bytes.now)))) out.old 0 out.new result }
{
    if up {
        return list_widths::list_12_to_20(bytes, out);
    }
    if down {
        return list_widths::list_20_to_12(bytes, out);
    }
    if unpack {
        list_moves::radio_to_list(bytes, out)
    } else {
        list_moves::list_to_radio(bytes, out)
    }
}

fn main(rt: HostRuntime) {
    let err = rt.stderr();
    let up = arguments::is_argument(&rt, 1, b"up");
    let down = arguments::is_argument(&rt, 1, b"down");
    let unpack = arguments::is_argument(&rt, 1, b"unpack");
    let mut input = [0u8; list_radio::READ];
    let n = arguments::read(&mut rt.reader(), &mut input);
    let mut out = [0u8; ROOM];
    match put_moved(&mut out, up, down, unpack, &input[..n]) {
        Ok(k) => {
            arguments::write(&rt, &err, &out[..k]);
        }
        Err(refusal) => {
            arguments::refuse(&err, refusal.number());
        }
    }
}
