// The line of a refusal in words, for people. Promised: every byte of it.
#![tactic(auto)]

ghost use Rattle.lent.specs.rules.Writing.{Wrote};
ghost use Rattle.text_refusal.specs.rules.Refusal.{call_words, star_words, observer_words, number_words, refusal_text, plan_refusal_text};

// Each `put_` writes its text from the offset on, and answers the offset after it. This one: what a call of the batch can be refused by.
fn put_call_words(out: &mut [u8], at: usize, n: u8) -> usize
    ensures { Wrote out.old at (call_words n) out.new result }
{
    match n {
        1 => lent::put(out, at, b": a figure did not arrive: enter it again"),
        2 => lent::put(
            out,
            at,
            b": the day is outside the years 0 to 4000: check it",
        ),
        8 => lent::put(out, at, b": this is no list of stars, or a damaged one"),
        _ => lent::within(at, out.len()),
    }
}

// What one of its stars can be refused by.
pub fn put_star_words(out: &mut [u8], at: usize, n: u8) -> usize
    ensures { Wrote out.old at (star_words n) out.new result }
{
    match n {
        3 => lent::put(out, at, b": carried past the pole: check its rates"),
        4 => lent::put(out, at, b": too close to the pole: choose another star"),
        7 => lent::put(out, at, b": at the pole: choose another star"),
        9 => lent::put(out, at, b": the record is damaged"),
        10 => lent::put(out, at, b": an empty place"),
        14 => lent::put(out, at, b": exactly at the pole: choose another star"),
        _ => lent::within(at, out.len()),
    }
}

// What a plan's observer can be refused by.
fn put_observer_words(out: &mut [u8], at: usize, n: u8) -> usize
    ensures { Wrote out.old at (observer_words n) out.new result }
{
    match n {
        3 => lent::put(
            out,
            at,
            b": LATITUDE or ALTITUDE is past 90 degrees, or an angle past 3666: check them",
        ),
        4 => lent::put(
            out,
            at,
            b": LATITUDE is within 0.05 degrees of a pole: check it",
        ),
        _ => lent::within(at, out.len()),
    }
}

// The number, and the words that all calls share.
pub fn put_number_words(out: &mut [u8], at: usize, n: u8) -> usize
    ensures { Wrote out.old at (number_words n) out.new result }
{
    let a = lent::put(out, at, b"refused ");
    let b = text_number::put_decimal(out, a, n as u64);
    put_call_words(out, b, n)
}

// The line of a refusal of a reduced list or of one of its stars, with its words.
pub fn put_refusal(out: &mut [u8], at: usize, n: u8) -> usize
    ensures { Wrote out.old at (refusal_text n) out.new result }
{
    let a = put_number_words(out, at, n);
    let b = put_star_words(out, a, n);
    lent::put_byte(out, b, b'\n')
}

// The line of a refusal of a plan's call, likewise.
pub fn put_plan_refusal(out: &mut [u8], at: usize, n: u8) -> usize
    ensures { Wrote out.old at (plan_refusal_text n) out.new result }
{
    let a = put_number_words(out, at, n);
    let b = put_observer_words(out, a, n);
    lent::put_byte(out, b, b'\n')
}
