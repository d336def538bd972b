// Numbers of up to 32 bits in groups of seven bits, and the fold of signed numbers (request (i)). Promised: a number is read where it
// stands in its shortest spelling and refused by 12 or 13 elsewhere, at the byte that shows it; what is written reads back.
#![tactic(auto)]

ghost use Rattle.std.specs.Prelude.{◌≡◌, length};
ghost use Rattle.lent.specs.rules.Writing.{Wrote};
ghost use Rattle.list_groups.specs.rules.Groups.{groups};
ghost use Rattle.list_groups.specs.rules.Reading.{read_number, read_at};
ghost use Rattle.list_groups.specs.rules.Fold.{folded, unfolded};
ghost use Rattle.list_groups.specs.rules.Read.{shown_read};

use quantity::Refusal;

// Groups that may stand before a number's last one.
const BEFORE_LAST: u32 = 4;

// The number that stands from the offset on, and the offset after it.
// Refusals: 12 for a number that is not in its shortest length or above 32 bits, 13 where the bytes end first.
pub fn number_at(bytes: &[u8], at: usize) -> Result<(u32, usize), Refusal>
    ensures { shown_read result ≡ read_at read_number bytes.now at }
{
    let mut least: u32 = 0;
    let mut low: u32 = 0;
    let mut weight: u32 = 1;
    let mut p = at;
    for _ in 0..BEFORE_LAST {
        if p >= bytes.len() {
            return Err(Refusal::End);
        }
        let b = signed::wide(bytes[p]);
        if b < 128 {
            if b < least {
                return Err(Refusal::Spelling);
            }
            return Ok((low + weight * b, p + 1));
        }
        least = 1;
        low += weight * (b - 128);
        weight *= 128;
        p += 1;
    }
    if p >= bytes.len() {
        return Err(Refusal::End);
    }
    let b = signed::wide(bytes[p]);
    if b < 16 {
        if b < least {
            return Err(Refusal::Spelling);
        }
        return Ok((low + weight * b, p + 1));
    }
    Err(Refusal::Spelling)
}

// How many groups a number has.
pub fn count(n: u32) -> usize
    ensures { result ≡ length (groups n) }
{
    if n < 128 {
        return 1;
    }
    if n < 16384 {
        return 2;
    }
    if n < 2097152 {
        return 3;
    }
    if n < 268435456 {
        return 4;
    }
    5
}

// A number's groups from the offset on, and the offset after them.
pub fn put_number(out: &mut [u8], at: usize, n: u32) -> usize
    ensures { Wrote out.old at (groups n) out.new result }
{
    let mut offset = lent::within(at, out.len());
    let mut rest = n;
    // Stays a while loop: it goes by what is left of the number, and counts nothing.
    while 128 <= rest {
        offset = lent::put_byte(out, offset, (128 + rest % 128) as u8);
        rest /= 128;
    }
    lent::put_byte(out, offset, rest as u8)
}

// A signed number as an unsigned one.
pub fn fold(z: i32) -> u32
    ensures { result ≡ folded z }
{
    if signed::negative(z) {
        2 * signed::reach(z) + 1
    } else {
        2 * signed::reach(z)
    }
}

// The signed number that was folded.
pub fn unfold(n: u32) -> i32
    ensures { result ≡ unfolded n }
{
    let half = n / 2;
    if n % 2 == 0 {
        half as i32
    } else {
        -1 - (half as i32)
    }
}
