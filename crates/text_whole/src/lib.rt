// Whole numbers of 32 bits in decimal: digits, with a sign in front where a signed one is asked for. Promised: the number that is written,
// or that it is none: no digit, another byte, or a number that has no 32 bits.
#![tactic(auto)]

ghost use Rattle.std.specs.Prelude.{◌≡◌};
ghost use Rattle.text_whole.specs.rules.Unsigned.{unclear, start, with_digit, with_byte, scanned, unsigned_from, shown, unsigned_rule};
ghost use Rattle.text_whole.specs.rules.Signed.{signed_in, with_sign, signed_rule};

// What was read so far: the digits as a whole number, whether there was one, and whether all was clear.
// `clear` stays a flag: the rule goes from byte to byte by this very struct, and what is unclear goes on through it.
#[derive(Clone, Copy)]
pub struct Scan {
    pub whole: u32,
    pub some: bool,
    pub clear: bool,
}

// The number, at most: 2^32 - 1.
const MOST: u64 = 4294967295;

// ---- without a sign

// What is not a number.
fn unclear() -> Scan
    ensures { result ≡ unclear }
{
    Scan {
        whole: 0,
        some: false,
        clear: false,
    }
}

// One digit more.
fn with_digit(scan: Scan, d: u8) -> Scan
    ensures { result ≡ with_digit scan d }
{
    let whole = scan.whole as u64 * 10 + d as u64;
    if whole > MOST {
        return unclear();
    }
    Scan {
        whole: whole as u32,
        some: true,
        clear: scan.clear,
    }
}

// One byte more.
fn with_byte(scan: Scan, b: u8) -> Scan
    ensures { result ≡ with_byte scan b }
{
    if b < b'0' {
        return unclear();
    }
    if b > b'9' {
        return unclear();
    }
    with_digit(scan, b - b'0')
}

// The whole text, byte after byte.
fn scan_of(text: &[u8]) -> Scan
    ensures { result ≡ scanned start text.now }
{
    let mut scan = Scan {
        whole: 0,
        some: false,
        clear: true,
    };
    for b in text {
        scan = with_byte(scan, *b);
    }
    scan
}

// The number that was read, where the text is one.
fn unsigned_from(scan: Scan) -> Option<u32>
    ensures { shown result ≡ unsigned_from scan }
{
    if scan.clear {
        if scan.some {
            return Some(scan.whole);
        }
    }
    None
}

// The number that the text says, where it is one.
pub fn read_unsigned(text: &[u8]) -> Option<u32>
    ensures { shown result ≡ unsigned_rule text.now }
{
    unsigned_from(scan_of(text))
}

// ---- with a sign

// n, or −n behind a minus sign, where it has 32 bits.
fn signed_in(minus: bool, n: u32) -> Option<i32>
    ensures { shown result ≡ signed_in minus n }
{
    let z = n as i64;
    if minus {
        return i32::try_from(-z).ok();
    }
    i32::try_from(z).ok()
}

// The number behind a sign.
fn with_sign(minus: bool, number: Option<u32>) -> Option<i32>
    ensures { shown result ≡ with_sign minus (shown number) }
{
    signed_in(minus, number?)
}

// The number that the text says, with a sign in front or none, where it is one.
pub fn read_signed(text: &[u8]) -> Option<i32>
    ensures { shown result ≡ signed_rule text.now }
{
    if text.len() == 0 {
        return None;
    }
    if text[0] == b'-' {
        return with_sign(true, read_unsigned(&text[1..]));
    }
    if text[0] == b'+' {
        return with_sign(false, read_unsigned(&text[1..]));
    }
    with_sign(false, read_unsigned(text))
}
