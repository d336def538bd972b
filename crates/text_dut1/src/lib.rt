// UT1 - UTC in seconds, as a command's word: a sign or none, digits, at most one point and at most three digits after it, 0.9 in size at
// most. Promised: the milliseconds that are written, exactly, or that the text is no such word.
#![tactic(auto)]

ghost use Rattle.std.specs.Prelude.{◌≡◌};
ghost use Rattle.text_dut1.specs.rules.Scan.{start, unclear, next_worth, with_digit, with_point, with_byte, scanned};
ghost use Rattle.text_dut1.specs.rules.Dut1.{shown_dut1, signed_in, with_sign, dut1_rule};

// What was read so far: the digits as a whole number, the milliseconds that the last of them counts, whether a point and a digit stood there,
// and whether all was clear.
// `clear` stays a flag: the rule goes from byte to byte by this very struct, and what is unclear goes on through it.
#[derive(Clone, Copy)]
pub struct Scan {
    pub whole: u32,
    pub worth: u32,
    pub point: bool,
    pub some: bool,
    pub clear: bool,
}

// The milliseconds, at most.
const MOST: u64 = 900;

// What is none.
fn unclear() -> Scan
    ensures { result ≡ unclear }
{
    Scan {
        whole: 0,
        worth: 1000,
        point: false,
        some: false,
        clear: false,
    }
}

// The milliseconds that one digit more counts.
fn next_worth(scan: Scan) -> u32
    ensures { result ≡ next_worth scan }
{
    if scan.point {
        return scan.worth / 10;
    }
    scan.worth
}

// One digit more.
fn with_digit(scan: Scan, d: u8) -> Scan
    ensures { result ≡ with_digit scan d }
{
    let whole = scan.whole as u64 * 10 + d as u64;
    if whole > MOST {
        return unclear();
    }
    let worth = next_worth(scan);
    if worth == 0 {
        return unclear();
    }
    Scan {
        whole: whole as u32,
        worth,
        point: scan.point,
        some: true,
        clear: scan.clear,
    }
}

// The point.
fn with_point(scan: Scan) -> Scan
    ensures { result ≡ with_point scan }
{
    if scan.point {
        return unclear();
    }
    Scan {
        whole: scan.whole,
        worth: scan.worth,
        point: true,
        some: scan.some,
        clear: scan.clear,
    }
}

// One byte more.
fn with_byte(scan: Scan, b: u8) -> Scan
    ensures { result ≡ with_byte scan b }
{
    if b == b'.' {
        return with_point(scan);
    }
    if b < b'0' {
        return unclear();
    }
    if b > b'9' {
        return unclear();
    }
    with_digit(scan, b - b'0')
}

// The whole text, byte after byte.
fn scan_of(text: &[u8]) -> Scan
    ensures { result ≡ scanned start text.now }
{
    let mut scan = Scan {
        whole: 0,
        worth: 1000,
        point: false,
        some: false,
        clear: true,
    };
    for b in text {
        scan = with_byte(scan, *b);
    }
    scan
}

// n, or −n behind a minus sign, where it is not too large.
fn signed_in(minus: bool, n: u64) -> Option<i32>
    ensures { shown_dut1 result ≡ signed_in minus n }
{
    if n > MOST {
        return None;
    }
    let z = n as i32;
    if minus {
        return Some(-z);
    }
    Some(z)
}

// What was read, behind a sign.
fn with_sign(minus: bool, scan: Scan) -> Option<i32>
    ensures { shown_dut1 result ≡ with_sign minus scan }
{
    if scan.clear {
        if scan.some {
            return signed_in(minus, scan.whole as u64 * scan.worth as u64);
        }
    }
    None
}

// The milliseconds that the text says, where it says any.
pub fn read(text: &[u8]) -> Option<i32>
    ensures { shown_dut1 result ≡ dut1_rule text.now }
{
    if text.len() == 0 {
        return None;
    }
    if text[0] == b'-' {
        return with_sign(true, scan_of(&text[1..]));
    }
    if text[0] == b'+' {
        return with_sign(false, scan_of(&text[1..]));
    }
    with_sign(false, scan_of(text))
}
