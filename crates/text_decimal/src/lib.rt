// A day in decimal: digits and an optional point. Promised: the double nearest to what is written, by one rounding, or that it is none.
#![tactic(auto)]

ghost use Rattle.std.specs.Prelude.{◌≡◌};
ghost use Rattle.text_decimal.specs.rules.Decimal.{unclear, next_scale, with_digit, with_point, with_byte, decimal_from, shown_decimal, decimal_rule};

// What was read so far: the digits as a whole number, the power of ten below them, whether a point and a digit stood there, and
// whether all was clear.
// `clear` stays a flag: the rule goes from byte to byte by this very struct, and what is unclear goes on through it.
#[derive(Clone, Copy)]
pub struct Scan {
    pub whole: u64,
    pub scale: f64,
    pub point: bool,
    pub some: bool,
    pub clear: bool,
}

// The whole number, at most: 2^53.
const MOST: u64 = 9007199254740992;

// The power of ten, at most: 10^22, the largest that is exact.
const WIDEST: f64 = 10000000000000000000000.0;

// What is not a day.
fn unclear() -> Scan
    ensures { result ≡ unclear }
{
    Scan {
        whole: 0,
        scale: 1.0,
        point: false,
        some: false,
        clear: false,
    }
}

// The power of ten below one digit more.
fn next_scale(scan: Scan) -> f64
    ensures { result ≡ next_scale scan }
{
    if scan.point {
        return scan.scale * 10.0;
    }
    scan.scale
}

// One digit more.
fn with_digit(scan: Scan, d: u8) -> Scan
    ensures { result ≡ with_digit scan d }
{
    if scan.whole > MOST {
        return unclear();
    }
    let whole = scan.whole * 10 + d as u64;
    if whole > MOST {
        return unclear();
    }
    let scale = next_scale(scan);
    if WIDEST < scale {
        return unclear();
    }
    Scan {
        whole,
        scale,
        point: scan.point,
        some: true,
        clear: scan.clear,
    }
}

// The point.
fn with_point(scan: Scan) -> Scan
    ensures { result ≡ with_point scan }
{
    if scan.point {
        return unclear();
    }
    Scan {
        whole: scan.whole,
        scale: scan.scale,
        point: true,
        some: scan.some,
        clear: scan.clear,
    }
}

// One byte more.
fn with_byte(scan: Scan, b: u8) -> Scan
    ensures { result ≡ with_byte scan b }
{
    if b == b'.' {
        return with_point(scan);
    }
    if b < b'0' {
        return unclear();
    }
    if b > b'9' {
        return unclear();
    }
    with_digit(scan, b - b'0')
}

// The day that was read, where the text is one.
fn decimal_from(scan: Scan) -> Option<f64>
    ensures { shown_decimal result ≡ decimal_from scan }
{
    if scan.clear {
        if scan.some {
            return Some(std::num::nearest_u64_to_f64(scan.whole) / scan.scale);
        }
    }
    None
}

// The day that the text says, where it is one.
pub fn read(text: &[u8]) -> Option<f64>
    ensures { shown_decimal result ≡ decimal_rule text.now }
{
    let mut scan = Scan {
        whole: 0,
        scale: 1.0,
        point: false,
        some: false,
        clear: true,
    };
    for b in text {
        scan = with_byte(scan, *b);
    }
    decimal_from(scan)
}
