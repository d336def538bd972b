// What `residuals` prints: the six figures of each coordinate in a row, for programs; and a sheet for people, in milliarcseconds. Promised:
// every byte of both, each figure rounded once.
#![tactic(auto)]

ghost use Rattle.std.specs.Prelude.{◌≡◌, [], ◌∷◌, ◌++◌, nat_abs};
ghost use Rattle.lent.specs.rules.Writing.{Wrote};
ghost use Rattle.signed.specs.rules.Signed.{negative, reach};
ghost use Rattle.text_number.specs.rules.Number.{signed_text};
ghost use Rattle.units.specs.rules.Nearest.{nearest_whole};
ghost use Rattle.root.specs.rules.Root.{root_of};
ghost use Rattle.text_residuals.specs.rules.Figures.{sight_text, refused_sight_text, whole_then};
ghost use Rattle.text_residuals.specs.rules.Figures.{row_text, figures_text};
ghost use Rattle.text_residuals.specs.rules.Sheet.{quotient_of, mean_minus, line_star_text, where_text};
ghost use Rattle.text_residuals.specs.rules.Sheet.{taken_text, any_taken_text, coordinate_text, sheet_text, why_left, left_text};

use residual_sheet::{Residual, Sheet};

// Bytes of each text, at most: of a sight's line, of one that is not taken in, of the figures, of the sheet.
pub const SIGHT_ROOM: usize = 86;

pub const LEFT_ROOM: usize = 177;

pub const FIGURES_ROOM: usize = 264;

pub const SHEET_ROOM: usize = 644;

// ---- whole numbers of 64 bits

// Whether z is below zero.
fn negative(z: i64) -> bool
    ensures { result ≡ negative z }
{
    z < 0
}

// How far z lies from 0, or from −1 where it is below zero.
fn reach(z: i64) -> u64
    ensures { result ≡ reach z }
{
    if z < 0 { (-1 - z) as u64 } else { z as u64 }
}

// |z|.
pub fn size(z: i64) -> u64
    ensures { result ≡ nat_abs z }
{
    if negative(z) { reach(z) + 1 } else { reach(z) }
}

// Each `put_` writes its text from the offset on, and answers the offset after it. This one: a number by its sign and size, and a byte.
fn put_signed_then(out: &mut [u8], at: usize, minus: bool, n: u64, end: u8) -> usize
    ensures { Wrote out.old at (signed_text minus n ++ (end ∷ [])) out.new result }
{
    let a = text_number::put_signed(out, at, minus, n);
    lent::put_byte(out, a, end)
}

// A number, and a byte after it.
fn put_whole_then(out: &mut [u8], at: usize, z: i64, end: u8) -> usize
    ensures { Wrote out.old at (whole_then z end) out.new result }
{
    put_signed_then(out, at, negative(z), size(z), end)
}

// ---- a sight

// A sight's line: its line in the text of measured places, its star, and both residuals.
pub fn put_sight(
    out: &mut [u8],
    at: usize,
    line: u64,
    star: u64,
    asc: Residual,
    dec: Residual,
) -> usize
    ensures { Wrote out.old at (sight_text line star asc dec) out.new result }
{
    let a = put_signed_then(out, at, false, line, b' ');
    let b = put_signed_then(out, a, false, star, b' ');
    let c = put_signed_then(out, b, asc.minus, asc.size, b' ');
    put_signed_then(out, c, dec.minus, dec.size, b'\n')
}

// The line of a sight whose star is refused, or is not on the list.
pub fn put_refused_sight(out: &mut [u8], at: usize, line: u64, star: u64, n: u8) -> usize
    ensures { Wrote out.old at (refused_sight_text line star n) out.new result }
{
    let a = put_signed_then(out, at, false, line, b' ');
    let b = put_signed_then(out, a, false, star, b' ');
    text_number::put_refused(out, b, n)
}

// ---- figures

// The six figures of a coordinate in a row.
fn put_row(out: &mut [u8], at: usize, sheet: Sheet) -> usize
    ensures { Wrote out.old at (row_text sheet) out.new result }
{
    let a = put_whole_then(out, at, sheet.count, b' ');
    let b = put_whole_then(out, a, sheet.sum, b' ');
    let c = put_whole_then(out, b, sheet.squares, b' ');
    let d = put_whole_then(out, c, sheet.largest, b' ');
    let e = put_whole_then(out, d, sheet.place, b' ');
    put_whole_then(out, e, sheet.aside, b'\n')
}

// Both rows: right ascension's, then declination's.
pub fn put_figures(out: &mut [u8], at: usize, asc: Sheet, dec: Sheet) -> usize
    ensures { Wrote out.old at (figures_text asc dec) out.new result }
{
    let a = put_row(out, at, asc);
    put_row(out, a, dec)
}

// ---- a sheet for people

// One number over another, by their sizes.
fn quotient_of(n: i64, count: i64) -> f64
    ensures { result ≡ quotient_of n count }
{
    double::from_whole(size(n)) / double::from_whole(size(count))
}

// The size of a mean.
fn mean_size(sum: i64, count: i64) -> u64
    ensures { result ≡ nearest_whole (quotient_of sum count) }
{
    units::nearest_whole(quotient_of(sum, count))
}

// Whether a minus sign stands before a mean of size n.
fn mean_minus(sum: i64, n: u64) -> bool
    ensures { result ≡ mean_minus sum n }
{
    if negative(sum) { 0 < n } else { false }
}

// A root mean square.
fn root_size(squares: i64, count: i64) -> u64
    ensures { result ≡ nearest_whole (root_of (quotient_of squares count)) }
{
    units::nearest_whole(root::root_of(quotient_of(squares, count)))
}

// A label, a number by its sign and size, and a byte.
fn put_labelled(out: &mut [u8], at: usize, label: &[u8], minus: bool, n: u64, end: u8) -> usize
    ensures { Wrote out.old at (label.now ++ (signed_text minus n ++ (end ∷ []))) out.new result }
{
    let a = lent::put(out, at, label);
    put_signed_then(out, a, minus, n, end)
}

// A sight's line and its star, and a byte after them.
fn put_line_star(out: &mut [u8], at: usize, line: u64, star: u64, end: u8) -> usize
    ensures { Wrote out.old at (line_star_text line star ++ (end ∷ [])) out.new result }
{
    let a = put_labelled(out, at, b"line ", false, line, b',');
    put_labelled(out, a, b" star ", false, star, end)
}

// Those of the largest, and the line's end.
fn put_where(out: &mut [u8], at: usize, line: u64, star: u64) -> usize
    ensures { Wrote out.old at (where_text line star) out.new result }
{
    let a = lent::put_byte(out, at, b'(');
    let b = put_line_star(out, a, line, star, b')');
    lent::put_byte(out, b, b'\n')
}

// Mean, root mean square and largest of what is taken in.
fn put_taken(out: &mut [u8], at: usize, sheet: Sheet, line: u64, star: u64) -> usize
    ensures { Wrote out.old at (taken_text sheet line star) out.new result }
{
    let largest = sheet.largest;
    let mean = mean_size(sheet.sum, sheet.count);
    let minus = mean_minus(sheet.sum, mean);
    let root = root_size(sheet.squares, sheet.count);
    let a = put_labelled(out, at, b"  mean              ", minus, mean, b'\n');
    let b = put_labelled(out, a, b"  root mean square  ", false, root, b'\n');
    let c = put_labelled(
        out,
        b,
        b"  largest           ",
        negative(largest),
        size(largest),
        b' ',
    );
    put_where(out, c, line, star)
}

// The same, where anything is.
fn put_any_taken(out: &mut [u8], at: usize, sheet: Sheet, line: u64, star: u64) -> usize
    ensures { Wrote out.old at (any_taken_text sheet line star) out.new result }
{
    if size(sheet.count) == 0 {
        return lent::within(at, out.len());
    }
    put_taken(out, at, sheet, line, star)
}

// A coordinate.
fn put_coordinate(out: &mut [u8], at: usize, sheet: Sheet, line: u64, star: u64) -> usize
    ensures { Wrote out.old at (coordinate_text sheet line star) out.new result }
{
    let count = sheet.count;
    let aside = sheet.aside;
    let a = put_labelled(
        out,
        at,
        b"  taken in          ",
        negative(count),
        size(count),
        b'\n',
    );
    let b = put_any_taken(out, a, sheet, line, star);
    put_labelled(
        out,
        b,
        b"  set aside         ",
        negative(aside),
        size(aside),
        b'\n',
    )
}

// Where the largest of a coordinate stands: its line, and its star.
#[derive(Clone, Copy)]
pub struct Place {
    pub line: u64,
    pub star: u64,
}

// Both coordinates, each with the place of its largest.
pub fn put_sheet(
    out: &mut [u8],
    at: usize,
    asc: Sheet,
    asc_place: Place,
    dec: Sheet,
    dec_place: Place,
) -> usize
    ensures { Wrote out.old at (sheet_text asc asc_place dec dec_place) out.new result }
{
    let a = lent::put(
        out,
        at,
        b"right ascension, computed less measured, in milliarcseconds\n",
    );
    let b = put_coordinate(out, a, asc, asc_place.line, asc_place.star);
    let c = lent::put(
        out,
        b,
        b"declination, computed less measured, in milliarcseconds\n",
    );
    put_coordinate(out, c, dec, dec_place.line, dec_place.star)
}

// Why a sight is not taken in: find's 10, or the refusal of its star.
fn put_why_left(out: &mut [u8], at: usize, n: u8) -> usize
    ensures { Wrote out.old at (why_left n) out.new result }
{
    if n == 10 {
        return lent::put(out, at, b"not on the list\n");
    }
    text_refusal::put_refusal(out, at, n)
}

// A sight that is not taken in, in words.
pub fn put_left(out: &mut [u8], at: usize, line: u64, star: u64, n: u8) -> usize
    ensures { Wrote out.old at (left_text line star n) out.new result }
{
    let a = put_line_star(out, at, line, star, b':');
    let b = lent::put_byte(out, a, b' ');
    put_why_left(out, b, n)
}
