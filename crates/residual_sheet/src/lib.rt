// The residual sheet (request (xiii)): what a night's measured places leave of its computed ones, for each coordinate the count, the exact
// sum, the exact sum of squares, the largest size with its first place, and how many were set aside. Promised: of a residual the written
// operations on every double, of sizes up to 64.0 the nearest whole number of milliarcseconds, halves away from zero, and which residuals
// are set aside; the sheet is the one that is defined over the whole list.
#![tactic(auto)]

ghost use Rattle.std.specs.Prelude.{◌≤◌, max, ◌≡◌, length};
ghost use Rattle.quantity.specs.rules.Answer.{checked};
ghost use Rattle.double.specs.rules.Operations.{bits};
ghost use Rattle.quantity.specs.rules.Angle.{rad};
ghost use Rattle.quantity.specs.rules.Refusal.{lower, angle_refusal};
ghost use Rattle.list.specs.rules.Stars.{most_stars};
ghost use Rattle.residual_sheet.specs.rules.Residual.{difference, across_turn, rounded, in_milliarcseconds, is_aside, residual_of};
ghost use Rattle.residual_sheet.specs.rules.Entry.{entry_of, entries_of};
ghost use Rattle.residual_sheet.specs.rules.Residuals.{sheet_in, lengths_refusal, floats_refusal, residuals_refusal, shown_sheets, residuals_rule};
ghost use Rattle.residual_sheet.specs.rules.Running.{above, below, place_after, onward, running_of, sheet_from, AtMost};

use helpers::angle;
use list::MOST_STARS;
use quantity::{PI, Rad, Refusal};

// A whole number of milliarcseconds by its size, and whether a minus sign stands before it, as it never does before 0.
#[derive(Clone, Copy)]
pub struct Residual {
    pub minus: bool,
    pub size: u64,
}

// The six figures of a coordinate. A place is an index in the slices; largest and place are 0 and 0 where nothing is taken in.
#[derive(Clone, Copy)]
pub struct Sheet {
    pub count: i64,
    pub sum: i64,
    pub squares: i64,
    pub largest: i64,
    pub place: i64,
    pub aside: i64,
}

// The figures as they grow: the sum in two parts, of what is not below zero and of what is.
#[derive(Clone, Copy)]
pub struct Running {
    pub count: u64,
    pub above: u64,
    pub below: u64,
    pub squares: u64,
    pub largest: u64,
    pub place: u64,
    pub aside: u64,
}

// ---- one residual

// Computed less measured.
fn difference(computed: Rad, measured: Rad) -> Rad
    ensures { result ≡ difference computed measured }
{
    Rad(computed.0 - measured.0)
}

// A difference folded into one turn, and less a turn where it exceeds half of one.
fn across_turn(x: Rad) -> Rad
    ensures { result ≡ across_turn x }
{
    let y = angle::within_two_PI(x);
    if PI < y.0 {
        return Rad(y.0 - 6.283185307179586);
    }
    y
}

// Milliarcseconds to the nearest whole number.
pub fn rounded(y: f64) -> Residual
    ensures { result ≡ rounded y }
{
    let n = units::nearest_whole(double::size(y));
    Residual {
        minus: units::has_minus(y, n),
        size: n,
    }
}

// An angle in whole milliarcseconds.
fn in_milliarcseconds(x: Rad) -> Residual
    ensures { result ≡ in_milliarcseconds x }
{
    rounded(units::milliarcseconds(units::to_degrees(x)))
}

// The residual of an angle: of a right ascension, which is taken across the turn, or of a declination, which is not.
pub fn residual_of(across: bool, computed: Rad, measured: Rad) -> Residual
    ensures { result ≡ residual_of across computed measured }
{
    let d = difference(computed, measured);
    if across {
        return in_milliarcseconds(across_turn(d));
    }
    in_milliarcseconds(d)
}

// Whether a residual is set aside: above 1000000 in size, once rounded.
pub fn is_aside(x: Residual) -> bool
    ensures { result ≡ is_aside x }
{
    1000000 < x.size
}

// ---- one entry

// What a residual adds to the sum of those that are not below zero.
fn above(x: Residual) -> u64
    ensures { result ≡ above x }
{
    if x.minus { 0 } else { x.size }
}

// And to the sum of those that are.
fn below(x: Residual) -> u64
    ensures { result ≡ below x }
{
    if x.minus { x.size } else { 0 }
}

// The place of the largest after a residual of size n at place i.
fn place_after(count: u64, largest: u64, place: u64, n: u64, i: u64) -> u64
    ensures { result ≡ place_after count largest place n i }
{
    if count == 0 {
        return i;
    }
    if largest < n { i } else { place }
}

// The figures after an entry at place i.
pub fn onward(r: Running, i: u64, status: u8, x: Residual) -> Running
    requires { AtMost i r }
    ensures { result ≡ onward r i (entry_of status x) }
{
    if status != 0 {
        return r;
    }
    let n = x.size;
    if is_aside(x) {
        return Running {
            count: r.count,
            above: r.above,
            below: r.below,
            squares: r.squares,
            largest: r.largest,
            place: r.place,
            aside: r.aside + 1,
        };
    }
    Running {
        count: r.count + 1,
        above: r.above + above(x),
        below: r.below + below(x),
        squares: r.squares + n * n,
        largest: r.largest.max(n),
        place: place_after(r.count, r.largest, r.place, n, i),
        aside: r.aside,
    }
}

// ---- a coordinate

// The figures of every entry of three slices that are accepted: of right ascension, whose differences are taken across the turn, or not.
fn running_of(across: bool, status: &[u8], computed: &[u64], measured: &[u64]) -> Running
    requires status_len_bound { length status.now ≤ most_stars }
    requires computed_len { length computed.now ≡ length status.now }
    requires measured_len { length measured.now ≡ length status.now }
    requires computed_value { floats_refusal computed.now ≡ 0 }
    requires measured_value { floats_refusal measured.now ≡ 0 }
    ensures { result ≡ running_of (entries_of across status.now computed.now measured.now) }
{
    let n = status.len();
    let mut r = Running {
        count: 0,
        above: 0,
        below: 0,
        squares: 0,
        largest: 0,
        place: 0,
        aside: 0,
    };
    for i in 0..n {
        let c = f64::from_bits(computed[i]);
        let m = f64::from_bits(measured[i]);
        let x = residual_of(across, Rad(c), Rad(m));
        r = onward(r, i as u64, status[i], x);
    }
    r
}

// The figures as they are handed out, the two parts of the sum as one number.
pub fn sheet_from(r: Running) -> Sheet
    requires { AtMost most_stars r }
    ensures { result ≡ sheet_from r }
{
    let above = r.above as i64;
    let below = r.below as i64;
    Sheet {
        count: r.count as i64,
        sum: above - below,
        squares: r.squares as i64,
        largest: r.largest as i64,
        place: r.place as i64,
        aside: r.aside as i64,
    }
}

// The sheet of a coordinate.
fn coordinate_sheet(across: bool, status: &[u8], computed: &[u64], measured: &[u64]) -> Sheet
    requires status_len_bound { length status.now ≤ most_stars }
    requires computed_len { length computed.now ≡ length status.now }
    requires measured_len { length measured.now ≡ length status.now }
    requires computed_value { floats_refusal computed.now ≡ 0 }
    requires measured_value { floats_refusal measured.now ≡ 0 }
    ensures { result ≡ sheet_in across status.now computed.now measured.now }
{
    let r = running_of(across, status, computed, measured);
    sheet_from(r)
}

// ---- the call

// Refusals of slices of these lengths: 8 where they are unequal, or have more entries than a list has stars.
fn lengths_refusal(n: usize, a: usize, b: usize, c: usize, d: usize) -> Result<(), Refusal>
    ensures { checked result ≡ lengths_refusal n a b c d }
{
    if a == n && b == n && c == n && d == n && n <= MOST_STARS {
        Ok(())
    } else {
        Err(Refusal::List)
    }
}

// The lower of a refusal and that of a float, which is lent as its bits: 1; 3 past 64.0. Most floats are within the limit, and change nothing.
fn refusal_after(refusal: Result<(), Refusal>, b: u64) -> Result<(), Refusal>
    ensures { checked result ≡ lower (checked refusal) (angle_refusal (rad (bits b))) }
{
    let x = double::of_pattern(b);
    if double::size(x) <= 64.0 {
        return refusal;
    }
    quantity::lower(refusal, quantity::angle_refusal(Rad(x)))
}

// Refusals of all floats of a slice: 1; 3 past 64.0.
fn floats_refusal(s: &[u64]) -> Result<(), Refusal>
    ensures { checked result ≡ floats_refusal s.now }
{
    let mut refusal = Ok(());
    for b in s {
        refusal = refusal_after(refusal, *b);
    }
    refusal
}

// Refusals of the five slices: 8; then 1; then 3, whatever the statuses are.
fn residuals_refusal(
    status: &[u8],
    asc: &[u64],
    dec: &[u64],
    measured_asc: &[u64],
    measured_dec: &[u64],
) -> Result<(), Refusal>
    ensures { checked result ≡ residuals_refusal status.now asc.now dec.now measured_asc.now
        measured_dec.now }
{
    lengths_refusal(
        status.len(),
        asc.len(),
        dec.len(),
        measured_asc.len(),
        measured_dec.len(),
    )?;
    let computed = quantity::lower(floats_refusal(asc), floats_refusal(dec));
    let measured = quantity::lower(floats_refusal(measured_asc), floats_refusal(measured_dec));
    quantity::lower(computed, measured)
}

// The residuals of a night: of every entry of status 0 its computed right ascension and declination less the measured ones, each angle lent
// as its bits. Refusals: 8 for slices that are unequal or longer than a list; then 1 for a float that is not finite, then 3 for one past
// 64.0, entries of other statuses too.
pub fn residuals(
    status: &[u8],
    asc: &[u64],
    dec: &[u64],
    measured_asc: &[u64],
    measured_dec: &[u64],
) -> Result<(Sheet, Sheet), Refusal>
    ensures { shown_sheets result ≡ residuals_rule status.now asc.now dec.now
        measured_asc.now measured_dec.now }
{
    residuals_refusal(status, asc, dec, measured_asc, measured_dec)?;
    let a = coordinate_sheet(true, status, asc, measured_asc);
    let d = coordinate_sheet(false, status, dec, measured_dec);
    Ok((a, d))
}
