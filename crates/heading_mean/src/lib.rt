// The mean of a night's headings of one mark, on either side of north: no mean of raw numbers, but of the residuals from a
// reference, the first sight with which more than half of all agree. Promised: the written operations on every double, the sheet that is
// defined over the whole list, and a refusal where no sight is a reference; spread and the mean's error by our root, from whole numbers.
#![tactic(auto)]

ghost use Rattle.std.specs.Prelude.{◌-◌, ◌≤◌, ◌≡◌, pos, ◌-ℤ◌, length};
ghost use Rattle.std.specs.Float.{binary64};
ghost use Rattle.std.specs.Float.Ieee.{of_int};
ghost use Rattle.double.specs.rules.Operations.{bits};
ghost use Rattle.quantity.specs.rules.Refusal.{lower};
ghost use Rattle.list.specs.rules.Stars.{most_stars};
ghost use Rattle.residual_sheet.specs.rules.Residuals.{least_refusal};
ghost use Rattle.residual_sheet.specs.rules.Running.{running_of};
ghost use Rattle.heading_mean.specs.rules.Residual.{taken_back, residual_from};
ghost use Rattle.heading_mean.specs.rules.Reference.{vote, agreeing, is_reference, reference_place};
ghost use Rattle.heading_mean.specs.rules.Mean.{bits_refusal, number_refusal, headings_refusal, entries_from};
ghost use Rattle.heading_mean.specs.rules.Mean.{mean_of, shown_mean, mean_from, mean_heading_rule};
ghost use Rattle.heading_mean.specs.rules.Spread.{is_night, root_over, spread_of, mean_error};
ghost use Rattle.quantity.specs.rules.Answer.{checked, answered};

use helpers::{angle, circle};
use list::MOST_STARS;
use quantity::{Deg, Refusal};
use residual_sheet::{Residual, Running, Sheet};

// ---- one residual

// Less a turn where it exceeds half of one.
fn taken_back(x: Deg) -> Deg
    ensures { result ≡ taken_back x }
{
    if 180.0 < x.0 {
        return Deg(x.0 - 360.0);
    }
    x
}

// The residual of a heading from a reference.
pub fn residual_from(reference: Deg, heading: Deg) -> Residual
    ensures { result ≡ residual_from reference heading }
{
    let d = Deg(heading.0 - reference.0);
    residual_sheet::rounded(units::milliarcseconds(taken_back(angle::within_360(d))))
}

// ---- the reference

// 1 where a heading, lent as its bits, agrees with the reference.
fn vote(reference: Deg, b: u64) -> usize
    ensures { result ≡ vote reference b }
{
    let x = residual_from(reference, Deg(double::of_pattern(b)));
    if residual_sheet::is_aside(x) { 0 } else { 1 }
}

// How many agree with the reference.
fn agreeing(reference: Deg, headings: &[u64]) -> usize
    ensures { result ≡ agreeing reference headings.now }
{
    let mut count: usize = 0;
    for b in headings {
        count += vote(reference, *b);
    }
    count
}

// Whether more than half of all agree with a heading.
fn is_reference(headings: &[u64], b: u64) -> bool
    ensures { result ≡ is_reference headings.now b }
{
    let agreed = agreeing(Deg(double::of_pattern(b)), headings);
    headings.len() - agreed < agreed
}

// The place of the reference, or the number of headings where there is none.
pub fn reference_place(headings: &[u64]) -> usize
    ensures { result ≡ reference_place headings.now }
{
    for (i, b) in headings.iter().enumerate() {
        if is_reference(headings, *b) {
            return i;
        }
    }
    headings.len()
}

// ---- the sheet

// The figures of the residuals from the reference.
fn running_from(reference: Deg, headings: &[u64]) -> Running
    requires { length headings.now ≤ most_stars }
    ensures { result ≡ running_of (entries_from reference headings.now) }
{
    let mut r = Running {
        count: 0,
        above: 0,
        below: 0,
        squares: 0,
        largest: 0,
        place: 0,
        aside: 0,
    };
    for (i, b) in headings.iter().enumerate() {
        let x = residual_from(reference, Deg(double::of_pattern(*b)));
        r = residual_sheet::onward(r, i as u64, 0, x);
    }
    r
}

// ---- the mean

// A sum in two parts as a double.
fn sum_of(above: u64, below: u64) -> f64
    ensures { result ≡ of_int binary64 (pos above -ℤ pos below) }
{
    if above < below {
        return -double::from_whole(below - above);
    }
    double::from_whole(above - below)
}

// The mean, from the figures of the residuals.
fn mean_of(reference: Deg, figures: Running) -> Deg
    ensures { result ≡ mean_of reference (pos figures.above -ℤ pos figures.below) figures.count }
{
    let start = reference.0;
    let count = figures.count;
    let residual = sum_of(figures.above, figures.below) / double::from_whole(count);
    circle::on_circle(Deg(start + residual / 3600000.0))
}

// Mean and sheet, from the reference.
fn mean_from(reference: Deg, headings: &[u64]) -> Result<(Deg, Sheet), Refusal>
    requires { length headings.now ≤ most_stars }
    ensures { shown_mean result ≡ answered (mean_from reference headings.now) }
{
    let r = running_from(reference, headings);
    let m = mean_of(reference, r);
    let s = residual_sheet::sheet_from(r);
    Ok((m, s))
}

// ---- spread

// Whether figures are those of a night: from two sights to 3000, each within the limit.
fn is_night(count: u64, sum: u64, squares: u64) -> bool
    ensures { result ≡ is_night count sum squares }
{
    2 <= count && count <= 3000 && sum <= 3000000000 && squares <= 3000000000000000
}

// The root of a quotient of whole numbers.
fn root_over(a: u64, b: u64) -> f64
    ensures { result ≡ root_over a b }
{
    root::root_of(double::from_whole(a) / double::from_whole(b))
}

// The spread of the residuals in milliarcseconds, by their count, the size of their sum and the sum of their squares; 0.0 for one, or for
// figures that no night has.
pub fn spread_of(count: u64, sum: u64, squares: u64) -> f64
    ensures { result ≡ spread_of count sum squares }
{
    if is_night(count, sum, squares) {
        return root_over(
            (count * squares).saturating_sub(sum * sum),
            count * (count - 1),
        );
    }
    0.0
}

// The error of the mean, likewise.
pub fn mean_error(count: u64, sum: u64, squares: u64) -> f64
    ensures { result ≡ mean_error count sum squares }
{
    if is_night(count, sum, squares) {
        return root_over(
            (count * squares).saturating_sub(sum * sum),
            count * count * (count - 1),
        );
    }
    0.0
}

// ---- the call

// The least refusal of all headings.
fn least_refusal(headings: &[u64]) -> Result<(), Refusal>
    ensures { checked result ≡ least_refusal bits_refusal headings.now }
{
    let mut refusal = Ok(());
    for b in headings {
        let one = circle::circle_refusal(Deg(double::of_pattern(*b)));
        refusal = quantity::lower(refusal, one);
    }
    refusal
}

// Refusals of so many: 8.
fn number_refusal(n: usize) -> Result<(), Refusal>
    ensures { checked result ≡ number_refusal n }
{
    if n == 0 || MOST_STARS < n {
        Err(Refusal::List)
    } else {
        Ok(())
    }
}

// Refusals of a set: 8; then 1; then 3.
fn headings_refusal(headings: &[u64]) -> Result<(), Refusal>
    ensures { checked result ≡ headings_refusal headings.now }
{
    number_refusal(headings.len())?;
    least_refusal(headings)
}

// The mean of a night's headings of one mark, each in degrees, from any stars and times, and lent as its bits; with the sheet of their
// residuals from the reference, where a place is an index in the slice. Refusals: 8 for none, or more than 3000; then 1 for one that is not
// finite, then 3 for one below 0 or not below 360; then 20, where with no sight more than half of all agree.
pub fn mean_heading(headings: &[u64]) -> Result<(Deg, Sheet), Refusal>
    ensures { shown_mean result ≡ mean_heading_rule headings.now }
{
    headings_refusal(headings)?;
    let i = reference_place(headings);
    if i < headings.len() {
        return mean_from(Deg(double::of_pattern(headings[i])), headings);
    }
    Err(Refusal::SightsApart)
}
