// A ceiling on nutation (document 02, xii): the sums over its table with each sine and cosine 1 and each coefficient its size. Promised:
// the rule, bit for bit, on every day; the crate `domain` has that no component of nutation exceeds it.
#![tactic(auto)]

ghost use Rattle.std.specs.Prelude.{◌≡◌};
ghost use Rattle.quantity.specs.rules.Answer.{shown_two};
ghost use Rattle.nutation_args.specs.rules.Sum.{none};
ghost use Rattle.nutation_table.specs.rules.Rows.{rows_of};
ghost use Rattle.nutation_ceiling.specs.rules.Ceiling.{largest, long_largest, oblq_largest, with_largest, largest_sum, ceiling_of, nutation_ceiling_rule};

use helpers::time;
use nutation_args::{Nutations, Row, Sums};
use quantity::{Deg, Refusal};

// ---- one row

// A ten-thousandth of a second of arc, in degrees.
const UNIT: f64 = 0.0001 / 3600.0;

// The most that a share can be, from its coefficient, the slow part and the size of the century.
fn largest(c: f64, d: f64, u: f64) -> Deg
    ensures { result ≡ largest c d u }
{
    Deg((double::size(c) + u * double::size(d) / 10.0) * 1.0 * UNIT)
}

// Of a row's share of the longitude.
fn long_largest(x: Row, u: f64) -> Deg
    ensures { result ≡ long_largest x u }
{
    largest(x.5 as f64, x.6 as f64, u)
}

// Of a row's share of the obliquity.
fn oblq_largest(x: Row, u: f64) -> Deg
    ensures { result ≡ oblq_largest x u }
{
    largest(x.7 as f64, x.8 as f64, u)
}

// The sums with one row more.
fn with_largest(x: Row, u: f64, s: Sums) -> Sums
    ensures { result ≡ with_largest x u s }
{
    let long = long_largest(x, u);
    let oblq = oblq_largest(x, u);
    Sums {
        long: Deg(s.long.0 + long.0),
        oblq: Deg(s.oblq.0 + oblq.0),
    }
}

// ---- the sums

// The sums over a table of rows.
fn sum_over(table: [[i32; 9]; 63], u: f64) -> Sums
    ensures { result ≡ largest_sum (rows_of table) u none }
{
    let mut s = Sums {
        long: Deg(0.0),
        oblq: Deg(0.0),
    };
    for i in 0..63 {
        s = with_largest(nutation_table::row_of(table[i]), u, s);
    }
    s
}

// The ceiling on a day that is not refused.
fn ceiling_on(day: f64) -> Nutations
    ensures { result ≡ ceiling_of day }
{
    nutation_args::converted(sum_over(nutation_table::table(), double::size(time::century(day))))
}

// The most, in size, that nutation in longitude and in obliquity can be on a day, in radians. Refusals: 1; 2.
pub fn nutation_ceiling(day: f64) -> Result<(f64, f64), Refusal>
    ensures { shown_two result ≡ nutation_ceiling_rule day }
{
    quantity::day_refusal(day)?;
    let n = ceiling_on(day);
    Ok((n.long.0, n.oblq.0))
}
