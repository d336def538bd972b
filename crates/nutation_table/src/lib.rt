// The table of nutation (section 4): 63 rows of nine whole numbers. Promised: their sums in table order, bit for bit, on every day.
#![tactic(auto)]

ghost use Rattle.std.specs.Prelude.{◌≡◌};
ghost use Rattle.nutation_table.specs.rules.Rows.{table, row_of, rows_of, rows};
ghost use Rattle.nutation_args.specs.rules.Sum.{none, summed};
ghost use Rattle.nutation_table.specs.rules.Day.{nutation_of};

use helpers::time;
use nutation_args::{Moon, Nutations, Row, Sums};
use quantity::Deg;

const ROWS: [[i32; 9]; 63] = [
    [0, 0, 0, 0, 1, -171996, -1742, 92025, 89],
    [-2, 0, 0, 2, 2, -13187, -16, 5736, -31],
    [0, 0, 0, 2, 2, -2274, -2, 977, -5],
    [0, 0, 0, 0, 2, 2062, 2, -895, 5],
    [0, 1, 0, 0, 0, 1426, -34, 54, -1],
    [0, 0, 1, 0, 0, 712, 1, -7, 0],
    [-2, 1, 0, 2, 2, -517, 12, 224, -6],
    [0, 0, 0, 2, 1, -386, -4, 200, 0],
    [0, 0, 1, 2, 2, -301, 0, 129, -1],
    [-2, -1, 0, 2, 2, 217, -5, -95, 3],
    [-2, 0, 1, 0, 0, -158, 0, 0, 0],
    [-2, 0, 0, 2, 1, 129, 1, -70, 0],
    [0, 0, -1, 2, 2, 123, 0, -53, 0],
    [2, 0, 0, 0, 0, 63, 0, 0, 0],
    [0, 0, 1, 0, 1, 63, 1, -33, 0],
    [2, 0, -1, 2, 2, -59, 0, 26, 0],
    [0, 0, -1, 0, 1, -58, -1, 32, 0],
    [0, 0, 1, 2, 1, -51, 0, 27, 0],
    [-2, 0, 2, 0, 0, 48, 0, 0, 0],
    [0, 0, -2, 2, 1, 46, 0, -24, 0],
    [2, 0, 0, 2, 2, -38, 0, 16, 0],
    [0, 0, 2, 2, 2, -31, 0, 13, 0],
    [0, 0, 2, 0, 0, 29, 0, 0, 0],
    [-2, 0, 1, 2, 2, 29, 0, -12, 0],
    [0, 0, 0, 2, 0, 26, 0, 0, 0],
    [-2, 0, 0, 2, 0, -22, 0, 0, 0],
    [0, 0, -1, 2, 1, 21, 0, -10, 0],
    [0, 2, 0, 0, 0, 17, -1, 0, 0],
    [2, 0, -1, 0, 1, 16, 0, -8, 0],
    [-2, 2, 0, 2, 2, -16, 1, 7, 0],
    [0, 1, 0, 0, 1, -15, 0, 9, 0],
    [-2, 0, 1, 0, 1, -13, 0, 7, 0],
    [0, -1, 0, 0, 1, -12, 0, 6, 0],
    [0, 0, 2, -2, 0, 11, 0, 0, 0],
    [2, 0, -1, 2, 1, -10, 0, 5, 0],
    [2, 0, 1, 2, 2, -8, 0, 3, 0],
    [0, 1, 0, 2, 2, 7, 0, -3, 0],
    [-2, 1, 1, 0, 0, -7, 0, 0, 0],
    [0, -1, 0, 2, 2, -7, 0, 3, 0],
    [2, 0, 0, 2, 1, -7, 0, 3, 0],
    [2, 0, 1, 0, 0, 6, 0, 0, 0],
    [-2, 0, 2, 2, 2, 6, 0, -3, 0],
    [-2, 0, 1, 2, 1, 6, 0, -3, 0],
    [2, 0, -2, 0, 1, -6, 0, 3, 0],
    [2, 0, 0, 0, 1, -6, 0, 3, 0],
    [0, -1, 1, 0, 0, 5, 0, 0, 0],
    [-2, -1, 0, 2, 1, -5, 0, 3, 0],
    [-2, 0, 0, 0, 1, -5, 0, 3, 0],
    [0, 0, 2, 2, 1, -5, 0, 3, 0],
    [-2, 0, 2, 0, 1, 4, 0, 0, 0],
    [-2, 1, 0, 2, 1, 4, 0, 0, 0],
    [0, 0, 1, -2, 0, 4, 0, 0, 0],
    [-1, 0, 1, 0, 0, -4, 0, 0, 0],
    [-2, 1, 0, 0, 0, -4, 0, 0, 0],
    [1, 0, 0, 0, 0, -4, 0, 0, 0],
    [0, 0, 1, 2, 0, 3, 0, 0, 0],
    [0, 0, -2, 2, 2, -3, 0, 0, 0],
    [-1, -1, 1, 0, 0, -3, 0, 0, 0],
    [0, 1, 1, 0, 0, -3, 0, 0, 0],
    [0, -1, 1, 2, 2, -3, 0, 0, 0],
    [2, -1, -1, 2, 2, -3, 0, 0, 0],
    [0, 0, 3, 2, 2, -3, 0, 0, 0],
    [2, -1, 0, 2, 2, -3, 0, 0, 0],
];

// The table, for each walk over it.
pub fn table() -> [[i32; 9]; 63]
    ensures { result ≡ table }
{
    ROWS
}

// A row of the table by its nine numbers.
pub fn row_of(x: [i32; 9]) -> Row
    ensures { result ≡ row_of x }
{
    Row(x[0], x[1], x[2], x[3], x[4], x[5], x[6], x[7], x[8])
}

// ---- the sums

// The sums over a table of rows.
fn sum_over(table: [[i32; 9]; 63], a: Moon) -> Sums
    ensures { result ≡ summed (rows_of table) a none }
{
    let mut s = Sums {
        long: Deg(0.0),
        oblq: Deg(0.0),
    };
    for i in 0..63 {
        s = nutation_args::with_row(row_of(table[i]), a, s);
    }
    s
}

// The sums over the table.
fn table_sum(a: Moon) -> Sums
    ensures { result ≡ summed rows a none }
{
    sum_over(table(), a)
}

// Nutation on a day that is not refused.
pub fn nutation_on(day: f64) -> Nutations
    ensures { result ≡ nutation_of day }
{
    nutation_args::converted(table_sum(nutation_args::moon_at(time::century(day))))
}
