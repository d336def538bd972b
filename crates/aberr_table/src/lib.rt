// The table of aberration (section 4; Ron and Vondrák; Meeus, chapter 23): 36 rows in source order, and behind them the parts in T of
// three. Promised: the Earth's velocity, the rows' sums, bit for bit that of the Rust's blocks on every day.
#![tactic(auto)]

ghost use Rattle.std.specs.Prelude.{◌≡◌, T};
ghost use Rattle.aberr_table.specs.rules.Table.{table, named, walk};
ghost use Rattle.aberr_table.specs.rules.Velocity.{rows, summed, none, velocity_of};

use aberr_args::{Arguments, Row, Velocity};
use helpers::time;

// ---- the table

// The angles by their numbers: the Moon's longitude L', those of Venus to Neptune, and D, M' and F. NO is none.
const NO: u8 = 0;

const L1: u8 = 1;

const L2: u8 = 2;

const L3: u8 = 3;

const L4: u8 = 4;

const L5: u8 = 5;

const L6: u8 = 6;

const L7: u8 = 7;

const L8: u8 = 8;

const D: u8 = 9;

const M1: u8 = 10;

const F: u8 = 11;

// The mark: where the crate has one product of a sum or a difference, which spread into two would have other bits at some double.
// A is the argument, X and Z are the sums.
const PLAIN: u8 = 0;

const A: u8 = 1;

const X: u8 = 2;

const Z: u8 = 4;

const AZ: u8 = 5;

const AXZ: u8 = 7;

// The row that holds a row's parts in T, by its index in ROWS: none, or those of rows 1, 2 and 5, behind the 36.
const T0: u8 = 0;

const T1: u8 = 36;

const T2: u8 = 37;

const T5: u8 = 38;

// The argument, the mark, the row of the parts in T, and for x, y and z: sine, cosine. The last three are parts in T, with no argument of
// their own.
const ROWS: [Row; 39] = [
    Row(
        1, L3, 0, NO, 0, NO, PLAIN, T1, -1719914, -25, 25, 1578089, 10, 684185,
    ),
    Row(
        2, L3, 0, NO, 0, NO, PLAIN, T2, 6434, 28007, 25697, -5904, 11141, -2559,
    ),
    Row(1, L5, 0, NO, 0, NO, PLAIN, T0, 715, 0, 6, -657, -15, -282),
    Row(1, L1, 0, NO, 0, NO, PLAIN, T0, 715, 0, 0, -656, 0, -285),
    Row(
        3, L3, 0, NO, 0, NO, PLAIN, T5, 486, -236, -216, -446, -94, -193,
    ),
    Row(1, L6, 0, NO, 0, NO, PLAIN, T0, 159, 0, 2, -147, -6, -61),
    Row(1, F, 0, NO, 0, NO, PLAIN, T0, 0, 0, 0, 26, 0, -59),
    Row(1, L1, 1, M1, 0, NO, PLAIN, T0, 39, 0, 0, -36, 0, -16),
    Row(2, L5, 0, NO, 0, NO, PLAIN, T0, 33, -10, -9, -30, -5, -13),
    Row(2, L3, -1, L5, 0, NO, PLAIN, T0, 31, 1, 1, -28, 0, -12),
    Row(3, L3, -8, L4, 3, L5, PLAIN, T0, 8, -28, 25, 8, 11, 3),
    Row(5, L3, -8, L4, 3, L5, PLAIN, T0, 8, -28, -25, -8, -11, -3),
    Row(2, L2, -1, L3, 0, NO, PLAIN, T0, 21, 0, 0, -19, 0, -8),
    Row(1, L2, 0, NO, 0, NO, PLAIN, T0, -19, 0, 0, 17, 0, 8),
    Row(1, L7, 0, NO, 0, NO, PLAIN, T0, 17, 0, 0, -16, 0, -7),
    Row(1, L3, -2, L5, 0, NO, PLAIN, T0, 16, 0, 0, 15, 1, 7),
    Row(1, L8, 0, NO, 0, NO, PLAIN, T0, 16, 0, 1, -15, -3, -6),
    Row(1, L3, 1, L5, 0, NO, PLAIN, T0, 11, -1, -1, -10, -1, -5),
    Row(2, L2, -2, L3, 0, NO, A, T0, 0, -11, -10, 0, -4, 0),
    Row(1, L3, -1, L5, 0, NO, PLAIN, T0, -11, -2, -2, 9, -1, 4),
    Row(4, L3, 0, NO, 0, NO, Z, T0, -7, -8, -8, 6, -3, 3),
    Row(3, L3, -2, L5, 0, NO, PLAIN, T0, -10, 0, 0, 9, 0, 4),
    Row(1, L2, -2, L3, 0, NO, PLAIN, T0, -9, 0, 0, -9, 0, -4),
    Row(2, L2, -3, L3, 0, NO, PLAIN, T0, -9, 0, 0, -8, 0, -4),
    Row(2, L6, 0, NO, 0, NO, PLAIN, T0, 0, -9, -8, 0, -3, 0),
    Row(2, L2, -4, L3, 0, NO, PLAIN, T0, 0, -9, 8, 0, 3, 0),
    Row(3, L3, -2, L4, 0, NO, PLAIN, T0, 8, 0, 0, -8, 0, -3),
    Row(1, L1, 2, D, -1, M1, PLAIN, T0, 8, 0, 0, -7, 0, -3),
    Row(8, L2, -12, L3, 0, NO, PLAIN, T0, -4, -7, -6, 4, -3, 2),
    Row(8, L2, -14, L3, 0, NO, PLAIN, T0, -4, -7, 6, -4, 3, -2),
    Row(2, L4, 0, NO, 0, NO, Z, T0, -6, -5, -4, 5, -2, 2),
    Row(3, L2, -4, L3, 0, NO, X, T0, -1, -1, -2, -7, 1, -4),
    Row(2, L3, -2, L5, 0, NO, AZ, T0, 4, -6, -5, -4, -2, -2),
    Row(3, L2, -3, L3, 0, NO, A, T0, 0, -7, -6, 0, -3, 0),
    Row(2, L3, -2, L4, 0, NO, AXZ, T0, 5, -5, -4, -5, -2, -2),
    Row(1, L1, -2, D, 0, NO, PLAIN, T0, 5, 0, 0, -5, 0, -2),
    Row(0, NO, 0, NO, 0, NO, PLAIN, T0, -2, 0, -13, 156, 32, -358),
    Row(
        0, NO, 0, NO, 0, NO, PLAIN, T0, 141, -107, -95, -130, -48, -55,
    ),
    Row(0, NO, 0, NO, 0, NO, PLAIN, T0, -5, -4, -4, 5, 0, 0),
];

// The table, for the walk and for whoever prints it.
pub fn table() -> [Row; 39]
    ensures { result ≡ table }
{
    ROWS
}

// ---- the sums

// The sums over a table's first 36 rows, each of which names a row of it. That row is read when sine and cosine are known: before, it would
// have to be kept while they are worked out.
fn sum_over(table: [Row; 39], g: Arguments) -> Velocity
    requires { T (named 39 table) }
    ensures { result ≡ walk table g none }
{
    let mut v = Velocity {
        x: 0.0,
        y: 0.0,
        z: 0.0,
    };
    let t = g.t;
    for i in 0..36 {
        let x = table[i];
        let n = x.7 as usize;
        let a = aberr_args::sin_cos_in(x, g);
        let sine = a.sine;
        let cosine = a.cosine;
        v = aberr_args::with_terms(x, table[n], t, sine, cosine, v);
    }
    v
}

// The sums over the table, which are those of the crate's rows.
fn rows_sum(g: Arguments) -> Velocity
    ensures { result ≡ summed rows g none }
{
    sum_over(table(), g)
}

// The Earth's velocity on a day.
pub fn velocity_on(day: f64) -> Velocity
    ensures { result ≡ velocity_of day }
{
    rows_sum(aberr_args::arguments_at(time::century(day)))
}
