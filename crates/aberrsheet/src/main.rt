// The table of aberration by program: a line for each row, its argument, mark and coefficients, and the parts in T of these.
// `tools/aberrsheet` reads the lines and prints them as the printed table stands.
#![tactic(auto)]

use aberr_args::Row;
use std::io::Stdout;

// A row's argument and mark.
fn argument(out: Stdout, x: Row) {
    let _ = print!(out; " {} {} {} {} {} {} {}", x.0, x.1, x.2, x.3, x.4, x.5, x.6);
}

// Its coefficients.
fn coefficients(out: Stdout, x: Row) {
    let _ = print!(out; " {} {} {} {} {} {}", x.8, x.9, x.10, x.11, x.12, x.13);
}

// A row's line: q holds the parts in T of its coefficients, where it has any.
fn line(out: Stdout, x: Row, q: Row) {
    argument(out, x);
    coefficients(out, x);
    if x.7 == 0 {
        coefficients(out, Row(0, 0, 0, 0, 0, 0, 0, 0, 0, 0, 0, 0, 0, 0));
    } else {
        coefficients(out, q);
    }
    let _ = out.write_all(b"\n");
}

fn main(rt: HostRuntime) {
    let out = rt.stdout();
    let table = aberr_table::table();
    for i in 0..36 {
        let x = table[i];
        let n = x.7 as usize;
        line(out, x, table[n]);
    }
}
