// Digits of the root from estimates that are right, too small and too large, a line each: a first digit, and the one that follows it.
#![tactic(auto)]

ghost use Rattle.std.specs.Prelude.{◌<◌, ◌^◌};

use std::io::Stdout;

fn print_line(out: Stdout, n: u64) {
    let _ = println!(out; "{n}");
}

// 29 binary digits of the root of 2^57.
fn first(out: Stdout, estimate: u64)
    requires { estimate < 2 ^ 30 }
{
    print_line(out, root::digit(0x200_0000_0000_0000, 0, 0, estimate));
}

// The 24 that follow: 759250124 is twice the first digit, and 377352028 is left beside its square.
fn second(out: Stdout, estimate: u64)
    requires { estimate < 2 ^ 30 }
{
    print_line(out, root::digit(377352028 << 24, 759250124, 24, estimate));
}

fn main(rt: HostRuntime) {
    let out = rt.stdout();
    first(out, 379625062);
    first(out, 379625061);
    first(out, 379625063);
    first(out, 379525062);
    first(out, 379725062);
    second(out, 8338380);
    second(out, 0);
    second(out, 0xff_ffff);
}
