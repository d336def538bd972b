// One rotation for the whole list (request xiv): the three turns of two days as one matrix, and places under it, two at a time. Angles are
// in radians. Promised: the written products and sums, each rounded once and in the order written, zeros among them, and each of two
// places what it is alone. It is precession alone: a list under it stands in rotation_list.
#![tactic(auto)]

ghost use Rattle.std.specs.Prelude.{◌≡◌};
ghost use Rattle.rotation.specs.rules.Matrix.{row_with, row_times, product, applied};
ghost use Rattle.rotation.specs.rules.Turns.{about_y, about_z, rotation_by, rotation_of};
ghost use Rattle.rotation.specs.rules.Place.{vector_of, vector_under, rotated_two};

use edition::Edition;
use elementary::Direction;
use precess_angles::EqAngles;
use quantity::{Places, Rad};

// ---- matrices, by rows

// Three products, summed left to right.
fn summed(a: [f64; 3], x: f64, y: f64, z: f64) -> f64
    ensures { result ≡ row_with a x y z }
{
    (a[0] * x + a[1] * y) + a[2] * z
}

// A row of a product: a row of the left matrix with each column of the right.
fn row_times(a: [f64; 3], b: [[f64; 3]; 3]) -> [f64; 3]
    ensures { result ≡ row_times a b }
{
    [
        summed(a, b[0][0], b[1][0], b[2][0]),
        summed(a, b[0][1], b[1][1], b[2][1]),
        summed(a, b[0][2], b[1][2], b[2][2]),
    ]
}

// The product of two matrices.
fn product(a: [[f64; 3]; 3], b: [[f64; 3]; 3]) -> [[f64; 3]; 3]
    ensures { result ≡ product a b }
{
    [row_times(a[0], b), row_times(a[1], b), row_times(a[2], b)]
}

// A matrix applied to a vector.
fn applied(a: [[f64; 3]; 3], v: [f64; 3]) -> [f64; 3]
    ensures { result ≡ applied a v }
{
    let x = v[0];
    let y = v[1];
    let z = v[2];
    [
        summed(a[0], x, y, z),
        summed(a[1], x, y, z),
        summed(a[2], x, y, z),
    ]
}

// ---- the rotation of two days

// A turn of the axes about the third.
fn about_z(a: Rad) -> [[f64; 3]; 3]
    ensures { result ≡ about_z a }
{
    let t = elementary::sin_cos_of(a);
    let s = t.sine;
    let c = t.cosine;
    [[c, s, 0.0], [-s, c, 0.0], [0.0, 0.0, 1.0]]
}

// About the second.
fn about_y(a: Rad) -> [[f64; 3]; 3]
    ensures { result ≡ about_y a }
{
    let t = elementary::sin_cos_of(a);
    let s = t.sine;
    let c = t.cosine;
    [[c, 0.0, -s], [0.0, 1.0, 0.0], [s, 0.0, c]]
}

// The rotation by three angles: the right-hand pair is multiplied first.
fn rotation_by(angles: EqAngles) -> [[f64; 3]; 3]
    ensures { result ≡ rotation_by angles }
{
    let xi = angles.xi.0;
    let zeta = angles.zeta.0;
    let theta = angles.theta;
    let right = product(about_y(theta), about_z(Rad(-xi)));
    product(about_z(Rad(-zeta)), right)
}

// The rotation from the first day to the second.
pub fn rotation_of(edition: Edition, day1: f64, day2: f64) -> [[f64; 3]; 3]
    ensures { result ≡ rotation_of edition day1 day2 }
{
    rotation_by(precess_angles::eq_angles(edition, day1, day2))
}

// ---- places under it

// The unit vector of a direction.
fn vector_of(d: Direction) -> [f64; 3]
    ensures { result ≡ vector_of d }
{
    let sa = d.sin_asc;
    let ca = d.cos_asc;
    let sd = d.sin_dec;
    let cd = d.cos_dec;
    [cd * ca, cd * sa, sd]
}

// A direction's vector under a rotation.
pub fn vector_under(m: [[f64; 3]; 3], d: Direction) -> [f64; 3]
    ensures { result ≡ vector_under m d }
{
    applied(m, vector_of(d))
}

// Two places under a rotation, side by side, from the directions of both. Refusals of each: 14; 7. They are tested before the roots
// are taken, so that no sum is put off until after them.
pub fn rotated_two(m: [[f64; 3]; 3], d: Direction, e: Direction) -> Places
    ensures { result ≡ rotated_two m d e }
{
    let v = vector_under(m, d);
    let w = vector_under(m, e);
    let up = v[1];
    let across = v[0];
    let height = v[2];
    let up2 = w[1];
    let across2 = w[0];
    let height2 = w[2];
    let first_check = precess_arcs::arcs_refusal(up, across, height);
    let second_check = precess_arcs::arcs_refusal(up2, across2, height2);
    let root = elementary_arc::arcsine_root(height);
    let root2 = elementary_arc::arcsine_root(height2);
    let arcs = precess_arcs::arcs_two(up, across, height, root, up2, across2, height2, root2);
    Places {
        first_asc: arcs.first_asc,
        second_asc: arcs.second_asc,
        first_dec: arcs.first_dec,
        second_dec: arcs.second_dec,
        first_check,
        second_check,
    }
}
