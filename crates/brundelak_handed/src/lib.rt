// An answer handed to a C caller. Promised: its status, and the bits of its floats where it has them; a refusal leaves what is lent
// unchanged, bit for bit.
#![tactic(auto)]

ghost use Rattle.std.specs.Prelude.{◌≡◌};
ghost use Rattle.quantity.specs.rules.Answer.{shown_by, shown_two_by, shown_three_by};
ghost use Rattle.brundelak_handed.specs.rules.Boundary.{Handed, HandedValue, HandedTwo, HandedThree, number_of_degrees, number_of_radians};
ghost use Rattle.brundelak_handed.specs.rules.Boundary.{number_of_arcminutes, numbers_of_point, numbers_of_ecliptic};

use atmos::Arcmin;
use quantity::{Deg, EclPoint, EqPoint, Numbered, Rad};

// An answer of one number.
pub fn hand<E: Numbered>(a: Result<f64, E>, out: &mut u64) -> u8
    ensures { Handed (shown_by E.numbered a) result out.old out.new }
{
    match a {
        Ok(x) => {
            *out = double::pattern(x);
            0
        }
        Err(n) => n.numbered(),
    }
}

// An answer of two numbers.
pub fn hand_two<E: Numbered>(a: Result<(f64, f64), E>, first: &mut u64, second: &mut u64) -> u8
    ensures { HandedTwo (shown_two_by E.numbered a) result first.old second.old first.new second.new }
{
    match a {
        Ok((x, y)) => {
            *first = double::pattern(x);
            *second = double::pattern(y);
            0
        }
        Err(refusal) => refusal.numbered(),
    }
}

// An answer of three numbers.
pub fn hand_three<E: Numbered>(
    a: Result<(f64, f64, f64), E>,
    first: &mut u64,
    second: &mut u64,
    third: &mut u64,
) -> u8
    ensures { HandedThree (shown_three_by E.numbered a) result first.old second.old third.old first.new
        second.new third.new }
{
    match a {
        Ok((x, y, z)) => {
            *first = double::pattern(x);
            *second = double::pattern(y);
            *third = double::pattern(z);
            0
        }
        Err(refusal) => refusal.numbered(),
    }
}

// An answer of one value that is handed out as it is: a number's bits, a count, an offset.
pub fn hand_value<T: Copy, E: Numbered>(a: Result<T, E>, out: &mut T) -> u8
    ensures { HandedValue (shown_by E.numbered a) result out.old out.new }
{
    match a {
        Ok(x) => {
            *out = x;
            0
        }
        Err(refusal) => refusal.numbered(),
    }
}

// An answer in degrees as a number.
fn degrees_number<E: Numbered>(a: Result<Deg, E>) -> Result<f64, E>
    ensures { shown_by E.numbered result ≡ number_of_degrees (shown_by E.numbered a) }
{
    let x = a?;
    Ok(x.0)
}

// An answer in radians as a number.
fn radians_number<E: Numbered>(a: Result<Rad, E>) -> Result<f64, E>
    ensures { shown_by E.numbered result ≡ number_of_radians (shown_by E.numbered a) }
{
    let x = a?;
    Ok(x.0)
}

// An answer in minutes of arc as a number.
fn arcminutes_number<E: Numbered>(a: Result<Arcmin, E>) -> Result<f64, E>
    ensures { shown_by E.numbered result ≡ number_of_arcminutes (shown_by E.numbered a) }
{
    let x = a?;
    Ok(x.0)
}

// A point as its two numbers.
fn point_numbers<E: Numbered>(a: Result<EqPoint, E>) -> Result<(f64, f64), E>
    ensures { shown_two_by E.numbered result ≡ numbers_of_point (shown_by E.numbered a) }
{
    let p = a?;
    Ok((p.asc, p.dec))
}

// An ecliptic point as its two numbers.
fn ecliptic_numbers<E: Numbered>(a: Result<EclPoint, E>) -> Result<(f64, f64), E>
    ensures { shown_two_by E.numbered result ≡ numbers_of_ecliptic (shown_by E.numbered a) }
{
    let p = a?;
    Ok((p.long, p.lat))
}

// An answer in degrees, as its number.
pub fn hand_degrees<E: Numbered>(a: Result<Deg, E>, out: &mut u64) -> u8
    ensures { Handed (number_of_degrees (shown_by E.numbered a)) result out.old out.new }
{
    hand(degrees_number(a), out)
}

// An answer in radians, as its number.
pub fn hand_radians<E: Numbered>(a: Result<Rad, E>, out: &mut u64) -> u8
    ensures { Handed (number_of_radians (shown_by E.numbered a)) result out.old out.new }
{
    hand(radians_number(a), out)
}

// An answer in minutes of arc, as its number.
pub fn hand_arcminutes<E: Numbered>(a: Result<Arcmin, E>, out: &mut u64) -> u8
    ensures { Handed (number_of_arcminutes (shown_by E.numbered a)) result out.old out.new }
{
    hand(arcminutes_number(a), out)
}

// A point, as its two numbers.
pub fn hand_point<E: Numbered>(a: Result<EqPoint, E>, first: &mut u64, second: &mut u64) -> u8
    ensures { HandedTwo (numbers_of_point (shown_by E.numbered a)) result first.old second.old first.new second.new }
{
    hand_two(point_numbers(a), first, second)
}

// An ecliptic point, as its two numbers.
pub fn hand_ecliptic<E: Numbered>(a: Result<EclPoint, E>, first: &mut u64, second: &mut u64) -> u8
    ensures { HandedTwo (numbers_of_ecliptic (shown_by E.numbered a)) result first.old second.old first.new second.new }
{
    hand_two(ecliptic_numbers(a), first, second)
}
