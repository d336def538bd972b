// Signed numbers of 32 bits, and the words that they are stored as. Promised: sign, size, how far from the sign's first number, and the
// word by two's complement, each way, for every number; a byte as a word.
#![tactic(auto)]

ghost use Rattle.std.specs.Prelude.{◌≡◌, ◌<◌, nat_abs};
ghost use Rattle.signed.specs.rules.Signed.{negative, reach, word_of, signed_of};

// Whether z is below zero.
pub fn negative(z: i32) -> bool
    ensures { result ≡ negative z }
{
    z < 0
}

// How far z lies from 0, or from −1 where it is below zero: z, or −1 − z.
pub fn reach(z: i32) -> u32
    ensures { result ≡ reach z }
{
    if z < 0 { (-1 - z) as u32 } else { z as u32 }
}

// |z|.
pub fn size(z: i32) -> u32
    ensures { result ≡ nat_abs z }
{
    z.unsigned_abs()
}

// The word of z.
pub fn word_of(z: i32) -> u32
    ensures { result ≡ word_of z }
{
    z.cast_unsigned()
}

// The signed number of a word.
pub fn signed_of(u: u32) -> i32
    ensures { result ≡ signed_of u }
{
    u.cast_signed()
}

// A byte as a word.
pub fn wide(x: u8) -> u32
    ensures { (result ≡ x) × (result < 256) }
{
    x as u32
}
