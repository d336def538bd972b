// Bytes written into a lent slice. Promised: a text stands from its offset on as far as it finds room, all else stays, and no call asks
// anything; or it is put whole or not at all.
#![tactic(auto)]

ghost use Rattle.std.specs.Prelude.{◌+◌, min, ◌≡◌, [], ◌∷◌, leb};
ghost use Rattle.lent.specs.rules.Writing.{Wrote};

// One byte from the offset on, and the offset after it.
pub fn put_byte(out: &mut [u8], at: usize, b: u8) -> usize
    ensures { Wrote out.old at (b ∷ []) out.new result }
{
    if at < out.len() {
        out[at] = b;
        return at + 1;
    }
    out.len()
}

// The lower of an offset and a slice's end: where a text would begin.
pub fn within(at: usize, end: usize) -> usize
    ensures { result ≡ min at end }
{
    at.min(end)
}

// All of src from the offset on, and the offset after it.
pub fn put(out: &mut [u8], at: usize, src: &[u8]) -> usize
    ensures { Wrote out.old at src.now out.new result }
{
    let mut offset = within(at, out.len());
    for b in src {
        offset = put_byte(out, offset, *b);
    }
    offset
}

// Whether so many bytes have room from the offset on.
pub fn has_room(len: usize, at: usize, size: usize) -> bool
    ensures { result ≡ leb (at + size) len }
{
    if at > len {
        return false;
    }
    size <= len - at
}
