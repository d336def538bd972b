// The list reader (section 7): the caller's bytes together with an offset in them. Promised: what the rule of the crate `list` shows there,
// until none is left.
#![tactic(auto)]

ghost use Rattle.std.specs.Prelude.{◌≡◌};
ghost use Rattle.list.specs.rules.Reader.{shown_stored, read_rule};

use list::Star;
use quantity::Refusal;

#[derive(Clone, Copy)]
pub struct Reader<'a> {
    pub bytes: &'a [u8],
    pub offset: usize,
}

// A reader of the bytes at an offset. The first star stands at offset 0, and each star is shown with the offset after it.
pub fn make<'a>(bytes: &'a [u8], offset: usize) -> Reader<'a>
    ensures { (result.bytes ≡ bytes.entry) × (result.offset ≡ offset) }
{
    Reader { bytes, offset }
}

// What stands at the reader's offset: a star, in range or not, or at the end none.
// Refusals: 8 for bytes that are no list, and for an offset past the end or not at a record's start.
pub fn next<'a>(reader: Reader<'a>) -> Result<Option<(Star, usize)>, Refusal>
    ensures { shown_stored result ≡ read_rule reader.entry.bytes.now reader.entry.offset }
{
    list::star_at(reader.bytes, reader.offset)
}

// What stands at an offset of the bytes, through a reader. Whoever calls this one holds no reader.
pub fn stored_at(bytes: &[u8], offset: usize) -> Result<Option<(Star, usize)>, Refusal>
    ensures { shown_stored result ≡ read_rule bytes.now offset }
{
    next(make(bytes, offset))
}
