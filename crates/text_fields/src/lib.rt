// The fields and the lines of a text of sights, whatever they say: fields have blanks, tabs or carriage returns between them, what follows #
// is left out, and a line with nothing else is passed over. Promised: where the first field ends and what it says as a number and as an
// angle, where the next line that says something stands, and how many lines are read for it. What sights leave in slices that are lent for
// them is a rule over any reading of a line, for who walks along them.
#![tactic(auto)]

ghost use Rattle.std.specs.Prelude.{◌≡◌, length};
ghost use Rattle.text_whole.specs.rules.Unsigned.{shown, unsigned_rule};
ghost use Rattle.text_degrees.specs.rules.Degrees.{shown_read_degrees, degrees_rule};
ghost use Rattle.text_fields.specs.rules.Fields.{is_blank, is_stop, before, is_bare, field_of, after_field, field_end};
ghost use Rattle.text_fields.specs.rules.Lines.{line_length, first_said};
ghost use Rattle.text_fields.specs.rules.Next.{SaidNext};
ghost use Rattle.text_fields.specs.rules.Stored.{places_of};

use quantity::Deg;

// What a pass over bytes ends at: a line's end, the mark of a comment, a blank, or a byte that is none.
#[derive(Clone, Copy)]
pub enum Stop {
    LineEnd,
    Hash,
    Blank,
    Field,
}

// A line that says something: where what it says starts and ends in the text, how many lines were read for it, its own the last, and the
// offset after it.
#[derive(Clone, Copy)]
pub struct Said {
    pub start: usize,
    pub end: usize,
    pub passed: usize,
    pub next: usize,
}

// What is read of a line that says something, how many lines were read for it, its own the last, and the offset after it.
#[derive(Clone, Copy)]
pub struct Met<T> {
    pub what: T,
    pub passed: usize,
    pub next: usize,
}

// A line that cannot be read.
#[derive(Clone, Copy, PartialEq, Eq)]
pub struct Unclear;

// A line that cannot be read, with how many lines were read for it, its own the last.
#[derive(Clone, Copy, PartialEq, Eq)]
pub struct UnclearAt(pub usize);

// Why not all sights of a text are read: the line that cannot be read, or that there is no place for the next of them.
#[derive(Clone, Copy, PartialEq, Eq)]
pub enum Stopped {
    Unclear(usize),
    Full,
}

// ---- fields

// Whether a byte stands between fields.
fn is_blank(b: u8) -> bool
    ensures { result ≡ is_blank b }
{
    if b == b' ' {
        return true;
    }
    if b == b'\t' {
        return true;
    }
    b == b'\r'
}

// Whether a pass ends at a byte.
fn is_stop(stop: Stop, b: u8) -> bool
    ensures { result ≡ is_stop stop b }
{
    match stop {
        Stop::LineEnd => b == b'\n',
        Stop::Hash => b == b'#',
        Stop::Blank => is_blank(b),
        Stop::Field => !is_blank(b),
    }
}

// How many bytes come before the first at which a pass ends.
pub fn length_before(stop: Stop, text: &[u8]) -> usize
    ensures { result ≡ length (before stop text.now) }
{
    for (i, b) in text.iter().enumerate() {
        if is_stop(stop, *b) {
            return i;
        }
    }
    text.len()
}

// Whether there is no field.
pub fn is_bare(text: &[u8]) -> bool
    ensures { result ≡ is_bare text.now }
{
    length_before(Stop::Field, text) == text.len()
}

// How many bytes the first field ends after, with the blanks in front of it.
pub fn field_end(text: &[u8]) -> usize
    ensures { result ≡ field_end text.now }
{
    let start = length_before(Stop::Field, text);
    start + length_before(Stop::Blank, &text[start..])
}

// The first field.
pub fn first_field(text: &[u8]) -> &[u8]
    ensures { result.now ≡ field_of text.now }
{
    let start = length_before(Stop::Field, text);
    &text[start..field_end(text)]
}

// What follows the first field.
pub fn after_field(text: &[u8]) -> &[u8]
    ensures { result.now ≡ after_field text.now }
{
    &text[field_end(text)..]
}

// The number that the first field says, where it says one.
pub fn next_number(text: &[u8]) -> Option<u32>
    ensures { shown result ≡ unsigned_rule (field_of text.now) }
{
    text_whole::read_unsigned(first_field(text))
}

// The angle that the first field says, where it says one.
pub fn next_degrees(text: &[u8]) -> Option<Deg>
    ensures { shown_read_degrees result ≡ degrees_rule (field_of text.now) }
{
    text_degrees::read(first_field(text))
}

// ---- lines

// How many bytes the first line of a text has, its end included where it has one.
fn line_length(text: &[u8]) -> usize
    ensures { result ≡ line_length text.now }
{
    let k = length_before(Stop::LineEnd, text);
    if k < text.len() { k + 1 } else { k }
}

// How many bytes the first line of a text has in front of its comment.
fn said_length(text: &[u8]) -> usize
    ensures { result ≡ length (first_said text.now) }
{
    length_before(Stop::Hash, &text[..length_before(Stop::LineEnd, text)])
}

// The next line that says something from an offset on, which is 0 or one that an earlier call answered; none where no such line is left.
pub fn next_said(text: &[u8], at: usize) -> Option<Said>
    ensures { SaidNext text.now at result }
{
    let mut offset = at;
    let mut passed = 0;
    // It goes on by a line at a time, so that it is no `for` over the bytes.
    while offset < text.len() {
        let end = offset + said_length(&text[offset..]);
        let next = offset + line_length(&text[offset..]);
        passed += 1;
        if !is_bare(&text[offset..end]) {
            return Some(Said {
                start: offset,
                end,
                passed,
                next,
            });
        }
        offset = next;
    }
    None
}

// ---- places

// The fewest of four numbers: so many sights have a place in each of four slices.
pub fn fewest(a: usize, b: usize, c: usize, d: usize) -> usize
    ensures { result ≡ places_of a b c d }
{
    a.min(b).min(c.min(d))
}
