// The text of measured places, a line a sight: the star's number, its right ascension and its declination in decimal degrees. Fields,
// comments and lines are `text_fields`'s. Promised: exactly the sights that stand there, each with its line, one after the other or all of
// them into slices; or the line that is none.
#![tactic(auto)]

ghost use Rattle.std.specs.Prelude.{◌<◌, ◌≡◌, length, drop};
ghost use Rattle.text_whole.specs.rules.Unsigned.{shown};
ghost use Rattle.text_degrees.specs.rules.Degrees.{shown_read_degrees};
ghost use Rattle.text_fields.specs.rules.Lines.{lines};
ghost use Rattle.text_fields.specs.rules.Next.{shown_next, next_of};
ghost use Rattle.text_fields.specs.rules.Walk.{shown_line};
ghost use Rattle.text_fields.specs.rules.Stored.{places_of};
ghost use Rattle.text_fields.specs.notions.Stored.{EntryStored};
ghost use Rattle.text_measured.specs.rules.Sight.{sight_from, with_dec, with_asc, sight_rule, line_rule};
ghost use Rattle.text_measured.specs.rules.Sights.{entry_of, columns, ReadSights};

use helpers::angle;
use quantity::Deg;
use text_fields::{Met, Stop, Stopped, Unclear, UnclearAt};

// A star's number with its right ascension and declination.
#[derive(Clone, Copy)]
pub struct Sight {
    pub number: u32,
    pub asc: Deg,
    pub dec: Deg,
}

// ---- a line

// The sight, where all three fields are clear.
fn sight_from(number: Option<u32>, asc: Option<Deg>, dec: Option<Deg>) -> Option<Sight>
    ensures { shown result ≡ sight_from (shown number) (shown_read_degrees asc) (shown_read_degrees dec) }
{
    Some(Sight {
        number: number?,
        asc: asc?,
        dec: dec?,
    })
}

// The sight whose declination stands in the text, which has no field more.
fn with_dec(number: Option<u32>, asc: Option<Deg>, text: &[u8]) -> Option<Sight>
    ensures { shown result ≡ with_dec (shown number) (shown_read_degrees asc) text.now }
{
    if text_fields::is_bare(text_fields::after_field(text)) {
        return sight_from(number, asc, text_fields::next_degrees(text));
    }
    None
}

// The sight whose right ascension and declination stand in the text.
fn with_asc(number: Option<u32>, text: &[u8]) -> Option<Sight>
    ensures { shown result ≡ with_asc (shown number) text.now }
{
    with_dec(
        number,
        text_fields::next_degrees(text),
        text_fields::after_field(text),
    )
}

// The sight whose number and angles stand in the text.
fn read_sight(text: &[u8]) -> Option<Sight>
    ensures { shown result ≡ sight_rule text.now }
{
    with_asc(
        text_fields::next_number(text),
        text_fields::after_field(text),
    )
}

// The sight that a line says, none where it says nothing.
pub fn read_line(line: &[u8]) -> Result<Option<Sight>, Unclear>
    ensures { shown_line result ≡ line_rule line.now }
{
    let end = text_fields::length_before(Stop::Hash, line);
    if text_fields::is_bare(&line[..end]) {
        return Ok(None);
    }
    match read_sight(&line[..end]) {
        Some(sight) => Ok(Some(sight)),
        None => Err(Unclear),
    }
}

// ---- a text

// The next sight from an offset on, which is 0 or one that an earlier call answered; none where no line is left that says something.
pub fn next_sight(text: &[u8], at: usize) -> Result<Option<Met<Sight>>, UnclearAt>
    ensures { shown_next text.now result ≡ next_of sight_rule 0 (lines (drop at text.now)) }
{
    let Some(said) = text_fields::next_said(text, at) else {
        return Ok(None);
    };
    match read_sight(&text[said.start..said.end]) {
        Some(sight) => Ok(Some(Met {
            what: sight,
            passed: said.passed,
            next: said.next,
        })),
        None => Err(UnclearAt(said.passed)),
    }
}

// ---- all of them

// One sight at its place in what is lent: its line, its star, and the bits of its two angles in radians.
fn store_sight(
    line: &mut [u64],
    star: &mut [u32],
    asc: &mut [u64],
    dec: &mut [u64],
    i: usize,
    at_line: usize,
    sight: Sight,
)
    requires i_in_bounds { i < length line.old }
    requires i_in_bounds_2 { i < length star.old }
    requires i_in_bounds_3 { i < length asc.old }
    requires i_in_bounds_4 { i < length dec.old }
    ensures { EntryStored columns (entry_of sight at_line) i line.old star.old asc.old dec.old
        line.new star.new asc.new dec.new }
{
    line[i] = at_line as u64;
    star[i] = sight.number;
    let x = angle::radians(sight.asc);
    let y = angle::radians(sight.dec);
    asc[i] = double::pattern(x.0);
    dec[i] = double::pattern(y.0);
}

// Every sight of a text: its line, its star, and the bits of its right ascension and declination in radians, each at its place in what is
// lent, in the text's order. A sight that finds no place in each slice, and a line that cannot be read, ends it; what was met before stands.
pub fn read_sights(
    text: &[u8],
    line: &mut [u64],
    star: &mut [u32],
    asc: &mut [u64],
    dec: &mut [u64],
) -> Result<usize, Stopped>
    ensures { ReadSights
        (places_of (length line.old) (length star.old) (length asc.old) (length dec.old))
        text.now line.old star.old asc.old dec.old result
        line.new star.new asc.new dec.new }
{
    let places = text_fields::fewest(line.len(), star.len(), asc.len(), dec.len());
    let mut at = 0;
    let mut passed = 0;
    let mut n = 0;
    // The text ends it, and `n` counts the sights that are stored.
    loop {
        match next_sight(text, at) {
            Ok(Some(met)) => {
                if n >= places {
                    return Err(Stopped::Full);
                }
                passed += met.passed;
                store_sight(line, star, asc, dec, n, passed, met.what);
                at = met.next;
                n += 1;
            }
            Ok(None) => {
                return Ok(n);
            }
            Err(UnclearAt(lines)) => {
                return Err(Stopped::Unclear(passed + lines));
            }
        }
    }
}
