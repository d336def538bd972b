// The text of a night's sights, a line a sight: its time, the star's number, and what was read off at the star and at the mark, in decimal
// degrees. The time is what a command takes for a day: a date with its time, a Julian day or J2000. Fields, comments and lines are
// `text_fields`'s. Promised: exactly the sights that stand there, each with its line, one after the other; or the line that is none.
#![tactic(auto)]

ghost use Rattle.std.specs.Prelude.{◌≡◌, drop};
ghost use Rattle.text_whole.specs.rules.Unsigned.{shown};
ghost use Rattle.text_date.specs.rules.Date as date;
ghost use Rattle.text_day.specs.rules.Day.{day_rule};
ghost use Rattle.text_degrees.specs.rules.Degrees.{shown_read_degrees};
ghost use Rattle.text_fields.specs.rules.Fields.{field_of};
ghost use Rattle.text_fields.specs.rules.Lines.{lines};
ghost use Rattle.text_fields.specs.rules.Next.{shown_next, next_of};
ghost use Rattle.text_fields.specs.rules.Walk.{shown_line};
ghost use Rattle.text_night.specs.rules.Sight.{sight_from, with_mark, with_star, with_number, sight_rule, line_rule};

use quantity::Deg;
use text_date::Reason;
use text_fields::{Met, Stop, Unclear, UnclearAt};

// A day, a star's number, the reading of the star and that of the mark.
#[derive(Clone, Copy)]
pub struct Sight {
    pub day: f64,
    pub number: u32,
    pub star: Deg,
    pub mark: Deg,
}

// ---- a line

// The sight of a day, where the three other fields are clear.
fn sight_from(day: f64, number: Option<u32>, star: Option<Deg>, mark: Option<Deg>) -> Option<Sight>
    ensures { shown result ≡ sight_from day (shown number) (shown_read_degrees star) (shown_read_degrees mark) }
{
    Some(Sight {
        day,
        number: number?,
        star: star?,
        mark: mark?,
    })
}

// The sight whose reading of the mark stands in the text, which has no field more.
fn with_mark(day: f64, number: Option<u32>, star: Option<Deg>, text: &[u8]) -> Option<Sight>
    ensures { shown result ≡ with_mark day (shown number) (shown_read_degrees star) text.now }
{
    if text_fields::is_bare(text_fields::after_field(text)) {
        return sight_from(day, number, star, text_fields::next_degrees(text));
    }
    None
}

// The sight whose two readings stand in the text.
fn with_star(day: f64, number: Option<u32>, text: &[u8]) -> Option<Sight>
    ensures { shown result ≡ with_star day (shown number) text.now }
{
    with_mark(
        day,
        number,
        text_fields::next_degrees(text),
        text_fields::after_field(text),
    )
}

// The sight whose number and readings stand in the text.
fn with_number(day: f64, text: &[u8]) -> Option<Sight>
    ensures { shown result ≡ with_number day text.now }
{
    with_star(
        day,
        text_fields::next_number(text),
        text_fields::after_field(text),
    )
}

// The day that the first field says.
fn next_day(text: &[u8], dut1: i32) -> Result<f64, Reason>
    ensures { date.shown result ≡ day_rule (field_of text.now) dut1 }
{
    text_day::read(text_fields::first_field(text), dut1)
}

// The sight whose four fields stand in the text.
fn read_sight(text: &[u8], dut1: i32) -> Option<Sight>
    ensures { shown result ≡ sight_rule dut1 text.now }
{
    let day = next_day(text, dut1).ok()?;
    with_number(day, text_fields::after_field(text))
}

// The sight that a line says, none where it says nothing; UT1 is so many milliseconds ahead of UTC.
pub fn read_line(line: &[u8], dut1: i32) -> Result<Option<Sight>, Unclear>
    ensures { shown_line result ≡ line_rule dut1 line.now }
{
    let end = text_fields::length_before(Stop::Hash, line);
    if text_fields::is_bare(&line[..end]) {
        return Ok(None);
    }
    match read_sight(&line[..end], dut1) {
        Some(sight) => Ok(Some(sight)),
        None => Err(Unclear),
    }
}

// ---- a text

// The next sight from an offset on, which is 0 or one that an earlier call answered; none where no line is left that says something.
pub fn next_sight(text: &[u8], at: usize, dut1: i32) -> Result<Option<Met<Sight>>, UnclearAt>
    ensures { shown_next text.now result ≡ next_of (sight_rule dut1) 0 (lines (drop at text.now)) }
{
    let Some(said) = text_fields::next_said(text, at) else {
        return Ok(None);
    };
    match read_sight(&text[said.start..said.end], dut1) {
        Some(sight) => Ok(Some(Met {
            what: sight,
            passed: said.passed,
            next: said.next,
        })),
        None => Err(UnclearAt(said.passed)),
    }
}
