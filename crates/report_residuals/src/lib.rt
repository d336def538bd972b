// A night's residuals and their text: a list reduced from one day to another, a text of measured places, and what each leaves of the
// other. Promised: of every list, every two days and every text all bytes of the answer, or why there is none.
#![tactic(auto)]

ghost use Rattle.std.specs.Prelude.{◌≤◌, ◌≡◌, length};
ghost use Rattle.lent.specs.rules.Writing.{Wrote};
ghost use Rattle.list.specs.rules.Stars.{most_stars};
ghost use Rattle.report_residuals.specs.rules.Came.{lent_came};
ghost use Rattle.report_residuals.specs.rules.Text.{Reported, style_text, sheets_report};
ghost use Rattle.report_residuals.specs.rules.Report.{report_of, matched_report, sighted_report};
ghost use Rattle.report_residuals.specs.notions.Matched.{Matched};

use edition::Edition;
use list::MOST_STARS;
use quantity::Refusal;
use residual_sheet::Sheet;
use text_fields::Stopped;

// What is written: the sheet for people with who is left out of it; the figures alone; each sight; or who is left out alone.
#[derive(Clone, Copy)]
pub enum Style {
    People,
    Figures,
    Sights,
    Left,
}

// Why there is no text: the refusal of the list and its days; the line that cannot be read; more sights than a list has stars; the refusal
// of the sheet, as 3 for a measured angle past 64 radians.
#[derive(Clone, Copy, PartialEq, Eq)]
pub enum Untold {
    List(Refusal),
    Unclear(usize),
    TooMany,
    Sheet(Refusal),
}

// What the star of a sight came to: its status, and the bits of its angles.
#[derive(Clone, Copy)]
pub struct Came {
    pub status: u8,
    pub asc: u64,
    pub dec: u64,
}

// Bytes of the longest text, at most: so many a sight, and those of the sheet.
pub const ROOM: usize = text_residuals::SHEET_ROOM + text_residuals::LEFT_ROOM * MOST_STARS;

// ---- sights and stars

// What the star with the number came to, of a list whose stars' statuses and angles are lent.
fn came_to<'a>(
    bytes: &'a [u8],
    status: &'a [u8],
    asc: &'a [u64],
    dec: &'a [u64],
    number: u32,
) -> Came
    ensures { result ≡ lent_came bytes.now status.now asc.now dec.now number }
{
    match list::find(bytes, number) {
        Ok((i, _)) => Came {
            status: text_sights::status_at(status, i),
            asc: text_sights::number_at(asc, i),
            dec: text_sights::number_at(dec, i),
        },
        Err(refusal) => Came {
            status: refusal.number(),
            asc: 0,
            dec: 0,
        },
    }
}

// What each sight's star came to, at the sight's place in what is lent.
fn match_sights<'a>(
    bytes: &'a [u8],
    status: &'a [u8],
    asc: &'a [u64],
    dec: &'a [u64],
    star: &'a [u32],
    sight_status: &mut [u8],
    sight_asc: &mut [u64],
    sight_dec: &mut [u64],
)
    requires star_in_bounds { length star.now ≤ length sight_status.old }
    requires star_in_bounds_2 { length star.now ≤ length sight_asc.old }
    requires star_in_bounds_3 { length star.now ≤ length sight_dec.old }
    ensures { Matched (lent_came bytes.now status.now asc.now dec.now) star.now
        sight_status.old sight_asc.old sight_dec.old
        sight_status.new sight_asc.new sight_dec.new }
{
    for i in 0..star.len() {
        let came = came_to(bytes, status, asc, dec, star[i]);
        sight_status[i] = came.status;
        sight_asc[i] = came.asc;
        sight_dec[i] = came.dec;
    }
}

// ---- all of them

// A night with its sheets, in a style.
fn put_style<'a>(
    out: &mut [u8],
    style: Style,
    a: Sheet,
    d: Sheet,
    line: &'a [u64],
    star: &'a [u32],
    status: &'a [u8],
    asc: &'a [u64],
    dec: &'a [u64],
    measured_asc: &'a [u64],
    measured_dec: &'a [u64],
) -> usize
    ensures { Wrote out.old 0 (style_text style a d line.now star.now status.now asc.now
        dec.now measured_asc.now measured_dec.now) out.new result }
{
    match style {
        Style::People => text_sights::put_people(out, a, d, line, star, status),
        Style::Figures => text_residuals::put_figures(out, 0, a, d),
        Style::Sights => text_sights::put_sights(
            out,
            line,
            star,
            status,
            asc,
            dec,
            measured_asc,
            measured_dec,
            line.len(),
        ),
        Style::Left => text_sights::put_lefts(out, 0, line, star, status, line.len()),
    }
}

// A night whose sights are lent, with each star's status and angles.
fn put_sheets<'a>(
    out: &mut [u8],
    style: Style,
    line: &'a [u64],
    star: &'a [u32],
    status: &'a [u8],
    asc: &'a [u64],
    dec: &'a [u64],
    measured_asc: &'a [u64],
    measured_dec: &'a [u64],
) -> Result<usize, Untold>
    ensures { Reported out.old (sheets_report style line.now star.now status.now asc.now
        dec.now measured_asc.now measured_dec.now) result out.new }
{
    match residual_sheet::residuals(status, asc, dec, measured_asc, measured_dec) {
        Ok((a, d)) => Ok(put_style(
            out,
            style,
            a,
            d,
            line,
            star,
            status,
            asc,
            dec,
            measured_asc,
            measured_dec,
        )),
        Err(refusal) => Err(Untold::Sheet(refusal)),
    }
}

// A night whose sights are lent beside a list whose stars' statuses and angles are.
fn put_matched<'a>(
    out: &mut [u8],
    style: Style,
    bytes: &'a [u8],
    status: &'a [u8],
    asc: &'a [u64],
    dec: &'a [u64],
    line: &'a [u64],
    star: &'a [u32],
    measured_asc: &'a [u64],
    measured_dec: &'a [u64],
) -> Result<usize, Untold>
    requires { length star.now ≤ most_stars }
    ensures { Reported out.old (matched_report style bytes.now status.now asc.now dec.now
        line.now star.now measured_asc.now measured_dec.now) result out.new }
{
    let n = star.len();
    let mut sight_status = [0u8; MOST_STARS];
    let mut sight_asc = [0u64; MOST_STARS];
    let mut sight_dec = [0u64; MOST_STARS];
    match_sights(
        bytes,
        status,
        asc,
        dec,
        star,
        &mut sight_status,
        &mut sight_asc,
        &mut sight_dec,
    );
    put_sheets(
        out,
        style,
        line,
        star,
        &sight_status[..n],
        &sight_asc[..n],
        &sight_dec[..n],
        measured_asc,
        measured_dec,
    )
}

// A night whose sights stand in the text.
fn put_sighted<'a>(
    out: &mut [u8],
    style: Style,
    bytes: &'a [u8],
    status: &'a [u8],
    asc: &'a [u64],
    dec: &'a [u64],
    text: &'a [u8],
) -> Result<usize, Untold>
    ensures { Reported out.old (sighted_report style bytes.now status.now asc.now dec.now
        text.now) result out.new }
{
    let mut line = [0u64; MOST_STARS];
    let mut star = [0u32; MOST_STARS];
    let mut measured_asc = [0u64; MOST_STARS];
    let mut measured_dec = [0u64; MOST_STARS];
    match text_measured::read_sights(
        text,
        &mut line,
        &mut star,
        &mut measured_asc,
        &mut measured_dec,
    ) {
        Ok(n) => put_matched(
            out,
            style,
            bytes,
            status,
            asc,
            dec,
            &line[..n],
            &star[..n],
            &measured_asc[..n],
            &measured_dec[..n],
        ),
        Err(Stopped::Unclear(k)) => Err(Untold::Unclear(k)),
        Err(Stopped::Full) => Err(Untold::TooMany),
    }
}

// The list reduced from the first day to the second, and the sights of the text beside it: their residuals as text from the slice's start
// on, or why there are none, which leaves the slice.
pub fn put_report<'a>(
    out: &mut [u8],
    style: Style,
    edition: Edition,
    bytes: &'a [u8],
    day1: f64,
    day2: f64,
    text: &'a [u8],
) -> Result<usize, Untold>
    ensures { Reported out.old (report_of style edition bytes.now day1 day2 text.now) result out.new }
{
    let mut status = [0u8; MOST_STARS];
    let mut asc = [0u64; MOST_STARS];
    let mut dec = [0u64; MOST_STARS];
    match batch::batch(edition, bytes, day1, day2, &mut status, &mut asc, &mut dec) {
        Ok(_) => put_sighted(out, style, bytes, &status, &asc, &dec, text),
        Err(refusal) => Err(Untold::List(refusal)),
    }
}
