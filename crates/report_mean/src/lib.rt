// The text of a night's sights of one mark, which are lent by their lines, stars, statuses and bits: their mean where more than half agree
// with one of them, the first refused sight where there is one. Promised: every byte of it.
#![tactic(auto)]

ghost use Rattle.std.specs.Prelude.{◌≡◌};
ghost use Rattle.lent.specs.rules.Writing.{Wrote};
ghost use Rattle.report_mean.specs.rules.Refused.{refusal_text, refused_text, refused_at, first_refused};
ghost use Rattle.report_mean.specs.rules.Text.{meant_text, none_agree_text, no_mean_text, agreed_text, sights_text, lent_text};

use edition::Edition;
use quantity::Deg;
use report_marks::Pad;
use residual_sheet::Sheet;

// ---- a refused sight

// Each `put_` writes its text from the slice's start on, and answers the offset after it. This one: a refusal by its kind.
fn put_refusal(out: &mut [u8], status: u8, bits: u64) -> usize
    ensures { Wrote out.old 0 (refusal_text status bits) out.new result }
{
    if bits == 0 {
        return text_heading::put_sight_refusal(out, 0, status);
    }
    text_heading::put_mark_refusal(out, 0, status)
}

// The same, and which sight it is.
fn put_refused(out: &mut [u8], line: u64, star: u64, status: u8, bits: u64) -> usize
    ensures { Wrote out.old 0 (refused_text line star status bits) out.new result }
{
    let a = put_refusal(out, status, bits);
    let b = text_headings::put_sight_of(out, a, line, star);
    lent::put_byte(out, b, b'\n')
}

// Sight i of those that are lent.
fn put_refused_at<'a>(
    out: &mut [u8],
    line: &'a [u64],
    star: &'a [u32],
    status: &'a [u8],
    bits: &'a [u64],
    i: usize,
) -> usize
    ensures { Wrote out.old 0 (refused_at line.now star.now status.now bits.now i) out.new result }
{
    let on_line = text_sights::number_at(line, i);
    let number = text_sights::star_at(star, i) as u64;
    let refusal = text_sights::status_at(status, i);
    let kind = text_sights::number_at(bits, i);
    put_refused(out, on_line, number, refusal, kind)
}

// The place of the first that is refused, or the number of sights where none is.
fn first_refused(status: &[u8]) -> usize
    ensures { result ≡ first_refused status.now }
{
    for i in 0..status.len() {
        if status[i] != 0 {
            return i;
        }
    }
    status.len()
}

// ---- the mean

// The place, the edition, each sight beside the reference, and the mean.
fn put_meant<'a>(
    out: &mut [u8],
    edition: Edition,
    pad: Pad,
    mean: Deg,
    sheet: Sheet,
    line: &'a [u64],
    star: &'a [u32],
    heading: &'a [u64],
) -> usize
    ensures { Wrote out.old 0 (meant_text edition pad mean sheet line.now star.now heading.now) out.new result }
{
    let long = pad.long;
    let lat = pad.lat;
    let utc = pad.utc;
    let k = heading_mean::reference_place(heading);
    let a = text_heading::put_place(out, 0, long, lat);
    let b = text_heading::put_edition(out, a, edition);
    let c = text_headings::put_rows(out, b, line, star, heading, k, heading.len());
    let d = text_headings::put_mean(out, c, mean, sheet);
    report_day::put_open(out, d, utc)
}

// That there is no majority, and each sight beside the first.
fn put_none_agree<'a>(out: &mut [u8], line: &'a [u64], star: &'a [u32], heading: &'a [u64]) -> usize
    ensures { Wrote out.old 0 (none_agree_text line.now star.now heading.now) out.new result }
{
    let a = lent::put(
        out,
        0,
        b"refused 20: the sights do not agree: with none of them do more than half\n",
    );
    text_headings::put_rows(out, a, line, star, heading, 0, heading.len())
}

// Why there is no mean.
fn put_no_mean<'a>(
    out: &mut [u8],
    n: u8,
    line: &'a [u64],
    star: &'a [u32],
    heading: &'a [u64],
) -> usize
    ensures { Wrote out.old 0 (no_mean_text n line.now star.now heading.now) out.new result }
{
    if n == 20 {
        return put_none_agree(out, line, star, heading);
    }
    text_heading::put_sight_refusal(out, 0, n)
}

// Sights of which none is refused.
fn put_agreed<'a>(
    out: &mut [u8],
    edition: Edition,
    pad: Pad,
    line: &'a [u64],
    star: &'a [u32],
    heading: &'a [u64],
) -> usize
    ensures { Wrote out.old 0 (agreed_text edition pad line.now star.now heading.now) out.new result }
{
    match heading_mean::mean_heading(heading) {
        Ok((mean, sheet)) => put_meant(out, edition, pad, mean, sheet, line, star, heading),
        Err(refusal) => put_no_mean(out, refusal.number(), line, star, heading),
    }
}

// ---- all of them

// One sight or more.
fn put_sights<'a>(
    out: &mut [u8],
    edition: Edition,
    pad: Pad,
    line: &'a [u64],
    star: &'a [u32],
    status: &'a [u8],
    bits: &'a [u64],
) -> usize
    ensures { Wrote out.old 0 (sights_text edition pad line.now star.now status.now bits.now) out.new result }
{
    let i = first_refused(status);
    if i < status.len() {
        return put_refused_at(out, line, star, status, bits, i);
    }
    put_agreed(out, edition, pad, line, star, bits)
}

// Any number of them.
pub fn put_lent<'a>(
    out: &mut [u8],
    edition: Edition,
    pad: Pad,
    line: &'a [u64],
    star: &'a [u32],
    status: &'a [u8],
    bits: &'a [u64],
) -> usize
    ensures { Wrote out.old 0 (lent_text edition pad line.now star.now status.now bits.now) out.new result }
{
    if line.len() == 0 {
        return lent::put(out, 0, b"refused 8: there is no sight\n");
    }
    put_sights(out, edition, pad, line, star, status, bits)
}
