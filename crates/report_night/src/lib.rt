// A night's sights of one mark: what `night` prints. Promised: of every list and every text of sights all bytes of the answer, or the line
// that cannot be read.
#![tactic(auto)]

ghost use Rattle.report_night.specs.rules.Report.{Reported, report_of};

use edition::Edition;
use list::MOST_STARS;
use report_marks::Pad;
use text_fields::{Stopped, UnclearAt};

// Bytes of the longest text, at most: so many a sight, and those of the place, the edition, the mean and what stays open.
pub const ROOM: usize = 420 + text_headings::SIGHT_ROOM * MOST_STARS;

// The sights of the text beside the list, where UT1 is so many milliseconds ahead of UTC: the mark's heading by each and their mean, or why
// there is none, as text from the slice's start on; or the line that cannot be read, which leaves the slice.
pub fn put_night<'a>(
    out: &mut [u8],
    edition: Edition,
    pad: Pad,
    bytes: &'a [u8],
    text: &'a [u8],
    dut1: i32,
) -> Result<usize, UnclearAt>
    ensures { Reported out.old (report_of edition pad bytes.now text.now dut1) result out.new }
{
    let mut line = [0u64; MOST_STARS];
    let mut star = [0u32; MOST_STARS];
    let mut status = [0u8; MOST_STARS];
    let mut bits = [0u64; MOST_STARS];
    match report_marks::read_night(
        edition,
        pad,
        bytes,
        text,
        dut1,
        &mut line,
        &mut star,
        &mut status,
        &mut bits,
    ) {
        Ok(n) => Ok(report_mean::put_lent(
            out,
            edition,
            pad,
            &line[..n],
            &star[..n],
            &status[..n],
            &bits[..n],
        )),
        Err(Stopped::Unclear(k)) => Err(UnclearAt(k)),
        Err(Stopped::Full) => Ok(lent::put(out, 0, b"refused 8: more than 3000 sights\n")),
    }
}
