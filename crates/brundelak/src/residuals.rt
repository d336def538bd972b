// The residual sheet of a night, into memory that a caller lends.
ghost use Rattle.residual_sheet.specs.rules.Residuals.{residuals_rule};
ghost use Rattle.std.specs.Prelude.{◌≡◌};
ghost use Rattle.brundelak.specs.rules.Residuals.{numbers_of, HandedSheets};

use residual_sheet::Sheet;

// The six numbers of a sheet, in their order.
pub fn numbers(s: Sheet) -> [i64; 6]
    ensures { result ≡ numbers_of s }
{
    [s.count, s.sum, s.squares, s.largest, s.place, s.aside]
}

// Computed less measured places of every entry of status 0, in milliarcseconds: of each coordinate count, sum, sum of squares, largest size,
// its first place, and how many were set aside. Refusals, which leave both sheets unchanged: 8; 1; 3.
#[unsafe(no_mangle)]
pub extern "C" fn brundelak_residuals(
    status: &[u8],
    asc: &[u64],
    dec: &[u64],
    measured_asc: &[u64],
    measured_dec: &[u64],
    asc_sheet: &mut [i64; 6],
    dec_sheet: &mut [i64; 6],
) -> u8
    ensures { HandedSheets (residuals_rule status.now asc.now dec.now measured_asc.now
        measured_dec.now) result asc_sheet.old dec_sheet.old asc_sheet.new
        dec_sheet.new }
{
    match residual_sheet::residuals(status, asc, dec, measured_asc, measured_dec) {
        Ok((a, d)) => {
            *asc_sheet = numbers(a);
            *dec_sheet = numbers(d);
            0
        }
        Err(refusal) => refusal.number(),
    }
}
