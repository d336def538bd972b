// Refraction at the sight (document 02, request (vii); Meeus, chapter 16). Altitudes are in degrees, refraction in minutes of arc.
// Promised: both rules bit for bit, or 1 or 3; a sight is never raised, and a plan never lowered.
#![tactic(auto)]

ghost use Rattle.std.specs.Prelude.{◌≡◌};
ghost use Rattle.quantity.specs.rules.Answer.{checked, shown};
ghost use Rattle.atmos.specs.rules.Arcminutes.{degrees_of};
ghost use Rattle.atmos.specs.rules.Refraction.{tangent_of_degrees, refrac_frm_apprnt_alt_of, refrac_frm_true_alt_of};
ghost use Rattle.atmos.specs.rules.Refraction.{alt_refusal, refrac_frm_apprnt_alt_rule, refrac_frm_true_alt_rule};
ghost use Rattle.atmos.specs.rules.Sight.{sight_alt_of, plan_alt_of, sight_alt_rule, plan_alt_rule};

use helpers::angle;
use quantity::{Deg, Refusal};

// An angle in minutes of arc. Nothing but a sixtieth makes degrees of it.
#[derive(Clone, Copy)]
pub struct Arcmin(pub f64);

// Minutes of arc to degrees.
fn degrees(x: Arcmin) -> Deg
    ensures { result ≡ degrees_of x }
{
    Deg(x.0 / 60.0)
}

// ---- refraction

// The tangent of an angle in degrees, after the conversion.
fn tangent(x: Deg) -> f64
    ensures { result ≡ tangent_of_degrees x }
{
    elementary::fold(angle::radians(x)).tangent()
}

// Refraction of an apparent altitude that is not refused.
fn refrac_frm_apprnt_alt_of(h: Deg) -> Arcmin
    ensures { result ≡ refrac_frm_apprnt_alt_of h }
{
    Arcmin(1.0 / tangent(Deg(h.0 + 7.31 / (h.0 + 4.4))))
}

// Refraction of a true altitude that is not refused.
fn refrac_frm_true_alt_of(h: Deg) -> Arcmin
    ensures { result ≡ refrac_frm_true_alt_of h }
{
    Arcmin(1.02 / tangent(Deg(h.0 + 10.3 / (h.0 + 5.11))))
}

// Refusals of an altitude in degrees: 1; 3 outside 0.0 to 89.8.
fn alt_refusal(h: Deg) -> Result<(), Refusal>
    ensures { checked result ≡ alt_refusal h }
{
    let x = h.0;
    if double::is_finite(x) {
        if x < 0.0 || 89.8 < x {
            Err(Refusal::Angle)
        } else {
            Ok(())
        }
    } else {
        Err(Refusal::NotFinite)
    }
}

// Refraction from the apparent altitude, by which a star stands too high. Refusals: 1; 3 outside 0.0 to 89.8.
pub fn refrac_frm_apprnt_alt(apprnt_alt: Deg) -> Result<Arcmin, Refusal>
    ensures { shown result ≡ refrac_frm_apprnt_alt_rule apprnt_alt }
{
    alt_refusal(apprnt_alt)?;
    Ok(refrac_frm_apprnt_alt_of(apprnt_alt))
}

// Refraction from the true altitude, by which a star will stand too high. Refusals: 1; 3 outside 0.0 to 89.8.
pub fn refrac_frm_true_alt(true_alt: Deg) -> Result<Arcmin, Refusal>
    ensures { shown result ≡ refrac_frm_true_alt_rule true_alt }
{
    alt_refusal(true_alt)?;
    Ok(refrac_frm_true_alt_of(true_alt))
}

// ---- at the sight

// The true altitude of a star that was measured at an altitude that is not refused.
fn sight_alt_of(h: Deg) -> Deg
    ensures { result ≡ sight_alt_of h }
{
    Deg(h.0 - degrees(refrac_frm_apprnt_alt_of(h)).0)
}

// The altitude at which to look for a star of a computed altitude that is not refused.
fn plan_alt_of(h: Deg) -> Deg
    ensures { result ≡ plan_alt_of h }
{
    Deg(h.0 + degrees(refrac_frm_true_alt_of(h)).0)
}

// The true altitude of a star, from the altitude at which it was measured. Refusals: 1; 3 outside 0.0 to 89.8.
pub fn sight_alt(apprnt_alt: Deg) -> Result<Deg, Refusal>
    ensures { shown result ≡ sight_alt_rule apprnt_alt }
{
    alt_refusal(apprnt_alt)?;
    Ok(sight_alt_of(apprnt_alt))
}

// The altitude at which to look for a star, from the one that was computed. Refusals: 1; 3 outside 0.0 to 89.8.
pub fn plan_alt(true_alt: Deg) -> Result<Deg, Refusal>
    ensures { shown result ≡ plan_alt_rule true_alt }
{
    alt_refusal(true_alt)?;
    Ok(plan_alt_of(true_alt))
}
