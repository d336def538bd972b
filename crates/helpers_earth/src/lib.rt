// The figure of the Earth (Meeus, chapter 11), the third of the helpers (section 3). Promised: the paper's operations on every double.
#![tactic(auto)]

ghost use Rattle.std.specs.Prelude.{◌≡◌};
ghost use Rattle.quantity.specs.rules.Answer.{checked, shown_two};
ghost use Rattle.helpers_earth.specs.rules.Earth.{rho_at, rho_in, rho_refusal, rho_sin_cos_phi_rule};

use elementary::Folded;
use quantity::{Rad, Refusal};

#[derive(Clone, Copy)]
pub struct Earth {}

impl Earth {
    // The polar axis over the equatorial one.
    pub const RATIO: f64 = 0.99664719;

    // The equatorial radius in metres.
    pub const RADIUS: f64 = 6378140.0;

    // ρ sin φ' and ρ cos φ' at a reduced latitude u, a latitude p and a height.
    fn rho_at(u: Folded, p: Folded, height: f64) -> Result<(f64, f64), Refusal>
        ensures { shown_two result ≡ rho_at u p height }
    {
        Ok((
            Earth::RATIO * u.sine() + (height / Earth::RADIUS) * p.sine(),
            u.cosine() + (height / Earth::RADIUS) * p.cosine(),
        ))
    }

    // ρ sin φ' and ρ cos φ' of arguments that are not refused.
    pub fn rho_in(lat: Rad, height: f64) -> Result<(f64, f64), Refusal>
        ensures { shown_two result ≡ rho_in lat height }
    {
        let p = elementary::fold(lat);
        let u = elementary_arc::arctangent_in(Earth::RATIO * p.tangent(), 1.0)?;
        Earth::rho_at(elementary::fold(u), p, height)
    }

    // Refusals of the observer's latitude and height: 1; 3; 4; 5.
    fn rho_refusal(lat: Rad, height: f64) -> Result<(), Refusal>
        ensures { checked result ≡ rho_refusal lat height }
    {
        quantity::lower(
            quantity::steep_refusal(lat),
            quantity::height_refusal(height),
        )
    }

    // ρ sin φ' and ρ cos φ', the observer's place from the Earth's centre in equatorial radii.
    // Given: latitude in radians, height above the sea in metres. Refusals: 1; 3; 4 past 1.57; 5.
    pub fn rho_sin_cos_phi(lat: Rad, height: f64) -> Result<(f64, f64), Refusal>
        ensures { shown_two result ≡ rho_sin_cos_phi_rule lat height }
    {
        Earth::rho_refusal(lat, height)?;
        Earth::rho_in(lat, height)
    }
}
