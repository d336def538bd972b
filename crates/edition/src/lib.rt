// The two editions of the rules that the Rust crate has otherwise than Meeus. Promised: what differs is the one or the other, as the
// caller names it; no third can be named.
#![tactic(auto)]

ghost use Rattle.std.specs.Prelude.{◌≡◌};
ghost use Rattle.edition.specs.rules.Edition.{by_edition};

// The crate's rules, by which past files reproduce, or Meeus's as he published them.
#[derive(Clone, Copy)]
pub enum Edition {
    Crate,
    Published,
}

// The first number in the crate's edition, the second in the published one.
pub fn by_edition(edition: Edition, of_crate: f64, published: f64) -> f64
    ensures { result ≡ by_edition edition of_crate published }
{
    match edition {
        Edition::Crate => of_crate,
        Edition::Published => published,
    }
}
