// The capture tariff: what archive customers pay for the visits of their queries.
#![tactic(auto)]

ghost use Rattle.tariff.specs.Tariff.{zero, next, Over, Adds};
ghost use Rattle.std.specs.Prelude.{IsNone, IfSome, ◌↔◌, ◌≡◌};

// Full thousands of visits, what they cost, and the visits that fill no thousand yet.
#[derive(Clone, Copy, Default)]
pub struct Tally {
    pub units: u32,
    pub cents: u32,
    pub remainder: u32,
}

impl Tally {
    // "A tally starts at zero" (card 7): `default` under that card's name.
    pub fn new() -> Self
        ensures { result ≡ zero }
    {
        Self::default()
    }

    // The tally with a query's visits at its price, if its totals have 32 bits.
    fn with(self, visits: u32, price: u16) -> Option<Self>
        ensures refused { IsNone result ↔ Over self visits price }
        ensures counted { IfSome result (λ t. t ≡ next self visits price) }
    {
        if self.remainder > 999 {
            return None;
        }
        let n = u64::from(self.remainder) + u64::from(visits);
        let full = n / 1000;
        Some(Tally {
            units: u32::try_from(u64::from(self.units) + full).ok()?,
            cents: u32::try_from(u64::from(self.cents) + full * u64::from(price)).ok()?,
            // Below 1000, so it fits: `try_from` would say that it may not.
            remainder: (n % 1000) as u32,
        })
    }

    // The tally after a query; or the query is refused, and the tally is the one that was handed in: both are one to go
    // on with, as `binary_search` gives a place either way.
    pub fn add(self, visits: u32, price: u16) -> Result<Self, Self>
        ensures { Adds self visits price result }
    {
        self.with(visits, price).ok_or(self)
    }
}
