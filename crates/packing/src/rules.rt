//! The three fitting rules: first fit, best fit and worst fit.
ghost use Rattle.std.specs.Prelude.{◌≡◌, ◌+◌, nat_le};
ghost use Rattle.packing.specs.Rules.{IsFirstFit, IsBestFit, IsWorstFit, first_fit, best_fit, worst_fit};
ghost use Rattle.packing.specs.Preferred.{first_fit_lawful, best_fit_lawful, worst_fit_lawful};

use crate::Fitting;

/// Whether an item goes into a server: used + rate <= unit.
fn has_room(used: u16, unit: u16, rate: u16) -> bool
    ensures { result ≡ nat_le (used + rate) unit }
{
    u32::from(used) + u32::from(rate) <= u32::from(unit)
}

/// The first open server with room.
#[derive(Clone, Copy)]
pub struct FirstFit;

impl Fitting for FirstFit {
    ghost fits = { λ _. first_fit };

    ghost lawful = { λ rule. first_fit_lawful };

    fn fit(&self, used: &[u16], unit: u16, rate: u16) -> Option<usize>
        ensures answer { result ≡ first_fit used.now unit rate }
        ensures meaning { IsFirstFit used.now unit rate result }
    {
        used.iter().position(|parts| has_room(*parts, unit, rate))
    }
}

/// Of the open servers with room the one with the fewest parts free, the first of equals.
#[derive(Clone, Copy)]
pub struct BestFit;

impl Fitting for BestFit {
    ghost fits = { λ _. best_fit };

    ghost lawful = { λ rule. best_fit_lawful };

    fn fit(&self, used: &[u16], unit: u16, rate: u16) -> Option<usize>
        ensures answer { result ≡ best_fit used.now unit rate }
        ensures meaning { IsBestFit used.now unit rate result }
    {
        used.iter()
            .enumerate()
            .filter(|(_, parts)| has_room(**parts, unit, rate))
            .min_by_key(|(_, parts)| unit.saturating_sub(**parts))
            .map(|(server, _)| server)
    }
}

/// Of the open servers with room the one with the most parts free, the first of equals.
#[derive(Clone, Copy)]
pub struct WorstFit;

impl Fitting for WorstFit {
    ghost fits = { λ _. worst_fit };

    ghost lawful = { λ rule. worst_fit_lawful };

    fn fit(&self, used: &[u16], unit: u16, rate: u16) -> Option<usize>
        ensures answer { result ≡ worst_fit used.now unit rate }
        ensures meaning { IsWorstFit used.now unit rate result }
    {
        used.iter()
            .enumerate()
            .filter(|(_, parts)| has_room(**parts, unit, rate))
            .min_by_key(|(_, parts)| **parts)
            .map(|(server, _)| server)
    }
}
