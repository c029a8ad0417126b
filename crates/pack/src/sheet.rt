// The pack sheet, edition 1: what is left in a pack after the lines of its book.
ghost use Rattle.std.specs.Prelude.{◌≡◌, [], ◌∷◌};
ghost use Rattle.pack.specs.Laws.{ChargeInRange, SheetsJoin, TimeByLastFit, UnfitOnlyCounted};
ghost use Rattle.pack.specs.Sheets.{empty_sheet, begun, fit_for, drained, worked, applied, worked_on, sheet_of, remaining_of};

use crate::line::{PackLine, charge_fits, current_fits, seconds_fit};

// What the last fit line left: no fit line yet, a pack at rest, or a drain at a current in milliamperes.
#[derive(Clone, Copy, PartialEq, Debug, Default)]
pub enum RestState {
    #[default]
    Unbegun,
    AtRest,
    Draining(f64),
}

// The charge in milliampere-seconds, how many lines were fit and unfit, and the rest state.
#[derive(Clone, Copy, PartialEq, Debug, Default)]
pub struct PackSheet {
    charge: f64,
    fit: u32,
    unfit: u32,
    state: RestState,
}

impl RestState {
    // Whether a fit Begin has come.
    pub fn has_begun(&self) -> bool
        ensures { result ≡ begun self.now }
    {
        !matches!(self, RestState::Unbegun)
    }
}

// The charge that a current leaves of `charge` after so many seconds.
#[tactic(auto, using(crate::proofs::Literals::zero_is))]
fn drained_charge(charge: f64, current: f64, seconds: u32) -> f64
    ensures { result ≡ drained charge current seconds }
{
    let product = current * seconds as f64;
    if charge < product {
        0.0
    } else {
        charge - product
    }
}

impl PackSheet {
    // The sheet of no lines.
    #[tactic(auto, using(crate::proofs::Literals::zero_is))]
    pub fn new() -> Self
        ensures { result ≡ empty_sheet }
    {
        PackSheet::default()
    }

    // Whether the line is fit for the sheet as it stands.
    pub fn fits(&self, line: PackLine) -> bool
        ensures { result ≡ fit_for self.now line }
    {
        match line {
            PackLine::Begin(charge) => charge_fits(charge),
            PackLine::Drain(current, seconds) => self.state.has_begun()
                && current_fits(current)
                && seconds_fit(seconds),
            PackLine::Idle(seconds) => self.state.has_begun() && seconds_fit(seconds),
        }
    }

    // The sheet after a line that is fit.
    fn worked(&self, line: PackLine) -> PackSheet
        ensures { result ≡ worked self.now line }
    {
        let counted = PackSheet {
            fit: self.fit.saturating_add(1),
            ..*self
        };
        match line {
            PackLine::Begin(charge) => PackSheet {
                charge,
                state: RestState::AtRest,
                ..counted
            },
            PackLine::Drain(current, seconds) => PackSheet {
                charge: drained_charge(self.charge, current, seconds),
                state: RestState::Draining(current),
                ..counted
            },
            PackLine::Idle(_) => PackSheet {
                state: RestState::AtRest,
                ..counted
            },
        }
    }

    // The sheet after any line.
    fn after(&self, line: PackLine) -> PackSheet
        ensures { result ≡ applied self.now line }
    {
        if self.fits(line) {
            self.worked(line)
        } else {
            PackSheet {
                unfit: self.unfit.saturating_add(1),
                ..*self
            }
        }
    }

    // Works on by one line: a fit one as the standard says, an unfit one by its count alone.
    pub fn apply(&mut self, line: PackLine)
        ensures after { self.new ≡ applied self.old line }
        ensures unfit { UnfitOnlyCounted self.old line self.new }
        ensures joined { SheetsJoin self.old (line ∷ []) self.new }
    {
        *self = self.after(line);
    }

    // Works on by lines, in their order.
    pub fn apply_all(&mut self, lines: &[PackLine])
        ensures after { self.new ≡ worked_on self.old lines.now }
        ensures joined { SheetsJoin self.old lines.now self.new }
    {
        for line in lines {
            self.apply(*line);
        }
    }

    // The sheet of these lines.
    pub fn of(lines: &[PackLine]) -> Self
        ensures { result ≡ sheet_of lines.now }
    {
        let mut sheet = PackSheet::new();
        sheet.apply_all(lines);
        sheet
    }

    // The charge, in milliampere-seconds.
    pub fn charge(&self) -> f64
        ensures value { result ≡ self.now.charge }
        ensures range { ChargeInRange self.now result }
    {
        self.charge
    }

    // The remaining seconds, where the last fit line is a Drain.
    pub fn remaining(&self) -> Option<f64>
        ensures value { result ≡ remaining_of self.now }
        ensures time { TimeByLastFit self.now result }
    {
        match self.state {
            RestState::Draining(current) => Some(self.charge / current),
            _ => None,
        }
    }

    // What the last fit line left.
    pub fn state(&self) -> RestState
        ensures { result ≡ self.now.state }
    {
        self.state
    }

    // How many lines were fit; it stops at 4,294,967,295.
    pub fn fit(&self) -> u32
        ensures { result ≡ self.now.fit }
    {
        self.fit
    }

    // How many lines were unfit; it stops at 4,294,967,295.
    pub fn unfit(&self) -> u32
        ensures { result ≡ self.now.unfit }
    {
        self.unfit
    }
}

#[cfg(test)]
mod tests {
    use super::*;

    #[test]
    fn counts_stop_at_their_cap(rt: HostRuntime) {
        let mut sheet = PackSheet {
            charge: 0.0,
            fit: u32::MAX - 1,
            unfit: u32::MAX - 1,
            state: RestState::AtRest,
        };
        sheet.apply_all(&[
            PackLine::Idle(1),
            PackLine::Idle(1),
            PackLine::Idle(0),
            PackLine::Idle(0),
        ]);
        assert!(rt; sheet.fit() == 4_294_967_295);
        assert!(rt; sheet.unfit() == 4_294_967_295);
    }
}
