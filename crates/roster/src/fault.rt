// Why a roster refuses a call.
ghost use Rattle.std.specs.Prelude.{◌≡◌};
ghost use Rattle.roster.specs.Faults.{fault_number};

// The answer to the first question of a call that was answered with no.
#[derive(Clone, Copy, PartialEq, Eq, Debug)]
pub enum RosterFault {
    // The roster is not open.
    Shut = 20,
    // The place is not one more than the number of entries.
    NotNext = 21,
    // As many entries stand as the capacity allows.
    Full = 22,
    // No entry stands at the place.
    NoEntry = 23,
}

impl RosterFault {
    // The number under which the fault is reported: 20 to 23.
    pub fn number(&self) -> u32
        ensures { result ≡ fault_number self.now }
    {
        *self as u32
    }
}
