// A pack line, and the limits that the pack standard, edition 1, puts on its numbers.
ghost use Rattle.std.specs.Prelude.{◌≡◌};
ghost use Rattle.pack.specs.Standard.{fit_charge, fit_current, fit_seconds};

// One line (log entry) of a pack's run book.
#[derive(Clone, Copy, PartialEq, Debug)]
pub enum PackLine {
    // a run begins at this charge, in milliampere-seconds
    Begin(f64),
    // a current in milliamperes flows for whole seconds
    Drain(f64, u32),
    // the pack rests for whole seconds
    Idle(u32),
}

// The largest charge of a Begin, in milliampere-seconds.
const CHARGE_MOST: f64 = 1_000_000_000.0;

// The least current of a Drain, in milliamperes.
const CURRENT_LEAST: f64 = 10.0;

// The largest current of a Drain, in milliamperes.
const CURRENT_MOST: f64 = 200_000.0;

// The fewest seconds of a Drain or an Idle.
const SECONDS_LEAST: u32 = 1;

// The most seconds of a Drain or an Idle: a day.
const SECONDS_MOST: u32 = 86_400;

// Whether a Begin may set this charge, in milliampere-seconds. No range of std is open where it starts, so there are two comparisons.
#[tactic(auto, using(crate::proofs::Literals::zero_is, crate::proofs::Literals::charge_most_is))]
pub(crate) fn charge_fits(charge: f64) -> bool
    ensures { result ≡ fit_charge charge }
{
    charge > 0.0 && charge <= CHARGE_MOST
}

// Whether a Drain may have this current, in milliamperes.
#[tactic(auto, using(crate::proofs::Literals::current_least_is, crate::proofs::Literals::current_most_is, crate::proofs::Literals::partial_le_is))]
pub(crate) fn current_fits(current: f64) -> bool
    ensures { result ≡ fit_current current }
{
    (CURRENT_LEAST..=CURRENT_MOST).contains(&current)
}

// Whether a Drain or an Idle may last for so many seconds.
pub(crate) fn seconds_fit(seconds: u32) -> bool
    ensures { result ≡ fit_seconds seconds }
{
    (SECONDS_LEAST..=SECONDS_MOST).contains(&seconds)
}
