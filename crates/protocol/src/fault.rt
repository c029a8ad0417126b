// Why a step is refused, and what the refusal tells.
ghost use Rattle.std.specs.Prelude.{◌≡◌, ℕ, Some};
ghost use Rattle.protocol.specs.Faults.{number, layer_of, told_of};
ghost use Rattle.protocol.specs.Shown.{layer_text};
ghost use Rattle.protocol.specs.declared.fault.Layer.{Layer};
ghost use Rattle.protocol.specs.declared.fault.StepFault.TheVariants.{OfRoster};

use roster::RosterFault;
use std::fmt;

// The first question of a step that was answered with no; a roster's fault travels inside, unaltered.
#[derive(Clone, Copy, PartialEq, Eq, Debug)]
pub enum StepFault {
    // 1: the group was not made with the right sizes
    Unmade,
    // 2: no worker has this number
    NoWorker,
    // 3: no line has this number
    NoLine,
    // 4: no message has this number
    NoMessage,
    // 5: the message is addressed to another worker
    NotAddressed,
    // 6: the worker has read no Seat entry, or has no claim
    NotReady,
    // 7: the claim is not taken up
    NotTaken,
    // 8: the seat itself leads, or would be the new seat, or the worker would
    WrongSeat,
    // 9: the line is not in hand or is carried already, or a line in hand is not carried
    WrongLine,
    // 10: the message is not timely
    Late,
    // 11: the message list has no places for what the step sends
    NoRoom,
    // 20 to 23: the roster refuses
    OfRoster(RosterFault),
}

// Which part of the system refuses.
#[derive(Clone, Copy, PartialEq, Eq, Debug)]
pub enum Layer {
    Group,
    Roster,
}

impl fmt::Display for Layer {
    ghost output = { λ l. Some (layer_text l) };

    fn fmt<W: fmt::Write>(&self, f: &mut fmt::Formatter<W>) -> fmt::Result {
        match self {
            Layer::Group => f.write_str("group"),
            Layer::Roster => f.write_str("roster"),
        }
    }
}

// What a fault tells: the number under which it is told, and the layer that refuses.
pub trait Fault: Copy {
    ghost number: { Self → ℕ };

    ghost layer: { Self → Layer };

    // The number under which the fault is told.
    fn number(&self) -> u32
        ensures { result ≡ number self.now };

    // The layer that refuses.
    fn layer(&self) -> Layer
        ensures { result ≡ layer self.now };
}

// A refusal: the fault, and the worker as it was given.
#[derive(Clone, Copy, PartialEq, Eq, Debug)]
pub struct Refusal<F> {
    pub fault: F,
    pub worker: usize,
}

// The answer to what was asked of a worker, with that worker in a refusal.
pub fn told<T, F>(worker: usize, answer: Result<T, F>) -> Result<T, Refusal<F>>
    ensures { result ≡ told_of worker answer }
{
    answer.map_err(|fault| Refusal { fault, worker })
}

impl From<RosterFault> for StepFault {
    ghost from_gives = { λ e r. r ≡ OfRoster e };

    fn from(fault: RosterFault) -> StepFault {
        StepFault::OfRoster(fault)
    }
}

impl Fault for StepFault {
    ghost number = { number };

    ghost layer = { layer_of };

    fn number(&self) -> u32 {
        // a match, as `as` wants variants without values
        match *self {
            StepFault::Unmade => 1,
            StepFault::NoWorker => 2,
            StepFault::NoLine => 3,
            StepFault::NoMessage => 4,
            StepFault::NotAddressed => 5,
            StepFault::NotReady => 6,
            StepFault::NotTaken => 7,
            StepFault::WrongSeat => 8,
            StepFault::WrongLine => 9,
            StepFault::Late => 10,
            StepFault::NoRoom => 11,
            StepFault::OfRoster(fault) => fault.number(),
        }
    }

    fn layer(&self) -> Layer {
        match *self {
            StepFault::OfRoster(_) => Layer::Roster,
            _ => Layer::Group,
        }
    }
}
