// Why a sheet is refused, and what the refusal tells.
ghost use Rattle.books.specs.Faults.{sheet_number, sheet_layer};

use protocol::{Fault, Layer};

// The first question of a sheet that was answered with no, by the number under which it is told.
#[derive(Clone, Copy, PartialEq, Eq, Debug)]
pub enum SheetFault {
    // the group was not made with the right sizes
    Unmade = 1,
    // no worker has this number
    NoWorker = 2,
    // the worker does not hold all lines up to the one asked for
    NotHeld = 12,
}

impl Fault for SheetFault {
    ghost number = { sheet_number };

    ghost layer = { sheet_layer };

    fn number(&self) -> u32 {
        *self as u32
    }

    fn layer(&self) -> Layer {
        Layer::Group
    }
}
