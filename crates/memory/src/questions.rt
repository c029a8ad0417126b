// Questions that steps ask: each answers the step's fault where the answer is no.
ghost use Rattle.std.specs.Prelude.{◌≡◌, ◌≤◌, nat_lt, OnOk};
ghost use Rattle.protocol.specs.declared.fault.StepFault.TheVariants.{NoLine, NotReady, NotTaken};
ghost use Rattle.protocol.specs.Limits.{lines};
ghost use Rattle.protocol.specs.Lines.{in_book};
ghost use Rattle.protocol.specs.Store.{after, must};

use protocol::{LINES, StepFault, Worker};

// A fault where something does not hold.
pub fn must(holds: bool, fault: StepFault) -> Result<(), StepFault>
    ensures { result ≡ must holds fault }
{
    if holds { Ok(()) } else { Err(fault) }
}

// Whether k is a line number (3).
pub fn must_be_line(k: usize) -> Result<(), StepFault>
    ensures value { result ≡ must (in_book k) NoLine }
    ensures line { OnOk result ((1 ≤ k) × (k ≤ lines)) }
{
    must((1..=LINES).contains(&k), StepFault::NoLine)
}

// Whether a worker has a claim (6) that is taken up (7).
pub fn must_lead(x: Worker) -> Result<(), StepFault>
    ensures { result ≡ after (must (nat_lt 0 x.claim) NotReady) (λ _. must x.taken NotTaken) }
{
    must(x.claim > 0, StepFault::NotReady)?;
    must(x.taken, StepFault::NotTaken)
}
