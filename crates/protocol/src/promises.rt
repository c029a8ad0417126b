// What holds in every run of a group, for every kind of line, as contracts: each function answers the line that it is
// given, and its contract is a promise. They differ in nothing else, and stay apart so that each promise can be cited by name.
ghost use Rattle.std.specs.Prelude.{◌≡◌};
ghost use Rattle.protocol.specs.Runs.{Agreement, Origin, Permanence, EqualSheets, SomeSeat, Progress, RefusalKeeps, UnmadeRefuses};

// Two workers that hold a line of one number hold the same line.
#[tactic(auto, using(crate::proofs::Kept::agreement))]
pub fn agreement<L: Copy>(line: L) -> L
    ensures value { result ≡ line }
    ensures promise { Agreement L }
{
    line
}

// Each line that is held for a number was proposed for it before.
#[tactic(auto, using(crate::proofs::Kept::origin))]
pub fn origin<L: Copy>(line: L) -> L
    ensures value { result ≡ line }
    ensures promise { Origin L }
{
    line
}

// A line that a worker holds stays held by it, the same.
pub fn permanence<L: Copy>(line: L) -> L
    ensures value { result ≡ line }
    ensures promise { Permanence L }
{
    line
}

// Workers that hold the lines 1 to j work out equal sheets of any kind `S`.
pub fn equal_sheets<L: Copy, S: Copy>(line: L, sheet: S) -> (L, S)
    ensures value { result ≡ (line, sheet) }
    ensures promise { EqualSheets L S }
{
    (line, sheet)
}

// Each worker outside the seat can come to hold any line, by a way of known length.
#[tactic(auto, using(crate::proofs::Kept::progress, crate::proofs::Kept::some_seat))]
pub fn progress<L: Copy>(line: L) -> L
    ensures value { result ≡ line }
    ensures promise { Progress L }
    ensures seat { SomeSeat L }
{
    line
}

// A refused step changes nothing, and a group made with other sizes refuses every step.
#[tactic(auto, using(crate::proofs::Kept::refusal_keeps, crate::proofs::Unmade::unmade_refuses))]
pub fn refusals<L: Copy>(line: L) -> L
    ensures value { result ≡ line }
    ensures keeps { RefusalKeeps L }
    ensures unmade { UnmadeRefuses L }
{
    line
}
