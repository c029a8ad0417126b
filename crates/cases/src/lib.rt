// The marked cases of the rules, shown of the definitions.
#![tactic(auto)]

ghost use Rattle.std.specs.Prelude.{◌≡◌, length};
ghost use Rattle.cases.specs.Table.{table, EveryCaseHolds};

// How many cases are marked; each holds.
pub fn case_count() -> usize
    ensures value { result ≡ length table }
    ensures hold { EveryCaseHolds }
{
    8
}
