// Reading a command, and the first line of a script, from text.
ghost use Rattle.std.specs.Prelude.{◌≡◌, ℕ};
ghost use Rattle.commands.specs.Commands.{Makes, MakesOfTwo, one_in, two_in, propose_in, step_in, command_in, command_of, workers_of, roster_of, setup_in, setup_of};
ghost use Rattle.text.specs.Reading.{Takes};

use crate::command::Command;
use pack::StoredPackLine;
use packtext::take_pack_line;
use protocol::Step;
use text::{BadField, Fields, number_of, parse_line};

// What `make` makes of the number in the next field.
fn take_one<T, F: FnOnce(usize) -> T>(fields: &mut Fields, make: F) -> Result<T, BadField>
    requires { F.IsAlwaysCallable make }
    ensures { (made : ℕ → T) → Makes F.FnOnce make made → Takes (one_in made) fields.old result fields.new }
{
    let n = fields.number()?;
    Ok(make(n as usize))
}

// What `make` makes of the numbers in the next two fields.
fn take_two<T, F: FnOnce(usize, usize) -> T>(fields: &mut Fields, make: F) -> Result<T, BadField>
    requires { F.IsAlwaysCallable make }
    ensures { (made : ℕ → ℕ → T) → MakesOfTwo F.FnOnce make made → Takes (two_in made) fields.old result fields.new }
{
    let m = fields.number()?;
    let n = fields.number()?;
    Ok(make(m as usize, n as usize))
}

// Takes the fields of a Propose: the worker, the line number, and a pack line.
fn take_propose(fields: &mut Fields) -> Result<Step<StoredPackLine>, BadField>
    ensures { Takes propose_in fields.old result fields.new }
{
    let w = fields.number()?;
    let k = fields.number()?;
    let line = take_pack_line(fields)?;
    Ok(Step::Propose(w as usize, k as usize, line.into()))
}

// Takes the other fields of the step with this letter: `F a`, `R w`, `L w`, `P w`, `X m`, `D m w`,
// `C w k`, `S w b`, or `V w k` and a pack line. Any other letter is bad, at its place.
fn take_step(
    fields: &mut Fields,
    place: usize,
    letter: char,
) -> Result<Step<StoredPackLine>, BadField>
    ensures { Takes (step_in place letter) fields.old result fields.new }
{
    match letter {
        'F' => take_one(fields, Step::Found),
        'R' => take_one(fields, Step::Read),
        'L' => take_one(fields, Step::Lead),
        'P' => take_one(fields, Step::Prepare),
        'X' => take_one(fields, Step::Lose),
        'D' => take_two(fields, Step::Deliver),
        'C' => take_two(fields, Step::Carry),
        'S' => take_two(fields, Step::Reseat),
        'V' => take_propose(fields),
        _ => Err(BadField { place }),
    }
}

// Takes the fields of one command: `Q w`, or those of a step.
fn take_command(fields: &mut Fields) -> Result<Command, BadField>
    ensures { Takes command_in fields.old result fields.new }
{
    let place = fields.place();
    match fields.letter()? {
        'Q' => take_one(fields, Command::Sheet),
        letter => take_step(fields, place, letter).map(Command::Do),
    }
}

// The command that a line of text writes, and no field after it.
pub fn read_command(line: &[u8]) -> Result<Command, BadField>
    ensures { result ≡ command_of line.now }
{
    parse_line(line, take_command)
}

// The number of workers that a field writes, 3 or 4.
fn workers_of(field: &[u8]) -> Option<usize>
    ensures { result ≡ workers_of field.now }
{
    match number_of(field)? {
        workers @ (3 | 4) => Some(workers as usize),
        _ => None,
    }
}

// The kind of roster that a field writes: 1, the plain one.
fn roster_of(field: &[u8]) -> Option<()>
    ensures { result ≡ roster_of field.now }
{
    match number_of(field)? {
        1 => Some(()),
        _ => None,
    }
}

// Takes the fields of a script's first line, `G WORKERS ROSTER`.
fn take_setup(fields: &mut Fields) -> Result<usize, BadField>
    ensures { Takes setup_in fields.old result fields.new }
{
    let place = fields.place();
    match fields.letter()? {
        'G' => {
            let workers = fields.read(workers_of)?;
            fields.read(roster_of)?;
            Ok(workers)
        }
        _ => Err(BadField { place }),
    }
}

// The number of workers that the first line of a script asks for, and no field after it.
pub fn read_setup(line: &[u8]) -> Result<usize, BadField>
    ensures { result ≡ setup_of line.now }
{
    parse_line(line, take_setup)
}
