// Running the lines of a script on a group.
ghost use Rattle.std.specs.Prelude.{◌≡◌};
ghost use Rattle.roster.specs.declared.entry.Entry.{Entry as EntryOf};
ghost use Rattle.roster.specs.Model.{RosterModel};
ghost use Rattle.protocol.specs.Store.{step_after, step_answer};
ghost use Rattle.group.specs.Views.{store_of};
ghost use Rattle.replies.specs.declared.run.Reply.TheVariants.{Refused};
ghost use Rattle.replies.specs.Replies.{step_reply, sheet_of_worker, reply_to, store_after, reply_of, store_on, LineGoesOn};

use books::{held_to, pack_sheet};
use commands::{Command, read_command};
use group::Group;
use pack::StoredPackLine;
use packtext::Figures;
use protocol::{Answer, Fault, Layer, Refusal, Step};
use roster::{Entry, Roster};
use text::BadField;

// What is answered to a command. It is printed as `ok`, `held`, `no FAULT LAYER` or `sheet LINES CHARGE TIME`.
#[derive(Clone, Copy, PartialEq, Eq, Debug)]
pub enum Reply {
    // the step was done
    Done,
    // the step was done with the line (log entry) that was in hand
    Held,
    // the step or question was refused: the number and the layer, which both kinds of fault have and no more
    Refused(u32, Layer),
    // the sheet to this line
    Sheet(usize, Figures),
}

impl<F: Fault> From<Refusal<F>> for Reply {
    ghost from_gives = { λ e r. r ≡ Refused (F.number e.fault) (F.layer e.fault) };

    fn from(refusal: Refusal<F>) -> Reply {
        Reply::Refused(refusal.fault.number(), refusal.fault.layer())
    }
}

// Does a step.
fn run_step<R: Roster<Entry<StoredPackLine>>>(
    group: &mut Group<'_, StoredPackLine>,
    roster: &mut R,
    step: &Step<StoredPackLine>,
) -> Reply
    ensures value { result ≡ step_reply (step_answer step.now (store_of group.old (R.model roster.old))) }
    ensures after { store_of group.new (R.model roster.new) ≡ step_after step.now (store_of group.old (R.model roster.old)) }
{
    match group.step(roster, step) {
        Ok(Answer::Done) => Reply::Done,
        Ok(Answer::Held) => Reply::Held,
        Err(refusal) => Reply::from(refusal),
    }
}

// The sheet of a worker, to the last line with none missing before it.
fn sheet_of(group: &Group<'_, StoredPackLine>, worker: usize) -> Reply
    ensures { (m' : RosterModel (EntryOf StoredPackLine)) → result ≡ sheet_of_worker (store_of group.now m') worker }
{
    let to = held_to(group, worker);
    match pack_sheet(group, worker, to) {
        Ok(sheet) => Reply::Sheet(to, Figures::from(&sheet)),
        Err(refusal) => Reply::from(refusal),
    }
}

// Does what a command asks for.
fn run_command<R: Roster<Entry<StoredPackLine>>>(
    group: &mut Group<'_, StoredPackLine>,
    roster: &mut R,
    command: &Command,
) -> Reply
    ensures value { result ≡ reply_to (store_of group.old (R.model roster.old)) command.now }
    ensures after { store_of group.new (R.model roster.new) ≡ store_after (store_of group.old (R.model roster.old)) command.now }
{
    match *command {
        Command::Do(step) => run_step(group, roster, &step),
        Command::Sheet(worker) => sheet_of(group, worker),
    }
}

// Does what a line of a script asks for, and says what was done. A bad line changes nothing.
pub fn run_line<R: Roster<Entry<StoredPackLine>>>(
    group: &mut Group<'_, StoredPackLine>,
    roster: &mut R,
    line: &[u8],
) -> Result<Reply, BadField>
    ensures value { result ≡ reply_of (store_of group.old (R.model roster.old)) line.now }
    ensures after { store_of group.new (R.model roster.new) ≡ store_on (store_of group.old (R.model roster.old)) line.now }
    ensures promise { LineGoesOn line.now (store_of group.old (R.model roster.old)) (store_of group.new (R.model roster.new)) }
{
    let command = read_command(line)?;
    Ok(run_command(group, roster, &command))
}
