// The questions that come before a sheet.
ghost use Rattle.std.specs.Prelude.{◌≡◌, is_some};
ghost use Rattle.roster.specs.declared.entry.Entry.{Entry as EntryOf};
ghost use Rattle.roster.specs.Model.{RosterModel};
ghost use Rattle.protocol.specs.Runs.{holds};
ghost use Rattle.group.specs.Views.{store_of};
ghost use Rattle.books.specs.Sheets.{asked_of, asked_to};

use crate::fault::SheetFault;
use group::Group;

// Questions 1 and 2: the group is made, and has this worker (replica).
pub(crate) fn ask<L: Copy>(group: &Group<'_, L>, worker: usize) -> Result<(), SheetFault>
    ensures { (m' : RosterModel (EntryOf L)) → result ≡ asked_of (store_of group.now m') worker }
{
    match group.workers() {
        None => Err(SheetFault::Unmade),
        Some(count) if worker >= count => Err(SheetFault::NoWorker),
        Some(_) => Ok(()),
    }
}

// Questions 1, 2 and 12: the worker holds each of the lines (log entries) 1 to `to` too.
pub(crate) fn ask_to<L: Copy>(
    group: &Group<'_, L>,
    worker: usize,
    to: usize,
) -> Result<(), SheetFault>
    ensures { (m' : RosterModel (EntryOf L)) → result ≡ asked_to (store_of group.now m') worker to }
{
    ask(group, worker)?;
    let held = (1..=to).all(
        |k|
            ensures { (m' : RosterModel (EntryOf L)) → result ≡ is_some (holds (store_of group.entry.now m') worker k) }
        { group.line(worker, k).is_some() },
    );
    if held {
        Ok(())
    } else {
        Err(SheetFault::NotHeld)
    }
}
