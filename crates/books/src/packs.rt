// The pack sheet of the lines that a worker has learned.
ghost use Rattle.std.specs.Prelude.{◌≡◌};
ghost use Rattle.roster.specs.declared.entry.Entry.{Entry as EntryOf};
ghost use Rattle.roster.specs.Model.{RosterModel};
ghost use Rattle.group.specs.Views.{store_of};
ghost use Rattle.books.specs.Sheets.{EqualPackSheets, lines_to, pack_sheet_to, packs_of, works_out};

use crate::ask::ask;
use crate::fault::SheetFault;
use group::Group;
use pack::{PackSheet, StoredPackLine};
use protocol::Refusal;

// The pack sheet of the lines 1 to `to`, or the first question that is answered with no.
fn worked_out(
    group: &Group<'_, StoredPackLine>,
    worker: usize,
    to: usize,
) -> Result<PackSheet, SheetFault>
    ensures { (m' : RosterModel (EntryOf StoredPackLine)) → result ≡ works_out packs_of (lines_to (store_of group.now m') worker to) }
{
    ask(group, worker)?;
    let mut sheet = PackSheet::new();
    for k in 1..=to {
        let line = group.line(worker, k).ok_or(SheetFault::NotHeld)?;
        sheet.apply(line.into());
    }
    Ok(sheet)
}

// The pack sheet of the lines (log entries) 1 to `to` that a worker (replica) has learned.
pub fn pack_sheet(
    group: &Group<'_, StoredPackLine>,
    worker: usize,
    to: usize,
) -> Result<PackSheet, Refusal<SheetFault>>
    ensures value { (m' : RosterModel (EntryOf StoredPackLine)) → result ≡ pack_sheet_to (store_of group.now m') worker to }
    ensures equal { (m' : RosterModel (EntryOf StoredPackLine)) → EqualPackSheets (store_of group.now m') worker to }
{
    worked_out(group, worker, to).map_err(|fault| Refusal { fault, worker })
}
