// The key sheet of the lines that a worker has learned.
ghost use Rattle.std.specs.Prelude.{◌≡◌, List, Some, Err};
ghost use Rattle.roster.specs.declared.entry.Entry.{Entry as EntryOf};
ghost use Rattle.roster.specs.Model.{RosterModel};
ghost use Rattle.keylines.specs.Sheets.{sheet_of};
ghost use Rattle.keys.specs.Views.{SameSlice, sheet_now, table_capacity};
ghost use Rattle.protocol.specs.declared.fault.Refusal.{Refusal as RefusalOf};
ghost use Rattle.protocol.specs.Runs.{book_to};
ghost use Rattle.group.specs.Views.{store_of};
ghost use Rattle.books.specs.declared.fault.SheetFault.{SheetFault as FaultOf};
ghost use Rattle.books.specs.Sheets.{EqualKeySheets, key_sheet_got, key_sheet_to};

use crate::ask::ask_to;
use crate::fault::SheetFault;
use group::Group;
use keylines::{ChannelLine, Key};
use keys::{KeySheet, KeyTable};
use protocol::Refusal;

// Empties the table, applies those of the lines 1 to `to` to it that are held, and counts them.
fn fill<K: Key>(
    group: &Group<'_, ChannelLine<K>>,
    table: &mut KeyTable<'_, K>,
    worker: usize,
    to: usize,
) -> KeySheet
    ensures after { (m' : RosterModel (EntryOf (ChannelLine K))) (ls : List (ChannelLine K)) → book_to (store_of group.now m') worker to ≡ Some ls → sheet_now table.new result ≡ sheet_of K.alike (table_capacity table.old) ls }
    ensures slice { SameSlice table.old table.new }
{
    table.clear();
    let mut sheet = KeySheet::new();
    // an `if let` and no `filter_map`: over that chain the check refuses `iterator-loop-line`, which it writes itself, and `returns-clause-after` stays open
    for k in 1..=to {
        if let Some(line) = group.line(worker, k) {
            sheet.apply(table, line);
        }
    }
    sheet
}

// The key sheet of the lines (log entries) 1 to `to` of a worker (replica); the lent table is emptied and filled. A refusal changes nothing.
pub fn key_sheet<K: Key>(
    group: &Group<'_, ChannelLine<K>>,
    table: &mut KeyTable<'_, K>,
    worker: usize,
    to: usize,
) -> Result<KeySheet, Refusal<SheetFault>>
    ensures value { (m' : RosterModel (EntryOf (ChannelLine K))) → key_sheet_got table.new result ≡ key_sheet_to K.alike (table_capacity table.old) (store_of group.now m') worker to }
    ensures refused { (f : RefusalOf FaultOf) → result ≡ Err f → table.new ≡ table.old }
    ensures slice { SameSlice table.old table.new }
    ensures equal { (m' : RosterModel (EntryOf (ChannelLine K))) → EqualKeySheets K.alike (table_capacity table.old) (store_of group.now m') worker to }
{
    ask_to(group, worker, to).map_err(|fault| Refusal { fault, worker })?;
    Ok(fill(group, table, worker, to))
}
