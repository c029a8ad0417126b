// How far the lines that a worker has learned go without a gap.
ghost use Rattle.std.specs.Prelude.{◌≡◌, is_none};
ghost use Rattle.protocol.specs.Runs.{holds};
ghost use Rattle.roster.specs.declared.entry.Entry.{Entry as EntryOf};
ghost use Rattle.roster.specs.Model.{RosterModel};
ghost use Rattle.group.specs.Views.{store_of};
ghost use Rattle.books.specs.Sheets.{HeldTo, held_to};

use group::Group;
use protocol::LINES;

// The number of the last line (log entry) that a worker (replica) holds with none missing before it, or 0.
pub fn held_to<L: Copy>(group: &Group<'_, L>, worker: usize) -> usize
    ensures value { (m' : RosterModel (EntryOf L)) → result ≡ held_to (store_of group.now m') worker }
    ensures law { (m' : RosterModel (EntryOf L)) → HeldTo (store_of group.now m') worker result }
{
    // a range with no `=`, which is twice as fast here: a search from call to call tests an inclusive one for its last item each time
    let gap = (1..LINES + 1).position(
        |k|
            ensures { (m' : RosterModel (EntryOf L)) → result ≡ is_none (holds (store_of group.entry.now m') worker k) }
        { group.line(worker, k).is_none() },
    );
    gap.unwrap_or(LINES)
}
