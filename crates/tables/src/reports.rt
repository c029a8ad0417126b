// Reports of the lines in a worker's cells.
ghost use Rattle.std.specs.Prelude.{◌≡◌, ◌+◌, ◌≤◌, ◌++◌, length};
ghost use Rattle.protocol.specs.Limits.{lines};
ghost use Rattle.protocol.specs.Store.{lines_in, reports};
ghost use Rattle.tables.specs.Views.{list_of, places_of, table_of, HasRow};

use crate::lent::{LentList, Table};
use protocol::Message;

// Sends a Report for each of worker w's lines, in rising line order. There are `count` of them, and the walk ends at
// the last.
pub fn send_counted<L: Copy>(
    messages: &mut LentList<'_, Message<L>>,
    cells: &Table<'_, Option<L>>,
    w: usize,
    to: usize,
    epoch: u32,
    claim: u32,
    count: u32,
)
    requires lines { count ≡ lines_in w lines (table_of cells.now) }
    requires table { HasRow cells.now w }
    requires room { length (list_of messages.old) + lines_in w lines (table_of cells.now) ≤ places_of messages.old }
    ensures items { list_of messages.new ≡ list_of messages.old ++ reports w to epoch claim lines (table_of cells.now) }
    ensures places { places_of messages.new ≡ places_of messages.old }
{
    let mut left = count;
    for (i, cell) in cells.row(w).iter().enumerate() {
        if left == 0 {
            break;
        }
        if let Some(value) = *cell {
            messages.push(Message::Report {
                from: w,
                to,
                epoch,
                claim,
                line: i + 1,
                value,
            });
            left -= 1;
        }
    }
}
