// The 64 cells of one worker in a table: writing one, clearing, testing and counting all of them.
ghost use Rattle.std.specs.Prelude.{◌≡◌, length, if◌then◌else◌, Some, None};
ghost use Rattle.protocol.specs.Limits.{lines};
ghost use Rattle.protocol.specs.Lines.{in_book};
ghost use Rattle.protocol.specs.Store.{all_marked, cell_at, cleared, fills, lines_in, put_cell};
ghost use Rattle.tables.specs.Views.{table_of, row_of, HasRow};

use crate::lent::Table;
use crate::sets::has;
use protocol::LINES;

impl<'a, L: Copy> Table<'a, Option<L>> {
    // The cells of worker w, that of line 1 first.
    pub(crate) fn row(&self, w: usize) -> &[Option<L>]
        requires { HasRow self.now w }
        ensures cells { result.now ≡ row_of w (table_of self.now) }
        ensures lines { length result.now ≡ lines }
    {
        &self.all[LINES * w..LINES * w + LINES]
    }

    // Empties the cells of worker w whose lines are not in the set.
    pub fn clear(&mut self, w: usize, carried: u64)
        requires { HasRow self.old w }
        ensures cells { table_of self.new ≡ cleared carried w lines (table_of self.old) }
        ensures places { length (table_of self.new) ≡ length (table_of self.old) }
    {
        let row = &mut self.all[LINES * w..LINES * w + LINES];
        for (i, cell) in row.iter_mut().enumerate() {
            if !has(carried, i + 1) {
                *cell = None;
            }
        }
    }

    // Puts a line into worker w's cell for line k, if there is such a line.
    pub fn put(&mut self, w: usize, k: usize, line: L)
        requires { HasRow self.old w }
        ensures { table_of self.new ≡ put_cell w k (Some line) (table_of self.old) }
    {
        if (1..=LINES).contains(&k) {
            self.all[LINES * w + (k - 1)] = Some(line);
        }
    }

    // What worker w's cell for line k has; nothing where there is no such line.
    pub fn cell(&self, w: usize, k: usize) -> Option<L>
        requires { HasRow self.now w }
        ensures { result ≡ (if in_book k then cell_at (table_of self.now) w k else None) }
    {
        if !(1..=LINES).contains(&k) {
            return None;
        }
        self.all[LINES * w + (k - 1)]
    }

    // Fills worker w's cell for line k, if there is such a line and the cell is empty.
    pub fn fill(&mut self, w: usize, k: usize, line: L)
        requires { HasRow self.old w }
        ensures { table_of self.new ≡ put_cell w k (fills (cell_at (table_of self.old) w k) line) (table_of self.old) }
    {
        if self.cell(w, k).is_none() {
            self.put(w, k, line);
        }
    }

    // Whether every line in worker w's cells is in the set.
    pub fn all_in(&self, w: usize, carried: u64) -> bool
        requires { HasRow self.now w }
        ensures { result ≡ all_marked carried w lines (table_of self.now) }
    {
        self.row(w)
            .iter()
            .enumerate()
            .all(|(i, cell)| cell.is_none() || has(carried, i + 1))
    }

    // How many of worker w's cells have a line.
    pub fn count(&self, w: usize) -> u32
        requires { HasRow self.now w }
        ensures { result ≡ lines_in w lines (table_of self.now) }
    {
        self.row(w).iter().filter(|cell| cell.is_some()).count() as u32
    }
}
