// The key sheet: it works on a key table by channel lines, and counts them.
ghost use Rattle.std.specs.Prelude.{◌≡◌, [], ◌∷◌};
ghost use Rattle.keylines.specs.Laws.{LawsGoOn};
ghost use Rattle.keylines.specs.Sheets.{applied, worked_on};
ghost use Rattle.keys.specs.Twins.{SheetsAgree};
ghost use Rattle.keys.specs.Views.{SameSlice, no_lines, one_more, table_capacity, sheet_now};

use crate::table::KeyTable;
use keylines::{ChannelLine, Key};

// How many channel lines were fit and unfit for the table that they were applied to. A pack sheet has two such counts
// beside its charge; neither sheet knows of the other, and two numbers are no reason for a crate below both.
#[derive(Clone, Copy, PartialEq, Eq, Debug, Default)]
pub struct KeySheet {
    fit: u32,
    unfit: u32,
}

impl KeySheet {
    // The sheet of no lines, for a table with no pairs.
    pub fn new() -> KeySheet
        ensures { result ≡ no_lines }
    {
        KeySheet::default()
    }

    // Counts one line more.
    fn count(&mut self, fit: bool)
        ensures { self.new ≡ one_more fit self.old }
    {
        if fit {
            self.fit = self.fit.saturating_add(1);
        } else {
            self.unfit = self.unfit.saturating_add(1);
        }
    }

    // Applies one line to the table, and counts it as fit or unfit.
    pub fn apply<K: Key>(&mut self, table: &mut KeyTable<K>, line: ChannelLine<K>)
        ensures after { sheet_now table.new self.new ≡ applied K.alike (table_capacity table.old) (sheet_now table.old self.old) line }
        ensures slice { SameSlice table.old table.new }
        ensures law { LawsGoOn K.alike (table_capacity table.old) (sheet_now table.old self.old) (line ∷ []) (sheet_now table.new self.new) }
    {
        let fit = table.apply(line);
        self.count(fit);
    }

    // Applies lines to the table in their order, and counts them.
    pub fn apply_all<K: Key>(&mut self, table: &mut KeyTable<K>, lines: &[ChannelLine<K>])
        ensures after { sheet_now table.new self.new ≡ worked_on K.alike (table_capacity table.old) (sheet_now table.old self.old) lines.now }
        ensures slice { SameSlice table.old table.new }
        ensures law { LawsGoOn K.alike (table_capacity table.old) (sheet_now table.old self.old) lines.now (sheet_now table.new self.new) }
        ensures equal { SheetsAgree K.alike lines.now table.old self.old table.new self.new }
    {
        for line in lines {
            self.apply(table, *line);
        }
    }

    // How many lines were fit; the count stops at 4,294,967,295.
    pub fn fit(&self) -> u32
        ensures { result ≡ self.now.fit }
    {
        self.fit
    }

    // How many lines were unfit; the count stops at 4,294,967,295.
    pub fn unfit(&self) -> u32
        ensures { result ≡ self.now.unfit }
    {
        self.unfit
    }
}
