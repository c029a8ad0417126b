// Working on a sheet by lines of text, and what is shown of it.
ghost use Rattle.std.specs.Prelude.{◌≡◌, Some};
ghost use Rattle.packtext.specs.Shown.{figures_of, sheet_after, answer_of, done_with, BookGrows, summary_of, figures_text, answer_text, sheet_text};
ghost use Rattle.pack.specs.Sheets.{applied};

use crate::read::pack_line;
use pack::{PackLine, PackSheet};
use std::fmt;
use std::num::saturating_f64_to_u64;
use text::{BadField, Summary};

// What is shown of a sheet: its charge in milliampere-seconds and its remaining seconds, if there
// are any, both rounded down. It is printed as `CHARGE TIME`, with `-` for no time.
#[derive(Clone, Copy, PartialEq, Eq, Debug)]
pub struct Figures {
    pub charge: u64,
    pub remaining: Option<u64>,
}

// What was done with a pack line, which was fit or unfit, and the sheet after it. It is printed as
// `fit CHARGE TIME` or `unfit CHARGE TIME`.
#[derive(Clone, Copy, PartialEq, Eq, Debug)]
pub enum Answer {
    Fit(Figures),
    Unfit(Figures),
}

impl From<&PackSheet> for Figures {
    ghost from_gives = { λ sheet figures. figures ≡ figures_of sheet.now };

    fn from(sheet: &PackSheet) -> Figures {
        Figures {
            charge: saturating_f64_to_u64(sheet.charge()),
            // a closure, since the check admits no statement for this function of std where it is passed by name
            remaining: sheet
                .remaining()
                .map(|seconds| saturating_f64_to_u64(seconds)),
        }
    }
}

// What is shown of a whole sheet. It is printed as `sheet CHARGE TIME fit COUNT unfit COUNT`.
pub fn summary(sheet: &PackSheet) -> Summary<Figures>
    ensures value { result ≡ summary_of sheet.now }
    ensures text { ⟦<Summary<Figures> as fmt::Display>⟧.output result ≡ Some (sheet_text sheet.now) }
{
    Summary {
        shown: Figures::from(sheet),
        fit: sheet.fit(),
        unfit: sheet.unfit(),
    }
}

// Works on by a pack line, and says whether it was fit.
fn apply_line(sheet: &mut PackSheet, line: PackLine) -> Answer
    ensures value { result ≡ done_with sheet.old line }
    ensures after { sheet.new ≡ applied sheet.old line }
{
    let fit = sheet.fits(line);
    sheet.apply(line);
    let figures = Figures::from(&*sheet);
    if fit {
        Answer::Fit(figures)
    } else {
        Answer::Unfit(figures)
    }
}

// Works on by a line of text, and says what was done. A bad line leaves the sheet.
pub fn apply_text(sheet: &mut PackSheet, line: &[u8]) -> Result<Answer, BadField>
    ensures value { result ≡ answer_of sheet.old line.now }
    ensures after { sheet.new ≡ sheet_after sheet.old line.now }
    ensures grows { BookGrows sheet.old line.now sheet.new }
{
    Ok(apply_line(sheet, pack_line(line)?))
}

impl fmt::Display for Figures {
    ghost output = { λ figures. Some (figures_text figures) };

    fn fmt<W: fmt::Write>(&self, f: &mut fmt::Formatter<W>) -> fmt::Result {
        let charge = self.charge;
        match self.remaining {
            Some(seconds) => write!(f, "{charge} {seconds}"),
            None => write!(f, "{charge} -"),
        }
    }
}

impl fmt::Display for Answer {
    ghost output = { λ answer. Some (answer_text answer) };

    fn fmt<W: fmt::Write>(&self, f: &mut fmt::Formatter<W>) -> fmt::Result {
        match self {
            Answer::Fit(figures) => write!(f, "fit {figures}"),
            Answer::Unfit(figures) => write!(f, "unfit {figures}"),
        }
    }
}
