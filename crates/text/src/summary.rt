// What is shown of a whole sheet.
ghost use Rattle.text.specs.Shown.{summed_text};

use std::fmt;

// What is shown of a whole sheet's contents, and how many of its lines were fit and unfit. It is printed as
// `sheet SHOWN fit COUNT unfit COUNT`.
#[derive(Clone, Copy, PartialEq, Eq, Debug, Drop)]
pub struct Summary<T> {
    pub shown: T,
    pub fit: u32,
    pub unfit: u32,
}

impl<T: fmt::Display> fmt::Display for Summary<T> {
    ghost output = { λ summary. summed_text (T.output summary.shown) summary.fit summary.unfit };

    fn fmt<W: fmt::Write>(&self, f: &mut fmt::Formatter<W>) -> fmt::Result {
        let (shown, fit, unfit) = (&self.shown, self.fit, self.unfit);
        write!(f, "sheet {shown} fit {fit} unfit {unfit}")
    }
}
