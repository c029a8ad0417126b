// A line of output under a number.
ghost use Rattle.text.specs.Shown.{answered_text, numbered_text};

use crate::fields::BadField;
use std::fmt;

// What was answered to the line of input with this number, or which of its fields is bad. It is printed as
// `NUMBER ANSWER` or `NUMBER bad PLACE`.
#[derive(Clone, Copy, PartialEq, Eq, Debug, Drop)]
pub struct Numbered<T> {
    pub number: u32,
    pub answer: Result<T, BadField>,
}

impl<T: fmt::Display> fmt::Display for Numbered<T> {
    ghost output = { λ line. numbered_text line.number (answered_text T.output line.answer) };

    fn fmt<W: fmt::Write>(&self, f: &mut fmt::Formatter<W>) -> fmt::Result {
        let number = self.number;
        match &self.answer {
            Ok(answer) => write!(f, "{number} {answer}"),
            Err(bad) => write!(f, "{number} {bad}"),
        }
    }
}
