// What is shown of the answers to requests.
ghost use Rattle.std.specs.Prelude.{Some};
ghost use Rattle.channeltext.specs.Shown.{answer_text};

use keylines::Channel;
use std::fmt;

// What was answered to a request: a channel line that was fit or unfit, with the number of pairs after it; the words of
// a channel, or the largest channel, where there is one. It is printed as `fit USED`, `unfit USED`, `words WORD WORD`,
// `largest KEY`, or `none`.
#[derive(Clone, Copy, PartialEq, Eq, Debug)]
pub enum ChannelAnswer {
    Fit(usize),
    Unfit(usize),
    Words(Option<[u64; 2]>),
    Largest(Option<Channel>),
}

impl fmt::Display for ChannelAnswer {
    ghost output = { λ answer. Some (answer_text answer) };

    fn fmt<W: fmt::Write>(&self, f: &mut fmt::Formatter<W>) -> fmt::Result {
        match self {
            ChannelAnswer::Fit(used) => write!(f, "fit {used}"),
            ChannelAnswer::Unfit(used) => write!(f, "unfit {used}"),
            ChannelAnswer::Words(Some([first, second])) => write!(f, "words {first} {second}"),
            ChannelAnswer::Largest(Some(key)) => write!(f, "largest {}", key.number),
            ChannelAnswer::Words(None) | ChannelAnswer::Largest(None) => write!(f, "none"),
        }
    }
}
