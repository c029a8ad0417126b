// What is shown of a reply.
ghost use Rattle.std.specs.Prelude.{◌≡◌, Some};
ghost use Rattle.replies.specs.Shown.{reply_text};

use crate::run::Reply;
use std::fmt;

impl fmt::Display for Reply {
    ghost output = { λ reply. Some (reply_text reply) };

    fn fmt<W: fmt::Write>(&self, f: &mut fmt::Formatter<W>) -> fmt::Result {
        match self {
            Reply::Done => write!(f, "ok"),
            Reply::Held => write!(f, "held"),
            Reply::Refused(fault, layer) => write!(f, "no {fault} {layer}"),
            Reply::Sheet(to, figures) => write!(f, "sheet {to} {figures}"),
        }
    }
}
