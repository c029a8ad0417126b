// Plays one whole book for a newcomer, and prints every step with what it did.
#![tactic(auto)]

mod story;

use group::Group;
use pack::StoredPackLine;
use protocol::{LINES, Message};
use replies::run_line;
use roster::{Entry, PlainRoster, Roster};
use std::io;
use storage::Storage;
use story::STORY;
use text::Numbered;

// Four workers (replicas), 64 cells each in three tables, 128 message places, and a roster of 32 entries: this program's
// own sizes.
const WORKERS: usize = 4;

const CELLS: usize = LINES * WORKERS;

const MESSAGES: usize = 128;

const ENTRIES: usize = 32;

// Plays the story on a group, and prints each answer beside what the step is for.
fn tell<R: Roster<Entry<StoredPackLine>>>(
    rt: &HostRuntime,
    group: &mut Group<'_, StoredPackLine>,
    roster: &mut R,
    story: &[(&str, &str)],
) -> io::Result<()> {
    for (number, (command, what)) in (1u32..).zip(story) {
        let answer = run_line(group, roster, command.as_bytes());
        let shown = Numbered { number, answer };
        println!(rt; "{shown}: {what} ({command})")?;
    }
    Ok(())
}

fn main(rt: HostRuntime) -> io::Result<()> {
    let unsent = Message::Learn {
        from: 0,
        line: 0,
        value: StoredPackLine::Idle(0),
    };
    let mut storage = Storage::new(rt.alloc(), WORKERS, CELLS, MESSAGES, unsent)?;
    let mut entries = vec![in rt.alloc(); Entry::Lead(0); ENTRIES]?;
    let mut roster = PlainRoster::new(entries.as_mut_slice());
    let mut group = storage.group();
    tell(&rt, &mut group, &mut roster, STORY)
}
