// Plays a book of pack lines from a script on standard input, and prints what each line did.
#![tactic(auto)]

use commands::read_setup;
use input::read_input;
use pack::StoredPackLine;
use protocol::{LINES, Message};
use replies::run_line;
use roster::{Entry, PlainRoster, Roster};
use std::io;
use storage::Storage;
use text::{Lines, Numbered};

// The message places of the group; each program has sizes of its own.
const MESSAGES: usize = 128;
// The entries of the roster (configuration log).
const ENTRIES: usize = 32;

// Plays the lines after the first on a group of so many workers, and prints the answers.
fn play_lines<R: Roster<Entry<StoredPackLine>>>(
    rt: &HostRuntime,
    lines: Lines,
    workers: usize,
    roster: &mut R,
) -> io::Result<()> {
    let unsent = Message::Learn {
        from: 0,
        line: 0,
        value: StoredPackLine::Idle(0),
    };
    let cells = LINES.saturating_mul(workers);
    let mut storage = Storage::new(rt.alloc(), workers, cells, MESSAGES, unsent)?;
    let mut group = storage.group();
    for (number, line) in (2u32..).zip(lines) {
        let answer = run_line(&mut group, roster, line);
        rt.println(Numbered { number, answer })?;
    }
    Ok(())
}

fn main(rt: HostRuntime) -> io::Result<()> {
    let bytes = read_input(rt.alloc(), rt.stdin())?;
    let mut lines = Lines::new(bytes.as_slice());
    let Some(first) = lines.next() else {
        return Ok(());
    };
    match read_setup(first) {
        Ok(workers) => {
            println!(rt; "1 ok")?;
            let mut entries = vec![in rt.alloc(); Entry::Lead(0); ENTRIES]?;
            let mut roster = PlainRoster::new(entries.as_mut_slice());
            play_lines(&rt, lines, workers, &mut roster)
        }
        Err(bad) => println!(rt; "1 {bad}"),
    }
}
