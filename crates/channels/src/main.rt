// Works out a key sheet from lines of text on standard input, and prints what each line did.
#![tactic(auto)]

use channeltext::{ChannelSheet, read_places};
use input::read_input;
use keylines::{Channel, Pair};
use std::io;
use text::{Lines, Numbered, Summary};

// Answers the lines after the first, with a sheet of so many places.
fn answer_lines(rt: &HostRuntime, lines: Lines, places: usize) -> io::Result<()> {
    let free = Pair {
        key: Channel { number: 0 },
        words: [0, 0],
    };
    let mut pairs = vec![in rt.alloc(); free; places]?;
    let mut sheet = ChannelSheet::new(pairs.as_mut_slice());
    for (number, line) in (2u32..).zip(lines) {
        let answer = sheet.apply_text(line);
        rt.println(Numbered { number, answer })?;
    }
    rt.println(Summary::from(&sheet))
}

fn main(rt: HostRuntime) -> io::Result<()> {
    let bytes = read_input(rt.alloc(), rt.stdin())?;
    let mut lines = Lines::new(bytes.as_slice());
    let Some(first) = lines.next() else {
        return Ok(());
    };
    match read_places(first) {
        Ok(places) => {
            println!(rt; "1 table {places}")?;
            answer_lines(&rt, lines, places)
        }
        Err(bad) => println!(rt; "1 {bad}"),
    }
}
