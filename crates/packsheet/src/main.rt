// Works out a pack sheet from lines of text on standard input, and prints what each line did.
#![tactic(auto)]

use input::read_input;
use pack::PackSheet;
use packtext::{apply_text, summary};
use std::io;
use text::{Lines, Numbered};

fn main(rt: HostRuntime) -> io::Result<()> {
    let bytes = read_input(rt.alloc(), rt.stdin())?;
    let mut sheet = PackSheet::new();
    for (number, line) in (1u32..).zip(Lines::new(bytes.as_slice())) {
        let answer = apply_text(&mut sheet, line);
        rt.println(Numbered { number, answer })?;
    }
    rt.println(summary(&sheet))
}
