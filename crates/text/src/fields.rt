// The fields of one line of text, and which field is bad.
ghost use Rattle.std.specs.Prelude.{◌≡◌, ℕ, ◌+◌, ◌^◌, ◌<◌, ◌≤◌, List, length, Some, Option, IfOk};
ghost use Rattle.std.specs.Fn.{FnOnceReturnsAt};
ghost use Rattle.text.specs.Reading.{FromLine, Parted, Taken, Unread, Computes, Reads, length_check, contents, unread_at, first_field, read_by, past_field, letter_in, number32_in, end_of, whole_line};
ghost use Rattle.text.specs.Texts.{number_of};
ghost use Rattle.text.specs.Shown.{bad_text};

use crate::bytes::{letter_of, number_of, number32_of, run_length};
use std::fmt;
use std::marker::Model;

// The most bytes of a line.
const LINE_MOST: usize = 80;

// The place, counted from 1, of the first byte of the first field that is wrong, empty, missing or
// too many. A missing field counts as one space after the last.
#[derive(Clone, Copy, PartialEq, Eq, Debug)]
pub struct BadField {
    pub place: usize,
}

impl fmt::Display for BadField {
    ghost output = { λ e. Some (bad_text e) };

    fn fmt<W: fmt::Write>(&self, f: &mut fmt::Formatter<W>) -> fmt::Result {
        write!(f, "bad {}", self.place)
    }
}

// The fields of a line that are still unread. They stand one space apart.
#[derive(Drop)]
pub struct Fields<'a> {
    line: &'a [u8],
    // the index at which the next field begins, by which its place is told; past the end where none is left
    next: usize,
}

impl<'a> Model for Fields<'a> {
    ghost Value = { Unread };

    ghost view = { λ f. unread_at f.line.now f.next };

    ghost invariant = { λ f. f.next ≤ length f.line.now + 1 };
}

// Refuses a line of more than 80 bytes, at the place 81.
pub fn check_length(line: &[u8]) -> Result<(), BadField>
    ensures { result ≡ length_check line.now }
{
    if line.len() > LINE_MOST {
        return Err(BadField {
            place: LINE_MOST + 1,
        });
    }
    Ok(())
}

// What `take` reads of a line. A line of more than 80 bytes is bad at the place 81, and one with a
// field that `take` leaves is bad there.
pub fn parse_line<T: Drop, F: FnOnce(&mut Fields) -> Result<T, BadField>>(
    line: &[u8],
    take: F,
) -> Result<T, BadField>
    requires { F.IsAlwaysCallable take }
    ensures { (rule : Unread → Taken T) → Reads F.FnOnce take rule → result ≡ whole_line rule line.now }
{
    check_length(line)?;
    let mut fields = Fields::new(line);
    let read = take(&mut fields)?;
    fields.end()?;
    Ok(read)
}

impl<'a> Fields<'a> {
    // The fields of a line, all unread.
    pub fn new(line: &'a [u8]) -> Fields<'a>
        ensures value { result ≡ unread_at line.now 0 }
        ensures parts { Parted line.now result.fields }
    {
        Fields { line, next: 0 }
    }

    // The place of the next field; where none is left, where it would stand.
    pub fn place(&self) -> usize
        ensures value { result ≡ self.now.place }
        ensures left { FromLine self.now }
    {
        self.next + 1
    }

    // The next field as it stands; where none is left, its place.
    pub fn field(&mut self) -> Result<&'a [u8], BadField>
        ensures value { contents result ≡ first_field self.old }
        ensures after { self.new ≡ past_field self.old }
        ensures left { FromLine self.old × FromLine self.new }
    {
        let place = self.place();
        let rest = self.line.get(self.next..).ok_or(BadField { place })?;
        let length = run_length(rest, b' ');
        self.next += length + 1;
        Ok(&rest[..length])
    }

    // The next field as `parse` reads it; one that it reads nothing from is bad, at its place.
    pub fn read<T, F: FnOnce(&[u8]) -> Option<T>>(&mut self, parse: F) -> Result<T, BadField>
        requires { F.IsAlwaysCallable parse }
        ensures value { (rule : List ℕ → Option T) → Computes F.FnOnce parse rule → result ≡ read_by rule self.old }
        ensures given { IfOk result (λ v. (field : List ℕ) × FnOnceReturnsAt F.FnOnce parse field (Some v)) }
        ensures after { self.new ≡ past_field self.old }
        ensures left { FromLine self.old × FromLine self.new }
    {
        let place = self.place();
        parse(self.field()?).ok_or(BadField { place })
    }

    // The next field as one letter, a byte read as a character.
    pub fn letter(&mut self) -> Result<char, BadField>
        ensures value { result ≡ read_by letter_in self.old }
        ensures after { self.new ≡ past_field self.old }
        ensures left { FromLine self.old × FromLine self.new }
    {
        self.read(letter_of)
    }

    // The next field as a number of 1 to 10 decimal digits.
    pub fn number(&mut self) -> Result<u64, BadField>
        ensures value { result ≡ read_by number_of self.old }
        ensures bound { IfOk result (λ n. n < 10 ^ 10) }
        ensures after { self.new ≡ past_field self.old }
        ensures left { FromLine self.old × FromLine self.new }
    {
        self.read(number_of)
    }

    // The next field as a number that fits 32 bits.
    pub fn number32(&mut self) -> Result<u32, BadField>
        ensures value { result ≡ read_by number32_in self.old }
        ensures after { self.new ≡ past_field self.old }
        ensures left { FromLine self.old × FromLine self.new }
    {
        self.read(number32_of)
    }

    // Refuses one field more than there should be.
    pub fn end(&self) -> Result<(), BadField>
        ensures value { result ≡ end_of self.now }
        ensures left { FromLine self.now }
    {
        if self.next <= self.line.len() {
            return Err(BadField {
                place: self.place(),
            });
        }
        Ok(())
    }
}
