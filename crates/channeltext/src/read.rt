// Reading a request to a key sheet, and the size of its table, from text.
ghost use Rattle.std.specs.Prelude.{◌≡◌};
ghost use Rattle.channeltext.specs.Requests.{put_in, erase_in, find_in, request_in, request_of, size_of, places_in, places_of};
ghost use Rattle.text.specs.Reading.{Takes};

use keylines::{Channel, ChannelLine};
use text::{BadField, Fields, number32_of, parse_line};

// The most places of a table.
const PLACES_MOST: u32 = 1024;

// What a line of text asks for: to apply a channel line, to find a channel's words, or the largest channel.
#[derive(Clone, Copy)]
pub enum Request {
    Line(ChannelLine<Channel>),
    Find(Channel),
    Largest,
}

fn take_put(fields: &mut Fields) -> Result<Request, BadField>
    ensures { Takes put_in fields.old result fields.new }
{
    let number = fields.number32()?;
    let words = [fields.number()?, fields.number()?];
    Ok(Request::Line(ChannelLine::Put(Channel { number }, words)))
}

fn take_erase(fields: &mut Fields) -> Result<Request, BadField>
    ensures { Takes erase_in fields.old result fields.new }
{
    let number = fields.number32()?;
    Ok(Request::Line(ChannelLine::Erase(Channel { number })))
}

// The key of a field `?KEY`, which stands at this place.
fn find_in(word: &[u8], place: usize) -> Result<Request, BadField>
    ensures { result ≡ find_in place word.now }
{
    match word {
        [b'?', digits @ ..] => number32_of(digits)
            .map(|number| Request::Find(Channel { number }))
            .ok_or(BadField { place }),
        _ => Err(BadField { place }),
    }
}

// Takes the fields of one request, `p KEY WORD WORD`, `e KEY`, `?KEY` or `!`.
fn take_request(fields: &mut Fields) -> Result<Request, BadField>
    ensures { Takes request_in fields.old result fields.new }
{
    let place = fields.place();
    match fields.field()? {
        [b'p'] => take_put(fields),
        [b'e'] => take_erase(fields),
        [b'!'] => Ok(Request::Largest),
        word => find_in(word, place),
    }
}

// The request that a line of text writes, and no field after it.
pub fn read_request(line: &[u8]) -> Result<Request, BadField>
    ensures { result ≡ request_of line.now }
{
    parse_line(line, take_request)
}

// The number of places that a field writes, where a table can use so many.
fn size_of(field: &[u8]) -> Option<usize>
    ensures { result ≡ size_of field.now }
{
    match number32_of(field)? {
        places @ ..=PLACES_MOST => Some(places as usize),
        _ => None,
    }
}

// Takes the fields of a table's size, `t PLACES`.
fn take_places(fields: &mut Fields) -> Result<usize, BadField>
    ensures { Takes places_in fields.old result fields.new }
{
    let place = fields.place();
    match fields.letter()? {
        't' => fields.read(size_of),
        _ => Err(BadField { place }),
    }
}

// The size of a table that a line of text writes, 0 to 1,024 places, and no field after it.
pub fn read_places(line: &[u8]) -> Result<usize, BadField>
    ensures { result ≡ places_of line.now }
{
    parse_line(line, take_places)
}
