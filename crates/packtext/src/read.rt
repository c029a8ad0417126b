// Reading a pack line from text.
ghost use Rattle.std.specs.Prelude.{◌≡◌};
ghost use Rattle.packtext.specs.Written.{pack_line_in, pack_line_of, begin_in, drain_in, idle_in};
ghost use Rattle.text.specs.Reading.{FromLine, Takes};

use pack::PackLine;
use text::{BadField, Fields, parse_line};

fn take_begin(fields: &mut Fields) -> Result<PackLine, BadField>
    ensures takes { Takes begin_in fields.old result fields.new }
    ensures left { FromLine fields.new }
{
    let charge = fields.number()?;
    Ok(PackLine::Begin(charge as f64))
}

fn take_drain(fields: &mut Fields) -> Result<PackLine, BadField>
    ensures takes { Takes drain_in fields.old result fields.new }
    ensures left { FromLine fields.new }
{
    let current = fields.number()?;
    let seconds = fields.number32()?;
    Ok(PackLine::Drain(current as f64, seconds))
}

fn take_idle(fields: &mut Fields) -> Result<PackLine, BadField>
    ensures takes { Takes idle_in fields.old result fields.new }
    ensures left { FromLine fields.new }
{
    let seconds = fields.number32()?;
    Ok(PackLine::Idle(seconds))
}

// Takes the fields of one pack line, `b CHARGE`, `d CURRENT SECONDS` or `i SECONDS`; fields may follow.
pub fn take_pack_line(fields: &mut Fields) -> Result<PackLine, BadField>
    ensures takes { Takes pack_line_in fields.old result fields.new }
    ensures left { FromLine fields.old × FromLine fields.new }
{
    let place = fields.place();
    match fields.letter()? {
        'b' => take_begin(fields),
        'd' => take_drain(fields),
        'i' => take_idle(fields),
        _ => Err(BadField { place }),
    }
}

// The pack line that a line of text writes, and no field after it.
pub fn pack_line(line: &[u8]) -> Result<PackLine, BadField>
    ensures { result ≡ pack_line_of line.now }
{
    parse_line(line, take_pack_line)
}
