// A key sheet of channels and its table, worked on by lines of text: a caller's own two, or both in one.
ghost use Rattle.std.specs.Prelude.{◌≡◌, Some, length};
ghost use Rattle.channeltext.specs.Channels.{KeepsSlice, channel_sheet, channel_capacity};
ghost use Rattle.channeltext.specs.Requests.{good_lines};
ghost use Rattle.channeltext.specs.Shown.{same_channel, line_answer, answer_to, after_request, answer_of, sheet_after, summary_of, sheet_text};
ghost use Rattle.keylines.specs.Laws.{LawsGoOn};
ghost use Rattle.keylines.specs.Limits.{capacity_of};
ghost use Rattle.keylines.specs.Sheets.{applied, empty_sheet};
ghost use Rattle.keys.specs.Views.{SameSlice, table_capacity, sheet_now};

use crate::read::{Request, read_request};
use crate::show::ChannelAnswer;
use keylines::{Channel, ChannelLine, Pair};
use keys::{KeySheet, KeyTable};
use std::fmt;
use text::{BadField, Summary};

// Applies a channel line, and says whether it was fit.
fn answer_line(
    sheet: &mut KeySheet,
    table: &mut KeyTable<Channel>,
    line: ChannelLine<Channel>,
) -> ChannelAnswer
    ensures value { result ≡ line_answer (table_capacity table.old) (sheet_now table.old sheet.old) line }
    ensures after { sheet_now table.new sheet.new ≡ applied same_channel (table_capacity table.old) (sheet_now table.old sheet.old) line }
    ensures slice { SameSlice table.old table.new }
{
    let fit = table.fits(line);
    sheet.apply(table, line);
    let used = table.len();
    if fit {
        ChannelAnswer::Fit(used)
    } else {
        ChannelAnswer::Unfit(used)
    }
}

// Does what a request asks for, and says what was done.
fn answer_request(
    sheet: &mut KeySheet,
    table: &mut KeyTable<Channel>,
    request: Request,
) -> ChannelAnswer
    ensures value { result ≡ answer_to (table_capacity table.old) (sheet_now table.old sheet.old) request }
    ensures after { sheet_now table.new sheet.new ≡ after_request (table_capacity table.old) (sheet_now table.old sheet.old) request }
    ensures slice { SameSlice table.old table.new }
{
    match request {
        Request::Line(line) => answer_line(sheet, table, line),
        Request::Find(key) => ChannelAnswer::Words(table.find(key)),
        Request::Largest => ChannelAnswer::Largest(table.largest()),
    }
}

// Does what a line of text asks for, on a caller's own sheet and table, and says what was done. Only a channel line changes them.
pub fn apply_text(
    sheet: &mut KeySheet,
    table: &mut KeyTable<Channel>,
    line: &[u8],
) -> Result<ChannelAnswer, BadField>
    ensures value { result ≡ answer_of (table_capacity table.old) (sheet_now table.old sheet.old) line.now }
    ensures after { sheet_now table.new sheet.new ≡ sheet_after (table_capacity table.old) (sheet_now table.old sheet.old) line.now }
    ensures slice { SameSlice table.old table.new }
    ensures law { LawsGoOn same_channel (table_capacity table.old) (sheet_now table.old sheet.old) (good_lines line.now) (sheet_now table.new sheet.new) }
{
    let request = read_request(line)?;
    Ok(answer_request(sheet, table, request))
}

// What is shown of a whole sheet and its table. It is printed as `sheet USED fit COUNT unfit COUNT`.
pub fn summary(sheet: &KeySheet, table: &KeyTable<Channel>) -> Summary<usize>
    ensures value { result ≡ summary_of (sheet_now table.now sheet.now) }
    ensures text { ⟦<Summary<usize> as fmt::Display>⟧.output result ≡ Some (sheet_text (sheet_now table.now sheet.now)) }
{
    Summary {
        shown: table.len(),
        fit: sheet.fit(),
        unfit: sheet.unfit(),
    }
}

// A key sheet of channels with the key table that it works on, in a lent slice.
#[derive(Drop)]
pub struct ChannelSheet<'a> {
    table: KeyTable<'a, Channel>,
    sheet: KeySheet,
}

impl<'a> ChannelSheet<'a> {
    // The sheet of no pairs and no lines, with its table in this slice.
    pub fn new(pairs: &'a mut [Pair<Channel>]) -> ChannelSheet<'a>
        ensures value { channel_sheet result ≡ empty_sheet }
        ensures capacity { channel_capacity result ≡ capacity_of (length pairs.old) }
        ensures same { result.table.pairs.now ≡ pairs.old }
        ensures named { result.table.pairs.ghost_name ≡ pairs.entry.ghost_name }
    {
        ChannelSheet {
            table: KeyTable::new(pairs),
            sheet: KeySheet::new(),
        }
    }

    // Does what a line of text asks for, and says what was done. Only a channel line changes the sheet.
    pub fn apply_text(&mut self, line: &[u8]) -> Result<ChannelAnswer, BadField>
        ensures value { result ≡ answer_of (channel_capacity self.old) (channel_sheet self.old) line.now }
        ensures after { channel_sheet self.new ≡ sheet_after (channel_capacity self.old) (channel_sheet self.old) line.now }
        ensures slice { KeepsSlice self.old self.new }
        ensures law { LawsGoOn same_channel (channel_capacity self.old) (channel_sheet self.old) (good_lines line.now) (channel_sheet self.new) }
    {
        apply_text(&mut self.sheet, &mut self.table, line)
    }
}

impl<'a> From<&ChannelSheet<'a>> for Summary<usize> {
    ghost from_gives = { λ sheet summary. summary ≡ summary_of (channel_sheet sheet.now) };

    fn from(sheet: &ChannelSheet<'a>) -> Summary<usize>
        ensures value { result ≡ summary_of (channel_sheet sheet.now) }
        ensures text { ⟦<Summary<usize> as fmt::Display>⟧.output result ≡ Some (sheet_text (channel_sheet sheet.now)) }
    {
        summary(&sheet.sheet, &sheet.table)
    }
}
