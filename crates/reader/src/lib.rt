// Reading unit sheets: from any bytes to the sheet that they hold, or one refusal with its place.
#![tactic(auto)]

ghost use Rattle.std.specs.Prelude.{◌≡◌, ◌≤◌};
ghost use Rattle.sheet.specs.Limits.{max_inputs};
ghost use Rattle.sheet.specs.Cases.{sheet_reply};
ghost use Rattle.reader.specs.Reading.{reading_of, reply_told, is_end};
ghost use Rattle.reader.specs.Inner.Turns.{Follows, Turns};

use base::Refusal;
use sheet::{Command, Sheet};

mod commands; // one command at a place, and the reader behind it

// A place among the bytes, with the sizes once command 01 was read.
#[derive(Clone, Copy)]
pub struct Reader {
    pub at: usize,
    pub started: bool,
    pub n: u8,
    pub m: u8,
}

// The sheet with one command more, and the reader behind the command; none behind the end, where the sheet is whole.
#[derive(Clone, Copy)]
struct Turn {
    sheet: Sheet,
    next: Option<Reader>,
}

fn is_end(c: Command) -> bool
    ensures { result ≡ is_end c }
{
    matches!(c, Command::End)
}

// A command was gathered: on with the next one, unless it was the end.
fn lead_on(sheet: Sheet, c: Command, next: Reader, len: usize) -> Result<Turn, Refusal>
    ensures { Follows sheet c next len result }
{
    if is_end(c) {
        let whole = sheet.finish(next.at, len)?;
        return Ok(Turn {
            sheet: whole,
            next: None,
        });
    }
    Ok(Turn {
        sheet,
        next: Some(next),
    })
}

// One command, read and judged.
fn take_turn(sheet: Sheet, reader: Reader, s: &[u8]) -> Result<Turn, Refusal>
    requires { reader.n ≤ max_inputs }
    ensures { Turns s.now sheet reader result }
{
    let (c, next) = reader.next(s)?;
    let more = sheet.add(c, reader.at)?;
    lead_on(more, c, next, s.len())
}

// Reads a whole sheet. Each command has a byte of its own, so there are at most as many turns as bytes.
pub fn read_sheet(s: &[u8]) -> Result<Sheet, Refusal>
    ensures { sheet_reply result ≡ reply_told (reading_of s.now) }
{
    let mut sheet = Sheet::fresh(0, 0);
    let mut reader = Reader::new();
    for _ in 0..s.len() {
        let turn = take_turn(sheet, reader, s)?;
        sheet = turn.sheet;
        match turn.next {
            Some(next) => {
                reader = next;
            }
            None => return Ok(sheet),
        }
    }
    Err(Refusal::at(Refusal::CUT_SHORT, reader.at))
}
