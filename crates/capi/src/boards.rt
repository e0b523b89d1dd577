// The calls that both boards have, as numbers: `dagmetzi_search` and `dagmetzi_search_shared` are one function here, and so on.
ghost use Rattle.std.specs.Prelude.{◌≡◌, length};
ghost use Rattle.nodes.specs.Counts.{most_inputs};
ghost use Rattle.diagram.specs.Forms.{drawing_of};
ghost use Rattle.quote.specs.Quote.{quoted_of, buffer_quoted};
ghost use Rattle.quote.specs.Promised.{Promised};
ghost use Rattle.quote.specs.Audit.{audited_of};
ghost use Rattle.capi.specs.Numbers.{quote_numbers, search_handed, search_numbers, tables_after, audit_numbers};

use crate::REPLY_NUMBERS;
use crate::told::{REFUSED, audit_told, outcome_of, quote_told, tell_refusal};
use nodes::BoardKind;
use quote::{audit_on, quote_on};
use relation::Relation;
use search::search_on;
use sheet::Sheet;

// The search of a relation. A refusal leaves `tables` as they were.
pub fn search_numbers(
    kind: BoardKind,
    n: u8,
    m: u8,
    sets: &[u16; Sheet::MAX_PATTERNS],
    budget: u32,
    tables: &mut [u64; Sheet::WIRES],
    reply: &mut [u64; REPLY_NUMBERS],
) -> u32
    ensures refusal { result ≡ (search_handed kind n m sets.now budget).mark.number }
    ensures numbers { reply.new ≡ search_numbers (search_handed kind n m sets.now budget) }
    ensures tables { tables.new ≡ tables_after (search_handed kind n m sets.now budget) tables.old }
{
    let copy = *sets;
    match search_on(kind, Relation { n, m, sets: copy }, budget) {
        Ok(answer) => {
            let found = answer.tables;
            *tables = found;
            *reply = [
                outcome_of(answer.mark),
                answer.cells,
                answer.floor,
                answer.visits,
                0,
                0,
            ];
            0
        }
        Err(refusal) => tell_refusal(REFUSED, refusal, reply),
    }
}

// The quote of a unit sheet. A refusal leaves `buffer` as it was.
pub fn quote_numbers(
    kind: BoardKind,
    sheet: &[u8],
    budget: u32,
    buffer: &mut [u8],
    reply: &mut [u64; REPLY_NUMBERS],
) -> u32
    ensures refusal { result ≡ (quoted_of kind sheet.now budget (length buffer.old)).mark.number }
    ensures numbers { reply.new ≡ quote_numbers (quoted_of kind sheet.now budget (length buffer.old)) }
    ensures bytes { buffer.new ≡ buffer_quoted kind sheet.now budget buffer.old }
    ensures promise { Promised (drawing_of kind) (most_inputs kind) sheet.now budget (quoted_of kind sheet.now budget (length buffer.old))
        buffer.new }
{
    let quoted = quote_on(kind, sheet, budget, buffer);
    quote_told(quoted, reply)
}

// The audit of a stage sheet against a unit sheet.
pub fn audit_numbers(
    kind: BoardKind,
    sheet: &[u8],
    stage: &[u8],
    reply: &mut [u64; REPLY_NUMBERS],
) -> u32
    ensures refusal { result ≡ (audited_of kind sheet.now stage.now).number }
    ensures numbers { reply.new ≡ audit_numbers (audited_of kind sheet.now stage.now) }
{
    let audited = audit_on(kind, sheet, stage);
    audit_told(audited, reply)
}
