// The quote of a relation: it is searched, and the stage written at the start of the lent buffer.
ghost use Rattle.std.specs.Prelude.{◌≡◌, length};
ghost use Rattle.diagram.specs.Forms.{form_of};
ghost use Rattle.stage.specs.Written.{written_of, buffer_after};
ghost use Rattle.search.specs.Cases.{answer_told};
ghost use Rattle.quote.specs.Cases.{quote_reply};
ghost use Rattle.quote.specs.Quote.{with_stage, searched, buffer_searched};

use crate::Quoted;
use base::Refusal;
use nodes::{BoardKind, most_inputs};
use relation::Relation;
use search::{Answer, search_on};
use stage_writer::write_on;

// The stage of an answer's tables, written.
fn quote_answer(
    kind: BoardKind,
    n: u8,
    m: u8,
    answer: Answer,
    buffer: &mut [u8],
) -> Result<Quoted, Refusal>
    ensures { (quote_reply result ≡ with_stage (answer_told answer) (written_of (form_of kind) n m answer.tables (length buffer.old)))
        × (buffer.new ≡ buffer_after (form_of kind) n m answer.tables buffer.old) }
{
    let length = write_on(kind, n, m, answer.tables, buffer)?;
    Ok(Quoted {
        cells: answer.cells,
        floor: answer.floor,
        visits: answer.visits,
        length,
        mark: answer.mark,
    })
}

// The relation searched, and the stage found written. A relation of more inputs than the board has lines is not searched.
// Every quote comes to this, whatever its relation was formed of; what the reply promises is said where that is known.
pub fn quote_relation(
    kind: BoardKind,
    relation: Relation,
    budget: u32,
    buffer: &mut [u8],
) -> Result<Quoted, Refusal>
    ensures { (quote_reply result ≡ searched kind relation budget (length buffer.old))
        × (buffer.new ≡ buffer_searched kind relation budget buffer.old) }
{
    let n = relation.n;
    let m = relation.m;
    if most_inputs(kind) < n {
        return Err(Refusal::at(Refusal::TOO_WIDE, 0));
    }
    let answer = search_on(kind, relation, budget)?;
    quote_answer(kind, n, m, answer, buffer)
}
