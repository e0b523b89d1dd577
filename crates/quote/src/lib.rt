// The quote, from a unit sheet to the smallest stage, and the audit of a stage; each for either board.
#![tactic(auto)]

ghost use Rattle.std.specs.Prelude.{◌≡◌, length};
ghost use Rattle.sheet.specs.Limits.{max_inputs, max_shared_inputs};
ghost use Rattle.nodes.specs.declared.BoardKind.TheVariants.{Tree, Sharing};
ghost use Rattle.nodes.specs.Counts.{most_inputs};
ghost use Rattle.stage.specs.Trees.{tree_drawing};
ghost use Rattle.diagram.specs.Diagrams.{diagram_drawing};
ghost use Rattle.diagram.specs.Forms.{drawing_of};
ghost use Rattle.quote.specs.Cases.{quote_reply, audited_case};
ghost use Rattle.quote.specs.Quote.{quoted_of, buffer_quoted};
ghost use Rattle.quote.specs.Promised.{Promised};
ghost use Rattle.quote.specs.Audit.{audited_of};

use base::Refusal;
use nodes::BoardKind;
use search::Mark;

pub mod quotes; // the quote of a relation
mod audits; // the audit

// What a quote found: the cells, the floor (lower bound), the visits and the mark of the search, and the length of the stage written.
#[derive(Clone, Copy)]
pub struct Quoted {
    pub cells: u64,
    pub floor: u64,
    pub visits: u64,
    pub length: usize,
    pub mark: Mark,
}

// The audit of a stage: it keeps to the sheet or not, with its cells.
#[derive(Clone, Copy)]
pub enum Audited {
    Fits(u32),
    Differs(u32),
}

// What an audit refuses: the unit sheet or the stage sheet.
#[derive(Clone, Copy)]
pub enum AuditRefusal {
    Sheet(Refusal),
    Stage(Refusal),
}

// The quote on either board.
pub fn quote_on(
    kind: BoardKind,
    sheet: &[u8],
    budget: u32,
    buffer: &mut [u8],
) -> Result<Quoted, Refusal>
    ensures reply { quote_reply result ≡ quoted_of kind sheet.now budget (length buffer.old) }
    ensures bytes { buffer.new ≡ buffer_quoted kind sheet.now budget buffer.old }
    ensures promise { Promised (drawing_of kind) (most_inputs kind) sheet.now budget (quote_reply result) buffer.new }
{
    let relation = unit::form(sheet)?;
    quotes::quote_relation(kind, relation, budget, buffer)
}

// The four calls below stay beside `quote_on` and `audit_on`, which are each of them: README names them, and callers know a board by the call.
// The smallest stage for a unit sheet, written at the start of the lent buffer, or the best found under the budget; or the refusal, which writes nothing.
pub fn quote(sheet: &[u8], budget: u32, buffer: &mut [u8]) -> Result<Quoted, Refusal>
    ensures reply { quote_reply result ≡ quoted_of Tree sheet.now budget (length buffer.old) }
    ensures bytes { buffer.new ≡ buffer_quoted Tree sheet.now budget buffer.old }
    ensures promise { Promised tree_drawing max_inputs sheet.now budget (quote_reply result) buffer.new }
{
    quote_on(BoardKind::Tree, sheet, budget, buffer)
}

// The same on the board that shares selectors (document 02, E2): a rival is any well-formed diagrams that keep to the sheet, one for each wire. It has
// four lines: a sheet with more inputs is refused, 15 (E5).
pub fn quote_shared(sheet: &[u8], budget: u32, buffer: &mut [u8]) -> Result<Quoted, Refusal>
    ensures reply { quote_reply result ≡ quoted_of Sharing sheet.now budget (length buffer.old) }
    ensures bytes { buffer.new ≡ buffer_quoted Sharing sheet.now budget buffer.old }
    ensures promise { Promised diagram_drawing max_shared_inputs sheet.now budget (quote_reply result) buffer.new }
{
    quote_on(BoardKind::Sharing, sheet, budget, buffer)
}

// The audit on either board.
pub fn audit_on(kind: BoardKind, sheet: &[u8], stage: &[u8]) -> Result<Audited, AuditRefusal>
    ensures { audited_case result ≡ audited_of kind sheet.now stage.now }
{
    let relation = unit::form(sheet).map_err(AuditRefusal::Sheet)?;
    audits::audit_stage(kind, relation, stage)
}

// Whether a stage keeps to a unit sheet, and its cells. Where both sheets are at fault, the unit sheet's refusal is told.
pub fn audit(sheet: &[u8], stage: &[u8]) -> Result<Audited, AuditRefusal>
    ensures { audited_case result ≡ audited_of Tree sheet.now stage.now }
{
    audit_on(BoardKind::Tree, sheet, stage)
}

// The same of a stage for the board that shares selectors.
pub fn audit_shared(sheet: &[u8], stage: &[u8]) -> Result<Audited, AuditRefusal>
    ensures { audited_case result ≡ audited_of Sharing sheet.now stage.now }
{
    audit_on(BoardKind::Sharing, sheet, stage)
}
