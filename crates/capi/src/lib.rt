// The calls for C and Rust: the search, the quote and the audit, on either board, the joint quote, and clean copies, over numbers and slices. The crate `capi_c` exports them.
#![tactic(auto)]

ghost use Rattle.std.specs.Prelude.{◌≡◌, length};
ghost use Rattle.sheet.specs.Limits.{max_inputs, max_shared_inputs};
ghost use Rattle.nodes.specs.declared.BoardKind.TheVariants.{Tree, Sharing};
ghost use Rattle.stage.specs.Trees.{tree_drawing};
ghost use Rattle.diagram.specs.Diagrams.{diagram_drawing};
ghost use Rattle.quote.specs.Quote.{quoted_of, buffer_quoted};
ghost use Rattle.quote.specs.Promised.{Promised};
ghost use Rattle.quote.specs.Audit.{audited_of};
ghost use Rattle.joined.specs.Joint.{joint_quoted, joint_buffer};
ghost use Rattle.joined.specs.Promised.{JointPromised};
ghost use Rattle.clean.specs.Cleaned.{cleaned_of, buffer_cleaned};
ghost use Rattle.clean.specs.CleanCopy.{CleanPromise};
ghost use Rattle.capi.specs.Numbers.{quote_numbers, search_handed, search_numbers, tables_after, audit_numbers, copy_numbers};

use clean::clean;
use joined::quote_joined;
use nodes::BoardKind;
use sheet::Sheet;
use told::{joint_told, written_told};

mod boards; // what both boards have, as numbers
mod told; // a reply as numbers

// The numbers of a reply: outcome, cells, floor, visits, length of what was written, place of the refusal; 0 where a call has no such number.
pub const REPLY_NUMBERS: usize = 6;

// The search of a relation: `sets` has the sets of values of its patterns. The refusal's number, or 0; a refusal leaves `tables` as they were.
pub fn dagmetzi_search(
    n: u8,
    m: u8,
    sets: &[u16; Sheet::MAX_PATTERNS],
    budget: u32,
    tables: &mut [u64; Sheet::WIRES],
    reply: &mut [u64; REPLY_NUMBERS],
) -> u32
    ensures refusal { result ≡ (search_handed Tree n m sets.now budget).mark.number }
    ensures numbers { reply.new ≡ search_numbers (search_handed Tree n m sets.now budget) }
    ensures tables { tables.new ≡ tables_after (search_handed Tree n m sets.now budget) tables.old }
{
    boards::search_numbers(BoardKind::Tree, n, m, sets, budget, tables, reply)
}

// The same on the board that shares selectors (document 02, E2), which has at most four inputs: more are 3 (E5).
pub fn dagmetzi_search_shared(
    n: u8,
    m: u8,
    sets: &[u16; Sheet::MAX_PATTERNS],
    budget: u32,
    tables: &mut [u64; Sheet::WIRES],
    reply: &mut [u64; REPLY_NUMBERS],
) -> u32
    ensures refusal { result ≡ (search_handed Sharing n m sets.now budget).mark.number }
    ensures numbers { reply.new ≡ search_numbers (search_handed Sharing n m sets.now budget) }
    ensures tables { tables.new ≡ tables_after (search_handed Sharing n m sets.now budget) tables.old }
{
    boards::search_numbers(BoardKind::Sharing, n, m, sets, budget, tables, reply)
}

// The quote of a unit sheet, its stage written at the start of `buffer`. The refusal's number, or 0; a refusal leaves `buffer` as it was.
pub fn dagmetzi_quote(
    sheet: &[u8],
    budget: u32,
    buffer: &mut [u8],
    reply: &mut [u64; REPLY_NUMBERS],
) -> u32
    ensures refusal { result ≡ (quoted_of Tree sheet.now budget (length buffer.old)).mark.number }
    ensures numbers { reply.new ≡ quote_numbers (quoted_of Tree sheet.now budget (length buffer.old)) }
    ensures bytes { buffer.new ≡ buffer_quoted Tree sheet.now budget buffer.old }
    ensures promise { Promised tree_drawing max_inputs sheet.now budget (quoted_of Tree sheet.now budget (length buffer.old))
        buffer.new }
{
    boards::quote_numbers(BoardKind::Tree, sheet, budget, buffer, reply)
}

// The same on the board that shares selectors, which has at most four inputs: a sheet with more is 15 (document 02, E5).
pub fn dagmetzi_quote_shared(
    sheet: &[u8],
    budget: u32,
    buffer: &mut [u8],
    reply: &mut [u64; REPLY_NUMBERS],
) -> u32
    ensures refusal { result ≡ (quoted_of Sharing sheet.now budget (length buffer.old)).mark.number }
    ensures numbers { reply.new ≡ quote_numbers (quoted_of Sharing sheet.now budget (length buffer.old)) }
    ensures bytes { buffer.new ≡ buffer_quoted Sharing sheet.now budget buffer.old }
    ensures promise { Promised diagram_drawing max_shared_inputs sheet.now budget (quoted_of Sharing sheet.now budget (length buffer.old))
        buffer.new }
{
    boards::quote_numbers(BoardKind::Sharing, sheet, budget, buffer, reply)
}

// The quote of one stage for two unit sheets (document 02, E6), written at the start of `buffer`. The refusal's number, or 0; a refusal leaves `buffer` as it was.
pub fn dagmetzi_quote_joined(
    first: &[u8],
    second: &[u8],
    budget: u32,
    buffer: &mut [u8],
    reply: &mut [u64; REPLY_NUMBERS],
) -> u32
    ensures refusal { result ≡ (joint_quoted first.now second.now budget (length buffer.old)).mark.number }
    ensures numbers { reply.new ≡ quote_numbers (joint_quoted first.now second.now budget (length buffer.old)) }
    ensures bytes { buffer.new ≡ joint_buffer first.now second.now budget buffer.old }
    ensures promise { JointPromised first.now second.now budget
        (joint_quoted first.now second.now budget (length buffer.old)) buffer.new }
{
    let quoted = quote_joined(first, second, budget, buffer);
    joint_told(quoted, reply)
}

// The audit of a stage sheet against a unit sheet. The refusal's number, or 0.
pub fn dagmetzi_audit(sheet: &[u8], stage: &[u8], reply: &mut [u64; REPLY_NUMBERS]) -> u32
    ensures refusal { result ≡ (audited_of Tree sheet.now stage.now).number }
    ensures numbers { reply.new ≡ audit_numbers (audited_of Tree sheet.now stage.now) }
{
    boards::audit_numbers(BoardKind::Tree, sheet, stage, reply)
}

// The same of a stage for the board that shares selectors.
pub fn dagmetzi_audit_shared(sheet: &[u8], stage: &[u8], reply: &mut [u64; REPLY_NUMBERS]) -> u32
    ensures refusal { result ≡ (audited_of Sharing sheet.now stage.now).number }
    ensures numbers { reply.new ≡ audit_numbers (audited_of Sharing sheet.now stage.now) }
{
    boards::audit_numbers(BoardKind::Sharing, sheet, stage, reply)
}

// The clean copy of a unit sheet, written at the start of `buffer`. The refusal's number, or 0; a refusal leaves `buffer` as it was.
pub fn dagmetzi_clean(sheet: &[u8], buffer: &mut [u8], reply: &mut [u64; REPLY_NUMBERS]) -> u32
    ensures refusal { result ≡ (cleaned_of sheet.now (length buffer.old)).number }
    ensures numbers { reply.new ≡ copy_numbers (cleaned_of sheet.now (length buffer.old)) }
    ensures bytes { buffer.new ≡ buffer_cleaned sheet.now buffer.old }
    ensures copy { CleanPromise sheet.now (cleaned_of sheet.now (length buffer.old)) buffer.new }
{
    let written = clean(sheet, buffer);
    written_told(written, reply)
}
