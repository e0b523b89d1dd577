// The words of the program: what each takes, reads and prints.
// A word hands nothing back and changes nothing that is lent to it, so that it has no equation of its own: those of what it prints
// stand in the crate `printed`.
use crate::files::{read_named, read_open};
use crate::messages;
use diagram::LONGEST_DIAGRAMS;
use nodes::BoardKind;
use printed::{LONGEST_SHEET, audit_reply, clean_reply, joined_reply, quote_reply};
use report::{LONGEST_COPY_LINE, LONGEST_REPORT};
use std::io::Print;

// One byte more than the longest sheet is enough to tell one that is too long (printed/proofs/Printing, `quote_front`, `audit_front`, `clean_front`,
// `joined_front`).
const SHEET_ROOM: usize = LONGEST_SHEET + 1;

// Of a stage's file the front is read. Reading a stage looks at no byte past the one after the longest stage, which is one of diagrams, so that the bytes left
// out change nothing of the reply (printed/proofs/Printing, `stage_front`).
const STAGE_ROOM: usize = LONGEST_DIAGRAMS + 1;

// The words. The first name of each is a sheet's.
#[derive(Clone, Copy)]
pub enum Word {
    // the quote on the board that shares selectors (document 02, E2)
    Shared,
    // whether a stage keeps to the sheet, and its cells
    Audit,
    // the same of a stage for the board that shares selectors
    AuditShared,
    // the sheet's clean copy (document 02, E1)
    Clean,
    // the quote of one stage for two units (document 02, E6)
    Joined,
}

impl Word {
    // The word that an argument is, if it is one.
    pub fn named(name: &[u8]) -> Option<Word> {
        match name {
            b"shared" => Some(Word::Shared),
            b"audit" => Some(Word::Audit),
            b"audit-shared" => Some(Word::AuditShared),
            b"clean" => Some(Word::Clean),
            b"joined" => Some(Word::Joined),
            _ => None,
        }
    }

    // How many names it takes.
    fn taken(self) -> usize {
        match self {
            Word::Shared | Word::Clean => 1,
            Word::Audit | Word::AuditShared | Word::Joined => 2,
        }
    }

    // What to write.
    fn advice(self) -> &'static [u8] {
        match self {
            Word::Shared => b": try shared SHEET",
            Word::Audit => b": try audit SHEET STAGE",
            Word::AuditShared => b": try audit-shared SHEET STAGE",
            Word::Clean => b": try clean SHEET",
            Word::Joined => b": try joined FIRST SECOND",
        }
    }

    // Prints what it says of a sheet that is read already.
    fn print(self, rt: &HostRuntime, sheet: &[u8]) {
        match self {
            Word::Shared => print_quote(rt, BoardKind::Sharing, sheet),
            Word::Audit => print_audit(rt, BoardKind::Tree, sheet),
            Word::AuditShared => print_audit(rt, BoardKind::Sharing, sheet),
            Word::Clean => print_copy(rt, sheet),
            Word::Joined => print_joined(rt, sheet),
        }
    }

    // Does what it says, where there are as many names as it takes. Where there are not, that is said, with what to write.
    pub fn run(self, rt: &HostRuntime, name: &[u8], count: usize) {
        if count != self.taken() {
            messages::advise(rt, b"wrong number of names for ", name, self.advice());
            return;
        }
        let mut space = [0u8; SHEET_ROOM];
        if let Some(sheet) = read_named(rt, 2, &mut space) {
            self.print(rt, sheet);
        }
    }
}

// Prints a reply.
fn print(rt: &HostRuntime, text: &[u8]) {
    if let Err(fault) = rt.write_all(text) {
        messages::fail(rt, b"cannot write ", b"the reply", fault);
    }
}

// Prints the quote of a sheet that is read already, on either board.
fn print_quote(rt: &HostRuntime, kind: BoardKind, sheet: &[u8]) {
    let mut out = [0u8; LONGEST_REPORT];
    let printed = quote_reply(kind, sheet, &mut out);
    print(rt, &out[..printed]);
}

// No word: the quote of the sheet on standard input.
pub fn quote(rt: &HostRuntime) {
    let mut space = [0u8; SHEET_ROOM];
    if let Some(sheet) = read_open(rt, &mut rt.stdin(), b"standard input", &mut space) {
        print_quote(rt, BoardKind::Tree, sheet);
    }
}

// Reads the stage that the third argument names, and prints how it fares against a sheet that is read already.
fn print_audit(rt: &HostRuntime, kind: BoardKind, sheet: &[u8]) {
    let mut space = [0u8; STAGE_ROOM];
    let Some(stage) = read_named(rt, 3, &mut space) else {
        return;
    };
    let mut out = [0u8; LONGEST_REPORT];
    let printed = audit_reply(kind, sheet, stage, &mut out);
    print(rt, &out[..printed]);
}

// Prints the clean copy of a sheet that is read already.
fn print_copy(rt: &HostRuntime, sheet: &[u8]) {
    let mut out = [0u8; LONGEST_COPY_LINE];
    let printed = clean_reply(sheet, &mut out);
    print(rt, &out[..printed]);
}

// Reads the second sheet, which the third argument names, and prints the quote of one stage for it and the first, which is read already.
fn print_joined(rt: &HostRuntime, first: &[u8]) {
    let mut space = [0u8; SHEET_ROOM];
    let Some(second) = read_named(rt, 3, &mut space) else {
        return;
    };
    let mut out = [0u8; LONGEST_REPORT];
    let printed = joined_reply(first, second, &mut out);
    print(rt, &out[..printed]);
}
