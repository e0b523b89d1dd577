// The program. With no argument it quotes the unit sheet on standard input. Else the first argument is a word, and the others are names of files. What it finds
// goes to standard output, and is proved. What is wrong with the arguments or the files goes to standard error, as one line, and nothing to standard output:
// there is no exit status to tell it by.
#![tactic(auto)]

use files::{LONGEST_ARGUMENT, read_argument};
use std::env::{Env, FillError};
use words::Word;

mod files; // reading arguments and files
mod messages; // what is said on standard error
mod words; // what each word does

// Does what a word says, with so many arguments after it.
fn do_word(rt: &HostRuntime, name: &[u8], count: usize) {
    match Word::named(name) {
        Some(word) => word.run(rt, name, count),
        None => messages::advise(
            rt,
            b"unknown word ",
            name,
            b": try shared SHEET, audit SHEET STAGE, audit-shared SHEET STAGE or clean SHEET",
        ),
    }
}

// Whether there is such an argument. One that no buffer holds is there.
fn is_given(rt: &HostRuntime, i: usize) -> bool {
    !matches!(rt.arg(i, &mut []), Err(FillError::NotPresent))
}

// How many arguments there are, the program's own name among them.
fn arg_count(rt: &HostRuntime) -> usize {
    (0..usize::MAX)
        .find(|i| !is_given(rt, *i))
        .unwrap_or(usize::MAX)
}

fn main(rt: HostRuntime) {
    let count = arg_count(&rt);
    if count < 2 {
        words::quote(&rt);
        return;
    }
    let mut space = [0u8; LONGEST_ARGUMENT];
    if let Some(word) = read_argument(&rt, 1, &mut space) {
        do_word(&rt, word, count - 2);
    }
}
