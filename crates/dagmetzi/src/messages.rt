// What the program says on standard error: one line each, which begins with its name. The calls hand nothing back and change nothing that is lent; their
// text is held to what is expected by the tests of the program as a process.
ghost use Rattle.std.specs.Prelude.{◌≤◌};
ghost use Rattle.dagmetzi.specs.Inner.Lengths.{longest_line};

use std::io;
use std::io::Print;

// Room for a name as long as the system takes, and the words around it.
const LONGEST_LINE: usize = 4200;

// A byte as it is shown. What would end the line or steer a terminal becomes a question mark, so that a name cannot pass for another message.
fn visible(b: u8) -> u8 {
    if b.is_ascii_control() { b'?' } else { b }
}

// A line, as far as it is put together. What finds no room is dropped.
#[derive(Drop)]
struct Line {
    bytes: [u8; LONGEST_LINE],
    length: usize,
    ghost has_room: { length ≤ longest_line },
}

impl Line {
    // The start of a line: what is wrong, and with which name.
    fn begin(what: &[u8], name: &[u8]) -> Line {
        let mut line = Line {
            bytes: [0; LONGEST_LINE],
            length: 0,
        };
        line.add(b"dagmetzi: ");
        line.add(what);
        line.add(if name.is_empty() { b"(empty)" } else { name });
        line
    }

    // Adds a text.
    fn add(&mut self, text: &[u8]) {
        for b in text {
            if self.length < LONGEST_LINE {
                self.bytes[self.length] = visible(*b);
                self.length += 1;
            }
        }
    }

    fn text(&self) -> &[u8] {
        &self.bytes[..self.length]
    }
}

// Writes to standard error. Where that fails there is nowhere left to say so.
fn say(rt: &HostRuntime, text: &[u8]) {
    let _ = rt.stderr().write_all(text);
}

// The system's reason, without the number that std puts behind it.
fn without_number(reason: &str) -> &str {
    match reason.split_once(" (os error ") {
        Some((text, _)) => text,
        None => reason,
    }
}

fn say_reason(rt: &HostRuntime, fault: io::Error) {
    match fault.to_string(rt.alloc()) {
        Ok(reason) => say(rt, without_number(reason.as_str()).as_bytes()),
        Err(_) => say(rt, b"out of memory"),
    }
}

// Says what could not be done with a name, and the system's reason: "dagmetzi: cannot open NAME: No such file or directory".
pub fn fail(rt: &HostRuntime, what: &[u8], name: &[u8], fault: io::Error) {
    say(rt, Line::begin(what, name).text());
    say(rt, b": ");
    say_reason(rt, fault);
    say(rt, b"\n");
}

// Says what is wrong with a word, and what to write: "dagmetzi: wrong number of names for clean: try clean SHEET".
pub fn advise(rt: &HostRuntime, what: &[u8], word: &[u8], advice: &[u8]) {
    let mut line = Line::begin(what, word);
    line.add(advice);
    say(rt, line.text());
    say(rt, b"\n");
}
