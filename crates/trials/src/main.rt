// A program for trials of the library: it reads records from standard input, calls the library on each, and prints the reply.
// What it prints is compared with the replies of a solver that was written apart from the library, and is not proved here; that the program is safe and
// ends is. What the bytes of a record say and what the parts of a reply put is proved in `samples` and `report`.
#![tactic(auto)]

ghost use Rattle.std.specs.Prelude.{◌≤◌, length};
ghost use Rattle.trials.specs.Inner.Window.{nearly_full, window};

use replies::put_reply;
use samples::records::any_record_length;
use std::io::{Print, Read};
use text::Page;

mod replies; // the reply to a record

// The bytes of the window on the input, and of the buffer for replies.
const WINDOW: usize = 65536;

// Replies are written out once they come to this many bytes: a buffer of 65,536 then still has room for the longest.
const NEARLY_FULL: usize = 60000;

// The turns are bounded, since nothing says that an input ends.
const MOST_TURNS: u32 = 1000000;

// Writes what is put on a page. What is not written is missed where the output is compared.
fn write_page(rt: &HostRuntime, page: &Page) {
    if let Some(text) = page.bytes.get(..page.place) {
        let _ = rt.write_all(text);
    }
}

// Writes the replies out where they nearly fill the page, which is then put on anew.
fn make_room(rt: &HostRuntime, page: &mut Page)
    ensures { page.new.place ≤ nearly_full }
{
    if page.place >= NEARLY_FULL {
        write_page(rt, page);
        page.place = 0;
    }
}

// Answers the records that are whole, and hands back the place after them. A turn goes on by the length of a record, so no range has its places.
fn answer_whole(rt: &HostRuntime, s: &[u8]) -> usize
    requires { length s.now ≤ window }
    ensures { result ≤ length s.now }
{
    let mut space = [0u8; WINDOW];
    let mut page = Page::new(&mut space);
    let mut at: usize = 0;
    while at < s.len() {
        let next = at + any_record_length(s, at);
        if s.len() < next {
            break;
        }
        put_reply(&mut page, &s[at..next]);
        make_room(rt, &mut page);
        at = next;
    }
    write_page(rt, &page);
    at
}

// Reads until the buffer is full, the input ends or a read fails, and hands back how many bytes that gave. Each turn reads a byte at least, so that there are
// no more turns than the buffer has bytes.
fn read_full(input: &mut impl Read, buffer: &mut [u8]) -> usize
    ensures { result ≤ length buffer.new }
{
    let mut done: usize = 0;
    for _ in 0..buffer.len() {
        match input.read(&mut buffer[done..]) {
            Ok(0) => break,
            Ok(more) => done += more,
            Err(_) => break,
        }
    }
    done
}

// Reads behind the bytes that are held, and hands back how many are held then.
fn refill(rt: &HostRuntime, window: &mut [u8], held: usize) -> usize
    requires { held ≤ length window.old }
    ensures { result ≤ length window.old }
{
    held + read_full(&mut rt.stdin(), &mut window[held..])
}

// Moves the bytes from one place to another to the front, and hands back how many they are.
fn move_to_front(window: &mut [u8], from: usize, end: usize) -> usize
    requires { (from ≤ end) × (end ≤ length window.old) }
    ensures { result ≤ length window.old }
{
    window.copy_within(from..end, 0);
    end - from
}

// A turn takes what the window holds of the input. It ends where no record is whole: a record that is cut short, or longer than the window, has no reply.
fn main(rt: HostRuntime) {
    let mut window = [0u8; WINDOW];
    let mut held: usize = 0;
    for _ in 0..MOST_TURNS {
        let end = refill(&rt, &mut window, held);
        let done = answer_whole(&rt, &window[..end]);
        if done == 0 {
            break;
        }
        held = move_to_front(&mut window, done, end);
    }
}
