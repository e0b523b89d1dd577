// Reading: an argument, an open input, or a file by its name, put at the start of a lent buffer. What was read is handed back; where not all of it was, or the
// buffer does not take it, the reason has been said on standard error.
ghost use Rattle.std.specs.Prelude.{◌≤◌, length, IfOk, IfSome};

use crate::messages;
use std::env::{Env, FillError};
use std::fs::File;
use std::io;
use std::io::Read;

// What the system says where an argument is missing, where it is longer than the buffer, and where a name is no text.
const INVALID_ARGUMENT: i32 = 22;

const NAME_TOO_LONG: i32 = 36;

const NO_TEXT: i32 = 84;

// The longest argument that is taken, in bytes: longer than any name that the system opens.
pub const LONGEST_ARGUMENT: usize = 4096;

// Reads until the buffer is full or the input ends, and hands back how many bytes that gave. A read that fails is told from the end: bytes that are cut short by
// a fault must not pass for a sheet that ends there. Each turn reads a byte at least, so that there are no more turns than the buffer has bytes.
fn read_all(input: &mut impl Read, buffer: &mut [u8]) -> io::Result<usize>
    ensures { IfOk result (λ n. n ≤ length buffer.new) }
{
    let mut done: usize = 0;
    for _ in 0..buffer.len() {
        let more = input.read(&mut buffer[done..])?;
        if more == 0 {
            break;
        }
        done += more;
    }
    Ok(done)
}

// Reads from an open input, which messages call by a name.
pub fn read_open<'b>(
    rt: &HostRuntime,
    input: &mut impl Read,
    name: &[u8],
    buffer: &'b mut [u8],
) -> Option<&'b [u8]>
    ensures { IfSome result (λ read. length read.now ≤ length buffer.old) }
{
    match read_all(input, buffer) {
        Ok(length) => Some(&buffer[..length]),
        Err(fault) => {
            messages::fail(rt, b"cannot read ", name, fault);
            None
        }
    }
}

// Opens a file by its name, for reading. A name of today's library is text.
fn open(rt: &HostRuntime, name: &[u8]) -> io::Result<File> {
    match std::str::from_utf8(name) {
        Ok(text) => File::open(rt, text),
        Err(_) => Err(io::Error::from_raw_os_error(NO_TEXT)),
    }
}

// Reads a file by its name. A folder opens, and cannot be read.
fn read_file<'b>(rt: &HostRuntime, name: &[u8], buffer: &'b mut [u8]) -> Option<&'b [u8]>
    ensures { IfSome result (λ read. length read.now ≤ length buffer.old) }
{
    match open(rt, name) {
        Ok(mut file) => read_open(rt, &mut file, name, buffer),
        Err(fault) => {
            messages::fail(rt, b"cannot open ", name, fault);
            None
        }
    }
}

// Reads an argument itself, an empty one too. One that the buffer cannot hold is not cut, since its start is another word or name.
pub fn read_argument<'b>(rt: &HostRuntime, i: usize, buffer: &'b mut [u8]) -> Option<&'b [u8]>
    ensures { IfSome result (λ read. length read.now ≤ length buffer.old) }
{
    match rt.arg(i, buffer) {
        Ok(length) => Some(&buffer[..length]),
        Err(why) => {
            let code = match why {
                FillError::TooLong => NAME_TOO_LONG,
                FillError::NotPresent => INVALID_ARGUMENT,
            };
            messages::fail(
                rt,
                b"cannot take ",
                b"an argument that long",
                io::Error::from_raw_os_error(code),
            );
            None
        }
    }
}

// Reads the file that an argument names.
pub fn read_named<'b>(rt: &HostRuntime, i: usize, buffer: &'b mut [u8]) -> Option<&'b [u8]>
    ensures { IfSome result (λ read. length read.now ≤ length buffer.old) }
{
    let mut name = [0u8; LONGEST_ARGUMENT];
    let name = read_argument(rt, i, &mut name)?;
    read_file(rt, name, buffer)
}
