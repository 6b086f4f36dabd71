// The first and the last step of a program: its standard input read up to a room, its report written to the standard
// output.
//
// No contract can say which bytes a read brings or where a write takes them; what was read and what is handed on to be
// written is in the contracts of those that call these functions.

#![tactic(auto)]

ghost use Rattle.std.specs.Prelude.{◌≤◌, length};
ghost use Rattle.streams.specs.Within.{ReadInto, ReadMore};

use std::io::{Read, Stdin};

// Reads on until a read gives no more bytes or the buffer is full: how many bytes the input gave, or none where a read
// failed. How often the loop turns depends on the input, and no index counts it.
pub fn read_input(stdin: Stdin, buffer: &mut [u8]) -> Option<usize>
    ensures { ReadInto buffer.new result }
{
    let mut done = 0;
    while done < buffer.len() {
        let n = read_more(stdin, buffer, done)?;
        if n == done {
            return Some(n);
        }
        done = n;
    }
    Some(done)
}

// One read more, behind the bytes that were read so far, which stay.
fn read_more(stdin: Stdin, buffer: &mut [u8], done: usize) -> Option<usize>
    requires { done ≤ length buffer.old }
    ensures { ReadMore buffer.old done buffer.new result }
{
    let more = read_some(stdin, &mut buffer[done..])?;
    Some(done + more)
}

// One read. It gives no bytes at the end of the input.
fn read_some(mut stdin: Stdin, buffer: &mut [u8]) -> Option<usize>
    ensures { ReadInto buffer.new result }
{
    stdin.read(buffer).ok()
}

// All of a report, to the standard output; the complaint if that fails.
pub fn write_report(report: &[u8], complaint: &[u8]) {
    if !io::write_all(1, report) {
        complain(complaint);
    }
}

// Some words to the standard error.
pub fn complain(words: &[u8]) {
    io::write_all(2, words);
}
