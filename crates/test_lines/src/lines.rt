// The lines of the standard input, one after the other, by way of a buffer that holds a piece of it. A place that lies
// outside the buffer counts as its end, so that a caller has nothing to show of places.
ghost use Rattle.std.specs.Prelude.{◌≤◌, length};
ghost use Rattle.io.specs.Counts.{IsPrefixLen};

use crate::fields::{find, within};
use crate::show;

// So many lines are read at most, that a program ends whatever it is given.
const MOST: usize = 1000000;

// A line lies from `start` to `end`, the next one begins at `next`, and so many bytes of the buffer are read.
#[derive(Clone, Copy)]
struct Place {
    start: usize,
    end: usize,
    next: usize,
    read: usize,
}

// Hands each line of the standard input on; the letters that lines begin with are each program's own. A last line
// without a newline is one.
pub fn each<F: Fn(&[u8])>(buffer: &mut [u8], case: F)
    requires { F.IsAlwaysCallable case }
{
    let mut place = Place {
        start: 0,
        end: 0,
        next: 0,
        read: 0,
    };
    for _ in 0..MOST {
        let Some(found) = next(buffer, place) else {
            return;
        };
        place = found;
        case(line(buffer, place));
    }
}

// The bytes of the line.
fn line(buffer: &[u8], place: Place) -> &[u8] {
    let end = place.end.min(buffer.len());
    let start = place.start.min(end);
    &buffer[start..end]
}

// The next line, or none at the end of the input.
fn next(buffer: &mut [u8], place: Place) -> Option<Place> {
    let read = within(place.read as u64, buffer);
    let from = place.next.min(read);
    let end = find(&buffer[..read], from, b'\n');
    if end < read {
        return Some(Place {
            start: from,
            end,
            next: end + 1,
            read,
        });
    }
    buffer.copy_within(from..read, 0);
    first(buffer, read - from)
}

// The first line of the buffer, read on behind the bytes that it begins with. That a line has no room is said in words
// that no answer has, and it is the last.
fn first(buffer: &mut [u8], kept: usize) -> Option<Place>
    requires { kept ≤ length buffer.old }
{
    let read = read_on(buffer, kept);
    if read == 0 {
        return None;
    }
    let end = find(&buffer[..read], 0, b'\n');
    if end < read {
        return Some(Place {
            start: 0,
            end,
            next: end + 1,
            read,
        });
    }
    if read == buffer.len() {
        show::line(b"a line that has no room");
        return None;
    }
    Some(Place {
        start: 0,
        end: read,
        next: read,
        read,
    })
}

// Reads on behind the first bytes of the buffer until it is full or the input ends, and answers how many it then has.
fn read_on(buffer: &mut [u8], kept: usize) -> usize
    requires { kept ≤ length buffer.old }
    ensures { IsPrefixLen result buffer.new }
{
    kept + io::read_full(0, &mut buffer[kept..])
}
