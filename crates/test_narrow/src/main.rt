// Runs the cases of the standard input through exact narrowing, one to a line, and writes a line for each. The second
// program makes the input and the output that is wanted; tests/second/pairs.py and joins.py say by which methods.
//
//     N kind k rx ry n w .. m w ..         narrow outputs work z e | none outputs work z e
//                                          | refused number text place outputs work z e
//     J k rx ry rz n w .. m w .. l w ..    the same with three outputs
//
// N: X of n numbers and Y of m numbers under the relation of a rule of that kind (0, 1, 2, 4 or 5), with a work buffer
// of k bytes and outputs of rx and ry numbers. J: X, Y and Z of n, m and l numbers, the text of X being that of Y
// followed by that of Z. The numbers of a line are hex, and so are those of the outputs, all of which are shown as they
// are after the call, each but the first behind a slash; z and e count the bytes 0 that the work buffer begins with and
// the untouched ones at its end.

#![tactic(auto)]

use answers::{Narrowed, Refusal};
use test_lines::fields::{NUMBERS, first_list, later_lists, read_words, within};
use test_lines::{lines, show};

fn main() {
    let mut buffer = io::large_buffer();
    lines::each(&mut buffer, case);
}

fn case(line: &[u8]) {
    if line.len() == 0 {
        return;
    }
    let mut row = [0u64; NUMBERS];
    let n = read_words(&line[1..], &mut row);
    match line[0] {
        b'N' => narrow_case(&row[..n]),
        b'J' => join_case(&row[..n]),
        _ => show::line(b"no such case"),
    }
}

// The first numbers are the kind and the lengths of work buffer and outputs.
fn narrow_case(numbers: &[u64]) {
    if numbers.len() < 4 {
        return;
    }
    let mut work = [0x5au8; 70000];
    let k = within(numbers[1], &work);
    let mut out_x = [0xa5a5u64; 220];
    let rx = within(numbers[2], &out_x);
    let mut out_y = [0xa5a5u64; 220];
    let ry = within(numbers[3], &out_y);
    narrow_line(
        numbers[0],
        &numbers[4..],
        &mut work[..k],
        &mut out_x[..rx],
        &mut out_y[..ry],
    );
}

fn narrow_line(kind: u64, lists: &[u64], work: &mut [u8], out_x: &mut [u64], out_y: &mut [u64]) {
    let x = first_list(lists);
    let y = first_list(later_lists(lists));
    narrowed(narrow(kind, x, y, work, out_x, out_y));
    show::numbers(out_x);
    io::write_all(1, b" /");
    show::numbers(out_y);
    show::work(work, 0x5a);
    show::line(b"");
}

fn narrow(
    kind: u64,
    x: &[u64],
    y: &[u64],
    work: &mut [u8],
    out_x: &mut [u64],
    out_y: &mut [u64],
) -> Result<Narrowed, Refusal> {
    match kind {
        0 => dashed::narrow_padded(x, y, work, out_x, out_y),
        1 => dashed::narrow_at_most(x, y, work, out_x, out_y),
        2 => dashed::narrow_before(x, y, work, out_x, out_y),
        5 => dashed::narrow_any_case(x, y, work, out_x, out_y),
        _ => dashed::narrow_exact(x, y, work, out_x, out_y),
    }
}

// The first numbers are the lengths of work buffer and outputs.
fn join_case(numbers: &[u64]) {
    if numbers.len() < 4 {
        return;
    }
    let mut work = [0x5au8; 70000];
    let k = within(numbers[0], &work);
    let mut out_x = [0xa5a5u64; 220];
    let rx = within(numbers[1], &out_x);
    let mut out_y = [0xa5a5u64; 220];
    let ry = within(numbers[2], &out_y);
    let mut out_z = [0xa5a5u64; 220];
    let rz = within(numbers[3], &out_z);
    join_line(
        &numbers[4..],
        &mut work[..k],
        &mut out_x[..rx],
        &mut out_y[..ry],
        &mut out_z[..rz],
    );
}

fn join_line(
    lists: &[u64],
    work: &mut [u8],
    out_x: &mut [u64],
    out_y: &mut [u64],
    out_z: &mut [u64],
) {
    let x = first_list(lists);
    let parts = later_lists(lists);
    let y = first_list(parts);
    let z = first_list(later_lists(parts));
    narrowed(dashed::narrow_join(x, y, z, work, out_x, out_y, out_z));
    show::numbers(out_x);
    io::write_all(1, b" /");
    show::numbers(out_y);
    io::write_all(1, b" /");
    show::numbers(out_z);
    show::work(work, 0x5a);
    show::line(b"");
}

fn narrowed(answer: Result<Narrowed, Refusal>) {
    match answer {
        Ok(Narrowed::Narrow) => {
            io::write_all(1, b"narrow");
        }
        Ok(Narrowed::None) => {
            io::write_all(1, b"none");
        }
        Err(r) => show::refused(r),
    }
}
