// Runs the cases of the standard input through the call for the earliest common text, one to a line, and writes a line
// for each. The second program makes the input and, by other methods, the output that is wanted.
//
//     C k r n w .. m w ..    text length text rest e work z e | none rest e work z e
//                            | refused number text place rest e work z e
//
// X of n numbers and Y of m numbers, with a work buffer of k bytes and an output of r bytes. The numbers of a line are
// hex. The text is shown as hex pairs, `-` if it is empty, and the untouched bytes at the output's end are counted,
// which are all of them where there is no text; z and e count the bytes 0 that the work buffer begins with and the
// untouched ones at its end.

#![tactic(auto)]

use answers::Refusal;
use test_lines::fields::{NUMBERS, first_list, later_lists, read_words, within};
use test_lines::{lines, show};

fn main() {
    let mut buffer = io::large_buffer();
    lines::each(&mut buffer, case);
}

fn case(line: &[u8]) {
    if line.len() == 0 {
        return;
    }
    let mut row = [0u64; NUMBERS];
    let n = read_words(&line[1..], &mut row);
    match line[0] {
        b'C' => common_case(&row[..n]),
        _ => show::line(b"no such case"),
    }
}

// The first numbers are the lengths of work buffer and output.
fn common_case(numbers: &[u64]) {
    if numbers.len() < 2 {
        return;
    }
    let mut work = [0x5au8; 70000];
    let k = within(numbers[0], &work);
    let mut out = [0xa5u8; 300];
    let r = within(numbers[1], &out);
    common_line(&numbers[2..], &mut work[..k], &mut out[..r]);
}

fn common_line(lists: &[u64], work: &mut [u8], out: &mut [u8]) {
    let x = first_list(lists);
    let y = first_list(later_lists(lists));
    let answer = dashed::common_text(x, y, work, out);
    shown(answer, out);
    show::rest(out, 0xa5);
    show::work(work, 0x5a);
    show::line(b"");
}

fn shown(answer: Result<Option<usize>, Refusal>, out: &[u8]) {
    match answer {
        Ok(Some(n)) => text_shown(n, out),
        Ok(None) => {
            io::write_all(1, b"none");
        }
        Err(r) => show::refused(r),
    }
}

// The length as it is answered, and so much of the output, or all of it if it is shorter.
fn text_shown(length: usize, out: &[u8]) {
    io::write_all(1, b"text ");
    io::print_decimal(1, length as u64);
    io::write_all(1, b" ");
    let n = within(length as u64, out);
    show::text(&out[..n]);
}
