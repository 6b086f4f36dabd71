// Runs the cases of the standard input through the quick sweep, one to a line, and writes a line for each. The second
// program makes the input and the output that is wanted.
//
//     S r n w .. m w ..    places looks output | cannot looks output | refused number text place output
//
// The places of X, n numbers, in Y, m numbers, into an output of r numbers. The numbers of a line are hex, and so are
// those of the output, all of which is shown as it is after the call.

#![tactic(auto)]

use answers::{Refusal, Swept};
use test_lines::fields::{NUMBERS, first_list, later_lists, read_words, within};
use test_lines::{lines, show};

fn main() {
    let mut buffer = io::large_buffer();
    lines::each(&mut buffer, case);
}

fn case(line: &[u8]) {
    if line.len() == 0 {
        return;
    }
    let mut row = [0u64; NUMBERS];
    let n = read_words(&line[1..], &mut row);
    match line[0] {
        b'S' => sweep_case(&row[..n]),
        _ => show::line(b"no such case"),
    }
}

// The first number is the output's length.
fn sweep_case(numbers: &[u64]) {
    if numbers.len() == 0 {
        return;
    }
    let mut out = [0xa5a5u64; 200];
    let r = within(numbers[0], &out);
    let lists = &numbers[1..];
    sweep_line(
        first_list(lists),
        first_list(later_lists(lists)),
        &mut out[..r],
    );
}

fn sweep_line(x: &[u64], y: &[u64], out: &mut [u64]) {
    swept(dashed::sweep(x, y, out));
    show::numbers(out);
    show::line(b"");
}

fn swept(answer: Result<Swept, Refusal>) {
    match answer {
        Ok(Swept::Places(looks)) => {
            io::write_all(1, b"places ");
            io::print_decimal(1, looks);
        }
        Ok(Swept::Cannot(looks)) => {
            io::write_all(1, b"cannot ");
            io::print_decimal(1, looks);
        }
        Err(r) => show::refused(r),
    }
}
