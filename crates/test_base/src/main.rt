// Runs the cases of the standard input through the library, one to a line, and writes a line for each. The second
// program makes the input and, by other methods, the output that is wanted.
//
//     C w w ..         sound | refused number text place
//     F text w w ..    fits | unfit | refused number text place
//     O text text      the earlier text
//     L n w w ..       text length output | refused number text place output, for the least text into an output of n
// bytes     G n w w ..       the same with the greatest text
//
// A number and a word of a shape are hex, a text is its bytes as hex pairs and `-` if it is empty.

#![tactic(auto)]

mod show;

use answers::Refusal;
use test_lines::fields::{first_field, later_fields, read_text, read_words, within};
use test_lines::lines;

fn main() {
    let mut buffer = io::large_buffer();
    lines::each(&mut buffer, case);
}

fn case(line: &[u8]) {
    if line.len() == 0 {
        return;
    }
    let rest = &line[1..];
    match line[0] {
        b'C' => check_case(rest),
        b'F' => fit_case(rest),
        b'O' => order_case(rest),
        b'L' => bound_case(rest, false),
        b'G' => bound_case(rest, true),
        _ => test_lines::show::line(b"no such case"),
    }
}

// Below, `rest` is a line after its letter: each field follows a blank.

fn check_case(rest: &[u8]) {
    let mut words = [0u64; 301];
    let n = read_words(rest, &mut words);
    show::checked(dashed::check_shape(&words[..n]));
}

fn fit_case(rest: &[u8]) {
    let mut text = [0u8; 400];
    let k = read_text(first_field(rest), &mut text);
    let mut words = [0u64; 301];
    let n = read_words(later_fields(rest), &mut words);
    show::fit(dashed::fits(&words[..n], &text[..k]));
}

fn order_case(rest: &[u8]) {
    let mut first = [0u8; 400];
    let k = read_text(first_field(rest), &mut first);
    let mut second = [0u8; 400];
    let m = read_text(first_field(later_fields(rest)), &mut second);
    test_lines::show::text(dashed::earlier(&first[..k], &second[..m]));
    test_lines::show::line(b"");
}

// The first number is the output's length.
fn bound_case(rest: &[u8], greatest: bool) {
    let mut words = [0u64; 301];
    let n = read_words(rest, &mut words);
    if n == 0 {
        return;
    }
    let mut out = [0xa5u8; 300];
    let k = within(words[0], &out);
    bound_line(greatest, &words[1..n], &mut out[..k]);
}

fn bound_line(greatest: bool, shape: &[u64], out: &mut [u8]) {
    let answer = bound(greatest, shape, out);
    show::written(answer, out);
}

fn bound(greatest: bool, shape: &[u64], out: &mut [u8]) -> Result<usize, Refusal> {
    if greatest {
        return dashed::greatest_text(shape, out);
    }
    dashed::least_text(shape, out)
}
