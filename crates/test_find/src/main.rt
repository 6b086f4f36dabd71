// Runs the cases of the standard input through the call that seeks a mark, one to a line, and writes a line for each.
// The second program makes the input and, by other methods, the output that is wanted.
//
//     M mark w w ..    nowhere | some least greatest | all least greatest | refused number text place
//
// A word of a shape is hex, a mark is its bytes as hex pairs and `-` if it is empty.

#![tactic(auto)]

use answers::{Index, Sought};
use test_lines::fields::{first_field, later_fields, read_text, read_words};
use test_lines::{lines, show};

fn main() {
    let mut buffer = io::large_buffer();
    lines::each(&mut buffer, case);
}

fn case(line: &[u8]) {
    if line.len() == 0 {
        return;
    }
    match line[0] {
        b'M' => find_case(&line[1..]),
        _ => show::line(b"no such case"),
    }
}

// A line after its letter: each field follows a blank.
fn find_case(rest: &[u8]) {
    let mut mark = [0u8; 400];
    let k = read_text(first_field(rest), &mut mark);
    let mut words = [0u64; 301];
    let n = read_words(later_fields(rest), &mut words);
    match dashed::find(&words[..n], &mark[..k]) {
        Ok(Sought::Nowhere) => show::line(b"nowhere"),
        Ok(Sought::InSome(least, greatest)) => shown(b"some ", least, greatest),
        Ok(Sought::InAll(least, greatest)) => shown(b"all ", least, greatest),
        Err(r) => show::refused_line(r),
    }
}

fn shown(words: &[u8], least: Index, greatest: Index) {
    io::write_all(1, words);
    io::print_decimal(1, least.at);
    io::write_all(1, b" ");
    io::print_decimal(1, greatest.at);
    show::line(b"");
}
