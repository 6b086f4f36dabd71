// Runs the book files of the standard input to their reports, one to a line, and writes a line for each. The second
// program makes the input and the output that is wanted.
//
//     F k file    report length text rest e | refused number text place rest e
//
// A report of k bytes, k in hex, and the bytes of a file as hex pairs, `-` if it is empty. The report is shown with `/`
// for each newline; e counts the untouched bytes at its end, all of them where the file is refused.

#![tactic(auto)]

use test_lines::fields::{first_field, later_fields, read_text, read_words, within};
use test_lines::{lines, show};

// A line has two digits for each byte of the largest file.
fn main() {
    let mut buffer = [0u8; 66000];
    lines::each(&mut buffer, case);
}

fn case(line: &[u8]) {
    if line.len() == 0 {
        return;
    }
    match line[0] {
        b'F' => file_case(&line[1..]),
        _ => show::line(b"no such case"),
    }
}

// The first field is the length of the report.
fn file_case(rest: &[u8]) {
    let mut length = [0u64; 1];
    read_words(rest, &mut length);
    let mut file = [0u8; 32800];
    let n = read_text(first_field(later_fields(rest)), &mut file);
    let mut report = [0x5au8; 32900];
    let k = within(length[0], &report);
    file_line(&file[..n], &mut report[..k]);
}

fn file_line(file: &[u8], report: &mut [u8]) {
    match dashed::run_file(file, report) {
        Ok(n) => report_shown(&report[..n]),
        Err(r) => show::refused(r),
    }
    show::rest(report, 0x5a);
    show::line(b"");
}

fn report_shown(text: &[u8]) {
    io::write_all(1, b"report ");
    io::print_decimal(1, text.len() as u64);
    io::write_all(1, b" ");
    slashed(text);
}

// Writes the text with a `/` for each newline.
fn slashed(text: &[u8]) {
    for (n, line) in text.split(|byte| *byte == b'\n').enumerate() {
        if 0 < n {
            io::write_all(1, b"/");
        }
        io::write_all(1, line);
    }
}
