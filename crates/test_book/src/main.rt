// Runs the books of the standard input, one to a line, and writes a line for each. The second program makes the input
// and the output that is wanted.
//
//     B k c w .. b w .. r w ..    accepted texts blocks work z e | refused number text place texts blocks work z e
//
// A work buffer of k bytes, c block counts, b numbers of blocks and r numbers of rules. The numbers of a line are hex,
// and so are those of the blocks, all of which are shown as they are after the call; z and e count the bytes 0 that the
// work buffer begins with and the untouched ones at its end. The texts are eight records, each the name of the text's
// group, stable or none, and the applications made.

#![tactic(auto)]

use answers::{Ended, Ran, TextRan};
use test_lines::fields::{copy_numbers, first_list, later_lists, read_words, within};
use test_lines::{lines, show};

fn main() {
    let mut buffer = io::large_buffer();
    lines::each(&mut buffer, case);
}

fn case(line: &[u8]) {
    if line.len() == 0 {
        return;
    }
    let mut row = [0u64; 1600];
    let n = read_words(&line[1..], &mut row);
    match line[0] {
        b'B' => book_case(&row[..n]),
        _ => show::line(b"no such case"),
    }
}

// The first number is the length of the work buffer.
fn book_case(numbers: &[u64]) {
    if numbers.len() == 0 {
        return;
    }
    let mut work = [0x5au8; 70000];
    let k = within(numbers[0], &work);
    let lists = &numbers[1..];
    book_lists(first_list(lists), later_lists(lists), &mut work[..k]);
}

// The blocks are lent to be changed, so they get a row of their own.
fn book_lists(counts: &[u64], lists: &[u64], work: &mut [u8]) {
    let mut blocks = [0u64; 1600];
    let b = copy_numbers(first_list(lists), &mut blocks);
    book_line(
        counts,
        &mut blocks[..b],
        first_list(later_lists(lists)),
        work,
    );
}

fn book_line(counts: &[u64], blocks: &mut [u64], rules: &[u64], work: &mut [u8]) {
    ran(dashed::run_book(counts, blocks, rules, work));
    show::numbers(blocks);
    show::work(work, 0x5a);
    show::line(b"");
}

fn ran(answer: Ran) {
    match answer.checked {
        Ok(()) => {
            io::write_all(1, b"accepted");
        }
        Err(r) => show::refused(r),
    }
    for record in answer.texts {
        text(record);
    }
}

fn text(record: TextRan) {
    io::write_all(1, b" ");
    io::print_decimal(1, record.group);
    match record.ended {
        Ended::Stable(applications) => {
            io::write_all(1, b" stable ");
            io::print_decimal(1, applications);
        }
        Ended::None(applications) => {
            io::write_all(1, b" none ");
            io::print_decimal(1, applications);
        }
    }
}
