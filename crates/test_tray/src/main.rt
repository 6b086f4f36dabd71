// Runs the cases of the standard input through a tray of pairs, one tray to a line, and writes a line for each. The
// second program makes the input and the output that is wanted.
//
//     T r n w .. m w ..    judged records | refused number text place records
//
// The pairs of the list, m numbers, over the blocks, n numbers, into a row of r records. The numbers of a line are hex.
// Each record of the row is shown as it is after the call, behind a slash; as found it is a cannot with 0xa5a5 looks.

#![tactic(auto)]

ghost use Rattle.std.specs.Prelude.{◌≤◌};

use answers::{AnswerRecord, Refusal, SweepVerdict};
use test_lines::fields::{NUMBERS, first_list, later_lists, read_words};
use test_lines::{lines, show};
use tray_rows::ROOM;

fn main() {
    let mut buffer = io::large_buffer();
    lines::each(&mut buffer, case);
}

fn case(line: &[u8]) {
    if line.len() == 0 {
        return;
    }
    let mut row = [0u64; NUMBERS];
    let n = read_words(&line[1..], &mut row);
    match line[0] {
        b'T' => tray_case(&row[..n]),
        _ => show::line(b"no such case"),
    }
}

// The number, or the row's room if that is less.
fn within_room(n: u64) -> usize
    ensures { result ≤ 66 }
{
    n.min(ROOM as u64) as usize
}

// The first number is the row's length.
fn tray_case(numbers: &[u64]) {
    if numbers.len() == 0 {
        return;
    }
    let r = within_room(numbers[0]);
    let lists = &numbers[1..];
    let found = AnswerRecord {
        verdict: Ok(SweepVerdict::Cannot),
        looks: 0xa5a5,
    };
    let batch = tray_rows::sweep_row(
        first_list(lists),
        first_list(later_lists(lists)),
        [found; 66],
        r,
    );
    end(batch.tray);
    for record in &batch.row[..r] {
        answer(*record);
    }
    show::line(b"");
}

fn end(tray: Result<(), Refusal>) {
    match tray {
        Ok(()) => {
            io::write_all(1, b"judged");
        }
        Err(r) => show::refused(r),
    }
}

fn answer(record: AnswerRecord) {
    io::write_all(1, b" / ");
    match record.verdict {
        Ok(SweepVerdict::Places) => {
            io::write_all(1, b"places");
        }
        Ok(SweepVerdict::Cannot) => {
            io::write_all(1, b"cannot");
        }
        Err(r) => show::refused(r),
    }
    io::write_all(1, b" ");
    io::print_decimal(1, record.looks);
}
