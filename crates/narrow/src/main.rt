// Reads a book's file from the standard input and writes the report of its run to the standard output.
//
// Where a read fails nothing is reported, and where a write fails the report may be cut: both are said on the standard
// error.

#![tactic(auto)]

ghost use Rattle.std.specs.Prelude.{◌≤◌, length};
ghost use Rattle.file_lines.specs.Book.{file_limit};
ghost use Rattle.file_runs.specs.Ends.{FileEnds};
ghost use Rattle.file_runs.specs.Promise.{Report};
ghost use Rattle.narrow.specs.Printed.{Printed};

// One byte more than a file may have, so that a larger one shows.
fn main(rt: HostRuntime) {
    let mut file = [0u8; file_lines::FILE_LIMIT + 1];
    match streams::read_input(rt.stdin(), &mut file) {
        Some(n) => answer(&file[..n]),
        None => streams::complain(b"narrow: the input cannot be read\n"),
    }
}

// Hands the bytes of the report, those and no others, on to the last step.
fn answer(file: &[u8]) {
    let mut report = [0u8; file_lines::FILE_LIMIT];
    let n = report_of(file, &mut report);
    print(file, &report[..n]);
}

// The report of how a file ends, at the start of an output that has room for every report: its book's, or why it is
// refused.
fn report_of(file: &[u8], report: &mut [u8]) -> usize
    requires { file_limit ≤ length report.old }
    ensures { Report (FileEnds file.now) report.old report.new result }
{
    match dashed::run_file(file, report) {
        Ok(n) => n,
        Err(r) => file_reports::write_refused(r, report),
    }
}

// The last step. It may be handed only what is due for the file that was read.
fn print(file: &[u8], report: &[u8])
    requires { Printed file.now report.now }
{
    streams::write_report(report, b"narrow: the report cannot be written\n");
}
