// The call of a host that is written in C: three slices of bytes in, one number out.

#![tactic(auto)]

ghost use Rattle.host_calls.specs.Host.{HostPromise};

// Runs a book file to its report with a lent work buffer. It hands back the report's length, or the refusal's number
// made negative.
pub fn run(book: &[u8], report: &mut [u8], work: &mut [u8]) -> i64
    ensures { HostPromise book.now report.old work.old report.new work.new result }
{
    match file_calls::run_lent(book, report, work) {
        Ok(n) => n as i64,
        Err(r) => -(r.number() as i64),
    }
}
