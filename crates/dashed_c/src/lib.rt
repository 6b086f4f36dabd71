// The call of a host that is written in C (include/wedgeotter.h), as a static library: it hands on to the library's own
// function of that name, and promises what that one does.

#![tactic(auto)]

ghost use Rattle.dashed.specs.Promises.{RunHost};

// Runs a book file as `dashed::run_file` does, with a lent work buffer of at least 63,001 bytes. It hands back the
// report's length, or the refusal's number made negative, without text and place: 9, 8, then the book's with 4, and 5
// last.
#[unsafe(no_mangle)]
pub extern "C" fn wedgeotter_run_file(book: &[u8], report: &mut [u8], work: &mut [u8]) -> i64
    ensures { RunHost book.now report.old work.old report.new work.new result }
{
    dashed::wedgeotter_run_file(book, report, work)
}
