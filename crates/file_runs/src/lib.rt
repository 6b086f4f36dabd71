// How a book file ends, and what running it to its report promises: definitions and laws, and why a book without room
// is refused.

#![tactic(auto)]

ghost use Rattle.std.specs.Prelude.{◌<◌};
ghost use Rattle.answers.specs.Told.{told};
ghost use Rattle.file_lines.specs.Book.{file_limit};
ghost use Rattle.file_runs.specs.Promise.{ReportRefused};

use answers::Refusal;

// Why a book is refused whose report has no room: the book's refusal, for a work buffer of `work` bytes, or else 5.
pub fn refuse_short(
    counts: &[u64],
    blocks: &[u64],
    rules: &[u64],
    work: usize,
    room: usize,
) -> Refusal
    requires { room < file_limit }
    ensures { ReportRefused counts.now blocks.now rules.now work room (told result) }
{
    match book_checks::check_book(counts, blocks, rules, work) {
        Err(r) => r,
        Ok(()) => Refusal::Output(0),
    }
}
