// A book file run to its report.

#![tactic(auto)]

ghost use Rattle.std.specs.Prelude.{◌≡◌, replicate, length};
ghost use Rattle.plain.specs.All.{All};
ghost use Rattle.shapes.specs.Lent.{shape_of};
ghost use Rattle.file_lines.specs.Grammar.{RightBlock};
ghost use Rattle.file_runs.specs.Promise.{LentPromise, FilePromise, BookAnswer, WorkLeft};

use answers::Refusal;
use file_lines::Width;

// The work space of a run.
fn new_work() -> [u8; 63001]
    ensures { result ≡ replicate 63001 0 }
{
    [0; 63001]
}

// Runs the book of some numbers to its report, as wide as it came in. The final shapes are left in the blocks.
fn report_book(
    width: Width,
    counts: &[u64],
    blocks: &mut [u64],
    rules: &[u64],
    report: &mut [u8],
    work: &mut [u8],
) -> Result<usize, Refusal>
    requires { All (RightBlock width) (shape_of blocks.old) }
    ensures book_answer { BookAnswer width counts.now blocks.old rules.now (length work.old) report.old report.new result }
    ensures work_left { WorkLeft work.old work.new result }
{
    let room = report.len();
    if room < file_lines::FILE_LIMIT {
        return Err(file_runs::refuse_short(counts, blocks, rules, work.len(), room));
    }
    let ran = book_calls::run_book(counts, blocks, rules, work);
    ran.checked?;
    Ok(file_reports::write_ran(width, counts, blocks, ran.texts, report))
}

// Runs a book file, any bytes, to its report, into an output of at least 32,768 bytes, with a work buffer of at least
// 63,001; the report's length. Refused are the file (9, 8), then its book with 4 for the work buffer, then an output
// too short (5); all is then as on entry.
pub fn run_lent(file: &[u8], report: &mut [u8], work: &mut [u8]) -> Result<usize, Refusal>
    ensures { LentPromise file.now report.old work.old report.new work.new result }
{
    let mut counts = [0u64; rules::TEXTS];
    let mut blocks = [0u64; rules::BLOCKS * shapes::SIZE];
    let mut rules = [0u64; rules::RULES * rules::SIZE];
    let sizes = file_books::read_book(file, &mut counts, &mut blocks, &mut rules)?;
    report_book(
        sizes.width,
        &counts[..sizes.texts],
        &mut blocks[..sizes.blocks * shapes::SIZE],
        &rules[..sizes.rules * rules::SIZE],
        report,
        work,
    )
}

// The same with a work buffer of its own, so that 4 never comes.
pub fn run_file(file: &[u8], report: &mut [u8]) -> Result<usize, Refusal>
    ensures { FilePromise file.now report.old report.new result }
{
    let mut work = new_work();
    run_lent(file, report, &mut work)
}
