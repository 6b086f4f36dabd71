// A book checked and run.

#![tactic(auto)]

ghost use Rattle.book_calls.specs.Promise.{RunPromise};

use answers::Ran;

// Runs a book: its refusals first, then its run, group by group.
pub fn run_book(counts: &[u64], blocks: &mut [u64], rules: &[u64], work: &mut [u8]) -> Ran
    ensures { RunPromise counts.now blocks.old rules.now work.old blocks.new work.new result }
{
    match book_checks::check_book(counts, blocks, rules, work.len()) {
        Err(r) => Ran {
            checked: Err(r),
            texts: [group_runs::no_text(); rules::TEXTS],
        },
        Ok(()) => {
            pairs::clear(work);
            let texts = group_runs::run_groups(counts, blocks, rules);
            Ran {
                checked: Ok(()),
                texts,
            }
        }
    }
}
