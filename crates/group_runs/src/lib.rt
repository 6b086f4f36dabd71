// The run of a book, group by group.

#![tactic(auto)]

ghost use Rattle.std.specs.Prelude.{◌≡◌, ◌+◌, ◌≤◌, ◌<◌, length};
ghost use Rattle.rules.specs.Limits.{most_texts};
ghost use Rattle.book_steps.specs.Step.{Running};
ghost use Rattle.groups.specs.Ends.{no_text_ran, RowRan};
ghost use Rattle.group_names.specs.Names.{GroupNames};
ghost use Rattle.group_runs.specs.Turn.{GroupEnded, Turn};

use answers::{Ended, TextRan};

// The record of no text.
pub fn no_text() -> TextRan
    ensures { result ≡ no_text_ran }
{
    TextRan {
        group: 0,
        ended: Ended::Stable(0),
    }
}

// Runs the group g with its own rules alone. A text in no rule needs no run.
fn run_group(
    counts: &[u64],
    blocks: &mut [u64],
    rules: &[u64],
    names: &[u64; rules::TEXTS],
    g: u64,
) -> Ended
    requires running { Running counts.now blocks.old rules.now }
    requires group_names { GroupNames rules.now names.now }
    ensures { GroupEnded counts.now rules.now g blocks.old blocks.new result }
{
    let mut own = [0u64; rules::RULES * rules::SIZE];
    let m = group_rules::own_rules(rules, names, g, &mut own);
    if m == 0 {
        return Ended::Stable(0);
    }
    book_rounds::run_accepted(counts, blocks, &own[..m * rules::SIZE])
}

// The turn of the text whose place is k: its group is run if this text names it; else its record is that of the text
// that does, which came before.
fn turn(
    counts: &[u64],
    blocks: &mut [u64],
    rules: &[u64],
    names: &[u64; rules::TEXTS],
    texts: &[TextRan; rules::TEXTS],
    k: usize,
) -> TextRan
    requires running { Running counts.now blocks.old rules.now }
    requires group_names { GroupNames rules.now names.now }
    requires k_lt_most_texts { k < most_texts }
    ensures { Turn counts.now rules.now names.now k blocks.old blocks.new texts.now result }
{
    let name = names[k];
    if name == k as u64 + 1 {
        let ended = run_group(counts, blocks, rules, names, name);
        return TextRan { group: name, ended };
    }
    texts[(name - 1) as usize]
}

// Runs an accepted book, group after group: a record for each text, and up to eight of no text. The final shapes of the
// stable groups are left in the blocks; the texts of the others are as on entry.
pub fn run_groups(counts: &[u64], blocks: &mut [u64], rules: &[u64]) -> [TextRan; rules::TEXTS]
    requires { Running counts.now blocks.old rules.now }
    ensures { RowRan counts.now blocks.old rules.now blocks.new result }
{
    let names = group_names::group_names(rules);
    let mut texts = [no_text(); rules::TEXTS];
    for k in 0..counts.len() {
        texts[k] = turn(counts, blocks, rules, &names, &texts, k);
    }
    texts
}
