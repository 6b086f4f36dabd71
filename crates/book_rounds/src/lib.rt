// Rules applied in their order, round after round, until one says none or a round changes nothing.

#![tactic(auto)]

ghost use Rattle.std.specs.Prelude.{◌<◌};
ghost use Rattle.rules.specs.Rule.{rule_count};
ghost use Rattle.book_steps.specs.Step.{Running, AppliedSays};
ghost use Rattle.book_runs.specs.Runner.{EndedSays, RunLeft};

use answers::Ended;
use book_steps::Applied;
use kinds::Relation;

// Applies rule j to the numbers so far.
fn apply_rule(counts: &[u64], numbers: &mut [u64], rules: &[u64], j: usize) -> Applied
    requires running { Running counts.now numbers.old rules.now }
    requires j_bound { j < rule_count rules.now }
    ensures { AppliedSays counts.now rules.now j numbers.old numbers.new result }
{
    let rule = rules::rule_at(rules, j);
    match Relation::of(rule.kind) {
        Some(relation) => two_rules::apply_two(counts, numbers, rule, relation),
        None => join_rules::apply_three(counts, numbers, rule),
    }
}

// The rounds, from the entered numbers.
fn run_rounds(counts: &[u64], numbers: &mut [u64], rules: &[u64]) -> Ended
    requires { Running counts.now numbers.old rules.now }
    ensures { EndedSays counts.now rules.now numbers.old numbers.new result }
{
    let mut made = 0;
    loop {
        let mut changed = false;
        for j in 0..rules.len() / rules::SIZE {
            made += 1;
            match apply_rule(counts, numbers, rules, j) {
                Applied::None => return Ended::None(made),
                Applied::Same => {}
                Applied::Changed => changed = true,
            }
        }
        if !changed {
            return Ended::Stable(made);
        }
    }
}

// The run of an accepted book's rules, or of some of them: the final shapes are left in the blocks, or it is none, and
// then the blocks are as on entry.
pub fn run_accepted(counts: &[u64], blocks: &mut [u64], rules: &[u64]) -> Ended
    requires { Running counts.now blocks.old rules.now }
    ensures { RunLeft counts.now rules.now blocks.old blocks.new result }
{
    let mut copy = [0u64; rules::BLOCKS * shapes::SIZE];
    let numbers = &mut copy[..blocks.len()];
    numbers.copy_from_slice(blocks);
    let ended = run_rounds(counts, numbers, rules);
    if let Ended::Stable(_) = ended {
        blocks.copy_from_slice(numbers);
    }
    ended
}
