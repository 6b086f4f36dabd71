// A join: its three texts are narrowed, and what comes of them is laid back over the numbers of all.

#![tactic(auto)]

ghost use Rattle.std.specs.Prelude.{◌≡◌, ◌≤◌, ◌*◌, length};
ghost use Rattle.texts.specs.Kind.{join_kind};
ghost use Rattle.shapes.specs.Lent.{shape_of};
ghost use Rattle.joins.specs.Join.{JoinAnswer};
ghost use Rattle.books.specs.Refused.{SoundRule};
ghost use Rattle.books.specs.Code.{numbers_in};
ghost use Rattle.book_steps.specs.Step.{Texts, RuleApplied};
ghost use Rattle.shapes.specs.Shape.{most_blocks, block_size};

use book_steps::Applied;
use rules::Rule;

// Narrows the three texts of a join, into the first numbers of x, y and z.
fn narrow_three(
    counts: &[u64],
    numbers: &[u64],
    rule: Rule,
    x: &mut [u64],
    y: &mut [u64],
    z: &mut [u64],
) -> bool
    requires texts { Texts counts.now numbers.now }
    requires sound_rule { SoundRule counts.now (shape_of numbers.now) rule }
    requires kind_value { rule.kind ≡ join_kind }
    requires block_size_in_bounds { (most_blocks * block_size ≤ length x.old) × (most_blocks * block_size ≤ length y.old) × (most_blocks * block_size ≤ length z.old) }
    ensures { JoinAnswer (numbers_in counts.now numbers.now rule.a) (numbers_in counts.now numbers.now rule.b)
        (numbers_in counts.now numbers.now rule.c) x.old y.old z.old x.new y.new z.new result }
{
    joins::narrow_accepted(
        books::text(counts, numbers, rule.a as usize),
        books::text(counts, numbers, rule.b as usize),
        books::text(counts, numbers, rule.c as usize),
        x,
        y,
        z,
    )
}

// Applies a join. No twin of `two_rules::apply_two`: it narrows by another promise, `JoinAnswer`, over three texts.
pub fn apply_three(counts: &[u64], numbers: &mut [u64], rule: Rule) -> Applied
    requires texts { Texts counts.now numbers.old }
    requires sound_rule { SoundRule counts.now (shape_of numbers.old) rule }
    requires kind_value { rule.kind ≡ join_kind }
    ensures { RuleApplied counts.now rule numbers.old numbers.new result }
{
    let mut x = [0u64; shapes::MOST * shapes::SIZE];
    let mut y = [0u64; shapes::MOST * shapes::SIZE];
    let mut z = [0u64; shapes::MOST * shapes::SIZE];
    if !narrow_three(counts, numbers, rule, &mut x, &mut y, &mut z) {
        return Applied::None;
    }
    let first = book_steps::lay_text(counts, numbers, rule.a, &x, true);
    let second = book_steps::lay_text(counts, numbers, rule.b, &y, first);
    if book_steps::lay_text(counts, numbers, rule.c, &z, second) {
        return Applied::Same;
    }
    Applied::Changed
}
