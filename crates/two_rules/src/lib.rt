// A rule of two texts: they are narrowed, and what comes of them is laid back over the numbers of all.

#![tactic(auto)]

ghost use Rattle.std.specs.Prelude.{◌≡◌, ◌≤◌, ◌*◌, length};
ghost use Rattle.texts.specs.Kind.{relation_of};
ghost use Rattle.kinds.specs.Relation.{kind_of};
ghost use Rattle.pairs.specs.Narrow.{NarrowAnswer};
ghost use Rattle.books.specs.Rules.{RightRule};
ghost use Rattle.books.specs.Code.{numbers_in};
ghost use Rattle.book_steps.specs.Step.{Texts, RuleApplied};
ghost use Rattle.shapes.specs.Shape.{most_blocks, block_size};

use book_steps::Applied;
use kinds::Relation;
use rules::Rule;

// Narrows the two texts of a rule that asks for a relation, into the first numbers of x and y.
fn narrow_two(
    counts: &[u64],
    numbers: &[u64],
    rule: Rule,
    relation: Relation,
    x: &mut [u64],
    y: &mut [u64],
) -> bool
    requires texts { Texts counts.now numbers.now }
    requires right_rule { RightRule counts.now rule }
    requires kind { kind_of relation ≡ rule.kind }
    requires block_size_in_bounds { most_blocks * block_size ≤ length x.old }
    requires block_size_in_bounds_2 { most_blocks * block_size ≤ length y.old }
    ensures { NarrowAnswer (relation_of rule.kind) (numbers_in counts.now numbers.now rule.a)
        (numbers_in counts.now numbers.now rule.b) x.old y.old x.new y.new result }
{
    kinds::narrow_accepted(
        relation,
        books::text(counts, numbers, rule.a as usize),
        books::text(counts, numbers, rule.b as usize),
        x,
        y,
    )
}

// Applies a rule that asks for a relation, that is, no join.
pub fn apply_two(counts: &[u64], numbers: &mut [u64], rule: Rule, relation: Relation) -> Applied
    requires texts { Texts counts.now numbers.old }
    requires right_rule { RightRule counts.now rule }
    requires kind { kind_of relation ≡ rule.kind }
    ensures { RuleApplied counts.now rule numbers.old numbers.new result }
{
    let mut x = [0u64; shapes::MOST * shapes::SIZE];
    let mut y = [0u64; shapes::MOST * shapes::SIZE];
    if !narrow_two(counts, numbers, rule, relation, &mut x, &mut y) {
        return Applied::None;
    }
    let first = book_steps::lay_text(counts, numbers, rule.a, &x, true);
    if book_steps::lay_text(counts, numbers, rule.b, &y, first) {
        return Applied::Same;
    }
    Applied::Changed
}
