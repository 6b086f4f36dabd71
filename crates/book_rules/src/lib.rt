// Whether a rule of a book is right. The numbers may be any.

#![tactic(auto)]

ghost use Rattle.plain.specs.Tells.{Tells};
ghost use Rattle.books.specs.Rules.{Names, RightFourth, RightRule};

use rules::Rule;

// Whether k is a text's number.
pub fn names(counts: &[u64], k: u64) -> bool
    ensures { Tells result (Names counts.now k) }
{
    1 <= k && k <= counts.len() as u64
}

// Whether a rule's fourth number is right: in a join a third text, else 0.
fn right_fourth(counts: &[u64], rule: Rule) -> bool
    ensures { Tells result (RightFourth counts.now rule) }
{
    if rule.kind != rules::JOIN {
        return rule.c == 0;
    }
    names(counts, rule.c) && rule.a != rule.c && rule.b != rule.c
}

// Whether a rule is right. The numbers may be any.
pub fn right_rule(counts: &[u64], rule: Rule) -> bool
    ensures { Tells result (RightRule counts.now rule) }
{
    rule.kind <= rules::ANY_CASE
        && names(counts, rule.a)
        && names(counts, rule.b)
        && rule.a != rule.b
        && right_fourth(counts, rule)
}
