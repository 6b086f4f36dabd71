// The names of a book's groups: the name of text k, from 1, is at k - 1.

#![tactic(auto)]

ghost use Rattle.std.specs.Prelude.{◌≡◌, ℕ, ◌≤◌, length};
ghost use Rattle.rules.specs.Limits.{most_texts};
ghost use Rattle.group_names.specs.Names.{TextNumber, RulesOfTexts, TextNumbers, FirstNames, Renamed, OneName, RuleLinked, GroupNames};

use rules::Rule;

// Each text is a group of its own.
fn first_names() -> [u64; rules::TEXTS]
    ensures { FirstNames result }
{
    std::array::from_fn(|i| i as u64 + 1)
}

// Gives every text named `from` the name `to`.
fn rename(names: &mut [u64; rules::TEXTS], from: u64, to: u64)
    requires { length names.old ≡ most_texts }
    ensures { Renamed from to names.old names.new }
{
    for name in names.iter_mut() {
        if *name == from {
            *name = to;
        }
    }
}

// Gives the groups of the texts a and b one name, the lower of the two.
fn link(names: &mut [u64; rules::TEXTS], a: u64, b: u64)
    requires names_len { length names.old ≡ most_texts }
    requires text_number { TextNumber a }
    requires text_number_2 { TextNumber b }
    ensures { OneName a b names.old names.new }
{
    let one = names[(a - 1) as usize];
    let other = names[(b - 1) as usize];
    rename(names, one.max(other), one.min(other));
}

// Links the texts of a rule, in a join all three.
fn link_rule(names: &mut [u64; rules::TEXTS], rule: Rule)
    requires names_len { length names.old ≡ most_texts }
    requires text_numbers { TextNumbers rule }
    ensures { RuleLinked rule names.old names.new }
{
    link(names, rule.a, rule.b);
    if rule.kind == rules::JOIN {
        link(names, rule.a, rule.c);
    }
}

// The names of the groups that some rules make of at most eight texts.
pub fn group_names(rules: &[u64]) -> [u64; rules::TEXTS]
    requires { RulesOfTexts rules.now }
    ensures { GroupNames rules.now result }
{
    let mut names = first_names();
    for j in 0..rules.len() / rules::SIZE {
        link_rule(&mut names, rules::rule_at(rules, j));
    }
    names
}
