// A rule of a book: its kind and the texts that it names.

#![tactic(auto)]

ghost use Rattle.std.specs.Prelude.{◌≡◌, ◌<◌};
ghost use Rattle.rules.specs.Rule.{rule_at, rule_count};

// The four numbers as they are lent (document 01), whether right or not: so the kind is no enum.
#[derive(Clone, Copy)]
pub struct Rule {
    pub kind: u64,
    pub a: u64,
    pub b: u64,
    pub c: u64,
}

// How many numbers a rule is.
pub const SIZE: usize = 4;

// A book has at most so many texts, blocks and rules.
pub const TEXTS: usize = 8;

pub const BLOCKS: usize = 256;

pub const RULES: usize = 16;

// The kinds: equal once trailing blanks are dropped, at most, before, equal to the letter, equal but for letter case; a
// join is the one that names three texts. They are numbers because rules are lent as numbers (document 01); what the
// code goes by is `kinds::Relation`.
pub const PADDED: u64 = 0;

pub const AT_MOST: u64 = 1;

pub const BEFORE: u64 = 2;

pub const JOIN: u64 = 3;

pub const EXACT: u64 = 4;

pub const ANY_CASE: u64 = 5;

// Rule j, from 0, of lent numbers.
pub fn rule_at(rules: &[u64], j: usize) -> Rule
    requires { j < rule_count rules.now }
    ensures { result ≡ rule_at rules.now j }
{
    let at = j * SIZE;
    Rule {
        kind: rules[at],
        a: rules[at + 1],
        b: rules[at + 2],
        c: rules[at + 3],
    }
}
