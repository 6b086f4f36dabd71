// Which lent numbers are a book of rules, and why others are refused: the counts, the texts, the rules, the work
// buffer.

#![tactic(auto)]

ghost use Rattle.std.specs.Prelude.{◌≡◌};
ghost use Rattle.plain.specs.Tells.{Tells};
ghost use Rattle.shapes.specs.Lent.{shape_of};
ghost use Rattle.shapes.specs.Shape.{total};
ghost use Rattle.books.specs.Counts.{shape_in};
ghost use Rattle.books.specs.Rules.{Names, RightRule, Joinable};
ghost use Rattle.books.specs.Refused.{BookChecked};
ghost use Rattle.books.specs.Code.{KnownTexts, RuleChecked, RulesChecked};

use answers::Refusal;
use rules::Rule;

// The uppers of text k, added.
fn upper_of(counts: &[u64], blocks: &[u64], k: usize) -> u64
    requires known_texts { KnownTexts counts.now blocks.now }
    requires names { Names counts.now k }
    ensures { result ≡ total (shape_in counts.now (shape_of blocks.now) k) }
{
    shapes::total_upper(books::text(counts, blocks, k))
}

// Whether a right rule, if it is a join, joins texts that are short enough. Each is of at most 250, so the sum fits.
fn short_join(counts: &[u64], blocks: &[u64], rule: Rule) -> bool
    requires known_texts { KnownTexts counts.now blocks.now }
    requires right_rule { RightRule counts.now rule }
    ensures { Tells result (Joinable counts.now (shape_of blocks.now) rule) }
{
    rule.kind != rules::JOIN
        || upper_of(counts, blocks, rule.b as usize) + upper_of(counts, blocks, rule.c as usize)
            <= 250
}

// The refusals of rule number `place`: 7, then 12.
fn check_rule(counts: &[u64], blocks: &[u64], rule: Rule, place: u64) -> Result<(), Refusal>
    requires { KnownTexts counts.now blocks.now }
    ensures { RuleChecked counts.now (shape_of blocks.now) place rule result }
{
    if !book_rules::right_rule(counts, rule) {
        return Err(Refusal::Rule(place));
    }
    if !short_join(counts, blocks, rule) {
        return Err(Refusal::Join(place));
    }
    Ok(())
}

// The same, rule by rule.
fn check_rules(counts: &[u64], blocks: &[u64], rules: &[u64]) -> Result<(), Refusal>
    requires { KnownTexts counts.now blocks.now }
    ensures { RulesChecked counts.now (shape_of blocks.now) rules.now result }
{
    for j in 0..rules.len() / rules::SIZE {
        check_rule(counts, blocks, rules::rule_at(rules, j), j as u64 + 1)?;
    }
    Ok(())
}

// Whether a book is accepted, for a work buffer of `room` bytes: refusals 6, those of the texts, those of the rules,
// and 4, in this order.
pub fn check_book(counts: &[u64], blocks: &[u64], rules: &[u64], room: usize) -> Result<(), Refusal>
    ensures { BookChecked counts.now blocks.now rules.now room result }
{
    if !book_texts::right_counts(counts, blocks, rules) {
        return Err(Refusal::Counts);
    }
    book_texts::check_texts(counts, blocks)?;
    check_rules(counts, blocks, rules)?;
    if room < 63001 {
        return Err(Refusal::Work);
    }
    Ok(())
}
