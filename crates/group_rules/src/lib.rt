// The rules of one group, copied in book order.

#![tactic(auto)]

ghost use Rattle.std.specs.Prelude.{◌*◌, ◌≤◌, length};
ghost use Rattle.rules.specs.Rule.{rule_size, rule_count};
ghost use Rattle.group_names.specs.Names.{RulesOfTexts, GroupNames};
ghost use Rattle.group_rules.specs.Own.{Owned};

// Copies the rules of the group g to `own`, in book order. How many they are. The room is lent: there is no heap.
pub fn own_rules(rules: &[u64], names: &[u64; rules::TEXTS], g: u64, own: &mut [u64]) -> usize
    requires rules_of_texts { RulesOfTexts rules.now }
    requires group_names { GroupNames rules.now names.now }
    requires rule_size_in_bounds { rule_count rules.now * rule_size ≤ length own.old }
    ensures { Owned rules.now g (rule_count rules.now) result own.old own.new }
{
    let mut m = 0;
    for j in 0..rules.len() / rules::SIZE {
        let rule = rules::rule_at(rules, j);
        if names[(rule.a - 1) as usize] == g {
            let from = j * rules::SIZE;
            let to = m * rules::SIZE;
            own[to..to + rules::SIZE].copy_from_slice(&rules[from..from + rules::SIZE]);
            m += 1;
        }
    }
    m
}
