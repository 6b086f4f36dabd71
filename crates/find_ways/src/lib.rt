// Which character leads from which state of the search to which: words with a bit for each state. A state is how many
// characters of the mark are matched.

#![tactic(auto)]

ghost use Rattle.std.specs.Prelude.{◌≡◌, ◌<◌, length, get_or};
ghost use Rattle.bases.specs.Base.{Holds, Greatest};
ghost use Rattle.plain.specs.Tells.{Tells};
ghost use Rattle.sets.specs.Set.{set_of, Exactly};
ghost use Rattle.find_borders.specs.Borders.{ShortMark, SameAt, Sames, Border, Borders};
ghost use Rattle.find_ways.specs.Ways.{FallAt, FallWords, GreatestBelow, Continued, ContinuedRows, Outside, Resets, Allowed, WaysOf};

use find_borders::{add_if, numbers};
use sets::Set;

// A mark as it is sought: its characters, for each the states that it leads back, and for each state the characters
// that lead from it to a state above 0. There is no allocator: words and rows have room for 64 characters, and the
// text's length tells how many are set.
#[derive(Clone, Copy)]
pub struct Mark<'a> {
    pub text: &'a [u8],
    pub falls: &'a [u64; 64],
    pub seen: &'a [Set; 64],
}

// The ways that the characters of one base make: the states from which one leads to state 0, and the characters of the
// mark that are among them.
#[derive(Clone, Copy)]
pub struct Ways {
    pub base: Set,
    pub resets: u64,
    pub allowed: u64,
}

// Whether r is the greatest number of w.
fn tops(w: u64, r: usize) -> bool
    requires { r < 64 }
    ensures { Tells result (Greatest w r) }
{
    w >> r == 1
}

// The states above r that character r of the mark leads back to state r + 1. Those up to r are not looked at, which is
// half of a long mark's work, so that this is no `numbers`.
fn falls_at(mark: &[u8], borders: &[u64; 64], same: u64, r: usize) -> u64
    requires short_mark { ShortMark mark.now × (r < length mark.now) }
    requires borders { Borders mark.now (length mark.now) borders.now × Exactly same (SameAt mark.now (get_or mark.now r 0)) }
    ensures { Exactly result (FallAt mark.now r) }
{
    let mut w = 0;
    for q in r + 1..mark.len() {
        w = add_if(w, q, tops(borders[q] & same, r));
    }
    w
}

// For each character of the mark, the states that it leads back; in the words that tell where the mark has it.
fn lay_falls(mark: &[u8], borders: &[u64; 64], words: &mut [u64; 64])
    requires short_mark { ShortMark mark.now × (length words.old ≡ 64) }
    requires borders { Borders mark.now (length mark.now) borders.now × Sames mark.now (length mark.now) words.old }
    ensures { FallWords mark.now (length mark.now) words.new }
{
    for r in 0..mark.len() {
        words[r] = falls_at(mark, borders, words[r], r);
    }
}

// The greatest number of w below q.
fn greatest_below(w: u64, q: usize) -> usize
    requires { (0 < q) × (q < 64) × Holds w 0 }
    ensures { GreatestBelow w q result }
{
    sets::highest(w & (1u64 << q) - 1)
}

// The characters that lead from state q to a state above 0: the mark's next one, and those that lead on from the
// longest shorter start that it ends with.
fn seen_at(mark: &[u8], border: u64, seen: &[Set; 64], q: usize) -> Set
    requires short_mark { ShortMark mark.now × (q < length mark.now) }
    requires exactly { Exactly border (Border mark.now q) × ContinuedRows mark.now q seen.now }
    ensures { Exactly (set_of result) (Continued mark.now q) }
{
    let own = sets::single(mark[q] as usize);
    if q == 0 {
        return own;
    }
    sets::either(own, seen[greatest_below(border, q)])
}

// For each state, the characters that lead from it to a state above 0.
fn lay_seen(mark: &[u8], borders: &[u64; 64], seen: &mut [Set; 64])
    requires short_mark { ShortMark mark.now }
    requires borders { Borders mark.now (length mark.now) borders.now }
    ensures { ContinuedRows mark.now (length mark.now) seen.new }
{
    for q in 0..mark.len() {
        seen[q] = seen_at(mark, borders[q], seen, q);
    }
}

// All ways of a mark that no base has a part in.
pub fn lay(mark: &[u8], falls: &mut [u64; 64], seen: &mut [Set; 64])
    requires { ShortMark mark.now × (length falls.old ≡ 64) }
    ensures fall_words { FallWords mark.now (length mark.now) falls.new }
    ensures continued_rows { ContinuedRows mark.now (length mark.now) seen.new }
{
    let mut borders = [0u64; 64];
    find_borders::lay_sames(mark, falls);
    find_borders::lay_borders(mark, falls, &mut borders);
    lay_falls(mark, &borders, falls);
    lay_seen(mark, &borders, seen);
}

// Whether the base has a character that the set has not.
fn leaves(base: Set, s: Set) -> bool
    ensures { Tells result (Outside (set_of base) (set_of s)) }
{
    !sets::is_empty(sets::without(base, s))
}

// The states from which some character of the base leads to state 0.
fn resets(mark: &[u8], seen: &[Set; 64], base: Set) -> u64
    requires short_mark { ShortMark mark.now }
    requires continued_rows { ContinuedRows mark.now (length mark.now) seen.now }
    ensures { Resets mark.now (set_of base) result }
{
    numbers(mark.len(), |q| leaves(base, seen[q]))
}

// The characters of the mark, by their numbers, that the base has.
fn allowed(mark: &[u8], base: Set) -> u64
    requires { ShortMark mark.now }
    ensures { Allowed mark.now (set_of base) result }
{
    numbers(mark.len(), |r| sets::holds(base, mark[r]))
}

// The ways that a base makes.
pub fn of_base(mark: Mark, base: Set) -> Ways
    requires short_mark { ShortMark mark.text.now }
    requires continued_rows { ContinuedRows mark.text.now (length mark.text.now) mark.seen.now }
    ensures { WaysOf mark.entry.text.now result × (set_of result.base ≡ set_of base) }
{
    Ways {
        base,
        resets: resets(mark.text, mark.seen, base),
        allowed: allowed(mark.text, base),
    }
}
