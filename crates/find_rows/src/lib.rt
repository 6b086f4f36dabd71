// One character of a base more: for each state of the search the row of the lengths of the texts that lack the mark so
// far, from the rows before it.

#![tactic(auto)]

ghost use Rattle.std.specs.Prelude.{◌≡◌, true, List, ◌⊎◌, ℕ, ◌+◌, ◌≤◌, ◌<◌, length};
ghost use Rattle.bases.specs.Base.{Holds};
ghost use Rattle.sets.specs.Set.{set_of, Exactly};
ghost use Rattle.rows.specs.Row.{row_in};
ghost use Rattle.fit_rows.specs.Rows.{Picked};
ghost use Rattle.find_borders.specs.Borders.{ShortMark};
ghost use Rattle.find_ways.specs.Ways.{FallWords, WaysOf};
ghost use Rattle.find_rows.specs.Says.{LiveIn, Arrived, Moved, Underway};

use find_borders::add_if;
use find_ways::{Mark, Ways};
use sets::Set;

// The numbers of the rows that w has.
fn gather(rows: &[Set; 64], w: u64) -> Set
    ensures { Exactly (set_of result) (Picked (row_in rows.now) w) }
{
    fit_tables::gather(w, sets::none(), |e| rows[e])
}

// The lengths that one character leads to, with t matched. The rows from t on are as before that character, and `last`
// is the one before them as it was.
pub fn arrive(mark: Mark, ways: Ways, rows: &[Set; 64], live: u64, last: Set, t: usize) -> Set
    requires short_mark { ShortMark mark.text.now × (t ≤ length mark.text.now) }
    requires fall_words { FallWords mark.text.now (length mark.text.now) mark.falls.now × WaysOf mark.text.now ways }
    ensures { (was : List Set) → Underway was rows.now t (set_of last) → Exactly live (LiveIn mark.entry.text.now was)
        → Exactly (set_of result) (Arrived mark.entry.text.now (set_of ways.base) was t) }
{
    if t == 0 {
        return sets::up(gather(rows, ways.resets & live));
    }
    if (ways.allowed >> (t - 1)) % 2 != 1 {
        return sets::none();
    }
    sets::up(sets::either(last, gather(rows, mark.falls[t - 1] & live)))
}

// The lengths that come, and where the run may end those that were here.
fn stay(keep: bool, here: Set, come: Set) -> Set
    ensures { Exactly (set_of result) (λ k. Holds (set_of come) k ⊎ ((keep ≡ true) × Holds (set_of here) k)) }
{
    if keep { sets::either(come, here) } else { come }
}

// The state from which on no row has a length after one more character.
fn reach(live: u64, m: usize) -> usize
    ensures { (result ≤ m) × ((t q : ℕ) → result ≤ t → t < m → Holds live q → q + 1 < t) }
{
    if live == 0 {
        return 0;
    }
    m.min(sets::highest(live) + 2)
}

// One character more, in place, and where the run may end none: the states that are live then.
pub fn step(mark: Mark, ways: Ways, rows: &mut [Set; 64], live: u64, keep: bool) -> u64
    requires short_mark { ShortMark mark.text.now × Exactly live (LiveIn mark.text.now rows.old) }
    requires fall_words { FallWords mark.text.now (length mark.text.now) mark.falls.now × WaysOf mark.text.now ways }
    ensures moved { Moved mark.entry.text.now (set_of ways.base) keep rows.old rows.new }
    ensures exactly { Exactly result (LiveIn mark.entry.text.now rows.new) }
{
    let end = reach(live, mark.text.len());
    let mut last = sets::none();
    let mut next = 0;
    for t in 0..end {
        let here = rows[t];
        let row = stay(keep, here, arrive(mark, ways, rows, live, last, t));
        rows[t] = row;
        next = add_if(next, t, !sets::is_empty(row));
        last = here;
    }
    next
}
