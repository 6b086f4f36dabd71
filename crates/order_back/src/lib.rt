// An order's second pass, by groups of states at which the guide says the same; and the characters that each block is
// brought.

#![tactic(auto)]

ghost use Rattle.std.specs.Prelude.{◌≡◌, ℕ, ◌+◌, ◌-◌, ◌≤◌, ◌<◌, length, take};
ghost use Rattle.sets.specs.Set.{set_of};
ghost use Rattle.shapes.specs.Lent.{shape_of};
ghost use Rattle.walks.specs.Walk.{slot_at};
ghost use Rattle.rows.specs.Row.{row_in};
ghost use Rattle.order_guides.specs.Guide.{next_of, guide_of, Steady};
ghost use Rattle.order_rows.specs.Rows.{MatchRows, Right};
ghost use Rattle.order_forth.specs.Forth.{Forth};
ghost use Rattle.shapes.specs.Shape.{block_count};
ghost use Rattle.order_back.specs.Back.{Ready, ReadyOut, SortedBy, Handed, Group, Gathers};

use order_guides::Bound;
use order_states::{Gathered, LaidShape, Sorts};
use rows::LaidBlock;
use sets::Set;

// The positions of a shape, sorted by the next characters and those that part; past all blocks, by whether a text may
// end.
fn sorted(shape: LaidShape, same: Set, apart: Set, may: bool) -> Sorts
    requires { (length shape.layout.now ≤ block_count shape.lent.now) × (shape.end < 256) }
    ensures { SortedBy shape.entry.lent.now shape.entry.layout.now shape.entry.end (set_of same) (set_of apart) may result }
{
    let parts = row_steps::matching(apart, shape.lent, shape.layout);
    Sorts {
        same: row_steps::matching(same, shape.lent, shape.layout),
        apart: parts,
        over: row_steps::with(parts, sets::single(shape.end), may),
    }
}

// Gives characters to the blocks in which there are some positions.
fn give_some(row: Set, base: Set, layout: &[LaidBlock], chars: &mut [Set])
    requires { length layout.now ≤ length chars.old }
    ensures { Handed layout.now (set_of row) (set_of base) chars.old chars.new }
{
    if !sets::is_empty(row) {
        row_steps::give(row, base, layout, chars);
    }
}

// The states from lo on, before hi, at all of which the guide says the same, and the characters that they bring.
fn group(
    bound: Bound,
    shape: LaidShape,
    rows: &[Set],
    lo: usize,
    hi: usize,
    clear: Set,
    chars: &mut [Set],
) -> Gathered
    requires ready { ReadyOut shape.lent.now shape.layout.now shape.runs shape.spans.now shape.end bound.text.now rows.now chars.old }
    requires lo_lt_hi { (lo < hi) × (hi ≤ 251) }
    requires cases { MatchRows (slot_at (shape_of shape.lent.now)) (next_of bound.text.now) rows.now (hi - 1) }
    requires steady { Steady (guide_of bound.direction bound.strict bound.text.now) lo hi }
    requires right { Right (slot_at (shape_of shape.lent.now)) (guide_of bound.direction bound.strict bound.text.now) shape.end hi (set_of clear) }
    ensures { Group (slot_at (shape_of shape.entry.lent.now)) (guide_of bound.entry.direction bound.entry.strict bound.entry.text.now) shape.entry.end shape.entry.layout.now lo hi chars.old chars.new result }
{
    let q = hi - 1;
    let same = order_guides::same_at(bound.text, q);
    let apart = order_guides::apart_at(bound, q);
    let s = sorted(shape, same, apart, order_guides::may_end(bound, q));
    let g = order_states::states(shape, rows, s, lo, hi, clear);
    give_some(g.moved, same, shape.layout, chars);
    give_some(g.parted, apart, shape.layout, chars);
    g
}

// The state past all that are reached, given the last row, of a text of m characters.
fn top(m: usize, n: usize) -> usize
    requires { (n ≤ m) × (m ≤ 250) }
    ensures upper_bound { (result ≤ m + 1) × (result ≤ n + 1) }
    ensures value { (n < m → result ≡ n) × (m ≤ n → result ≡ m + 1) }
{
    if n < m { n } else { m + 1 }
}

// All states, by groups at which the guide says the same; the characters of each block go to `chars`, which is blank.
fn gather_laid(
    bound: Bound,
    shape: LaidShape,
    rows: &[Set],
    n: usize,
    chars: &mut [Set],
) -> Gathered
    requires ready { ReadyOut shape.lent.now shape.layout.now shape.runs shape.spans.now shape.end bound.text.now rows.now chars.old }
    requires forth { Forth shape.lent.now bound.text.now rows.now n }
    requires by_index { (j : ℕ) → j < length shape.layout.now → row_in chars.old j ≡ 0 }
    ensures gathers { Gathers (slot_at (shape_of shape.entry.lent.now)) (guide_of bound.entry.direction bound.entry.strict bound.entry.text.now) shape.entry.end shape.entry.layout.now chars.new result }
    ensures chars_len_unchanged { length chars.new ≡ length chars.old }
{
    let mut g = order_states::nothing(sets::none());
    let mut hi = top(bound.text.len(), n);
    // A group may have many states, so hi goes down by as many at a time.
    while 0 < hi {
        let lo = order_guides::steady_from(bound, hi);
        let earlier = group(bound, shape, rows, lo, hi, g.clear, chars);
        g = order_states::joined(g, earlier);
        hi = lo;
    }
    g
}

// The same where the layout has room for more blocks.
pub fn gather(bound: Bound, shape: LaidShape, rows: &[Set], n: usize, chars: &mut [Set]) -> Gathered
    requires ready { Ready shape.lent.now shape.layout.now shape.runs shape.spans.now shape.end bound.text.now rows.now chars.old }
    requires forth { Forth shape.lent.now bound.text.now rows.now n }
    requires by_index { (j : ℕ) → j < block_count shape.lent.now → row_in chars.old j ≡ 0 }
    ensures gathers { Gathers (slot_at (shape_of shape.entry.lent.now)) (guide_of bound.entry.direction bound.entry.strict bound.entry.text.now) shape.entry.end (take (block_count shape.entry.lent.now) shape.entry.layout.now) chars.new result }
    ensures chars_len_unchanged { length chars.new ≡ length chars.old }
{
    let layout = &shape.layout[..shape.lent.len() / shapes::SIZE];
    gather_laid(bound, LaidShape { layout, ..shape }, rows, n, chars)
}
