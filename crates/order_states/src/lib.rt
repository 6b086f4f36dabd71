// The states of an order's second pass, from the last to the first: where texts on the right side end a run early, take
// a character, or part from the fixed text.

#![tactic(auto)]

ghost use Rattle.std.specs.Prelude.{◌≡◌, ◌≤◌, length};
ghost use Rattle.sets.specs.Set.{set_of};
ghost use Rattle.rows.specs.Row.{zone_in, end_in};
ghost use Rattle.rows.specs.Steps.{InTurn, Together};
ghost use Rattle.carries.specs.Climb.{Spans};
ghost use Rattle.order_states.specs.States.{Joins, OneState, States};

use row_steps::Runs;
use rows::LaidBlock;
use sets::Set;

// A lent shape laid out: where its runs may end, the spans of those positions, and the position past all its blocks.
#[derive(Clone, Copy)]
pub struct LaidShape<'a> {
    pub lent: &'a [u64],
    pub layout: &'a [LaidBlock],
    pub runs: Runs,
    pub spans: &'a [Set],
    pub end: usize,
}

// Positions by what their base is to the guide at a state: it holds the next character, or one that parts from it, or
// all is read or it does.
#[derive(Clone, Copy)]
pub struct Sorts {
    pub same: Set,
    pub apart: Set,
    pub over: Set,
}

// Positions from which some rest is on the right side at the first of some states; and where, at any of them, a run
// ends early, the next character is taken, and a text parts.
#[derive(Clone, Copy)]
pub struct Gathered {
    pub clear: Set,
    pub quit: Set,
    pub moved: Set,
    pub parted: Set,
}

// No state yet, before those that the rests are of.
pub fn nothing(clear: Set) -> Gathered
    ensures { (set_of result.clear ≡ set_of clear) × (set_of result.quit ≡ 0) × (set_of result.moved ≡ 0) × (set_of result.parted ≡ 0) }
{
    Gathered {
        clear,
        quit: sets::none(),
        moved: sets::none(),
        parted: sets::none(),
    }
}

// Later states, and earlier ones before them.
pub fn joined(later: Gathered, earlier: Gathered) -> Gathered
    ensures { Joins later earlier result }
{
    Gathered {
        clear: earlier.clear,
        quit: sets::either(later.quit, earlier.quit),
        moved: sets::either(later.moved, earlier.moved),
        parted: sets::either(later.parted, earlier.parted),
    }
}

// One state: the row of positions reached, and the positions from which some rest is on the right side at the next
// state.
fn one_state(shape: LaidShape, s: Sorts, row: Set, clear: Set) -> Gathered
    requires in_turn { InTurn (zone_in shape.layout.now) (end_in shape.layout.now) (length shape.layout.now) }
    requires together { Together (zone_in shape.layout.now) (end_in shape.layout.now) (length shape.layout.now) (set_of shape.runs.free) (set_of shape.runs.stops) × Spans (set_of shape.runs.free) shape.spans.now }
    ensures { OneState (zone_in shape.entry.layout.now) (end_in shape.entry.layout.now) (length shape.entry.layout.now) s (set_of row) (set_of clear) result }
{
    let stay = sets::both(sets::down(clear), s.same);
    let c = row_steps::back_by(
        shape.layout,
        shape.spans,
        shape.runs,
        sets::either(s.over, stay),
    );
    Gathered {
        clear: c.row,
        quit: sets::both(row, c.quit),
        moved: sets::both(row, stay),
        parted: sets::both(row, s.apart),
    }
}

// The states from lo on, before hi, at all of which positions sort alike.
pub fn states(
    shape: LaidShape,
    rows: &[Set],
    s: Sorts,
    lo: usize,
    hi: usize,
    clear: Set,
) -> Gathered
    requires in_turn { InTurn (zone_in shape.layout.now) (end_in shape.layout.now) (length shape.layout.now) }
    requires together { Together (zone_in shape.layout.now) (end_in shape.layout.now) (length shape.layout.now) (set_of shape.runs.free) (set_of shape.runs.stops) × Spans (set_of shape.runs.free) shape.spans.now }
    requires lo_le_hi { (lo ≤ hi) × (hi ≤ length rows.now) }
    ensures { States (zone_in shape.entry.layout.now) (end_in shape.entry.layout.now) (length shape.entry.layout.now) rows.now s lo hi (set_of clear) result }
{
    let mut g = nothing(clear);
    for q in (lo..hi).rev() {
        g = joined(g, one_state(shape, s, rows[q], g.clear));
    }
    g
}
