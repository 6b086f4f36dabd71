// The rows of one block from which both shapes can end.

#![tactic(auto)]

ghost use Rattle.std.specs.Prelude.{◌≡◌, ◌+◌, ◌≤◌, length};
ghost use Rattle.sets.specs.Set.{set_of};
ghost use Rattle.shapes.specs.Lent.{meant};
ghost use Rattle.rows.specs.Row.{zone_in, end_in, table_size};
ghost use Rattle.rows.specs.Steps.{InTurn, Together};
ghost use Rattle.carries.specs.Climb.{Spans};
ghost use Rattle.common_blocks.specs.Rows.{WheneverRoomy, BlockKept, RowsAfter};

use row_steps::Runs;
use rows::LaidBlock;
use sets::Set;
use shapes::Block;

// A shape laid out; where its runs may end, and from where on they may without a gap.
#[derive(Clone, Copy)]
pub struct Side<'a> {
    pub layout: &'a [LaidBlock],
    pub spans: &'a [Set],
    pub runs: Runs,
}

// The rows of the block b from position p on, where s is the row at its end; gives that at p.
pub fn back_block(side: &Side, mine: Set, b: Block, p: usize, s: Set, rows: &mut [Set]) -> Set
    requires in_turn { InTurn (zone_in side.now.layout.now) (end_in side.now.layout.now) (length side.now.layout.now) }
    requires together { Together (zone_in side.now.layout.now) (end_in side.now.layout.now) (length side.now.layout.now) (set_of side.now.runs.free) (set_of side.now.runs.stops) × Spans (set_of side.now.runs.free) side.now.spans.now }
    requires upper_bound { (p + b.upper ≤ 250) × (length rows.old ≡ table_size) }
    ensures whenever_roomy { WheneverRoomy (zone_in side.now.layout.now) (end_in side.now.layout.now) (length side.now.layout.now) (set_of mine) p (meant b) (BlockKept (set_of s) rows.new p (meant b) (set_of result)) }
    ensures rows_after { RowsAfter (p + b.upper) rows.old rows.new }
{
    let mut row = s;
    for o in (0..b.upper as usize).rev() {
        let step = sets::both(sets::down(row), mine);
        let step = row_steps::with(step, s, b.lower <= o as u64);
        let closed = row_steps::back_by(side.layout, side.spans, side.runs, step);
        row = closed.row;
        rows[p + o] = row;
    }
    row
}
