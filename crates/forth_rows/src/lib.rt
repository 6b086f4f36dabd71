// The rows of one block in equality's first pass, in four words or in one.

#![tactic(auto)]

ghost use Rattle.std.specs.Prelude.{◌+◌, ◌≤◌, length};
ghost use Rattle.shapes.specs.Lent.{meant};
ghost use Rattle.rows.specs.Row.{zone_in, end_in};
ghost use Rattle.rows.specs.Steps.{InTurn, Together};
ghost use Rattle.forth_rows.specs.Rows.{BlockRows, Follows, RowsKept};

use row_steps::Row;
use rows::LaidBlock;
use sets::Set;
use shapes::Block;

// The rows of the block b from position p on, which s enters; gives what the next position is entered by. Only the
// contract names the layout: a ghost value could not be picked from the other arguments.
pub fn forth<R: Row>(
    layout: &[LaidBlock],
    free: R,
    stops: R,
    mine: R,
    waits: R,
    b: Block,
    p: usize,
    s: R,
    rows: &mut [Set],
) -> R
    requires in_turn { InTurn (zone_in layout.now) (end_in layout.now) (length layout.now) }
    requires together { Together (zone_in layout.now) (end_in layout.now) (length layout.now) (R.bits free) (R.bits stops) }
    requires upper_bound { (p + b.upper ≤ 250) × (p + b.upper ≤ length rows.old) }
    requires can_rise { R.CanRise mine }
    ensures follows { Follows (zone_in layout.now) (end_in layout.now) (length layout.now) (R.bits mine) (R.bits waits) p (meant b) (R.bits s) (λ X Y. BlockRows X Y p (meant b) rows.new (R.bits result)) }
    ensures rows_kept { RowsKept p rows.old rows.new }
{
    let upper = b.upper as usize;
    let mut enter = s;
    let mut stopped = R::none();
    for o in 0..upper {
        let row = R::forth(free, stops, enter);
        rows[p + o] = row.set();
        stopped = row_steps::with(stopped, row, b.lower <= o as u64);
        enter = equal_steps::onward(row, mine, waits);
    }
    enter.either(stopped)
}
