// One row of equality's second pass, in four words or in one.

#![tactic(auto)]

ghost use Rattle.std.specs.Prelude.{◌+◌, ◌≤◌, ◌<◌, length};
ghost use Rattle.sets.specs.Set.{set_of};
ghost use Rattle.shapes.specs.Lent.{meant};
ghost use Rattle.rows.specs.Row.{zone_in, end_in};
ghost use Rattle.rows.specs.Steps.{InTurn, Together};
ghost use Rattle.back_rows.specs.Rows.{Whenever, RowBack};

use row_steps::Row;
use rows::LaidBlock;
use sets::Set;
use shapes::Block;

// What is gathered on the way back: the row, where the block at hand takes characters beside Y, where runs of Y end
// early; of X, where its runs end early and where it takes a character.
#[derive(Clone, Copy)]
pub struct Gathered {
    pub row: Set,
    pub used: Set,
    pub quit: Set,
    pub stops: Set,
    pub takes: Set,
}

// The row at o characters of a block at p, from the row after it: f is the row of the first pass, `stop` that of the
// block's end.
pub fn back<R: Row>(
    layout: &[LaidBlock],
    spans: &[Set],
    free: R,
    stops: R,
    mine: R,
    waits: R,
    b: Block,
    p: usize,
    o: usize,
    f: Set,
    stop: R,
    g: Gathered,
) -> Gathered
    requires in_turn { InTurn (zone_in layout.now) (end_in layout.now) (length layout.now) }
    requires together { Together (zone_in layout.now) (end_in layout.now) (length layout.now) (R.bits free) (R.bits stops) }
    requires spanned { R.Spanned free spans.now }
    requires o_bound { p + o < R.room }
    requires fits { R.Fits g.row }
    ensures whenever { Whenever (zone_in layout.now) (end_in layout.now) (length layout.now) (R.bits mine) (R.bits waits) p (meant b) (RowBack (set_of f) (R.bits stop) o p (meant b) g result) }
    ensures fits { R.Fits result.row }
{
    let may_end = b.lower <= o as u64;
    let at = p + o;
    let step = equal_steps::inward(R::of(g.row), mine, waits);
    let here = step.within(f);
    let early = equal_steps::lands(f, stop, may_end);
    let closed = R::back(
        layout,
        spans,
        free,
        stops,
        row_steps::with(step, stop, may_end),
    );
    let cut = closed.quit.within(f);
    Gathered {
        row: closed.row.set(),
        used: sets::either(g.used, here.set()),
        quit: sets::either(g.quit, cut.set()),
        stops: equal_steps::with_number::<R>(g.stops, at, early),
        takes: equal_steps::with_number::<R>(g.takes, at, !here.is_empty()),
    }
}
