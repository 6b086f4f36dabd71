// The earliest common text of two shapes: its first character, then the earliest text of what remains.

#![tactic(auto)]

ghost use Rattle.std.specs.Prelude.{◌≡◌, ◌≤◌, length};
ghost use Rattle.shapes.specs.Shape.{total};
ghost use Rattle.shapes.specs.Lent.{shape_of};
ghost use Rattle.row_paths.specs.Laid.{Laid, LaidOut};
ghost use Rattle.common_back.specs.Back.{EndRows};
ghost use Rattle.common_writes.specs.Code.{Started};
ghost use Rattle.common_texts.specs.Earliest.{ShowAnswer};

use common_next::Front;
use common_weighs::Both;
use common_writes::Totals;
use rows::LaidBlock;

// Where a shape stands before the first character.
fn start(shape: &[u64], layout: &[LaidBlock]) -> Front
    requires { LaidOut shape.now layout.now }
    ensures { Started shape.now result }
{
    let runs = row_steps::all_runs(layout);
    Front {
        row: row_steps::close_forth(runs, sets::single(0)),
        takes: row_steps::matching(sets::single(0), shape, layout),
        runs,
    }
}

// The same once both shapes are laid out: its length; none if from their starts not both can end.
pub fn earliest_laid(both: &Both, last: Totals, out: &mut [u8]) -> Option<usize>
    requires laid { Laid both.now.x.now both.now.layout_x.now × Laid both.now.y.now both.now.layout_y.now }
    requires end_rows { EndRows both.now.x.now both.now.y.now both.now.mines.now both.now.rows.now }
    requires own_value { (last.own ≡ total (shape_of both.now.x.now)) × (last.other ≡ total (shape_of both.now.y.now)) }
    requires in_bounds { 250 ≤ length out.old }
    ensures { ShowAnswer both.now.x.now both.now.y.now out.old out.new result }
{
    if !sets::has(both.rows[0], 0) {
        return None;
    }
    let own = start(both.x, &both.layout_x[..both.x.len() / shapes::SIZE]);
    let other = start(both.y, &both.layout_y[..both.y.len() / shapes::SIZE]);
    Some(common_writes::write(both, last, last.own, 0, own, other, out))
}
