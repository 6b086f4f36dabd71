// Narrowing under equality but for padding: both passes, then both outputs.

#![tactic(auto)]

ghost use Rattle.std.specs.Prelude.{◌≡◌, ◌≤◌, length, replicate};
ghost use Rattle.sets.specs.Set.{set_of};
ghost use Rattle.shapes.specs.Lent.{Whole};
ghost use Rattle.shapes.specs.Shape.{block_count};
ghost use Rattle.rows.specs.Row.{no_set};
ghost use Rattle.equal_back.specs.Back.{Roomed};
ghost use Rattle.pairs.specs.Narrow.{NarrowAnswer};
ghost use Rattle.pads.specs.But.{But};

use rows::LaidBlock;
use sets::Set;

// Narrows two shapes with room lent for the layout of y, the rows, and a row of each block of both for their characters.
// The padding is a set of characters; `others` is blank.
pub fn narrow_rows(
    x: &[u64],
    y: &[u64],
    pad: Set,
    layout: &mut [LaidBlock],
    mines: &mut [Set],
    rows: &mut [Set],
    own: &mut [Set],
    others: &mut [Set],
    out_x: &mut [u64],
    out_y: &mut [u64],
) -> bool
    requires whole { Whole x.now × Whole y.now }
    requires roomed { Roomed x.now y.now mines.old rows.old own.old others.old × (block_count y.now ≤ length layout.old) }
    requires x_in_bounds { (length x.now ≤ length out_x.old) × (length y.now ≤ length out_y.old) }
    requires others_value { others.old ≡ replicate (length others.old) no_set }
    ensures { NarrowAnswer (But (set_of pad)) x.now y.now out_x.old out_y.old out_x.new out_y.new result }
{
    let m = row_lay::lay(y, layout);
    let last = equal_forth::forth(x, y, layout, pad, mines, rows);
    if !sets::has(last, m) {
        return false;
    }
    let told = equal_back::back(x, y, layout, pad, mines, rows, last, own, others);
    row_blocks::narrow_blocks(x, own, told.stops, told.takes, out_x);
    row_blocks::narrow_blocks(y, others, told.quit, told.moved, out_y);
    true
}
