// The earliest common text of two shapes, in room of its own.

#![tactic(auto)]

ghost use Rattle.std.specs.Prelude.{◌≤◌, length};
ghost use Rattle.shapes.specs.Lent.{Whole};
ghost use Rattle.common_texts.specs.Earliest.{ShowAnswer};
ghost use Rattle.shapes.specs.Shape.{block_count, most_blocks};

use common_weighs::Both;
use common_writes::Totals;

// The earliest common text of two shapes of at most 32 blocks, at the start of the output: its length, if there is one.
pub fn earliest(x: &[u64], y: &[u64], out: &mut [u8]) -> Option<usize>
    requires whole { Whole x.now × Whole y.now }
    requires x_bound { (block_count x.now ≤ most_blocks) × (block_count y.now ≤ most_blocks) }
    requires in_bounds { 250 ≤ length out.old }
    ensures { ShowAnswer x.now y.now out.old out.new result }
{
    let mut layout_x = rows::blank_layout::<{ rows::LAYOUT }>();
    let own = row_lay::lay(x, &mut layout_x);
    let mut layout_y = rows::blank_layout::<{ rows::LAYOUT }>();
    let other = row_lay::lay(y, &mut layout_y);
    let mut mines = rows::blank::<{ rows::LAYOUT }>();
    let mut rows = rows::blank::<{ rows::TABLE }>();
    common_back::back(x, y, &layout_y, &mut mines, &mut rows);
    let both = Both {
        x,
        y,
        layout_x: &layout_x,
        layout_y: &layout_y,
        mines: &mines,
        rows: &rows,
    };
    common_texts::earliest_laid(&both, Totals { own, other }, out)
}
